ghost use Rattle.std.specs.Prelude.{◌≡◌, length};
ghost use Rattle.stores.specs.Rows.{Keeps, Unaltered};
ghost use Rattle.spaces.specs.Pile.{SpaceState, Laws};
ghost use Rattle.spaces.specs.Calls.{number, place, Enters, Takes, Turns, Leaves, state_of, Tells, Sizes, Leasts, Greatests};
ghost use Rattle.spaces.specs.declared.space.SpaceFault.TheVariants.{Table as FromTable};

use faults::Fault;
use tables::table::TableFault;

// Why a space refused a call.
#[derive(Clone, Copy, PartialEq, Eq, Debug)]
pub enum SpaceFault {
    // A run stands, with so many nodes on the pile.
    Busy(usize),
    // No run stands.
    Idle,
    // The node on top failed; so many nodes are on the pile.
    Failed(usize),
    // This variable is not open, or the value is not in its domain.
    NoChoice(usize),
    // The table has not the model's variables, or so many marks stand.
    Base(usize),
    // No take stands.
    NoTake,
    // The table below refused.
    Table(TableFault),
}

impl From<TableFault> for SpaceFault {
    ghost from_gives = { λ e r. r ≡ FromTable e };

    fn from(e: TableFault) -> SpaceFault {
        SpaceFault::Table(e)
    }
}

impl Fault for SpaceFault {
    ghost number = { number };

    ghost place = { place };

    fn number(&self) -> u8 {
        match self {
            SpaceFault::Busy(_) => 31,
            SpaceFault::Idle => 32,
            SpaceFault::Failed(_) => 33,
            SpaceFault::NoChoice(_) => 34,
            SpaceFault::Base(_) => 35,
            SpaceFault::NoTake => 36,
            SpaceFault::Table(fault) => fault.number(),
        }
    }

    fn place(&self) -> usize {
        match self {
            SpaceFault::Busy(at)
            | SpaceFault::Failed(at)
            | SpaceFault::NoChoice(at)
            | SpaceFault::Base(at) => *at,
            SpaceFault::Idle | SpaceFault::NoTake => 0,
            SpaceFault::Table(fault) => fault.place(),
        }
    }
}

// What lies on top of the pile.
#[derive(Clone, Copy, PartialEq, Eq, Debug)]
pub enum State {
    // Nothing: no run stands.
    NoRun,
    // A filtered table with an open variable.
    Open,
    // A filtered table of single values.
    Plan,
    // A failed node.
    Failed,
}

// A base table, a model, and a pile of nodes with the choices between them. The calls alter only pile and choices. Search and
// branching rules are written against `means`, never against one space.
pub trait Space {
    // what the space means
    ghost means: { Self → SpaceState };

    // what holds of every space that came from opening and calls, and all that a promise assumes
    ghost sound: { Self → Type 0 };

    // the laws of a sound space: a proof for every one
    ghost laws: { (s : Self) → sound s → Laws (means s) };

    // Puts the filtered base, or a failure, on the pile: a run begins.
    fn enter(&mut self) -> Result<(), SpaceFault>
        ensures does { Keeps sound self.old self.new (Enters (means self.old) (means self.new) result) }
        ensures refused { sound self.old → Unaltered result self.old self.new };

    // Puts on the filtering of the top with x kept at v.
    fn take(&mut self, x: usize, v: u8) -> Result<(), SpaceFault>
        ensures does { Keeps sound self.old self.new (Takes (means self.old) x v (means self.new) result) }
        ensures refused { sound self.old → Unaltered result self.old self.new };

    // Takes the top off, and replaces the node below by its filtering without the value of the last take, which stands no more.
    fn turn(&mut self) -> Result<(), SpaceFault>
        ensures does { Keeps sound self.old self.new (Turns (means self.old) (means self.new) result) }
        ensures refused { sound self.old → Unaltered result self.old self.new };

    // Empties the pile: the run ends.
    fn leave(&mut self) -> Result<(), SpaceFault>
        ensures does { Keeps sound self.old self.new (Leaves (means self.old) (means self.new) result) }
        ensures refused { sound self.old → Unaltered result self.old self.new };

    // What lies on top.
    fn state(&self) -> State
        ensures { sound self.now → result ≡ state_of (means self.now) };

    // The number n of the model's variables.
    fn variables(&self) -> usize
        ensures { sound self.now → result ≡ (means self.now).problem.variables };

    // The number of the table's variables: n too where a run stands.
    fn domains(&self) -> usize
        ensures { sound self.now → result ≡ (means self.now).variables };

    // How many takes can stand at a time.
    fn depth(&self) -> usize
        ensures { sound self.now → result ≡ (means self.now).depth };

    // How many nodes lie on the pile.
    fn nodes(&self) -> usize
        ensures { sound self.now → result ≡ length (means self.now).pile };

    // Whether v is in the domain of x, on top or in the base without a run.
    fn has(&self, x: usize, v: u8) -> Result<bool, SpaceFault>
        ensures { sound self.now → Tells (means self.now) x v result };

    // How many values are in the domain of x.
    fn size(&self, x: usize) -> Result<u32, SpaceFault>
        ensures { sound self.now → Sizes (means self.now) x result };

    // The least value of x, or none.
    fn least(&self, x: usize) -> Result<Option<u8>, SpaceFault>
        ensures { sound self.now → Leasts (means self.now) x result };

    // The greatest value of x, or none.
    fn greatest(&self, x: usize) -> Result<Option<u8>, SpaceFault>
        ensures { sound self.now → Greatests (means self.now) x result };
}
