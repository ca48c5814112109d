ghost use Rattle.std.specs.Prelude.{◌≡◌, length};
ghost use Rattle.stores.specs.Rows.{Keeps, Unaltered};
ghost use Rattle.tables.specs.States.{TableState, Bounds};
ghost use Rattle.tables.specs.Calls.{number, place, Tells, Shows, Sizes, Leasts, Greatests, Drops, KeepsOnly, Marks, Restores};
ghost use Rattle.tables.specs.declared.table.TableFault.TheVariants.{Store as FromStore};

use bits::Set;
use faults::Fault;
use stores::store::StoreFault;

// Why a domain table refused a call.
#[derive(Clone, Copy, PartialEq, Eq, Debug)]
pub enum TableFault {
    // The table has no such variable, or no such value; it holds the variable asked for.
    NoSuch(usize),
    // The store below refused.
    Store(StoreFault),
}

impl From<StoreFault> for TableFault {
    ghost from_gives = { λ e r. r ≡ FromStore e };

    fn from(e: StoreFault) -> TableFault {
        TableFault::Store(e)
    }
}

impl Fault for TableFault {
    ghost number = { number };

    ghost place = { place };

    fn number(&self) -> u8 {
        match self {
            TableFault::NoSuch(_) => 21,
            TableFault::Store(fault) => fault.number(),
        }
    }

    fn place(&self) -> usize {
        match self {
            TableFault::NoSuch(variable) => *variable,
            TableFault::Store(fault) => fault.place(),
        }
    }
}

// A domain for each variable, with a stack of saved tables. Everything above is written against `means`, never against one table.
pub trait DomainTable {
    // what the table means
    ghost means: { Self → TableState };

    // what holds of every table that came from opening and calls, and all that a promise assumes
    ghost sound: { Self → Type 0 };

    // the law of a sound table: a proof for every one
    ghost bounded: { (t : Self) → sound t → Bounds (means t) };

    // The number of variables.
    fn variables(&self) -> usize
        ensures { sound self.now → result ≡ (means self.now).variables };

    // The number below which every value lies.
    fn width(&self) -> usize
        ensures { sound self.now → result ≡ (means self.now).width };

    // The most tables that can be saved at a time.
    fn depth(&self) -> usize
        ensures { sound self.now → result ≡ (means self.now).depth };

    // The number of tables that are saved.
    fn marks(&self) -> usize
        ensures { sound self.now → result ≡ length (means self.now).saved };

    // Whether v is in the domain of x.
    fn has(&self, x: usize, v: u8) -> Result<bool, TableFault>
        ensures { sound self.now → Tells (means self.now) x v result };

    // The domain of x.
    fn domain(&self, x: usize) -> Result<Set, TableFault>
        ensures { sound self.now → Shows (means self.now) x result };

    // How many values are in the domain of x.
    fn size(&self, x: usize) -> Result<u32, TableFault>
        ensures { sound self.now → Sizes (means self.now) x result };

    // The least value of x, or none.
    fn least(&self, x: usize) -> Result<Option<u8>, TableFault>
        ensures { sound self.now → Leasts (means self.now) x result };

    // The greatest value of x, or none.
    fn greatest(&self, x: usize) -> Result<Option<u8>, TableFault>
        ensures { sound self.now → Greatests (means self.now) x result };

    // Takes v from the domain of x, and answers whether the domain got smaller.
    fn drop(&mut self, x: usize, v: u8) -> Result<bool, TableFault>
        ensures does { Keeps sound self.old self.new (Drops (means self.old) x v (means self.new) result) }
        ensures refused { Unaltered result self.old self.new };

    // Leaves only v in the domain of x, or nothing if v was absent, and answers whether the domain got smaller.
    fn keep(&mut self, x: usize, v: u8) -> Result<bool, TableFault>
        ensures does { Keeps sound self.old self.new (KeepsOnly (means self.old) x v (means self.new) result) }
        ensures refused { Unaltered result self.old self.new };

    // Saves the whole table.
    fn mark(&mut self) -> Result<(), TableFault>
        ensures does { Keeps sound self.old self.new (Marks (means self.old) (means self.new) result) }
        ensures refused { Unaltered result self.old self.new };

    // Takes the table saved last back off the stack.
    fn restore(&mut self) -> Result<(), TableFault>
        ensures does { Keeps sound self.old self.new (Restores (means self.old) (means self.new) result) }
        ensures refused { Unaltered result self.old self.new };
}
