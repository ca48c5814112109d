ghost use Rattle.std.specs.Prelude.{◌≡◌, None, length};
ghost use Rattle.stores.specs.Rows.{Keeps, Unaltered};
ghost use Rattle.model.specs.Meaning.{means as model-means};
ghost use Rattle.kinds.specs.Problems.{problem};
ghost use Rattle.filtering.specs.Filters.{Begins};
ghost use Rattle.spaces.specs.Calls.{Told, Sized, Lowest, Highest, state};
ghost use Rattle.spaces.specs.Tops.{topmost};
ghost use Rattle.spaces.specs.Bases.{Unfailed, Asked, CanTake, Lands, Starts};

use crate::ask::{chosen, some_open};
use crate::space::{SpaceFault, State};
use filtering::filter::{Start, filter};
use filtering::list::WaitingList;
use kinds::kind::Kinds;
use model::model::Model;
use tables::table::DomainTable;

// Takes never outnumber the variables, of which a model has at most 64.
pub const MOST: usize = 64;

// What the table of a run is.
#[derive(Clone, Copy, PartialEq, Eq, Debug)]
pub enum Top {
    // A filtered table.
    Live,
    // What is left of a table that failed.
    Failed,
}

// What every space holds: a table with its kinds, the model, which it borrows, and what lies on top where a run stands.
#[derive(Drop)]
pub struct Base<'m, T: DomainTable, K: Kinds> {
    pub table: T,
    kinds: K,
    pub model: &'m Model,
    list: WaitingList,
    pub top: Option<Top>,
}

impl<'m, T: DomainTable, K: Kinds> Base<'m, T, K> {
    // Over the table, without a run.
    pub fn open(table: T, kinds: K, model: &'m Model) -> Base<'m, T, K>
        ensures parts { (result.table ≡ table) × (result.kinds ≡ kinds) × (result.model.now ≡ model.now) }
        ensures idle { result.top ≡ None }
    {
        Base {
            table,
            kinds,
            model,
            list: WaitingList::new(),
            top: None,
        }
    }

    // The table and the kinds, as they stand.
    pub fn into_parts(self) -> (T, K)
        ensures { (result.0 ≡ self.entry.table) × (result.1 ≡ self.entry.kinds) }
    {
        let Base {
            table,
            kinds,
            model: _,
            list: _,
            top: _,
        } = self;
        (table, kinds)
    }

    // Filters the table; what comes of it lies on top.
    pub fn filtered(&mut self, start: Start) -> Result<(), SpaceFault>
        ensures does { Keeps (λ b. T.DomainTable.sound b.table) self.old self.new ((T.DomainTable.means self.old.table).variables ≡ length (model-means self.old.model.now).windows → Begins (problem K.Kinds.demands (model-means self.old.model.now) (T.DomainTable.means self.old.table).width) start (T.DomainTable.means self.old.table).domains → Lands (problem K.Kinds.demands (model-means self.old.model.now) (T.DomainTable.means self.old.table).width) (T.DomainTable.means self.old.table) (T.DomainTable.means self.new.table) self.new.top result) }
        ensures model { self.new.model ≡ self.old.model }
    {
        let alive = filter(
            &mut self.table,
            self.model,
            &self.kinds,
            &mut self.list,
            start,
        )?;
        self.top = Some(if alive { Top::Live } else { Top::Failed });
        Ok(())
    }

    // Begins a run where the table has the model's variables and no marks: marks the table, and filters it.
    pub fn begin(&mut self) -> Result<(), SpaceFault>
        ensures does { Keeps (λ b. T.DomainTable.sound b.table) self.old self.new (Starts K.Kinds.demands (model-means self.old.model.now) (T.DomainTable.means self.old.table) (T.DomainTable.means self.new.table) self.new.top result) }
        ensures model { self.new.model ≡ self.old.model }
        ensures refused { T.DomainTable.sound self.old.table → Unaltered result self.old self.new }
    {
        let marks = self.table.marks();
        if self.table.variables() != self.model.variables() || marks != 0 {
            return Err(SpaceFault::Base(marks));
        }
        self.table.mark()?;
        self.filtered(Start::All)
    }

    // A failed top has no domains to ask for; so many nodes are on the pile.
    fn unfailed(&self, nodes: usize) -> Result<(), SpaceFault>
        ensures { Unfailed self.now.top nodes result }
    {
        match self.top {
            Some(Top::Failed) => Err(SpaceFault::Failed(nodes)),
            Some(Top::Live) | None => Ok(()),
        }
    }

    // A take needs a table that lives, and a value of an open variable; so many nodes are on the pile.
    pub fn can_take(&self, nodes: usize, x: usize, v: u8) -> Result<(), SpaceFault>
        ensures { T.DomainTable.sound self.now.table → CanTake self.now.top nodes (T.DomainTable.means self.now.table).domains x v result }
    {
        match self.top {
            None => Err(SpaceFault::Idle),
            Some(Top::Failed) => Err(SpaceFault::Failed(nodes)),
            Some(Top::Live) => {
                if chosen(&self.table, x, v) {
                    Ok(())
                } else {
                    Err(SpaceFault::NoChoice(x))
                }
            }
        }
    }

    // Whether v is in the domain of x, where so many nodes are on the pile.
    pub fn has(&self, nodes: usize, x: usize, v: u8) -> Result<bool, SpaceFault>
        ensures { T.DomainTable.sound self.now.table → Asked self.now.top nodes (T.DomainTable.means self.now.table).domains (Told (T.DomainTable.means self.now.table).variables (T.DomainTable.means self.now.table).width x v) result }
    {
        self.unfailed(nodes)?;
        Ok(self.table.has(x, v)?)
    }

    // How many values are in the domain of x.
    pub fn size(&self, nodes: usize, x: usize) -> Result<u32, SpaceFault>
        ensures { T.DomainTable.sound self.now.table → Asked self.now.top nodes (T.DomainTable.means self.now.table).domains (Sized (T.DomainTable.means self.now.table).variables (T.DomainTable.means self.now.table).width x) result }
    {
        self.unfailed(nodes)?;
        Ok(self.table.size(x)?)
    }

    // The least value of x, or none.
    pub fn least(&self, nodes: usize, x: usize) -> Result<Option<u8>, SpaceFault>
        ensures { T.DomainTable.sound self.now.table → Asked self.now.top nodes (T.DomainTable.means self.now.table).domains (Lowest (T.DomainTable.means self.now.table).variables x) result }
    {
        self.unfailed(nodes)?;
        Ok(self.table.least(x)?)
    }

    // The greatest value of x, or none.
    pub fn greatest(&self, nodes: usize, x: usize) -> Result<Option<u8>, SpaceFault>
        ensures { T.DomainTable.sound self.now.table → Asked self.now.top nodes (T.DomainTable.means self.now.table).domains (Highest (T.DomainTable.means self.now.table).variables x) result }
    {
        self.unfailed(nodes)?;
        Ok(self.table.greatest(x)?)
    }

    // What lies on top.
    pub fn state(&self) -> State
        ensures { T.DomainTable.sound self.now.table → result ≡ state (T.DomainTable.means self.now.table).variables (T.DomainTable.means self.now.table).width (topmost self.now.top (T.DomainTable.means self.now.table).domains) }
    {
        match self.top {
            None => State::NoRun,
            Some(Top::Failed) => State::Failed,
            Some(Top::Live) => {
                if some_open(&self.table) {
                    State::Open
                } else {
                    State::Plan
                }
            }
        }
    }
}
