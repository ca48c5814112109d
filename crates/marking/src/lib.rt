#![tactic(auto)]

ghost use Rattle.std.specs.Prelude.{◌≡◌, [], reverse};
ghost use Rattle.stores.specs.Rows.{Keeps};
ghost use Rattle.model.specs.Meaning.{means as model-means};
ghost use Rattle.kinds.specs.Problems.{problem};
ghost use Rattle.spaces.specs.Tops.{opened, base_table};
ghost use Rattle.marking.specs.Marks.{meaning, IsSound, Rewinds, depth_over};
ghost use Rattle.marking.specs.Laws.{marking_laws};

use arrayvec::ArrayVec;
use filtering::filter::Start;
use kinds::kind::Kinds;
use model::model::Model;
use spaces::base::{Base, MOST};
use spaces::space::{Space, SpaceFault, State};
use tables::table::{DomainTable, TableFault};

// Restores k marks and one more.
fn rewind<T: DomainTable>(table: &mut T, k: usize) -> Result<(), TableFault>
    ensures { Keeps T.DomainTable.sound table.old table.new (Rewinds (T.DomainTable.means table.old) k (T.DomainTable.means table.new) result) }
{
    for _mark in 0..k {
        table.restore()?;
    }
    table.restore()
}

// What was taken where no take stands yet.
fn untaken() -> ArrayVec<(usize, u8), MOST>
    ensures { result.items ≡ [] }
{
    ArrayVec::new()
}

// A space that marks its table at the base and at each take.
#[derive(Drop)]
pub struct Marking<'m, T: DomainTable, K: Kinds> {
    base: Base<'m, T, K>,
    // what the takes that stand took, the oldest first
    choices: ArrayVec<(usize, u8), MOST>,
}

impl<'m, T: DomainTable, K: Kinds> Marking<'m, T, K> {
    // Opens a space over the table as its base, without a run.
    pub fn open(table: T, kinds: K, model: &'m Model) -> Marking<'m, T, K>
        ensures means { meaning K.Kinds.demands T.DomainTable.means result ≡ opened (problem K.Kinds.demands (model-means model.now) (T.DomainTable.means table).width) (T.DomainTable.means table) (depth_over (T.DomainTable.means table).depth) }
        ensures sound { T.DomainTable.sound table → IsSound T.DomainTable.sound K.Kinds.demands T.DomainTable.means result }
    {
        Marking {
            base: Base::open(table, kinds, model),
            choices: untaken(),
        }
    }

    // The table and the kinds, as they stand: without a run the table is the base.
    pub fn into_parts(self) -> (T, K)
        ensures parts { (result.0 ≡ self.entry.base.table) × (result.1 ≡ self.entry.base.kinds) }
        ensures base { (meaning K.Kinds.demands T.DomainTable.means self.entry).pile ≡ [] → T.DomainTable.means result.0 ≡ base_table (meaning K.Kinds.demands T.DomainTable.means self.entry) }
    {
        let Marking { base, choices: _ } = self;
        base.into_parts()
    }
}

impl<'m, T: DomainTable, K: Kinds> Space for Marking<'m, T, K> {
    ghost means = { meaning K.Kinds.demands T.DomainTable.means };

    ghost sound = { IsSound T.DomainTable.sound K.Kinds.demands T.DomainTable.means };

    ghost laws = { λ s sound. marking_laws K.Kinds.demands (model-means s.base.model.now) (T.DomainTable.sound s.base.table) (T.DomainTable.means s.base.table) s.base.top (reverse s.choices.items) (T.DomainTable.bounded s.base.table sound.part) sound };

    fn enter(&mut self) -> Result<(), SpaceFault> {
        if self.base.top.is_some() {
            return Err(SpaceFault::Busy(self.nodes()));
        }
        self.base.begin()
    }

    fn take(&mut self, x: usize, v: u8) -> Result<(), SpaceFault> {
        self.base.can_take(self.nodes(), x, v)?;
        if self.choices.is_full() {
            return Err(SpaceFault::NoChoice(x));
        }
        self.base.table.mark()?;
        self.base.table.keep(x, v)?;
        self.base.filtered(Start::Changed(x))?;
        self.choices.push((x, v));
        Ok(())
    }

    fn turn(&mut self) -> Result<(), SpaceFault> {
        if self.base.top.is_none() {
            return Err(SpaceFault::Idle);
        }
        let Some((x, v)) = self.choices.pop() else {
            return Err(SpaceFault::NoTake);
        };
        self.base.table.restore()?;
        self.base.table.drop(x, v)?;
        self.base.filtered(Start::Changed(x))
    }

    fn leave(&mut self) -> Result<(), SpaceFault> {
        if self.base.top.is_none() {
            return Err(SpaceFault::Idle);
        }
        rewind(&mut self.base.table, self.choices.len())?;
        self.base.top = None;
        self.choices.clear();
        Ok(())
    }

    fn state(&self) -> State {
        self.base.state()
    }

    fn variables(&self) -> usize {
        self.base.model.variables()
    }

    fn domains(&self) -> usize {
        self.base.table.variables()
    }

    fn depth(&self) -> usize {
        self.base.table.depth().saturating_sub(1).min(MOST)
    }

    fn nodes(&self) -> usize {
        match self.base.top {
            Some(_) => self.base.table.marks(),
            None => 0,
        }
    }

    fn has(&self, x: usize, v: u8) -> Result<bool, SpaceFault> {
        self.base.has(self.nodes(), x, v)
    }

    fn size(&self, x: usize) -> Result<u32, SpaceFault> {
        self.base.size(self.nodes(), x)
    }

    fn least(&self, x: usize) -> Result<Option<u8>, SpaceFault> {
        self.base.least(self.nodes(), x)
    }

    fn greatest(&self, x: usize) -> Result<Option<u8>, SpaceFault> {
        self.base.greatest(self.nodes(), x)
    }
}
