ghost use Rattle.std.specs.Prelude.{◌≡◌, [], reverse};
ghost use Rattle.model.specs.Meaning.{means as model-means};
ghost use Rattle.kinds.specs.Problems.{problem};
ghost use Rattle.spaces.specs.Tops.{opened, base_table};
ghost use Rattle.recomputing.specs.Recomputed.{meaning, IsSound, depth_over};
ghost use Rattle.recomputing.specs.Laws.{recomputing_laws};

use crate::path::{Path, Step, replay, unwind};
use filtering::filter::Start;
use kinds::kind::Kinds;
use model::model::Model;
use spaces::base::{Base, MOST};
use spaces::space::{Space, SpaceFault, State};
use tables::table::DomainTable;

// A space that marks its table at the base alone and keeps the path from there.
#[derive(Drop)]
pub struct Recomputing<'m, T: DomainTable, K: Kinds> {
    base: Base<'m, T, K>,
    // how many takes stand
    takes: usize,
    // Each step takes a value away, and there are at most 64 variables with 64 values.
    path: Path,
}

impl<'m, T: DomainTable, K: Kinds> Recomputing<'m, T, K> {
    // Opens a space over the table as its base, without a run.
    pub fn open(table: T, kinds: K, model: &'m Model) -> Recomputing<'m, T, K>
        ensures means { meaning K.Kinds.demands T.DomainTable.means result ≡ opened (problem K.Kinds.demands (model-means model.now) (T.DomainTable.means table).width) (T.DomainTable.means table) (depth_over (T.DomainTable.means table).depth) }
        ensures sound { T.DomainTable.sound table → IsSound T.DomainTable.sound K.Kinds.demands T.DomainTable.means result }
    {
        let path = Path::new();
        Recomputing {
            base: Base::open(table, kinds, model),
            takes: 0,
            path,
        }
    }

    // The table and the kinds, as they stand: without a run the table is the base.
    pub fn into_parts(self) -> (T, K)
        ensures parts { (result.0 ≡ self.entry.base.table) × (result.1 ≡ self.entry.base.kinds) }
        ensures base { (meaning K.Kinds.demands T.DomainTable.means self.entry).pile ≡ [] → T.DomainTable.means result.0 ≡ base_table (meaning K.Kinds.demands T.DomainTable.means self.entry) }
    {
        let Recomputing {
            base,
            takes: _,
            path: _,
        } = self;
        base.into_parts()
    }
}

impl<'m, T: DomainTable, K: Kinds> Space for Recomputing<'m, T, K> {
    ghost means = { meaning K.Kinds.demands T.DomainTable.means };

    ghost sound = { IsSound T.DomainTable.sound K.Kinds.demands T.DomainTable.means };

    ghost laws = { λ s sound. recomputing_laws K.Kinds.demands (model-means s.base.model.now) (T.DomainTable.sound s.base.table) (T.DomainTable.means s.base.table) s.base.top s.takes (reverse s.path) (T.DomainTable.bounded s.base.table sound.part) sound };

    fn enter(&mut self) -> Result<(), SpaceFault> {
        if self.base.top.is_some() {
            return Err(SpaceFault::Busy(self.nodes()));
        }
        self.base.begin()
    }

    fn take(&mut self, x: usize, v: u8) -> Result<(), SpaceFault> {
        self.base.can_take(self.nodes(), x, v)?;
        if self.takes >= MOST {
            return Err(SpaceFault::NoChoice(x));
        }
        if self.path.is_full() {
            return Err(SpaceFault::NoChoice(x));
        }
        self.base.table.keep(x, v)?;
        self.base.filtered(Start::Changed(x))?;
        self.path.push(Step::Take(x, v));
        self.takes += 1;
        Ok(())
    }

    fn turn(&mut self) -> Result<(), SpaceFault> {
        if self.base.top.is_none() {
            return Err(SpaceFault::Idle);
        }
        if self.takes == 0 {
            return Err(SpaceFault::NoTake);
        }
        let Some((x, v)) = unwind(&mut self.path) else {
            return Err(SpaceFault::NoTake);
        };
        self.base.table.restore()?;
        self.base.table.mark()?;
        self.path.push(Step::Drop(x, v));
        replay(&mut self.base.table, self.path.as_slice())?;
        self.base.filtered(Start::All)?;
        self.takes -= 1;
        Ok(())
    }

    fn leave(&mut self) -> Result<(), SpaceFault> {
        if self.base.top.is_none() {
            return Err(SpaceFault::Idle);
        }
        self.base.table.restore()?;
        self.base.top = None;
        self.takes = 0;
        self.path.clear();
        Ok(())
    }

    fn state(&self) -> State {
        self.base.state()
    }

    fn variables(&self) -> usize {
        self.base.model.variables()
    }

    fn domains(&self) -> usize {
        self.base.table.variables()
    }

    fn depth(&self) -> usize {
        match self.base.table.depth() {
            0 => 0,
            _ => MOST,
        }
    }

    fn nodes(&self) -> usize {
        match self.base.top {
            Some(_) => self.takes.saturating_add(1),
            None => 0,
        }
    }

    fn has(&self, x: usize, v: u8) -> Result<bool, SpaceFault> {
        self.base.has(self.nodes(), x, v)
    }

    fn size(&self, x: usize) -> Result<u32, SpaceFault> {
        self.base.size(self.nodes(), x)
    }

    fn least(&self, x: usize) -> Result<Option<u8>, SpaceFault> {
        self.base.least(self.nodes(), x)
    }

    fn greatest(&self, x: usize) -> Result<Option<u8>, SpaceFault> {
        self.base.greatest(self.nodes(), x)
    }
}
