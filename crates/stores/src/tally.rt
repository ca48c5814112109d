ghost use Rattle.std.specs.Prelude.{◌≡◌};
ghost use Rattle.stores.specs.Rows.{Writes, Marks, Restores, Keeps, Unaltered};
ghost use Rattle.stores.specs.Layers.{wrote, marked, restored};

use crate::store::{Store, StoreFault};

// How many calls of each kind were accepted; a count stops at the largest u32.
#[derive(Clone, Copy, PartialEq, Eq, Debug, Drop)]
pub struct Counts {
    pub writes: u32,
    pub marks: u32,
    pub restores: u32,
}

// The store below, with a count of the calls that it accepted.
#[derive(Drop)]
pub struct Tally<S> {
    below: S,
    accepted: Counts,
}

impl<S: Store> Tally<S> {
    pub fn over(below: S) -> Tally<S>
        ensures { result ≡ record { below = below; accepted = record { writes = 0; marks = 0; restores = 0 } } }
    {
        let accepted = Counts {
            writes: 0,
            marks: 0,
            restores: 0,
        };
        Tally { below, accepted }
    }

    // The calls accepted since this layer was put over the store.
    pub fn accepted(&self) -> Counts
        ensures { result ≡ self.now.accepted }
    {
        self.accepted
    }

    // Gives the store below back.
    pub fn into_below(self) -> S
        ensures { result ≡ self.below }
    {
        let Tally { below, accepted: _ } = self;
        below
    }
}

impl<S: Store> Store for Tally<S> {
    ghost rows = { λ t. S.Store.rows t.below };

    ghost sound = { λ t. S.Store.sound t.below };

    fn size(&self) -> usize {
        self.below.size()
    }

    fn depth(&self) -> usize {
        self.below.depth()
    }

    fn marks(&self) -> usize {
        self.below.marks()
    }

    fn read(&self, cell: usize) -> Result<u64, StoreFault> {
        self.below.read(cell)
    }

    fn write(&mut self, cell: usize, value: u64) -> Result<(), StoreFault>
        ensures does { Keeps (λ t. S.Store.sound t.below) self.old self.new (Writes (S.Store.rows self.old.below) cell value (S.Store.rows self.new.below) result) }
        ensures refused { Unaltered result self.old self.new }
        ensures counts { self.new.accepted ≡ wrote result self.old.accepted }
    {
        self.below.write(cell, value)?;
        self.accepted.writes = self.accepted.writes.saturating_add(1);
        Ok(())
    }

    fn mark(&mut self) -> Result<(), StoreFault>
        ensures does { Keeps (λ t. S.Store.sound t.below) self.old self.new (Marks (S.Store.rows self.old.below) (S.Store.rows self.new.below) result) }
        ensures refused { Unaltered result self.old self.new }
        ensures counts { self.new.accepted ≡ marked result self.old.accepted }
    {
        self.below.mark()?;
        self.accepted.marks = self.accepted.marks.saturating_add(1);
        Ok(())
    }

    fn restore(&mut self) -> Result<(), StoreFault>
        ensures does { Keeps (λ t. S.Store.sound t.below) self.old self.new (Restores (S.Store.rows self.old.below) (S.Store.rows self.new.below) result) }
        ensures refused { Unaltered result self.old self.new }
        ensures counts { self.new.accepted ≡ restored result self.old.accepted }
    {
        self.below.restore()?;
        self.accepted.restores = self.accepted.restores.saturating_add(1);
        Ok(())
    }
}
