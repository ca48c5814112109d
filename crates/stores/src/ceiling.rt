ghost use Rattle.std.specs.Prelude.{◌≡◌};
ghost use Rattle.stores.specs.Layers.{lowered};

use crate::store::{Store, StoreFault};

// The store below with its depth cut to at most `most`.
#[derive(Drop)]
pub struct Ceiling<S> {
    below: S,
    most: usize,
}

impl<S: Store> Ceiling<S> {
    pub fn over(below: S, most: usize) -> Ceiling<S>
        ensures { result ≡ record { below = below; most = most } }
    {
        Ceiling { below, most }
    }

    // Gives the store below back.
    pub fn into_below(self) -> S
        ensures { result ≡ self.below }
    {
        let Ceiling { below, most: _ } = self;
        below
    }
}

impl<S: Store> Store for Ceiling<S> {
    ghost rows = { λ t. lowered t.most (S.Store.rows t.below) };

    ghost sound = { λ t. S.Store.sound t.below };

    fn size(&self) -> usize {
        self.below.size()
    }

    fn depth(&self) -> usize {
        self.below.depth().min(self.most)
    }

    fn marks(&self) -> usize {
        self.below.marks()
    }

    fn read(&self, cell: usize) -> Result<u64, StoreFault> {
        self.below.read(cell)
    }

    fn write(&mut self, cell: usize, value: u64) -> Result<(), StoreFault> {
        self.below.write(cell, value)
    }

    fn mark(&mut self) -> Result<(), StoreFault> {
        let marks = self.below.marks();
        if marks >= self.most {
            return Err(StoreFault::Deep(marks));
        }
        self.below.mark()
    }

    fn restore(&mut self) -> Result<(), StoreFault> {
        self.below.restore()
    }
}
