ghost use Rattle.std.specs.Prelude.{◌≡◌};
ghost use Rattle.tables.specs.Words.{meaning, Room, Cell, CellFor, words_bounded};

mod opening;

use crate::table::{DomainTable, TableFault};
use bits::Set;
use stores::store::Store;

// The number of values that a cell has room for.
const WIDTH: usize = 64;

// A domain table over any store: v is in the domain of the variable x where the digit v of the cell x is 1.
// The store may have more cells than the table has variables.
#[derive(Drop)]
pub struct WordTable<S> {
    store: S,
    variables: usize,
}

impl<S: Store> WordTable<S> {
    // The store, with its marks as they stand.
    pub fn into_store(self) -> S
        ensures { result ≡ self.store }
    {
        let WordTable {
            store,
            variables: _,
        } = self;
        store
    }

    // The domain of x.
    fn cell(&self, x: usize) -> Result<Set, TableFault>
        ensures { S.Store.sound self.now.store → Room self.now.variables (S.Store.rows self.now.store) → Cell self.now.variables (S.Store.rows self.now.store).row x result }
    {
        if x >= self.variables {
            return Err(TableFault::NoSuch(x));
        }
        Ok(Set::from(self.store.read(x)?))
    }

    // The domain of x, where v is a value.
    #[tactic(auto, using(crate::specs::Words::digits_are))]
    fn cell_for(&self, x: usize, v: u8) -> Result<Set, TableFault>
        ensures { S.Store.sound self.now.store → Room self.now.variables (S.Store.rows self.now.store) → CellFor self.now.variables (S.Store.rows self.now.store).row x v result }
    {
        if usize::from(v) >= WIDTH {
            return Err(TableFault::NoSuch(x));
        }
        self.cell(x)
    }
}

impl<S: Store> DomainTable for WordTable<S> {
    ghost means = { λ t. meaning t.variables (S.Store.rows t.store) };

    ghost sound = { λ t. S.Store.sound t.store × Room t.variables (S.Store.rows t.store) };

    ghost bounded = { λ t sound. words_bounded t.variables (S.Store.rows t.store) sound.1 };

    fn variables(&self) -> usize {
        self.variables
    }

    #[tactic(auto, using(crate::specs::Words::digits_are))]
    fn width(&self) -> usize {
        WIDTH
    }

    fn depth(&self) -> usize {
        self.store.depth()
    }

    fn marks(&self) -> usize {
        self.store.marks()
    }

    fn has(&self, x: usize, v: u8) -> Result<bool, TableFault> {
        Ok(self.cell_for(x, v)?.has(usize::from(v)))
    }

    fn domain(&self, x: usize) -> Result<Set, TableFault> {
        self.cell(x)
    }

    fn size(&self, x: usize) -> Result<u32, TableFault> {
        Ok(self.cell(x)?.size())
    }

    fn least(&self, x: usize) -> Result<Option<u8>, TableFault> {
        Ok(self.cell(x)?.least())
    }

    fn greatest(&self, x: usize) -> Result<Option<u8>, TableFault> {
        Ok(self.cell(x)?.greatest())
    }

    fn drop(&mut self, x: usize, v: u8) -> Result<bool, TableFault> {
        let cell = self.cell_for(x, v)?;
        let v = usize::from(v);
        if !cell.has(v) {
            return Ok(false);
        }
        self.store.write(x, cell.without(v).word)?;
        Ok(true)
    }

    fn keep(&mut self, x: usize, v: u8) -> Result<bool, TableFault> {
        let cell = self.cell_for(x, v)?;
        let v = usize::from(v);
        if cell.without(v).is_empty() {
            return Ok(false);
        }
        self.store.write(x, cell.only(v).word)?;
        Ok(true)
    }

    fn mark(&mut self) -> Result<(), TableFault> {
        Ok(self.store.mark()?)
    }

    fn restore(&mut self) -> Result<(), TableFault> {
        Ok(self.store.restore()?)
    }
}
