// Opens word tables over stores of given sizes, runs scripts on them, and looks at the store afterwards.
use crate::judge::{Judge, agree, same};
use crate::script::Call;
use model::model::Model;
use model::values::Window;
use std::alloc::{AllocError, Global};
use stores::ceiling::Ceiling;
use stores::copying::Copying;
use stores::store::Store;
use stores::tally::Tally;
use stores::trail::Trail;
use tables::table::DomainTable;
use tables::words::WordTable;
use trial::{CELL, ENTRY, Over};

// What is written to every cell before a table is opened.
const DIRT: u64 = 0xa5a5_0000_ffff_1234;

// Leaves dirty cells and some marks standing.
fn soil<S: Store>(store: &mut S, marks: usize) {
    for i in 0..store.size() {
        let _ = store.write(i, DIRT);
    }
    for _ in 0..marks {
        let _ = store.mark();
        let _ = store.write(0, !DIRT);
    }
}

// Whether the digits 1 of each cell are the values of its variable, and the other cells are as dirty as before the first mark.
fn holds<S: Store>(store: &S, judge: &Judge) -> bool {
    (0..store.size()).all(|i| match store.read(i) {
        Ok(word) if i < judge.variables() => {
            (0..64u8).all(|v| ((word >> v) & 1 == 1) == judge.has(i, v))
        }
        Ok(word) => word == DIRT,
        Err(_) => false,
    })
}

// The sizes of the memory lent to the store, and the most marks that its layers let through.
#[derive(Clone, Copy, Drop)]
pub struct Case {
    pub cells: usize,
    pub depth: usize,
    pub most: usize,
}

// A model with its windows, and what is called on the tables that are opened from it.
#[derive(Clone, Copy, Drop)]
pub struct Run<'a> {
    pub heap: Global,
    pub model: &'a Model,
    pub windows: &'a [Window],
    pub script: &'a [Call],
}

impl Run<'_> {
    // Opens a table over the store as it is left by others, and runs the script.
    fn agrees_over<S: Store + Drop>(&self, store: S) -> Result<bool, AllocError> {
        let mut store = store;
        let depth = store.depth();
        soil(&mut store, depth.min(3));
        let mut judge = Judge::new(self.heap, self.windows, store.size(), depth)?;
        let mut table = WordTable::open(self.model, store);
        let agreed = same(&table, &judge) && agree(&mut table, &mut judge, self.script)?;
        Ok(agreed && holds(&table.into_store(), &judge))
    }

    pub fn agrees(&self, case: Case, over: Over) -> Result<bool, AllocError> {
        let saved = case.cells.saturating_mul(case.depth);
        match over {
            Over::Trail => {
                let mut cells = vec![in self.heap; CELL; case.cells]?;
                let mut entries = vec![in self.heap; ENTRY; saved]?;
                let store = Trail::open(cells.as_mut_slice(), entries.as_mut_slice(), case.cells);
                self.agrees_over(store)
            }
            Over::Copies => {
                let mut words = vec![in self.heap; 9u64; saved.saturating_add(case.cells)]?;
                self.agrees_over(Copying::open(words.as_mut_slice(), case.cells))
            }
            Over::Layers => {
                let mut words = vec![in self.heap; 9u64; saved.saturating_add(case.cells)]?;
                let below = Copying::open(words.as_mut_slice(), case.cells);
                self.agrees_over(Ceiling::over(Tally::over(below), case.most))
            }
        }
    }
}
