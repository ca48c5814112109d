// Runs a script on stores over memory of given sizes, and looks at that memory afterwards.
use crate::judge::{Judge, agree, same};
use crate::script::Call;
use std::alloc::{AllocError, Global};
use stores::ceiling::Ceiling;
use stores::copying::Copying;
use stores::store::Store;
use stores::tally::{Counts, Tally};
use stores::trail::{Cell, Entry, Trail};

// What all memory holds before a store is opened over it.
const OLD: u64 = 9;

const OLD_CELL: Cell = Cell {
    value: OLD,
    stamp: 9,
};

const OLD_ENTRY: Entry = Entry {
    cell: 3,
    value: OLD,
    stamp: 9,
};

// Whether the row is at the front of the cells, and the cells past it are as they were.
fn cells_hold(cells: &[Cell], row: &[u64]) -> bool {
    row.len() <= cells.len()
        && cells
            .iter()
            .zip(row)
            .all(|(cell, value)| cell.value == *value)
        && cells
            .iter()
            .skip(row.len())
            .all(|cell| cell.value == OLD && cell.stamp == 9)
}

// Whether the row is at the front of the words, and the words from `reach` on are as they were.
fn words_hold(words: &[u64], row: &[u64], reach: usize) -> bool {
    words.starts_with(row) && words.iter().skip(reach).all(|word| *word == OLD)
}

// The layers that a script is run through.
#[derive(Clone, Copy, Drop)]
pub enum Layers {
    Bare,
    TallyOverCeiling(usize),
    CeilingOverTally(usize),
}

// Runs the script through layers of which one cuts the depth to `most`. Then `off` takes them off and says what they counted.
fn agree_cut<S: Store + Drop, L: Store, F: FnOnce(L) -> (Counts, S)>(
    layers: L,
    off: F,
    most: usize,
    judge: &mut Judge,
    script: &[Call],
) -> Result<bool, AllocError>
    requires { F.IsAlwaysCallable off }
{
    let depth = judge.depth;
    judge.depth = depth.min(most);
    let mut layers = layers;
    let agreed = agree(&mut layers, judge, script);
    judge.depth = depth;
    let (accepted, below) = off(layers);
    Ok(agreed? && accepted == judge.accepted && same(&below, judge))
}

fn agree_through<S: Store + Drop>(
    layers: Layers,
    store: S,
    judge: &mut Judge,
    script: &[Call],
) -> Result<bool, AllocError> {
    if !same(&store, judge) {
        return Ok(false);
    }
    match layers {
        Layers::Bare => {
            let mut store = store;
            agree(&mut store, judge, script)
        }
        Layers::TallyOverCeiling(most) => agree_cut(
            Tally::over(Ceiling::over(store, most)),
            |layers: Tally<Ceiling<S>>| (layers.accepted(), layers.into_below().into_below()),
            most,
            judge,
            script,
        ),
        Layers::CeilingOverTally(most) => agree_cut(
            Ceiling::over(Tally::over(store), most),
            |layers: Ceiling<Tally<S>>| {
                let tally = layers.into_below();
                (tally.accepted(), tally.into_below())
            },
            most,
            judge,
            script,
        ),
    }
}

// How much memory is lent to a store, and to which.
#[derive(Clone, Copy, Drop)]
pub enum Memory {
    Trail { cells: usize, entries: usize },
    Copies { words: usize },
}

// The memory lent to a store, and the size and depth that it should be opened with.
#[derive(Clone, Copy, Drop)]
pub struct Case {
    pub memory: Memory,
    pub wanted: usize,
    pub size: usize,
    pub depth: usize,
}

impl Case {
    pub fn agrees(
        &self,
        heap: Global,
        layers: Layers,
        script: &[Call],
    ) -> Result<bool, AllocError> {
        let mut judge = Judge::new(heap, self.size, self.depth)?;
        match self.memory {
            Memory::Trail { cells, entries } => {
                let mut cells = vec![in heap; OLD_CELL; cells]?;
                let mut entries = vec![in heap; OLD_ENTRY; entries]?;
                let store = Trail::open(cells.as_mut_slice(), entries.as_mut_slice(), self.wanted);
                let agreed = agree_through(layers, store, &mut judge, script)?;
                Ok(agreed && cells_hold(&cells, &judge.row))
            }
            Memory::Copies { words } => {
                let mut words = vec![in heap; OLD; words]?;
                let store = Copying::open(words.as_mut_slice(), self.wanted);
                let agreed = agree_through(layers, store, &mut judge, script)?;
                let reach = self.size.saturating_mul(self.depth.saturating_add(1));
                Ok(agreed && words_hold(&words, &judge.row, reach))
            }
        }
    }
}
