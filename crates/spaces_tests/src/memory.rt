// Opens both spaces over each kind of store.
use crate::agree::{agree_by_chance, agree_on_a_chain, same};
use crate::judge::{Base, Judge, has};
use crate::sample::Sample;
use bank::standard::standard;
use marking::Marking;
use model::model::Model;
use recomputing::recomputing::Recomputing;
use spaces::space::Space;
use std::alloc::{AllocError, Global};
use stores::ceiling::Ceiling;
use stores::copying::Copying;
use stores::store::Store;
use stores::tally::Tally;
use stores::trail::Trail;
use tables::table::DomainTable;
use tables::words::WordTable;
use trial::{CELL, ENTRY, Over};

// The memory that is lent, marks that stand at the base, a variable whose domain is emptied there, and the script.
#[derive(Clone, Copy, Drop)]
pub struct Case {
    pub cells: usize,
    pub depth: usize,
    pub marks: usize,
    pub emptied: Option<usize>,
    pub seed: u64,
    pub steps: u32,
}

// A model, the sample that it was read from, and the heap.
#[derive(Clone, Copy, Drop)]
pub struct Given<'m> {
    pub heap: Global,
    pub model: &'m Model,
    pub sample: Sample,
}

fn span(high: u8) -> u64 {
    (0..high.min(64)).fold(0, |set: u64, v| set | 1u64 << (v % 64))
}

impl Case {
    fn judge(&self, given: Given<'_>, room: usize, depth: usize) -> Judge {
        let sample = given.sample;
        let domains = self.cells.min(sample.variables as usize);
        let mut sets = [0u64; 64];
        for (x, set) in sets.iter_mut().enumerate().take(domains) {
            if self.emptied != Some(x) {
                *set = span(sample.high);
            }
        }
        let base = Base {
            domains,
            marks: self.marks.min(room),
            room,
            depth,
            sets,
        };
        Judge::new(given.heap, sample, base)
    }

    fn prepared<S: Store>(&self, model: &Model, store: S) -> WordTable<S> {
        let mut table = WordTable::open(model, store);
        if let Some(x) = self.emptied {
            for v in 0..64u8 {
                let _ = table.drop(x, v);
            }
        }
        for _ in 0..self.marks {
            let _ = table.mark();
        }
        table
    }

    // Runs the scripts on the space and on the judge, and ends the run.
    fn agrees_on<S: Space>(&self, space: &mut S, judge: &mut Judge) -> Result<bool, AllocError> {
        let agreed = same(space, judge)
            && agree_on_a_chain(space, judge)?
            && agree_by_chance(space, judge, self.seed, self.steps)?;
        let _ = space.leave();
        Ok(agreed)
    }

    // Whether the table is the base again, with just its saved tables.
    fn given_back<T: DomainTable>(&self, table: &T, base: &Base) -> bool {
        table.marks() == base.marks
            && (0..base.domains).all(|x| {
                let set = base.sets[x % 64];
                (0..64u8).all(|v| table.has(x, v) == Ok(has(set, v)))
            })
    }

    fn marking<S: Store + Drop>(&self, given: Given<'_>, store: S) -> Result<bool, AllocError> {
        let table = self.prepared(given.model, store);
        let room = table.depth();
        let mut judge = self.judge(given, room, room.saturating_sub(1).min(64));
        let mut space = Marking::open(table, standard(), given.model);
        let agreed = self.agrees_on(&mut space, &mut judge)?;
        let (table, _) = space.into_parts();
        Ok(agreed && self.given_back(&table, &judge.base))
    }

    fn recomputing<S: Store + Drop>(&self, given: Given<'_>, store: S) -> Result<bool, AllocError> {
        let table = self.prepared(given.model, store);
        let room = table.depth();
        let depth = if room == 0 { 0 } else { 64 };
        let mut judge = self.judge(given, room, depth);
        let mut space = Recomputing::open(table, standard(), given.model);
        let agreed = self.agrees_on(&mut space, &mut judge)?;
        let (table, _) = space.into_parts();
        Ok(agreed && self.given_back(&table, &judge.base))
    }

    // Runs the scripts on one space, and then on the other over the same memory.
    pub fn agrees(&self, given: Given<'_>, over: Over) -> Result<bool, AllocError> {
        let heap = given.heap;
        let size = self.cells;
        let saved = size.saturating_mul(self.depth);
        match over {
            Over::Trail => {
                let mut cells = vec![in heap; CELL; size]?;
                let mut entries = vec![in heap; ENTRY; saved]?;
                let store = Trail::open(cells.as_mut_slice(), entries.as_mut_slice(), size);
                let marking = self.marking(given, store)?;
                let store = Trail::open(cells.as_mut_slice(), entries.as_mut_slice(), size);
                Ok(marking && self.recomputing(given, store)?)
            }
            Over::Copies => {
                let mut words = vec![in heap; 9u64; saved.saturating_add(size)]?;
                let store = Copying::open(words.as_mut_slice(), size);
                let marking = self.marking(given, store)?;
                let store = Copying::open(words.as_mut_slice(), size);
                Ok(marking && self.recomputing(given, store)?)
            }
            Over::Layers => {
                let mut words = vec![in heap; 9u64; saved.saturating_add(size)]?;
                let most = self.depth / 2;
                let below = Tally::over(Copying::open(words.as_mut_slice(), size));
                let marking = self.marking(given, Ceiling::over(below, most))?;
                let below = Tally::over(Copying::open(words.as_mut_slice(), size));
                Ok(marking && self.recomputing(given, Ceiling::over(below, most))?)
            }
        }
    }
}
