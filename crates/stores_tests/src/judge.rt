use crate::script::Call;
use std::alloc::{AllocError, Global};
use stores::store::Store;
use stores::tally::Counts;
use trial::{Refusal, told};

// A plain stack of rows, the judge of every store. It counts what it accepts.
#[derive(Drop)]
pub struct Judge {
    pub row: Vec<u64>,
    pub saved: Vec<Vec<u64>>,
    pub depth: usize,
    pub accepted: Counts,
}

impl Judge {
    pub fn new(heap: Global, size: usize, depth: usize) -> Result<Judge, AllocError> {
        Ok(Judge {
            row: vec![in heap; 0u64; size]?,
            saved: Vec::new(heap),
            depth,
            accepted: Counts {
                writes: 0,
                marks: 0,
                restores: 0,
            },
        })
    }

    fn write(&mut self, cell: usize, value: u64) -> Option<Refusal> {
        let Some(place) = self.row.get_mut(cell) else {
            return Some(Refusal {
                number: 11,
                place: cell,
            });
        };
        *place = value;
        self.accepted.writes = self.accepted.writes.wrapping_add(1);
        None
    }

    fn mark(&mut self) -> Result<Option<Refusal>, AllocError> {
        let place = self.saved.len();
        if place >= self.depth {
            return Ok(Some(Refusal { number: 12, place }));
        }
        let copy = self.row.clone()?;
        self.saved.push(copy)?;
        self.accepted.marks = self.accepted.marks.wrapping_add(1);
        Ok(None)
    }

    fn restore(&mut self) -> Option<Refusal> {
        let Some(row) = self.saved.pop() else {
            return Some(Refusal {
                number: 13,
                place: 0,
            });
        };
        self.row = row;
        self.accepted.restores = self.accepted.restores.wrapping_add(1);
        None
    }

    fn perform(&mut self, call: Call) -> Result<Option<Refusal>, AllocError> {
        match call {
            Call::Write(cell, value) => Ok(self.write(cell, value)),
            Call::Mark => self.mark(),
            Call::Restore => Ok(self.restore()),
        }
    }
}

fn perform<S: Store>(store: &mut S, call: Call) -> Option<Refusal> {
    told(match call {
        Call::Write(cell, value) => store.write(cell, value),
        Call::Mark => store.mark(),
        Call::Restore => store.restore(),
    })
}

fn refuses_cell<S: Store>(store: &S, cell: usize) -> bool {
    told(store.read(cell))
        == Some(Refusal {
            number: 11,
            place: cell,
        })
}

// The refusal at which so many marks in a row end, if one of them is refused.
pub fn marks_end<S: Store>(store: &mut S, times: usize) -> Option<Refusal> {
    (0..times).find_map(|_| perform(store, Call::Mark))
}

// Whether every question about the store is answered as the judge would.
pub fn same<S: Store>(store: &S, judge: &Judge) -> bool {
    let size = judge.row.len();
    store.size() == size
        && store.depth() == judge.depth
        && store.marks() == judge.saved.len()
        && judge
            .row
            .iter()
            .enumerate()
            .all(|(cell, value)| store.read(cell) == Ok(*value))
        && refuses_cell(store, size)
        && refuses_cell(store, usize::MAX)
}

// Runs the script on the store and on the judge, and compares every answer and, after each call, every cell.
pub fn agree<S: Store>(
    store: &mut S,
    judge: &mut Judge,
    script: &[Call],
) -> Result<bool, AllocError> {
    for call in script {
        let answer = perform(store, *call);
        if answer != judge.perform(*call)? || !same(store, judge) {
            return Ok(false);
        }
    }
    Ok(true)
}
