ghost use Rattle.std.specs.Prelude.{◌≡◌, ℕ, ◌*◌, ◌<◌, ◌≤◌, ◌++◌, length, drop, replicate, slice_index};
ghost use Rattle.stores.specs.Rows.{size_for, fresh, Writes, Marks, Restores, Keeps, Unaltered};
ghost use Rattle.stores.specs.Entries.{blank};

use crate::opening::{row_size, whole_rows};
use crate::store::{MOST_MARKS, Store, StoreFault};
use arrayvec::ArrayVec;

// A cell of the row: what it holds, and how many marks stood when it was last saved.
#[derive(Clone, Copy, Drop)]
pub struct Cell {
    pub value: u64,
    pub stamp: usize,
}

// What a cell held before a write.
#[derive(Clone, Copy, Drop)]
pub struct Entry {
    pub cell: usize,
    pub value: u64,
    pub stamp: usize,
}

// A store that keeps what writes replace: a mark saves nothing yet, and a cell is saved at its first write after a mark.
// Whether it was saved already, its stamp tells (Aggoun and Beldiceanu 1990). The entries before `used` are in use;
// `starts` says how many were at each standing mark.
#[derive(Drop)]
pub struct Trail<'a> {
    cells: &'a mut [Cell],
    entries: &'a mut [Entry],
    size: usize,
    depth: usize,
    used: usize,
    starts: ArrayVec<usize, MOST_MARKS>,
    ghost row: { size ≤ length cells.now },
    // the entries hold all that so many marks can save
    ghost room: { size * depth ≤ length entries.now },
    ghost deep: { depth ≤ 65 },
    ghost few: { length starts.items ≤ depth },
    ghost in_use: { used ≤ length entries.now },
    ghost begun: { (k : ℕ) → k < length starts.items → slice_index starts.items k ≤ length entries.now },
}

impl<'a> Trail<'a> {
    ghost use Rattle.stores.specs.Trails.{TrailSound, trail_rows, trail_depth, Undid};

    // Opens a store over the cells and the entries, with a row of zeros of at most the size wanted and no row saved.
    pub fn open(cells: &'a mut [Cell], entries: &'a mut [Entry], wanted: usize) -> Trail<'a>
        ensures sound { TrailSound result }
        ensures rows { trail_rows result ≡ fresh (size_for wanted (length cells.old)) (trail_depth (length entries.old) (size_for wanted (length cells.old))) }
        ensures size { result.size ≡ size_for wanted (length cells.old) }
        ensures past { result.cells.now ≡ replicate (size_for wanted (length cells.old)) blank ++ drop (size_for wanted (length cells.old)) cells.old }
        ensures entries { result.entries ≡ entries.entry }
        ensures lent { result.cells.ghost_name ≡ cells.entry.ghost_name }
    {
        let size = row_size(wanted, cells.len());
        let depth = whole_rows(entries.len(), size).min(MOST_MARKS);
        cells[..size].fill(Cell { value: 0, stamp: 0 });
        Trail {
            cells,
            entries,
            size,
            depth,
            used: 0,
            starts: ArrayVec::new(),
        }
    }

    // Takes the entries from `from` on back off, newest first, and puts back what they hold.
    fn undo(&mut self, from: usize)
        requires { from ≤ length self.old.entries.now }
        ensures { Undid self.old from self.new }
    {
        for last in (from..self.used).rev() {
            let Entry { cell, value, stamp } = self.entries[last];
            if cell < self.size {
                self.cells[cell] = Cell { value, stamp };
            }
        }
        self.used = from;
    }
}

#[tactic(auto, using(crate::proofs::Undoing::marks_saved))]
impl Store for Trail<'_> {
    ghost use Rattle.stores.specs.Trails.{TrailSound, trail_rows, Past};

    ghost rows = { trail_rows };

    ghost sound = { TrailSound };

    fn size(&self) -> usize {
        self.size
    }

    fn depth(&self) -> usize {
        self.depth
    }

    fn marks(&self) -> usize {
        self.starts.len()
    }

    fn read(&self, cell: usize) -> Result<u64, StoreFault> {
        if cell >= self.size {
            return Err(StoreFault::NoCell(cell));
        }
        Ok(self.cells[cell].value)
    }

    fn write(&mut self, cell: usize, value: u64) -> Result<(), StoreFault>
        ensures does { Keeps TrailSound self.old self.new (Writes (trail_rows self.old) cell value (trail_rows self.new) result) }
        ensures refused { Unaltered result self.old self.new }
        ensures past { Past self.old self.new }
        ensures lent { self.new.cells.ghost_name ≡ self.old.cells.ghost_name }
    {
        if cell >= self.size {
            return Err(StoreFault::NoCell(cell));
        }
        let marks = self.starts.len();
        let old = self.cells[cell];
        if old.stamp != marks && self.used < self.entries.len() {
            self.entries[self.used] = Entry {
                cell,
                value: old.value,
                stamp: old.stamp,
            };
            self.used += 1;
        }
        self.cells[cell] = Cell {
            value,
            stamp: marks,
        };
        Ok(())
    }

    fn mark(&mut self) -> Result<(), StoreFault>
        ensures does { Keeps TrailSound self.old self.new (Marks (trail_rows self.old) (trail_rows self.new) result) }
        ensures refused { Unaltered result self.old self.new }
        ensures past { Past self.old self.new }
        ensures lent { self.new.cells.ghost_name ≡ self.old.cells.ghost_name }
    {
        let marks = self.starts.len();
        if marks >= self.depth {
            return Err(StoreFault::Deep(marks));
        }
        self.starts.push(self.used);
        Ok(())
    }

    fn restore(&mut self) -> Result<(), StoreFault>
        ensures does { Keeps TrailSound self.old self.new (Restores (trail_rows self.old) (trail_rows self.new) result) }
        ensures refused { Unaltered result self.old self.new }
        ensures past { Past self.old self.new }
        ensures lent { self.new.cells.ghost_name ≡ self.old.cells.ghost_name }
    {
        let Some(from) = self.starts.pop() else {
            return Err(StoreFault::NoMark);
        };
        self.undo(from);
        Ok(())
    }
}
