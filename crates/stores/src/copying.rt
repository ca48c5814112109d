ghost use Rattle.std.specs.Prelude.{◌≡◌, ◌+◌, ◌*◌, ◌≤◌, ◌++◌, length, drop, replicate};
ghost use Rattle.stores.specs.Rows.{size_for, fresh, Writes, Marks, Restores, Keeps, Unaltered};

use crate::opening::{row_size, whole_rows};
use crate::store::{MOST_MARKS, Store, StoreFault};

// A store that copies its row at every mark: the row is the front of the words, and the saved rows follow it, oldest first.
#[derive(Drop)]
pub struct Copying<'a> {
    words: &'a mut [u64],
    size: usize,
    depth: usize,
    marks: usize,
    ghost small: { size ≤ 256 },
    ghost deep: { depth ≤ 65 },
    ghost few: { marks ≤ depth },
    // the words hold the row and all that can be saved
    ghost space: { size * (depth + 1) ≤ length words.now },
}

impl<'a> Copying<'a> {
    ghost use Rattle.stores.specs.Copies.{CopySound, copy_rows, copy_depth};

    // Opens a store over the words, with a row of zeros of at most the size wanted and no row saved.
    pub fn open(words: &'a mut [u64], wanted: usize) -> Copying<'a>
        ensures sound { CopySound result }
        ensures rows { copy_rows result ≡ fresh (size_for wanted (length words.old)) (copy_depth (length words.old) (size_for wanted (length words.old))) }
        ensures past { result.words.now ≡ replicate (size_for wanted (length words.old)) 0 ++ drop (size_for wanted (length words.old)) words.old }
        ensures lent { result.words.ghost_name ≡ words.entry.ghost_name }
    {
        let size = row_size(wanted, words.len());
        let depth = whole_rows(words.len(), size)
            .saturating_sub(1)
            .min(MOST_MARKS);
        words[..size].fill(0);
        Copying {
            words,
            size,
            depth,
            marks: 0,
        }
    }
}

#[tactic(auto, using(crate::proofs::Blocks::copies_saved))]
impl Store for Copying<'_> {
    ghost use Rattle.stores.specs.Copies.{CopySound, copy_rows, Past};

    ghost rows = { copy_rows };

    ghost sound = { CopySound };

    fn size(&self) -> usize {
        self.size
    }

    fn depth(&self) -> usize {
        self.depth
    }

    fn marks(&self) -> usize {
        self.marks
    }

    fn read(&self, cell: usize) -> Result<u64, StoreFault> {
        if cell >= self.size {
            return Err(StoreFault::NoCell(cell));
        }
        Ok(self.words[cell])
    }

    fn write(&mut self, cell: usize, value: u64) -> Result<(), StoreFault>
        ensures does { Keeps CopySound self.old self.new (Writes (copy_rows self.old) cell value (copy_rows self.new) result) }
        ensures refused { Unaltered result self.old self.new }
        ensures past { CopySound self.old → Past self.old self.new }
        ensures lent { self.new.words.ghost_name ≡ self.old.words.ghost_name }
    {
        if cell >= self.size {
            return Err(StoreFault::NoCell(cell));
        }
        self.words[cell] = value;
        Ok(())
    }

    fn mark(&mut self) -> Result<(), StoreFault>
        ensures does { Keeps CopySound self.old self.new (Marks (copy_rows self.old) (copy_rows self.new) result) }
        ensures refused { Unaltered result self.old self.new }
        ensures past { CopySound self.old → Past self.old self.new }
        ensures lent { self.new.words.ghost_name ≡ self.old.words.ghost_name }
    {
        if self.marks >= self.depth {
            return Err(StoreFault::Deep(self.marks));
        }
        let to = self.size * (self.marks + 1);
        self.words.copy_within(..self.size, to);
        self.marks += 1;
        Ok(())
    }

    fn restore(&mut self) -> Result<(), StoreFault>
        ensures does { Keeps CopySound self.old self.new (Restores (copy_rows self.old) (copy_rows self.new) result) }
        ensures refused { Unaltered result self.old self.new }
        ensures past { CopySound self.old → Past self.old self.new }
        ensures lent { self.new.words.ghost_name ≡ self.old.words.ghost_name }
    {
        if self.marks == 0 {
            return Err(StoreFault::NoMark);
        }
        let from = self.size * self.marks;
        self.words.copy_within(from..from + self.size, 0);
        self.marks -= 1;
        Ok(())
    }
}
