// What a caller knows of the memory that it lent, once the store is gone: here it is proved from the stores' promises alone.
ghost use Rattle.std.specs.Prelude.{◌≡◌, length, drop};

use stores::copying::Copying;
use stores::store::{Store, StoreFault};
use stores::trail::{Cell, Entry, Trail};

// A trail of two cells over five leaves the other three alone.
pub fn trail_of_two(cells: &mut [Cell], entries: &mut [Entry], value: u64) -> Result<(), StoreFault>
    ensures { length cells.old ≡ 5 → drop 2 cells.new ≡ drop 2 cells.old }
{
    let mut store = Trail::open(cells, entries, 2);
    store.mark()?;
    store.write(1, value)?;
    store.restore()
}

// A store of copies of two words over five has room for one saved row, and leaves the last word alone.
pub fn copies_of_two(words: &mut [u64], value: u64) -> Result<(), StoreFault>
    ensures { length words.old ≡ 5 → drop 4 words.new ≡ drop 4 words.old }
{
    let mut store = Copying::open(words, 2);
    store.mark()?;
    store.write(1, value)
}
