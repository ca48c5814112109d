ghost use Rattle.std.specs.Prelude.{◌≡◌, length};
ghost use Rattle.stores.specs.Rows.{number, place, Rows, Reads, Writes, Marks, Restores, Keeps, Unaltered};

use faults::Fault;

// The longest row that a store opens with.
pub const MOST_CELLS: usize = 256;

// The most rows that a store saves at a time.
pub const MOST_MARKS: usize = 65;

// Why a store refused a call.
#[derive(Clone, Copy, PartialEq, Eq, Debug)]
pub enum StoreFault {
    // The row has no such cell; it holds the cell asked for.
    NoCell(usize),
    // No further row can be saved; it holds how many are.
    Deep(usize),
    // No row is saved.
    NoMark,
}

impl Fault for StoreFault {
    ghost number = { number };

    ghost place = { place };

    fn number(&self) -> u8 {
        match self {
            StoreFault::NoCell(_) => 11,
            StoreFault::Deep(_) => 12,
            StoreFault::NoMark => 13,
        }
    }

    fn place(&self) -> usize {
        match self {
            StoreFault::NoCell(place) | StoreFault::Deep(place) => *place,
            StoreFault::NoMark => 0,
        }
    }
}

// A row of cells with a stack of saved rows. Everything above is written against `rows`, never against one store.
pub trait Store {
    // what the store means
    ghost rows: { Self → Rows };

    // what holds of every store that came from opening and calls, and all that a promise assumes
    ghost sound: { Self → Type 0 };

    // The number of cells in the row.
    fn size(&self) -> usize
        ensures { sound self.now → result ≡ length (rows self.now).row };

    // The most rows that can be saved at a time.
    fn depth(&self) -> usize
        ensures { sound self.now → result ≡ (rows self.now).depth };

    // The number of rows that are saved.
    fn marks(&self) -> usize
        ensures { sound self.now → result ≡ length (rows self.now).saved };

    // A cell of the row.
    fn read(&self, cell: usize) -> Result<u64, StoreFault>
        ensures { sound self.now → Reads (rows self.now) cell result };

    // Replaces a cell of the row.
    fn write(&mut self, cell: usize, value: u64) -> Result<(), StoreFault>
        ensures does { Keeps sound self.old self.new (Writes (rows self.old) cell value (rows self.new) result) }
        ensures refused { Unaltered result self.old self.new };

    // Saves the row.
    fn mark(&mut self) -> Result<(), StoreFault>
        ensures does { Keeps sound self.old self.new (Marks (rows self.old) (rows self.new) result) }
        ensures refused { Unaltered result self.old self.new };

    // Takes the row saved last back off the stack.
    fn restore(&mut self) -> Result<(), StoreFault>
        ensures does { Keeps sound self.old self.new (Restores (rows self.old) (rows self.new) result) }
        ensures refused { Unaltered result self.old self.new };
}
