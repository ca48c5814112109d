ghost use Rattle.std.specs.Prelude.{◌≡◌, ℕ, ◌+◌, ◌<◌, ◌≤◌, ◌&&◌, ◌||◌, List, ◌++◌, length, nat_eq, slice_index_or};
ghost use Rattle.std.specs.List.{AllByRecursion};
ghost use Rattle.bits.specs.Bit.{has};
ghost use Rattle.model.specs.Drafts.{none};
ghost use Rattle.model.specs.Reading.{window_at, term_at, variable_at, among};
ghost use Rattle.model.specs.Scans.{read_by, named_in};
ghost use Rattle.model.specs.Fronts.{ReadsFront, window_front, term_front, listed_front};

use crate::entries::Entries;
use crate::scan::word;
use crate::values::{Term, Window};
use arrayvec::ArrayVec;
use bits::Set;

// What a record lists: so many bytes each.
pub(crate) trait Entry: Copy + Default {
    ghost read: { List ℕ → Self };

    ghost each: { ℕ };

    // No byte behind the entry counts.
    ghost front: { ReadsFront each read };

    fn read(entry: &[u8]) -> Self
        requires { length entry.now ≡ each }
        ensures { result ≡ read entry.now };
}

impl Entry for Window {
    ghost read = { window_at };

    ghost each = { 2 };

    ghost front = { window_front };

    fn read(entry: &[u8]) -> Window {
        Window {
            low: entry[0],
            high: entry[1],
        }
    }
}

impl Entry for Term {
    ghost read = { term_at };

    ghost each = { 3 };

    ghost front = { term_front };

    fn read(entry: &[u8]) -> Term {
        Term {
            variable: entry[0],
            coefficient: word(&entry[1..]).cast_signed(),
        }
    }
}

// A listed variable.
impl Entry for u8 {
    ghost read = { variable_at };

    ghost each = { 1 };

    ghost front = { listed_front };

    fn read(entry: &[u8]) -> u8 {
        entry[0]
    }
}

// Reads the entries, and puts them behind those that are there.
pub(crate) fn fill<E: Entry, const MOST: usize>(
    items: &mut ArrayVec<E, MOST>,
    entries: &Entries<'_>,
)
    requires { (entries.now.each ≡ E.Entry.each) × (length items.old.items + entries.now.count ≤ MOST) }
    ensures { items.new.items ≡ items.old.items ++ read_by E.Entry.read entries.now }
{
    for entry in entries.bytes.chunks_exact(entries.each) {
        items.push(E::read(entry));
    }
}

// Adds the record to the sets of the variables that its entries name.
pub(crate) fn note_names(naming: &mut [Set], record: usize, entries: &Entries<'_>)
    requires { («record» < 64) × (AllByRecursion (λ x. x < length naming.old) (named_in entries.now)) }
    ensures { (x r : ℕ) → x < length naming.old → has (slice_index_or naming.new x none).word r ≡ (has (slice_index_or naming.old x none).word r || (nat_eq r «record» && among x (named_in entries.now))) }
{
    for entry in entries.bytes.chunks_exact(entries.each) {
        let x = entry[0] as usize;
        let set = naming[x];
        naming[x] = set.with(record);
    }
}
