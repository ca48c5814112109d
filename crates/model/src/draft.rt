ghost use Rattle.std.specs.Prelude.{◌≡◌, ◌+◌, ◌≤◌, true, false, ◌&&◌, length, nat_lt, nat_le};
ghost use Rattle.model.specs.Drafts.{stored_records, are_placed, Noted};
ghost use Rattle.model.specs.Values.{entries};

use crate::entries::Entries;
use crate::fill::{fill, note_names};
use crate::form::RecordKind;
use crate::scan::long;
use crate::values::{Term, Window};
use arrayvec::ArrayVec;
use bits::Set;

// Where the entries of a constraint record lie: `count` of them from `from` on.
#[derive(Clone, Copy)]
pub(crate) enum Stored {
    AtMost {
        bound: i32,
        from: usize,
        count: usize,
    },
    Different {
        from: usize,
        count: usize,
    },
}

// What stands where no record is.
impl Default for Stored {
    fn default() -> Stored {
        Stored::Different { from: 0, count: 0 }
    }
}

// A model while it is read: its windows, its records and their entries, and for each variable the set of records
// that name it.
#[derive(Drop)]
pub(crate) struct Draft {
    pub windows: ArrayVec<Window, 64>,
    pub stored: ArrayVec<Stored, 64>,
    pub terms: ArrayVec<Term, 1024>,
    pub distinct: ArrayVec<u8, 1024>,
    pub naming: [Set; 64],
    ghost long: { length naming ≡ 64 },
    ghost variables: { length windows.items ≤ 64 },
    ghost few: { length stored.items ≤ 64 },
    ghost entries: { entries (stored_records terms.items distinct.items stored.items) ≡ length terms.items + length distinct.items },
    ghost most: { length terms.items + length distinct.items ≤ 1024 },
    ghost placed: { are_placed (length terms.items) (length distinct.items) stored.items ≡ true },
    ghost noted: { Noted naming (stored_records terms.items distinct.items stored.items) },
}

impl Draft {
    ghost use Rattle.model.specs.Drafted.{drafted};
    ghost use Rattle.model.specs.Reading.{extended, is_misplaced, nothing, term_at, with_record};
    ghost use Rattle.model.specs.Scans.{Ready, AreEntriesOf, read_by, named_in};
    ghost use Rattle.model.specs.Values.{at_most, different};

    // No variable and no record yet.
    pub(crate) fn empty() -> Draft
        ensures { drafted result ≡ nothing }
    {
        Draft {
            windows: ArrayVec::new(),
            stored: ArrayVec::new(),
            terms: ArrayVec::new(),
            distinct: ArrayVec::new(),
            naming: [Set { word: 0 }; 64],
        }
    }

    // Whether there is room for one more record, with so many entries.
    pub(crate) fn has_room(&self, count: usize) -> bool
        ensures { result ≡ (nat_lt (length self.now.stored.items) 64 && nat_le (length self.now.terms.items + length self.now.distinct.items + count) 1024) }
    {
        self.stored.len() < 64 && count <= 1024 - (self.terms.len() + self.distinct.len())
    }

    // Adds the sum of these terms, which have passed every test.
    fn add_sum(&mut self, bound: i32, terms: &Entries<'_>)
        requires { (terms.now.each ≡ 3) × Ready self.old terms.now }
        ensures { drafted self.new ≡ with_record (drafted self.old) (at_most bound (read_by term_at terms.now)) }
    {
        let from = self.terms.len();
        note_names(&mut self.naming, self.stored.len(), terms);
        fill(&mut self.terms, terms);
        self.stored.push(Stored::AtMost {
            bound,
            from,
            count: terms.count,
        });
    }

    // Adds these variables, which have passed every test.
    fn add_listed(&mut self, variables: &Entries<'_>)
        requires { (variables.now.each ≡ 1) × Ready self.old variables.now }
        ensures { drafted self.new ≡ with_record (drafted self.old) (different (named_in variables.now)) }
    {
        let from = self.distinct.len();
        note_names(&mut self.naming, self.stored.len(), variables);
        fill(&mut self.distinct, variables);
        self.stored.push(Stored::Different {
            from,
            count: variables.count,
        });
    }

    // Adds the constraint record that `left` begins with, whose entries have passed every test.
    pub(crate) fn add(&mut self, left: &[u8], kind: RecordKind, entries: &Entries<'_>)
        requires { (Ready self.old entries.now) × (AreEntriesOf kind left.now entries.now) × (is_misplaced false kind ≡ false) }
        ensures { drafted self.new ≡ extended kind (drafted self.old) left.now }
    {
        match kind {
            RecordKind::Windows => {}
            RecordKind::AtMost => self.add_sum(long(&left[5..]).cast_signed(), entries),
            RecordKind::Different => self.add_listed(entries),
        }
    }
}
