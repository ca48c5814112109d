ghost use Rattle.std.specs.Prelude.{◌≡◌, ℕ, ◌+◌, ◌≤◌, [], ◌∷◌, length, take, drop};
ghost use Rattle.std.specs.List.{slice_get};
ghost use Rattle.bits.specs.Bit.{has};
ghost use Rattle.model.specs.Drafts.{does_name};
ghost use Rattle.model.specs.Meaning.{means, windows, records};
ghost use Rattle.model.specs.Promises.{Reads, Shows, fresh};

use super::Model;
use crate::draft::{Draft, Stored};
use crate::fault::ModelFault;
use crate::read::draft_of;
use crate::values::{Term, Window};
use bits::Set;

// One constraint record, its entries lent from the model.
#[derive(Clone, Copy)]
pub enum Constraint<'a> {
    AtMost { bound: i32, terms: &'a [Term] },
    Different { variables: &'a [u8] },
}

// The `count` items from `from` on.
fn part<T>(items: &[T], from: usize, count: usize) -> &[T]
    requires { from + count ≤ length items.now }
    ensures { result.now ≡ take count (drop from items.now) }
{
    &items[from..from + count]
}

impl Model {
    // One variable, with the window 0 to 1, and no constraint.
    pub fn fresh() -> Model
        ensures { means result ≡ fresh }
    {
        let mut draft = Draft::empty();
        draft.windows.push(Window { low: 0, high: 1 });
        Model { draft }
    }

    // Fills the place from model bytes, or refuses them and leaves it as it was.
    pub fn read(&mut self, bytes: &[u8]) -> Result<(), ModelFault>
        ensures { Reads bytes.now self.old self.new result }
    {
        let draft = draft_of(bytes)?;
        *self = Model { draft };
        Ok(())
    }

    pub fn variables(&self) -> usize
        ensures { result ≡ length (windows self.now) }
    {
        self.draft.windows.len()
    }

    pub fn window(&self, x: usize) -> Option<Window>
        ensures { result ≡ slice_get (windows self.now) x }
    {
        self.draft.windows.get(x).copied()
    }

    // How many constraint records there are.
    pub fn records(&self) -> usize
        ensures { result ≡ length (records self.now) }
    {
        self.draft.stored.len()
    }

    pub fn constraint(&self, i: usize) -> Option<Constraint<'_>>
        ensures { Shows (records self.now) i result }
    {
        if i >= self.draft.stored.len() {
            return None;
        }
        let stored = self.draft.stored[i];
        match stored {
            Stored::AtMost { bound, from, count } => Some(Constraint::AtMost {
                bound,
                terms: part(&self.draft.terms, from, count),
            }),
            Stored::Different { from, count } => Some(Constraint::Different {
                variables: part(&self.draft.distinct, from, count),
            }),
        }
    }

    // The constraint records that name the variable.
    pub fn naming(&self, x: usize) -> Set
        ensures { (i : ℕ) → has result.word i ≡ does_name (records self.now) i x }
    {
        if x >= self.draft.windows.len() {
            return Set::empty();
        }
        self.draft.naming[x]
    }
}
