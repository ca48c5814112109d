ghost use Rattle.std.specs.Prelude.{◌≡◌, ℕ};
ghost use Rattle.tree.specs.Filter.{Problem};
ghost use Rattle.tree.specs.Search.{Rule as Answering, Picks};
ghost use Rattle.tree.specs.Rules.{first, small};
ghost use Rattle.search.specs.Choosing.{chosen, rule, replaces, settles, Prefers, Tried};
ghost use Rattle.search.specs.Lawful.{first-lawful, small-lawful};

use spaces::space::{Space, SpaceFault};

// A branching rule: at an open node, the variable that is decided next and the value that is tried first.
pub trait Rule {
    // what the rule answers for a table of n variables with values below w, and for nothing else
    ghost picks: { Self → ℕ → ℕ → Answering };

    // a pair exactly where no domain is empty and one is open; then the variable is open and the value is in its domain
    ghost lawful: { (r : Self) (P : Problem) → Picks P (picks r P.variables P.width) };

    // The rule's answer at the top of the space, or at the base without a run; none at a failed node.
    fn pick<P: Space>(&self, space: &P) -> Option<(usize, u8)>
        ensures { P.Space.sound space.now → result ≡ chosen (P.Space.means space.now) (picks self.now) };
}

// The lowest open variable, and its least value.
#[derive(Clone, Copy, Drop)]
pub struct First;

// The open variable of smallest size, the lowest of equal size, and its greatest value.
#[derive(Clone, Copy, Drop)]
pub struct Small;

// Which open variable is preferred: the lowest, or the smallest and the lowest of these.
#[derive(Clone, Copy)]
enum Preference {
    Lowest,
    Smallest,
}

impl Preference {
    // Whether an open variable of this size is preferred to the best one, a lower variable with its size.
    fn replaces(&self, best: Option<(usize, u32)>, size: u32) -> bool
        ensures { result ≡ replaces self.now best size }
    {
        let Some((_, least)) = best else {
            return true;
        };
        match self {
            Preference::Lowest => false,
            Preference::Smallest => size < least,
        }
    }

    // The value of an open variable that is tried first: the least of the lowest, the greatest of the smallest.
    fn tried<P: Space>(&self, space: &P, x: usize) -> Result<Option<u8>, SpaceFault>
        ensures { P.Space.sound space.now → Tried (P.Space.means space.now) self.now x result }
    {
        match self {
            Preference::Lowest => space.least(x),
            Preference::Smallest => space.greatest(x),
        }
    }

    // Whether no later variable is preferred to an open one of this size. In a run no domain is empty; without one a later domain
    // may be, and then there is no answer.
    fn settles(&self, run: bool, size: u32) -> bool
        ensures { result ≡ settles self.now run size }
    {
        if !run {
            return false;
        }
        match self {
            Preference::Lowest => true,
            Preference::Smallest => size == 2,
        }
    }
}

// The preferred open variable on top, or none where a domain is empty or no variable is open.
fn preferred<P: Space>(space: &P, preference: Preference) -> Option<usize>
    ensures { P.Space.sound space.now → Prefers (P.Space.means space.now) preference result }
{
    let run = space.nodes() > 0;
    let mut best: Option<(usize, u32)> = None;
    for x in 0..space.variables() {
        let Ok(size) = space.size(x) else {
            return None;
        };
        if size == 0 {
            return None;
        }
        if size > 1 && preference.replaces(best, size) {
            best = Some((x, size));
            if preference.settles(run, size) {
                return Some(x);
            }
        }
    }
    let (x, _) = best?;
    Some(x)
}

// The preferred open variable and the value that is tried first.
fn decided<P: Space>(space: &P, preference: Preference) -> Option<(usize, u8)>
    ensures { P.Space.sound space.now → result ≡ chosen (P.Space.means space.now) (rule preference) }
{
    let x = preferred(space, preference)?;
    match preference.tried(space, x) {
        Ok(Some(v)) => Some((x, v)),
        Ok(None) => None,
        Err(_) => None,
    }
}

impl Rule for First {
    ghost picks = { λ _. first };

    ghost lawful = { first-lawful };

    fn pick<P: Space>(&self, space: &P) -> Option<(usize, u8)> {
        decided(space, Preference::Lowest)
    }
}

impl Rule for Small {
    ghost picks = { λ _. small };

    ghost lawful = { small-lawful };

    fn pick<P: Space>(&self, space: &P) -> Option<(usize, u8)> {
        decided(space, Preference::Smallest)
    }
}
