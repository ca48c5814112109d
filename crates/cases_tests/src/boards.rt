// What stores and searches answer, held against what is claimed.
use model::values::Window;
use search::rule::Rule;
use search::search::{Answer, Search};
use spaces::space::Space;
use stores::store::Store;
use trial::told;

// The longest plan of the cases.
const MOST: usize = 8;

// As many marks as the depth are accepted, and the next is refused with the number.
pub fn stops_after<S: Store>(store: &mut S, depth: usize, number: u8) -> bool {
    for _ in 0..depth {
        if store.mark().is_err() {
            return false;
        }
    }
    match told(store.mark()) {
        Some(refusal) => refusal.number == number,
        None => false,
    }
}

// What is claimed of a search, in a session of its own.
pub trait Claims {
    fn holds<P: Space, R: Rule>(&self, search: &mut Search<P, R>) -> bool;
}

pub fn in_session<C: Claims, P: Space, R: Rule>(claim: &C, search: &mut Search<P, R>) -> bool {
    match search.begin() {
        Err(_) => false,
        Ok(ticket) => {
            let holds = claim.holds(search);
            match search.close(ticket) {
                Ok(()) => holds,
                Err(_) => false,
            }
        }
    }
}

// The domains at the root, the plans one after another, and how many nodes there are.
#[derive(Clone, Copy)]
pub struct Grown<'a> {
    pub root: &'a [Window],
    pub plans: &'a [u8],
    pub nodes: u64,
}

// What calls with a budget answer.
#[derive(Clone, Copy)]
pub struct Called<'a> {
    pub budget: u64,
    pub answers: &'a [Answer],
}

// The domains on top are the windows.
fn is_root<P: Space>(space: &P, root: &[Window]) -> bool {
    if space.variables() != root.len() {
        return false;
    }
    for (x, window) in root.iter().enumerate() {
        for v in 0..64u8 {
            let Ok(has) = space.has(x, v) else {
                return false;
            };
            if has != (window.low <= v && v < window.high) {
                return false;
            }
        }
    }
    true
}

// The values from `from` on are at the front of the row.
fn continues(plans: &[u8], from: usize, row: &[u8], n: usize) -> bool {
    plans.iter().skip(from).take(n).eq(row.iter().take(n))
}

impl Claims for Grown<'_> {
    fn holds<P: Space, R: Rule>(&self, search: &mut Search<P, R>) -> bool {
        if !is_root(search.space(), self.root) {
            return false;
        }
        let n = self.root.len();
        let mut given = 0usize;
        let mut nodes = 0u64;
        for _ in 0..1000u32 {
            let mut row = [0; MOST];
            match search.next(u64::MAX, &mut row) {
                Ok(Answer::Plan(count)) => {
                    nodes = nodes.saturating_add(count);
                    if !continues(self.plans, given, &row, n) {
                        return false;
                    }
                    given = given.saturating_add(n);
                }
                Ok(Answer::Done(count)) => {
                    return given == self.plans.len() && nodes.saturating_add(count) == self.nodes;
                }
                _ => return false,
            }
        }
        false
    }
}

impl Claims for Called<'_> {
    fn holds<P: Space, R: Rule>(&self, search: &mut Search<P, R>) -> bool {
        for answer in self.answers {
            let mut row = [0; MOST];
            match search.next(self.budget, &mut row) {
                Ok(given) => {
                    if given != *answer {
                        return false;
                    }
                }
                Err(_) => return false,
            }
        }
        true
    }
}
