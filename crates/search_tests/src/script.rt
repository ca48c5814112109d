// Sessions with calls by chance.
use crate::judge::{Judge, MOST};
use faults::Fault;
use search::rule::Rule;
use search::search::{Answer, Search};
use spaces::space::{Space, State};
use std::alloc::{AllocError, Global};
use trial::{mixed, refused, told};

fn untouched(row: &[u8]) -> bool {
    row.iter().all(|v| *v == 99)
}

// Visits node by node, in a session of its own.
pub fn learnt<P: Space, R: Rule>(
    heap: Global,
    search: &mut Search<P, R>,
) -> Result<Option<Judge>, AllocError> {
    let mut judge = Judge::new(heap);
    match search.begin() {
        Err(_) => Ok(None),
        Ok(ticket) => {
            let learnt = visit_all(search, &mut judge);
            let _ = search.close(ticket);
            if learnt? { Ok(Some(judge)) } else { Ok(None) }
        }
    }
}

fn visit_all<P: Space, R: Rule>(
    search: &mut Search<P, R>,
    judge: &mut Judge,
) -> Result<bool, AllocError> {
    for _ in 0..10000u32 {
        let mut row = [0; MOST];
        match search.next(1, &mut row) {
            Ok(Answer::Plan(_)) => judge.learns(Some(row))?,
            Ok(Answer::Spent(_)) => judge.learns(None)?,
            Ok(Answer::Done(count)) => {
                if count == 1 {
                    judge.learns(None)?;
                }
                return Ok(true);
            }
            Err(_) => return Ok(false),
        }
    }
    Ok(false)
}

// The sizes of all domains, as digits.
fn sizes_of<P: Space, R: Rule>(search: &Search<P, R>) -> u64 {
    let mut sum = 0u64;
    for x in 0..search.space().domains() {
        if let Ok(size) = search.space().size(x) {
            sum = sum.wrapping_mul(65).wrapping_add(u64::from(size));
        }
    }
    sum
}

// A search against its judge, over so many variables.
#[derive(Drop)]
struct Bout<'a, P: Space, R: Rule> {
    search: &'a mut Search<P, R>,
    judge: &'a mut Judge,
    n: usize,
}

impl<'a, P: Space, R: Rule> Bout<'a, P, R> {
    // One call of next with a long row: the answer is the judge's, and the row is as it was but for a plan at its front.
    fn next_agrees(&mut self, budget: u64) -> bool {
        let n = self.n;
        let mut row = [99; MOST];
        let Ok(answer) = self.search.next(budget, &mut row) else {
            return false;
        };
        let (expected, plan) = self.judge.next(budget);
        if answer != expected {
            return false;
        }
        match plan {
            None => untouched(&row),
            Some(values) => {
                row.iter().take(n).eq(values.iter().take(n)) && row.iter().skip(n).all(|v| *v == 99)
            }
        }
    }

    // Calls that are refused inside a session.
    fn refuses(&mut self) -> bool {
        let mut short: [u8; 0] = [];
        let mut row = [99; MOST];
        let begun = match self.search.begin() {
            Ok(ticket) => {
                let _ = self.search.close(ticket);
                false
            }
            Err(fault) => fault.number() == 42 && fault.place() == 0,
        };
        begun
            && (self.n == 0 || told(self.search.next(0, &mut short)) == refused(44, 0))
            && told(self.search.next(0, &mut row)) == refused(45, 0)
            && untouched(&row)
    }

    // With no session the space is as it was opened, and next is refused.
    fn rests(&mut self, sizes: u64) -> bool {
        let mut row = [99; MOST];
        told(self.search.next(5, &mut row)) == refused(43, 0)
            && untouched(&row)
            && self.search.space().state() == State::NoRun
            && self.search.space().nodes() == 0
            && sizes_of(self.search) == sizes
    }

    // Calls of a session that is open.
    fn calls(&mut self, seed: u64) -> bool {
        let mut seed = seed;
        let calls = seed % 60;
        for _ in 0..calls {
            seed = mixed(seed);
            let agreed = if seed % 5 == 0 {
                self.refuses()
            } else {
                self.next_agrees(1 + (seed >> 8) % 6)
            };
            if !agreed {
                return false;
            }
        }
        true
    }

    // One session from its begin to its close.
    fn session(&mut self, seed: u64) -> bool {
        self.judge.counted = 0;
        let Ok(ticket) = self.search.begin() else {
            return false;
        };
        let agreed = self.calls(seed);
        self.search.close(ticket).is_ok() && agreed
    }

    // Some sessions, each closed where it happens to stand.
    fn sessions(&mut self, seed: u64) -> bool {
        let sizes = sizes_of(self.search);
        let mut seed = seed;
        for _ in 0..20u8 {
            seed = mixed(seed);
            if !self.rests(sizes) || !self.session(seed) {
                return false;
            }
        }
        self.rests(sizes)
    }
}

// Whether a search of so many variables answers as its judge in some sessions.
pub fn sessions_agree<P: Space, R: Rule>(
    search: &mut Search<P, R>,
    judge: &mut Judge,
    n: usize,
    seed: u64,
) -> bool {
    let mut bout = Bout { search, judge, n };
    bout.sessions(seed)
}
