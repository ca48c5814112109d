// A space that keeps a copy of every node, and filters by testing every value against the rules until none goes.
use crate::sample::{Rule, Sample, listed};
use std::alloc::{AllocError, Global};
use trial::{Refusal, refused};

#[derive(Clone, Copy, Drop)]
pub enum Call {
    Enter,
    Take(usize, u8),
    Turn,
    Leave,
}

// A set of values for each variable.
pub type Sets = [u64; 64];

// A filtered table, or what is left of a table that failed.
#[derive(Clone, Copy, Drop)]
pub enum Node {
    Filtered(Sets),
    Failed(Sets),
}

// The sets of a node that lies under the top, and the take that was made there.
#[derive(Clone, Copy, Drop)]
struct Fork {
    sets: Sets,
    x: usize,
    v: u8,
}

// How many variables the table has, which marks stand, how many marks and takes can stand, and the domains.
#[derive(Clone, Copy, Drop)]
pub struct Base {
    pub domains: usize,
    pub marks: usize,
    pub room: usize,
    pub depth: usize,
    pub sets: Sets,
}

#[derive(Drop)]
pub struct Judge {
    heap: Global,
    pub sample: Sample,
    pub base: Base,
    pub top: Option<Node>,
    forks: Vec<Fork>,
}

pub fn has(set: u64, v: u8) -> bool {
    v < 64 && (set >> (v % 64)) & 1 == 1
}

pub fn count(set: u64) -> u32 {
    (0..64u8).filter(|v| has(set, *v)).count() as u32
}

fn lowest(factor: i64, set: u64) -> i64 {
    (0..64u8)
        .filter(|v| has(set, *v))
        .map(|v| factor.saturating_mul(i64::from(v)))
        .fold(i64::MAX, |low, at| low.min(at))
}

// Whether the rule can keep the value v of x, each other variable at its best.
fn keeps(rule: Rule, sets: &Sets, variables: u8, x: u8, v: u8) -> bool {
    match rule {
        Rule::Different(set) => {
            !listed(set, x)
                || !(0..variables).any(|y| {
                    let other = sets[(y % 64) as usize];
                    y != x && listed(set, y) && count(other) == 1 && has(other, v)
                })
        }
        Rule::AtMost(bound, coefficients) => {
            if x >= 8 || coefficients[x as usize] == 0 {
                return true;
            }
            let mut sum: i64 = 0;
            for (y, (coefficient, set)) in coefficients
                .iter()
                .zip(sets.iter())
                .enumerate()
                .take(variables as usize)
            {
                let factor = i64::from(*coefficient);
                if y == x as usize {
                    sum = sum.saturating_add(factor.saturating_mul(i64::from(v)));
                } else if factor != 0 {
                    sum = sum.saturating_add(lowest(factor, *set));
                }
            }
            sum <= i64::from(bound)
        }
    }
}

fn without(set: u64, v: u8) -> u64 {
    set & !(1u64 << (v % 64))
}

// The sets without the values that a rule cannot keep.
fn pruned(sample: &Sample, sets: &Sets) -> Sets {
    let mut left = *sets;
    let variables = sample.variables;
    for (x, set) in left.iter_mut().enumerate().take(variables as usize) {
        for v in 0..64u8 {
            if has(*set, v)
                && sample
                    .rules
                    .iter()
                    .any(|rule| !keeps(*rule, sets, variables, x as u8, v))
            {
                *set = without(*set, v);
            }
        }
    }
    left
}

fn filtered(sample: &Sample, sets: Sets) -> Node {
    let mut now = sets;
    for _ in 0..4097u16 {
        if now
            .iter()
            .take(sample.variables as usize)
            .any(|set| *set == 0)
        {
            return Node::Failed(now);
        }
        let left = pruned(sample, &now);
        if left == now {
            return Node::Filtered(now);
        }
        now = left;
    }
    Node::Failed(now)
}

impl Judge {
    pub fn new(heap: Global, sample: Sample, base: Base) -> Judge {
        Judge {
            heap,
            sample,
            base,
            top: None,
            forks: Vec::new(heap),
        }
    }

    pub fn nodes(&self) -> usize {
        match self.top {
            None => 0,
            Some(_) => self.forks.len().saturating_add(1),
        }
    }

    pub fn takes(&self) -> usize {
        self.forks.len()
    }

    // The set of a variable on top, or in the base without a run.
    pub fn set(&self, x: usize) -> u64 {
        match self.top {
            None => self.base.sets[x % 64],
            Some(Node::Filtered(sets)) | Some(Node::Failed(sets)) => sets[x % 64],
        }
    }

    fn enter(&mut self) -> Option<Refusal> {
        if self.top.is_some() {
            return refused(31, self.nodes());
        }
        if self.base.domains != self.sample.variables as usize || self.base.marks != 0 {
            return refused(35, self.base.marks);
        }
        if self.base.room == 0 {
            return refused(12, 0);
        }
        self.top = Some(filtered(&self.sample, self.base.sets));
        None
    }

    fn take(&mut self, x: usize, v: u8) -> Result<Option<Refusal>, AllocError> {
        let mut sets = match self.top {
            None => return Ok(refused(32, 0)),
            Some(Node::Failed(_)) => return Ok(refused(33, self.nodes())),
            Some(Node::Filtered(sets)) => sets,
        };
        let set = sets[x % 64];
        if x >= self.base.domains || count(set) < 2 || !has(set, v) {
            return Ok(refused(34, x));
        }
        if self.takes() >= self.base.depth {
            return Ok(refused(12, self.nodes()));
        }
        self.forks.push(Fork { sets, x, v })?;
        sets[x % 64] = 1u64 << (v % 64);
        self.top = Some(filtered(&self.sample, sets));
        Ok(None)
    }

    fn turn(&mut self) -> Option<Refusal> {
        if self.top.is_none() {
            return refused(32, 0);
        }
        match self.forks.pop() {
            None => refused(36, 0),
            Some(fork) => {
                let mut sets = fork.sets;
                sets[fork.x % 64] = without(sets[fork.x % 64], fork.v);
                self.top = Some(filtered(&self.sample, sets));
                None
            }
        }
    }

    fn leave(&mut self) -> Option<Refusal> {
        if self.top.is_none() {
            return refused(32, 0);
        }
        self.forks = Vec::new(self.heap);
        self.top = None;
        None
    }

    pub fn perform(&mut self, call: Call) -> Result<Option<Refusal>, AllocError> {
        match call {
            Call::Enter => Ok(self.enter()),
            Call::Take(x, v) => self.take(x, v),
            Call::Turn => Ok(self.turn()),
            Call::Leave => Ok(self.leave()),
        }
    }
}
