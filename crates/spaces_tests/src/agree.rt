// Compares a space with the judge, call by call and question by question.
use crate::judge::{Call, Judge, Node, count, has};
use spaces::space::{Space, SpaceFault, State};
use std::alloc::AllocError;
use trial::{Refusal, mixed, refused, told};

fn perform<S: Space>(space: &mut S, call: Call) -> Option<Refusal> {
    told(match call {
        Call::Enter => space.enter(),
        Call::Take(x, v) => space.take(x, v),
        Call::Turn => space.turn(),
        Call::Leave => space.leave(),
    })
}

fn is_refused<X: Drop>(answer: Result<X, SpaceFault>, number: u8, place: usize) -> bool {
    told(answer) == refused(number, place)
}

fn all_refused<S: Space>(space: &S, x: usize, number: u8, place: usize) -> bool {
    is_refused(space.has(x, 0), number, place)
        && is_refused(space.size(x), number, place)
        && is_refused(space.least(x), number, place)
        && is_refused(space.greatest(x), number, place)
}

fn least_of(set: u64) -> Option<u8> {
    (0..64u8).find(|v| has(set, *v))
}

fn greatest_of(set: u64) -> Option<u8> {
    (0..64u8).rev().find(|v| has(set, *v))
}

fn same_domain<S: Space>(space: &S, x: usize, set: u64) -> bool {
    (0..64u8).all(|v| space.has(x, v) == Ok(has(set, v)))
        && space.size(x) == Ok(count(set))
        && space.least(x) == Ok(least_of(set))
        && space.greatest(x) == Ok(greatest_of(set))
        && is_refused(space.has(x, 64), 21, x)
}

fn state_of(judge: &Judge) -> State {
    match judge.top {
        None => State::NoRun,
        Some(Node::Failed(_)) => State::Failed,
        Some(Node::Filtered(_)) => {
            if (0..judge.base.domains).any(|x| count(judge.set(x)) > 1) {
                State::Open
            } else {
                State::Plan
            }
        }
    }
}

// Whether every question is answered as the judge would.
pub fn same<S: Space>(space: &S, judge: &Judge) -> bool {
    let nodes = judge.nodes();
    let domains = judge.base.domains;
    if space.state() != state_of(judge)
        || space.nodes() != nodes
        || space.depth() != judge.base.depth
        || space.variables() != judge.sample.variables as usize
        || space.domains() != domains
    {
        return false;
    }
    if let Some(Node::Failed(_)) = judge.top {
        return all_refused(space, 0, 33, nodes) && all_refused(space, 99, 33, nodes);
    }
    (0..domains).all(|x| same_domain(space, x, judge.set(x)))
        && all_refused(space, domains, 21, domains)
        && all_refused(space, usize::MAX, 21, usize::MAX)
}

// Runs the call on both.
pub fn agree_on<S: Space>(
    space: &mut S,
    judge: &mut Judge,
    call: Call,
) -> Result<bool, AllocError> {
    let answer = perform(space, call);
    Ok(answer == judge.perform(call)? && same(space, judge))
}

// Any call; most takes are of a value that is there.
fn any_call(judge: &Judge, seed: u64) -> Call {
    let x = ((seed >> 8) % u64::from(judge.sample.variables.saturating_add(2))) as usize;
    match seed % 32 {
        0 => Call::Enter,
        1 if (seed >> 20) % 4 == 0 => Call::Leave,
        2..=10 => Call::Turn,
        11..=12 => Call::Take(usize::MAX, 0),
        13..=15 => Call::Take(x, ((seed >> 40) % 70) as u8),
        _ => Call::Take(x, least_of(judge.set(x)).unwrap_or(0)),
    }
}

// Runs a script of calls by chance on both.
pub fn agree_by_chance<S: Space>(
    space: &mut S,
    judge: &mut Judge,
    seed: u64,
    steps: u32,
) -> Result<bool, AllocError> {
    let mut state = seed;
    for _ in 0..steps {
        state = mixed(state);
        let call = any_call(judge, state);
        if !agree_on(space, judge, call)? {
            return Ok(false);
        }
    }
    Ok(true)
}

// Takes the least value of each variable in turn, turns back to the base, twice; the last turn is refused.
pub fn agree_on_a_chain<S: Space>(space: &mut S, judge: &mut Judge) -> Result<bool, AllocError> {
    for _ in 0..2u8 {
        if !agree_on(space, judge, Call::Enter)? || !agree_on(space, judge, Call::Enter)? {
            return Ok(false);
        }
        for x in 0..judge.base.domains.saturating_add(1) {
            let least = least_of(judge.set(x)).unwrap_or(0);
            if !agree_on(space, judge, Call::Take(x, least))? {
                return Ok(false);
            }
        }
        for _ in 0..judge.takes().saturating_add(1) {
            if !agree_on(space, judge, Call::Turn)? {
                return Ok(false);
            }
        }
        if !agree_on(space, judge, Call::Leave)? || !agree_on(space, judge, Call::Leave)? {
            return Ok(false);
        }
    }
    Ok(true)
}
