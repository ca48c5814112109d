ghost use Rattle.std.specs.Prelude.{◌≡◌, ◌+◌, ◌<◌, ◌≤◌, ◌↔◌, ◌==◌, [], ◌∷◌, ◌++◌, IsSome, OnSome, length, option_to_list, reverse};
ghost use Rattle.stores.specs.Rows.{Keeps};
ghost use Rattle.recomputing.specs.Walk.{Acts, Replays, Unwinds};

use std::marker::Model;
use tables::table::{DomainTable, TableFault};

// The most steps of a path: of each of 64 variables one value is taken and 63 are dropped.
pub const STEPS: usize = 4096;

// A step of the path: a take that stands, or a value that was dropped when its take was turned.
#[derive(Clone, Copy, Drop)]
pub enum Step {
    Take(usize, u8),
    Drop(usize, u8),
}

// The steps from the mark, the oldest first: they lie in the first `count` places. What lies behind them is no step, so that a
// path is emptied in constant time.
#[derive(Drop)]
pub struct Path {
    places: [Step; STEPS],
    count: usize,
}

impl Model for Path {
    ghost use Rattle.std.specs.Prelude.{◌≡◌, ◌≤◌, List, length, take};
    ghost use Rattle.recomputing.specs.declared.path.Step.{Step};

    ghost Value = { List Step };

    ghost view = { λ p. take p.count p.places };

    ghost invariant = { λ p. (p.count ≤ 4096) × (length p.places ≡ 4096) };
}

impl Path {
    // No step.
    pub fn new() -> Path
        ensures { result ≡ [] }
    {
        Path {
            places: [Step::Take(0, 0); STEPS],
            count: 0,
        }
    }

    pub fn is_full(&self) -> bool
        ensures value { result ≡ (length self.now == 4096) }
        ensures fits { length self.now ≤ 4096 }
    {
        self.count == STEPS
    }

    // The steps, the oldest first.
    pub fn as_slice(&self) -> &[Step]
        ensures { result.now ≡ self.now }
    {
        &self.places[..self.count]
    }

    // Puts a step behind the others.
    pub fn push(&mut self, step: Step)
        requires { length self.old < 4096 }
        ensures { self.new ≡ self.old ++ step ∷ [] }
    {
        self.places[self.count] = step;
        self.count += 1;
    }

    // Takes all steps off.
    pub fn clear(&mut self)
        ensures { self.new ≡ [] }
    {
        self.count = 0;
    }

    pub fn len(&self) -> usize
        ensures value { result ≡ length self.now }
        ensures fits { result ≤ 4096 }
    {
        self.count
    }

    // Takes the newest step off, if there is one.
    pub fn pop(&mut self) -> Option<Step>
        ensures items { self.old ≡ self.new ++ option_to_list result }
        ensures variant { IsSome result ↔ (0 < length self.old) }
        ensures len { OnSome result (length self.new + 1 ≡ length self.old) }
    {
        if self.count == 0 {
            return None;
        }
        self.count -= 1;
        Some(self.places[self.count])
    }
}

// Makes the step on the table.
fn act<T: DomainTable>(table: &mut T, step: Step) -> Result<bool, TableFault>
    ensures { Keeps T.DomainTable.sound table.old table.new (Acts (T.DomainTable.means table.old) step (T.DomainTable.means table.new) result) }
{
    match step {
        Step::Take(x, v) => table.keep(x, v),
        Step::Drop(x, v) => table.drop(x, v),
    }
}

// Makes the steps on the table, the oldest first.
pub fn replay<T: DomainTable>(table: &mut T, path: &[Step]) -> Result<(), TableFault>
    ensures { Keeps T.DomainTable.sound table.old table.new (Replays (T.DomainTable.means table.old) (reverse path.now) (T.DomainTable.means table.new) result) }
{
    for step in path {
        act(table, *step)?;
    }
    Ok(())
}

// Takes the newest take off the path, with the steps after it, and answers what it took.
pub fn unwind(path: &mut Path) -> Option<(usize, u8)>
    ensures unwinds { Unwinds (reverse path.old) (reverse path.new) result }
    ensures room { OnSome result (length path.new < 4096) }
{
    for _step in 0..path.len() {
        let Some(step) = path.pop() else {
            return None;
        };
        if let Step::Take(x, v) = step {
            return Some((x, v));
        }
    }
    None
}
