use crate::script::Call;
use faults::Fault;
use model::values::Window;
use std::alloc::{AllocError, Global};
use tables::table::{DomainTable, TableFault};
use trial::{Refusal, told};

// A value that is in the domain of a variable.
#[derive(Clone, Copy, PartialEq, Eq, Drop)]
pub struct Pair {
    variable: usize,
    value: u8,
}

// What a call answers: whether a domain got smaller, where that is asked, or a refusal.
type Answer = Result<Option<bool>, Refusal>;

// How many values a domain has, and which are its ends.
#[derive(Clone, Copy, PartialEq, Eq, Debug, Drop)]
pub struct Extent {
    size: u32,
    least: Option<u8>,
    greatest: Option<u8>,
}

// A plain list of pairs with a stack of saved lists, the judge of every table.
#[derive(Drop)]
pub struct Judge {
    variables: usize,
    pairs: Vec<Pair>,
    saved: Vec<Vec<Pair>>,
    depth: usize,
}

impl Judge {
    // The windows of the first so many variables.
    pub fn new(
        heap: Global,
        windows: &[Window],
        cells: usize,
        depth: usize,
    ) -> Result<Judge, AllocError> {
        let variables = windows.len().min(cells);
        let mut pairs = Vec::new(heap);
        for (variable, window) in windows.iter().take(variables).enumerate() {
            for value in window.low..window.high {
                pairs.push(Pair { variable, value })?;
            }
        }
        Ok(Judge {
            variables,
            pairs,
            saved: Vec::new(heap),
            depth,
        })
    }

    pub fn variables(&self) -> usize {
        self.variables
    }

    pub fn has(&self, x: usize, v: u8) -> bool {
        self.pairs.contains(&Pair {
            variable: x,
            value: v,
        })
    }

    fn extent(&self, x: usize) -> Extent {
        let mut extent = Extent {
            size: 0,
            least: None,
            greatest: None,
        };
        for v in 0..64u8 {
            if self.has(x, v) {
                extent.size = extent.size.saturating_add(1);
                extent.least = extent.least.or(Some(v));
                extent.greatest = Some(v);
            }
        }
        extent
    }

    // Of the pairs of x those go whose value says so.
    fn cut<F: Fn(u8) -> bool>(&mut self, x: usize, v: u8, goes: F) -> Answer
        requires { F.IsAlwaysCallable goes }
    {
        if x >= self.variables || v > 63 {
            return Err(Refusal {
                number: 21,
                place: x,
            });
        }
        let before = self.pairs.len();
        self.pairs
            .retain(|pair| pair.variable != x || !goes(pair.value));
        Ok(Some(self.pairs.len() < before))
    }

    fn mark(&mut self) -> Result<Answer, AllocError> {
        let place = self.saved.len();
        if place >= self.depth {
            return Ok(Err(Refusal { number: 12, place }));
        }
        let copy = self.pairs.clone()?;
        self.saved.push(copy)?;
        Ok(Ok(None))
    }

    fn restore(&mut self) -> Answer {
        let Some(pairs) = self.saved.pop() else {
            return Err(Refusal {
                number: 13,
                place: 0,
            });
        };
        self.pairs = pairs;
        Ok(None)
    }

    fn perform(&mut self, call: Call) -> Result<Answer, AllocError> {
        match call {
            Call::Drop(x, v) => Ok(self.cut(x, v, |value| value == v)),
            Call::Keep(x, v) => Ok(self.cut(x, v, |value| value != v)),
            Call::Mark => self.mark(),
            Call::Restore => Ok(self.restore()),
        }
    }
}

fn perform<T: DomainTable>(table: &mut T, call: Call) -> Answer {
    let answer = match call {
        Call::Drop(x, v) => table.drop(x, v).map(Some),
        Call::Keep(x, v) => table.keep(x, v).map(Some),
        Call::Mark => table.mark().map(|()| None),
        Call::Restore => table.restore().map(|()| None),
    };
    answer.map_err(|fault| Refusal {
        number: fault.number(),
        place: fault.place(),
    })
}

fn extent_of<T: DomainTable>(table: &T, x: usize) -> Result<Extent, TableFault> {
    Ok(Extent {
        size: table.size(x)?,
        least: table.least(x)?,
        greatest: table.greatest(x)?,
    })
}

fn is_no_such<X: Drop>(answer: Result<X, TableFault>, x: usize) -> bool {
    told(answer)
        == Some(Refusal {
            number: 21,
            place: x,
        })
}

// Whether all questions about a variable that is not there are refused.
fn refuses_variable<T: DomainTable>(table: &T, x: usize) -> bool {
    is_no_such(table.has(x, 0), x)
        && is_no_such(table.domain(x), x)
        && is_no_such(table.size(x), x)
        && is_no_such(table.least(x), x)
        && is_no_such(table.greatest(x), x)
}

fn same_domain<T: DomainTable>(table: &T, judge: &Judge, x: usize) -> bool {
    let Ok(domain) = table.domain(x) else {
        return false;
    };
    (0..64u8).all(|v| {
        let there = judge.has(x, v);
        table.has(x, v) == Ok(there) && domain.has(usize::from(v)) == there
    }) && extent_of(table, x) == Ok(judge.extent(x))
        && is_no_such(table.has(x, 64), x)
        && is_no_such(table.has(x, 255), x)
}

// Whether every question about the table is answered as the judge would.
pub fn same<T: DomainTable>(table: &T, judge: &Judge) -> bool {
    table.variables() == judge.variables
        && table.width() == 64
        && table.depth() == judge.depth
        && table.marks() == judge.saved.len()
        && (0..judge.variables).all(|x| same_domain(table, judge, x))
        && refuses_variable(table, judge.variables)
        && refuses_variable(table, usize::MAX)
}

// Runs the script on the table and on the judge, and compares every answer; now and then, and at the end, every question too.
pub fn agree<T: DomainTable>(
    table: &mut T,
    judge: &mut Judge,
    script: &[Call],
) -> Result<bool, AllocError> {
    for (i, call) in script.iter().enumerate() {
        let answer = perform(table, *call);
        if answer != judge.perform(*call)? || (i % 16 == 0 && !same(table, judge)) {
            return Ok(false);
        }
    }
    Ok(same(table, judge))
}
