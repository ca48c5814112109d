// What the tests have in common: refusals as they are published, scripts of calls by chance, and model bytes.

#![tactic(auto)]

ghost use Rattle.std.specs.Prelude.{◌≡◌, None, Some};
ghost use Rattle.trial.specs.Told.{tells};

use faults::Fault;
use model::values::{Term, Window};
use std::alloc::{AllocError, Global};
use stores::trail::{Cell, Entry};

// The published number and place of a refusal.
#[derive(Clone, Copy, PartialEq, Eq, Debug, Drop)]
pub struct Refusal {
    pub number: u8,
    pub place: usize,
}

// The refusal that an answer is, if it is one.
pub fn told<X: Drop, F: Fault + Drop>(answer: Result<X, F>) -> Option<Refusal>
    ensures { result ≡ tells F.Fault.number F.Fault.place answer }
{
    match answer {
        Ok(_) => None,
        Err(fault) => Some(Refusal {
            number: fault.number(),
            place: fault.place(),
        }),
    }
}

// Refused with this number at this place.
pub fn refused(number: u8, place: usize) -> Option<Refusal>
    ensures { result ≡ Some (record { number = number; place = place }) }
{
    Some(Refusal { number, place })
}

// Which store is tried.
#[derive(Clone, Copy, Debug, Drop)]
pub enum Over {
    Trail,
    Copies,
    // The layers over copies.
    Layers,
}

// What the memory lent to a trail holds before it is opened.
pub const CELL: Cell = Cell { value: 9, stamp: 9 };

pub const ENTRY: Entry = Entry {
    cell: 3,
    value: 9,
    stamp: 9,
};

// The next number by chance (Marsaglia 2003).
pub fn mixed(seed: u64) -> u64 {
    let a = seed ^ (seed << 13);
    let b = a ^ (a >> 7);
    b ^ (b << 17)
}

// A call that is made of a number by chance.
pub trait AnyCall: Drop {
    // Any call on a thing of so many parts.
    fn any_call(seed: u64, size: usize) -> Self;
}

// A long script of any calls.
pub fn any_calls<C: AnyCall>(
    heap: Global,
    seed: u64,
    size: usize,
    steps: usize,
) -> Result<Vec<C>, AllocError> {
    let mut script = Vec::new(heap);
    let mut state = seed;
    for _ in 0..steps {
        state = mixed(state);
        script.push(C::any_call(state, size))?;
    }
    Ok(script)
}

// Model bytes, written record by record.
#[derive(Drop)]
pub struct Writer {
    bytes: Vec<u8>,
}

impl Writer {
    pub fn new(heap: Global) -> Writer {
        Writer {
            bytes: Vec::new(heap),
        }
    }

    fn word(&mut self, word: u16) -> Result<(), AllocError> {
        self.bytes.extend_from_slice(&word.to_le_bytes())
    }

    // The length of the body, the kind, and the count.
    fn head(&mut self, length: usize, kind: u16, count: usize) -> Result<(), AllocError> {
        self.word((length % 65536) as u16)?;
        self.word(kind)?;
        self.bytes.push((count % 256) as u8)?;
        Ok(())
    }

    pub fn windows(&mut self, windows: &[Window]) -> Result<(), AllocError> {
        let count = windows.len();
        self.head(count.saturating_mul(2).saturating_add(1), 1, count)?;
        for window in windows {
            self.bytes.extend_from_slice(&[window.low, window.high])?;
        }
        Ok(())
    }

    pub fn at_most(&mut self, bound: i32, terms: &[Term]) -> Result<(), AllocError> {
        let count = terms.len();
        self.head(count.saturating_mul(3).saturating_add(5), 2, count)?;
        self.bytes.extend_from_slice(&bound.to_le_bytes())?;
        for term in terms {
            self.bytes.push(term.variable)?;
            self.word(term.coefficient.cast_unsigned())?;
        }
        Ok(())
    }

    pub fn different(&mut self, variables: &[u8]) -> Result<(), AllocError> {
        let count = variables.len();
        self.head(count.saturating_add(1), 3, count)?;
        self.bytes.extend_from_slice(variables)
    }

    pub fn bytes(&self) -> &[u8] {
        self.bytes.as_slice()
    }
}
