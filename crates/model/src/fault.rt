ghost use Rattle.std.specs.Prelude.{◌≡◌, Some};
ghost use Rattle.model.specs.Faults.{number, place, reason};

use faults::Fault;
use std::fmt;

// Why model bytes are refused. Each holds the offset of the record that is at fault.
#[derive(Clone, Copy, PartialEq, Eq, Debug)]
pub enum ModelFault {
    // fewer bytes are left than the record has
    Short(usize),
    // no such kind
    Unknown(usize),
    // the windows are not the first record, or come again
    Misplaced(usize),
    // a count beyond its limits, or a length that does not fit it
    Misfit(usize),
    // a window that holds nothing, or a value above 63
    Window(usize),
    // a variable that is not there, or twice in the record
    Variable(usize),
    // too many constraint records, or too many entries
    Crowded(usize),
}

impl Fault for ModelFault {
    ghost number = { number };

    ghost place = { place };

    fn number(&self) -> u8 {
        match self {
            ModelFault::Short(_) => 1,
            ModelFault::Unknown(_) => 2,
            ModelFault::Misplaced(_) => 3,
            ModelFault::Misfit(_) => 4,
            ModelFault::Window(_) => 5,
            ModelFault::Variable(_) => 6,
            ModelFault::Crowded(_) => 7,
        }
    }

    // The offset of the record.
    fn place(&self) -> usize {
        match self {
            ModelFault::Short(at)
            | ModelFault::Unknown(at)
            | ModelFault::Misplaced(at)
            | ModelFault::Misfit(at)
            | ModelFault::Window(at)
            | ModelFault::Variable(at)
            | ModelFault::Crowded(at) => *at,
        }
    }
}

impl ModelFault {
    // The reason in words.
    pub fn reason(&self) -> &'static str
        ensures { result.now ≡ reason self.now }
    {
        match self {
            ModelFault::Short(_) => "fewer bytes are left than the record has",
            ModelFault::Unknown(_) => "the kind is not known",
            ModelFault::Misplaced(_) => "the windows come first, and once",
            ModelFault::Misfit(_) => "the count is beyond its limits or does not fit the length",
            ModelFault::Window(_) => "a window is empty or reaches past 64",
            ModelFault::Variable(_) => "a variable is not there or comes twice",
            ModelFault::Crowded(_) => "there are too many records or entries",
        }
    }
}

impl fmt::Display for ModelFault {
    ghost output = { λ fault. Some (reason fault) };

    fn fmt<W: fmt::Write>(&self, f: &mut fmt::Formatter<W>) -> fmt::Result {
        f.write_str(self.reason())
    }
}
