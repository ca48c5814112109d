ghost use Rattle.std.specs.Prelude.{◌≡◌, ◌+◌, ◌*◌};
ghost use Rattle.model.specs.Kinds.{IsKind, shape};
ghost use Rattle.model.specs.Reading.{is_misplaced};

use crate::kind::{AtMost, Different, Windows};

#[derive(Clone, Copy)]
pub(crate) enum RecordKind {
    Windows,
    AtMost,
    Different,
}

// How the body of a record is laid out: the least count, the bytes before the entries, and the bytes of each entry.
#[derive(Clone, Copy)]
pub(crate) struct Shape {
    pub least: u8,
    pub before: usize,
    pub each: usize,
}

// A number that no kind of record has.
#[derive(Clone, Copy, Drop)]
pub(crate) struct UnknownKind(pub u16);

impl TryFrom<u16> for RecordKind {
    type Error = UnknownKind;

    ghost try_from_gives = { IsKind };

    fn try_from(number: u16) -> Result<RecordKind, UnknownKind> {
        match number {
            Windows::NUMBER => Ok(RecordKind::Windows),
            AtMost::NUMBER => Ok(RecordKind::AtMost),
            Different::NUMBER => Ok(RecordKind::Different),
            _ => Err(UnknownKind(number)),
        }
    }
}

impl RecordKind {
    pub(crate) fn shape(self) -> Shape
        ensures { result ≡ shape self }
    {
        match self {
            RecordKind::Windows => Shape {
                least: 1,
                before: 1,
                each: 2,
            },
            RecordKind::AtMost => Shape {
                least: 1,
                before: 5,
                each: 3,
            },
            RecordKind::Different => Shape {
                least: 2,
                before: 1,
                each: 1,
            },
        }
    }

    // How long a body is with so many entries.
    pub(crate) fn length(self, count: u8) -> usize
        ensures { result ≡ (shape self).before + (shape self).each * count }
    {
        let shape = self.shape();
        shape.before + shape.each * count as usize
    }

    // Whether a record of this kind may not stand here: windows come first, and nowhere else.
    pub(crate) fn misplaced(self, first: bool) -> bool
        ensures { result ≡ is_misplaced first self }
    {
        match self {
            RecordKind::Windows => !first,
            RecordKind::AtMost | RecordKind::Different => first,
        }
    }
}
