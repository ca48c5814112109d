ghost use Rattle.std.specs.Prelude.{◌≡◌, ◌+◌, ◌*◌, ◌≤◌, length};

use crate::form::RecordKind;

// The entries of a record: `count` of them, `each` bytes long.
#[derive(Clone, Copy)]
pub(crate) struct Entries<'a> {
    pub each: usize,
    pub count: usize,
    pub bytes: &'a [u8],
    ghost some: { 1 ≤ each },
    ghost whole: { length bytes.now ≡ each * count },
}

impl<'a> Entries<'a> {
    ghost use Rattle.model.specs.Kinds.{shape};
    ghost use Rattle.model.specs.Reading.{count};
    ghost use Rattle.model.specs.Scans.{AreEntriesOf};

    // The entries of the record that `left` begins with, which is there as a whole.
    pub(crate) fn of(left: &'a [u8], kind: RecordKind) -> Entries<'a>
        requires { 4 + ((shape kind).before + (shape kind).each * count left.now) ≤ length left.now }
        ensures { AreEntriesOf kind left.now result }
    {
        let shape = kind.shape();
        let count = left[4] as usize;
        let from = 4 + shape.before;
        Entries {
            each: shape.each,
            count,
            bytes: &left[from..from + shape.each * count],
        }
    }
}
