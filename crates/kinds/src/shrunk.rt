ghost use Rattle.std.specs.Prelude.{◌≡◌, false};
ghost use Rattle.bits.specs.Bit.{has, Empty};
ghost use Rattle.kinds.specs.Shrunk.{set_of, has_failed};

use bits::Set;

// What a pass answers: the variables whose domain got smaller.
#[derive(Clone, Copy, PartialEq, Eq, Debug)]
pub enum Shrunk {
    // Every domain of the record has a value.
    Live(Set),
    // A domain of the record is empty or missing.
    Failed(Set),
}

impl Shrunk {
    // No domain got smaller, and none is empty.
    pub fn none() -> Shrunk
        ensures { (Empty (has (set_of result).word)) × (has_failed result ≡ false) }
    {
        Shrunk::Live(Set::empty())
    }
}
