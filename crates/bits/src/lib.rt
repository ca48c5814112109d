#![tactic(auto)]

ghost use Rattle.std.specs.Prelude.{◌≡◌, ℕ, ◌<◌, ◌≤◌, min, true, false, not, ◌&&◌, ◌||◌, ◌==◌, nat_le, nat_lt};
ghost use Rattle.std.specs.Iterator.{YieldsFirst, item_count};
ghost use Rattle.bits.specs.Bit.{has, counted, members, Empty, Least, Greatest};
ghost use Rattle.bits.specs.Splits.{Splits};

// A set of numbers below 64: v is a member where the digit v of the word is 1.
#[derive(Clone, Copy, PartialEq, Eq, Debug)]
pub struct Set {
    pub word: u64,
}

// The set whose members are the places of the digits 1 in the word.
impl From<u64> for Set {
    ghost from_gives = { λ word r. r ≡ record { word = word } };

    fn from(word: u64) -> Set {
        Set { word }
    }
}

impl Set {
    pub fn empty() -> Set
        ensures { Empty (has result.word) }
    {
        Set { word: 0 }
    }

    // The numbers from low up to but not including high, as far as they are below 64.
    pub fn span(low: usize, high: usize) -> Set
        ensures { (u : ℕ) → has result.word u ≡ (nat_le low u && nat_lt u (min high 64)) }
    {
        Set {
            word: !below(low) & below(high),
        }
    }

    pub fn has(self, v: usize) -> bool
        ensures { result ≡ has self.word v }
    {
        v < 64 && (self.word >> v) & 1 == 1
    }

    // With v too, if v is below 64.
    pub fn with(self, v: usize) -> Set
        ensures within { v < 64 → (u : ℕ) → has result.word u ≡ (has self.word u || u == v) }
        ensures past { 64 ≤ v → result ≡ self }
    {
        if v < 64 {
            Set {
                word: self.word | (1u64 << v),
            }
        } else {
            self
        }
    }

    pub fn without(self, v: usize) -> Set
        ensures { (u : ℕ) → has result.word u ≡ (has self.word u && not (u == v)) }
    {
        if v < 64 {
            Set {
                word: self.word & !(1u64 << v),
            }
        } else {
            self
        }
    }

    // Just v, if it is a member.
    pub fn only(self, v: usize) -> Set
        ensures { (u : ℕ) → has result.word u ≡ (has self.word u && u == v) }
    {
        if v < 64 {
            Set {
                word: self.word & (1u64 << v),
            }
        } else {
            Set::empty()
        }
    }

    pub fn union(self, other: Set) -> Set
        ensures { (u : ℕ) → has result.word u ≡ (has self.word u || has other.word u) }
    {
        Set {
            word: self.word | other.word,
        }
    }

    // The numbers that are members of both.
    pub fn common(self, other: Set) -> Set
        ensures { (u : ℕ) → has result.word u ≡ (has self.word u && has other.word u) }
    {
        Set {
            word: self.word & other.word,
        }
    }

    // Whether some number is a member of both.
    pub fn meets(self, other: Set) -> bool
        ensures common { result ≡ true → (u : ℕ) × (has self.word u ≡ true) × (has other.word u ≡ true) }
        ensures apart { result ≡ false → (u : ℕ) → (has self.word u && has other.word u) ≡ false }
    {
        self.word & other.word != 0
    }

    pub fn is_empty(self) -> bool
        ensures none { result ≡ true → Empty (has self.word) }
        ensures some { result ≡ false → (u : ℕ) × (has self.word u ≡ true) }
    {
        self.word == 0
    }

    // The members, from the least on.
    pub fn members(self) -> Members
        ensures { result ≡ record { left = self } }
    {
        Members { left: self }
    }

    // How many members.
    pub fn size(self) -> u32
        ensures { result ≡ counted (has self.word) 64 }
    {
        self.word.count_ones()
    }

    pub fn least(self) -> Option<u8>
        ensures { Least (has self.word) result }
    {
        if self.word == 0 {
            return None;
        }
        Some(self.word.trailing_zeros() as u8)
    }

    // The least member, and the set of the others.
    fn split(self) -> Option<(usize, Set)>
        ensures { Splits self.word result }
    {
        let least = self.least()? as usize;
        Some((least, self.without(least)))
    }

    pub fn greatest(self) -> Option<u8>
        ensures { Greatest (has self.word) result }
    {
        if self.word == 0 {
            return None;
        }
        Some((63 - self.word.leading_zeros()) as u8)
    }
}

// The members of a set that are left, from the least on.
#[derive(Clone, Copy)]
pub struct Members {
    left: Set,
}

impl Iterator for Members {
    type Item = usize;

    ghost next_gives = { YieldsFirst (λ m. members m.left.word) };

    ghost remaining = { item_count (λ m. members m.left.word) };

    fn next(&mut self) -> Option<usize> {
        let (least, others) = self.left.split()?;
        self.left = others;
        Some(least)
    }
}

// The word whose digits below the place k are 1.
fn below(k: usize) -> u64
    ensures { (u : ℕ) → has result u ≡ nat_lt u (min k 64) }
{
    if k < 64 { (1u64 << k) - 1 } else { u64::MAX }
}
