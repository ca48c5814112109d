// The values that a variable may take: from `low` up to but not including `high`.
#[derive(Clone, Copy, PartialEq, Eq, Debug, Default)]
pub struct Window {
    pub low: u8,
    pub high: u8,
}

// One summand: a coefficient times a variable.
#[derive(Clone, Copy, PartialEq, Eq, Debug, Default)]
pub struct Term {
    pub variable: u8,
    pub coefficient: i16,
}
