// The kinds of constraint records and their published numbers, which the reader and the sets of constraint kinds match on.

// The sum of the terms is at most a bound.
#[derive(Clone, Copy)]
pub struct AtMost;

impl AtMost {
    pub const NUMBER: u16 = 2;
}

// No two of the listed variables are equal.
#[derive(Clone, Copy)]
pub struct Different;

impl Different {
    pub const NUMBER: u16 = 3;
}

// The windows of all variables, at the start of every model.
#[derive(Clone, Copy)]
pub struct Windows;

impl Windows {
    pub const NUMBER: u16 = 1;
}
