// Filters models and compares with the largest stable table, found by testing every value against the rules until none goes.
// All of it is test code, so that it is proved once.

#![tactic(auto)]

#[cfg(test)]
mod judge;
#[cfg(test)]
mod sample;
#[cfg(test)]
mod tests;
