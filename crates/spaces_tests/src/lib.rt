// Runs the same scripts of calls on both spaces over every store, and compares each with a space that keeps copies of sets.
// All of it is test code, so that it is proved once.

#![tactic(auto)]

#[cfg(test)]
mod agree;
#[cfg(test)]
mod judge;
#[cfg(test)]
mod memory;
#[cfg(test)]
mod sample;
#[cfg(test)]
mod tests;
