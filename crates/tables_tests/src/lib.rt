// Runs scripts of calls on word tables over every store, and compares each with a plain list of pairs.
// All of it is test code, so that it is proved once.

#![tactic(auto)]

#[cfg(test)]
mod judge;
#[cfg(test)]
mod opened;
#[cfg(test)]
mod script;
#[cfg(test)]
mod tests;
