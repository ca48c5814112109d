// Runs scripts of calls, refused ones among them, on searches over both spaces, and compares each with a plain list of nodes.
// All of it is test code, so that it is proved once.

#![tactic(auto)]

#[cfg(test)]
mod judge;
#[cfg(test)]
mod script;
#[cfg(test)]
mod tests;
