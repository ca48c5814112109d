// Runs every case of the list on the code. All of it is test code, so that it is proved once.

#![tactic(auto)]

#[cfg(test)]
mod boards;
#[cfg(test)]
mod tests;
