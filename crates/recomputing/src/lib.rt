#![tactic(auto)]

mod path;
pub mod recomputing;
