#![tactic(auto)]

pub mod rule;
pub mod search;
