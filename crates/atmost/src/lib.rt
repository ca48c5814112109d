#![tactic(auto)]

pub mod kind;
mod narrow;
