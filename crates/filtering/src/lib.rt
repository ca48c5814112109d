#![tactic(auto)]

pub mod filter;
pub mod list;
