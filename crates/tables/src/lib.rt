#![tactic(auto)]

pub mod table;
pub mod words;
