#![tactic(auto)]

mod expel;
pub mod kind;
