#![tactic(auto)]

pub mod ceiling;
pub mod copying;
mod opening;
pub mod store;
pub mod tally;
pub mod trail;
