#![tactic(auto)]

pub mod ask;
pub mod base;
pub mod space;
