#![tactic(auto)]

mod draft;
mod entries;
pub mod fault;
mod fill;
mod form;
pub mod kind;
pub mod model;
mod read;
mod scan;
pub mod values;
