#![tactic(auto)]

pub mod aggregate;
mod grouping;
pub mod target;
