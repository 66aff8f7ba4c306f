#![tactic(auto)]

pub mod constraints;
pub mod stands_for;
