#![tactic(auto)]

pub mod functional_dependencies;
pub mod join;
pub mod keys;
pub mod project;
pub mod stands_for;
pub mod valid;
