#![tactic(auto)]

pub mod calls;
pub mod clones;
pub mod equality;
pub mod list;
pub mod ops;
pub mod order;
