#![tactic(auto)]

mod column_sets;
pub mod determined;
pub mod group_by;
pub mod named;
pub mod sort;
