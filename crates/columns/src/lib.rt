#![tactic(auto)]

pub mod column_list;
pub mod filter;
