#![tactic(auto)]

pub mod column;
pub mod display;
pub mod error;
pub mod first;
pub mod name;
pub mod qualified;
pub mod stands_for;
pub mod stands_in_order;
pub mod table_reference;
