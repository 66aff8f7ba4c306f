#![tactic(auto)]

pub mod check_names;
pub mod dfschema;
pub mod lookup;
pub mod merge;
pub mod named_field;
