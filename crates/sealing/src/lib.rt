//! The rows of a rule, and the check that they are well formed for a theory.

#![tactic(auto)]

mod checks;
mod first_fault;
mod table;

pub use first_fault::check_table;
pub use table::Table;
