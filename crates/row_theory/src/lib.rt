//! Theories given by rows, proved once for every kind of row.

#![tactic(auto)]

mod calls;
mod row;
mod rows;

pub use row::{ActionRow, GuardRow};
pub use rows::RowTheory;
