//! Circular theories, for bearings in tenths of a degree: a guard holds on an arc, and an action adds bearings.

#![tactic(auto)]

use row_theory::RowTheory;

mod bearing;
mod means;
mod rows;

pub use bearing::{CIRCLE, reduced};
pub use rows::{CircularAction, CircularGuard};

pub type CircularTheory = RowTheory<CircularGuard, CircularAction>;
