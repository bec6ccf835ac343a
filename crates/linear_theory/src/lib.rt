//! Linear theories: a guard compares m × A + n × B + c with 0, and an action writes that sum.

#![tactic(auto)]

use row_theory::RowTheory;

mod form;
mod means;
mod rows;
mod sums;

pub use form::{LinearForm, Relation};
pub use rows::{LinearAction, LinearGuard};
pub use sums::MAX_FACTOR;

pub type LinearTheory = RowTheory<LinearGuard, LinearAction>;
