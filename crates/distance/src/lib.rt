//! The distance-to-go rule, built by calls, and a trial of it.

#![tactic(auto)]

mod rule;
mod trial;

pub use rule::{distance_draft, distance_theory, sealed_rule};
pub use trial::{shows_too_little, sum_after};
