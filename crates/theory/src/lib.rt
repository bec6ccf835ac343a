//! Theories: numbered guards and actions, and what they mean.

#![tactic(auto)]

mod theory;

pub use theory::Theory;
