//! Rules: drafts take rows, and a draft is sealed with a theory.

#![tactic(auto)]

mod draft;
mod sealed;
mod stages;
mod terms;

pub use stages::{Draft, SealedTable};
