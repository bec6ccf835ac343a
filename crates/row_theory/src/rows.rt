//! Theories given by their rows.

use bounded::BoundedList;
use qea::{MAX_ACTIONS, MAX_GUARDS};

// A theory whose guards and actions are rows, numbered from 1. Contracts name its two fields: one value in place of the two would be
// a pair, and no clause would be shorter.
#[derive_where(Clone, Copy; G: Copy, A: Copy)]
pub struct RowTheory<G, A> {
    pub(crate) guards: BoundedList<G, MAX_GUARDS>,
    pub(crate) actions: BoundedList<A, MAX_ACTIONS>,
}
