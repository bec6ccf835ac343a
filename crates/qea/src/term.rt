//! Patterns of events and their terms.

use crate::limits::MAX_TERMS;
use bounded::BoundedList;

// What a pattern has at one position. `Blank` stands first because the checker reads past an array's end as the first case.
#[derive(Clone, Copy, PartialEq, Eq, Debug, Default)]
pub enum Term {
    // Meets any value and keeps none.
    #[default]
    Blank,
    // Meets any value, the same at each position of this variable. Numbered from 0 to 3.
    Variable(u8),
    // Meets any value, the same at each position of this register. Numbered from 0 to 3.
    Register(u8),
    // Meets this value only.
    Constant(i64),
}

#[derive(Clone, Copy, Default)]
pub struct Pattern {
    // The number of the events that it may match.
    pub event: u8,
    pub terms: BoundedList<Term, MAX_TERMS>,
}
