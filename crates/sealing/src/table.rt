//! The rows of a rule.

use bounded::BoundedList;
use qea::{
    MAX_PATTERNS, MAX_QUANTIFIERS, MAX_STATES, MAX_TRANSITIONS, Pattern, Quantifier, REGISTERS,
    State, Transition,
};

// The rows of each kind, in plain storage of fixed size. State 0 is the start. Its lists are read one by one, so contracts name the
// automaton that they make (`automaton_of`) and no model hides them.
#[derive(Clone, Copy, Default)]
pub struct Table {
    pub quantifiers: BoundedList<Quantifier, MAX_QUANTIFIERS>,
    // Of registers 0, 1, ..; a register without one starts at 0.
    pub starts: BoundedList<i64, REGISTERS>,
    pub states: BoundedList<State, MAX_STATES>,
    pub patterns: BoundedList<Pattern, MAX_PATTERNS>,
    pub transitions: BoundedList<Transition, MAX_TRANSITIONS>,
}
