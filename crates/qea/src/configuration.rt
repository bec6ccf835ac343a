//! Where a binding stands: configurations, and the bindings themselves.

use crate::limits::{MAX_CONFIGURATIONS, MAX_QUANTIFIERS, REGISTERS};
use bounded::BoundedList;

// A state and the registers' values.
#[derive(Clone, Copy, PartialEq, Eq, Debug)]
pub struct Configuration {
    pub state: u8,
    pub registers: [i64; REGISTERS],
}

// The configurations that a binding is in, in the order in which they arose.
pub type ConfigurationList = BoundedList<Configuration, MAX_CONFIGURATIONS>;

// Gives each variable nothing or a value. It is total if it gives every quantified variable a value.
#[derive(Clone, Copy, PartialEq, Eq, Debug)]
pub struct Binding {
    pub values: [Option<i64>; MAX_QUANTIFIERS],
}
