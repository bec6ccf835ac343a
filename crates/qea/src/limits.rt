//! The limits of the subject, each named once. specs/Limits.antt has the same numbers for the definitions.

// A value is a whole number from -MAX_VALUE to MAX_VALUE.
pub const MAX_VALUE: i64 = 1_000_000_000_000;

// Quantifier k governs variable k, so this is also the number of variables.
pub const MAX_QUANTIFIERS: usize = 4;

pub const REGISTERS: usize = 4;

// A guard or an action works on the variables, and after them the registers.
pub const PLACES: usize = 8;

pub const MAX_STATES: usize = 16;

pub const MAX_PATTERNS: usize = 16;

// The most terms of a pattern, and the most values of an event.
pub const MAX_TERMS: usize = 4;

pub const MAX_TRANSITIONS: usize = 48;

// Of a theory.
pub const MAX_GUARDS: usize = 32;

pub const MAX_ACTIONS: usize = 32;

pub const MAX_DOMAIN: usize = 64;

pub const MAX_CONFIGURATIONS: usize = 8;
