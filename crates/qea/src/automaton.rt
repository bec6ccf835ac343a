//! The parts of an automaton: quantifiers, states and transitions.

#[derive(Clone, Copy, PartialEq, Eq, Debug, Default)]
pub enum Kind {
    #[default]
    ForAll,
    Exists,
}

// Quantifier k governs variable k, and the first is outermost. Guard 0 holds always.
#[derive(Clone, Copy, PartialEq, Eq, Debug, Default)]
pub struct Quantifier {
    pub kind: Kind,
    pub guard: u8,
}

// What becomes of a configuration where no transition is taken: a skip state keeps it, a next state drops it.
#[derive(Clone, Copy, PartialEq, Eq, Debug, Default)]
pub enum Mode {
    #[default]
    Skip,
    Next,
}

#[derive(Clone, Copy, PartialEq, Eq, Debug, Default)]
pub struct State {
    pub mode: Mode,
    // Whether the state is final.
    pub accepting: bool,
}

// From a state through a pattern to a state, by numbers. Guard 0 holds always, and action 0 writes nothing.
#[derive(Clone, Copy, PartialEq, Eq, Debug, Default)]
pub struct Transition {
    pub from: u8,
    pub pattern: u8,
    pub guard: u8,
    pub action: u8,
    pub to: u8,
}
