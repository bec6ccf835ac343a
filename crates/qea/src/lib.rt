//! The vocabulary of quantified event automata.

#![tactic(auto)]

mod automaton;
mod cases;
mod configuration;
mod describe;
mod domain;
mod domain_calls;
mod event;
mod event_calls;
mod fault;
mod laws;
mod limits;
mod rows;
mod term;
mod value;

pub use automaton::{Kind, Mode, Quantifier, State, Transition};
pub use cases::worked_cases_come_out;
pub use configuration::{Binding, Configuration, ConfigurationList};
pub use domain::Domain;
pub use event::Event;
pub use fault::{Description, Layer, Place, ReadingFault, RowKind, RunFault, TableFault};
pub use laws::{
    bindings_have_numbers, bindings_move_in_their_slices, domains_only_grow, for_good_lasts,
    late_bindings_have_lived, one_event_more_agrees, refusals_have_conditions,
    refusals_leave_no_trace, verdicts_are_decided,
};
pub use limits::{
    MAX_ACTIONS, MAX_CONFIGURATIONS, MAX_DOMAIN, MAX_GUARDS, MAX_PATTERNS, MAX_QUANTIFIERS,
    MAX_STATES, MAX_TERMS, MAX_TRANSITIONS, MAX_VALUE, PLACES, REGISTERS,
};
pub use rows::add_row;
pub use term::{Pattern, Term};
pub use value::is_value;
