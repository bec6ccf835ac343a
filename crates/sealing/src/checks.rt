//! What sealing asks of one row.

ghost use Rattle.std.specs.Prelude.{◌≡◌};
ghost use Rattle.std.specs.List.{list_any};
ghost use Rattle.sealing.specs.Model.{automaton_of};
ghost use Rattle.qea.specs.Matching.{is_variable};
ghost use Rattle.sealing.specs.Sealing.{lacks_quantifier, misplaced, quantifier_misreads, transition_lacks, misread, misreads_among};

use crate::table::Table;
use qea::{MAX_QUANTIFIERS, PLACES, Quantifier, Term, Transition};
use theory::Theory;

// Whether the guard of quantifier k reads this place although it is a register's or a later variable's.
fn is_misplaced<T: Theory>(theory: &T, k: usize, quantifier: Quantifier, place: u8) -> bool
    ensures { result ≡ misplaced (T.Theory.meaning theory.now) k quantifier place }
{
    let at = usize::from(place);
    (at >= MAX_QUANTIFIERS || at > k) && theory.guard_reads_place(quantifier.guard, place)
}

// Whether the guard of quantifier k reads a register or a later variable.
pub(crate) fn quantifier_misreads<T: Theory>(theory: &T, k: usize, quantifier: Quantifier) -> bool
    ensures { result ≡ quantifier_misreads (T.Theory.meaning theory.now) k quantifier }
{
    // The constant fits a u8, in which places are numbered.
    (0..PLACES as u8).any(|place| is_misplaced(theory, k, quantifier, place))
}

// Whether some variable among the terms has no quantifier.
pub(crate) fn lacks_quantifier(quantifiers: usize, terms: &[Term]) -> bool
    ensures { result ≡ list_any (lacks_quantifier quantifiers) terms.now }
{
    terms.iter().any(|term| matches!(*term, Term::Variable(v) if quantifiers <= usize::from(v)))
}

fn has_variable(variable: u8, terms: &[Term]) -> bool
    ensures { result ≡ list_any (is_variable variable) terms.now }
{
    terms
        .iter()
        .any(|term| matches!(*term, Term::Variable(v) if v == variable))
}

// Whether something that a transition names is absent.
pub(crate) fn transition_lacks<T: Theory>(table: &Table, theory: &T, transition: Transition) -> bool
    ensures { result ≡ transition_lacks (automaton_of table.now) (T.Theory.meaning theory.now) transition }
{
    let states = table.states.len();
    states <= usize::from(transition.from)
        || table.patterns.len() <= usize::from(transition.pattern)
        || !theory.guard_is_there(transition.guard)
        || !theory.action_is_there(transition.action)
        || states <= usize::from(transition.to)
}

// Whether a transition's guard or action reads a variable although it is not among the terms.
fn is_misread<T: Theory>(theory: &T, transition: Transition, terms: &[Term], variable: u8) -> bool
    ensures { result ≡ misread (T.Theory.meaning theory.now) transition terms.now variable }
{
    let is_read = theory.guard_reads_place(transition.guard, variable)
        || theory.action_reads_place(transition.action, variable);
    is_read && !has_variable(variable, terms)
}

// Whether a transition's guard or action reads any variable that is not among its pattern's terms.
pub(crate) fn transition_misreads<T: Theory>(
    theory: &T,
    transition: Transition,
    terms: &[Term],
) -> bool
    ensures { result ≡ misreads_among (T.Theory.meaning theory.now) transition terms.now }
{
    // The constant fits a u8, in which variables are numbered.
    (0..MAX_QUANTIFIERS as u8).any(|variable| is_misread(theory, transition, terms, variable))
}
