//! Sealing: a draft is checked against a theory, row by row.

ghost use Rattle.std.specs.Prelude.{◌≡◌, ℕ, Option};
ghost use Rattle.std.specs.List.{slice_get};
ghost use Rattle.qea.specs.Faults.{table_fault, told};
ghost use Rattle.qea.specs.declared.fault.Description.{Description};
ghost use Rattle.sealing.specs.Model.{pattern_of, automaton_of};
ghost use Rattle.sealing.specs.Rows.{Tells};
ghost use Rattle.sealing.specs.Sealing.{quantifier_fault, pattern_fault, terms_of, transition_fault, first_fault, unless, sealing};

use crate::checks::{lacks_quantifier, quantifier_misreads, transition_lacks, transition_misreads};
use crate::table::Table;
use qea::{Pattern, Quantifier, RowKind, TableFault, Term, Transition};
use theory::Theory;

// Each check of one row tells what is absent before what is misread. Of these a transition's alone needs both table and theory,
// so the two are parameters and no struct.

fn check_quantifier<T: Theory>(
    theory: &T,
    row: usize,
    quantifier: &Quantifier,
) -> Result<(), TableFault>
    ensures { told table_fault result ≡ unless (quantifier_fault (T.Theory.meaning theory.now) row quantifier.now) }
{
    let kind = RowKind::Quantifier;
    if !theory.guard_is_there(quantifier.guard) {
        return Err(TableFault::Absent { kind, row });
    }
    if quantifier_misreads(theory, row, *quantifier) {
        return Err(TableFault::ReadsTooMuch { kind, row });
    }
    Ok(())
}

fn check_pattern(table: &Table, row: usize, pattern: &Pattern) -> Result<(), TableFault>
    ensures { told table_fault result ≡ unless (pattern_fault (automaton_of table.now) row (pattern_of pattern.now)) }
{
    let kind = RowKind::Pattern;
    if lacks_quantifier(table.quantifiers.len(), pattern.terms.as_slice()) {
        return Err(TableFault::Absent { kind, row });
    }
    Ok(())
}

// The terms of the pattern in this row. An absent one has none.
fn terms_of(table: &Table, pattern: u8) -> &[Term]
    ensures { result.now ≡ terms_of (slice_get (automaton_of table.now).patterns pattern) }
{
    let patterns = table.patterns.as_slice();
    patterns
        .get(usize::from(pattern))
        .map_or(&[], |pattern| pattern.terms.as_slice())
}

fn check_transition<T: Theory>(
    table: &Table,
    theory: &T,
    row: usize,
    transition: &Transition,
) -> Result<(), TableFault>
    ensures { told table_fault result ≡ unless (transition_fault (automaton_of table.now) (T.Theory.meaning theory.now) row transition.now) }
{
    let kind = RowKind::Transition;
    if transition_lacks(table, theory, *transition) {
        return Err(TableFault::Absent { kind, row });
    }
    let terms = terms_of(table, transition.pattern);
    if transition_misreads(theory, *transition, terms) {
        return Err(TableFault::ReadsTooMuch { kind, row });
    }
    Ok(())
}

// What `check` tells of the first row that has a fault.
fn check_rows<R, F: Fn(usize, &R) -> Result<(), TableFault>>(
    rows: &[R],
    check: F,
) -> Result<(), TableFault>
    requires { F.IsAlwaysCallable check }
    ensures { (fault : ℕ → R → Option Description) → Tells (F.post check) fault → told table_fault result ≡ unless (first_fault fault 0 rows.now) }
{
    // A loop: of what `try_for_each` answers it was not shown that it is the first fault.
    for (row, item) in rows.iter().enumerate() {
        check(row, item)?;
    }
    Ok(())
}

// The first fault of a table: no state, then quantifiers, patterns and transitions in order.
#[tactic(auto, using(crate::proofs::FirstFaults::first_fault_map))]
pub fn check_table<T: Theory>(table: &Table, theory: &T) -> Result<(), TableFault>
    ensures { told table_fault result ≡ sealing (automaton_of table.now) (T.Theory.meaning theory.now) }
{
    if table.states.is_empty() {
        return Err(TableFault::NoState);
    }
    check_rows(table.quantifiers.as_slice(), |row, quantifier| {
        check_quantifier(theory, row, quantifier)
    })?;
    check_rows(table.patterns.as_slice(), |row, pattern| {
        check_pattern(table, row, pattern)
    })?;
    check_rows(table.transitions.as_slice(), |row, transition| {
        check_transition(table, theory, row, transition)
    })
}
