//! How a draft takes rows.

ghost use Rattle.std.specs.Prelude.{◌≡◌, ◌≤◌, true, length, is_some, nat_lt};
ghost use Rattle.bounded.specs.Items.{items};
ghost use Rattle.qea.specs.Faults.{table_fault, told};
ghost use Rattle.qea.specs.Limits.{max_quantifiers, registers, max_states, max_transitions};
ghost use Rattle.qea.specs.Rows.{adding, row_answer, added_if};
ghost use Rattle.qea.specs.Values.{is_value};
ghost use Rattle.qea.specs.declared.fault.RowKind.TheVariants.{Quantifier as quantifiers, Start as starts, State as states, Transition as transitions};
ghost use Rattle.sealing.specs.Model.{automaton_of};
ghost use Rattle.table.specs.RowCalls.{adding_pattern, empty_automaton, with_quantifier, with_start, with_state, with_pattern, with_transition};

use crate::stages::Draft;
use crate::terms::pattern_from;
use bounded::BoundedList;
use qea::{Quantifier, RowKind, State, TableFault, Term, Transition, add_row, is_value};
use sealing::Table;

// Adds a row after the others of its kind, if all its numbers are in range, and answers its number.
// Theories have the like, counted from 1. One for both would be public, and no public call has a condition of this kind.
fn append<T: Copy, const N: usize>(
    rows: &mut BoundedList<T, N>,
    kind: RowKind,
    row: Option<T>,
) -> Result<u8, TableFault>
    requires { N ≤ 256 }
    ensures answer { told table_fault result ≡ row_answer kind (length (items rows.old)) (is_some row) (nat_lt (length (items rows.old)) N) }
    ensures rows { items rows.new ≡ added_if (told table_fault result) (items rows.old) row }
{
    let number = rows.len();
    let added = add_row(rows, kind, number, row)?;
    // By `as`, since the number is known to fit: `try_from` would add a case that never comes.
    Ok(added as u8)
}

impl Draft {
    // No row of any kind. `Default` beside it would be a second name.
    pub fn new() -> Draft
        ensures { automaton_of result ≡ empty_automaton }
    {
        Draft {
            table: Table::default(),
        }
    }

    pub fn table(&self) -> &Table
        ensures { result.now ≡ self.now }
    {
        &self.table
    }

    // Each call below adds one row and answers its number. A refused call keeps every row.

    pub fn add_quantifier(&mut self, quantifier: Quantifier) -> Result<u8, TableFault>
        ensures answer { told table_fault result ≡ adding quantifiers max_quantifiers true (automaton_of self.old).quantifiers }
        ensures rows { automaton_of self.new ≡ with_quantifier (told table_fault result) (automaton_of self.old) quantifier }
    {
        append(
            &mut self.table.quantifiers,
            RowKind::Quantifier,
            Some(quantifier),
        )
    }

    pub fn add_start(&mut self, value: i64) -> Result<u8, TableFault>
        ensures answer { told table_fault result ≡ adding starts registers (is_value value) (automaton_of self.old).starts }
        ensures rows { automaton_of self.new ≡ with_start (told table_fault result) (automaton_of self.old) value }
    {
        let start = is_value(value).then_some(value);
        append(&mut self.table.starts, RowKind::Start, start)
    }

    pub fn add_state(&mut self, state: State) -> Result<u8, TableFault>
        ensures answer { told table_fault result ≡ adding states max_states true (automaton_of self.old).states }
        ensures rows { automaton_of self.new ≡ with_state (told table_fault result) (automaton_of self.old) state }
    {
        append(&mut self.table.states, RowKind::State, Some(state))
    }

    // A fifth term is one too many, as a row without room is.
    pub fn add_pattern(&mut self, event: u8, terms: &[Term]) -> Result<u8, TableFault>
        ensures answer { told table_fault result ≡ adding_pattern (automaton_of self.old) terms.now }
        ensures rows { automaton_of self.new ≡ with_pattern (told table_fault result) (automaton_of self.old) event terms.now }
    {
        let number = self.table.patterns.len();
        let pattern = pattern_from(number, event, terms)?;
        append(&mut self.table.patterns, RowKind::Pattern, Some(pattern))
    }

    pub fn add_transition(&mut self, transition: Transition) -> Result<u8, TableFault>
        ensures answer { told table_fault result ≡ adding transitions max_transitions true (automaton_of self.old).transitions }
        ensures rows { automaton_of self.new ≡ with_transition (told table_fault result) (automaton_of self.old) transition }
    {
        append(
            &mut self.table.transitions,
            RowKind::Transition,
            Some(transition),
        )
    }
}
