//! What a theory of rows takes and answers.

ghost use Rattle.std.specs.Prelude.{◌≡◌, ◌≤◌, [], is_some};
ghost use Rattle.bounded.specs.Items.{items};
ghost use Rattle.qea.specs.Faults.{table_fault, told};
ghost use Rattle.qea.specs.Limits.{max_guards, max_actions};
ghost use Rattle.qea.specs.Rows.{first_row, adding, added_if};
ghost use Rattle.qea.specs.declared.fault.RowKind.TheVariants.{Guard, Action};
ghost use Rattle.row_theory.specs.Rows.{entry, row_meaning};

use crate::row::{ActionRow, GuardRow};
use crate::rows::RowTheory;
use bounded::BoundedList;
use qea::{PLACES, RowKind, TableFault, add_row};
use theory::Theory;

// The row of this number, counted from 1, or none.
fn row_numbered<T: Copy, const N: usize>(rows: &BoundedList<T, N>, n: u8) -> Option<T>
    ensures { result ≡ entry (items rows.now) n }
{
    rows.get(usize::from(n).checked_sub(1)?)
}

// Adds a row after the others and answers its number, counted from 1. None stands for a row with a number out of range.
// Tables have the like, counted from 0. One for both would be public, and no public call has a condition of this kind.
fn add_numbered<T: Copy, const N: usize>(
    rows: &mut BoundedList<T, N>,
    kind: RowKind,
    row: Option<T>,
) -> Result<u8, TableFault>
    requires few { N ≤ 255 }
    requires from_one { first_row kind ≡ 1 }
    ensures answer { told table_fault result ≡ adding kind N (is_some row) (items rows.old) }
    ensures rows { items rows.new ≡ added_if (told table_fault result) (items rows.old) row }
{
    let number = 1 + rows.len();
    let added = add_row(rows, kind, number, row)?;
    // By `as`, since the number is known to fit: `try_from` would add a case that never comes.
    Ok(added as u8)
}

impl<G: Copy + Default, A: Copy + Default> RowTheory<G, A> {
    // No guard and no action. `Default` beside it would be a second name.
    pub fn empty() -> RowTheory<G, A>
        ensures guards { items result.guards ≡ [] }
        ensures actions { items result.actions ≡ [] }
    {
        RowTheory {
            guards: BoundedList::default(),
            actions: BoundedList::default(),
        }
    }
}

impl<G: Copy, A: Copy> RowTheory<G, A> {
    // The guards in order; the first has number 1.
    pub fn guards(&self) -> &[G]
        ensures { result.now ≡ items self.now.guards }
    {
        self.guards.as_slice()
    }

    // The actions in order; the first has number 1.
    pub fn actions(&self) -> &[A]
        ensures { result.now ≡ items self.now.actions }
    {
        self.actions.as_slice()
    }

    // Adds a guard and answers its number. None stands for a row with a number out of range.
    pub fn add_guard(&mut self, guard: Option<G>) -> Result<u8, TableFault>
        ensures answer { told table_fault result ≡ adding Guard max_guards (is_some guard) (items self.old.guards) }
        ensures guards { items self.new.guards ≡ added_if (told table_fault result) (items self.old.guards) guard }
        ensures actions { self.new.actions ≡ self.old.actions }
    {
        add_numbered(&mut self.guards, RowKind::Guard, guard)
    }

    // Adds an action and answers its number. None stands for a row with a number out of range.
    pub fn add_action(&mut self, action: Option<A>) -> Result<u8, TableFault>
        ensures answer { told table_fault result ≡ adding Action max_actions (is_some action) (items self.old.actions) }
        ensures actions { items self.new.actions ≡ added_if (told table_fault result) (items self.old.actions) action }
        ensures guards { self.new.guards ≡ self.old.guards }
    {
        add_numbered(&mut self.actions, RowKind::Action, action)
    }
}

impl<G: GuardRow + Copy, A: ActionRow + Copy> Theory for RowTheory<G, A> {
    ghost meaning = { row_meaning G.GuardRow.means A.ActionRow.means };

    fn has_guard(&self, n: u8) -> bool {
        row_numbered(&self.guards, n).is_some()
    }

    fn has_action(&self, n: u8) -> bool {
        row_numbered(&self.actions, n).is_some()
    }

    fn guard_reads(&self, n: u8, place: u8) -> bool {
        row_numbered(&self.guards, n).is_some_and(|guard| guard.reads(place))
    }

    fn action_reads(&self, n: u8, place: u8) -> bool {
        row_numbered(&self.actions, n).is_some_and(|action| action.reads(place))
    }

    fn guard(&self, n: u8, row: &[i64; PLACES]) -> bool {
        row_numbered(&self.guards, n).is_some_and(|guard| guard.holds(row))
    }

    fn action(&self, n: u8, row: &[i64; PLACES]) -> Option<i64> {
        row_numbered(&self.actions, n).and_then(|action| action.result(row))
    }

    fn register(&self, n: u8) -> u8 {
        row_numbered(&self.actions, n).map_or(0, |action| action.register())
    }
}
