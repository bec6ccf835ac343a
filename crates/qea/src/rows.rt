//! Adding a row to the rows of its kind.

ghost use Rattle.std.specs.Prelude.{◌≡◌, length, is_some, nat_lt};
ghost use Rattle.bounded.specs.Items.{items};
ghost use Rattle.qea.specs.Faults.{table_fault, told};
ghost use Rattle.qea.specs.Rows.{row_answer, added_if};

use crate::fault::{RowKind, TableFault};
use bounded::BoundedList;

// Adds a row of this number, unless there is no room. None stands for a row with a number out of range, and is refused first.
pub fn add_row<T: Copy, const N: usize>(
    rows: &mut BoundedList<T, N>,
    kind: RowKind,
    number: usize,
    row: Option<T>,
) -> Result<usize, TableFault>
    ensures answer { told table_fault result ≡ row_answer kind number (is_some row) (nat_lt (length (items rows.old)) N) }
    ensures rows { items rows.new ≡ added_if (told table_fault result) (items rows.old) row }
{
    let item = row.ok_or(TableFault::OutOfRange { kind, row: number })?;
    rows.push(item)
        .map(|_| number)
        .ok_or(TableFault::TooMany { kind, row: number })
}
