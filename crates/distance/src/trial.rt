//! A trial of the sealed rule, through its own guard and action.

ghost use Rattle.std.specs.Prelude.{◌≡◌, pos};
ghost use Rattle.qea.specs.Meaning.{holds, place};
ghost use Rattle.distance.specs.Distance.{trial_row, acted_times, sum_in};

use crate::rule::{ADDS_LENGTH, SHOWS_TOO_LITTLE, SUM, place_of};
use qea::PLACES;
use table::SealedTable;
use theory::Theory;

// The places of a route: its legs have this length and come to this sum, and the panel shows this figure.
fn trial_row(length: i64, sum: i64, figure: i64) -> [i64; PLACES]
    ensures { result ≡ trial_row length sum figure }
{
    [0, 0, 0, 0, length, sum, figure, 0]
}

// The row after so many legs, or none if the sum went out of range. A loop, since a `try_fold` here is
// no shorter: in a generic function its closure has to say what it ensures.
#[tactic(auto, using(crate::proofs::Times::times_more))]
fn after_legs<T: Theory>(
    rule: &SealedTable<T>,
    legs: u32,
    start: [i64; PLACES],
) -> Option<[i64; PLACES]>
    ensures { result ≡ acted_times (T.Theory.meaning rule.now.theory) 1 legs start }
{
    let mut row = start;
    // `_leg` is read by the loop's invariant alone.
    for _leg in 0..legs {
        row = rule.act(ADDS_LENGTH, &row)?;
    }
    Some(row)
}

// The sum in a row of places.
fn sum_of(row: [i64; PLACES]) -> i64
    ensures { result ≡ place row 5 }
{
    row[usize::from(place_of(SUM))]
}

// The sum after so many legs more of one length, or none if it went out of range.
pub fn sum_after<T: Theory>(rule: &SealedTable<T>, sum: i64, legs: u32, length: i64) -> Option<i64>
    ensures { result ≡ sum_in (acted_times (T.Theory.meaning rule.now.theory) 1 legs (trial_row length sum (pos 0))) }
{
    after_legs(rule, legs, trial_row(length, sum, 0)).map(sum_of)
}

// Whether a panel with this figure goes to the failed state, where the legs come to this sum.
pub fn shows_too_little<T: Theory>(rule: &SealedTable<T>, sum: i64, figure: i64) -> bool
    ensures { result ≡ holds (T.Theory.meaning rule.now.theory) 1 (trial_row (pos 0) sum figure) }
{
    rule.guard_holds(SHOWS_TOO_LITTLE, &trial_row(0, sum, figure))
}
