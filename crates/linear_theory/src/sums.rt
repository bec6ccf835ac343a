//! What a linear form comes to.

ghost use Rattle.std.specs.Prelude.{◌≡◌, ◌≤◌, ◌*◌, ◌^◌, true, ◌*ℤ◌, unsigned_abs};
ghost use Rattle.linear_theory.specs.Forms.{max_factor, is_factor, form_in_range, sum, form_reads, stands, value_of};

use crate::form::{LinearForm, Relation};
use qea::{PLACES, is_value};

// The factors m and n of a form lie from -MAX_FACTOR to MAX_FACTOR.
pub const MAX_FACTOR: i64 = 1_000_000;

// As `is_value`, with another limit: one expression each.
fn is_factor(v: i64) -> bool
    ensures { result ≡ is_factor v }
{
    (-MAX_FACTOR..=MAX_FACTOR).contains(&v)
}

// A factor in range keeps the product far below 128 bits, which leaves room for adding.
fn scaled(factor: i64, value: i64) -> i128
    ensures product { result ≡ factor *ℤ value }
    ensures small { is_factor factor ≡ true → unsigned_abs result ≤ max_factor * 2 ^ 63 }
{
    i128::from(factor) * i128::from(value)
}

impl LinearForm {
    pub(crate) fn is_in_range(&self) -> bool
        ensures { result ≡ form_in_range self.now }
    {
        is_factor(self.m)
            && usize::from(self.a) < PLACES
            && is_factor(self.n)
            && usize::from(self.b) < PLACES
            && is_value(self.c)
    }

    // Any 64-bit numbers in the row are safe: the sum has 128 bits.
    pub(crate) fn sum(&self, row: &[i64; PLACES]) -> i128
        requires { form_in_range self.now ≡ true }
        ensures { result ≡ sum self.now row.now }
    {
        let a = scaled(self.m, row[usize::from(self.a)]);
        let b = scaled(self.n, row[usize::from(self.b)]);
        a + b + i128::from(self.c)
    }

    // A is read unless m is 0, B unless n is 0.
    pub(crate) fn reads(&self, place: u8) -> bool
        ensures { result ≡ form_reads self.now place }
    {
        self.m != 0 && self.a == place || self.n != 0 && self.b == place
    }
}

impl Relation {
    // Whether a number stands so to 0.
    pub(crate) fn holds(self, z: i128) -> bool
        ensures { result ≡ stands self z }
    {
        match self {
            Relation::Less => z < 0,
            Relation::Equal => z == 0,
            Relation::Greater => z > 0,
        }
    }
}

// The number if it is a value.
pub(crate) fn value_of(z: i128) -> Option<i64>
    ensures { result ≡ value_of z }
{
    i64::try_from(z).ok().filter(|v| is_value(*v))
}
