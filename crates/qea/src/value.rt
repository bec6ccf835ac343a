//! Values.

ghost use Rattle.std.specs.Prelude.{◌≡◌};
ghost use Rattle.qea.specs.Values.{is_value};

use crate::limits::MAX_VALUE;

// Whether a number is a value.
pub fn is_value(v: i64) -> bool
    ensures { result ≡ is_value v }
{
    (-MAX_VALUE..=MAX_VALUE).contains(&v)
}
