//! Bearings in tenths of a degree.

ghost use Rattle.std.specs.Prelude.{◌≡◌};
ghost use Rattle.circular_theory.specs.Bearings.{bearing, Reduced, AroundZero};

// Tenths of a degree in a full circle.
pub const CIRCLE: u16 = 3600;

// A value as a bearing from 0 to 3,599: what is left when a multiple of 3,600 is taken away. -1 is 3,599.
#[tactic(auto, using(crate::proofs::Reductions::reduced_from))]
pub fn reduced(value: i64) -> u16
    ensures value { result ≡ bearing value }
    ensures meaning { Reduced value result }
    ensures around_zero { AroundZero }
{
    // By `as`, since a remainder is known to fit: `try_from` would add a case that never comes.
    value.rem_euclid(i64::from(CIRCLE)) as u16
}
