//! How a circular theory's rows are made, and what they answer.

ghost use Rattle.std.specs.Prelude.{◌≡◌};
ghost use Rattle.std.specs.Option.{option_map};
ghost use Rattle.circular_theory.specs.Rows.{circular_guard, circular_action, guard_numbers, ranged_guard, action_numbers, ranged_action};

use crate::bearing::{CIRCLE, reduced};
use crate::rows::{CircularAction, CircularGuard};
use qea::{PLACES, REGISTERS};
use row_theory::{ActionRow, GuardRow};

impl CircularGuard {
    // The guard, or none if a number is out of range. It is made after the test, not by `then_some`, since its type holds only then.
    pub fn new(place: u8, lo: u16, hi: u16) -> Option<CircularGuard>
        ensures { option_map guard_numbers result ≡ ranged_guard place lo hi }
    {
        if usize::from(place) >= PLACES || lo >= CIRCLE || hi >= CIRCLE {
            return None;
        }
        Some(CircularGuard { place, lo, hi })
    }
}

// What unused slots of a theory hold. By hand, since no Default is derived beside a ghost field.
impl Default for CircularGuard {
    ghost is_default = { λ g. guard_numbers g ≡ (0, 0, 0) };

    fn default() -> CircularGuard {
        CircularGuard {
            place: 0,
            lo: 0,
            hi: 0,
        }
    }
}

impl GuardRow for CircularGuard {
    ghost means = { circular_guard };

    fn reads(&self, place: u8) -> bool {
        self.place == place
    }

    fn holds(&self, row: &[i64; PLACES]) -> bool {
        let bearing = reduced(row[usize::from(self.place)]);
        (self.lo..=self.hi).contains(&bearing)
    }
}

impl CircularAction {
    // The action, or none if a number is out of range.
    pub fn new(register: u8, a: u8, b: u8, c: u16) -> Option<CircularAction>
        ensures { option_map action_numbers result ≡ ranged_action register a b c }
    {
        if usize::from(register) >= REGISTERS
            || usize::from(a) >= PLACES
            || usize::from(b) >= PLACES
            || c >= CIRCLE
        {
            return None;
        }
        Some(CircularAction { register, a, b, c })
    }
}

// By hand as well.
impl Default for CircularAction {
    ghost is_default = { λ x. action_numbers x ≡ (0, 0, 0, 0) };

    fn default() -> CircularAction {
        CircularAction {
            register: 0,
            a: 0,
            b: 0,
            c: 0,
        }
    }
}

impl ActionRow for CircularAction {
    ghost means = { circular_action };

    fn reads(&self, place: u8) -> bool {
        self.a == place || self.b == place
    }

    fn result(&self, row: &[i64; PLACES]) -> Option<i64> {
        let a = reduced(row[usize::from(self.a)]);
        let b = reduced(row[usize::from(self.b)]);
        Some(i64::from((a + b + self.c) % CIRCLE))
    }

    fn register(&self) -> u8 {
        self.register
    }
}
