//! How a linear theory's rows are made, and what they answer.

ghost use Rattle.std.specs.Prelude.{◌≡◌};
ghost use Rattle.std.specs.Option.{option_map};
ghost use Rattle.linear_theory.specs.declared.form.Relation.TheVariants.{Equal};
ghost use Rattle.linear_theory.specs.Rows.{linear_guard, linear_action, zero_form, guard_numbers, ranged_guard, action_numbers, ranged_action};

use crate::form::{LinearForm, Relation};
use crate::rows::{LinearAction, LinearGuard};
use crate::sums::value_of;
use qea::{PLACES, REGISTERS};
use row_theory::{ActionRow, GuardRow};

impl LinearGuard {
    // The guard, or none if a number is out of range. It is made after the test, not by `then_some`, since its type holds only then.
    pub fn new(form: LinearForm, relation: Relation) -> Option<LinearGuard>
        ensures { option_map guard_numbers result ≡ ranged_guard form relation }
    {
        if !form.is_in_range() {
            return None;
        }
        Some(LinearGuard { form, relation })
    }
}

// What unused slots of a theory hold. By hand, since no Default is derived beside a ghost field.
impl Default for LinearGuard {
    ghost is_default = { λ g. guard_numbers g ≡ (zero_form, Equal) };

    fn default() -> LinearGuard {
        LinearGuard {
            form: LinearForm::default(),
            relation: Relation::Equal,
        }
    }
}

impl GuardRow for LinearGuard {
    ghost means = { linear_guard };

    fn reads(&self, place: u8) -> bool {
        self.form.reads(place)
    }

    fn holds(&self, row: &[i64; PLACES]) -> bool {
        self.relation.holds(self.form.sum(row))
    }
}

impl LinearAction {
    // The action, or none if a number is out of range.
    pub fn new(register: u8, form: LinearForm) -> Option<LinearAction>
        ensures { option_map action_numbers result ≡ ranged_action register form }
    {
        if usize::from(register) >= REGISTERS || !form.is_in_range() {
            return None;
        }
        Some(LinearAction { register, form })
    }
}

// By hand as well.
impl Default for LinearAction {
    ghost is_default = { λ x. action_numbers x ≡ (0, zero_form) };

    fn default() -> LinearAction {
        LinearAction {
            register: 0,
            form: LinearForm::default(),
        }
    }
}

impl ActionRow for LinearAction {
    ghost means = { linear_action };

    fn reads(&self, place: u8) -> bool {
        self.form.reads(place)
    }

    fn result(&self, row: &[i64; PLACES]) -> Option<i64> {
        value_of(self.form.sum(row))
    }

    fn register(&self) -> u8 {
        self.register
    }
}
