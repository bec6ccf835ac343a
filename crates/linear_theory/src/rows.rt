//! The rows of a linear theory. Their types say that their numbers are in range. Places and registers are plain numbers, as the
//! theory's questions take them; types of their own would be unwrapped at each use, and so would a type of forms in range.

ghost use Rattle.std.specs.Prelude.{◌≡◌, ◌<◌, true};
ghost use Rattle.qea.specs.Limits.{registers};
ghost use Rattle.linear_theory.specs.Forms.{form_in_range};

use crate::form::{LinearForm, Relation};

// Holds if the form stands in this relation to 0.
#[derive(Clone, Copy)]
pub struct LinearGuard {
    pub(crate) form: LinearForm,
    pub(crate) relation: Relation,
    ghost ranged: { form_in_range form ≡ true },
}

// Writes the form's sum to a register.
#[derive(Clone, Copy)]
pub struct LinearAction {
    pub(crate) register: u8,
    pub(crate) form: LinearForm,
    ghost within: { register < registers },
    ghost ranged: { form_in_range form ≡ true },
}
