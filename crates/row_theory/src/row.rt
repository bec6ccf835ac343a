//! Rows that mean a guard or an action.

ghost use Rattle.std.specs.Prelude.{◌≡◌};
ghost use Rattle.qea.specs.Meaning.{Guard, Action};

use qea::PLACES;

// One guard of a theory. Asked with any 64-bit numbers, it answers by its meaning.
pub trait GuardRow {
    ghost means: { Self → Guard };

    fn reads(&self, place: u8) -> bool
        ensures { result ≡ (means self.now).reads place };

    fn holds(&self, row: &[i64; PLACES]) -> bool
        ensures { result ≡ (means self.now).holds row.now };
}

// One action of a theory.
pub trait ActionRow {
    ghost means: { Self → Action };

    fn reads(&self, place: u8) -> bool
        ensures { result ≡ (means self.now).reads place };

    // The value written, or none if it is out of range.
    fn result(&self, row: &[i64; PLACES]) -> Option<i64>
        ensures { result ≡ (means self.now).result row.now };

    fn register(&self) -> u8
        ensures { result ≡ (means self.now).register };
}
