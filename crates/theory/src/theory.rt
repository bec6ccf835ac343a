//! What the monitor asks of a theory.

ghost use Rattle.std.specs.Prelude.{◌≡◌, is_some};
ghost use Rattle.qea.specs.Meaning.{Meaning, guard_says, guard_reads, action_says, action_reads, action_writes};
ghost use Rattle.qea.specs.Meaning.{guard_there, action_there, guard_reads_at, action_reads_at, holds, acted};

use qea::{MAX_QUANTIFIERS, PLACES};

// Numbered guards and actions over eight places: the values of four variables, then of four registers.
// Asked anything, a theory answers by its meaning and stays unchanged. Rows may hold any 64-bit numbers.
// Guards and actions are asked alike where they are alike, by a line each: a trait over the two kinds would be longer.
pub trait Theory {
    ghost meaning: { Self → Meaning };

    fn has_guard(&self, n: u8) -> bool
        ensures { result ≡ is_some ((meaning self.now).guard n) };

    fn has_action(&self, n: u8) -> bool
        ensures { result ≡ is_some ((meaning self.now).action n) };

    // Whether a guard reads a place.
    fn guard_reads(&self, n: u8, place: u8) -> bool
        ensures { result ≡ guard_reads ((meaning self.now).guard n) place };

    // Whether an action reads a place.
    fn action_reads(&self, n: u8, place: u8) -> bool
        ensures { result ≡ action_reads ((meaning self.now).action n) place };

    // Whether a guard holds. An absent one does not.
    fn guard(&self, n: u8, row: &[i64; PLACES]) -> bool
        ensures { result ≡ guard_says ((meaning self.now).guard n) row.now };

    // The value that an action writes, or none if that is out of range or the action is absent.
    fn action(&self, n: u8, row: &[i64; PLACES]) -> Option<i64>
        ensures { result ≡ action_says ((meaning self.now).action n) row.now };

    // The register that an action writes.
    fn register(&self, n: u8) -> u8
        ensures { result ≡ action_writes ((meaning self.now).action n) };

    // The questions above are about the theory's own guards and actions. Those below count number 0 in: guard 0 holds and
    // action 0 writes nothing, without asking further.

    final fn guard_is_there(&self, guard: u8) -> bool
        ensures { result ≡ guard_there (meaning self.now) guard }
    {
        guard == 0 || self.has_guard(guard)
    }

    final fn action_is_there(&self, action: u8) -> bool
        ensures { result ≡ action_there (meaning self.now) action }
    {
        action == 0 || self.has_action(action)
    }

    final fn guard_reads_place(&self, guard: u8, place: u8) -> bool
        ensures { result ≡ guard_reads_at (meaning self.now) guard place }
    {
        guard != 0 && self.guard_reads(guard, place)
    }

    final fn action_reads_place(&self, action: u8, place: u8) -> bool
        ensures { result ≡ action_reads_at (meaning self.now) action place }
    {
        action != 0 && self.action_reads(action, place)
    }

    final fn guard_holds(&self, guard: u8, row: &[i64; PLACES]) -> bool
        ensures { result ≡ holds (meaning self.now) guard row.now }
    {
        guard == 0 || self.guard(guard, row)
    }

    // The row after an action has written, or none if that is out of range.
    final fn act(&self, action: u8, row: &[i64; PLACES]) -> Option<[i64; PLACES]>
        ensures { result ≡ acted (meaning self.now) action row.now }
    {
        let mut after = *row;
        if action != 0 {
            let place = MAX_QUANTIFIERS + usize::from(self.register(action));
            after[place] = self.action(action, row)?;
        }
        Some(after)
    }
}
