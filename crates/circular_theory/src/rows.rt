//! The rows of a circular theory. Their types say that their numbers are in range. Places and registers are plain numbers, as the
//! theory's questions take them; types of their own would be unwrapped at each use.

ghost use Rattle.std.specs.Prelude.{◌<◌};
ghost use Rattle.qea.specs.Limits.{places, registers};
ghost use Rattle.circular_theory.specs.Bearings.{circle};

// Holds if the bearing at a place lies from `lo` to `hi`, both ends counted in. Where `lo` is above `hi`, it never holds.
#[derive(Clone, Copy)]
pub struct CircularGuard {
    pub(crate) place: u8,
    pub(crate) lo: u16,
    pub(crate) hi: u16,
    ghost at_place: { place < places },
    ghost low: { lo < circle },
    ghost high: { hi < circle },
}

// Writes the bearings at the places `a` and `b` and the constant `c`, added and reduced, to a register.
#[derive(Clone, Copy)]
pub struct CircularAction {
    pub(crate) register: u8,
    pub(crate) a: u8,
    pub(crate) b: u8,
    pub(crate) c: u16,
    ghost within: { register < registers },
    ghost at_a: { a < places },
    ghost at_b: { b < places },
    ghost constant: { c < circle },
}
