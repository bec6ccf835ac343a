//! The list type. It stands alone so that `specs/` can name it.

ghost use Rattle.std.specs.Prelude.{◌≡◌, ◌≤◌, ⊤, length};

use std::alloc::AllocError;

// At most `N` items, held by value: the first `len` slots are in use, and the others hold whatever they held.
// Contracts read its `items`; for a model `Copy` would ask the way back, and unused slots cannot be given back.
// An array with a length beside it, since whoever holds such lists copies them and has no heap: `Vec` allocates, and `ArrayVec` is no `Copy`.
#[derive(Copy)]
pub struct BoundedList<T, const N: usize> {
    pub(crate) slots: [T; N],
    pub(crate) len: usize,
    ghost fits: { len ≤ N },
    ghost whole: { length slots ≡ N },
}

// By hand, since none is derived beside a ghost field on a type with parameters.
impl<T: Copy, const N: usize> Clone for BoundedList<T, N> {
    ghost is_clone = { λ x y. y ≡ x };

    ghost is_infallible = { λ _. ⊤ };

    fn clone(&self) -> Result<BoundedList<T, N>, AllocError> {
        Ok(*self)
    }
}
