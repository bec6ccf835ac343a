//! Lists of at most N items in an array of fixed size, with no heap.

#![tactic(auto)]

ghost use Rattle.std.specs.Prelude.{◌≡◌, ◌==◌, [], length};
ghost use Rattle.std.specs.Option.{option_map};
ghost use Rattle.std.specs.List.{slice_get};
ghost use Rattle.bounded.specs.Items.{items, room_at, pushed, fitting};

mod list;

pub use list::BoundedList;

impl<T: Copy, const N: usize> BoundedList<T, N> {
    // No item yet. The slots hold `fill` until they are used.
    pub fn empty(fill: T) -> BoundedList<T, N>
        ensures { items result ≡ [] }
    {
        BoundedList {
            slots: [fill; N],
            len: 0,
        }
    }

    // These items, or none if there are too many. The other slots hold `fill`, for which `TryFrom` has no place.
    pub fn from_slice(fill: T, all: &[T]) -> Option<BoundedList<T, N>>
        ensures { option_map items result ≡ fitting N all.now }
    {
        let mut list = BoundedList::empty(fill);
        for item in all {
            list.push(*item)?;
        }
        Some(list)
    }

    pub fn len(&self) -> usize
        ensures { result ≡ length (items self.now) }
    {
        self.as_slice().len()
    }

    pub fn is_empty(&self) -> bool
        ensures { result ≡ (length (items self.now) == 0) }
    {
        self.as_slice().is_empty()
    }

    pub fn as_slice(&self) -> &[T]
        ensures { result.now ≡ items self.now }
    {
        &self.slots[..self.len]
    }

    // The item at a place, or none past the end.
    pub fn get(&self, at: usize) -> Option<T>
        ensures { result ≡ slice_get (items self.now) at }
    {
        self.as_slice().get(at).copied()
    }

    // Puts an item at the end and answers its place. A full list answers none and stays as it is.
    pub fn push(&mut self, item: T) -> Option<usize>
        ensures place { result ≡ room_at N (items self.old) }
        ensures after { items self.new ≡ pushed result (items self.old) item }
    {
        // By place: after a write through `get_mut`, a proof knows nothing of the array's slots.
        let at = self.len;
        if at == N {
            return None;
        }
        self.slots[at] = item;
        self.len = at + 1;
        Some(at)
    }
}

// No item yet. The slots hold the default.
impl<T: Copy + Default, const N: usize> Default for BoundedList<T, N> {
    ghost is_default = { λ l. items l ≡ [] };

    fn default() -> BoundedList<T, N> {
        BoundedList::empty(T::default())
    }
}
