//! Events.

ghost use Rattle.std.specs.Prelude.{◌≡◌, true};
ghost use Rattle.bounded.specs.Items.{items};
ghost use Rattle.std.specs.List.{list_all};
ghost use Rattle.qea.specs.Values.{is_value};

use crate::limits::MAX_TERMS;
use bounded::BoundedList;

// A number and up to four values. Its type says that each is a value.
#[derive(Clone, Copy)]
pub struct Event {
    pub number: u8,
    pub values: BoundedList<i64, MAX_TERMS>,
    ghost ranged: { list_all is_value (items values) ≡ true },
}
