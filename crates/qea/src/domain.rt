//! The domain of a variable. Its type says that no value stands in it twice, and that there are at most 64.

ghost use Rattle.bounded.specs.Items.{items};
ghost use Rattle.qea.specs.Lists.{Distinct};

use crate::limits::MAX_DOMAIN;
use bounded::BoundedList;

// The values that a variable has met, in order of first sight. A domain is changed by value and written back whole.
// A ghost field, and no model: domains are copied, and from the values alone unused slots cannot be given back.
#[derive(Clone, Copy)]
pub struct Domain {
    pub(crate) values: BoundedList<i64, MAX_DOMAIN>,
    ghost distinct: { Distinct (items values) },
}
