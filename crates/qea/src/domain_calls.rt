//! What a domain answers, and how it grows.

ghost use Rattle.std.specs.Prelude.{◌≡◌, []};
ghost use Rattle.std.specs.Option.{option_map};
ghost use Rattle.qea.specs.Domains.{position_of, grown};
ghost use Rattle.qea.specs.DomainValues.{values_of};

use crate::domain::Domain;
use bounded::BoundedList;

impl Domain {
    // No value yet. The name says it; `Default` beside it would be a second name.
    pub fn empty() -> Domain
        ensures { values_of result ≡ [] }
    {
        Domain {
            values: BoundedList::empty(0),
        }
    }

    // The values in order of first sight.
    pub fn values(&self) -> &[i64]
        ensures { result.now ≡ values_of self.now }
    {
        self.values.as_slice()
    }

    // Where a value stands, if it does.
    pub fn position(&self, value: i64) -> Option<usize>
        ensures { result ≡ position_of (values_of self.now) value }
    {
        self.values().iter().position(|other| *other == value)
    }

    // The domain with the value in it, or none if there is no room for it.
    pub fn with(self, value: i64) -> Option<Domain>
        ensures { option_map values_of result ≡ grown (values_of self) value }
    {
        if self.values().contains(&value) {
            return Some(self);
        }
        let mut values = self.values;
        values.push(value)?;
        Some(Domain { values })
    }
}
