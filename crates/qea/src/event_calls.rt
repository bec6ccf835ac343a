//! How events are made.

ghost use Rattle.std.specs.Prelude.{◌≡◌, not};
ghost use Rattle.std.specs.List.{position_from};
ghost use Rattle.qea.specs.Events.{event_from};
ghost use Rattle.qea.specs.EventValues.{event_told};
ghost use Rattle.qea.specs.Values.{is_value};

use crate::event::Event;
use crate::fault::RunFault;
use crate::limits::MAX_TERMS;
use crate::value::is_value;
use bounded::BoundedList;

fn first_out_of_range(values: &[i64]) -> Option<usize>
    ensures { result ≡ position_from (λ v. not (is_value v)) 0 values.now }
{
    values.iter().position(|value| !is_value(*value))
}

impl Event {
    // The event of this number and these values, or the refusal of what is none.
    pub fn new(number: u8, values: &[i64]) -> Result<Event, RunFault>
        ensures { event_told result ≡ event_from number values.now }
    {
        let too_many = RunFault::BadEvent {
            position: MAX_TERMS,
        };
        let held = BoundedList::from_slice(0, values).ok_or(too_many)?;
        // A place found is the refusal, so no method of `Option` carries it on.
        if let Some(position) = first_out_of_range(values) {
            return Err(RunFault::BadEvent { position });
        }
        Ok(Event {
            number,
            values: held,
        })
    }
}
