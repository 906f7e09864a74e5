//! Well-formedness by looking back from each event.
ghost use Rattle.lin_events.specs.WellFormed.{IsShape};
ghost use Rattle.lin_objects.specs.Kinds.{kind_of, functions_of};

use crate::statuses::{first_cause, status_at_end};
use lin_events::{Event, Shape, bad_positions};
use lin_objects::Kinds;

/// Whether the history is well-formed for the kinds of its keys.
///
/// Plain, and so slow where a process rests long: from each event it goes back to the last one of its process. `Scan` keeps a table instead.
pub fn look_back(events: &[Event], kinds: &Kinds) -> Shape
    ensures { IsShape (functions_of (kind_of kinds.now)) events.now result }
{
    bad_positions();
    for at in 0..events.len() {
        let event = &events[at];
        let status = status_at_end(&events[..at], event.process);
        if let Some(cause) = first_cause(status, event, kinds) {
            return Shape::Bad { at, cause };
        }
    }
    Shape::Good
}
