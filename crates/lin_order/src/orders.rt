//! Orders of a history.
ghost use Rattle.std.specs.Prelude.{◌↔◌, IsTrue, IfOk};
ghost use Rattle.lin_objects.specs.Kinds.{kind_of};
ghost use Rattle.lin_order.specs.Linearizable.{IsLegalOrder};

use crate::conditions::marks_each_ok;
use crate::legality::marks_of;
use crate::operations::ends_of;
use crate::placed::Placed;
use lin_events::{Event, OutOfMemory};
use lin_objects::Kinds;
use std::alloc::Global;

/// Whether the list is a legal order of the history (Herlihy and Wing 1990, sections 2 and 3).
///
/// It is when each position is an operation, no operation stands twice, no failed one is there, each ok one is there
/// with its recorded reply, no later one is before an earlier one in real time, and the object of each key, of the kind
/// that the key has, runs through the operations of that key from its start. An operation that is neither ok nor failed
/// may be there, with any reply that its object gives, or not. This is so for every list of events, well-formed or not.
///
/// Takes time and memory linear in the events and the order, and for each operation of the order what a step of its
/// object takes. `OutOfMemory` is answered only where memory was refused.
pub fn check_order(
    alloc: Global,
    events: &[Event],
    kinds: &Kinds,
    order: &[Placed],
) -> Result<bool, OutOfMemory>
    ensures { IfOk result (λ legal. IsTrue legal ↔ IsLegalOrder (kind_of kinds.now) events.now order.now) }
{
    let ends = ends_of(alloc, events)?;
    let Some(marks) = marks_of(alloc, events, &ends, kinds, order)? else {
        return Ok(false);
    };
    Ok(marks_each_ok(events, &ends, &marks))
}
