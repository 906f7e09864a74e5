//! A depth-first search for a legal order of one object's operations, with memory.
//!
//! Of registers, locks, sets and bags (`chronology`): the events of the operations stand in a doubly linked list. An operation can be
//! the next one in an order if it was called before the first of those returned that aren't placed. Those that can are tried in the
//! order of their calls, and those that never return last. Where the object gives the recorded reply, the operation is lifted out of
//! the list and pushed on a stack, unless the configuration (which are placed, and what the object holds) was come to before; where
//! none fits, the last one goes back. It ends where all that returned are placed. This is the search of Wing and Gong 1993 (Testing and
//! verifying concurrent objects), with the memory of Lowe 2017 (Testing for linearizability); what is lifted out is put back as in
//! Knuth 2000 (Dancing links).
//!
//! Of queues (`sides`): in which order two open enqueues took effect shows only where their items come out, maybe thousands of events
//! later, so a search that follows time goes astray. But the order in which items were put in is the one in which they were taken out.
//! So both are made side by side: the next step is an enqueue that can be the next enqueue, with a dequeue of its item that can be the
//! next dequeue. Of those of one item the ones that return first will do. A dequeue that found nothing is the next of both at once.
//! Where no pair fits, a dequeue that never returned may have taken an item; then the last step goes back. At the end each operation is
//! placed where it returns at the latest.
//!
//! What was come to before is kept as a number of 64 bits for each configuration (Wolper and Leroy 1993, Reliable hashing without
//! collision detection): where two share one, an order may be missed, and nothing else.
//!
//! It is a guide: promised are that it ends, and its count. It gives up after 32 tries for each event and 100,000 more, so no order
//! says nothing; an order has to pass `check_order` (`lin_search`). More: docs/SEARCHES.md, 'Depth first'.
ghost use Rattle.std.specs.Prelude.{◌≡◌, ◌≤◌, ◌+◌, ◌*◌, IfOk, IfSome, length};
ghost use Rattle.lin_events.specs.Meters.{ticked};

use crate::chronology::timed_order;
use crate::sides::queued_order;
use lin_events::{Event, Meter, OutOfMemory};
use lin_objects::Kind;
use lin_order::Placed;
use std::alloc::Global;

/// How many calls are tried for each event, and how many more.
const TRIES: usize = 32;

const MORE_TRIES: usize = 100_000;

/// So many calls more were tried.
pub(crate) fn tick_tries(meter: &mut Meter, count: usize)
    ensures counted { meter.new ≡ record meter.old { tries = ticked meter.old.tries count } }
    ensures risen { meter.old.tries ≤ meter.new.tries }
    ensures most { meter.new.tries ≤ meter.old.tries + count }
{
    let before = meter.tries();
    for _ in 0..count {
        meter.tick_try();
    }
    prove!(before <= meter.tries());
}

/// An order of the events, if one is found within so many tries; and how many calls were tried.
fn order_within(
    alloc: Global,
    kind: Kind,
    events: &[Event],
    bound: usize,
) -> Result<(Option<Vec<Placed>>, usize), OutOfMemory> {
    match kind {
        Kind::Fifo => queued_order(alloc, events, bound),
        _ => timed_order(alloc, kind, events, bound),
    }
}

/// An order of the events of one object of the kind, if a search finds one. It promises nothing but that it ends, and what it counts: a try
/// for each call that it tries, at most 32 for each event and 100,000 more, and no fewer than there are operations in the order.
pub fn depth_first_order(
    alloc: Global,
    kind: Kind,
    events: &[Event],
    meter: &mut Meter,
) -> Result<Option<Vec<Placed>>, OutOfMemory>
    ensures others { meter.new ≡ record meter.old { tries = meter.new.tries } }
    ensures tries { meter.old.tries ≤ meter.new.tries }
    ensures placed { IfOk result (λ found. IfSome found (λ order. ticked meter.old.tries (length order.items) ≤ meter.new.tries)) }
    ensures most { meter.new.tries ≤ meter.old.tries + (32 * length events.now + 100000) }
{
    let bound = events
        .len()
        .saturating_mul(TRIES)
        .saturating_add(MORE_TRIES);
    let (order, tried) = order_within(alloc, kind, events, bound)?;
    match order {
        Some(order) if order.len() <= bound => {
            tick_tries(meter, tried.min(bound).max(order.len()));
            Ok(Some(order))
        }
        _ => {
            tick_tries(meter, tried.min(bound));
            Ok(None)
        }
    }
}
