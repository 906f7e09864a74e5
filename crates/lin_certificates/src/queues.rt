//! Certificates of queues, ordered or not.
ghost use Rattle.std.specs.Prelude.{◌↔◌, ℕ, IsTrue};
ghost use Rattle.lin_order.specs.Tables.{IsNextTable};
ghost use Rattle.lin_certificates.specs.Certificates.{CanAdd, IsInside, IsPassed, IsPreceded, IsRemaining, IsSurplus, IsTaken, Stays, TookOut};
ghost use Rattle.lin_certificates.specs.Words.{Exactly};

use crate::operations::{comes_before, is_among};
use crate::passes::{all_behind, count_of, count_of_items, is_any};
use crate::words::{Answers, Calls, Which};
use lin_events::{Event, Item};

/// Whether more dequeues took the item than enqueues of it aren't failed.
pub fn is_taken(events: &[Event], ends: &[Option<usize>], item: Item) -> bool
    requires { IsNextTable events.now ends.now }
    ensures { IsTrue result ↔ IsTaken events.now item }
{
    let puts = count_of(events, ends, &Which::Counts(Calls::Adds(item)));
    let takes = count_of(events, ends, &Which::Returned(Answers::Takes(item)));
    puts < takes
}

/// Whether one operation puts the item in, and a dequeue is known to have taken it.
fn is_once(events: &[Event], ends: &[Option<usize>], item: Item) -> bool
    requires { IsNextTable events.now ends.now }
    ensures { IsTrue result ↔ (Exactly 1 (CanAdd events.now item) × ((at : ℕ) × TookOut events.now item at)) }
{
    let puts = count_of(events, ends, &Which::Counts(Calls::Adds(item)));
    let took = is_any(events, ends, &Which::Returned(Answers::Takes(item)));
    let one = puts == 1;
    one & took
}

/// Whether the dequeue is before each other one that may have taken the item.
fn stays(events: &[Event], ends: &[Option<usize>], item: Item, dequeue: usize) -> bool
    requires { IsNextTable events.now ends.now }
    ensures { IsTrue result ↔ Stays events.now item dequeue }
{
    let others = Which::ReturnedBut(Answers::Takes(item), dequeue);
    let open = Which::OpenBut(Calls::Dequeues, dequeue);
    let taken_later = all_behind(events, ends, &others, dequeue);
    let once = is_once(events, ends, item);
    let open_later = all_behind(events, ends, &open, dequeue);
    taken_later & (once | open_later)
}

/// Whether the dequeue took the other item, which was put in after the item, while that stayed.
pub fn is_passed(
    events: &[Event],
    ends: &[Option<usize>],
    enqueues: (usize, usize),
    dequeue: usize,
    item: Item,
    other: Item,
) -> bool
    requires { IsNextTable events.now ends.now }
    ensures { IsTrue result ↔ IsPassed events.now enqueues.0 enqueues.1 dequeue item other }
{
    let (enqueue, later) = enqueues;
    let puts = Which::Returned(Answers::Called(Calls::Adds(item)));
    let others = Which::Counts(Calls::Adds(other));
    let put = is_among(events, ends, enqueue, &puts);
    let some = is_among(events, ends, later, &others);
    let all = all_behind(events, ends, &others, enqueue);
    let took = is_among(
        events,
        ends,
        dequeue,
        &Which::Returned(Answers::Takes(other)),
    );
    let stayed = stays(events, ends, item, dequeue);
    let differ = item != other;
    differ & put & some & all & took & stayed
}

/// Whether the dequeue found nothing, while the item, which was put in before it, stayed.
pub fn is_inside(
    events: &[Event],
    ends: &[Option<usize>],
    enqueue: usize,
    dequeue: usize,
    item: Item,
) -> bool
    requires { IsNextTable events.now ends.now }
    ensures { IsTrue result ↔ IsInside events.now enqueue dequeue item }
{
    let puts = Which::Returned(Answers::Called(Calls::Adds(item)));
    let put = is_among(events, ends, enqueue, &puts);
    let found = is_among(
        events,
        ends,
        dequeue,
        &Which::Returned(Answers::FindsNothing),
    );
    let before = comes_before(events, ends, enqueue, dequeue);
    let stayed = stays(events, ends, item, dequeue);
    put & found & before & stayed
}

/// Whether the dequeue found nothing, though more items were put in before it than other dequeues may have taken out ahead of it.
pub fn is_remaining(events: &[Event], ends: &[Option<usize>], dequeue: usize) -> bool
    requires { IsNextTable events.now ends.now }
    ensures { IsTrue result ↔ IsRemaining events.now dequeue }
{
    let some = Answers::Called(Calls::AddsSome);
    let found = is_among(
        events,
        ends,
        dequeue,
        &Which::Returned(Answers::FindsNothing),
    );
    let puts = count_of(events, ends, &Which::ReturnedBefore(some, dequeue));
    let takes = count_of(events, ends, &Which::TakesAhead(dequeue));
    let fewer = takes < puts;
    found & fewer
}

/// Whether the dequeue found nothing, though more of the items were put in before it than other dequeues may have taken out ahead of it.
pub fn is_surplus(events: &[Event], ends: &[Option<usize>], dequeue: usize, items: &[Item]) -> bool
    requires { IsNextTable events.now ends.now }
    ensures { IsTrue result ↔ IsSurplus events.now dequeue items.now }
{
    let some = Answers::Called(Calls::AddsSome);
    let nothing = Which::Returned(Answers::FindsNothing);
    let before = Which::ReturnedBefore(some, dequeue);
    let found = is_among(events, ends, dequeue, &nothing);
    let puts = count_of_items(events, ends, &before, items);
    let takes = count_of_items(events, ends, &Which::TakesAhead(dequeue), items);
    let more = takes < puts;
    found & more
}

/// Whether more items were put in ahead of the one that the dequeue took, which was put in at the one place or behind, than other dequeues may
/// have taken out ahead of this one.
pub fn is_preceded(
    events: &[Event],
    ends: &[Option<usize>],
    later: usize,
    dequeue: usize,
    item: Item,
) -> bool
    requires { IsNextTable events.now ends.now }
    ensures { IsTrue result ↔ IsPreceded events.now later dequeue item }
{
    let takes_it = Answers::Takes(item);
    let adds_it = Calls::Adds(item);
    let some = Answers::Called(Calls::AddsSome);
    let took = is_among(events, ends, dequeue, &Which::Returned(takes_it));
    let added = is_among(events, ends, later, &Which::Counts(adds_it));
    let outs = count_of(events, ends, &Which::ReturnedBefore(takes_it, dequeue));
    let early = count_of(events, ends, &Which::CountsBelow(adds_it, later));
    let puts = count_of(events, ends, &Which::ReturnedBefore(some, later));
    let takes = count_of(events, ends, &Which::TakesAhead(dequeue));
    let over = outs < early;
    let fewer = takes < puts;
    took & added & !over & fewer
}
