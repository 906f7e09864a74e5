//! Whether an item was taken out more often, between two ranks, than it can have been put in.
ghost use Rattle.std.specs.Prelude.{◌<◌, ◌≤◌, IfOk, IsTrue, length, ℕ};
ghost use Rattle.lin_order.specs.Tables.{IsNextTable};
ghost use Rattle.lin_queues.specs.Ranks.{HasPut, IsOvertaken, IsRankedFrom};

use crate::counts::{
    RankPlaces, puts_ahead, puts_before, puts_between, takes_ahead, takes_before, takes_from,
};
use lin_events::{Event, Item, OutOfMemory};
use lin_order::ends_of;
use std::alloc::Global;

/// An item, a place, so that its dequeues are looked at that weren't invoked ahead of it, and what bounds their ranks.
#[derive(Clone, Copy)]
pub struct RankWindow {
    pub item: Item,
    pub from: usize,
    pub places: RankPlaces,
}

/// Whether enqueues that weren't invoked ahead of the place have at least the rank.
fn are_above(events: &[Event], ends: &[Option<usize>], place: usize, high: usize) -> bool
    requires table { IsNextTable events.now ends.now }
    ensures { IsTrue result → (x : ℕ) → x < length events.now → place ≤ x → IsRankedFrom events.now (HasPut events.now) x high }
{
    if events.len() <= place {
        return true;
    }
    high <= puts_before(events, ends, place)
}

/// Whether the item was overtaken, by the window.
fn is_overtaken_in(events: &[Event], ends: &[Option<usize>], window: &RankWindow) -> bool
    requires table { IsNextTable events.now ends.now }
    ensures { IsTrue result → IsOvertaken events.now window.now.item }
{
    let low = takes_before(events, ends, window.from);
    if low < puts_ahead(events, ends, window.places.lower) {
        return false;
    }
    let high = takes_ahead(events, ends, events.len());
    if !are_above(events, ends, window.places.upper, high) {
        return false;
    }
    puts_between(events, ends, window.item, &window.places)
        < takes_from(events, ends, window.item, window.from)
}

/// The same, where it isn't told yet how operations end. Goes through the events a few times.
pub fn is_overtaken(
    alloc: Global,
    events: &[Event],
    window: &RankWindow,
) -> Result<bool, OutOfMemory>
    ensures { IfOk result (λ is. IsTrue is → IsOvertaken events.now window.now.item) }
{
    let ends = ends_of(alloc, events)?;
    Ok(is_overtaken_in(events, &ends, window))
}
