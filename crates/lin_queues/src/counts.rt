//! How many operations of a queue are known to have put something in, or taken something out, and how many may have.
ghost use Rattle.std.specs.Prelude.{◌<◌, ◌≡◌, ◌≤◌, IsTrue, false, length};
ghost use Rattle.lin_certificates.specs.Numbers.{AtLeast, AtMost};
ghost use Rattle.lin_order.specs.Orders.{IsBefore};
ghost use Rattle.lin_order.specs.Tables.{IsNextTable};
ghost use Rattle.lin_queues.specs.Ranks.{HasPut, HasTaken, HasTakenItem, MayPut, MayPutItem, MayTake, RanksFrom};
ghost use Rattle.lin_queues.specs.inner.Returning.{IsReturnedBy};

use crate::operations::{has_taken_item, may_put, may_put_item, may_take, put_end, take_end};
use lin_events::{Event, Item};

/// Places that bound ranks: enqueues that returned by the lower one rank below, those that weren't invoked ahead of the upper one above.
#[derive(Clone, Copy)]
pub struct RankPlaces {
    pub lower: usize,
    pub upper: usize,
}

/// Whether the operation at the one place is an enqueue that returned ahead of the other place.
fn is_put_before(events: &[Event], ends: &[Option<usize>], at: usize, place: usize) -> bool
    requires table { IsNextTable events.now ends.now }
    requires within { at < length events.now }
    ensures { IsTrue result → HasPut events.now at × IsBefore events.now at place }
{
    match put_end(events, ends, at) {
        Some(end) => end < place,
        None => false,
    }
}

/// Whether the operation at the one place is a dequeue that took something out, and returned ahead of the other place.
fn is_taken_before(events: &[Event], ends: &[Option<usize>], at: usize, place: usize) -> bool
    requires table { IsNextTable events.now ends.now }
    requires within { at < length events.now }
    ensures { IsTrue result → HasTaken events.now at × IsBefore events.now at place }
{
    match take_end(events, ends, at) {
        Some((end, _)) => end < place,
        None => false,
    }
}

/// How many enqueues returned ahead of the place.
pub fn puts_before(events: &[Event], ends: &[Option<usize>], place: usize) -> usize
    requires table { IsNextTable events.now ends.now }
    ensures { RanksFrom events.now (HasPut events.now) place result }
{
    let mut puts = 0;
    for at in 0..events.len() {
        if is_put_before(events, ends, at, place) {
            puts += 1;
        }
    }
    puts
}

/// How many dequeues that took something out returned ahead of the place.
pub fn takes_before(events: &[Event], ends: &[Option<usize>], place: usize) -> usize
    requires table { IsNextTable events.now ends.now }
    ensures { RanksFrom events.now (HasTaken events.now) place result }
{
    let mut takes = 0;
    for at in 0..events.len() {
        if is_taken_before(events, ends, at, place) {
            takes += 1;
        }
    }
    takes
}

/// Whether the operation at the one place is an enqueue that may put its item in, and was invoked ahead of the other place.
fn is_put_ahead(events: &[Event], ends: &[Option<usize>], at: usize, place: usize) -> bool
    requires table { IsNextTable events.now ends.now }
    requires within { at < length events.now }
    ensures { result ≡ false → MayPut events.now at × (at < place) → ⊥ }
{
    if place <= at {
        return false;
    }
    may_put(events, ends, at)
}

/// Whether the operation at the one place is a dequeue that may take something out, and was invoked ahead of the other place.
fn is_taken_ahead(events: &[Event], ends: &[Option<usize>], at: usize, place: usize) -> bool
    requires table { IsNextTable events.now ends.now }
    requires within { at < length events.now }
    ensures { result ≡ false → MayTake events.now at × (at < place) → ⊥ }
{
    if place <= at {
        return false;
    }
    may_take(events, ends, at)
}

/// How many enqueues that may put their item in were invoked ahead of the place.
pub fn puts_ahead(events: &[Event], ends: &[Option<usize>], place: usize) -> usize
    requires table { IsNextTable events.now ends.now }
    ensures { AtMost result (λ x. MayPut events.now x × (x < place)) }
{
    let mut puts = 0;
    for at in 0..events.len() {
        if is_put_ahead(events, ends, at, place) {
            puts += 1;
        }
    }
    puts
}

/// How many dequeues that may take something out were invoked ahead of the place.
pub fn takes_ahead(events: &[Event], ends: &[Option<usize>], place: usize) -> usize
    requires table { IsNextTable events.now ends.now }
    ensures { AtMost result (λ x. MayTake events.now x × (x < place)) }
{
    let mut takes = 0;
    for at in 0..events.len() {
        if is_taken_ahead(events, ends, at, place) {
            takes += 1;
        }
    }
    takes
}

/// Whether the operation at the place is a dequeue that took the item out, and was not invoked ahead of the other place.
fn is_taken_from(
    events: &[Event],
    ends: &[Option<usize>],
    at: usize,
    item: Item,
    from: usize,
) -> bool
    requires table { IsNextTable events.now ends.now }
    requires within { at < length events.now }
    ensures { IsTrue result → HasTakenItem events.now item at × (from ≤ at) }
{
    if at < from {
        return false;
    }
    has_taken_item(events, ends, at, item)
}

/// How many dequeues that took the item out were not invoked ahead of the place.
pub fn takes_from(events: &[Event], ends: &[Option<usize>], item: Item, from: usize) -> usize
    requires table { IsNextTable events.now ends.now }
    ensures { AtLeast result (λ x. HasTakenItem events.now item x × (from ≤ x)) }
{
    let mut takes = 0;
    for at in 0..events.len() {
        if is_taken_from(events, ends, at, item, from) {
            takes += 1;
        }
    }
    takes
}

/// Whether the enqueue at the place is known to have returned by the other place.
fn is_returned_by(events: &[Event], ends: &[Option<usize>], at: usize, place: usize) -> bool
    requires table { IsNextTable events.now ends.now }
    requires within { at < length events.now }
    ensures { IsTrue result → IsReturnedBy events.now at place }
{
    match put_end(events, ends, at) {
        Some(end) => end <= place,
        None => false,
    }
}

/// Whether the operation at the place is an enqueue that may put the item in, was invoked ahead of the upper place, and didn't return by the
/// lower one.
fn is_put_between(
    events: &[Event],
    ends: &[Option<usize>],
    at: usize,
    item: Item,
    places: &RankPlaces,
) -> bool
    requires table { IsNextTable events.now ends.now }
    requires within { at < length events.now }
    ensures { result ≡ false → MayPutItem events.now item at × (at < places.now.upper) × (IsReturnedBy events.now at places.now.lower → ⊥) → ⊥ }
{
    if places.upper <= at {
        return false;
    }
    if is_returned_by(events, ends, at, places.lower) {
        return false;
    }
    may_put_item(events, ends, at, item)
}

/// How many enqueues that may put the item in were invoked ahead of the upper place, and didn't return by the lower one.
pub fn puts_between(
    events: &[Event],
    ends: &[Option<usize>],
    item: Item,
    places: &RankPlaces,
) -> usize
    requires table { IsNextTable events.now ends.now }
    ensures { AtMost result (λ x. MayPutItem events.now item x × (x < places.now.upper) × (IsReturnedBy events.now x places.now.lower → ⊥)) }
{
    let mut puts = 0;
    for at in 0..events.len() {
        if is_put_between(events, ends, at, item, places) {
            puts += 1;
        }
    }
    puts
}
