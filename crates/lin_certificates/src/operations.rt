//! Which operations a history has: those that count, that are ok, and that are open.
ghost use Rattle.std.specs.Prelude.{◌↔◌, ◌<◌, ◌≤◌, IsTrue, length};
ghost use Rattle.lin_events.specs.Operations.{IsFailed};
ghost use Rattle.lin_order.specs.Orders.{IsBefore};
ghost use Rattle.lin_order.specs.Tables.{IsNextTable};
ghost use Rattle.lin_certificates.specs.Words.{Concerns, Counts, IsOfAnswers, IsOfCalls, IsOfWhich, MayTakeAhead, MayTakeOne, Returned, StaysOpen};

use crate::words::{Answers, Calls, Which, adds_one, is_of_answers, is_of_calls, takes_one};
use lin_events::{Call, Event, Item};
use lin_order::{call_at, is_failed, ok_end};

/// Whether the operation at the place counts, and its call is of the sort.
fn counts(events: &[Event], ends: &[Option<usize>], at: usize, calls: &Calls) -> bool
    requires table { IsNextTable events.now ends.now }
    requires within { at < length events.now }
    ensures { IsTrue result ↔ Counts events.now (IsOfCalls calls.now) at }
{
    let Some(call) = call_at(events, at) else {
        return false;
    };
    is_of_calls(call, calls) && !is_failed(events, ends, at)
}

/// Whether the operation at the place is ok, and its call with its reply is of the sort.
fn is_answered_so(events: &[Event], ends: &[Option<usize>], at: usize, answers: &Answers) -> bool
    requires table { IsNextTable events.now ends.now }
    requires within { at < length events.now }
    ensures { IsTrue result ↔ Returned events.now (IsOfAnswers answers.now) at }
{
    let Some(call) = call_at(events, at) else {
        return false;
    };
    match ok_end(events, ends, at) {
        Some((_, reply)) => is_of_answers(call, reply, answers),
        None => false,
    }
}

/// Whether the operation at the place is neither ok nor failed, and its call is of the sort.
fn is_open(events: &[Event], ends: &[Option<usize>], at: usize, calls: &Calls) -> bool
    requires table { IsNextTable events.now ends.now }
    requires within { at < length events.now }
    ensures { IsTrue result ↔ StaysOpen events.now (IsOfCalls calls.now) at }
{
    match ok_end(events, ends, at) {
        Some(_) => false,
        None => counts(events, ends, at, calls),
    }
}

/// Whether the one operation, which stands in the history, is before the other in real time.
fn is_before(events: &[Event], ends: &[Option<usize>], earlier: usize, later: usize) -> bool
    requires table { IsNextTable events.now ends.now }
    requires within { earlier < length events.now }
    ensures { IsTrue result ↔ IsBefore events.now earlier later }
{
    match ok_end(events, ends, earlier) {
        Some((end, _)) => end < later,
        None => false,
    }
}

/// Whether the one operation is before the other in real time.
pub fn comes_before(events: &[Event], ends: &[Option<usize>], earlier: usize, later: usize) -> bool
    requires { IsNextTable events.now ends.now }
    ensures { IsTrue result ↔ IsBefore events.now earlier later }
{
    earlier < events.len() && is_before(events, ends, earlier, later)
}

/// Whether the dequeue at the place, another one, may have taken something out ahead of the one.
fn may_take_ahead(events: &[Event], ends: &[Option<usize>], at: usize, dequeue: usize) -> bool
    requires table { IsNextTable events.now ends.now }
    requires within { at < length events.now }
    ensures { IsTrue result ↔ MayTakeAhead events.now dequeue at }
{
    let same = at == dequeue;
    let may = counts(events, ends, at, &Calls::Dequeues);
    let nothing = is_answered_so(events, ends, at, &Answers::FindsNothing);
    let behind = comes_before(events, ends, dequeue, at);
    !same & may & !nothing & !behind
}

/// Whether the dequeue at the place isn't known to have taken out anything but one of the items.
fn may_take_one(events: &[Event], ends: &[Option<usize>], at: usize, items: &[Item]) -> bool
    requires table { IsNextTable events.now ends.now }
    requires within { at < length events.now }
    ensures { IsTrue result ↔ MayTakeOne events.now items.now at }
{
    match ok_end(events, ends, at) {
        Some((_, reply)) => takes_one(reply, items),
        None => true,
    }
}

/// Whether the operation at the place puts one of the items in, or is a dequeue that isn't known to have taken out anything else.
pub fn concerns(events: &[Event], ends: &[Option<usize>], at: usize, items: &[Item]) -> bool
    requires table { IsNextTable events.now ends.now }
    requires within { at < length events.now }
    ensures { IsTrue result ↔ Concerns events.now items.now at }
{
    let Some(call) = call_at(events, at) else {
        return false;
    };
    match call {
        Call::Dequeue => may_take_one(events, ends, at, items),
        _ => adds_one(call, items),
    }
}

/// Whether the operation at the place is ok, its call with its reply is of the sort, and it ran between the two places.
fn returned_within(
    events: &[Event],
    ends: &[Option<usize>],
    at: usize,
    answers: &Answers,
    places: (usize, usize),
) -> bool
    requires table { IsNextTable events.now ends.now }
    requires within { at < length events.now }
    ensures { IsTrue result ↔ (Returned events.now (IsOfAnswers answers.now) at × (places.0 ≤ at) × IsBefore events.now at places.1) }
{
    let made = is_answered_so(events, ends, at, answers);
    let early = at < places.0;
    let before = is_before(events, ends, at, places.1);
    made & !early & before
}

/// Whether the operation at the place counts, its call is of the sort, and it may have run between the two places.
fn counts_within(
    events: &[Event],
    ends: &[Option<usize>],
    at: usize,
    calls: &Calls,
    places: (usize, usize),
) -> bool
    requires table { IsNextTable events.now ends.now }
    requires within { at < length events.now }
    ensures { IsTrue result ↔ (Counts events.now (IsOfCalls calls.now) at × (at < places.1) × (IsBefore events.now at places.0 → ⊥)) }
{
    let may = counts(events, ends, at, calls);
    let ahead = at < places.1;
    let over = is_before(events, ends, at, places.0);
    may & ahead & !over
}

/// Whether the operation at the place, which stands in the history, is one of these.
pub fn is_of_which(events: &[Event], ends: &[Option<usize>], at: usize, which: &Which) -> bool
    requires table { IsNextTable events.now ends.now }
    requires within { at < length events.now }
    ensures { IsTrue result ↔ IsOfWhich events.now which.now at }
{
    match which {
        Which::Counts(calls) => counts(events, ends, at, calls),
        Which::CountsBut(calls, but) => at != *but && counts(events, ends, at, calls),
        Which::CountsBelow(calls, place) => at < *place && counts(events, ends, at, calls),
        Which::Returned(answers) => is_answered_so(events, ends, at, answers),
        Which::ReturnedBut(answers, but) => at != *but && is_answered_so(events, ends, at, answers),
        Which::ReturnedBefore(answers, place) => {
            is_answered_so(events, ends, at, answers) && is_before(events, ends, at, *place)
        }
        Which::ReturnedWithin(answers, from, to) => {
            returned_within(events, ends, at, answers, (*from, *to))
        }
        Which::CountsWithin(calls, from, to) => {
            counts_within(events, ends, at, calls, (*from, *to))
        }
        Which::OpenBut(calls, but) => at != *but && is_open(events, ends, at, calls),
        Which::TakesAhead(dequeue) => may_take_ahead(events, ends, at, *dequeue),
    }
}

/// Whether one of these operations is at the place.
pub fn is_among(events: &[Event], ends: &[Option<usize>], at: usize, which: &Which) -> bool
    requires { IsNextTable events.now ends.now }
    ensures { IsTrue result ↔ IsOfWhich events.now which.now at }
{
    at < events.len() && is_of_which(events, ends, at, which)
}
