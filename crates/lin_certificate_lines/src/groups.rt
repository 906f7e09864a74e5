//! Groups of operations that the lines of a certificate list.
ghost use Rattle.std.specs.Prelude.{◌↔◌, ◌<◌, IsTrue, length};
ghost use Rattle.lin_order.specs.Orders.{IsBefore};
ghost use Rattle.lin_order.specs.Tables.{IsNextTable};
ghost use Rattle.lin_certificates.specs.Adding.{Adds};
ghost use Rattle.lin_certificates.specs.Conflicts.{Leaves};
ghost use Rattle.lin_certificates.specs.QueueConflicts.{Takes};
ghost use Rattle.lin_certificates.specs.Certificates.{Overwrites};
ghost use Rattle.lin_certificates.specs.Words.{Counts, Returned, Spends, Updates};
ghost use Rattle.lin_certificate_lines.specs.Groups.{EndsBefore, Fails, FailsWithin, IsBetween, IsInGroup, IsOfAnswers, IsOfCalls};

use lin_certificates::{Which, is_of_which};
use lin_events::{Call, Event, Item, Reply, Val};
use lin_order::{call_at, end_of, is_failed, ok_end};

/// A sort of calls.
#[derive(Clone, Copy, Debug, PartialEq, Eq)]
pub(crate) enum CallGroup {
    /// It leaves the value in a register.
    Leaves(Val),
    /// It leaves some value in a register.
    Updates,
    /// It takes a register from the value to another one.
    Spends(Val),
    /// It adds the item to a set, or puts it into a queue.
    Adds(Item),
    Acquires,
    Releases,
}

/// A sort of calls with their replies.
#[derive(Clone, Copy, Debug, PartialEq, Eq)]
pub(crate) enum ReplyGroup {
    /// The call is of the sort.
    Called(CallGroup),
    /// It took the item out of a queue.
    Takes(Item),
}

/// A group of operations.
#[derive(Clone, Copy, Debug, PartialEq, Eq)]
pub(crate) enum Group {
    /// Those that aren't failed.
    Counts(CallGroup),
    /// Those that aren't failed, but for this one.
    CountsBut(CallGroup, usize),
    /// Those that failed.
    Fails(CallGroup),
    /// Those that failed, were invoked before the second place, and hadn't ended before the first.
    FailsWithin(CallGroup, usize, usize),
    /// Those that are ok.
    Returned(ReplyGroup),
    /// Those that are ok, leave some value in a register, and are before this one.
    Overwrites(usize),
    /// Those of them that stand between the two.
    Between(usize, usize),
    /// Those that a certificate speaks of.
    Such(Which),
}

/// Whether the call leaves the value in the register.
pub(crate) fn leaves(call: &Call, value: Val) -> bool
    ensures { IsTrue result ↔ Leaves call.now value }
{
    match call {
        Call::Write(left) => *left == value,
        Call::Cas(_, left) => *left == value,
        _ => false,
    }
}

/// Whether the call leaves some value in the register.
fn updates(call: &Call) -> bool
    ensures { IsTrue result ↔ Updates call.now }
{
    match call {
        Call::Write(_) => true,
        Call::Cas(_, _) => true,
        _ => false,
    }
}

/// Whether the call takes the register from the value to another one.
fn spends(call: &Call, value: Val) -> bool
    ensures { IsTrue result ↔ Spends call.now value }
{
    match call {
        Call::Cas(from, to) => *from == value && *to != value,
        _ => false,
    }
}

/// Whether the call adds the item to a set, or puts it into a queue.
pub(crate) fn adds(call: &Call, item: Item) -> bool
    ensures { IsTrue result ↔ Adds call.now item }
{
    match call {
        Call::Add(added) => *added == item,
        Call::Enqueue(added) => *added == item,
        _ => false,
    }
}

/// Whether the call with this reply takes the item out.
fn takes(call: &Call, reply: &Reply, item: Item) -> bool
    ensures { IsTrue result ↔ Takes call.now reply.now item }
{
    match call {
        Call::Dequeue => match reply {
            Reply::Value(Val::Item(found)) => *found == item,
            _ => false,
        },
        _ => false,
    }
}

/// Whether the call is of the sort.
fn is_of_calls(call: &Call, calls: &CallGroup) -> bool
    ensures { IsTrue result ↔ IsOfCalls calls.now call.now }
{
    match calls {
        CallGroup::Leaves(value) => leaves(call, *value),
        CallGroup::Updates => updates(call),
        CallGroup::Spends(value) => spends(call, *value),
        CallGroup::Adds(item) => adds(call, *item),
        CallGroup::Acquires => matches!(call, Call::Acquire),
        CallGroup::Releases => matches!(call, Call::Release),
    }
}

/// Whether the call with this reply is of the sort.
fn is_of_answers(call: &Call, reply: &Reply, answers: &ReplyGroup) -> bool
    ensures { IsTrue result ↔ IsOfAnswers answers.now call.now reply.now }
{
    match answers {
        ReplyGroup::Called(calls) => is_of_calls(call, calls),
        ReplyGroup::Takes(item) => takes(call, reply, *item),
    }
}

/// Whether the operation at the place counts, and its call is of the sort.
fn counts(events: &[Event], ends: &[Option<usize>], at: usize, calls: &CallGroup) -> bool
    requires table { IsNextTable events.now ends.now }
    requires within { at < length events.now }
    ensures { IsTrue result ↔ Counts events.now (IsOfCalls calls.now) at }
{
    let Some(call) = call_at(events, at) else {
        return false;
    };
    is_of_calls(call, calls) && !is_failed(events, ends, at)
}

/// Whether the operation at the place failed, and its call is of the sort.
fn fails(events: &[Event], ends: &[Option<usize>], at: usize, calls: &CallGroup) -> bool
    requires table { IsNextTable events.now ends.now }
    requires within { at < length events.now }
    ensures { IsTrue result ↔ Fails events.now (IsOfCalls calls.now) at }
{
    let Some(call) = call_at(events, at) else {
        return false;
    };
    is_of_calls(call, calls) && is_failed(events, ends, at)
}

/// Whether the operation at the place ended before the other place.
fn ends_before(events: &[Event], ends: &[Option<usize>], at: usize, place: usize) -> bool
    requires table { IsNextTable events.now ends.now }
    requires within { at < length events.now }
    ensures { IsTrue result ↔ EndsBefore events.now at place }
{
    match end_of(events, ends, at) {
        Some((end, _)) => end < place,
        None => false,
    }
}

/// Whether the operation at the place failed, its call is of the sort, and it ran between the two places.
fn fails_within(
    events: &[Event],
    ends: &[Option<usize>],
    at: usize,
    calls: &CallGroup,
    places: (usize, usize),
) -> bool
    requires table { IsNextTable events.now ends.now }
    requires within { at < length events.now }
    ensures { IsTrue result ↔ FailsWithin events.now (IsOfCalls calls.now) places.0 places.1 at }
{
    let failed = fails(events, ends, at, calls);
    let ahead = at < places.1;
    let over = ends_before(events, ends, at, places.0);
    failed & ahead & !over
}

/// Whether the operation at the place is ok, and its call with its reply is of the sort.
fn returned(events: &[Event], ends: &[Option<usize>], at: usize, answers: &ReplyGroup) -> bool
    requires table { IsNextTable events.now ends.now }
    requires within { at < length events.now }
    ensures { IsTrue result ↔ Returned events.now (IsOfAnswers answers.now) at }
{
    let Some(call) = call_at(events, at) else {
        return false;
    };
    match ok_end(events, ends, at) {
        Some((_, reply)) => is_of_answers(call, reply, answers),
        None => false,
    }
}

/// Whether the one operation, which stands in the history, is before the other in real time.
fn is_before(events: &[Event], ends: &[Option<usize>], earlier: usize, later: usize) -> bool
    requires table { IsNextTable events.now ends.now }
    requires within { earlier < length events.now }
    ensures { IsTrue result ↔ IsBefore events.now earlier later }
{
    match ok_end(events, ends, earlier) {
        Some((end, _)) => end < later,
        None => false,
    }
}

/// Whether the one operation is before the other in real time.
fn comes_before(events: &[Event], ends: &[Option<usize>], earlier: usize, later: usize) -> bool
    requires { IsNextTable events.now ends.now }
    ensures { IsTrue result ↔ IsBefore events.now earlier later }
{
    earlier < events.len() && is_before(events, ends, earlier, later)
}

/// Whether the operation at the place is ok, leaves some value, and is before the last one.
fn overwrites(events: &[Event], ends: &[Option<usize>], at: usize, last: usize) -> bool
    requires table { IsNextTable events.now ends.now }
    requires within { at < length events.now }
    ensures { IsTrue result ↔ Overwrites events.now last at }
{
    let made = returned(events, ends, at, &ReplyGroup::Called(CallGroup::Updates));
    let before = is_before(events, ends, at, last);
    made & before
}

/// Whether the operation at the place is ok, leaves some value, and stands between the two.
fn is_between(
    events: &[Event],
    ends: &[Option<usize>],
    at: usize,
    first: usize,
    last: usize,
) -> bool
    requires table { IsNextTable events.now ends.now }
    requires within { at < length events.now }
    ensures { IsTrue result ↔ IsBetween events.now first last at }
{
    let over = overwrites(events, ends, at, last);
    let before = comes_before(events, ends, first, at);
    over & before
}

/// Whether the operation at the place, which stands in the history, is one of the group.
pub(crate) fn is_in_group(
    events: &[Event],
    ends: &[Option<usize>],
    at: usize,
    group: &Group,
) -> bool
    requires table { IsNextTable events.now ends.now }
    requires within { at < length events.now }
    ensures { IsTrue result ↔ IsInGroup events.now group.now at }
{
    match group {
        Group::Counts(calls) => counts(events, ends, at, calls),
        Group::CountsBut(calls, but) => at != *but && counts(events, ends, at, calls),
        Group::Fails(calls) => fails(events, ends, at, calls),
        Group::FailsWithin(calls, from, to) => {
            fails_within(events, ends, at, calls, (*from, *to))
        }
        Group::Returned(answers) => returned(events, ends, at, answers),
        Group::Overwrites(last) => overwrites(events, ends, at, *last),
        Group::Between(first, last) => is_between(events, ends, at, *first, *last),
        Group::Such(which) => is_of_which(events, ends, at, which),
    }
}
