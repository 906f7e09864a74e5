//! How operations begin and end.
ghost use Rattle.std.specs.Prelude.{◌≡◌, ◌<◌, ◌↔◌, ℕ, length, IsTrue, IfOk, MatchOption};
ghost use Rattle.lin_events.specs.declared.events.Event.{Event as EventOf};
ghost use Rattle.lin_events.specs.declared.calls.Call.{Call as CallOf};
ghost use Rattle.lin_events.specs.declared.calls.Reply.{Reply as ReplyOf};
ghost use Rattle.lin_events.specs.Operations.{IsEnd, IsFailed, IsOk};
ghost use Rattle.lin_order.specs.Orders.{IsCall};
ghost use Rattle.lin_order.specs.Tables.{IsNextTable};

use lin_events::{Body, Call, Event, OutOfMemory, Reply};
use std::alloc::Global;
use std::collections::HashMap;

/// The call of the operation at the position, if an operation begins there.
pub fn call_at(events: &[Event], at: usize) -> Option<&Call>
    ensures { MatchOption result ((call : CallOf) → IsCall events.now at call → ⊥) (λ call. IsCall events.now at call.now) }
{
    let Some(event) = events.get(at) else {
        return None;
    };
    match &event.body {
        Body::Invoke(call) => Some(call),
        _ => None,
    }
}

/// For each position the next one of the same process: where an operation ends.
pub fn ends_of(alloc: Global, events: &[Event]) -> Result<Vec<Option<usize>>, OutOfMemory>
    ensures { IfOk result (λ ends. IsNextTable events.now ends.items) }
{
    let mut ends: Vec<Option<usize>> = Vec::new(alloc);
    let mut latest: HashMap<u64, usize> = HashMap::new(alloc);
    for (at, event) in events.iter().enumerate() {
        ends.push(None)?;
        let earlier = latest.insert(event.process, at)?;
        if let Some(earlier) = earlier {
            ends[earlier] = Some(at);
        }
    }
    Ok(ends)
}

/// The end of the operation at the position, with the completion that stands there.
pub fn end_of<'a>(
    events: &'a [Event],
    ends: &[Option<usize>],
    at: usize,
) -> Option<(usize, &'a Event)>
    requires table { IsNextTable events.now ends.now }
    requires within { at < length events.now }
    ensures { MatchOption result ((end : ℕ) (ending : EventOf) → IsEnd events.now at end ending → ⊥) (λ found. IsEnd events.now at found.0 found.1.now) }
{
    let Body::Invoke(_) = &events[at].body else {
        return None;
    };
    let Some(end) = ends[at] else {
        return None;
    };
    Some((end, &events[end]))
}

/// Where the operation at the position was known to be ok, and its reply.
pub fn ok_end<'a>(
    events: &'a [Event],
    ends: &[Option<usize>],
    at: usize,
) -> Option<(usize, &'a Reply)>
    requires table { IsNextTable events.now ends.now }
    requires within { at < length events.now }
    ensures { MatchOption result ((end : ℕ) (reply : ReplyOf) → IsOk events.now at end reply → ⊥) (λ found. IsOk events.now at found.0 found.1.now) }
{
    let Some((end, ending)) = end_of(events, ends, at) else {
        return None;
    };
    match &ending.body {
        Body::Ok(_, reply) => Some((end, reply)),
        _ => None,
    }
}

/// Whether the operation at the position failed.
pub fn is_failed(events: &[Event], ends: &[Option<usize>], at: usize) -> bool
    requires table { IsNextTable events.now ends.now }
    requires within { at < length events.now }
    ensures { IsTrue result ↔ IsFailed events.now at }
{
    match end_of(events, ends, at) {
        Some((_, ending)) => matches!(ending.body, Body::Fail(_)),
        None => false,
    }
}
