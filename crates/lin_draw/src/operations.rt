//! How the operations of an object stand.
ghost use Rattle.std.specs.Prelude.{◌<◌, length};
ghost use Rattle.lin_order.specs.Tables.{IsNextTable};

use lin_events::{Body, Call, Event, Reply};
use lin_order::{call_at, end_of};

/// How an operation stands after the events.
#[derive(Clone, Copy)]
pub(crate) enum Outcome {
    Returned,
    Failed,
    /// Its end is an info.
    Crashed,
    /// It has no end.
    Running,
}

/// An operation, told by the places of its events among those of the object.
#[derive(Clone, Copy)]
pub(crate) struct Operation<'a> {
    pub(crate) process: u64,
    pub(crate) call: Call,
    pub(crate) at: usize,
    /// Where it ended, be it by an info.
    pub(crate) end: Option<usize>,
    pub(crate) outcome: Outcome,
    /// What it returned, if it is ok.
    pub(crate) reply: Option<&'a Reply>,
}

/// What an end makes of its operation.
fn outcome_of(ending: &Event) -> Outcome {
    match &ending.body {
        Body::Ok(_, _) => Outcome::Returned,
        Body::Fail(_) => Outcome::Failed,
        Body::Info(_) => Outcome::Crashed,
        Body::Invoke(_) => Outcome::Running,
    }
}

/// What an end returns, if it is an ok.
fn reply_of(ending: &Event) -> Option<&Reply> {
    match &ending.body {
        Body::Ok(_, reply) => Some(reply),
        _ => None,
    }
}

/// Whether an operation begins at the place.
pub(crate) fn is_call(events: &[Event], at: usize) -> bool {
    call_at(events, at).is_some()
}

/// Whether the operation that begins at the place neither returned nor failed before the other place.
pub(crate) fn is_open_behind(
    events: &[Event],
    ends: &[Option<usize>],
    at: usize,
    place: usize,
) -> bool
    requires table { IsNextTable events.now ends.now }
    requires within { at < length events.now }
{
    match end_of(events, ends, at) {
        Some((end, ending)) => place <= end || matches!(ending.body, Body::Info(_)),
        None => true,
    }
}

/// The operation that begins at the place, if one does.
pub(crate) fn operation_at<'a>(
    events: &'a [Event],
    ends: &[Option<usize>],
    at: usize,
) -> Option<Operation<'a>>
    requires { IsNextTable events.now ends.now }
{
    let event = events.get(at)?;
    let Body::Invoke(call) = &event.body else {
        return None;
    };
    let begun = Operation {
        process: event.process,
        call: *call,
        at,
        end: None,
        outcome: Outcome::Running,
        reply: None,
    };
    match end_of(events, ends, at) {
        Some((end, ending)) => Some(Operation {
            end: Some(end),
            outcome: outcome_of(ending),
            reply: reply_of(ending),
            ..begun
        }),
        None => Some(begun),
    }
}
