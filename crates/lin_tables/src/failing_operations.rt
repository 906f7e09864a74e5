//! How operations stand, which one fails, and which ran beside another.
ghost use Rattle.std.specs.Prelude.{◌≡◌, ◌↔◌, ◌++◌, ℕ, IfSome, IsTrue, MatchOption, OnOk, option_map};
ghost use Rattle.lin_events.specs.declared.events.Event.{Event as EventOf};
ghost use Rattle.lin_events.specs.Alternation.{IsReturn};
ghost use Rattle.lin_events.specs.Operations.{IsEnd};
ghost use Rattle.lin_order.specs.Tables.{IsNextTable};
ghost use Rattle.lin_tables.specs.WindowOperations.{IsBeside, IsFailing, IsInvoked, IsOpenAt, IsOutcome};
ghost use Rattle.lin_tables.specs.WindowTables.{end_in, outcome_text, reply_in};

use lin_events::{Body, Event, Reply};
use lin_order::{call_at, end_of};
use std::alloc::AllocError;

/// How an operation stands after the events.
#[derive(Clone, Copy)]
pub(crate) enum Outcome<'a> {
    /// It is ok, which was known at the place, with the reply.
    Returned(usize, &'a Reply),
    Failed(usize),
    Crashed(usize),
    Open,
}

impl<'a> Outcome<'a> {
    /// Where it ended.
    pub(crate) fn end(&self) -> Option<usize>
        ensures { result ≡ end_in self.now }
    {
        match self {
            Outcome::Returned(end, _) => Some(*end),
            Outcome::Failed(end) => Some(*end),
            Outcome::Crashed(end) => Some(*end),
            Outcome::Open => None,
        }
    }

    /// Its reply, if it is ok.
    pub(crate) fn reply(&self) -> Option<&'a Reply>
        ensures { option_map (λ r. r.now) result ≡ reply_in self.now }
    {
        match self {
            Outcome::Returned(_, reply) => Some(reply),
            Outcome::Failed(_) => None,
            Outcome::Crashed(_) => None,
            Outcome::Open => None,
        }
    }

    /// Puts last what became of it, unless it is ok.
    pub(crate) fn put(&self, line: &mut Vec<u8>) -> Result<(), AllocError>
        ensures { OnOk result (line.new.items ≡ line.old.items ++ outcome_text self.now) }
    {
        match self {
            Outcome::Returned(_, _) => Ok(()),
            Outcome::Failed(_) => line.extend_from_slice(b", failed"),
            Outcome::Crashed(_) => line.extend_from_slice(b", crashed"),
            Outcome::Open => line.extend_from_slice(b", open"),
        }
    }
}

/// Whether an operation begins at the place.
pub(crate) fn is_invoked(events: &[Event], at: usize) -> bool
    ensures { IsTrue result ↔ IsInvoked events.now at }
{
    match call_at(events, at) {
        Some(_) => true,
        None => false,
    }
}

/// The end of the operation at the place, if one begins there, with the event that stands at the end.
pub(crate) fn ending_of<'a>(
    events: &'a [Event],
    ends: &[Option<usize>],
    at: usize,
) -> Option<(usize, &'a Event)>
    requires { IsNextTable events.now ends.now }
    ensures { MatchOption result ((end : ℕ) (ending : EventOf) → IsEnd events.now at end ending → ⊥) (λ found. IsEnd events.now at found.0 found.1.now) }
{
    if at >= events.len() {
        return None;
    }
    end_of(events, ends, at)
}

/// How the operation at the place stands.
pub(crate) fn outcome_of<'a>(events: &'a [Event], ends: &[Option<usize>], at: usize) -> Outcome<'a>
    requires { IsNextTable events.now ends.now }
    ensures { IsOutcome events.now at result }
{
    let Some((end, ending)) = ending_of(events, ends, at) else {
        return Outcome::Open;
    };
    match &ending.body {
        Body::Ok(_, reply) => Outcome::Returned(end, reply),
        Body::Fail(_) => Outcome::Failed(end),
        Body::Info(_) => Outcome::Crashed(end),
        Body::Invoke(_) => Outcome::Open,
    }
}

/// Where the operation at the place was known to be ok or failed.
fn return_of(events: &[Event], ends: &[Option<usize>], at: usize) -> Option<usize>
    requires { IsNextTable events.now ends.now }
    ensures { MatchOption result ((end : ℕ) → IsReturn events.now at end → ⊥) (λ end. IsReturn events.now at end) }
{
    match outcome_of(events, ends, at) {
        Outcome::Returned(end, _) => Some(end),
        Outcome::Failed(end) => Some(end),
        Outcome::Crashed(_) => None,
        Outcome::Open => None,
    }
}

/// Whether the operation at the place is neither ok nor failed.
pub(crate) fn is_open_at(events: &[Event], ends: &[Option<usize>], at: usize) -> bool
    requires { IsNextTable events.now ends.now }
    ensures { IsTrue result ↔ IsOpenAt events.now at }
{
    if !is_invoked(events, at) {
        return false;
    }
    match return_of(events, ends, at) {
        Some(_) => false,
        None => true,
    }
}

/// Whether the ok or the fail of the operation at the place is the last event.
fn is_failing(events: &[Event], ends: &[Option<usize>], at: usize) -> bool
    requires { IsNextTable events.now ends.now }
    ensures { IsTrue result ↔ IsFailing events.now at }
{
    match return_of(events, ends, at) {
        Some(end) => end == events.len().saturating_sub(1),
        None => false,
    }
}

/// The operation whose ok or fail is the last event, if that is an ok or a fail. It's looked for from the end: most operations are short.
pub fn failing_operation(events: &[Event], ends: &[Option<usize>]) -> Option<usize>
    requires { IsNextTable events.now ends.now }
    ensures failing { MatchOption result ((at : ℕ) → IsFailing events.now at → ⊥) (λ at. IsFailing events.now at) }
    ensures begins { IfSome result (λ at. IsInvoked events.now at) }
{
    for at in (0..events.len()).rev() {
        if is_failing(events, ends, at) {
            return Some(at);
        }
    }
    None
}

/// Whether the other operation ran beside the one that was invoked at `call`.
pub fn ran_beside(events: &[Event], ends: &[Option<usize>], call: usize, other: usize) -> bool
    requires { IsNextTable events.now ends.now }
    ensures { IsTrue result ↔ IsBeside events.now call other }
{
    if other == call || !is_invoked(events, other) {
        return false;
    }
    match return_of(events, ends, other) {
        Some(end) => call <= end,
        None => true,
    }
}
