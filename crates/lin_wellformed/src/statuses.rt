//! What processes are between their events, and which events are bad for them.
ghost use Rattle.std.specs.Prelude.{◌≡◌, ◌<◌, ℕ, Bool, Some, length};
ghost use Rattle.lin_events.specs.declared.items.Item.{Item as ItemOf};
ghost use Rattle.lin_events.specs.declared.events.Body.TheVariants.{Invoke};
ghost use Rattle.lin_events.specs.declared.events.Event.{Event as EventOf};
ghost use Rattle.lin_events.specs.declared.calls.Name.{Name as NameOf};
ghost use Rattle.lin_events.specs.WellFormed.{left_by, IsStatus, Completes, IsVerdict};
ghost use Rattle.lin_objects.specs.Kinds.{kind_of, functions_of};
ghost use Rattle.lin_wellformed.specs.Scans.{processes_of};
ghost use Rattle.lin_wellformed.specs.Tables.{IsLastPlace};

use lin_events::{Body, Call, Cause, Event, Item, Name, ProcessStatus};
use lin_objects::{Any, Kinds, SeqObject};

/// What the event leaves its process as.
pub fn status_after(event: &Event) -> ProcessStatus
    ensures { result ≡ left_by event.now }
{
    match &event.body {
        Body::Invoke(call) => ProcessStatus::Busy {
            called: call.name(),
            key: event.key,
        },
        Body::Ok(_, _) | Body::Fail(_) => ProcessStatus::Idle,
        Body::Info(_) => ProcessStatus::Retired,
    }
}

/// What the process is after the events, by a look back that stops at its last one.
pub fn status_at_end(events: &[Event], process: u64) -> ProcessStatus
    ensures { IsStatus events.now process result }
{
    for at in (0..events.len()).rev() {
        let event = &events[at];
        if event.process == process {
            return status_after(event);
        }
    }
    ProcessStatus::Idle
}

/// What a process is after the events, where it has its last one at this place, or has none.
pub fn status_behind(events: &[Event], last: Option<usize>) -> ProcessStatus
    requires { (at : ℕ) → last ≡ Some at → at < length events.now }
    ensures { (process : ℕ) → IsLastPlace (processes_of events.now) process last → IsStatus events.now process result }
{
    match last {
        Some(at) => status_after(&events[at]),
        None => ProcessStatus::Idle,
    }
}

/// The first cause for which the event is bad, where its process is this before it.
pub fn first_cause(status: ProcessStatus, event: &Event, kinds: &Kinds) -> Option<Cause>
    ensures { IsVerdict (functions_of (kind_of kinds.now)) status event.now result }
{
    match &event.body {
        Body::Invoke(call) => cause_at_invocation(status, call, event.key, kinds),
        Body::Ok(name, _) => cause_at_completion(status, *name, event.key),
        Body::Fail(name) => cause_at_completion(status, *name, event.key),
        Body::Info(name) => cause_at_completion(status, *name, event.key),
    }
}

fn cause_at_invocation(
    status: ProcessStatus,
    call: &Call,
    key: Item,
    kinds: &Kinds,
) -> Option<Cause>
    ensures { (event : EventOf) → event.body ≡ Invoke call.now → event.key ≡ key → IsVerdict (functions_of (kind_of kinds.now)) status event result }
{
    let object = Any {
        kind: kinds.of(key),
    };
    match status {
        ProcessStatus::Retired => Some(Cause::RetiredProcess),
        ProcessStatus::Busy { .. } => Some(Cause::BusyProcess),
        ProcessStatus::Idle if object.allows(call.name()) => None,
        ProcessStatus::Idle => Some(Cause::NotOfKind),
    }
}

fn cause_at_completion(status: ProcessStatus, name: Name, key: Item) -> Option<Cause>
    ensures { (functions : ItemOf → NameOf → Bool) (event : EventOf) → Completes event.body name → event.key ≡ key → IsVerdict functions status event result }
{
    match status {
        ProcessStatus::Retired => Some(Cause::RetiredProcess),
        ProcessStatus::Idle => Some(Cause::NoInvocation),
        ProcessStatus::Busy { called, .. } if called != name => Some(Cause::OtherCall),
        ProcessStatus::Busy { key: invoked, .. } if invoked != key => Some(Cause::OtherKey),
        ProcessStatus::Busy { .. } => None,
    }
}
