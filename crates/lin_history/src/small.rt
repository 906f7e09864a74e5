//! Events of numbers alone, in few bytes.
//!
//! An event is large, and is copied wherever it is handed on. So one that a few bytes hold is made where it is put, and nowhere before.
ghost use Rattle.std.specs.Prelude.{◌≡◌, IfSome, Some, option_map};
ghost use Rattle.lin_names.specs.Names.{Numbering};
ghost use Rattle.lin_names.specs.Spelled.{numbered, seen};
ghost use Rattle.lin_history.specs.Reading.{Reading};
ghost use Rattle.lin_history.specs.Table.{body_of};
ghost use Rattle.lin_history.specs.declared.table.EventType.TheVariants as EventType;
ghost use Rattle.lin_history.specs.inner.Fields.{plain_view};
ghost use Rattle.lin_history.specs.inner.Small.{number_said, number_value, small_body, small_event, small_val};

use crate::table::{EventType, Plain};
use lin_events::{Item, Name, Val};
use lin_names::Said;

/// What an event of numbers alone says: what is called, what a call found, or no more than its function.
#[derive(Clone, Copy)]
pub(crate) enum Deed {
    Read,
    Write(Option<i64>),
    Enqueue(i64),
    Dequeue,
    Add(i64),
    Acquire,
    Release,
    Saw(Name, Option<i64>),
    Did(Name),
    Failed(Name),
    Unknown(Name),
}

/// A usual map whose event is one of numbers alone, and where it ends.
#[derive(Clone, Copy)]
pub(crate) struct Small {
    pub process: u64,
    pub key: i64,
    pub deed: Deed,
    pub used: usize,
}

/// Nil, or a number.
#[inline(always)]
pub(crate) fn val_of(value: Option<i64>) -> Val
    ensures { result ≡ small_val value }
{
    match value {
        None => Val::Nil,
        Some(number) => Val::Item(Item::Int(number)),
    }
}

/// The map of such an event, if its key is a number.
#[inline(always)]
pub(crate) fn small_with(process: u64, key: Said, deed: Deed, used: usize) -> Option<Small>
    ensures used { IfSome result (λ small. small.used ≡ used) }
    ensures event { IfSome result (λ small. (of : Numbering) → small_event small ≡ record { process = process; key = numbered of (seen key.entry); body = small_body deed }) }
{
    match key {
        Said::Int(key) => Some(Small {
            process,
            key,
            deed,
            used,
        }),
        _ => None,
    }
}

/// Nil or the number that a plain value is.
#[inline(always)]
pub(crate) fn number_in(plain: Plain) -> Option<Option<i64>>
    ensures { IfSome result (λ value. plain_view plain.entry ≡ option_map number_said value) }
{
    match plain {
        Plain::Nil => Some(None),
        Plain::Item(Said::Int(number)) => Some(Some(number)),
        Plain::Item(_) => None,
    }
}

/// What an invocation of this function says that holds nil or a number at most.
#[inline(always)]
fn call_of(name: Name, value: Option<i64>) -> Option<Deed>
    ensures { IfSome result (λ deed. (m : Reading) → body_of m EventType.Invoke name (number_value value) ≡ Some (small_body deed)) }
{
    match (name, value) {
        (Name::Read, _) => Some(Deed::Read),
        (Name::Write, _) => Some(Deed::Write(value)),
        (Name::Enqueue, Some(number)) => Some(Deed::Enqueue(number)),
        (Name::Dequeue, _) => Some(Deed::Dequeue),
        (Name::Add, Some(number)) => Some(Deed::Add(number)),
        (Name::Acquire, _) => Some(Deed::Acquire),
        (Name::Release, _) => Some(Deed::Release),
        _ => None,
    }
}

/// What an ok event of this function says that holds nil or a number at most.
#[inline(always)]
fn reply_of(name: Name, value: Option<i64>) -> Deed
    ensures { (m : Reading) → body_of m EventType.Ok name (number_value value) ≡ Some (small_body result) }
{
    match name {
        Name::Read => Deed::Saw(name, value),
        Name::Dequeue => Deed::Saw(name, value),
        Name::Write => Deed::Did(name),
        Name::Cas => Deed::Did(name),
        Name::Enqueue => Deed::Did(name),
        Name::Add => Deed::Did(name),
        Name::Acquire => Deed::Did(name),
        Name::Release => Deed::Did(name),
    }
}

/// What an event of this type and function says that holds nil or a number at most.
#[inline(always)]
pub(crate) fn deed_of(event_type: EventType, name: Name, value: Option<i64>) -> Option<Deed>
    ensures { IfSome result (λ deed. (m : Reading) → body_of m event_type name (number_value value) ≡ Some (small_body deed)) }
{
    match event_type {
        EventType::Invoke => call_of(name, value),
        EventType::Ok => Some(reply_of(name, value)),
        EventType::Fail => Some(Deed::Failed(name)),
        EventType::Info => Some(Deed::Unknown(name)),
    }
}
