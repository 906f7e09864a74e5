//! Explanations.
ghost use Rattle.std.specs.Prelude.{◌≡◌, ◌++◌, ◌||◌, OnOk, is_some, option_map};
ghost use Rattle.lin_json.specs.Answers.{counted_json};
ghost use Rattle.lin_json.specs.Failures.{named_event};
ghost use Rattle.lin_json.specs.Explanations as said;
ghost use Rattle.lin_json.specs.Explanations.{certain_json, event_json, explanation_json, failed_map, object_named, parts_json, refusal_json, told_json};

use crate::answers::{Head, put_counted, put_head, put_named};
use crate::failures::{put_failed, put_named_event, put_place, put_spot, put_why};
use crate::strings::put_string;
use lin_events::Item;
use lin_explain::{Parts, Spot, Why};
use lin_names::Names;
use lin_objects::Kind;
use lin_texts::Place;
use std::alloc::AllocError;

/// Puts the object that was asked about last, if one was.
fn put_asked(
    text: &mut Vec<u8>,
    names: &Names,
    object: Option<(Item, Kind)>,
) -> Result<(), AllocError>
    ensures { OnOk result (text.new.items ≡ text.old.items ++ object_named names.now object) }
{
    match object {
        Some((key, kind)) => {
            text.push(b',')?;
            put_named(text, names, key, kind)
        }
        None => Ok(()),
    }
}

/// Puts an event last, behind others or none.
fn put_event(text: &mut Vec<u8>, event: &Spot) -> Result<(), AllocError>
    ensures { OnOk result (text.new.items ≡ text.old.items ++ event_json event.now) }
{
    text.extend_from_slice(b",\"event\":")?;
    put_spot(text, event)
}

/// Puts the certificate last that is told of an object that is undecided, if one is.
fn put_certain(text: &mut Vec<u8>, why: Option<&Why>) -> Result<(), AllocError>
    ensures { OnOk result (text.new.items ≡ text.old.items ++ certain_json (option_map (λ w. w.now) why.entry)) }
{
    match why {
        Some(_) => {
            text.extend_from_slice(b",\"why\":")?;
            put_why(text, why)
        }
        None => Ok(()),
    }
}

/// Puts an object that is undecided last, the event with which it is, and the certificate that is told of it, if one is.
fn put_undecided(
    text: &mut Vec<u8>,
    names: &Names,
    key: Item,
    kind: Kind,
    event: &Spot,
    why: Option<&Why>,
) -> Result<(), AllocError>
    ensures { OnOk result (text.new.items ≡ text.old.items ++ (named_event names.now key kind event.now ++ certain_json (option_map (λ w. w.now) why.entry))) }
{
    put_named_event(text, names, key, kind, event)?;
    put_certain(text, why)
}

/// Whether an object that is undecided has no legal order all the same, as is told.
fn is_certain(parts: &Parts) -> bool
    ensures { result ≡ said.is_certain parts.now }
{
    match parts {
        Parts::Undecided { why, .. } => why.is_some(),
        _ => false,
    }
}

/// Puts what an explanation says last.
fn put_parts(text: &mut Vec<u8>, names: &Names, parts: &Parts) -> Result<(), AllocError>
    ensures { OnOk result (text.new.items ≡ text.old.items ++ parts_json names.now parts.now) }
{
    match parts {
        Parts::Yes { object } => put_asked(text, names, *object),
        Parts::No(failed) => put_failed(text, names, failed),
        Parts::Undecided {
            key,
            kind,
            event,
            why,
        } => put_undecided(text, names, *key, *kind, event, why.as_ref()),
        Parts::IllFormed { event } => put_event(text, event),
    }
}

/// Puts the end of the map of an explanation last, with its whole text.
fn put_told(text: &mut Vec<u8>, told: &[u8]) -> Result<(), AllocError>
    ensures { OnOk result (text.new.items ≡ text.old.items ++ told_json told.now) }
{
    text.extend_from_slice(b",\"text\":")?;
    put_string(text, told)?;
    text.push(b'}')?;
    Ok(())
}

/// Puts the answer last, and how many events the history has, where this is said of it, and an object with this map is a no beside it, or none.
fn put_counted_for(
    text: &mut Vec<u8>,
    head: Head,
    events: usize,
    parts: &Parts,
    failed: Option<&[u8]>,
) -> Result<(), AllocError>
    ensures { OnOk result (text.new.items ≡ text.old.items
        ++ counted_json (is_some (option_map (λ m. m.now) failed.entry) || said.is_certain parts.now) head.entry.status head.entry.answer.now events) }
{
    match failed {
        Some(_) => put_counted(text, head, true, events),
        None => put_counted(text, head, is_certain(parts), events),
    }
}

/// Puts the map of the object last that is a no beside an undecided whole, if one is.
fn put_failed_map(text: &mut Vec<u8>, failed: Option<&[u8]>) -> Result<(), AllocError>
    ensures { OnOk result (text.new.items ≡ text.old.items ++ failed_map (option_map (λ m. m.now) failed.entry)) }
{
    match failed {
        Some(map) => {
            text.extend_from_slice(b",\"failed\":")?;
            text.extend_from_slice(map)
        }
        None => Ok(()),
    }
}

/// Puts the map of an explanation last: the answer, how many events the history has, what is said of them, the map of the object that is a no
/// beside an undecided whole, if one is, and the text that says it.
pub fn put_explanation(
    text: &mut Vec<u8>,
    names: &Names,
    head: Head,
    events: usize,
    parts: &Parts,
    failed: Option<&[u8]>,
    told: &[u8],
) -> Result<(), AllocError>
    ensures { OnOk result (text.new.items ≡ text.old.items
        ++ explanation_json names.now head.entry.status head.entry.answer.now events parts.now (option_map (λ m. m.now) failed.entry) told.now) }
{
    put_counted_for(text, head, events, parts, failed)?;
    put_parts(text, names, parts)?;
    put_failed_map(text, failed)?;
    put_told(text, told)
}

/// Puts the map of a refused file last: the refusal, where the fault stands, if it has a place, and the text that says so.
pub fn put_refusal(
    text: &mut Vec<u8>,
    head: Head,
    place: Option<Place>,
    told: &[u8],
) -> Result<(), AllocError>
    ensures { OnOk result (text.new.items ≡ text.old.items ++ refusal_json head.entry.status head.entry.answer.now place told.now) }
{
    text.push(b'{')?;
    put_head(text, head, false)?;
    put_place(text, place)?;
    put_told(text, told)
}
