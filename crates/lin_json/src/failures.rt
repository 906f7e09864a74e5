//! Events that an explanation speaks of, and what else it tells of a failure.
ghost use Rattle.std.specs.Prelude.{◌≡◌, ◌++◌, OnOk, option_map};
ghost use Rattle.lin_json.specs.Failures.{calls_json, choices_json, count_json, failed_json, named_event, outcome_json, place_json, spot_json, why_json, words_json};

use crate::answers::put_named;
use crate::strings::put_string;
use lin_events::Item;
use lin_explain::{Choices, Failed, Spot, Why};
use lin_names::Names;
use lin_objects::Kind;
use lin_texts::{Place, put_number};
use std::alloc::AllocError;

/// Puts last where something stands, if it has a place.
pub(crate) fn put_place(text: &mut Vec<u8>, place: Option<Place>) -> Result<(), AllocError>
    ensures { OnOk result (text.new.items ≡ text.old.items ++ place_json place) }
{
    let Some(place) = place else {
        return Ok(());
    };
    text.extend_from_slice(b",\"line\":")?;
    put_number(text, place.line)?;
    text.extend_from_slice(b",\"offset\":")?;
    put_number(text, place.offset)
}

/// Puts an event last.
pub(crate) fn put_spot(text: &mut Vec<u8>, spot: &Spot) -> Result<(), AllocError>
    ensures { OnOk result (text.new.items ≡ text.old.items ++ spot_json spot.now) }
{
    text.extend_from_slice(b"{\"at\":")?;
    put_number(text, spot.at as u64)?;
    put_place(text, spot.place)?;
    text.extend_from_slice(b",\"words\":")?;
    put_string(text, &spot.words)?;
    text.push(b'}')?;
    Ok(())
}

/// Puts the object of an event last, and the event.
pub(crate) fn put_named_event(
    text: &mut Vec<u8>,
    names: &Names,
    key: Item,
    kind: Kind,
    event: &Spot,
) -> Result<(), AllocError>
    ensures { OnOk result (text.new.items ≡ text.old.items ++ named_event names.now key kind event.now) }
{
    text.push(b',')?;
    put_named(text, names, key, kind)?;
    text.extend_from_slice(b",\"event\":")?;
    put_spot(text, event)
}

/// Puts a count last, or that it isn't known.
fn put_count(text: &mut Vec<u8>, count: Option<usize>) -> Result<(), AllocError>
    ensures { OnOk result (text.new.items ≡ text.old.items ++ count_json count) }
{
    match count {
        Some(count) => put_number(text, count as u64),
        None => text.extend_from_slice(b"null"),
    }
}

/// Puts the elements of an array of strings last.
fn put_words(text: &mut Vec<u8>, words: &[Vec<u8>]) -> Result<(), AllocError>
    ensures { OnOk result (text.new.items ≡ text.old.items ++ words_json words.now) }
{
    let Some((first, others)) = words.split_first() else {
        return Ok(());
    };
    put_string(text, first)?;
    for other in others {
        text.push(b',')?;
        put_string(text, other)?;
    }
    Ok(())
}

/// Puts what was possible last: how much that was, and the words of some of it.
fn put_choices(text: &mut Vec<u8>, choices: &Choices) -> Result<(), AllocError>
    ensures { OnOk result (text.new.items ≡ text.old.items ++ choices_json choices.now) }
{
    text.extend_from_slice(b"{\"count\":")?;
    put_count(text, choices.count)?;
    text.extend_from_slice(b",\"some\":[")?;
    put_words(text, &choices.some)?;
    text.extend_from_slice(b"]}")
}

/// Puts the elements of an array of numbers last.
fn put_calls(text: &mut Vec<u8>, calls: &[usize]) -> Result<(), AllocError>
    ensures { OnOk result (text.new.items ≡ text.old.items ++ calls_json calls.now) }
{
    let Some((first, others)) = calls.split_first() else {
        return Ok(());
    };
    put_number(text, *first as u64)?;
    for other in others {
        text.push(b',')?;
        put_number(text, *other as u64)?;
    }
    Ok(())
}

/// Puts a certificate last, or that there is none.
pub(crate) fn put_why(text: &mut Vec<u8>, why: Option<&Why>) -> Result<(), AllocError>
    ensures { OnOk result (text.new.items ≡ text.old.items ++ why_json (option_map (λ w. w.now) why.entry)) }
{
    let Some(why) = why else {
        return text.extend_from_slice(b"null");
    };
    text.extend_from_slice(b"{\"name\":")?;
    put_string(text, why.name.as_bytes())?;
    text.extend_from_slice(b",\"calls\":[")?;
    put_calls(text, &why.calls)?;
    text.extend_from_slice(b"]}")
}

/// Puts what was possible before a failure last, and why there is one.
fn put_outcome(text: &mut Vec<u8>, failed: &Failed) -> Result<(), AllocError>
    ensures { OnOk result (text.new.items ≡ text.old.items ++ outcome_json failed.now) }
{
    text.extend_from_slice(b",\"replies\":")?;
    put_choices(text, &failed.replies)?;
    text.extend_from_slice(b",\"states\":")?;
    put_choices(text, &failed.states)?;
    text.extend_from_slice(b",\"why\":")?;
    put_why(text, failed.why.as_ref())
}

/// Puts all that is told of a failure last.
pub(crate) fn put_failed(
    text: &mut Vec<u8>,
    names: &Names,
    failed: &Failed,
) -> Result<(), AllocError>
    ensures { OnOk result (text.new.items ≡ text.old.items ++ failed_json names.now failed.now) }
{
    put_named_event(text, names, failed.key, failed.kind, &failed.event)?;
    text.extend_from_slice(b",\"call\":")?;
    put_spot(text, &failed.call)?;
    put_outcome(text, failed)?;
    text.extend_from_slice(b",\"from\":")?;
    put_number(text, failed.from as u64)
}
