//! Hints at what to do with a file that is refused.
ghost use Rattle.std.specs.Prelude.{◌≡◌, ◌<◌, ◌≤◌, ◌++◌, not, ℕ, List, Option, filter, option_map, IfOk, OnOk};
ghost use Rattle.lin_bytes.specs.Bytes.{is_white as says_white};
ghost use Rattle.lin_edn.specs.Value.{Value};
ghost use Rattle.lin_edn.specs.View.{view};
ghost use Rattle.lin_formats.specs.Places.{IsHeld, bad_of};
ghost use Rattle.lin_formats.specs.Hints.{IsAt, IsHint, IsHinted, IsInFront, beginning, full_line, edn_hint as edn_words, element_hint as element_words, first_hint as first_words, if_so, is_json as says_json, map_hint as map_words, pair_line, strings_line};

use crate::elements::{has_pair, has_string};
use crate::inputs::History;
use crate::places::Places;
use crate::verdicts::Refusal;
use lin_bytes::is_white;
use lin_edn::{Edn, EdnCause, Next, next_element};
use lin_events::OutOfMemory;
use lin_history::EventFault;
use std::alloc::{AllocError, Global};

/// How many bytes of the beginning of a file are kept.
const KEPT: usize = 64;

/// So many of a count as there is room for.
fn at_most(room: usize, count: usize) -> usize
    ensures within { result ≤ room }
    ensures fits { result ≤ count }
    ensures all { result < room → result ≡ count }
{
    if count < room { count } else { room }
}

/// Keeps the first bytes of a text, of which one more piece comes.
pub(crate) fn keep_first(first: &mut Vec<u8>, piece: &[u8]) -> Result<(), AllocError>
    ensures { OnOk result ((text : List ℕ) → first.old.items ≡ beginning text → first.new.items ≡ beginning (text ++ piece.now)) }
{
    if first.len() >= KEPT {
        return Ok(());
    }
    let room = KEPT - first.len();
    let more = at_most(room, piece.len());
    first.extend_from_slice(&piece[..more])?;
    Ok(())
}

/// The element in front of a text, if one stands there.
fn first_element<'a>(alloc: Global, text: &'a [u8]) -> Result<Option<Edn<'a>>, OutOfMemory>
    ensures { IfOk result (λ element. IsInFront text.now (option_map view element)) }
{
    match next_element(alloc, text) {
        Ok(Next::Complete { value, at: 0, .. }) => Ok(Some(value)),
        Ok(_) => Ok(None),
        Err(fault) => match fault.cause {
            EdnCause::OutOfMemory => Err(OutOfMemory),
            _ => Ok(None),
        },
    }
}

/// The element at the place of a fault, if one stands there.
fn element_at_fault<'p>(alloc: Global, places: &'p Places) -> Result<Option<Edn<'p>>, OutOfMemory>
    ensures { IfOk result (λ element. (bytes : List ℕ) → IsHeld places.now bytes → IsAt bytes (bad_of places.now.stop) (option_map view element)) }
{
    match places.from_bad() {
        Some(text) => first_element(alloc, text),
        None => Ok(None),
    }
}

/// A hint at keys, if values are of two parts.
fn pair_hint(is_pair: bool) -> &'static str
    ensures { result.now ≡ if_so is_pair pair_line }
{
    if is_pair {
        "the value is of two parts: if it is a key and a value, say --keyed\n"
    } else {
        ""
    }
}

/// A hint at JSON, if keys are strings.
fn strings_hint(are_strings: bool) -> &'static str
    ensures { result.now ≡ if_so are_strings strings_line }
{
    if are_strings {
        "its keys are strings: is it JSON? (examples/from_json.py makes a history of JSON lines)\n"
    } else {
        ""
    }
}

/// The hint of a map that is no event.
fn map_hint(keyed: bool, cause: EventFault, element: &Edn) -> &'static str
    ensures { result.now ≡ map_words keyed cause (view element.now) }
{
    match cause {
        EventFault::Missing => strings_hint(has_string(element)),
        EventFault::BadValue => pair_hint(!keyed && has_pair(element)),
        _ => "",
    }
}

/// Drops the white bytes.
fn drop_white(text: &mut Vec<u8>)
    ensures { text.new.items ≡ filter (λ b. not (says_white b)) text.old.items }
{
    text.retain(|byte| !is_white(*byte));
}

/// Whether a text begins as JSON does, white aside.
fn is_json(alloc: Global, first: &[u8]) -> Result<bool, AllocError>
    ensures { IfOk result (λ is. is ≡ says_json first.now) }
{
    let mut dark = Vec::from_slice(alloc, first)?;
    drop_white(&mut dark);
    Ok(dark.starts_with(b"{\"") || dark.starts_with(b"[{\""))
}

/// The hint of a fault of EDN, by the first bytes of the file.
fn edn_hint(alloc: Global, cause: EdnCause, first: &[u8]) -> Result<&'static str, AllocError>
    ensures { IfOk result (λ hint. hint.now ≡ edn_words cause first.now) }
{
    match cause {
        EdnCause::OddMap => Ok(strings_hint(is_json(alloc, first)?)),
        _ => Ok(""),
    }
}

/// The hint that the first bytes of a file give.
fn first_hint(first: &[u8]) -> &'static str
    ensures { result.now ≡ first_words first.now }
{
    if first.starts_with(&[239, 187, 191]) {
        "the file begins with a byte order mark: take it away\n"
    } else if first.starts_with(&[31, 139]) {
        "the file is compressed (gzip): unpack it first\n"
    } else if first.starts_with(&[255, 254]) || first.starts_with(&[254, 255]) {
        "the file is UTF-16: make it UTF-8\n"
    } else {
        ""
    }
}

/// The hint of too many events.
fn full_hint(alloc: Global) -> Result<Vec<u8>, AllocError>
    ensures { IfOk result (λ hint. hint.items ≡ full_line) }
{
    Vec::from_slice(alloc, b"check a beginning of it, or its keys apart\n")
}

/// A hint, and the one that the first bytes of the file give.
fn both_hints(alloc: Global, hint: &[u8], first: &[u8]) -> Result<Vec<u8>, AllocError>
    ensures { IfOk result (λ hints. hints.items ≡ hint.now ++ first_words first.now) }
{
    let mut hints = Vec::from_slice(alloc, hint)?;
    hints.extend_from_slice(first_hint(first).as_bytes())?;
    Ok(hints)
}

/// The hints of the element at the place of a map that is no event.
fn element_hints(
    alloc: Global,
    keyed: bool,
    cause: EventFault,
    places: &Places,
) -> Result<Vec<u8>, OutOfMemory>
    ensures { IfOk result (λ hints. (bytes : List ℕ) → IsHeld places.now bytes
        → (element : Option Value) × IsAt bytes (bad_of places.now.stop) element × (hints.items ≡ element_words keyed cause element)) }
{
    match element_at_fault(alloc, places)? {
        Some(element) => Ok(Vec::from_slice(alloc, map_hint(keyed, cause, &element).as_bytes())?),
        None => Ok(Vec::new(alloc)),
    }
}

/// The hints of a map that is no event.
fn event_hints(
    alloc: Global,
    keyed: bool,
    cause: EventFault,
    places: &Places,
    first: &[u8],
) -> Result<Vec<u8>, OutOfMemory>
    ensures { IfOk result (λ hints. (number : ℕ) (bytes : List ℕ) → IsHeld places.now bytes → first.now ≡ beginning bytes
        → IsHint keyed bytes places.now (Refusal.Event number cause) hints.items) }
{
    let hints = element_hints(alloc, keyed, cause, places)?;
    Ok(both_hints(alloc, hints.as_slice(), first)?)
}

/// The hints of a file that is refused, of which these are the first bytes.
fn refusal_hints(
    alloc: Global,
    keyed: bool,
    refusal: Refusal,
    places: &Places,
    first: &[u8],
) -> Result<Vec<u8>, OutOfMemory>
    ensures { IfOk result (λ hints. (bytes : List ℕ) → IsHeld places.now bytes → first.now ≡ beginning bytes
        → IsHint keyed bytes places.now refusal hints.items) }
{
    match refusal {
        Refusal::Edn { cause, .. } => {
            let hint = edn_hint(alloc, cause, first)?;
            Ok(both_hints(alloc, hint.as_bytes(), first)?)
        }
        Refusal::Event { cause, .. } => event_hints(alloc, keyed, cause, places, first),
        Refusal::Truncated { .. } => Ok(both_hints(alloc, b"", first)?),
        Refusal::Full => Ok(full_hint(alloc)?),
        Refusal::BadPair { .. } | Refusal::Few { .. } => Ok(Vec::new(alloc)),
    }
}

/// The hints of what a file says, of which these are the first bytes; none of a whole history.
pub(crate) fn hints_of(
    alloc: Global,
    keyed: bool,
    history: &History,
    places: &Places,
    first: &[u8],
) -> Result<Vec<u8>, OutOfMemory>
    ensures { IfOk result (λ hints. (bytes : List ℕ) → IsHeld places.now bytes → first.now ≡ beginning bytes
        → IsHinted keyed bytes places.now history.now hints.items) }
{
    match history {
        History::Whole(_) => Ok(Vec::new(alloc)),
        History::Refused(refusal) => refusal_hints(alloc, keyed, *refusal, places, first),
    }
}
