//! What is told of a file that is refused.
ghost use Rattle.std.specs.Prelude.{◌≡◌, ◌++◌, IfOk, OnOk};
ghost use Rattle.lin_formats.specs.Refused.{edn_sentence as edn_text, event_sentence as event_text, place_in, place_words, refused_text, sentence_text};

use crate::places::Places;
use crate::reading::EventPlaces;
use crate::verdicts::Refusal;
use lin_edn::EdnCause;
use lin_events::OutOfMemory;
use lin_history::EventFault;
use lin_texts::{Place, put_number};
use std::alloc::{AllocError, Global};

/// What is asked of the bytes.
fn edn_sentence(cause: EdnCause) -> &'static str
    ensures { result.now ≡ edn_text cause }
{
    match cause {
        EdnCause::Unbalanced => "this bracket closes none, or not the one that is open",
        EdnCause::OddMap => "this ends a map whose last key has no value",
        EdnCause::TooDeep => "this is the 65th level of nesting, and 64 are read",
        EdnCause::TooLong => "this element, comment or discard has more than 16777216 bytes",
        EdnCause::OutOfMemory => "",
    }
}

/// What is asked of a map.
fn event_sentence(cause: EventFault) -> &'static str
    ensures { result.now ≡ event_text cause }
{
    match cause {
        EventFault::NotAMap => "each element has to be a map, or a vector or list of maps",
        EventFault::DuplicateKey => {
            "one of :process, :type, :f and :value stands twice in this map"
        }
        EventFault::Missing => "this map lacks :process, :type or :f",
        EventFault::BadProcess => {
            ":process has to be an integer of at least 0, or the keyword of a nemesis"
        }
        EventFault::BadType => ":type has to be :invoke, :ok, :fail or :info",
        EventFault::BadFunction => {
            ":f has to be :read, :write, :cas, :enqueue, :dequeue, :add, :acquire or :release"
        }
        EventFault::BadKey => "with --keyed each :value has to be a pair [key value]",
        EventFault::BadValue => ":value isn't one that this :f takes or gives",
        EventFault::OutOfMemory => "",
    }
}

/// What is asked of a file that is refused so, if that can be told at a place.
fn sentence(refusal: Refusal) -> &'static str
    ensures { result.now ≡ sentence_text refusal }
{
    match refusal {
        Refusal::Edn { cause, .. } => edn_sentence(cause),
        Refusal::Event { cause, .. } => event_sentence(cause),
        Refusal::Truncated { .. } => "the file ends within the element or discard that begins here",
        Refusal::Full => "a history has at most 1000000 events",
        Refusal::BadPair { .. } => "",
        Refusal::Few { .. } => {
            "the file has fewer events of clients than --at-least asks for; what a nemesis did isn't counted"
        }
    }
}

/// Where the fault is, if it has a place.
pub fn place_of(refusal: Refusal, places: &Places) -> Option<Place>
    ensures { result ≡ place_in places.now refusal }
{
    match refusal {
        Refusal::Truncated { .. } => places.unfinished(),
        Refusal::Edn { .. } | Refusal::Event { .. } => places.bad(),
        _ => None,
    }
}

/// Puts the words for a place last, if there is one.
fn put_place(text: &mut Vec<u8>, place: Option<Place>) -> Result<(), AllocError>
    ensures { OnOk result (text.new.items ≡ text.old.items ++ place_words place) }
{
    let Some(place) = place else {
        return Ok(());
    };
    text.extend_from_slice(b"line ")?;
    put_number(text, place.line)?;
    text.extend_from_slice(b", byte ")?;
    put_number(text, place.offset)?;
    text.extend_from_slice(b": ")
}

/// The lines of an explanation that follow that of the refusal: where the fault stands and what is asked there, and hints if there are any.
pub fn refusal_lines(
    alloc: Global,
    refusal: Refusal,
    placed: &EventPlaces,
) -> Result<Vec<u8>, OutOfMemory>
    ensures { IfOk result (λ lines. lines.items ≡ refused_text placed.now.places refusal ++ placed.now.hints.items) }
{
    let mut text = Vec::new(alloc);
    put_place(&mut text, place_of(refusal, &placed.places))?;
    text.extend_from_slice(sentence(refusal).as_bytes())?;
    text.push(b'\n')?;
    text.extend_from_slice(placed.hints.as_slice())?;
    Ok(text)
}
