//! The texts over and under the rows.
ghost use Rattle.std.specs.Prelude.{◌<◌, IfSome, length};

use crate::labels::put_whole;
use crate::operations::Operation;
use lin_answers::{Answer, Present};
use lin_events::Item;
use lin_names::Names;
use lin_texts::{kind_word, put_item, put_number};
use std::alloc::{AllocError, Global};

/// What a picture is about: the object of this key, if there is one, by so many of the first events.
#[derive(Clone, Copy)]
pub(crate) struct Subject {
    pub(crate) key: Option<Item>,
    pub(crate) count: usize,
}

/// The key of the event at the position, if there is one.
fn key_at(present: &Present<'_>, at: usize) -> Option<Item> {
    match present.event(at) {
        Some(event) => Some(event.key),
        None => None,
    }
}

/// What the picture is about that is drawn where a key is asked for, or the whole.
pub(crate) fn subject_of(present: &Present<'_>, answer: &Answer, key: Option<Item>) -> Subject {
    let count = present.len();
    match answer {
        Answer::No { prefix } => Subject {
            key: key_at(present, prefix.saturating_sub(1)),
            count: *prefix,
        },
        Answer::Undecided { at } => Subject {
            key: key_at(present, *at),
            count,
        },
        _ => Subject {
            key: key.or_else(|| key_at(present, count.saturating_sub(1))),
            count,
        },
    }
}

/// The place at which the words begin first in the text, if they do.
fn find(text: &[u8], words: &[u8]) -> Option<usize>
    ensures { IfSome result (λ at. at < length text.now) }
{
    for at in 0..text.len() {
        if text[at..].starts_with(words) {
            return Some(at);
        }
    }
    None
}

/// The first line of a text.
fn first_line(text: &[u8]) -> &[u8] {
    match find(text, b"\n") {
        Some(end) => &text[..end],
        None => text,
    }
}

/// The place at which the words begin last in the text, if they do.
fn find_last(text: &[u8], words: &[u8]) -> Option<usize>
    ensures { IfSome result (λ at. at < length text.now) }
{
    for at in (0..text.len()).rev() {
        if text[at..].starts_with(words) {
            return Some(at);
        }
    }
    None
}

/// What the line on a failing operation says before it tells the invocation, and from its end on. A key or a value may say the same words,
/// but stands before them.
fn around_call(line: &[u8]) -> Option<(&[u8], &[u8])> {
    let from = find_last(line, b", called at ")?;
    let (front, rest) = line.split_at(from);
    let to = match find(rest, b", ok at ") {
        Some(to) => to,
        None => find(rest, b", fail at ")?,
    };
    let (_, behind) = rest.split_at(to);
    Some((front, behind))
}

/// Puts the key's object and its kind last, behind a comma.
fn put_object(
    text: &mut Vec<u8>,
    present: &Present<'_>,
    names: &Names,
    key: Item,
) -> Result<(), AllocError> {
    text.extend_from_slice(b", object ")?;
    put_item(text, names, key)?;
    text.push(b' ')?;
    text.extend_from_slice(kind_word(present.kind_of(key)).as_bytes())
}

/// Puts the answer last.
fn put_answer(text: &mut Vec<u8>, answer: &Answer) -> Result<(), AllocError> {
    match answer {
        Answer::No { prefix } => {
            text.extend_from_slice(b"no prefix ")?;
            put_number(text, *prefix as u64)
        }
        Answer::Undecided { at } => {
            text.extend_from_slice(b"undecided at ")?;
            put_number(text, *at as u64)
        }
        _ => text.extend_from_slice(b"yes"),
    }
}

/// What the explanation's first line says of the failing operation but for its invocation, if the answer is a no.
fn failure_in<'a>(answer: &Answer, lines: &'a [u8]) -> Option<(&'a [u8], &'a [u8])> {
    match answer {
        Answer::No { .. } => around_call(first_line(lines)),
        _ => None,
    }
}

/// Puts last what the answer is about: the object, of a no with the failing operation, as the explanation tells it, or whole where it is given.
fn put_subject(
    text: &mut Vec<u8>,
    present: &Present<'_>,
    names: &Names,
    answer: &Answer,
    key: Option<Item>,
    lines: &[u8],
    failing: Option<&Operation>,
) -> Result<(), AllocError> {
    let Some(key) = key else {
        return text.extend_from_slice(b", no events");
    };
    match (failure_in(answer, lines), failing) {
        (Some((_, behind)), Some(operation)) => {
            put_object(text, present, names, key)?;
            text.extend_from_slice(b": ")?;
            put_whole(text, names, operation, operation.reply)?;
            text.extend_from_slice(behind)
        }
        (Some((front, behind)), None) => {
            text.extend_from_slice(b", ")?;
            text.extend_from_slice(front)?;
            text.extend_from_slice(behind)
        }
        (None, _) => put_object(text, present, names, key),
    }
}

/// The head of a picture; with the failing operation its title, which has values whole.
pub(crate) fn head_of(
    alloc: Global,
    present: &Present<'_>,
    names: &Names,
    answer: &Answer,
    key: Option<Item>,
    lines: &[u8],
    failing: Option<&Operation>,
) -> Result<Vec<u8>, AllocError> {
    let mut head = Vec::new(alloc);
    put_answer(&mut head, answer)?;
    put_subject(&mut head, present, names, answer, key, lines, failing)?;
    Ok(head)
}

/// The lines of an explanation that stand under the rows: those between the one that tells the failing prefix and the table.
pub(crate) fn told_of(alloc: Global, lines: &[u8]) -> Result<Vec<&[u8]>, AllocError> {
    let mut told = Vec::new(alloc);
    let mut is_told = false;
    for line in lines.split(|byte| *byte == b'\n') {
        if line.starts_with(b"since event ") {
            is_told = false;
        }
        if is_told {
            told.push(line)?;
        }
        if line.starts_with(b"its events among ") {
            is_told = true;
        }
    }
    Ok(told)
}

/// Puts last how many operations aren't drawn, if any aren't.
pub(crate) fn left_out(alloc: Global, count: usize) -> Result<Vec<u8>, AllocError> {
    let mut words = Vec::new(alloc);
    if count > 0 {
        put_number(&mut words, count as u64)?;
        let rest = if count == 1 {
            " operation isn't drawn"
        } else {
            " operations aren't drawn"
        };
        words.extend_from_slice(rest.as_bytes())?;
    }
    Ok(words)
}
