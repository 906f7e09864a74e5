//! Answers, of a whole history and of its objects.
ghost use Rattle.std.specs.Prelude.{◌≡◌, ◌++◌, OnOk, codes, is_some};
ghost use Rattle.lin_texts.specs.Items.{item_text};
ghost use Rattle.lin_json.specs.Answers.{answer_json, counted_json, failed_key, file_front, head_json, named_json, object_json, objects_front, passed_json, status_number as number_of, valid_text};
ghost use Rattle.lin_json.specs.Strings.{string_json};

use crate::strings::put_string;
use lin_events::Item;
use lin_names::{Names, Said, shown};
use lin_objects::Kind;
use lin_texts::{Status, kind_word, put_item, put_number};
use std::alloc::AllocError;

/// An answer, or why there is none: the status of a run that ends with it, and its line.
#[derive(Clone, Copy)]
pub struct Head<'a> {
    pub status: Status,
    pub answer: &'a [u8],
}

/// Whether a history is linearizable of which this is found, and beside which an object is a no, or none.
fn valid_word(status: Status, fails: bool) -> &'static str
    ensures { result.now ≡ valid_text status fails }
{
    match (status, fails) {
        (Status::Yes, _) => "true",
        (Status::No, _) | (Status::Undecided, true) => "false",
        (Status::Undecided, false) | (Status::IllFormed | Status::Refused, _) => "\"unknown\"",
    }
}

/// The exit status of a run that ends so.
fn status_number(status: Status) -> u64
    ensures { result ≡ number_of status }
{
    match status {
        Status::Yes => 0,
        Status::No => 1,
        Status::Undecided => 2,
        Status::IllFormed => 3,
        Status::Refused => 4,
    }
}

/// Puts last what each map says: whether the history is linearizable, the exit status, and the answer's line.
pub(crate) fn put_head(text: &mut Vec<u8>, head: Head, fails: bool) -> Result<(), AllocError>
    ensures { OnOk result (text.new.items ≡ text.old.items ++ head_json fails head.entry.status head.entry.answer.now) }
{
    text.extend_from_slice(b"\"valid?\":")?;
    text.extend_from_slice(valid_word(head.status, fails).as_bytes())?;
    text.extend_from_slice(b",\"status\":")?;
    put_number(text, status_number(head.status))?;
    text.extend_from_slice(b",\"answer\":")?;
    put_string(text, head.answer)
}

/// Puts last what stands in front of a map that tells of a file of this name, in place of the brace that opens it.
pub fn put_file_front(text: &mut Vec<u8>, name: &[u8]) -> Result<(), AllocError>
    ensures { OnOk result (text.new.items ≡ text.old.items ++ file_front name.now) }
{
    text.extend_from_slice(b"{\"file\":")?;
    put_string(text, name)?;
    text.push(b',')?;
    Ok(())
}

/// Puts the map last that says an answer and nothing else.
pub fn put_answer(text: &mut Vec<u8>, head: Head) -> Result<(), AllocError>
    ensures { OnOk result (text.new.items ≡ text.old.items ++ answer_json head.entry.status head.entry.answer.now) }
{
    text.push(b'{')?;
    put_head(text, head, false)?;
    text.push(b'}')?;
    Ok(())
}

/// Puts what every map of a history's answer begins with last: the answer, and how many events the history has.
pub(crate) fn put_counted(
    text: &mut Vec<u8>,
    head: Head,
    fails: bool,
    events: usize,
) -> Result<(), AllocError>
    ensures { OnOk result (text.new.items ≡ text.old.items ++ counted_json fails head.entry.status head.entry.answer.now events) }
{
    text.push(b'{')?;
    put_head(text, head, fails)?;
    text.extend_from_slice(b",\"events\":")?;
    put_number(text, events as u64)
}

/// Puts the text of an item last, between quotes, as it stands.
fn put_plain(text: &mut Vec<u8>, names: &Names, item: Item) -> Result<(), AllocError>
    ensures { OnOk result (text.new.items ≡ text.old.items ++ (codes "\"" ++ item_text names.now item ++ codes "\"")) }
{
    text.push(b'"')?;
    put_item(text, names, item)?;
    text.push(b'"')?;
    Ok(())
}

/// Puts the text of a key last, as a string: only a word has bytes that are escaped.
fn put_key(text: &mut Vec<u8>, names: &Names, key: Item) -> Result<(), AllocError>
    ensures { OnOk result (text.new.items ≡ text.old.items ++ string_json (item_text names.now key)) }
{
    match shown(names, key) {
        Said::Word(spelling) => put_string(text, spelling),
        Said::Int(_) | Said::Bool(_) => put_plain(text, names, key),
    }
}

/// Puts the key of the object last that is a no beside an undecided whole, if one is.
fn put_failed_key(text: &mut Vec<u8>, names: &Names, failed: Option<Item>) -> Result<(), AllocError>
    ensures { OnOk result (text.new.items ≡ text.old.items ++ failed_key names.now failed) }
{
    match failed {
        Some(key) => {
            text.extend_from_slice(b",\"failed\":")?;
            put_key(text, names, key)
        }
        None => Ok(()),
    }
}

/// Puts last that so many maps were passed over, if any were.
fn put_passed(text: &mut Vec<u8>, passed: u64) -> Result<(), AllocError>
    ensures { OnOk result (text.new.items ≡ text.old.items ++ passed_json passed) }
{
    if passed == 0 {
        return Ok(());
    }
    text.extend_from_slice(b",\"passed\":")?;
    put_number(text, passed)
}

/// Puts the answer last, and how many events the history has, where this object is a no beside it, or none.
fn put_counted_for(
    text: &mut Vec<u8>,
    head: Head,
    events: usize,
    failed: Option<Item>,
) -> Result<(), AllocError>
    ensures { OnOk result (text.new.items ≡ text.old.items ++ counted_json (is_some failed) head.entry.status head.entry.answer.now events) }
{
    match failed {
        Some(_) => put_counted(text, head, true, events),
        None => put_counted(text, head, false, events),
    }
}

/// Puts what stands in front of the objects last: the answer, how many maps were passed over, and the object that is a no beside an undecided whole, if one is.
pub fn put_objects_front(
    text: &mut Vec<u8>,
    names: &Names,
    head: Head,
    events: usize,
    passed: u64,
    failed: Option<Item>,
) -> Result<(), AllocError>
    ensures { OnOk result (text.new.items ≡ text.old.items ++ objects_front names.now failed head.entry.status head.entry.answer.now events passed) }
{
    put_counted_for(text, head, events, failed)?;
    put_passed(text, passed)?;
    put_failed_key(text, names, failed)?;
    text.extend_from_slice(b",\"objects\":[")?;
    Ok(())
}

/// Puts the key and the kind of an object last.
pub(crate) fn put_named(
    text: &mut Vec<u8>,
    names: &Names,
    key: Item,
    kind: Kind,
) -> Result<(), AllocError>
    ensures { OnOk result (text.new.items ≡ text.old.items ++ named_json names.now key kind) }
{
    text.extend_from_slice(b"\"key\":")?;
    put_key(text, names, key)?;
    text.extend_from_slice(b",\"kind\":\"")?;
    text.extend_from_slice(kind_word(kind).as_bytes())?;
    text.push(b'"')?;
    Ok(())
}

/// Puts the map of an object last.
pub fn put_object(
    text: &mut Vec<u8>,
    names: &Names,
    key: Item,
    kind: Kind,
    head: Head,
) -> Result<(), AllocError>
    ensures { OnOk result (text.new.items ≡ text.old.items ++ object_json names.now key kind head.entry.status head.entry.answer.now) }
{
    text.push(b'{')?;
    put_named(text, names, key, kind)?;
    text.push(b',')?;
    put_head(text, head, false)?;
    text.push(b'}')?;
    Ok(())
}
