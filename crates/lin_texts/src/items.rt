//! Items in texts.
ghost use Rattle.std.specs.Prelude.{◌≡◌, ◌++◌, ◌==◌, not, option_map, OnErr, OnOk};
ghost use Rattle.std.specs.Fmt.{signed_decimal};
ghost use Rattle.std.specs.List.{list_any};
ghost use Rattle.lin_bytes.specs.Bytes.{is_stop};
ghost use Rattle.lin_names.specs.Spelled.{seen};
ghost use Rattle.lin_texts.specs.Items as said;
ghost use Rattle.lin_texts.specs.Items.{item_text, item_written};
ghost use Rattle.lin_texts.specs.OrderLaws.{WrittenItemsAreRead};

use crate::integers::integer;
use itoa::Buffer;
use lin_bytes::{is_stop, text_end};
use lin_events::Item;
use lin_names::{Names, Said, shown};
use std::alloc::AllocError;

/// Puts an integer with its sign last.
fn put_integer(line: &mut Vec<u8>, number: i64) -> Result<(), AllocError>
    ensures put { OnOk result (line.new.items ≡ line.old.items ++ signed_decimal number) }
    ensures refused { OnErr result (line.new.items ≡ line.old.items) }
{
    let mut digits = Buffer::new();
    line.extend_from_slice(digits.format(number).as_bytes())
}

/// Puts the text of an item last: the digits of an integer, `true` or `false`, or the spelling of a word.
pub fn put_item(line: &mut Vec<u8>, names: &Names, item: Item) -> Result<(), AllocError>
    ensures put { OnOk result (line.new.items ≡ line.old.items ++ item_text names.now item) }
    ensures refused { OnErr result (line.new.items ≡ line.old.items) }
{
    match shown(names, item) {
        Said::Int(number) => put_integer(line, number),
        Said::Bool(true) => line.extend_from_slice(b"true"),
        Said::Bool(false) => line.extend_from_slice(b"false"),
        Said::Word(spelling) => line.extend_from_slice(spelling),
    }
}

fn has_stop(text: &[u8]) -> bool
    ensures { result ≡ list_any is_stop text.now }
{
    text.iter().any(|byte| is_stop(*byte))
}

/// Whether a text is a keyword: a colon, and at least one byte more, none of which stops it.
fn is_keyword(text: &[u8]) -> bool
    ensures { result ≡ said.is_keyword text.now }
{
    match text {
        [b':', others @ ..] => !others.is_empty() && !has_stop(others),
        _ => false,
    }
}

/// Whether a text is a string: `"`, or `#` and `"`, up to its closing quote.
fn is_string(text: &[u8]) -> bool
    ensures { result ≡ said.is_string text.now }
{
    match text {
        [b'"', ..] => text_end(text, 1) == Some(text.len()),
        [b'#', b'"', ..] => text_end(text, 2) == Some(text.len()),
        _ => false,
    }
}

/// Whether no end of a line stands in a text.
fn is_one_line(text: &[u8]) -> bool
    ensures { result ≡ not (list_any (λ c. c == 10) text.now) }
{
    !text.contains(&b'\n')
}

/// What a text says of an item: `true`, `false`, an integer, or a word, which is a keyword or a string with no end of a line in it.
pub fn item_in(text: &[u8]) -> Option<Said<'_>>
    ensures { option_map seen result ≡ item_written text.entry.now }
{
    if text == b"true".as_slice() {
        return Some(Said::Bool(true));
    }
    if text == b"false".as_slice() {
        return Some(Said::Bool(false));
    }
    if (is_keyword(text) || is_string(text)) && is_one_line(text) {
        return Some(Said::Word(text));
    }
    match integer(text) {
        Some(number) => Some(Said::Int(number)),
        None => None,
    }
}

/// Reading the text of an item gives that item back. The function does nothing.
pub fn written_items_are_read()
    ensures { WrittenItemsAreRead }
{}
