//! The words of values, and of where an object stands.
ghost use Rattle.std.specs.Prelude.{◌≡◌, ◌++◌, codes, map, OnOk};
ghost use Rattle.std.specs.List.{join_by};
ghost use Rattle.lin_names.specs.Spelled.{spelled};
ghost use Rattle.lin_tables.specs.ValueLaws.{ShortTextsTellTexts, ShortTextsTellValues};
ghost use Rattle.lin_tables.specs.Values.{between, item_worded, items_text, items_worded, queue_worded, reply_text, reply_worded, short_item_text, spelled_worded, state_text, value_text, value_worded};

use crate::spellings::{Wording, put_word};
use lin_events::{Item, Reply, Val};
use lin_names::{Names, Said, in_print, is_in_print, names_grow, shown};
use lin_objects::State;
use lin_texts::{put_item, put_number, written_items_are_read};
use std::alloc::AllocError;

/// So many items of a set or a queue are told, and how many there are.
const TOLD: usize = 8;

/// Puts an item last.
pub(crate) fn put_worded_item(
    line: &mut Vec<u8>,
    wording: Wording,
    names: &Names,
    item: Item,
) -> Result<(), AllocError>
    ensures { OnOk result (line.new.items ≡ line.old.items ++ item_worded wording names.now item) }
{
    match shown(names, item) {
        Said::Word(word) => put_word(line, wording, names, word),
        Said::Int(_) => put_item(line, names, item),
        Said::Bool(_) => put_item(line, names, item),
    }
}

/// Puts an item last as lines tell values.
pub fn put_short_item(line: &mut Vec<u8>, names: &Names, item: Item) -> Result<(), AllocError>
    ensures { OnOk result (line.new.items ≡ line.old.items ++ short_item_text names.now item) }
{
    put_worded_item(line, Wording::Short, names, item)
}

/// Puts the words of a value last.
pub(crate) fn put_worded_value(
    line: &mut Vec<u8>,
    wording: Wording,
    names: &Names,
    value: Val,
) -> Result<(), AllocError>
    ensures { OnOk result (line.new.items ≡ line.old.items ++ value_worded wording names.now value) }
{
    match value {
        Val::Nil => line.extend_from_slice(b"nil"),
        Val::Item(item) => put_worded_item(line, wording, names, item),
    }
}

/// Puts the words of a value last as lines tell them.
pub fn put_value(line: &mut Vec<u8>, names: &Names, value: Val) -> Result<(), AllocError>
    ensures { OnOk result (line.new.items ≡ line.old.items ++ value_text names.now value) }
{
    put_worded_value(line, Wording::Short, names, value)
}

/// Puts items last as they stand, with commas between them.
fn put_each(
    line: &mut Vec<u8>,
    wording: Wording,
    names: &Names,
    items: &[Item],
) -> Result<(), AllocError>
    ensures { OnOk result (line.new.items ≡ line.old.items ++ join_by (spelled_worded wording names.now) (codes ",") (map (spelled names.now) items.now)) }
{
    let Some((first, others)) = items.split_first() else {
        return Ok(());
    };
    put_worded_item(line, wording, names, *first)?;
    for item in others {
        line.push(b',')?;
        put_worded_item(line, wording, names, *item)?;
    }
    Ok(())
}

/// Puts items last as they stand; of more than eight the first eight, and how many there are.
fn put_told(
    line: &mut Vec<u8>,
    wording: Wording,
    names: &Names,
    items: &[Item],
) -> Result<(), AllocError>
    ensures { OnOk result (line.new.items ≡ line.old.items ++ queue_worded wording names.now items.now) }
{
    if items.len() <= TOLD {
        return put_each(line, wording, names, items);
    }
    put_each(line, wording, names, &items[..TOLD])?;
    line.extend_from_slice(b",... ")?;
    put_number(line, items.len() as u64)?;
    line.extend_from_slice(b" in all")
}

/// Puts the items of a set or a bag last, in the order in which items are printed; of more than eight the first eight, and how many
/// there are. Those that stand so already aren't copied.
pub(crate) fn put_worded_items(
    line: &mut Vec<u8>,
    wording: Wording,
    names: &Names,
    items: &[Item],
) -> Result<(), AllocError>
    ensures { OnOk result (line.new.items ≡ line.old.items ++ items_worded wording names.now items.now) }
{
    if is_in_print(names, items) {
        return put_told(line, wording, names, items);
    }
    let Ok(sorted) = in_print(names, items) else {
        return Err(AllocError);
    };
    put_told(line, wording, names, sorted.as_slice())
}

/// Puts the items of a set or a bag last in braces.
fn put_members(
    line: &mut Vec<u8>,
    wording: Wording,
    names: &Names,
    members: &[Item],
) -> Result<(), AllocError>
    ensures { OnOk result (line.new.items ≡ line.old.items ++ between 123 (items_worded wording names.now members.now) 125) }
{
    line.push(b'{')?;
    put_worded_items(line, wording, names, members)?;
    line.push(b'}')?;
    Ok(())
}

/// Puts the words of a reply last: none where it says only that the call was done.
pub fn put_worded_reply(
    line: &mut Vec<u8>,
    wording: Wording,
    names: &Names,
    reply: &Reply,
) -> Result<(), AllocError>
    ensures { OnOk result (line.new.items ≡ line.old.items ++ reply_worded wording names.now reply.now) }
{
    match reply {
        Reply::Done => Ok(()),
        Reply::Value(value) => put_worded_value(line, wording, names, *value),
        Reply::Members(members) => put_members(line, wording, names, members.as_slice()),
    }
}

/// Puts the items of a set or a bag last as lines tell them.
pub fn put_items(line: &mut Vec<u8>, names: &Names, items: &[Item]) -> Result<(), AllocError>
    ensures { OnOk result (line.new.items ≡ line.old.items ++ items_text names.now items.now) }
{
    put_worded_items(line, Wording::Short, names, items)
}

/// Puts the words of a state last.
pub fn put_state(line: &mut Vec<u8>, names: &Names, state: &State) -> Result<(), AllocError>
    ensures { OnOk result (line.new.items ≡ line.old.items ++ state_text names.now state.now) }
{
    match state {
        State::Value(value) => put_value(line, names, *value),
        State::Queue(queue) => {
            line.push(b'[')?;
            put_told(line, Wording::Short, names, queue.as_slice())?;
            line.push(b']')?;
            Ok(())
        }
        State::Members(members) => put_members(line, Wording::Short, names, members.as_slice()),
        State::Bag(bag) => put_members(line, Wording::Short, names, bag.as_slice()),
        State::Held(true) => line.extend_from_slice(b"held"),
        State::Held(false) => line.extend_from_slice(b"free"),
    }
}

/// Puts the words of a reply last as lines tell them: none where it says only that the call was done.
pub fn put_reply(line: &mut Vec<u8>, names: &Names, reply: &Reply) -> Result<(), AllocError>
    ensures { OnOk result (line.new.items ≡ line.old.items ++ reply_text names.now reply.now) }
{
    put_worded_reply(line, Wording::Short, names, reply)
}

/// Values that differ are told by different texts, also where both are told short. The function does nothing.
pub fn values_told_apart()
    ensures texts { ShortTextsTellTexts }
    ensures values { ShortTextsTellValues }
{
    written_items_are_read();
    names_grow();
}
