//! Values as they are, with nothing left out: so machines are told them.
ghost use Rattle.std.specs.Prelude.{◌≡◌, ◌++◌, codes, map, OnOk};
ghost use Rattle.std.specs.List.{join_by};
ghost use Rattle.lin_names.specs.Spelled.{spelled};
ghost use Rattle.lin_texts.specs.Items.{spelled_text};
ghost use Rattle.lin_possibilities.specs.Whole.{whole_items, whole_members, whole_queue, whole_reply, whole_state, whole_value};

use lin_events::{Item, Reply, Val};
use lin_names::{Names, in_print, is_in_print};
use lin_objects::State;
use lin_texts::put_item;
use std::alloc::AllocError;

/// Puts a value last.
pub(crate) fn put_whole_value(
    words: &mut Vec<u8>,
    names: &Names,
    value: Val,
) -> Result<(), AllocError>
    ensures { OnOk result (words.new.items ≡ words.old.items ++ whole_value names.now value) }
{
    match value {
        Val::Nil => words.extend_from_slice(b"nil"),
        Val::Item(item) => put_item(words, names, item),
    }
}

/// Puts items last as they stand, with commas between them.
fn put_each(words: &mut Vec<u8>, names: &Names, items: &[Item]) -> Result<(), AllocError>
    ensures { OnOk result (words.new.items ≡ words.old.items ++ join_by spelled_text (codes ",") (map (spelled names.now) items.now)) }
{
    let Some((first, others)) = items.split_first() else {
        return Ok(());
    };
    put_item(words, names, *first)?;
    for item in others {
        words.push(b',')?;
        put_item(words, names, *item)?;
    }
    Ok(())
}

/// Puts the items of a set or a bag last, in the order in which items are printed. Those that stand so already aren't copied.
pub(crate) fn put_whole_items(
    words: &mut Vec<u8>,
    names: &Names,
    items: &[Item],
) -> Result<(), AllocError>
    ensures { OnOk result (words.new.items ≡ words.old.items ++ whole_items names.now items.now) }
{
    if is_in_print(names, items) {
        return put_each(words, names, items);
    }
    let Ok(sorted) = in_print(names, items) else {
        return Err(AllocError);
    };
    put_each(words, names, sorted.as_slice())
}

/// Puts the items of a set or a bag last in braces.
fn put_whole_members(words: &mut Vec<u8>, names: &Names, members: &[Item]) -> Result<(), AllocError>
    ensures { OnOk result (words.new.items ≡ words.old.items ++ whole_members names.now members.now) }
{
    words.push(b'{')?;
    put_whole_items(words, names, members)?;
    words.push(b'}')?;
    Ok(())
}

/// Puts the items of a queue last in brackets, the oldest first.
fn put_whole_queue(words: &mut Vec<u8>, names: &Names, queue: &[Item]) -> Result<(), AllocError>
    ensures { OnOk result (words.new.items ≡ words.old.items ++ whole_queue names.now queue.now) }
{
    words.push(b'[')?;
    put_each(words, names, queue)?;
    words.push(b']')?;
    Ok(())
}

/// Puts a state last.
pub(crate) fn put_whole_state(
    words: &mut Vec<u8>,
    names: &Names,
    state: &State,
) -> Result<(), AllocError>
    ensures { OnOk result (words.new.items ≡ words.old.items ++ whole_state names.now state.now) }
{
    match state {
        State::Value(value) => put_whole_value(words, names, *value),
        State::Queue(queue) => put_whole_queue(words, names, queue.as_slice()),
        State::Members(members) => put_whole_members(words, names, members.as_slice()),
        State::Bag(bag) => put_whole_members(words, names, bag.as_slice()),
        State::Held(true) => words.extend_from_slice(b"held"),
        State::Held(false) => words.extend_from_slice(b"free"),
    }
}

/// Puts a reply last: nothing where it says only that the call was done.
pub fn put_whole_reply(words: &mut Vec<u8>, names: &Names, reply: &Reply) -> Result<(), AllocError>
    ensures { OnOk result (words.new.items ≡ words.old.items ++ whole_reply names.now reply.now) }
{
    match reply {
        Reply::Done => Ok(()),
        Reply::Value(value) => put_whole_value(words, names, *value),
        Reply::Members(members) => put_whole_members(words, names, members.as_slice()),
    }
}
