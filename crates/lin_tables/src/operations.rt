//! The words of operations and events.
ghost use Rattle.std.specs.Prelude.{◌≡◌, ◌++◌, codes, decimal, OnOk, option_map};
ghost use Rattle.lin_tables.specs.Operations.{arguments_worded, call_text, call_worded, event_text, name_text, operation_text, operation_worded, process_text, reply_behind};
ghost use Rattle.lin_tables.specs.Values.{item_worded, value_worded};

use crate::spellings::Wording;
use crate::values::{put_worded_item, put_worded_reply, put_worded_value};
use lin_events::{Body, Call, Event, Item, Name, Reply, Val};
use lin_names::Names;
use lin_texts::put_number;
use std::alloc::AllocError;

/// The word of a function.
pub fn name_word(name: Name) -> &'static str
    ensures { result.now ≡ name_text name }
{
    match name {
        Name::Read => "read",
        Name::Write => "write",
        Name::Cas => "cas",
        Name::Enqueue => "enqueue",
        Name::Dequeue => "dequeue",
        Name::Add => "add",
        Name::Acquire => "acquire",
        Name::Release => "release",
    }
}

/// Puts a space and a value last.
fn put_value_behind(
    line: &mut Vec<u8>,
    wording: Wording,
    names: &Names,
    value: Val,
) -> Result<(), AllocError>
    ensures { OnOk result (line.new.items ≡ line.old.items ++ (codes " " ++ value_worded wording names.now value)) }
{
    line.push(b' ')?;
    put_worded_value(line, wording, names, value)
}

/// Puts a space and an item last, as values are told.
fn put_item_behind(
    line: &mut Vec<u8>,
    wording: Wording,
    names: &Names,
    item: Item,
) -> Result<(), AllocError>
    ensures { OnOk result (line.new.items ≡ line.old.items ++ (codes " " ++ item_worded wording names.now item)) }
{
    line.push(b' ')?;
    put_worded_item(line, wording, names, item)
}

/// Puts what a call is given last, each behind a space.
fn put_arguments(
    line: &mut Vec<u8>,
    wording: Wording,
    names: &Names,
    call: Call,
) -> Result<(), AllocError>
    ensures { OnOk result (line.new.items ≡ line.old.items ++ arguments_worded wording names.now call) }
{
    match call {
        Call::Write(value) => put_value_behind(line, wording, names, value),
        Call::Cas(old, new) => {
            put_value_behind(line, wording, names, old)?;
            put_value_behind(line, wording, names, new)
        }
        Call::Enqueue(item) => put_item_behind(line, wording, names, item),
        Call::Add(item) => put_item_behind(line, wording, names, item),
        Call::Read | Call::Dequeue | Call::Acquire | Call::Release => Ok(()),
    }
}

/// Puts the words of a call last: its function, and what it is given.
pub fn put_worded_call(
    line: &mut Vec<u8>,
    wording: Wording,
    names: &Names,
    call: Call,
) -> Result<(), AllocError>
    ensures { OnOk result (line.new.items ≡ line.old.items ++ call_worded wording names.now call) }
{
    line.extend_from_slice(name_word(call.name()).as_bytes())?;
    put_arguments(line, wording, names, call)
}

/// Puts a space and the reply last, unless it says only that the call was done.
fn put_reply_behind(
    line: &mut Vec<u8>,
    wording: Wording,
    names: &Names,
    reply: &Reply,
) -> Result<(), AllocError>
    ensures { OnOk result (line.new.items ≡ line.old.items ++ reply_behind wording names.now reply.now) }
{
    if let Reply::Done = reply {
        return Ok(());
    }
    line.push(b' ')?;
    put_worded_reply(line, wording, names, reply)
}

/// Puts the letter p and the number of a process last.
fn put_process(line: &mut Vec<u8>, process: u64) -> Result<(), AllocError>
    ensures { OnOk result (line.new.items ≡ line.old.items ++ process_text process) }
{
    line.push(b'p')?;
    put_number(line, process)
}

/// Puts the words of an operation last: its process, its call, and its reply where it has one that says more than that it was done.
pub fn put_worded_operation(
    line: &mut Vec<u8>,
    wording: Wording,
    names: &Names,
    process: u64,
    call: Call,
    reply: Option<&Reply>,
) -> Result<(), AllocError>
    ensures { OnOk result (line.new.items ≡ line.old.items ++ operation_worded wording names.now process call (option_map (λ r. r.now) reply.entry)) }
{
    put_process(line, process)?;
    line.push(b' ')?;
    put_worded_call(line, wording, names, call)?;
    match reply {
        Some(reply) => put_reply_behind(line, wording, names, reply),
        None => Ok(()),
    }
}

/// Puts the words of a call last as lines tell them.
fn put_call(line: &mut Vec<u8>, names: &Names, call: Call) -> Result<(), AllocError>
    ensures { OnOk result (line.new.items ≡ line.old.items ++ call_text names.now call) }
{
    put_worded_call(line, Wording::Short, names, call)
}

/// Puts the words of an operation last as lines tell them.
pub fn put_operation(
    line: &mut Vec<u8>,
    names: &Names,
    process: u64,
    call: Call,
    reply: Option<&Reply>,
) -> Result<(), AllocError>
    ensures { OnOk result (line.new.items ≡ line.old.items ++ operation_text names.now process call (option_map (λ r. r.now) reply.entry)) }
{
    put_worded_operation(line, Wording::Short, names, process, call, reply)
}

/// Puts the word of a type and that of a function last.
fn put_type(line: &mut Vec<u8>, word: &'static str, name: Name) -> Result<(), AllocError>
    ensures { OnOk result (line.new.items ≡ line.old.items ++ (codes " " ++ word.now ++ codes " " ++ name_text name)) }
{
    line.push(b' ')?;
    line.extend_from_slice(word.as_bytes())?;
    line.push(b' ')?;
    line.extend_from_slice(name_word(name).as_bytes())
}

/// Puts the words of an event last: its process, its type, and its call, or its function and its reply.
pub fn put_event(line: &mut Vec<u8>, names: &Names, event: &Event) -> Result<(), AllocError>
    ensures { OnOk result (line.new.items ≡ line.old.items ++ event_text names.now event.now) }
{
    put_process(line, event.process)?;
    match &event.body {
        Body::Invoke(call) => {
            line.extend_from_slice(b" invoke ")?;
            put_call(line, names, *call)
        }
        Body::Ok(name, reply) => {
            put_type(line, "ok", *name)?;
            put_reply_behind(line, Wording::Short, names, reply)
        }
        Body::Fail(name) => put_type(line, "fail", *name),
        Body::Info(name) => put_type(line, "info", *name),
    }
}
