//! The words of events with nothing left out: so machines are told them.
ghost use Rattle.std.specs.Prelude.{◌≡◌, ◌++◌, codes, OnOk};
ghost use Rattle.lin_tables.specs.Operations.{name_text, process_text};
ghost use Rattle.lin_explain.specs.Events.{whole_behind, whole_body, whole_event};

use lin_events::{Body, Event, Name, Reply};
use lin_names::Names;
use lin_possibilities::put_whole_reply;
use lin_tables::{Wording, name_word, put_worded_call};
use lin_texts::put_number;
use std::alloc::AllocError;

/// Puts the letter p and the number of a process last.
fn put_process(words: &mut Vec<u8>, process: u64) -> Result<(), AllocError>
    ensures { OnOk result (words.new.items ≡ words.old.items ++ process_text process) }
{
    words.push(b'p')?;
    put_number(words, process)
}

/// Puts the word of a type and that of a function last.
fn put_type(words: &mut Vec<u8>, word: &'static str, name: Name) -> Result<(), AllocError>
    ensures { OnOk result (words.new.items ≡ words.old.items ++ (codes " " ++ word.now ++ codes " " ++ name_text name)) }
{
    words.push(b' ')?;
    words.extend_from_slice(word.as_bytes())?;
    words.push(b' ')?;
    words.extend_from_slice(name_word(name).as_bytes())
}

/// Puts a space and the reply last, unless it says only that the call was done.
fn put_reply_behind(words: &mut Vec<u8>, names: &Names, reply: &Reply) -> Result<(), AllocError>
    ensures { OnOk result (words.new.items ≡ words.old.items ++ whole_behind names.now reply.now) }
{
    if let Reply::Done = reply {
        return Ok(());
    }
    words.push(b' ')?;
    put_whole_reply(words, names, reply)
}

/// Puts last what an event says behind its process.
fn put_body(words: &mut Vec<u8>, names: &Names, body: &Body) -> Result<(), AllocError>
    ensures { OnOk result (words.new.items ≡ words.old.items ++ whole_body names.now body.now) }
{
    match body {
        Body::Invoke(call) => {
            words.extend_from_slice(b" invoke ")?;
            put_worded_call(words, Wording::Whole, names, *call)
        }
        Body::Ok(name, reply) => {
            put_type(words, "ok", *name)?;
            put_reply_behind(words, names, reply)
        }
        Body::Fail(name) => put_type(words, "fail", *name),
        Body::Info(name) => put_type(words, "info", *name),
    }
}

/// Puts the words of an event last: its process, its type, and its call, or its function and its reply.
pub(crate) fn put_whole_event(
    words: &mut Vec<u8>,
    names: &Names,
    event: &Event,
) -> Result<(), AllocError>
    ensures { OnOk result (words.new.items ≡ words.old.items ++ whole_event names.now event.now) }
{
    put_process(words, event.process)?;
    put_body(words, names, &event.body)
}
