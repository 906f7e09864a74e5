//! What is said of an operation in a picture.
ghost use Rattle.std.specs.Prelude.{◌≡◌, ◌++◌, IfOk, OnOk, option_map};
ghost use Rattle.lin_draw.specs.Labels.{IsBegunBy, IsTitle, label_text, place_text, reply_label, short_reply, whole_text};

use crate::operations::{Operation, Outcome};
use crate::own::Own;
use lin_events::Reply;
use lin_names::Names;
use lin_tables::{
    Wording, put_event_spot, put_worded_call, put_worded_operation, put_worded_reply,
};
use lin_texts::{Place, put_number};
use std::alloc::{AllocError, Global};

/// So many members of a reply are told in a label; of more, how many they are.
const MEMBERS: usize = 4;

/// Puts a reply last, or how many members it has.
fn put_short_reply(label: &mut Vec<u8>, names: &Names, reply: &Reply) -> Result<(), AllocError>
    ensures { OnOk result (label.new.items ≡ label.old.items ++ short_reply names.now reply.now) }
{
    let Reply::Members(members) = reply else {
        return put_worded_reply(label, Wording::Whole, names, reply);
    };
    if members.as_slice().len() <= MEMBERS {
        return put_worded_reply(label, Wording::Whole, names, reply);
    }
    put_number(label, members.as_slice().len() as u64)?;
    label.extend_from_slice(b" members")
}

/// Puts an arrow and a reply last, unless there is none that says more than that the call was done.
fn put_reply_label(
    label: &mut Vec<u8>,
    names: &Names,
    reply: Option<&Reply>,
) -> Result<(), AllocError>
    ensures { OnOk result (label.new.items ≡ label.old.items ++ reply_label names.now (option_map (λ r. r.now) reply.entry)) }
{
    match reply {
        None => Ok(()),
        Some(Reply::Done) => Ok(()),
        Some(reply) => {
            label.extend_from_slice(b" \xe2\x86\x92 ")?;
            put_short_reply(label, names, reply)
        }
    }
}

/// What stands above the bar of an operation. It is cut behind so many letters: so no value is cut within.
pub(crate) fn label_of(
    alloc: Global,
    names: &Names,
    operation: &Operation,
) -> Result<Vec<u8>, AllocError>
    ensures { IfOk result (λ label. label.items ≡ label_text names.now operation.now.call (option_map (λ r. r.now) operation.now.reply)) }
{
    let mut label = Vec::new(alloc);
    put_worded_call(&mut label, Wording::Whole, names, operation.call)?;
    put_reply_label(&mut label, names, operation.reply)?;
    Ok(label)
}

/// Puts the words of an operation last, with this reply if there is one: no value is cut.
pub(crate) fn put_whole(
    text: &mut Vec<u8>,
    names: &Names,
    operation: &Operation,
    reply: Option<&Reply>,
) -> Result<(), AllocError>
    ensures { OnOk result (text.new.items ≡ text.old.items ++ whole_text names.now operation.now.process operation.now.call (option_map (λ r. r.now) reply.entry)) }
{
    put_worded_operation(
        text,
        Wording::Whole,
        names,
        operation.process,
        operation.call,
        reply,
    )
}

/// The words in front of the end of an operation.
fn end_words(outcome: Outcome) -> &'static str {
    match outcome {
        Outcome::Returned => ", ok at ",
        Outcome::Failed => ", fail at ",
        Outcome::Crashed => ", info at ",
        Outcome::Running => ", open",
    }
}

/// Puts last where an operation was called, and how and where it ended.
fn put_standing(
    title: &mut Vec<u8>,
    own: &Own,
    places: Option<&[Place]>,
    operation: &Operation,
) -> Result<(), AllocError>
    ensures { OnOk result (IsBegunBy title.old.items title.new.items) }
{
    title.extend_from_slice(b", called at ")?;
    put_event_spot(title, places, own.position(operation.at))?;
    title.extend_from_slice(end_words(operation.outcome).as_bytes())?;
    match operation.end {
        Some(end) => put_event_spot(title, places, own.position(end)),
        None => Ok(()),
    }
}

/// What is told of an operation to whoever points at its bar. Its values are whole.
pub(crate) fn title_of(
    alloc: Global,
    names: &Names,
    own: &Own,
    places: Option<&[Place]>,
    operation: &Operation,
) -> Result<Vec<u8>, AllocError>
    ensures { IfOk result (IsTitle names.now operation.now.process operation.now.call (option_map (λ r. r.now) operation.now.reply)) }
{
    let mut title = Vec::new(alloc);
    put_whole(&mut title, names, operation, operation.reply)?;
    put_standing(&mut title, own, places, operation)?;
    Ok(title)
}

/// What is told of an operation and its place in an order to whoever points at its dot. Its values are whole.
pub(crate) fn place_title(
    alloc: Global,
    names: &Names,
    number: usize,
    operation: &Operation,
    reply: &Reply,
) -> Result<Vec<u8>, AllocError>
    ensures { IfOk result (λ title. title.items ≡ place_text names.now number operation.now.process operation.now.call reply.now) }
{
    let mut title = Vec::new(alloc);
    put_number(&mut title, number as u64)?;
    title.extend_from_slice(b": ")?;
    put_whole(&mut title, names, operation, Some(reply))?;
    Ok(title)
}
