//! The operations of one object in words, and where in the whole history they were called, returned or failed.
ghost use Rattle.std.specs.Prelude.{◌≡◌, ◌++◌, option_map, slice_get, OnOk};
ghost use Rattle.lin_certificate_lines.specs.Telling.{call_in, called_text, did_text, end_at, end_spot, failed_text, had_text, in_turn_text, is_acquire as calls_acquire, is_read as calls_read, item_behind, op_text, position_of as position, reply_behind_end, returned_text, spot_at, without_members as plain};

use lin_events::{Body, Call, Event, Item, Reply};
use lin_names::Names;
use lin_tables::{put_operation, put_short_item, put_spot};
use lin_texts::Place;
use std::alloc::AllocError;

/// The events of one object, and where they stand in the whole history.
#[derive(Clone, Copy)]
pub struct ObjectEvents<'a> {
    /// The object's own.
    pub events: &'a [Event],
    /// For each of these the next one of its process, as `lin_order::ends_of` gives it.
    pub ends: &'a [Option<usize>],
    /// For each of these its position in the whole history.
    pub picks: &'a [usize],
    /// Where the events of the whole history stand in a recording, if there is one.
    pub places: Option<&'a [Place]>,
    /// The spellings of words.
    pub names: &'a Names,
}

/// What is told of an operation.
#[derive(Clone, Copy, Debug, PartialEq, Eq)]
pub(crate) enum Verb {
    Returned,
    Called,
    Failed,
}

/// Where an event of the object stands in the whole history.
pub(crate) fn position_of(told: &ObjectEvents, at: usize) -> usize
    ensures { result ≡ position told.now at }
{
    match told.picks.get(at) {
        Some(position) => *position,
        None => 0,
    }
}

/// The end of an operation, if there is one.
pub(crate) fn end_of(told: &ObjectEvents, at: usize) -> Option<usize>
    ensures { result ≡ end_at told.now at }
{
    match told.ends.get(at) {
        Some(end) => *end,
        None => None,
    }
}

/// The reply of the event at the end, if it is ok.
fn reply_behind<'a>(events: &'a [Event], end: Option<usize>) -> Option<&'a Reply>
    ensures { option_map (λ r. r.now) result ≡ reply_behind_end events.now end }
{
    let Some(end) = end else {
        return None;
    };
    let Some(event) = events.get(end) else {
        return None;
    };
    match &event.body {
        Body::Ok(_, reply) => Some(reply),
        _ => None,
    }
}

/// The reply, unless it is members.
fn without_members<'a>(reply: Option<&'a Reply>) -> Option<&'a Reply>
    ensures { option_map (λ r. r.now) result ≡ plain (option_map (λ r. r.now) reply.entry) }
{
    match reply {
        Some(reply) => match reply {
            Reply::Done => Some(reply),
            Reply::Value(_) => Some(reply),
            Reply::Members(_) => None,
        },
        None => None,
    }
}

/// The reply of an operation, if it is ok.
pub(crate) fn reply_of<'a>(told: &ObjectEvents<'a>, at: usize) -> Option<&'a Reply>
    ensures { option_map (λ r. r.now) result ≡ reply_behind_end told.now.events.now (end_at told.now at) }
{
    reply_behind(told.events, end_of(told, at))
}

/// Whether an operation reads.
pub(crate) fn is_read(told: &ObjectEvents, at: usize) -> bool
    ensures { result ≡ calls_read (call_in (slice_get told.now.events.now at)) }
{
    let Some(event) = told.events.get(at) else {
        return false;
    };
    match &event.body {
        Body::Invoke(call) => matches!(call, Call::Read),
        _ => false,
    }
}

/// Whether an operation acquires a lock.
pub(crate) fn is_acquire(told: &ObjectEvents, at: usize) -> bool
    ensures { result ≡ calls_acquire (call_in (slice_get told.now.events.now at)) }
{
    let Some(event) = told.events.get(at) else {
        return false;
    };
    match &event.body {
        Body::Invoke(call) => matches!(call, Call::Acquire),
        _ => false,
    }
}

/// Puts last where an event of the object stands.
pub(crate) fn put_spot_at(
    line: &mut Vec<u8>,
    told: &ObjectEvents,
    at: usize,
) -> Result<(), AllocError>
    ensures { OnOk result (line.new.items ≡ line.old.items ++ spot_at told.now at) }
{
    put_spot(line, told.places, position_of(told, at))
}

/// Puts last where an operation ended.
pub(crate) fn put_end_spot(
    line: &mut Vec<u8>,
    told: &ObjectEvents,
    at: usize,
) -> Result<(), AllocError>
    ensures { OnOk result (line.new.items ≡ line.old.items ++ end_spot told.now at) }
{
    match end_of(told, at) {
        Some(end) => put_spot_at(line, told, end),
        None => put_spot_at(line, told, 0),
    }
}

/// Puts the words of an operation last, with its reply where it is ok and has one that says more than that it was done; members are left
/// out.
pub fn put_op(line: &mut Vec<u8>, told: &ObjectEvents, at: usize) -> Result<(), AllocError>
    ensures { OnOk result (line.new.items ≡ line.old.items ++ op_text told.now at) }
{
    let reply = without_members(reply_of(told, at));
    let Some(event) = told.events.get(at) else {
        return Ok(());
    };
    match &event.body {
        Body::Invoke(call) => put_operation(line, told.names, event.process, *call, reply),
        _ => Ok(()),
    }
}

/// Puts last that an operation returned, and where.
pub fn put_returned(line: &mut Vec<u8>, told: &ObjectEvents, at: usize) -> Result<(), AllocError>
    ensures { OnOk result (line.new.items ≡ line.old.items ++ returned_text told.now at) }
{
    put_op(line, told, at)?;
    line.extend_from_slice(b" returned at ")?;
    put_end_spot(line, told, at)?;
    Ok(())
}

/// Puts last that an operation was called, and where.
pub fn put_called(line: &mut Vec<u8>, told: &ObjectEvents, at: usize) -> Result<(), AllocError>
    ensures { OnOk result (line.new.items ≡ line.old.items ++ called_text told.now at) }
{
    put_op(line, told, at)?;
    line.extend_from_slice(b" was called at ")?;
    put_spot_at(line, told, at)?;
    Ok(())
}

/// Puts last that an operation failed, and where.
pub fn put_failed(line: &mut Vec<u8>, told: &ObjectEvents, at: usize) -> Result<(), AllocError>
    ensures { OnOk result (line.new.items ≡ line.old.items ++ failed_text told.now at) }
{
    put_op(line, told, at)?;
    line.extend_from_slice(b" failed at ")?;
    put_end_spot(line, told, at)
}

/// Puts last what is told of an operation.
pub(crate) fn put_did(
    line: &mut Vec<u8>,
    told: &ObjectEvents,
    verb: Verb,
    at: usize,
) -> Result<(), AllocError>
    ensures { OnOk result (line.new.items ≡ line.old.items ++ did_text told.now verb at) }
{
    match verb {
        Verb::Returned => put_returned(line, told, at),
        Verb::Called => put_called(line, told, at),
        Verb::Failed => put_failed(line, told, at),
    }
}

/// Puts last that the one operation returned and the other was called.
pub(crate) fn put_in_turn(
    line: &mut Vec<u8>,
    told: &ObjectEvents,
    first: usize,
    second: usize,
) -> Result<(), AllocError>
    ensures { OnOk result (line.new.items ≡ line.old.items ++ in_turn_text told.now first second) }
{
    put_returned(line, told, first)?;
    line.extend_from_slice(b", ")?;
    put_called(line, told, second)
}

/// Puts last that a read found the item.
fn put_found(
    line: &mut Vec<u8>,
    told: &ObjectEvents,
    reads: bool,
    item: Item,
) -> Result<(), AllocError>
    ensures { OnOk result (line.new.items ≡ line.old.items ++ item_behind told.now reads item) }
{
    if !reads {
        return Ok(());
    }
    line.extend_from_slice(b" with ")?;
    put_short_item(line, told.names, item)
}

/// Puts last that an operation returned, and, if it is a read, that it found the item.
pub(crate) fn put_had(
    line: &mut Vec<u8>,
    told: &ObjectEvents,
    at: usize,
    item: Item,
) -> Result<(), AllocError>
    ensures { OnOk result (line.new.items ≡ line.old.items ++ had_text told.now at item) }
{
    put_op(line, told, at)?;
    let reads = is_read(told, at);
    put_found(line, told, reads, item)?;
    line.extend_from_slice(b" returned at ")?;
    put_end_spot(line, told, at)?;
    Ok(())
}
