//! The lines that tell a queue's certificates.
ghost use Rattle.std.specs.Prelude.{◌≡◌, ◌++◌, OnOk, slice_get};
ghost use Rattle.lin_order.specs.Tables.{IsNextTable};
ghost use Rattle.lin_certificate_lines.specs.Lines.{inside_text, not_taken_out_text, passed_text, passed_why, taken_out_text, taken_text, turn_text};
ghost use Rattle.lin_certificate_lines.specs.Reasons.{ArePut, IsCertified, IsPassedTold, IsReasonOfQueue, IsTakenTold};

use crate::groups::{CallGroup, Group, ReplyGroup};
use crate::listing::all_of;
use crate::naming::{name_pair, name_some};
use crate::registers::put_register_reason;
use crate::series::{put_behind_failed, put_how_often};
use crate::sides::{Sides, name_sides, put_sides, sides_of};
use crate::told::{ObjectEvents, put_in_turn, put_returned};
use lin_certificates::Certificate;
use lin_events::Item;
use lin_tables::put_short_item;
use std::alloc::{AllocError, Global};

/// Puts a line last that begins so and says that the one operation returned and the other was called.
pub(crate) fn put_turn(
    text: &mut Vec<u8>,
    told: &ObjectEvents,
    head: &[u8],
    first: usize,
    second: usize,
) -> Result<(), AllocError>
    ensures { OnOk result (text.new.items ≡ text.old.items ++ turn_text told.now head.now first second) }
{
    text.extend_from_slice(head)?;
    put_in_turn(text, told, first, second)?;
    text.push(b'\n')?;
    Ok(())
}

/// Puts the lines last of an item that was taken out oftener than it can have been put in.
fn put_taken_lines(
    text: &mut Vec<u8>,
    told: &ObjectEvents,
    item: Item,
    sides: &Sides,
) -> Result<(), AllocError>
    ensures { OnOk result (text.new.items ≡ text.old.items ++ taken_text told.now item sides.now.done.items sides.now.may.items sides.now.failed.items) }
{
    text.extend_from_slice(b"why: ")?;
    put_short_item(text, told.names, item)?;
    text.extend_from_slice(b" was taken out ")?;
    put_how_often(text, sides.done.as_slice())?;
    text.extend_from_slice(b" and put in at most ")?;
    put_how_often(text, sides.may.as_slice())?;
    text.push(b'\n')?;
    put_sides(text, told, sides)?;
    put_behind_failed(text, b"", sides.failed.as_slice())?;
    Ok(())
}

/// Puts the lines last of an item that was taken out too often, and the operations that they name.
fn put_taken(
    text: &mut Vec<u8>,
    named: &mut Vec<usize>,
    told: &ObjectEvents,
    item: Item,
    alloc: Global,
) -> Result<(), AllocError>
    requires { IsNextTable told.now.events.now told.now.ends.now }
    ensures { OnOk result (ArePut (IsTakenTold told.now item) text.old.items text.new.items named.old.items named.new.items) }
{
    let sides = sides_of(told, ReplyGroup::Takes(item), CallGroup::Adds(item), alloc)?;
    put_taken_lines(text, told, item, &sides)?;
    name_sides(named, &sides)?;
    Ok(())
}

/// Puts a line last that says that the item wasn't taken out before the dequeue.
fn put_not_taken_out(
    text: &mut Vec<u8>,
    told: &ObjectEvents,
    dequeue: usize,
    item: Item,
) -> Result<(), AllocError>
    ensures { OnOk result (text.new.items ≡ text.old.items ++ not_taken_out_text told.now dequeue item) }
{
    text.extend_from_slice(b"  taken out: ")?;
    put_returned(text, told, dequeue)?;
    text.extend_from_slice(b", and nothing that may have taken ")?;
    put_short_item(text, told.names, item)?;
    text.extend_from_slice(b" out was called before\n")?;
    Ok(())
}

/// Puts a line last that says that the item was taken out only behind the dequeue, first by this one, or not at all.
fn put_taken_out(
    text: &mut Vec<u8>,
    told: &ObjectEvents,
    dequeue: usize,
    item: Item,
    taker: Option<usize>,
) -> Result<(), AllocError>
    ensures { OnOk result (text.new.items ≡ text.old.items ++ taken_out_text told.now dequeue item taker) }
{
    match taker {
        Some(taker) => put_turn(text, told, b"  taken out: ", dequeue, taker),
        None => put_not_taken_out(text, told, dequeue, item),
    }
}

/// Puts a line last that says which item passed which.
fn put_passed_why(
    text: &mut Vec<u8>,
    told: &ObjectEvents,
    item: Item,
    other: Item,
) -> Result<(), AllocError>
    ensures { OnOk result (text.new.items ≡ text.old.items ++ passed_why told.now item other) }
{
    text.extend_from_slice(b"why: ")?;
    put_short_item(text, told.names, other)?;
    text.extend_from_slice(b" passed ")?;
    put_short_item(text, told.names, item)?;
    text.push(b'\n')?;
    Ok(())
}

/// Puts the lines last of an item that the other one passed, and that was taken out first by this dequeue, or not at all.
fn put_passed_lines(
    text: &mut Vec<u8>,
    told: &ObjectEvents,
    puts: (usize, usize),
    dequeue: usize,
    item: Item,
    other: Item,
    taker: Option<usize>,
) -> Result<(), AllocError>
    ensures { OnOk result (text.new.items ≡ text.old.items ++ passed_text told.now puts dequeue item other taker) }
{
    put_passed_why(text, told, item, other)?;
    put_turn(text, told, b"  put in: ", puts.0, puts.1)?;
    put_taken_out(text, told, dequeue, item, taker)?;
    Ok(())
}

/// The first of these operations.
fn first_of(list: &[usize]) -> Option<usize>
    ensures { result ≡ slice_get list.now 0 }
{
    match list.first() {
        Some(first) => Some(*first),
        None => None,
    }
}

/// Puts the lines last of an item that the other one passed, and the operations that they name. These are two enqueues and a dequeue.
fn put_passed(
    text: &mut Vec<u8>,
    named: &mut Vec<usize>,
    told: &ObjectEvents,
    operations: (usize, usize, usize),
    item: Item,
    other: Item,
    alloc: Global,
) -> Result<(), AllocError>
    requires { IsNextTable told.now.events.now told.now.ends.now }
    ensures { OnOk result (ArePut (IsPassedTold told.now operations.0 operations.1 operations.2 item other) text.old.items text.new.items named.old.items named.new.items) }
{
    let (enqueue, later, dequeue) = operations;
    let group = Group::Returned(ReplyGroup::Takes(item));
    let takes = all_of(told, &group, alloc)?;
    let taker = first_of(takes.as_slice());
    put_passed_lines(text, told, (enqueue, later), dequeue, item, other, taker)?;
    name_pair(named, (enqueue, later))?;
    named.push(dequeue)?;
    name_some(named, taker)?;
    Ok(())
}

/// Puts the lines last of an item that was in the queue when the dequeue found nothing.
fn put_inside(
    text: &mut Vec<u8>,
    told: &ObjectEvents,
    enqueue: usize,
    dequeue: usize,
    item: Item,
) -> Result<(), AllocError>
    ensures { OnOk result (text.new.items ≡ text.old.items ++ inside_text told.now enqueue dequeue item) }
{
    text.extend_from_slice(b"why: ")?;
    put_short_item(text, told.names, item)?;
    text.extend_from_slice(b" was in the queue\n")?;
    put_turn(text, told, b"  put in: ", enqueue, dequeue)?;
    text.extend_from_slice(b"  taken out: nothing that may have taken ")?;
    put_short_item(text, told.names, item)?;
    text.extend_from_slice(b" out was called before ")?;
    put_returned(text, told, dequeue)?;
    text.push(b'\n')?;
    Ok(())
}

/// Puts the lines last of the certificate, if it is one of a queue or a register.
pub(crate) fn put_queue_reason(
    text: &mut Vec<u8>,
    named: &mut Vec<usize>,
    told: &ObjectEvents,
    certificate: &Certificate,
    alloc: Global,
) -> Result<(), AllocError>
    requires table { IsNextTable told.now.events.now told.now.ends.now }
    requires holds { IsCertified told.now.events.now certificate.now }
    ensures { OnOk result (ArePut (IsReasonOfQueue told.now certificate.now) text.old.items text.new.items named.old.items named.new.items) }
{
    match certificate {
        Certificate::Taken { item } => put_taken(text, named, told, *item, alloc),
        Certificate::Passed {
            enqueue,
            later,
            dequeue,
            item,
            other,
        } => {
            let operations = (*enqueue, *later, *dequeue);
            put_passed(text, named, told, operations, *item, *other, alloc)
        }
        Certificate::Inside {
            enqueue,
            dequeue,
            item,
        } => {
            put_inside(text, told, *enqueue, *dequeue, *item)?;
            name_pair(named, (*enqueue, *dequeue))?;
            Ok(())
        }
        _ => put_register_reason(text, named, told, certificate, alloc),
    }
}
