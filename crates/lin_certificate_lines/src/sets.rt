//! The lines that tell a set's certificates.
ghost use Rattle.std.specs.Prelude.{◌≡◌, ◌++◌, OnOk};
ghost use Rattle.lin_order.specs.Tables.{IsNextTable};
ghost use Rattle.lin_certificate_lines.specs.Lines.{found_text, in_before_text, late_text, lost_text, split_text, unadded_text};
ghost use Rattle.lin_certificate_lines.specs.Reasons.{ArePut, IsCertified, IsReasonOfSet, IsUnaddedTold};

use crate::groups::{CallGroup, Group};
use crate::listing::all_of;
use crate::naming::name_pair;
use crate::queues::put_queue_reason;
use crate::series::{FIRSTS, firsts_of, put_fact, put_failures};
use crate::told::{ObjectEvents, Verb, put_called, put_had, put_returned};
use lin_certificates::Certificate;
use lin_events::Item;
use lin_tables::put_short_item;
use std::alloc::{AllocError, Global};

/// Puts the lines last that say that nothing adds the item that the read has: these failed.
fn put_unadded_lines(
    text: &mut Vec<u8>,
    told: &ObjectEvents,
    read: usize,
    item: Item,
    failed: &[usize],
) -> Result<(), AllocError>
    ensures { OnOk result (text.new.items ≡ text.old.items ++ unadded_text told.now read item failed.now) }
{
    text.extend_from_slice(b"why: nothing adds ")?;
    put_short_item(text, told.names, item)?;
    text.push(b'\n')?;
    put_fact(text, told, Verb::Returned, read)?;
    put_failures(text, told, b"  no operation adds it\n", failed)?;
    Ok(())
}

/// Puts the lines last of an item that nothing adds, and the operations that they name.
fn put_unadded(
    text: &mut Vec<u8>,
    named: &mut Vec<usize>,
    told: &ObjectEvents,
    read: usize,
    item: Item,
    alloc: Global,
) -> Result<(), AllocError>
    requires { IsNextTable told.now.events.now told.now.ends.now }
    ensures { OnOk result (ArePut (IsUnaddedTold told.now read item) text.old.items text.new.items named.old.items named.new.items) }
{
    let group = Group::Fails(CallGroup::Adds(item));
    let list = all_of(told, &group, alloc)?;
    let failed = list.as_slice();
    put_unadded_lines(text, told, read, item, failed)?;
    named.push(read)?;
    named.extend_from_slice(firsts_of(failed, FIRSTS))?;
    Ok(())
}

/// Puts a line last that says that the set had the item before the later operation was called.
fn put_in_before(
    text: &mut Vec<u8>,
    told: &ObjectEvents,
    earlier: usize,
    item: Item,
    later: usize,
) -> Result<(), AllocError>
    ensures { OnOk result (text.new.items ≡ text.old.items ++ in_before_text told.now earlier item later) }
{
    text.extend_from_slice(b"  in: ")?;
    put_had(text, told, earlier, item)?;
    text.extend_from_slice(b", ")?;
    put_called(text, told, later)?;
    text.push(b'\n')?;
    Ok(())
}

/// Puts a line last that says that the read found the one item and lacks the other.
fn put_found(
    text: &mut Vec<u8>,
    told: &ObjectEvents,
    read: usize,
    item: Item,
    other: Item,
) -> Result<(), AllocError>
    ensures { OnOk result (text.new.items ≡ text.old.items ++ found_text told.now read item other) }
{
    text.extend_from_slice(b"  ")?;
    put_returned(text, told, read)?;
    text.extend_from_slice(b" with ")?;
    put_short_item(text, told.names, item)?;
    text.extend_from_slice(b" and without ")?;
    put_short_item(text, told.names, other)?;
    text.push(b'\n')?;
    Ok(())
}

/// Puts the lines last of an item that was lost.
fn put_lost(
    text: &mut Vec<u8>,
    told: &ObjectEvents,
    earlier: usize,
    read: usize,
    item: Item,
) -> Result<(), AllocError>
    ensures { OnOk result (text.new.items ≡ text.old.items ++ lost_text told.now earlier read item) }
{
    text.extend_from_slice(b"why: ")?;
    put_short_item(text, told.names, item)?;
    text.extend_from_slice(b" was lost\n")?;
    put_in_before(text, told, earlier, item, read)?;
    text.extend_from_slice(b"  ")?;
    put_returned(text, told, read)?;
    text.extend_from_slice(b" without ")?;
    put_short_item(text, told.names, item)?;
    text.push(b'\n')?;
    Ok(())
}

/// Puts the lines last of two reads, each of which has an item that the other lacks.
fn put_split(
    text: &mut Vec<u8>,
    told: &ObjectEvents,
    reads: (usize, usize),
    item: Item,
    other: Item,
) -> Result<(), AllocError>
    ensures { OnOk result (text.new.items ≡ text.old.items ++ split_text told.now reads item other) }
{
    text.extend_from_slice(b"why: two reads exclude each other\n")?;
    put_found(text, told, reads.0, item, other)?;
    put_found(text, told, reads.1, other, item)?;
    Ok(())
}

/// Puts the lines last of an item that was in before the other one was added.
fn put_late(
    text: &mut Vec<u8>,
    told: &ObjectEvents,
    before: (usize, usize),
    read: usize,
    item: Item,
    other: Item,
) -> Result<(), AllocError>
    ensures { OnOk result (text.new.items ≡ text.old.items ++ late_text told.now before read item other) }
{
    text.extend_from_slice(b"why: ")?;
    put_short_item(text, told.names, item)?;
    text.extend_from_slice(b" was in before ")?;
    put_short_item(text, told.names, other)?;
    text.extend_from_slice(b" was added\n")?;
    put_in_before(text, told, before.0, item, before.1)?;
    put_found(text, told, read, other, item)?;
    Ok(())
}

/// Puts the lines last of the certificate, if it isn't one of a lock.
pub(crate) fn put_set_reason(
    text: &mut Vec<u8>,
    named: &mut Vec<usize>,
    told: &ObjectEvents,
    certificate: &Certificate,
    alloc: Global,
) -> Result<(), AllocError>
    requires table { IsNextTable told.now.events.now told.now.ends.now }
    requires holds { IsCertified told.now.events.now certificate.now }
    ensures { OnOk result (ArePut (IsReasonOfSet told.now certificate.now) text.old.items text.new.items named.old.items named.new.items) }
{
    match certificate {
        Certificate::Unadded { read, item } => {
            put_unadded(text, named, told, *read, *item, alloc)
        }
        Certificate::Lost {
            earlier,
            read,
            item,
        } => {
            put_lost(text, told, *earlier, *read, *item)?;
            name_pair(named, (*earlier, *read))?;
            Ok(())
        }
        Certificate::Split {
            first,
            second,
            item,
            other,
        } => {
            put_split(text, told, (*first, *second), *item, *other)?;
            name_pair(named, (*first, *second))?;
            Ok(())
        }
        Certificate::Late {
            earlier,
            add,
            read,
            item,
            other,
        } => {
            put_late(text, told, (*earlier, *add), *read, *item, *other)?;
            name_pair(named, (*earlier, *add))?;
            named.push(*read)?;
            Ok(())
        }
        _ => put_queue_reason(text, named, told, certificate, alloc),
    }
}
