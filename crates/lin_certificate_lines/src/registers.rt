//! The lines that tell a register's certificates.
ghost use Rattle.std.specs.Prelude.{◌≡◌, ◌++◌, ℕ, All, IfOk, OnOk, map, option_map};
ghost use Rattle.std.specs.List.{flat_map};
ghost use Rattle.lin_order.specs.Tables.{IsNextTable};
ghost use Rattle.lin_certificates.specs.Certificates.{IsOverwritten};
ghost use Rattle.lin_certificate_lines.specs.Groups.{IsBetween};
ghost use Rattle.lin_certificate_lines.specs.Lines.{crossed_back_text, crossed_text, first_over_text, held_text, members_why, more_updates_text, overwritten_text, overwritten_why, pair_text, reply_why, shape_text, shape_why, stale_text, unwritten_text, updates_count_text, value_why};
ghost use Rattle.lin_certificate_lines.specs.Reasons.{ArePut, IsCertified, IsFirstOver, IsOverwrittenTold, IsReasonOfRegister, IsUnwrittenTold, most_told as most_of, named_over};

use crate::groups::{CallGroup, Group};
use crate::listing::{all_of, latest_of};
use crate::naming::{name_four, name_pair, name_pairs, name_some};
use crate::series::{FIRSTS, firsts_of, put_fact, put_failures};
use crate::told::{
    ObjectEvents, Verb, put_called, put_end_spot, put_in_turn, put_returned, reply_of,
};
use lin_certificates::Certificate;
use lin_events::{Item, Reply, Val};
use lin_tables::{put_short_item, put_value};
use lin_texts::put_number;
use std::alloc::{AllocError, Global};

/// Puts a line last that says that a read of a set gave the value.
fn put_value_why(text: &mut Vec<u8>, told: &ObjectEvents, value: Val) -> Result<(), AllocError>
    ensures { OnOk result (text.new.items ≡ text.old.items ++ value_why told.now value) }
{
    text.extend_from_slice(b"why: a read of a set gives members, not ")?;
    put_value(text, told.names, value)?;
    text.push(b'\n')?;
    Ok(())
}

/// Puts a line last that says that a read of a register gave members.
fn put_members_why(text: &mut Vec<u8>) -> Result<(), AllocError>
    ensures { OnOk result (text.new.items ≡ text.old.items ++ members_why) }
{
    text.extend_from_slice(b"why: a read of a register gives one value, not members\n")?;
    Ok(())
}

/// Puts a line last that says what a read gave that can't be.
fn put_reply_why(text: &mut Vec<u8>, told: &ObjectEvents, reply: &Reply) -> Result<(), AllocError>
    ensures { OnOk result (text.new.items ≡ text.old.items ++ reply_why told.now reply.now) }
{
    match reply {
        Reply::Done => Ok(()),
        Reply::Value(value) => put_value_why(text, told, *value),
        Reply::Members(_) => put_members_why(text),
    }
}

/// Puts a line last that says what a read gave that can't be, if it gave something.
fn put_shape_why(
    text: &mut Vec<u8>,
    told: &ObjectEvents,
    reply: Option<&Reply>,
) -> Result<(), AllocError>
    ensures { OnOk result (text.new.items ≡ text.old.items ++ shape_why told.now (option_map (λ r. r.now) reply.entry)) }
{
    match reply {
        Some(reply) => put_reply_why(text, told, reply),
        None => Ok(()),
    }
}

/// Puts the lines last of a read that gave what it can't have.
pub(crate) fn put_shape(
    text: &mut Vec<u8>,
    told: &ObjectEvents,
    read: usize,
) -> Result<(), AllocError>
    ensures { OnOk result (text.new.items ≡ text.old.items ++ shape_text told.now read) }
{
    put_shape_why(text, told, reply_of(told, read))?;
    put_fact(text, told, Verb::Returned, read)
}

/// Puts the lines last that say that nothing leaves the item that the operation needs: these failed.
fn put_unwritten_lines(
    text: &mut Vec<u8>,
    told: &ObjectEvents,
    operation: usize,
    item: Item,
    failed: &[usize],
) -> Result<(), AllocError>
    ensures { OnOk result (text.new.items ≡ text.old.items ++ unwritten_text told.now operation item failed.now) }
{
    text.extend_from_slice(b"why: nothing leaves ")?;
    put_short_item(text, told.names, item)?;
    text.push(b'\n')?;
    put_fact(text, told, Verb::Returned, operation)?;
    put_failures(text, told, b"  no other operation leaves it\n", failed)?;
    Ok(())
}

/// Puts the lines last of an item that nothing leaves, and the operations that they name.
fn put_unwritten(
    text: &mut Vec<u8>,
    named: &mut Vec<usize>,
    told: &ObjectEvents,
    operation: usize,
    item: Item,
    alloc: Global,
) -> Result<(), AllocError>
    requires { IsNextTable told.now.events.now told.now.ends.now }
    ensures { OnOk result (ArePut (IsUnwrittenTold told.now operation item) text.old.items text.new.items named.old.items named.new.items) }
{
    let group = Group::Fails(CallGroup::Leaves(Val::Item(item)));
    let list = all_of(told, &group, alloc)?;
    let failed = list.as_slice();
    put_unwritten_lines(text, told, operation, item, failed)?;
    named.push(operation)?;
    named.extend_from_slice(firsts_of(failed, FIRSTS))?;
    Ok(())
}

/// How many operations that leave the value are told.
fn most_told(value: Val) -> usize
    ensures { result ≡ most_of value }
{
    match value {
        Val::Nil => 2,
        Val::Item(_) => 3,
    }
}

/// Where the value is the one that a register begins with, the operation that left some value before the other one, and ended last.
fn first_over(
    told: &ObjectEvents,
    operation: usize,
    value: Val,
    alloc: Global,
) -> Result<Option<usize>, AllocError>
    requires table { IsNextTable told.now.events.now told.now.ends.now }
    requires holds { IsOverwritten told.now.events.now operation value }
    ensures { IfOk result (λ first. IsFirstOver told.now.events.now operation value first) }
{
    match value {
        Val::Nil => {
            let over = latest_of(told, &Group::Overwrites(operation), alloc)?;
            Ok(Some(over))
        }
        Val::Item(_) => Ok(None),
    }
}

/// Each of these operations, and with it the one that leaves some value between it and the other one, and ended last.
fn pairs_of(
    told: &ObjectEvents,
    operation: usize,
    others: &[usize],
    alloc: Global,
) -> Result<Vec<(usize, usize)>, AllocError>
    requires table { IsNextTable told.now.events.now told.now.ends.now }
    requires each { All (λ other. (over : ℕ) × IsBetween told.now.events.now other operation over) others.now }
    ensures begin { IfOk result (λ pairs. map (λ pair. pair.0) pairs.items ≡ others.now) }
    ensures between { IfOk result (λ pairs. All (λ pair. IsBetween told.now.events.now pair.0 operation pair.1) pairs.items) }
{
    let mut pairs = Vec::new(alloc);
    for other in others {
        let over = latest_of(told, &Group::Between(*other, operation), alloc)?;
        pairs.push((*other, over))?;
    }
    Ok(pairs)
}

/// Puts a line last that says before which operation the value was overwritten.
fn put_overwritten_why(
    text: &mut Vec<u8>,
    told: &ObjectEvents,
    operation: usize,
    value: Val,
) -> Result<(), AllocError>
    ensures { OnOk result (text.new.items ≡ text.old.items ++ overwritten_why told.now operation value) }
{
    text.extend_from_slice(b"why: ")?;
    put_value(text, told.names, value)?;
    text.extend_from_slice(b" was overwritten before ")?;
    put_called(text, told, operation)?;
    text.push(b'\n')?;
    Ok(())
}

/// Puts a line last of the operation that left some value first, if there is one.
fn put_first_over(
    text: &mut Vec<u8>,
    told: &ObjectEvents,
    first: Option<usize>,
) -> Result<(), AllocError>
    ensures { OnOk result (text.new.items ≡ text.old.items ++ first_over_text told.now first) }
{
    match first {
        Some(over) => put_fact(text, told, Verb::Returned, over),
        None => Ok(()),
    }
}

/// Puts a line last of an operation that leaves the value, and of one that leaves some value behind it.
fn put_pair(text: &mut Vec<u8>, told: &ObjectEvents, pair: (usize, usize)) -> Result<(), AllocError>
    ensures { OnOk result (text.new.items ≡ text.old.items ++ pair_text told.now pair) }
{
    text.extend_from_slice(b"  ")?;
    put_in_turn(text, told, pair.0, pair.1)?;
    text.extend_from_slice(b" and returned at ")?;
    put_end_spot(text, told, pair.1)?;
    text.push(b'\n')?;
    Ok(())
}

/// Puts a line last for each pair.
fn put_pairs(
    text: &mut Vec<u8>,
    told: &ObjectEvents,
    pairs: &[(usize, usize)],
) -> Result<(), AllocError>
    ensures { OnOk result (text.new.items ≡ text.old.items ++ flat_map (pair_text told.now) pairs.now) }
{
    for pair in pairs {
        put_pair(text, told, *pair)?;
    }
    Ok(())
}

/// Puts a line last that says how many more operations leave the value.
fn put_updates_count(
    text: &mut Vec<u8>,
    told: &ObjectEvents,
    value: Val,
    more: usize,
) -> Result<(), AllocError>
    ensures { OnOk result (text.new.items ≡ text.old.items ++ updates_count_text told.now value more) }
{
    text.extend_from_slice(b"  and so were ")?;
    put_number(text, more as u64)?;
    text.extend_from_slice(b" more updates that leave ")?;
    put_value(text, told.names, value)?;
    text.push(b'\n')?;
    Ok(())
}

/// Puts a line last that says how many more operations leave the value, if any do.
fn put_more_updates(
    text: &mut Vec<u8>,
    told: &ObjectEvents,
    value: Val,
    more: usize,
) -> Result<(), AllocError>
    ensures { OnOk result (text.new.items ≡ text.old.items ++ more_updates_text told.now value more) }
{
    if more == 0 {
        return Ok(());
    }
    put_updates_count(text, told, value, more)
}

/// Puts the lines last of a value that was overwritten before the operation that needs it: as these pairs tell, and so many more.
fn put_overwritten_lines(
    text: &mut Vec<u8>,
    told: &ObjectEvents,
    needed: (usize, Val),
    first: Option<usize>,
    pairs: &[(usize, usize)],
    more: usize,
) -> Result<(), AllocError>
    ensures { OnOk result (text.new.items ≡ text.old.items ++ overwritten_text told.now needed.0 needed.1 first pairs.now more) }
{
    put_overwritten_why(text, told, needed.0, needed.1)?;
    put_first_over(text, told, first)?;
    put_pairs(text, told, pairs)?;
    put_more_updates(text, told, needed.1, more)
}

/// Puts the operations last that the lines of an overwritten value name.
fn name_overwritten(
    named: &mut Vec<usize>,
    operation: usize,
    first: Option<usize>,
    pairs: &[(usize, usize)],
) -> Result<(), AllocError>
    ensures { OnOk result (named.new.items ≡ named.old.items ++ named_over operation first pairs.now) }
{
    named.push(operation)?;
    name_some(named, first)?;
    name_pairs(named, pairs)
}

/// Puts the lines last of a value that was overwritten before the operation that needs it, and the operations that they name.
fn put_overwritten(
    text: &mut Vec<u8>,
    named: &mut Vec<usize>,
    told: &ObjectEvents,
    operation: usize,
    value: Val,
    alloc: Global,
) -> Result<(), AllocError>
    requires table { IsNextTable told.now.events.now told.now.ends.now }
    requires holds { IsOverwritten told.now.events.now operation value }
    ensures { OnOk result (ArePut (IsOverwrittenTold told.now operation value) text.old.items text.new.items named.old.items named.new.items) }
{
    let first = first_over(told, operation, value, alloc)?;
    let group = Group::CountsBut(CallGroup::Leaves(value), operation);
    let list = all_of(told, &group, alloc)?;
    let others = list.as_slice();
    let most = most_told(value);
    let over = pairs_of(told, operation, firsts_of(others, most), alloc)?;
    let pairs = over.as_slice();
    let more = others.len().saturating_sub(most);
    put_overwritten_lines(text, told, (operation, value), first, pairs, more)?;
    name_overwritten(named, operation, first, pairs)?;
    Ok(())
}

/// Puts the lines last of a value that was overwritten before the operation that needs it, since the other operation shows another value.
fn put_stale(
    text: &mut Vec<u8>,
    told: &ObjectEvents,
    operation: usize,
    value: Val,
    over: usize,
    held: Val,
) -> Result<(), AllocError>
    ensures { OnOk result (text.new.items ≡ text.old.items ++ stale_text told.now operation value over held) }
{
    put_overwritten_why(text, told, operation, value)?;
    text.extend_from_slice(b"  ")?;
    put_value(text, told.names, held)?;
    text.extend_from_slice(b" was held: ")?;
    put_returned(text, told, over)?;
    text.push(b'\n')?;
    Ok(())
}

/// Puts a line last that says that the one value was held before the other.
fn put_held(
    text: &mut Vec<u8>,
    told: &ObjectEvents,
    value: Val,
    other: Val,
    pair: (usize, usize),
) -> Result<(), AllocError>
    ensures { OnOk result (text.new.items ≡ text.old.items ++ held_text told.now value other pair) }
{
    text.extend_from_slice(b"  ")?;
    put_value(text, told.names, value)?;
    text.extend_from_slice(b" before ")?;
    put_value(text, told.names, other)?;
    text.extend_from_slice(b": ")?;
    put_in_turn(text, told, pair.0, pair.1)?;
    text.push(b'\n')?;
    Ok(())
}

/// Puts last that each value is left by one operation, and a line of these two; or that nothing leaves nil.
fn put_crossed_back(
    text: &mut Vec<u8>,
    told: &ObjectEvents,
    value: Val,
    other: Val,
    back: Option<(usize, usize)>,
) -> Result<(), AllocError>
    ensures { OnOk result (text.new.items ≡ text.old.items ++ crossed_back_text told.now value other back) }
{
    match back {
        None => text.extend_from_slice(b", nil is the beginning and nothing leaves it\n"),
        Some(pair) => {
            text.extend_from_slice(b", each left by one operation\n")?;
            put_held(text, told, value, other, pair)
        }
    }
}

/// Puts the lines last of two values that were held in turn, and of which the first was held again.
fn put_crossed(
    text: &mut Vec<u8>,
    told: &ObjectEvents,
    value: Val,
    other: Val,
    pair: (usize, usize),
    back: Option<(usize, usize)>,
) -> Result<(), AllocError>
    ensures { OnOk result (text.new.items ≡ text.old.items ++ crossed_text told.now value other pair back) }
{
    text.extend_from_slice(b"why: crossed values ")?;
    put_value(text, told.names, value)?;
    text.extend_from_slice(b" and ")?;
    put_value(text, told.names, other)?;
    put_crossed_back(text, told, value, other, back)?;
    put_held(text, told, other, value, pair)?;
    Ok(())
}

/// Puts the lines last of the certificate, if it is one of a register.
pub(crate) fn put_register_reason(
    text: &mut Vec<u8>,
    named: &mut Vec<usize>,
    told: &ObjectEvents,
    certificate: &Certificate,
    alloc: Global,
) -> Result<(), AllocError>
    requires table { IsNextTable told.now.events.now told.now.ends.now }
    requires holds { IsCertified told.now.events.now certificate.now }
    ensures { OnOk result (ArePut (IsReasonOfRegister told.now certificate.now) text.old.items text.new.items named.old.items named.new.items) }
{
    match certificate {
        Certificate::Shape { read } => {
            put_shape(text, told, *read)?;
            named.push(*read)?;
            Ok(())
        }
        Certificate::Unwritten { operation, item } => {
            put_unwritten(text, named, told, *operation, *item, alloc)
        }
        Certificate::Overwritten { operation, value } => {
            put_overwritten(text, named, told, *operation, *value, alloc)
        }
        Certificate::Stale {
            operation,
            value,
            over,
            held,
        } => {
            put_stale(text, told, *operation, *value, *over, *held)?;
            name_pair(named, (*operation, *over))?;
            Ok(())
        }
        Certificate::Crossed {
            value,
            item,
            early,
            late,
            back,
        } => {
            let pair = (*early, *late);
            put_crossed(text, told, *value, Val::Item(*item), pair, *back)?;
            name_four(named, pair, *back)?;
            Ok(())
        }
        _ => Ok(()),
    }
}
