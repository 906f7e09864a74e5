//! The lines that tell certificates that count.
ghost use Rattle.std.specs.Prelude.{◌≡◌, ◌++◌, OnOk};
ghost use Rattle.lin_order.specs.Tables.{IsNextTable};
ghost use Rattle.lin_certificate_lines.specs.Lines.{beside_text, spent_text, spent_why};
ghost use Rattle.lin_certificate_lines.specs.Reasons.{ArePut, IsCertified, IsReasonByCount, IsSpentTold};
ghost use Rattle.lin_certificate_lines.specs.Surplus.{surplus_line};

use crate::groups::{CallGroup, ReplyGroup};
use crate::series::put_how_often;
use crate::sets::put_set_reason;
use crate::sides::{Sides, name_sides, put_sides, sides_of};
use crate::surplus::{put_preceded, put_remaining};
use crate::told::{ObjectEvents, put_called};
use lin_certificates::Certificate;
use lin_events::{Item, Val};
use lin_tables::{put_items, put_value};
use std::alloc::{AllocError, Global};

/// Ends a line on how often a register came to the value, with which it may have begun.
fn put_beside(text: &mut Vec<u8>, value: Val) -> Result<(), AllocError>
    ensures { OnOk result (text.new.items ≡ text.old.items ++ beside_text value) }
{
    match value {
        Val::Nil => text.extend_from_slice(b", beside the beginning\n"),
        Val::Item(_) => text.extend_from_slice(b"\n"),
    }
}

/// Puts a line last of a register that was taken from the value to another one too often.
fn put_spent_why(
    text: &mut Vec<u8>,
    told: &ObjectEvents,
    value: Val,
    done: &[usize],
    may: &[usize],
) -> Result<(), AllocError>
    ensures { OnOk result (text.new.items ≡ text.old.items ++ spent_why told.now value done.now may.now) }
{
    text.extend_from_slice(b"why: a cas from ")?;
    put_value(text, told.names, value)?;
    text.extend_from_slice(b" to another value was ok ")?;
    put_how_often(text, done)?;
    text.extend_from_slice(b", and ")?;
    put_value(text, told.names, value)?;
    text.extend_from_slice(b" was left at most ")?;
    put_how_often(text, may)?;
    put_beside(text, value)?;
    Ok(())
}

/// Puts the lines last of a register that was taken from the value to another one too often.
fn put_spent_lines(
    text: &mut Vec<u8>,
    told: &ObjectEvents,
    value: Val,
    sides: &Sides,
) -> Result<(), AllocError>
    ensures { OnOk result (text.new.items ≡ text.old.items ++ spent_text told.now value sides.now.done.items sides.now.may.items sides.now.failed.items) }
{
    put_spent_why(
        text,
        told,
        value,
        sides.done.as_slice(),
        sides.may.as_slice(),
    )?;
    put_sides(text, told, sides)
}

/// Puts the lines last of a register that was taken from the value to another one too often, and the operations that they name.
fn put_spent(
    text: &mut Vec<u8>,
    named: &mut Vec<usize>,
    told: &ObjectEvents,
    value: Val,
    alloc: Global,
) -> Result<(), AllocError>
    requires { IsNextTable told.now.events.now told.now.ends.now }
    ensures { OnOk result (ArePut (IsSpentTold told.now value) text.old.items text.new.items named.old.items named.new.items) }
{
    let sides = sides_of(
        told,
        ReplyGroup::Called(CallGroup::Spends(value)),
        CallGroup::Leaves(value),
        alloc,
    )?;
    put_spent_lines(text, told, value, &sides)?;
    name_sides(named, &sides)?;
    Ok(())
}

/// Puts a line last of a dequeue that found nothing, though some of the items remained.
fn put_surplus_line(
    text: &mut Vec<u8>,
    told: &ObjectEvents,
    dequeue: usize,
    items: &[Item],
) -> Result<(), AllocError>
    ensures { OnOk result (text.new.items ≡ text.old.items ++ surplus_line told.now dequeue items.now) }
{
    text.extend_from_slice(b"why: of ")?;
    put_items(text, told.names, items)?;
    text.extend_from_slice(b" more were put in before ")?;
    put_called(text, told, dequeue)?;
    text.extend_from_slice(b" than can have been taken out before it returned\n")?;
    Ok(())
}

/// Puts the lines last of the certificate, if it is one that counts, or one of a set, a queue or a register.
pub(crate) fn put_count_reason(
    text: &mut Vec<u8>,
    named: &mut Vec<usize>,
    told: &ObjectEvents,
    certificate: &Certificate,
    alloc: Global,
) -> Result<(), AllocError>
    requires table { IsNextTable told.now.events.now told.now.ends.now }
    requires holds { IsCertified told.now.events.now certificate.now }
    ensures { OnOk result (ArePut (IsReasonByCount told.now certificate.now) text.old.items text.new.items named.old.items named.new.items) }
{
    match certificate {
        Certificate::Spent { value } => put_spent(text, named, told, *value, alloc),
        Certificate::Remaining { dequeue } => put_remaining(text, named, told, *dequeue, alloc),
        Certificate::Surplus { dequeue, items } => {
            put_surplus_line(text, told, *dequeue, items.as_slice())?;
            named.push(*dequeue)?;
            Ok(())
        }
        Certificate::Preceded {
            later,
            dequeue,
            item,
        } => put_preceded(text, named, told, (*later, *dequeue), *item, alloc),
        _ => put_set_reason(text, named, told, certificate, alloc),
    }
}
