//! The lines that tell a lock's certificates.
ghost use Rattle.std.specs.Prelude.{◌≡◌, ◌++◌, OnOk};
ghost use Rattle.lin_order.specs.Tables.{IsNextTable};
ghost use Rattle.lin_certificates.specs.Certificates.{IsCounted};
ghost use Rattle.lin_tables.specs.Operations.{name_text};
ghost use Rattle.lin_certificate_lines.specs.Lines.{counted_text, past_text, twice_by_text, twice_text};
ghost use Rattle.lin_certificate_lines.specs.Reasons.{ArePut, IsCountedTold};
ghost use Rattle.lin_certificate_lines.specs.Sides.{named_sides};

use crate::groups::{CallGroup, ReplyGroup};
use crate::queues::put_turn;
use crate::series::put_how_often;
use crate::sides::{Sides, name_sides, put_sides, sides_of};
use crate::told::{ObjectEvents, is_acquire, put_called};
use lin_events::Name;
use lin_tables::name_word;
use std::alloc::{AllocError, Global};

/// Puts the word of a lock's call last.
fn put_name(text: &mut Vec<u8>, name: Name) -> Result<(), AllocError>
    ensures { OnOk result (text.new.items ≡ text.old.items ++ name_text name) }
{
    text.extend_from_slice(name_word(name).as_bytes())
}

/// Puts the word of a lock's call last, in the past.
pub(crate) fn put_past(text: &mut Vec<u8>, name: Name) -> Result<(), AllocError>
    ensures { OnOk result (text.new.items ≡ text.old.items ++ past_text name) }
{
    put_name(text, name)?;
    text.extend_from_slice(b"d")
}

/// Puts the lines last of a lock that had the one call twice, and can't have had the other between.
fn put_twice_by(
    text: &mut Vec<u8>,
    told: &ObjectEvents,
    words: (Name, Name),
    first: usize,
    second: usize,
) -> Result<(), AllocError>
    ensures { OnOk result (text.new.items ≡ text.old.items ++ twice_by_text told.now words.0 words.1 first second) }
{
    text.extend_from_slice(b"why: ")?;
    put_past(text, words.0)?;
    text.extend_from_slice(b" twice\n")?;
    put_turn(text, told, b"  ", first, second)?;
    text.extend_from_slice(b"  no ")?;
    put_name(text, words.1)?;
    text.extend_from_slice(b" can stand between: each that didn't fail had returned before ")?;
    put_called(text, told, first)?;
    text.push(b'\n')?;
    Ok(())
}

/// Puts the lines last of a lock that was acquired twice and can't have been released between, or released twice and can't have been
/// acquired between.
pub(crate) fn put_twice(
    text: &mut Vec<u8>,
    told: &ObjectEvents,
    first: usize,
    second: usize,
) -> Result<(), AllocError>
    ensures { OnOk result (text.new.items ≡ text.old.items ++ twice_text told.now first second) }
{
    if is_acquire(told, first) {
        return put_twice_by(text, told, (Name::Acquire, Name::Release), first, second);
    }
    put_twice_by(text, told, (Name::Release, Name::Acquire), first, second)
}

/// Puts the lines last of a lock that had the one call too often, for how often it can have had the other.
fn put_counted_lines(
    text: &mut Vec<u8>,
    told: &ObjectEvents,
    words: (Name, Name),
    sides: &Sides,
) -> Result<(), AllocError>
    ensures { OnOk result (text.new.items ≡ text.old.items ++ counted_text told.now words.0 words.1 sides.now.done.items sides.now.may.items sides.now.failed.items) }
{
    text.extend_from_slice(b"why: ")?;
    put_past(text, words.0)?;
    text.push(b' ')?;
    put_how_often(text, sides.done.as_slice())?;
    text.extend_from_slice(b" and ")?;
    put_past(text, words.1)?;
    text.extend_from_slice(b" at most ")?;
    put_how_often(text, sides.may.as_slice())?;
    text.push(b'\n')?;
    put_sides(text, told, sides)?;
    Ok(())
}

/// Puts the lines last of a lock that had the one call too often, and the operations that they name.
fn put_counted_by(
    text: &mut Vec<u8>,
    named: &mut Vec<usize>,
    told: &ObjectEvents,
    words: (Name, Name),
    sides: &Sides,
) -> Result<(), AllocError>
    ensures put { OnOk result (text.new.items ≡ text.old.items ++ counted_text told.now words.0 words.1 sides.now.done.items sides.now.may.items sides.now.failed.items) }
    ensures named { OnOk result (named.new.items ≡ named.old.items ++ named_sides sides.now.done.items sides.now.may.items sides.now.failed.items) }
{
    put_counted_lines(text, told, words, sides)?;
    name_sides(named, sides)
}

/// Puts the lines last of a lock that was released too often, or else acquired too often, and the operations that they name.
pub(crate) fn put_counted(
    text: &mut Vec<u8>,
    named: &mut Vec<usize>,
    told: &ObjectEvents,
    alloc: Global,
) -> Result<(), AllocError>
    requires table { IsNextTable told.now.events.now told.now.ends.now }
    requires holds { IsCounted told.now.events.now }
    ensures { OnOk result (ArePut (IsCountedTold told.now) text.old.items text.new.items named.old.items named.new.items) }
{
    let released = sides_of(
        told,
        ReplyGroup::Called(CallGroup::Releases),
        CallGroup::Acquires,
        alloc,
    )?;
    if released.may.len() < released.done.len() {
        put_counted_by(text, named, told, (Name::Release, Name::Acquire), &released)?;
        return Ok(());
    }
    let acquired = sides_of(
        told,
        ReplyGroup::Called(CallGroup::Acquires),
        CallGroup::Releases,
        alloc,
    )?;
    put_counted_by(text, named, told, (Name::Acquire, Name::Release), &acquired)?;
    Ok(())
}
