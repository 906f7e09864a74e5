//! The lines that tell of a lock that had one of its calls too often between two places.
ghost use Rattle.std.specs.Prelude.{◌≡◌, ◌++◌, ◌-◌, IfOk, OnOk};
ghost use Rattle.lin_order.specs.Tables.{IsNextTable};
ghost use Rattle.lin_certificates.specs.declared.words.Calls.TheVariants as Sorted;
ghost use Rattle.lin_events.specs.declared.calls.Name.TheVariants as Named;
ghost use Rattle.lin_certificate_lines.specs.Reasons.{ArePut};
ghost use Rattle.lin_certificate_lines.specs.Sides.{named_sides};
ghost use Rattle.lin_certificate_lines.specs.Within.{AreWithin, IsWithinTold, span_text, within_text, within_why};

use crate::groups::{CallGroup, Group};
use crate::listing::last_first;
use crate::locks::put_past;
use crate::series::put_how_often;
use crate::sides::{Sides, name_sides, put_sides};
use crate::told::{ObjectEvents, put_spot_at};
use lin_certificates::{Answers, Calls, Which};
use lin_events::Name;
use std::alloc::{AllocError, Global};

/// Acquires between the places, and releases that may have been there or failed then.
fn acquired_within(
    told: &ObjectEvents,
    places: (usize, usize),
    alloc: Global,
) -> Result<Sides, AllocError>
    requires { IsNextTable told.now.events.now told.now.ends.now }
    ensures { IfOk result (λ sides. AreWithin told.now.events.now Sorted.Acquires Sorted.Releases places.0 places.1 sides) }
{
    let (from, to) = places;
    let made = Which::ReturnedWithin(Answers::Called(Calls::Acquires), from, to);
    let others = Which::CountsWithin(Calls::Releases, from, to);
    let done = last_first(told, &Group::Such(made), alloc)?;
    let may = last_first(told, &Group::Such(others), alloc)?;
    let failed = last_first(
        told,
        &Group::FailsWithin(CallGroup::Releases, from, to),
        alloc,
    )?;
    Ok(Sides { done, may, failed })
}

/// Releases between the places, and acquires that may have been there or failed then.
fn released_within(
    told: &ObjectEvents,
    places: (usize, usize),
    alloc: Global,
) -> Result<Sides, AllocError>
    requires { IsNextTable told.now.events.now told.now.ends.now }
    ensures { IfOk result (λ sides. AreWithin told.now.events.now Sorted.Releases Sorted.Acquires places.0 places.1 sides) }
{
    let (from, to) = places;
    let made = Which::ReturnedWithin(Answers::Called(Calls::Releases), from, to);
    let others = Which::CountsWithin(Calls::Acquires, from, to);
    let done = last_first(told, &Group::Such(made), alloc)?;
    let may = last_first(told, &Group::Such(others), alloc)?;
    let failed = last_first(
        told,
        &Group::FailsWithin(CallGroup::Acquires, from, to),
        alloc,
    )?;
    Ok(Sides { done, may, failed })
}

/// Puts last from which event up to which.
fn put_span(
    text: &mut Vec<u8>,
    told: &ObjectEvents,
    places: (usize, usize),
) -> Result<(), AllocError>
    ensures { OnOk result (text.new.items ≡ text.old.items ++ span_text told.now places.0 places.1) }
{
    text.extend_from_slice(b" from ")?;
    put_spot_at(text, told, places.0)?;
    text.extend_from_slice(b" to ")?;
    put_spot_at(text, told, places.1.saturating_sub(1))
}

/// Puts a line last of how often the one call was made between the places, and how often the other can have been.
fn put_within_why(
    text: &mut Vec<u8>,
    told: &ObjectEvents,
    words: (Name, Name),
    places: (usize, usize),
    done: &[usize],
    may: &[usize],
) -> Result<(), AllocError>
    ensures { OnOk result (text.new.items ≡ text.old.items ++ within_why told.now words.0 words.1 places.0 places.1 done.now may.now) }
{
    text.extend_from_slice(b"why: ")?;
    put_past(text, words.0)?;
    text.push(b' ')?;
    put_how_often(text, done)?;
    put_span(text, told, places)?;
    text.extend_from_slice(b", and ")?;
    put_past(text, words.1)?;
    text.extend_from_slice(b" at most ")?;
    put_how_often(text, may)?;
    text.push(b'\n')?;
    Ok(())
}

/// Puts the lines last of how often the one call was made between the places, and how often the other can have been.
fn put_within_lines(
    text: &mut Vec<u8>,
    told: &ObjectEvents,
    words: (Name, Name),
    places: (usize, usize),
    sides: &Sides,
) -> Result<(), AllocError>
    ensures { OnOk result (text.new.items ≡ text.old.items ++ within_text told.now words.0 words.1 places.0 places.1 sides.now) }
{
    put_within_why(
        text,
        told,
        words,
        places,
        sides.done.as_slice(),
        sides.may.as_slice(),
    )?;
    put_sides(text, told, sides)
}

/// Puts the lines last of a lock that was acquired too often between the places, and the operations that they name.
fn put_acquired_within(
    text: &mut Vec<u8>,
    named: &mut Vec<usize>,
    told: &ObjectEvents,
    places: (usize, usize),
    alloc: Global,
) -> Result<(), AllocError>
    requires { IsNextTable told.now.events.now told.now.ends.now }
    ensures { OnOk result (ArePut (IsWithinTold told.now Sorted.Acquires places.0 places.1) text.old.items text.new.items named.old.items named.new.items) }
{
    let sides = acquired_within(told, places, alloc)?;
    put_within_lines(text, told, (Name::Acquire, Name::Release), places, &sides)?;
    name_sides(named, &sides)?;
    Ok(())
}

/// Puts the lines last of a lock that was released too often between the places, and the operations that they name.
fn put_released_within(
    text: &mut Vec<u8>,
    named: &mut Vec<usize>,
    told: &ObjectEvents,
    places: (usize, usize),
    alloc: Global,
) -> Result<(), AllocError>
    requires { IsNextTable told.now.events.now told.now.ends.now }
    ensures { OnOk result (ArePut (IsWithinTold told.now Sorted.Releases places.0 places.1) text.old.items text.new.items named.old.items named.new.items) }
{
    let sides = released_within(told, places, alloc)?;
    put_within_lines(text, told, (Name::Release, Name::Acquire), places, &sides)?;
    name_sides(named, &sides)?;
    Ok(())
}

/// Puts the lines last of a lock that had the call too often between the places, and the operations that they name.
pub(crate) fn put_within(
    text: &mut Vec<u8>,
    named: &mut Vec<usize>,
    told: &ObjectEvents,
    calls: Calls,
    places: (usize, usize),
    alloc: Global,
) -> Result<(), AllocError>
    requires { IsNextTable told.now.events.now told.now.ends.now }
    ensures { OnOk result (ArePut (IsWithinTold told.now calls places.0 places.1) text.old.items text.new.items named.old.items named.new.items) }
{
    match calls {
        Calls::Acquires => put_acquired_within(text, named, told, places, alloc),
        Calls::Releases => put_released_within(text, named, told, places, alloc),
        _ => Ok(()),
    }
}
