//! What is told of a yes.
ghost use Rattle.std.specs.Prelude.{◌≡◌, ◌≤◌, ◌+◌, ◌-◌, ◌*◌, ◌++◌, ℕ, List, IfOk, OnOk, decimal, length};
ghost use Rattle.lin_events.specs.Meters.{ticked};
ghost use Rattle.lin_explain.specs.Parts.{object_in};
ghost use Rattle.lin_explain.specs.Yes.{AreObjects, IsYesText, counts_text, open_counts_text, order_line, placed_in, places_text, yes_text};
ghost use Rattle.lin_explain.specs.Counts.{count_in, open_in};

use crate::counts::{Sort, count, count_open};
use crate::parts::Parts;
use crate::passes::tick_passes;
use crate::telling::Asked;
use lin_answers::Present;
use lin_events::{Item, Meter, OutOfMemory};
use lin_names::Names;
use lin_objects::Kind;
use lin_order::Placed;
use lin_texts::{put_number, write_order};
use std::alloc::{AllocError, Global};

/// So many passes are made through the history, one for each count, and one for each that what is open is told by. The keys, which are sorted, aren't
/// counted.
const COUNTS: usize = 10;

/// Puts how many events of the sort there are last.
fn put_count(
    text: &mut Vec<u8>,
    present: &Present<'_>,
    key: Option<Item>,
    sort: Sort,
) -> Result<(), AllocError>
    ensures { OnOk result (text.new.items ≡ text.old.items ++ decimal (count_in key sort present.now.history)) }
{
    put_number(text, count(present, key, sort) as u64)
}

/// Puts how many operations are open last.
fn put_open(text: &mut Vec<u8>, present: &Present<'_>, key: Option<Item>) -> Result<(), AllocError>
    ensures { OnOk result (text.new.items ≡ text.old.items ++ decimal (open_in key present.now.history)) }
{
    put_number(text, count_open(present, key) as u64)
}

/// Puts how many open operations an order places last.
#[tactic(auto, unfolding(crate::specs::Yes::placed_in))]
fn put_placed(
    text: &mut Vec<u8>,
    present: &Present<'_>,
    key: Option<Item>,
    order: &[Placed],
) -> Result<(), AllocError>
    ensures { OnOk result (text.new.items ≡ text.old.items ++ decimal (placed_in key present.now.history order.now)) }
{
    let placed = order.len().saturating_sub(count(present, key, Sort::Ok));
    put_number(text, placed as u64)
}

/// Puts the line that counts operations last.
fn put_counts(
    text: &mut Vec<u8>,
    present: &Present<'_>,
    key: Option<Item>,
    objects: usize,
) -> Result<(), AllocError>
    ensures { OnOk result (text.new.items ≡ text.old.items ++ counts_text key present.now.history objects) }
{
    text.extend_from_slice(b"operations ")?;
    put_count(text, present, key, Sort::Invoked)?;
    text.extend_from_slice(b": ok ")?;
    put_count(text, present, key, Sort::Ok)?;
    text.extend_from_slice(b", failed ")?;
    put_count(text, present, key, Sort::Failed)?;
    put_open_counts(text, present, key, objects)
}

/// Puts the end of that line last.
fn put_open_counts(
    text: &mut Vec<u8>,
    present: &Present<'_>,
    key: Option<Item>,
    objects: usize,
) -> Result<(), AllocError>
    ensures { OnOk result (text.new.items ≡ text.old.items ++ open_counts_text key present.now.history objects) }
{
    text.extend_from_slice(b", open ")?;
    put_open(text, present, key)?;
    text.extend_from_slice(b" (crashed ")?;
    put_count(text, present, key, Sort::Crashed)?;
    text.extend_from_slice(b"); objects ")?;
    put_number(text, objects as u64)?;
    text.extend_from_slice(b"\n")
}

/// Puts the line that tells how many open operations an order places last.
fn put_places(
    text: &mut Vec<u8>,
    present: &Present<'_>,
    key: Option<Item>,
    order: &[Placed],
) -> Result<(), AllocError>
    ensures { OnOk result (text.new.items ≡ text.old.items ++ places_text key present.now.history order.now) }
{
    text.extend_from_slice(b"a legal order places ")?;
    put_placed(text, present, key, order)?;
    text.extend_from_slice(b" of the ")?;
    put_open(text, present, key)?;
    text.extend_from_slice(b" open ones\n")?;
    Ok(())
}

/// How many objects are spoken of.
fn objects_of(
    alloc: Global,
    names: &Names,
    present: &Present<'_>,
    key: Option<Item>,
) -> Result<usize, OutOfMemory>
    ensures { IfOk result (AreObjects names.now key present.now.history) }
{
    match key {
        Some(_) => Ok(1),
        None => Ok(present.objects(alloc, names)?.len()),
    }
}

/// Puts the line of the order last, if it is wanted.
fn put_order_line(
    text: &mut Vec<u8>,
    names: &Names,
    with_order: bool,
    order: &[Placed],
) -> Result<(), OutOfMemory>
    ensures { OnOk result (text.new.items ≡ text.old.items ++ order_line names.now with_order order.now) }
{
    if with_order {
        text.extend_from_slice(b"order ")?;
        write_order(names, order, text)?;
        text.push(b'\n')?;
    }
    Ok(())
}

/// Puts the lines on a yes last: how many operations there are, how many open ones the order places, and the order if it is wanted.
fn put_lines(
    alloc: Global,
    text: &mut Vec<u8>,
    names: &Names,
    present: &Present<'_>,
    order: &[Placed],
    asked: Asked,
) -> Result<(), OutOfMemory>
    ensures { OnOk result ((objects : ℕ) × AreObjects names.now asked.key present.now.history objects
        × (text.new.items ≡ text.old.items ++ yes_text names.now asked.key asked.with_order present.now.history objects order.now)) }
{
    let objects = objects_of(alloc, names, present, asked.key)?;
    put_counts(text, present, asked.key, objects)?;
    put_places(text, present, asked.key, order)?;
    put_order_line(text, names, asked.with_order, order)
}

/// The object of the key with its kind, if one is named.
fn object_of(present: &Present<'_>, key: Option<Item>) -> Option<(Item, Kind)>
    ensures { result ≡ object_in present.now key }
{
    match key {
        Some(key) => Some((key, present.kind_of(key))),
        None => None,
    }
}

/// Puts what is told of a yes last. Each pass through the history is counted.
pub(crate) fn put_yes(
    alloc: Global,
    text: &mut Vec<u8>,
    names: &Names,
    present: &Present<'_>,
    order: &[Placed],
    asked: Asked,
    meter: &mut Meter,
) -> Result<Parts, OutOfMemory>
    ensures told { IfOk result (λ parts. (lines : List ℕ) × IsYesText names.now present.now asked.key asked.with_order order.now lines parts
        × (text.new.items ≡ text.old.items ++ lines)) }
    ensures counted { meter.new ≡ record meter.old { steps = ticked meter.old.steps (10 * length present.now.history) } }
    ensures most { meter.new.steps ≤ meter.old.steps + 10 * length present.now.history }
{
    tick_passes(meter, COUNTS, present.len());
    put_lines(alloc, text, names, present, order, asked)?;
    Ok(Parts::Yes {
        object: object_of(present, asked.key),
    })
}
