//! The lines that tell of a queue that more items were put into than can have been taken out.
ghost use Rattle.std.specs.Prelude.{◌≡◌, ◌++◌, IfOk, OnOk, decimal, length, reverse};
ghost use Rattle.lin_order.specs.Tables.{IsNextTable};
ghost use Rattle.lin_certificate_lines.specs.Groups.{IsInGroup, IsListing};
ghost use Rattle.lin_certificate_lines.specs.Reasons.{ArePut};
ghost use Rattle.lin_certificate_lines.specs.Surplus.{IsPrecededTold, IsRemainingTold, IsSurplus, earlier_line, earlier_text, items_text, named_surplus, preceded_text, preceded_why, remaining_text, surplus_text, surplus_why};

use crate::groups::Group;
use crate::listing::{all_of, last_first};
use crate::naming::name_pair;
use crate::series::{FIRSTS, firsts_of, put_facts, put_how_often};
use crate::told::{ObjectEvents, Verb, put_called, put_returned};
use lin_certificates::{Answers, Calls, Which};
use lin_events::Item;
use lin_tables::put_short_item;
use lin_texts::put_number;
use std::alloc::{AllocError, Global};

/// All enqueues that are before a place, and all dequeues that may have taken something out ahead of one, the last called first.
#[derive(Drop)]
struct Surplus {
    puts: Vec<usize>,
    takes: Vec<usize>,
}

/// The enqueues that are before the place, and the dequeues that may have taken something out ahead of the one.
fn surplus_of(
    told: &ObjectEvents,
    place: usize,
    dequeue: usize,
    alloc: Global,
) -> Result<Surplus, AllocError>
    requires { IsNextTable told.now.events.now told.now.ends.now }
    ensures { IfOk result (λ surplus. IsSurplus told.now.events.now place dequeue surplus.puts.items surplus.takes.items) }
{
    let some = Answers::Called(Calls::AddsSome);
    let put = Group::Such(Which::ReturnedBefore(some, place));
    let taken = Group::Such(Which::TakesAhead(dequeue));
    let puts = last_first(told, &put, alloc)?;
    let takes = last_first(told, &taken, alloc)?;
    Ok(Surplus { puts, takes })
}

/// Puts last how many items there were.
fn put_items(text: &mut Vec<u8>, count: usize) -> Result<(), AllocError>
    ensures { OnOk result (text.new.items ≡ text.old.items ++ items_text count) }
{
    put_number(text, count as u64)?;
    if count == 1 {
        text.extend_from_slice(b" item was")
    } else {
        text.extend_from_slice(b" items were")
    }
}

/// Puts last how many items these operations put in.
fn put_items_of(text: &mut Vec<u8>, list: &[usize]) -> Result<(), AllocError>
    ensures { OnOk result (text.new.items ≡ text.old.items ++ items_text (length list.now)) }
{
    put_items(text, list.len())
}

/// Puts last how many of these there are.
fn put_count_of(text: &mut Vec<u8>, list: &[usize]) -> Result<(), AllocError>
    ensures { OnOk result (text.new.items ≡ text.old.items ++ decimal (length list.now)) }
{
    put_number(text, list.len() as u64)
}

/// Begins a line on how many items were put in before the operation at the place was called, and how many can have been taken out.
fn put_surplus_why(
    text: &mut Vec<u8>,
    told: &ObjectEvents,
    place: usize,
    surplus: &Surplus,
) -> Result<(), AllocError>
    ensures { OnOk result (text.new.items ≡ text.old.items ++ surplus_why told.now place surplus.now.puts.items surplus.now.takes.items) }
{
    text.extend_from_slice(b"why: ")?;
    put_items_of(text, surplus.puts.as_slice())?;
    text.extend_from_slice(b" put in before ")?;
    put_called(text, told, place)?;
    text.extend_from_slice(b", and at most ")?;
    put_count_of(text, surplus.takes.as_slice())?;
    text.extend_from_slice(b" can have been taken out before ")?;
    Ok(())
}

/// Puts a line last of the last enqueues, and one of the last dequeues.
fn put_surplus(text: &mut Vec<u8>, told: &ObjectEvents, surplus: &Surplus) -> Result<(), AllocError>
    ensures { OnOk result (text.new.items ≡ text.old.items ++ surplus_text told.now surplus.now.puts.items surplus.now.takes.items) }
{
    put_facts(text, told, Verb::Returned, surplus.puts.as_slice())?;
    put_facts(text, told, Verb::Called, surplus.takes.as_slice())
}

/// Names the last enqueues and the last dequeues.
fn name_surplus(named: &mut Vec<usize>, surplus: &Surplus) -> Result<(), AllocError>
    ensures { OnOk result (named.new.items ≡ named.old.items ++ named_surplus surplus.now.puts.items surplus.now.takes.items) }
{
    named.extend_from_slice(firsts_of(surplus.puts.as_slice(), FIRSTS))?;
    named.extend_from_slice(firsts_of(surplus.takes.as_slice(), FIRSTS))
}

/// Puts the lines last of a dequeue that found nothing.
fn put_remaining_lines(
    text: &mut Vec<u8>,
    told: &ObjectEvents,
    dequeue: usize,
    surplus: &Surplus,
) -> Result<(), AllocError>
    ensures { OnOk result (text.new.items ≡ text.old.items ++ remaining_text told.now dequeue surplus.now.puts.items surplus.now.takes.items) }
{
    put_surplus_why(text, told, dequeue, surplus)?;
    text.extend_from_slice(b"it returned\n")?;
    put_surplus(text, told, surplus)?;
    Ok(())
}

/// Puts the lines last of a dequeue that found nothing though items remained, and the operations that they name.
pub(crate) fn put_remaining(
    text: &mut Vec<u8>,
    named: &mut Vec<usize>,
    told: &ObjectEvents,
    dequeue: usize,
    alloc: Global,
) -> Result<(), AllocError>
    requires { IsNextTable told.now.events.now told.now.ends.now }
    ensures { OnOk result (ArePut (IsRemainingTold told.now dequeue) text.old.items text.new.items named.old.items named.new.items) }
{
    let surplus = surplus_of(told, dequeue, dequeue, alloc)?;
    put_remaining_lines(text, told, dequeue, &surplus)?;
    named.push(dequeue)?;
    name_surplus(named, &surplus)?;
    Ok(())
}

/// Puts a line last on how often the item was put in earlier, and taken out.
fn put_earlier_line(
    text: &mut Vec<u8>,
    told: &ObjectEvents,
    dequeue: usize,
    item: Item,
    early: &[usize],
    outs: &[usize],
) -> Result<(), AllocError>
    ensures { OnOk result (text.new.items ≡ text.old.items ++ earlier_line told.now dequeue item early.now outs.now) }
{
    text.extend_from_slice(b"  ")?;
    put_short_item(text, told.names, item)?;
    text.extend_from_slice(b" was put in at most ")?;
    put_how_often(text, early)?;
    text.extend_from_slice(b" before that, and taken out ")?;
    put_how_often(text, outs)?;
    text.extend_from_slice(b" before ")?;
    put_called(text, told, dequeue)?;
    text.push(b'\n')?;
    Ok(())
}

/// Puts such a line last if the item may have been put in earlier.
fn put_earlier(
    text: &mut Vec<u8>,
    told: &ObjectEvents,
    dequeue: usize,
    item: Item,
    early: &[usize],
    outs: &[usize],
) -> Result<(), AllocError>
    ensures { OnOk result (text.new.items ≡ text.old.items ++ earlier_text told.now dequeue item early.now outs.now) }
{
    if early.len() == 0 {
        return Ok(());
    }
    put_earlier_line(text, told, dequeue, item, early, outs)
}

/// Puts a line last of a dequeue that took the item, which was put in at the one place or behind.
fn put_preceded_why(
    text: &mut Vec<u8>,
    told: &ObjectEvents,
    operations: (usize, usize),
    item: Item,
    surplus: &Surplus,
) -> Result<(), AllocError>
    ensures { OnOk result (text.new.items ≡ text.old.items ++ preceded_why told.now operations.0 operations.1 item surplus.now.puts.items surplus.now.takes.items) }
{
    put_surplus_why(text, told, operations.0, surplus)?;
    put_short_item(text, told.names, item)?;
    text.extend_from_slice(b" was: ")?;
    put_returned(text, told, operations.1)?;
    text.push(b'\n')?;
    Ok(())
}

/// Puts the lines last of a dequeue that took the item, ahead of which too many were put in.
fn put_preceded_lines(
    text: &mut Vec<u8>,
    told: &ObjectEvents,
    operations: (usize, usize),
    item: Item,
    surplus: &Surplus,
    early: &[usize],
    outs: &[usize],
) -> Result<(), AllocError>
    ensures { OnOk result (text.new.items ≡ text.old.items ++ preceded_text told.now operations.0 operations.1 item surplus.now.puts.items surplus.now.takes.items early.now outs.now) }
{
    put_preceded_why(text, told, operations, item, surplus)?;
    put_earlier(text, told, operations.1, item, early, outs)?;
    put_surplus(text, told, surplus)?;
    Ok(())
}

/// Puts the lines last of a dequeue that took the item, ahead of which too many were put in, and the operations that they name. The operations are
/// the enqueue from which on the item was put in, and the dequeue.
pub(crate) fn put_preceded(
    text: &mut Vec<u8>,
    named: &mut Vec<usize>,
    told: &ObjectEvents,
    operations: (usize, usize),
    item: Item,
    alloc: Global,
) -> Result<(), AllocError>
    requires { IsNextTable told.now.events.now told.now.ends.now }
    ensures { OnOk result (ArePut (IsPrecededTold told.now operations.0 operations.1 item) text.old.items text.new.items named.old.items named.new.items) }
{
    let (later, dequeue) = operations;
    let surplus = surplus_of(told, later, dequeue, alloc)?;
    let added = Group::Such(Which::CountsBelow(Calls::Adds(item), later));
    let took = Group::Such(Which::ReturnedBefore(Answers::Takes(item), dequeue));
    let early = all_of(told, &added, alloc)?;
    let outs = all_of(told, &took, alloc)?;
    let before = early.as_slice();
    let taken = outs.as_slice();
    put_preceded_lines(text, told, operations, item, &surplus, before, taken)?;
    name_pair(named, operations)?;
    name_surplus(named, &surplus)?;
    Ok(())
}
