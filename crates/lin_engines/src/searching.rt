//! How a search says an order of a register, or of a queue, ordered or not, may go on: nothing is promised of it.
ghost use Rattle.std.specs.Prelude.{◌≡◌, ◌≤◌, ◌<◌, ◌+◌, ◌-◌, OnOk, length};
ghost use Rattle.lin_events.specs.Meters.{ticked};

use crate::retold::retold_hint;
use lin_events::{Event, Meter, OutOfMemory, Reply, Val};
use lin_frontier::{Config, Open, OpenList};
use lin_objects::State;
use lin_order::Placed;
use lin_registers::{Waiting, register_order_from};
use std::alloc::Global;

/// What may be placed next, the first one last, over the object's events from the place on: if the configuration is one of a register, of a
/// queue, ordered or not, and a search finds it. Each of these events is a step.
pub(crate) fn suggest_next(
    alloc: Global,
    config: &Config<State>,
    opened: &OpenList,
    events: &[Event],
    picks: &[usize],
    of: usize,
    meter: &mut Meter,
) -> Result<Option<Vec<Placed>>, OutOfMemory>
    requires inside { of < length picks.now }
    ensures least { meter.old.steps ≤ meter.new.steps }
    ensures steps { meter.new.steps + of ≤ meter.old.steps + length picks.now }
    ensures scans { meter.new.scans ≡ meter.old.scans }
{
    let rest = rest_of(alloc, events, picks, of, meter)?;
    match config.state() {
        State::Value(held) => register_hint(alloc, *held, config, opened, &rest, of, meter),
        State::Queue(_) | State::Bag(_) => retold_hint(alloc, config, opened, &rest, of, meter),
        State::Members(_) | State::Held(_) => Ok(None),
    }
}

/// The same of a register that holds the value. The rest of the events begins at the place.
fn register_hint(
    alloc: Global,
    held: Val,
    config: &Config<State>,
    opened: &OpenList,
    rest: &[Event],
    of: usize,
    meter: &mut Meter,
) -> Result<Option<Vec<Placed>>, OutOfMemory>
    ensures others { meter.new ≡ record meter.old { tries = meter.new.tries } }
{
    let open = waiting(alloc, config, opened)?;
    match register_order_from(alloc, held, &open, rest, meter)? {
        Some(order) => Ok(Some(reverse_to_places(alloc, order, opened, of)?)),
        None => Ok(None),
    }
}

/// The object's events from the place on, on their own memory, for a search to go through. A step is counted for each.
fn rest_of(
    alloc: Global,
    events: &[Event],
    picks: &[usize],
    of: usize,
    meter: &mut Meter,
) -> Result<Vec<Event>, OutOfMemory>
    requires inside { of < length picks.now }
    ensures counted { OnOk result (meter.new.steps ≡ ticked meter.old.steps (length picks.now - of)) }
    ensures least { meter.old.steps ≤ meter.new.steps }
    ensures steps { meter.new.steps + of ≤ meter.old.steps + length picks.now }
    ensures scans { meter.new.scans ≡ meter.old.scans }
{
    let mut rest = Vec::with_capacity(alloc, picks.len() - of)?;
    for at in of..picks.len() {
        tick(meter);
        append_at(alloc, &mut rest, events, picks[at])?;
    }
    Ok(rest)
}

/// Puts a copy of the event at the place last, if there is one.
fn append_at(
    alloc: Global,
    rest: &mut Vec<Event>,
    events: &[Event],
    at: usize,
) -> Result<(), OutOfMemory> {
    if let Some(event) = events.get(at) {
        rest.push(event.copy(alloc)?)?;
    }
    Ok(())
}

/// The open operations, with the replies of those that are placed.
fn waiting(
    alloc: Global,
    config: &Config<State>,
    opened: &OpenList,
) -> Result<Vec<Waiting>, OutOfMemory> {
    let mut all = Vec::with_capacity(alloc, opened.len())?;
    append_waiting(alloc, &mut all, config, opened.as_slice())?;
    Ok(all)
}

/// Puts the open operations last.
fn append_waiting(
    alloc: Global,
    all: &mut Vec<Waiting>,
    config: &Config<State>,
    operations: &[Open],
) -> Result<(), OutOfMemory> {
    for operation in operations {
        all.push(Waiting {
            process: operation.process,
            call: operation.call,
            reply: reply_of(alloc, config.placed(), operation.process)?,
        })?;
    }
    Ok(())
}

/// The reply with which the operation of the process is placed, if it is.
fn reply_of(
    alloc: Global,
    placed: &[(u64, Reply)],
    process: u64,
) -> Result<Option<Reply>, OutOfMemory> {
    for pair in placed {
        if pair.0 == process {
            return Ok(Some(pair.1.copy(alloc)?));
        }
    }
    Ok(None)
}

/// The same operations by their places among the object's events, the first one last. A search names open ones by their numbers, and those
/// of the rest of the events by numbers behind these.
fn reverse_to_places(
    alloc: Global,
    order: Vec<Placed>,
    opened: &OpenList,
    of: usize,
) -> Result<Vec<Placed>, OutOfMemory> {
    let mut order = order;
    let mut hint = Vec::with_capacity(alloc, order.len())?;
    while let Some(placed) = order.pop() {
        hint.push(Placed {
            at: place_of(opened, of, placed.at),
            reply: placed.reply,
        })?;
    }
    Ok(hint)
}

/// Where the operation with the number was invoked.
fn place_of(opened: &OpenList, of: usize, number: usize) -> usize {
    match opened.get(number) {
        Some(operation) => operation.at,
        None => of.saturating_add(number.saturating_sub(opened.len())),
    }
}

/// One event more is gone through.
pub(crate) fn tick(meter: &mut Meter)
    ensures counted { meter.new ≡ record meter.old { steps = ticked meter.old.steps 1 } }
    ensures least { meter.old.steps ≤ meter.new.steps }
{
    let before = meter.steps();
    meter.tick_step();
    prove!(before <= meter.steps());
}
