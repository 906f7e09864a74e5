//! The events of one object.
ghost use Rattle.std.specs.Prelude.{◌≡◌, ◌≤◌, ◌+◌, ◌*◌, ◌∷◌, ◌++◌, [], IfOk, OnOk, length, take};
ghost use Rattle.lin_events.specs.Items.{item_eq};
ghost use Rattle.lin_events.specs.Meters.{ticked};
ghost use Rattle.lin_order.specs.Parts.{ArePositionsOf, part};
ghost use Rattle.lin_explain.specs.inner.Own.{IsOwn};

use crate::passes::{tick_passes, tick_steps};
use lin_answers::{Present, WholeHistory};
use lin_events::{Event, Item, Meter, OutOfMemory};
use lin_order::parts_grow;
use std::alloc::Global;

/// The events of an object among the first so many of a history, and their positions in it.
#[derive(Drop)]
pub(crate) struct Own {
    pub(crate) events: Vec<Event>,
    pub(crate) picks: Vec<usize>,
}

/// Takes in one more event of the object, and where it stands.
fn take_in(alloc: Global, own: &mut Own, event: &Event, at: usize) -> Result<(), OutOfMemory>
    ensures { OnOk result ((own.new.events.items ≡ own.old.events.items ++ event.now ∷ []) × (own.new.picks.items ≡ own.old.picks.items ++ at ∷ [])) }
{
    own.events.push(event.copy(alloc)?)?;
    own.picks.push(at)?;
    Ok(())
}

/// Whether two events are of one object.
fn is_beside(event: &Event, other: &Event) -> bool
    ensures { result ≡ item_eq event.now.key other.now.key }
{
    event.key == other.key
}

/// The events of the object of an event among the first so many of the history: one pass through these.
pub(crate) fn own_of(
    alloc: Global,
    present: &Present<'_>,
    of: &Event,
    count: usize,
    meter: &mut Meter,
) -> Result<Own, OutOfMemory>
    requires within { count ≤ length present.now.history }
    ensures own { IfOk result (IsOwn of.now.key (take count present.now.history)) }
    ensures few { IfOk result (λ own. length own.events.items ≤ count) }
    ensures counted { meter.new ≡ record meter.old { steps = ticked meter.old.steps count } }
    ensures least { meter.old.steps ≤ meter.new.steps }
    ensures most { meter.new.steps ≤ meter.old.steps + count }
{
    tick_steps(meter, count);
    parts_grow();
    let mut own = Own {
        events: Vec::new(alloc),
        picks: Vec::new(alloc),
    };
    for at in 0..count {
        let Some(event) = present.event(at) else {
            unreachable!()
        };
        if is_beside(event, of) {
            take_in(alloc, &mut own, event, at)?;
        }
    }
    Ok(own)
}

/// Whether the event is of the key.
fn is_of(event: &Event, key: Item) -> bool
    ensures { result ≡ item_eq event.now.key key }
{
    event.key == key
}

/// Where the events of the key stand among the first so many of the history.
fn picks_of(
    alloc: Global,
    present: &Present<'_>,
    key: Item,
    count: usize,
) -> Result<Vec<usize>, OutOfMemory>
    requires within { count ≤ length present.now.history }
    ensures { IfOk result (λ picks. ArePositionsOf key (take count present.now.history) picks.items) }
{
    parts_grow();
    let mut picks = Vec::new(alloc);
    for at in 0..count {
        let Some(event) = present.event(at) else {
            unreachable!()
        };
        if is_of(event, key) {
            picks.push(at)?;
        }
    }
    Ok(picks)
}

/// Keeps the events of the key.
fn keep_own(events: &mut Vec<Event>, key: Item)
    ensures { events.new.items ≡ part key events.old.items }
{
    events.retain(|event| event.key == key);
}

/// The events of the key among the first so many of the history, on the memory of the whole, of which the rest goes: a pass through these for
/// where they stand, and one that keeps them.
pub(crate) fn own_from(
    alloc: Global,
    history: WholeHistory,
    key: Item,
    count: usize,
    meter: &mut Meter,
) -> Result<Own, OutOfMemory>
    requires within { count ≤ length history.history }
    ensures own { IfOk result (IsOwn key (take count history.history)) }
    ensures few { IfOk result (λ own. length own.events.items ≤ count) }
    ensures counted { meter.new ≡ record meter.old { steps = ticked meter.old.steps (2 * count) } }
    ensures least { meter.old.steps ≤ meter.new.steps }
    ensures most { meter.new.steps ≤ meter.old.steps + 2 * count }
{
    tick_passes(meter, 2, count);
    let picks = picks_of(alloc, &history.present(), key, count)?;
    let mut events = history.into_events();
    events.truncate(count);
    keep_own(&mut events, key);
    Ok(Own { events, picks })
}
