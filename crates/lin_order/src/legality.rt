//! What is told of an order by going through it once: that each object runs through its part of it, and the conditions on each operation.
ghost use Rattle.std.specs.Prelude.{◌≡◌, length, false, All, IfOk, MatchBool, MatchOption};
ghost use Rattle.std.specs.HashMap.{get};
ghost use Rattle.lin_events.specs.declared.items.Item.{Item as ItemOf};
ghost use Rattle.lin_events.specs.Items.{item_eq};
ghost use Rattle.lin_objects.specs.Kinds.{kind_of};
ghost use Rattle.lin_objects.specs.Steps.{Step};
ghost use Rattle.lin_order.specs.Linearizable.{IsLegal};
ghost use Rattle.lin_order.specs.Tables.{IsMarked, IsNextTable, KeepsOutcome, KeepsRealTime, NamesOnce, NamesOperations, state_of};
ghost use Rattle.lin_order.specs.inner.Tables.{IsFound, IsRefused, IsTaken};

use crate::conditions::fits_next;
use crate::placed::Placed;
use lin_events::{Body, Call, Event, Item, OutOfMemory, Reply};
use lin_objects::{Any, Kinds, SeqObject, State, replies_decide};
use std::alloc::Global;
use std::collections::HashMap;

/// Takes the state of the key's object out, and gives the one that it goes to when the call gets this reply, if it may.
///
/// An object that isn't listed is at its start.
fn next_state(
    alloc: Global,
    kinds: &Kinds,
    states: &mut HashMap<Item, State>,
    key: Item,
    call: &Call,
    reply: &Reply,
) -> Result<Option<State>, OutOfMemory>
    ensures found { let state = state_of (kind_of kinds.now) (get item_eq states.old) key in
        IfOk result (IsFound (λ next. Step (kind_of kinds.now key) state call.now next reply.now)) }
    ensures others { (other : ItemOf) → item_eq key other ≡ false → get item_eq states.new other ≡ get item_eq states.old other }
{
    let object = Any {
        kind: kinds.of(key),
    };
    let state = match states.remove(&key) {
        Some(state) => state,
        None => object.start(alloc),
    };
    object.next(alloc, state, call, reply)
}

/// Lets the object of the invocation take the call with this reply, if it may.
fn take_step(
    alloc: Global,
    kinds: &Kinds,
    event: &Event,
    reply: &Reply,
    states: &mut HashMap<Item, State>,
) -> Result<bool, OutOfMemory>
    ensures { IfOk result (λ taken. MatchBool taken
        (IsTaken (kind_of kinds.now) (get item_eq states.old) (get item_eq states.new) event.now reply.now)
        (IsRefused (kind_of kinds.now) (get item_eq states.old) event.now reply.now)) }
{
    let Body::Invoke(call) = &event.body else {
        return Ok(false);
    };
    match next_state(alloc, kinds, states, event.key, call, reply)? {
        Some(next) => {
            states.insert(event.key, next)?;
            Ok(true)
        }
        None => Ok(false),
    }
}

/// Marks at the operations of the order, if it keeps all that can be told of it by going through it once, or nothing where it doesn't.
///
/// It keeps this where it names operations alone, none of them twice, none that failed and none before an earlier one in real time, each ok
/// one of them has its recorded reply, and each object runs through its part of it. An operation is before some earlier one exactly when it
/// is before the latest of them.
pub fn marks_of(
    alloc: Global,
    events: &[Event],
    ends: &[Option<usize>],
    kinds: &Kinds,
    order: &[Placed],
) -> Result<Option<Vec<bool>>, OutOfMemory>
    requires table { IsNextTable events.now ends.now }
    ensures { let fits = NamesOperations events.now order.now × NamesOnce order.now × All (KeepsOutcome events.now) order.now
        × KeepsRealTime events.now order.now × IsLegal (kind_of kinds.now) events.now order.now in
        IfOk result (λ found. MatchOption found (fits → ⊥) (λ marks. fits × IsMarked order.now marks.items × (length marks.items ≡ length events.now))) }
{
    replies_decide();
    let mut marks = vec![in alloc; false; events.len()]?;
    let mut states = HashMap::new(alloc);
    let mut latest = 0;
    for placed in order {
        if !fits_next(events, ends, &marks, latest, placed) {
            return Ok(None);
        }
        marks[placed.at] = true;
        latest = latest.max(placed.at);
        let taken = take_step(alloc, kinds, &events[placed.at], &placed.reply, &mut states)?;
        if !taken {
            return Ok(None);
        }
    }
    Ok(Some(marks))
}
