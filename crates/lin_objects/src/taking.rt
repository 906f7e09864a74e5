//! The steps of unordered queues.
ghost use Rattle.std.specs.Prelude.{◌≡◌, ◌<◌, [], IfNone, IfOk, IfSome, OnOk, length};
ghost use Rattle.lin_events.specs.declared.calls.Call.TheVariants.{Dequeue};
ghost use Rattle.lin_events.specs.declared.calls.Reply.TheVariants as Replied;
ghost use Rattle.lin_objects.specs.inner.OnlySteps.{AreAllSteps};
ghost use Rattle.lin_objects.specs.Steps.{Step};
ghost use Rattle.lin_objects.specs.declared.kinds.Kind.TheVariants.{Bag as BagKind};
ghost use Rattle.lin_objects.specs.declared.states.State.{State as StateOf};
ghost use Rattle.lin_objects.specs.declared.states.State.TheVariants.{Bag as Bagged};

use crate::bags::{IntBag, is_first, place_of};
use crate::states::State;
use lin_events::{Call, OutOfMemory, Reply, Val};
use std::alloc::Global;

/// Leaves in `out` what comes of taking each different item out, which a dequeue may do where there is one.
fn taken_out(alloc: Global, bag: &IntBag, out: &mut Vec<(State, Reply)>) -> Result<(), OutOfMemory>
    requires empty { out.old.items ≡ [] }
    requires some { 0 < length bag.now }
    ensures { OnOk result (AreAllSteps BagKind (Bagged bag.now) Dequeue out.new.items) }
{
    for at in 0..bag.as_slice().len() {
        if is_first(bag.as_slice(), at) {
            let reply = Reply::Value(Val::Item(bag.as_slice()[at]));
            out.push((State::Bag(bag.without(alloc, at)?), reply))?;
        }
    }
    Ok(())
}

/// Leaves in `out` each step that an unordered queue may take on the call.
pub(crate) fn bag_outcomes(
    alloc: Global,
    state: &State,
    call: &Call,
    out: &mut Vec<(State, Reply)>,
) -> Result<(), OutOfMemory>
    requires { out.old.items ≡ [] }
    ensures { OnOk result (AreAllSteps BagKind state.now call.now out.new.items) }
{
    match (state, call) {
        (State::Bag(bag), Call::Enqueue(item)) => {
            let mut next = bag.copy()?;
            next.insert(*item)?;
            out.push((State::Bag(next), Reply::Done))?;
            Ok(())
        }
        (State::Bag(bag), Call::Dequeue) => {
            if bag.as_slice().is_empty() {
                out.push((State::Bag(IntBag::new(alloc)), Reply::Value(Val::Nil)))?;
                return Ok(());
            }
            taken_out(alloc, bag, out)
        }
        _ => Ok(()),
    }
}

/// The bag that a dequeue with this reply leaves, if it may have it.
fn left(alloc: Global, bag: IntBag, value: &Val) -> Result<Option<State>, OutOfMemory>
    ensures some { IfOk result (λ found. IfSome found (λ next. Step BagKind (Bagged bag) Dequeue next (Replied.Value value.now))) }
    ensures none { IfOk result (λ found. IfNone found ((next : StateOf) → Step BagKind (Bagged bag) Dequeue next (Replied.Value value.now) → ⊥)) }
{
    match value {
        Val::Nil => {
            if bag.as_slice().is_empty() {
                Ok(Some(State::Bag(bag)))
            } else {
                Ok(None)
            }
        }
        Val::Item(item) => match place_of(bag.as_slice(), *item) {
            Some(at) => Ok(Some(State::Bag(bag.without(alloc, at)?))),
            None => Ok(None),
        },
    }
}

/// The state that an unordered queue goes to when the call gets this reply, if it may.
pub(crate) fn bag_next(
    alloc: Global,
    state: State,
    call: &Call,
    reply: &Reply,
) -> Result<Option<State>, OutOfMemory>
    ensures some { IfOk result (λ found. IfSome found (λ next. Step BagKind state call.now next reply.now)) }
    ensures none { IfOk result (λ found. IfNone found ((next : StateOf) → Step BagKind state call.now next reply.now → ⊥)) }
{
    match (state, call, reply) {
        (State::Bag(mut bag), Call::Enqueue(item), Reply::Done) => {
            bag.insert(*item)?;
            Ok(Some(State::Bag(bag)))
        }
        (State::Bag(bag), Call::Dequeue, Reply::Value(value)) => left(alloc, bag, value),
        _ => Ok(None),
    }
}
