//! What the operations of a queue are known to have done, and what they may have.
ghost use Rattle.std.specs.Prelude.{◌≡◌, ◌<◌, IfSome, IsTrue, MatchOption, false, length, ℕ};
ghost use Rattle.lin_events.specs.declared.items.Item.{Item as ItemOf};
ghost use Rattle.lin_events.specs.declared.calls.Reply.{Reply as ReplyOf};
ghost use Rattle.lin_events.specs.declared.calls.Call.TheVariants.{Dequeue, Enqueue};
ghost use Rattle.lin_events.specs.declared.calls.Reply.TheVariants.{Value};
ghost use Rattle.lin_events.specs.declared.calls.Val.TheVariants.{Nil, Item as Held};
ghost use Rattle.lin_events.specs.Operations.{IsOk};
ghost use Rattle.lin_order.specs.Orders.{IsCall};
ghost use Rattle.lin_order.specs.Tables.{IsNextTable};
ghost use Rattle.lin_queues.specs.Ranks.{HasTakenItem, IsEnqueue, MayPut, MayPutItem, MayTake};

use lin_events::{Call, Event, Item, Reply, Val};
use lin_order::{call_at, is_failed, ok_end};

/// The item of the operation at the place, if it is an enqueue.
fn item_of_enqueue(events: &[Event], at: usize) -> Option<Item>
    ensures { MatchOption result ((item : ItemOf) → IsCall events.now at (Enqueue item) → ⊥) (λ item. IsCall events.now at (Enqueue item)) }
{
    match call_at(events, at) {
        Some(Call::Enqueue(item)) => Some(*item),
        _ => None,
    }
}

/// Whether the operation at the place is a dequeue.
fn is_dequeue(events: &[Event], at: usize) -> bool
    ensures is { IsTrue result → IsCall events.now at Dequeue }
    ensures all { IsCall events.now at Dequeue → IsTrue result }
{
    matches!(call_at(events, at), Some(Call::Dequeue))
}

/// Whether the operation at the place is an enqueue that may put its item in.
pub fn may_put(events: &[Event], ends: &[Option<usize>], at: usize) -> bool
    requires table { IsNextTable events.now ends.now }
    requires within { at < length events.now }
    ensures { result ≡ false → MayPut events.now at → ⊥ }
{
    match item_of_enqueue(events, at) {
        Some(_) => !is_failed(events, ends, at),
        None => false,
    }
}

/// Whether the operation at the place is an enqueue that may put this item in.
pub fn may_put_item(events: &[Event], ends: &[Option<usize>], at: usize, item: Item) -> bool
    requires table { IsNextTable events.now ends.now }
    requires within { at < length events.now }
    ensures { result ≡ false → MayPutItem events.now item at → ⊥ }
{
    match item_of_enqueue(events, at) {
        Some(other) => other == item && !is_failed(events, ends, at),
        None => false,
    }
}

/// Where the operation at the place is known to be ok, if it is an enqueue.
pub fn put_end(events: &[Event], ends: &[Option<usize>], at: usize) -> Option<usize>
    requires table { IsNextTable events.now ends.now }
    requires within { at < length events.now }
    ensures { IfSome result (λ end. IsEnqueue events.now at × ((reply : ReplyOf) × IsOk events.now at end reply)) }
{
    let Some(_) = item_of_enqueue(events, at) else {
        return None;
    };
    match ok_end(events, ends, at) {
        Some((end, _)) => Some(end),
        None => None,
    }
}

/// Where the operation at the place is known to be ok, and the item that it took out, if it is a dequeue that did.
pub fn take_end(events: &[Event], ends: &[Option<usize>], at: usize) -> Option<(usize, Item)>
    requires table { IsNextTable events.now ends.now }
    requires within { at < length events.now }
    ensures { IfSome result (λ found. IsCall events.now at Dequeue × IsOk events.now at found.0 (Value (Held found.1))) }
{
    if !is_dequeue(events, at) {
        return None;
    }
    match ok_end(events, ends, at) {
        Some((end, Reply::Value(Val::Item(item)))) => Some((end, *item)),
        _ => None,
    }
}

/// Whether the operation at the place is a dequeue that is known to have taken this item out.
pub fn has_taken_item(events: &[Event], ends: &[Option<usize>], at: usize, item: Item) -> bool
    requires table { IsNextTable events.now ends.now }
    requires within { at < length events.now }
    ensures { IsTrue result → HasTakenItem events.now item at }
{
    match take_end(events, ends, at) {
        Some((_, taken)) => taken == item,
        None => false,
    }
}

/// Whether the dequeue at the place is known to have found nothing.
fn found_nothing(events: &[Event], ends: &[Option<usize>], at: usize) -> bool
    requires table { IsNextTable events.now ends.now }
    requires within { at < length events.now }
    ensures { IsTrue result → (end : ℕ) × IsOk events.now at end (Value Nil) }
{
    matches!(ok_end(events, ends, at), Some((_, Reply::Value(Val::Nil))))
}

/// Whether the operation at the place is a dequeue that may take something out.
pub fn may_take(events: &[Event], ends: &[Option<usize>], at: usize) -> bool
    requires table { IsNextTable events.now ends.now }
    requires within { at < length events.now }
    ensures { result ≡ false → MayTake events.now at → ⊥ }
{
    if !is_dequeue(events, at) || is_failed(events, ends, at) {
        return false;
    }
    !found_nothing(events, ends, at)
}
