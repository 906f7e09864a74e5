//! The conditions on an order that need no state of an object.
ghost use Rattle.std.specs.Prelude.{◌≡◌, ◌<◌, ◌↔◌, ℕ, length, true, false, slice_index_or, IsTrue};
ghost use Rattle.lin_events.specs.declared.calls.Call.{Call as CallOf};
ghost use Rattle.lin_events.specs.declared.calls.Reply.{Reply as ReplyOf};
ghost use Rattle.lin_events.specs.Operations.{IsOk};
ghost use Rattle.lin_order.specs.Orders.{IsBefore};
ghost use Rattle.lin_order.specs.Tables.{IsNextTable, KeepsOutcome, MarksEachOk};

use crate::operations::{is_failed, ok_end};
use crate::placed::Placed;
use lin_events::Event;

/// Whether the operation did not fail and, where it is ok, has its recorded reply.
fn keeps_outcome(events: &[Event], ends: &[Option<usize>], placed: &Placed) -> bool
    requires table { IsNextTable events.now ends.now }
    requires within { placed.now.at < length events.now }
    ensures { IsTrue result ↔ KeepsOutcome events.now placed.now }
{
    if is_failed(events, ends, placed.at) {
        return false;
    }
    match ok_end(events, ends, placed.at) {
        Some((_, reply)) => placed.reply == *reply,
        None => true,
    }
}

/// Whether the operation is marked if it is ok.
fn is_kept(events: &[Event], ends: &[Option<usize>], at: usize, marked: bool) -> bool
    requires table { IsNextTable events.now ends.now }
    requires within { at < length events.now }
    ensures { IsTrue result ↔ ((end : ℕ) (reply : ReplyOf) → IsOk events.now at end reply → marked ≡ true) }
{
    if marked {
        return true;
    }
    match ok_end(events, ends, at) {
        Some(_) => false,
        None => true,
    }
}

/// Whether each ok operation is marked.
pub fn marks_each_ok(events: &[Event], ends: &[Option<usize>], marks: &[bool]) -> bool
    requires table { IsNextTable events.now ends.now }
    requires each { length marks.now ≡ length events.now }
    ensures { IsTrue result ↔ MarksEachOk events.now marks.now }
{
    for (at, marked) in marks.iter().enumerate() {
        if !is_kept(events, ends, at, *marked) {
            return false;
        }
    }
    true
}

/// Whether the one operation was known to be ok ahead of the other position.
fn is_before(events: &[Event], ends: &[Option<usize>], earlier: usize, later: usize) -> bool
    requires table { IsNextTable events.now ends.now }
    requires within { earlier < length events.now }
    ensures { IsTrue result ↔ IsBefore events.now earlier later }
{
    match ok_end(events, ends, earlier) {
        Some((end, _)) => end < later,
        None => false,
    }
}

/// Whether the operation may stand next in an order whose operations so far are marked, with none of them at a later position than `latest`.
///
/// It may where it isn't marked, keeps its outcome, and was not known to be ok ahead of the latest of them, and so of any of them.
pub fn fits_next(
    events: &[Event],
    ends: &[Option<usize>],
    marks: &[bool],
    latest: usize,
    placed: &Placed,
) -> bool
    requires table { IsNextTable events.now ends.now }
    requires each { length marks.now ≡ length events.now }
    ensures { IsTrue result ↔ ((placed.now.at < length events.now) × (slice_index_or marks.now placed.now.at false ≡ false)
        × KeepsOutcome events.now placed.now × (IsBefore events.now placed.now.at latest → ⊥)) }
{
    if placed.at >= marks.len() || marks[placed.at] {
        return false;
    }
    keeps_outcome(events, ends, placed) && !is_before(events, ends, placed.at, latest)
}
