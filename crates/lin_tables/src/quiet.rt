//! Since when nothing ran that was invoked before.
ghost use Rattle.std.specs.Prelude.{◌↔◌, ◌≡◌, ◌<◌, ◌≤◌, ℕ, length, max, IsTrue, MatchOption};
ghost use Rattle.lin_order.specs.Tables.{IsNextTable};
ghost use Rattle.lin_tables.specs.WindowOperations.{HasEnded, IsInvoked, IsLastQuiet, IsQuietAt};

use crate::failing_operations::{ending_of, is_invoked};
use lin_events::Event;

/// The first place by which the operation at the place has ended, the end of the events if it has no end, and 0 where none begins.
fn busy_until(events: &[Event], ends: &[Option<usize>], at: usize) -> usize
    requires { IsNextTable events.now ends.now }
    ensures { (place : ℕ) → place < length events.now → (IsInvoked events.now at → HasEnded events.now at place) ↔ (result ≤ place) }
{
    let count = events.len();
    if !is_invoked(events, at) {
        return 0;
    }
    match ending_of(events, ends, at) {
        Some((end, _)) => end + 1,
        None => count,
    }
}

/// The later place.
fn later(place: usize, other: usize) -> usize
    ensures { result ≡ max place other }
{
    if place < other {
        return other;
    }
    place
}

/// Whether an operation begins at the place, not after `call`, where all from before have ended by `busy`.
fn begins_quietly(events: &[Event], call: usize, busy: usize, at: usize) -> bool
    ensures { IsTrue result ↔ ((at ≤ call) × (busy ≤ at) × IsInvoked events.now at) }
{
    at <= call && busy <= at && is_invoked(events, at)
}

/// The last quiet place up to `call`, if there is one.
fn last_quiet(events: &[Event], ends: &[Option<usize>], call: usize) -> Option<usize>
    requires { IsNextTable events.now ends.now }
    ensures { MatchOption result ((place : ℕ) → place ≤ call → IsQuietAt events.now place → ⊥) (λ from. IsLastQuiet events.now call from) }
{
    let mut quiet = None;
    let mut busy = 0;
    for at in 0..events.len() {
        if begins_quietly(events, call, busy, at) {
            quiet = Some(at);
        }
        busy = later(busy, busy_until(events, ends, at));
    }
    quiet
}

/// The last quiet place that isn't after the operation: since then alone something of what ran beside it can have begun.
pub fn quiet_before(events: &[Event], ends: &[Option<usize>], call: usize) -> usize
    requires table { IsNextTable events.now ends.now }
    requires begins { IsInvoked events.now call }
    ensures { IsLastQuiet events.now call result }
{
    let Some(from) = last_quiet(events, ends, call) else {
        unreachable!();
    };
    from
}
