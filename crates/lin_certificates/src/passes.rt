//! Passes over the operations of a history.
ghost use Rattle.std.specs.Prelude.{◌↔◌, ℕ, IsTrue, MatchOption};
ghost use Rattle.lin_order.specs.Orders.{IsBefore};
ghost use Rattle.lin_order.specs.Tables.{IsNextTable};
ghost use Rattle.lin_certificates.specs.Words.{Concerns, Exactly, IsLastOf, IsOfWhich};

use crate::operations::{comes_before, concerns, is_of_which};
use crate::words::Which;
use lin_events::{Event, Item};

/// The last of these operations, if there is one.
pub fn last_of(events: &[Event], ends: &[Option<usize>], which: &Which) -> Option<usize>
    requires { IsNextTable events.now ends.now }
    ensures { MatchOption result ((at : ℕ) → IsOfWhich events.now which.now at → ⊥) (λ last. IsLastOf (IsOfWhich events.now which.now) last) }
{
    let mut last = None;
    for at in 0..events.len() {
        if is_of_which(events, ends, at, which) {
            last = Some(at);
        }
    }
    last
}

/// Whether there is one of these operations.
pub fn is_any(events: &[Event], ends: &[Option<usize>], which: &Which) -> bool
    requires { IsNextTable events.now ends.now }
    ensures { IsTrue result ↔ ((at : ℕ) × IsOfWhich events.now which.now at) }
{
    match last_of(events, ends, which) {
        Some(_) => true,
        None => false,
    }
}

/// How many of these operations there are.
pub fn count_of(events: &[Event], ends: &[Option<usize>], which: &Which) -> usize
    requires { IsNextTable events.now ends.now }
    ensures { Exactly result (IsOfWhich events.now which.now) }
{
    let mut count = 0;
    for at in 0..events.len() {
        if is_of_which(events, ends, at, which) {
            count += 1;
        }
    }
    count
}

/// How many of these operations concern one of the items.
pub fn count_of_items(
    events: &[Event],
    ends: &[Option<usize>],
    which: &Which,
    items: &[Item],
) -> usize
    requires { IsNextTable events.now ends.now }
    ensures { Exactly result (λ at. IsOfWhich events.now which.now at × Concerns events.now items.now at) }
{
    let mut count = 0;
    for at in 0..events.len() {
        if is_of_which(events, ends, at, which) && concerns(events, ends, at, items) {
            count += 1;
        }
    }
    count
}

/// Whether all of these operations are before the place.
pub fn all_ahead(events: &[Event], ends: &[Option<usize>], which: &Which, place: usize) -> bool
    requires { IsNextTable events.now ends.now }
    ensures { IsTrue result ↔ ((at : ℕ) → IsOfWhich events.now which.now at → IsBefore events.now at place) }
{
    for at in 0..events.len() {
        if is_of_which(events, ends, at, which) && !comes_before(events, ends, at, place) {
            return false;
        }
    }
    true
}

/// Whether all of these operations were invoked after the operation at the place was known to be ok.
pub fn all_behind(events: &[Event], ends: &[Option<usize>], which: &Which, place: usize) -> bool
    requires { IsNextTable events.now ends.now }
    ensures { IsTrue result ↔ ((at : ℕ) → IsOfWhich events.now which.now at → IsBefore events.now place at) }
{
    for at in 0..events.len() {
        if is_of_which(events, ends, at, which) && !comes_before(events, ends, place, at) {
            return false;
        }
    }
    true
}
