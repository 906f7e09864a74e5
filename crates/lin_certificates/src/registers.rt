//! Certificates of registers.
ghost use Rattle.std.specs.Prelude.{◌↔◌, ◌≡◌, IsTrue};
ghost use Rattle.lin_events.specs.declared.calls.Val.{Val as ValOf};
ghost use Rattle.lin_order.specs.Tables.{IsNextTable};
ghost use Rattle.lin_certificates.specs.Certificates.{AreCrossed, HasSource, IsAhead, IsLeftAhead, IsLeftOnce, IsOverwritten, IsSpent, IsStale, IsUnwritten, Touches, begun as begun_with};

use crate::operations::{comes_before, is_among};
use crate::passes::{all_ahead, count_of, is_any, last_of};
use crate::words::{Answers, Calls, Which};
use lin_events::{Event, Item, Val};

/// Whether the operation needs the item, and no other one that isn't failed leaves it.
pub fn is_unwritten(events: &[Event], ends: &[Option<usize>], operation: usize, item: Item) -> bool
    requires { IsNextTable events.now ends.now }
    ensures { IsTrue result ↔ IsUnwritten events.now operation item }
{
    let value = Val::Item(item);
    let needed = Which::Returned(Answers::Needs(value));
    let others = Which::CountsBut(Calls::Leaves(value), operation);
    let needs = is_among(events, ends, operation, &needed);
    let left = is_any(events, ends, &others);
    needs & !left
}

/// Whether another operation leaves the value, or, if it is nil, some value was left before the operation.
fn has_source(events: &[Event], ends: &[Option<usize>], operation: usize, value: Val) -> bool
    requires { IsNextTable events.now ends.now }
    ensures { IsTrue result ↔ HasSource events.now operation value }
{
    let which = match value {
        Val::Nil => Which::ReturnedBefore(Answers::Called(Calls::Updates), operation),
        Val::Item(_) => Which::CountsBut(Calls::Leaves(value), operation),
    };
    is_any(events, ends, &which)
}

/// Whether the operation needs the value, and each other one that leaves it is before one that leaves some value and is before the operation.
/// Of the latter the one that was invoked last will do.
pub fn is_overwritten(
    events: &[Event],
    ends: &[Option<usize>],
    operation: usize,
    value: Val,
) -> bool
    requires { IsNextTable events.now ends.now }
    ensures { IsTrue result ↔ IsOverwritten events.now operation value }
{
    let updates = Which::ReturnedBefore(Answers::Called(Calls::Updates), operation);
    let Some(over) = last_of(events, ends, &updates) else {
        return false;
    };
    let needed = Which::Returned(Answers::Needs(value));
    let others = Which::CountsBut(Calls::Leaves(value), operation);
    let needs = is_among(events, ends, operation, &needed);
    let source = has_source(events, ends, operation, value);
    let each = all_ahead(events, ends, &others, over);
    needs & source & each
}

/// Whether the operation needs the value, though another one touches another value and is before it, and behind each other one that leaves the value.
/// The pairs are the operation with the value, and the other one with what it touches.
pub fn is_stale(
    events: &[Event],
    ends: &[Option<usize>],
    needed: (usize, Val),
    shown: (usize, Val),
) -> bool
    requires { IsNextTable events.now ends.now }
    ensures { IsTrue result ↔ IsStale events.now needed.0 needed.1 shown.0 shown.1 }
{
    let (operation, value) = needed;
    let (over, held) = shown;
    let needing = Which::Returned(Answers::Needs(value));
    let touching = Which::Returned(Answers::Touches(held));
    let others = Which::CountsBut(Calls::Leaves(value), operation);
    let same = value == held;
    let needs = is_among(events, ends, operation, &needing);
    let touches = is_among(events, ends, over, &touching);
    let before = comes_before(events, ends, over, operation);
    let ahead = all_ahead(events, ends, &others, over);
    !same & needs & touches & before & ahead
}

/// Whether one operation that isn't failed leaves the value.
fn is_left_once(events: &[Event], ends: &[Option<usize>], value: Val) -> bool
    requires { IsNextTable events.now ends.now }
    ensures { IsTrue result ↔ IsLeftOnce events.now value }
{
    count_of(events, ends, &Which::Counts(Calls::Leaves(value))) == 1
}

/// Whether the operation touches the value: an ok one does, or one that leaves it, where an ok one does.
fn touches(events: &[Event], ends: &[Option<usize>], operation: usize, value: Val) -> bool
    requires { IsNextTable events.now ends.now }
    ensures { IsTrue result ↔ Touches events.now value operation }
{
    let touching = Which::Returned(Answers::Touches(value));
    let leaving = Which::Counts(Calls::Leaves(value));
    is_among(events, ends, operation, &touching)
        || (is_among(events, ends, operation, &leaving) && is_any(events, ends, &touching))
}

/// Whether one operation leaves the value, and two touch it and the other one, the first before the second.
fn is_left_ahead(
    events: &[Event],
    ends: &[Option<usize>],
    value: Val,
    other: Val,
    pair: (usize, usize),
) -> bool
    requires { IsNextTable events.now ends.now }
    ensures { IsTrue result ↔ IsLeftAhead events.now value other pair.0 pair.1 }
{
    let (first, second) = pair;
    let once = is_left_once(events, ends, value);
    let one = touches(events, ends, first, value);
    let two = touches(events, ends, second, other);
    let before = comes_before(events, ends, first, second);
    once & one & two & before
}

/// Whether nothing leaves nil, or one operation leaves the item, and two touch it and the other value, the first before the second.
fn is_ahead(
    events: &[Event],
    ends: &[Option<usize>],
    value: Val,
    other: Val,
    back: Option<(usize, usize)>,
) -> bool
    requires { IsNextTable events.now ends.now }
    ensures { IsTrue result ↔ IsAhead events.now value other back }
{
    match (value, back) {
        (Val::Nil, None) => !is_any(events, ends, &Which::Counts(Calls::Leaves(value))),
        (Val::Item(_), Some(pair)) => is_left_ahead(events, ends, value, other, pair),
        _ => false,
    }
}

/// Whether the item and the value, which are left once, or the value never and it is nil, were held in turn and again.
pub fn are_crossed(
    events: &[Event],
    ends: &[Option<usize>],
    value: Val,
    item: Item,
    pair: (usize, usize),
    back: Option<(usize, usize)>,
) -> bool
    requires { IsNextTable events.now ends.now }
    ensures { IsTrue result ↔ AreCrossed events.now value item pair.0 pair.1 back }
{
    let other = Val::Item(item);
    let same = value == other;
    let in_turn = is_left_ahead(events, ends, other, value, pair);
    let again = is_ahead(events, ends, value, other, back);
    !same & in_turn & again
}

/// How often a register begins with the value.
fn times_at_beginning(value: Val) -> usize
    ensures { result ≡ begun_with value }
{
    match value {
        Val::Nil => 1,
        Val::Item(_) => 0,
    }
}

/// Whether the register was taken from the value to another one more often than operations leave the value that aren't failed, and the register
/// begins with it.
pub fn is_spent(events: &[Event], ends: &[Option<usize>], value: Val) -> bool
    requires { IsNextTable events.now ends.now }
    ensures { IsTrue result ↔ IsSpent events.now value }
{
    let comes = count_of(events, ends, &Which::Counts(Calls::Leaves(value)));
    let spending = Which::Returned(Answers::Called(Calls::Spends(value)));
    let goes = count_of(events, ends, &spending);
    comes < goes.saturating_sub(times_at_beginning(value))
}
