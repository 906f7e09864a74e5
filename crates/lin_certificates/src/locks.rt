//! Certificates of locks.
ghost use Rattle.std.specs.Prelude.{◌↔◌, ◌≡◌, IsTrue};
ghost use Rattle.lin_order.specs.Tables.{IsNextTable};
ghost use Rattle.lin_certificates.specs.Certificates.{IsCounted, IsMoreWithin, IsTwice, IsTwiceIn, IsWithin, spare_release as spare_of};

use crate::operations::{comes_before, is_among};
use crate::passes::{all_ahead, count_of};
use crate::words::{Answers, Calls, Which};
use lin_events::Event;

/// Whether the lock was acquired twice, or released twice, and each call that has to stand between is before both or failed.
fn is_twice_by(
    events: &[Event],
    ends: &[Option<usize>],
    calls: (Calls, Calls),
    first: usize,
    second: usize,
) -> bool
    requires { IsNextTable events.now ends.now }
    ensures { IsTrue result ↔ IsTwiceIn events.now calls.0 calls.1 first second }
{
    let made = Which::Returned(Answers::Called(calls.0));
    let one = is_among(events, ends, first, &made);
    let two = is_among(events, ends, second, &made);
    let before = comes_before(events, ends, first, second);
    let none = all_ahead(events, ends, &Which::Counts(calls.1), first);
    one & two & before & none
}

/// Whether the lock was acquired or released twice, and nothing can stand between.
pub fn is_twice(events: &[Event], ends: &[Option<usize>], first: usize, second: usize) -> bool
    requires { IsNextTable events.now ends.now }
    ensures { IsTrue result ↔ IsTwice events.now first second }
{
    let acquired = (Calls::Acquires, Calls::Releases);
    let released = (Calls::Releases, Calls::Acquires);
    let one = is_twice_by(events, ends, acquired, first, second);
    let other = is_twice_by(events, ends, released, first, second);
    one | other
}

/// Whether the lock was released more often than it can have been acquired, or acquired more than once oftener than it can have been released.
pub fn is_counted(events: &[Event], ends: &[Option<usize>]) -> bool
    requires { IsNextTable events.now ends.now }
    ensures { IsTrue result ↔ IsCounted events.now }
{
    let can_acquire = count_of(events, ends, &Which::Counts(Calls::Acquires));
    let can_release = count_of(events, ends, &Which::Counts(Calls::Releases));
    let acquired = count_of(
        events,
        ends,
        &Which::Returned(Answers::Called(Calls::Acquires)),
    );
    let released = count_of(
        events,
        ends,
        &Which::Returned(Answers::Called(Calls::Releases)),
    );
    let over_released = can_acquire < released;
    let over_acquired = can_release < acquired.saturating_sub(1);
    over_released | over_acquired
}

/// Whether between the places the lock had the one call more often than it can have had the other, and more than so many times oftener.
fn is_more_within(
    events: &[Event],
    ends: &[Option<usize>],
    calls: (Calls, Calls),
    places: (usize, usize),
    spare: usize,
) -> bool
    requires { IsNextTable events.now ends.now }
    ensures { IsTrue result ↔ IsMoreWithin events.now calls.0 calls.1 places.0 places.1 spare }
{
    let made = Which::ReturnedWithin(Answers::Called(calls.0), places.0, places.1);
    let others = Which::CountsWithin(calls.1, places.0, places.1);
    let did = count_of(events, ends, &made);
    let can = count_of(events, ends, &others);
    can < did.saturating_sub(spare)
}

/// How many releases may have no acquire ahead of them from the place on.
fn spare_release(from: usize) -> usize
    ensures { result ≡ spare_of from }
{
    if from == 0 { 0 } else { 1 }
}

/// Whether between the places the lock was acquired more than once oftener than it can have been released, or released oftener than it can have been
/// acquired.
pub fn is_within(
    events: &[Event],
    ends: &[Option<usize>],
    calls: Calls,
    from: usize,
    to: usize,
) -> bool
    requires { IsNextTable events.now ends.now }
    ensures { IsTrue result ↔ IsWithin events.now calls from to }
{
    let acquired = (Calls::Acquires, Calls::Releases);
    let released = (Calls::Releases, Calls::Acquires);
    match calls {
        Calls::Acquires => is_more_within(events, ends, acquired, (from, to), 1),
        Calls::Releases => {
            is_more_within(events, ends, released, (from, to), spare_release(from))
        }
        _ => false,
    }
}
