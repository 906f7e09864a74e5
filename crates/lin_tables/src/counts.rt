//! How many operations are open.
ghost use Rattle.std.specs.Prelude.{◌↔◌, IsTrue};
ghost use Rattle.lin_events.specs.Operations.{IsCrashed};
ghost use Rattle.lin_order.specs.Tables.{IsNextTable};
ghost use Rattle.lin_tables.specs.WindowOperations.{Exactly, IsOfSort, IsOpenAt};

use crate::failing_operations::{Outcome, is_open_at, outcome_of};
use lin_events::Event;

/// Which operations are counted.
#[derive(Clone, Copy)]
pub(crate) enum Sort {
    /// Those that are neither ok nor failed.
    Open,
    Crashed,
}

/// Whether the operation at the place crashed.
fn is_crashed(events: &[Event], ends: &[Option<usize>], at: usize) -> bool
    requires { IsNextTable events.now ends.now }
    ensures { IsTrue result ↔ IsCrashed events.now at }
{
    match outcome_of(events, ends, at) {
        Outcome::Crashed(_) => true,
        Outcome::Returned(_, _) => false,
        Outcome::Failed(_) => false,
        Outcome::Open => false,
    }
}

/// Whether the operation at the place is of the sort.
fn is_of_sort(events: &[Event], ends: &[Option<usize>], sort: Sort, at: usize) -> bool
    requires { IsNextTable events.now ends.now }
    ensures { IsTrue result ↔ IsOfSort events.now sort at }
{
    match sort {
        Sort::Open => is_open_at(events, ends, at),
        Sort::Crashed => is_crashed(events, ends, at),
    }
}

/// How many operations are of the sort.
fn count_of(events: &[Event], ends: &[Option<usize>], sort: Sort) -> usize
    requires { IsNextTable events.now ends.now }
    ensures { Exactly result (IsOfSort events.now sort) }
{
    let mut count = 0;
    for at in 0..events.len() {
        if is_of_sort(events, ends, sort, at) {
            count += 1;
        }
    }
    count
}

/// How many operations are open, and how many of these crashed.
pub fn open_counts(events: &[Event], ends: &[Option<usize>]) -> (usize, usize)
    requires { IsNextTable events.now ends.now }
    ensures open_ones { Exactly result.0 (IsOpenAt events.now) }
    ensures crashed { Exactly result.1 (IsCrashed events.now) }
{
    let crashed = count_of(events, ends, Sort::Crashed);
    (count_of(events, ends, Sort::Open), crashed)
}
