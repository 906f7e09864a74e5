//! What an operation is to a table: which mark it has, and whether it is chosen before another.
ghost use Rattle.std.specs.Prelude.{◌≡◌, ◌↔◌, IsTrue, MatchOption, Contains};
ghost use Rattle.lin_order.specs.Tables.{IsNextTable};
ghost use Rattle.lin_tables.specs.declared.marks.Mark.{Mark as MarkOf};
ghost use Rattle.lin_tables.specs.WindowTables.{HasMark, IsAhead, IsNearer, around, listing_of, mark_code, order_of};

use crate::failing_operations::{is_invoked, is_open_at, ran_beside};
use lin_events::Event;

/// What an operation is to a table.
#[derive(Clone, Copy)]
pub(crate) enum Mark {
    Failing,
    /// It is named above the table.
    Named,
    /// It ran beside the failing one.
    Beside,
    Other,
}

/// What a table around a failing operation is about.
#[derive(Clone, Copy)]
pub struct Window<'a> {
    /// Where the failing operation was invoked.
    pub call: usize,
    /// The last quiet place that isn't after it.
    pub from: usize,
    /// Where the operations were invoked that are named above the table.
    pub named: &'a [usize],
}

/// Which operations a table lists.
#[derive(Clone, Copy)]
pub enum ListedOperations<'a> {
    /// Those that are open. The first invoked are chosen first.
    Open,
    /// The failing one, those that are named, those beside it, and the others from a place on. They are chosen in this order, and of
    /// one sort the last invoked first.
    Around(Window<'a>),
}

/// An operation that belongs in a table: the place where it was invoked, and its mark.
#[derive(Clone, Copy)]
pub(crate) struct Chosen {
    pub(crate) at: usize,
    pub(crate) mark: Mark,
}

impl Mark {
    /// By which operations are chosen first that have a lower one.
    fn order(self) -> u8
        ensures { result ≡ order_of self }
    {
        match self {
            Mark::Failing => 0,
            Mark::Named => 1,
            Mark::Beside => 2,
            Mark::Other => 3,
        }
    }

    /// The character that stands for it.
    pub(crate) fn code(self) -> u8
        ensures { result ≡ mark_code self }
    {
        match self {
            Mark::Failing => b'!',
            Mark::Named => b'*',
            Mark::Beside => b'~',
            Mark::Other => b' ',
        }
    }
}

/// Whether the place is one of these.
fn is_among(places: &[usize], at: usize) -> bool
    ensures { IsTrue result ↔ Contains places.now at }
{
    for place in places {
        if *place == at {
            return true;
        }
    }
    false
}

/// The mark of the operation in a table around a failing one, if it belongs there.
fn mark_in(events: &[Event], ends: &[Option<usize>], window: &Window, at: usize) -> Option<Mark>
    requires { IsNextTable events.now ends.now }
    ensures { MatchOption result ((mark : MarkOf) → HasMark events.now (around window.now.call window.now.from window.now.named.now) at mark → ⊥) (λ mark. HasMark events.now (around window.now.call window.now.from window.now.named.now) at mark) }
{
    if !is_invoked(events, at) {
        return None;
    }
    if at == window.call {
        return Some(Mark::Failing);
    }
    if is_among(window.named, at) {
        return Some(Mark::Named);
    }
    if ran_beside(events, ends, window.call, at) {
        return Some(Mark::Beside);
    }
    if window.from <= at {
        return Some(Mark::Other);
    }
    None
}

/// The mark of the operation in the table, if it belongs there.
pub(crate) fn mark_of(
    events: &[Event],
    ends: &[Option<usize>],
    listed: &ListedOperations,
    at: usize,
) -> Option<Mark>
    requires { IsNextTable events.now ends.now }
    ensures { MatchOption result ((mark : MarkOf) → HasMark events.now (listing_of listed.now) at mark → ⊥) (λ mark. HasMark events.now (listing_of listed.now) at mark) }
{
    match listed {
        ListedOperations::Open => {
            if is_open_at(events, ends, at) {
                Some(Mark::Other)
            } else {
                None
            }
        }
        ListedOperations::Around(window) => mark_in(events, ends, window, at),
    }
}

/// Whether the one operation has the earlier mark, or the same one and was invoked later.
fn is_nearer(one: Chosen, other: Chosen) -> bool
    ensures { IsTrue result ↔ IsNearer one other }
{
    let order = one.mark.order();
    let behind = other.mark.order();
    order < behind || order == behind && other.at < one.at
}

/// Whether the one operation is chosen before the other.
pub(crate) fn is_ahead(listed: &ListedOperations, one: Chosen, other: Chosen) -> bool
    ensures { IsTrue result ↔ IsAhead (listing_of listed.now) one other }
{
    match listed {
        ListedOperations::Open => one.at < other.at,
        ListedOperations::Around(_) => is_nearer(one, other),
    }
}
