//! Certificates that count, and may hold: what came to be oftener than it can have.
use crate::candidates::NAMED;
use crate::endings::{Ending, Operation};
use lin_certificates::Certificate;
use lin_events::{Call, Item, Val};

/// The value that a register was taken from to another one, by an operation that is ok, or that it would have come to by one that failed.
fn spent_value(target: &Operation) -> Option<Val> {
    match target.ending {
        Ending::Returned(_, _) => target.value_spent(),
        Ending::Failed => target.value_left(),
        Ending::Open => None,
    }
}

/// Whether a register was taken from the value to another one more often than it can have come to it.
fn is_spent(operations: &[Operation], value: Val) -> bool {
    let mut comes: usize = 0;
    let mut goes: usize = 0;
    for operation in operations {
        if operation.value_left() == Some(value) && operation.counts() {
            comes = comes.saturating_add(1);
        }
        if operation.ok_end().is_some() && operation.value_spent() == Some(value) {
            goes = goes.saturating_add(1);
        }
    }
    if value == Val::Nil {
        comes = comes.saturating_add(1);
    }
    comes < goes
}

/// A value that a register was taken from too often.
pub fn spent_candidate(operations: &[Operation], target: &Operation) -> Option<Certificate> {
    let value = spent_value(target)?;
    if !is_spent(operations, value) {
        return None;
    }
    Some(Certificate::Spent { value })
}

/// Whether the operation is one of the first that took a register from the value that it did, or that failed to bring it there.
pub fn is_spender_named(operations: &[Operation], target: &Operation) -> bool {
    let mut alike: usize = 0;
    for operation in operations {
        if operation.at < target.at
            && spent_value(operation) == spent_value(target)
            && operation.counts() == target.counts()
        {
            alike = alike.saturating_add(1);
        }
    }
    alike < NAMED
}

/// Whether the operation is a dequeue, another one, that may have taken something out ahead of the one, which returned at `end`.
fn may_take_ahead(operation: &Operation, dequeue: usize, end: usize) -> bool {
    operation.call == Call::Dequeue
        && operation.at != dequeue
        && operation.at < end
        && operation.counts()
        && !operation.found_nothing()
}

/// Whether more items were put in before the place than dequeues may have taken something out ahead of the one.
fn is_surplus(operations: &[Operation], target: &Operation, end: usize, place: usize) -> bool {
    let mut puts: usize = 0;
    let mut takes: usize = 0;
    for operation in operations {
        if let Some((put, _)) = operation.ok_end()
            && put < place
            && operation.item_added().is_some()
        {
            puts = puts.saturating_add(1);
        }
        if may_take_ahead(operation, target.at, end) {
            takes = takes.saturating_add(1);
        }
    }
    takes < puts
}

/// A dequeue that found nothing though items remained.
pub fn remaining_candidate(operations: &[Operation], target: &Operation) -> Option<Certificate> {
    let (end, _) = target.ok_end()?;
    if !is_surplus(operations, target, end, target.at) {
        return None;
    }
    Some(Certificate::Remaining { dequeue: target.at })
}

/// How many dequeues took the item and returned before the place.
fn times_out(operations: &[Operation], item: Item, place: usize) -> usize {
    let mut times: usize = 0;
    for operation in operations {
        if let Some((end, _)) = operation.ok_end()
            && end < place
            && operation.item_taken() == Some(item)
        {
            times = times.saturating_add(1);
        }
    }
    times
}

/// The enqueue of the item that so many come before, of those that aren't failed.
fn put_behind(operations: &[Operation], item: Item, times: usize) -> Option<usize> {
    let mut seen: usize = 0;
    for operation in operations {
        if operation.item_added() == Some(item) && operation.counts() {
            if seen == times {
                return Some(operation.at);
            }
            seen = seen.saturating_add(1);
        }
    }
    None
}

/// A dequeue of an item ahead of which too many were put in.
pub fn preceded_candidate(operations: &[Operation], target: &Operation) -> Option<Certificate> {
    let item = target.item_taken()?;
    let (end, _) = target.ok_end()?;
    if !is_surplus(operations, target, end, end) {
        return None;
    }
    let later = put_behind(operations, item, times_out(operations, item, target.at))?;
    if !is_surplus(operations, target, end, later) {
        return None;
    }
    Some(Certificate::Preceded {
        later,
        dequeue: target.at,
        item,
    })
}
