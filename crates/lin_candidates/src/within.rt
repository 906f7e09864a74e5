//! Certificates of locks, that may hold: between two places one call was made more often than the other can have been.
use crate::endings::{Ending, Operation};
use lin_certificates::{Calls, Certificate};
use lin_events::{Call, OutOfMemory};
use std::alloc::Global;

/// So many places are tried up to which a call that failed may have been needed.
const TRIED: usize = 16;

/// What an event says of how often the two calls were made.
#[derive(Clone, Copy)]
enum Change {
    /// The call begins that is known to have been made.
    Made,
    /// The other call returns.
    Other,
    Nothing,
}

/// The calls of a lock that are compared.
#[derive(Clone, Copy)]
struct Compared {
    /// The call that is known to have been made, and how certificates name it.
    call: Call,
    sort: Calls,
    /// The one that has to be made in turn with it.
    other: Call,
}

/// What is compared where this operation was made, or where it failed and the other call was made too often for that.
fn calls_of(target: &Operation) -> Option<Compared> {
    match (target.call, target.counts()) {
        (Call::Acquire, true) | (Call::Release, false) => Some(Compared {
            call: Call::Acquire,
            sort: Calls::Acquires,
            other: Call::Release,
        }),
        (Call::Release, true) | (Call::Acquire, false) => Some(Compared {
            call: Call::Release,
            sort: Calls::Releases,
            other: Call::Acquire,
        }),
        _ => None,
    }
}

/// For each event before the place what it says; and how many of the other call may have been made at any time, since they hadn't returned before it.
fn changes_before(
    alloc: Global,
    operations: &[Operation],
    compared: &Compared,
    to: usize,
) -> Result<(Vec<Change>, usize), OutOfMemory> {
    let mut changes = Vec::new(alloc);
    for _ in 0..to {
        changes.push(Change::Nothing)?;
    }
    let mut open: usize = 0;
    for operation in operations {
        let (at, change) = change_of(operation, compared, to);
        if let Some(place) = changes.get_mut(at) {
            *place = change;
        }
        if operation.at < to && is_open(operation, compared, to) {
            open = open.saturating_add(1);
        }
    }
    Ok((changes, open))
}

/// Which event says something of the operation, and what.
fn change_of(operation: &Operation, compared: &Compared, to: usize) -> (usize, Change) {
    match operation.ending {
        Ending::Returned(end, _) if end < to && operation.call == compared.call => {
            (operation.at, Change::Made)
        }
        Ending::Returned(end, _) if end < to && operation.call == compared.other => {
            (end, Change::Other)
        }
        _ => (operation.at, Change::Nothing),
    }
}

/// Whether it is of the other call, didn't fail, and hadn't returned before the place.
fn is_open(operation: &Operation, compared: &Compared, to: usize) -> bool {
    operation.call == compared.other
        && match operation.ending {
            Ending::Returned(end, _) => to <= end,
            Ending::Failed => false,
            Ending::Open => true,
        }
}

/// How many times oftener the one call may have been made from the place on: the lock begins free.
fn calls_to_spare(compared: &Compared, from: usize) -> usize {
    match compared.sort {
        Calls::Releases if from == 0 => 0,
        _ => 1,
    }
}

/// The last place from which on the one call was made too often.
fn last_start(changes: &[Change], open: usize, compared: &Compared) -> Option<usize> {
    let mut from = changes.len();
    let mut made: usize = 0;
    let mut can = open;
    for change in changes.iter().rev() {
        from = from.saturating_sub(1);
        match change {
            Change::Made => made = made.saturating_add(1),
            Change::Other => can = can.saturating_add(1),
            Change::Nothing => {}
        }
        if can.saturating_add(calls_to_spare(compared, from)) < made {
            return Some(from);
        }
    }
    None
}

/// The shortest stretch up to the place in which the one call was made too often.
fn within_before(
    alloc: Global,
    operations: &[Operation],
    compared: &Compared,
    to: usize,
) -> Result<Option<Certificate>, OutOfMemory> {
    let (changes, open) = changes_before(alloc, operations, compared, to)?;
    match last_start(changes.as_slice(), open, compared) {
        Some(from) => Ok(Some(Certificate::Within {
            calls: compared.sort,
            from,
            to,
        })),
        None => Ok(None),
    }
}

/// Where the one call was known to be ok, behind the place, rising.
fn ends_behind(
    alloc: Global,
    operations: &[Operation],
    compared: &Compared,
    place: usize,
) -> Result<Vec<usize>, OutOfMemory> {
    let mut ends = Vec::new(alloc);
    for operation in operations {
        if let Some((end, _)) = operation.ok_end()
            && operation.call == compared.call
            && place < end
        {
            ends.push(end)?;
        }
    }
    ends.sort_unstable();
    Ok(ends)
}

/// A stretch in which the one call was made too often, where the other one, which was invoked at the place, failed: the last one to end.
fn within_for_failed(
    alloc: Global,
    operations: &[Operation],
    compared: &Compared,
    failed: usize,
) -> Result<Option<Certificate>, OutOfMemory> {
    let ends = ends_behind(alloc, operations, compared, failed)?;
    let mut tried: usize = 0;
    for end in ends.iter().rev() {
        if tried == TRIED {
            break;
        }
        tried = tried.saturating_add(1);
        let found = within_before(alloc, operations, compared, end.saturating_add(1))?;
        if found.is_some() {
            return Ok(found);
        }
    }
    Ok(None)
}

/// A stretch of the history in which a lock had the operation's call too often, if this is ok, or too seldom, if it failed.
pub fn within_candidate(
    alloc: Global,
    operations: &[Operation],
    target: &Operation,
) -> Result<Option<Certificate>, OutOfMemory> {
    let Some(compared) = calls_of(target) else {
        return Ok(None);
    };
    match target.ending {
        Ending::Returned(end, _) => {
            within_before(alloc, operations, &compared, end.saturating_add(1))
        }
        Ending::Failed => within_for_failed(alloc, operations, &compared, target.at),
        Ending::Open => Ok(None),
    }
}
