//! A certificate of all events of an object of which it isn't known how they end: what comes of counting, in one pass, or what the search for a
//! certificate finds among the last operations.
ghost use Rattle.std.specs.Prelude.{IfOk, IfSome};
ghost use Rattle.lin_order.specs.Tables.{IsNextTable};
ghost use Rattle.lin_certificates.specs.Certificates.{Certifies};

use lin_candidates::find_certificate;
use lin_certificates::{Certificate, holds};
use lin_events::{Body, Call, Event, Item, OutOfMemory, Reply, Val};
use lin_objects::Kind;
use std::alloc::Global;
use std::collections::HashMap;

/// Of so many events at most is a certificate looked for among the last operations, each of which takes passes through all of them.
const MOST_SEARCHED: usize = 10_000;

/// How often an item was put in or left, and how often it was taken out, by operations that didn't fail.
#[derive(Clone, Copy)]
struct Sum {
    put: usize,
    taken: usize,
}

/// The item of a value.
fn item_of(value: Val) -> Option<Item> {
    match value {
        Val::Item(item) => Some(item),
        Val::Nil => None,
    }
}

/// The item that a call puts into a queue, or leaves in a register.
fn put_by(call: &Call) -> Option<Item> {
    match call {
        Call::Enqueue(item) => Some(*item),
        Call::Write(value) => item_of(*value),
        Call::Cas(_, to) => item_of(*to),
        _ => None,
    }
}

/// The item that a call took out of a queue with this reply, or that a register had to hold.
fn taken_by(call: &Call, reply: &Reply) -> Option<Item> {
    match (call, reply) {
        (Call::Dequeue | Call::Read, Reply::Value(value)) => item_of(*value),
        (Call::Cas(from, _), _) => item_of(*from),
        _ => None,
    }
}

/// The end of the operation that was invoked at the place, if it has one.
fn end_of<'a>(events: &'a [Event], ends: &[Option<usize>], at: usize) -> Option<&'a Body> {
    let end = (*ends.get(at)?)?;
    match events.get(end) {
        Some(event) => Some(&event.body),
        None => None,
    }
}

/// What the operation at the place puts in, unless it failed.
fn put_at(events: &[Event], ends: &[Option<usize>], at: usize, call: &Call) -> Option<Item> {
    match end_of(events, ends, at) {
        Some(Body::Fail(_)) => None,
        _ => put_by(call),
    }
}

/// What the operation at the place took out, if it is ok.
fn taken_at(events: &[Event], ends: &[Option<usize>], at: usize, call: &Call) -> Option<Item> {
    match end_of(events, ends, at) {
        Some(Body::Ok(_, reply)) => taken_by(call, reply),
        _ => None,
    }
}

/// The sum of an item so far.
fn sum_of(sums: &HashMap<Item, Sum>, item: Item) -> Sum {
    match sums.get(&item) {
        Some(sum) => *sum,
        None => Sum { put: 0, taken: 0 },
    }
}

/// Counts what was put in and taken out, of each item.
fn sums_of(
    alloc: Global,
    events: &[Event],
    ends: &[Option<usize>],
) -> Result<HashMap<Item, Sum>, OutOfMemory> {
    let mut sums: HashMap<Item, Sum> = HashMap::new(alloc);
    for (at, event) in events.iter().enumerate() {
        let Body::Invoke(call) = &event.body else {
            continue;
        };
        if let Some(item) = put_at(events, ends, at, call) {
            let mut sum = sum_of(&sums, item);
            sum.put = sum.put.saturating_add(1);
            sums.insert(item, sum)?;
        }
        if let Some(item) = taken_at(events, ends, at, call) {
            let mut sum = sum_of(&sums, item);
            sum.taken = sum.taken.saturating_add(1);
            sums.insert(item, sum)?;
        }
    }
    Ok(sums)
}

/// The certificate that the sum of the item may be, which the operation at the place took out.
fn of_sum(kind: Kind, sum: Sum, item: Item, at: usize) -> Option<Certificate> {
    match kind {
        Kind::Fifo | Kind::Bag if sum.put < sum.taken => Some(Certificate::Taken { item }),
        Kind::Register | Kind::CasRegister if sum.put == 0 => Some(Certificate::Unwritten {
            operation: at,
            item,
        }),
        _ => None,
    }
}

/// The first certificate that the sums may be.
fn candidate(
    events: &[Event],
    ends: &[Option<usize>],
    kind: Kind,
    sums: &HashMap<Item, Sum>,
) -> Option<Certificate> {
    for (at, event) in events.iter().enumerate() {
        let Body::Invoke(call) = &event.body else {
            continue;
        };
        if let Some(item) = taken_at(events, ends, at, call) {
            let some = of_sum(kind, sum_of(sums, item), item, at);
            if some.is_some() {
                return some;
            }
        }
    }
    None
}

/// A certificate that holds of the events, which are all of an object of the kind, if one is found. Which are found is tested.
pub(crate) fn certificate_of_all(
    alloc: Global,
    events: &[Event],
    ends: &[Option<usize>],
    kind: Kind,
) -> Result<Option<Certificate>, OutOfMemory>
    requires { IsNextTable events.now ends.now }
    ensures { IfOk result (λ found. IfSome found (λ certificate. Certifies events.now kind certificate)) }
{
    let sums = sums_of(alloc, events, ends)?;
    match candidate(events, ends, kind, &sums) {
        Some(certificate) if holds(events, ends, kind, &certificate) => Ok(Some(certificate)),
        _ if events.len() <= MOST_SEARCHED => find_certificate(alloc, events, kind, events.len()),
        _ => Ok(None),
    }
}
