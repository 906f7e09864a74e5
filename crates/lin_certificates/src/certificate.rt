//! Certificates, and whether one holds of a history.
ghost use Rattle.std.specs.Prelude.{◌↔◌, IfOk, IsTrue};
ghost use Rattle.lin_order.specs.Tables.{IsNextTable};
ghost use Rattle.lin_certificates.specs.Certificates.{Certifies, CertifiesBag, CertifiesFifo, CertifiesMutex, CertifiesRegister, CertifiesSet};
ghost use Rattle.lin_certificates.specs.Laws.{CertificatesExcludeOrders};

use crate::locks::{is_counted, is_twice, is_within};
use crate::operations::is_among;
use crate::queues::{is_inside, is_passed, is_preceded, is_remaining, is_surplus, is_taken};
use crate::registers::{are_crossed, is_overwritten, is_spent, is_stale, is_unwritten};
use crate::sets::{are_split, is_late, is_lost, is_unadded};
use crate::words::{Answers, Calls, ReadSort, Which};
use lin_events::{Event, Item, Items, OutOfMemory, Val};
use lin_objects::Kind;
use lin_order::ends_of;
use std::alloc::Global;

/// Why the operations of an object have no legal order. Operations are named by the places of their invocations; the values that the form
/// speaks of stand beside them.
#[derive(PartialEq, Eq, Drop)]
pub enum Certificate {
    /// The read of a set gave a value, or that of a register gave members.
    Shape {
        read: usize,
    },
    /// The operation needs the item, and no other one that isn't failed leaves it.
    Unwritten {
        operation: usize,
        item: Item,
    },
    /// The operation needs the value. Whichever other one leaves it is before one that leaves some value and is before the operation.
    Overwritten {
        operation: usize,
        value: Val,
    },
    /// The operation needs the value, which is stale: another one that shows another value, ahead of it or behind it, is before the operation, and
    /// whichever other one leaves the value is before that one.
    Stale {
        operation: usize,
        value: Val,
        over: usize,
        held: Val,
    },
    /// One operation leaves the item, and one the value, or none where it is nil. Two operations touch the item and the value, the first
    /// before the second; and, unless the value is nil, another two the value and the item (Gibbons and Korach 1997).
    Crossed {
        value: Val,
        item: Item,
        early: usize,
        late: usize,
        back: Option<(usize, usize)>,
    },
    /// More ok operations took the register from the value to another one than operations leave it that aren't failed, with the beginning if it
    /// is nil.
    Spent {
        value: Val,
    },
    /// More dequeues took the item than enqueues of it aren't failed.
    Taken {
        item: Item,
    },
    /// The dequeue took the other item, whose enqueues, of which one is named, were all invoked after that of the item, which stayed until
    /// the dequeue.
    Passed {
        enqueue: usize,
        later: usize,
        dequeue: usize,
        item: Item,
        other: Item,
    },
    /// The dequeue found nothing. The item was put in before it, and stayed until it.
    Inside {
        enqueue: usize,
        dequeue: usize,
        item: Item,
    },
    /// The dequeue took the item, which was put in by the named enqueue or behind it, since no more enqueues of it were invoked before that one than
    /// dequeues took it before this one. More enqueues were before that than other dequeues may have taken something out ahead of this one.
    Preceded {
        later: usize,
        dequeue: usize,
        item: Item,
    },
    /// The dequeue found nothing. More enqueues were before it than other dequeues may have taken something out ahead of it.
    Remaining {
        dequeue: usize,
    },
    /// The dequeue found nothing. More enqueues of these items were before it than other dequeues may have taken one of them out ahead of it.
    Surplus {
        dequeue: usize,
        items: Items,
    },
    /// The read has the item, and all adds of it failed.
    Unadded {
        read: usize,
        item: Item,
    },
    /// The operation that has the item is before the read, which lacks it.
    Lost {
        earlier: usize,
        read: usize,
        item: Item,
    },
    /// The first read has the item and lacks the other one; the second has that one and lacks the item.
    Split {
        first: usize,
        second: usize,
        item: Item,
        other: Item,
    },
    /// The operation that has the item is before each add of the other one, of which one is named. The read has the other one and lacks the
    /// item.
    Late {
        earlier: usize,
        add: usize,
        read: usize,
        item: Item,
        other: Item,
    },
    /// Both are acquires, or releases, the first before the second, and each call of the other function is before the first or failed.
    Twice {
        first: usize,
        second: usize,
    },
    /// More releases are ok than acquires aren't failed, or more acquires than one more than the releases that aren't.
    Counted,
    /// Between the two places more operations with the call, which is an acquire or a release, are known to have taken effect than ones with the other
    /// call can have, and one more. From the beginning, when the lock is free, no release is one more.
    Within {
        calls: Calls,
        from: usize,
        to: usize,
    },
}

/// Whether the certificate holds of a register.
fn certifies_register(events: &[Event], ends: &[Option<usize>], certificate: &Certificate) -> bool
    requires { IsNextTable events.now ends.now }
    ensures { IsTrue result ↔ CertifiesRegister events.now certificate.now }
{
    match certificate {
        Certificate::Shape { read } => is_among(
            events,
            ends,
            *read,
            &Which::Returned(Answers::Gives(ReadSort::Members)),
        ),
        Certificate::Unwritten { operation, item } => {
            is_unwritten(events, ends, *operation, *item)
        }
        Certificate::Overwritten { operation, value } => {
            is_overwritten(events, ends, *operation, *value)
        }
        Certificate::Stale {
            operation,
            value,
            over,
            held,
        } => is_stale(events, ends, (*operation, *value), (*over, *held)),
        Certificate::Crossed {
            value,
            item,
            early,
            late,
            back,
        } => are_crossed(events, ends, *value, *item, (*early, *late), *back),
        Certificate::Spent { value } => is_spent(events, ends, *value),
        _ => false,
    }
}

/// Whether the certificate holds of a queue that promises no order.
fn certifies_bag(events: &[Event], ends: &[Option<usize>], certificate: &Certificate) -> bool
    requires { IsNextTable events.now ends.now }
    ensures { IsTrue result ↔ CertifiesBag events.now certificate.now }
{
    match certificate {
        Certificate::Taken { item } => is_taken(events, ends, *item),
        Certificate::Inside {
            enqueue,
            dequeue,
            item,
        } => is_inside(events, ends, *enqueue, *dequeue, *item),
        Certificate::Remaining { dequeue } => is_remaining(events, ends, *dequeue),
        Certificate::Surplus { dequeue, items } => {
            is_surplus(events, ends, *dequeue, items.as_slice())
        }
        _ => false,
    }
}

/// Whether the certificate holds of a queue: first in, first out.
fn certifies_fifo(events: &[Event], ends: &[Option<usize>], certificate: &Certificate) -> bool
    requires { IsNextTable events.now ends.now }
    ensures { IsTrue result ↔ CertifiesFifo events.now certificate.now }
{
    match certificate {
        Certificate::Passed {
            enqueue,
            later,
            dequeue,
            item,
            other,
        } => is_passed(events, ends, (*enqueue, *later), *dequeue, *item, *other),
        Certificate::Preceded {
            later,
            dequeue,
            item,
        } => is_preceded(events, ends, *later, *dequeue, *item),
        _ => certifies_bag(events, ends, certificate),
    }
}

/// Whether the certificate holds of a set.
fn certifies_set(events: &[Event], ends: &[Option<usize>], certificate: &Certificate) -> bool
    requires { IsNextTable events.now ends.now }
    ensures { IsTrue result ↔ CertifiesSet events.now certificate.now }
{
    match certificate {
        Certificate::Shape { read } => is_among(
            events,
            ends,
            *read,
            &Which::Returned(Answers::Gives(ReadSort::Value)),
        ),
        Certificate::Unadded { read, item } => is_unadded(events, ends, *read, *item),
        Certificate::Lost {
            earlier,
            read,
            item,
        } => is_lost(events, ends, *earlier, *read, *item),
        Certificate::Split {
            first,
            second,
            item,
            other,
        } => are_split(events, ends, (*first, *second), *item, *other),
        Certificate::Late {
            earlier,
            add,
            read,
            item,
            other,
        } => is_late(events, ends, (*earlier, *add), *read, *item, *other),
        _ => false,
    }
}

/// Whether the certificate holds of a lock.
fn certifies_mutex(events: &[Event], ends: &[Option<usize>], certificate: &Certificate) -> bool
    requires { IsNextTable events.now ends.now }
    ensures { IsTrue result ↔ CertifiesMutex events.now certificate.now }
{
    match certificate {
        Certificate::Twice { first, second } => is_twice(events, ends, *first, *second),
        Certificate::Counted => is_counted(events, ends),
        Certificate::Within { calls, from, to } => is_within(events, ends, *calls, *from, *to),
        _ => false,
    }
}

/// Whether the certificate holds of an object of the kind.
pub fn holds(
    events: &[Event],
    ends: &[Option<usize>],
    kind: Kind,
    certificate: &Certificate,
) -> bool
    requires { IsNextTable events.now ends.now }
    ensures { IsTrue result ↔ Certifies events.now kind certificate.now }
{
    match kind {
        Kind::Register | Kind::CasRegister => certifies_register(events, ends, certificate),
        Kind::Fifo => certifies_fifo(events, ends, certificate),
        Kind::Bag => certifies_bag(events, ends, certificate),
        Kind::Set => certifies_set(events, ends, certificate),
        Kind::Mutex => certifies_mutex(events, ends, certificate),
    }
}

/// Whether the certificate holds of the events, which are those of one object of the kind: exactly where its form holds of the operations that
/// it names. Time is linear in the events. `OutOfMemory` is answered only where memory was refused.
pub fn certifies(
    alloc: Global,
    events: &[Event],
    kind: Kind,
    certificate: &Certificate,
) -> Result<bool, OutOfMemory>
    ensures { IfOk result (λ holds. IsTrue holds ↔ Certifies events.now kind certificate.now) }
{
    let ends = ends_of(alloc, events)?;
    Ok(holds(events, ends.as_slice(), kind, certificate))
}

/// Operations that a certificate holds of have no legal order.
pub fn certificates_exclude_orders()
    ensures { CertificatesExcludeOrders }
{}
