//! Operations with their endings.
use lin_events::{Body, Call, Event, Item, OutOfMemory, Reply, Val};
use std::alloc::Global;

/// How an operation ends.
#[derive(Clone, Copy)]
pub enum Ending<'a> {
    /// It is ok, which was known at the place.
    Returned(usize, &'a Reply),
    Failed,
    Open,
}

/// An operation: where it was invoked, what was called, and how it ended.
#[derive(Clone, Copy)]
pub struct Operation<'a> {
    pub at: usize,
    pub call: Call,
    pub ending: Ending<'a>,
}

impl<'a> Operation<'a> {
    /// Where it was known to be ok, and its reply.
    pub fn ok_end(&self) -> Option<(usize, &'a Reply)> {
        match self.ending {
            Ending::Returned(end, reply) => Some((end, reply)),
            _ => None,
        }
    }

    /// Whether it isn't failed.
    pub fn counts(&self) -> bool {
        !matches!(self.ending, Ending::Failed)
    }

    /// The value that a register had to hold for it.
    pub fn value_needed(&self) -> Option<Val> {
        let (_, reply) = self.ok_end()?;
        match (self.call, reply) {
            (Call::Read, Reply::Value(value)) => Some(*value),
            (Call::Cas(from, _), _) => Some(from),
            _ => None,
        }
    }

    /// The value that it leaves in a register.
    pub fn value_left(&self) -> Option<Val> {
        match self.call {
            Call::Write(value) => Some(value),
            Call::Cas(_, to) => Some(to),
            _ => None,
        }
    }

    /// The value that it took a register from to another one.
    pub fn value_spent(&self) -> Option<Val> {
        match self.call {
            Call::Cas(from, to) if from != to => Some(from),
            _ => None,
        }
    }

    /// What it adds to a set, or puts into a queue.
    pub fn item_added(&self) -> Option<Item> {
        match self.call {
            Call::Add(item) => Some(item),
            Call::Enqueue(item) => Some(item),
            _ => None,
        }
    }

    /// What it took out of a queue.
    pub fn item_taken(&self) -> Option<Item> {
        let (_, reply) = self.ok_end()?;
        match (self.call, reply) {
            (Call::Dequeue, Reply::Value(Val::Item(item))) => Some(*item),
            _ => None,
        }
    }

    /// What it read of a set.
    pub fn members(&self) -> Option<&'a [Item]> {
        let (_, reply) = self.ok_end()?;
        match (self.call, reply) {
            (Call::Read, Reply::Members(members)) => Some(members.as_slice()),
            _ => None,
        }
    }

    /// Whether it is a dequeue that found nothing.
    pub fn found_nothing(&self) -> bool {
        match (self.call, self.ending) {
            (Call::Dequeue, Ending::Returned(_, Reply::Value(Val::Nil))) => true,
            _ => false,
        }
    }

    /// Whether it read a value.
    pub fn gives_value(&self) -> bool {
        match (self.call, self.ending) {
            (Call::Read, Ending::Returned(_, Reply::Value(_))) => true,
            _ => false,
        }
    }
}

/// The ending of the operation at the place.
fn ending_of<'a>(events: &'a [Event], ends: &[Option<usize>], at: usize) -> Ending<'a> {
    let Some(Some(end)) = ends.get(at) else {
        return Ending::Open;
    };
    match events.get(*end) {
        Some(event) => match &event.body {
            Body::Ok(_, reply) => Ending::Returned(*end, reply),
            Body::Fail(_) => Ending::Failed,
            _ => Ending::Open,
        },
        None => Ending::Open,
    }
}

/// The operations, the first invoked first.
pub fn operations_of<'a>(
    alloc: Global,
    events: &'a [Event],
    ends: &[Option<usize>],
) -> Result<Vec<Operation<'a>>, OutOfMemory> {
    let mut operations = Vec::new(alloc);
    for (at, event) in events.iter().enumerate() {
        if let Body::Invoke(call) = &event.body {
            operations.push(Operation {
                at,
                call: *call,
                ending: ending_of(events, ends, at),
            })?;
        }
    }
    Ok(operations)
}
