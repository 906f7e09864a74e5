//! What the operations of a queue did, as far as its whole history tells, where each item is put in once.
use crate::operations::{CallSpan, NEVER, PossibleOperation, gather_operations};
use lin_events::{Body, Call, Event, Item, OutOfMemory, Reply, Val};
use std::alloc::Global;
use std::collections::HashMap;

/// An item that is put in a queue.
#[derive(Clone, Copy)]
pub struct Element {
    pub item: Item,
    pub enqueue: CallSpan,
    /// The dequeue that found it, if one did.
    pub dequeue: Option<CallSpan>,
    /// The first of the dequeues that found nothing, by number, for which it has to be gone, or `NEVER`.
    pub group: usize,
}

impl Element {
    /// The place before which it has to be put in.
    pub fn in_by(&self) -> usize {
        self.enqueue.end.min(self.out_by())
    }

    /// The place before which it has to be taken out.
    pub fn out_by(&self) -> usize {
        self.dequeue.map_or(NEVER, |dequeue| dequeue.end)
    }

    /// The place behind which it may be taken out.
    pub fn out_from(&self) -> usize {
        self.dequeue.map_or(NEVER, |dequeue| dequeue.begin)
    }
}

/// What is known of the operations of a queue.
#[derive(Drop)]
pub struct Queue {
    /// In the order in which they were called in.
    pub elements: Vec<Element>,
    /// Dequeues that found nothing.
    pub vain: Vec<CallSpan>,
    /// Invocations of dequeues that never returned, the latest first.
    pub open: Vec<usize>,
}

impl Queue {
    /// That of the events, if each item is put in once, and taken out only where it is put in, and once.
    pub fn of(alloc: Global, events: &[Event]) -> Result<Option<Queue>, OutOfMemory> {
        let operations = gather_operations(alloc, events)?;
        let mut queue = Queue {
            elements: Vec::new(alloc),
            vain: Vec::new(alloc),
            open: Vec::new(alloc),
        };
        let Some(places) = queue.put_in(alloc, &operations)? else {
            return Ok(None);
        };
        for operation in &operations {
            if operation.call == Call::Dequeue && !queue.take_out(&places, operation, events)? {
                return Ok(None);
            }
        }
        queue.elements.retain(|element| element.in_by() != NEVER || element.dequeue.is_some());
        queue.open.reverse();
        Ok(Some(queue))
    }

    /// Notes the enqueues; where the items stand among the elements, unless one is put in twice.
    fn put_in(
        &mut self,
        alloc: Global,
        operations: &[PossibleOperation],
    ) -> Result<Option<HashMap<Item, usize>>, OutOfMemory> {
        let mut places = HashMap::new(alloc);
        for operation in operations {
            if let Call::Enqueue(item) = operation.call {
                if places.contains_key(&item) {
                    return Ok(None);
                }
                places.insert(item, self.elements.len())?;
                self.elements.push(Element {
                    item,
                    enqueue: operation.span,
                    dequeue: None,
                    group: NEVER,
                })?;
            }
        }
        Ok(Some(places))
    }

    /// Notes the dequeue, unless it found what isn't there.
    fn take_out(
        &mut self,
        places: &HashMap<Item, usize>,
        operation: &PossibleOperation,
        events: &[Event],
    ) -> Result<bool, OutOfMemory> {
        let Some(event) = events.get(operation.span.end) else {
            self.open.push(operation.span.begin)?;
            return Ok(true);
        };
        let Body::Ok(_, Reply::Value(Val::Item(item))) = event.body else {
            self.vain.push(operation.span)?;
            return Ok(true);
        };
        let Some(element) = places.get(&item).and_then(|at| self.elements.get_mut(*at)) else {
            return Ok(false);
        };
        let is_first = element.dequeue.is_none();
        element.dequeue = Some(operation.span);
        Ok(is_first)
    }
}
