//! The operations of an object, as far as its whole history tells.
use lin_events::{Body, Call, Event, OutOfMemory};
use std::alloc::Global;
use std::collections::HashMap;

/// Stands for the place of a completion that never came.
pub const NEVER: usize = usize::MAX;

/// Where an operation was invoked, which names it, and where it returned.
#[derive(Clone, Copy)]
pub struct CallSpan {
    pub begin: usize,
    pub end: usize,
}

/// An operation that didn't fail.
#[derive(Clone, Copy)]
pub struct PossibleOperation {
    pub call: Call,
    pub span: CallSpan,
}

/// The operations of the events, in the order of their invocations, without those that failed.
pub fn gather_operations(
    alloc: Global,
    events: &[Event],
) -> Result<Vec<PossibleOperation>, OutOfMemory> {
    let mut operations = Vec::new(alloc);
    let mut latest: HashMap<u64, usize> = HashMap::new(alloc);
    for (at, event) in events.iter().enumerate() {
        if let Body::Invoke(call) = &event.body {
            latest.insert(event.process, operations.len())?;
            operations.push(Some(PossibleOperation {
                call: *call,
                span: CallSpan {
                    begin: at,
                    end: NEVER,
                },
            }))?;
        } else if let Some(place) = latest.get(&event.process)
            && let Some(operation) = operations.get_mut(*place)
        {
            complete(operation, at, &event.body);
        }
    }
    let mut kept = Vec::new(alloc);
    for operation in &operations {
        if let Some(operation) = operation {
            kept.push(*operation)?;
        }
    }
    Ok(kept)
}

/// The operation completed at the place; it is none if it failed.
fn complete(operation: &mut Option<PossibleOperation>, at: usize, body: &Body) {
    match body {
        Body::Ok(_, _) => {
            if let Some(operation) = operation {
                operation.span.end = at;
            }
        }
        Body::Fail(_) => *operation = None,
        Body::Invoke(_) | Body::Info(_) => {}
    }
}
