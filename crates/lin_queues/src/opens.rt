//! The operations that are open.
ghost use Rattle.std.specs.Prelude.{◌≡◌, ◌<◌, ◌++◌, ◌∷◌, [], ℕ, Bool, List, IfNone, IfOk, IfSome, IsTrue, ◌↔◌, Some, slice_get};
ghost use Rattle.lin_events.specs.declared.events.Event.{Event as EventOf};
ghost use Rattle.lin_events.specs.declared.calls.Call.{Call as CallOf};
ghost use Rattle.lin_queues.specs.declared.opens.OpenCall.{OpenCall as OpenOf};
ghost use Rattle.lin_queues.specs.Opens.{AreDequeues, AreOpen};

use lin_events::{Call, Item, OutOfMemory};
use std::alloc::Global;

/// An operation that is neither ok nor failed; it may have crashed.
#[derive(Clone, Copy)]
pub(crate) struct OpenCall {
    pub(crate) process: u64,
    pub(crate) place: usize,
    pub(crate) call: Call,
}

/// Where the process's operation stands in the list.
pub(crate) fn index_of(open: &[OpenCall], process: u64) -> Option<usize>
    ensures found { IfSome result (λ at. (o : OpenOf) × (slice_get open.now at ≡ Some o) × (o.process ≡ process)) }
    ensures missing { IfNone result ((k : ℕ) (o : OpenOf) → slice_get open.now k ≡ Some o → o.process ≡ process → ⊥) }
{
    for (at, operation) in open.iter().enumerate() {
        if operation.process == process {
            return Some(at);
        }
    }
    None
}

/// Whether the call puts the item in.
pub(crate) fn puts(call: Call, item: Item) -> bool
    ensures { IsTrue result ↔ (call ≡ Call.Enqueue item) }
{
    match call {
        Call::Enqueue(put) => put == item,
        _ => false,
    }
}

/// Whether the call is a dequeue.
fn is_dequeue(call: Call) -> bool
    ensures { IsTrue result ↔ (call ≡ Call.Dequeue) }
{
    matches!(call, Call::Dequeue)
}

/// The open dequeues, by rising place.
pub(crate) fn dequeues_of(alloc: Global, open: &[OpenCall]) -> Result<Vec<usize>, OutOfMemory>
    ensures { (h : List EventOf) → AreOpen h open.now → IfOk result (λ dequeues. AreDequeues h dequeues.items) }
{
    let mut dequeues = Vec::new(alloc);
    for operation in open {
        if is_dequeue(operation.call) {
            dequeues.push(operation.place)?;
        }
    }
    Ok(dequeues)
}
