//! Which processes wait for the replies of operations that observe.
ghost use Rattle.std.specs.Prelude.{◌≡◌, ◌&&◌, nat_eq, not, IsFalse, true, ℕ};
ghost use Rattle.lin_members.specs.Searching.{is_observing as is_observing_in, is_watching as is_watching_in};

use lin_frontier::{Open, Pending};
use lin_objects::SeqObject;

/// Whether the operation is of the process, and observes.
fn does_observe<O: SeqObject>(object: &O, operation: &Open, process: u64) -> bool
    ensures { result ≡ (nat_eq operation.now.process process && O.observing object.now operation.now.call) }
{
    operation.process == process && object.observes(&operation.call)
}

/// Whether an operation of the process observes.
fn is_observing<O: SeqObject>(object: &O, pending: &[Open], process: u64) -> bool
    ensures { result ≡ is_observing_in (O.observing object.now) pending.now process }
{
    for operation in pending {
        if does_observe(object, operation, process) {
            return true;
        }
    }
    false
}

/// Whether the process waits for the reply of an operation that observes, and has not crashed.
pub fn is_watching<O: SeqObject>(object: &O, pending: &Pending, process: u64) -> bool
    ensures { result ≡ is_watching_in (O.observing object.now) pending.now process }
{
    is_observing(object, pending.as_slice(), process) && !pending.is_crashed(process)
}

/// Whether the operation observes, and has not crashed.
fn may_watch<O: SeqObject>(object: &O, operation: &Open) -> bool
    ensures { result ≡ (O.observing object.now operation.now.call && not operation.now.crashed) }
{
    object.observes(&operation.call) && !operation.crashed
}

/// Whether any operation observes, and has not crashed. Where none does, no process watches.
pub fn may_be_watched<O: SeqObject>(object: &O, pending: &Pending) -> bool
    ensures { IsFalse result → (process : ℕ) → is_watching_in (O.observing object.now) pending.now process ≡ true → ⊥ }
{
    for operation in pending.as_slice() {
        if may_watch(object, operation) {
            return true;
        }
    }
    false
}
