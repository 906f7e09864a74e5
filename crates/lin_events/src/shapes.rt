//! What is said of a history: well-formed, or bad at a position for a cause.
ghost use Rattle.std.specs.Prelude.{◌≡◌, ◌↔◌, IsTrue};

use crate::calls::Name;
use crate::items::Item;

/// Why an event is bad, in the order in which the causes are tested.
#[derive(Clone, Copy, Debug, PartialEq, Eq)]
pub enum Cause {
    /// The process had an `:info`, and isn't used again.
    RetiredProcess,
    /// An invocation, while an operation of the process runs.
    BusyProcess,
    /// An invocation of a function that the kind of the key doesn't have.
    NotOfKind,
    /// A completion, while no operation of the process runs.
    NoInvocation,
    /// A completion of another function than was invoked.
    OtherCall,
    /// A completion at another key than was invoked.
    OtherKey,
}

/// Whether a history is well-formed: no position is bad, or the least bad one with its first cause.
#[derive(Clone, Copy, Debug, PartialEq, Eq)]
pub enum Shape {
    Good,
    Bad { at: usize, cause: Cause },
}

impl Shape {
    /// Whether no position is bad.
    pub fn is_good(self) -> bool
        ensures { IsTrue result ↔ (self ≡ Shape.Good) }
    {
        matches!(self, Shape::Good)
    }
}

/// What a process is between its events.
#[derive(Clone, Copy, Debug, PartialEq, Eq)]
pub enum ProcessStatus {
    /// Free to invoke.
    Idle,
    /// Within an operation: what was invoked, and at which key.
    Busy { called: Name, key: Item },
    /// Not to be used again.
    Retired,
}
