//! What events change.

use crate::latest::Running;
use crate::sides::{Closed, Paid};
use lin_events::Call;

/// What changed with the end of an operation.
#[derive(Clone, Copy)]
pub(crate) struct EndChange {
    /// It was open.
    pub(crate) closed: Option<Closed>,
    /// It paid this.
    pub(crate) paid: Option<Paid>,
    /// One of the other call is owed for it.
    pub(crate) owes: bool,
    /// How the lock was before.
    pub(crate) held: bool,
    /// How long the order was before.
    pub(crate) length: usize,
}

/// What an event changed.
#[derive(Clone, Copy)]
pub(crate) enum Change {
    /// Nothing.
    Stayed,
    /// The process invoked an operation with this call, and this one before it last.
    Invoked {
        process: u64,
        call: Call,
        before: Option<Running>,
    },
    /// An operation ended that acquires.
    Acquired(EndChange),
    /// An operation ended that releases.
    Released(EndChange),
}
