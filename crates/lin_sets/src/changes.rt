//! What events change.

use crate::openings::Opened;
use lin_events::{Call, IntSet, Item};

/// What an event changed.
#[derive(Drop)]
pub(crate) enum Change {
    /// The process invoked an operation with this call, and the one before it last.
    Invoked {
        process: u64,
        call: Call,
        before: Option<Opened>,
    },
    /// A read was the first that found this.
    Found(IntSet),
    /// A read found what another one had found.
    FoundAgain,
    /// An add of the item failed, which was invoked at the place.
    Failed {
        at: usize,
        item: Item,
    },
    /// An operation ended otherwise.
    Ended,
}
