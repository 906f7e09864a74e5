//! Edits of a history, and why one is refused.
use lin_events::{Event, Item};
use lin_objects::Kind;

/// One change to a history, to the kind of an object or to the budget. Positions count from 0.
#[derive(Drop)]
pub enum Edit {
    /// One more event, last.
    Append(Event),
    /// The first so many events stay.
    Truncate(usize),
    /// Another event at the position.
    Replace(usize, Event),
    /// The event at the position goes, and each later one moves one place forward.
    Remove(usize),
    /// The object of the key is of this kind.
    SetKind(Item, Kind),
    /// So many configurations may be kept for one object.
    SetBudget(u32),
}

/// Why an edit was refused.
#[derive(Clone, Copy, Debug, PartialEq, Eq)]
pub enum EditFault {
    /// The history has no such position, or fewer events.
    BadPosition,
    /// The history has 1,000,000 events, or 65,536 other keys are named.
    Full,
    /// The budget is not from 1 to 1,000,000.
    BadBudget,
    /// Memory was refused.
    OutOfMemory,
}
