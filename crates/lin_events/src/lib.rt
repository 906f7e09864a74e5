//! Events of recorded histories: what clients call, what they are answered, and what a well-formed history is.
#![tactic(auto)]

mod calls;
mod events;
mod items;
mod laws;
mod lists;
mod meter;
mod shapes;

pub use calls::{Call, Name, Reply, Val};
pub use events::{Body, Event};
pub use items::{Item, items_are_ordered};
pub use laws::{
    bad_positions, beginnings_are_well_formed, ends_are_unique, shapes_are_unique,
    statuses_after_events, well_formed_is_alternating,
};
pub use lists::{IntSet, Items, OutOfMemory, sets};
pub use meter::Meter;
pub use shapes::{Cause, ProcessStatus, Shape};
