//! Events read from operation maps, and streams of them in pieces.
#![tactic(auto)]

mod follow;
mod next;
mod outlines;
mod passed;
mod row;
mod small;
mod table;
mod usual;
mod values;

pub use follow::{Follow, FollowFault, faults_stay, streams_are_unique};
pub use lin_events::{
    Body, Call, Cause, Event, IntSet, Item, Items, Meter, Name, OutOfMemory, ProcessStatus, Reply,
    Shape, Val,
};
pub use lin_names::Names;
pub use next::{NextEvent, next_event, next_event_by};
pub use outlines::Means;
pub use passed::PassedOver;
pub use table::{EventFault, event_of};
