//! Well-formed histories: the first bad event and its cause, or none.
#![tactic(auto)]

mod backward;
mod codes;
mod last_events;
mod numbers;
mod scan;
mod statuses;
mod tables;

pub use backward::look_back;
pub use lin_events::{Cause, Shape};
pub use scan::Scan;
