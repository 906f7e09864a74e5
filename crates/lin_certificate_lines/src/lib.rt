//! The lines of an explanation that tell a certificate in words.
#![tactic(auto)]

mod counts;
mod groups;
mod listing;
mod locks;
mod naming;
mod queues;
mod reasons;
mod registers;
mod series;
mod sets;
mod sides;
mod surplus;
mod told;
mod within;

pub use reasons::put_reason;
pub use told::{ObjectEvents, put_called, put_failed, put_op, put_returned};
