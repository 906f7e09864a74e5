//! The fifo queue: an engine that finds the event up to which its debts can't be paid, and a search for an item that was taken out more often,
//! between two ranks, than it can have been put in.
//!
//! Both tell failures alone: up to and with the event that they find there is no legal order. Neither finds each failure. The algorithms,
//! and what they promise, stand at the head of `debts` and of `finding`, the laws on which they rest at that of `debt_laws` and `laws`.
#![tactic(auto)]

mod checking;
mod counts;
mod debt_laws;
mod debts;
mod elements;
mod failing;
mod finding;
mod gathered;
mod laws;
mod lines;
mod members;
mod opens;
mod operations;
mod rounds;
mod settling;
mod taking;

pub use debt_laws::{
    debts_after_events, debts_after_ok, debts_are_payable, debts_at_start, debts_move, no_debts,
    other_ok_is_illegal,
};
pub use debts::{Debts, Progress};
pub use failing::{QueueFinding, failing_event};
pub use finding::rank_failure;
pub use laws::overtaken_ranks_are_illegal;
