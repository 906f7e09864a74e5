//! Searches for a legal order of a register, with compare-and-set or without, and for operations of one that conflict.
//!
//! `order_ahead` (`ahead`) is the quick one, which is asked first: at most 8 configurations in place, with a bit for each open operation,
//! and two gaps. It finds an order of most recordings, and gives up where that isn't enough.
//!
//! `register_order` (`attempts`) goes through the events with a few beginnings of orders, and puts off what doesn't show: an operation
//! is placed when it returns, with those open updates that make way for it (`paths`), last or in a gap before an update that was placed
//! while they were open. It knows what comes, so a beginning goes where an open operation needs a value that nothing leaves any more.
//! At most 2 beginnings are kept, then 4, and where no operations are found that conflict 16, 128 and 1,024. That is the just-in-time
//! linearization of Lowe 2017 (Testing for linearizability) as a beam search: what it drops may have been the order.
//! `register_order_from` does the same from a state with open operations, for `lin_engines`.
//!
//! `register_failure` (`zones`) looks, one event after another, for the first up to which a certificate holds. All that holds a value
//! which one update leaves, that update and the reads of it, stands together in a legal order: its zone runs from the first return
//! among these to the last invocation. Of two zones each of which begins before the other ends there is no order (Gibbons and Korach
//! 1997, Testing shared memories). Beside these `Crossed` zones it knows values that nothing left (`Unwritten`) and values that were
//! overwritten before (`Stale`).
//!
//! It is a guide: nothing is promised of what either finds but that it is safe and ends. An order has to pass `check_order`, a certificate
//! `certifies` (`lin_certificates`); nothing found says nothing. Each attempt gives up after 32 steps or 1,024 comparisons for each event,
//! and the zones after 16 steps, with a fixed number more. More: docs/SEARCHES.md, 'An order of a register' and 'Operations of a
//! register that conflict'.
#![tactic(auto)]

mod acts;
mod ahead;
mod attempts;
mod deeds;
mod drafts;
mod lines;
mod paths;
mod placings;
mod pool;
mod returns;
mod tries;
mod zones;

pub use acts::Waiting;
pub use ahead::order_ahead;
pub use attempts::{register_order, register_order_from};
pub use zones::register_failure;
