//! Searches of all events for a legal order of a register or a queue, or for a failure: what is found has passed a check.
//!
//! Three calls ask the guides, which promise nothing, and check what these say (`witness.rt`). `finds_order` asks for an order: of
//! registers `order_ahead` (few configurations) and `register_order` (`lin_registers`), of queues `queue_order` (the order of the elements first, each of which is put in
//! once), of unordered queues `bag_order` (items are put in and taken out as late as their operations allow), and of all four kinds
//! `depth_first_order` (`depth_first.rt`). `finds_conflict` asks why there is none: for operations that conflict (registers by the zones of
//! Gibbons and Korach 1997, Testing shared memories; unordered queues by counting), or of queues for debts that can't be paid
//! (`lin_queues`) and items that ranks overtake (`lin_queues`). `finds_failure` asks for such an event and for an order of the events
//! before it. Sets and locks aren't searched: they have engines.
//!
//! Promised of well-formed events: an order that is answered is a legal one of the object's events (`check_order`); up to and with an
//! event that `finds_conflict` answers there is none; the one of `finds_failure` ends the shortest beginning that has none. Not
//! promised: that anything is found. No answer says nothing of the history.
//!
//! The steps are counted, and bounded: at most two for each event in `finds_order` and in `finds_conflict`, four in `finds_failure`.
//! Each guide gives up by itself, so time grows about linearly in the events, apart from how many operations are open at a time. More:
//! docs/SEARCHES.md, 'Guides: found, then checked' and what follows.
#![tactic(auto)]

mod bags;
mod chronology;
mod contents;
mod copies;
mod depth_first;
mod elements;
mod links;
mod numbers;
mod operations;
mod queues;
mod ranks;
mod sequence;
mod sides;
mod witness;

pub use bags::bag_order;
pub use queues::queue_order;
pub use witness::{Guide, finds_conflict, finds_failure, finds_order};
