//! Engines, behind one face: each sees an object's events one after the other, and tells how they end.
//!
//! An `Engine` takes the next event in, and says `On`: it goes on; `Dead`: with this event there is no legal order; `Over`: there are
//! more configurations than the budget; or `Gone`: it says nothing from here on. It is right for the events that it took in, whatever
//! comes behind them, and these have a legal order, so the event at which it says `Dead` ends the shortest beginning that has none.
//! There are
//!
//! - `Replay`: the frontiers of `lin_compressed_frontier`, of all objects, with a checkpoint at each 64th event; never `Gone`;
//! - `Exact`: the intervals of a set (`lin_sets`) or what a lock owes (`lin_locks`); never `Over` or `Gone`;
//! - `Witness`: an order that goes on, of registers and queues; never `Dead` or `Over`.
//!
//! A `Lane` holds an engine, what it said last, and its mark: how many of the events aren't due to it any more. Edits cut it back, and
//! it goes on from there.
//!
//! Promised, of well-formed events, of each engine and so of each lane: what it says is true (`IsTrueOf`); an order that it tells is a
//! legal one of what it took in; the event that it takes in is one step; a cut goes back to the place or to at most 63 events before
//! it, without memory. Not promised: which of them tells first, and when. The algorithms and their papers stand at the crates named, and at the head of `witness`.
//! More: docs/SEARCHES.md, 'Engines'.
#![tactic(auto)]

mod ends;
mod engine;
mod exact;
mod lane;
mod outcomes;
mod replay;
mod retold;
mod says;
mod searching;
mod witness;
mod witnesses;

pub use ends::End;
pub use engine::Engine;
pub use exact::Exact;
pub use lane::Lane;
pub use replay::Replay;
pub use says::Says;
pub use witness::{Back, Witness};
pub use witnesses::{copied, mend, suggest};
