//! Configurations of one object, the frontier that holds all of them, and the list of what is open, with marks to go back to.
//!
//! A configuration (`Config`) is what a legal order of the events so far leaves behind: the state in which it ends, and the open
//! operations that it placed, each with its reply. The events have a legal order exactly where they have a configuration, and what one
//! more event makes of all configurations can be told from these alone (`configurations_after_events` of `lin_order`).
//! `Frontier::advance_all` does just that. An invocation adds all that placing open operations, one after the other, leads to
//! (`closure`, a map that is its own work list); an ok keeps those that placed its operation with the reply, and takes it out of them;
//! a fail keeps those that didn't place it; an info leaves all. It is the set of which the searches of Wing and Gong 1993 (Testing and
//! verifying concurrent objects) and Lowe 2017 (Testing for linearizability) each visit a part.
//!
//! Promised of well-formed events: the next frontier is exactly their configurations, each with a node that spells a legal order;
//! `Empty` only where there is no legal order; `Over` only where there are more configurations than the budget. Not promised: that they
//! are few. Of n open writes alone there are 1 + n * 2^(n - 1), so this frontier is made for `refute` alone, whose sets have to be
//! whole. Verdicts come from the frontiers of `lin_compressed_frontier`, which stands on the configurations, open operations and nodes of this
//! crate.
//!
//! A step an event; an invocation with k operations open before it takes at most (budget + 1) * (k + 1) tries, other events none. More:
//! docs/FRONTIERS.md, docs/REFUTATIONS.md.
#![tactic(auto)]

mod changes;
mod configs;
mod frontier;
mod keeping;
mod nodes;
mod opens;
mod pairs;
mod pending;
mod placing;
mod search;
mod spare;

pub use configs::{Config, is_absent, is_pair, is_placed};
pub use frontier::{Arrival, Frontier, Step};
pub use keeping::{copy_config, copy_without};
pub use nodes::{NodeId, Nodes};
pub use opens::{OpenList, OpenMark};
pub use pairs::{PairList, Pairs};
pub use pending::{Open, Pending, append_operations, nothing_is_open_at_first, open_of, take_in};
pub use placing::place_if_absent;
pub use spare::Spare;
