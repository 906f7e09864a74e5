//! The frontier that runs: few members that stand for all configurations of one object, kept up to date event by event.
//!
//! All configurations (`lin_frontier`) are too many, since each open operation stands in them with and without its place. So nothing is
//! placed before it shows. A member (`lin_members`) has a state, the open updates that were placed on the way to it, and what was on
//! offer to each open read on that way. An invocation leaves the members as they are. The ok of an update keeps those that have placed
//! it with its reply, that of a read those to which the reply is on offer or whose state gives it; from the others, ways of placing
//! open updates until it can be placed are searched, breadth first (`completions`), and what another member dominates goes (`seen`,
//! `thinning`). This is the search of Wing and Gong 1993 (Testing and verifying concurrent objects) with the memory and the
//! just-in-time linearization of Lowe 2017 (Testing for linearizability), but over all ways at once, and with reads that aren't placed
//! before they return. Where each update overwrites what was there, as a register's writes do, nothing is searched: an update stands
//! last, or just ahead of the last one (`asking`).
//!
//! Where a search gets longer than its limit, the configurations before the event are listed (`lin_configurations`): more than the budget, and
//! the object is over; else the list answers. Below a budget of 1,024 all are counted after each event.
//!
//! Promised of well-formed events (`Compressed::advance`): the next members lead to covers of all configurations, and to configurations
//! alone, each with a node that spells a legal order; `Empty` only where there is no legal order, `Over` and `OverBefore` only where
//! there are more configurations than the budget. Not promised: how many members there are. On registers they are one or two mostly.
//!
//! A step an event; with k operations open before it at most budget * (4 * k + 4) tries, and of what is overwritten 2 * (k + 2)^2 more
//! for each member. More: docs/FRONTIERS.md.
#![tactic(auto)]

mod asking;
mod completions;
mod compressed;
mod exchanges;
mod scratch;
mod seen;
mod showing;
mod thinning;
mod within;

pub use compressed::Compressed;
pub use scratch::Scratch;
pub use within::{Advance, is_counted, members_spell_legal_orders};
