//! The configurations that members of a compressed frontier lead to, listed, or told to be more than a budget without being made.
#![tactic(auto)]

mod branches;
mod expansion;
mod gathered;
mod listing;

pub use branches::are_surely_more;
pub use listing::{listed, listings_cover};
