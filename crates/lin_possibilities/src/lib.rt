//! What an object could be after some of its events, and what an operation that is open then could have been answered; and the lines of an
//! explanation that tell it.
#![tactic(auto)]

mod after;
mod differences;
mod listing;
mod outcomes;
mod possibilities;
mod possible;
mod ranks;
mod run;
mod telling;
mod texts;
mod told;
mod whole;
mod words;

pub use listing::Listed;
pub use outcomes::{Before, Outcomes, outcomes_of};
pub use possible::Possible;
pub use texts::{put_outcomes, put_was};
pub use whole::put_whole_reply;
