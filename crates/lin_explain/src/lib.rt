//! Why the answer is what it is: the lines of an explanation, behind the answer's own, and what they say in parts.
#![tactic(auto)]

mod certain;
mod counts;
mod events;
mod failures;
mod fallen;
mod heads;
mod ill_formed;
mod known;
mod laws;
mod own;
mod parts;
mod passes;
mod possible;
mod since;
mod spots;
mod sums;
mod telling;
mod undecided;
mod whys;
mod yes;

pub use certain::{certificates_are_certain, noes_are_certain, put_certain};
pub use laws::failures_are_explained;
pub use parts::{Choices, Explanation, Failed, Parts, Spot, Why};
pub use telling::{Asked, explanation_from, explanation_of};
