//! The set: the law that it has a legal order exactly where no operations of it conflict, and the engine that decides it by that law.
//!
//! The law, and an order where nothing conflicts, stand at the head of `conflict_laws`; the engine at that of `intervals`.
#![tactic(auto)]

mod changes;
mod conflict_laws;
mod effects;
mod endings;
mod intervals;
mod laws;
mod levels;
mod news;
mod numbers;
mod openings;
mod orders;
mod places;
mod points;
mod sizes;

pub use conflict_laws::{conflicts_refute, others_are_linearizable};
pub use intervals::Intervals;
pub use laws::intervals_tell;
pub use orders::order_of_acts;
