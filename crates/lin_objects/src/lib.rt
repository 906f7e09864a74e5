//! Sequential objects: their kinds, their states and the steps that they take.
#![tactic(auto)]

mod any;
mod bags;
mod kinds;
mod laws;
mod objects;
mod states;
mod taking;

pub use any::Any;
pub use bags::IntBag;
pub use kinds::{Kind, Kinds, KindsFault};
pub use laws::{naming, replies_decide, steps_are_allowed};
pub use objects::SeqObject;
pub use states::{IntQueue, State};
