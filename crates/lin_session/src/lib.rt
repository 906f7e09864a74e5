//! A history that is written and corrected, and whether it is linearizable (Herlihy and Wing 1990).
#![tactic(auto)]

mod judgements;
mod kept;
mod merging;
mod object;
mod parts;
mod refuted;
mod session;

pub use lin_answers::{
    Answer, Edit, EditFault, Present, Scope, Verdict, WholeHistory, answers_are_verdicts,
};
pub use lin_chain::RefuteFault;
pub use refuted::Refuted;
pub use session::Session;
