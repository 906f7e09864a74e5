//! Questions about a history, their answers, and edits: the words of whoever asks and of whoever tells.
#![tactic(auto)]

mod answers;
mod edits;
mod present;
mod whole;

pub use answers::{Answer, Scope, Verdict, answers_are_verdicts};
pub use edits::{Edit, EditFault};
pub use present::Present;
pub use whole::WholeHistory;
