//! What is found of a history, and why, as JSON for machines: one map, on one line, with no blank outside strings.
#![tactic(auto)]

mod answers;
mod explanations;
mod failures;
mod strings;
mod unopened;

pub use answers::{Head, put_answer, put_file_front, put_object, put_objects_front};
pub use explanations::{put_explanation, put_refusal};
pub use unopened::put_unopened;
