//! Certificates: a few operations of one object that no legal order can have, each of a form that shows why. Searches tell by them that a register or
//! a bag has no legal order, and explanations tell them.
#![tactic(auto)]

mod bag_failures;
mod certificate;
mod locks;
mod operations;
mod passes;
mod queues;
mod registers;
mod sets;
mod words;

pub use bag_failures::bag_failure;
pub use certificate::{Certificate, certificates_exclude_orders, certifies, holds};
pub use operations::is_of_which;
pub use words::{Answers, Calls, ReadSort, Which};
