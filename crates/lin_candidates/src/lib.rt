//! A search for a certificate: candidates of each form, of which those that hold are answered.
#![tactic(auto)]

mod balances;
mod candidates;
mod crossings;
mod endings;
mod finding;
mod own;
mod within;

pub use finding::find_certificate;
