//! The classes of bytes, and where a text ends that a quote closes.
#![tactic(auto)]

mod classes;
mod texts;

pub use classes::{is_plain, is_stop, is_white};
pub use texts::text_end;
