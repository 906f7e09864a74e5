//! Words by the numbers of their spellings, and items as they are printed.
#![tactic(auto)]

mod names;
mod printed;
mod said;

pub use names::{Names, names_grow};
pub use printed::{
    in_print, is_in_print, printed_order, said_order, sort_printed, spelled_is_total,
};
pub use said::{Said, shown};
