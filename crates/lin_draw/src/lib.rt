//! Pictures of the operations around an answer, as SVG.
#![tactic(auto)]

mod bars;
mod canvas;
mod choosing;
mod drawing;
mod fades;
mod fitting;
mod heads;
mod labels;
mod layouts;
mod legal;
mod legends;
mod operations;
mod own;
mod pictures;
mod styles;

pub use fades::names_tell_fades;
pub use legal::Orders;
pub use pictures::{Wanted, picture_with_places};
