//! The texts of numbers, items, kinds and orders, read and put; how runs end, and places in texts.
#![tactic(auto)]

mod causes;
mod faults;
mod integers;
mod items;
mod kinds;
mod numbers;
mod orders;
mod parts;
mod place;
mod settings;
mod status;
mod texts;

pub use causes::cause_words;
pub use faults::{OrderFault, RunFault};
pub use integers::number;
pub use items::{item_in, put_item, written_items_are_read};
pub use kinds::{kind_named, kind_word, kind_words, kind_words_are_read};
pub use numbers::put_number;
pub use orders::read_order;
pub use parts::{Word, end_of_part, next_word};
pub use place::Place;
pub use settings::Settings;
pub use status::Status;
pub use texts::{put_list, put_members, write_order, written_orders_are_read};
