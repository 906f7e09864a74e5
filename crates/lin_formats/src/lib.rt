//! Histories read from files, with the line and the byte of each event where they are wanted, verdicts on orders and their texts, and what is told of
//! a file that is refused; hands on the names of `lin_texts`.
#![tactic(auto)]

mod counted;
mod elements;
mod hints;
mod inputs;
mod mark;
mod place;
mod places;
mod reading;
mod refused;
mod verdict_laws;
mod verdicts;
mod verifying;
mod writing;

pub use counted::Counted;
pub use inputs::{History, finish_history, read_history, take_piece, with_least};
pub use lin_events::OutOfMemory;
pub use lin_history::PassedOver;
pub use lin_texts::{
    OrderFault, Place, RunFault, Settings, Status, Word, cause_words, end_of_part, item_in,
    kind_named, kind_word, kind_words, kind_words_are_read, next_word, number, put_item, put_list,
    put_members, put_number, read_order, write_order, written_items_are_read,
    written_orders_are_read,
};
pub use places::Places;
pub use reading::{EventPlaces, read_placed};
pub use refused::{place_of, refusal_lines};
pub use verdict_laws::verdicts_are_unique;
pub use verdicts::{OrderVerdict, Refusal, edn_cause, event_fault, refusal_words};
pub use verifying::verify;
pub use writing::write_whole;
