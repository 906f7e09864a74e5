//! Tables of the operations around the one at which legal orders end, and the words by which values, states, operations and events are told.
#![tactic(auto)]

mod choosing;
mod counts;
mod failing_operations;
mod marks;
mod operations;
mod quiet;
mod rows;
mod spellings;
mod spots;
mod tables;
mod values;
mod window_tables;

pub use counts::open_counts;
pub use failing_operations::{failing_operation, ran_beside};
pub use marks::{ListedOperations, Window};
pub use operations::{name_word, put_event, put_operation, put_worded_call, put_worded_operation};
pub use quiet::quiet_before;
pub use rows::Stretch;
pub use spellings::Wording;
pub use spots::{put_event_spot, put_spot, span_of};
pub use tables::{LineSpan, ListLine, TableRow, put_list, put_range, put_span, put_table};
pub use values::{
    put_items, put_reply, put_short_item, put_state, put_value, put_worded_reply, values_told_apart,
};
pub use window_tables::put_operations;
