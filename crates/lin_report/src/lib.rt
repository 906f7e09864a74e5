//! Checks of recorded histories over readers and a writer: what is read, what is asked, and the text of the answer.
#![tactic(auto)]

mod answers;
mod asked_keys;
mod beside;
mod checks;
mod commands;
mod drawing;
mod each;
mod explaining;
mod failing;
mod findings;
mod formats;
mod json_explanations;
mod json_reports;
mod laws;
mod pulls;
mod refused;
mod refuting;
mod replies;
mod reports;
mod runs;
mod senses;
mod sessions;
mod working;

pub use answers::write_answer;
pub use asked_keys::RunEnding;
pub use checks::check;
pub use commands::{Command, CommandFault, commands_are_unique, read_command};
pub use drawing::draw;
pub use explaining::{Question, explain};
pub use formats::ReportFormat;
pub use laws::answers_agree;
pub use lin_formats::{
    Counted, OrderFault, RunFault, Settings, Status, read_order, verdicts_are_unique, verify,
    write_order, written_orders_are_read,
};
pub use reports::write_report;
pub use runs::run;
