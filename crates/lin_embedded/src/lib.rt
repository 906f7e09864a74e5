//! Checks of histories for a caller that holds their bytes, or that feeds them in pieces and asks in between, and room for what is told of them.
#![tactic(auto)]

mod asking;
mod boxes;
mod calls;
mod handing;
mod handle;
mod options;
mod recorder;
mod sessions;

pub use boxes::BoxParts;
pub use calls::{check, explain};
pub use handing::CallEnd;
pub use handle::Handle;
pub use options::Options;
pub use recorder::{Intake, Ordered, Recorder};
pub use sessions::{session_ask, session_feed, session_free, session_new, session_order};
