//! What a run is told.

use lin_objects::Kind;

/// What a run is told.
#[derive(Clone, Copy, Debug, PartialEq, Eq)]
pub struct Settings {
    /// What each object is.
    pub kind: Kind,
    /// Whether values are pairs of a key and a value, one object for each key.
    pub keyed: bool,
    /// How many configurations are kept for one object, 1 to 1,000,000.
    pub budget: u32,
    /// How many events of clients a file has to have of which a run tells what it found. Where its bytes are a history of fewer, it is refused.
    pub at_least: u32,
}
