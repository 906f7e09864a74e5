//! What is kept of the objects of a history.
ghost use Rattle.std.specs.Prelude.{◌≡◌, length};

use indexmap::IndexSet;
use lin_chain::Chain;
use lin_events::Item;

/// What is kept of one object.
#[derive(Drop)]
pub(crate) struct Object {
    /// The positions of its events, rising, among the events that are told apart.
    pub(crate) picks: Vec<usize>,
    /// At most as many as the history has of its events, and just as many from its first question on.
    pub(crate) count: usize,
    pub(crate) chain: Chain,
}

/// What is kept of the objects of a history: of each key that was met.
#[derive(Drop)]
pub(crate) struct Objects {
    /// How many events, the first ones, are told apart by their keys.
    pub(crate) split: usize,
    pub(crate) keys: IndexSet<Item>,
    pub(crate) objects: Vec<Object>,
    /// Whether each is expected to be asked about once.
    pub(crate) once: bool,
    /// At the place of each key stands its object.
    ghost aligned: { length objects.items ≡ length keys.keys },
}
