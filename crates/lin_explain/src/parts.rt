//! What is told beside the text of an explanation, in parts.
use lin_events::Item;
use lin_objects::Kind;
use lin_texts::Place;

/// An event that an explanation speaks of.
#[derive(Drop)]
pub struct Spot {
    /// Its position in the whole history.
    pub at: usize,
    /// Its whole words.
    pub words: Vec<u8>,
    /// Where it stands in the recording, if there is one.
    pub place: Option<Place>,
}

/// What was possible.
#[derive(Drop)]
pub struct Choices {
    /// How many there are, where all are known.
    pub count: Option<usize>,
    /// The whole words of those that the text lists, in its order.
    pub some: Vec<Vec<u8>>,
}

/// The certificate that is told.
#[derive(Drop)]
pub struct Why {
    /// The name of its form.
    pub name: &'static str,
    /// The positions in the whole history where the operations were invoked that its lines name, rising.
    pub calls: Vec<usize>,
}

/// The failure that a no is about.
#[derive(Drop)]
pub struct Failed {
    pub key: Item,
    pub kind: Kind,
    /// The event with which legal orders end: the end of the failing operation.
    pub event: Spot,
    /// Where the failing operation was invoked.
    pub call: Spot,
    /// What it could have returned.
    pub replies: Choices,
    /// What the object could be before that event.
    pub states: Choices,
    pub why: Option<Why>,
    /// The position in the whole history since which nothing ran that was invoked before.
    pub from: usize,
}

/// What an explanation says, by the answer.
#[derive(Drop)]
pub enum Parts {
    /// The object that was asked about with its kind, if one was.
    Yes {
        object: Option<(Item, Kind)>,
    },
    No(Failed),
    /// The object that has too many configurations, the event with which it has them, and the certificate of all its events that is told, if one
    /// is: then it has no legal order all the same.
    Undecided {
        key: Item,
        kind: Kind,
        event: Spot,
        why: Option<Why>,
    },
    /// The first bad event.
    IllFormed {
        event: Spot,
    },
}

/// An explanation of an answer.
#[derive(Drop)]
pub struct Explanation {
    /// The lines that follow the answer's own.
    pub lines: Vec<u8>,
    pub parts: Parts,
}
