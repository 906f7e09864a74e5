//! Rows about streams that are fed in pieces.
use crate::shown::{put_event, put_events};
use crate::words::{first_number, keyed};
use crate::{Event, Follow, FollowFault, Names};
use std::alloc::Global;

/// A stream, and the words that it has.
#[derive(Drop)]
pub struct Source {
    follow: Follow,
    names: Names,
}

impl Source {
    pub fn new(alloc: Global, keyed: bool) -> Source {
        Source {
            follow: Follow::new(alloc, keyed),
            names: Names::new(alloc),
        }
    }

    fn feed(&mut self, piece: &[u8]) -> Result<usize, FollowFault> {
        self.follow.feed(piece, &mut self.names)
    }
}

/// A stream to which a text is fed in pieces of so many bytes.
fn in_pieces(alloc: Global, keyed: bool, text: &[u8], size: usize) -> Option<Source> {
    if size == 0 {
        return None;
    }
    let mut source = Source::new(alloc, keyed);
    for piece in text.chunks(size) {
        let _fed = source.feed(piece);
    }
    Some(source)
}

/// `stream`: a new stream; `stream SIZE TEXT`: one to which the text was fed in pieces of so many bytes. How many events are ready.
pub fn stream(alloc: Global, source: &mut Source, text: &str, out: &mut String) -> Option<()> {
    let (size, rest) = first_number(text).unwrap_or((1, text));
    *source = in_pieces(alloc, false, rest.as_bytes(), size)?;
    write!(out, "{} ready", source.follow.ready()).ok()
}

/// `feed PIECE`: how many events became ready, or the fault.
pub fn feed(source: &mut Source, piece: &str, out: &mut String) -> Option<()> {
    let fed = source.feed(piece.as_bytes());
    write!(out, "{fed:?}").ok()
}

/// `finish`: how many events are ready, and how the stream ends if it ends here.
pub fn finish(source: &Source, out: &mut String) -> Option<()> {
    let outcome = source.follow.finish();
    write!(out, "{} ready, {outcome:?}", source.follow.ready()).ok()
}

/// `take`: the oldest event that is ready.
pub fn take(source: &mut Source, out: &mut String) -> Option<()> {
    match source.follow.take() {
        Some(event) => put_event(out, &event),
        None => out.push_str("none").ok(),
    }
}

/// `take-all`: all events that are ready.
pub fn take_all(source: &mut Source, out: &mut String) -> Option<()> {
    let events = source.follow.take_all();
    write!(out, "{} events: ", events.len()).ok()?;
    put_events(out, events.as_slice())
}

/// What a stream told: how it ends, and its events.
#[derive(Drop)]
struct Told {
    outcome: Result<(), FollowFault>,
    events: Vec<Event>,
}

impl Told {
    fn by(mut source: Source) -> Told {
        Told {
            outcome: source.follow.finish(),
            events: source.follow.take_all(),
        }
    }

    /// What a text tells that is fed in two pieces.
    fn by_two(alloc: Global, keyed: bool, first: &[u8], second: &[u8]) -> Told {
        let mut source = Source::new(alloc, keyed);
        let _fed = source.feed(first);
        let _fed = source.feed(second);
        Told::by(source)
    }

    fn has_events_of(&self, other: &Told) -> bool {
        self.events.as_slice() == other.events.as_slice()
    }

    fn is_same(&self, other: &Told) -> bool {
        self.outcome == other.outcome && self.has_events_of(other)
    }

    /// The outcome with its place set to 0.
    fn placeless(&self) -> Result<(), FollowFault> {
        match self.outcome {
            Err(FollowFault::Edn { at: _, cause }) => Err(FollowFault::Edn { at: 0, cause }),
            Err(FollowFault::Event { at: _, cause }) => Err(FollowFault::Event { at: 0, cause }),
            Err(FollowFault::Truncated { at: _ }) => Err(FollowFault::Truncated { at: 0 }),
            _ => self.outcome,
        }
    }
}

/// Whether a text tells the same wherever it is cut in two, and in pieces of some lengths.
fn tells_cut(alloc: Global, keyed: bool, text: &[u8], whole: &Told) -> Option<bool> {
    for cut in 0..text.len() {
        if !Told::by_two(alloc, keyed, &text[..cut], &text[cut..]).is_same(whole) {
            return Some(false);
        }
    }
    for size in [1, 2, 3, 7, 50] {
        if !Told::by(in_pieces(alloc, keyed, text, size)?).is_same(whole) {
            return Some(false);
        }
    }
    Some(true)
}

/// The text with a discard in each map, so that none is usual.
fn unusual(alloc: Global, text: &str) -> Option<String> {
    let mut longer = String::new(alloc);
    for letter in text.chars() {
        longer.push(letter).ok()?;
        if letter == '{' {
            longer.push_str("#_0 ").ok()?;
        }
    }
    Some(longer)
}

/// Whether a text tells the same, places aside, with a discard in each map.
fn tells_unusual(alloc: Global, keyed: bool, text: &str, whole: &Told) -> Option<bool> {
    let longer = unusual(alloc, text)?;
    let told = Told::by_two(alloc, keyed, longer.as_str().as_bytes(), b"");
    Some(told.has_events_of(whole) && told.placeless() == whole.placeless())
}

/// `tells TEXT`, `tells keyed TEXT`: how many events a text tells, and whether it tells the same however it is cut, and where no
/// map is usual.
pub fn tells(alloc: Global, text: &str, out: &mut String) -> Option<()> {
    let (keyed, rest) = keyed(text);
    let whole = Told::by_two(alloc, keyed, rest.as_bytes(), b"");
    let cut = tells_cut(alloc, keyed, rest.as_bytes(), &whole)?;
    let unusual = tells_unusual(alloc, keyed, rest, &whole)?;
    let count = whole.events.len();
    write!(out, "{count} events, cut: {cut}, unusual: {unusual}").ok()
}
