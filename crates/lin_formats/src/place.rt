//! Lines and bytes.
ghost use Rattle.std.specs.Prelude.{◌≡◌, ℕ, ◌+◌, ◌≤◌, suc, length, take, drop, List};
ghost use Rattle.lin_formats.specs.Places.{newlines as count_newlines, place_at};
ghost use Rattle.lin_formats.specs.inner.Marks.{Fits};

use lin_texts::Place;
use memchr::memchr_iter;

/// Where a text stops that is read as far as it goes.
#[derive(Clone, Copy, Debug, PartialEq, Eq)]
pub(crate) enum Stop {
    /// Nothing is unfinished but a comment.
    Nowhere,
    /// An unfinished element or discard begins here.
    Unfinished(Place),
    /// Here is a fault of EDN, or begins a map that is no event.
    Bad(Place),
}

/// A place of a text that is part of a longer one.
#[derive(Clone, Copy, Debug, PartialEq, Eq)]
pub(crate) struct Cursor {
    /// How many bytes of the text stand before it.
    pub at: usize,
    /// Its place in the longer one.
    pub place: Place,
}

/// How many bytes end a line.
fn newlines(bytes: &[u8]) -> u64
    ensures count { result ≡ count_newlines bytes.now }
    ensures within { result ≤ length bytes.now }
{
    // (its own `count` looks at byte after byte, and most lines are long)
    Iterator::count(memchr_iter(b'\n', bytes)) as u64
}

/// A later place of a text.
pub(crate) fn go_to(text: &[u8], from: Cursor, to: usize) -> Cursor
    requires later { from.at ≤ to }
    requires inside { to ≤ length text.now }
    requires fits { Fits text.now from }
    ensures at { result.at ≡ to }
    ensures fits { Fits text.now result }
    ensures behind { from.place.offset ≤ result.place.offset }
    ensures place { (whole : List ℕ) (p : ℕ) → text.now ≡ drop p whole → from.place ≡ place_at whole (p + from.at) → result.place ≡ place_at whole (p + to) }
{
    let passed = &text[from.at..to];
    Cursor {
        at: to,
        place: Place {
            offset: from.place.offset + passed.len() as u64,
            line: from.place.line + newlines(passed),
        },
    }
}
