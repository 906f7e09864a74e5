//! A list or vector that is read element by element.

ghost use Rattle.std.specs.Prelude.{◌≡◌, ℕ, ◌+◌, ◌<◌, ◌≤◌, ◌++◌, [], List, IfOk, IfSome, IfNone, MatchOption, Ok, drop, length, slice_index};
ghost use Rattle.lin_bytes.specs.Bytes as bytes;
ghost use Rattle.lin_edn.specs.Grammar.{longest, tagging, Opens, Row, ShortBlanks};
ghost use Rattle.lin_edn.specs.inner.Levels.{frame_view, frames_of};
ghost use Rattle.lin_edn.specs.inner.Machine.{Answer, complete};
ghost use Rattle.lin_edn.specs.Rows.{IsRow, IsNext, IsBracketless, bracket_of, row_begun, row_end, row_levels};
ghost use Rattle.lin_edn.specs.inner.Scans.{IsFound, IsWrapped, waiting};
ghost use Rattle.lin_edn.specs.inner.Turns.{Answers};
ghost use Rattle.lin_edn.specs.Value.{Value, tagged};
ghost use Rattle.lin_edn.specs.View.{view};

use crate::found::tag_until;
use crate::levels::{Frame, push};
use crate::reader::{scan_on, window};
use crate::scan::white_end;
use crate::{Edn, EdnCause, EdnFault, Next, Span};
use std::alloc::{AllocError, Global};

/// A list or vector in front of a text, with a tag in front of it or none, whose elements are read one by one, so that none has to
/// be kept.
#[derive(Clone, Copy)]
pub struct Series {
    is_vector: bool,
    is_tagged: bool,
    // Where it begins: at its tag, if it has one.
    begun: usize,
    // How far the text is read.
    at: usize,
}

/// What comes next in a list or vector.
#[derive(Drop)]
pub enum Inside<'a> {
    Element(Edn<'a>),
    /// The list or vector is whole, and ends before this place.
    Closed(usize),
    /// Behind white neither a whole element nor the end: the text is unfinished or faulty there, or other blanks than white stand
    /// before its end.
    Unknown,
    /// Memory ran out.
    OutOfMemory,
}

impl Series {
    /// The list or vector that a text begins with behind white, with a tag in front of it or none, before its first element.
    pub fn begin(text: &[u8]) -> Option<Series>
        ensures some { IfSome result (λ r. IsRow r text.now []) }
        ensures none { IfNone result (IsBracketless text.now) }
    {
        let end = window(0, text.len());
        let begun = white_end(text, 0, end);
        match bracket_at(text, begun, end) {
            Some(is_vector) => Some(Series {
                is_vector,
                is_tagged: false,
                begun,
                at: begun + 1,
            }),
            None => behind_tag(text, begun, end),
        }
    }

    /// Reads on in the same text, or in a longer one that begins with it.
    pub fn next<'a>(&mut self, alloc: Global, text: &'a [u8]) -> Inside<'a>
        ensures { (vs : List Value) → IsRow self.old text.entry.now vs → IsNext self.old self.new text.entry.now vs result }
    {
        let end = window(0, text.len());
        if self.at > end {
            return Inside::Unknown;
        }
        self.at = white_end(text, self.at, end);
        if self.at == end {
            return Inside::Unknown;
        }
        if text[self.at] == self.closing() {
            return Inside::Closed(self.at + 1);
        }
        match element_at(alloc, text, self.at, self.is_tagged) {
            Ok(Some((element, used))) => {
                self.at = used;
                Inside::Element(element)
            }
            Ok(None) => Inside::Unknown,
            Err(fault) => match fault.cause {
                EdnCause::OutOfMemory => Inside::OutOfMemory,
                _ => Inside::Unknown,
            },
        }
    }

    /// Whether it is a vector.
    pub(crate) fn is_vector(&self) -> bool
        ensures { result ≡ self.now.is_vector }
    {
        self.is_vector
    }

    /// Whether a tag stands in front of it.
    pub(crate) fn is_tagged(&self) -> bool
        ensures { result ≡ self.now.is_tagged }
    {
        self.is_tagged
    }

    /// Where it begins: at its tag, if it has one.
    pub fn begun(&self) -> usize
        ensures { result ≡ row_begun self.now }
    {
        self.begun
    }

    /// Where it is read on from.
    pub fn place(&self) -> usize
        ensures { result ≡ row_end self.now }
    {
        self.at
    }

    /// How many levels it has inside: 63, or 62 behind a tag.
    pub fn levels(&self) -> usize
        ensures levels { result ≡ row_levels self.now }
        ensures some { 62 ≤ result }
    {
        if self.is_tagged { 62 } else { 63 }
    }

    /// Reads on over blanks and elements that are known to stand up to a place.
    pub fn pass(&mut self, until: usize)
        ensures end { row_end self.new ≡ until }
        ensures row { (s : List ℕ) (vs : List Value) (ws : List Value) → IsRow self.old s vs → until ≤ length s → until ≤ longest
            → Row (row_levels self.old) (row_end self.old) (drop (row_end self.old) s) ws until (drop until s) → IsRow self.new s (vs ++ ws) }
    {
        self.at = until;
    }

    /// The byte that closes it.
    fn closing(&self) -> u8
        ensures { result ≡ bytes.closing (bracket_of self.now.is_vector) }
    {
        if self.is_vector { b']' } else { b')' }
    }
}

/// Whether the bracket at a place opens a vector and no list, if it opens either.
fn bracket_at(text: &[u8], from: usize, end: usize) -> Option<bool>
    requires begun { from ≤ end }
    requires inside { end ≤ length text.now }
    ensures some { IfSome result (λ b. (from < end) × Opens (bracket_of b) from (drop from text.now) (from + 1) (drop (from + 1) text.now)) }
    ensures none { IfNone result (from < end → (slice_index text.now from ≡ 91 → ⊥) × (slice_index text.now from ≡ 40 → ⊥)) }
{
    if from == end {
        return None;
    }
    match text[from] {
        b'[' => Some(true),
        b'(' => Some(false),
        _ => None,
    }
}

/// The list or vector behind the tag at a place, if both stand there.
fn behind_tag(text: &[u8], begun: usize, end: usize) -> Option<Series>
    requires begun { begun ≤ end }
    requires inside { (end ≤ length text.now) × (end ≤ longest) }
    requires white { ShortBlanks text.now begun (drop begun text.now) }
    ensures { IfSome result (λ r. IsRow r text.now []) }
{
    let until = tag_until(text, begun, end);
    if until == begun {
        return None;
    }
    let from = white_end(text, until, end);
    let is_vector = bracket_at(text, from, end)?;
    Some(Series {
        is_vector,
        is_tagged: true,
        begun,
        at: from + 1,
    })
}

/// Reads the element behind a place of an input that begins with an open collection, which has a tag in front of it or none, and tells
/// where it ends.
#[inline(never)]
fn element_at<'a>(
    alloc: Global,
    input: &'a [u8],
    from: usize,
    is_tagged: bool,
) -> Result<Option<(Edn<'a>, usize)>, EdnFault>
    requires { from ≤ length input.now }
    ensures { IsFound is_tagged input.now from result }
{
    let stack = waiting_tags(alloc, input, is_tagged)?;
    Ok(unwrapped(scan_on(alloc, stack, input, from)?, is_tagged))
}

/// Tags that wait for their element, two or one: they keep the element from standing alone, where so many more levels are open.
fn waiting_tags<'a>(alloc: Global, input: &'a [u8], two: bool) -> Result<Vec<Frame<'a>>, AllocError>
    ensures { IfOk result (λ stack. frames_of stack.items ≡ waiting two) }
{
    let mut stack = Vec::new(alloc);
    push(&mut stack, waiting_tag(input))?;
    if two {
        push(&mut stack, waiting_tag(input))?;
    }
    Ok(stack)
}

/// A tag that waits for its element.
fn waiting_tag<'a>(input: &'a [u8]) -> Frame<'a>
    ensures { frame_view result ≡ tagging 0 0 [] }
{
    Frame::Tag(
        0,
        Span {
            at: 0,
            text: &input[..0],
        },
    )
}

/// The element behind two such tags, or one.
fn unwrapped<'a>(next: Next<'a>, two: bool) -> Option<(Edn<'a>, usize)>
    ensures { (answer : Answer) → Answers answer (Ok next.entry) → MatchOption result
        ((w : Value) (v : Value) (p : ℕ) (used : ℕ) → IsWrapped two v w → answer ≡ complete w p used → ⊥)
        (λ r. (w : Value) × (p : ℕ) × IsWrapped two (view r.0) w × (answer ≡ complete w p r.1)) }
{
    let Next::Complete { value, used, .. } = next else {
        return None;
    };
    let element = untagged(value)?;
    if !two {
        return Some((element, used));
    }
    let inner = untagged(element)?;
    Some((inner, used))
}

/// The element behind a tag.
fn untagged<'a>(element: Edn<'a>) -> Option<Edn<'a>>
    ensures { MatchOption result ((i : ℕ) (name : List ℕ) (v : Value) → view element.entry ≡ tagged i name v → ⊥)
        (λ e. (i : ℕ) × (name : List ℕ) × (view element.entry ≡ tagged i name (view e))) }
{
    match element {
        Edn::Tagged(_, inner) => Some(Box::into_inner(inner)),
        _ => None,
    }
}
