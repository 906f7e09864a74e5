//! A reader of EDN elements from bytes, in one pass with a stack.
#![tactic(auto)]

ghost use Rattle.std.specs.Prelude.{◌≡◌, ℕ, List, ◌++◌, ◌<◌, ◌≤◌, length};
ghost use Rattle.lin_edn.specs.Grammar.{Spells, ShortBlanks, IsBlankText, IsUnfinished};
ghost use Rattle.lin_edn.specs.Laws.{ReadingsAreUnique, ValuesAreUnique, ElementsAreUnique, BlanksAreSkipped};
ghost use Rattle.lin_edn.specs.Reading.{Says, IsRead, IsBlank, Refuses, out_of_memory};
ghost use Rattle.lin_edn.specs.Rows.{IsRow};
ghost use Rattle.lin_edn.specs.Value.{Value};
ghost use Rattle.lin_edn.specs.declared.EdnCause.{EdnCause as Cause};
ghost use Rattle.lin_edn.specs.declared.series.Series.{Series as TheSeries};

mod found;
mod item_ends;
mod levels;
mod nested;
mod reader;
mod run;
mod scan;
mod series;
mod shapes;
mod skim;

pub use crate::found::{run_until, tag_until, text_until, white_until};
pub use crate::item_ends::item_end;
pub use crate::nested::nested_until;
pub use crate::reader::window;
pub use crate::run::{integer, run_element};
pub use crate::series::{Inside, Series};
pub use crate::shapes::{LANES, Segment, digits_until};
pub use crate::skim::Skim;
pub use lin_bytes::{is_stop, text_end};
use std::alloc::{AllocError, Global};

/// A part of the input: `text` is `input[at..at + text.len()]`.
#[derive(Drop)]
pub struct Span<'a> {
    pub at: usize,
    pub text: &'a [u8],
}

/// One element of EDN.
#[derive(Drop)]
#[cycle(edn)]
pub enum Edn<'a> {
    Nil,
    Bool(bool),
    Int(i64),
    /// A symbol, a character, or a number that is no integer of 64 bits.
    Atom(Span<'a>),
    /// With its colon.
    Keyword(Span<'a>),
    /// From its first byte, `"` or `#`, to its closing quote.
    Text(Span<'a>),
    List(Vec<Edn<'a>>),
    Vector(Vec<Edn<'a>>),
    /// Members may repeat.
    Set(Vec<Edn<'a>>),
    /// Keys may repeat.
    Map(Vec<Entry<'a>>),
    /// The tag without its `#`, and the element that it stands before.
    Tagged(Span<'a>, Box<Edn<'a>>),
}

/// A key of a map with its value.
#[derive(Drop)]
#[cycle(edn)]
pub struct Entry<'a> {
    pub key: Edn<'a>,
    pub value: Edn<'a>,
}

/// What stands at the front of an input.
#[derive(Drop)]
pub enum Next<'a> {
    /// After blanks an element begins at `at` and ends before `used`.
    Complete {
        value: Edn<'a>,
        at: usize,
        used: usize,
    },
    /// The bytes from `at` on are the unfinished beginning of an element or discard.
    Partial {
        at: usize,
    },
    /// Blanks of `used` bytes, and then nothing or an unfinished comment.
    Blank {
        used: usize,
    },
}

/// Why nothing is read, and the place that tells it.
#[derive(Clone, Copy, Debug, PartialEq, Eq)]
pub struct EdnFault {
    pub at: usize,
    pub cause: EdnCause,
}

/// What is wrong at the place of a fault.
#[derive(Clone, Copy, Debug, PartialEq, Eq)]
pub enum EdnCause {
    /// A closing byte that doesn't close the innermost open collection.
    Unbalanced,
    /// The end of a map with an odd number of elements.
    OddMap,
    /// The first byte of the 65th level.
    TooDeep,
    /// The first byte of a top-level element, comment or discard of more than 16,777,216 bytes.
    TooLong,
    /// Memory ran out; the place is 0.
    OutOfMemory,
}

impl From<AllocError> for EdnFault {
    ghost from_gives = { λ _ e. e ≡ out_of_memory };

    fn from(_e: AllocError) -> EdnFault {
        EdnFault {
            at: 0,
            cause: EdnCause::OutOfMemory,
        }
    }
}

/// The element at the front of the input, or what stands there in its place.
///
/// An element is complete only where a byte stops it that isn't of it, or where it ends in a closing byte or a quote.
/// The first fault in reading order is told; `OutOfMemory` may stand in place of any answer.
pub fn next_element<'a>(alloc: Global, input: &'a [u8]) -> Result<Next<'a>, EdnFault>
    // What is answered is so.
    ensures says { Says input.entry.now result }
    // Each spelled element is read.
    ensures read { (v : Value) (at : ℕ) (used : ℕ) → Spells input.entry.now v at used → IsRead result v at used }
    // Blanks are told.
    ensures blank { (used : ℕ) → IsBlankText input.entry.now used → IsBlank result used }
{
    reader::scan(alloc, input)
}

/// More bytes behind an element, blanks, a fault or an open row of elements leave them what they are.
pub fn more_bytes()
    ensures spelled { (s : List ℕ) (x : List ℕ) (v : Value) (at : ℕ) (used : ℕ) → Spells s v at used → Spells (s ++ x) v at used }
    ensures passed { (s : List ℕ) (x : List ℕ) (t : List ℕ) (n : ℕ) → ShortBlanks s n t → ShortBlanks (s ++ x) n (t ++ x) }
    ensures faulty { (s : List ℕ) (x : List ℕ) (at : ℕ) (cause : Cause) → Refuses s at cause → Refuses (s ++ x) at cause }
    ensures row { (r : TheSeries) (s : List ℕ) (x : List ℕ) (vs : List Value) → IsRow r s vs → IsRow r (s ++ x) vs }
{}

/// A text has at most one reading: what the definition allows `next_element` to answer of it, want of memory aside, is one answer.
pub fn readings_are_unique()
    ensures readings { ReadingsAreUnique }
    ensures values { ValuesAreUnique }
{}

/// At a place stands one element at most.
pub fn elements_are_unique()
    ensures { ElementsAreUnique }
{}

/// Blanks in front of a text change nothing of what it allows but the places, which count them too.
pub fn blanks_are_skipped()
    ensures { BlanksAreSkipped }
{}

/// Blanks stand before what is unfinished.
pub fn blanks_in_front()
    ensures unfinished { (s : List ℕ) (at : ℕ) → IsUnfinished s at → (t : List ℕ) × ShortBlanks s at t }
    ensures blank { (s : List ℕ) (used : ℕ) → IsBlankText s used → (t : List ℕ) × ShortBlanks s used t }
{}

/// Places lie within the text.
pub fn places()
    ensures spelled { (s : List ℕ) (v : Value) (at : ℕ) (used : ℕ) → Spells s v at used → (at < used) × (used ≤ length s) }
    ensures passed { (s : List ℕ) (t : List ℕ) (n : ℕ) → ShortBlanks s n t → n ≤ length s }
    ensures refused { (s : List ℕ) (at : ℕ) (cause : Cause) → Refuses s at cause → at ≤ length s }
{}
