//! What is open round an element: collections, tags and discards.

ghost use Rattle.std.specs.Prelude.{◌≡◌, ℕ, ◌+◌, List, ◌∷◌, ◌++◌, [], length, Some, IfOk, IfSome, IfNone, OnOk, map, option_map};
ghost use Rattle.lin_bytes.specs.Bytes as bytes;
ghost use Rattle.lin_edn.specs.Grammar.{frame};
ghost use Rattle.lin_edn.specs.Grammar as grammar;
ghost use Rattle.lin_edn.specs.inner.Machine as machine;
ghost use Rattle.lin_edn.specs.inner.Levels.{IsPlaced, frame_view, frames_of, kind_of, flat};
ghost use Rattle.lin_edn.specs.Value as value;
ghost use Rattle.lin_edn.specs.View.{view, entry_view};

use crate::{Edn, Entry, Span};
use std::alloc::{AllocError, Global};

/// A collection that takes its elements one by one.
#[derive(Clone, Copy)]
pub(crate) enum Sequence {
    List,
    Vector,
    Set,
}

/// What is open, with the place where it begins and what it holds so far.
#[derive(Drop)]
pub(crate) enum Frame<'a> {
    Elements(Sequence, usize, Vec<Edn<'a>>),
    /// With the key that waits for its value.
    Entries(usize, Vec<Entry<'a>>, Option<Edn<'a>>),
    /// With the tag without its `#`.
    Tag(usize, Span<'a>),
    Discard(usize),
}

/// What became of an element.
#[derive(Drop)]
pub(crate) enum Fate<'a> {
    Inside,
    /// Nothing was open round it; with the place where it begins.
    Alone(Edn<'a>, usize),
}

/// The closing byte of a collection.
pub(crate) fn closing(sequence: Sequence) -> u8
    ensures { result ≡ bytes.closing (kind_of sequence) }
{
    match sequence {
        Sequence::List => b')',
        Sequence::Vector => b']',
        Sequence::Set => b'}',
    }
}

/// The collection of some elements.
pub(crate) fn gathered<'a>(sequence: Sequence, items: Vec<Edn<'a>>) -> Edn<'a>
    ensures { value.made (kind_of sequence) (map view items.entry.items) ≡ Some (view result) }
{
    match sequence {
        Sequence::List => Edn::List(items),
        Sequence::Vector => Edn::Vector(items),
        Sequence::Set => Edn::Set(items),
    }
}

/// The map of some entries.
pub(crate) fn map_of<'a>(entries: Vec<Entry<'a>>) -> Edn<'a>
    ensures { view result ≡ value.map (value.entries_of (map entry_view entries.entry.items)) }
{
    Edn::Map(entries)
}

/// A key with its value.
fn entry_of<'a>(key: Edn<'a>, value: Edn<'a>) -> Entry<'a>
    ensures { entry_view result ≡ (view key.entry, view value.entry) }
{
    Entry { key, value }
}

/// An element behind a tag.
fn tagged<'a>(alloc: Global, tag: Span<'a>, element: Edn<'a>) -> Result<Edn<'a>, AllocError>
    ensures { IfOk result (λ e. view e ≡ value.tagged tag.entry.at tag.entry.text.now (view element.entry)) }
{
    Ok(Edn::Tagged(tag, Box::new(alloc, element)?))
}

/// How many levels are open.
pub(crate) fn depth(stack: &[Frame]) -> usize
    ensures { result ≡ length (frames_of stack.now) }
{
    stack.len()
}

/// Opens a level.
pub(crate) fn push<'a>(stack: &mut Vec<Frame<'a>>, frame: Frame<'a>) -> Result<(), AllocError>
    ensures ok { OnOk result (frames_of stack.new.items ≡ frame_view frame.entry ∷ frames_of stack.old.items) }
{
    stack.push(frame)?;
    Ok(())
}

/// Leaves the innermost level.
pub(crate) fn pop<'a>(stack: &mut Vec<Frame<'a>>) -> Option<Frame<'a>>
    ensures some { IfSome result (λ f. frames_of stack.old.items ≡ frame_view f ∷ frames_of stack.new.items) }
    ensures none { IfNone result ((frames_of stack.old.items ≡ []) × (frames_of stack.new.items ≡ [])) }
{
    stack.pop()
}

/// Puts an element that begins at a place into the innermost level.
pub(crate) fn finish<'a>(
    alloc: Global,
    stack: &mut Vec<Frame<'a>>,
    element: Edn<'a>,
    from: usize,
) -> Result<Fate<'a>, AllocError>
    ensures { IfOk result (λ placed. (used : ℕ) →
        IsPlaced (machine.put (view element.entry) from (frames_of stack.old.items) used) used placed (frames_of stack.new.items)) }
{
    match pop(stack) {
        None => Ok(Fate::Alone(element, from)),
        Some(Frame::Elements(sequence, at, mut items)) => {
            items.push(element)?;
            push(stack, Frame::Elements(sequence, at, items))?;
            Ok(Fate::Inside)
        }
        Some(Frame::Entries(at, entries, key)) => {
            push(stack, with_element(at, entries, key, element)?)?;
            Ok(Fate::Inside)
        }
        Some(Frame::Tag(at, tag)) => {
            let whole = tagged(alloc, tag, element)?;
            finish(alloc, stack, whole, at)
        }
        Some(Frame::Discard(_)) => Ok(Fate::Inside),
    }
}

/// An open map with one more element.
#[tactic(auto, using(crate::proofs::Flat::flat_key))]
fn with_element<'a>(
    at: usize,
    mut entries: Vec<Entry<'a>>,
    key: Option<Edn<'a>>,
    element: Edn<'a>,
) -> Result<Frame<'a>, AllocError>
    ensures { IfOk result (λ f. frame_view f ≡ frame bytes.a_map at (flat (map entry_view entries.entry.items) (option_map view key.entry) ++ view element.entry ∷ [])) }
{
    match key {
        None => Ok(Frame::Entries(at, entries, Some(element))),
        Some(key) => {
            entries.push(entry_of(key, element))?;
            Ok(Frame::Entries(at, entries, None))
        }
    }
}

/// Where a level begins.
pub(crate) fn opened_at(frame: &Frame) -> usize
    ensures { result ≡ grammar.place_of (frame_view frame.now) }
{
    match frame {
        Frame::Elements(_, at, _) => *at,
        Frame::Entries(at, _, _) => *at,
        Frame::Tag(at, _) => *at,
        Frame::Discard(at) => *at,
    }
}
