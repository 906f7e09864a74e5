//! One pass over the bytes.

ghost use Rattle.std.specs.Prelude.{◌≡◌, ℕ, ◌+◌, ◌<◌, ◌≤◌, nat_le, slice_index, drop, Ok, List, length, IfOk, [], ◌∷◌, map, option_map};
ghost use Rattle.std.specs.List.{slice_range};
ghost use Rattle.lin_bytes.specs.Bytes as bytes;
ghost use Rattle.lin_edn.specs.Grammar.{longest};
ghost use Rattle.lin_edn.specs.Grammar as grammar;
ghost use Rattle.lin_edn.specs.inner.Levels.{frame_view, frames_of, flat};
ghost use Rattle.lin_edn.specs.inner.Machine as machine;
ghost use Rattle.lin_edn.specs.inner.Scans.{IsAhead};
ghost use Rattle.lin_edn.specs.inner.Turns.{IsMove, IsEnding, IsBegun, mode_of, behind_of, Answers};
ghost use Rattle.lin_edn.specs.Value as value;
ghost use Rattle.lin_edn.specs.View.{view, entry_view};

use crate::levels::{
    Fate, Frame, Sequence, closing, depth, finish, gathered, map_of, opened_at, pop, push,
};
use crate::run::run_element;
use crate::scan::{line_end, plain_end, run_end, white_end};
use crate::{Edn, EdnCause, EdnFault, Entry, Next, Span};
use lin_bytes::{is_stop, is_white};
use std::alloc::{AllocError, Global};

// The greatest number of bytes that a top-level element, comment or discard has.
pub(crate) const LONGEST: usize = 16_777_216;

// The greatest number of levels.
pub(crate) const DEEPEST: usize = 64;

/// What is open beside the levels, with the place where it begins.
#[derive(Clone, Copy)]
pub(crate) enum Mode {
    Between,
    Run(usize),
    Hash(usize),
    Backslash(usize),
    Tag(usize),
    Text(usize),
    /// In a text, behind a backslash.
    Escape(usize),
    Comment(usize),
}

/// What is open once a byte has ended what it ends before itself.
#[derive(Drop)]
pub(crate) enum Ended<'a> {
    On(Mode),
    /// A top-level element, with the place where it begins.
    Whole(Edn<'a>, usize),
}

/// What came of a byte.
#[derive(Drop)]
pub(crate) enum Moved<'a> {
    On(Mode),
    /// A top-level element, with the places where it begins and ends.
    Done(Edn<'a>, usize, usize),
    Fault(usize, EdnCause),
}

/// What a byte behind a `#` makes of it.
#[derive(Clone, Copy)]
pub(crate) enum Behind {
    Set,
    Text,
    Discard,
    Atom,
    /// The `#` is an element of its own.
    Apart,
    Tag,
}

/// What the byte behind a `#` makes of it.
pub(crate) fn behind_hash(c: u8) -> Behind
    ensures { behind_of result ≡ bytes.behind c }
{
    match c {
        b'{' => Behind::Set,
        b'"' => Behind::Text,
        b'_' => Behind::Discard,
        b'#' | b'\'' => Behind::Atom,
        _ if is_stop(c) => Behind::Apart,
        _ => Behind::Tag,
    }
}

/// Opens a level that begins at a place.
fn enter<'a>(
    stack: &mut Vec<Frame<'a>>,
    frame: Frame<'a>,
    from: usize,
) -> Result<Moved<'a>, AllocError>
    ensures { IfOk result (λ moved. (s : List ℕ) (at : ℕ) → IsMove s at moved (frames_of stack.new.items)
        (machine.deeper at from (frames_of stack.old.items) (machine.go (frame_view frame.entry ∷ frames_of stack.old.items) machine.between))) }
{
    if depth(stack) >= DEEPEST {
        return Ok(Moved::Fault(from, EdnCause::TooDeep));
    }
    push(stack, frame)?;
    Ok(Moved::On(Mode::Between))
}

/// Puts an element that ends before a place into the innermost level.
fn settle<'a>(
    alloc: Global,
    stack: &mut Vec<Frame<'a>>,
    element: Edn<'a>,
    from: usize,
    used: usize,
) -> Result<Moved<'a>, AllocError>
    ensures { IfOk result (λ moved. (s : List ℕ) (at : ℕ) → IsMove s at moved (frames_of stack.new.items)
        (machine.put (view element.entry) from (frames_of stack.old.items) used)) }
{
    match finish(alloc, stack, element, from)? {
        Fate::Inside => Ok(Moved::On(Mode::Between)),
        Fate::Alone(element, from) => Ok(Moved::Done(element, from, used)),
    }
}

/// Takes a closing byte.
fn close<'a>(
    alloc: Global,
    stack: &mut Vec<Frame<'a>>,
    c: u8,
    at: usize,
) -> Result<Moved<'a>, AllocError>
    requires { at < usize.MAX }
    ensures { IfOk result (λ moved. (s : List ℕ) → IsMove s at moved (frames_of stack.new.items) (machine.close at (frames_of stack.old.items) c)) }
{
    match pop(stack) {
        Some(Frame::Elements(sequence, from, items)) => {
            if closing(sequence) != c {
                return Ok(Moved::Fault(at, EdnCause::Unbalanced));
            }
            settle(alloc, stack, gathered(sequence, items), from, at + 1)
        }
        Some(Frame::Entries(from, entries, key)) => {
            if c != b'}' {
                return Ok(Moved::Fault(at, EdnCause::Unbalanced));
            }
            close_map(alloc, stack, entries, key, from, at)
        }
        _ => Ok(Moved::Fault(at, EdnCause::Unbalanced)),
    }
}

/// Ends a map that began at a place.
#[tactic(auto, using(crate::proofs::Flat::made_even, crate::proofs::Flat::made_odd))]
fn close_map<'a>(
    alloc: Global,
    stack: &mut Vec<Frame<'a>>,
    entries: Vec<Entry<'a>>,
    key: Option<Edn<'a>>,
    from: usize,
    at: usize,
) -> Result<Moved<'a>, AllocError>
    requires { at < usize.MAX }
    ensures { IfOk result (λ moved. (s : List ℕ) → IsMove s at moved (frames_of stack.new.items)
        (machine.closed (value.made bytes.a_map (flat (map entry_view entries.entry.items) (option_map view key.entry))) from (frames_of stack.old.items) at)) }
{
    match key {
        None => settle(alloc, stack, map_of(entries), from, at + 1),
        Some(_) => Ok(Moved::Fault(at, EdnCause::OddMap)),
    }
}

/// Takes a byte where an element may begin.
#[tactic(auto, using(crate::proofs::Runs::range_one))]
fn begin<'a>(
    alloc: Global,
    stack: &mut Vec<Frame<'a>>,
    c: u8,
    at: usize,
) -> Result<Moved<'a>, AllocError>
    requires { at < usize.MAX }
    ensures { IfOk result (λ moved. (s : List ℕ) → at < length s → slice_index s at ≡ c →
        IsMove s at moved (frames_of stack.new.items) (machine.begins (bytes.class c) at (frames_of stack.old.items) c)) }
{
    match c {
        _ if is_white(c) => Ok(Moved::On(Mode::Between)),
        b'(' => Ok(enter(
            stack,
            Frame::Elements(Sequence::List, at, Vec::new(alloc)),
            at,
        )?),
        b'[' => Ok(enter(
            stack,
            Frame::Elements(Sequence::Vector, at, Vec::new(alloc)),
            at,
        )?),
        b'{' => Ok(enter(stack, Frame::Entries(at, Vec::new(alloc), None), at)?),
        b')' | b']' | b'}' => Ok(close(alloc, stack, c, at)?),
        b'"' => Ok(Moved::On(Mode::Text(at))),
        b';' => Ok(Moved::On(Mode::Comment(at))),
        b'\\' => Ok(Moved::On(Mode::Backslash(at))),
        b'#' => Ok(Moved::On(Mode::Hash(at))),
        _ => Ok(Moved::On(Mode::Run(at))),
    }
}

/// Takes the byte behind a `#` that doesn't stand alone.
#[tactic(auto, using(crate::proofs::Runs::range_more, crate::proofs::Runs::range_one))]
fn go_on<'a>(
    alloc: Global,
    stack: &mut Vec<Frame<'a>>,
    c: u8,
    start: usize,
    at: usize,
) -> Result<Moved<'a>, AllocError>
    ensures { IfOk result (λ moved. (s : List ℕ) → at < length s → slice_index s at ≡ c → start + 1 ≡ at →
        IsMove s at moved (frames_of stack.new.items) (machine.goes_on (bytes.behind c) at (frames_of stack.old.items) start (slice_range s start at) c)) }
{
    match behind_hash(c) {
        Behind::Set => Ok(enter(
            stack,
            Frame::Elements(Sequence::Set, start, Vec::new(alloc)),
            start,
        )?),
        Behind::Text => Ok(Moved::On(Mode::Text(start))),
        Behind::Discard => Ok(enter(stack, Frame::Discard(start), start)?),
        Behind::Tag => Ok(begin_tag(stack, start)),
        Behind::Atom => Ok(Moved::On(Mode::Run(start))),
        Behind::Apart => Ok(Moved::On(Mode::Run(start))),
    }
}

/// Begins a tag whose `#` stands at a place.
fn begin_tag<'a>(stack: &[Frame], start: usize) -> Moved<'a>
    ensures { (s : List ℕ) (at : ℕ) → start + 1 ≤ at → IsMove s at result (frames_of stack.now)
        (machine.deeper at start (frames_of stack.now) (machine.go (frames_of stack.now) (machine.in_tag start (slice_range s (start + 1) (at + 1))))) }
{
    if depth(stack) >= DEEPEST {
        return Moved::Fault(start, EdnCause::TooDeep);
    }
    Moved::On(Mode::Tag(start))
}

/// Ends a run before the byte at a place, where that is a stop byte.
fn end_run<'a>(
    alloc: Global,
    stack: &mut Vec<Frame<'a>>,
    input: &'a [u8],
    start: usize,
    at: usize,
) -> Result<Ended<'a>, AllocError>
    requires inside { at < length input.now }
    requires begun { start ≤ at }
    ensures { IfOk result (λ ended. IsEnding input.now at ended (frames_of stack.new.items)
        (machine.ended at (frames_of stack.old.items) (machine.in_run start (slice_range input.now start at)) (slice_index input.now at))) }
{
    if !is_stop(input[at]) {
        return Ok(Ended::On(Mode::Run(start)));
    }
    let text = &input[start..at];
    match finish(alloc, stack, run_element(start, text), start)? {
        Fate::Inside => Ok(Ended::On(Mode::Between)),
        Fate::Alone(element, from) => Ok(Ended::Whole(element, from)),
    }
}

/// Ends a `#` before the byte at a place, where it stands alone.
fn end_hash<'a>(
    alloc: Global,
    stack: &mut Vec<Frame<'a>>,
    input: &'a [u8],
    start: usize,
    at: usize,
) -> Result<Ended<'a>, AllocError>
    requires inside { at < length input.now }
    requires begun { start + 1 ≡ at }
    ensures { IfOk result (λ ended. IsEnding input.now at ended (frames_of stack.new.items)
        (machine.ended at (frames_of stack.old.items) (machine.after_hash start (slice_range input.now start at)) (slice_index input.now at))) }
{
    match behind_hash(input[at]) {
        Behind::Apart => Ok(end_atom(alloc, stack, &input[start..at], start)?),
        _ => Ok(Ended::On(Mode::Hash(start))),
    }
}

/// The atom at a place.
fn atom_of<'a>(at: usize, text: &'a [u8]) -> Edn<'a>
    ensures { view result ≡ value.atom at text.entry.now }
{
    Edn::Atom(Span { at, text })
}

/// The text at a place.
fn text_of<'a>(at: usize, text: &'a [u8]) -> Edn<'a>
    ensures { view result ≡ value.text at text.entry.now }
{
    Edn::Text(Span { at, text })
}

/// Ends an atom that begins at a place.
fn end_atom<'a>(
    alloc: Global,
    stack: &mut Vec<Frame<'a>>,
    text: &'a [u8],
    start: usize,
) -> Result<Ended<'a>, AllocError>
    ensures { IfOk result (λ ended. (s : List ℕ) (at : ℕ) → IsEnding s at ended (frames_of stack.new.items)
        (machine.put (value.atom start text.entry.now) start (frames_of stack.old.items) at)) }
{
    match finish(alloc, stack, atom_of(start, text), start)? {
        Fate::Inside => Ok(Ended::On(Mode::Between)),
        Fate::Alone(element, from) => Ok(Ended::Whole(element, from)),
    }
}

/// Ends a tag before the byte at a place, where that is a stop byte.
fn end_tag<'a>(
    stack: &mut Vec<Frame<'a>>,
    input: &'a [u8],
    start: usize,
    at: usize,
) -> Result<Ended<'a>, AllocError>
    requires inside { at < length input.now }
    requires begun { start + 1 ≤ at }
    ensures { IfOk result (λ ended. IsEnding input.now at ended (frames_of stack.new.items)
        (machine.ended at (frames_of stack.old.items) (machine.in_tag start (slice_range input.now (start + 1) at)) (slice_index input.now at))) }
{
    if !is_stop(input[at]) {
        return Ok(Ended::On(Mode::Tag(start)));
    }
    let text = &input[start + 1..at];
    push(
        stack,
        Frame::Tag(
            start,
            Span {
                at: start + 1,
                text,
            },
        ),
    )?;
    Ok(Ended::On(Mode::Between))
}

/// Ends what the byte at a place ends before itself.
fn end_before<'a>(
    alloc: Global,
    stack: &mut Vec<Frame<'a>>,
    input: &'a [u8],
    mode: Mode,
    at: usize,
) -> Result<Ended<'a>, AllocError>
    requires inside { at < length input.now }
    requires begun { IsBegun mode at }
    ensures { IfOk result (λ ended. IsEnding input.now at ended (frames_of stack.new.items)
        (machine.ended at (frames_of stack.old.items) (mode_of input.now at mode) (slice_index input.now at))) }
{
    match mode {
        Mode::Run(start) => Ok(end_run(alloc, stack, input, start, at)?),
        Mode::Hash(start) => Ok(end_hash(alloc, stack, input, start, at)?),
        Mode::Tag(start) => Ok(end_tag(stack, input, start, at)?),
        _ => Ok(Ended::On(mode)),
    }
}

/// Takes the byte at a place in a text.
#[tactic(auto, using(crate::proofs::Runs::range_more))]
fn in_text<'a>(
    alloc: Global,
    stack: &mut Vec<Frame<'a>>,
    input: &'a [u8],
    start: usize,
    at: usize,
) -> Result<Moved<'a>, AllocError>
    requires inside { at < length input.now }
    requires begun { start ≤ at }
    ensures { IfOk result (λ moved. IsMove input.now at moved (frames_of stack.new.items)
        (machine.quotes (bytes.quoted (slice_index input.now at)) at (frames_of stack.old.items) start (slice_range input.now start at) (slice_index input.now at))) }
{
    match input[at] {
        b'"' => {
            let text = &input[start..at + 1];
            Ok(settle(alloc, stack, text_of(start, text), start, at + 1)?)
        }
        b'\\' => Ok(Moved::On(Mode::Escape(start))),
        _ => Ok(Moved::On(Mode::Text(start))),
    }
}

/// Takes the byte at a place, which ends nothing before itself.
#[tactic(auto, using(crate::proofs::Runs::range_more))]
fn take<'a>(
    alloc: Global,
    stack: &mut Vec<Frame<'a>>,
    input: &'a [u8],
    mode: Mode,
    at: usize,
) -> Result<Moved<'a>, AllocError>
    requires inside { at < length input.now }
    requires begun { IsBegun mode at }
    ensures { IfOk result (λ moved. IsMove input.now at moved (frames_of stack.new.items)
        (machine.taken at (frames_of stack.old.items) (mode_of input.now at mode) (slice_index input.now at))) }
{
    let c = input[at];
    match mode {
        Mode::Between => Ok(begin(alloc, stack, c, at)?),
        Mode::Run(start) => Ok(Moved::On(Mode::Run(start))),
        Mode::Hash(start) => Ok(go_on(alloc, stack, c, start, at)?),
        Mode::Backslash(start) => Ok(Moved::On(Mode::Run(start))),
        Mode::Tag(start) => Ok(Moved::On(Mode::Tag(start))),
        Mode::Text(start) => Ok(in_text(alloc, stack, input, start, at)?),
        Mode::Escape(start) => Ok(Moved::On(Mode::Text(start))),
        Mode::Comment(_) if c == b'\n' => Ok(Moved::On(Mode::Between)),
        Mode::Comment(start) => Ok(Moved::On(Mode::Comment(start))),
    }
}

/// Where what is open beside the levels begins.
fn since(mode: Mode, at: usize) -> usize
    ensures { (s : List ℕ) → result ≡ machine.since at (mode_of s at mode) }
{
    match mode {
        Mode::Between => at,
        Mode::Run(start) => start,
        Mode::Hash(start) => start,
        Mode::Backslash(start) => start,
        Mode::Tag(start) => start,
        Mode::Text(start) => start,
        Mode::Escape(start) => start,
        Mode::Comment(start) => start,
    }
}

/// Where the outermost level begins; a given place where none is open.
fn outermost(stack: &[Frame], at: usize) -> usize
    ensures { result ≡ grammar.outermost at (frames_of stack.now) }
{
    match stack.first() {
        Some(frame) => opened_at(frame),
        None => at,
    }
}

/// Where the top-level element, comment or discard that is open before a place begins; that place where none is.
fn begun_at(stack: &[Frame], mode: Mode, at: usize) -> usize
    ensures { (s : List ℕ) → result ≡ machine.begun at (frames_of stack.now) (mode_of s at mode) }
{
    outermost(stack, since(mode, at))
}

/// Whether the byte at a place would be one too many for what begins at `begun`.
fn is_over(begun: usize, at: usize) -> bool
    ensures { result ≡ nat_le (begun + longest) at }
{
    at.saturating_sub(begun) >= LONGEST
}

/// Takes the byte at a place.
fn step<'a>(
    alloc: Global,
    stack: &mut Vec<Frame<'a>>,
    input: &'a [u8],
    mode: Mode,
    at: usize,
) -> Result<Moved<'a>, AllocError>
    requires inside { at < length input.now }
    requires begun { IsBegun mode at }
    ensures { IfOk result (λ moved. IsMove input.now at moved (frames_of stack.new.items)
        (machine.step longest at (frames_of stack.old.items) (mode_of input.now at mode) (slice_index input.now at))) }
{
    match end_before(alloc, stack, input, mode, at)? {
        Ended::Whole(element, from) => Ok(Moved::Done(element, from, at)),
        Ended::On(mode) => Ok(take_within(alloc, stack, input, mode, at)?),
    }
}

/// Takes the byte at a place, unless it is one too many.
fn take_within<'a>(
    alloc: Global,
    stack: &mut Vec<Frame<'a>>,
    input: &'a [u8],
    mode: Mode,
    at: usize,
) -> Result<Moved<'a>, AllocError>
    requires inside { at < length input.now }
    requires begun { IsBegun mode at }
    ensures { IfOk result (λ moved. IsMove input.now at moved (frames_of stack.new.items)
        (machine.limited longest at (slice_index input.now at) (machine.go (frames_of stack.old.items) (mode_of input.now at mode)))) }
{
    let begun = begun_at(stack, mode, at);
    if is_over(begun, at) {
        return Ok(Moved::Fault(begun, EdnCause::TooLong));
    }
    take(alloc, stack, input, mode, at)
}

/// What stands at the end of the input.
fn at_end<'a>(stack: &[Frame], mode: Mode, at: usize) -> Next<'a>
    ensures { (s : List ℕ) → Answers (machine.at_end at (mode_of s at mode) (frames_of stack.now)) (Ok result) }
{
    let begun = begun_at(stack, mode, at);
    if depth(stack) > 0 {
        return Next::Partial { at: begun };
    }
    match mode {
        Mode::Between => Next::Blank { used: begun },
        Mode::Comment(_) => Next::Blank { used: begun },
        _ => Next::Partial { at: begun },
    }
}

/// How far the bytes of a text of a length go that an element, comment or discard can have that begins at `begun`.
pub fn window(begun: usize, len: usize) -> usize
    ensures within { result ≤ len }
    ensures short { result ≤ begun + longest }
    ensures whole { (i : ℕ) → i < begun + longest → i < len → i < result }
{
    begun.saturating_add(LONGEST).min(len)
}

/// How far the bytes from a place on change nothing but the place.
fn ahead(stack: &[Frame], input: &[u8], mode: Mode, at: usize) -> usize
    requires inside { at ≤ length input.now }
    requires begun { IsBegun mode at }
    ensures { IsAhead input.now at result (frames_of stack.now) mode }
{
    let end = window(begun_at(stack, mode, at), input.len());
    if end <= at {
        return at;
    }
    match mode {
        Mode::Between => white_end(input, at, end),
        Mode::Run(_) => run_end(input, at, end),
        Mode::Tag(_) => run_end(input, at, end),
        Mode::Text(_) => plain_end(input, at, end),
        Mode::Comment(_) => line_end(input, at, end),
        _ => at,
    }
}

/// What stands at the front of the input, in one pass over it.
pub(crate) fn scan<'a>(alloc: Global, input: &'a [u8]) -> Result<Next<'a>, EdnFault>
    ensures { Answers (machine.run longest 0 [] machine.between input.entry.now) result }
{
    scan_on(alloc, Vec::new(alloc), input, 0)
}

/// What comes of the input from a place on, where levels are open.
pub(crate) fn scan_on<'a>(
    alloc: Global,
    mut stack: Vec<Frame<'a>>,
    input: &'a [u8],
    from: usize,
) -> Result<Next<'a>, EdnFault>
    requires { from ≤ length input.now }
    ensures { Answers (machine.run longest from (frames_of stack.entry.items) machine.between (drop from input.entry.now)) result }
{
    let mut mode = Mode::Between;
    let mut at = from;
    while at < input.len() {
        let here = ahead(&stack, input, mode, at);
        if here == input.len() {
            return Ok(at_end(&stack, mode, here));
        }
        match step(alloc, &mut stack, input, mode, here)? {
            Moved::On(next) => {
                mode = next;
                at = here + 1;
            }
            Moved::Done(value, at, used) => return Ok(Next::Complete { value, at, used }),
            Moved::Fault(at, cause) => return Err(EdnFault { at, cause }),
        }
    }
    Ok(at_end(&stack, mode, at))
}
