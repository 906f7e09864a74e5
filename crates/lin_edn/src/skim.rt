//! A reader that keeps no values, and goes on where it stopped.

ghost use Rattle.std.specs.Prelude.{◌≡◌, ℕ, Bool, ◌<◌, List, [], ◌∷◌, ◌++◌, length, ◌==◌, true, false, None, Some, MatchOption, OnSome};
ghost use Rattle.lin_bytes.specs.Bytes as bytes;
ghost use Rattle.lin_edn.specs.Grammar.{longest, IsUnfinished};
ghost use Rattle.lin_edn.specs.Rows.{IsRow, bracket_of};
ghost use Rattle.lin_edn.specs.Scans.{is_quoting};
ghost use Rattle.lin_edn.specs.Skimming as skimming;
ghost use Rattle.lin_edn.specs.inner.Skimming as shapes;
ghost use Rattle.lin_edn.specs.Skimming.{HasSeen, IsMoreOf, is_more_of, IsOpenText, shapes_of, level_view};
ghost use Rattle.lin_edn.specs.inner.Skimming.{HasGone, HasStopped, Does, row_shapes};
ghost use Rattle.lin_edn.specs.Value.{Value};
ghost use Rattle.lin_edn.specs.declared.skim.Part.TheVariants as part;

use crate::reader::{Behind, DEEPEST, LONGEST, behind_hash};
use crate::series::Series;
use arrayvec::ArrayVec;
use lin_bytes::{is_stop, is_white};

/// An open level.
#[derive(Clone, Copy, Default)]
pub(crate) enum Level {
    #[default]
    List,
    Vector,
    Set,
    EvenMap,
    /// A map whose last key has no value yet.
    OddMap,
    Tag,
    Discard,
}

/// What is open beside the levels.
#[derive(Clone, Copy)]
pub(crate) enum Part {
    Between,
    Run,
    Hash,
    Backslash,
    Tag,
    Text,
    Escape,
    Comment,
}

/// The open levels, the innermost last.
type Levels = ArrayVec<Level, DEEPEST>;

/// What an unfinished element, discard or comment has open, without its values.
///
/// It is for a text that comes in pieces: it sees each byte once, takes no memory, and says when the text is worth reading again.
#[derive(Drop)]
pub struct Skim {
    levels: Levels,
    part: Part,
    length: usize,
}

impl Skim {
    /// A reader that has seen nothing.
    pub fn new() -> Skim
        ensures { HasSeen result [] }
    {
        Skim {
            levels: ArrayVec::new(),
            part: Part::Between,
            length: 0,
        }
    }

    /// Forgets what was seen.
    pub fn clear(&mut self)
        ensures { HasSeen self.new [] }
    {
        self.levels.clear();
        self.part = Part::Between;
        self.length = 0;
    }

    /// Goes on over more bytes of a text that begins with a byte that isn't white.
    ///
    /// True where what the text begins with is still unfinished. False where it is whole, too long or faulty: then `next_element`
    /// tells, and this has to be cleared.
    pub fn go_on(&mut self, piece: &[u8]) -> bool
        ensures seen { result ≡ true → (text : List ℕ) → HasSeen self.old text → HasSeen self.new (text ++ piece.now) }
        ensures goes_on { (text : List ℕ) (is_comment : Bool) → HasSeen self.old text → IsOpenText is_comment (text ++ piece.now) → result ≡ true }
        // In a run, a text or a comment it goes on as long as nothing ends.
        ensures more { IsMoreOf self.old piece.now → result ≡ true }
    {
        self.pass(piece)
    }

    /// Goes anew over a text that begins with a list or vector, from where that is read to.
    ///
    /// True and false mean what they mean of `go_on`.
    pub fn go_on_in(&mut self, series: &Series, text: &[u8]) -> bool
        ensures seen { result ≡ true → (vs : List Value) → IsRow series.now text.now vs → HasSeen self.new text.now }
        ensures goes_on { (vs : List Value) → IsRow series.now text.now vs → IsUnfinished text.now 0 → result ≡ true }
    {
        let at = series.place();
        if at > text.len() {
            return false;
        }
        if series.begun() > 0 {
            return false;
        }
        self.levels.clear();
        open_in(&mut self.levels, series);
        self.part = Part::Between;
        self.length = at;
        self.pass(&text[at..])
    }

    /// Whether the text seen so far is a comment.
    pub fn is_comment(&self) -> bool
        ensures { (text : List ℕ) → HasSeen self.now text → 0 < length text → IsOpenText result text }
    {
        match self.part {
            Part::Comment => is_empty(&self.levels),
            _ => false,
        }
    }

    /// Goes on over bytes.
    fn pass(&mut self, bytes: &[u8]) -> bool
        ensures gone { result ≡ true → HasGone self.old self.new bytes.now }
        ensures stopped { result ≡ false → HasStopped self.old bytes.now }
        ensures more { IsMoreOf self.old bytes.now → result ≡ true }
    {
        for at in 0..bytes.len() {
            if !self.take(bytes[at]) {
                return false;
            }
        }
        true
    }

    /// Takes one byte.
    fn take(&mut self, c: u8) -> bool
        ensures gone { result ≡ true → HasGone self.old self.new (c ∷ []) }
        ensures stopped { result ≡ false → (rest : List ℕ) → HasStopped self.old (c ∷ rest) }
        ensures more { is_more_of self.old.part c ≡ true → self.old.length < longest → (result ≡ true) × (self.new.part ≡ self.old.part) }
    {
        let Some(part) = end_before(&mut self.levels, self.part, c) else {
            return false;
        };
        if self.length >= LONGEST {
            return false;
        }
        let Some(next) = take_byte(&mut self.levels, part, c) else {
            return false;
        };
        self.part = next;
        self.length += 1;
        true
    }
}

/// Opens a list or vector, and the tag in front of it if it has one.
fn open_in(levels: &mut Levels, series: &Series)
    requires { levels.old.items ≡ [] }
    ensures { shapes_of levels.new.items ≡ row_shapes series.now.is_tagged series.now.is_vector }
{
    if series.is_tagged() {
        push(levels, Level::Tag);
    }
    push(levels, level_of(series));
}

/// The level that a list or vector is.
fn level_of(series: &Series) -> Level
    ensures { level_view result ≡ skimming.brackets (bracket_of series.now.is_vector) true }
{
    if series.is_vector() {
        Level::Vector
    } else {
        Level::List
    }
}

/// Whether no level is open.
fn is_empty(levels: &[Level]) -> bool
    ensures { result ≡ (length (shapes_of levels.now) == 0) }
{
    levels.is_empty()
}

/// How many levels are open.
fn depth(levels: &[Level]) -> usize
    ensures { result ≡ length (shapes_of levels.now) }
{
    levels.len()
}

/// Opens a level.
fn push(levels: &mut Levels, level: Level)
    requires { length (shapes_of levels.old.items) < 64 }
    ensures { shapes_of levels.new.items ≡ level_view level ∷ shapes_of levels.old.items }
{
    levels.push(level);
}

/// Leaves the innermost level.
fn pop(levels: &mut Levels) -> Option<Level>
    ensures level { MatchOption result (shapes_of levels.old.items ≡ []) (λ l. shapes_of levels.old.items ≡ level_view l ∷ shapes_of levels.new.items) }
    ensures room { OnSome result (length (shapes_of levels.new.items) < 64) }
{
    // The length tells, too, that no more are open than fit: so there is room for one more once one is left.
    if levels.len() == 0 {
        return None;
    }
    levels.pop()
}

/// Opens a level, where one more can be open.
fn enter(levels: &mut Levels, level: Level) -> Option<Part>
    ensures { Does (shapes.deeper_shape (shapes_of levels.old.items) (level_view level ∷ shapes_of levels.old.items, part.Between)) levels.new.items result }
{
    if depth(levels) >= DEEPEST {
        return None;
    }
    push(levels, level);
    Some(Part::Between)
}

/// Puts an element into the innermost level; false where nothing is open any more.
fn put(levels: &mut Levels) -> bool
    ensures some { result ≡ true → shapes.put_shape (shapes_of levels.old.items) ≡ Some (shapes_of levels.new.items) }
    ensures none { result ≡ false → shapes.put_shape (shapes_of levels.old.items) ≡ None }
{
    let Some(level) = pop(levels) else {
        return false;
    };
    match level {
        Level::List => push(levels, Level::List),
        Level::Vector => push(levels, Level::Vector),
        Level::Set => push(levels, Level::Set),
        Level::EvenMap => push(levels, Level::OddMap),
        Level::OddMap => push(levels, Level::EvenMap),
        Level::Tag => return put(levels),
        Level::Discard => return !is_empty(levels),
    }
    true
}

/// What is open behind an element that is put in.
fn settle(levels: &mut Levels) -> Option<Part>
    ensures { Does (shapes.with_part part.Between (shapes.put_shape (shapes_of levels.old.items))) levels.new.items result }
{
    if put(levels) {
        Some(Part::Between)
    } else {
        None
    }
}

/// What is open behind a blank.
fn pass(levels: &[Level]) -> Option<Part>
    ensures { Does (shapes.with_part part.Between (shapes.still (shapes_of levels.now))) levels.now result }
{
    if is_empty(levels) {
        None
    } else {
        Some(Part::Between)
    }
}

/// What is open once a byte has ended what it ends before itself.
fn end_before(levels: &mut Levels, part: Part, c: u8) -> Option<Part>
    ensures ended { Does (shapes.ended_shape part (shapes_of levels.old.items) c) levels.new.items result }
    ensures more { is_more_of part c ≡ true → result ≡ Some part }
{
    match part {
        Part::Run if is_stop(c) => settle(levels),
        Part::Run => Some(Part::Run),
        Part::Tag if is_stop(c) => enter(levels, Level::Tag),
        Part::Tag => Some(Part::Tag),
        Part::Hash => end_hash(levels, c),
        Part::Between => Some(Part::Between),
        Part::Backslash => Some(Part::Backslash),
        Part::Text => Some(Part::Text),
        Part::Escape => Some(Part::Escape),
        Part::Comment => Some(Part::Comment),
    }
}

/// What is open once a byte has ended a `#` that stands alone.
fn end_hash(levels: &mut Levels, c: u8) -> Option<Part>
    ensures { Does (shapes.apart_shape (bytes.behind c) (shapes_of levels.old.items)) levels.new.items result }
{
    match behind_hash(c) {
        Behind::Apart => settle(levels),
        Behind::Set => Some(Part::Hash),
        Behind::Text => Some(Part::Hash),
        Behind::Discard => Some(Part::Hash),
        Behind::Atom => Some(Part::Hash),
        Behind::Tag => Some(Part::Hash),
    }
}

/// Whether a byte closes a level.
pub(crate) fn can_close(level: Level, c: u8) -> bool
    ensures { result ≡ shapes.closes (level_view level) c }
{
    match level {
        Level::List => c == b')',
        Level::Vector => c == b']',
        Level::Set => c == b'}',
        Level::EvenMap => c == b'}',
        Level::OddMap => false,
        Level::Tag => false,
        Level::Discard => false,
    }
}

/// Takes a closing byte.
fn close(levels: &mut Levels, c: u8) -> Option<Part>
    ensures { Does (shapes.close_shape (shapes_of levels.old.items) c) levels.new.items result }
{
    let level = pop(levels)?;
    if can_close(level, c) {
        settle(levels)
    } else {
        None
    }
}

/// Takes a byte where an element may begin.
fn begin(levels: &mut Levels, c: u8) -> Option<Part>
    ensures { Does (shapes.begins_shape (bytes.class c) (shapes_of levels.old.items) c) levels.new.items result }
{
    match c {
        _ if is_white(c) => pass(levels),
        b'(' => enter(levels, Level::List),
        b'[' => enter(levels, Level::Vector),
        b'{' => enter(levels, Level::EvenMap),
        b')' | b']' | b'}' => close(levels, c),
        b'"' => Some(Part::Text),
        b';' => Some(Part::Comment),
        b'\\' => Some(Part::Backslash),
        b'#' => Some(Part::Hash),
        _ => Some(Part::Run),
    }
}

/// Begins a tag, where one more level can be open.
fn begin_tag(levels: &[Level]) -> Option<Part>
    ensures { Does (shapes.deeper_shape (shapes_of levels.now) (shapes_of levels.now, part.Tag)) levels.now result }
{
    if depth(levels) >= DEEPEST {
        None
    } else {
        Some(Part::Tag)
    }
}

/// Takes the byte behind a `#` that doesn't stand alone.
fn go_on(levels: &mut Levels, c: u8) -> Option<Part>
    ensures { Does (shapes.goes_on_shape (bytes.behind c) (shapes_of levels.old.items)) levels.new.items result }
{
    match behind_hash(c) {
        Behind::Set => enter(levels, Level::Set),
        Behind::Text => Some(Part::Text),
        Behind::Discard => enter(levels, Level::Discard),
        Behind::Atom => Some(Part::Run),
        Behind::Apart => Some(Part::Run),
        Behind::Tag => begin_tag(levels),
    }
}

/// Takes a byte of a text.
fn in_text(levels: &mut Levels, c: u8) -> Option<Part>
    ensures quotes { Does (shapes.quotes_shape (bytes.quoted c) (shapes_of levels.old.items)) levels.new.items result }
    ensures more { is_quoting c ≡ false → result ≡ Some part.Text }
{
    match c {
        b'"' => settle(levels),
        b'\\' => Some(Part::Escape),
        _ => Some(Part::Text),
    }
}

/// Takes a byte that ends nothing before itself.
fn take_byte(levels: &mut Levels, part: Part, c: u8) -> Option<Part>
    ensures taken { Does (shapes.taken_shape part (shapes_of levels.old.items) c) levels.new.items result }
    ensures more { is_more_of part c ≡ true → result ≡ Some part }
{
    match part {
        Part::Between => begin(levels, c),
        Part::Run => Some(Part::Run),
        Part::Hash => go_on(levels, c),
        Part::Backslash => Some(Part::Run),
        Part::Tag => Some(Part::Tag),
        Part::Text => in_text(levels, c),
        Part::Escape => Some(Part::Text),
        Part::Comment if c == b'\n' => pass(levels),
        Part::Comment => Some(Part::Comment),
    }
}
