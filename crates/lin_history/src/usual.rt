//! Usual operation maps, read from their bytes without building their elements.
//!
//! What is inlined here keeps a map's event in registers up to where it is put. An event that is handed on in memory is written in
//! parts and read whole, for which a processor waits: that took a tenth of the time of reading.
ghost use Rattle.std.specs.Prelude.{◌≡◌, ℕ, Bool, codes, pos, suc, ◌<◌, ◌≤◌, true, false, None, Some, Ok, IfSome, List, length, drop, slice_index, [], ◌∷◌};
ghost use Rattle.std.specs.List.{slice_range};
ghost use Rattle.lin_edn.specs.Grammar.{Element, IsTagAt, Row, ShortBlanks};
ghost use Rattle.lin_edn.specs.Run.{run_value};
ghost use Rattle.lin_edn.specs.Value as value;
ghost use Rattle.lin_edn.specs.Value.{Value, Entries};
ghost use Rattle.lin_edn.specs.View.{view};
ghost use Rattle.lin_names.specs.Names.{AgreesWith, Begins};
ghost use Rattle.lin_names.specs.Spelled.{seen};
ghost use Rattle.lin_names.specs.declared.said.Said.TheVariants as said;
ghost use Rattle.lin_history.specs.Reading.{Reading, IsReading};
ghost use Rattle.lin_history.specs.inner.Fields.{given_view, plain_view, value_of};
ghost use Rattle.lin_history.specs.Table.{body_of, event, is_word};
ghost use Rattle.lin_history.specs.PassedMaps.{keyword_of};
ghost use Rattle.lin_history.specs.inner.Small.{small_event as event_of_small, small_taken};
ghost use Rattle.lin_history.specs.inner.Usual.{AreParts, IsKeyOf, ArePlaced, IsAdded, IsPlaced, IsProcess, IsValueAt, IsUpTo, IsMapAt, IsTaken, TellsWith};

use crate::outlines::Means;
use crate::small::{Small, deed_of, number_in, small_with};
use crate::table::{
    EventType, Given, Plain, event_said, function_named, is_same, is_value_told, process_number,
    type_named,
};
use crate::values::{pair_at, pair_key, plain_in, plain_pair, string_at, value_at};
use lin_edn::{
    Edn, digits_until, elements_are_unique, integer, nested_until, run_element, run_until,
    tag_until, white_until, window,
};
use lin_events::{Event, Name};
use lin_names::{Names, Said};
use std::alloc::Global;

/// The greatest number of levels.
pub(crate) const LEVELS: usize = 64;

/// So many levels has the value of a usual map at most: a pair in a pair, or a set.
const VALUE_LEVELS: usize = 2;

/// A usual map: its event, unless it is one of the nemesis, and where it ends.
#[derive(Drop)]
pub(crate) struct Taken {
    pub event: Option<Event>,
    pub used: usize,
}

/// Where a value begins, and where the run there ends: where it begins, if the value is no run.
#[derive(Clone, Copy)]
pub(crate) struct Extent {
    pub at: usize,
    pub until: usize,
}

/// The values of the keys that count.
#[derive(Clone, Copy)]
pub(crate) struct ValueExtents {
    pub process: Option<Extent>,
    pub event_type: Option<Extent>,
    pub function: Option<Extent>,
    pub value: Option<Extent>,
}

/// No places yet.
pub(crate) const NOWHERE: ValueExtents = ValueExtents {
    process: None,
    event_type: None,
    function: None,
    value: None,
};

/// What a key of a map is the key of.
#[derive(Clone, Copy)]
pub(crate) enum Field {
    Process,
    EventType,
    Function,
    Value,
    /// Something that tells nothing.
    Other,
}

/// What a map says besides the key and the value, where it is an event.
#[derive(Clone, Copy)]
struct Doing {
    process: u64,
    event_type: EventType,
    name: Name,
}

/// What `:process` says.
#[derive(Clone, Copy)]
enum Process {
    Number(u64),
    /// The keyword `:nemesis`.
    Nemesis,
}

/// Keeps the value of a key that stands once; else nothing, which is told.
fn put(slot: &mut Option<Extent>, place: Extent) -> bool
    ensures { result ≡ true → (slot.old ≡ None) × (slot.new ≡ Some place) }
{
    if slot.is_some() {
        return false;
    }
    *slot = Some(place);
    true
}

/// Which field a key is of.
pub(crate) fn field_named(key: &[u8]) -> Field
    ensures { IsKeyOf result key.now }
{
    if is_same(key, b":process") {
        return Field::Process;
    }
    if is_same(key, b":type") {
        return Field::EventType;
    }
    if is_same(key, b":f") {
        return Field::Function;
    }
    if is_same(key, b":value") {
        return Field::Value;
    }
    Field::Other
}

/// Keeps the value of a field that counts, unless one stands there.
#[inline(always)]
pub(crate) fn keep(places: &mut ValueExtents, field: Field, place: Extent) -> bool
    ensures { result ≡ true → (key : List ℕ) → IsKeyOf field key → (p : ℕ) → IsAdded places.old (run_value p key) place places.new }
{
    match field {
        Field::Process => put(&mut places.process, place),
        Field::EventType => put(&mut places.event_type, place),
        Field::Function => put(&mut places.function, place),
        Field::Value => put(&mut places.value, place),
        Field::Other => true,
    }
}

/// Where the run at a place ends; that place where none stands there. Short numbers are most of what maps hold.
#[inline(always)]
fn word_until(text: &[u8], at: usize, end: usize) -> usize
    requires begun { at ≤ end }
    requires inside { end ≤ length text.now }
    ensures within { (at ≤ result) × (result ≤ end) }
    ensures run { at < result → (n : ℕ) → Element n at (drop at text.now) (run_value at (slice_range text.now at result)) result (drop result text.now) }
{
    let until = digits_until(text, at, end);
    if until > at {
        return until;
    }
    run_until(text, at, end)
}

/// Where the vector of two runs at a place ends; that place where none stands there with white between the two alone. A recorder writes a
/// key and its value so, which needs no look at what else can be nested.
#[inline(never)]
fn pair_until(text: &[u8], at: usize, end: usize) -> usize
    requires begun { at ≤ end }
    requires inside { end ≤ length text.now }
    ensures within { (at ≤ result) × (result ≤ end) }
    ensures value { at < result → (n : ℕ) → (v : Value) × Element (suc n) at (drop at text.now) v result (drop result text.now) }
{
    if at == end {
        return at;
    }
    if text[at] != b'[' {
        return at;
    }
    let first = word_until(text, at + 1, end);
    if first == at + 1 {
        return at;
    }
    let white = white_until(text, first, end);
    let second = word_until(text, white, end);
    if second == white {
        return at;
    }
    if second == end {
        return at;
    }
    if text[second] != b']' {
        return at;
    }
    second + 1
}

/// The usual value at a place, with so many levels at most, and where it ends; that place where none stands there.
#[inline(always)]
pub(crate) fn usual_value(text: &[u8], at: usize, end: usize, levels: usize) -> (Extent, usize)
    requires begun { at ≤ end }
    requires inside { end ≤ length text.now }
    ensures at { result.0.at ≡ at }
    ensures within { (at ≤ result.1) × (result.1 ≤ end) }
    ensures value { at < result.1 → (v : Value) × IsValueAt text.now levels result.0 v result.1 }
{
    let until = word_until(text, at, end);
    let place = Extent { at, until };
    if until > at {
        return (place, until);
    }
    if levels > 0 {
        let pair = pair_until(text, at, end);
        if pair > at {
            return (place, pair);
        }
    }
    (place, nested_until(text, at, end, levels))
}

/// Takes the usual entry at a place, whose value has so many levels at most, and tells where it ends; that place where none stands there.
#[inline(always)]
fn take_entry(
    text: &[u8],
    from: usize,
    end: usize,
    levels: usize,
    places: &mut ValueExtents,
) -> usize
    requires begun { from ≤ end }
    requires inside { end ≤ length text.now }
    ensures within { (from ≤ result) × (result ≤ end) }
    ensures taken { from < result → (start : ℕ) → IsUpTo text.now start levels from places.old → IsUpTo text.now start levels result places.new }
{
    let until = run_until(text, from, end);
    if until == from {
        return from;
    }
    let at = white_until(text, until, end);
    let (place, used) = usual_value(text, at, end, levels);
    if used == at {
        return from;
    }
    if !keep(places, field_named(&text[from..until]), place) {
        return from;
    }
    used
}

/// The usual map whose opening byte stands at a place, with so many levels inside at most, and where it ends.
#[inline(never)]
pub(crate) fn usual_map(
    text: &[u8],
    from: usize,
    end: usize,
    levels: usize,
) -> Option<(ValueExtents, usize)>
    requires begun { from < end }
    requires inside { end ≤ length text.now }
    requires opens { slice_index text.now from ≡ 123 }
    ensures within { IfSome result (λ r. (from < r.1) × (r.1 ≤ end)) }
    ensures map { IfSome result (λ r. IsMapAt text.now from levels r.0 r.1) }
{
    let mut places = NOWHERE;
    let mut at = white_until(text, from + 1, end);
    while at < end {
        if text[at] == b'}' {
            return Some((places, at + 1));
        }
        let used = take_entry(text, at, end, levels, &mut places);
        if used == at {
            return None;
        }
        at = white_until(text, used, end);
    }
    None
}

/// The word of a value that is a run.
fn word_of<'a>(text: &'a [u8], place: Extent) -> Option<&'a [u8]>
    ensures { IfSome result (λ word. (levels : ℕ) (vs : List Value) → IsPlaced text.entry.now levels vs (Some place) → vs ≡ run_value place.at word.now ∷ []) }
{
    if place.until <= place.at {
        return None;
    }
    if place.until > text.len() {
        return None;
    }
    Some(&text[place.at..place.until])
}

/// Whether a word is the keyword of the nemesis.
fn is_nemesis(word: &[u8]) -> bool
    ensures { result ≡ true → (p : ℕ) → is_word (codes ":nemesis") (run_value p word.now) ≡ true }
{
    is_same(word, b":nemesis")
}

/// The process that a word says, which begins at a place.
#[inline(always)]
fn process_in(at: usize, word: &[u8]) -> Option<Process>
    ensures { IfSome result (IsProcess (run_value at word.now)) }
{
    if let Some(number) = integer(word) {
        return Some(Process::Number(process_number(number)?));
    }
    if is_nemesis(word) {
        return Some(Process::Nemesis);
    }
    None
}

/// The object's key and the value that a map says whose `:value` stands at a place.
#[inline(always)]
fn parts_at<'a>(
    alloc: Global,
    keyed: bool,
    text: &'a [u8],
    place: Extent,
) -> Option<(Said<'a>, Edn<'a>)>
    ensures { IfSome result (λ r. (levels : ℕ) (vs : List Value) → levels ≤ 64 → IsPlaced text.entry.now levels vs (Some place) → AreParts keyed vs (seen r.0) (view r.1)) }
{
    elements_are_unique();
    if keyed {
        let (key, value, _) = pair_at(alloc, text, place.at)?;
        return Some((key, value));
    }
    if let Some(word) = word_of(text, place) {
        return Some((Said::Int(0), run_element(place.at, word)));
    }
    let (value, _) = value_at(alloc, text, place.at, VALUE_LEVELS)?;
    Some((Said::Int(0), value))
}

/// Nil or the item that the only value under a key says, which stands at a place.
#[inline(always)]
fn plain_of(text: &[u8], place: Extent) -> Option<Plain<'_>>
    ensures { IfSome result (λ plain. (levels : ℕ) (vs : List Value) → levels ≤ 64 → IsPlaced text.entry.now levels vs (Some place) → AreParts false vs (seen (said.Int (pos 0))) (value_of (plain_view plain))) }
{
    elements_are_unique();
    if let Some(word) = word_of(text, place) {
        return plain_in(word);
    }
    if place.at > text.len() {
        return None;
    }
    let (word, _) = string_at(text, place.at)?;
    Some(Plain::Item(word))
}

/// The object's key and the value that a map says whose `:value` stands at a place, or nowhere, where that value is nil or an item:
/// no element has to be built.
#[inline(always)]
fn plain_parts(keyed: bool, text: &[u8], place: Option<Extent>) -> Option<(Said<'_>, Plain<'_>)>
    ensures { IfSome result (λ r. (levels : ℕ) (vs : List Value) → levels ≤ 64 → IsPlaced text.entry.now levels vs place → AreParts keyed vs (seen r.0) (value_of (plain_view r.1))) }
{
    elements_are_unique();
    let Some(place) = place else {
        if keyed {
            return None;
        }
        return Some((Said::Int(0), Plain::Nil));
    };
    if keyed {
        let (key, plain, _) = plain_pair(text, place.at)?;
        return Some((key, plain));
    }
    let plain = plain_of(text, place)?;
    Some((Said::Int(0), plain))
}

/// The event of a usual map that says this, with this key and value.
#[inline(always)]
fn event_given(
    alloc: Global,
    doing: Doing,
    key: Said,
    value: Given,
    names: &mut Names,
) -> Option<Option<Event>>
    ensures begun { Begins names.old names.new }
    ensures told { IfSome result (λ told. (m : Reading) → AgreesWith names.new m.number → (vs : List Value) → AreParts m.keyed vs (seen key.entry) (given_view value.entry) →
        TellsWith m doing.process doing.event_type doing.name vs told) }
{
    match event_said(
        alloc,
        doing.process,
        doing.event_type,
        doing.name,
        key,
        value,
        names,
    ) {
        Ok(told) => Some(told),
        Err(_) => None,
    }
}

/// The object's key that a map says whose `:value` stands at a place: 0 without keys, else that of a pair. The value is passed over.
fn key_alone(keyed: bool, text: &[u8], place: Extent) -> Option<Said<'_>>
    ensures { IfSome result (λ key. (levels : ℕ) (vs : List Value) → levels ≤ 64 → IsPlaced text.entry.now levels vs (Some place) → (v : Value) × AreParts keyed vs (seen key) v) }
{
    elements_are_unique();
    if !keyed {
        return Some(Said::Int(0));
    }
    let (key, _) = pair_key(text, place.at)?;
    Some(key)
}

/// The event of a usual map that says this, which doesn't hang on its `:value`, however long that is.
fn valueless_event(
    alloc: Global,
    keyed: bool,
    text: &[u8],
    doing: Doing,
    place: Extent,
    names: &mut Names,
) -> Option<Option<Event>>
    requires { (m : Reading) (v : Value) (w : Value) → body_of m doing.event_type doing.name v ≡ body_of m doing.event_type doing.name w }
    ensures begun { Begins names.old names.new }
    ensures told { IfSome result (λ told. (m : Reading) → IsReading keyed names.new m → (levels : ℕ) (vs : List Value) → levels ≤ 64 → IsPlaced text.now levels vs (Some place) →
        TellsWith m doing.process doing.event_type doing.name vs told) }
{
    let key = key_alone(keyed, text, place)?;
    let told = event_given(alloc, doing, key, Given::Plain(Plain::Nil), names)?;
    Some(told)
}

/// The event of a usual map that says this, whose `:value` is built as an element if the event hangs on it. It stands apart, so that
/// other maps set nothing up for it.
#[inline(never)]
fn element_event(
    alloc: Global,
    keyed: bool,
    text: &[u8],
    doing: Doing,
    place: Option<Extent>,
    names: &mut Names,
) -> Option<Option<Event>>
    ensures begun { Begins names.old names.new }
    ensures told { IfSome result (λ told. (m : Reading) → IsReading keyed names.new m → (levels : ℕ) (vs : List Value) → levels ≤ 64 → IsPlaced text.now levels vs place →
        TellsWith m doing.process doing.event_type doing.name vs told) }
{
    let place = place?;
    if !is_value_told(doing.event_type, doing.name) {
        return valueless_event(alloc, keyed, text, doing, place, names);
    }
    let (key, value) = parts_at(alloc, keyed, text, place)?;
    let told = event_given(alloc, doing, key, Given::Element(&value), names)?;
    Some(told)
}

/// The event of a usual map, or that it is none; nothing where this has to be seen from its elements.
#[inline(always)]
fn usual_event(
    alloc: Global,
    keyed: bool,
    text: &[u8],
    places: ValueExtents,
    names: &mut Names,
) -> Option<Option<Event>>
    ensures begun { Begins names.old names.new }
    ensures told { IfSome result (λ told. (m : Reading) → IsReading keyed names.new m → (levels : ℕ) (es : Entries) → levels ≤ 64 → ArePlaced text.now levels es places →
        event m (value.map es) ≡ Ok told) }
    ensures over { IfSome result (λ _. (levels : ℕ) (es : Entries) → ArePlaced text.now levels es places → keyword_of (value.map es) ≡ []) }
{
    let place = places.process?;
    let process = match process_in(place.at, word_of(text, place)?)? {
        Process::Number(number) => number,
        Process::Nemesis => return Some(None),
    };
    let event_type = type_named(word_of(text, places.event_type?)?)?;
    let name = function_named(word_of(text, places.function?)?)?;
    let doing = Doing {
        process,
        event_type,
        name,
    };
    if let Some((key, plain)) = plain_parts(keyed, text, places.value) {
        let told = event_given(alloc, doing, key, Given::Plain(plain), names)?;
        return Some(told);
    }
    let told = element_event(alloc, keyed, text, doing, places.value, names)?;
    Some(told)
}

/// A usual map that ends at a place, if its event is one of numbers alone.
#[inline(always)]
fn small_event(keyed: bool, text: &[u8], places: ValueExtents, used: usize) -> Option<Small>
    ensures used { IfSome result (λ small. small.used ≡ used) }
    ensures told { IfSome result (λ small. (m : Reading) → m.keyed ≡ keyed → (levels : ℕ) (es : Entries) → levels ≤ 64 → ArePlaced text.now levels es places →
        event m (value.map es) ≡ Ok (Some (event_of_small small))) }
    ensures over { IfSome result (λ _. (levels : ℕ) (es : Entries) → ArePlaced text.now levels es places → keyword_of (value.map es) ≡ []) }
{
    let place = places.process?;
    let process = match process_in(place.at, word_of(text, place)?)? {
        Process::Number(number) => number,
        Process::Nemesis => return None,
    };
    let event_type = type_named(word_of(text, places.event_type?)?)?;
    let name = function_named(word_of(text, places.function?)?)?;
    let (key, plain) = plain_parts(keyed, text, places.value)?;
    let deed = deed_of(event_type, name, number_in(plain)?)?;
    let small = small_with(process, key, deed, used)?;
    Some(small)
}

/// How many of some levels are left in a map, where a tag stands in front of it from a place on, or none.
fn levels_inside(from: usize, begun: usize, levels: usize) -> usize
    requires { 3 ≤ levels }
    ensures few { result ≤ levels }
    ensures tagged { from < begun → suc (suc result) ≡ levels }
    ensures plain { begun ≡ from → suc result ≡ levels }
{
    if from < begun { levels - 2 } else { levels - 1 }
}

/// The usual map whose opening byte stands at a place, with so many levels inside at most, and where it ends; found by what the maps
/// before it were like, if it can be.
#[inline(always)]
fn map_at(
    means: &mut Means,
    text: &[u8],
    from: usize,
    end: usize,
    levels: usize,
) -> Option<(ValueExtents, usize)>
    requires begun { from < end }
    requires inside { end ≤ length text.now }
    requires opens { slice_index text.now from ≡ 123 }
    ensures within { IfSome result (λ r. (from < r.1) × (r.1 ≤ end)) }
    ensures map { IfSome result (λ r. IsMapAt text.now from levels r.0 r.1) }
{
    let found = means.find(text, from, end, levels);
    if found.is_some() {
        return found;
    }
    let found = usual_map(text, from, end, levels)?;
    means.keep(text, from, end);
    Some(found)
}

/// Where a map begins behind the white from a place on, with its tag if one stands directly in front of it, and where it is opened.
#[inline(always)]
fn map_opened(text: &[u8], from: usize, end: usize) -> Option<(usize, usize)>
    requires begun { from ≤ end }
    requires inside { end ≤ length text.now }
    ensures within { IfSome result (λ r. (from ≤ r.0) × (r.0 ≤ r.1) × (r.1 < end)) }
    ensures opens { IfSome result (λ r. slice_index text.now r.1 ≡ 123) }
    ensures short { IfSome result (λ r. ShortBlanks text.now from (drop from text.now) → ShortBlanks text.now r.0 (drop r.0 text.now)) }
    ensures row { IfSome result (λ r. (n : ℕ) (p : ℕ) (s : List ℕ) (vs : List Value) →
        Row n p s vs from (drop from text.now) → Row n p s vs r.0 (drop r.0 text.now)) }
    ensures tag { IfSome result (λ r. r.0 < r.1 → IsTagAt text.now r.0 r.1) }
{
    let at = white_until(text, from, end);
    let begun = tag_until(text, at, end);
    if begun == end {
        return None;
    }
    if text[begun] != b'{' {
        return None;
    }
    Some((at, begun))
}

/// The usual map behind the white from a place on that has the outline of an earlier one, with so many levels at most, if its event is
/// one of numbers alone.
#[inline(always)]
pub(crate) fn next_small(
    means: &Means,
    keyed: bool,
    text: &[u8],
    from: usize,
    levels: usize,
) -> Option<Small>
    requires { (3 ≤ levels) × (levels ≤ 64) }
    ensures { IfSome result (λ small. (names : List (List ℕ)) → IsTaken keyed names text.now from levels (small_taken small)) }
{
    let end = window(0, text.len());
    if from >= end {
        return None;
    }
    let (at, begun) = map_opened(text, from, end)?;
    let inside = levels_inside(at, begun, levels);
    let (places, used) = means.find(text, begun, end, inside)?;
    let small = small_event(keyed, text, places, used)?;
    Some(small)
}

/// The usual map, with a tag directly in front of it or none, behind the white from a place on, among the bytes that the first element of a text can have;
/// with so many levels at most.
#[inline(never)]
pub(crate) fn next_usual(
    means: &mut Means,
    keyed: bool,
    text: &[u8],
    from: usize,
    levels: usize,
    names: &mut Names,
) -> Option<Taken>
    requires { (3 ≤ levels) × (levels ≤ 64) }
    ensures begun { Begins names.old names.new }
    ensures taken { IfSome result (IsTaken keyed names.new text.now from levels) }
{
    let end = window(0, text.len());
    if from >= end {
        return None;
    }
    let (at, begun) = map_opened(text, from, end)?;
    let inside = levels_inside(at, begun, levels);
    let (places, used) = map_at(means, text, begun, end, inside)?;
    let event = usual_event(means.alloc, keyed, text, places, names)?;
    Some(Taken { event, used })
}
