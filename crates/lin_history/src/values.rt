//! Values of usual maps, read in place.
ghost use Rattle.std.specs.Prelude.{◌≡◌, ℕ, ◌+◌, ◌<◌, ◌≤◌, ◌∷◌, ◌++◌, [], List, IfSome, Some, option_map, length, drop, map};
ghost use Rattle.lin_bytes.specs.Bytes as bytes;
ghost use Rattle.lin_bytes.specs.Bytes.{a_vector};
ghost use Rattle.lin_edn.specs.Grammar.{Element, Opens, Row};
ghost use Rattle.lin_edn.specs.Run.{run_value};
ghost use Rattle.lin_edn.specs.Value.{Value, made, text as text_value};
ghost use Rattle.lin_edn.specs.View.{view};
ghost use Rattle.lin_names.specs.Spelled.{seen};
ghost use Rattle.lin_history.specs.inner.Fields.{plain_of, plain_view};
ghost use Rattle.lin_history.specs.inner.Usual.{IsPair, kind_of};
ghost use Rattle.lin_history.specs.Table.{bare, said_of};

use crate::table::{Plain, is_same, word_in};
use lin_edn::{Edn, Span, integer, nested_until, run_element, run_until, text_until, white_until};
use lin_names::Said;
use std::alloc::Global;

/// The pair of an item and such a value, of one level at most, at a place.
#[inline(never)]
pub(crate) fn pair_at<'a>(
    alloc: Global,
    text: &'a [u8],
    from: usize,
) -> Option<(Said<'a>, Edn<'a>, usize)>
    ensures bare { IfSome result (λ r. bare (view r.1) ≡ view r.1) }
    ensures pair { IfSome result (λ r. IsPair 2 text.entry.now from (seen r.0) (view r.1) r.2) }
{
    let (key, until) = key_at(text, from)?;
    let at = white_until(text, until, text.len());
    let (value, used) = value_at(alloc, text, at, 1)?;
    let last = white_until(text, used, text.len());
    if last >= text.len() {
        return None;
    }
    if text[last] != b']' {
        return None;
    }
    Some((key, value, last + 1))
}

/// The keyword that a word is.
fn keyword_in(word: &[u8]) -> Option<Said<'_>>
    ensures { IfSome result (λ said. (p : ℕ) → said_of (run_value p word.entry.now) ≡ Some (seen said)) }
{
    if word.len() < 2 {
        return None;
    }
    if word[0] != b':' {
        return None;
    }
    Some(Said::Word(word))
}

/// The item that a word says.
#[inline(always)]
fn item_in(word: &[u8]) -> Option<Said<'_>>
    ensures { IfSome result (λ said. (p : ℕ) → said_of (run_value p word.entry.now) ≡ Some (seen said)) }
{
    if let Some(number) = integer(word) {
        return Some(Said::Int(number));
    }
    if is_same(word, b"true") {
        return Some(Said::Bool(true));
    }
    if is_same(word, b"false") {
        return Some(Said::Bool(false));
    }
    keyword_in(word)
}

/// Nil or the item that a word says.
#[inline(always)]
pub(crate) fn plain_in(word: &[u8]) -> Option<Plain<'_>>
    ensures { IfSome result (λ plain. (p : ℕ) → plain_of (run_value p word.entry.now) ≡ Some (plain_view plain)) }
{
    if is_same(word, b"nil") {
        return Some(Plain::Nil);
    }
    Some(Plain::Item(item_in(word)?))
}

/// The string at a place that is an item, and where it ends. A string that holds the end of a line is none, and one with a backslash is
/// read with its element.
pub(crate) fn string_at(text: &[u8], at: usize) -> Option<(Said<'_>, usize)>
    requires { at ≤ length text.now }
    ensures within { IfSome result (λ r. (at < r.1) × (r.1 ≤ length text.entry.now)) }
    ensures item { IfSome result (λ r. (v : Value) × (bare v ≡ v) × (said_of v ≡ Some (seen r.0)) × ((n : ℕ) → Element n at (drop at text.entry.now) v r.1 (drop r.1 text.entry.now))) }
{
    let until = text_until(text, at, text.len());
    if until == at {
        return None;
    }
    let word = word_in(&text[at..until])?;
    Some((word, until))
}

/// The item at a place, and where it ends.
#[inline(always)]
fn item_at(text: &[u8], at: usize) -> Option<(Said<'_>, usize)>
    requires { at ≤ length text.now }
    ensures within { IfSome result (λ r. (at < r.1) × (r.1 ≤ length text.entry.now)) }
    ensures item { IfSome result (λ r. (v : Value) × (bare v ≡ v) × (said_of v ≡ Some (seen r.0)) × ((n : ℕ) → Element n at (drop at text.entry.now) v r.1 (drop r.1 text.entry.now))) }
{
    let until = run_until(text, at, text.len());
    if until == at {
        return string_at(text, at);
    }
    let item = item_in(&text[at..until])?;
    Some((item, until))
}

/// Nil or the item at a place, and where it ends.
#[inline(always)]
fn plain_at(text: &[u8], at: usize) -> Option<(Plain<'_>, usize)>
    requires { at ≤ length text.now }
    ensures within { IfSome result (λ r. (at < r.1) × (r.1 ≤ length text.entry.now)) }
    ensures plain { IfSome result (λ r. (v : Value) × (bare v ≡ v) × (plain_of v ≡ Some (plain_view r.0)) × ((n : ℕ) → Element n at (drop at text.entry.now) v r.1 (drop r.1 text.entry.now))) }
{
    let until = run_until(text, at, text.len());
    if until == at {
        let (word, end) = string_at(text, at)?;
        return Some((Plain::Item(word), end));
    }
    let plain = plain_in(&text[at..until])?;
    Some((plain, until))
}

/// The pair of an item and nil or an item at a place, and where it ends.
#[inline(never)]
pub(crate) fn plain_pair(text: &[u8], from: usize) -> Option<(Said<'_>, Plain<'_>, usize)>
    ensures { IfSome result (λ r. (v : Value) × (bare v ≡ v) × (plain_of v ≡ Some (plain_view r.1)) × IsPair 2 text.entry.now from (seen r.0) v r.2) }
{
    let (key, until) = key_at(text, from)?;
    let at = white_until(text, until, text.len());
    let (plain, used) = plain_at(text, at)?;
    let last = white_until(text, used, text.len());
    if last >= text.len() {
        return None;
    }
    if text[last] != b']' {
        return None;
    }
    Some((key, plain, last + 1))
}

/// The item that the pair at a place begins with, and where the pair ends. Its value is passed over in place.
pub(crate) fn pair_key(text: &[u8], from: usize) -> Option<(Said<'_>, usize)>
    ensures { IfSome result (λ r. (v : Value) × IsPair 63 text.entry.now from (seen r.0) v r.1) }
{
    let (key, until) = key_at(text, from)?;
    let at = white_until(text, until, text.len());
    let used = nested_until(text, at, text.len(), 62);
    if used == at {
        return None;
    }
    let last = white_until(text, used, text.len());
    if last >= text.len() {
        return None;
    }
    if text[last] != b']' {
        return None;
    }
    Some((key, last + 1))
}

/// The item that the vector at a place begins with, and where it ends.
#[inline(always)]
fn key_at(text: &[u8], from: usize) -> Option<(Said<'_>, usize)>
    ensures within { IfSome result (λ r. (from < r.1) × (r.1 ≤ length text.entry.now)) }
    ensures opens { IfSome result (λ r. Opens a_vector from (drop from text.entry.now) (from + 1) (drop (from + 1) text.entry.now)) }
    ensures key { IfSome result (λ r. (v : Value) × (bare v ≡ v) × (said_of v ≡ Some (seen r.0)) × ((n : ℕ) → Row n (from + 1) (drop (from + 1) text.entry.now) (v ∷ []) r.1 (drop r.1 text.entry.now))) }
{
    if from >= text.len() {
        return None;
    }
    if text[from] != b'[' {
        return None;
    }
    let at = white_until(text, from + 1, text.len());
    let (key, until) = item_at(text, at)?;
    Some((key, until))
}

/// The value at a place, and where it ends: a run, a string without a backslash, or a vector or set of such values with white between
/// them, with so many levels at most. Nothing where none stands there, or where memory is refused.
#[cycle(value)]
pub(crate) fn value_at<'a>(
    alloc: Global,
    text: &'a [u8],
    from: usize,
    levels: usize,
) -> Option<(Edn<'a>, usize)>
    ensures within { IfSome result (λ r. (from < r.1) × (r.1 ≤ length text.now)) }
    ensures bare { IfSome result (λ r. bare (view r.0) ≡ view r.0) }
    ensures value { IfSome result (λ r. Element levels from (drop from text.entry.now) (view r.0) r.1 (drop r.1 text.entry.now)) }
{
    if from > text.len() {
        return None;
    }
    let until = run_until(text, from, text.len());
    if until > from {
        return Some((run_element(from, &text[from..until]), until));
    }
    let end = text_until(text, from, text.len());
    if end > from {
        return Some((text_element(from, &text[from..end]), end));
    }
    if levels == 0 {
        return None;
    }
    let (is_set, inner) = opened_at(text, from)?;
    let (items, used) = items_at(alloc, text, inner, levels - 1, is_set)?;
    Some((gathered(is_set, items), used))
}

/// The string that begins at a place.
fn text_element<'a>(at: usize, text: &'a [u8]) -> Edn<'a>
    ensures { view result ≡ text_value at text.entry.now }
{
    Edn::Text(Span { at, text })
}

/// The values from a place on up to the byte that closes their vector or set, and where that byte ends.
#[cycle(value)]
fn items_at<'a>(
    alloc: Global,
    text: &'a [u8],
    inner: usize,
    levels: usize,
    is_set: bool,
) -> Option<(Vec<Edn<'a>>, usize)>
    requires { inner ≤ length text.now }
    ensures within { IfSome result (λ r. (inner < r.1) × (r.1 ≤ length text.now)) }
    ensures row { IfSome result (λ r. (until : ℕ) × (r.1 ≡ until + 1)
        × Row levels inner (drop inner text.entry.now) (map view r.0.items) until (bytes.closing (kind_of is_set) ∷ drop r.1 text.entry.now)) }
{
    let mut items = Vec::new(alloc);
    let mut at = white_until(text, inner, text.len());
    while at < text.len() {
        if text[at] == closing(is_set) {
            return Some((items, at + 1));
        }
        let (item, used) = value_at(alloc, text, at, levels)?;
        put(&mut items, item)?;
        at = white_until(text, used, text.len());
    }
    None
}

/// Puts a value behind the others; nothing where memory is refused.
fn put<'a>(items: &mut Vec<Edn<'a>>, item: Edn<'a>) -> Option<()>
    ensures { IfSome result (λ _. map view items.new.items ≡ map view items.old.items ++ view item.entry ∷ []) }
{
    items.push(item).ok()
}

/// Whether the collection that opens at a place is a set, if that is a set or a vector, and where its opening bytes end.
fn opened_at(text: &[u8], from: usize) -> Option<(bool, usize)>
    ensures within { IfSome result (λ r. (from < r.1) × (r.1 ≤ length text.now)) }
    ensures opens { IfSome result (λ r. Opens (kind_of r.0) from (drop from text.now) r.1 (drop r.1 text.now)) }
{
    if from >= text.len() {
        return None;
    }
    if text[from] == b'[' {
        return Some((false, from + 1));
    }
    if text.len() - from < 2 {
        return None;
    }
    if text[from] != b'#' {
        return None;
    }
    if text[from + 1] != b'{' {
        return None;
    }
    Some((true, from + 2))
}

/// The byte that closes a set or a vector.
fn closing(is_set: bool) -> u8
    ensures { result ≡ bytes.closing (kind_of is_set) }
{
    if is_set { b'}' } else { b']' }
}

/// The set or vector of some values.
fn gathered<'a>(is_set: bool, items: Vec<Edn<'a>>) -> Edn<'a>
    ensures made { made (kind_of is_set) (map view items.entry.items) ≡ Some (view result) }
    ensures bare { bare (view result) ≡ view result }
{
    if is_set {
        Edn::Set(items)
    } else {
        Edn::Vector(items)
    }
}
