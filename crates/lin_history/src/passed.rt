//! Maps that are passed over since a keyword is their process, though it is no nemesis's.
ghost use Rattle.std.specs.Prelude.{◌≡◌, ◌≤◌, [], ◌∷◌, None, Some, MatchOption, codes, map, take};
ghost use Rattle.lin_edn.specs.Value.{entries_of, nil, values_of};
ghost use Rattle.lin_edn.specs.View.{entry_view, view};
ghost use Rattle.lin_history.specs.Counts.{none_passed};
ghost use Rattle.lin_history.specs.PassedMaps.{first_of, keyword_of, other_keyword};
ghost use Rattle.lin_history.specs.Table.{bare as bare_value, or_nil, under};
ghost use Rattle.lin_history.specs.inner.Passing.{added, passed_more};

use crate::table::{bare, is_same, is_word};
use lin_edn::{Edn, Entry};
use std::marker::Model;

/// So many bytes of a keyword are kept.
const MOST: usize = 40;

/// How a keyword begins.
#[derive(Clone, Copy)]
struct Keyword {
    bytes: [u8; MOST],
    size: usize,
}

/// How many maps were passed over since a keyword other than `:nemesis` is their process, up to the greatest number, and how the first
/// such keyword begins.
#[derive(Drop)]
pub struct PassedOver {
    count: u64,
    first: Option<Keyword>,
}

impl Model for PassedOver {
    ghost use Rattle.std.specs.Prelude.{◌≤◌, IfSome, option_map, take};
    ghost use Rattle.lin_history.specs.Counts.{Passed};

    ghost Value = { Passed };

    ghost view = { λ p. record { count = p.count; first = option_map (λ k. take k.size k.bytes) p.first } };

    ghost invariant = { λ p. IfSome p.first (λ k. k.size ≤ 40) };
}

impl PassedOver {
    /// None so far.
    pub fn none() -> PassedOver
        ensures { result ≡ none_passed }
    {
        PassedOver {
            count: 0,
            first: None,
        }
    }

    /// How many.
    pub fn count(&self) -> u64
        ensures { result ≡ self.now.count }
    {
        self.count
    }

    /// The keyword of the first, or its first 40 bytes.
    pub fn first(&self) -> Option<&[u8]>
        ensures { MatchOption result (self.now.first ≡ None) (λ word. self.now.first ≡ Some word.now) }
    {
        match &self.first {
            Some(keyword) => Some(&keyword.bytes[..keyword.size]),
            None => None,
        }
    }

    /// The same once more.
    pub fn copy(&self) -> PassedOver
        ensures { result ≡ self.now }
    {
        PassedOver {
            count: self.count,
            first: self.first,
        }
    }

    /// Counts a map, if it is passed over.
    pub(crate) fn take(&mut self, element: &Edn)
        ensures { self.new ≡ passed_more self.old (keyword_of (bare_value (view element.now))) }
    {
        if let Some(word) = keyword_in(element) {
            self.count = self.count.saturating_add(1);
            if self.first.is_none() {
                self.first = Some(begun(word));
            }
        }
    }

    /// Counts those that another one counted behind these.
    pub(crate) fn add(&mut self, more: &PassedOver)
        ensures { self.new ≡ added self.old more.now }
    {
        if more.count == 0 {
            return;
        }
        self.count = self.count.saturating_add(more.count);
        if self.first.is_none() {
            self.first = more.first;
        }
    }
}

/// How a word begins.
fn begun(word: &[u8]) -> Keyword
    ensures size { result.size ≤ 40 }
    ensures bytes { take result.size result.bytes ≡ take 40 word.now }
{
    let size = word.len().min(MOST);
    let mut bytes = [0u8; MOST];
    bytes[..size].copy_from_slice(&word[..size]);
    Keyword { bytes, size }
}

/// The first value under a keyword, without its tags, if there is one.
fn value_under<'e, 'a>(entries: &'e [Entry<'a>], word: &[u8]) -> Option<&'e Edn<'a>>
    ensures { MatchOption result (or_nil (under word.now (entries_of (map entry_view entries.now))) ≡ nil)
        (λ value. or_nil (under word.now (entries_of (map entry_view entries.now))) ≡ view value.now) }
{
    for entry in entries {
        if is_word(&entry.key, word) {
            return Some(bare(&entry.value));
        }
    }
    None
}

/// The keyword that a value is, unless it is that of the nemesis.
fn keyword_said<'a>(value: &Edn<'a>) -> Option<&'a [u8]>
    ensures { MatchOption result (other_keyword (view value.now) ≡ []) (λ word. other_keyword (view value.now) ≡ word.now ∷ []) }
{
    match value {
        Edn::Keyword(span) if !is_same(span.text, b":nemesis") => Some(span.text),
        _ => None,
    }
}

/// The keyword for which a map is passed over, if it is.
fn keyword_in<'a>(element: &Edn<'a>) -> Option<&'a [u8]>
    ensures { MatchOption result (keyword_of (bare_value (view element.now)) ≡ []) (λ word. keyword_of (bare_value (view element.now)) ≡ word.now ∷ []) }
{
    match bare(element) {
        Edn::Map(entries) => keyword_said(value_under(entries.as_slice(), b":process")?),
        _ => None,
    }
}
