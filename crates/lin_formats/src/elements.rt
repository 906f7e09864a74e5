//! What an element is, as far as hints ask.
ghost use Rattle.std.specs.Prelude.{◌≡◌, MatchOption, codes, is_some, map};
ghost use Rattle.lin_edn.specs.Value.{entries_of, nil, values_of};
ghost use Rattle.lin_edn.specs.View.{view, entry_view};
ghost use Rattle.lin_history.specs.Table.{bare as bare_value, both_of, is_word, or_nil, pair_of, under};
ghost use Rattle.lin_formats.specs.Elements.{has_pair as says_pair, has_string as says_string, has_string_in as says_string_in};

use lin_edn::{Edn, Entry};

/// An element without the tags in front of it.
pub(crate) fn bare<'e, 'a>(element: &'e Edn<'a>) -> &'e Edn<'a>
    ensures { view result.now ≡ bare_value (view element.entry.now) }
{
    match element {
        Edn::Tagged(_, inner) => bare(inner.as_ref()),
        _ => element,
    }
}

/// Whether an element is this keyword.
fn is_keyword(key: &Edn, word: &[u8]) -> bool
    ensures { result ≡ is_word word.now (view key.now) }
{
    match key {
        Edn::Keyword(span) => span.text == word,
        _ => false,
    }
}

/// The first value under a keyword, without its tags, if there is one.
pub(crate) fn value_under<'e, 'a>(entries: &'e [Entry<'a>], word: &[u8]) -> Option<&'e Edn<'a>>
    ensures { MatchOption result (or_nil (under word.now (entries_of (map entry_view entries.now))) ≡ nil)
        (λ value. or_nil (under word.now (entries_of (map entry_view entries.now))) ≡ view value.now) }
{
    for entry in entries {
        if is_keyword(&entry.key, word) {
            return Some(bare(&entry.value));
        }
    }
    None
}

/// Whether elements are exactly two.
fn are_two(items: &[Edn]) -> bool
    ensures { result ≡ is_some (both_of (values_of (map view items.now))) }
{
    items.len() == 2
}

/// Whether an element is a vector or list of two.
fn is_pair(element: &Edn) -> bool
    ensures { result ≡ is_some (pair_of (view element.now)) }
{
    match element {
        Edn::Vector(items) => are_two(items.as_slice()),
        Edn::List(items) => are_two(items.as_slice()),
        _ => false,
    }
}

/// Whether the first value under `:value` is a vector or list of two.
fn is_pair_in(entries: &[Entry]) -> bool
    ensures { result ≡ is_some (pair_of (or_nil (under (codes ":value") (entries_of (map entry_view entries.now))))) }
{
    match value_under(entries, b":value") {
        Some(value) => is_pair(value),
        None => false,
    }
}

/// Whether the `:value` of a map is a vector or list of two.
pub(crate) fn has_pair(element: &Edn) -> bool
    ensures { result ≡ says_pair (view element.now) }
{
    match bare(element) {
        Edn::Map(entries) => is_pair_in(entries.as_slice()),
        _ => false,
    }
}

/// Whether the first key is a string.
fn has_string_in(entries: &[Entry]) -> bool
    ensures { result ≡ says_string_in (entries_of (map entry_view entries.now)) }
{
    match entries.first() {
        Some(entry) => match &entry.key {
            Edn::Text(_) => true,
            _ => false,
        },
        None => false,
    }
}

/// Whether the first key of a map is a string.
pub(crate) fn has_string(element: &Edn) -> bool
    ensures { result ≡ says_string (view element.now) }
{
    match bare(element) {
        Edn::Map(entries) => has_string_in(entries.as_slice()),
        _ => false,
    }
}
