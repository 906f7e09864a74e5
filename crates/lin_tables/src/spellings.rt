//! Spellings of words as values are told.
ghost use Rattle.std.specs.Prelude.{◌≡◌, ◌++◌, ◌<◌, ◌≤◌, [], codes, drop, length, slice_index_or, OnOk};
ghost use Rattle.std.specs.List.{list_any};
ghost use Rattle.std.specs.Str.{bytes_eq};
ghost use Rattle.lin_tables.specs.Shortening.{begins_letter, from_letter, is_double as is_double_of, letter_at, short_text, word_text};
ghost use Rattle.lin_tables.specs.declared.spellings.Wording.TheVariants.{Short};

use lin_names::Names;
use std::alloc::AllocError;

/// How the words among values are told.
#[derive(Clone, Copy)]
pub enum Wording {
    /// Of a long one the middle is left out, where no other one is told so.
    Short,
    Whole,
}

/// A word of so many bytes is told as it stands.
const LONGEST: usize = 24;

/// So many of the first bytes of a longer one are told at most, and so many of the last ones.
const FRONT: usize = 10;

const BACK: usize = 11;

/// What stands between the two.
const DOTS: &[u8] = b"...";

/// Whether a letter of UTF-8 may begin with the byte.
fn may_begin(byte: u8) -> bool
    ensures { result ≡ begins_letter byte }
{
    !matches!(byte, 128..=191)
}

/// The last place up to this one at which a letter may begin, or 0.
fn letter_before(text: &[u8], mut at: usize) -> usize
    requires { at < length text.now }
    ensures letter { result ≡ letter_at text.now at }
    ensures within { result ≤ at }
{
    while at > 0 && !may_begin(text[at]) {
        at -= 1;
    }
    at
}

/// The first place from this one on at which a letter may begin, or the end.
fn letter_from(text: &[u8], mut at: usize) -> usize
    requires { at ≤ length text.now }
    ensures letter { drop result text.now ≡ from_letter (drop at text.now) }
    ensures least { at ≤ result }
    ensures within { result ≤ length text.now }
{
    while at < text.len() && !may_begin(text[at]) {
        at += 1;
    }
    at
}

/// The ends of a long word between which its middle is left out.
fn ends_of(word: &[u8]) -> (&[u8], &[u8])
    requires { 24 < length word.now }
    ensures { short_text word.now ≡ result.0.now ++ codes "..." ++ result.1.now }
{
    let front = letter_before(word, FRONT);
    let back = letter_from(word, word.len() - BACK);
    (&word[..front], &word[back..])
}

/// Puts a word last, a long one without its middle.
fn put_short(line: &mut Vec<u8>, word: &[u8]) -> Result<(), AllocError>
    ensures { OnOk result (line.new.items ≡ line.old.items ++ short_text word.now) }
{
    if word.len() <= LONGEST {
        return line.extend_from_slice(word);
    }
    let (front, back) = ends_of(word);
    line.extend_from_slice(front)?;
    line.extend_from_slice(DOTS)?;
    line.extend_from_slice(back)
}

/// Whether this is the short text of the word.
fn is_short_of(text: &[u8], word: &[u8]) -> bool
    ensures { result ≡ bytes_eq (short_text word.now) text.now }
{
    if word.len() <= LONGEST {
        return word == text;
    }
    let (front, back) = ends_of(word);
    let Some(rest) = text.strip_prefix(front) else {
        return false;
    };
    match rest.strip_prefix(DOTS) {
        Some(rest) => back == rest,
        None => false,
    }
}

/// Whether the name with the number is another word of the same short text, which is given.
fn is_double(names: &Names, number: usize, word: &[u8], text: &[u8]) -> bool
    requires within { number < length names.now }
    requires short { text.now ≡ short_text word.now }
    ensures { result ≡ is_double_of word.now (slice_index_or names.now number []) }
{
    match names.spelling(number) {
        Some(other) => is_short_of(text, other) && other != word,
        None => false,
    }
}

/// Whether another one among the names has the short text of the word, which is given.
fn has_double(names: &Names, word: &[u8], text: &[u8]) -> bool
    requires { text.now ≡ short_text word.now }
    ensures { result ≡ list_any (is_double_of word.now) names.now }
{
    for number in 0..names.len() {
        if is_double(names, number, word, text) {
            return true;
        }
    }
    false
}

/// Puts a word last by its short text, or as it stands where another one among the names has that too.
fn put_short_word(line: &mut Vec<u8>, names: &Names, word: &[u8]) -> Result<(), AllocError>
    ensures { OnOk result (line.new.items ≡ line.old.items ++ word_text Short names.now word.now) }
{
    if word.len() <= LONGEST {
        return line.extend_from_slice(word);
    }
    let from = line.len();
    put_short(line, word)?;
    if !has_double(names, word, &line[from..]) {
        return Ok(());
    }
    line.truncate(from);
    line.extend_from_slice(word)
}

/// Puts a word last.
pub(crate) fn put_word(
    line: &mut Vec<u8>,
    wording: Wording,
    names: &Names,
    word: &[u8],
) -> Result<(), AllocError>
    ensures { OnOk result (line.new.items ≡ line.old.items ++ word_text wording names.now word.now) }
{
    match wording {
        Wording::Short => put_short_word(line, names, word),
        Wording::Whole => line.extend_from_slice(word),
    }
}
