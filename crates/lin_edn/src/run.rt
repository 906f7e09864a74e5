//! What a run of bytes spells.

ghost use Rattle.std.specs.Prelude.{◌≡◌, ℕ, ◌≤◌, ◌<◌, ◌^◌, length, Option, Some, None, IfSome, pos, is_some, nat_le, if◌then◌else◌, false};
ghost use Rattle.lin_edn.specs.Run as run;
ghost use Rattle.lin_bytes.specs.Bytes as bytes;
ghost use Rattle.lin_edn.specs.View.{view};
ghost use Rattle.lin_edn.specs.inner.Numbers.{capped};

use crate::{Edn, Span};

// The greatest number that an integer of 64 bits has, behind a minus.
const MOST: u64 = 9_223_372_036_854_775_808;

/// The element that a run spells, whose first byte stands at a place.
pub fn run_element<'a>(at: usize, text: &'a [u8]) -> Edn<'a>
    ensures { view result ≡ run.run_value at text.entry.now }
{
    if text == b"nil".as_slice() {
        return Edn::Nil;
    }
    if text == b"true".as_slice() {
        return Edn::Bool(true);
    }
    if text == b"false".as_slice() {
        return Edn::Bool(false);
    }
    number_or_name(at, text)
}

/// The element that a run other than `nil`, `true` and `false` spells.
fn number_or_name<'a>(at: usize, text: &'a [u8]) -> Edn<'a>
    ensures { view result ≡ run.of_number at text.entry.now (run.integer text.entry.now) }
{
    match integer(text) {
        Some(value) => Edn::Int(value),
        None if is_keyword(text) => Edn::Keyword(Span { at, text }),
        None => Edn::Atom(Span { at, text }),
    }
}

/// Whether a run is a colon and at least one more byte.
fn is_keyword(text: &[u8]) -> bool
    ensures { result ≡ run.is_keyword text.now }
{
    match text {
        [b':', rest @ ..] => !rest.is_empty(),
        _ => false,
    }
}

/// The integer of 64 bits that a run spells, if it spells one.
#[inline(always)]
pub fn integer(text: &[u8]) -> Option<i64>
    ensures { result ≡ run.integer text.now }
{
    // Most have one digit or two.
    match digits_in(text) {
        Some(number) => Some(number as i64),
        None => long_integer(text),
    }
}

/// The number that a run of one digit or two spells.
#[inline(always)]
fn digits_in(text: &[u8]) -> Option<u8>
    ensures { IfSome result (λ number. Some (pos number) ≡ run.integer text.now) }
{
    match text {
        [byte] if byte.is_ascii_digit() => Some(*byte - b'0'),
        [ten, one] if *ten != b'0' && ten.is_ascii_digit() && one.is_ascii_digit() => {
            Some((*ten - b'0') * 10 + (*one - b'0'))
        }
        _ => None,
    }
}

/// The integer that a run of any length spells.
#[inline(never)]
fn long_integer(text: &[u8]) -> Option<i64>
    ensures { result ≡ run.integer text.now }
{
    let digits = unmarked(unsigned(text));
    if !is_plain_numeral(digits) {
        return None;
    }
    in_range(is_negative(text), number(digits))
}

/// Whether a run begins with a minus.
fn is_negative(text: &[u8]) -> bool
    ensures { result ≡ run.is_negative text.now }
{
    matches!(text, [b'-', ..])
}

/// A run without its sign.
fn unsigned<'a>(text: &'a [u8]) -> &'a [u8]
    ensures { result.now ≡ run.unsigned text.entry.now }
{
    match text {
        [b'-', rest @ ..] => rest,
        [b'+', rest @ ..] => rest,
        _ => text,
    }
}

/// A run without an `N` at its end.
fn unmarked<'a>(text: &'a [u8]) -> &'a [u8]
    ensures { result.now ≡ run.unmarked text.entry.now }
{
    match text {
        [front @ .., b'N'] => front,
        _ => text,
    }
}

/// Whether a run has a byte, and no 0 before another.
fn is_plain_numeral(digits: &[u8]) -> bool
    ensures { result ≡ run.is_plain_numeral digits.now }
{
    match digits {
        [] => false,
        [first, rest @ ..] => *first != b'0' || rest.is_empty(),
    }
}

/// The number that digits write, where it is at most 2 to the power of 63.
#[tactic(auto, using(crate::proofs::Digits::one_more))]
fn number(digits: &[u8]) -> Option<u64>
    ensures { result ≡ capped (run.number_after 0 digits.now) }
{
    let mut value = 0u64;
    for digit in digits {
        // A further digit would make a greater number than an integer has.
        if value > 1_000_000_000_000_000_000 {
            return None;
        }
        if !digit.is_ascii_digit() {
            return None;
        }
        value = value * 10 + (*digit - b'0') as u64;
    }
    if value <= MOST { Some(value) } else { None }
}

/// A number with its sign, where it has 64 bits.
fn in_range(is_below: bool, number: Option<u64>) -> Option<i64>
    ensures { (n : Option ℕ) → number ≡ capped n → result ≡ run.in_range is_below n }
{
    let number = number?;
    if is_below && number == MOST {
        return Some(i64::MIN);
    }
    let value = i64::try_from(number).ok()?;
    if is_below { Some(-value) } else { Some(value) }
}
