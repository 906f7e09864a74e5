//! White, runs, texts and tags of an input, found in place.

ghost use Rattle.std.specs.Prelude.{◌≡◌, ℕ, ◌+◌, ◌<◌, ◌≤◌, List, length, drop, slice_index};
ghost use Rattle.std.specs.List.{slice_range};
ghost use Rattle.lin_edn.specs.Grammar.{ShortBlanks, Blanks, Row, Element, IsTagAt};
ghost use Rattle.lin_edn.specs.Run.{run_value};
ghost use Rattle.lin_edn.specs.Scans.{IsStopAt, is_dark};
ghost use Rattle.lin_edn.specs.Simple.{FindsBegun, FindsSimple};
ghost use Rattle.lin_edn.specs.Value.{Value, text as text_value};
ghost use Rattle.lin_bytes.specs.Bytes.{class, inside, quote};

use crate::reader::{Behind, behind_hash};
use crate::scan::{plain_end, run_end, white_end};
use lin_bytes::is_plain;

/// Where the white from a place on ends, or `end`.
#[inline(always)]
pub fn white_until(input: &[u8], from: usize, end: usize) -> usize
    requires begun { from ≤ end }
    requires inside { end ≤ length input.now }
    ensures within { (from ≤ result) × (result ≤ end) }
    ensures short { ShortBlanks input.now from (drop from input.now) → ShortBlanks input.now result (drop result input.now) }
    ensures row { (n : ℕ) (p : ℕ) (s : List ℕ) (vs : List Value) →
        Row n p s vs from (drop from input.now) → Row n p s vs result (drop result input.now) }
    ensures blanks { (n : ℕ) → Blanks n from (drop from input.now) result (drop result input.now) }
    ensures all { IsStopAt is_dark input.now from end result }
{
    white_end(input, from, end)
}

/// Where the run at a place ends; that place where none stands there that ends before `end`.
#[inline(always)]
pub fn run_until(input: &[u8], from: usize, end: usize) -> usize
    requires begun { from ≤ end }
    requires inside { end ≤ length input.now }
    ensures within { (from ≤ result) × (result ≤ end) }
    ensures run { from < result → (n : ℕ) →
        Element n from (drop from input.now) (run_value from (slice_range input.now from result)) result (drop result input.now) }
    ensures found { FindsBegun inside input.now from end result }
{
    if from == end {
        return from;
    }
    if !is_plain(input[from]) {
        return from;
    }
    let until = run_end(input, from + 1, end);
    if until == end { from } else { until }
}

/// Where the text at a place ends; that place where none stands there without a backslash that ends before `end`.
pub fn text_until(input: &[u8], from: usize, end: usize) -> usize
    requires begun { from ≤ end }
    requires inside { end ≤ length input.now }
    ensures within { (from ≤ result) × (result ≤ end) }
    ensures text { from < result → (n : ℕ) →
        Element n from (drop from input.now) (text_value from (slice_range input.now from result)) result (drop result input.now) }
    ensures found { class (slice_index input.now from) ≡ quote → (levels : ℕ) → FindsSimple input.now from end levels result }
{
    if from == end {
        return from;
    }
    if input[from] != b'"' {
        return from;
    }
    let until = plain_end(input, from + 1, end);
    if until == end {
        return from;
    }
    if input[until] == b'"' {
        until + 1
    } else {
        from
    }
}

/// Where the tag at a place ends; that place where none stands there that ends before `end`.
pub fn tag_until(input: &[u8], from: usize, end: usize) -> usize
    requires begun { from ≤ end }
    requires inside { end ≤ length input.now }
    ensures within { (from ≤ result) × (result ≤ end) }
    ensures tag { from < result → IsTagAt input.now from result }
    ensures found { (until : ℕ) → IsTagAt input.now from until → until < end → result ≡ until }
{
    if end - from < 2 {
        return from;
    }
    if input[from] != b'#' {
        return from;
    }
    match behind_hash(input[from + 1]) {
        Behind::Tag => {}
        _ => return from,
    }
    let until = run_end(input, from + 2, end);
    if until == end { from } else { until }
}
