//! Values of an input, with what is nested in them, found in place.

ghost use Rattle.std.specs.Prelude.{◌≡◌, ℕ, ◌+◌, ◌<◌, ◌≤◌, Bool, List, true, IfSome, IfNone, length, drop, slice_index};
ghost use Rattle.lin_bytes.specs.Bytes.{Kind};
ghost use Rattle.lin_edn.specs.Grammar.{Element, Opens};
ghost use Rattle.lin_edn.specs.Skimming.{brackets, level_view};
ghost use Rattle.lin_edn.specs.inner.Skimming.{grown};
ghost use Rattle.lin_edn.specs.Simple.{FindsSimple};
ghost use Rattle.lin_edn.specs.Value.{Value};

use crate::found::{run_until, tag_until, text_until, white_until};
use crate::skim::{Level, can_close};

/// Where the value at a place ends; that place where none stands there that ends before `end`, and that is a run, a text
/// without a backslash, a collection of such values with white between them, or such a value behind a tag, with so many levels
/// at most. So it finds each value without comments, discards and backslashes.
#[cycle(nested)]
pub fn nested_until(input: &[u8], from: usize, end: usize, levels: usize) -> usize
    requires begun { from ≤ end }
    requires inside { end ≤ length input.now }
    ensures within { (from ≤ result) × (result ≤ end) }
    ensures value { from < result → (v : Value) × Element levels from (drop from input.now) v result (drop result input.now) }
    ensures found { FindsSimple input.now from end levels result }
{
    let run = run_until(input, from, end);
    if run > from {
        return run;
    }
    let text = text_until(input, from, end);
    if text > from {
        return text;
    }
    if levels == 0 {
        return from;
    }
    let tag = tag_until(input, from, end);
    if tag == from {
        return collection_until(input, from, end, levels);
    }
    let at = white_until(input, tag, end);
    let used = nested_until(input, at, end, levels - 1);
    if used == at {
        return from;
    }
    used
}

/// Where the collection of such values at a place ends; that place where none stands there.
#[cycle(nested)]
fn collection_until(input: &[u8], from: usize, end: usize, levels: usize) -> usize
    requires begun { from ≤ end }
    requires inside { end ≤ length input.now }
    requires room { 0 < levels }
    ensures within { (from ≤ result) × (result ≤ end) }
    ensures value { from < result → (v : Value) × Element levels from (drop from input.now) v result (drop result input.now) }
    ensures found { (k : Kind) (inner : ℕ) (t : List ℕ) → Opens k from (drop from input.now) inner t → FindsSimple input.now from end levels result }
{
    let Some((opened, inner)) = opened_at(input, from, end) else {
        return from;
    };
    let mut level = opened;
    let mut at = white_until(input, inner, end);
    while at < end {
        if can_close(level, input[at]) {
            return at + 1;
        }
        let used = nested_until(input, at, end, levels - 1);
        if used == at {
            return from;
        }
        level = with_more(level);
        at = white_until(input, used, end);
    }
    from
}

/// What is opened at a place, and where its opening bytes end.
fn opened_at(input: &[u8], from: usize, end: usize) -> Option<(Level, usize)>
    requires begun { from ≤ end }
    requires inside { end ≤ length input.now }
    ensures within { IfSome result (λ r. (from < r.1) × (r.1 ≤ end)) }
    ensures opens { IfSome result (λ r. (k : Kind) × Opens k from (drop from input.now) r.1 (drop r.1 input.now) × (level_view r.0 ≡ brackets k true)) }
    ensures none { IfNone result ((k : Kind) (inner : ℕ) (t : List ℕ) → Opens k from (drop from input.now) inner t → inner ≤ end → ⊥) }
{
    if from == end {
        return None;
    }
    if input[from] == b'[' {
        return Some((Level::Vector, from + 1));
    }
    if input[from] == b'(' {
        return Some((Level::List, from + 1));
    }
    if input[from] == b'{' {
        return Some((Level::EvenMap, from + 1));
    }
    if input[from] != b'#' {
        return None;
    }
    set_at(input, from, end)
}

/// A set, if it is opened at a place where a `#` stands, and where its opening bytes end.
fn set_at(input: &[u8], from: usize, end: usize) -> Option<(Level, usize)>
    requires begun { from < end }
    requires inside { end ≤ length input.now }
    requires hash { slice_index input.now from ≡ 35 }
    ensures within { IfSome result (λ r. (from < r.1) × (r.1 ≤ end)) }
    ensures opens { IfSome result (λ r. (k : Kind) × Opens k from (drop from input.now) r.1 (drop r.1 input.now) × (level_view r.0 ≡ brackets k true)) }
    ensures none { IfNone result ((k : Kind) (inner : ℕ) (t : List ℕ) → Opens k from (drop from input.now) inner t → inner ≤ end → ⊥) }
{
    if end - from < 2 {
        return None;
    }
    if input[from + 1] != b'{' {
        return None;
    }
    Some((Level::Set, from + 2))
}

/// A collection with one more element.
fn with_more(level: Level) -> Level
    ensures { (k : Kind) (b : Bool) → level_view level ≡ brackets k b → level_view result ≡ brackets k (grown k b) }
{
    match level {
        Level::EvenMap => Level::OddMap,
        Level::OddMap => Level::EvenMap,
        _ => level,
    }
}
