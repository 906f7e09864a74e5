//! Where strings and keywords end.

ghost use Rattle.std.specs.Prelude.{◌≡◌, ℕ, ◌<◌, length, slice_index, IfSome, IfNone};
ghost use Rattle.lin_edn.specs.ItemEnds.{IsItemEnd};

use crate::reader::{Behind, behind_hash};
use crate::scan::run_end;
use lin_bytes::text_end;

/// Where the string or keyword ends that begins at a place, if one does. The end of the text finishes a keyword, and no string.
pub fn item_end(text: &[u8], at: usize) -> Option<usize>
    ensures some { IfSome result (IsItemEnd text.now at) }
    ensures none { IfNone result ((end : ℕ) → IsItemEnd text.now at end → ⊥) }
{
    if at >= text.len() {
        return None;
    }
    if text[at] == b':' {
        return keyword_end(text, at);
    }
    if text[at] == b'"' {
        return text_end(text, at + 1);
    }
    if text[at] != b'#' {
        return None;
    }
    if text.len() - at < 2 {
        return None;
    }
    match behind_hash(text[at + 1]) {
        Behind::Text => text_end(text, at + 2),
        _ => None,
    }
}

/// Where the keyword ends whose colon stands at a place, if a byte of it follows.
fn keyword_end(text: &[u8], at: usize) -> Option<usize>
    requires within { at < length text.now }
    requires colon { slice_index text.now at ≡ 58 }
    ensures some { IfSome result (IsItemEnd text.now at) }
    ensures none { IfNone result ((end : ℕ) → IsItemEnd text.now at end → ⊥) }
{
    let end = run_end(text, at + 1, text.len());
    if end == at + 1 {
        return None;
    }
    Some(end)
}
