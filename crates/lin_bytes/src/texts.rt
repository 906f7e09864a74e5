//! Where texts end.

ghost use Rattle.std.specs.Prelude.{◌≡◌, ℕ, ◌≤◌, List, ◌∷◌, length, drop, false};
ghost use Rattle.lin_bytes.specs.TextEnds.{closing_end, closing_after};

/// Where the text ends whose opening quote stands before a place, if it is closed.
pub fn text_end(text: &[u8], from: usize) -> Option<usize>
    requires { from ≤ length text.now }
    ensures { result ≡ closing_end false from (drop from text.now) }
{
    let mut escaped = false;
    for at in from..text.len() {
        match passed(escaped, text[at]) {
            Some(next) => escaped = next,
            None => return Some(at + 1),
        }
    }
    None
}

/// Whether the byte behind a byte of a text is escaped; none where this one closes the text.
fn passed(escaped: bool, c: u8) -> Option<bool>
    ensures { (q : ℕ) (t : List ℕ) → closing_end escaped q (c ∷ t) ≡ closing_after result q t }
{
    if escaped {
        return Some(false);
    }
    if c == b'"' {
        return None;
    }
    Some(c == b'\\')
}
