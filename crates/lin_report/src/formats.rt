//! How an answer is printed.
ghost use Rattle.std.specs.Prelude.{◌≡◌, drop};

/// How an answer is printed.
#[derive(Clone, Copy, Debug, PartialEq, Eq)]
pub enum ReportFormat {
    /// As lines for a reader.
    Text,
    /// As one line of JSON.
    Json,
    /// As that line without the brace that opens it, behind what names a file.
    Rest,
}

/// Takes the first byte away.
pub(crate) fn take_first_away(line: &mut Vec<u8>)
    ensures { line.new.items ≡ drop 1 line.old.items }
{
    if !line.is_empty() {
        let _ = line.remove(0);
    }
}
