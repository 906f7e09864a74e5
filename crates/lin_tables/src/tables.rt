//! Tables of operations, and lists of what was possible, in columns.
ghost use Rattle.std.specs.Prelude.{◌≡◌, ◌++◌, ◌∷◌, ◌-◌, [], codes, length, map, max, replicate, OnOk, Option};
ghost use Rattle.std.specs.List.{flat_map};
ghost use Rattle.lin_tables.specs.Tables.{entry_line, line_text as line_of, list_text, padded, place_column, range_text, span_text, table_text, widest};

use lin_texts::put_number;
use std::alloc::AllocError;

/// The line numbers or the offsets of the two ends of an operation; the second is missing where it has no end.
#[derive(Clone, Copy)]
pub enum LineSpan {
    Lines(u64, Option<u64>),
    Bytes(u64, Option<u64>),
    /// Events that came by commands have no place in a file.
    Nowhere,
}

/// A line of a table of operations.
#[derive(Drop)]
pub struct TableRow {
    /// What the operation is to a failure: one character.
    pub mark: u8,
    /// The positions of its invocation and of its end.
    pub range: Vec<u8>,
    /// Where these stand in a file.
    pub span: Vec<u8>,
    pub words: Vec<u8>,
}

/// A line of a list: what was possible, and the operations that lead to it.
#[derive(Drop)]
pub struct ListLine {
    pub words: Vec<u8>,
    pub after: Vec<u8>,
}

/// Puts two numbers last with two dots between them, or the first alone with the dots.
pub fn put_range(line: &mut Vec<u8>, from: u64, to: Option<u64>) -> Result<(), AllocError>
    ensures { OnOk result (line.new.items ≡ line.old.items ++ range_text from to) }
{
    put_number(line, from)?;
    line.extend_from_slice(b"..")?;
    match to {
        Some(to) => put_number(line, to),
        None => Ok(()),
    }
}

/// Puts last where the two ends of an operation stand.
pub fn put_span(line: &mut Vec<u8>, span: LineSpan) -> Result<(), AllocError>
    ensures { OnOk result (line.new.items ≡ line.old.items ++ span_text span) }
{
    match span {
        LineSpan::Lines(from, to) => {
            line.extend_from_slice(b"line ")?;
            put_range(line, from, to)
        }
        LineSpan::Bytes(from, to) => {
            line.extend_from_slice(b"byte ")?;
            put_range(line, from, to)
        }
        LineSpan::Nowhere => Ok(()),
    }
}

/// Puts so many spaces last.
fn put_spaces(line: &mut Vec<u8>, count: usize) -> Result<(), AllocError>
    ensures { OnOk result (line.new.items ≡ line.old.items ++ replicate count 32) }
{
    for _ in 0..count {
        line.push(b' ')?;
    }
    Ok(())
}

/// Puts a column last, with as many spaces behind it as make it so wide.
fn put_padded(line: &mut Vec<u8>, column: &[u8], width: usize) -> Result<(), AllocError>
    ensures { OnOk result (line.new.items ≡ line.old.items ++ padded width column.now) }
{
    line.extend_from_slice(column)?;
    put_spaces(line, width.saturating_sub(column.len()))
}

/// The greater width.
fn wider(width: usize, other: usize) -> usize
    ensures { result ≡ max width other }
{
    if width < other {
        return other;
    }
    width
}

/// How wide the positions of the rows are.
fn range_width(rows: &[TableRow]) -> usize
    ensures { result ≡ widest (map (λ row. row.range.items) rows.now) }
{
    let mut width = 0;
    for row in rows {
        width = wider(width, row.range.as_slice().len());
    }
    width
}

/// How wide the places of the rows are.
fn span_width(rows: &[TableRow]) -> usize
    ensures { result ≡ widest (map (λ row. row.span.items) rows.now) }
{
    let mut width = 0;
    for row in rows {
        width = wider(width, row.span.as_slice().len());
    }
    width
}

/// How wide the words of the entries are.
fn words_width(entries: &[ListLine]) -> usize
    ensures { result ≡ widest (map (λ entry. entry.words.items) entries.now) }
{
    let mut width = 0;
    for entry in entries {
        width = wider(width, entry.words.as_slice().len());
    }
    width
}

/// Puts the column of places last, where it is wider than nothing.
fn put_places(text: &mut Vec<u8>, span: &[u8], width: usize) -> Result<(), AllocError>
    ensures { OnOk result (text.new.items ≡ text.old.items ++ place_column width span.now) }
{
    if width == 0 {
        return Ok(());
    }
    put_padded(text, span, width)?;
    text.extend_from_slice(b"  ")
}

/// Puts the line of an operation last, with its end; its columns are so wide.
fn put_row(text: &mut Vec<u8>, row: &TableRow, range: usize, span: usize) -> Result<(), AllocError>
    ensures { OnOk result (text.new.items ≡ text.old.items ++ line_of range span row.now) }
{
    text.push(row.mark)?;
    text.push(b' ')?;
    put_padded(text, &row.range, range)?;
    text.extend_from_slice(b"  ")?;
    put_places(text, &row.span, span)?;
    text.extend_from_slice(&row.words)?;
    text.push(b'\n')?;
    Ok(())
}

/// Puts a table last: a line for each operation, in columns.
pub fn put_table(text: &mut Vec<u8>, rows: &[TableRow]) -> Result<(), AllocError>
    ensures { OnOk result (text.new.items ≡ text.old.items ++ table_text rows.now) }
{
    let range = range_width(rows);
    let span = span_width(rows);
    for row in rows {
        put_row(text, row, range, span)?;
    }
    Ok(())
}

/// Puts the line of an entry last, with its end; its words are so wide.
fn put_entry(text: &mut Vec<u8>, entry: &ListLine, width: usize) -> Result<(), AllocError>
    ensures { OnOk result (text.new.items ≡ text.old.items ++ entry_line width entry.now) }
{
    text.extend_from_slice(b"  ")?;
    put_padded(text, &entry.words, width)?;
    text.extend_from_slice(b"  after ")?;
    text.extend_from_slice(&entry.after)?;
    text.push(b'\n')?;
    Ok(())
}

/// Puts a list last: a line for each entry, in columns.
pub fn put_list(text: &mut Vec<u8>, entries: &[ListLine]) -> Result<(), AllocError>
    ensures { OnOk result (text.new.items ≡ text.old.items ++ list_text entries.now) }
{
    let width = words_width(entries);
    for entry in entries {
        put_entry(text, entry, width)?;
    }
    Ok(())
}
