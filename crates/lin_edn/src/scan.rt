//! Where rows of bytes end.

ghost use Rattle.std.specs.Prelude.{◌≤◌, length};
ghost use Rattle.lin_bytes.specs.Bytes as bytes;
ghost use Rattle.lin_edn.specs.Scans.{IsStopAt, is_dark, is_quoting};

use lin_bytes::{is_stop, is_white};

/// Where the bytes of a run from a place on end.
#[inline(never)]
pub(crate) fn run_end(input: &[u8], from: usize, end: usize) -> usize
    requires begun { from ≤ end }
    requires inside { end ≤ length input.now }
    ensures { IsStopAt bytes.is_stop input.now from end result }
{
    // Four bytes a turn, since most runs are that long, and a turn costs as much as a byte.
    let mut at = from;
    while end - at >= 4 {
        if is_stop(input[at]) {
            return at;
        }
        if is_stop(input[at + 1]) {
            return at + 1;
        }
        if is_stop(input[at + 2]) {
            return at + 2;
        }
        if is_stop(input[at + 3]) {
            return at + 3;
        }
        at += 4;
    }
    last_run_end(input, at, end)
}

/// Where the bytes of a run from a place near the end on end.
fn last_run_end(input: &[u8], from: usize, end: usize) -> usize
    requires begun { from ≤ end }
    requires inside { end ≤ length input.now }
    ensures { IsStopAt bytes.is_stop input.now from end result }
{
    for at in from..end {
        if is_stop(input[at]) {
            return at;
        }
    }
    end
}

/// Where the white from a place on ends.
#[inline(always)]
pub(crate) fn white_end(input: &[u8], from: usize, end: usize) -> usize
    requires begun { from ≤ end }
    requires inside { end ≤ length input.now }
    ensures { IsStopAt is_dark input.now from end result }
{
    for at in from..end {
        if !is_white(input[at]) {
            return at;
        }
    }
    end
}

/// Where the bytes of a text from a place on end, before a quote or a backslash.
#[inline(never)]
pub(crate) fn plain_end(input: &[u8], from: usize, end: usize) -> usize
    requires begun { from ≤ end }
    requires inside { end ≤ length input.now }
    ensures { IsStopAt is_quoting input.now from end result }
{
    for at in from..end {
        if input[at] == b'"' || input[at] == b'\\' {
            return at;
        }
    }
    end
}

/// Where the line from a place on ends.
#[inline(never)]
pub(crate) fn line_end(input: &[u8], from: usize, end: usize) -> usize
    requires begun { from ≤ end }
    requires inside { end ≤ length input.now }
    ensures { IsStopAt bytes.is_newline input.now from end result }
{
    for at in from..end {
        if input[at] == b'\n' {
            return at;
        }
    }
    end
}
