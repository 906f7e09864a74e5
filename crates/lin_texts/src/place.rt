//! Places in byte texts.

/// Where something stands in a byte text.
#[derive(Clone, Copy, Debug, PartialEq, Eq)]
pub struct Place {
    /// How many bytes stand before it.
    pub offset: u64,
    /// Its line, from 1 on: a byte 10 ends a line, and nothing else does.
    pub line: u64,
}
