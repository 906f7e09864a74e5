//! What stands in front of a value, found again 16 bytes at once.

ghost use Rattle.std.specs.Prelude.{◌≡◌, ℕ, true, ◌+◌, ◌<◌, ◌≤◌, ◌++◌, [], ◌∷◌, List, IfSome, length, drop, slice_index};
ghost use Rattle.std.specs.List.{slice_range};
ghost use Rattle.lin_edn.specs.Grammar.{Element, Row};
ghost use Rattle.lin_edn.specs.Run.{run_value};
ghost use Rattle.lin_edn.specs.Segments.{IsFront};
ghost use Rattle.lin_edn.specs.Value.{Value};
ghost use Rattle.lin_edn.specs.inner.Lanes.{first_set, AreInside};

use crate::scan::{run_end, white_end};
use lin_bytes::{is_plain, is_stop};
use std::marker::Model;
use std::simd::prelude::*;

/// So many bytes are compared at once.
pub const LANES: usize = 16;

/// White or none, a run, and white behind it: 16 bytes at most, which one text had and another one may have too.
#[derive(Drop)]
pub struct Segment {
    bytes: [u8; LANES],
    // Where the run begins, where it ends, and where the white behind it ends.
    begun: usize,
    until: usize,
    end: usize,
}

impl Model for Segment {
    ghost use Rattle.std.specs.List.{slice_range};
    ghost use Rattle.lin_edn.specs.Segments.{Between, IsSegment};

    ghost Value = { Between };

    ghost view = { λ s. record { run = slice_range s.bytes s.begun s.until; size = s.end } };

    ghost invariant = { λ s. IsSegment s.bytes s.begun s.until s.end };
}

/// The lowest bit of a mask that is set, or how many there are.
#[inline(always)]
fn first_set(mask: u64, lanes: usize) -> usize
    ensures { result ≡ first_set mask lanes }
{
    if mask == 0 {
        lanes
    } else {
        mask.trailing_zeros() as usize
    }
}

/// Whether the first of some bytes, so many, stand in a text from a place on.
#[inline(always)]
fn begin_with(input: &[u8], from: usize, bytes: &[u8; LANES], count: usize) -> bool
    requires room { from + 16 ≤ length input.now }
    requires few { count ≤ 16 }
    ensures { result ≡ true → (k : ℕ) → k < count → slice_index input.now (from + k) ≡ slice_index bytes.now k }
{
    let here = u8x16::from_slice(&input[from..]);
    let there = u8x16::from_slice(bytes);
    first_set(here.simd_ne(there).to_bitmask(), LANES) >= count
}

/// The first bytes of a text from a place on.
fn bytes_at(input: &[u8], from: usize) -> [u8; LANES]
    requires { from + 16 ≤ length input.now }
{
    let mut bytes = [b' '; LANES];
    for k in 0..LANES {
        bytes[k] = input[from + k];
    }
    bytes
}

impl Segment {
    /// The segment that stands at a place, if it has white behind its run and no more bytes than are compared at once.
    pub fn found(input: &[u8], from: usize) -> Option<Segment>
        requires { from + 16 ≤ length input.now }
    {
        let bytes = bytes_at(input, from);
        let begun = white_end(&bytes, 0, LANES);
        if begun == LANES {
            return None;
        }
        if !is_plain(bytes[begun]) {
            return None;
        }
        let until = run_end(&bytes, begun + 1, LANES);
        let end = white_end(&bytes, until, LANES);
        if end == until {
            return None;
        }
        Some(Segment {
            bytes,
            begun,
            until,
            end,
        })
    }

    /// The run.
    pub fn run(&self) -> &[u8]
        ensures { result.now ≡ self.now.run }
    {
        &self.bytes[self.begun..self.until]
    }

    /// How many bytes it has.
    #[inline(always)]
    pub fn size(&self) -> usize
        ensures size { result ≡ self.now.size }
        ensures few { result ≤ 16 }
    {
        self.end
    }

    /// Whether it stands in a text at a place: so its run comes next, with white around it.
    #[inline(always)]
    pub fn stands(&self, input: &[u8], from: usize) -> bool
        requires { from + 16 ≤ length input.now }
        ensures { result ≡ true → IsFront input.now from self.now.run (from + self.now.size) }
    {
        begin_with(input, from, &self.bytes, self.end)
    }
}

/// How many of 16 bytes are digits, before the first that is none.
#[inline(always)]
fn digits_in(input: &[u8], from: usize) -> usize
    requires { from + 16 ≤ length input.now }
    ensures few { result ≤ 16 }
    ensures inside { AreInside input.now from (from + result) }
{
    let here = u8x16::from_slice(&input[from..]);
    // The ten digits alone come behind 245, where ten bytes more are taken off than stand before them.
    let others = (here - u8x16::splat(b'9' + 1)).simd_lt(u8x16::splat(246));
    first_set(others.to_bitmask(), LANES)
}

/// Where the run at a place ends, if it has 16 digits at most and nothing else; else that place.
#[inline(always)]
pub fn digits_until(input: &[u8], from: usize, end: usize) -> usize
    requires begun { from ≤ end }
    requires inside { end ≤ length input.now }
    ensures within { (from ≤ result) × (result ≤ end) }
    ensures run { from < result → (n : ℕ) →
        Element n from (drop from input.now) (run_value from (slice_range input.now from result)) result (drop result input.now) }
{
    if end - from <= LANES {
        return from;
    }
    let count = digits_in(input, from);
    if is_stop(input[from + count]) {
        from + count
    } else {
        from
    }
}
