//! Where events stand: on a line of the recording, at a byte of it, or by their position alone.
ghost use Rattle.std.specs.Prelude.{◌≡◌, ◌++◌, OnOk, option_map};
ghost use Rattle.lin_tables.specs.Spots.{event_spot_text, is_by_bytes as by_bytes, is_shared as shared, line_at as line_of, offset_at as offset_of, place_text, span_at, spot_text};

use crate::tables::LineSpan;
use lin_texts::{Place, put_number};
use std::alloc::AllocError;

/// The line of an event, or 0 where there is none.
fn line_at(places: &[Place], at: usize) -> u64
    ensures { result ≡ line_of places.now at }
{
    match places.get(at) {
        Some(place) => place.line,
        None => 0,
    }
}

/// The offset of an event's first byte, or 0 where there is none.
fn offset_at(places: &[Place], at: usize) -> u64
    ensures { result ≡ offset_of places.now at }
{
    match places.get(at) {
        Some(place) => place.offset,
        None => 0,
    }
}

/// Whether the event before it or behind it has the same line.
fn is_shared(places: &[Place], at: usize) -> bool
    ensures { result ≡ shared places.now at }
{
    let line = line_at(places, at);
    if at >= places.len() {
        return true;
    }
    if at > 0 && line_at(places, at - 1) == line {
        return true;
    }
    line_at(places, at + 1) == line
}

/// Puts an event's line last, or its offset where the line has another event beside it.
fn put_place(line: &mut Vec<u8>, places: &[Place], at: usize) -> Result<(), AllocError>
    ensures { OnOk result (line.new.items ≡ line.old.items ++ place_text places.now at) }
{
    if is_shared(places, at) {
        line.extend_from_slice(b"byte ")?;
        put_number(line, offset_at(places, at))
    } else {
        line.extend_from_slice(b"line ")?;
        put_number(line, line_at(places, at))
    }
}

/// Puts last where an event stands: its line or byte, or without a recording its position.
pub fn put_spot(line: &mut Vec<u8>, places: Option<&[Place]>, at: usize) -> Result<(), AllocError>
    ensures { OnOk result (line.new.items ≡ line.old.items ++ spot_text (option_map (λ p. p.now) places.entry) at) }
{
    match places {
        Some(places) => put_place(line, places, at),
        None => {
            line.extend_from_slice(b"event ")?;
            put_number(line, at as u64)
        }
    }
}

/// Puts an event's position last, and where it stands in the recording, if there is one.
pub fn put_event_spot(
    line: &mut Vec<u8>,
    places: Option<&[Place]>,
    at: usize,
) -> Result<(), AllocError>
    ensures { OnOk result (line.new.items ≡ line.old.items ++ event_spot_text (option_map (λ p. p.now) places.entry) at) }
{
    line.extend_from_slice(b"event ")?;
    put_number(line, at as u64)?;
    match places {
        Some(places) => {
            line.extend_from_slice(b", ")?;
            put_place(line, places, at)
        }
        None => Ok(()),
    }
}

/// Whether one of the two places is told by its byte.
fn is_by_bytes(places: &[Place], from: usize, to: Option<usize>) -> bool
    ensures { result ≡ by_bytes places.now from to }
{
    match to {
        Some(to) => is_shared(places, from) || is_shared(places, to),
        None => is_shared(places, from),
    }
}

/// Where the two ends of an operation stand.
pub fn span_of(places: Option<&[Place]>, from: usize, to: Option<usize>) -> LineSpan
    ensures { result ≡ span_at (option_map (λ p. p.now) places.entry) from to }
{
    match places {
        None => LineSpan::Nowhere,
        Some(places) => {
            let is_by_bytes = is_by_bytes(places, from, to);
            match (is_by_bytes, to) {
                (true, Some(to)) => LineSpan::Bytes(
                    offset_at(places, from),
                    Some(offset_at(places, to)),
                ),
                (true, None) => LineSpan::Bytes(offset_at(places, from), None),
                (false, Some(to)) => LineSpan::Lines(
                    line_at(places, from),
                    Some(line_at(places, to)),
                ),
                (false, None) => LineSpan::Lines(line_at(places, from), None),
            }
        }
    }
}
