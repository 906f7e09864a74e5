//! The lines of a table.
ghost use Rattle.std.specs.Prelude.{◌≡◌, ◌++◌, All, IfOk, option_map};
ghost use Rattle.std.specs.List.{AllZip};
ghost use Rattle.lin_order.specs.Tables.{IsNextTable};
ghost use Rattle.lin_tables.specs.Operations.{operation_text};
ghost use Rattle.lin_tables.specs.Spots.{span_at};
ghost use Rattle.lin_tables.specs.Tables.{range_text, span_text};
ghost use Rattle.lin_tables.specs.WindowOperations.{IsInvoked};
ghost use Rattle.lin_tables.specs.WindowTables.{IsRow, outcome_text, position_in, reply_in, told_of};

use crate::failing_operations::{Outcome, outcome_of};
use crate::marks::Chosen;
use crate::operations::put_operation;
use crate::spots::span_of;
use crate::tables::{TableRow, put_range, put_span};
use lin_events::{Body, Call, Event};
use lin_names::Names;
use lin_texts::Place;
use std::alloc::{AllocError, Global};

/// The events of one object, up to the one at which its legal orders end, and where they stand.
#[derive(Clone, Copy)]
pub struct Stretch<'a, 'p> {
    /// The spellings of words.
    pub names: &'a Names,
    pub events: &'a [Event],
    /// For each event the next one of its process.
    pub ends: &'a [Option<usize>],
    /// For each event its position in the whole history.
    pub picks: &'a [usize],
    /// For each position of the whole history where its event stands in the file; events that came by commands have no place.
    pub places: Option<&'p [Place]>,
}

/// The position in the whole history of the event at the place.
fn position(picks: &[usize], at: usize) -> usize
    ensures { result ≡ position_in picks.now at }
{
    match picks.get(at) {
        Some(position) => *position,
        None => 0,
    }
}

/// The position of the end, if there is one.
fn end_position(picks: &[usize], end: Option<usize>) -> Option<usize>
    ensures { result ≡ option_map (position_in picks.now) end }
{
    match end {
        Some(end) => Some(position(picks, end)),
        None => None,
    }
}

/// The words for two positions.
fn range_words(alloc: Global, from: usize, to: Option<usize>) -> Result<Vec<u8>, AllocError>
    ensures { IfOk result (λ words. words.items ≡ range_text from to) }
{
    let mut words = Vec::new(alloc);
    match to {
        Some(to) => put_range(&mut words, from as u64, Some(to as u64))?,
        None => put_range(&mut words, from as u64, None)?,
    }
    Ok(words)
}

/// The words for where the events at two positions stand in the file.
fn span_words(
    alloc: Global,
    places: Option<&[Place]>,
    from: usize,
    to: Option<usize>,
) -> Result<Vec<u8>, AllocError>
    ensures { IfOk result (λ words. words.items ≡ span_text (span_at (option_map (λ p. p.now) places.entry) from to)) }
{
    let mut words = Vec::new(alloc);
    put_span(&mut words, span_of(places, from, to))?;
    Ok(words)
}

/// The words for an operation, with its reply if it is ok, and with what became of it if it isn't.
fn operation_words(
    alloc: Global,
    names: &Names,
    process: u64,
    call: Call,
    outcome: &Outcome,
) -> Result<Vec<u8>, AllocError>
    ensures { IfOk result (λ words. words.items ≡ operation_text names.now process call (reply_in outcome.now) ++ outcome_text outcome.now) }
{
    let mut words = Vec::new(alloc);
    put_operation(&mut words, names, process, call, outcome.reply())?;
    outcome.put(&mut words)?;
    Ok(words)
}

/// The line of an operation.
fn row_of(alloc: Global, stretch: &Stretch, chosen: Chosen) -> Result<TableRow, AllocError>
    requires table { IsNextTable stretch.now.events.now stretch.now.ends.now }
    requires begins { IsInvoked stretch.now.events.now chosen.at }
    ensures { IfOk result (λ row. IsRow (told_of stretch.now) chosen row) }
{
    let Some(event) = stretch.events.get(chosen.at) else {
        unreachable!();
    };
    let Body::Invoke(call) = &event.body else {
        unreachable!();
    };
    let outcome = outcome_of(stretch.events, stretch.ends, chosen.at);
    let from = position(stretch.picks, chosen.at);
    let to = end_position(stretch.picks, outcome.end());
    let range = range_words(alloc, from, to)?;
    let span = span_words(alloc, stretch.places, from, to)?;
    let words = operation_words(alloc, stretch.names, event.process, *call, &outcome)?;
    Ok(TableRow {
        mark: chosen.mark.code(),
        range,
        span,
        words,
    })
}

/// The lines of the operations.
pub(crate) fn rows_of(
    alloc: Global,
    stretch: &Stretch,
    shown: &[Chosen],
) -> Result<Vec<TableRow>, AllocError>
    requires table { IsNextTable stretch.now.events.now stretch.now.ends.now }
    requires begin { All (λ x. IsInvoked stretch.now.events.now x.at) shown.now }
    ensures { IfOk result (λ rows. AllZip (IsRow (told_of stretch.now)) shown.now rows.items) }
{
    let mut rows = Vec::new(alloc);
    for chosen in shown {
        rows.push(row_of(alloc, stretch, *chosen)?)?;
    }
    Ok(rows)
}
