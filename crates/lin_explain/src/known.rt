//! What is known of an object before a failure, by one run through its events.
ghost use Rattle.std.specs.Prelude.{◌≡◌, ◌≤◌, ◌+◌, ◌*◌, length, IfOk, IfSome};
ghost use Rattle.lin_events.specs.Meters.{ticked};
ghost use Rattle.lin_order.specs.Tables.{IsNextTable};
ghost use Rattle.lin_tables.specs.WindowOperations.{IsInvoked};
ghost use Rattle.lin_explain.specs.inner.Known.{ArePossible, IsQuietBefore};
ghost use Rattle.lin_explain.specs.inner.Laws.{IsLegalHistory};
ghost use Rattle.lin_explain.specs.Own.{without_last as all_but_last};

use crate::failures::{Failure, without_last};
use crate::laws::beginnings_are_legal;
use lin_events::{Meter, OutOfMemory};
use lin_possibilities::{Possible, put_was};
use lin_tables::quiet_before;
use std::alloc::Global;

/// Where an object was quiet before a failure, and what it was there.
#[derive(Drop)]
pub(crate) struct Quiet {
    /// The last quiet place that isn't after the failing operation, among the object's own events.
    pub(crate) from: usize,
    /// The words on what the object was before that place; none where the budget is passed.
    pub(crate) was: Vec<u8>,
}

/// Where the object was quiet, and what was possible right before the failure; `None` where the budget is passed. Each event that is taken in is
/// counted.
pub(crate) fn known_before(
    alloc: Global,
    failure: &Failure,
    meter: &mut Meter,
) -> Result<(Quiet, Option<Possible>), OutOfMemory>
    requires table { IsNextTable failure.now.stretch.events.now failure.now.stretch.ends.now }
    requires begins { IsInvoked failure.now.stretch.events.now failure.now.call }
    requires legal { IsLegalHistory failure.now.kind (all_but_last failure.now.stretch.events.now) }
    ensures quiet { IfOk result (λ known. IsQuietBefore failure.now.stretch.names.now failure.now.kind failure.now.budget failure.now.stretch.events.now failure.now.call known.0) }
    ensures possible { IfOk result (λ known. ArePossible failure.now.kind (all_but_last failure.now.stretch.events.now) failure.now.budget known.1) }
    ensures counted { IfOk result (λ known. IfSome known.1 (λ possible. ticked meter.old.steps (length (all_but_last failure.now.stretch.events.now)) ≤ meter.new.steps)) }
    ensures least { meter.old.steps ≤ meter.new.steps }
    ensures most { meter.new.steps ≤ meter.old.steps + 2 * length failure.now.stretch.events.now }
    ensures scans { meter.new.scans ≡ meter.old.scans }
{
    beginnings_are_legal(failure.kind);
    let stretch = &failure.stretch;
    let from = quiet_before(stretch.events, stretch.ends, failure.call);
    let events = without_last(stretch.events);
    let ahead = &events[..from];
    match Possible::after(alloc, failure.kind, ahead, failure.budget, meter)? {
        Some(first) => {
            let mut was = Vec::new(alloc);
            put_was(alloc, &mut was, stretch.names, failure.kind, Some(&first))?;
            let possible = first.go_on(alloc, from, events, failure.budget, meter)?;
            Ok((Quiet { from, was }, possible))
        }
        // There may be fewer configurations after more events.
        None => {
            let possible = Possible::after(alloc, failure.kind, events, failure.budget, meter)?;
            let was = Vec::new(alloc);
            Ok((Quiet { from, was }, possible))
        }
    }
}
