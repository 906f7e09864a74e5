//! What is told of a no.
ghost use Rattle.std.specs.Prelude.{◌≡◌, ◌≤◌, ◌+◌, ◌-◌, ◌*◌, ◌++◌, ℕ, List, IfOk, OnOk, decimal, length, option_map};
ghost use Rattle.lin_events.specs.Meters.{ticked};
ghost use Rattle.lin_order.specs.Tables.{IsNextTable};
ghost use Rattle.lin_answers.specs.Edits.{Present};
ghost use Rattle.lin_tables.specs.WindowOperations.{IsFailing, IsInvoked};
ghost use Rattle.lin_tables.specs.WindowTables.{told_of};
ghost use Rattle.lin_explain.specs.Failures.{AreReasons, AreSpots, IsFailureText, IsNoText, ends_text, failing_in, failing_text, head_text, operation_line, prefix_line, reply_in};
ghost use Rattle.lin_explain.specs.inner.Known.{ArePossible, IsQuietBefore};
ghost use Rattle.lin_explain.specs.inner.Laws.{IsFailure};
ghost use Rattle.lin_explain.specs.Own.{without_last as all_but_last};
ghost use Rattle.lin_explain.specs.inner.Fallen.{IsFallen};
ghost use Rattle.lin_explain.specs.inner.Own.{stretch_of};
ghost use Rattle.lin_explain.specs.Possible.{IsPossibleText};

use crate::fallen::Fallen;
use crate::heads::put_object;
use crate::known::{Quiet, known_before};
use crate::parts::{Failed, Spot, Why};
use crate::passes::tick_passes;
use crate::possible::{Possibilities, put_possible};
use crate::since::put_since;
use crate::spots::{Origin, spot_of};
use crate::whys::put_why;
use lin_events::{Body, Event, Meter, OutOfMemory, Reply};
use lin_names::Names;
use lin_objects::Kind;
use lin_order::{ends_of, positions_spell_parts};
use lin_possibilities::{Before, Possible};
use lin_tables::{Stretch, failing_operation, put_event_spot, put_operation};
use lin_texts::put_number;
use std::alloc::{AllocError, Global};

/// So many passes are made through the events of a failing object, beside the run that tells what was possible: for the ends of its
/// operations, for the failing one, for the last quiet place, and for the table. What a search for a certificate looks at isn't counted.
const OWN_PASSES: usize = 4;

/// A failure: the object's events up to the one at which its legal orders end, and the operation that fails.
#[derive(Clone, Copy)]
pub(crate) struct Failure<'a, 'p> {
    pub(crate) kind: Kind,
    /// How many configurations may be kept.
    pub(crate) budget: u32,
    /// The object's own events.
    pub(crate) stretch: Stretch<'a, 'p>,
    /// How many events the shortest failing prefix has.
    pub(crate) prefix: usize,
    /// Where the failing operation was invoked, among the object's own events.
    pub(crate) call: usize,
}

/// The reply that an event records, if it does.
fn reply_of(body: &Body) -> Option<&Reply>
    ensures { option_map (λ r. r.now) result ≡ reply_in body.now }
{
    match body {
        Body::Ok(_, reply) => Some(reply),
        _ => None,
    }
}

/// Puts the words of the failing operation last, with the reply that it returned.
fn put_failing(
    text: &mut Vec<u8>,
    names: &Names,
    invocation: &Event,
    ending: &Event,
) -> Result<(), AllocError>
    ensures { OnOk result (text.new.items ≡ text.old.items ++ failing_text names.now invocation.now ending.now) }
{
    match &invocation.body {
        Body::Invoke(call) => {
            let reply = reply_of(&ending.body);
            put_operation(text, names, invocation.process, *call, reply)
        }
        _ => Ok(()),
    }
}

/// Puts how the failing operation ended last.
fn put_ends(text: &mut Vec<u8>, body: &Body) -> Result<(), AllocError>
    ensures { OnOk result (text.new.items ≡ text.old.items ++ ends_text body.now) }
{
    match body {
        Body::Fail(_) => text.extend_from_slice(b", fail at "),
        _ => text.extend_from_slice(b", ok at "),
    }
}

/// Puts the line that names the failing operation last.
fn put_operation_line(
    text: &mut Vec<u8>,
    failure: &Failure,
    at: usize,
    invocation: &Event,
    ending: &Event,
) -> Result<(), AllocError>
    ensures { OnOk result (text.new.items ≡ text.old.items
        ++ operation_line failure.now.stretch.names.now failure.now.kind (option_map (λ p. p.now) failure.now.stretch.places) at failure.now.prefix invocation.now ending.now) }
{
    put_object(text, failure.stretch.names, ending, failure.kind)?;
    put_failing(text, failure.stretch.names, invocation, ending)?;
    text.extend_from_slice(b", called at ")?;
    put_event_spot(text, failure.stretch.places, at)?;
    put_ends(text, &ending.body)?;
    put_event_spot(
        text,
        failure.stretch.places,
        failure.prefix.saturating_sub(1),
    )?;
    text.extend_from_slice(b"\n")
}

/// Puts the number of events before the last one of the failing prefix last.
fn put_before(text: &mut Vec<u8>, prefix: usize) -> Result<(), AllocError>
    ensures { OnOk result (text.new.items ≡ text.old.items ++ decimal (prefix - 1)) }
{
    put_number(text, prefix.saturating_sub(1) as u64)
}

/// Puts the line that tells the failing prefix last.
fn put_prefix_line(text: &mut Vec<u8>, prefix: usize) -> Result<(), AllocError>
    ensures { OnOk result (text.new.items ≡ text.old.items ++ prefix_line prefix) }
{
    text.extend_from_slice(b"its events among the first ")?;
    put_before(text, prefix)?;
    text.extend_from_slice(b" have a legal order, among the first ")?;
    put_number(text, prefix as u64)?;
    text.extend_from_slice(b" they have none\n")
}

/// The end and the invocation of the failing operation, which stands at the position.
fn spots_of(
    alloc: Global,
    failure: &Failure,
    at: usize,
    invocation: &Event,
    ending: &Event,
) -> Result<(Spot, Spot), OutOfMemory>
    ensures { IfOk result (AreSpots failure.now.stretch.names.now (option_map (λ p. p.now) failure.now.stretch.places) at failure.now.prefix invocation.now ending.now) }
{
    let origin = Origin {
        names: failure.stretch.names,
        places: failure.stretch.places,
    };
    let end = failure.prefix.saturating_sub(1);
    let event = spot_of(alloc, &origin, end, ending)?;
    let call = spot_of(alloc, &origin, at, invocation)?;
    Ok((event, call))
}

/// Puts the lines last that name the failing operation and the failing prefix.
fn put_head(
    text: &mut Vec<u8>,
    failure: &Failure,
    at: usize,
    invocation: &Event,
    ending: &Event,
) -> Result<(), AllocError>
    ensures { OnOk result (text.new.items ≡ text.old.items
        ++ head_text failure.now.stretch.names.now failure.now.kind (option_map (λ p. p.now) failure.now.stretch.places) at failure.now.prefix invocation.now ending.now) }
{
    put_operation_line(text, failure, at, invocation, ending)?;
    put_prefix_line(text, failure.prefix)
}

/// All events but the last one.
pub(crate) fn without_last(events: &[Event]) -> &[Event]
    ensures { result.now ≡ all_but_last events.now }
{
    &events[..events.len().saturating_sub(1)]
}

/// Puts the lines on what was possible before the failure last.
fn put_before_failure(
    alloc: Global,
    text: &mut Vec<u8>,
    failure: &Failure,
    possible: Option<Possible>,
    ending: &Event,
) -> Result<Possibilities, OutOfMemory>
    requires failure { IsFailure failure.now.kind failure.now.stretch.events.now ending.now }
    requires known { ArePossible failure.now.kind (all_but_last failure.now.stretch.events.now) failure.now.budget possible }
    ensures { IfOk result (λ told. (lines : List ℕ)
        × IsPossibleText failure.now.stretch.names.now (failing_in failure.now.kind failure.now.stretch.events.now failure.now.call ending.now) failure.now.prefix failure.now.budget lines told.replies told.states
        × (text.new.items ≡ text.old.items ++ lines)) }
{
    let before = Before {
        names: failure.stretch.names,
        kind: failure.kind,
        events: without_last(failure.stretch.events),
        call: failure.call,
        process: ending.process,
        recorded: reply_of(&ending.body),
    };
    put_possible(
        alloc,
        text,
        &before,
        possible,
        failure.prefix,
        failure.budget,
    )
}

/// Puts the lines last on why there is no legal order, and since when nothing else ran. Gives that position in the whole history.
fn put_reasons(
    alloc: Global,
    text: &mut Vec<u8>,
    failure: &Failure,
    quiet: &Quiet,
) -> Result<(Option<Why>, usize), OutOfMemory>
    requires table { IsNextTable failure.now.stretch.events.now failure.now.stretch.ends.now }
    requires begins { IsInvoked failure.now.stretch.events.now failure.now.call }
    requires picks { length failure.now.stretch.picks.now ≡ length failure.now.stretch.events.now }
    requires quiet { IsQuietBefore failure.now.stretch.names.now failure.now.kind failure.now.budget failure.now.stretch.events.now failure.now.call quiet.now }
    ensures { IfOk result (λ told. (lines : List ℕ)
        × AreReasons failure.now.kind failure.now.budget (told_of failure.now.stretch) failure.now.call lines told.0 told.1 × (text.new.items ≡ text.old.items ++ lines)) }
{
    let reason = put_why(alloc, text, failure.kind, &failure.stretch, failure.call)?;
    let from = put_since(alloc, text, failure, quiet, reason.named.as_slice())?;
    Ok((reason.why, from))
}

/// Puts all lines on a failure last.
fn put_failure(
    alloc: Global,
    text: &mut Vec<u8>,
    failure: &Failure,
    ending: &Event,
    meter: &mut Meter,
) -> Result<Failed, OutOfMemory>
    requires table { IsNextTable failure.now.stretch.events.now failure.now.stretch.ends.now }
    requires begins { IsInvoked failure.now.stretch.events.now failure.now.call }
    requires picks { length failure.now.stretch.picks.now ≡ length failure.now.stretch.events.now }
    requires fails { IsFailing failure.now.stretch.events.now failure.now.call }
    requires failure { IsFailure failure.now.kind failure.now.stretch.events.now ending.now }
    ensures told { IfOk result (λ failed. (lines : List ℕ)
        × IsFailureText failure.now.kind failure.now.budget (told_of failure.now.stretch) failure.now.prefix failure.now.call ending.now lines failed
        × (text.new.items ≡ text.old.items ++ lines)) }
    ensures least { meter.old.steps ≤ meter.new.steps }
    ensures most { meter.new.steps ≤ meter.old.steps + 2 * length failure.now.stretch.events.now }
    ensures scans { meter.new.scans ≡ meter.old.scans }
{
    let (Some(invocation), Some(at)) = (
        failure.stretch.events.get(failure.call),
        failure.stretch.picks.get(failure.call),
    ) else {
        unreachable!()
    };
    put_head(text, failure, *at, invocation, ending)?;
    let (quiet, possible) = known_before(alloc, failure, meter)?;
    let told = put_before_failure(alloc, text, failure, possible, ending)?;
    let (why, from) = put_reasons(alloc, text, failure, &quiet)?;
    let (event, call) = spots_of(alloc, failure, *at, invocation, ending)?;
    Ok(Failed {
        key: ending.key,
        kind: failure.kind,
        event,
        call,
        replies: told.replies,
        states: told.states,
        why,
        from,
    })
}

/// Puts all lines last on the failure of the object's events with the last one. The passes through these events are counted.
fn put_own(
    alloc: Global,
    text: &mut Vec<u8>,
    fallen: &Fallen,
    prefix: usize,
    origin: &Origin,
    meter: &mut Meter,
) -> Result<Failed, OutOfMemory>
    requires failure { IsFailure fallen.now.kind fallen.now.own.events.items fallen.now.ending }
    requires picks { length fallen.now.own.picks.items ≡ length fallen.now.own.events.items }
    ensures told { IfOk result (λ failed. (lines : List ℕ) × (call : ℕ)
        × IsFailureText fallen.now.kind fallen.now.budget (stretch_of origin.now.names.now fallen.now.own (option_map (λ p. p.now) origin.now.places)) prefix call fallen.now.ending lines failed
        × (text.new.items ≡ text.old.items ++ lines)) }
    ensures counted { OnOk result (ticked meter.old.steps (4 * length fallen.now.own.events.items) ≤ meter.new.steps) }
    ensures most { meter.new.steps ≤ meter.old.steps + 6 * length fallen.now.own.events.items }
    ensures scans { meter.new.scans ≡ meter.old.scans }
{
    let own = &fallen.own;
    tick_passes(meter, OWN_PASSES, own.events.len());
    let ends = ends_of(alloc, own.events.as_slice())?;
    let Some(call) = failing_operation(own.events.as_slice(), ends.as_slice()) else {
        unreachable!()
    };
    let failure = Failure {
        kind: fallen.kind,
        budget: fallen.budget,
        stretch: Stretch {
            events: own.events.as_slice(),
            ends: ends.as_slice(),
            picks: own.picks.as_slice(),
            names: origin.names,
            places: origin.places,
        },
        prefix,
        call,
    };
    put_failure(alloc, text, &failure, &fallen.ending, meter)
}

/// Puts what is told of a no last: the failing operation, what was possible before its end, why there is no legal order, and what ran
/// since the object was quiet last.
pub(crate) fn put_no(
    alloc: Global,
    text: &mut Vec<u8>,
    fallen: &Fallen,
    prefix: usize,
    origin: &Origin,
    meter: &mut Meter,
) -> Result<Failed, OutOfMemory>
    requires { (now : Present) × IsFallen now prefix fallen.now }
    ensures told { IfOk result (λ failed. (lines : List ℕ)
        × ((now : Present) → IsFallen now prefix fallen.now → IsNoText origin.now.names.now now (option_map (λ p. p.now) origin.now.places) prefix lines failed)
        × (text.new.items ≡ text.old.items ++ lines)) }
    ensures counted { OnOk result (ticked meter.old.steps (4 * length fallen.now.own.events.items) ≤ meter.new.steps) }
    ensures most { meter.new.steps ≤ meter.old.steps + 6 * length fallen.now.own.events.items }
    ensures scans { meter.new.scans ≡ meter.old.scans }
{
    positions_spell_parts();
    put_own(alloc, text, fallen, prefix, origin, meter)
}
