//! What is told where more configurations would have to be kept than the budget allows.
ghost use Rattle.std.specs.Prelude.{◌≡◌, ◌<◌, ◌≤◌, ◌+◌, ◌*◌, ◌++◌, ℕ, List, IfOk, OnOk, length, option_map, take};
ghost use Rattle.lin_events.specs.declared.events.Event.{Event as EventOf};
ghost use Rattle.lin_events.specs.Meters.{ticked};
ghost use Rattle.lin_events.specs.Operations.{IsEvent};
ghost use Rattle.lin_order.specs.Parts.{part};
ghost use Rattle.lin_order.specs.Tables.{IsNextTable};
ghost use Rattle.lin_tables.specs.WindowTables.{told_of};
ghost use Rattle.lin_explain.specs.Undecided.{IsOpenText, IsUndecidedText, end_text, event_line, front_text, help_text, helps, helps_text, open_line};
ghost use Rattle.lin_explain.specs.inner.Own.{stretch_of};

use crate::certain::put_certain_reason;
use crate::heads::{kind_for, put_object};
use crate::own::{Own, own_of};
use crate::parts::Parts;
use crate::passes::tick_passes;
use crate::spots::{Origin, spot_of};
use lin_answers::Present;
use lin_events::{Event, Meter, OutOfMemory};
use lin_objects::Kind;
use lin_order::ends_of;
use lin_tables::{
    ListedOperations, Stretch, open_counts, put_event, put_event_spot, put_operations,
};
use lin_texts::put_number;
use std::alloc::{AllocError, Global};

/// The greatest budget.
const MOST: u32 = 1_000_000;

/// So many passes are made through the object's events: for the ends of its operations, for those that are open, for those that crashed, and for
/// the table.
const OWN_PASSES: usize = 4;

/// Puts the line last that names the event with which there are too many.
fn put_event_line(
    text: &mut Vec<u8>,
    kind: Kind,
    budget: u32,
    origin: &Origin,
    at: usize,
    event: &Event,
) -> Result<(), AllocError>
    ensures { OnOk result (text.new.items ≡ text.old.items ++ event_line origin.now.names.now kind budget (option_map (λ p. p.now) origin.now.places) at event.now) }
{
    put_object(text, origin.names, event, kind)?;
    text.extend_from_slice(b"more than ")?;
    put_number(text, u64::from(budget))?;
    text.extend_from_slice(b" configurations after ")?;
    put_event_spot(text, origin.places, at)?;
    text.extend_from_slice(b": ")?;
    put_event(text, origin.names, event)?;
    text.extend_from_slice(b"\n")?;
    Ok(())
}

/// Puts the line that counts open operations last.
fn put_open_line(text: &mut Vec<u8>, running: usize, crashed: usize) -> Result<(), AllocError>
    ensures { OnOk result (text.new.items ≡ text.old.items ++ open_line running crashed) }
{
    text.extend_from_slice(b"operations open then: ")?;
    put_number(text, running as u64)?;
    text.extend_from_slice(b", crashed of them: ")?;
    put_number(text, crashed as u64)?;
    text.extend_from_slice(b"\n")?;
    Ok(())
}

/// Puts the words in front of one more thing that may help last.
fn put_front(text: &mut Vec<u8>, has_others: bool) -> Result<(), AllocError>
    ensures { OnOk result (text.new.items ≡ text.old.items ++ front_text has_others) }
{
    if has_others {
        text.extend_from_slice(b"; ")?;
    } else {
        text.extend_from_slice(b"what may help: ")?;
    }
    Ok(())
}

/// Puts one more thing that may help last, if it may, behind others or none.
fn put_help(
    text: &mut Vec<u8>,
    is_wanted: bool,
    has_others: bool,
    words: &str,
) -> Result<(), AllocError>
    ensures { OnOk result (text.new.items ≡ text.old.items ++ help_text is_wanted has_others words.now) }
{
    if !is_wanted {
        return Ok(());
    }
    put_front(text, has_others)?;
    text.extend_from_slice(words.as_bytes())?;
    Ok(())
}

/// Ends the line on what may help, if there is one.
fn put_end(text: &mut Vec<u8>, has_some: bool) -> Result<(), AllocError>
    ensures { OnOk result (text.new.items ≡ text.old.items ++ end_text has_some) }
{
    if has_some {
        text.extend_from_slice(b"\n")?;
    }
    Ok(())
}

/// Puts the line on what may help last, if something may.
fn put_helps(
    text: &mut Vec<u8>,
    larger: bool,
    keys: bool,
    crashes: bool,
    clients: bool,
) -> Result<(), AllocError>
    ensures { OnOk result (text.new.items ≡ text.old.items ++ helps_text larger keys crashes clients) }
{
    put_help(text, larger, false, "a larger --budget (up to 1000000)")?;
    put_help(
        text,
        keys,
        larger,
        "--keyed, if values are pairs of a key and a value",
    )?;
    put_help(text, crashes, larger | keys, "fewer operations that crash")?;
    put_help(
        text,
        clients,
        larger | keys | crashes,
        "fewer clients at once",
    )?;
    put_end(text, larger | keys | crashes | clients)?;
    Ok(())
}

/// Puts the line on what may help last, for so many open operations under a budget.
fn put_help_line(
    text: &mut Vec<u8>,
    budget: u32,
    keyed: bool,
    running: usize,
    crashed: usize,
) -> Result<(), AllocError>
    ensures { OnOk result (text.new.items ≡ text.old.items ++ helps budget keyed running crashed) }
{
    put_helps(
        text,
        budget < MOST,
        !keyed,
        0 < crashed,
        1 < running.saturating_sub(crashed),
    )
}

/// Puts the operations that are open last, how many they are, and what may help.
fn put_open(
    alloc: Global,
    text: &mut Vec<u8>,
    stretch: &Stretch,
    budget: u32,
    keyed: bool,
) -> Result<(), OutOfMemory>
    requires { IsNextTable stretch.now.events.now stretch.now.ends.now }
    ensures { OnOk result ((lines : List ℕ) × IsOpenText (told_of stretch.now) budget keyed lines × (text.new.items ≡ text.old.items ++ lines)) }
{
    let (running, crashed) = open_counts(stretch.events, stretch.ends);
    put_open_line(text, running, crashed)?;
    put_operations(alloc, text, stretch, &ListedOperations::Open)?;
    put_help_line(text, budget, keyed, running, crashed)?;
    Ok(())
}

/// Puts what is told of the object's operations last, which are open behind these events of it.
fn put_object_open(
    alloc: Global,
    text: &mut Vec<u8>,
    own: &Own,
    budget: u32,
    origin: &Origin,
    keyed: bool,
) -> Result<(), OutOfMemory>
    ensures { OnOk result ((lines : List ℕ) × IsOpenText (stretch_of origin.now.names.now own.now (option_map (λ p. p.now) origin.now.places)) budget keyed lines
        × (text.new.items ≡ text.old.items ++ lines)) }
{
    let ends = ends_of(alloc, own.events.as_slice())?;
    let stretch = Stretch {
        events: own.events.as_slice(),
        ends: ends.as_slice(),
        picks: own.picks.as_slice(),
        names: origin.names,
        places: origin.places,
    };
    put_open(alloc, text, &stretch, budget, keyed)
}

/// Puts what is told last where the events up to and with a position are too many for the budget. The pass through these is counted, those
/// through the events of the object, and the one through all events for what is certain all the same.
pub(crate) fn put_undecided(
    alloc: Global,
    text: &mut Vec<u8>,
    present: &Present<'_>,
    at: usize,
    origin: &Origin,
    keyed: bool,
    meter: &mut Meter,
) -> Result<Parts, OutOfMemory>
    requires { at < length present.now.history }
    ensures told { IfOk result (λ parts. (lines : List ℕ) × IsUndecidedText origin.now.names.now present.now keyed (option_map (λ p. p.now) origin.now.places) at lines parts
        × (text.new.items ≡ text.old.items ++ lines)) }
    ensures counted { OnOk result ((event : EventOf) → IsEvent present.now.history at event
        → ticked meter.old.steps ((at + 1) + 4 * length (part event.key (take (at + 1) present.now.history))) ≤ meter.new.steps) }
    ensures most { meter.new.steps ≤ meter.old.steps + 6 * length present.now.history }
    ensures scans { meter.new.scans ≡ meter.old.scans }
{
    let Some(event) = present.event(at) else {
        unreachable!()
    };
    let _count = present.len();
    let kind = kind_for(present, event);
    let budget = present.budget();
    put_event_line(text, kind, budget, origin, at, event)?;
    let own = own_of(alloc, present, event, at + 1, meter)?;
    tick_passes(meter, OWN_PASSES, own.events.len());
    put_object_open(alloc, text, &own, budget, origin, keyed)?;
    let why = put_certain_reason(alloc, text, present, event, kind, origin, meter)?;
    Ok(Parts::Undecided {
        key: event.key,
        kind,
        event: spot_of(alloc, origin, at, event)?,
        why,
    })
}
