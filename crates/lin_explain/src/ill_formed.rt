//! What is told of a history that isn't well-formed.
ghost use Rattle.std.specs.Prelude.{◌≡◌, ◌<◌, ◌≤◌, ◌+◌, ◌++◌, ℕ, List, None, Some, Option, IfOk, OnOk, IfNone, IfSome, codes, length, option_map};
ghost use Rattle.lin_events.specs.declared.events.Event.{Event as EventOf};
ghost use Rattle.lin_events.specs.Meters.{ticked};
ghost use Rattle.lin_answers.specs.Answers.{kinds_in};
ghost use Rattle.lin_explain.specs.IllFormed.{IsIllFormedText, IsLastBefore, IsLastPlace, bad_text, before_line, before_text, function_text, keys_text, kinds_text, not_of_kind_text, sentence_text, stood_text};

use crate::heads::{kind_for, put_key};
use crate::parts::Parts;
use crate::passes::tick_steps;
use crate::spots::{Origin, spot_of};
use lin_answers::Present;
use lin_events::{Body, Cause, Event, Meter, Name, OutOfMemory};
use lin_names::Names;
use lin_objects::Kind;
use lin_tables::{name_word, put_event, put_event_spot};
use lin_texts::kind_word;
use std::alloc::{AllocError, Global};

/// Puts the words of an event last, and where it stands.
fn put_stood(
    text: &mut Vec<u8>,
    origin: &Origin,
    at: usize,
    event: &Event,
) -> Result<(), AllocError>
    ensures { OnOk result (text.new.items ≡ text.old.items ++ stood_text origin.now.names.now (option_map (λ p. p.now) origin.now.places) at event.now) }
{
    put_event(text, origin.names, event)?;
    text.extend_from_slice(b" at ")?;
    put_event_spot(text, origin.places, at)?;
    text.extend_from_slice(b"\n")
}

/// Where the last event of the process before a position stands.
fn last_before(present: &Present<'_>, process: u64, at: usize) -> Option<usize>
    requires { at < length present.now.history }
    ensures { IsLastPlace present.now.history process at result }
{
    let mut found = None;
    for earlier in 0..at {
        let Some(event) = present.event(earlier) else {
            unreachable!()
        };
        if event.process == process {
            found = Some(earlier);
        }
    }
    found
}

/// The last event of the process before a position, behind where it stands, if there is one.
fn event_before<'a>(present: &Present<'a>, process: u64, at: usize) -> (usize, Option<&'a Event>)
    requires { at < length present.now.history }
    ensures { IsLastBefore present.now.history process at result.0 (option_map (λ e. e.now) result.1) }
{
    match last_before(present, process, at) {
        Some(earlier) => (earlier, present.event(earlier)),
        None => (0, None),
    }
}

/// Puts the line that tells the last earlier event of the same process last.
fn put_before(
    text: &mut Vec<u8>,
    origin: &Origin,
    at: usize,
    before: Option<&Event>,
) -> Result<(), AllocError>
    ensures { OnOk result (text.new.items ≡ text.old.items ++ before_text origin.now.names.now (option_map (λ p. p.now) origin.now.places) at (option_map (λ e. e.now) before.entry)) }
{
    let Some(event) = before else {
        return text.extend_from_slice(b"before it nothing of this process\n");
    };
    text.extend_from_slice(b"before it ")?;
    put_stood(text, origin, at, event)
}

/// The words for the kinds that know calls of the function.
fn kinds_words(name: Name) -> &'static str
    ensures { result.now ≡ kinds_text name }
{
    match name {
        Name::Read => "register, cas-register, set",
        Name::Write => "register, cas-register",
        Name::Cas => "cas-register",
        Name::Enqueue => "fifo, unordered-queue",
        Name::Dequeue => "fifo, unordered-queue",
        Name::Add => "set",
        Name::Acquire => "mutex",
        Name::Release => "mutex",
    }
}

/// Puts the sentence on a function that objects of the kind don't know last.
fn put_function(text: &mut Vec<u8>, kind: Kind, name: Name) -> Result<(), AllocError>
    ensures { OnOk result (text.new.items ≡ text.old.items ++ function_text kind name) }
{
    text.extend_from_slice(name_word(name).as_bytes())?;
    text.extend_from_slice(b" is no call of kind ")?;
    text.extend_from_slice(kind_word(kind).as_bytes())?;
    text.extend_from_slice(b"; it is one of ")?;
    text.extend_from_slice(kinds_words(name).as_bytes())?;
    text.extend_from_slice(b"\n")
}

/// Puts the sentence on a call that objects of the kind don't know last.
fn put_not_of_kind(text: &mut Vec<u8>, kind: Kind, body: &Body) -> Result<(), AllocError>
    ensures { OnOk result (text.new.items ≡ text.old.items ++ not_of_kind_text kind body.now) }
{
    match body {
        Body::Invoke(call) => put_function(text, kind, call.name()),
        _ => Ok(()),
    }
}

/// Puts the sentence on a completion of another key last.
fn put_keys(
    text: &mut Vec<u8>,
    names: &Names,
    before: Option<&Event>,
    event: &Event,
) -> Result<(), AllocError>
    ensures { OnOk result (text.new.items ≡ text.old.items ++ keys_text names.now (option_map (λ e. e.now) before.entry) event.now.key) }
{
    let Some(invocation) = before else {
        return Ok(());
    };
    text.extend_from_slice(b"a completion has the key of its invocation: ")?;
    put_key(text, names, invocation)?;
    text.extend_from_slice(b" and ")?;
    put_key(text, names, event)?;
    text.extend_from_slice(b"\n")?;
    Ok(())
}

/// Puts what is asked of histories last.
fn put_sentence(
    text: &mut Vec<u8>,
    names: &Names,
    kind: Kind,
    event: &Event,
    before: Option<&Event>,
    cause: Cause,
) -> Result<(), AllocError>
    ensures { OnOk result (text.new.items ≡ text.old.items ++ sentence_text names.now kind event.now (option_map (λ e. e.now) before.entry) cause) }
{
    match cause {
        Cause::RetiredProcess => text.extend_from_slice(
            b"a process isn't used again after an :info: its client goes on under a new number\n",
        ),
        Cause::BusyProcess => text.extend_from_slice(
            b"a process calls again only when its call has ended with :ok, :fail or :info\n",
        ),
        Cause::NotOfKind => put_not_of_kind(text, kind, &event.body),
        Cause::NoInvocation => {
            text.extend_from_slice(b"a completion stands behind an invocation of its process\n")
        }
        Cause::OtherCall => {
            text.extend_from_slice(b"a completion has the :f of its invocation\n")
        }
        Cause::OtherKey => put_keys(text, names, before, event),
    }
}

/// Puts the line on the event before last, but where the cause has nothing to do with it.
fn put_before_line(
    text: &mut Vec<u8>,
    origin: &Origin,
    at: usize,
    before: Option<&Event>,
    cause: Cause,
) -> Result<(), AllocError>
    ensures { OnOk result (text.new.items ≡ text.old.items ++ before_line origin.now.names.now (option_map (λ p. p.now) origin.now.places) at (option_map (λ e. e.now) before.entry) cause) }
{
    match cause {
        Cause::NotOfKind => Ok(()),
        _ => put_before(text, origin, at, before),
    }
}

/// Puts the lines on a bad event last: the event, the one before it of the same process, and what is asked of histories.
fn put_bad(
    text: &mut Vec<u8>,
    present: &Present<'_>,
    at: usize,
    event: &Event,
    cause: Cause,
    origin: &Origin,
) -> Result<(), AllocError>
    requires { at < length present.now.history }
    ensures { OnOk result ((earlier : ℕ) × (before : Option EventOf) × IsLastBefore present.now.history event.now.process at earlier before
        × (text.new.items ≡ text.old.items ++ bad_text origin.now.names.now (kinds_in present.now event.now.key) (option_map (λ p. p.now) origin.now.places) at event.now earlier before cause)) }
{
    let (earlier, before) = event_before(present, event.process, at);
    put_stood(text, origin, at, event)?;
    put_before_line(text, origin, earlier, before, cause)?;
    let kind = kind_for(present, event);
    put_sentence(text, origin.names, kind, event, before, cause)
}

/// Puts what is told of a history last whose first bad position this is. The events before it are gone through once, for the last one of the same
/// process.
pub(crate) fn put_ill_formed(
    alloc: Global,
    text: &mut Vec<u8>,
    present: &Present<'_>,
    at: usize,
    cause: Cause,
    origin: &Origin,
    meter: &mut Meter,
) -> Result<Parts, OutOfMemory>
    requires { at < length present.now.history }
    ensures told { IfOk result (λ parts. (lines : List ℕ)
        × IsIllFormedText origin.now.names.now present.now.history (kinds_in present.now) (option_map (λ p. p.now) origin.now.places) at cause lines parts
        × (text.new.items ≡ text.old.items ++ lines)) }
    ensures counted { meter.new ≡ record meter.old { steps = ticked meter.old.steps at } }
    ensures most { meter.new.steps ≤ meter.old.steps + at }
{
    tick_steps(meter, at);
    let Some(event) = present.event(at) else {
        unreachable!()
    };
    put_bad(text, present, at, event, cause, origin)?;
    let event = spot_of(alloc, origin, at, event)?;
    Ok(Parts::IllFormed { event })
}
