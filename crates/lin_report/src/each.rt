//! Explanations of each object that isn't a yes.
ghost use Rattle.std.specs.Prelude.{◌≡◌, ◌≤◌, ◌++◌, ◌∷◌, [], List, None, Some, length, option_map, true, IfOk, OnOk};
ghost use Rattle.lin_formats.specs.Inputs.{limit};
ghost use Rattle.lin_report.specs.Explanations.{AreExplained, IsAllExplained, IsToldFor, between as between_for, is_for_all as is_for_all_in, is_yes as is_yes_in};
ghost use Rattle.lin_report.specs.declared.findings.Finding.{Finding as FindingOf};
ghost use Rattle.lin_report.specs.Reports.{opened};

use crate::answers::status_of;
use crate::checks::Answered;
use crate::explaining::{Question, explained, explanation};
use crate::findings::{Finding, find};
use crate::formats::ReportFormat;
use crate::sessions::session_of;
use lin_answers::{Scope, Verdict};
use lin_events::{Event, Item, OutOfMemory};
use lin_explain::Asked;
use lin_formats::{Places, Settings};
use lin_names::Names;
use lin_session::Session;
use lin_texts::Place;
use std::alloc::{AllocError, Global};

/// Whether an answer is a yes.
fn is_yes(verdict: Verdict) -> bool
    ensures { result ≡ is_yes_in verdict }
{
    matches!(verdict, Verdict::Yes)
}

/// Puts last what stands between two explanations, where one stands there already.
fn put_between(text: &mut Vec<u8>, format: ReportFormat) -> Result<(), AllocError>
    ensures { OnOk result (text.new.items ≡ text.old.items ++ between_for format text.old.items) }
{
    match format {
        ReportFormat::Text if !text.is_empty() => {
            text.push(b'\n')?;
            Ok(())
        }
        _ => Ok(()),
    }
}

/// Puts the explanation of an object last, unless it is a yes, behind those of others or none.
fn put_one(
    alloc: Global,
    text: &mut Vec<u8>,
    session: &mut Session,
    names: &Names,
    question: (ReportFormat, Asked),
    places: Option<&[Place]>,
    found: Finding,
) -> Result<(), OutOfMemory>
    ensures put { OnOk result ((before : List FindingOf) → AreExplained names.now question.0 session.old.present question.1 (option_map (λ p. p.now) places.entry) before text.old.items
        → AreExplained names.now question.0 session.old.present question.1 (option_map (λ p. p.now) places.entry) (before ++ found ∷ []) text.new.items) }
    ensures present { session.new.present ≡ session.old.present }
{
    if is_yes(found.verdict) {
        return Ok(());
    }
    let (format, asked) = question;
    let asked = Asked {
        key: Some(found.key),
        ..asked
    };
    let scope = Scope::Object(found.key);
    let answered = explanation(alloc, session, names, format, scope, asked, places)?;
    put_between(text, format)?;
    text.extend_from_slice(answered.text.as_slice())?;
    Ok(())
}

/// What explains each of these objects that isn't a yes.
fn explained_each(
    alloc: Global,
    session: &mut Session,
    names: &Names,
    question: (ReportFormat, Asked),
    places: Option<&[Place]>,
    found: &[Finding],
) -> Result<Vec<u8>, OutOfMemory>
    ensures each { IfOk result (λ text. AreExplained names.now question.0 session.old.present question.1 (option_map (λ p. p.now) places.entry) found.now text.items) }
    ensures present { session.new.present ≡ session.old.present }
{
    let mut text = Vec::new(alloc);
    for one in found {
        put_one(alloc, &mut text, session, names, question, places, *one)?;
    }
    Ok(text)
}

/// What explains each object of these events that isn't a yes; or the whole, where all are, or the events aren't well-formed.
fn explained_all(
    alloc: Global,
    settings: Settings,
    format: ReportFormat,
    asked: Asked,
    names: &Names,
    events: Vec<Event>,
    places: &Places,
) -> Result<Answered, OutOfMemory>
    requires budget { (1 ≤ settings.budget) × (settings.budget ≤ 1000000) }
    requires few { length events.items ≤ limit }
    requires whole { asked.key ≡ None }
    ensures { IfOk result (λ answered. IsAllExplained names.now format (opened settings events.items) asked (Some places.now.places) answered.text.items answered.status) }
{
    let mut session = session_of(alloc, settings, events)?;
    let found = find(alloc, &mut session, names)?;
    let spots = Some(places.as_slice());
    let text = explained_each(
        alloc,
        &mut session,
        names,
        (format, asked),
        spots,
        &found.objects,
    )?;
    if text.is_empty() {
        return explanation(
            alloc,
            &mut session,
            names,
            format,
            Scope::Whole,
            asked,
            spots,
        );
    }
    Ok(Answered {
        text,
        status: status_of(found.whole),
    })
}

/// Whether each object is asked about.
fn is_for_all(all_keys: bool, key: Option<Item>) -> bool
    ensures { result ≡ is_for_all_in all_keys key }
{
    all_keys && key.is_none()
}

/// What explains these events as it is asked.
pub(crate) fn told_for(
    alloc: Global,
    settings: Settings,
    question: Question,
    asked: Asked,
    names: &Names,
    events: Vec<Event>,
    places: &Places,
) -> Result<Answered, OutOfMemory>
    requires budget { (1 ≤ settings.budget) × (settings.budget ≤ 1000000) }
    requires few { length events.items ≤ limit }
    ensures { IfOk result (λ answered. IsToldFor names.now question.entry.all_keys question.entry.format (opened settings events.items) asked (Some places.now.places) answered.text.items answered.status) }
{
    if is_for_all(question.all_keys, asked.key) {
        explained_all(
            alloc,
            settings,
            question.format,
            asked,
            names,
            events,
            places,
        )
    } else {
        explained(
            alloc,
            settings,
            question.format,
            asked,
            names,
            events,
            places,
        )
    }
}
