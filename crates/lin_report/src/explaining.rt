//! Why the answer is what it is.
ghost use Rattle.std.specs.Prelude.{◌≡◌, ◌<◌, ◌≤◌, ◌+◌, ◌*◌, ◌++◌, None, Some, codes, decimal, length, option_map, IfOk, OnOk, IsErrOf};
ghost use Rattle.lin_events.specs.Meters.{ticked};
ghost use Rattle.lin_formats.specs.Devices.{device_of, failures_of, Counts};
ghost use Rattle.lin_formats.specs.Histories.{is_read_failed};
ghost use Rattle.lin_formats.specs.Inputs.{limit};
ghost use Rattle.lin_formats.specs.Verdicts.{is_write_failed, IsReadTooFar};
ghost use Rattle.lin_report.specs.AskedKeys.{HasEvents, IsKey};
ghost use Rattle.lin_report.specs.inner.Asking.{IsFound};
ghost use Rattle.lin_report.specs.Explanations.{IsExplainRun, IsExplanation, IsRightExplanation, explanation_text, key_of as key_in, line_count as lines_in, refusal_lines as lines_for, refused_told};
ghost use Rattle.lin_explain.specs.Explained.{Explains, scope_of as scope_for};
ghost use Rattle.lin_explain.specs.Work.{least_steps, most_passes};
ghost use Rattle.lin_names.specs.Names.{Begins};
ghost use Rattle.lin_answers.specs.Answers.{IsAnswer, verdict_of as verdict_in};
ghost use Rattle.lin_session.specs.Sessions.{IsQuestion};
ghost use Rattle.lin_report.specs.Reports.{answer_status, opened};
ghost use Rattle.lin_report.specs.Runs.{IsCommandReply};
ghost use Rattle.lin_report.specs.declared.commands.Command.TheVariants as command;

use crate::answers::{status_of, verdict_of};
use crate::asked_keys::{Found, RunEnding, absence_of, line_behind};
use crate::beside::{Beside, beside_of, whole_words};
use crate::checks::Answered;
use crate::each::told_for;
use crate::formats::{ReportFormat, take_first_away};
use crate::json_explanations::{json_explanation, json_refused};
use crate::replies::WrittenReply;
use crate::sessions::{names_are_apart, session_of};
use lin_answers::{Answer, Scope, Verdict};
use lin_events::{Event, Item, OutOfMemory};
use lin_explain::{Asked, Explanation, explanation_from, explanation_of};
use lin_formats::{
    Counted, EventPlaces, History, Places, Refusal, RunFault, Settings, Status, put_number,
    read_placed, refusal_lines, refusal_words, write_whole,
};
use lin_names::{Names, Said};
use lin_session::Session;
use lin_texts::Place;
use std::alloc::{AllocError, Global};
use std::io::{Read, Write};

/// What a file is asked.
#[derive(Clone, Copy)]
pub struct Question<'a> {
    /// The object of this key, or the whole.
    pub key: Option<Said<'a>>,
    /// Where the whole is asked about: each object that isn't a yes, if one isn't.
    pub all_keys: bool,
    /// Whether a yes ends with its order.
    pub with_order: bool,
    /// How the explanation is printed.
    pub format: ReportFormat,
}

/// The key that is said, if one is. A word gets a number if it has none.
pub fn item_of(key: Option<Said>, names: &mut Names) -> Result<Option<Item>, OutOfMemory>
    ensures begun { Begins names.old names.new }
    ensures key { IfOk result (IsKey names.new key.entry) }
{
    match key {
        Some(key) => Ok(Some(key.item(names)?)),
        None => Ok(None),
    }
}

/// The object of a key, or the whole.
pub fn scope_of(key: Option<Item>) -> Scope
    ensures { result ≡ scope_for key }
{
    match key {
        Some(key) => Scope::Object(key),
        None => Scope::Whole,
    }
}

/// The key of a scope, if it is of one.
fn key_of(scope: Scope) -> Option<Item>
    ensures { result ≡ key_in scope }
{
    match scope {
        Scope::Object(key) => Some(key),
        Scope::Whole => None,
    }
}

/// What explains an answer for so many events, and what is told beside it, as it is wanted.
fn told_as(
    alloc: Global,
    names: &Names,
    format: ReportFormat,
    events: usize,
    verdict: Verdict,
    told: &Explanation,
    beside: Option<&Beside>,
) -> Result<Vec<u8>, AllocError>
    ensures { IfOk result (λ text. text.items
        ≡ explanation_text names.now format events verdict told.now.lines.items told.now.parts (option_map (λ b. b.now) beside.entry)) }
{
    match format {
        ReportFormat::Text => whole_words(alloc, names, verdict, &told.lines, beside),
        ReportFormat::Json => json_explanation(alloc, names, events, verdict, told, beside),
        ReportFormat::Rest => {
            let mut line = json_explanation(alloc, names, events, verdict, told, beside)?;
            take_first_away(&mut line);
            Ok(line)
        }
    }
}

/// What is printed of an answer to so many events, as it is wanted.
fn answered(
    alloc: Global,
    names: &Names,
    format: ReportFormat,
    events: usize,
    answer: &Answer,
    told: &Explanation,
    beside: Option<&Beside>,
) -> Result<Answered, AllocError>
    ensures { IfOk result (λ answered. (answered.text.items
        ≡ explanation_text names.now format events (verdict_in answer.now) told.now.lines.items told.now.parts (option_map (λ b. b.now) beside.entry))
        × (answered.status ≡ answer_status (verdict_in answer.now))) }
{
    let verdict = verdict_of(answer);
    let text = told_as(alloc, names, format, events, verdict, told, beside)?;
    Ok(Answered {
        text,
        status: status_of(verdict),
    })
}

/// An explanation of the answer, which counts on the session's meter.
pub fn told_of(
    alloc: Global,
    session: &mut Session,
    names: &Names,
    answer: &Answer,
    asked: Asked,
    places: Option<&[Place]>,
) -> Result<Explanation, OutOfMemory>
    requires { IsAnswer session.old.present (scope_for asked.key) answer.now }
    ensures told { IfOk result (λ told. Explains names.now session.old.present asked (option_map (λ p. p.now) places.entry) answer.now told.lines.items told.parts) }
    ensures same { session.new ≡ record session.old { meter = session.new.meter } }
    ensures counted { OnOk result (ticked session.old.meter.steps (least_steps session.old.present answer.now) ≤ session.new.meter.steps) }
    ensures most { session.new.meter.steps ≤ session.old.meter.steps + most_passes answer.now * length session.old.present.history }
    ensures scans { session.new.meter.scans ≡ session.old.meter.scans }
{
    let mut meter = session.take_meter();
    let told = explanation_of(
        alloc,
        &session.present(),
        names,
        answer,
        asked,
        places,
        &mut meter,
    );
    session.keep_meter(meter);
    told
}

/// An explanation of the answer for the scope, and of an object that is a no beside it. What it takes is counted, beside what the question takes.
pub(crate) fn explanation(
    alloc: Global,
    session: &mut Session,
    names: &Names,
    format: ReportFormat,
    scope: Scope,
    asked: Asked,
    places: Option<&[Place]>,
) -> Result<Answered, OutOfMemory>
    requires { scope_for asked.key ≡ scope }
    ensures explained { IfOk result (λ answered. IsExplanation names.now format session.old.present asked (option_map (λ p. p.now) places.entry) answered.text.items answered.status) }
    ensures present { session.new.present ≡ session.old.present }
    ensures question { IsQuestion scope (13 * length session.old.present.history) session.old session.new }
{
    let answer = session.order(alloc, scope)?;
    let beside = beside_of(alloc, session, names, &answer, asked, places)?;
    let told = told_of(alloc, session, names, &answer, asked, places)?;
    let count = session.len();
    let also = beside.as_ref();
    Ok(answered(alloc, names, format, count, &answer, &told, also)?)
}

/// How many lines a text has.
fn line_count(text: &[u8]) -> usize
    ensures { result ≡ lines_in text.now }
{
    let mut count = 0;
    for at in 0..text.len() {
        if text[at] == b'\n' {
            count += 1;
        }
    }
    count
}

/// These lines behind one that tells how many they are.
fn counted_lines(alloc: Global, lines: &[u8]) -> Result<Vec<u8>, AllocError>
    ensures { IfOk result (λ text. text.items ≡ codes "explained " ++ decimal (lines_in lines.now) ++ codes "\n" ++ lines.now) }
{
    let mut text = Vec::from_slice(alloc, b"explained ")?;
    put_number(&mut text, line_count(lines) as u64)?;
    text.push(b'\n')?;
    text.extend_from_slice(lines)?;
    Ok(text)
}

/// The reply to a command that asks why: how many lines follow, and they, and for a key that no event has one more that says so. At most thirteen steps are counted for each event of the history, beside
/// those of the question: ten for a yes, seven for a no, six for what is undecided, and seven for an object that is a no beside that.
pub fn explain_reply(
    alloc: Global,
    keyed: bool,
    session: &mut Session,
    names: &Names,
    scope: Scope,
) -> Result<WrittenReply, OutOfMemory>
    ensures reply { IfOk result (λ reply. IsCommandReply names.now keyed (command.Explain scope) session.old.present session.new.present reply.text.items reply.status) }
    ensures question { IsQuestion scope (13 * length session.old.present.history) session.old session.new }
{
    let asked = Asked {
        key: key_of(scope),
        with_order: false,
        keyed,
    };
    let answered = explanation(
        alloc,
        session,
        names,
        ReportFormat::Text,
        scope,
        asked,
        None,
    )?;
    let mut lines = answered.text;
    let line = line_behind(alloc, names, session, asked.key)?;
    lines.extend_from_slice(line.as_slice())?;
    Ok(WrittenReply {
        text: counted_lines(alloc, &lines)?,
        status: Some(answered.status),
    })
}

/// What explains the answer, where the session isn't needed any more. What it found of the events goes first.
fn explained_last(
    alloc: Global,
    session: Session,
    names: &Names,
    answer: &Answer,
    asked: Asked,
    places: &Places,
) -> Result<Explanation, OutOfMemory>
    requires { IsAnswer session.present (scope_for asked.key) answer.now }
    ensures { IfOk result (λ told. Explains names.now session.present asked (Some places.now.places) answer.now told.lines.items told.parts) }
{
    let mut session = session;
    let mut meter = session.take_meter();
    let history = session.into_history();
    let places = Some(places.as_slice());
    explanation_from(alloc, history, names, answer, asked, places, &mut meter)
}

/// An explanation of these events.
pub(crate) fn explained(
    alloc: Global,
    settings: Settings,
    format: ReportFormat,
    asked: Asked,
    names: &Names,
    events: Vec<Event>,
    places: &Places,
) -> Result<Answered, OutOfMemory>
    requires budget { (1 ≤ settings.budget) × (settings.budget ≤ 1000000) }
    requires few { length events.items ≤ limit }
    ensures { IfOk result (λ answered. IsExplanation names.now format (opened settings events.items) asked (Some places.now.places) answered.text.items answered.status) }
{
    let mut session = session_of(alloc, settings, events)?;
    let count = session.len();
    let answer = session.order(alloc, scope_of(asked.key))?;
    let spots = Some(places.as_slice());
    let beside = beside_of(alloc, &mut session, names, &answer, asked, spots)?;
    let told = explained_last(alloc, session, names, &answer, asked, places)?;
    let also = beside.as_ref();
    Ok(answered(alloc, names, format, count, &answer, &told, also)?)
}

/// The lines that are told of a file that is refused.
fn refused_lines(
    alloc: Global,
    refusal: Refusal,
    placed: &EventPlaces,
) -> Result<Vec<u8>, OutOfMemory>
    ensures { IfOk result (λ text. text.items ≡ lines_for placed.now.places refusal placed.now.hints.items) }
{
    let lines = refusal_lines(alloc, refusal, placed)?;
    let mut text = refusal_words(alloc, refusal)?;
    text.push(b'\n')?;
    text.extend_from_slice(lines.as_slice())?;
    Ok(text)
}

/// What is told of a file that is refused.
pub(crate) fn refused(
    alloc: Global,
    format: ReportFormat,
    refusal: Refusal,
    placed: &EventPlaces,
) -> Result<Answered, OutOfMemory>
    ensures { IfOk result (λ answered. (answered.text.items ≡ refused_told format placed.now.places refusal placed.now.hints.items) × (answered.status ≡ Status.Refused)) }
{
    let lines = refused_lines(alloc, refusal, placed)?;
    let text = match format {
        ReportFormat::Text => lines,
        ReportFormat::Json => json_refused(alloc, refusal, &placed.places, &lines)?,
        ReportFormat::Rest => {
            let mut line = json_refused(alloc, refusal, &placed.places, &lines)?;
            take_first_away(&mut line);
            line
        }
    };
    Ok(Answered {
        text,
        status: Status::Refused,
    })
}

/// What is found of a file.
fn find<R: Read>(
    alloc: Global,
    settings: Settings,
    question: Question,
    file: &mut Counted<R>,
) -> Result<Found, RunFault>
    requires budget { (1 ≤ settings.budget) × (settings.budget ≤ 1000000) }
    requires reads { failures_of file.old < u64.MAX }
    ensures found { IfOk result (IsFound (IsRightExplanation settings question.entry) settings question.entry.key (R.remaining (device_of file.old)) (R.remaining (device_of file.new))) }
    ensures too_much { IsErrOf result RunFault.TooMuch → IsReadTooFar (R.remaining (device_of file.old)) (R.remaining (device_of file.new)) }
    ensures counts { Counts (is_read_failed result) (failures_of file.old) (failures_of file.new) }
    ensures readers { IsErrOf result RunFault.WriteFailed → ⊥ }
{
    let mut names = Names::new(alloc);
    let asked = Asked {
        key: item_of(question.key, &mut names)?,
        with_order: question.with_order,
        keyed: settings.keyed,
    };
    let (history, placed) = read_placed(
        alloc,
        settings.keyed,
        settings.at_least,
        file,
        &mut names,
    )?;
    names_are_apart(&names);
    match history {
        History::Whole(events) => {
            if let Some(words) = absence_of(alloc, &names, asked.key, &events)? {
                return Ok(Found::NoKey(words));
            }
            let places = &placed.places;
            let told = told_for(alloc, settings, question, asked, &names, events, places)?;
            Ok(Found::Answer(told))
        }
        History::Refused(refusal) => {
            let told = refused(alloc, question.format, refusal, &placed)?;
            Ok(Found::Answer(told))
        }
    }
}

/// Tells why the history in a file is linearizable or not (Herlihy and Wing 1990, section 3), or isn't decided, for the whole or for the
/// object of a key: writes the answer's line and those of its explanation, or all that in one line of JSON, and gives the status. Where no event of a
/// whole history has the key nothing is written, and it is told which keys there are.
///
/// The file is read as by `check`, which see for what is asked and for errors.
pub fn explain<R: Read, W: Write>(
    alloc: Global,
    settings: Settings,
    question: Question,
    file: &mut Counted<R>,
    out: &mut Counted<W>,
) -> Result<RunEnding, RunFault>
    requires budget { (1 ≤ settings.budget) × (settings.budget ≤ 1000000) }
    requires reads { failures_of file.old < u64.MAX }
    requires writes { failures_of out.old < u64.MAX }
    ensures ran { IsExplainRun settings question.entry (R.remaining (device_of file.old)) (R.remaining (device_of file.new))
        (W.contents (device_of out.old)) (W.contents (device_of out.new)) result }
    ensures read_counts { Counts (is_read_failed result) (failures_of file.old) (failures_of file.new) }
    ensures write_counts { Counts (is_write_failed result) (failures_of out.old) (failures_of out.new) }
{
    match find(alloc, settings, question, file)? {
        Found::Answer(answered) => {
            write_whole(out, answered.text.as_slice())?;
            Ok(RunEnding::Answered(answered.status))
        }
        Found::NoKey(words) => Ok(RunEnding::NoKey(words)),
    }
}
