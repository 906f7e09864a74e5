//! Reports: the text of what is found of a history and of its objects.
ghost use Rattle.std.specs.Prelude.{◌≡◌, ◌++◌, ℕ, List, IfOk, OnErr, OnOk, codes};
ghost use Rattle.lin_answers.specs.Answers.{kinds_in};
ghost use Rattle.lin_report.specs.Reports as said;
ghost use Rattle.lin_report.specs.Reports.{IsReport, answer_text, counts_text, line_text, lines_text, report_text};

use crate::answers::{status_of, verdict_words};
use crate::findings::{Finding, Findings, find};
use crate::formats::{ReportFormat, take_first_away};
use crate::json_reports::put_json_report;
use lin_answers::Verdict;
use lin_events::OutOfMemory;
use lin_formats::{Status, kind_word, put_item, put_number};
use lin_names::Names;
use lin_objects::Kind;
use lin_session::Session;
use std::alloc::{AllocError, Global};

/// Puts the line that names so many events and objects last.
fn put_counts(text: &mut Vec<u8>, events: usize, objects: usize) -> Result<(), AllocError>
    ensures { OnOk result (text.new.items ≡ text.old.items ++ counts_text events objects) }
{
    text.extend_from_slice(b"events ")?;
    put_number(text, events as u64)?;
    text.extend_from_slice(b" objects ")?;
    put_number(text, objects as u64)?;
    text.push(b'\n')?;
    Ok(())
}

/// Puts the words of an answer last, with the end of the line.
fn put_verdict(alloc: Global, text: &mut Vec<u8>, verdict: Verdict) -> Result<(), AllocError>
    ensures { OnOk result (text.new.items ≡ text.old.items ++ (answer_text verdict ++ codes "\n")) }
{
    text.extend_from_slice(verdict_words(alloc, verdict)?.as_slice())?;
    text.push(b'\n')?;
    Ok(())
}

/// Puts the line of an object last.
fn put_line(
    alloc: Global,
    text: &mut Vec<u8>,
    names: &Names,
    kind: Kind,
    found: Finding,
) -> Result<(), AllocError>
    ensures { OnOk result (text.new.items ≡ text.old.items ++ line_text names.now kind found) }
{
    text.extend_from_slice(b"object ")?;
    put_item(text, names, found.key)?;
    text.extend_from_slice(b" ")?;
    text.extend_from_slice(kind_word(kind).as_bytes())?;
    text.extend_from_slice(b": ")?;
    put_verdict(alloc, text, found.verdict)
}

/// Puts the lines of objects last.
fn put_lines(
    alloc: Global,
    text: &mut Vec<u8>,
    names: &Names,
    session: &Session,
    found: &[Finding],
) -> Result<(), AllocError>
    ensures { OnOk result (text.new.items ≡ text.old.items ++ lines_text names.now (kinds_in session.now.present) found.now) }
{
    for one in found {
        put_line(alloc, text, names, session.kind_of(one.key), *one)?;
    }
    Ok(())
}

/// Puts the lines of a report last.
fn put_text_report(
    alloc: Global,
    text: &mut Vec<u8>,
    names: &Names,
    session: &Session,
    found: &Findings,
) -> Result<(), AllocError>
    ensures { OnOk result (text.new.items ≡ text.old.items ++ report_text names.now ReportFormat.Text 0 session.now.present found.now.keys found.now.objects.items found.now.whole) }
{
    put_counts(text, session.len(), found.keys)?;
    put_lines(alloc, text, names, session, &found.objects)?;
    text.extend_from_slice(b"whole: ")?;
    put_verdict(alloc, text, found.whole)
}

/// The text of a report, as it is wanted.
fn reported_as(
    alloc: Global,
    format: ReportFormat,
    names: &Names,
    session: &Session,
    passed: u64,
    found: &Findings,
) -> Result<Vec<u8>, AllocError>
    ensures { IfOk result (λ text. text.items ≡ report_text names.now format passed session.now.present found.now.keys found.now.objects.items found.now.whole) }
{
    let mut text = Vec::new(alloc);
    match format {
        ReportFormat::Text => put_text_report(alloc, &mut text, names, session, found)?,
        ReportFormat::Json => put_json_report(alloc, &mut text, names, session, passed, found)?,
        ReportFormat::Rest => {
            put_json_report(alloc, &mut text, names, session, passed, found)?;
            take_first_away(&mut text);
        }
    }
    Ok(text)
}

/// A report of the present history, beside which so many maps were passed over, and the status of what is found of the whole.
pub fn report(
    alloc: Global,
    session: &mut Session,
    names: &Names,
    format: ReportFormat,
    passed: u64,
) -> Result<(Vec<u8>, Status), OutOfMemory>
    ensures report { IfOk result (λ reported. IsReport names.now format passed session.old.present reported.0.items reported.1) }
    ensures present { session.new.present ≡ session.old.present }
{
    let found = find(alloc, session, names)?;
    let text = reported_as(alloc, format, names, session, passed, &found)?;
    Ok((text, status_of(found.whole)))
}

/// Puts the lines of a report of the present history last, and gives the status of what is found of the whole: how many events and
/// objects it has, what is found of each object, in the order of print, and of the whole. Of a history that isn't well-formed no object is
/// named. Refused, nothing has changed.
pub fn write_report(
    alloc: Global,
    session: &mut Session,
    names: &Names,
    out: &mut Vec<u8>,
) -> Result<Status, OutOfMemory>
    ensures written { IfOk result (λ status. (text : List ℕ) × IsReport names.now ReportFormat.Text 0 session.old.present text status × (out.new.items ≡ out.old.items ++ text)) }
    ensures same { OnErr result (out.new.items ≡ out.old.items) }
    ensures present { session.new.present ≡ session.old.present }
{
    let (text, status) = report(alloc, session, names, ReportFormat::Text, 0)?;
    out.extend_from_slice(text.as_slice())?;
    Ok(status)
}
