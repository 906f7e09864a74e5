//! Reports and refusals for machines: one line of JSON.
ghost use Rattle.std.specs.Prelude.{◌≡◌, ◌++◌, IfOk, OnOk, codes};
ghost use Rattle.lin_formats.specs.VerdictTexts.{refusal_text};
ghost use Rattle.lin_texts.specs.declared.status.Status.TheVariants as ends;
ghost use Rattle.lin_json.specs.Answers.{answer_json, objects_front};
ghost use Rattle.lin_answers.specs.Answers.{kinds_in};
ghost use Rattle.lin_report.specs.Failing as said;
ghost use Rattle.lin_report.specs.Reports.{answer_status, answer_text, json_object, json_objects, report_text};

use crate::answers::{status_of, verdict_words};
use crate::failing::failing_key;
use crate::findings::{Finding, Findings};
use crate::formats::ReportFormat;
use lin_answers::Verdict;
use lin_events::Item;
use lin_formats::{Refusal, Status, refusal_words};
use lin_json::{Head, put_answer, put_object, put_objects_front};
use lin_names::Names;
use lin_objects::Kind;
use lin_session::Session;
use std::alloc::{AllocError, Global};

/// Puts the map of an object last.
fn put_one(
    alloc: Global,
    text: &mut Vec<u8>,
    names: &Names,
    kind: Kind,
    found: Finding,
) -> Result<(), AllocError>
    ensures { OnOk result (text.new.items ≡ text.old.items ++ json_object names.now kind found) }
{
    let answer = verdict_words(alloc, found.verdict)?;
    let head = Head {
        status: status_of(found.verdict),
        answer: &answer,
    };
    put_object(text, names, found.key, kind, head)
}

/// Puts the maps of objects last, with commas between them.
fn put_each(
    alloc: Global,
    text: &mut Vec<u8>,
    names: &Names,
    session: &Session,
    found: &[Finding],
) -> Result<(), AllocError>
    ensures { OnOk result (text.new.items ≡ text.old.items ++ json_objects names.now (kinds_in session.now.present) found.now) }
{
    let Some((first, others)) = found.split_first() else {
        return Ok(());
    };
    put_one(alloc, text, names, session.kind_of(first.key), *first)?;
    for other in others {
        text.push(b',')?;
        put_one(alloc, text, names, session.kind_of(other.key), *other)?;
    }
    Ok(())
}

/// Puts what stands in front of the maps of objects last, where this object is a no beside what is found of the whole, or none.
fn put_front_of(
    alloc: Global,
    text: &mut Vec<u8>,
    names: &Names,
    events: usize,
    passed: u64,
    whole: Verdict,
    failed: Option<Item>,
) -> Result<(), AllocError>
    ensures { OnOk result (text.new.items ≡ text.old.items ++ objects_front names.now failed (answer_status whole) (answer_text whole) events passed) }
{
    let answer = verdict_words(alloc, whole)?;
    let head = Head {
        status: status_of(whole),
        answer: &answer,
    };
    put_objects_front(text, names, head, events, passed, failed)
}

/// Puts the same last, where this is found of the objects.
fn put_front(
    alloc: Global,
    text: &mut Vec<u8>,
    names: &Names,
    events: usize,
    passed: u64,
    found: &Findings,
) -> Result<(), AllocError>
    ensures { OnOk result (text.new.items ≡ text.old.items ++ objects_front names.now (said.failing_key found.now.whole found.now.objects.items) (answer_status found.now.whole) (answer_text found.now.whole) events passed) }
{
    let failed = failing_key(found.whole, &found.objects);
    put_front_of(alloc, text, names, events, passed, found.whole, failed)
}

/// Puts a report last: what is found of the whole, how many events the history has, how many maps were passed over, the object that fails first where the whole is undecided and
/// one is a no, and what is found of its objects.
pub fn put_json_report(
    alloc: Global,
    text: &mut Vec<u8>,
    names: &Names,
    session: &Session,
    passed: u64,
    found: &Findings,
) -> Result<(), AllocError>
    ensures { OnOk result (text.new.items ≡ text.old.items ++ report_text names.now ReportFormat.Json passed session.now.present found.now.keys found.now.objects.items found.now.whole) }
{
    let events = session.len();
    put_front(alloc, text, names, events, passed, found)?;
    put_each(alloc, text, names, session, &found.objects)?;
    text.extend_from_slice(b"]}\n")
}

/// The line that refuses a file.
pub fn json_refusal(alloc: Global, refusal: Refusal) -> Result<Vec<u8>, AllocError>
    ensures { IfOk result (λ line. line.items ≡ answer_json ends.Refused (refusal_text refusal) ++ codes "\n") }
{
    let answer = refusal_words(alloc, refusal)?;
    let head = Head {
        status: Status::Refused,
        answer: &answer,
    };
    let mut line = Vec::new(alloc);
    put_answer(&mut line, head)?;
    line.push(b'\n')?;
    Ok(line)
}
