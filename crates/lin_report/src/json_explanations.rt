//! Explanations for machines: one line of JSON.
ghost use Rattle.std.specs.Prelude.{◌≡◌, ◌++◌, IfOk, codes, option_map};
ghost use Rattle.lin_formats.specs.Refused.{place_in};
ghost use Rattle.lin_formats.specs.VerdictTexts.{refusal_text};
ghost use Rattle.lin_texts.specs.declared.status.Status.TheVariants as ends;
ghost use Rattle.lin_json.specs.Explanations.{refusal_json};
ghost use Rattle.lin_report.specs.Explanations as said;
ghost use Rattle.lin_report.specs.Explanations.{beside_json, beside_map, explanation_text};

use crate::answers::{status_of, told_words, verdict_words};
use crate::beside::{Beside, whole_words};
use crate::formats::ReportFormat;
use lin_answers::Verdict;
use lin_explain::Explanation;
use lin_formats::{Places, Refusal, Status, place_of, refusal_words};
use lin_json::{Head, put_explanation, put_refusal};
use lin_names::Names;
use std::alloc::{AllocError, Global};

/// A text without the byte that ends its last line.
fn without_end(text: &[u8]) -> &[u8]
    ensures { result.now ≡ said.without_end text.now }
{
    &text[..text.len().saturating_sub(1)]
}

/// The map of an object that is a no, for so many events.
fn json_no(
    alloc: Global,
    names: &Names,
    events: usize,
    beside: &Beside,
) -> Result<Vec<u8>, AllocError>
    ensures { IfOk result (λ map. map.items ≡ beside_json names.now events beside.now) }
{
    let no = Verdict::No {
        prefix: beside.failing.prefix,
    };
    let answer = verdict_words(alloc, no)?;
    let text = told_words(alloc, no, &beside.told.lines)?;
    let head = Head {
        status: Status::No,
        answer: &answer,
    };
    let parts = &beside.told.parts;
    let said = without_end(&text);
    let mut map = Vec::new(alloc);
    put_explanation(&mut map, names, head, events, parts, None, said)?;
    Ok(map)
}

/// The same, if there is one.
fn json_beside(
    alloc: Global,
    names: &Names,
    events: usize,
    beside: Option<&Beside>,
) -> Result<Option<Vec<u8>>, AllocError>
    ensures { IfOk result (λ map. option_map (λ m. m.items) map ≡ beside_map names.now events (option_map (λ b. b.now) beside.entry)) }
{
    match beside {
        Some(beside) => Ok(Some(json_no(alloc, names, events, beside)?)),
        None => Ok(None),
    }
}

/// A text, if there is one.
fn slice_of(map: &Option<Vec<u8>>) -> Option<&[u8]>
    ensures { option_map (λ m. m.now) result ≡ option_map (λ m. m.items) map.now }
{
    match map {
        Some(map) => Some(map.as_slice()),
        None => None,
    }
}

/// The explanation of an answer for so many events, and that of an object that is a no beside it.
pub fn json_explanation(
    alloc: Global,
    names: &Names,
    events: usize,
    verdict: Verdict,
    told: &Explanation,
    beside: Option<&Beside>,
) -> Result<Vec<u8>, AllocError>
    ensures { IfOk result (λ line. line.items
        ≡ explanation_text names.now ReportFormat.Json events verdict told.now.lines.items told.now.parts (option_map (λ b. b.now) beside.entry)) }
{
    let answer = verdict_words(alloc, verdict)?;
    let text = whole_words(alloc, names, verdict, &told.lines, beside)?;
    let failed = json_beside(alloc, names, events, beside)?;
    let head = Head {
        status: status_of(verdict),
        answer: &answer,
    };
    let mut line = Vec::new(alloc);
    put_explanation(
        &mut line,
        names,
        head,
        events,
        &told.parts,
        slice_of(&failed),
        without_end(&text),
    )?;
    line.push(b'\n')?;
    Ok(line)
}

/// What is told of a file that is refused, of which this is the text.
pub fn json_refused(
    alloc: Global,
    refusal: Refusal,
    places: &Places,
    text: &[u8],
) -> Result<Vec<u8>, AllocError>
    ensures { IfOk result (λ line. line.items ≡ refusal_json ends.Refused (refusal_text refusal) (place_in places.now refusal) (said.without_end text.now) ++ codes "\n") }
{
    let answer = refusal_words(alloc, refusal)?;
    let head = Head {
        status: Status::Refused,
        answer: &answer,
    };
    let mut line = Vec::new(alloc);
    put_refusal(
        &mut line,
        head,
        place_of(refusal, places),
        without_end(text),
    )?;
    line.push(b'\n')?;
    Ok(line)
}
