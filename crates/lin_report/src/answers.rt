//! What is found of a history or an object: its text, and the status of a run that ends with it.
ghost use Rattle.std.specs.Prelude.{◌≡◌, ◌++◌, IfOk, OnErr, OnOk};
ghost use Rattle.lin_report.specs.Reports.{answer_status, answer_text, told_text};
ghost use Rattle.lin_report.specs.Reports as said;
ghost use Rattle.lin_answers.specs.Answers as asked;

use lin_answers::{Answer, Verdict};
use lin_events::OutOfMemory;
use lin_formats::{Status, cause_words, put_number};
use std::alloc::{AllocError, Global};

/// The answer without its order.
pub fn verdict_of(answer: &Answer) -> Verdict
    ensures { result ≡ asked.verdict_of answer.now }
{
    match answer {
        Answer::IllFormed { at, cause } => Verdict::IllFormed {
            at: *at,
            cause: *cause,
        },
        Answer::Yes(_) => Verdict::Yes,
        Answer::No { prefix } => Verdict::No { prefix: *prefix },
        Answer::Undecided { at } => Verdict::Undecided { at: *at },
    }
}

pub fn is_ill_formed(verdict: Verdict) -> bool
    ensures { result ≡ said.is_ill_formed verdict }
{
    matches!(verdict, Verdict::IllFormed { .. })
}

/// The status of a run that ends with the answer.
pub fn status_of(verdict: Verdict) -> Status
    ensures { result ≡ answer_status verdict }
{
    match verdict {
        Verdict::IllFormed { .. } => Status::IllFormed,
        Verdict::Yes => Status::Yes,
        Verdict::No { .. } => Status::No,
        Verdict::Undecided { .. } => Status::Undecided,
    }
}

/// The text of an answer without its order.
pub fn verdict_words(alloc: Global, verdict: Verdict) -> Result<Vec<u8>, AllocError>
    ensures { IfOk result (λ text. text.items ≡ answer_text verdict) }
{
    match verdict {
        Verdict::IllFormed { at, cause } => {
            let mut text = Vec::from_slice(alloc, b"ill-formed at ")?;
            put_number(&mut text, at as u64)?;
            text.extend_from_slice(b" cause ")?;
            text.extend_from_slice(cause_words(cause).as_bytes())?;
            Ok(text)
        }
        Verdict::Yes => Vec::from_slice(alloc, b"yes"),
        Verdict::No { prefix } => {
            let mut text = Vec::from_slice(alloc, b"no prefix ")?;
            put_number(&mut text, prefix as u64)?;
            Ok(text)
        }
        Verdict::Undecided { at } => {
            let mut text = Vec::from_slice(alloc, b"undecided at ")?;
            put_number(&mut text, at as u64)?;
            Ok(text)
        }
    }
}

/// The answer's line, and behind it these.
pub fn told_words(alloc: Global, verdict: Verdict, lines: &[u8]) -> Result<Vec<u8>, AllocError>
    ensures { IfOk result (λ text. text.items ≡ told_text verdict lines.now) }
{
    let mut text = verdict_words(alloc, verdict)?;
    text.push(b'\n')?;
    text.extend_from_slice(lines)?;
    Ok(text)
}

/// Puts the text of an answer last, without its order and without a line end; refused, nothing has changed.
pub fn write_answer(alloc: Global, answer: &Answer, out: &mut Vec<u8>) -> Result<(), OutOfMemory>
    ensures written { OnOk result (out.new.items ≡ out.old.items ++ answer_text (asked.verdict_of answer.now)) }
    ensures same { OnErr result (out.new.items ≡ out.old.items) }
{
    let text = verdict_words(alloc, verdict_of(answer))?;
    out.extend_from_slice(text.as_slice())?;
    Ok(())
}
