//! What a run answers, and its text.
ghost use Rattle.std.specs.Prelude.{◌≡◌, IfOk};
ghost use Rattle.lin_formats.specs.VerdictTexts.{edn_cause_text, event_fault_text, few_text, line_of, refusal_text, status_of, verdict_text};

use lin_edn::EdnCause;
use lin_events::Cause;
use lin_history::EventFault;
use lin_texts::{Status, cause_words, put_number};
use std::alloc::{AllocError, Global};

/// Why the input, or the text of an order, is refused.
#[derive(Clone, Copy, Debug, PartialEq, Eq)]
pub enum Refusal {
    /// The stream breaks the form of EDN at this offset.
    Edn { at: u64, cause: EdnCause },
    /// The element that begins at this offset says no event.
    Event { at: u64, cause: EventFault },
    /// The stream ends within the element or discard that begins at this offset.
    Truncated { at: u64 },
    /// There are more than 1,000,000 events.
    Full,
    /// The word of an order's text at this place is no pair.
    BadPair { at: usize },
    /// The stream is a whole one of so many events, and more are wanted.
    Few { events: usize, wanted: u32 },
}

/// What is found of a history and an order.
#[derive(Clone, Copy, Debug, PartialEq, Eq)]
pub enum OrderVerdict {
    /// The order is a legal order of the history.
    Yes,
    /// It isn't.
    No,
    /// The history isn't well-formed: the first bad event, and why it is bad.
    IllFormed { at: usize, cause: Cause },
    Refused(Refusal),
}

impl OrderVerdict {
    /// The status of a run that ends with the verdict.
    pub fn status(self) -> Status
        ensures { result ≡ status_of self }
    {
        match self {
            OrderVerdict::Yes => Status::Yes,
            OrderVerdict::No => Status::No,
            OrderVerdict::IllFormed { .. } => Status::IllFormed,
            OrderVerdict::Refused(_) => Status::Refused,
        }
    }
}

pub fn edn_cause(cause: EdnCause) -> &'static str
    ensures { result.now ≡ edn_cause_text cause }
{
    match cause {
        EdnCause::Unbalanced => "1 Unbalanced",
        EdnCause::OddMap => "2 OddMap",
        EdnCause::TooDeep => "3 TooDeep",
        EdnCause::TooLong => "4 TooLong",
        EdnCause::OutOfMemory => "5 OutOfMemory",
    }
}

pub fn event_fault(fault: EventFault) -> &'static str
    ensures { result.now ≡ event_fault_text fault }
{
    match fault {
        EventFault::NotAMap => "1 NotAMap",
        EventFault::DuplicateKey => "2 DuplicateKey",
        EventFault::Missing => "3 Missing",
        EventFault::BadProcess => "4 BadProcess",
        EventFault::BadType => "5 BadType",
        EventFault::BadFunction => "6 BadFunction",
        EventFault::BadKey => "7 BadKey",
        EventFault::BadValue => "8 BadValue",
        EventFault::OutOfMemory => "9 OutOfMemory",
    }
}

/// The text of the refusal of a history that is too short.
fn few_words(alloc: Global, events: usize, wanted: u32) -> Result<Vec<u8>, AllocError>
    ensures { IfOk result (λ line. line.items ≡ few_text events wanted) }
{
    let mut line = Vec::from_slice(alloc, b"refused input few ")?;
    put_number(&mut line, events as u64)?;
    line.extend_from_slice(b" events, ")?;
    put_number(&mut line, wanted as u64)?;
    line.extend_from_slice(b" wanted")?;
    Ok(line)
}

/// The text of a refusal.
pub fn refusal_words(alloc: Global, refusal: Refusal) -> Result<Vec<u8>, AllocError>
    ensures { IfOk result (λ line. line.items ≡ refusal_text refusal) }
{
    match refusal {
        Refusal::Edn { at, cause } => {
            let mut line = Vec::from_slice(alloc, b"refused input edn ")?;
            line.extend_from_slice(edn_cause(cause).as_bytes())?;
            line.extend_from_slice(b" at ")?;
            put_number(&mut line, at)?;
            Ok(line)
        }
        Refusal::Event { at, cause } => {
            let mut line = Vec::from_slice(alloc, b"refused input event ")?;
            line.extend_from_slice(event_fault(cause).as_bytes())?;
            line.extend_from_slice(b" at ")?;
            put_number(&mut line, at)?;
            Ok(line)
        }
        Refusal::Truncated { at } => {
            let mut line = Vec::from_slice(alloc, b"refused input truncated at ")?;
            put_number(&mut line, at)?;
            Ok(line)
        }
        Refusal::Full => Vec::from_slice(alloc, b"refused edit 2 Full"),
        Refusal::BadPair { at } => {
            let mut line = Vec::from_slice(alloc, b"refused order 1 BadPair at ")?;
            put_number(&mut line, at as u64)?;
            Ok(line)
        }
        Refusal::Few { events, wanted } => few_words(alloc, events, wanted),
    }
}

/// The text of a verdict.
fn verdict_words(alloc: Global, verdict: OrderVerdict) -> Result<Vec<u8>, AllocError>
    ensures { IfOk result (λ line. line.items ≡ verdict_text verdict) }
{
    match verdict {
        OrderVerdict::Yes => Vec::from_slice(alloc, b"yes"),
        OrderVerdict::No => Vec::from_slice(alloc, b"no"),
        OrderVerdict::IllFormed { at, cause } => {
            let mut line = Vec::from_slice(alloc, b"ill-formed at ")?;
            put_number(&mut line, at as u64)?;
            line.extend_from_slice(b" cause ")?;
            line.extend_from_slice(cause_words(cause).as_bytes())?;
            Ok(line)
        }
        OrderVerdict::Refused(refusal) => refusal_words(alloc, refusal),
    }
}

/// The line of a verdict, with its end.
pub fn line(alloc: Global, verdict: OrderVerdict) -> Result<Vec<u8>, AllocError>
    ensures { IfOk result (λ line. line.items ≡ line_of verdict) }
{
    let mut line = verdict_words(alloc, verdict)?;
    line.push(b'\n')?;
    Ok(line)
}
