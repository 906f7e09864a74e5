//! Histories read from a file, piece by piece.
ghost use Rattle.std.specs.Prelude.{◌≡◌, ◌+◌, ◌^◌, ◌<◌, ◌≤◌, ◌++◌, ◌⊎◌, [], ℕ, List, Err, length, Option, IfErr, IfNone, IfOk, IfSome, false, IsErrOf, MatchBool, MatchOption, MatchResult};
ghost use Rattle.std.specs.Io.KnownBytes.{Consumes, IsAtEnd};
ghost use Rattle.lin_events.specs.declared.events.Event.{Event as EventOf};
ghost use Rattle.lin_history.specs.Sees.{is_fault};
ghost use Rattle.lin_names.specs.Names.{AgreesWith, AreEachOnce, Begins, Numbering};
ghost use Rattle.lin_formats.specs.Devices.{device_of, failures_of, is_empty_of, passed_of, Counts};
ghost use Rattle.lin_formats.specs.Intakes.{AreSeen, IsFed, IsFedOn, IsTooMuch};
ghost use Rattle.lin_formats.specs.Inputs.{limit, AreRefused, IsTooMany};
ghost use Rattle.lin_formats.specs.Inputs as inputs_said;
ghost use Rattle.lin_formats.specs.Histories as histories_said;
ghost use Rattle.lin_formats.specs.Verdicts.{IsReadTooFar};
ghost use Rattle.lin_formats.specs.Histories.{AreAllPassed, EndsFor, IsHistory, IsHistoryFor, IsNoted, StopsFor, is_read_failed};

use crate::counted::Counted;
use crate::verdicts::Refusal;
use lin_events::{Event, OutOfMemory};
use lin_history::{Follow, FollowFault, PassedOver};
use lin_names::{Names, names_grow};
use lin_texts::RunFault;
use std::alloc::Global;
use std::io::Read;

/// The greatest number of events of a file.
const LIMIT: usize = 1_000_000;

/// How many bytes are read at once.
const PIECE: usize = 65_536;

/// What a file says.
#[derive(Drop)]
pub enum History {
    /// A whole stream of these events.
    Whole(Vec<Event>),
    Refused(Refusal),
}

/// What a fault of the stream comes to.
fn refusal_of(fault: FollowFault) -> Result<Refusal, RunFault>
    ensures { result ≡ inputs_said.refusal_of fault }
{
    match fault {
        FollowFault::Edn { at, cause } => Ok(Refusal::Edn { at, cause }),
        FollowFault::Event { at, cause } => Ok(Refusal::Event { at, cause }),
        FollowFault::Truncated { at } => Ok(Refusal::Truncated { at }),
        FollowFault::OutOfMemory => Err(RunFault::OutOfMemory),
        FollowFault::TooMuch => Err(RunFault::TooMuch),
    }
}

/// Takes the events that are ready; false where there are too many.
fn take_ready(follow: &mut Follow, events: &mut Vec<Event>) -> Result<bool, OutOfMemory>
    requires { length events.old.items ≤ limit }
    ensures keyed { follow.new.keyed ≡ follow.old.keyed }
    ensures outcome { follow.new.outcome ≡ follow.old.outcome }
    ensures all { IfOk result (λ fits. (names : List (List ℕ)) (bytes : List ℕ) → AreSeen names follow.old bytes events.old.items →
        MatchBool fits (IsFed names follow.new bytes events.new.items) (IsTooMany follow.new.keyed names bytes)) }
{
    let mut more = follow.take_all();
    if more.len() > LIMIT - events.len() {
        return Ok(false);
    }
    if events.is_empty() {
        *events = more;
    } else {
        events.append(&mut more)?;
    }
    Ok(true)
}

/// Feeds one more piece of the file, or tells by which fault the stream ends.
fn feed_piece(
    follow: &mut Follow,
    piece: &[u8],
    names: &mut Names,
) -> Result<Option<Refusal>, RunFault>
    ensures begun { Begins names.old names.new }
    ensures keyed { follow.new.keyed ≡ follow.old.keyed }
    ensures fed { IfOk result (IsFedOn names.old names.new follow.old piece.now follow.new) }
    ensures faults { IfErr result (λ fault. (fault ≡ RunFault.OutOfMemory) ⊎ (fault ≡ RunFault.TooMuch)) }
    ensures too_much { IsErrOf result RunFault.TooMuch → IsTooMuch names.old follow.old piece.now }
{
    some_numbering(names);
    match follow.feed(piece, names) {
        Ok(_) => Ok(None),
        Err(fault) => Ok(Some(refusal_of(fault)?)),
    }
}

/// Takes in one more piece of the file, or tells why it is refused.
pub fn take_piece(
    follow: &mut Follow,
    events: &mut Vec<Event>,
    piece: &[u8],
    names: &mut Names,
) -> Result<Option<Refusal>, RunFault>
    requires { length events.old.items ≤ limit }
    ensures begun { Begins names.old names.new }
    ensures keyed { follow.new.keyed ≡ follow.old.keyed }
    ensures taken { IfOk result (λ refusal. (bytes : List ℕ) → IsFed names.old follow.old bytes events.old.items → MatchOption refusal
        (IsFed names.new follow.new (bytes ++ piece.now) events.new.items)
        (AreRefused follow.new.keyed names.new (bytes ++ piece.now))) }
    ensures goes_on { IfOk result (λ refusal. IfNone refusal (is_fault follow.new.outcome ≡ false)) }
    ensures within { IfOk result (λ _. (bytes : List ℕ) → IsFed names.old follow.old bytes events.old.items → is_fault follow.old.outcome ≡ false
        → length bytes + length piece.now ≤ 2 ^ 40) }
    ensures stops { IfOk result (λ refusal. IfSome refusal (λ r. (left : Option (List ℕ)) → StopsFor r left)) }
    ensures faults { IfErr result (λ fault. (fault ≡ RunFault.OutOfMemory) ⊎ (fault ≡ RunFault.TooMuch)) }
    ensures too_much { IsErrOf result RunFault.TooMuch → (bytes : List ℕ) → IsFed names.old follow.old bytes events.old.items
        → 2 ^ 40 < length bytes + length piece.now }
{
    let refusal = feed_piece(follow, piece, names)?;
    if !take_ready(follow, events)? {
        return Ok(Some(Refusal::Full));
    }
    Ok(refusal)
}

/// What a file says whose bytes all were taken in.
pub fn finish_history(
    follow: &Follow,
    events: Vec<Event>,
    names: &Names,
) -> Result<History, RunFault>
    ensures said { (bytes : List ℕ) → IsFed names.now follow.now bytes events.items
        → MatchResult result (IsHistory follow.now.keyed names.now bytes) (λ _. ⊥) }
    ensures passed { IfOk result (λ history. (bytes : List ℕ) → IsFed names.now follow.now bytes events.items → AreAllPassed bytes history follow.now.passed_over) }
{
    some_numbering(names);
    match follow.finish() {
        Ok(()) => Ok(History::Whole(events)),
        Err(fault) => Ok(History::Refused(refusal_of(fault)?)),
    }
}

/// The history in a file, read to its end or to a fault, however many events it has, and its maps that are passed over.
///
/// Errors: `ReadFailed`; want of memory; `TooMuch` where the file has more than 1,099,511,627,776 bytes.
pub(crate) fn read_stream<R: Read>(
    alloc: Global,
    keyed: bool,
    file: &mut Counted<R>,
    names: &mut Names,
) -> Result<(History, PassedOver), RunFault>
    requires { failures_of file.old < u64.MAX }
    ensures begun { Begins names.old names.new }
    ensures read { IfOk result (λ read. (bytes : List ℕ)
        × Consumes (R.remaining (device_of file.old)) (R.remaining (device_of file.new)) bytes
        × (length bytes ≤ 2 ^ 40)
        × EndsFor read.0 (R.remaining (device_of file.new))
        × IsHistory keyed names.new bytes read.0
        × AreAllPassed bytes read.0 read.1) }
    ensures too_much { IsErrOf result RunFault.TooMuch → IsReadTooFar (R.remaining (device_of file.old)) (R.remaining (device_of file.new)) }
    ensures counts { Counts (is_read_failed result) (failures_of file.old) (failures_of file.new) }
    ensures readers { IsErrOf result RunFault.WriteFailed → ⊥ }
{
    names_grow();
    let mut follow = Follow::new(alloc, keyed);
    let mut events = Vec::new(alloc);
    let mut piece = [0u8; PIECE];
    'pieces: for _ in 0..u64::MAX {
        let Ok(count) = file.read(&mut piece) else {
            return Err(RunFault::ReadFailed);
        };
        if count == 0 {
            let history = finish_history(&follow, events, names)?;
            return Ok((history, follow.passed_over()));
        }
        if let Some(refusal) = take_piece(&mut follow, &mut events, &piece[..count], names)? {
            return Ok((History::Refused(refusal), PassedOver::none()));
        }
    }
    Err(RunFault::TooMuch)
}

/// What a file says where so many events are wanted at least: a whole history of fewer is refused.
pub fn with_least(history: History, least: u32) -> History
    ensures { result ≡ histories_said.with_least least history }
{
    match history {
        History::Whole(events) => {
            let count = events.len();
            if count < least as usize {
                History::Refused(Refusal::Few {
                    events: count,
                    wanted: least,
                })
            } else {
                History::Whole(events)
            }
        }
        History::Refused(refusal) => History::Refused(refusal),
    }
}

/// The history in a file, read to its end or to a fault. It is refused where it has fewer events of clients than `least`. The reader keeps in
/// mind whether it has none, and which of its maps were passed over.
///
/// Errors: `ReadFailed`; want of memory; `TooMuch` where the file has more than 1,099,511,627,776 bytes.
pub fn read_history<R: Read>(
    alloc: Global,
    keyed: bool,
    least: u32,
    file: &mut Counted<R>,
    names: &mut Names,
) -> Result<History, RunFault>
    requires { failures_of file.old < u64.MAX }
    ensures begun { Begins names.old names.new }
    ensures read { IfOk result (λ history. (bytes : List ℕ)
        × Consumes (R.remaining (device_of file.old)) (R.remaining (device_of file.new)) bytes
        × (length bytes ≤ 2 ^ 40)
        × EndsFor history (R.remaining (device_of file.new))
        × IsHistoryFor least keyed names.new bytes history
        × IsNoted keyed names.new bytes (is_empty_of file.new) (passed_of file.new)) }
    ensures too_much { IsErrOf result RunFault.TooMuch → IsReadTooFar (R.remaining (device_of file.old)) (R.remaining (device_of file.new)) }
    ensures counts { Counts (is_read_failed result) (failures_of file.old) (failures_of file.new) }
    ensures readers { IsErrOf result RunFault.WriteFailed → ⊥ }
{
    let (history, passed) = read_stream(alloc, keyed, file, names)?;
    file.has_given(&history, passed);
    Ok(with_least(history, least))
}

/// Each spelling has one number, and a numbering agrees with the names. The function does nothing.
pub(crate) fn some_numbering(names: &Names)
    ensures once { AreEachOnce names.now }
    ensures numbering { (number : Numbering) × AgreesWith names.now number }
{
    names_grow();
    names.len();
}
