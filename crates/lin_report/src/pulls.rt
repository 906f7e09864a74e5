//! What `pull` does: events of the file go to the end of a history.
ghost use Rattle.std.specs.Prelude.{◌≡◌, ◌<◌, ◌⊎◌, Bool, List, IfOk, IfErr, IsErrOf};
ghost use Rattle.lin_events.specs.declared.events.Event.{Event as EventOf};
ghost use Rattle.lin_history.specs.Sees.{IsTakenIn, IsTooMuch};
ghost use Rattle.lin_formats.specs.Devices.{device_of, failures_of, Counts};
ghost use Rattle.lin_formats.specs.Histories.{is_read_failed};
ghost use Rattle.lin_report.specs.Pulls.{Enters, IsAllOrFull, IsStop, StandsAt};
ghost use Rattle.lin_report.specs.inner.Engines.{ReadsPart};
ghost use Rattle.lin_report.specs.Runs.{AreMore, IsPull, RunState};
ghost use Rattle.lin_report.specs.Runs as said;

use crate::sessions::{append, names_are_apart};
use lin_events::OutOfMemory;
use lin_formats::{Counted, Refusal, RunFault};
use lin_history::{Follow, FollowFault};
use lin_names::{Names, names_grow};
use lin_session::Session;
use std::io::Read;

/// The greatest number of events of a history.
const LIMIT: usize = 1_000_000;

/// How many bytes are read at once.
const PIECE: usize = 65_536;

/// Puts the events that are ready into the history, as far as there is room, and tells whether all were.
fn put_ready(session: &mut Session, follow: &mut Follow) -> Result<bool, OutOfMemory>
    ensures { IfOk result (λ all. (entered : List EventOf) × Enters session.old.present session.new.present follow.old follow.new entered
        × IsAllOrFull all session.new.present follow.new) }
{
    'events: while session.len() < LIMIT {
        let Some(event) = follow.take() else {
            return Ok(true);
        };
        append(session, event)?;
    }
    Ok(follow.ready() == 0)
}

/// Why the file is refused, if it is.
fn refusal_in(follow: &Follow) -> Option<Refusal>
    ensures { result ≡ said.refusal_in follow.now.outcome }
{
    match follow.finish() {
        Err(FollowFault::Edn { at, cause }) => Some(Refusal::Edn { at, cause }),
        Err(FollowFault::Event { at, cause }) => Some(Refusal::Event { at, cause }),
        _ => None,
    }
}

/// Takes in a piece of the file; a fault of form is kept.
fn feed(follow: &mut Follow, piece: &[u8], names: &mut Names) -> Result<(), RunFault>
    ensures names { AreMore names.old names.new }
    ensures fed { IfOk result (λ _. (more : List EventOf) × IsTakenIn names.new follow.old piece.now follow.new more) }
    ensures faults { IfErr result (λ fault. (fault ≡ RunFault.OutOfMemory) ⊎ (fault ≡ RunFault.TooMuch)) }
    ensures too_much { IsErrOf result RunFault.TooMuch → IsTooMuch follow.old piece.now }
{
    let fed = follow.feed(piece, names);
    names_are_apart(names);
    match fed {
        Ok(_) | Err(FollowFault::Edn { .. } | FollowFault::Event { .. }) => Ok(()),
        Err(FollowFault::TooMuch) => Err(RunFault::TooMuch),
        Err(FollowFault::OutOfMemory) => Err(RunFault::OutOfMemory),
        Err(FollowFault::Truncated { .. }) => unreachable!(),
    }
}

/// Puts the events that are ready into the history, and tells why no more may be read, if it may not.
fn put_in(session: &mut Session, follow: &mut Follow) -> Result<Option<Refusal>, OutOfMemory>
    ensures { IfOk result (λ refused. (entered : List EventOf) × Enters session.old.present session.new.present follow.old follow.new entered
        × IsStop refused session.new.present follow.new) }
{
    if !put_ready(session, follow)? {
        return Ok(Some(Refusal::Full));
    }
    Ok(refusal_in(follow))
}

/// Reads the file to its present end, or until it is refused or not all of its events fit, and puts its events into the history.
///
/// Errors: `ReadFailed`; want of memory; `TooMuch` where the file has more than 1,099,511,627,776 bytes.
pub fn pull<R: Read>(
    session: &mut Session,
    follow: &mut Follow,
    file: &mut Counted<R>,
    names: &mut Names,
) -> Result<Option<Refusal>, RunFault>
    requires { failures_of file.old < u64.MAX }
    ensures pulled { IfOk result (λ refused. (keyed : Bool) (before : RunState)
        → StandsAt keyed before session.old.present names.old follow.old (R.remaining (device_of file.old))
        → (after : RunState) × StandsAt keyed after session.new.present names.new follow.new (R.remaining (device_of file.new)) × IsPull keyed before after refused) }
    ensures reads { ReadsPart names.old names.new follow.old (R.remaining (device_of file.old)) (R.remaining (device_of file.new)) (IsErrOf result RunFault.TooMuch) }
    ensures counts { Counts (is_read_failed result) (failures_of file.old) (failures_of file.new) }
    ensures readers { IsErrOf result RunFault.WriteFailed → ⊥ }
{
    names_grow();
    names_are_apart(names);
    let mut piece = [0u8; PIECE];
    'pieces: for _ in 0..u64::MAX {
        if let Some(refusal) = put_in(session, follow)? {
            return Ok(Some(refusal));
        }
        let Ok(count) = file.read(&mut piece) else {
            return Err(RunFault::ReadFailed);
        };
        if count == 0 {
            return Ok(None);
        }
        feed(follow, &piece[..count], names)?;
    }
    Err(RunFault::TooMuch)
}
