//! Calls on a session that a caller holds by a handle.
ghost use Rattle.std.specs.Prelude.{◌≡◌, None};
ghost use Rattle.lin_report.specs.Reports.{answer_status};
ghost use Rattle.lin_embedded.specs.Sessions.{AsksAs, Begins, Calls, FeedsAs, OrdersAs};
ghost use Rattle.lin_embedded.specs.Sessions as said;

use crate::handing::{CallEnd, Found, hand_back};
use crate::handle::Handle;
use crate::options::{Options, are_options, settings_of};
use lin_answers::Verdict;
use lin_report::Status;
use std::alloc::Global;

/// The status of a run that ends with the verdict.
fn status_of(verdict: Verdict) -> Status
    ensures { result ≡ answer_status verdict }
{
    match verdict {
        Verdict::IllFormed { .. } => Status::IllFormed,
        Verdict::Yes => Status::Yes,
        Verdict::No { .. } => Status::No,
        Verdict::Undecided { .. } => Status::Undecided,
    }
}

/// Puts there where the verdict points to, if anywhere.
fn put_place(verdict: Verdict, at: &mut u64)
    ensures { at.new ≡ said.place_of verdict at.old }
{
    match verdict {
        Verdict::Yes => {}
        Verdict::No { prefix } => *at = prefix as u64,
        Verdict::IllFormed { at: place, .. } => *at = place as u64,
        Verdict::Undecided { at: place } => *at = place as u64,
    }
}

/// Begins a session with no bytes. What the handle held is freed, where the options say something.
pub fn session_new(alloc: Global, options: Options, session: &mut Handle) -> CallEnd
    ensures { Begins options session.old.value session.new.value result }
{
    if !are_options(options) {
        return CallEnd::BadOptions;
    }
    match session.open(alloc, settings_of(options)) {
        Ok(()) => CallEnd::Done,
        Err(_) => CallEnd::OutOfMemory,
    }
}

/// Takes in the next piece of a history, cut anywhere, and tells how many events count. `Refused` where no more will: for a fault of form, or since
/// there are more than 1,000,000.
pub fn session_feed(alloc: Global, session: &mut Handle, piece: &[u8], events: &mut u64) -> CallEnd
    ensures { Calls (FeedsAs piece.now events.old events.new) (events.new ≡ events.old) session.old.value session.new.value result }
{
    let Some(fed) = session.feed(alloc, piece) else {
        return CallEnd::NoSession;
    };
    let Ok(intake) = fed else {
        return CallEnd::OutOfMemory;
    };
    *events = intake.events as u64;
    if intake.is_refused {
        CallEnd::Told(Status::Refused)
    } else {
        CallEnd::Done
    }
}

/// Tells whether the history is linearizable that the bytes say so far, and where a verdict points to.
pub fn session_ask(alloc: Global, session: &mut Handle, at: &mut u64) -> CallEnd
    ensures { Calls (AsksAs at.old at.new) (at.new ≡ at.old) session.old.value session.new.value result }
{
    let Some(found) = session.ask(alloc) else {
        return CallEnd::NoSession;
    };
    let Ok(verdict) = found else {
        return CallEnd::OutOfMemory;
    };
    put_place(verdict, at);
    CallEnd::Told(status_of(verdict))
}

/// The same, with a legal order for a yes: its text, as `verify` reads it, is put into the beginning of the room, and its length into `needed`. Of
/// another verdict there is no text.
pub fn session_order(
    alloc: Global,
    session: &mut Handle,
    room: &mut [u8],
    needed: &mut usize,
) -> CallEnd
    ensures { Calls (OrdersAs room.old room.new needed.old needed.new) ((room.new ≡ room.old) × (needed.new ≡ needed.old)) session.old.value session.new.value result }
{
    let Some(found) = session.order(alloc) else {
        return CallEnd::NoSession;
    };
    let Ok(ordered) = found else {
        return CallEnd::OutOfMemory;
    };
    let found = Found {
        status: status_of(ordered.verdict),
        text: ordered.order,
    };
    hand_back(&found, room, needed)
}

/// Frees the session; the handle holds none.
pub fn session_free(alloc: Global, session: &mut Handle)
    ensures { session.new.value ≡ None }
{
    session.free(alloc);
}
