//! The library for C: `adapters/c/lincheck.h` declares it.
#![tactic(auto)]

ghost use Rattle.std.specs.Prelude.{◌≡◌, None};
ghost use Rattle.lin_embedded.specs.Calls.{Ends, EndsExplained, IsAbsent, IsExplanationOf, IsReportOf};
ghost use Rattle.lin_embedded.specs.Options.{AreOptions, NamesNone};
ghost use Rattle.lin_embedded.specs.Sessions.{AsksAs, Begins, Calls, FeedsAs, Numbered, OrdersAs};

use lin_embedded::{Handle, Options};
use std::alloc::Global;

/// Tells whether the history of these bytes is linearizable. The number says how the call ends.
#[unsafe(no_mangle)]
pub extern "C" fn lincheck_check(
    alloc: Global,
    options: &Options,
    history: &[u8],
    room: &mut [u8],
    needed: &mut usize,
) -> u32
    ensures { Ends (IsReportOf options.now history.now) (AreOptions options.now) room.old room.new needed.old needed.new result }
{
    lin_embedded::check(alloc, *options, history, room, needed).number()
}

/// Tells why that is so, for the object of the key that a text names, or for the whole where that text is empty. Nothing is told where no event of a whole
/// history has the key.
#[unsafe(no_mangle)]
pub extern "C" fn lincheck_explain(
    alloc: Global,
    options: &Options,
    history: &[u8],
    key: &[u8],
    room: &mut [u8],
    needed: &mut usize,
) -> u32
    ensures { EndsExplained (IsExplanationOf options.now key.now history.now) (IsAbsent options.now key.now history.now) (AreOptions options.now × (NamesNone key.now → ⊥)) room.old room.new needed.old needed.new result }
{
    lin_embedded::explain(alloc, *options, history, key, room, needed).number()
}

/// Begins a session with no bytes, in a handle that is null or holds one, which is freed. The number says how the call ends.
#[unsafe(no_mangle)]
pub extern "C" fn lincheck_session_new(
    alloc: Global,
    options: &Options,
    session: &mut Handle,
) -> u32
    ensures { Numbered (Begins options.now session.old.value session.new.value) result }
{
    lin_embedded::session_new(alloc, *options, session).number()
}

/// Takes in the next piece of a history, cut anywhere, and tells how many events count.
#[unsafe(no_mangle)]
pub extern "C" fn lincheck_session_feed(
    alloc: Global,
    session: &mut Handle,
    piece: &[u8],
    events: &mut u64,
) -> u32
    ensures { Numbered (Calls (FeedsAs piece.now events.old events.new) (events.new ≡ events.old) session.old.value session.new.value) result }
{
    lin_embedded::session_feed(alloc, session, piece, events).number()
}

/// Tells whether the history is linearizable that the bytes say so far.
#[unsafe(no_mangle)]
pub extern "C" fn lincheck_session_ask(alloc: Global, session: &mut Handle, at: &mut u64) -> u32
    ensures { Numbered (Calls (AsksAs at.old at.new) (at.new ≡ at.old) session.old.value session.new.value) result }
{
    lin_embedded::session_ask(alloc, session, at).number()
}

/// The same, with the text of a legal order for a yes.
#[unsafe(no_mangle)]
pub extern "C" fn lincheck_session_order(
    alloc: Global,
    session: &mut Handle,
    room: &mut [u8],
    needed: &mut usize,
) -> u32
    ensures { Numbered (Calls (OrdersAs room.old room.new needed.old needed.new) ((room.new ≡ room.old) × (needed.new ≡ needed.old)) session.old.value session.new.value) result }
{
    lin_embedded::session_order(alloc, session, room, needed).number()
}

/// Frees the session, if the handle holds one, and makes the handle null.
#[unsafe(no_mangle)]
pub extern "C" fn lincheck_session_free(alloc: Global, session: &mut Handle)
    ensures { session.new.value ≡ None }
{
    lin_embedded::session_free(alloc, session);
}
