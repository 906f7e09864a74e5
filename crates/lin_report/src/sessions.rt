//! Sessions that are told the events of a file, and names.
ghost use Rattle.std.specs.Prelude.{◌≡◌, ◌<◌, ◌≤◌, ◌∷◌, ◌++◌, [], IfOk, OnOk, length};
ghost use Rattle.lin_formats.specs.Inputs.{limit};
ghost use Rattle.lin_names.specs.Names.{AreEachOnce};
ghost use Rattle.lin_report.specs.Reports.{opened};

use lin_answers::{Edit, EditFault};
use lin_events::{Event, OutOfMemory};
use lin_formats::Settings;
use lin_names::Names;
use lin_session::Session;
use std::alloc::Global;

/// A session with no event.
pub fn open(alloc: Global, settings: Settings) -> Session
    requires { (1 ≤ settings.budget) × (settings.budget ≤ 1000000) }
    ensures { result.present ≡ opened settings [] }
{
    let Ok(session) = Session::new(alloc, settings.kind, settings.budget) else {
        unreachable!()
    };
    session
}

/// Puts an event last, where there is room.
pub fn append(session: &mut Session, event: Event) -> Result<(), OutOfMemory>
    requires { length session.old.present.history < limit }
    ensures { OnOk result (session.new.present ≡ record session.old.present { history = session.old.present.history ++ event ∷ [] }) }
{
    match session.apply(Edit::Append(event)) {
        Ok(()) => Ok(()),
        Err((_, EditFault::OutOfMemory)) => Err(OutOfMemory),
        Err(_) => unreachable!(),
    }
}

/// A session with these events.
pub fn session_of(
    alloc: Global,
    settings: Settings,
    events: Vec<Event>,
) -> Result<Session, OutOfMemory>
    requires budget { (1 ≤ settings.budget) × (settings.budget ≤ 1000000) }
    requires few { length events.items ≤ limit }
    ensures { IfOk result (λ session. session.present ≡ opened settings events.items) }
{
    let Ok(session) = Session::of(alloc, settings.kind, settings.budget, events) else {
        unreachable!()
    };
    Ok(session)
}

/// No spelling has two numbers. The function does nothing.
pub fn names_are_apart(names: &Names)
    ensures { AreEachOnce names.now }
{
    names.len();
}
