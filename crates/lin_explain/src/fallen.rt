//! The object that a no is about.
ghost use Rattle.std.specs.Prelude.{◌≡◌, ◌≤◌, ◌+◌, ◌*◌, length, IfOk, OnOk};
ghost use Rattle.lin_events.specs.Meters.{ticked};
ghost use Rattle.lin_answers.specs.Answers.{IsAnswer};
ghost use Rattle.lin_answers.specs.declared.answers.Answer.{Answer as AnswerOf};
ghost use Rattle.lin_answers.specs.declared.answers.Scope.{Scope as ScopeOf};
ghost use Rattle.lin_explain.specs.inner.Fallen.{IsFallen};

use crate::heads::kind_for;
use crate::laws::noes_fail;
use crate::own::{Own, own_from, own_of};
use lin_answers::{Present, WholeHistory};
use lin_events::{Event, Meter, OutOfMemory};
use lin_objects::Kind;
use std::alloc::Global;

/// An object whose legal orders end, apart from the history: its events up to the one with which they do.
#[derive(Drop)]
pub(crate) struct Fallen {
    pub(crate) kind: Kind,
    /// How many configurations may be kept.
    pub(crate) budget: u32,
    /// The event with which its legal orders end.
    pub(crate) ending: Event,
    pub(crate) own: Own,
}

/// The object that a no is about, which names the shortest failing prefix.
pub(crate) fn fallen_of(
    alloc: Global,
    present: &Present<'_>,
    prefix: usize,
    meter: &mut Meter,
) -> Result<Fallen, OutOfMemory>
    requires { (scope : ScopeOf) × IsAnswer present.now scope (AnswerOf.No prefix) }
    ensures fallen { IfOk result (IsFallen present.now prefix) }
    ensures few { IfOk result (λ fallen. length fallen.own.events.items ≤ prefix) }
    ensures counted { OnOk result (meter.new ≡ record meter.old { steps = ticked meter.old.steps prefix }) }
    ensures least { meter.old.steps ≤ meter.new.steps }
    ensures most { meter.new.steps ≤ meter.old.steps + prefix }
    ensures scans { meter.new.scans ≡ meter.old.scans }
{
    let Some(ending) = present.event(prefix - 1) else {
        unreachable!()
    };
    let kind = kind_for(present, ending);
    noes_fail(kind);
    let own = own_of(alloc, present, ending, prefix, meter)?;
    let ending = ending.copy(alloc)?;
    Ok(Fallen {
        kind,
        budget: present.budget(),
        ending,
        own,
    })
}

/// The same where the history isn't needed any more: the rest of it goes before more memory is taken.
pub(crate) fn fallen_from(
    alloc: Global,
    history: WholeHistory,
    prefix: usize,
    meter: &mut Meter,
) -> Result<Fallen, OutOfMemory>
    requires { (scope : ScopeOf) × IsAnswer history scope (AnswerOf.No prefix) }
    ensures fallen { IfOk result (IsFallen history prefix) }
    ensures few { IfOk result (λ fallen. length fallen.own.events.items ≤ prefix) }
    ensures counted { OnOk result (meter.new ≡ record meter.old { steps = ticked meter.old.steps (2 * prefix) }) }
    ensures least { meter.old.steps ≤ meter.new.steps }
    ensures most { meter.new.steps ≤ meter.old.steps + 2 * prefix }
    ensures scans { meter.new.scans ≡ meter.old.scans }
{
    let present = history.present();
    let Some(ending) = present.event(prefix - 1) else {
        unreachable!()
    };
    let kind = kind_for(&present, ending);
    noes_fail(kind);
    let budget = present.budget();
    let ending = ending.copy(alloc)?;
    let own = own_from(alloc, history, ending.key, prefix, meter)?;
    Ok(Fallen {
        kind,
        budget,
        ending,
        own,
    })
}
