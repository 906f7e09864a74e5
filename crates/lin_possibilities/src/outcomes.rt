//! What an operation could have returned, and what the object could be.
ghost use Rattle.std.specs.Prelude.{◌≡◌, Bool, IfOk, option_map};
ghost use Rattle.lin_events.specs.declared.items.Item.{Item as ItemOf};
ghost use Rattle.lin_events.specs.declared.calls.Name.{Name as NameOf};
ghost use Rattle.lin_events.specs.WellFormed.{IsWellFormed};
ghost use Rattle.lin_possibilities.specs.After.{IsAfter};
ghost use Rattle.lin_possibilities.specs.Outcomes.{AreOutcomes, HasNotCrashed, failing_of, most_of};

use crate::listing::{Leading, Listed, listed_of};
use crate::possible::Possible;
use crate::told::{are_same_words, replies_told, states_told};
use lin_events::{Event, OutOfMemory, Reply};
use lin_names::Names;
use lin_objects::Kind;
use std::alloc::Global;

/// So many states and replies are listed.
const LISTED: usize = 3;

/// The events before the end of a failing operation, and that operation.
#[derive(Clone, Copy)]
pub struct Before<'a> {
    /// The spellings of words.
    pub names: &'a Names,
    pub kind: Kind,
    pub events: &'a [Event],
    /// Where the failing operation was invoked.
    pub call: usize,
    pub process: u64,
    /// The reply that its end has; `None` where it is a fail.
    pub recorded: Option<&'a Reply>,
}

/// What a failing operation could have returned, and what the object could be before its end.
#[derive(Drop)]
pub struct Outcomes {
    /// Where the end is a fail, they are only counted.
    pub replies: Listed,
    pub states: Listed,
    /// Whether the words of all states are, one by one, those of all replies.
    pub(crate) is_just_that: bool,
}

/// So many replies are listed: none where the end is a fail.
fn most_replies(recorded: Option<&Reply>) -> usize
    ensures { result ≡ most_of (option_map (λ r. r.now) recorded.entry) }
{
    match recorded {
        Some(_) => LISTED,
        None => 0,
    }
}

/// What the failing operation could have returned, and what the object could be, by what is possible after the events.
pub fn outcomes_of(
    alloc: Global,
    before: &Before,
    possible: &Possible,
) -> Result<Outcomes, OutOfMemory>
    requires after { IsAfter possible.now before.now.kind before.now.events.now }
    requires well_formed { (functions : ItemOf → NameOf → Bool) × IsWellFormed functions before.now.events.now }
    requires running { HasNotCrashed before.now.events.now before.now.process }
    ensures { IfOk result (λ outcomes. AreOutcomes before.now.names.now (failing_of before.now) outcomes) }
{
    let replies = replies_told(
        alloc,
        before.names,
        possible,
        before.process,
        before.recorded,
    )?;
    let states = states_told(alloc, before.names, possible)?;
    let is_just_that = are_same_words(
        alloc,
        before.names,
        before.recorded,
        replies.as_slice(),
        states.as_slice(),
    )?;
    let mut leading = Leading {
        names: before.names,
        events: before.events,
        possible,
        recorded: before.recorded,
        call: Some(before.call),
    };
    let replies = listed_of(
        alloc,
        &leading,
        replies.as_slice(),
        most_replies(before.recorded),
    )?;
    leading.call = None;
    let states = listed_of(alloc, &leading, states.as_slice(), LISTED)?;
    Ok(Outcomes {
        replies,
        states,
        is_just_that,
    })
}
