//! The lines that tell what was possible.
ghost use Rattle.std.specs.Prelude.{◌≡◌, ◌++◌, ◌-◌, Bool, List, MatchOption, None, OnOk, map, option_map};
ghost use Rattle.lin_events.specs.declared.items.Item.{Item as ItemOf};
ghost use Rattle.lin_events.specs.declared.calls.Name.{Name as NameOf};
ghost use Rattle.lin_events.specs.declared.events.Event.{Event as EventOf};
ghost use Rattle.lin_events.specs.WellFormed.{IsWellFormed};
ghost use Rattle.lin_objects.specs.declared.states.State.{State as StateOf};
ghost use Rattle.lin_possibilities.specs.After.{IsAfter};
ghost use Rattle.lin_possibilities.specs.Outcomes.{AreStates, failing_of};
ghost use Rattle.lin_possibilities.specs.Texts.{after_first, being_text, could_be, counted, listed_text, more_text, not_listed, noun_text, outcomes_text, replies_text, right_text, states_text, was_text, which_text};
ghost use Rattle.lin_tables.specs.Values.{state_text};
ghost use Rattle.lin_possibilities.specs.declared.words.Extent.TheVariants.{Short};
ghost use Rattle.lin_possibilities.specs.inner.OutcomesTelling.{words_in};

use crate::listing::Listed;
use crate::outcomes::{Before, Outcomes};
use crate::possible::Possible;
use crate::told::{Told, states_told};
use crate::words::Extent;
use lin_events::{OutOfMemory, Reply};
use lin_names::Names;
use lin_objects::Kind;
use lin_tables::put_list;
use lin_texts::put_number;
use std::alloc::{AllocError, Global};

/// What an object is called.
fn noun(kind: Kind) -> &'static str
    ensures { result.now ≡ noun_text kind }
{
    match kind {
        Kind::Register | Kind::CasRegister => "register",
        Kind::Fifo | Kind::Bag => "queue",
        Kind::Set => "set",
        Kind::Mutex => "lock",
    }
}

/// Puts a number last, and what stands ahead of it and behind it.
fn put_counted(
    text: &mut Vec<u8>,
    ahead: &[u8],
    number: usize,
    behind: &[u8],
) -> Result<(), AllocError>
    ensures { OnOk result (text.new.items ≡ text.old.items ++ counted ahead.now number behind.now) }
{
    text.extend_from_slice(ahead)?;
    put_number(text, number as u64)?;
    text.extend_from_slice(behind)
}

/// Puts the line last that says how many more there are, if there are any.
fn put_more(text: &mut Vec<u8>, more: usize) -> Result<(), AllocError>
    ensures { OnOk result (text.new.items ≡ text.old.items ++ more_text more) }
{
    if more == 0 {
        return Ok(());
    }
    put_counted(text, b"  and ", more, b" more\n")
}

/// Puts the lines of a list last, and how many more there are.
fn put_listed(text: &mut Vec<u8>, listed: &Listed) -> Result<(), AllocError>
    ensures { OnOk result (text.new.items ≡ text.old.items ++ listed_text listed.now) }
{
    put_list(text, listed.entries.as_slice())?;
    put_more(text, listed.count.saturating_sub(listed.entries.len()))
}

/// Puts last that something isn't listed, since there are more configurations than the budget.
fn put_not_listed(text: &mut Vec<u8>, budget: u32) -> Result<(), AllocError>
    ensures { OnOk result (text.new.items ≡ text.old.items ++ not_listed budget) }
{
    put_counted(
        text,
        b" isn't listed: more than ",
        budget as usize,
        b" configurations\n",
    )
}

/// Puts last after how many events something is.
fn put_after_first(text: &mut Vec<u8>, count: usize) -> Result<(), AllocError>
    ensures { OnOk result (text.new.items ≡ text.old.items ++ after_first count) }
{
    put_counted(text, b"after the first ", count, b" events")
}

/// Puts last that the object could be something.
fn put_could_be(text: &mut Vec<u8>, kind: Kind) -> Result<(), AllocError>
    ensures { OnOk result (text.new.items ≡ text.old.items ++ could_be kind) }
{
    text.extend_from_slice(b"the ")?;
    text.extend_from_slice(noun(kind).as_bytes())?;
    text.extend_from_slice(b" could be")
}

/// Puts the lines last that tell which replies are right, of all that are.
fn put_right(text: &mut Vec<u8>, replies: &Listed, count: usize) -> Result<(), AllocError>
    ensures { OnOk result (text.new.items ≡ text.old.items ++ right_text count replies.now) }
{
    if replies.count == 0 {
        return put_counted(
            text,
            b"no legal order of the first ",
            count,
            b" events places it\n",
        );
    }
    text.extend_from_slice(b"it could have returned:\n")?;
    put_listed(text, replies)
}

/// Puts the lines last that tell what the failing operation could have returned.
fn put_replies(
    text: &mut Vec<u8>,
    recorded: Option<&Reply>,
    outcomes: Option<&Outcomes>,
    count: usize,
    budget: u32,
) -> Result<(), AllocError>
    ensures { OnOk result (text.new.items ≡ text.old.items ++ replies_text (option_map (λ r. r.now) recorded.entry) count budget (option_map (λ o. o.now) outcomes.entry)) }
{
    if recorded.is_none() {
        return put_counted(
            text,
            b"each legal order of the first ",
            count,
            b" events places it\n",
        );
    }
    match outcomes {
        Some(outcomes) => put_right(text, &outcomes.replies, count),
        None => {
            text.extend_from_slice(b"what it could have returned")?;
            put_not_listed(text, budget)
        }
    }
}

/// Puts last what the object could be, behind the words that say so.
fn put_being(text: &mut Vec<u8>, outcomes: &Outcomes) -> Result<(), AllocError>
    ensures { OnOk result (text.new.items ≡ text.old.items ++ being_text outcomes.now) }
{
    if outcomes.is_just_that {
        return text.extend_from_slice(b" just that\n");
    }
    text.extend_from_slice(b":\n")?;
    put_listed(text, &outcomes.states)
}

/// Puts the lines last that tell what the object could be.
fn put_states(
    text: &mut Vec<u8>,
    kind: Kind,
    outcomes: Option<&Outcomes>,
    count: usize,
    budget: u32,
) -> Result<(), AllocError>
    ensures { OnOk result (text.new.items ≡ text.old.items ++ states_text kind count budget (option_map (λ o. o.now) outcomes.entry)) }
{
    match outcomes {
        Some(outcomes) => {
            put_after_first(text, count)?;
            text.push(b' ')?;
            put_could_be(text, kind)?;
            put_being(text, outcomes)
        }
        None => {
            text.extend_from_slice(b"what ")?;
            put_could_be(text, kind)?;
            text.push(b' ')?;
            put_after_first(text, count)?;
            put_not_listed(text, budget)
        }
    }
}

/// Puts the lines last that tell what the failing operation could have returned, and what the object could be before its end. The end
/// is the last event of the prefix of that length. Without outcomes there are more configurations than the budget.
pub fn put_outcomes(
    text: &mut Vec<u8>,
    before: &Before,
    outcomes: Option<&Outcomes>,
    prefix: usize,
    budget: u32,
) -> Result<(), AllocError>
    ensures { OnOk result (text.new.items ≡ text.old.items ++ outcomes_text (failing_of before.now) prefix budget (option_map (λ o. o.now) outcomes.entry)) }
{
    let count = prefix.saturating_sub(1);
    put_replies(text, before.recorded, outcomes, count, budget)?;
    put_states(text, before.kind, outcomes, count, budget)
}

/// Puts a state last, as lines tell it.
fn put_state(
    alloc: Global,
    text: &mut Vec<u8>,
    names: &Names,
    state: &Told,
) -> Result<(), AllocError>
    ensures { OnOk result (text.new.items ≡ text.old.items ++ words_in Short names.now None state.now.what) }
{
    let words = state.what.words(alloc, Extent::Short, names, None)?;
    text.extend_from_slice(words.as_slice())
}

/// Puts last which states there are: both of two, or how many of more.
fn put_which(
    alloc: Global,
    text: &mut Vec<u8>,
    names: &Names,
    states: &[Told],
) -> Result<(), AllocError>
    ensures { OnOk result (text.new.items ≡ text.old.items ++ which_text (map (λ t. words_in Short names.now None t.what) states.now)) }
{
    match states {
        [] => Ok(()),
        [one] => put_state(alloc, text, names, one),
        [one, other] => {
            put_state(alloc, text, names, one)?;
            text.extend_from_slice(b" or ")?;
            put_state(alloc, text, names, other)
        }
        _ => put_counted(text, b"one of ", states.len(), b" states"),
    }
}

/// Puts last that the object was one of the states.
fn put_being_one(
    alloc: Global,
    text: &mut Vec<u8>,
    names: &Names,
    kind: Kind,
    states: &[Told],
) -> Result<(), AllocError>
    ensures { OnOk result (text.new.items ≡ text.old.items ++ was_text kind (map (λ t. words_in Short names.now None t.what) states.now)) }
{
    text.extend_from_slice(b" and the ")?;
    text.extend_from_slice(noun(kind).as_bytes())?;
    text.extend_from_slice(b" was ")?;
    put_which(alloc, text, names, states)
}

/// Puts last what the object was, by what is possible after some events; nothing where that isn't known.
pub fn put_was(
    alloc: Global,
    text: &mut Vec<u8>,
    names: &Names,
    kind: Kind,
    possible: Option<&Possible>,
) -> Result<(), OutOfMemory>
    ensures { OnOk result (MatchOption possible.entry (text.new.items ≡ text.old.items) (λ p. (functions : ItemOf → NameOf → Bool) (h : List EventOf) → IsWellFormed functions h → IsAfter p.now kind h
        → (states : List StateOf) × AreStates names.now kind h states × (text.new.items ≡ text.old.items ++ was_text kind (map (state_text names.now) states)))) }
{
    let Some(possible) = possible else {
        return Ok(());
    };
    let states = states_told(alloc, names, possible)?;
    put_being_one(alloc, text, names, kind, states.as_slice())?;
    Ok(())
}
