//! Which operations a table shows.
ghost use Rattle.std.specs.Prelude.{◌≡◌, ◌∷◌, ◌++◌, [], ◌<◌, List, length, AllPairs, IfOk};
ghost use Rattle.lin_order.specs.Tables.{IsNextTable};
ghost use Rattle.lin_tables.specs.declared.marks.Chosen.{Chosen as ChosenOf};
ghost use Rattle.lin_tables.specs.Choices.{IsHindmost, TakesIn};
ghost use Rattle.lin_tables.specs.WindowTables.{HasMark, IsChoice, IsEarlier, listing_of};

use crate::marks::{Chosen, ListedOperations, is_ahead, mark_of};
use lin_events::Event;
use std::alloc::{AllocError, Global};

/// So many operations are shown.
const SHOWN: usize = 8;

/// The operations that a table shows, and how many are left out.
#[derive(Drop)]
pub(crate) struct Choice {
    pub(crate) shown: Vec<Chosen>,
    pub(crate) more: usize,
}

/// The place of the one that is chosen last of all.
fn hindmost(listed: &ListedOperations, chosen: &[Chosen]) -> usize
    requires some { 0 < length chosen.now }
    requires rising { AllPairs IsEarlier chosen.now }
    ensures { IsHindmost (listing_of listed.now) chosen.now result }
{
    let mut last = 0;
    for at in 1..chosen.len() {
        if is_ahead(listed, chosen[last], chosen[at]) {
            last = at;
        }
    }
    last
}

/// Puts a later operation last. Of more than eight the one that is chosen last is left out, which the answer says.
fn take_in(
    listed: &ListedOperations,
    shown: &mut Vec<Chosen>,
    new: Chosen,
) -> Result<bool, AllocError>
    requires { AllPairs IsEarlier (shown.old.items ++ new ∷ []) }
    ensures { IfOk result (λ left. TakesIn (listing_of listed.now) (shown.old.items ++ new ∷ []) left shown.new.items) }
{
    shown.push(new)?;
    if shown.len() <= SHOWN {
        return Ok(false);
    }
    let last = hindmost(listed, shown.as_slice());
    let _ = shown.remove(last);
    Ok(true)
}

/// The operations that the table shows, and how many are left out.
pub(crate) fn choose(
    alloc: Global,
    events: &[Event],
    ends: &[Option<usize>],
    listed: &ListedOperations,
) -> Result<Choice, AllocError>
    requires { IsNextTable events.now ends.now }
    ensures { IfOk result (λ choice. (left : List ChosenOf) × (choice.more ≡ length left)
        × IsChoice (λ x. HasMark events.now (listing_of listed.now) x.at x.mark) (listing_of listed.now) choice.shown.items left) }
{
    let mut shown = Vec::new(alloc);
    let mut more = 0;
    for at in 0..events.len() {
        let Some(mark) = mark_of(events, ends, listed, at) else {
            continue;
        };
        let is_over = take_in(listed, &mut shown, Chosen { at, mark })?;
        if is_over {
            more += 1;
        }
    }
    Ok(Choice { shown, more })
}
