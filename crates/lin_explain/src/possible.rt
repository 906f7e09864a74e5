//! What was possible before a failure.
ghost use Rattle.std.specs.Prelude.{◌≡◌, ◌++◌, ℕ, List, IfOk, OnOk, map, option_map};
ghost use Rattle.lin_possibilities.specs.Outcomes.{HasNotCrashed, failing_of};
ghost use Rattle.lin_possibilities.specs.Texts.{outcomes_text};
ghost use Rattle.lin_explain.specs.inner.Known.{ArePossible};
ghost use Rattle.lin_explain.specs.inner.Laws.{IsLegalHistory};
ghost use Rattle.lin_explain.specs.Possible.{AreChoices, IsPossibleText};

use crate::parts::Choices;
use lin_events::OutOfMemory;
use lin_possibilities::{Before, Listed, Outcomes, Possible, outcomes_of, put_outcomes};
use std::alloc::{AllocError, Global};

/// What is told to be possible, in parts.
#[derive(Drop)]
pub(crate) struct Possibilities {
    pub(crate) replies: Choices,
    pub(crate) states: Choices,
}

/// The same words.
fn copy_of(alloc: Global, whole: &[Vec<u8>]) -> Result<Vec<Vec<u8>>, AllocError>
    ensures { IfOk result (λ all. map (λ words. words.items) all.items ≡ map (λ words. words.items) whole.now) }
{
    let mut all = Vec::new(alloc);
    for words in whole {
        all.push(Vec::from_slice(alloc, words.as_slice())?)?;
    }
    Ok(all)
}

/// What is listed, by its whole words, if it is known.
fn choices_of(alloc: Global, listed: Option<&Listed>) -> Result<Choices, AllocError>
    ensures { IfOk result (AreChoices (option_map (λ l. l.now) listed.entry)) }
{
    match listed {
        Some(listed) => {
            Ok(Choices {
                count: Some(listed.count),
                some: copy_of(alloc, listed.whole.as_slice())?,
            })
        }
        None => {
            Ok(Choices {
                count: None,
                some: Vec::new(alloc),
            })
        }
    }
}

/// The replies among the outcomes, if these are known.
fn replies_in(outcomes: Option<&Outcomes>) -> Option<&Listed>
    ensures { option_map (λ l. l.now) result ≡ option_map (λ o. o.now.replies) outcomes.entry }
{
    match outcomes {
        Some(outcomes) => Some(&outcomes.replies),
        None => None,
    }
}

/// The states among the outcomes, if these are known.
fn states_in(outcomes: Option<&Outcomes>) -> Option<&Listed>
    ensures { option_map (λ l. l.now) result ≡ option_map (λ o. o.now.states) outcomes.entry }
{
    match outcomes {
        Some(outcomes) => Some(&outcomes.states),
        None => None,
    }
}

/// Puts the lines on what was possible last.
fn put_told(
    alloc: Global,
    text: &mut Vec<u8>,
    before: &Before,
    outcomes: Option<&Outcomes>,
    prefix: usize,
    budget: u32,
) -> Result<Possibilities, OutOfMemory>
    ensures put { OnOk result (text.new.items ≡ text.old.items ++ outcomes_text (failing_of before.now) prefix budget (option_map (λ o. o.now) outcomes.entry)) }
    ensures replies { IfOk result (λ told. AreChoices (option_map (λ o. o.now.replies) outcomes.entry) told.replies) }
    ensures states { IfOk result (λ told. AreChoices (option_map (λ o. o.now.states) outcomes.entry) told.states) }
{
    put_outcomes(text, before, outcomes, prefix, budget)?;
    let replies = choices_of(alloc, replies_in(outcomes))?;
    let states = choices_of(alloc, states_in(outcomes))?;
    Ok(Possibilities { replies, states })
}

/// Puts the lines last on what the failing operation could have returned, and what the object could be before its end.
pub(crate) fn put_possible(
    alloc: Global,
    text: &mut Vec<u8>,
    before: &Before,
    possible: Option<Possible>,
    prefix: usize,
    budget: u32,
) -> Result<Possibilities, OutOfMemory>
    requires known { ArePossible before.now.kind before.now.events.now budget possible }
    requires legal { IsLegalHistory before.now.kind before.now.events.now }
    requires uncrashed { HasNotCrashed before.now.events.now before.now.process }
    ensures { IfOk result (λ told. (lines : List ℕ) × IsPossibleText before.now.names.now (failing_of before.now) prefix budget lines told.replies told.states × (text.new.items ≡ text.old.items ++ lines)) }
{
    match possible {
        Some(possible) => {
            let outcomes = outcomes_of(alloc, before, &possible)?;
            put_told(alloc, text, before, Some(&outcomes), prefix, budget)
        }
        None => put_told(alloc, text, before, None, prefix, budget),
    }
}
