//! The lines of an explanation.
ghost use Rattle.std.specs.Prelude.{◌≡◌, ◌≤◌, ◌+◌, ◌*◌, ◌++◌, ℕ, List, IfOk, OnOk, length, option_map};
ghost use Rattle.lin_events.specs.Meters.{ticked};
ghost use Rattle.lin_answers.specs.Answers.{IsAnswer};
ghost use Rattle.lin_answers.specs.declared.answers.Answer.{Answer as AnswerOf};
ghost use Rattle.lin_answers.specs.declared.answers.Scope.{Scope as ScopeOf};
ghost use Rattle.lin_explain.specs.Explained.{Explains, scope_of};
ghost use Rattle.lin_explain.specs.Failures.{IsNoText};
ghost use Rattle.lin_explain.specs.Work.{least_steps, most_passes};
ghost use Rattle.lin_explain.specs.declared.parts.Failed.{Failed as FailedOf};
ghost use Rattle.lin_explain.specs.declared.parts.Parts.{Parts as PartsOf};

use crate::failures::put_no;
use crate::fallen::{fallen_from, fallen_of};
use crate::ill_formed::put_ill_formed;
use crate::parts::{Explanation, Parts};
use crate::spots::Origin;
use crate::undecided::put_undecided;
use crate::yes::put_yes;
use lin_answers::{Answer, Present, WholeHistory};
use lin_events::{Item, Meter, OutOfMemory};
use lin_names::Names;
use lin_texts::Place;
use std::alloc::Global;

/// What an explanation is asked about.
#[derive(Clone, Copy)]
pub struct Asked {
    /// The object of this key, or the whole.
    pub key: Option<Item>,
    /// Whether a yes ends with its order.
    pub with_order: bool,
    /// Whether values are read as pairs of a key and a value.
    pub keyed: bool,
}

/// Puts what explains the answer last, and gives the same in parts.
fn put_answer(
    alloc: Global,
    text: &mut Vec<u8>,
    present: &Present<'_>,
    answer: &Answer,
    asked: Asked,
    origin: &Origin,
    meter: &mut Meter,
) -> Result<Parts, OutOfMemory>
    requires { IsAnswer present.now (scope_of asked.key) answer.now }
    ensures told { IfOk result (λ parts. (lines : List ℕ) × Explains origin.now.names.now present.now asked (option_map (λ p. p.now) origin.now.places) answer.now lines parts
        × (text.new.items ≡ text.old.items ++ lines)) }
    ensures counted { OnOk result (ticked meter.old.steps (least_steps present.now answer.now) ≤ meter.new.steps) }
    ensures most { meter.new.steps ≤ meter.old.steps + most_passes answer.now * length present.now.history }
    ensures scans { meter.new.scans ≡ meter.old.scans }
{
    match answer {
        Answer::IllFormed { at, cause } => {
            put_ill_formed(alloc, text, present, *at, *cause, origin, meter)
        }
        Answer::Yes(order) => put_yes(
            alloc,
            text,
            origin.names,
            present,
            order.as_slice(),
            asked,
            meter,
        ),
        Answer::No { prefix } => {
            let fallen = fallen_of(alloc, present, *prefix, meter)?;
            let failed = put_no(alloc, text, &fallen, *prefix, origin, meter)?;
            Ok(Parts::No(failed))
        }
        Answer::Undecided { at } => put_undecided(
            alloc,
            text,
            present,
            *at,
            origin,
            asked.keyed,
            meter,
        ),
    }
}

/// An explanation of the answer: the lines that follow the answer's own, and what they say in parts.
///
/// A step is counted for each event that is looked at, as often as it is: of a yes ten times, once for each count; of a no once, to find those of
/// its object, then these four times, and as they are taken in, in all at most seven times; of what is undecided at most six times. What a search for a certificate looks at, and the keys, which are sorted, aren't
/// counted.
pub fn explanation_of(
    alloc: Global,
    present: &Present<'_>,
    names: &Names,
    answer: &Answer,
    asked: Asked,
    places: Option<&[Place]>,
    meter: &mut Meter,
) -> Result<Explanation, OutOfMemory>
    requires { IsAnswer present.now (scope_of asked.key) answer.now }
    ensures told { IfOk result (λ told. Explains names.now present.now asked (option_map (λ p. p.now) places.entry) answer.now told.lines.items told.parts) }
    ensures counted { OnOk result (ticked meter.old.steps (least_steps present.now answer.now) ≤ meter.new.steps) }
    ensures most { meter.new.steps ≤ meter.old.steps + most_passes answer.now * length present.now.history }
    ensures scans { meter.new.scans ≡ meter.old.scans }
{
    let mut lines = Vec::new(alloc);
    let origin = Origin { names, places };
    let parts = put_answer(alloc, &mut lines, present, answer, asked, &origin, meter)?;
    Ok(Explanation { lines, parts })
}

/// What explains a no, where the history isn't needed any more.
fn explained_no(
    alloc: Global,
    history: WholeHistory,
    origin: &Origin,
    prefix: usize,
    meter: &mut Meter,
) -> Result<Explanation, OutOfMemory>
    requires { (scope : ScopeOf) × IsAnswer history scope (AnswerOf.No prefix) }
    ensures told { IfOk result (λ told. (failed : FailedOf) × (told.parts ≡ PartsOf.No failed)
        × IsNoText origin.now.names.now history (option_map (λ p. p.now) origin.now.places) prefix told.lines.items failed) }
    ensures counted { OnOk result (ticked meter.old.steps (least_steps history (AnswerOf.No prefix)) ≤ meter.new.steps) }
    ensures most { meter.new.steps ≤ meter.old.steps + 10 * length history.history }
    ensures scans { meter.new.scans ≡ meter.old.scans }
{
    let fallen = fallen_from(alloc, history, prefix, meter)?;
    let mut lines = Vec::new(alloc);
    let failed = put_no(alloc, &mut lines, &fallen, prefix, origin, meter)?;
    Ok(Explanation {
        lines,
        parts: Parts::No(failed),
    })
}

/// As `explanation_of`, where the history isn't needed any more: of a no only the events of its object stay.
pub fn explanation_from(
    alloc: Global,
    history: WholeHistory,
    names: &Names,
    answer: &Answer,
    asked: Asked,
    places: Option<&[Place]>,
    meter: &mut Meter,
) -> Result<Explanation, OutOfMemory>
    requires { IsAnswer history (scope_of asked.key) answer.now }
    ensures told { IfOk result (λ told. Explains names.now history asked (option_map (λ p. p.now) places.entry) answer.now told.lines.items told.parts) }
    ensures counted { OnOk result (ticked meter.old.steps (least_steps history answer.now) ≤ meter.new.steps) }
    ensures most { meter.new.steps ≤ meter.old.steps + 10 * length history.history }
    ensures scans { meter.new.scans ≡ meter.old.scans }
{
    match answer {
        Answer::No { prefix } => {
            explained_no(alloc, history, &Origin { names, places }, *prefix, meter)
        }
        _ => explanation_of(
            alloc,
            &history.present(),
            names,
            answer,
            asked,
            places,
            meter,
        ),
    }
}
