//! An object that is a no beside an undecided whole.
ghost use Rattle.std.specs.Prelude.{◌≡◌, ◌++◌, ◌*◌, IfOk, OnOk, length, option_map};
ghost use Rattle.lin_answers.specs.Answers.{IsAnswer, verdict_of as verdict_in};
ghost use Rattle.lin_explain.specs.Explained.{scope_of as scope_for};
ghost use Rattle.lin_report.specs.Explanations.{IsBeside, IsFailing, beside_text, whole_text};
ghost use Rattle.lin_report.specs.inner.Still.{IsSettled, IsSettledFor, IsStill, beside_passes};

use crate::answers::{told_words, verdict_of};
use crate::explaining::told_of;
use crate::failing::{Failing, first_failing};
use crate::findings::find_objects;
use lin_answers::{Answer, Verdict};
use lin_events::{Item, OutOfMemory};
use lin_explain::{Asked, Explanation, put_certain};
use lin_names::Names;
use lin_session::Session;
use lin_texts::Place;
use std::alloc::{AllocError, Global};

/// What is told of an object that is a no beside an undecided whole.
#[derive(Drop)]
pub struct Beside {
    pub failing: Failing,
    /// What explains its no.
    pub told: Explanation,
}

/// The object that is told beside what is found: where the whole is asked about and undecided, the one that fails first, if one is a no. Of
/// objects all is known then, so nothing is counted.
fn failing_of(
    alloc: Global,
    session: &mut Session,
    names: &Names,
    key: Option<Item>,
    verdict: Verdict,
) -> Result<Option<Failing>, OutOfMemory>
    ensures failing { IfOk result (IsFailing names.now session.old.present key verdict) }
    ensures present { session.new.present ≡ session.old.present }
    ensures still { IsSettledFor key verdict session.old → IsStill 0 session.old session.new }
{
    match (key, verdict) {
        (None, Verdict::Undecided { .. }) => {
            let keys = session.objects(alloc, names)?;
            let found = find_objects(alloc, session, keys.as_slice())?;
            Ok(first_failing(&found))
        }
        _ => Ok(None),
    }
}

/// What is told beside an answer of an object that is a no, where the whole is undecided and one is. What it takes counts on the session's meter.
pub fn beside_of(
    alloc: Global,
    session: &mut Session,
    names: &Names,
    answer: &Answer,
    asked: Asked,
    places: Option<&[Place]>,
) -> Result<Option<Beside>, OutOfMemory>
    requires { IsAnswer session.old.present (scope_for asked.key) answer.now }
    ensures beside { IfOk result (IsBeside names.now session.old.present asked (option_map (λ p. p.now) places.entry) (verdict_in answer.now)) }
    ensures present { session.new.present ≡ session.old.present }
    ensures still { IsSettled (scope_for asked.key) session.old → IsStill (beside_passes answer.now * length session.old.present.history) session.old session.new }
{
    let Some(failing) = failing_of(alloc, session, names, asked.key, verdict_of(answer))? else {
        return Ok(None);
    };
    let asked = Asked {
        key: Some(failing.key),
        ..asked
    };
    let no = Answer::No {
        prefix: failing.prefix,
    };
    let told = told_of(alloc, session, names, &no, asked, places)?;
    Ok(Some(Beside { failing, told }))
}

/// Puts the lines last that tell of an object that is a no, if there is one.
fn put_beside(
    alloc: Global,
    text: &mut Vec<u8>,
    names: &Names,
    beside: Option<&Beside>,
) -> Result<(), AllocError>
    ensures { OnOk result (text.new.items ≡ text.old.items ++ beside_text names.now (option_map (λ b. b.now) beside.entry)) }
{
    let Some(beside) = beside else {
        return Ok(());
    };
    put_certain(text, names, beside.failing.key)?;
    let no = Verdict::No {
        prefix: beside.failing.prefix,
    };
    let lines = told_words(alloc, no, &beside.told.lines)?;
    text.extend_from_slice(lines.as_slice())
}

/// The answer's line, those that explain it, and those of an object that is a no beside it.
pub fn whole_words(
    alloc: Global,
    names: &Names,
    verdict: Verdict,
    lines: &[u8],
    beside: Option<&Beside>,
) -> Result<Vec<u8>, AllocError>
    ensures { IfOk result (λ text. text.items ≡ whole_text names.now verdict lines.now (option_map (λ b. b.now) beside.entry)) }
{
    let mut text = told_words(alloc, verdict, lines)?;
    put_beside(alloc, &mut text, names, beside)?;
    Ok(text)
}
