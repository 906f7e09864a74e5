//! Pictures of histories.
ghost use Rattle.std.specs.Prelude.{◌≡◌, ◌<◌, ◌≤◌, ◌++◌, Some, codes, false, length, option_map, IfOk, IsErrOf};
ghost use Rattle.lin_answers.specs.Answers.{IsAnswer, verdict_of as verdict_in};
ghost use Rattle.lin_formats.specs.Devices.{device_of, failures_of, Counts};
ghost use Rattle.lin_formats.specs.Histories.{is_read_failed};
ghost use Rattle.lin_formats.specs.Inputs.{limit};
ghost use Rattle.lin_formats.specs.Verdicts.{is_write_failed, IsReadTooFar};
ghost use Rattle.lin_report.specs.Pictures.{IsDrawing, IsDrawRun, IsRightDrawing};
ghost use Rattle.lin_draw.specs.Pictures.{IsSvg};
ghost use Rattle.lin_report.specs.inner.Asking.{IsFound};
ghost use Rattle.lin_report.specs.Reports.{is_ill_formed as is_ill_formed_in, opened};
ghost use Rattle.lin_explain.specs.Explained.{scope_of as scope_for};

use crate::answers::{is_ill_formed, status_of, told_words, verdict_of};
use crate::asked_keys::{Found, RunEnding, absence_of};
use crate::checks::{Answered, refused};
use crate::explaining::{item_of, scope_of, told_of};
use crate::formats::ReportFormat;
use crate::sessions::{names_are_apart, session_of};
use lin_answers::{Answer, Scope};
use lin_draw::{Orders, Wanted, picture_with_places};
use lin_events::{Event, Item, OutOfMemory};
use lin_explain::Asked;
use lin_formats::{Counted, History, Places, RunFault, Settings, read_placed, write_whole};
use lin_names::{Names, Said};
use lin_objects::Kind;
use lin_order::Placed;
use lin_session::Session;
use std::alloc::Global;
use std::io::{Read, Write};

/// Orders that sessions of their own find.
struct Sessions;

impl Orders for Sessions {
    fn order_of(
        &self,
        alloc: Global,
        kind: Kind,
        budget: u32,
        events: Vec<Event>,
    ) -> Result<Option<Vec<Placed>>, OutOfMemory> {
        let Ok(mut session) = Session::of(alloc, kind, budget, events) else {
            return Ok(None);
        };
        match session.order(alloc, Scope::Whole)? {
            Answer::Yes(order) => Ok(Some(order)),
            _ => Ok(None),
        }
    }
}

/// The picture of an answer.
fn picture_of(
    alloc: Global,
    session: &mut Session,
    names: &Names,
    answer: &Answer,
    asked: Asked,
    last: Option<u32>,
    places: &Places,
) -> Result<Vec<u8>, OutOfMemory>
    requires { IsAnswer session.old.present (scope_for asked.key) answer.now }
    ensures { IfOk result (λ text. is_ill_formed_in (verdict_in answer.now) ≡ false → IsSvg text.items) }
{
    let places = Some(places.as_slice());
    let told = told_of(alloc, session, names, answer, asked, places)?;
    picture_with_places(
        alloc,
        &Sessions,
        &session.present(),
        names,
        answer,
        Wanted {
            key: asked.key,
            lines: &told.lines,
            places,
            last,
        },
    )
}

/// The picture of what is found of these events; where they aren't well-formed, the answer's line.
fn drawing_of(
    alloc: Global,
    settings: Settings,
    key: Option<Item>,
    last: Option<u32>,
    names: &Names,
    events: Vec<Event>,
    places: &Places,
) -> Result<Answered, OutOfMemory>
    requires budget { (1 ≤ settings.budget) × (settings.budget ≤ 1000000) }
    requires few { length events.items ≤ limit }
    ensures { IfOk result (λ answered. IsDrawing (opened settings events.items) key answered.text.items answered.status) }
{
    let mut session = session_of(alloc, settings, events)?;
    let answer = session.order(alloc, scope_of(key))?;
    let verdict = verdict_of(&answer);
    let text = if is_ill_formed(verdict) {
        told_words(alloc, verdict, b"")?
    } else {
        let asked = Asked {
            key,
            with_order: false,
            keyed: settings.keyed,
        };
        picture_of(alloc, &mut session, names, &answer, asked, last, places)?
    };
    Ok(Answered {
        text,
        status: status_of(verdict),
    })
}

/// What is found of a file.
fn find<R: Read>(
    alloc: Global,
    settings: Settings,
    key: Option<Said>,
    last: Option<u32>,
    file: &mut Counted<R>,
) -> Result<Found, RunFault>
    requires budget { (1 ≤ settings.budget) × (settings.budget ≤ 1000000) }
    requires reads { failures_of file.old < u64.MAX }
    ensures found { IfOk result (IsFound (IsRightDrawing settings key.entry) settings key.entry (R.remaining (device_of file.old)) (R.remaining (device_of file.new))) }
    ensures too_much { IsErrOf result RunFault.TooMuch → IsReadTooFar (R.remaining (device_of file.old)) (R.remaining (device_of file.new)) }
    ensures counts { Counts (is_read_failed result) (failures_of file.old) (failures_of file.new) }
    ensures readers { IsErrOf result RunFault.WriteFailed → ⊥ }
{
    let mut names = Names::new(alloc);
    let key = item_of(key, &mut names)?;
    let (history, placed) = read_placed(
        alloc,
        settings.keyed,
        settings.at_least,
        file,
        &mut names,
    )?;
    names_are_apart(&names);
    match history {
        History::Whole(events) => {
            if let Some(words) = absence_of(alloc, &names, key, &events)? {
                return Ok(Found::NoKey(words));
            }
            let places = &placed.places;
            let drawn = drawing_of(alloc, settings, key, last, &names, events, places)?;
            Ok(Found::Answer(drawn))
        }
        History::Refused(refusal) => {
            let told = refused(alloc, ReportFormat::Text, refusal)?;
            Ok(Found::Answer(told))
        }
    }
}

/// Draws the history in a file, with what is found of it for the whole or for the object of a key: writes a picture as SVG, and gives the
/// status. Of a history that isn't well-formed, and of a file that is refused, it writes the line that says so. At most 20 operations are drawn,
/// or as many as `last` says, however wide that is. Where no event of a whole history has the key nothing is written, and it is told which keys there
/// are.
///
/// The file is read as by `check`, which see for what is asked and for errors. Of what is drawn no promise says more than that it is an SVG.
pub fn draw<R: Read, W: Write>(
    alloc: Global,
    settings: Settings,
    key: Option<Said>,
    last: Option<u32>,
    file: &mut Counted<R>,
    out: &mut Counted<W>,
) -> Result<RunEnding, RunFault>
    requires budget { (1 ≤ settings.budget) × (settings.budget ≤ 1000000) }
    requires reads { failures_of file.old < u64.MAX }
    requires writes { failures_of out.old < u64.MAX }
    ensures ran { IsDrawRun settings key.entry (R.remaining (device_of file.old)) (R.remaining (device_of file.new))
        (W.contents (device_of out.old)) (W.contents (device_of out.new)) result }
    ensures read_counts { Counts (is_read_failed result) (failures_of file.old) (failures_of file.new) }
    ensures write_counts { Counts (is_write_failed result) (failures_of out.old) (failures_of out.new) }
{
    match find(alloc, settings, key, last, file)? {
        Found::Answer(answered) => {
            write_whole(out, answered.text.as_slice())?;
            Ok(RunEnding::Answered(answered.status))
        }
        Found::NoKey(words) => Ok(RunEnding::NoKey(words)),
    }
}
