//! A picture of what an answer is about.
ghost use Rattle.std.specs.Prelude.{◌≡◌, ℕ, [], IfOk};
ghost use Rattle.lin_events.specs.declared.shapes.Cause.{Cause as CauseOf};
ghost use Rattle.lin_order.specs.Tables.{IsNextTable};
ghost use Rattle.lin_draw.specs.Pictures.{IsSvg};

use crate::bars::Scene;
use crate::choosing::{Choice, Focus, choose, most_drawn, named_of};
use crate::drawing::{Texts, draw_scene, width_of};
use crate::fitting::fit;
use crate::heads::{Subject, head_of, left_out, subject_of, told_of};
use crate::layouts::{Layout, MARGIN, Object};
use crate::legal::{Orders, order_before};
use crate::operations::Operation;
use crate::own::{Own, own_of};
use lin_answers::{Answer, Present};
use lin_events::{Item, OutOfMemory};
use lin_names::Names;
use lin_order::{Placed, ends_of};
use lin_tables::failing_operation;
use lin_texts::Place;
use std::alloc::{AllocError, Global};

/// What is drawn, and what is known of it.
#[derive(Clone, Copy)]
struct Sketch<'a, 'p> {
    present: &'a Present<'a>,
    /// The spellings of words.
    names: &'a Names,
    answer: &'a Answer,
    subject: Subject,
    wanted: Wanted<'a, 'p>,
}

/// What is wanted of a picture.
#[derive(Clone, Copy)]
pub struct Wanted<'a, 'p> {
    /// The object of this key, or the whole.
    pub key: Option<Item>,
    /// The lines of the explanation behind the answer's own.
    pub lines: &'a [u8],
    /// For each position of the history where its event stands in the file, if there is one.
    pub places: Option<&'p [Place]>,
    /// How many operations are drawn at most, however wide that is, if that is said.
    pub last: Option<u32>,
}

/// Where the failing operation was invoked, among the object's own events, if the answer is a no.
fn failing_of(answer: &Answer, own: &Own, ends: &[Option<usize>]) -> Option<usize>
    requires { IsNextTable own.now.events.items ends.now }
{
    match answer {
        Answer::No { .. } => failing_operation(own.events.as_slice(), ends),
        _ => None,
    }
}

/// How many of the object's own events are followed by too many configurations, if the answer is undecided.
fn stops_of(answer: &Answer, own: &Own) -> Option<usize> {
    match answer {
        Answer::Undecided { at } => Some(own.count_to(*at)),
        _ => None,
    }
}

/// A legal order of the events before the end of the failing operation, if one fails.
fn found_order<O: Orders>(
    alloc: Global,
    orders: &O,
    asked: &Sketch,
    own: &Own,
    failing: Option<usize>,
) -> Result<Vec<Placed>, OutOfMemory> {
    match (asked.subject.key, failing) {
        (Some(key), Some(call)) => order_before(alloc, orders, asked.present, key, own, call),
        _ => Ok(Vec::new(alloc)),
    }
}

/// The order that is drawn: that of a yes, or else the other one.
fn order_in<'a>(answer: &'a Answer, found: &'a [Placed]) -> &'a [Placed] {
    match answer {
        Answer::Yes(order) => order.as_slice(),
        _ => found,
    }
}

/// The events of the object.
fn events_for(alloc: Global, asked: &Sketch) -> Result<Own, OutOfMemory> {
    match asked.subject.key {
        Some(key) => own_of(alloc, asked.present, key, asked.subject.count),
        None => own_of(alloc, asked.present, Item::Int(0), 0),
    }
}

/// The picture with the layout and the texts.
fn picture_of_layout(
    alloc: Global,
    asked: &Sketch,
    own: &Own,
    mut layout: Layout,
    texts: &Texts,
) -> Result<Vec<u8>, OutOfMemory>
    ensures { IfOk result (λ text. IsSvg text.items) }
{
    let width = width_of(alloc, texts)?;
    layout.widen(width.saturating_sub(MARGIN));
    let scene = Scene {
        names: asked.names,
        own,
        layout: &layout,
        places: asked.wanted.places,
    };
    Ok(draw_scene(alloc, &scene, texts)?)
}

/// The head of the picture; with the failing operation its title.
fn head_for(
    alloc: Global,
    asked: &Sketch,
    failing: Option<&Operation>,
) -> Result<Vec<u8>, AllocError> {
    head_of(
        alloc,
        asked.present,
        asked.names,
        asked.answer,
        asked.subject.key,
        asked.wanted.lines,
        failing,
    )
}

/// The picture of the object, of whose operations these may be drawn.
fn picture_of_object(
    alloc: Global,
    asked: &Sketch,
    object: &Object,
    choice: Choice,
) -> Result<Vec<u8>, OutOfMemory>
    requires { IsNextTable object.now.own.now.events.items object.now.ends.now }
    ensures { IfOk result (λ text. IsSvg text.items) }
{
    let Choice { chosen, all } = choice;
    let layout = fit(alloc, object, chosen, asked.wanted.last.is_none())?;
    let head = head_for(alloc, asked, None)?;
    let title = head_for(alloc, asked, layout.failing())?;
    let more = left_out(alloc, all.saturating_sub(layout.bars.len()))?;
    let lines = told_of(alloc, asked.wanted.lines)?;
    let texts = Texts {
        title: title.as_slice(),
        head: head.as_slice(),
        lines: lines.as_slice(),
        more: more.as_slice(),
        is_failure: matches!(asked.answer, Answer::No { .. }),
    };
    picture_of_layout(alloc, asked, object.own, layout, &texts)
}

/// The picture of what is asked.
fn picture_of<O: Orders>(alloc: Global, orders: &O, asked: &Sketch) -> Result<Vec<u8>, OutOfMemory>
    ensures { IfOk result (λ text. IsSvg text.items) }
{
    let own = events_for(alloc, asked)?;
    let ends = ends_of(alloc, own.events.as_slice())?;
    let failing = failing_of(asked.answer, &own, ends.as_slice());
    let named = named_of(alloc, asked.wanted.lines)?;
    let focus = Focus {
        failing,
        named: named.as_slice(),
        stops: stops_of(asked.answer, &own),
        most: most_drawn(asked.wanted.last),
    };
    let choice = choose(alloc, &own, ends.as_slice(), &focus)?;
    let found = found_order(alloc, orders, asked, &own, failing)?;
    let object = Object {
        names: asked.names,
        own: &own,
        ends: ends.as_slice(),
        order: order_in(asked.answer, found.as_slice()),
    };
    picture_of_object(alloc, asked, &object, choice)
}

/// A picture of the operations around the answer, as an SVG, and where their events stand in the file.
///
/// The answer is the history's for the key's object, or for the whole; the lines are those of its explanation behind the answer's own. An
/// ill-formed history isn't drawn: its text is empty.
pub fn picture_with_places<O: Orders>(
    alloc: Global,
    orders: &O,
    present: &Present<'_>,
    names: &Names,
    answer: &Answer,
    wanted: Wanted,
) -> Result<Vec<u8>, OutOfMemory>
    ensures ill_formed { IfOk result (λ text. (at : ℕ) (cause : CauseOf) → answer.now ≡ Answer.IllFormed at cause → text.items ≡ []) }
    ensures drawn { IfOk result (λ text. ((at : ℕ) (cause : CauseOf) → answer.now ≡ Answer.IllFormed at cause → ⊥) → IsSvg text.items) }
{
    if let Answer::IllFormed { .. } = answer {
        return Ok(Vec::new(alloc));
    }
    let asked = Sketch {
        present,
        names,
        answer,
        subject: subject_of(present, answer, wanted.key),
        wanted,
    };
    picture_of(alloc, orders, &asked)
}
