//! Where the operations stand in a picture.
ghost use Rattle.std.specs.Prelude.{◌≤◌, IfOk, length};
ghost use Rattle.lin_order.specs.Tables.{IsNextTable};

use crate::canvas::letters_of;
use crate::choosing::{Chosen, Mark};
use crate::fades::FADE;
use crate::labels::label_of;
use crate::operations::{Operation, Outcome, operation_at};
use crate::own::Own;
use lin_events::{OutOfMemory, Reply};
use lin_names::Names;
use lin_order::Placed;
use lin_texts::put_number;
use std::alloc::{AllocError, Global};

/// The empty border of a picture.
pub(crate) const MARGIN: usize = 20;

/// How wide a letter is.
pub(crate) const LETTER: usize = 8;

/// At most so many letters of a label are shown.
pub(crate) const LABEL: usize = 22;

/// Between a label and the next bar of its row.
const GAP: usize = 12;

/// Events stand at least so far apart.
const APART: usize = 16;

/// From one dot to the next, and from an event to the first dot behind it.
const STEP: usize = 19;

const FRONT: usize = 14;

/// Between events at most so much is put where there is room left.
const WIDEST_SPREAD: usize = 72;

/// An operation that is drawn as a bar.
#[derive(Clone, Copy)]
pub(crate) struct Bar<'a> {
    pub(crate) operation: Operation<'a>,
    pub(crate) is_failing: bool,
    /// Whether it is outlined.
    pub(crate) is_named: bool,
    /// How many letters its label has.
    letters: usize,
}

/// A place in a legal order that is drawn as a dot.
#[derive(Clone, Copy)]
pub(crate) struct Dot<'a> {
    pub(crate) operation: Operation<'a>,
    /// What the operation returns there.
    pub(crate) reply: &'a Reply,
    /// The last place at which one of the operations up to this one is invoked: the dot stands behind that.
    behind: usize,
    /// How many dots stand between that place and this dot.
    step: usize,
}

/// Where an event stands across the picture.
#[derive(Clone, Copy)]
struct Point {
    at: usize,
    x: usize,
}

/// The object of a picture.
#[derive(Clone, Copy)]
pub(crate) struct Object<'a> {
    /// The spellings of words.
    pub(crate) names: &'a Names,
    pub(crate) own: &'a Own,
    /// For each of its events the next one of the same process.
    pub(crate) ends: &'a [Option<usize>],
    /// A legal order, by positions of the history.
    pub(crate) order: &'a [Placed],
}

/// Where the operations stand.
#[derive(Drop)]
pub(crate) struct Layout<'a> {
    pub(crate) bars: Vec<Bar<'a>>,
    pub(crate) dots: Vec<Dot<'a>>,
    /// The processes of the rows, rising.
    pub(crate) rows: Vec<u64>,
    points: Vec<Point>,
    /// Where the rows begin and end.
    pub(crate) left: usize,
    pub(crate) right: usize,
    /// How much farther apart events stand than they need.
    spread: usize,
}

impl<'a> Bar<'a> {
    /// Whether it doesn't end.
    pub(crate) fn is_open(&self) -> bool {
        match self.operation.outcome {
            Outcome::Crashed | Outcome::Running => true,
            Outcome::Returned | Outcome::Failed => false,
        }
    }

    /// How wide its label is.
    fn width(&self) -> usize {
        self.letters.saturating_mul(LETTER)
    }
}

/// The bars of operations.
fn bars_of<'a>(
    alloc: Global,
    object: &Object<'a>,
    chosen: &[Chosen],
) -> Result<Vec<Bar<'a>>, OutOfMemory>
    requires { IsNextTable object.now.own.now.events.items object.now.ends.now }
    ensures { IfOk result (λ bars. length bars.items ≤ length chosen.now) }
{
    let mut bars = Vec::new(alloc);
    for one in chosen {
        let Some(operation) = operation_at(object.own.events.as_slice(), object.ends, one.at) else {
            continue;
        };
        let label = label_of(alloc, object.names, &operation)?;
        bars.push(Bar {
            operation,
            is_failing: matches!(one.mark, Mark::Failing),
            is_named: matches!(one.mark, Mark::Named),
            letters: letters_of(alloc, label.as_slice())?.min(LABEL),
        })?;
    }
    Ok(bars)
}

/// The processes of the bars, rising.
fn rows_of(alloc: Global, bars: &[Bar]) -> Result<Vec<u64>, AllocError> {
    let mut rows = Vec::new(alloc);
    for bar in bars {
        rows.push(bar.operation.process)?;
    }
    rows.sort_unstable();
    rows.dedup();
    Ok(rows)
}

/// The operation that begins at the position in the history, if it is drawn.
fn drawn_at<'a>(own: &Own, bars: &[Bar<'a>], position: usize) -> Option<Operation<'a>> {
    for bar in bars {
        if own.position(bar.operation.at) == position {
            return Some(bar.operation);
        }
    }
    None
}

/// The dot of the operation behind these dots.
fn next_dot<'a>(dots: &[Dot<'a>], operation: Operation<'a>, reply: &'a Reply) -> Dot<'a> {
    let first = Dot {
        operation,
        reply,
        behind: operation.at,
        step: 0,
    };
    match dots.last() {
        Some(last) if operation.at <= last.behind => Dot {
            behind: last.behind,
            step: last.step.saturating_add(1),
            ..first
        },
        _ => first,
    }
}

/// The dots of the operations of the order that are drawn.
fn dots_of<'a>(
    alloc: Global,
    object: &Object<'a>,
    bars: &[Bar<'a>],
) -> Result<Vec<Dot<'a>>, OutOfMemory> {
    let mut dots = Vec::new(alloc);
    for placed in object.order {
        if let Some(operation) = drawn_at(object.own, bars, placed.at) {
            let dot = next_dot(dots.as_slice(), operation, &placed.reply);
            dots.push(dot)?;
        }
    }
    Ok(dots)
}

/// The places of the events of the bars, rising.
fn places_of(alloc: Global, bars: &[Bar]) -> Result<Vec<usize>, AllocError> {
    let mut places = Vec::new(alloc);
    for bar in bars {
        places.push(bar.operation.at)?;
        if let Some(end) = bar.operation.end {
            places.push(end)?;
        }
    }
    places.sort_unstable();
    Ok(places)
}

/// Where the event at the place stands.
fn x_of(points: &[Point], at: usize) -> usize {
    for point in points {
        if point.at == at {
            return point.x;
        }
    }
    MARGIN
}

/// Where the label of the bar ends.
fn label_end(points: &[Point], bar: &Bar) -> usize {
    x_of(points, bar.operation.at).saturating_add(bar.width())
}

/// How much room the dots behind the place need.
fn room_behind(dots: &[Dot], at: usize) -> usize {
    let mut room = APART;
    for dot in dots {
        if dot.behind == at {
            room = STEP.saturating_mul(dot.step).saturating_add(FRONT + APART);
        }
    }
    room
}

/// Where the labels end, from `x` on, that stand to the left of the process's event at the place in its row.
fn behind_labels(points: &[Point], bars: &[Bar], process: u64, at: usize, x: usize) -> usize {
    let mut from = x;
    for bar in bars {
        if bar.operation.process == process && bar.operation.at < at {
            from = from.max(label_end(points, bar).saturating_add(GAP));
        }
    }
    from
}

/// Where the event at the place stands, from `x` on: a bar begins behind the label to the left in its row.
fn place_for(points: &[Point], bars: &[Bar], at: usize, x: usize) -> usize {
    for bar in bars {
        if bar.operation.at == at {
            return behind_labels(points, bars, bar.operation.process, at, x);
        }
    }
    x
}

/// Where the rows have to end that reach to `x` by their events.
fn right_of(points: &[Point], bars: &[Bar], x: usize) -> usize {
    let mut right = x;
    for bar in bars {
        right = right.max(label_end(points, bar));
        if bar.is_open() {
            right = right.max(x.saturating_add(FADE));
        }
    }
    right
}

/// How wide the widest name of a row is, and the space behind it.
fn names_width(alloc: Global, rows: &[u64]) -> Result<usize, AllocError> {
    let mut name = Vec::new(alloc);
    if let Some(last) = rows.last() {
        put_number(&mut name, *last)?;
    }
    Ok(name.len().saturating_add(3).saturating_mul(LETTER))
}

/// Where the operations stand, as close to each other as they can.
pub(crate) fn layout_of<'a>(
    alloc: Global,
    object: &Object<'a>,
    chosen: &[Chosen],
) -> Result<Layout<'a>, OutOfMemory>
    requires { IsNextTable object.now.own.now.events.items object.now.ends.now }
    ensures { IfOk result (λ layout. length layout.bars.items ≤ length chosen.now) }
{
    let bars = bars_of(alloc, object, chosen)?;
    let dots = dots_of(alloc, object, bars.as_slice())?;
    let rows = rows_of(alloc, bars.as_slice())?;
    let left = MARGIN.saturating_add(names_width(alloc, rows.as_slice())?);
    let (points, right) = points_of(alloc, bars.as_slice(), dots.as_slice(), left)?;
    Ok(Layout {
        bars,
        dots,
        rows,
        points,
        left,
        right,
        spread: 0,
    })
}

/// Where the events of the bars stand from `left` on, and where the rows end.
fn points_of(
    alloc: Global,
    bars: &[Bar],
    dots: &[Dot],
    left: usize,
) -> Result<(Vec<Point>, usize), AllocError> {
    let places = places_of(alloc, bars)?;
    let mut points = Vec::new(alloc);
    let mut x = left;
    for at in places.as_slice() {
        x = place_for(points.as_slice(), bars, *at, x);
        points.push(Point { at: *at, x })?;
        x = x.saturating_add(room_behind(dots, *at));
    }
    let right = right_of(points.as_slice(), bars, x);
    Ok((points, right))
}

impl<'a> Layout<'a> {
    /// The operation that fails, if one does: it is drawn before others are.
    pub(crate) fn failing(&self) -> Option<&Operation<'a>> {
        for bar in self.bars.as_slice() {
            if bar.is_failing {
                return Some(&bar.operation);
            }
        }
        None
    }

    /// Lets the rows end at `right`, and the events stand farther apart where that gives room.
    pub(crate) fn widen(&mut self, right: usize) {
        let room = right.saturating_sub(self.right);
        let spread = match room.checked_div(self.points.len()) {
            Some(share) => share.min(WIDEST_SPREAD),
            None => 0,
        };
        let mut shift = 0usize;
        for at in 0..self.points.len() {
            self.points[at].x = self.points[at].x.saturating_add(shift);
            shift = shift.saturating_add(spread);
        }
        self.spread = spread;
        self.right = self.right.max(right);
    }

    /// Where the event at the place stands.
    pub(crate) fn x(&self, at: usize) -> usize {
        x_of(self.points.as_slice(), at)
    }

    /// Where a bar ends.
    pub(crate) fn end_of(&self, bar: &Bar) -> usize {
        match bar.operation.end {
            Some(end) if !bar.is_open() => self.x(end),
            _ => self.right,
        }
    }

    /// Where a dot stands.
    pub(crate) fn dot_x(&self, dot: &Dot) -> usize {
        self.x(dot.behind)
            .saturating_add(FRONT)
            .saturating_add(self.spread / 2)
            .saturating_add(dot.step.saturating_mul(STEP))
    }

    /// Which row the process has.
    pub(crate) fn row(&self, process: u64) -> usize {
        for at in 0..self.rows.len() {
            if self.rows[at] == process {
                return at;
            }
        }
        0
    }
}
