//! Bars and dots.
ghost use Rattle.std.specs.Prelude.{◌≡◌, ◌++◌, OnOk};
ghost use Rattle.lin_draw.specs.Fills.{fill_text};

use crate::canvas::{Piece, put};
use crate::fades::put_fade_fill;
use crate::labels::{label_of, place_title, title_of};
use crate::layouts::{Bar, Dot, LABEL, Layout};
use crate::operations::{Operation, Outcome};
use crate::own::Own;
use lin_names::Names;
use lin_texts::Place;
use std::alloc::{AllocError, Global};

/// Where the first row begins, and how high each is.
pub(crate) const TOP: usize = 82;

pub(crate) const ROW: usize = 46;

/// From the upper end of a row to the line of its labels, to its bars, and to the middle of these.
const LABELS: usize = 15;

const BARS: usize = 21;

const MIDDLE: usize = 30;

/// What a picture is drawn from.
#[derive(Clone, Copy)]
pub(crate) struct Scene<'a, 'p> {
    /// The spellings of words.
    pub(crate) names: &'a Names,
    pub(crate) own: &'a Own,
    pub(crate) layout: &'a Layout<'a>,
    /// For each position of the history where its event stands in the file; events that came by commands have no place.
    pub(crate) places: Option<&'p [Place]>,
}

impl<'a, 'p> Scene<'a, 'p> {
    /// Where the row of an operation begins.
    fn top(&self, operation: &Operation) -> usize {
        self.layout
            .row(operation.process)
            .saturating_mul(ROW)
            .saturating_add(TOP)
    }

    /// The position of an operation's invocation in the history.
    fn position(&self, operation: &Operation) -> usize {
        self.own.position(operation.at)
    }
}

/// What a bar is filled with where no style is read.
#[derive(Clone, Copy)]
enum Fill {
    Plain(&'static str),
    /// It fades out.
    Fading,
}

/// The classes of a bar, and what it is filled with.
fn look_of(bar: &Bar) -> (&'static str, Fill) {
    match (bar.operation.outcome, bar.is_failing) {
        (Outcome::Returned, false) => ("bar ok", Fill::Plain("#8fb4ea")),
        (Outcome::Returned, true) => ("bar ok failing", Fill::Plain("#e5534b")),
        (Outcome::Failed, false) => ("bar failed", Fill::Plain("url(#lincheck-hatch)")),
        (Outcome::Failed, true) => ("bar failed failing", Fill::Plain("url(#lincheck-red)")),
        (Outcome::Crashed, _) => ("bar crashed", Fill::Fading),
        (Outcome::Running, _) => ("bar open", Fill::Fading),
    }
}

/// Puts what a bar is filled with last, in a picture whose rows end at `right`.
fn put_fill(text: &mut Vec<u8>, fill: Fill, right: usize) -> Result<(), AllocError>
    ensures { OnOk result (text.new.items ≡ text.old.items ++ fill_text fill right) }
{
    match fill {
        Fill::Plain(words) => text.extend_from_slice(words.as_bytes()),
        Fill::Fading => put_fade_fill(text, right),
    }
}

/// Puts a bar's beginning last: where its operation stands, and what is told to whoever points at it.
fn put_beginning(
    alloc: Global,
    text: &mut Vec<u8>,
    scene: &Scene,
    bar: &Bar,
) -> Result<(), AllocError> {
    let title = title_of(alloc, scene.names, scene.own, scene.places, &bar.operation)?;
    let (class, _) = look_of(bar);
    put(
        alloc,
        text,
        &[
            Piece::Plain("<g class=\""),
            Piece::Plain(class),
            Piece::Plain("\" data-at=\""),
            Piece::Number(scene.position(&bar.operation)),
        ],
    )?;
    if let Some(end) = bar.operation.end {
        put(
            alloc,
            text,
            &[
                Piece::Plain("\" data-end=\""),
                Piece::Number(scene.own.position(end)),
            ],
        )?;
    }
    put(
        alloc,
        text,
        &[
            Piece::Plain("\"><title>"),
            Piece::Words(title.as_slice(), usize::MAX),
            Piece::Plain("</title>"),
        ],
    )
}

/// Puts the label of a bar last.
fn put_label(
    alloc: Global,
    text: &mut Vec<u8>,
    scene: &Scene,
    bar: &Bar,
) -> Result<(), AllocError> {
    let label = label_of(alloc, scene.names, &bar.operation)?;
    let y = scene.top(&bar.operation).saturating_add(LABELS);
    put(
        alloc,
        text,
        &[
            Piece::Plain("<text class=\"label\" x=\""),
            Piece::Number(scene.layout.x(bar.operation.at)),
            Piece::Plain("\" y=\""),
            Piece::Number(y),
            Piece::Plain("\">"),
            Piece::Words(label.as_slice(), LABEL),
            Piece::Plain("</text>"),
        ],
    )
}

/// What follows a bar's fill: what the explanation names is outlined.
fn outline_of(bar: &Bar) -> &'static str {
    if bar.is_named {
        "\" stroke=\"#8a6d00\" stroke-width=\"2\" class=\"named\"/>"
    } else {
        "\"/>"
    }
}

/// Puts the rectangle of a bar last.
fn put_rectangle(
    alloc: Global,
    text: &mut Vec<u8>,
    scene: &Scene,
    bar: &Bar,
) -> Result<(), AllocError> {
    let x = scene.layout.x(bar.operation.at);
    let (_, fill) = look_of(bar);
    put(
        alloc,
        text,
        &[
            Piece::Plain("<rect x=\""),
            Piece::Number(x),
            Piece::Plain("\" y=\""),
            Piece::Number(scene.top(&bar.operation).saturating_add(BARS)),
            Piece::Plain("\" width=\""),
            Piece::Number(scene.layout.end_of(bar).saturating_sub(x)),
            Piece::Plain("\" height=\"18\" rx=\"3\" fill=\""),
        ],
    )?;
    put_fill(text, fill, scene.layout.right)?;
    text.extend_from_slice(outline_of(bar).as_bytes())
}

/// Puts the dashed line last that stands at the info of a crashed operation.
fn put_info(alloc: Global, text: &mut Vec<u8>, scene: &Scene, bar: &Bar) -> Result<(), AllocError> {
    let (Outcome::Crashed, Some(end)) = (bar.operation.outcome, bar.operation.end) else {
        return Ok(());
    };
    let top = scene.top(&bar.operation).saturating_add(BARS);
    put(
        alloc,
        text,
        &[
            Piece::Plain("<path class=\"info\" d=\"M"),
            Piece::Number(scene.layout.x(end)),
            Piece::Plain(" "),
            Piece::Number(top.saturating_sub(2)),
            Piece::Plain("v22\" stroke=\"#8a4b00\" stroke-width=\"2\" stroke-dasharray=\"4 3\"/>"),
        ],
    )
}

/// Puts the cross last that stands at the end of the failing operation.
fn put_cross(
    alloc: Global,
    text: &mut Vec<u8>,
    scene: &Scene,
    bar: &Bar,
) -> Result<(), AllocError> {
    if !bar.is_failing {
        return Ok(());
    }
    let middle = scene.top(&bar.operation).saturating_add(MIDDLE);
    put(
        alloc,
        text,
        &[
            Piece::Plain("<path class=\"cross\" d=\"M"),
            Piece::Number(scene.layout.end_of(bar).saturating_sub(6)),
            Piece::Plain(" "),
            Piece::Number(middle.saturating_sub(6)),
            Piece::Plain(
                "l12 12m0 -12l-12 12\" stroke=\"#86120d\" stroke-width=\"3\" fill=\"none\"/>",
            ),
        ],
    )
}

/// Puts a bar last.
fn put_bar(alloc: Global, text: &mut Vec<u8>, scene: &Scene, bar: &Bar) -> Result<(), AllocError> {
    put_beginning(alloc, text, scene, bar)?;
    put_label(alloc, text, scene, bar)?;
    put_rectangle(alloc, text, scene, bar)?;
    put_info(alloc, text, scene, bar)?;
    put_cross(alloc, text, scene, bar)?;
    text.extend_from_slice(b"</g>\n")
}

/// Puts all bars last.
pub(crate) fn put_bars(alloc: Global, text: &mut Vec<u8>, scene: &Scene) -> Result<(), AllocError> {
    for bar in scene.layout.bars.as_slice() {
        put_bar(alloc, text, scene, bar)?;
    }
    Ok(())
}

/// Puts the circle of a dot last, and its number.
fn put_circle(
    alloc: Global,
    text: &mut Vec<u8>,
    number: usize,
    x: usize,
    y: usize,
) -> Result<(), AllocError> {
    put(
        alloc,
        text,
        &[
            Piece::Plain("<circle cx=\""),
            Piece::Number(x),
            Piece::Plain("\" cy=\""),
            Piece::Number(y),
            Piece::Plain("\" r=\"8\" fill=\"#24426e\"/><text class=\"number\" x=\""),
            Piece::Number(x),
            Piece::Plain("\" y=\""),
            Piece::Number(y.saturating_add(4)),
            Piece::Plain("\" font-size=\"10\" text-anchor=\"middle\" fill=\"#fff\">"),
            Piece::Number(number),
            Piece::Plain("</text>"),
        ],
    )
}

/// Puts the dot with the number last.
fn put_dot(
    alloc: Global,
    text: &mut Vec<u8>,
    scene: &Scene,
    number: usize,
    dot: &Dot,
) -> Result<(), AllocError> {
    let title = place_title(alloc, scene.names, number, &dot.operation, dot.reply)?;
    put(
        alloc,
        text,
        &[
            Piece::Plain("<g class=\"dot\" data-number=\""),
            Piece::Number(number),
            Piece::Plain("\" data-at=\""),
            Piece::Number(scene.position(&dot.operation)),
            Piece::Plain("\"><title>"),
            Piece::Words(title.as_slice(), usize::MAX),
            Piece::Plain("</title>"),
        ],
    )?;
    let y = scene.top(&dot.operation).saturating_add(MIDDLE);
    put_circle(alloc, text, number, scene.layout.dot_x(dot), y)?;
    text.extend_from_slice(b"</g>\n")
}

/// Puts all dots last.
pub(crate) fn put_dots(alloc: Global, text: &mut Vec<u8>, scene: &Scene) -> Result<(), AllocError> {
    let mut number = 0usize;
    for dot in scene.layout.dots.as_slice() {
        number = number.saturating_add(1);
        put_dot(alloc, text, scene, number, dot)?;
    }
    Ok(())
}

/// Puts the name of a row last, and the line along it.
fn put_row(
    alloc: Global,
    text: &mut Vec<u8>,
    layout: &Layout,
    process: u64,
) -> Result<(), AllocError> {
    let middle = layout
        .row(process)
        .saturating_mul(ROW)
        .saturating_add(TOP + MIDDLE);
    put(
        alloc,
        text,
        &[
            Piece::Plain("<text class=\"name\" x=\"20\" y=\""),
            Piece::Number(middle.saturating_add(4)),
            Piece::Plain("\">p"),
            Piece::Number(process as usize),
            Piece::Plain("</text><path class=\"lane\" d=\"M"),
            Piece::Number(layout.left),
            Piece::Plain(" "),
            Piece::Number(middle),
            Piece::Plain("H"),
            Piece::Number(layout.right),
            Piece::Plain("\" stroke=\"#d8dee4\"/>\n"),
        ],
    )
}

/// Puts the names of all rows last.
pub(crate) fn put_rows(
    alloc: Global,
    text: &mut Vec<u8>,
    layout: &Layout,
) -> Result<(), AllocError> {
    for process in layout.rows.as_slice() {
        put_row(alloc, text, layout, *process)?;
    }
    Ok(())
}
