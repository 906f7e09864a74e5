//! A picture put together.
ghost use Rattle.std.specs.Prelude.{◌≡◌, ◌++◌, IfOk, codes};
ghost use Rattle.lin_draw.specs.Pictures.{IsSvg};

use crate::bars::{ROW, Scene, TOP, put_bars, put_dots, put_rows};
use crate::canvas::{Piece, letters_of, put};
use crate::fades::put_fade;
use crate::layouts::{LETTER, Layout, MARGIN};
use crate::legends::put_legend;
use crate::styles::{PATTERNS, STYLE};
use std::alloc::{AllocError, Global};

/// A picture is at least so wide.
const NARROWEST: usize = 860;

/// At most so many letters of the head, and of a line under the rows, are shown.
const HEAD: usize = 140;

const WORDS: usize = 130;

/// From the rows to the first line under them, and from one line to the next.
const UNDER: usize = 42;

const LINE: usize = 19;

/// The texts of a picture.
#[derive(Clone, Copy)]
pub(crate) struct Texts<'a> {
    /// What is told to whoever points at the picture: the head, with values whole.
    pub(crate) title: &'a [u8],
    pub(crate) head: &'a [u8],
    /// The lines under the rows.
    pub(crate) lines: &'a [&'a [u8]],
    /// One more line, unless it is empty.
    pub(crate) more: &'a [u8],
    /// Whether an operation fails.
    pub(crate) is_failure: bool,
}

/// How large a picture is.
#[derive(Clone, Copy)]
pub(crate) struct Size {
    pub(crate) width: usize,
    height: usize,
}

/// How wide a picture has to be for a text, so many letters of which are shown.
fn width_for(alloc: Global, words: &[u8], most: usize) -> Result<usize, AllocError> {
    let letters = letters_of(alloc, words)?.min(most);
    Ok(letters.saturating_mul(LETTER).saturating_add(2 * MARGIN))
}

/// How wide a picture has to be for its texts.
pub(crate) fn width_of(alloc: Global, texts: &Texts) -> Result<usize, AllocError> {
    let mut width = NARROWEST.max(width_for(alloc, texts.head, HEAD)?);
    for line in texts.lines {
        width = width.max(width_for(alloc, line, WORDS)?);
    }
    Ok(width)
}

/// Where the rows end below.
fn bottom_of(rows: usize) -> usize {
    rows.saturating_mul(ROW).saturating_add(TOP)
}

/// How many lines stand under the rows.
fn line_count(texts: &Texts) -> usize {
    let count = texts.lines.len();
    if texts.more.is_empty() {
        return count;
    }
    count.saturating_add(1)
}

/// How large the picture is.
fn size_of(scene: &Scene, texts: &Texts) -> Size {
    let lines = line_count(texts).saturating_mul(LINE);
    Size {
        width: scene.layout.right.saturating_add(MARGIN),
        height: bottom_of(scene.layout.rows.len())
            .saturating_add(lines)
            .saturating_add(UNDER - LINE + MARGIN),
    }
}

/// Puts what the first mark of a picture says last, and its title.
fn put_opening(
    alloc: Global,
    text: &mut Vec<u8>,
    size: Size,
    title: &[u8],
) -> Result<(), AllocError> {
    put(
        alloc,
        text,
        &[
            Piece::Plain("xmlns=\"http://www.w3.org/2000/svg\" class=\"lincheck\" width=\""),
            Piece::Number(size.width),
            Piece::Plain("\" height=\""),
            Piece::Number(size.height),
            Piece::Plain("\" viewBox=\"0 0 "),
            Piece::Number(size.width),
            Piece::Plain(" "),
            Piece::Number(size.height),
            Piece::Plain("\" font-family=\"monospace\" font-size=\"13\">\n<title>"),
            Piece::Words(title, usize::MAX),
            Piece::Plain("</title>\n"),
        ],
    )
}

/// Puts the colours last, for bars that fade out up to `right`.
fn put_colours(text: &mut Vec<u8>, right: usize) -> Result<(), AllocError> {
    text.extend_from_slice(STYLE.as_bytes())?;
    text.extend_from_slice(b"<defs>\n")?;
    text.extend_from_slice(PATTERNS.as_bytes())?;
    put_fade(text, right)?;
    text.extend_from_slice(b"</defs>\n")
}

/// Puts the ground and the head last.
fn put_head(alloc: Global, text: &mut Vec<u8>, size: Size, head: &[u8]) -> Result<(), AllocError> {
    put(
        alloc,
        text,
        &[
            Piece::Plain("<rect class=\"ground\" width=\""),
            Piece::Number(size.width),
            Piece::Plain("\" height=\""),
            Piece::Number(size.height),
            Piece::Plain(
                "\" fill=\"#fff\"/>\n<text class=\"head\" x=\"20\" y=\"32\" font-weight=\"bold\">",
            ),
            Piece::Words(head, HEAD),
            Piece::Plain("</text>\n"),
        ],
    )
}

/// Puts a line last that stands at `y`.
fn put_line(alloc: Global, text: &mut Vec<u8>, y: usize, line: &[u8]) -> Result<(), AllocError> {
    put(
        alloc,
        text,
        &[
            Piece::Plain("<text class=\"line\" x=\"20\" y=\""),
            Piece::Number(y),
            Piece::Plain("\" xml:space=\"preserve\">"),
            Piece::Words(line, WORDS),
            Piece::Plain("</text>\n"),
        ],
    )
}

/// Puts the lines under the rows last, which end at `bottom`.
fn put_lines(
    alloc: Global,
    text: &mut Vec<u8>,
    bottom: usize,
    texts: &Texts,
) -> Result<(), AllocError> {
    let mut y = bottom.saturating_add(UNDER);
    for line in texts.lines {
        put_line(alloc, text, y, line)?;
        y = y.saturating_add(LINE);
    }
    if texts.more.is_empty() {
        return Ok(());
    }
    put_line(alloc, text, y, texts.more)
}

/// Puts what the rows say of time last, if there are any.
fn put_note(alloc: Global, text: &mut Vec<u8>, left: usize, rows: usize) -> Result<(), AllocError> {
    if rows == 0 {
        return Ok(());
    }
    put(
        alloc,
        text,
        &[
            Piece::Plain("<text class=\"note\" x=\""),
            Piece::Number(left),
            Piece::Plain("\" y=\""),
            Piece::Number(bottom_of(rows).saturating_add(14)),
            Piece::Plain(
                "\" font-size=\"11\">left to right: the order of events, which is no clock</text>\n",
            ),
        ],
    )
}

/// The operations, drawn.
fn put_operations(alloc: Global, text: &mut Vec<u8>, scene: &Scene) -> Result<(), AllocError> {
    let layout = scene.layout;
    put_rows(alloc, text, layout)?;
    put_bars(alloc, text, scene)?;
    put_dots(alloc, text, scene)?;
    put_note(alloc, text, layout.left, layout.rows.len())
}

/// Whether a bar is outlined.
fn has_named(layout: &Layout) -> bool {
    for bar in layout.bars.as_slice() {
        if bar.is_named {
            return true;
        }
    }
    false
}

/// What stands between the first mark of the picture and its last.
fn inside_of(alloc: Global, scene: &Scene, texts: &Texts) -> Result<Vec<u8>, AllocError> {
    let mut text = Vec::new(alloc);
    let size = size_of(scene, texts);
    put_opening(alloc, &mut text, size, texts.title)?;
    put_colours(&mut text, scene.layout.right)?;
    put_head(alloc, &mut text, size, texts.head)?;
    let layout = scene.layout;
    let has_dots = !layout.dots.is_empty();
    put_legend(&mut text, texts.is_failure, has_dots, has_named(layout))?;
    put_operations(alloc, &mut text, scene)?;
    put_lines(alloc, &mut text, bottom_of(scene.layout.rows.len()), texts)?;
    Ok(text)
}

/// The SVG with this inside.
fn svg_of(alloc: Global, inside: &[u8]) -> Result<Vec<u8>, AllocError>
    ensures { IfOk result (λ text. text.items ≡ (codes "<svg " ++ inside.now) ++ codes "</svg>\n") }
{
    let mut text = Vec::from_slice(alloc, b"<svg ")?;
    text.extend_from_slice(inside)?;
    text.extend_from_slice(b"</svg>\n")?;
    Ok(text)
}

/// The picture.
pub(crate) fn draw_scene(alloc: Global, scene: &Scene, texts: &Texts) -> Result<Vec<u8>, AllocError>
    ensures { IfOk result (λ text. IsSvg text.items) }
{
    let inside = inside_of(alloc, scene, texts)?;
    svg_of(alloc, inside.as_slice())
}
