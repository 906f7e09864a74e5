//! SVG that is put together piece by piece.
ghost use Rattle.std.specs.Prelude.{◌≡◌, ◌++◌, IfOk, OnOk, length};
ghost use Rattle.std.specs.List.{flat_map};
ghost use Rattle.lin_draw.specs.Letters.{letter_text, letters, shown_letter, shown_text};
ghost use Rattle.lin_draw.specs.Pieces.{piece_text};

use lin_texts::put_number;
use std::alloc::{AllocError, Global};

/// A piece of an SVG.
#[derive(Clone, Copy)]
pub(crate) enum Piece<'a> {
    /// It stands as it is.
    Plain(&'a str),
    Number(usize),
    /// A text to be shown, at most so many letters of it.
    Words(&'a [u8], usize),
}

/// The letter, or one in its place where XML doesn't have it or it is a control character.
fn letter_for_xml(letter: char) -> char
    ensures { result ≡ shown_letter letter }
{
    if letter.is_control() || letter == '\u{fffe}' || letter == '\u{ffff}' {
        return '\u{fffd}';
    }
    letter
}

/// Puts a letter last that is to be shown.
fn put_letter(text: &mut Vec<u8>, letter: char) -> Result<(), AllocError>
    ensures { OnOk result (text.new.items ≡ text.old.items ++ letter_text letter) }
{
    let mut bytes = [0u8; 4];
    match letter {
        '&' => text.extend_from_slice(b"&amp;"),
        '<' => text.extend_from_slice(b"&lt;"),
        '>' => text.extend_from_slice(b"&gt;"),
        '"' => text.extend_from_slice(b"&quot;"),
        _ => text.extend_from_slice(letter_for_xml(letter).encode_utf8(&mut bytes).as_bytes()),
    }
}

/// The letters of a text.
fn letters_in(alloc: Global, words: &[u8]) -> Result<Vec<char>, AllocError>
    ensures { IfOk result (λ found. found.items ≡ letters words.now) }
{
    let words = String::from_utf8_lossy(alloc, words)?;
    words.as_str().chars().collect(alloc)
}

/// How many letters a text has.
pub(crate) fn letters_of(alloc: Global, words: &[u8]) -> Result<usize, AllocError>
    ensures { IfOk result (λ count. count ≡ length (letters words.now)) }
{
    let found = letters_in(alloc, words)?;
    Ok(found.len())
}

/// Puts letters last that are to be shown.
fn put_letters(text: &mut Vec<u8>, shown: &[char]) -> Result<(), AllocError>
    ensures { OnOk result (text.new.items ≡ text.old.items ++ flat_map letter_text shown.now) }
{
    for letter in shown {
        put_letter(text, *letter)?;
    }
    Ok(())
}

/// Puts a text last that is to be shown. Where it has more letters than `most`, the last one of these is an ellipsis.
fn put_words(alloc: Global, text: &mut Vec<u8>, words: &[u8], most: usize) -> Result<(), AllocError>
    ensures { OnOk result (text.new.items ≡ text.old.items ++ shown_text words.now most) }
{
    let found = letters_in(alloc, words)?;
    if found.len() <= most {
        return put_letters(text, found.as_slice());
    }
    put_letters(text, &found[..most.saturating_sub(1)])?;
    text.extend_from_slice(b"\xe2\x80\xa6")
}

/// Puts a piece last.
fn put_piece(alloc: Global, text: &mut Vec<u8>, piece: &Piece) -> Result<(), AllocError>
    ensures { OnOk result (text.new.items ≡ text.old.items ++ piece_text piece.now) }
{
    match piece {
        Piece::Plain(words) => text.extend_from_slice(words.as_bytes()),
        Piece::Number(number) => put_number(text, *number as u64),
        Piece::Words(words, most) => put_words(alloc, text, words, *most),
    }
}

/// Puts pieces last, one behind the other.
pub(crate) fn put(alloc: Global, text: &mut Vec<u8>, pieces: &[Piece]) -> Result<(), AllocError>
    ensures { OnOk result (text.new.items ≡ text.old.items ++ flat_map piece_text pieces.now) }
{
    for piece in pieces {
        put_piece(alloc, text, piece)?;
    }
    Ok(())
}
