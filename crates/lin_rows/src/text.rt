//! Texts of one line: `\n` is a line feed, `\s` a space, `\v` a vertical tab, `\z` the byte 0, `\\` a backslash, and `\12*a` twelve
//! times `a`.
use std::alloc::Global;

/// Where a line is read to within an escape.
#[derive(Clone, Copy)]
enum EscapePlace {
    Plain,
    BehindBackslash,
    InCount(u32),
    BehindCount(u32),
}

/// The character that a letter stands for behind a backslash.
fn escaped(letter: char) -> Option<char> {
    match letter {
        'n' => Some('\n'),
        's' => Some(' '),
        'v' => Some('\x0b'),
        'z' => Some('\0'),
        '\\' => Some('\\'),
        _ => None,
    }
}

/// A count with one digit more.
fn with_digit(count: u32, letter: char) -> Option<EscapePlace> {
    let digit = letter.to_digit(10)?;
    let count = count.checked_mul(10)?.checked_add(digit)?;
    Some(EscapePlace::InCount(count))
}

fn push_times(text: &mut String, letter: char, count: u32) -> Option<()> {
    for _ in 0..count {
        text.push(letter).ok()?;
    }
    Some(())
}

/// Reads one more letter of a line.
fn read(text: &mut String, place: EscapePlace, letter: char) -> Option<EscapePlace> {
    match (place, letter) {
        (EscapePlace::Plain, '\\') => return Some(EscapePlace::BehindBackslash),
        (EscapePlace::BehindBackslash, '0'..='9') => return with_digit(0, letter),
        (EscapePlace::InCount(count), '*') => return Some(EscapePlace::BehindCount(count)),
        (EscapePlace::InCount(count), _) => return with_digit(count, letter),
        (EscapePlace::Plain, _) => push_times(text, letter, 1)?,
        (EscapePlace::BehindBackslash, _) => push_times(text, escaped(letter)?, 1)?,
        (EscapePlace::BehindCount(count), _) => push_times(text, letter, count)?,
    }
    Some(EscapePlace::Plain)
}

/// The text that a line spells.
pub fn spelled(alloc: Global, line: &str) -> Option<String> {
    let mut text = String::new(alloc);
    let mut place = EscapePlace::Plain;
    for letter in line.chars() {
        place = read(&mut text, place, letter)?;
    }
    Some(text)
}
