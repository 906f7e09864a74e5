//! What is told beside a report of a file that is refused: where, and the rule, as an explanation has it, and what stands there.
ghost use Rattle.std.specs.Prelude.{IfOk, IfSome};
ghost use Rattle.lin_program.specs.Endings.{IsStillRefused, MayTellWhy};

use crate::system::{Message, System};
use lin_formats::{Counted, History, RunFault, Settings, read_placed, refusal_lines};
use lin_names::Names;
use std::alloc::{AllocError, Global};

/// How many bytes are told of what stands at a place.
const TOLD: usize = 120;

/// Lines as one, without the end of the last one.
fn as_one(alloc: Global, lines: &[u8]) -> Result<Vec<u8>, AllocError> {
    let mut words = Vec::new(alloc);
    for byte in lines {
        match byte {
            b'\n' => words.extend_from_slice(b"; ")?,
            _ => words.push(*byte)?,
        }
    }
    let count = words.len();
    words.truncate(count.saturating_sub(2));
    Ok(words)
}

/// Puts last what stands at the place of a fault, up to the end of the line; of what doesn't begin as text, nothing.
fn put_found(words: &mut Vec<u8>, bytes: &[u8]) -> Result<(), AllocError> {
    if !matches!(bytes.first(), Some(b' '..=b'~')) {
        return Ok(());
    }
    words.extend_from_slice(b"; it reads ")?;
    let (shown, rest) = bytes.split_at_checked(TOLD).unwrap_or((bytes, b""));
    for byte in shown {
        if *byte < b' ' {
            return Ok(());
        }
        words.push(*byte)?;
    }
    if !rest.is_empty() {
        words.extend_from_slice(b"..")?;
    }
    Ok(())
}

/// The beginning of the words that is text: what a file spells may be none.
fn text_of(words: &[u8]) -> &str {
    match std::str::from_utf8(words) {
        Ok(text) => text,
        Err(error) => match words.get(..error.valid_up_to()) {
            Some(beginning) => std::str::from_utf8(beginning).unwrap_or(""),
            None => "",
        },
    }
}

/// Why the file of this name is refused, as it stands now; nothing where it isn't, or can't be opened once more.
fn words_of<S: System>(
    alloc: Global,
    system: &S,
    settings: Settings,
    name: &str,
) -> Result<Option<Vec<u8>>, RunFault>
    ensures { IfOk result (λ found. IfSome found (λ _. IsStillRefused S.words S.File.remaining settings system.now name.now)) }
{
    let Some(file) = system.reopen(name) else {
        return Ok(None);
    };
    let mut file = Counted::new(file);
    let mut names = Names::new(alloc);
    let (keyed, least) = (settings.keyed, settings.at_least);
    match read_placed(alloc, keyed, least, &mut file, &mut names)? {
        (History::Refused(refusal), placed) => {
            let lines = refusal_lines(alloc, refusal, &placed)?;
            let mut words = as_one(alloc, lines.as_slice())?;
            put_found(&mut words, placed.places.from_bad().unwrap_or(b""))?;
            Ok(Some(words))
        }
        _ => Ok(None),
    }
}

/// Tells why the file of this name is refused, as it stands now, where there is memory for that.
pub fn tell_file<S: System>(alloc: Global, system: &mut S, settings: Settings, name: &str)
    ensures { MayTellWhy S.words S.File.remaining settings system.old name.now system.new }
{
    let Ok(Some(words)) = words_of(alloc, &*system, settings, name) else {
        return;
    };
    let words = text_of(&words);
    let _is_told = system.tell(&Message::Refused(name, words));
}
