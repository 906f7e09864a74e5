//! Calls that ask about bytes once.
ghost use Rattle.std.specs.Prelude.{◌≡◌, ◌↔◌};
ghost use Rattle.lin_embedded.specs.Calls.{HandsBack, HandsExplained, IsAbsent, IsExplanationOf, IsReportOf};
ghost use Rattle.lin_embedded.specs.Options.{AreOptions, NamesNone};

use crate::asking::{explanation, report};
use crate::handing::{CallEnd, hand_back};
use crate::options::{Options, are_options, format_of, question_of, settings_of};
use std::alloc::Global;

/// Tells whether the history of these bytes is linearizable (Herlihy and Wing 1990, section 3): puts the report, or the one line that refuses
/// the bytes, into the beginning of the room, and its length into `needed`.
pub fn check(
    alloc: Global,
    options: Options,
    history: &[u8],
    room: &mut [u8],
    needed: &mut usize,
) -> CallEnd
    ensures hands { HandsBack (IsReportOf options history.now) room.old room.new needed.old needed.new result }
    ensures bad { (result ≡ CallEnd.BadOptions) ↔ (AreOptions options → ⊥) }
{
    if !are_options(options) {
        return CallEnd::BadOptions;
    }
    match report(alloc, settings_of(options), format_of(options), history) {
        Ok(found) => hand_back(&found, room, needed),
        Err(_) => CallEnd::OutOfMemory,
    }
}

/// Tells why the history of these bytes is linearizable or not, or isn't decided, for the object of the key that a text names, or for the whole
/// where that text is empty: as `check` does. Nothing is told where no event of a whole history has the key.
pub fn explain(
    alloc: Global,
    options: Options,
    history: &[u8],
    key: &[u8],
    room: &mut [u8],
    needed: &mut usize,
) -> CallEnd
    ensures hands { HandsExplained (IsExplanationOf options key.now history.now) (IsAbsent options key.now history.now) room.old room.new needed.old needed.new result }
    ensures bad { (result ≡ CallEnd.BadOptions) ↔ (AreOptions options × (NamesNone key.now → ⊥) → ⊥) }
{
    if !are_options(options) {
        return CallEnd::BadOptions;
    }
    let Some(question) = question_of(options, key) else {
        return CallEnd::BadOptions;
    };
    match explanation(alloc, settings_of(options), question, history) {
        Ok(Some(found)) => hand_back(&found, room, needed),
        Ok(None) => CallEnd::NoKey,
        Err(_) => CallEnd::OutOfMemory,
    }
}
