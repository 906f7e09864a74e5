//! The commands of an edit script: a line each.
ghost use Rattle.std.specs.Prelude.{◌≡◌, ◌⊎◌, ◌+◌, ◌^◌, ◌<◌, ◌≤◌, Option, Result, Err, length, drop};
ghost use Rattle.lin_history.specs.Reading.{IsReading, Reading};
ghost use Rattle.lin_history.specs.Table.{IsAnswer};
ghost use Rattle.lin_names.specs.Names.{Begins};
ghost use Rattle.lin_events.specs.declared.events.Event.{Event as TheEvent};
ghost use Rattle.lin_history.specs.declared.table.EventFault.{EventFault as TheFault};
ghost use Rattle.lin_report.specs.CommandLaws.{CommandsAreUnique};
ghost use Rattle.lin_report.specs.Commands as said;
ghost use Rattle.lin_report.specs.Commands.{IsMapCommand, IsRead};
ghost use Rattle.lin_report.specs.MapCommands.{IsBlankOrNot, IsMade};

use crate::senses::{Sense, Target, sense_of};
use lin_answers::{Edit, Scope};
use lin_edn::{EdnCause, EdnFault, Next, next_element, places, readings_are_unique};
use lin_events::{Event, Item};
use lin_history::{EventFault, NextEvent, next_event};
use lin_names::Names;
use std::alloc::Global;
use thiserror::Error;

/// The greatest length of a line without its end.
const LONGEST: usize = 1_048_576;

/// What a line asks for.
#[derive(Drop)]
pub enum Command {
    /// A change to the history, to the kind of an object or to the budget.
    Edit(Edit),
    /// An operation of the nemesis: nothing changes.
    Skipped,
    /// Whether the whole, or one object, is linearizable.
    Ask(Scope),
    /// The same, with a legal order where there is one.
    Order(Scope),
    /// What is found of all objects.
    Report,
    /// The events that the file has now.
    Pull,
    /// A refutation of one object.
    Refute(Item),
    /// Why the answer is what it is, for the whole or for one object.
    Explain(Scope),
    /// How much was done so far.
    Work,
}

/// Why a line is refused: the first of these that holds.
#[derive(Clone, Copy, Debug, PartialEq, Eq, Error)]
pub enum CommandFault {
    /// The first word is no command.
    #[error("1 UnknownCommand")]
    UnknownCommand,
    /// There are more or fewer words than the command has.
    #[error("2 BadWords")]
    BadWords,
    /// A word is no number or no key where one is due, or a number that is too large.
    #[error("3 BadNumber")]
    BadNumber,
    /// A word is no kind where one is due.
    #[error("4 BadKind")]
    BadKind,
    /// A map is missing, unfinished, or followed by something.
    #[error("5 NotOneMap")]
    NotOneMap,
    /// The line has more than 1,048,576 bytes.
    #[error("6 LineTooLong")]
    LineTooLong,
    /// The map breaks the form of EDN at this place of the line.
    #[error("7 Edn")]
    Edn(EdnFault),
    /// The map says no event.
    #[error("8 Event")]
    Event(EventFault),
    /// Memory that was asked for was refused.
    #[error("9 OutOfMemory")]
    OutOfMemory,
}

/// A line without one byte 13 at its end.
fn without_return(line: &[u8]) -> &[u8]
    ensures { result.now ≡ said.without_return line.now }
{
    match line {
        [front @ .., b'\r'] => front,
        _ => line,
    }
}

/// Whether behind a place stand blanks, and then nothing or an unfinished comment.
fn is_blank(alloc: Global, text: &[u8], from: usize) -> Result<bool, CommandFault>
    requires { from ≤ length text.now }
    ensures { IsBlankOrNot (drop from text.now) result }
{
    match next_element(alloc, &text[from..]) {
        Ok(Next::Complete { .. }) => Ok(false),
        Ok(Next::Partial { .. }) => Ok(false),
        Ok(Next::Blank { .. }) => Ok(true),
        Err(fault) => match fault.cause {
            EdnCause::OutOfMemory => Err(CommandFault::OutOfMemory),
            _ => Ok(false),
        },
    }
}

/// The command that an operation map makes which says this; one of the nemesis is skipped.
fn command_of(
    target: Target,
    told: Result<Option<Event>, EventFault>,
) -> Result<Option<Command>, CommandFault>
    ensures { (wanted : Result (Option TheEvent) TheFault) → IsAnswer wanted told → IsMade (said.command_of target wanted) result }
{
    match told {
        Ok(Some(event)) => Ok(Some(Command::Edit(target.edit(event)))),
        Ok(None) => Ok(Some(Command::Skipped)),
        Err(EventFault::OutOfMemory) => Err(CommandFault::OutOfMemory),
        Err(fault) => Err(CommandFault::Event(fault)),
    }
}

/// The command that a text says, which stands from a place of the line on and has to be one map.
fn read_map(
    alloc: Global,
    keyed: bool,
    target: Target,
    text: &[u8],
    from: usize,
    names: &mut Names,
) -> Result<Option<Command>, CommandFault>
    requires { from + length text.now < 2 ^ 64 }
    ensures begun { Begins names.old names.new }
    ensures read { (m : Reading) → IsReading keyed names.new m → IsMapCommand m target from text.now result ⊎ (result ≡ Err CommandFault.OutOfMemory) }
{
    places();
    match next_event(alloc, text, keyed, names) {
        Ok(NextEvent::Complete { said, used }) => {
            if is_blank(alloc, text, used)? {
                command_of(target, said)
            } else {
                Err(CommandFault::NotOneMap)
            }
        }
        Ok(NextEvent::Partial { .. }) => Err(CommandFault::NotOneMap),
        Ok(NextEvent::Blank { .. }) => Err(CommandFault::NotOneMap),
        Err(fault) => match fault.cause {
            EdnCause::OutOfMemory => Err(CommandFault::OutOfMemory),
            cause => Err(CommandFault::Edn(EdnFault {
                at: from + fault.at,
                cause,
            })),
        },
    }
}

/// The command that a line writes, given without its end; `None` where it has no word. One byte 13 at its end is passed over.
///
/// With `keyed`, the values of operation maps are pairs of a key and a value. Tested in this order: the length, the first word,
/// the number of words, numbers and keys from left to right, the word for a kind, and then the map. Words that are items get numbers.
///
/// Errors: as `CommandFault` tells; want of memory only where the line has a place for a map, or names a key.
pub fn read_command(
    alloc: Global,
    line: &[u8],
    keyed: bool,
    names: &mut Names,
) -> Result<Option<Command>, CommandFault>
    ensures begun { Begins names.old names.new }
    ensures read { (m : Reading) → IsReading keyed names.new m → IsRead m line.now result }
{
    if line.len() > LONGEST {
        return Err(CommandFault::LineTooLong);
    }
    let line = without_return(line);
    match sense_of(line, names)? {
        Sense::Nothing => Ok(None),
        Sense::Plain(command) => Ok(Some(command)),
        Sense::Map(target, from) => read_map(alloc, keyed, target, &line[from..], from, names),
    }
}

/// A line says one command, or one reason why it is refused. The function does nothing.
pub fn commands_are_unique()
    ensures { CommandsAreUnique }
{
    readings_are_unique();
}
