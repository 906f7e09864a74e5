//! What the program asks of the system that it runs on.
ghost use Rattle.std.specs.Prelude.{IfSome, IfNone};
ghost use Rattle.lin_program.specs.Exit.{SystemWords};

use clap::Error;
use lin_formats::{PassedOver, RunFault};
use std::io::{Read, Write};

/// What the program tells beside what its runs write.
#[derive(Drop)]
pub enum Message<'a> {
    /// Why the words of a command line say none.
    Refusal(&'a Error),
    /// The file of this name can't be opened.
    NotOpened(&'a str),
    /// No event of a client was read from the file of this name.
    NothingRead(&'a str),
    /// These maps of the file of this name were passed over, and no event of a client was read from it, or one was.
    PassedOver(&'a str, &'a PassedOver, bool),
    /// The file of this name is refused, by these words.
    Refused(&'a str, &'a str),
    /// No event of the file of this name has the key that is asked about, as these words tell, which spell keys as the file does.
    NoKey(&'a str, &'a [u8]),
    /// Why a run ended early.
    Fault(RunFault),
    /// Memory was refused before there was a command line.
    OutOfMemory,
    /// The words of the command line are no text.
    NoText,
}

/// Files by their names, standard input, the output that runs write to, and messages for whoever runs the program.
///
/// What the system has and does is told by words that mean what the system says. So a program over any system can't take one file
/// for another one, or say that a file can't be opened unless the system did.
pub trait System {
    /// A file that is open.
    type File: Read + Drop;

    /// Standard input, where commands are read, and a file of the name `-`.
    type Commands: Read + Drop;

    /// Where runs write.
    type Out: Write + Drop;

    /// The words that say what the system answered.
    ghost words: { SystemWords Self Self.File Self.Commands Self.Out };

    /// Opens the file of that name.
    fn open(&self, path: &str) -> Option<Self::File>
        ensures some { IfSome result (words.opens self.now path.now) }
        ensures none { IfNone result (words.lacks self.now path.now) };

    /// Opens the file of that name once more, where it is a plain one: another may give nothing again, and opening it may wait for whoever writes there.
    fn reopen(&self, path: &str) -> Option<Self::File>
        ensures { IfSome result (words.reopens self.now path.now) };

    /// Standard input.
    fn commands(&self) -> Self::Commands
        ensures { words.reads self.now result };

    /// Where runs write.
    fn out(&self) -> Self::Out
        ensures { words.writes self.now result };

    /// Tells the message, and answers whether that could be done.
    fn tell(&mut self, message: &Message) -> bool
        ensures { words.tells self.old message.now result self.new };
}
