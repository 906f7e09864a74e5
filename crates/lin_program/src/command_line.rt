//! What the words of a command line say, as `clap` takes them.
ghost use Rattle.std.specs.Prelude.{IfOk, IfErr, map};
ghost use Rattle.lin_program.specs.CommandLine.{IsLineOf, IsRefusalOf};

use crate::words::Line;
use crate::{command, said};
use clap::Error;
use std::alloc::{AllocError, Global};

/// What a command line says, the program's name first.
///
/// Errors: what `clap` refuses, a request for help or the version among it; an order that is said twice or not at all, or standard input
/// named more than once; and want of memory.
pub fn line<'a>(alloc: Global, words: &'a [&'a str]) -> Result<Line<'a>, Error>
    // A line is what `clap` defines, and the words have no fault there.
    ensures understood { IfOk result (IsLineOf (map (λ w. w.now) words.entry.now)) }
    // Words that say a line are refused for want of memory alone, others as is defined.
    ensures refused { IfErr result (IsRefusalOf (map (λ w. w.now) words.entry.now)) }
{
    let matches = command::program(alloc)?.try_get_matches_from(words)?;
    let Some((name, inner)) = matches.subcommand() else {
        return Err(Error::from(AllocError));
    };
    match said::line_of(alloc, name, inner) {
        Ok(line) => Ok(line),
        Err(why) => Err(command::refusal(alloc, name, why)?),
    }
}
