//! Words that `clap` takes, and that say no line.
ghost use Rattle.std.specs.Prelude.{◌≡◌};
ghost use Rattle.lin_program.specs.CommandLine.{refusal_kind};

use clap::error::ErrorKind;
use std::alloc::AllocError;

/// Why words that `clap` takes say no line.
#[derive(Clone, Copy, Debug, PartialEq, Eq)]
pub enum NoLine {
    /// `verify` has neither an order nor the name of a file with one.
    NoOrder,
    /// `verify` has both.
    TwoOrders,
    /// Standard input is named more than once, and can be read once.
    InputTwice,
    /// The word behind `--key` is no item.
    NoKey,
    /// Memory was refused, or a word is missing that `clap` requires or has a default for.
    Unsaid,
}

impl NoLine {
    /// The kind of the error that tells it.
    pub fn kind(self) -> ErrorKind
        ensures { result ≡ refusal_kind self }
    {
        match self {
            NoLine::NoOrder => ErrorKind::MissingRequiredArgument,
            NoLine::TwoOrders | NoLine::InputTwice => ErrorKind::ArgumentConflict,
            NoLine::NoKey => ErrorKind::ValueValidation,
            NoLine::Unsaid => ErrorKind::OutOfMemory,
        }
    }

    /// The words of that error.
    pub fn text(self) -> &'static str {
        match self {
            NoLine::NoOrder => "neither ORDER nor --order-file is given",
            NoLine::TwoOrders => "ORDER and --order-file are both given",
            NoLine::InputTwice => "standard input, -, is named more than once",
            NoLine::NoKey =>
                "KEY is neither an integer of 64 bits nor true, false, a keyword or a string",
            NoLine::Unsaid => "out of memory",
        }
    }
}

impl From<AllocError> for NoLine {
    ghost use Rattle.lin_program.specs.declared.misuse.NoLine.TheVariants.{Unsaid};

    ghost from_gives = { λ _ why. why ≡ Unsaid };

    fn from(_error: AllocError) -> NoLine {
        NoLine::Unsaid
    }
}
