//! The exit statuses with which the program ends.
ghost use Rattle.std.specs.Prelude.{◌≡◌, if◌then◌else◌};
ghost use Rattle.clap.specs.Words.{kind_of};
ghost use Rattle.lin_program.specs.Exit as said;
ghost use Rattle.lin_program.specs.Exit.{exit_status, refusal_status};
ghost use Rattle.lin_program.specs.Reporting.{IsEndedAt, stopped as stopped_by};

use clap::Error;
use clap::error::ErrorKind;
use lin_formats::{RunFault, Status};
use lin_report::RunEnding;

/// The exit status where the command line is refused, or names a key that no event has.
pub const LINE_REFUSED: u8 = 5;

/// The exit status where memory or a device failed, or a file can't be opened.
pub const FAILED: u8 = 6;

/// Why runs over files end early.
#[derive(Drop)]
pub enum Stop<'a> {
    /// The file of this name can't be opened.
    NotOpened(&'a str),
    /// No event of the file of this name has the key that is asked about, as these words tell.
    NoKey(&'a str, Vec<u8>),
    /// A file can't be opened, and that is written in place of its report.
    Written,
    /// Memory or a device failed over a file, or it is too long, and that is written in its report.
    FaultWritten(RunFault),
    /// Memory or a device failed, or a file is too long.
    Fault(RunFault),
}

/// The outcome of runs that a fault of one run stops.
pub fn stopped<'a>(outcome: Result<Status, RunFault>) -> Result<Status, Stop<'a>>
    ensures { result ≡ stopped_by outcome }
{
    match outcome {
        Ok(status) => Ok(status),
        Err(fault) => Err(Stop::Fault(fault)),
    }
}

/// The outcome of runs of which one ends so over the file of this name.
pub fn ended_at<'a>(name: &'a str, ended: Result<RunEnding, RunFault>) -> Result<Status, Stop<'a>>
    ensures { IsEndedAt name.now ended result }
{
    match ended {
        Ok(RunEnding::Answered(status)) => Ok(status),
        Ok(RunEnding::NoKey(words)) => Err(Stop::NoKey(name, words)),
        Err(fault) => Err(Stop::Fault(fault)),
    }
}

/// How bad a status is: refused, ill-formed, no, undecided and yes, the worst first.
fn rank(status: Status) -> u8
    ensures { result ≡ said.rank status }
{
    match status {
        Status::Yes => 0,
        Status::Undecided => 1,
        Status::No => 2,
        Status::IllFormed => 3,
        Status::Refused => 4,
    }
}

/// The worse one of two statuses.
pub fn worse(one: Status, other: Status) -> Status
    ensures { result ≡ said.worse one other }
{
    if rank(one) < rank(other) { other } else { one }
}

/// The exit status of a run: 0 yes, 1 no, 2 undecided, 3 ill-formed, 4 refused, 6 where memory or a device failed.
pub fn exit_of(outcome: &Result<Status, RunFault>) -> u8
    ensures { result ≡ exit_status outcome.now }
{
    match outcome {
        Ok(Status::Yes) => 0,
        Ok(Status::No) => 1,
        Ok(Status::Undecided) => 2,
        Ok(Status::IllFormed) => 3,
        Ok(Status::Refused) | Err(RunFault::TooMuch) => 4,
        Err(_) => FAILED,
    }
}

/// The exit status where `clap` gives no line: 0 where help or the version was asked for, and 6 where what it says couldn't be told.
pub fn exit_of_refusal(error: &Error, is_told: bool) -> u8
    ensures { result ≡ (if is_told then refusal_status (kind_of error.now) else 6) }
{
    if !is_told {
        return FAILED;
    }
    match error.kind() {
        ErrorKind::DisplayHelp | ErrorKind::DisplayVersion => 0,
        ErrorKind::OutOfMemory => FAILED,
        _ => LINE_REFUSED,
    }
}
