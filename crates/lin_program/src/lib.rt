//! The program on any system: what the words of a command line say, runs of them, what it tells, and the exit statuses with which it ends.
#![tactic(auto)]

ghost use Rattle.std.specs.Prelude.{◌≡◌, [], map, option_map};
ghost use Rattle.std.specs.IoError.{error_kind};
ghost use Rattle.lin_program.specs.Endings.{AreToldRefused, Ends, EndsBy, IsEdited, IsEditedIn, IsOutcomeOf, IsRunnable, IsVerifiedBy, IsVerifiedFrom, MayTellRefused, pulled_from, read_files, reported_files, settings_of};
ghost use Rattle.lin_program.specs.Program.{EndsOnWords, EndsWithoutWords};
ghost use Rattle.lin_program.specs.Readings.{AreReadingsOf};
ghost use Rattle.lin_program.specs.Reporting.{AreAmong};
ghost use Rattle.lin_program.specs.Tasks.{HasBudget};

mod command;
mod command_line;
mod endings;
mod misuse;
mod orders;
mod readings;
mod refused_files;
mod refused_orders;
mod reporting;
mod said;
mod system;
mod tasks;
mod version;
mod words;

use clap::error::ErrorKind;
pub use command_line::line;
pub use endings::{exit_of, exit_of_refusal};
use endings::{FAILED, LINE_REFUSED, Stop, stopped};
pub use lin_formats::PassedOver;
use lin_formats::{Counted, Refusal, RunFault, Settings, Status, refusal_words};
use lin_report::{Question, run as edit};
use orders::{bytes_in, without_line_end};
use readings::{Reading, tell_readings};
use refused_files::tell_file;
use reporting::report_all;
use std::alloc::{AllocError, Global};
use std::io;
use std::io::Read;
pub use system::{Message, System};
use tasks::{Task, report_format};
pub use words::{Format, Line, OrderSource};

/// What is to be told of a line's files, beside what is found.
#[derive(Drop)]
struct Notes<'a> {
    /// Those of which maps were passed over, or from which no event was read, though one is looked for there.
    readings: Vec<Reading<'a>>,
    /// The names of those that are refused.
    files: Vec<&'a str>,
    /// Why the file that commands pull from was refused last.
    refused: Option<Refusal>,
}

/// Decides of each of the files whether the order that another file holds is a legal order of its history.
fn verify_from<'a, S: System>(
    alloc: Global,
    system: &S,
    settings: Settings,
    name: &'a str,
    files: &[&'a str],
    refused: &mut Vec<&'a str>,
) -> Result<Status, Stop<'a>>
    requires budget { HasBudget settings }
    requires none { refused.old.items ≡ [] }
    ensures noted { AreAmong (map (λ n. n.now) files.now) refused.new.items }
    ensures verified { IsVerifiedFrom S.words S.File.remaining S.Commands.remaining S.Out.contents system.now settings name.now (map (λ n. n.now) files.now) result }
{
    let text = bytes_in(alloc, system, name)?;
    let order = without_line_end(text.as_slice());
    let task = Task::Verify(settings, order);
    report_all(alloc, system, task, files, &mut Vec::new(alloc), refused)
}

/// Decides of each of the files whether the order is a legal order of its history.
fn verify_all<'a, S: System>(
    alloc: Global,
    system: &S,
    settings: Settings,
    order: OrderSource<'a>,
    files: &[&'a str],
    refused: &mut Vec<&'a str>,
) -> Result<Status, Stop<'a>>
    requires budget { HasBudget settings }
    requires none { refused.old.items ≡ [] }
    ensures noted { AreAmong (map (λ n. n.now) files.now) refused.new.items }
    ensures verified { IsVerifiedBy S.words S.File.remaining S.Commands.remaining S.Out.contents system.now settings order.entry (map (λ n. n.now) files.now) result }
{
    match order {
        OrderSource::Given(text) => {
            let task = Task::Verify(settings, text.as_bytes());
            report_all(alloc, system, task, files, &mut Vec::new(alloc), refused)
        }
        OrderSource::InFile(name) => verify_from(alloc, system, settings, name, files, refused),
    }
}

/// Carries out the commands of standard input, over a file that is open. Why that was refused last goes to `refused`.
fn edit_on<S: System, R: Read + Drop>(
    alloc: Global,
    system: &S,
    settings: Settings,
    file: R,
    refused: &mut Option<Refusal>,
) -> Result<Status, RunFault>
    requires { HasBudget settings }
    ensures { IsEdited S.words S.Commands.remaining S.Out.contents system.now settings (R.remaining file) result }
{
    let mut file = Counted::new(file);
    let outcome = edit(
        alloc,
        settings,
        &mut file,
        &mut Counted::new(system.commands()),
        &mut Counted::new(system.out()),
    );
    *refused = file.refused();
    outcome
}

/// Carries out the commands of standard input, over the file of this name, or over nothing.
fn edit_named<'a, S: System>(
    alloc: Global,
    system: &S,
    settings: Settings,
    name: Option<&'a str>,
    refused: &mut Option<Refusal>,
) -> Result<Status, Stop<'a>>
    requires { HasBudget settings }
    ensures { IsEditedIn S.words S.File.remaining S.Commands.remaining S.Out.contents system.now settings (option_map (λ n. n.now) name.entry) result }
{
    let Some(name) = name else {
        return stopped(edit_on(alloc, system, settings, b"".as_slice(), refused));
    };
    match system.open(name) {
        Some(file) => stopped(edit_on(alloc, system, settings, file, refused)),
        None => Err(Stop::NotOpened(name)),
    }
}

/// Does what the line says. What is to be told of its files besides goes to `notes`.
fn carry_out<'a, S: System>(
    alloc: Global,
    system: &S,
    line: &Line<'a>,
    notes: &mut Notes<'a>,
) -> Result<Status, Stop<'a>>
    requires runs { IsRunnable line.now }
    requires none { notes.old.readings.items ≡ [] }
    requires unrefused { notes.old.files.items ≡ [] }
    ensures outcome { IsOutcomeOf S.words S.File.remaining S.Commands.remaining S.Out.contents system.now line.now result }
    ensures named { AreReadingsOf (reported_files line.now) notes.new.readings.items }
    ensures noted { AreAmong (read_files line.now) notes.new.files.items }
{
    match line {
        Line::Check {
            settings,
            format,
            files,
        } => {
            let task = Task::Check(*settings, report_format(*format));
            report_all(
                alloc,
                system,
                task,
                files.as_slice(),
                &mut notes.readings,
                &mut notes.files,
            )
        }
        Line::Explain {
            settings,
            key,
            all_keys,
            with_order,
            format,
            file,
        } => {
            let question = Question {
                key: *key,
                all_keys: *all_keys,
                with_order: *with_order,
                format: report_format(*format),
            };
            let task = Task::Explain(*settings, question);
            report_all(
                alloc,
                system,
                task,
                &[*file],
                &mut notes.readings,
                &mut notes.files,
            )
        }
        Line::Draw {
            settings,
            key,
            last,
            file,
        } => {
            let task = Task::Draw(*settings, *key, *last);
            report_all(
                alloc,
                system,
                task,
                &[*file],
                &mut notes.readings,
                &mut notes.files,
            )
        }
        Line::Verify {
            settings,
            order,
            files,
        } => verify_all(
            alloc,
            system,
            *settings,
            *order,
            files.as_slice(),
            &mut notes.files,
        ),
        Line::Edit { settings, file } => {
            edit_named(alloc, system, *settings, *file, &mut notes.refused)
        }
    }
}

/// The settings of the line.
fn settings_said(line: &Line) -> Settings
    ensures { result ≡ settings_of line.now }
{
    match line {
        Line::Check { settings, .. }
        | Line::Explain { settings, .. }
        | Line::Draw { settings, .. }
        | Line::Verify { settings, .. }
        | Line::Edit { settings, .. } => *settings,
    }
}

/// Tells of each of the files why it is refused, as it stands now.
fn tell_files<S: System>(alloc: Global, system: &mut S, settings: Settings, names: &[&str])
    ensures { AreToldRefused S.words S.File.remaining settings system.old names.now system.new }
{
    for name in names {
        tell_file(alloc, system, settings, name);
    }
}

/// The file that commands pull from, if the line names one.
fn pulled_file<'a>(line: &Line<'a>) -> Option<&'a str>
    ensures { option_map (λ n. n.now) result ≡ pulled_from line.now }
{
    match line {
        Line::Edit { file, .. } => *file,
        _ => None,
    }
}

/// Tells of the file that commands pull from why it is refused, if it is.
fn tell_refused<S: System>(
    alloc: Global,
    system: &mut S,
    name: Option<&str>,
    refused: Option<Refusal>,
) -> Result<(), AllocError>
    ensures { MayTellRefused S.words system.old (option_map (λ n. n.now) name.entry) system.new }
{
    let (Some(name), Some(refusal)) = (name, refused) else {
        return Ok(());
    };
    let words = refusal_words(alloc, refusal)?;
    if let Ok(words) = std::str::from_utf8(&words) {
        let _is_told = system.tell(&Message::Refused(name, words));
    }
    Ok(())
}

/// Tells why a run ended early, if it did, and gives the exit status.
fn end<S: System>(system: &mut S, outcome: Result<Status, Stop>) -> u8
    ensures { EndsBy S.words system.old system.new outcome.entry result }
{
    match outcome {
        Ok(status) => exit_of(&Ok(status)),
        Err(Stop::NotOpened(name)) => {
            let _is_told = system.tell(&Message::NotOpened(name));
            FAILED
        }
        Err(Stop::NoKey(name, words)) => {
            let _is_told = system.tell(&Message::NoKey(name, words.as_slice()));
            LINE_REFUSED
        }
        Err(Stop::Written) => FAILED,
        Err(Stop::FaultWritten(fault)) => exit_of(&Err(fault)),
        Err(Stop::Fault(fault)) => {
            let _is_told = system.tell(&Message::Fault(fault));
            exit_of(&Err(fault))
        }
    }
}

/// Does what the line says, tells which maps were passed over and from which files no event was read, why files are refused, and why that ended early, if it did, and gives the exit
/// status.
fn run_line<S: System>(alloc: Global, system: &mut S, line: Line) -> u8
    requires { IsRunnable line }
    ensures { Ends S.words system.old system.new S.File.remaining S.Commands.remaining S.Out.contents line.entry result }
{
    let mut notes = Notes {
        readings: Vec::new(alloc),
        files: Vec::new(alloc),
        refused: None,
    };
    let outcome = carry_out(alloc, &*system, &line, &mut notes);
    tell_readings(system, notes.readings.as_slice());
    tell_files(alloc, system, settings_said(&line), notes.files.as_slice());
    // (where there is no memory for the words, they aren't told)
    let _is_told = tell_refused(alloc, system, pulled_file(&line), notes.refused).is_ok();
    end(system, outcome)
}

/// Runs what the words say, and gives the exit status.
pub fn run_words<S: System>(alloc: Global, system: &mut S, words: &[&str]) -> u8
    ensures { EndsOnWords S.words S.File.remaining S.Commands.remaining S.Out.contents system.old system.new (map (λ w. w.now) words.entry.now) result }
{
    match line(alloc, words) {
        Ok(line) => run_line(alloc, system, line),
        Err(error) if error.kind() == ErrorKind::OutOfMemory => {
            let _is_told = system.tell(&Message::OutOfMemory);
            FAILED
        }
        Err(error) => {
            let is_told = system.tell(&Message::Refusal(&error));
            exit_of_refusal(&error, is_told)
        }
    }
}

/// Tells why there are no words of a command line, and gives the exit status.
pub fn end_without_words<S: System>(system: &mut S, error: &io::Error) -> u8
    ensures { EndsWithoutWords S.words (error_kind error.now) system.old system.new result }
{
    match error.kind() {
        io::ErrorKind::OutOfMemory => {
            let _is_told = system.tell(&Message::OutOfMemory);
            FAILED
        }
        _ => {
            if system.tell(&Message::NoText) {
                LINE_REFUSED
            } else {
                FAILED
            }
        }
    }
}
