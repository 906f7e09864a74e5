//! What is done with one file.
ghost use Rattle.std.specs.Prelude.{◌≡◌, ◌<◌, ◌++◌, false, true, MatchOption, OnOk};
ghost use Rattle.lin_formats.specs.Devices.{device_of, failures_of, Counts};
ghost use Rattle.lin_formats.specs.Verdicts.{is_write_failed};
ghost use Rattle.lin_program.specs.Tasks.{HasBudget, IsTaskRun, answered as answered_by, fault_rest, format_among, heading_in, is_map_ended, lack_line, settings_of, task_among};
ghost use Rattle.lin_program.specs.Tasks as said;

use crate::refused_orders::verify_text;
use crate::words::Format;
use lin_formats::{Counted, RunFault, Settings, Status};
use lin_json::{put_file_front, put_unopened};
use lin_names::Said;
use lin_report::{Question, RunEnding, check, draw, explain};
use std::alloc::{AllocError, Global};
use std::io::{Read, Write};

/// What is done with one file.
#[derive(Clone, Copy)]
pub enum Task<'a> {
    /// It is decided whether the history is linearizable.
    Check(Settings, lin_report::ReportFormat),
    /// It is told why the answer is what it is.
    Explain(Settings, Question<'a>),
    /// The history is drawn, or the object of this key: up to so many operations, if that is said.
    Draw(Settings, Option<Said<'a>>, Option<u32>),
    /// It is decided whether the order that this text writes is a legal order of the history.
    Verify(Settings, &'a [u8]),
}

impl<'a> Task<'a> {
    /// The same with a file that is one of several, or not.
    pub fn among(self, several: bool) -> Task<'a>
        ensures { result ≡ task_among several self.entry }
    {
        match self {
            Task::Check(settings, format) => Task::Check(settings, among(several, format)),
            _ => self,
        }
    }

    /// How what is found is printed, as far as it tells how a file is named.
    pub fn format(&self) -> lin_report::ReportFormat
        ensures { result ≡ said.format_of self.now }
    {
        match self {
            Task::Check(_, format) => *format,
            _ => lin_report::ReportFormat::Text,
        }
    }

    /// Does it with a file that is open, and writes what it finds.
    ///
    /// Asks that the budget is one with which such a run can be made, and that no count of failures is at its greatest.
    pub fn run<R: Read, W: Write>(
        self,
        alloc: Global,
        file: &mut Counted<R>,
        out: &mut Counted<W>,
    ) -> Result<RunEnding, RunFault>
        requires budget { HasBudget (settings_of self) }
        requires reads { failures_of file.old < u64.MAX }
        requires writes { failures_of out.old < u64.MAX }
        ensures ran { IsTaskRun self.entry (R.remaining (device_of file.old)) (R.remaining (device_of file.new))
            (W.contents (device_of out.old)) (W.contents (device_of out.new)) result }
        ensures counts { Counts (is_write_failed result) (failures_of out.old) (failures_of out.new) }
    {
        match self {
            Task::Check(settings, format) => answered(check(alloc, settings, format, file, out)),
            Task::Explain(settings, question) => explain(alloc, settings, question, file, out),
            Task::Draw(settings, key, last) => draw(alloc, settings, key, last, file, out),
            Task::Verify(settings, order) => {
                answered(verify_text(alloc, settings, order, file, out))
            }
        }
    }
}

/// The outcome of a run that asks about no key.
fn answered(outcome: Result<Status, RunFault>) -> Result<RunEnding, RunFault>
    ensures answered { result ≡ answered_by outcome }
    ensures failed { is_write_failed result ≡ is_write_failed outcome }
{
    match outcome {
        Ok(status) => Ok(RunEnding::Answered(status)),
        Err(fault) => Err(fault),
    }
}

/// One of several reports follows what names its file.
fn among(several: bool, format: lin_report::ReportFormat) -> lin_report::ReportFormat
    ensures { result ≡ format_among several format }
{
    match (several, format) {
        (true, lin_report::ReportFormat::Json) => lin_report::ReportFormat::Rest,
        _ => format,
    }
}

/// Puts last what names a file: a line, or the beginning of a map.
pub fn put_heading(
    text: &mut Vec<u8>,
    format: lin_report::ReportFormat,
    name: &str,
) -> Result<(), AllocError>
    ensures { OnOk result (text.new.items ≡ text.old.items ++ heading_in format name.now) }
{
    if let lin_report::ReportFormat::Rest = format {
        return put_file_front(text, name.as_bytes());
    }
    text.extend_from_slice(b"file ")?;
    text.extend_from_slice(name.as_bytes())?;
    text.push(b'\n')?;
    Ok(())
}

/// Puts last what is written of a file that can't be opened where reports are maps that name their files.
pub fn put_lack(alloc: Global, text: &mut Vec<u8>, name: &str) -> Result<(), AllocError>
    ensures { OnOk result (text.new.items ≡ text.old.items ++ lack_line name.now) }
{
    put_unopened(alloc, text, name.as_bytes())?;
    text.push(b'\n')?;
    Ok(())
}

/// What is left to write of the map that tells of a file over which a run failed so, where there is one and it can be written.
pub fn rest_of_map(format: lin_report::ReportFormat, fault: RunFault) -> Option<&'static [u8]>
    ensures { MatchOption result (is_map_ended format fault ≡ false) (λ rest. (is_map_ended format fault ≡ true) × (rest.now ≡ fault_rest fault)) }
{
    match (format, fault) {
        (lin_report::ReportFormat::Rest, RunFault::ReadFailed) => {
            Some(b"\"valid?\":\"unknown\",\"status\":6,\"answer\":\"1 ReadFailed\"}\n")
        }
        (lin_report::ReportFormat::Rest, RunFault::OutOfMemory) => {
            Some(b"\"valid?\":\"unknown\",\"status\":6,\"answer\":\"3 OutOfMemory\"}\n")
        }
        (lin_report::ReportFormat::Rest, RunFault::TooMuch) => {
            Some(b"\"valid?\":\"unknown\",\"status\":4,\"answer\":\"4 TooMuch\"}\n")
        }
        _ => None,
    }
}

/// The way of printing that a command line names.
pub fn report_format(format: Format) -> lin_report::ReportFormat
    ensures { result ≡ said.report_format format }
{
    match format {
        Format::Text => lin_report::ReportFormat::Text,
        Format::Json => lin_report::ReportFormat::Json,
    }
}
