//! Whether the history in a file is linearizable.
ghost use Rattle.std.specs.Prelude.{◌≡◌, ◌<◌, ◌≤◌, ◌++◌, codes, length, IfOk, IsErrOf};
ghost use Rattle.lin_formats.specs.VerdictTexts.{refusal_text};
ghost use Rattle.lin_formats.specs.Devices.{device_of, failures_of, Counts};
ghost use Rattle.lin_formats.specs.Histories.{is_read_failed};
ghost use Rattle.lin_formats.specs.Inputs.{limit};
ghost use Rattle.lin_report.specs.Reports.{IsChecked, IsCheckRun, IsReport, opened, refusal_line};
ghost use Rattle.lin_formats.specs.Verdicts.{is_write_failed, IsReadTooFar};

use crate::formats::{ReportFormat, take_first_away};
use crate::json_reports::json_refusal;
use crate::reports::report;
use crate::sessions::{names_are_apart, session_of};
use lin_events::{Event, OutOfMemory};
use lin_formats::{
    Counted, History, Refusal, RunFault, Settings, Status, read_history, refusal_words, write_whole,
};
use lin_names::Names;
use std::alloc::{AllocError, Global};
use std::io::{Read, Write};

/// What is printed of a file, and the status of a run that prints it.
#[derive(Drop)]
pub struct Answered {
    pub text: Vec<u8>,
    pub status: Status,
}

/// A report of these events, beside which so many maps were passed over.
fn report_of(
    alloc: Global,
    settings: Settings,
    format: ReportFormat,
    names: &Names,
    events: Vec<Event>,
    passed: u64,
) -> Result<Answered, OutOfMemory>
    requires budget { (1 ≤ settings.budget) × (settings.budget ≤ 1000000) }
    requires few { length events.items ≤ limit }
    ensures { IfOk result (λ answered. IsReport names.now format passed (opened settings events.items) answered.text.items answered.status) }
{
    let mut session = session_of(alloc, settings, events)?;
    let (text, status) = report(alloc, &mut session, names, format, passed)?;
    Ok(Answered { text, status })
}

/// The line that refuses a file.
fn text_refusal(alloc: Global, refusal: Refusal) -> Result<Vec<u8>, AllocError>
    ensures { IfOk result (λ line. line.items ≡ refusal_text refusal ++ codes "\n") }
{
    let mut line = refusal_words(alloc, refusal)?;
    line.push(b'\n')?;
    Ok(line)
}

/// What is printed of a file that is refused.
pub fn refused(
    alloc: Global,
    format: ReportFormat,
    refusal: Refusal,
) -> Result<Answered, AllocError>
    ensures { IfOk result (λ answered. (answered.text.items ≡ refusal_line format refusal) × (answered.status ≡ Status.Refused)) }
{
    let text = match format {
        ReportFormat::Text => text_refusal(alloc, refusal)?,
        ReportFormat::Json => json_refusal(alloc, refusal)?,
        ReportFormat::Rest => {
            let mut line = json_refusal(alloc, refusal)?;
            take_first_away(&mut line);
            line
        }
    };
    Ok(Answered {
        text,
        status: Status::Refused,
    })
}

/// What is printed of a file.
fn find<R: Read>(
    alloc: Global,
    settings: Settings,
    format: ReportFormat,
    file: &mut Counted<R>,
) -> Result<Answered, RunFault>
    requires budget { (1 ≤ settings.budget) × (settings.budget ≤ 1000000) }
    requires reads { failures_of file.old < u64.MAX }
    ensures found { IfOk result (λ answered. IsChecked settings format (R.remaining (device_of file.old)) (R.remaining (device_of file.new)) answered.text.items answered.status) }
    ensures too_much { IsErrOf result RunFault.TooMuch → IsReadTooFar (R.remaining (device_of file.old)) (R.remaining (device_of file.new)) }
    ensures counts { Counts (is_read_failed result) (failures_of file.old) (failures_of file.new) }
    ensures readers { IsErrOf result RunFault.WriteFailed → ⊥ }
{
    let mut names = Names::new(alloc);
    let history = read_history(alloc, settings.keyed, settings.at_least, file, &mut names)?;
    names_are_apart(&names);
    match history {
        History::Whole(events) => {
            let passed = file.passed().count();
            Ok(report_of(alloc, settings, format, &names, events, passed)?)
        }
        History::Refused(refusal) => Ok(refused(alloc, format, refusal)?),
    }
}

/// Tells whether the history in a file is linearizable (Herlihy and Wing 1990, section 3): writes the report, or the one line
/// that refuses the file, and gives the status.
///
/// The file is read to its end, or to a fault of form, or until there are more than 1,000,000 events. The report names the
/// number of events and of objects, what is found of each object, in the order of print, and of the whole. For a history that isn't
/// well-formed there is no object's line. As JSON it is one line, and names the same objects with the same answers.
///
/// Asks that the budget is 1 to 1,000,000, and that neither count of failures is at its greatest.
///
/// Errors: `ReadFailed` and `WriteFailed`, only where that device failed; want of memory; `TooMuch` where the file has more
/// than 1,099,511,627,776 bytes. After `WriteFailed` a beginning of the report is written, after the others nothing.
pub fn check<R: Read, W: Write>(
    alloc: Global,
    settings: Settings,
    format: ReportFormat,
    file: &mut Counted<R>,
    out: &mut Counted<W>,
) -> Result<Status, RunFault>
    requires budget { (1 ≤ settings.budget) × (settings.budget ≤ 1000000) }
    requires reads { failures_of file.old < u64.MAX }
    requires writes { failures_of out.old < u64.MAX }
    ensures ran { IsCheckRun settings format (R.remaining (device_of file.old)) (R.remaining (device_of file.new))
        (W.contents (device_of out.old)) (W.contents (device_of out.new)) result }
    ensures read_counts { Counts (is_read_failed result) (failures_of file.old) (failures_of file.new) }
    ensures write_counts { Counts (is_write_failed result) (failures_of out.old) (failures_of out.new) }
{
    let answered = find(alloc, settings, format, file)?;
    write_whole(out, answered.text.as_slice())?;
    Ok(answered.status)
}
