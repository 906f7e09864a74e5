//! Files that are reported on, one behind the other.
ghost use Rattle.std.specs.Prelude.{◌≡◌, ◌<◌, ◌⊎◌, ◌++◌, ◌∷◌, [], IfErr, OnOk, Err, ℕ, take, map};
ghost use Rattle.std.specs.Io.KnownBytes.{Appends, Keeps};
ghost use Rattle.lin_formats.specs.Devices.{device_of, failures_of};
ghost use Rattle.lin_program.specs.Tasks.{HasBudget, IsTaskRun, format_of, heading_in, lack_in, lack_line, settings_of, task_among};
ghost use Rattle.lin_program.specs.Readings.{AreReadingsOf};
ghost use Rattle.lin_program.specs.Reporting.{AreAmong, AreReported, IsEndAt, IsEndedIn, IsReportOn, IsRunBehind, IsRunOn};

use crate::endings::{Stop, ended_at, worse};
use crate::readings::{Reading, keep_reading};
use crate::system::System;
use crate::tasks::{Task, put_heading, put_lack, rest_of_map};
use lin_formats::{Counted, PassedOver, Refusal, RunFault, Status, write_whole};
use lin_report::{ReportFormat, RunEnding};
use std::alloc::Global;
use std::io::{Read, Write};

/// What is told of a file that was reported on, beside what was written, hangs on this.
#[derive(Drop)]
struct Seen {
    /// Whether it is a whole history of no event.
    is_empty: bool,
    /// The maps of a whole history that were passed over.
    passed: PassedOver,
    /// Whether it isn't refused itself: the text of the order is, by which it is judged.
    is_order_refused: bool,
}

/// Writes what names a file, in front of what is written of it.
fn write_name<W: Write>(
    alloc: Global,
    format: ReportFormat,
    name: &str,
    out: &mut Counted<W>,
) -> Result<(), RunFault>
    requires { failures_of out.old ≡ 0 }
    ensures whole { OnOk result (Appends (W.contents (device_of out.old)) (W.contents (device_of out.new)) (heading_in format name.now)) }
    ensures beginning { result ≡ Err RunFault.WriteFailed → (n : ℕ) × Appends (W.contents (device_of out.old)) (W.contents (device_of out.new)) (take n (heading_in format name.now)) }
    ensures nothing { result ≡ Err RunFault.OutOfMemory → Keeps (W.contents (device_of out.old)) (W.contents (device_of out.new)) }
    ensures counts { OnOk result (failures_of out.new ≡ 0) }
    ensures faults { IfErr result (λ fault. (fault ≡ RunFault.WriteFailed) ⊎ (fault ≡ RunFault.OutOfMemory)) }
{
    let mut heading = Vec::new(alloc);
    put_heading(&mut heading, format, name)?;
    write_whole(out, heading.as_slice())
}

/// Writes that the file of this name can't be opened, where reports are maps that name their files.
fn write_lack<W: Write>(alloc: Global, name: &str, out: &mut Counted<W>) -> Result<(), RunFault>
    requires { failures_of out.old ≡ 0 }
    ensures whole { OnOk result (Appends (W.contents (device_of out.old)) (W.contents (device_of out.new)) (lack_line name.now)) }
    ensures beginning { result ≡ Err RunFault.WriteFailed → (n : ℕ) × Appends (W.contents (device_of out.old)) (W.contents (device_of out.new)) (take n (lack_line name.now)) }
    ensures nothing { result ≡ Err RunFault.OutOfMemory → Keeps (W.contents (device_of out.old)) (W.contents (device_of out.new)) }
    ensures faults { IfErr result (λ fault. (fault ≡ RunFault.WriteFailed) ⊎ (fault ≡ RunFault.OutOfMemory)) }
{
    let mut line = Vec::new(alloc);
    put_lack(alloc, &mut line, name)?;
    write_whole(out, line.as_slice())
}

/// How runs end at the file of this name, which can't be opened: that is written in place of its report, or is left to be told.
fn end_at<'a, W: Write>(
    alloc: Global,
    format: ReportFormat,
    name: &'a str,
    out: &mut Counted<W>,
) -> Stop<'a>
    requires { failures_of out.old ≡ 0 }
    ensures { IsEndAt (lack_in format name.now) name.now (W.contents (device_of out.old)) (W.contents (device_of out.new)) result }
{
    match format {
        ReportFormat::Text | ReportFormat::Json => Stop::NotOpened(name),
        ReportFormat::Rest => match write_lack(alloc, name, out) {
            Ok(()) => Stop::Written,
            Err(fault) => Stop::Fault(fault),
        },
    }
}

/// How runs go on behind one that ended so over the file of this name. Where it failed, that is written in the map that tells of the file, if there is
/// one.
fn end_in<'a, W: Write>(
    format: ReportFormat,
    name: &'a str,
    ended: Result<RunEnding, RunFault>,
    out: &mut Counted<W>,
) -> Result<Status, Stop<'a>>
    requires writes { failures_of out.old < u64.MAX }
    ensures ended { IsEndedIn format name.now ended (W.contents (device_of out.old)) (W.contents (device_of out.new)) result }
    ensures counts { OnOk result (failures_of out.new ≡ failures_of out.old) }
{
    let Err(fault) = ended else {
        return ended_at(name, ended);
    };
    let Some(rest) = rest_of_map(format, fault) else {
        return Err(Stop::Fault(fault));
    };
    match write_whole(out, rest) {
        Ok(()) => Err(Stop::FaultWritten(fault)),
        Err(fault) => Err(Stop::Fault(fault)),
    }
}

/// Reports on a file that is open, and puts what was seen of it into `seen`, where the report comes as far.
fn run_on<'a, R: Read + Drop, W: Write>(
    alloc: Global,
    task: Task,
    name: &'a str,
    file: R,
    out: &mut Counted<W>,
    seen: &mut Seen,
) -> Result<Status, Stop<'a>>
    requires budget { HasBudget (settings_of task) }
    requires writes { failures_of out.old ≡ 0 }
    ensures ran { IsRunOn (IsTaskRun task.entry) (format_of task.entry) name.now (R.remaining file) (W.contents (device_of out.old)) (W.contents (device_of out.new)) result }
    ensures counts { OnOk result (failures_of out.new ≡ 0) }
{
    let mut file = Counted::new(file);
    let ended = task.run(alloc, &mut file, out);
    *seen = Seen {
        is_empty: file.is_empty(),
        passed: file.passed(),
        is_order_refused: matches!(file.refused(), Some(Refusal::BadPair { .. })),
    };
    end_in(task.format(), name, ended, out)
}

/// The same, behind what names the file where it is one of several.
fn report_on<'a, R: Read + Drop, W: Write>(
    alloc: Global,
    task: Task,
    name: &'a str,
    is_named: bool,
    file: R,
    out: &mut Counted<W>,
    seen: &mut Seen,
) -> Result<Status, Stop<'a>>
    requires budget { HasBudget (settings_of task) }
    requires writes { failures_of out.old ≡ 0 }
    ensures ran { IsRunBehind (IsTaskRun task.entry) (format_of task.entry) is_named name.now (R.remaining file) (W.contents (device_of out.old)) (W.contents (device_of out.new)) result }
    ensures counts { OnOk result (failures_of out.new ≡ 0) }
{
    if is_named {
        match write_name(alloc, task.format(), name, out) {
            Ok(()) => {}
            Err(fault) => return Err(Stop::Fault(fault)),
        }
    }
    run_on(alloc, task, name, file, out, seen)
}

/// Reports on the file of this name: on standard input for `-`, else on the file that the system opens. What was seen of it goes to `seen`.
fn report<'a, S: System>(
    alloc: Global,
    system: &S,
    task: Task,
    name: &'a str,
    is_named: bool,
    out: &mut Counted<S::Out>,
    seen: &mut Seen,
) -> Result<Status, Stop<'a>>
    requires budget { HasBudget (settings_of task) }
    requires writes { failures_of out.old ≡ 0 }
    ensures ran { IsReportOn S.words S.File.remaining S.Commands.remaining system.now (IsTaskRun task.entry) (format_of task.entry) is_named name.now
        (S.Out.contents (device_of out.old)) (S.Out.contents (device_of out.new)) result }
    ensures counts { OnOk result (failures_of out.new ≡ 0) }
{
    if name == "-" {
        let input = system.commands();
        return report_on(alloc, task, name, is_named, input, out, seen);
    }
    match system.open(name) {
        Some(file) => report_on(alloc, task, name, is_named, file, out, seen),
        None => Err(end_at(alloc, task.format(), name, out)),
    }
}

/// Puts a name last where it is to be kept and there is memory for it.
fn keep_if<'a>(is_kept: bool, name: &'a str, names: &mut Vec<&'a str>)
    ensures { (names.new.items ≡ names.old.items) ⊎ (names.new.items ≡ names.old.items ++ name.entry ∷ []) }
{
    if is_kept {
        let _fits = names.push(name).is_ok();
    }
}

/// Whether it is told beside what was written why the file of the name is refused, where it is: an explanation says so itself, and standard input is
/// gone.
fn is_noted(task: &Task, name: &str, status: Status, seen: &Seen) -> bool {
    status == Status::Refused
        && !seen.is_order_refused
        && name != "-"
        && !matches!(task, Task::Explain(..))
}

/// Reports on the files of these names, one behind the other, and gives the worst status. What was seen of those of
/// which maps were passed over, or which are whole histories of no event, is put into `readings`, and the names of refused ones into `refused`, as far as
/// there is memory for that.
pub fn report_all<'a, S: System>(
    alloc: Global,
    system: &S,
    task: Task,
    names: &[&'a str],
    readings: &mut Vec<Reading<'a>>,
    refused: &mut Vec<&'a str>,
) -> Result<Status, Stop<'a>>
    requires budget { HasBudget (settings_of task) }
    requires none { readings.old.items ≡ [] }
    requires unrefused { refused.old.items ≡ [] }
    ensures reported { AreReported S.words S.File.remaining S.Commands.remaining system.now S.Out.contents (λ several. IsTaskRun (task_among several task.entry))
        (λ several. format_of (task_among several task.entry)) (map (λ n. n.now) names.now) result }
    ensures named { AreReadingsOf (map (λ n. n.now) names.now) readings.new.items }
    ensures noted { AreAmong (map (λ n. n.now) names.now) refused.new.items }
{
    let mut out = Counted::new(system.out());
    let is_named = 1 < names.len();
    let mut worst = Status::Yes;
    for name in names {
        let mut seen = Seen {
            is_empty: false,
            passed: PassedOver::none(),
            is_order_refused: false,
        };
        let task = task.among(is_named);
        let status = report(alloc, system, task, name, is_named, &mut out, &mut seen)?;
        worst = worse(worst, status);
        keep_if(is_noted(&task, name, status, &seen), name, refused);
        let reading = Reading {
            name: *name,
            is_empty: seen.is_empty,
            passed: seen.passed,
        };
        keep_reading(reading, readings);
    }
    Ok(worst)
}
