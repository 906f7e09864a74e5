//! Whether an order is a legal order of the history in a file.
ghost use Rattle.std.specs.Prelude.{◌≡◌, ◌^◌, ◌<◌, ◌≤◌, ℕ, List, length, IfErr, IfOk, IsErrOf};
ghost use Rattle.std.specs.Io.KnownBytes.{Appends, Consumes};
ghost use Rattle.lin_names.specs.Names.{Begins};
ghost use Rattle.lin_formats.specs.VerdictTexts.{line_of, status_of};
ghost use Rattle.lin_formats.specs.Devices.{device_of, failures_of, Counts};
ghost use Rattle.lin_formats.specs.Histories.{is_read_failed};
ghost use Rattle.lin_formats.specs.Verdicts.{is_write_failed, IsJudged, IsReadTooFar, IsVerifiedBy, IsVerifyRun};

use crate::counted::Counted;
use crate::inputs::{History, read_stream, some_numbering};
use crate::verdicts::{OrderVerdict, Refusal, line};
use crate::writing::write_whole;
use lin_events::{Event, Meter, OutOfMemory, Shape};
use lin_names::Names;
use lin_objects::{Kind, Kinds};
use lin_order::check_order;
use lin_texts::{OrderFault, RunFault, Settings, Status, read_order};
use lin_wellformed::Scan;
use std::alloc::Global;
use std::io::{Read, Write};

/// What is found of a whole history and the text of an order: the text is tested first, then the history, then the order.
fn judge(
    alloc: Global,
    kind: Kind,
    events: &[Event],
    order: &[u8],
    names: &mut Names,
) -> Result<OrderVerdict, OutOfMemory>
    ensures begun { Begins names.old names.new }
    ensures judged { IfOk result (IsJudged names.new kind events.now order.now) }
{
    let order = match read_order(alloc, order, names) {
        Ok(order) => order,
        Err(OrderFault::BadPair { at }) => return Ok(OrderVerdict::Refused(Refusal::BadPair {
            at,
        })),
        Err(OrderFault::OutOfMemory) => return Err(OutOfMemory),
    };
    let kinds = Kinds::new(alloc, kind);
    let mut meter = Meter::new();
    match Scan::new(alloc).settle(events, &kinds, &mut meter)? {
        Shape::Bad { at, cause } => Ok(OrderVerdict::IllFormed { at, cause }),
        Shape::Good => {
            if check_order(alloc, events, &kinds, order.as_slice())? {
                Ok(OrderVerdict::Yes)
            } else {
                Ok(OrderVerdict::No)
            }
        }
    }
}

/// What is found of a file and the text of an order, both read by these names.
fn find_verdict<R: Read>(
    alloc: Global,
    settings: Settings,
    file: &mut Counted<R>,
    order: &[u8],
    names: &mut Names,
) -> Result<OrderVerdict, RunFault>
    requires { failures_of file.old < u64.MAX }
    ensures found { IfOk result (IsVerifiedBy names.new settings order.now (R.remaining (device_of file.old)) (R.remaining (device_of file.new))) }
    ensures too_much { IsErrOf result RunFault.TooMuch → IsReadTooFar (R.remaining (device_of file.old)) (R.remaining (device_of file.new)) }
    ensures counts { Counts (is_read_failed result) (failures_of file.old) (failures_of file.new) }
    ensures readers { IsErrOf result RunFault.WriteFailed → ⊥ }
{
    let (history, _) = read_stream(alloc, settings.keyed, file, names)?;
    match history {
        History::Whole(events) => {
            Ok(judge(alloc, settings.kind, events.as_slice(), order, names)?)
        }
        History::Refused(refusal) => Ok(OrderVerdict::Refused(refusal)),
    }
}

/// Tells whether an order is a legal order of the history in a file (Herlihy and Wing 1990, section 2): writes the one
/// line that answers, and gives its status.
///
/// The file is read to its end, or to a fault of form, or until there are more than 1,000,000 events. Tested in this order:
/// the file, the text of the order, whether the history is well-formed, the order.
///
/// Asks that the budget is 1 to 1,000,000 and that neither count of failures is at its greatest.
///
/// Errors: `ReadFailed` and `WriteFailed`, only where that device failed; want of memory; `TooMuch` where the file has more
/// than 1,099,511,627,776 bytes. After `WriteFailed` a beginning of the line is written, after the others nothing.
pub fn verify<R: Read, W: Write>(
    alloc: Global,
    settings: Settings,
    file: &mut Counted<R>,
    order: &[u8],
    out: &mut Counted<W>,
) -> Result<Status, RunFault>
    requires budget { (1 ≤ settings.budget) × (settings.budget ≤ 1000000) }
    requires reads { failures_of file.old < u64.MAX }
    requires writes { failures_of out.old < u64.MAX }
    ensures ran { IsVerifyRun settings order.now (R.remaining (device_of file.old)) (R.remaining (device_of file.new))
        (W.contents (device_of out.old)) (W.contents (device_of out.new)) result }
    ensures read_counts { Counts (is_read_failed result) (failures_of file.old) (failures_of file.new) }
    ensures write_counts { Counts (is_write_failed result) (failures_of out.old) (failures_of out.new) }
{
    let mut names = Names::new(alloc);
    let verdict = find_verdict(alloc, settings, file, order, &mut names)?;
    some_numbering(&names);
    let line = line(alloc, verdict)?;
    write_whole(out, line.as_slice())?;
    Ok(verdict.status())
}
