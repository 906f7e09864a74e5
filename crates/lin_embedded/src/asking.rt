//! What is found of bytes.
ghost use Rattle.std.specs.Prelude.{◌≡◌, ◌≤◌, IfOk, MatchOption};
ghost use Rattle.lin_formats.specs.Devices.{device_of};
ghost use Rattle.lin_report.specs.Reports.{IsRightReport};
ghost use Rattle.lin_report.specs.Explanations.{IsRightExplanation};
ghost use Rattle.lin_embedded.specs.Calls.{IsAbsentFrom, IsPrintedOf};

use crate::handing::Found;
use lin_report::{Counted, Question, ReportFormat, RunEnding, RunFault, Settings};
use std::alloc::Global;
use std::collections::VecDeque;
use std::io::Read;

/// What was written.
fn text_in(alloc: Global, out: &mut Counted<VecDeque<u8>>) -> Result<Vec<u8>, RunFault>
    ensures { IfOk result (λ text. text.items ≡ (device_of out.old).items) }
{
    let mut text = Vec::new(alloc);
    match out.read_to_end(&mut text) {
        Ok(_) => Ok(text),
        Err(_) => Err(RunFault::OutOfMemory),
    }
}

/// A report of the bytes.
pub fn report(
    alloc: Global,
    settings: Settings,
    format: ReportFormat,
    history: &[u8],
) -> Result<Found, RunFault>
    requires { (1 ≤ settings.budget) × (settings.budget ≤ 1000000) }
    ensures { IfOk result (λ found. IsPrintedOf (IsRightReport settings format) history.now found.text.items found.status) }
{
    let mut file = Counted::new(history);
    let mut out = Counted::new(VecDeque::new(alloc));
    let status = lin_report::check(alloc, settings, format, &mut file, &mut out)?;
    let text = text_in(alloc, &mut out)?;
    Ok(Found { text, status })
}

/// An explanation of the bytes; none where no event of them has the key that is asked about.
pub fn explanation(
    alloc: Global,
    settings: Settings,
    question: Question,
    history: &[u8],
) -> Result<Option<Found>, RunFault>
    requires { (1 ≤ settings.budget) × (settings.budget ≤ 1000000) }
    ensures { IfOk result (λ told. MatchOption told (IsAbsentFrom settings question.entry.key history.now)
        (λ found. IsPrintedOf (IsRightExplanation settings question.entry) history.now found.text.items found.status)) }
{
    let mut file = Counted::new(history);
    let mut out = Counted::new(VecDeque::new(alloc));
    match lin_report::explain(alloc, settings, question, &mut file, &mut out)? {
        RunEnding::Answered(status) => {
            let text = text_in(alloc, &mut out)?;
            Ok(Some(Found { text, status }))
        }
        RunEnding::NoKey(_) => Ok(None),
    }
}
