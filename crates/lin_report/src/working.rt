//! The reply to `work`: what the session counted since it began.
ghost use Rattle.std.specs.Prelude.{◌≡◌, ◌++◌, None, IfOk, codes};
ghost use Rattle.lin_report.specs.Runs.{work_text};

use crate::replies::WrittenReply;
use lin_events::{Meter, OutOfMemory};
use lin_formats::put_number;
use lin_session::Session;
use std::alloc::{AllocError, Global};

/// The line that tells what a meter counted.
fn work_line(alloc: Global, meter: &Meter) -> Result<Vec<u8>, AllocError>
    ensures { IfOk result (λ line. line.items ≡ work_text meter.now ++ codes "\n") }
{
    let mut line = Vec::from_slice(alloc, b"work scans ")?;
    put_number(&mut line, meter.scans())?;
    line.extend_from_slice(b" steps ")?;
    put_number(&mut line, meter.steps())?;
    line.extend_from_slice(b" tries ")?;
    put_number(&mut line, meter.tries())?;
    line.push(b'\n')?;
    Ok(line)
}

/// What the session counted so far. It is no answer, and counts nothing.
pub fn work(alloc: Global, session: &Session) -> Result<WrittenReply, OutOfMemory>
    ensures { IfOk result (λ reply. (reply.text.items ≡ work_text session.now.meter ++ codes "\n") × (reply.status ≡ None)) }
{
    Ok(WrittenReply::plain(work_line(alloc, session.meter())?))
}
