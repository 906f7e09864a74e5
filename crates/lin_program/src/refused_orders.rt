//! Judging orders, and texts that say none: then a file is refused for its own fault, or else for that text, and the reader keeps in mind for which.
ghost use Rattle.std.specs.Prelude.{◌≡◌, ◌<◌, true, is_ok, Err, IfOk, IsErrOf, MatchOption, Some};
ghost use Rattle.lin_formats.specs.Devices.{device_of, failures_of, refused_of, Counts};
ghost use Rattle.lin_formats.specs.VerdictTexts.{line_of};
ghost use Rattle.lin_formats.specs.Verdicts.{is_write_failed, IsReadTooFar, IsVerified, IsVerifyRun};
ghost use Rattle.lin_formats.specs.declared.verdicts.OrderVerdict.TheVariants as OrderVerdictOf;
ghost use Rattle.lin_names.specs.Names.{AreEachOnce};
ghost use Rattle.lin_program.specs.Tasks.{HasBudget};
ghost use Rattle.lin_texts.specs.Orders.{order_written};

use lin_formats::{
    Counted, History, OrderFault, OutOfMemory, Refusal, RunFault, Settings, Status, read_history,
    read_order, refusal_words, verify, write_whole,
};
use lin_names::{Names, names_grow};
use std::alloc::Global;
use std::io::{Read, Write};

/// The place of the first word that is no pair, where the text of an order says none.
fn fault_of(alloc: Global, text: &[u8]) -> Result<Option<usize>, OutOfMemory>
    ensures { IfOk result (λ fault. MatchOption fault (is_ok (order_written text.now) ≡ true) (λ at. order_written text.now ≡ Err at)) }
{
    names_grow();
    let mut names = Names::new(alloc);
    match read_order(alloc, text, &mut names) {
        Ok(_) => Ok(None),
        Err(OrderFault::BadPair { at }) => Ok(Some(at)),
        Err(OrderFault::OutOfMemory) => Err(OutOfMemory),
    }
}

/// No spelling has two numbers. The function does nothing.
fn names_are_apart(names: &Names)
    ensures { AreEachOnce names.now }
{
    names.len();
}

/// Why a file is refused that is judged by a text in which the word at this place is no pair: for its own fault, or else for that.
fn find_refusal<R: Read>(
    alloc: Global,
    settings: Settings,
    order: &[u8],
    at: usize,
    file: &mut Counted<R>,
) -> Result<Refusal, RunFault>
    requires order { order_written order.now ≡ Err at }
    requires reads { failures_of file.old < u64.MAX }
    ensures found { IfOk result (λ refusal. IsVerified settings order.now (R.remaining (device_of file.old)) (R.remaining (device_of file.new)) (OrderVerdictOf.Refused refusal)) }
    ensures too_much { IsErrOf result RunFault.TooMuch → IsReadTooFar (R.remaining (device_of file.old)) (R.remaining (device_of file.new)) }
    ensures readers { IsErrOf result RunFault.WriteFailed → ⊥ }
{
    let mut names = Names::new(alloc);
    let history = read_history(alloc, settings.keyed, 0, file, &mut names)?;
    names_are_apart(&names);
    match history {
        History::Whole(_) => Ok(Refusal::BadPair { at }),
        History::Refused(refusal) => Ok(refusal),
    }
}

/// The line that refuses a file that is judged by such a text. The reader keeps in mind why it is.
fn refused_line<R: Read>(
    alloc: Global,
    settings: Settings,
    order: &[u8],
    at: usize,
    file: &mut Counted<R>,
) -> Result<Vec<u8>, RunFault>
    requires order { order_written order.now ≡ Err at }
    requires reads { failures_of file.old < u64.MAX }
    ensures found { IfOk result (λ line. (refusal : Refusal) × IsVerified settings order.now (R.remaining (device_of file.old)) (R.remaining (device_of file.new)) (OrderVerdictOf.Refused refusal)
        × (refused_of file.new ≡ Some refusal) × (line.items ≡ line_of (OrderVerdictOf.Refused refusal))) }
    ensures too_much { IsErrOf result RunFault.TooMuch → IsReadTooFar (R.remaining (device_of file.old)) (R.remaining (device_of file.new)) }
    ensures readers { IsErrOf result RunFault.WriteFailed → ⊥ }
{
    let refusal = find_refusal(alloc, settings, order, at, file)?;
    file.keep_refusal(Some(refusal));
    let mut line = refusal_words(alloc, refusal)?;
    line.push(b'\n')?;
    Ok(line)
}

/// Writes why a file is refused that is judged by such a text.
fn refuse<R: Read, W: Write>(
    alloc: Global,
    settings: Settings,
    order: &[u8],
    at: usize,
    file: &mut Counted<R>,
    out: &mut Counted<W>,
) -> Result<Status, RunFault>
    requires order { order_written order.now ≡ Err at }
    requires reads { failures_of file.old < u64.MAX }
    requires writes { failures_of out.old < u64.MAX }
    ensures ran { IsVerifyRun settings order.now (R.remaining (device_of file.old)) (R.remaining (device_of file.new))
        (W.contents (device_of out.old)) (W.contents (device_of out.new)) result }
    ensures counts { Counts (is_write_failed result) (failures_of out.old) (failures_of out.new) }
{
    let line = refused_line(alloc, settings, order, at, file)?;
    write_whole(out, line.as_slice())?;
    Ok(Status::Refused)
}

/// Tells whether a text is a legal order of the history in a file, as `verify` does. Where the text says none, the reader keeps in mind why the file is
/// refused: `BadPair` where that is for the text alone.
pub fn verify_text<R: Read, W: Write>(
    alloc: Global,
    settings: Settings,
    order: &[u8],
    file: &mut Counted<R>,
    out: &mut Counted<W>,
) -> Result<Status, RunFault>
    requires budget { HasBudget settings }
    requires reads { failures_of file.old < u64.MAX }
    requires writes { failures_of out.old < u64.MAX }
    ensures ran { IsVerifyRun settings order.now (R.remaining (device_of file.old)) (R.remaining (device_of file.new))
        (W.contents (device_of out.old)) (W.contents (device_of out.new)) result }
    ensures counts { Counts (is_write_failed result) (failures_of out.old) (failures_of out.new) }
{
    match fault_of(alloc, order)? {
        Some(at) => refuse(alloc, settings, order, at, file, out),
        None => verify(alloc, settings, file, order, out),
    }
}
