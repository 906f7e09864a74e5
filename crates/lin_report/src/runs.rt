//! A run of commands: each line is carried out, and its reply written, before more is read.
ghost use Rattle.std.specs.Prelude.{◌≡◌, ◌+◌, ◌<◌, ◌≤◌, ◌++◌, [], ℕ, Bool, List, Option, IfErr, IfOk, IsErrOf, OnOk, take, unwrap_or};
ghost use Rattle.std.specs.Io.KnownBytes.{IsAtEnd};
ghost use Rattle.lin_report.specs.Commands.{longest_line};
ghost use Rattle.lin_formats.specs.Devices.{device_of, failures_of, Counts};
ghost use Rattle.lin_report.specs.inner.Engines.{Holds, IsCarriedOut, IsCutOff, IsCutShort, IsFinished, IsUnderWay, Moves, ReadsPart};
ghost use Rattle.lin_formats.specs.Histories.{is_read_failed};
ghost use Rattle.lin_report.specs.Pulls.{StandsAt};
ghost use Rattle.lin_report.specs.Runs.{CountsOne, IsDone, IsEditRun, IsReply, RunState, SaysPull, pull_text, start_of};
ghost use Rattle.lin_formats.specs.Verdicts.{is_write_failed};

use crate::commands::{Command, read_command};
use crate::pulls::pull;
use crate::replies::{WrittenReply, ok_line, reply_to, reply_to_fault};
use crate::sessions::{names_are_apart, open};
use lin_events::OutOfMemory;
use lin_formats::{
    Counted, Refusal, RunFault, Settings, Status, end_of_part, refusal_words, write_whole,
};
use lin_history::Follow;
use lin_names::Names;
use lin_session::Session;
use std::alloc::Global;
use std::io::{Read, Write};

/// The greatest length of a line without its end.
const LONGEST: usize = 1_048_576;

/// How many bytes are read at once.
const PIECE: usize = 65_536;

/// The greatest number of bytes of commands.
const MOST: u64 = 1_099_511_627_776;

/// What a run keeps from one line to the next.
#[derive(Drop)]
pub struct EditRun {
    session: Session,
    // The spellings of the words that were read, of commands and of the file.
    names: Names,
    follow: Follow,
    // What stands behind the last line end: as far as a line may go, and one byte more.
    held: Vec<u8>,
    // The status of the last answer.
    status: Option<Status>,
}

/// What is written for a pull.
fn pull_line(alloc: Global, refused: Option<Refusal>, events: usize) -> Result<Vec<u8>, OutOfMemory>
    ensures { IfOk result (λ line. line.items ≡ pull_text refused events) }
{
    match refused {
        None => Ok(ok_line(alloc, events)?),
        Some(refusal) => {
            let mut line = refusal_words(alloc, refusal)?;
            line.push(b'\n')?;
            Ok(line)
        }
    }
}

/// The reply to a pull.
fn reply_to_pull<R: Read>(
    alloc: Global,
    session: &mut Session,
    follow: &mut Follow,
    file: &mut Counted<R>,
    names: &mut Names,
) -> Result<WrittenReply, RunFault>
    requires { failures_of file.old < u64.MAX }
    ensures reply { IfOk result (λ reply. (keyed : Bool) → Moves keyed session.old.present session.new.present names.old names.new follow.old follow.new (R.remaining (device_of file.old)) (R.remaining (device_of file.new))
        (λ before end. IsDone keyed Command.Pull before end reply.text.items reply.status)) }
    ensures reads { ReadsPart names.old names.new follow.old (R.remaining (device_of file.old)) (R.remaining (device_of file.new)) (IsErrOf result RunFault.TooMuch) }
    ensures counts { Counts (is_read_failed result) (failures_of file.old) (failures_of file.new) }
    ensures readers { IsErrOf result RunFault.WriteFailed → ⊥ }
{
    let refused = pull(session, follow, file, names)?;
    file.keep_refusal(refused);
    Ok(WrittenReply::plain(pull_line(alloc, refused, session.len())?))
}

/// The reply to a line, of which so much is given as a line may have, and one byte more.
fn reply<R: Read>(
    alloc: Global,
    keyed: bool,
    session: &mut Session,
    follow: &mut Follow,
    file: &mut Counted<R>,
    held: &[u8],
    names: &mut Names,
) -> Result<WrittenReply, RunFault>
    requires { failures_of file.old < u64.MAX }
    ensures reply { IfOk result (λ reply. (line : List ℕ) → held.now ≡ take (longest_line + 1) line
        → Moves keyed session.old.present session.new.present names.old names.new follow.old follow.new (R.remaining (device_of file.old)) (R.remaining (device_of file.new))
        (λ before end. IsReply keyed before line end reply.text.items reply.status)) }
    ensures reads { ReadsPart names.old names.new follow.old (R.remaining (device_of file.old)) (R.remaining (device_of file.new)) (IsErrOf result RunFault.TooMuch) }
    ensures pulls { IsErrOf result RunFault.ReadFailed → (line : List ℕ) → held.now ≡ take (longest_line + 1) line → SaysPull keyed line }
    ensures counts { Counts (is_read_failed result) (failures_of file.old) (failures_of file.new) }
    ensures readers { IsErrOf result RunFault.WriteFailed → ⊥ }
{
    let said = read_command(alloc, held, keyed, names);
    names_are_apart(names);
    match said {
        Ok(None) => Ok(WrittenReply::plain(Vec::new(alloc))),
        Ok(Some(Command::Pull)) => Ok(reply_to_pull(alloc, session, follow, file, names)?),
        Ok(Some(command)) => Ok(reply_to(alloc, keyed, session, names, command)?),
        Err(fault) => Ok(reply_to_fault(alloc, fault)?),
    }
}

/// Takes in some bytes of a line.
fn hold(held: &mut Vec<u8>, more: &[u8]) -> Result<(), OutOfMemory>
    ensures { OnOk result ((line : List ℕ) → held.old.items ≡ take (longest_line + 1) line → held.new.items ≡ take (longest_line + 1) (line ++ more.now)) }
{
    let room = (LONGEST + 1).saturating_sub(held.len());
    held.extend_from_slice(&more[..room.min(more.len())])?;
    Ok(())
}

impl EditRun {
    /// Nothing was taken in.
    fn new(alloc: Global, settings: Settings) -> EditRun
        requires { (1 ≤ settings.budget) × (settings.budget ≤ 1000000) }
        ensures { (left before : Option (List ℕ)) → IsUnderWay settings.keyed (start_of settings left) before result left before [] }
    {
        EditRun {
            session: open(alloc, settings),
            names: Names::new(alloc),
            follow: Follow::new(alloc, settings.keyed),
            held: Vec::new(alloc),
            status: None,
        }
    }

    /// Carries out the line that is held, and writes its reply.
    fn carry_out<R: Read, W: Write>(
        &mut self,
        alloc: Global,
        keyed: bool,
        file: &mut Counted<R>,
        out: &mut Counted<W>,
    ) -> Result<(), RunFault>
        requires reads { failures_of file.old < u64.MAX }
        requires writes { failures_of out.old < u64.MAX }
        ensures done { OnOk result ((before : RunState) (line : List ℕ) → StandsAt keyed before self.old.session.present self.old.names self.old.follow (R.remaining (device_of file.old)) → Holds self.old line
            → IsCarriedOut keyed self.old self.new (R.remaining (device_of file.old)) (R.remaining (device_of file.new)) (W.contents (device_of out.old)) (W.contents (device_of out.new)) before line) }
        ensures cut { IfErr result (λ fault. (before : RunState) (line : List ℕ) → StandsAt keyed before self.old.session.present self.old.names self.old.follow (R.remaining (device_of file.old)) → Holds self.old line
            → IsCutShort keyed self.old.names self.new.names self.old.follow (R.remaining (device_of file.old)) (R.remaining (device_of file.new)) (W.contents (device_of out.old)) (W.contents (device_of out.new)) before line fault) }
        ensures read_counts { Counts (is_read_failed result) (failures_of file.old) (failures_of file.new) }
        ensures write_counts { Counts (is_write_failed result) (failures_of out.old) (failures_of out.new) }
    {
        let reply = reply(
            alloc,
            keyed,
            &mut self.session,
            &mut self.follow,
            file,
            self.held.as_slice(),
            &mut self.names,
        )?;
        match write_whole(out, reply.text.as_slice()) {
            Ok(()) => {}
            Err(_) => return Err(RunFault::WriteFailed),
        }
        self.status = reply.status.or(self.status);
        self.held.clear();
        Ok(())
    }

    /// Takes in a piece of the commands, and carries out the lines that it ends.
    fn take_in<R: Read, W: Write>(
        &mut self,
        alloc: Global,
        keyed: bool,
        file: &mut Counted<R>,
        piece: &[u8],
        out: &mut Counted<W>,
    ) -> Result<(), RunFault>
        requires reads { failures_of file.old < u64.MAX }
        requires writes { failures_of out.old < u64.MAX }
        ensures done { OnOk result ((start : RunState) (before : Option (List ℕ)) (bytes : List ℕ)
            → IsUnderWay keyed start before self.old (R.remaining (device_of file.old)) (W.contents (device_of out.old)) bytes
            → IsUnderWay keyed start before self.new (R.remaining (device_of file.new)) (W.contents (device_of out.new)) (bytes ++ piece.now)) }
        ensures cut { IfErr result (λ fault. (start : RunState) (before behind : Option (List ℕ)) (bytes : List ℕ)
            → IsUnderWay keyed start before self.old (R.remaining (device_of file.old)) (W.contents (device_of out.old)) bytes
            → IsCutOff keyed start before (R.remaining (device_of file.new)) (W.contents (device_of out.new)) behind (bytes ++ piece.now) fault) }
        ensures read_counts { Counts (is_read_failed result) (failures_of file.old) (failures_of file.new) }
        ensures write_counts { Counts (is_write_failed result) (failures_of out.old) (failures_of out.new) }
    {
        let mut from = 0;
        'lines: loop {
            let end = end_of_part(piece, from, b'\n');
            hold(&mut self.held, &piece[from..end])?;
            if end == piece.len() {
                return Ok(());
            }
            self.carry_out(alloc, keyed, file, out)?;
            from = end + 1;
        }
    }

    /// The status of a run that ends here.
    fn ended(&self) -> Status
        ensures { result ≡ unwrap_or self.now.status Status.Yes }
    {
        self.status.unwrap_or(Status::Yes)
    }

    /// Carries out a last line without an end, if there is one.
    fn finish<R: Read, W: Write>(
        &mut self,
        alloc: Global,
        keyed: bool,
        file: &mut Counted<R>,
        out: &mut Counted<W>,
    ) -> Result<Status, RunFault>
        requires reads { failures_of file.old < u64.MAX }
        requires writes { failures_of out.old < u64.MAX }
        ensures done { IfOk result (λ status. (start : RunState) (before : Option (List ℕ)) (bytes : List ℕ)
            → IsUnderWay keyed start before self.old (R.remaining (device_of file.old)) (W.contents (device_of out.old)) bytes
            → IsFinished keyed start before (R.remaining (device_of file.new)) (W.contents (device_of out.new)) bytes status) }
        ensures cut { IfErr result (λ fault. (start : RunState) (before behind : Option (List ℕ)) (bytes : List ℕ) → IsAtEnd behind
            → IsUnderWay keyed start before self.old (R.remaining (device_of file.old)) (W.contents (device_of out.old)) bytes
            → IsCutOff keyed start before (R.remaining (device_of file.new)) (W.contents (device_of out.new)) behind bytes fault) }
        ensures read_counts { Counts (is_read_failed result) (failures_of file.old) (failures_of file.new) }
        ensures write_counts { Counts (is_write_failed result) (failures_of out.old) (failures_of out.new) }
    {
        let length = self.held.len();
        if length == 0 {
            return Ok(self.ended());
        }
        self.carry_out(alloc, keyed, file, out)?;
        Ok(self.ended())
    }

    /// Carries out all commands.
    fn carry_out_all<R: Read, C: Read, W: Write>(
        &mut self,
        alloc: Global,
        settings: Settings,
        file: &mut Counted<R>,
        commands: &mut Counted<C>,
        out: &mut Counted<W>,
    ) -> Result<Status, RunFault>
        requires fresh { (left before : Option (List ℕ)) → IsUnderWay settings.keyed (start_of settings left) before self.old left before [] }
        requires file_reads { failures_of file.old < u64.MAX }
        requires command_reads { failures_of commands.old < u64.MAX }
        requires writes { failures_of out.old < u64.MAX }
        ensures ran { IsEditRun settings (R.remaining (device_of file.old)) (R.remaining (device_of file.new))
            (C.remaining (device_of commands.old)) (C.remaining (device_of commands.new))
            (W.contents (device_of out.old)) (W.contents (device_of out.new)) result }
        ensures read_counts { CountsOne (is_read_failed result) (failures_of file.old) (failures_of file.new) (failures_of commands.old) (failures_of commands.new) }
        ensures write_counts { Counts (is_write_failed result) (failures_of out.old) (failures_of out.new) }
    {
        let mut piece = [0u8; PIECE];
        let mut passed = 0u64;
        'pieces: for _ in 0..u64::MAX {
            let Ok(count) = commands.read(&mut piece) else {
                return Err(RunFault::ReadFailed);
            };
            if count == 0 {
                return self.finish(alloc, settings.keyed, file, out);
            }
            if count as u64 > MOST - passed {
                return Err(RunFault::TooMuch);
            }
            self.take_in(alloc, settings.keyed, file, &piece[..count], out)?;
            passed += count as u64;
        }
        Err(RunFault::TooMuch)
    }
}

/// Carries out commands, a line each, on a history that begins empty: each reply is written before more commands are read. Gives the
/// status of the last answer, `Yes` where there is none. `pull` reads the file.
///
/// Asks that the budget is 1 to 1,000,000, and that no count of failures is at its greatest.
///
/// Errors: `ReadFailed` and `WriteFailed`, only where such a device failed; want of memory; `TooMuch` where the file or the commands
/// have more than 1,099,511,627,776 bytes. After `WriteFailed` a beginning of the replies is written, after the others the replies
/// to all earlier commands, whole: after `ReadFailed` of the commands to each whole line of them, of the file to each line ahead of the
/// `pull`.
pub fn run<R: Read, C: Read, W: Write>(
    alloc: Global,
    settings: Settings,
    file: &mut Counted<R>,
    commands: &mut Counted<C>,
    out: &mut Counted<W>,
) -> Result<Status, RunFault>
    requires budget { (1 ≤ settings.budget) × (settings.budget ≤ 1000000) }
    requires file_reads { failures_of file.old < u64.MAX }
    requires command_reads { failures_of commands.old < u64.MAX }
    requires writes { failures_of out.old < u64.MAX }
    ensures ran { IsEditRun settings (R.remaining (device_of file.old)) (R.remaining (device_of file.new))
        (C.remaining (device_of commands.old)) (C.remaining (device_of commands.new))
        (W.contents (device_of out.old)) (W.contents (device_of out.new)) result }
    ensures read_counts { CountsOne (is_read_failed result) (failures_of file.old) (failures_of file.new) (failures_of commands.old) (failures_of commands.new) }
    ensures write_counts { Counts (is_write_failed result) (failures_of out.old) (failures_of out.new) }
{
    let mut engine = EditRun::new(alloc, settings);
    engine.carry_out_all(alloc, settings, file, commands, out)
}
