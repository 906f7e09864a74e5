//! The replies to commands that read no file.
ghost use Rattle.std.specs.Prelude.{◌≡◌, ◌≢◌, ◌++◌, ℕ, Bool, List, None, Some, IfOk, codes};
ghost use Rattle.lin_report.specs.Reports.{answer_status, answer_text};
ghost use Rattle.lin_report.specs.Runs.{IsCommandReply, IsEditReply, order_answer_text, work_text};
ghost use Rattle.lin_report.specs.Runs as said;
ghost use Rattle.lin_report.specs.Refusals.{edit_fault_text, fault_text};

use crate::answers::{status_of, verdict_of, verdict_words, write_answer};
use crate::commands::{Command, CommandFault};
use crate::explaining::explain_reply;
use crate::refused::{put_edit_fault, put_fault};
use crate::refuting::refute;
use crate::reports::write_report;
use crate::working::work;
use lin_answers::{Answer, Edit, EditFault, Scope, Verdict};
use lin_events::OutOfMemory;
use lin_formats::{Status, put_number, write_order};
use lin_names::Names;
use lin_session::Session;
use std::alloc::{AllocError, Global};

/// What is written for a line, and the status of a run where that is its last answer.
#[derive(Drop)]
pub struct WrittenReply {
    pub text: Vec<u8>,
    pub status: Option<Status>,
}

impl WrittenReply {
    /// A text that is no answer.
    pub fn plain(text: Vec<u8>) -> WrittenReply
        ensures text { result.text.items ≡ text.items }
        ensures status { result.status ≡ None }
    {
        WrittenReply { text, status: None }
    }
}

/// The line that tells how many events there are.
pub fn ok_line(alloc: Global, count: usize) -> Result<Vec<u8>, AllocError>
    ensures { IfOk result (λ line. line.items ≡ said.ok_line count) }
{
    let mut line = Vec::from_slice(alloc, b"ok ")?;
    put_number(&mut line, count as u64)?;
    line.push(b'\n')?;
    Ok(line)
}

/// The line of a refused command.
fn fault_line(alloc: Global, fault: CommandFault) -> Result<Vec<u8>, AllocError>
    ensures { IfOk result (λ line. line.items ≡ fault_text fault ++ codes "\n") }
{
    let mut line = Vec::new(alloc);
    put_fault(&mut line, fault)?;
    line.push(b'\n')?;
    Ok(line)
}

/// The reply to a line that is refused.
pub fn reply_to_fault(alloc: Global, fault: CommandFault) -> Result<WrittenReply, OutOfMemory>
    ensures { IfOk result (λ reply. (fault ≢ CommandFault.OutOfMemory) × (reply.text.items ≡ fault_text fault ++ codes "\n") × (reply.status ≡ None)) }
{
    match fault {
        CommandFault::OutOfMemory => Err(OutOfMemory),
        other => Ok(WrittenReply::plain(fault_line(alloc, other)?)),
    }
}

/// The line of a refused edit.
fn edit_fault_line(alloc: Global, fault: EditFault) -> Result<Vec<u8>, AllocError>
    ensures { IfOk result (λ line. line.items ≡ edit_fault_text fault ++ codes "\n") }
{
    let mut line = Vec::new(alloc);
    put_edit_fault(&mut line, fault)?;
    line.push(b'\n')?;
    Ok(line)
}

/// Makes an edit.
fn make(alloc: Global, session: &mut Session, edit: Edit) -> Result<Vec<u8>, OutOfMemory>
    ensures { IfOk result (λ line. IsEditReply edit session.old.present session.new.present line.items) }
{
    match session.apply(edit) {
        Ok(()) => Ok(ok_line(alloc, session.len())?),
        Err((_, EditFault::OutOfMemory)) => Err(OutOfMemory),
        Err((_, fault)) => Ok(edit_fault_line(alloc, fault)?),
    }
}

/// The reply that tells an answer without an order.
pub fn answered(alloc: Global, verdict: Verdict) -> Result<WrittenReply, OutOfMemory>
    ensures { IfOk result (λ reply. (reply.text.items ≡ answer_text verdict ++ codes "\n") × (reply.status ≡ Some (answer_status verdict))) }
{
    let mut text = verdict_words(alloc, verdict)?;
    text.push(b'\n')?;
    Ok(WrittenReply {
        text,
        status: Some(status_of(verdict)),
    })
}

/// What is found for the scope.
fn ask(alloc: Global, session: &mut Session, scope: Scope) -> Result<WrittenReply, OutOfMemory>
    ensures { IfOk result (λ reply. (names : List (List ℕ)) (keyed : Bool) → IsCommandReply names keyed (Command.Ask scope) session.old.present session.new.present reply.text.items reply.status) }
{
    let verdict = session.ask(alloc, scope)?;
    answered(alloc, verdict)
}

/// The text of an answer, with its order where there is one.
fn order_words(alloc: Global, names: &Names, answer: &Answer) -> Result<Vec<u8>, OutOfMemory>
    ensures { IfOk result (λ text. text.items ≡ order_answer_text names.now answer.now) }
{
    match answer {
        Answer::Yes(order) => {
            let mut text = Vec::from_slice(alloc, b"yes ")?;
            write_order(names, order.as_slice(), &mut text)?;
            Ok(text)
        }
        other => {
            let mut text = Vec::new(alloc);
            write_answer(alloc, other, &mut text)?;
            Ok(text)
        }
    }
}

/// What is found for the scope, with an order.
fn order(
    alloc: Global,
    session: &mut Session,
    names: &Names,
    scope: Scope,
) -> Result<WrittenReply, OutOfMemory>
    ensures { IfOk result (λ reply. (keyed : Bool) → IsCommandReply names.now keyed (Command.Order scope) session.old.present session.new.present reply.text.items reply.status) }
{
    let answer = session.order(alloc, scope)?;
    let mut text = order_words(alloc, names, &answer)?;
    text.push(b'\n')?;
    Ok(WrittenReply {
        text,
        status: Some(status_of(verdict_of(&answer))),
    })
}

/// What is found of all objects.
fn report(alloc: Global, session: &mut Session, names: &Names) -> Result<WrittenReply, OutOfMemory>
    ensures { IfOk result (λ reply. (keyed : Bool) → IsCommandReply names.now keyed Command.Report session.old.present session.new.present reply.text.items reply.status) }
{
    let mut text = Vec::new(alloc);
    let status = write_report(alloc, session, names, &mut text)?;
    Ok(WrittenReply {
        text,
        status: Some(status),
    })
}

/// Does what a command says that reads no file.
pub fn reply_to(
    alloc: Global,
    keyed: bool,
    session: &mut Session,
    names: &Names,
    command: Command,
) -> Result<WrittenReply, OutOfMemory>
    requires { command ≢ Command.Pull }
    ensures reply { IfOk result (λ reply. IsCommandReply names.now keyed command session.old.present session.new.present reply.text.items reply.status) }
    ensures work { IfOk result (λ reply. command ≡ Command.Work → reply.text.items ≡ work_text session.old.meter ++ codes "\n") }
{
    match command {
        Command::Edit(edit) => Ok(WrittenReply::plain(make(alloc, session, edit)?)),
        Command::Skipped => Ok(WrittenReply::plain(Vec::from_slice(alloc, b"skipped\n")?)),
        Command::Ask(scope) => ask(alloc, session, scope),
        Command::Order(scope) => order(alloc, session, names, scope),
        Command::Report => report(alloc, session, names),
        Command::Refute(key) => refute(alloc, session, key),
        Command::Explain(scope) => explain_reply(alloc, keyed, session, names, scope),
        Command::Work => work(alloc, session),
        Command::Pull => unreachable!(),
    }
}
