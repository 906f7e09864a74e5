//! The texts of refused commands and edits.
ghost use Rattle.std.specs.Prelude.{◌≡◌, ◌++◌, OnOk};
ghost use Rattle.lin_report.specs.Refusals.{edit_fault_text, fault_text};

use crate::commands::CommandFault;
use lin_answers::EditFault;
use lin_edn::EdnFault;
use lin_formats::{edn_cause, event_fault, put_number};
use std::alloc::AllocError;

/// Puts the text of a fault of EDN last.
fn put_edn_fault(line: &mut Vec<u8>, fault: EdnFault) -> Result<(), AllocError>
    ensures { OnOk result (line.new.items ≡ line.old.items ++ fault_text (CommandFault.Edn fault)) }
{
    line.extend_from_slice(b"refused edn ")?;
    line.extend_from_slice(edn_cause(fault.cause).as_bytes())?;
    line.extend_from_slice(b" at ")?;
    put_number(line, fault.at as u64)
}

/// Puts the text of a refused command last.
pub fn put_fault(line: &mut Vec<u8>, fault: CommandFault) -> Result<(), AllocError>
    ensures { OnOk result (line.new.items ≡ line.old.items ++ fault_text fault) }
{
    match fault {
        CommandFault::UnknownCommand => line.extend_from_slice(b"refused command 1 UnknownCommand"),
        CommandFault::BadWords => line.extend_from_slice(b"refused command 2 BadWords"),
        CommandFault::BadNumber => line.extend_from_slice(b"refused command 3 BadNumber"),
        CommandFault::BadKind => line.extend_from_slice(b"refused command 4 BadKind"),
        CommandFault::NotOneMap => line.extend_from_slice(b"refused command 5 NotOneMap"),
        CommandFault::LineTooLong => line.extend_from_slice(b"refused command 6 LineTooLong"),
        CommandFault::Edn(fault) => put_edn_fault(line, fault),
        CommandFault::Event(fault) => {
            line.extend_from_slice(b"refused event ")?;
            line.extend_from_slice(event_fault(fault).as_bytes())
        }
        CommandFault::OutOfMemory => line.extend_from_slice(b"refused command 9 OutOfMemory"),
    }
}

/// Puts the text of a refused edit last.
pub fn put_edit_fault(line: &mut Vec<u8>, fault: EditFault) -> Result<(), AllocError>
    ensures { OnOk result (line.new.items ≡ line.old.items ++ edit_fault_text fault) }
{
    let text = match fault {
        EditFault::BadPosition => "refused edit 1 BadPosition",
        EditFault::Full => "refused edit 2 Full",
        EditFault::BadBudget => "refused edit 3 BadBudget",
        EditFault::OutOfMemory => "refused edit 4 OutOfMemory",
    };
    line.extend_from_slice(text.as_bytes())
}
