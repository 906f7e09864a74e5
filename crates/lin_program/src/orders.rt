//! The order that a file holds.
ghost use Rattle.std.specs.Prelude.{◌≡◌, ◌⊎◌, IfOk, IfErr};
ghost use Rattle.lin_program.specs.declared.endings.Stop.TheVariants as StopOf;
ghost use Rattle.lin_program.specs.Endings.{IsRead, IsReadIn, IsUnreadIn, IsWithoutLineEnd};

use crate::endings::Stop;
use crate::system::System;
use lin_formats::RunFault;
use std::alloc::Global;
use std::io;
use std::io::Read;

/// The text without one line end behind it: a byte 10, or a byte 13 and a byte 10.
pub fn without_line_end(text: &[u8]) -> &[u8]
    ensures { IsWithoutLineEnd text.now result.now }
{
    match text {
        [line @ .., b'\r', b'\n'] => line,
        [line @ .., b'\n'] => line,
        _ => text,
    }
}

/// All bytes of a file that is open.
fn read_whole<'a, R: Read + Drop>(alloc: Global, file: R) -> Result<Vec<u8>, Stop<'a>>
    ensures read { IfOk result (λ bytes. IsRead (R.remaining file) bytes.items) }
    ensures faults { IfErr result (λ stop. (stop ≡ StopOf.Fault RunFault.ReadFailed) ⊎ (stop ≡ StopOf.Fault RunFault.OutOfMemory)) }
{
    let mut reader = file;
    let mut bytes = Vec::new(alloc);
    match reader.read_to_end(&mut bytes) {
        Ok(_) => Ok(bytes),
        Err(error) if error.kind() == io::ErrorKind::OutOfMemory => {
            Err(Stop::Fault(RunFault::OutOfMemory))
        }
        Err(_) => Err(Stop::Fault(RunFault::ReadFailed)),
    }
}

/// All bytes of the file of this name: of standard input for `-`, else of the file that the system opens.
pub fn bytes_in<'a, S: System>(
    alloc: Global,
    system: &S,
    name: &'a str,
) -> Result<Vec<u8>, Stop<'a>>
    ensures read { IfOk result (λ bytes. IsReadIn S.words S.File.remaining S.Commands.remaining system.now name.now bytes.items) }
    ensures unread { IfErr result (IsUnreadIn S.words S.File.remaining S.Commands.remaining system.now name.now) }
{
    if name == "-" {
        return read_whole(alloc, system.commands());
    }
    match system.open(name) {
        Some(file) => read_whole(alloc, file),
        None => Err(Stop::NotOpened(name)),
    }
}
