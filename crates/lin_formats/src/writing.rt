//! Texts written whole.
ghost use Rattle.std.specs.Prelude.{◌≡◌, ◌+◌, ◌<◌, ℕ, take, Err, OnErr, OnOk};
ghost use Rattle.std.specs.Io.KnownBytes.{Appends};
ghost use Rattle.lin_formats.specs.Devices.{device_of, failures_of};

use crate::counted::Counted;
use lin_texts::RunFault;
use std::io::Write;

/// Writes a text whole, in as many calls as the writer needs.
///
/// Errors: `WriteFailed`, where the writer failed or took nothing; a beginning of the text is written then.
pub fn write_whole<W: Write>(out: &mut Counted<W>, text: &[u8]) -> Result<(), RunFault>
    requires { failures_of out.old < u64.MAX }
    ensures whole { OnOk result (Appends (W.contents (device_of out.old)) (W.contents (device_of out.new)) text.now) }
    ensures beginning { OnErr result ((n : ℕ) × Appends (W.contents (device_of out.old)) (W.contents (device_of out.new)) (take n text.now)) }
    ensures uncounted { OnOk result (failures_of out.new ≡ failures_of out.old) }
    ensures counted { OnErr result (failures_of out.new ≡ failures_of out.old + 1) }
    ensures fault { OnErr result (result ≡ Err RunFault.WriteFailed) }
{
    let mut at = 0;
    while at < text.len() {
        match out.write(&text[at..]) {
            Ok(taken) if taken > 0 => at += taken,
            _ => return Err(RunFault::WriteFailed),
        }
    }
    Ok(())
}
