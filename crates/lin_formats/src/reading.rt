//! Histories read from a file with the places of their events.
ghost use Rattle.std.specs.Prelude.{◌≡◌, ◌^◌, ◌<◌, ◌≤◌, ℕ, List, IfOk, IsErrOf, length};
ghost use Rattle.std.specs.Io.KnownBytes.{Consumes};
ghost use Rattle.lin_formats.specs.Devices.{Counts, device_of, failures_of, is_empty_of, passed_of};
ghost use Rattle.lin_formats.specs.Histories.{AreAllPassed, EndsFor, IsHistory, IsHistoryFor, IsNoted, is_read_failed};
ghost use Rattle.lin_formats.specs.Verdicts.{IsReadTooFar};
ghost use Rattle.lin_history.specs.Reading.{IsReading, Reading};
ghost use Rattle.lin_history.specs.Stream.{StreamsAreUnique};
ghost use Rattle.lin_names.specs.Names.{AgreesWith, Begins, Numbering};
ghost use Rattle.lin_formats.specs.Places.{IsHeld, Marks};
ghost use Rattle.lin_formats.specs.Hints.{IsHinted, beginning};

use crate::counted::Counted;
use crate::hints::{hints_of, keep_first};
use crate::inputs::{History, finish_history, take_piece, with_least};
use crate::places::Places;
use lin_history::{Follow, PassedOver, streams_are_unique};
use lin_names::{Names, names_grow};
use lin_texts::RunFault;
use std::alloc::Global;
use std::io::Read;

/// How many bytes are read at once.
const PIECE: usize = 65_536;

/// Where the events of a history stand.
#[derive(Drop)]
pub struct EventPlaces {
    pub places: Places,
    /// Lines that hint at what to do, where the file is refused and there are any.
    pub hints: Vec<u8>,
}

/// The history in a file, however many events it has, where they stand, the first bytes of the file, and the maps that are passed over.
fn read_any<R: Read>(
    alloc: Global,
    keyed: bool,
    file: &mut Counted<R>,
    names: &mut Names,
) -> Result<(History, Places, Vec<u8>, PassedOver), RunFault>
    requires { failures_of file.old < u64.MAX }
    ensures begun { Begins names.old names.new }
    ensures read { IfOk result (λ found. (bytes : List ℕ)
        × Consumes (R.remaining (device_of file.old)) (R.remaining (device_of file.new)) bytes
        × (length bytes ≤ 2 ^ 40)
        × EndsFor found.0 (R.remaining (device_of file.new))
        × IsHistory keyed names.new bytes found.0
        × ((m : Reading) → IsReading keyed names.new m → Marks m found.1 bytes)
        × (found.1.keyed ≡ keyed)
        × IsHeld found.1 bytes
        × (found.2.items ≡ beginning bytes)
        × AreAllPassed bytes found.0 found.3) }
    ensures too_much { IsErrOf result RunFault.TooMuch → IsReadTooFar (R.remaining (device_of file.old)) (R.remaining (device_of file.new)) }
    ensures counts { Counts (is_read_failed result) (failures_of file.old) (failures_of file.new) }
    ensures readers { IsErrOf result RunFault.WriteFailed → ⊥ }
{
    let mut follow = Follow::new(alloc, keyed);
    let mut places = Places::new(alloc, keyed);
    let mut first = Vec::new(alloc);
    let mut events = Vec::new(alloc);
    let mut piece = [0u8; PIECE];
    'pieces: for _ in 0..u64::MAX {
        let Ok(count) = file.read(&mut piece) else {
            return Err(RunFault::ReadFailed);
        };
        if count == 0 {
            let history = finish_history(&follow, events, names)?;
            return Ok((history, places, first, follow.passed_over()));
        }
        let refusal = take_piece(&mut follow, &mut events, &piece[..count], names)?;
        places.feed(&piece[..count], names)?;
        keep_first(&mut first, &piece[..count])?;
        some_numbering(names);
        if let Some(refusal) = refusal {
            return Ok((History::Refused(refusal), places, first, PassedOver::none()));
        }
    }
    Err(RunFault::TooMuch)
}

/// The history in a file, as `read_history` reads it, and where its events stand.
///
/// Errors: as of `read_history`.
pub fn read_placed<R: Read>(
    alloc: Global,
    keyed: bool,
    least: u32,
    file: &mut Counted<R>,
    names: &mut Names,
) -> Result<(History, EventPlaces), RunFault>
    requires { failures_of file.old < u64.MAX }
    ensures begun { Begins names.old names.new }
    ensures read { IfOk result (λ found. (bytes : List ℕ)
        × Consumes (R.remaining (device_of file.old)) (R.remaining (device_of file.new)) bytes
        × (length bytes ≤ 2 ^ 40)
        × EndsFor found.0 (R.remaining (device_of file.new))
        × IsHistoryFor least keyed names.new bytes found.0
        × ((m : Reading) → IsReading keyed names.new m → Marks m found.1.places bytes)
        × (found.1.places.keyed ≡ keyed)
        × IsHinted keyed bytes found.1.places found.0 found.1.hints.items
        × IsNoted keyed names.new bytes (is_empty_of file.new) (passed_of file.new)) }
    ensures too_much { IsErrOf result RunFault.TooMuch → IsReadTooFar (R.remaining (device_of file.old)) (R.remaining (device_of file.new)) }
    ensures counts { Counts (is_read_failed result) (failures_of file.old) (failures_of file.new) }
    ensures readers { IsErrOf result RunFault.WriteFailed → ⊥ }
{
    let (history, places, first, passed) = read_any(alloc, keyed, file, names)?;
    file.has_given(&history, passed);
    let history = with_least(history, least);
    let hints = hints_of(alloc, keyed, &history, &places, first.as_slice())?;
    Ok((history, EventPlaces { places, hints }))
}

/// Each spelling has one number, and a numbering agrees with the names; a text has one stream. The function does nothing.
fn some_numbering(names: &Names)
    ensures numbering { (number : Numbering) × AgreesWith names.now number }
    ensures streams { StreamsAreUnique }
{
    names_grow();
    streams_are_unique();
    names.len();
}
