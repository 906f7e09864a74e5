//! What is told of files that were read, beside what is found.
ghost use Rattle.std.specs.Prelude.{◌≡◌, ◌++◌, ◌∷◌, [], ◌⊎◌};
ghost use Rattle.lin_program.specs.Readings.{AreTold, IsTold};

use crate::system::{Message, System};
use lin_formats::PassedOver;

/// What was seen of a file that was read.
#[derive(Drop)]
pub struct Reading<'a> {
    pub name: &'a str,
    /// Whether it is a whole history of no event.
    pub is_empty: bool,
    /// The maps of a whole history that were passed over.
    pub passed: PassedOver,
}

/// Tells what a reading lacks: which maps were passed over, or that there was no event.
fn tell_reading<S: System>(system: &mut S, reading: &Reading)
    ensures { IsTold S.words system.old reading.now system.new }
{
    let message = if reading.passed.count() == 0 {
        Message::NothingRead(reading.name)
    } else {
        Message::PassedOver(reading.name, &reading.passed, reading.is_empty)
    };
    let _is_told = system.tell(&message);
}

/// Tells the same of each.
pub fn tell_readings<S: System>(system: &mut S, readings: &[Reading])
    ensures { AreTold S.words system.old readings.now system.new }
{
    for reading in readings {
        tell_reading(system, reading);
    }
}

/// Puts a reading last where something is to be told of it and there is memory for it.
pub fn keep_reading<'a>(reading: Reading<'a>, readings: &mut Vec<Reading<'a>>)
    ensures { (readings.new.items ≡ readings.old.items) ⊎ (readings.new.items ≡ readings.old.items ++ reading.entry ∷ []) }
{
    if reading.is_empty || reading.passed.count() > 0 {
        let _fits = readings.push(reading).is_ok();
    }
}
