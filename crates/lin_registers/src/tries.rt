//! Calls that a search tried are counted.
ghost use Rattle.std.specs.Prelude.{◌≡◌, ◌≤◌};
ghost use Rattle.lin_events.specs.Meters.{ticked};

use lin_events::Meter;

/// So many calls more were tried.
pub fn tick_tries(meter: &mut Meter, count: usize)
    ensures counted { meter.new ≡ record meter.old { tries = ticked meter.old.tries count } }
    ensures risen { meter.old.tries ≤ meter.new.tries }
{
    let before = meter.tries();
    for _ in 0..count {
        meter.tick_try();
    }
    prove!(before <= meter.tries());
}
