//! What an explanation goes through is counted.
ghost use Rattle.std.specs.Prelude.{◌≡◌, ◌≤◌, ◌+◌, ◌*◌};
ghost use Rattle.lin_events.specs.Meters.{ticked};

use lin_events::Meter;

/// So many events more were looked at.
pub(crate) fn tick_steps(meter: &mut Meter, count: usize)
    ensures counted { meter.new ≡ record meter.old { steps = ticked meter.old.steps count } }
    ensures least { meter.old.steps ≤ meter.new.steps }
    ensures most { meter.new.steps ≤ meter.old.steps + count }
{
    let before = meter.steps();
    for _ in 0..count {
        meter.tick_step();
    }
    prove!(before <= meter.steps());
}

/// So many passes are made through so many events.
pub(crate) fn tick_passes(meter: &mut Meter, passes: usize, count: usize)
    ensures counted { meter.new ≡ record meter.old { steps = ticked meter.old.steps (passes * count) } }
    ensures least { meter.old.steps ≤ meter.new.steps }
    ensures most { meter.new.steps ≤ meter.old.steps + passes * count }
{
    for _ in 0..passes {
        tick_steps(meter, count);
    }
}
