//! Up to which of a queue's events there is no legal order.
ghost use Rattle.std.specs.Prelude.{◌≡◌, ◌≤◌, ◌<◌, ◌+◌, ℕ, Bool, Ok, length, take};
ghost use Rattle.lin_events.specs.declared.items.Item.{Item as ItemOf};
ghost use Rattle.lin_events.specs.declared.calls.Name.{Name as NameOf};
ghost use Rattle.lin_events.specs.Meters.{ticked};
ghost use Rattle.lin_events.specs.WellFormed.{IsWellFormed};
ghost use Rattle.lin_objects.specs.declared.kinds.Kind.TheVariants.{Fifo as FifoOf};
ghost use Rattle.lin_order.specs.Linearizable.{IsLinearizableAs};
ghost use Rattle.lin_queues.specs.Engines.{AreDebtsOf};
ghost use Rattle.lin_queues.specs.Reaching.{AreTooMany};
ghost use Rattle.lin_queues.specs.declared.debts.Debts.{Debts as DebtsOf};

use crate::debts::{Debts, Progress};
use lin_events::{Event, Meter, OutOfMemory, beginnings_are_well_formed};
use std::alloc::Global;

/// What the engine tells of all events of a queue.
#[derive(Clone, Copy, Debug, PartialEq, Eq)]
pub enum QueueFinding {
    /// Those up to and with this one have no legal order.
    Fails(usize),
    /// Some member is left after all events.
    Stands,
    /// There were too many members.
    GaveUp,
}

/// One more event is gone through.
fn count(meter: &mut Meter)
    ensures counted { meter.new ≡ record meter.old { steps = ticked meter.old.steps 1 } }
    ensures least { meter.old.steps ≤ meter.new.steps }
    ensures most { meter.new.steps ≤ meter.old.steps + 1 }
{
    let before = meter.steps();
    meter.tick_step();
    prove!(before <= meter.steps());
}

/// Goes through the events of a fifo queue for one up to and with which they have no legal order. Items may repeat, and operations may
/// crash, fail and stay open.
///
/// `Fails` is right of well-formed events. `Stands` claims no legal order, only that the engine went through all events with a member left. `GaveUp` is answered
/// of well-formed events only where some of the first ones come to more than 128 members, none of which is as good as another one. A step is counted
/// for each event that was gone through. `OutOfMemory` is answered only where memory was refused.
pub fn failing_event(
    alloc: Global,
    events: &[Event],
    meter: &mut Meter,
) -> Result<QueueFinding, OutOfMemory>
    ensures inside { (at : ℕ) → result ≡ Ok (QueueFinding.Fails at) → at < length events.now }
    ensures failing { (at : ℕ) → result ≡ Ok (QueueFinding.Fails at) → (functions : ItemOf → NameOf → Bool) → IsWellFormed functions events.now → IsLinearizableAs FifoOf (take (at + 1) events.now) → ⊥ }
    ensures stands { result ≡ Ok QueueFinding.Stands → (functions : ItemOf → NameOf → Bool) → IsWellFormed functions events.now → (debts : DebtsOf) × AreDebtsOf debts events.now }
    ensures gave_up { result ≡ Ok QueueFinding.GaveUp → (functions : ItemOf → NameOf → Bool) → IsWellFormed functions events.now → (at : ℕ) × (at < length events.now) × AreTooMany (take (at + 1) events.now) }
    ensures counted { (at : ℕ) → result ≡ Ok (QueueFinding.Fails at) → meter.new ≡ record meter.old { steps = ticked meter.old.steps (at + 1) } }
    ensures gone_through { result ≡ Ok QueueFinding.Stands → meter.new ≡ record meter.old { steps = ticked meter.old.steps (length events.now) } }
    ensures least { meter.old.steps ≤ meter.new.steps }
    ensures most { meter.new.steps ≤ meter.old.steps + length events.now }
    ensures others { (meter.new.scans ≡ meter.old.scans) × (meter.new.tries ≡ meter.old.tries) }
{
    beginnings_are_well_formed();
    let mut debts = Debts::new(alloc)?;
    for at in 0..events.len() {
        prove!(at < usize::MAX);
        count(meter);
        match debts.take_in(alloc, &events[at])? {
            Progress::Next => {}
            Progress::Fails => return Ok(QueueFinding::Fails(at)),
            Progress::GivesUp => return Ok(QueueFinding::GaveUp),
        }
    }
    Ok(QueueFinding::Stands)
}
