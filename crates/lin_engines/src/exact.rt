//! The engines that decide their objects exactly: the intervals of a set, and the debts of a lock.
ghost use Rattle.std.specs.Prelude.{◌≡◌, ◌≤◌, ◌<◌, ◌+◌, ◌⊎◌, ℕ, List, IfNone, IfSome, IfOk, OnOk, OnErr, length, take};
ghost use Rattle.lin_events.specs.Meters.{ticked};
ghost use Rattle.lin_events.specs.declared.events.Event.{Event as EventOf};
ghost use Rattle.lin_engines.specs.Exacts.{HasExact, SeesExact, kind_of_exact, reach_of_exact};

use crate::engine::Engine;
use crate::says::Says;
use lin_compressed_frontier::Scratch;
use lin_events::{Event, Meter, OutOfMemory};
use lin_locks::{Lock, locks_tell};
use lin_objects::{Any, Kind};
use lin_order::Placed;
use lin_sets::{Intervals, intervals_tell};
use std::alloc::Global;

/// An engine that decides its object exactly, one step an event, and never gives up.
#[derive(Drop)]
pub enum Exact {
    Set(Intervals),
    Mutex(Lock),
}

impl Exact {
    /// Of no event, for an object of the kind; none where there is no such engine.
    pub fn of(alloc: Global, kind: Kind) -> Option<Exact>
        ensures some { IfSome result (λ exact. (kind_of_exact exact ≡ kind) × (reach_of_exact exact ≡ 0) × ((h : List EventOf) → SeesExact exact h)) }
        ensures none { IfNone result (HasExact kind → ⊥) }
    {
        match kind {
            Kind::Set => Some(Exact::Set(Intervals::new(alloc))),
            Kind::Mutex => Some(Exact::Mutex(Lock::new(alloc))),
            Kind::Register | Kind::CasRegister | Kind::Fifo | Kind::Bag => None,
        }
    }
}

/// One more event is looked at.
fn tick(meter: &mut Meter)
    ensures counted { meter.new ≡ record meter.old { steps = ticked meter.old.steps 1 } }
    ensures most { meter.new.steps ≤ meter.old.steps + 1 }
{
    meter.tick_step();
}

impl Engine for Exact {
    ghost use Rattle.lin_engines.specs.Exacts.{SeesExact, exact_within, kind_of_exact, reach_of_exact};
    ghost use Rattle.lin_engines.specs.Lanes.{IsOfExact};

    ghost sees = { SeesExact };

    ghost kind = { kind_of_exact };

    ghost reach = { reach_of_exact };

    ghost says = { IsOfExact };

    fn reached(&self) -> usize {
        match self {
            Exact::Set(intervals) => intervals.reached(),
            Exact::Mutex(lock) => lock.reached(),
        }
    }

    fn take_in(
        &mut self,
        event: &Event,
        _budget: u32,
        meter: &mut Meter,
        _scratch: &mut Scratch<Any>,
    ) -> Result<Says, OutOfMemory> {
        tick(meter);
        let goes_on = match self {
            Exact::Set(intervals) => intervals.take_in(event)?,
            Exact::Mutex(lock) => lock.take_in(event)?,
        };
        Ok(if goes_on { Says::On } else { Says::Dead })
    }

    fn cut(&mut self, place: usize) {
        match self {
            Exact::Set(intervals) => intervals.cut(place),
            Exact::Mutex(lock) => lock.cut(place),
        }
    }

    fn order(&self, alloc: Global) -> Result<Vec<Placed>, OutOfMemory> {
        match self {
            Exact::Set(intervals) => intervals.order(alloc),
            Exact::Mutex(lock) => lock.order(alloc),
        }
    }

    fn affirm(&self) {
        intervals_tell();
        locks_tell();
    }

    ghost within = { exact_within };

    ghost begins = { tt };
}
