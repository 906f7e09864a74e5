//! Well-formedness, kept up to date with a history that grows and is edited.
ghost use Rattle.std.specs.Prelude.{◌≡◌, ◌+◌, ◌-◌, ◌/◌, ◌<◌, ◌≤◌, min, List, length, IfOk, OnOk, OnErr, IsOk};
ghost use Rattle.lin_events.specs.declared.items.Item.{Item as ItemOf};
ghost use Rattle.lin_events.specs.declared.events.Event.{Event as EventOf};
ghost use Rattle.lin_events.specs.Meters.{ticked};
ghost use Rattle.lin_events.specs.Operations.{IsEvent};
ghost use Rattle.lin_events.specs.WellFormed.{IsShape};
ghost use Rattle.lin_objects.specs.declared.kinds.Kind.{Kind as KindOf};
ghost use Rattle.lin_objects.specs.Kinds.{kind_of, functions_of};
ghost use Rattle.lin_wellformed.specs.Scans.{ready_count, IsRight, AgreeBefore, looked_at};

use crate::statuses::{first_cause, status_behind};
use crate::tables::Table;
use lin_events::{Event, Meter, OutOfMemory, Shape, bad_positions};
use lin_objects::Kinds;
use std::alloc::Global;

/// How far a history was looked through, and what was found: its first bad event, if there is one, and what each process is after the events before that.
#[derive(Drop)]
pub struct Scan {
    ready: usize,
    shape: Shape,
    table: Table,
}

impl Scan {
    /// No event was looked at.
    pub fn new(alloc: Global) -> Scan
        ensures ready { ready_count result ≡ 0 }
        ensures right { (kinds : ItemOf → KindOf) (h : List EventOf) → IsRight result kinds h }
    {
        Scan {
            ready: 0,
            shape: Shape::Good,
            table: Table::new(alloc),
        }
    }

    /// How many events were taken in.
    pub fn ready(&self) -> usize
        ensures { result ≡ ready_count self.now }
    {
        self.ready
    }

    /// How many tables of processes are held: one, whatever was taken in, since `cut` takes events back in it.
    pub fn kept(&self) -> usize
        ensures tables { result ≡ 1 }
        ensures few { result ≤ ready_count self.now / 64 + 2 }
    {
        1
    }

    /// Takes back the events from the position on: they, or the kinds of their keys, are about to change.
    ///
    /// The time is linear in the number of events that are taken back. It needs no memory.
    pub fn cut(&mut self, at: usize)
        ensures back { ready_count self.new ≡ min at (ready_count self.old) }
        ensures same { ready_count self.old ≤ at → self.new ≡ self.old }
        ensures right { (kinds other : ItemOf → KindOf) (h edited : List EventOf) → IsRight self.old kinds h → AgreeBefore at kinds other h edited → IsRight self.new other edited }
    {
        bad_positions();
        if self.ready <= at {
            return;
        }
        self.ready = at;
        // The table ends where the bad event stands, if there is one.
        if at <= self.table.count() {
            self.shape = Shape::Good;
            self.table.cut(at);
        }
    }

    /// Takes in the rest of the events, and answers whether all are well-formed for the kinds.
    ///
    /// Asks that the scan is right for the first `ready()` events. Each event past them, up to the first bad one, counts as
    /// one scan. Where memory is refused, the events before the refusal are taken in.
    pub fn settle(
        &mut self,
        events: &[Event],
        kinds: &Kinds,
        meter: &mut Meter,
    ) -> Result<Shape, OutOfMemory>
        requires { IsRight self.old (kind_of kinds.now) events.now }
        ensures shape { IfOk result (IsShape (functions_of (kind_of kinds.now)) events.now) }
        ensures all { OnOk result (ready_count self.new ≡ length events.now) }
        ensures right { IsRight self.new (kind_of kinds.now) events.now }
        ensures no_less { ready_count self.old ≤ ready_count self.new }
        ensures settled { ready_count self.old ≡ length events.now → IsOk result }
        ensures counted { IfOk result (λ shape. meter.new ≡ record meter.old { scans = ticked meter.old.scans (looked_at shape (length events.now) - ready_count self.old) }) }
        ensures bounded { meter.new.scans ≤ meter.old.scans + (length events.now - ready_count self.old) }
        ensures others { (meter.new.steps ≡ meter.old.steps) × (meter.new.tries ≡ meter.old.tries) }
    {
        bad_positions();
        while self.ready < events.len() && self.shape.is_good() {
            meter.tick_scan();
            self.take_in(events, kinds)?;
        }
        self.ready = events.len();
        Ok(self.shape)
    }

    /// Takes in one more event after good ones.
    fn take_in(&mut self, events: &[Event], kinds: &Kinds) -> Result<(), OutOfMemory>
        requires more { ready_count self.old < length events.now }
        requires good { self.old.shape ≡ Shape.Good }
        requires right { IsRight self.old (kind_of kinds.now) events.now }
        ensures ready { OnOk result (ready_count self.new ≡ ready_count self.old + 1) }
        ensures looked { OnOk result (looked_at self.new.shape (ready_count self.new) ≡ ready_count self.old + 1) }
        ensures right { OnOk result (IsRight self.new (kind_of kinds.now) events.now) }
        ensures err { OnErr result (self.new ≡ self.old) }
    {
        bad_positions();
        let event = &events[self.ready];
        let last = self.table.take_in(event.process)?;
        let status = status_behind(&events[..self.ready], last);
        // A bad event is taken back: to ask for the status first would take one more look-up for each good one.
        if let Some(cause) = first_cause(status, event, kinds) {
            self.table.take_back();
            self.shape = Shape::Bad {
                at: self.ready,
                cause,
            };
        }
        self.ready += 1;
        Ok(())
    }
}
