//! Where each process has its last event, found in near-constant time, and taken back event by event.
ghost use Rattle.std.specs.Prelude.{◌≡◌, ◌<◌, ◌∷◌, ◌++◌, [], ℕ, IfOk, OnOk, OnErr, length, take};
ghost use Rattle.lin_wellformed.specs.Tables.{IsLastPlace};

use crate::last_events::LastEvents;
use crate::numbers::Numbers;
use lin_events::OutOfMemory;
use std::alloc::Global;
use std::marker::Model;

/// Where each process has its last event among some events.
///
/// Of each event eight bytes are kept. Every process that had an event stays listed, so that taking events back needs no memory.
#[derive(Drop)]
pub(crate) struct Table {
    numbers: Numbers,
    events: LastEvents,
}

impl Model for Table {
    ghost use Rattle.std.specs.Prelude.{ℕ, List};
    ghost use Rattle.lin_wellformed.specs.Tables.{AreListed, processes_in};

    ghost Value = { List ℕ };

    ghost view = { λ t. processes_in t.numbers t.events };

    ghost invariant = { λ t. AreListed t.numbers t.events };
}

impl Table {
    /// No event.
    pub(crate) fn new(alloc: Global) -> Table
        ensures { result ≡ [] }
    {
        Table {
            numbers: Numbers::new(alloc),
            events: LastEvents::new(alloc),
        }
    }

    /// How many events were taken in.
    pub(crate) fn count(&self) -> usize
        ensures { result ≡ length self.now }
    {
        self.events.len()
    }

    /// One more event, of this process. Tells where the process had its last event before.
    pub(crate) fn take_in(&mut self, process: u64) -> Result<Option<usize>, OutOfMemory>
        ensures last { IfOk result (IsLastPlace self.old process) }
        ensures taken { OnOk result (self.new ≡ self.old ++ process ∷ []) }
        ensures err { OnErr result (self.new ≡ self.old) }
    {
        let number = self.numbers.number(process)?;
        let last = self.events.push(number)?;
        Ok(last)
    }

    /// Takes events back, the last one first, until no more than so many are left.
    pub(crate) fn cut(&mut self, count: usize)
        ensures { self.new ≡ take count self.old }
    {
        while count < self.count() {
            self.take_back();
        }
    }

    /// Takes the last event back.
    pub(crate) fn take_back(&mut self)
        requires { 0 < length self.old }
        ensures { (process : ℕ) × (self.old ≡ self.new ++ process ∷ []) }
    {
        self.events.pop();
    }
}
