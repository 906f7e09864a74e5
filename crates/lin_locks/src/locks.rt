//! The engine: a lock's events, taken in one after the other.
ghost use Rattle.std.specs.Prelude.{◌≡◌, ◌+◌, ◌<◌, ℕ, List, IfOk, IsTrue, OnErr, false, min, take};
ghost use Rattle.lin_events.specs.declared.events.Event.{Event as EventOf};
ghost use Rattle.lin_objects.specs.declared.kinds.Kind.TheVariants.{Mutex};
ghost use Rattle.lin_order.specs.Linearizable.{IsLegalOrderAs, IsLinearizableAs};
ghost use Rattle.lin_locks.specs.Locks.{IsLockOf, IsNextOf, IsStill, reached_in};

use crate::changes::Change;
use crate::standings::Standing;
use lin_events::{Event, OutOfMemory};
use lin_order::Placed;
use std::alloc::Global;

/// What is known of the first events of a lock, as long as they have a legal order, and what each of these changed.
#[derive(Drop)]
pub struct Lock {
    standing: Standing,
    changes: Vec<Change>,
}

impl Lock {
    /// Of no events.
    pub fn new(alloc: Global) -> Lock
        ensures reached { reached_in result ≡ 0 }
        ensures none { (h : List EventOf) → IsLockOf result h }
    {
        Lock {
            standing: Standing::new(alloc),
            changes: Vec::new(alloc),
        }
    }

    /// How many events were taken in.
    pub fn reached(&self) -> usize
        ensures { result ≡ reached_in self.now }
    {
        self.changes.len()
    }

    /// A legal order of the events that were taken in, in time linear in these.
    pub fn order(&self, alloc: Global) -> Result<Vec<Placed>, OutOfMemory>
        ensures { IfOk result (λ order. (h : List EventOf) → IsLockOf self.now h → IsLegalOrderAs Mutex (take (reached_in self.now) h) order.items) }
    {
        self.standing.paid_order(alloc)
    }

    /// Takes one more event in, unless the events have no legal order with it.
    ///
    /// Answers whether they have one: if not, and where memory is refused, it is still the lock of the events before it. Takes near-constant
    /// time, but for the end of an operation, which takes time linear in the operations that are open and owed then.
    pub fn take_in(&mut self, event: &Event) -> Result<bool, OutOfMemory>
        ensures goes_on { IfOk result (λ goes. IsTrue goes → (h : List EventOf) → IsNextOf self.old h event.now → IsLockOf self.new h × (reached_in self.new ≡ reached_in self.old + 1)) }
        ensures refuted { IfOk result (λ goes. goes ≡ false → (h : List EventOf) → IsNextOf self.old h event.now → IsLinearizableAs Mutex (take (reached_in self.old + 1) h) → ⊥) }
        ensures stays { IfOk result (λ goes. goes ≡ false → IsStill self.old self.new) }
        ensures refused { OnErr result (IsStill self.old self.new) }
    {
        self.changes.reserve(1)?;
        let at = self.changes.len();
        match self.standing.follow(at, event)? {
            Some(change) => {
                self.changes.push_reserved(change);
                Ok(true)
            }
            None => Ok(false),
        }
    }

    /// Goes back to the first so many events, in time linear in what they changed; this needs no memory.
    pub fn cut(&mut self, place: usize)
        ensures reached { reached_in self.new ≡ min place (reached_in self.old) }
        ensures right { (h edited : List EventOf) → IsLockOf self.old h → take place h ≡ take place edited → IsLockOf self.new edited }
    {
        while place < self.changes.len() {
            self.take_back();
        }
    }

    /// Takes the last event back.
    fn take_back(&mut self)
        requires { 0 < reached_in self.old }
        ensures told { (h : List EventOf) → IsLockOf self.old h → IsLockOf self.new h }
        ensures fewer { reached_in self.new + 1 ≡ reached_in self.old }
    {
        if let Some(change) = self.changes.pop() {
            self.standing.undo(change);
        }
    }
}
