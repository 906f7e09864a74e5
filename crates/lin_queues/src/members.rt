//! Members: what the legal orders of the events so far may have made of the elements.
ghost use Rattle.std.specs.Prelude.{◌≡◌, ◌<◌, ◌≤◌, ◌+◌, ◌++◌, ◌∷◌, [], ◌==◌, ◌↔◌, ℕ, List, Bool, true, false, IfOk, OnOk, IsTrue, Ok, not, filter, length, map, Contains};
ghost use Rattle.std.specs.List.{remove as removed};
ghost use Rattle.lin_events.specs.declared.events.Event.{Event as EventOf};
ghost use Rattle.lin_order.specs.declared.placed.Placed.{Placed as PlacedOf};
ghost use Rattle.lin_queues.specs.Members.{AreEnqueues, AreOwed, AreUnpaid, HasMore, IsAtLeast, Told, at_first, first_debt, view_of};
ghost use Rattle.lin_queues.specs.Reaching.{Sinks};

use crate::debt_laws::debts_move;
use crate::elements::Element;
use lin_events::{Item, OutOfMemory};
use std::alloc::Global;

/// A dequeue that isn't ok, invoked before the time, took the element.
#[derive(Clone, Copy)]
pub(crate) struct Debt {
    pub(crate) element: usize,
    pub(crate) before: usize,
    pub(crate) item: Item,
}

/// What some legal orders made of the elements.
#[derive(Drop)]
pub(crate) struct QueueMember {
    /// In the queue are the elements from this index on, but those at the indices that are gone.
    pub(crate) low: usize,
    pub(crate) gone: Vec<usize>,
    pub(crate) debts: Vec<Debt>,
    /// Elements whose enqueue isn't ok, which a dequeue that is ok took.
    pub(crate) early: Vec<usize>,
    /// The queue may have been empty up to this time.
    pub(crate) emptied: usize,
}

/// Whether the list has the number.
pub(crate) fn is_in(numbers: &[usize], number: usize) -> bool
    ensures { IsTrue result ↔ Contains numbers.now number }
{
    numbers.contains(&number)
}

/// Whether the dequeues, by rising place, are too few or too late to pay the debts.
pub(crate) fn are_unpaid(debts: &[Debt], dequeues: &[usize]) -> bool
    ensures unpaid { IsTrue result → AreUnpaid debts.now dequeues.now }
    ensures paid { result ≡ false → AreUnpaid debts.now dequeues.now → ⊥ }
{
    let mut time = 0;
    for (at, debt) in debts.iter().enumerate() {
        time = debt.before.max(time);
        if at >= dequeues.len() || dequeues[at] >= time {
            return true;
        }
    }
    false
}

impl QueueMember {
    /// Of the empty queue.
    pub(crate) fn new(alloc: Global) -> QueueMember
        ensures { view_of result ≡ at_first }
    {
        QueueMember {
            low: 0,
            gone: Vec::new(alloc),
            debts: Vec::new(alloc),
            early: Vec::new(alloc),
            emptied: 0,
        }
    }

    /// The same on its own memory.
    pub(crate) fn copy(&self, alloc: Global) -> Result<QueueMember, OutOfMemory>
        ensures { IfOk result (λ copy. view_of copy ≡ view_of self.now) }
    {
        Ok(QueueMember {
            low: self.low,
            gone: Vec::from_slice(alloc, self.gone.as_slice())?,
            debts: Vec::from_slice(alloc, self.debts.as_slice())?,
            early: Vec::from_slice(alloc, self.early.as_slice())?,
            emptied: self.emptied,
        })
    }

    /// The element at the index, which was taken early, has been put in now.
    pub(crate) fn lose(&mut self, place: usize, at: usize) -> Result<(), OutOfMemory>
        ensures { OnOk result (view_of self.new ≡ record (view_of self.old) { gone = self.old.gone.items ++ at ∷ []; early = filter (λ f. not (f == place)) self.old.early.items }) }
    {
        self.early.retain(|other| *other != place);
        self.gone.push(at)?;
        Ok(())
    }

    /// The debt at the index is paid.
    pub(crate) fn settle(&mut self, at: usize)
        requires { at < length self.old.debts.items }
        ensures { view_of self.new ≡ record (view_of self.old) { debts = removed self.old.debts.items at } }
    {
        self.debts.remove(at);
    }

    /// The first element is no longer in the queue.
    fn pass(&mut self)
        requires { self.old.low < usize.MAX }
        ensures { view_of self.new ≡ record (view_of self.old) { low = self.old.low + 1; gone = filter (λ i. not (i == self.old.low)) self.old.gone.items } }
    {
        let low = self.low;
        self.gone.retain(|index| *index != low);
        self.low += 1;
    }

    /// The first element is in debt.
    fn owe(&mut self, first: Element, time: usize) -> Result<(), OutOfMemory>
        requires { self.old.low < usize.MAX }
        ensures { OnOk result (view_of self.new ≡ record (view_of self.old) { low = self.old.low + 1; gone = filter (λ i. not (i == self.old.low)) self.old.gone.items; debts = self.old.debts.items ++ first_debt first time ∷ [] }) }
    {
        self.debts.push(Debt {
            element: first.place,
            before: time,
            item: first.item,
        })?;
        self.pass();
        Ok(())
    }

    /// Lets the first elements go into debt, as long as they returned before the place. Tells whether that makes no more debts than so
    /// many.
    pub(crate) fn sink(
        &mut self,
        elements: &[Element],
        by: usize,
        time: usize,
        most: usize,
    ) -> Result<bool, OutOfMemory>
        ensures sinks { result ≡ Ok true → Sinks elements.now by time (view_of self.old) (view_of self.new) }
        ensures sunk { result ≡ Ok true → (whole : List EventOf) (order : List PlacedOf) (n : ℕ) → AreEnqueues whole elements.now → Told whole order n elements.now (view_of self.old) → AreOwed whole order n elements.now (view_of self.old) by time → Told whole order n elements.now (view_of self.new) }
        ensures stuck { result ≡ Ok false → (whole : List EventOf) (order : List PlacedOf) (n : ℕ) → AreEnqueues whole elements.now → Told whole order n elements.now (view_of self.old) → AreOwed whole order n elements.now (view_of self.old) by time → HasMore whole order n most }
    {
        debts_move();
        while self.low < elements.len() {
            if is_in(self.gone.as_slice(), self.low) {
                self.pass();
                continue;
            }
            let first = elements[self.low];
            if first.returned >= by {
                return Ok(true);
            }
            if self.debts.len() >= most {
                return Ok(false);
            }
            self.owe(first, time)?;
        }
        Ok(true)
    }

    /// Whether each debt of the other one is here, with a time that is no less.
    fn has_debts_of(&self, other: &QueueMember) -> bool
        ensures { IsTrue result ↔ IsAtLeast (record (view_of other.now) { debts = self.now.debts.items }) (view_of other.now) }
    {
        if self.debts.len() != other.debts.len() {
            return false;
        }
        for (at, debt) in self.debts.iter().enumerate() {
            let own = other.debts[at];
            if debt.element != own.element || debt.item != own.item || debt.before < own.before {
                return false;
            }
        }
        true
    }

    /// Whether it has the same as the other one, with later times.
    pub(crate) fn is_at_least(&self, other: &QueueMember) -> bool
        ensures { IsTrue result ↔ IsAtLeast (view_of self.now) (view_of other.now) }
    {
        self.low == other.low
            && self.emptied >= other.emptied
            && self.gone == other.gone
            && self.early == other.early
            && self.has_debts_of(other)
    }
}
