//! What an ok of a dequeue that has an item makes of a member.
ghost use Rattle.std.specs.Prelude.{◌≡◌, ◌<◌, ◌≤◌, ◌+◌, ◌++◌, ◌∷◌, [], ℕ, Bool, List, OnOk, Some, length, slice_get, Contains};
ghost use Rattle.std.specs.List.{remove as removed};
ghost use Rattle.lin_events.specs.declared.items.Item.{Item as ItemOf};
ghost use Rattle.lin_events.specs.declared.events.Event.{Event as EventOf};
ghost use Rattle.lin_events.specs.declared.calls.Name.{Name as NameOf};
ghost use Rattle.lin_events.specs.declared.calls.Call.TheVariants.{Dequeue as Dequeues, Enqueue as Enqueues};
ghost use Rattle.lin_events.specs.declared.calls.Reply.TheVariants.{Value as Values};
ghost use Rattle.lin_events.specs.declared.calls.Val.TheVariants.{Item as Held};
ghost use Rattle.lin_order.specs.declared.placed.Placed.{Placed as PlacedOf};
ghost use Rattle.lin_order.specs.ConfigurationLaws.{with_event};
ghost use Rattle.lin_queues.specs.Debts.{IsWhole};
ghost use Rattle.lin_queues.specs.declared.elements.Element.{Element as ElementOf};
ghost use Rattle.lin_queues.specs.declared.opens.OpenCall.{OpenCall as OpenOf};
ghost use Rattle.lin_queues.specs.Chains.{IsLinked};
ghost use Rattle.lin_queues.specs.Gains.{Gains};
ghost use Rattle.lin_queues.specs.Gathering.{IsCovered, IsReturning, Keeps, MayPay, MayTake, MayTakeEarly};
ghost use Rattle.lin_queues.specs.Members.{AreEnqueues, AreOwed, Told, view_of};
ghost use Rattle.lin_queues.specs.Reaching.{Finds, Pays, Sinks, Takes, TakesEarly};
ghost use Rattle.lin_queues.specs.Opens.{AreDequeues, AreOpen};

use crate::debt_laws::debts_after_ok;
use crate::elements::Element;
use crate::gathered::Gathered;
use crate::members::{QueueMember, is_in};
use crate::opens::{OpenCall, puts};
use lin_events::{Item, OutOfMemory, ends_are_unique, well_formed_is_alternating};
use std::alloc::Global;

/// An ok of a dequeue: where it was invoked, the item, an index ahead of which all elements of this item stand, and the place of the ok.
#[derive(Clone, Copy)]
pub(crate) struct Return {
    pub(crate) dequeue: usize,
    pub(crate) item: Item,
    pub(crate) end: usize,
    pub(crate) time: usize,
}

/// All elements of the item ahead of the element at the index stand ahead of this one.
fn end_before(element: Element, item: Item, at: usize) -> usize
    ensures less { result ≤ at }
    ensures skipped { (j : ℕ) → result ≤ j → j < at → (element.item ≡ item) × (element.earlier ≤ j) }
{
    if element.item == item {
        element.earlier.min(at)
    } else {
        at
    }
}

impl Gathered {
    /// The debt at the index is paid.
    fn pay_one(&mut self, alloc: Global, member: &QueueMember, at: usize) -> Result<(), OutOfMemory>
        requires { at < length member.now.debts.items }
        ensures told { OnOk result ((h whole : List EventOf) (order : List PlacedOf) (all : List ElementOf) → IsWhole h whole order → AreDequeues h self.old.dequeues.items → Told whole order (length h) all (record (view_of member.now) { debts = removed member.now.debts.items at }) → IsCovered whole order (length h) all self.new.members.items self.new.is_full) }
        ensures kept { OnOk result (Keeps self.old self.new) }
        ensures gains { OnOk result (Gains self.old self.new (λ w. w ≡ record (view_of member.now) { debts = removed member.now.debts.items at })) }
        ensures dequeues { self.new.dequeues ≡ self.old.dequeues }
    {
        let mut next = member.copy(alloc)?;
        next.settle(at);
        self.push(next)
    }

    /// The debt at the index is paid by the dequeue, if it may be.
    fn pay_if(
        &mut self,
        alloc: Global,
        member: &QueueMember,
        returned: Return,
        at: usize,
    ) -> Result<(), OutOfMemory>
        requires { at < length member.now.debts.items }
        ensures told { OnOk result ((h whole : List EventOf) (order : List PlacedOf) (all : List ElementOf) → IsWhole h whole order → AreDequeues h self.old.dequeues.items → MayPay whole order (length h) all (view_of member.now) returned.dequeue returned.item at → IsCovered whole order (length h) all self.new.members.items self.new.is_full) }
        ensures kept { OnOk result (Keeps self.old self.new) }
        ensures gains { OnOk result (Gains self.old self.new (Pays returned.dequeue returned.item (view_of member.now))) }
        ensures dequeues { self.new.dequeues ≡ self.old.dequeues }
    {
        let debt = member.debts[at];
        if debt.item != returned.item || returned.dequeue >= debt.before {
            return Ok(());
        }
        self.pay_one(alloc, member, at)
    }

    /// A debt of the item is paid by the dequeue, each in turn.
    fn pay(
        &mut self,
        alloc: Global,
        member: &QueueMember,
        returned: Return,
    ) -> Result<(), OutOfMemory>
        ensures told { OnOk result ((h whole : List EventOf) (order : List PlacedOf) (all : List ElementOf) (at : ℕ) → IsWhole h whole order → AreDequeues h self.old.dequeues.items → MayPay whole order (length h) all (view_of member.now) returned.dequeue returned.item at → IsCovered whole order (length h) all self.new.members.items self.new.is_full) }
        ensures kept { OnOk result (Keeps self.old self.new) }
        ensures gains { OnOk result (Gains self.old self.new (Pays returned.dequeue returned.item (view_of member.now))) }
        ensures dequeues { self.new.dequeues ≡ self.old.dequeues }
    {
        for at in 0..member.debts.len() {
            self.pay_if(alloc, member, returned, at)?;
        }
        Ok(())
    }

    /// The element at the index is taken.
    fn take_one(
        &mut self,
        alloc: Global,
        member: &QueueMember,
        elements: &[Element],
        at: usize,
        time: usize,
    ) -> Result<(), OutOfMemory>
        requires { at < length elements.now }
        ensures told { OnOk result ((h whole : List EventOf) (order : List PlacedOf) (item : ItemOf) → IsWhole h whole order → AreDequeues h self.old.dequeues.items → AreEnqueues whole elements.now → MayTake whole order (length h) elements.now (view_of member.now) time item at → IsCovered whole order (length h) elements.now self.new.members.items self.new.is_full) }
        ensures kept { OnOk result (Keeps self.old self.new) }
        ensures gains { OnOk result ((element : ElementOf) → slice_get elements.now at ≡ Some element → Gains self.old self.new (Sinks elements.now element.place time (record (view_of member.now) { gone = member.now.gone.items ++ at ∷ [] }))) }
        ensures dequeues { self.new.dequeues ≡ self.old.dequeues }
    {
        let mut next = member.copy(alloc)?;
        next.gone.push(at)?;
        self.push_sunk(next, elements, elements[at].place, time)
    }

    /// The element at the index is taken, if it is in the queue and has the item.
    fn take_if(
        &mut self,
        alloc: Global,
        member: &QueueMember,
        elements: &[Element],
        at: usize,
        returned: Return,
    ) -> Result<(), OutOfMemory>
        requires { at < length elements.now }
        ensures told { OnOk result ((h whole : List EventOf) (order : List PlacedOf) → IsWhole h whole order → AreDequeues h self.old.dequeues.items → AreEnqueues whole elements.now → MayTake whole order (length h) elements.now (view_of member.now) returned.time returned.item at → IsCovered whole order (length h) elements.now self.new.members.items self.new.is_full) }
        ensures kept { OnOk result (Keeps self.old self.new) }
        ensures gains { OnOk result (member.now.low ≤ at → Gains self.old self.new (Takes elements.now returned.item returned.time (view_of member.now))) }
        ensures dequeues { self.new.dequeues ≡ self.old.dequeues }
    {
        if elements[at].item != returned.item || is_in(member.gone.as_slice(), at) {
            return Ok(());
        }
        self.take_one(alloc, member, elements, at, returned.time)
    }

    /// An element of the item is taken, each in turn.
    fn take(
        &mut self,
        alloc: Global,
        member: &QueueMember,
        elements: &[Element],
        returned: Return,
    ) -> Result<(), OutOfMemory>
        ensures told { OnOk result ((h whole : List EventOf) (order : List PlacedOf) (at : ℕ) → IsLinked elements.now → at < returned.end → IsWhole h whole order → AreDequeues h self.old.dequeues.items → AreEnqueues whole elements.now → MayTake whole order (length h) elements.now (view_of member.now) returned.time returned.item at → IsCovered whole order (length h) elements.now self.new.members.items self.new.is_full) }
        ensures kept { OnOk result (Keeps self.old self.new) }
        ensures gains { OnOk result (Gains self.old self.new (Takes elements.now returned.item returned.time (view_of member.now))) }
        ensures dequeues { self.new.dequeues ≡ self.old.dequeues }
    {
        let mut end = returned.end.min(elements.len());
        while end > member.low {
            let at = end - 1;
            let element = elements[at];
            self.take_if(alloc, member, elements, at, returned)?;
            end = end_before(element, returned.item, at);
        }
        Ok(())
    }

    /// The element of the open enqueue is taken.
    fn take_early_one(
        &mut self,
        alloc: Global,
        member: &QueueMember,
        elements: &[Element],
        place: usize,
        time: usize,
    ) -> Result<(), OutOfMemory>
        ensures told { OnOk result ((h whole : List EventOf) (order : List PlacedOf) → IsWhole h whole order → AreDequeues h self.old.dequeues.items → AreEnqueues whole elements.now → MayTakeEarly whole order (length h) elements.now (view_of member.now) time place → IsCovered whole order (length h) elements.now self.new.members.items self.new.is_full) }
        ensures kept { OnOk result (Keeps self.old self.new) }
        ensures gains { OnOk result (Gains self.old self.new (Sinks elements.now place time (record (view_of member.now) { early = member.now.early.items ++ place ∷ [] }))) }
        ensures dequeues { self.new.dequeues ≡ self.old.dequeues }
    {
        let mut next = member.copy(alloc)?;
        next.early.push(place)?;
        self.push_sunk(next, elements, place, time)
    }

    /// The element of the open operation is taken, if it may be.
    fn take_early_if(
        &mut self,
        alloc: Global,
        member: &QueueMember,
        elements: &[Element],
        operation: OpenCall,
        returned: Return,
    ) -> Result<(), OutOfMemory>
        ensures told { OnOk result ((h whole : List EventOf) (order : List PlacedOf) → operation.call ≡ Enqueues returned.item → IsWhole h whole order → AreDequeues h self.old.dequeues.items → AreEnqueues whole elements.now → MayTakeEarly whole order (length h) elements.now (view_of member.now) returned.time operation.place → IsCovered whole order (length h) elements.now self.new.members.items self.new.is_full) }
        ensures kept { OnOk result (Keeps self.old self.new) }
        ensures gains { OnOk result ((listed : List OpenOf) (k : ℕ) → slice_get listed k ≡ Some operation → Gains self.old self.new (TakesEarly elements.now listed returned.item returned.time (view_of member.now))) }
        ensures dequeues { self.new.dequeues ≡ self.old.dequeues }
    {
        if !puts(operation.call, returned.item) || is_in(member.early.as_slice(), operation.place) {
            return Ok(());
        }
        self.take_early_one(alloc, member, elements, operation.place, returned.time)
    }

    /// The element of an open enqueue of the item is taken, each in turn.
    fn take_early(
        &mut self,
        alloc: Global,
        member: &QueueMember,
        elements: &[Element],
        open: &[OpenCall],
        returned: Return,
    ) -> Result<(), OutOfMemory>
        ensures told { OnOk result ((h whole : List EventOf) (order : List PlacedOf) (k : ℕ) (o : OpenOf) → slice_get open.now k ≡ Some o → o.call ≡ Enqueues returned.item → IsWhole h whole order → AreDequeues h self.old.dequeues.items → AreEnqueues whole elements.now → MayTakeEarly whole order (length h) elements.now (view_of member.now) returned.time o.place → IsCovered whole order (length h) elements.now self.new.members.items self.new.is_full) }
        ensures kept { OnOk result (Keeps self.old self.new) }
        ensures gains { OnOk result (Gains self.old self.new (TakesEarly elements.now open.now returned.item returned.time (view_of member.now))) }
        ensures dequeues { self.new.dequeues ≡ self.old.dequeues }
    {
        for operation in open {
            self.take_early_if(alloc, member, elements, *operation, returned)?;
        }
        Ok(())
    }

    /// What an ok of a dequeue with an item makes of the member.
    pub(crate) fn find(
        &mut self,
        alloc: Global,
        member: &QueueMember,
        elements: &[Element],
        open: &[OpenCall],
        returned: Return,
    ) -> Result<(), OutOfMemory>
        ensures told { OnOk result ((functions : ItemOf → NameOf → Bool) (h : List EventOf) (event : EventOf) (whole : List EventOf) (order : List PlacedOf) → returned.time ≡ length h → IsLinked elements.now → ((i : ℕ) (x : ElementOf) → slice_get elements.now i ≡ Some x → x.item ≡ returned.item → i < returned.end) → AreOpen (with_event h event) open.now → IsReturning functions h event returned.dequeue Dequeues (Values (Held returned.item)) whole order elements.now → AreDequeues (with_event h event) self.old.dequeues.items → Told whole order (length h) elements.now (view_of member.now) → IsCovered whole order (length (with_event h event)) elements.now self.new.members.items self.new.is_full) }
        ensures kept { OnOk result (Keeps self.old self.new) }
        ensures gains { OnOk result (Gains self.old self.new (Finds elements.now open.now returned.dequeue returned.item returned.time (view_of member.now))) }
        ensures dequeues { self.new.dequeues ≡ self.old.dequeues }
    {
        debts_after_ok();
        ends_are_unique();
        well_formed_is_alternating();
        self.pay(alloc, member, returned)?;
        self.take(alloc, member, elements, returned)?;
        self.take_early(alloc, member, elements, open, returned)
    }
}
