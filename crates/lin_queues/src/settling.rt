//! What one more event makes of a member.
ghost use Rattle.std.specs.Prelude.{◌≡◌, ◌<◌, ◌≤◌, ◌+◌, ◌==◌, ◌++◌, ◌∷◌, [], ℕ, Bool, List, OnOk, Some, filter, length, not, slice_get, Contains};
ghost use Rattle.lin_events.specs.declared.items.Item.{Item as ItemOf};
ghost use Rattle.lin_events.specs.declared.events.Event.{Event as EventOf};
ghost use Rattle.lin_events.specs.declared.calls.Name.{Name as NameOf};
ghost use Rattle.lin_events.specs.declared.calls.Reply.{Reply as ReplyOf};
ghost use Rattle.lin_events.specs.declared.calls.Call.TheVariants.{Dequeue as Dequeues, Enqueue as Enqueues};
ghost use Rattle.lin_events.specs.declared.calls.Reply.TheVariants.{Value as Values};
ghost use Rattle.lin_events.specs.declared.calls.Val.TheVariants.{Item as Held, Nil as Nothing};
ghost use Rattle.lin_order.specs.declared.placed.Placed.{Placed as PlacedOf};
ghost use Rattle.lin_order.specs.ConfigurationLaws.{with_event};
ghost use Rattle.lin_queues.specs.Debts.{IsWhole};
ghost use Rattle.lin_queues.specs.declared.elements.Element.{Element as ElementOf};
ghost use Rattle.lin_queues.specs.declared.members.QueueMember.{QueueMember as MemberOf};
ghost use Rattle.lin_queues.specs.Gains.{Gains};
ghost use Rattle.lin_queues.specs.Gathering.{IsCovered, IsReturning, Keeps};
ghost use Rattle.lin_queues.specs.Members.{AreEnqueues, AreOwed, Told, view_of};
ghost use Rattle.lin_queues.specs.Reaching.{Fails, FindsNothing, PutsIn, Sinks};
ghost use Rattle.lin_queues.specs.Opens.{AreDequeues, AreOpen};

use crate::debt_laws::{debts_after_ok, debts_are_payable};
use crate::elements::Element;
use crate::gathered::Gathered;
use crate::members::{QueueMember, is_in};
use lin_events::OutOfMemory;
use std::alloc::Global;

impl Gathered {
    /// One member more, after its first elements went into debt.
    pub(crate) fn push_sunk(
        &mut self,
        mut member: QueueMember,
        elements: &[Element],
        by: usize,
        time: usize,
    ) -> Result<(), OutOfMemory>
        ensures told { OnOk result ((h whole : List EventOf) (order : List PlacedOf) → IsWhole h whole order → AreDequeues h self.old.dequeues.items → AreEnqueues whole elements.now → Told whole order (length h) elements.now (view_of member) → AreOwed whole order (length h) elements.now (view_of member) by time → IsCovered whole order (length h) elements.now self.new.members.items self.new.is_full) }
        ensures kept { OnOk result (Keeps self.old self.new) }
        ensures gains { OnOk result (Gains self.old self.new (Sinks elements.now by time (view_of member))) }
        ensures dequeues { self.new.dequeues ≡ self.old.dequeues }
    {
        debts_are_payable();
        let most = self.dequeues.len();
        if member.sink(elements, by, time, most)? {
            self.push(member)?;
        }
        Ok(())
    }

    /// The element at the index, which was taken early, is put in.
    fn put_early(
        &mut self,
        alloc: Global,
        member: &QueueMember,
        elements: &[Element],
        place: usize,
        at: usize,
    ) -> Result<(), OutOfMemory>
        ensures told { OnOk result ((h whole : List EventOf) (order : List PlacedOf) → IsWhole h whole order → AreDequeues h self.old.dequeues.items → AreEnqueues whole elements.now → Told whole order (length h) elements.now (record (view_of member.now) { gone = member.now.gone.items ++ at ∷ []; early = filter (λ f. not (f == place)) member.now.early.items }) → IsCovered whole order (length h) elements.now self.new.members.items self.new.is_full) }
        ensures kept { OnOk result (Keeps self.old self.new) }
        ensures gains { OnOk result (Gains self.old self.new (Sinks elements.now 0 0 (record (view_of member.now) { gone = member.now.gone.items ++ at ∷ []; early = filter (λ f. not (f == place)) member.now.early.items }))) }
        ensures dequeues { self.new.dequeues ≡ self.old.dequeues }
    {
        let mut next = member.copy(alloc)?;
        next.lose(place, at)?;
        self.push_sunk(next, elements, 0, 0)
    }

    /// The queue may have been empty up to the time, before which all elements that are in it were taken.
    fn push_emptied(
        &mut self,
        alloc: Global,
        member: &QueueMember,
        elements: &[Element],
        time: usize,
    ) -> Result<(), OutOfMemory>
        ensures told { OnOk result ((h whole : List EventOf) (order : List PlacedOf) → IsWhole h whole order → AreDequeues h self.old.dequeues.items → AreEnqueues whole elements.now → Told whole order (length h) elements.now (record (view_of member.now) { emptied = time }) → AreOwed whole order (length h) elements.now (record (view_of member.now) { emptied = time }) time time → IsCovered whole order (length h) elements.now self.new.members.items self.new.is_full) }
        ensures kept { OnOk result (Keeps self.old self.new) }
        ensures gains { OnOk result (Gains self.old self.new (Sinks elements.now time time (record (view_of member.now) { emptied = time }))) }
        ensures dequeues { self.new.dequeues ≡ self.old.dequeues }
    {
        let mut next = member.copy(alloc)?;
        next.emptied = time;
        self.push_sunk(next, elements, time, time)
    }

    /// The member as it is.
    fn push_same(&mut self, alloc: Global, member: &QueueMember) -> Result<(), OutOfMemory>
        ensures told { OnOk result ((h whole : List EventOf) (order : List PlacedOf) (all : List ElementOf) → IsWhole h whole order → AreDequeues h self.old.dequeues.items → Told whole order (length h) all (view_of member.now) → IsCovered whole order (length h) all self.new.members.items self.new.is_full) }
        ensures kept { OnOk result (Keeps self.old self.new) }
        ensures gains { OnOk result (Gains self.old self.new (λ w. w ≡ view_of member.now)) }
        ensures dequeues { self.new.dequeues ≡ self.old.dequeues }
    {
        let next = member.copy(alloc)?;
        self.push(next)
    }

    /// The member as it is, unless the element was taken early.
    pub(crate) fn push_unless_early(
        &mut self,
        alloc: Global,
        member: &QueueMember,
        place: usize,
    ) -> Result<(), OutOfMemory>
        ensures told { OnOk result ((h whole : List EventOf) (order : List PlacedOf) (all : List ElementOf) → (Contains member.now.early.items place → ⊥) → IsWhole h whole order → AreDequeues h self.old.dequeues.items → Told whole order (length h) all (view_of member.now) → IsCovered whole order (length h) all self.new.members.items self.new.is_full) }
        ensures kept { OnOk result (Keeps self.old self.new) }
        ensures gains { OnOk result (Gains self.old self.new (Fails place (view_of member.now))) }
        ensures dequeues { self.new.dequeues ≡ self.old.dequeues }
    {
        if is_in(member.early.as_slice(), place) {
            return Ok(());
        }
        self.push_same(alloc, member)
    }

    /// What an ok of the enqueue makes of the member. Its element stands at the index, behind all others.
    pub(crate) fn put(
        &mut self,
        alloc: Global,
        member: &QueueMember,
        elements: &[Element],
        place: usize,
        at: usize,
        time: usize,
    ) -> Result<(), OutOfMemory>
        ensures told { OnOk result ((functions : ItemOf → NameOf → Bool) (h : List EventOf) (event : EventOf) (reply : ReplyOf) (whole : List EventOf) (order : List PlacedOf) (before : List ElementOf) (new : ElementOf) → elements.now ≡ before ++ new ∷ [] → at ≡ length before → new.place ≡ place → time ≡ length h → IsReturning functions h event place (Enqueues new.item) reply whole order elements.now → AreDequeues (with_event h event) self.old.dequeues.items → new.returned ≡ time → Told whole order (length h) before (view_of member.now) → IsCovered whole order (length (with_event h event)) elements.now self.new.members.items self.new.is_full) }
        ensures kept { OnOk result (Keeps self.old self.new) }
        ensures gains { OnOk result (Gains self.old self.new (PutsIn elements.now place at time (view_of member.now))) }
        ensures dequeues { self.new.dequeues ≡ self.old.dequeues }
    {
        debts_after_ok();
        if is_in(member.early.as_slice(), place) {
            return self.put_early(alloc, member, elements, place, at);
        }
        self.push_emptied(alloc, member, elements, time)?;
        self.push_same(alloc, member)
    }

    /// What an ok of a dequeue that found nothing makes of the member.
    pub(crate) fn find_nothing(
        &mut self,
        alloc: Global,
        member: &QueueMember,
        elements: &[Element],
        dequeue: usize,
        time: usize,
    ) -> Result<(), OutOfMemory>
        ensures told { OnOk result ((functions : ItemOf → NameOf → Bool) (h : List EventOf) (event : EventOf) (whole : List EventOf) (order : List PlacedOf) → time ≡ length h → IsReturning functions h event dequeue Dequeues (Values Nothing) whole order elements.now → AreDequeues (with_event h event) self.old.dequeues.items → Told whole order (length h) elements.now (view_of member.now) → IsCovered whole order (length (with_event h event)) elements.now self.new.members.items self.new.is_full) }
        ensures kept { OnOk result (Keeps self.old self.new) }
        ensures gains { OnOk result (Gains self.old self.new (FindsNothing elements.now dequeue time (view_of member.now))) }
        ensures dequeues { self.new.dequeues ≡ self.old.dequeues }
    {
        debts_after_ok();
        if dequeue < member.emptied {
            return self.push_same(alloc, member);
        }
        self.push_emptied(alloc, member, elements, time)
    }
}
