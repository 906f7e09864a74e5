//! What one more event makes of all members.
ghost use Rattle.std.specs.Prelude.{◌≡◌, ◌<◌, ◌+◌, ◌-◌, ◌++◌, ◌∷◌, [], ℕ, Bool, List, IfOk, Some, length, slice_get, Contains};
ghost use Rattle.lin_events.specs.declared.items.Item.{Item as ItemOf};
ghost use Rattle.lin_events.specs.declared.events.Event.{Event as EventOf};
ghost use Rattle.lin_events.specs.declared.calls.Name.{Name as NameOf};
ghost use Rattle.lin_events.specs.declared.calls.Reply.{Reply as ReplyOf};
ghost use Rattle.lin_events.specs.declared.calls.Call.TheVariants.{Dequeue as Dequeues, Enqueue as Enqueues};
ghost use Rattle.lin_events.specs.declared.calls.Reply.TheVariants.{Value as Values};
ghost use Rattle.lin_events.specs.declared.calls.Val.TheVariants.{Item as Held, Nil as Nothing};
ghost use Rattle.lin_order.specs.declared.placed.Placed.{Placed as PlacedOf};
ghost use Rattle.lin_order.specs.ConfigurationLaws.{with_event};
ghost use Rattle.lin_queues.specs.Debts.{IsWhole};
ghost use Rattle.lin_queues.specs.declared.elements.Element.{Element as ElementOf};
ghost use Rattle.lin_queues.specs.declared.members.QueueMember.{QueueMember as MemberOf};
ghost use Rattle.lin_queues.specs.Chains.{IsLinked};
ghost use Rattle.lin_queues.specs.Gains.{AreGathered};
ghost use Rattle.lin_queues.specs.Gathering.{IsCovered, IsReturning};
ghost use Rattle.lin_queues.specs.Members.{Told, view_of};
ghost use Rattle.lin_queues.specs.Reaching.{Fails, Finds, FindsNothing, PutsIn};
ghost use Rattle.lin_queues.specs.Opens.{AreOpen};

use crate::elements::Element;
use crate::gathered::Gathered;
use crate::members::QueueMember;
use crate::opens::OpenCall;
use crate::taking::Return;
use lin_events::OutOfMemory;
use std::alloc::Global;

/// The members after an ok of the enqueue, whose element stands at the index, behind all others.
pub(crate) fn after_put(
    alloc: Global,
    members: &[QueueMember],
    elements: &[Element],
    open: &[OpenCall],
    place: usize,
    time: usize,
) -> Result<Gathered, OutOfMemory>
    requires { 0 < length elements.now }
    ensures gathered { IfOk result (λ next. AreGathered members.now open.now next (PutsIn elements.now place (length elements.now - 1) time)) }
    ensures told { IfOk result (λ next. (functions : ItemOf → NameOf → Bool) (h : List EventOf) (event : EventOf) (reply : ReplyOf) (whole : List EventOf) (order : List PlacedOf) (before : List ElementOf) (new : ElementOf) → elements.now ≡ before ++ new ∷ [] → new.place ≡ place → time ≡ length h → new.returned ≡ time → AreOpen (with_event h event) open.now → IsReturning functions h event place (Enqueues new.item) reply whole order elements.now → ((m : MemberOf) × Contains members.now m × Told whole order (length h) before (view_of m)) → IsCovered whole order (length (with_event h event)) elements.now next.members.items next.is_full) }
{
    let at = elements.len() - 1;
    let mut next = Gathered::new(alloc, open)?;
    for member in members {
        next.put(alloc, member, elements, place, at, time)?;
    }
    Ok(next)
}

/// The members after an ok of a dequeue that found nothing.
pub(crate) fn after_nothing(
    alloc: Global,
    members: &[QueueMember],
    elements: &[Element],
    open: &[OpenCall],
    dequeue: usize,
    time: usize,
) -> Result<Gathered, OutOfMemory>
    ensures gathered { IfOk result (λ next. AreGathered members.now open.now next (FindsNothing elements.now dequeue time)) }
    ensures told { IfOk result (λ next. (functions : ItemOf → NameOf → Bool) (h : List EventOf) (event : EventOf) (whole : List EventOf) (order : List PlacedOf) → time ≡ length h → AreOpen (with_event h event) open.now → IsReturning functions h event dequeue Dequeues (Values Nothing) whole order elements.now → ((m : MemberOf) × Contains members.now m × Told whole order (length h) elements.now (view_of m)) → IsCovered whole order (length (with_event h event)) elements.now next.members.items next.is_full) }
{
    let mut next = Gathered::new(alloc, open)?;
    for member in members {
        next.find_nothing(alloc, member, elements, dequeue, time)?;
    }
    Ok(next)
}

/// The members after an ok of a dequeue with an item.
pub(crate) fn after_found(
    alloc: Global,
    members: &[QueueMember],
    elements: &[Element],
    open: &[OpenCall],
    returned: Return,
) -> Result<Gathered, OutOfMemory>
    ensures gathered { IfOk result (λ next. AreGathered members.now open.now next (Finds elements.now open.now returned.dequeue returned.item returned.time)) }
    ensures told { IfOk result (λ next. (functions : ItemOf → NameOf → Bool) (h : List EventOf) (event : EventOf) (whole : List EventOf) (order : List PlacedOf) → returned.time ≡ length h → IsLinked elements.now → ((i : ℕ) (x : ElementOf) → slice_get elements.now i ≡ Some x → x.item ≡ returned.item → i < returned.end) → AreOpen (with_event h event) open.now → IsReturning functions h event returned.dequeue Dequeues (Values (Held returned.item)) whole order elements.now → ((m : MemberOf) × Contains members.now m × Told whole order (length h) elements.now (view_of m)) → IsCovered whole order (length (with_event h event)) elements.now next.members.items next.is_full) }
{
    let mut next = Gathered::new(alloc, open)?;
    for member in members {
        next.find(alloc, member, elements, open, returned)?;
    }
    Ok(next)
}

/// The members after a fail of the operation: those in which its element wasn't taken.
pub(crate) fn after_fail(
    alloc: Global,
    members: &[QueueMember],
    open: &[OpenCall],
    place: usize,
) -> Result<Gathered, OutOfMemory>
    ensures gathered { IfOk result (λ next. AreGathered members.now open.now next (Fails place)) }
    ensures told { IfOk result (λ next. (h whole : List EventOf) (order : List PlacedOf) (all : List ElementOf) → AreOpen h open.now → IsWhole h whole order → ((m : MemberOf) × Contains members.now m × (Contains (view_of m).early place → ⊥) × Told whole order (length h) all (view_of m)) → IsCovered whole order (length h) all next.members.items next.is_full) }
{
    let mut next = Gathered::new(alloc, open)?;
    for member in members {
        next.push_unless_early(alloc, member, place)?;
    }
    Ok(next)
}
