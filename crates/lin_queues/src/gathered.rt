//! The members that are gathered for the events with one more.
ghost use Rattle.std.specs.Prelude.{◌≡◌, ◌⊎◌, ◌+◌, ℕ, List, [], false, IfOk, IsTrue, OnOk, length, Contains};
ghost use Rattle.lin_events.specs.declared.events.Event.{Event as EventOf};
ghost use Rattle.lin_order.specs.declared.placed.Placed.{Placed as PlacedOf};
ghost use Rattle.lin_queues.specs.Debts.{IsWhole};
ghost use Rattle.lin_queues.specs.declared.elements.Element.{Element as ElementOf};
ghost use Rattle.lin_queues.specs.declared.members.QueueMember.{QueueMember as MemberOf};
ghost use Rattle.lin_queues.specs.Gains.{AreApart, Gains};
ghost use Rattle.lin_queues.specs.Gathering.{IsCovered, Keeps};
ghost use Rattle.lin_queues.specs.Members.{AreUnpaid, HasMore, IsAtLeast, Told, view_of};
ghost use Rattle.lin_queues.specs.Opens.{AreDequeues, AreOpen};

use crate::debt_laws::{debts_are_payable, debts_move};
use crate::members::{QueueMember, are_unpaid};
use crate::opens::{OpenCall, dequeues_of};
use lin_events::OutOfMemory;
use std::alloc::Global;

/// With more members than so many the engine gives up. Queues in which items repeat, with operations that stay open, can have more.
pub(crate) const LIMIT: usize = 128;

/// Members, and the open dequeues that pay their debts.
#[derive(Drop)]
pub(crate) struct Gathered {
    pub(crate) members: Vec<QueueMember>,
    pub(crate) dequeues: Vec<usize>,
    /// Whether these are too many members.
    pub(crate) is_full: bool,
}

impl Gathered {
    /// No member.
    pub(crate) fn new(alloc: Global, open: &[OpenCall]) -> Result<Gathered, OutOfMemory>
        ensures paying { (h : List EventOf) → AreOpen h open.now → IfOk result (λ gathered. AreDequeues h gathered.dequeues.items) }
        ensures fresh { IfOk result (λ gathered. (gathered.members.items ≡ []) × (gathered.is_full ≡ false)) }
    {
        let dequeues = dequeues_of(alloc, open)?;
        Ok(Gathered {
            members: Vec::new(alloc),
            dequeues,
            is_full: false,
        })
    }

    /// Whether some member has the same, with times that are no less.
    fn has_better(&self, member: &QueueMember) -> bool
        ensures better { IsTrue result → (m : MemberOf) × Contains self.now.members.items m × IsAtLeast (view_of m) (view_of member.now) }
        ensures none { result ≡ false → (m : MemberOf) → Contains self.now.members.items m → IsAtLeast (view_of m) (view_of member.now) → ⊥ }
    {
        for other in &self.members {
            if other.is_at_least(member) {
                return true;
            }
        }
        false
    }

    /// Lets those members go that have the same, with times that are no later.
    fn drop_worse(&mut self, member: &QueueMember)
        ensures members { (m : MemberOf) → Contains self.old.members.items m → Contains self.new.members.items m ⊎ IsAtLeast (view_of member.now) (view_of m) }
        ensures left { (m : MemberOf) → Contains self.new.members.items m → Contains self.old.members.items m × (IsAtLeast (view_of member.now) (view_of m) → ⊥) }
        ensures apart { AreApart self.old.members.items → AreApart self.new.members.items }
        ensures full { self.new.is_full ≡ self.old.is_full }
        ensures dequeues { self.new.dequeues ≡ self.old.dequeues }
    {
        let mut at = 0;
        while at < self.members.len() {
            if member.is_at_least(&self.members[at]) {
                self.members.remove(at);
            } else {
                at += 1;
            }
        }
    }

    /// Puts the member in where none is better.
    fn put_in(&mut self, member: QueueMember) -> Result<(), OutOfMemory>
        requires { self.old.is_full ≡ false }
        ensures gains { OnOk result ((AreUnpaid member.debts.items self.old.dequeues.items → ⊥) → Gains self.old self.new (λ w. w ≡ view_of member)) }
        ensures told { OnOk result ((whole : List EventOf) (order : List PlacedOf) (n : ℕ) (all : List ElementOf) → Told whole order n all (view_of member) → IsCovered whole order n all self.new.members.items self.new.is_full) }
        ensures kept { OnOk result (Keeps self.old self.new) }
        ensures dequeues { self.new.dequeues ≡ self.old.dequeues }
    {
        debts_move();
        if self.has_better(&member) {
            return Ok(());
        }
        self.drop_worse(&member);
        self.members.push(member)?;
        self.is_full = self.members.len() > LIMIT;
        Ok(())
    }

    /// One member more, if its debts can be paid.
    pub(crate) fn push(&mut self, member: QueueMember) -> Result<(), OutOfMemory>
        ensures gains { OnOk result (Gains self.old self.new (λ w. w ≡ view_of member)) }
        ensures told { OnOk result ((h whole : List EventOf) (order : List PlacedOf) (all : List ElementOf) → IsWhole h whole order → AreDequeues h self.old.dequeues.items → Told whole order (length h) all (view_of member) → IsCovered whole order (length h) all self.new.members.items self.new.is_full) }
        ensures kept { OnOk result (Keeps self.old self.new) }
        ensures dequeues { self.new.dequeues ≡ self.old.dequeues }
    {
        debts_are_payable();
        if self.is_full || are_unpaid(member.debts.as_slice(), self.dequeues.as_slice()) {
            return Ok(());
        }
        self.put_in(member)
    }
}
