//! An engine that finds the event up to which a fifo queue has no legal order: where its debts can't be paid.
//!
//! `Debts` takes the events in, one after the other, and keeps a few members, each a way in which they can have gone: a debtor of
//! `debt_laws`, with sets of elements in place of orders of them, since elements whose enqueues overlap may stand in any order. A
//! dequeue that returns an item takes one that is inside, so that all that was put in before its enqueue was invoked went ahead of it,
//! and is in debt; or one that is in debt, if it was invoked before the debt's time, and so pays it; or one whose enqueue is open. An
//! enqueue puts its element behind what is inside, or alone behind all of that; a dequeue that found nothing was invoked before the
//! queue was last empty, or all that is inside is in debt from now on. Of members with the same elements the one with later times is
//! kept, and one whose debts are more than the open dequeues that can pay goes (`gathered`, `settling`). With none left the engine says
//! `Fails`, with more than 128 that don't dominate one another it gives up.
//!
//! Promised of well-formed events: up to and with the event that `failing_event` tells there is no legal order (it may fail earlier);
//! it gives up only where there are so many members (`AreTooMany`, specs/Reaching.antt). `Stands` claims no legal order. What is looked
//! for is of the kind that Henzinger, Sezgin and Vafeiadis 2013 (Aspect-oriented linearizability proofs) name; that it is right of
//! items that repeat and of operations that crash is proved by the laws of `debt_laws`.
//!
//! A step an event, each of which goes through 128 members at most. It isn't cut: a search makes it anew. More: docs/SEARCHES.md, 'A
//! queue, by its debts'.
ghost use Rattle.std.specs.Prelude.{◌≡◌, ◌<◌, ◌+◌, ◌++◌, ◌∷◌, [], ℕ, Bool, List, IfNone, IfOk, IfSome, IsTrue, false, Ok, length, Contains};
ghost use Rattle.lin_events.specs.declared.items.Item.{Item as ItemOf};
ghost use Rattle.lin_events.specs.declared.events.Event.{Event as EventOf};
ghost use Rattle.lin_events.specs.declared.events.Body.TheVariants.{Invoke as Invokes, Ok as Returns, Fail as FailsOf, Info as Informs};
ghost use Rattle.lin_events.specs.declared.calls.Name.{Name as NameOf};
ghost use Rattle.lin_events.specs.declared.calls.Reply.{Reply as ReplyOf};
ghost use Rattle.lin_events.specs.declared.calls.Call.TheVariants.{Dequeue as Dequeues, Enqueue as Enqueues};
ghost use Rattle.lin_events.specs.declared.calls.Reply.TheVariants.{Done as DoneOf, Value as Values};
ghost use Rattle.lin_events.specs.declared.calls.Val.{Val as ValOf};
ghost use Rattle.lin_events.specs.declared.calls.Val.TheVariants.{Item as Held, Nil as Nothing};
ghost use Rattle.lin_objects.specs.declared.kinds.Kind.TheVariants.{Fifo as FifoOf};
ghost use Rattle.lin_order.specs.ConfigurationLaws.{with_event};
ghost use Rattle.lin_order.specs.Linearizable.{IsLinearizableAs};
ghost use Rattle.lin_queues.specs.Engines.{AreDebtsOf, GoesOn, IsCompleting, IsCrowding, IsFailing, reached_count};
ghost use Rattle.lin_queues.specs.Reaching.{AreTooMany};

use crate::debt_laws::{debts_after_events, debts_at_start, no_debts, other_ok_is_illegal};
use crate::elements::Elements;
use crate::gathered::Gathered;
use crate::members::QueueMember;
use crate::opens::{OpenCall, index_of};
use crate::rounds::{after_fail, after_found, after_nothing, after_put};
use crate::taking::Return;
use lin_events::{
    Body, Call, Event, Item, OutOfMemory, Reply, Val, ends_are_unique, well_formed_is_alternating,
};
use std::alloc::Global;

/// What came of one more event.
#[derive(Clone, Copy, Debug, PartialEq, Eq)]
pub enum Progress {
    /// It was taken in.
    Next,
    /// The events up to and with it have no legal order.
    Fails,
    /// There are too many members. The engine tells nothing of these events, nor of later ones.
    GivesUp,
}

/// What the legal orders of a queue's events have in common.
///
/// An element is named by the invocation of its enqueue. Each member tells of some legal orders which elements are in the queue, which
/// ones dequeues took that aren't ok yet or crashed, which ones were taken ahead of the end of their enqueue, and up to when the queue may
/// have been empty. Where no member is left, there is no legal order. Items may repeat, operations may crash, fail and stay open.
#[derive(Drop)]
pub struct Debts {
    reached: usize,
    elements: Elements,
    pending: Vec<OpenCall>,
    members: Vec<QueueMember>,
}

/// What a reply found, if it is a dequeue's.
fn value_of(reply: &Reply) -> Option<Val>
    ensures some { IfSome result (λ value. reply.now ≡ Values value) }
    ensures none { IfNone result ((value : ValOf) → reply.now ≡ Values value → ⊥) }
{
    match reply {
        Reply::Value(value) => Some(*value),
        _ => None,
    }
}

impl Debts {
    /// Before any event.
    pub fn new(alloc: Global) -> Result<Debts, OutOfMemory>
        ensures { IfOk result (λ debts. AreDebtsOf debts []) }
    {
        debts_at_start();
        let mut members = Vec::new(alloc);
        members.push(QueueMember::new(alloc))?;
        Ok(Debts {
            reached: 0,
            elements: Elements::new(alloc),
            pending: Vec::new(alloc),
            members,
        })
    }

    /// How many events were taken in.
    pub fn reached(&self) -> usize
        ensures { result ≡ reached_count self.now }
    {
        self.reached
    }

    /// Takes in one more event.
    pub fn take_in(&mut self, alloc: Global, event: &Event) -> Result<Progress, OutOfMemory>
        ensures next { result ≡ Ok Progress.Next → GoesOn self.old self.new event.now }
        ensures fails { result ≡ Ok Progress.Fails → IsFailing self.old event.now }
        ensures gives_up { result ≡ Ok Progress.GivesUp → IsCrowding self.old event.now }
    {
        if self.reached == usize::MAX {
            return Ok(Progress::GivesUp);
        }
        match &event.body {
            Body::Invoke(call) => self.invoke(event.process, *call),
            Body::Ok(_, reply) => self.complete(alloc, event.process, reply),
            Body::Fail(_) => self.fail(alloc, event.process),
            Body::Info(_) => Ok(self.inform()),
        }
    }

    /// Takes in an invocation.
    fn invoke(&mut self, process: u64, call: Call) -> Result<Progress, OutOfMemory>
        requires { self.old.reached < usize.MAX }
        ensures next { result ≡ Ok Progress.Next → (event : EventOf) → event.body ≡ Invokes call → event.process ≡ process → GoesOn self.old self.new event }
        ensures stays { result ≡ Ok Progress.Fails → ⊥ }
        ensures goes_on { result ≡ Ok Progress.GivesUp → ⊥ }
    {
        debts_after_events();
        debts_at_start();
        let place = self.reached;
        self.pending.push(OpenCall {
            process,
            place,
            call,
        })?;
        self.reached += 1;
        Ok(Progress::Next)
    }

    /// Takes in an info.
    fn inform(&mut self) -> Progress
        requires { self.old.reached < usize.MAX }
        ensures next { (event : EventOf) (name : NameOf) → event.body ≡ Informs name → GoesOn self.old self.new event }
        ensures stays { result ≡ Progress.Next }
    {
        debts_after_events();
        debts_at_start();
        well_formed_is_alternating();
        self.reached += 1;
        Progress::Next
    }

    /// Takes in a fail.
    fn fail(&mut self, alloc: Global, process: u64) -> Result<Progress, OutOfMemory>
        requires { self.old.reached < usize.MAX }
        ensures next { result ≡ Ok Progress.Next → (event : EventOf) (name : NameOf) → event.body ≡ FailsOf name → event.process ≡ process → GoesOn self.old self.new event }
        ensures fails { result ≡ Ok Progress.Fails → (event : EventOf) (name : NameOf) → event.body ≡ FailsOf name → event.process ≡ process → IsFailing self.old event }
        ensures gives_up { result ≡ Ok Progress.GivesUp → (event : EventOf) (name : NameOf) → event.body ≡ FailsOf name → event.process ≡ process → IsCrowding self.old event }
    {
        debts_after_events();
        debts_at_start();
        no_debts();
        ends_are_unique();
        well_formed_is_alternating();
        let Some(at) = index_of(self.pending.as_slice(), process) else {
            return Ok(Progress::GivesUp);
        };
        let operation = self.pending.remove(at);
        let next = after_fail(
            alloc,
            self.members.as_slice(),
            self.pending.as_slice(),
            operation.place,
        )?;
        Ok(self.go_on(next))
    }

    /// Takes in an ok.
    fn complete(
        &mut self,
        alloc: Global,
        process: u64,
        reply: &Reply,
    ) -> Result<Progress, OutOfMemory>
        requires { self.old.reached < usize.MAX }
        ensures next { result ≡ Ok Progress.Next → (event : EventOf) (name : NameOf) → event.body ≡ Returns name reply.now → event.process ≡ process → GoesOn self.old self.new event }
        ensures fails { result ≡ Ok Progress.Fails → (event : EventOf) (name : NameOf) → event.body ≡ Returns name reply.now → event.process ≡ process → IsFailing self.old event }
        ensures gives_up { result ≡ Ok Progress.GivesUp → (event : EventOf) (name : NameOf) → event.body ≡ Returns name reply.now → event.process ≡ process → IsCrowding self.old event }
    {
        ends_are_unique();
        well_formed_is_alternating();
        no_debts();
        other_ok_is_illegal();
        let Some(at) = index_of(self.pending.as_slice(), process) else {
            return Ok(Progress::GivesUp);
        };
        let operation = self.pending.remove(at);
        match operation.call {
            Call::Enqueue(item) => self.enqueue(alloc, operation.place, item, reply),
            Call::Dequeue => self.dequeue(alloc, operation.place, reply),
            _ => Ok(Progress::Fails),
        }
    }

    /// An ok of an enqueue. With another reply no queue gives it.
    fn enqueue(
        &mut self,
        alloc: Global,
        place: usize,
        item: Item,
        reply: &Reply,
    ) -> Result<Progress, OutOfMemory>
        requires { self.old.reached < usize.MAX }
        ensures next { result ≡ Ok Progress.Next → (functions : ItemOf → NameOf → Bool) (h : List EventOf) (event : EventOf) → IsCompleting self.old functions h event place (Enqueues item) reply.now → AreDebtsOf self.new (with_event h event) }
        ensures fails { result ≡ Ok Progress.Fails → (functions : ItemOf → NameOf → Bool) (h : List EventOf) (event : EventOf) → IsCompleting self.old functions h event place (Enqueues item) reply.now → IsLinearizableAs FifoOf (with_event h event) → ⊥ }
        ensures gives_up { result ≡ Ok Progress.GivesUp → (functions : ItemOf → NameOf → Bool) (h : List EventOf) (event : EventOf) → IsCompleting self.old functions h event place (Enqueues item) reply.now → AreTooMany (with_event h event) }
    {
        no_debts();
        other_ok_is_illegal();
        match reply {
            Reply::Done => self.put(alloc, place, item),
            _ => Ok(Progress::Fails),
        }
    }

    /// An ok of an enqueue that put its item in.
    fn put(&mut self, alloc: Global, place: usize, item: Item) -> Result<Progress, OutOfMemory>
        requires { self.old.reached < usize.MAX }
        ensures next { result ≡ Ok Progress.Next → (functions : ItemOf → NameOf → Bool) (h : List EventOf) (event : EventOf) → IsCompleting self.old functions h event place (Enqueues item) DoneOf → AreDebtsOf self.new (with_event h event) }
        ensures fails { result ≡ Ok Progress.Fails → (functions : ItemOf → NameOf → Bool) (h : List EventOf) (event : EventOf) → IsCompleting self.old functions h event place (Enqueues item) DoneOf → IsLinearizableAs FifoOf (with_event h event) → ⊥ }
        ensures gives_up { result ≡ Ok Progress.GivesUp → (functions : ItemOf → NameOf → Bool) (h : List EventOf) (event : EventOf) → IsCompleting self.old functions h event place (Enqueues item) DoneOf → AreTooMany (with_event h event) }
    {
        debts_at_start();
        no_debts();
        ends_are_unique();
        well_formed_is_alternating();
        let time = self.reached;
        self.elements.push(place, time, item)?;
        let next = after_put(
            alloc,
            self.members.as_slice(),
            self.elements.all.as_slice(),
            self.pending.as_slice(),
            place,
            time,
        )?;
        Ok(self.go_on(next))
    }

    /// An ok of a dequeue. With a reply that tells of no item no queue gives it.
    fn dequeue(
        &mut self,
        alloc: Global,
        place: usize,
        reply: &Reply,
    ) -> Result<Progress, OutOfMemory>
        requires { self.old.reached < usize.MAX }
        ensures next { result ≡ Ok Progress.Next → (functions : ItemOf → NameOf → Bool) (h : List EventOf) (event : EventOf) → IsCompleting self.old functions h event place Dequeues reply.now → AreDebtsOf self.new (with_event h event) }
        ensures fails { result ≡ Ok Progress.Fails → (functions : ItemOf → NameOf → Bool) (h : List EventOf) (event : EventOf) → IsCompleting self.old functions h event place Dequeues reply.now → IsLinearizableAs FifoOf (with_event h event) → ⊥ }
        ensures gives_up { result ≡ Ok Progress.GivesUp → (functions : ItemOf → NameOf → Bool) (h : List EventOf) (event : EventOf) → IsCompleting self.old functions h event place Dequeues reply.now → AreTooMany (with_event h event) }
    {
        no_debts();
        other_ok_is_illegal();
        let Some(value) = value_of(reply) else {
            return Ok(Progress::Fails);
        };
        match value {
            Val::Item(item) => self.find(alloc, place, item),
            Val::Nil => self.find_nothing(alloc, place),
        }
    }

    /// An ok of a dequeue with an item.
    fn find(&mut self, alloc: Global, place: usize, item: Item) -> Result<Progress, OutOfMemory>
        requires { self.old.reached < usize.MAX }
        ensures next { result ≡ Ok Progress.Next → (functions : ItemOf → NameOf → Bool) (h : List EventOf) (event : EventOf) → IsCompleting self.old functions h event place Dequeues (Values (Held item)) → AreDebtsOf self.new (with_event h event) }
        ensures fails { result ≡ Ok Progress.Fails → (functions : ItemOf → NameOf → Bool) (h : List EventOf) (event : EventOf) → IsCompleting self.old functions h event place Dequeues (Values (Held item)) → IsLinearizableAs FifoOf (with_event h event) → ⊥ }
        ensures gives_up { result ≡ Ok Progress.GivesUp → (functions : ItemOf → NameOf → Bool) (h : List EventOf) (event : EventOf) → IsCompleting self.old functions h event place Dequeues (Values (Held item)) → AreTooMany (with_event h event) }
    {
        debts_at_start();
        no_debts();
        let returned = Return {
            dequeue: place,
            item,
            end: self.elements.end_of(item),
            time: self.reached,
        };
        let next = after_found(
            alloc,
            self.members.as_slice(),
            self.elements.all.as_slice(),
            self.pending.as_slice(),
            returned,
        )?;
        Ok(self.go_on(next))
    }

    /// An ok of a dequeue that found nothing.
    fn find_nothing(&mut self, alloc: Global, place: usize) -> Result<Progress, OutOfMemory>
        requires { self.old.reached < usize.MAX }
        ensures next { result ≡ Ok Progress.Next → (functions : ItemOf → NameOf → Bool) (h : List EventOf) (event : EventOf) → IsCompleting self.old functions h event place Dequeues (Values Nothing) → AreDebtsOf self.new (with_event h event) }
        ensures fails { result ≡ Ok Progress.Fails → (functions : ItemOf → NameOf → Bool) (h : List EventOf) (event : EventOf) → IsCompleting self.old functions h event place Dequeues (Values Nothing) → IsLinearizableAs FifoOf (with_event h event) → ⊥ }
        ensures gives_up { result ≡ Ok Progress.GivesUp → (functions : ItemOf → NameOf → Bool) (h : List EventOf) (event : EventOf) → IsCompleting self.old functions h event place Dequeues (Values Nothing) → AreTooMany (with_event h event) }
    {
        debts_at_start();
        no_debts();
        let next = after_nothing(
            alloc,
            self.members.as_slice(),
            self.elements.all.as_slice(),
            self.pending.as_slice(),
            place,
            self.reached,
        )?;
        Ok(self.go_on(next))
    }

    /// Goes on with these members.
    fn go_on(&mut self, next: Gathered) -> Progress
        requires { self.old.reached < usize.MAX }
        ensures next { result ≡ Progress.Next → (next.is_full ≡ false) × (self.new ≡ record self.old { reached = self.old.reached + 1; members = next.members }) × (0 < length next.members.items) }
        ensures fails { result ≡ Progress.Fails → (next.is_full ≡ false) × (next.members.items ≡ []) }
        ensures gives_up { result ≡ Progress.GivesUp → IsTrue next.is_full }
    {
        if next.is_full {
            return Progress::GivesUp;
        }
        if next.members.is_empty() {
            return Progress::Fails;
        }
        self.members = next.members;
        self.reached += 1;
        Progress::Next
    }
}
