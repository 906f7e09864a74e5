//! Laws of a queue's debts: what the legal orders of a fifo queue's events have in common, event by event.
//!
//! A debtor (`Debtor`, specs/Debts.antt) tells what a legal order made of the enqueues so far, each of which stands for its element:
//! which elements are inside, that is, their enqueue is ok and no dequeue that is ok took them; which ones are in debt, each with a
//! time: an open dequeue that was invoked before the time took it; which ones were taken early, while their enqueue was open; and up to
//! when the queue may have been empty. Each legal order of the whole history, however it goes on, is followed by a debtor after each of
//! its beginnings (`Follows`), and the laws (specs/Laws.antt) say what one more event makes of it. So where no debtor is left that can
//! pay its debts there is no legal order (`no_debts`).
//!
//! Promised, for well-formed events, and whether items repeat, operations crash, fail or stay open: that half alone. That each debtor
//! stands for a legal order is neither promised nor needed, since a yes comes from an order.
//!
//! Henzinger, Sezgin and Vafeiadis 2013 (Aspect-oriented linearizability proofs) name four things that go wrong with a queue whose
//! items are put in once each: an item from nowhere, one taken twice, two taken out in the wrong order, and an empty queue that wasn't.
//! Debts look for these event by event, also where operations are open or crashed and items repeat.
//!
//! There is no code: the functions do nothing, and hand the laws to the engine, `Debts`. More: docs/SEARCHES.md, 'A queue, by its debts'.
ghost use Rattle.lin_queues.specs.Laws.{BeginningLaw, DequeuedLaw, DominationLaw, EnqueuedLaw, FailLaw, InfoLaw, InvocationLaw, NoneLaw, NothingLaw, OtherCallLaw, OtherPutLaw, OtherReplyLaw, PaymentLaw, SinkLaw, SpareLaw, StartLaw};

use lin_events::well_formed_is_alternating;

/// Before any event.
pub fn debts_at_start()
    ensures start { StartLaw }
    ensures beginning { BeginningLaw }
{}

/// What an invocation, an info and a fail make of a debtor.
pub fn debts_after_events()
    ensures invocation { InvocationLaw }
    ensures info { InfoLaw }
    ensures fail { FailLaw }
{
    well_formed_is_alternating();
}

/// What an ok makes of a debtor.
pub fn debts_after_ok()
    ensures enqueued { EnqueuedLaw }
    ensures dequeued { DequeuedLaw }
    ensures nothing { NothingLaw }
{
    well_formed_is_alternating();
}

/// An ok that a queue never gives has no legal order.
pub fn other_ok_is_illegal()
    ensures call { OtherCallLaw }
    ensures put { OtherPutLaw }
    ensures reply { OtherReplyLaw }
{
    well_formed_is_alternating();
}

/// Elements may go into debt, and dominated debtors can go.
pub fn debts_move()
    ensures sink { SinkLaw }
    ensures domination { DominationLaw }
{}

/// Open dequeues pay the debts.
pub fn debts_are_payable()
    ensures payment { PaymentLaw }
    ensures spare { SpareLaw }
{}

/// Events that no debtor tells of are not linearizable.
pub fn no_debts()
    ensures { NoneLaw }
{}
