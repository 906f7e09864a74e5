//! What is known of a lock, and what one more event makes of it.
ghost use Rattle.std.specs.Prelude.{◌≡◌, ◌≤◌, ◌<◌, ◌+◌, ◌++◌, ◌∷◌, [], ℕ, Bool, List, None, Option, IfOk, IfSome, Ok, OnErr, Some, true, false, length, not, if◌then◌else◌, set, vec_capacity, vec_len};
ghost use Rattle.lin_events.specs.declared.calls.Call.{Call as CallOf};
ghost use Rattle.lin_events.specs.declared.calls.Name.{Name as NameOf};
ghost use Rattle.lin_events.specs.declared.calls.Reply.{Reply as ReplyOf};
ghost use Rattle.lin_events.specs.declared.events.Event.{Event as EventOf};
ghost use Rattle.lin_events.specs.declared.events.Body.TheVariants.{Invoke as Invokes, Ok as Returns, Fail as FailsOf, Info as Informs};
ghost use Rattle.lin_objects.specs.declared.kinds.Kind.TheVariants.{Mutex};
ghost use Rattle.lin_order.specs.Linearizable.{IsLegalOrderAs};
ghost use Rattle.lin_locks.specs.declared.changes.Change.{Change as ChangeOf};
ghost use Rattle.lin_locks.specs.declared.changes.EndChange.{EndChange as EndOf};
ghost use Rattle.lin_locks.specs.declared.standings.Turn.TheVariants as Turned;
ghost use Rattle.lin_locks.specs.inner.Changes.{AreAsBefore, IsUndone, invoked, before_end, before_invocation, before_owing, order_before, undone};
ghost use Rattle.lin_locks.specs.inner.Debts.{lock_call};
ghost use Rattle.lin_locks.specs.inner.Fillings.{HavePlaces, filled};
ghost use Rattle.lin_locks.specs.inner.Known.{known_of, part_of};
ghost use Rattle.lin_locks.specs.inner.Room.{HasKept, HasKeptBoth, Holds, HoldsBoth};
ghost use Rattle.lin_locks.specs.inner.Sides.{AreEarly, IsOwingAt, IsPaying, IsStanding};
ghost use Rattle.lin_locks.specs.inner.Turns.{GoesOn, HasPlaces, IsFailing, IsRight, TurnsDown, TurnsOn};

use crate::changes::{Change, EndChange};
use crate::latest::{Latest, Running};
use crate::sides::{Closed, Debt, Paid, Side, Withdrawal, fill, reorder};
use lin_events::{Body, Call, Event, OutOfMemory, Reply, well_formed_is_alternating};
use lin_order::Placed;
use std::alloc::Global;

/// What becomes of an operation that returns.
#[derive(Clone, Copy)]
pub(crate) enum Turn {
    /// It was owed, and changes nothing.
    Pays(EndChange),
    /// It stands last.
    Stands(EndChange),
    /// It would stand last, and what would be owed for it can't be paid.
    Fails,
}

/// An operation that returns.
#[derive(Clone, Copy)]
struct Return {
    begin: usize,
    end: usize,
    /// How the lock is.
    held: bool,
    /// Whether it allows the operation.
    fits: bool,
}

/// Puts the operation that was invoked there last, behind one that is owed for it, if one is.
fn append(order: &mut Vec<Option<usize>>, owes: bool, begin: usize)
    requires { vec_len order.old + 2 ≤ vec_capacity order.old }
    ensures { order.new.items ≡ (if owes then order.old.items ++ None ∷ [] else order.old.items) ++ Some begin ∷ [] }
{
    if owes {
        order.push_reserved(None);
    }
    order.push_reserved(Some(begin));
}

/// Takes in that an operation of the one side's call returns and stands last; one of the other side may be owed for it.
fn stand(own: &mut Side, order: &mut Vec<Option<usize>>, returned: Return, owes: bool) -> EndChange
    requires { vec_len order.old + 2 ≤ vec_capacity order.old }
    ensures stands { AreEarly returned.begin own.old.debts.items → IsStanding returned.begin (part_of own.old) (part_of own.new) }
    ensures order { order.new.items ≡ (if owes then order.old.items ++ None ∷ [] else order.old.items) ++ Some returned.begin ∷ [] }
    ensures own_back { before_end result (part_of own.new) ≡ part_of own.old }
    ensures order_back { order_before result order.new.items ≡ order.old.items }
    ensures owes { result.owes ≡ owes }
    ensures held { result.held ≡ returned.held }
    ensures kept { HasKept own.old own.new }
{
    let length = order.len();
    let closed = own.close(returned.begin);
    append(order, owes, returned.begin);
    EndChange {
        closed,
        paid: None,
        owes,
        held: returned.held,
        length,
    }
}

/// Takes in that an operation of the one side's call returns.
fn take_in_return(
    own: &mut Side,
    other: &mut Side,
    order: &mut Vec<Option<usize>>,
    returned: Return,
) -> Result<Turn, OutOfMemory>
    ensures pays { (end : EndOf) → result ≡ Ok (Turned.Pays end) → (paying : IsPaying returned.begin (part_of own.old) (part_of own.new)) × (part_of other.new ≡ part_of other.old) × (order.new.items ≡ set order.old.items paying.debt.slot (Some returned.begin)) }
    ensures stands { (end : EndOf) → result ≡ Ok (Turned.Stands end) → returned.fits ≡ true → IsStanding returned.begin (part_of own.old) (part_of own.new) × (part_of other.new ≡ part_of other.old) × (order.new.items ≡ order.old.items ++ Some returned.begin ∷ []) }
    ensures owes { (end : EndOf) → result ≡ Ok (Turned.Stands end) → returned.fits ≡ false → IsStanding returned.begin (part_of own.old) (part_of own.new) × IsOwingAt returned.end (length order.old.items) (part_of other.old) (part_of other.new) × (order.new.items ≡ (order.old.items ++ None ∷ []) ++ Some returned.begin ∷ []) }
    ensures fails { result ≡ Ok Turned.Fails → (returned.fits ≡ false) × AreEarly returned.begin own.old.debts.items × (length other.old.open.items ≤ length other.old.debts.items) }
    ensures pays_back { (end : EndOf) → result ≡ Ok (Turned.Pays end) → HavePlaces order.old.items own.old.debts.items → IsUndone end returned.held own.old own.new other.old other.new order.old.items order.new.items }
    ensures stands_back { (end : EndOf) → result ≡ Ok (Turned.Stands end) → IsUndone end returned.held own.old own.new other.old other.new order.old.items order.new.items }
    ensures stays { result ≡ Ok Turned.Fails → AreAsBefore own.old own.new other.old other.new order.old.items order.new.items }
    ensures refused { OnErr result (AreAsBefore own.old own.new other.old other.new order.old.items order.new.items) }
    ensures own_kept { HasKept own.old own.new }
    ensures other_kept { HasKept other.old other.new }
{
    order.reserve(2)?;
    let may_owe = other.may_owe()?;
    let length = order.len();
    if let Some((closed, paid)) = own.pay(returned.begin) {
        fill(order, paid.debt.slot, returned.begin);
        return Ok(Turn::Pays(EndChange {
            closed,
            paid: Some(paid),
            owes: false,
            held: returned.held,
            length,
        }));
    }
    if returned.fits {
        return Ok(Turn::Stands(stand(own, order, returned, false)));
    }
    if !may_owe {
        return Ok(Turn::Fails);
    }
    other.owe(Debt {
        until: returned.end,
        slot: length,
    });
    Ok(Turn::Stands(stand(own, order, returned, true)))
}

/// The operations that stand there, each of them done.
fn list_placed(alloc: Global, order: &[Option<usize>]) -> Result<Vec<Placed>, OutOfMemory>
    ensures { IfOk result (λ placed. placed.items ≡ filled (λ k. 0) 0 order.now) }
{
    let mut placed = Vec::with_capacity(alloc, order.len())?;
    for place in 0..order.len() {
        placed.push(Placed {
            // Where all is paid, each place has its operation.
            at: order[place].unwrap_or(0),
            reply: Reply::Done,
        })?;
    }
    Ok(placed)
}

/// What is known of a lock.
#[derive(Drop)]
pub(crate) struct Standing {
    pub(crate) held: bool,
    pub(crate) acquires: Side,
    pub(crate) releases: Side,
    /// Where the operations were invoked, or none where one is owed.
    pub(crate) order: Vec<Option<usize>>,
    pub(crate) latest: Latest,
}

impl Standing {
    /// Before any event.
    pub(crate) fn new(alloc: Global) -> Standing
        ensures { IsRight (known_of result) [] }
    {
        Standing {
            held: false,
            acquires: Side::new(alloc),
            releases: Side::new(alloc),
            order: Vec::new(alloc),
            latest: Latest::new(alloc),
        }
    }

    /// An operation is open that was invoked at the place, for which there is room.
    fn open(&mut self, call: Call, at: usize)
        requires acquires { vec_len self.old.acquires.open < vec_capacity self.old.acquires.open }
        requires releases { vec_len self.old.releases.open < vec_capacity self.old.releases.open }
        ensures opens { known_of self.new ≡ invoked call at (known_of self.old) }
        ensures kept { HasKeptBoth self.old self.new }
    {
        match call {
            Call::Acquire => self.acquires.begin(at),
            Call::Release => self.releases.begin(at),
            _ => {}
        }
    }

    /// An operation is invoked at the place.
    fn begin(&mut self, at: usize, process: u64, call: Call) -> Result<Change, OutOfMemory>
        ensures on { (change : ChangeOf) → result ≡ Ok change → (event : EventOf) → event.body ≡ Invokes call → event.process ≡ process → GoesOn (known_of self.old) (known_of self.new) at event }
        ensures back { IfOk result (λ change. undone change (known_of self.new) ≡ known_of self.old) }
        ensures refused { OnErr result (known_of self.new ≡ known_of self.old) }
        ensures kept { HasKeptBoth self.old self.new }
    {
        well_formed_is_alternating();
        let before = self.latest.get(process);
        self.acquires.make_room()?;
        self.releases.make_room()?;
        self.latest.put(process, Running { begin: at, call })?;
        self.open(call, at);
        Ok(Change::Invoked {
            process,
            call,
            before,
        })
    }

    /// Whether the lock allows the call as it would be if just what is owed were placed.
    fn fits(&self, acquires: bool) -> bool
        ensures { self.now.held ≡ (if result then not acquires else acquires) }
    {
        self.held != acquires
    }

    /// An operation that acquires returns; what that changed, if there is a way on.
    fn acquire(&mut self, begin: usize, end: usize) -> Result<Option<Change>, OutOfMemory>
        ensures on { (change : ChangeOf) → result ≡ Ok (Some change) → TurnsOn (known_of self.old) (known_of self.new) (lock_call true) begin end }
        ensures down { result ≡ Ok None → TurnsDown (known_of self.old) (lock_call true) begin end }
        ensures latest { self.new.latest ≡ self.old.latest }
        ensures back { (change : ChangeOf) → result ≡ Ok (Some change) → HasPlaces (known_of self.old) → undone change (known_of self.new) ≡ known_of self.old }
        ensures stays { result ≡ Ok None → known_of self.new ≡ known_of self.old }
        ensures refused { OnErr result (known_of self.new ≡ known_of self.old) }
        ensures kept { HasKeptBoth self.old self.new }
    {
        well_formed_is_alternating();
        let returned = Return {
            begin,
            end,
            held: self.held,
            fits: self.fits(true),
        };
        let turn = take_in_return(
            &mut self.acquires,
            &mut self.releases,
            &mut self.order,
            returned,
        )?;
        match turn {
            Turn::Pays(end) => Ok(Some(Change::Acquired(end))),
            Turn::Stands(end) => {
                self.held = true;
                Ok(Some(Change::Acquired(end)))
            }
            Turn::Fails => Ok(None),
        }
    }

    /// An operation that releases returns; what that changed, if there is a way on.
    fn release(&mut self, begin: usize, end: usize) -> Result<Option<Change>, OutOfMemory>
        ensures on { (change : ChangeOf) → result ≡ Ok (Some change) → TurnsOn (known_of self.old) (known_of self.new) (lock_call false) begin end }
        ensures down { result ≡ Ok None → TurnsDown (known_of self.old) (lock_call false) begin end }
        ensures latest { self.new.latest ≡ self.old.latest }
        ensures back { (change : ChangeOf) → result ≡ Ok (Some change) → HasPlaces (known_of self.old) → undone change (known_of self.new) ≡ known_of self.old }
        ensures stays { result ≡ Ok None → known_of self.new ≡ known_of self.old }
        ensures refused { OnErr result (known_of self.new ≡ known_of self.old) }
        ensures kept { HasKeptBoth self.old self.new }
    {
        well_formed_is_alternating();
        let returned = Return {
            begin,
            end,
            held: self.held,
            fits: self.fits(false),
        };
        let turn = take_in_return(
            &mut self.releases,
            &mut self.acquires,
            &mut self.order,
            returned,
        )?;
        match turn {
            Turn::Pays(end) => Ok(Some(Change::Released(end))),
            Turn::Stands(end) => {
                self.held = false;
                Ok(Some(Change::Released(end)))
            }
            Turn::Fails => Ok(None),
        }
    }

    /// The operation returns at the place, as a lock's does.
    fn leave(&mut self, running: Running, at: usize) -> Result<Option<Change>, OutOfMemory>
        ensures on { (change : ChangeOf) → result ≡ Ok (Some change) → TurnsOn (known_of self.old) (known_of self.new) running.call running.begin at }
        ensures down { result ≡ Ok None → TurnsDown (known_of self.old) running.call running.begin at }
        ensures latest { self.new.latest ≡ self.old.latest }
        ensures back { (change : ChangeOf) → result ≡ Ok (Some change) → HasPlaces (known_of self.old) → undone change (known_of self.new) ≡ known_of self.old }
        ensures stays { result ≡ Ok None → known_of self.new ≡ known_of self.old }
        ensures refused { OnErr result (known_of self.new ≡ known_of self.old) }
        ensures kept { HasKeptBoth self.old self.new }
    {
        well_formed_is_alternating();
        match running.call {
            Call::Acquire => self.acquire(running.begin, at),
            Call::Release => self.release(running.begin, at),
            _ => Ok(None),
        }
    }

    /// The process's operation returns at the place.
    fn complete(
        &mut self,
        at: usize,
        process: u64,
        reply: &Reply,
    ) -> Result<Option<Change>, OutOfMemory>
        ensures on { (change : ChangeOf) → result ≡ Ok (Some change) → (event : EventOf) (name : NameOf) → event.body ≡ Returns name reply.now → event.process ≡ process → GoesOn (known_of self.old) (known_of self.new) at event }
        ensures fails { result ≡ Ok None → (event : EventOf) (name : NameOf) → event.body ≡ Returns name reply.now → event.process ≡ process → IsFailing (known_of self.old) at event }
        ensures back { (change : ChangeOf) → result ≡ Ok (Some change) → HasPlaces (known_of self.old) → undone change (known_of self.new) ≡ known_of self.old }
        ensures stays { result ≡ Ok None → known_of self.new ≡ known_of self.old }
        ensures refused { OnErr result (known_of self.new ≡ known_of self.old) }
        ensures kept { HasKeptBoth self.old self.new }
    {
        well_formed_is_alternating();
        let Some(running) = self.latest.get(process) else {
            return Ok(Some(Change::Stayed));
        };
        match reply {
            Reply::Done => self.leave(running, at),
            _ => Ok(None),
        }
    }

    /// What changed with an operation that failed, of which this was closed.
    fn failure_change(&self, closed: Option<Closed>) -> EndChange
        ensures { result ≡ record { closed = closed; paid = None; owes = false; held = self.now.held; length = length self.now.order.items } }
    {
        EndChange {
            closed,
            paid: None,
            owes: false,
            held: self.held,
            length: self.order.len(),
        }
    }

    /// The process's operation failed.
    fn fail(&mut self, process: u64) -> Option<Change>
        ensures on { (change : ChangeOf) → result ≡ Some change → (event : EventOf) (name : NameOf) (at : ℕ) → event.body ≡ FailsOf name → event.process ≡ process → GoesOn (known_of self.old) (known_of self.new) at event }
        ensures fails { result ≡ None → (event : EventOf) (name : NameOf) (at : ℕ) → event.body ≡ FailsOf name → event.process ≡ process → IsFailing (known_of self.old) at event }
        ensures back { (change : ChangeOf) → result ≡ Some change → undone change (known_of self.new) ≡ known_of self.old }
        ensures stays { result ≡ None → known_of self.new ≡ known_of self.old }
        ensures kept { HasKeptBoth self.old self.new }
    {
        well_formed_is_alternating();
        let Some(running) = self.latest.get(process) else {
            return Some(Change::Stayed);
        };
        match running.call {
            Call::Acquire => match self.acquires.withdraw(running.begin) {
                Withdrawal::Passes(closed) => Some(Change::Acquired(self.failure_change(closed))),
                Withdrawal::Fails => None,
            },
            Call::Release => match self.releases.withdraw(running.begin) {
                Withdrawal::Passes(closed) => Some(Change::Released(self.failure_change(closed))),
                Withdrawal::Fails => None,
            },
            _ => Some(Change::Stayed),
        }
    }

    /// Takes in the event at the place; what it changed, if the events up to it may have a legal order.
    pub(crate) fn follow(&mut self, at: usize, event: &Event) -> Result<Option<Change>, OutOfMemory>
        ensures on { (change : ChangeOf) → result ≡ Ok (Some change) → GoesOn (known_of self.old) (known_of self.new) at event.now }
        ensures fails { result ≡ Ok None → IsFailing (known_of self.old) at event.now }
        ensures back { (change : ChangeOf) → result ≡ Ok (Some change) → HasPlaces (known_of self.old) → undone change (known_of self.new) ≡ known_of self.old }
        ensures stays { result ≡ Ok None → known_of self.new ≡ known_of self.old }
        ensures refused { OnErr result (known_of self.new ≡ known_of self.old) }
        ensures kept { HasKeptBoth self.old self.new }
    {
        well_formed_is_alternating();
        match &event.body {
            Body::Invoke(call) => Ok(Some(self.begin(at, event.process, *call)?)),
            Body::Ok(_, reply) => self.complete(at, event.process, reply),
            Body::Fail(_) => Ok(self.fail(event.process)),
            Body::Info(_) => Ok(Some(Change::Stayed)),
        }
    }

    /// It is what it was before the event that changed this, for which there is room.
    pub(crate) fn undo(&mut self, change: Change)
        ensures undone { HoldsBoth self.old (undone change (known_of self.old)) → known_of self.new ≡ undone change (known_of self.old) }
        ensures kept { HasKeptBoth self.old self.new }
    {
        match change {
            Change::Stayed => {}
            Change::Invoked {
                process,
                call,
                before,
            } => {
                self.uninvoke(call);
                self.latest.recall(process, before);
            }
            Change::Acquired(end) => {
                self.held = end.held;
                self.acquires.resume(&end);
                self.releases.disown(end.owes);
                reorder(&mut self.order, &end);
            }
            Change::Released(end) => {
                self.held = end.held;
                self.releases.resume(&end);
                self.acquires.disown(end.owes);
                reorder(&mut self.order, &end);
            }
        }
    }

    /// The last operation with the call was not invoked.
    fn uninvoke(&mut self, call: Call)
        ensures back { known_of self.new ≡ before_invocation call (known_of self.old) }
        ensures kept { HasKeptBoth self.old self.new }
    {
        match call {
            Call::Acquire => self.acquires.uninvoke(),
            Call::Release => self.releases.uninvoke(),
            _ => {}
        }
    }

    /// A legal order, in which what is owed is paid by open operations.
    pub(crate) fn paid_order(&self, alloc: Global) -> Result<Vec<Placed>, OutOfMemory>
        ensures { IfOk result (λ order. (h : List EventOf) → IsRight (known_of self.now) h → IsLegalOrderAs Mutex h order.items) }
    {
        let mut order = Vec::from_slice(alloc, self.order.as_slice())?;
        self.acquires.settle(&mut order);
        self.releases.settle(&mut order);
        list_placed(alloc, order.as_slice())
    }
}
