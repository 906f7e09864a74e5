//! An object of any kind.
ghost use Rattle.std.specs.Prelude.{◌≡◌, ◌≢◌, true, IfOk, IfSome, IfNone, OnOk, Contains, AllPairs};
ghost use Rattle.lin_events.specs.declared.calls.Reply.{Reply as ReplyOf};
ghost use Rattle.lin_objects.specs.Steps.{start as start_of, allows as allows_of, Step};
ghost use Rattle.lin_objects.specs.Ahead.{goes_first as goes_first_of, hinders};
ghost use Rattle.lin_objects.specs.GoingFirst.{calls_go_first};
ghost use Rattle.lin_objects.specs.Observing.{IsObserving, observes as observes_of, observers_keep};
ghost use Rattle.lin_objects.specs.Overwriting.{IsOverwriting, overwrites as overwrites_of, registers_overwritten};
ghost use Rattle.lin_objects.specs.States.{state_same};
ghost use Rattle.lin_objects.specs.inner.OnlySteps.{IsOnlyStep};
ghost use Rattle.lin_objects.specs.declared.kinds.Kind.TheVariants.{Bag as BagKind};
ghost use Rattle.lin_objects.specs.Total.{has_taken as has_taken_of, reads_show_adds, shown_by, shows as shows_of, total as total_of, totals_are_taken};

use crate::bags::IntBag;
use crate::kinds::Kind;
use crate::objects::SeqObject;
use crate::states::{IntQueue, State};
use crate::taking::{bag_next, bag_outcomes};
use lin_events::{Call, IntSet, Name, OutOfMemory, Reply, Val};
use std::alloc::Global;

/// An object of the kind.
///
/// Each call has at most one outcome, which takes memory for one state and time linear in the state; but a dequeue of an unordered queue
/// has one for each different item inside.
#[derive(Clone, Copy, Debug, PartialEq, Eq)]
pub struct Any {
    pub kind: Kind,
}

impl SeqObject for Any {
    type State = State;

    ghost starts = { λ a. start_of a.kind };

    ghost allowed = { λ a. allows_of a.kind };

    ghost step = { λ a. Step a.kind };

    ghost observing = { λ a. observes_of a.kind };

    ghost unchanged = { λ a. observers_keep a.kind };

    ghost overwriting = { λ a. overwrites_of a.kind };

    ghost overwritten = { λ a. registers_overwritten a.kind };

    ghost hindered = { λ a. hinders a.kind };

    ghost first = { λ a. goes_first_of a.kind };

    ghost ahead = { λ a. calls_go_first a.kind };

    ghost total = { λ a. total_of a.kind };

    ghost taken = { λ a. totals_are_taken a.kind };

    ghost shown = { λ a. shown_by a.kind };

    ghost showing = { λ a. shows_of };

    ghost having = { λ a. has_taken_of };

    ghost told = { λ a. reads_show_adds a.kind };

    fn start(&self, alloc: Global) -> State {
        match self.kind {
            Kind::Register | Kind::CasRegister => State::Value(Val::Nil),
            Kind::Fifo => State::Queue(IntQueue::new(alloc)),
            Kind::Set => State::Members(IntSet::new(alloc)),
            Kind::Mutex => State::Held(false),
            Kind::Bag => State::Bag(IntBag::new(alloc)),
        }
    }

    fn allows(&self, name: Name) -> bool {
        match self.kind {
            Kind::Register => matches!(name, Name::Read | Name::Write),
            Kind::CasRegister => matches!(name, Name::Read | Name::Write | Name::Cas),
            Kind::Fifo | Kind::Bag => matches!(name, Name::Enqueue | Name::Dequeue),
            Kind::Set => matches!(name, Name::Add | Name::Read),
            Kind::Mutex => matches!(name, Name::Acquire | Name::Release),
        }
    }

    /// The reads of registers. The read of a set changes nothing either, but is placed like any other call: a set goes
    /// through so many states that the replies on offer would outnumber its configurations.
    fn observes(&self, call: &Call) -> bool {
        match self.kind {
            Kind::Register | Kind::CasRegister => matches!(call, Call::Read),
            Kind::Fifo | Kind::Set | Kind::Mutex | Kind::Bag => false,
        }
    }

    /// Registers without compare-and-set.
    fn overwrites(&self) -> bool {
        matches!(self.kind, Kind::Register)
    }

    /// All, but for adds to a set, its reads, and what doesn't matter to an unordered queue: there enqueues are hindered by dequeues,
    /// which might find nothing without them, dequeues that found an item by enqueues of it, and those that found nothing by others.
    fn is_hindered(&self, call: &Call, reply: &Reply, other: &Call) -> bool {
        match (self.kind, call, reply, other) {
            (Kind::Set, Call::Add(_), _, Call::Add(_)) => false,
            (Kind::Set, Call::Read, _, Call::Read) => false,
            (Kind::Bag, Call::Enqueue(_), _, Call::Enqueue(_)) => false,
            (Kind::Bag, Call::Dequeue, Reply::Value(value), other) => is_hindered_dequeue(
                value, other,
            ),
            _ => true,
        }
    }

    /// Where nothing hinders it. An enqueue of an unordered queue also where an item is inside for each dequeue; a dequeue where what it
    /// found is inside, or, if it found nothing, where nothing is, or where the others can't take out all that is.
    fn goes_first(&self, state: &State, call: &Call, reply: &Reply, hindering: usize) -> bool {
        match (self.kind, state, call, reply) {
            (Kind::Bag, State::Bag(bag), Call::Enqueue(_), _) => hindering <= bag.as_slice().len(),
            (Kind::Bag, State::Bag(bag), Call::Dequeue, Reply::Value(value)) => dequeue_goes_first(
                bag, value, hindering,
            ),
            _ => hindering == 0,
        }
    }

    /// The calls of queues and of sets. Those of registers are total too, but their configurations mostly cover one another.
    fn is_total(&self, call: &Call) -> bool {
        match self.kind {
            Kind::Fifo | Kind::Bag => matches!(call, Call::Enqueue(_) | Call::Dequeue),
            Kind::Set => matches!(call, Call::Add(_) | Call::Read),
            Kind::Register | Kind::CasRegister | Kind::Mutex => false,
        }
    }

    /// The adds of a set, by its reads.
    fn is_shown_by(&self, call: &Call, reads: &Call) -> bool {
        match self.kind {
            Kind::Set => matches!((call, reads), (Call::Add(_), Call::Read)),
            Kind::Register | Kind::CasRegister | Kind::Fifo | Kind::Mutex | Kind::Bag => false,
        }
    }

    fn has_taken(&self, state: &State, call: &Call) -> bool {
        match (state, call) {
            (State::Members(members), Call::Add(item)) => members.as_slice().contains(item),
            _ => false,
        }
    }

    fn copy_state(&self, alloc: Global, state: &State) -> Result<State, OutOfMemory> {
        state.copy(alloc)
    }

    fn outcomes(
        &self,
        alloc: Global,
        state: &State,
        call: &Call,
        out: &mut Vec<(State, Reply)>,
    ) -> Result<(), OutOfMemory> {
        out.clear();
        if self.kind == Kind::Bag {
            return bag_outcomes(alloc, state, call, out);
        }
        if let Some(step) = only_step(alloc, self.kind, state, call)? {
            out.push(step)?;
        }
        Ok(())
    }

    ghost same = { state_same };
}

impl Any {
    /// The state that the object goes to when the call gets this reply, if it may. Where nothing shares the items of a set or
    /// a queue, what an add or an enqueue puts in joins them, without a copy.
    pub fn next(
        &self,
        alloc: Global,
        state: State,
        call: &Call,
        reply: &Reply,
    ) -> Result<Option<State>, OutOfMemory>
        ensures some { IfOk result (λ found. IfSome found (λ next. Step self.now.kind state call.now next reply.now)) }
        ensures none { IfOk result (λ found. IfNone found ((next : State) → Step self.now.kind state call.now next reply.now → ⊥)) }
    {
        if self.kind == Kind::Bag {
            return bag_next(alloc, state, call, reply);
        }
        if self.kind == Kind::Fifo {
            return fifo_next(alloc, state, call, reply);
        }
        if self.kind == Kind::Set {
            return set_next(alloc, state, call, reply);
        }
        only_next(alloc, self.kind, &state, call, reply)
    }
}

/// The same of a queue.
fn fifo_next(
    alloc: Global,
    state: State,
    call: &Call,
    reply: &Reply,
) -> Result<Option<State>, OutOfMemory>
    ensures some { IfOk result (λ found. IfSome found (λ next. Step Kind.Fifo state call.now next reply.now)) }
    ensures none { IfOk result (λ found. IfNone found ((next : State) → Step Kind.Fifo state call.now next reply.now → ⊥)) }
{
    match (state, call, reply) {
        (State::Queue(mut queue), Call::Enqueue(item), Reply::Done) => {
            queue.push(*item)?;
            Ok(Some(State::Queue(queue)))
        }
        (state, call, reply) => only_next(alloc, Kind::Fifo, &state, call, reply),
    }
}

/// The same of a set.
fn set_next(
    alloc: Global,
    state: State,
    call: &Call,
    reply: &Reply,
) -> Result<Option<State>, OutOfMemory>
    ensures some { IfOk result (λ found. IfSome found (λ next. Step Kind.Set state call.now next reply.now)) }
    ensures none { IfOk result (λ found. IfNone found ((next : State) → Step Kind.Set state call.now next reply.now → ⊥)) }
{
    match (state, call, reply) {
        (State::Members(mut members), Call::Add(item), Reply::Done) => {
            members.insert(*item)?;
            Ok(Some(State::Members(members)))
        }
        (state, call, reply) => only_next(alloc, Kind::Set, &state, call, reply),
    }
}

/// Whether a dequeue that found the value is hindered by the other call.
fn is_hindered_dequeue(value: &Val, other: &Call) -> bool
    ensures { result ≡ hinders Kind.Bag Call.Dequeue (Reply.Value value.now) other.now }
{
    match (value, other) {
        (Val::Item(found), Call::Enqueue(item)) => found == item,
        (Val::Item(_), Call::Dequeue) => false,
        (Val::Nil, Call::Enqueue(_)) => false,
        _ => true,
    }
}

/// Whether a dequeue that found the value goes first, where so many hinder it.
fn dequeue_goes_first(bag: &IntBag, value: &Val, hindering: usize) -> bool
    ensures { result ≡ goes_first_of Kind.Bag (State.Bag bag.now) Call.Dequeue (Reply.Value value.now) hindering }
{
    let inside = bag.as_slice();
    match value {
        Val::Item(item) => hindering == 0 || inside.contains(item),
        Val::Nil => inside.is_empty() || hindering < inside.len(),
    }
}

/// The state after the one step of an object of the kind, if that gives this reply.
fn only_next(
    alloc: Global,
    kind: Kind,
    state: &State,
    call: &Call,
    reply: &Reply,
) -> Result<Option<State>, OutOfMemory>
    requires { kind ≢ BagKind }
    ensures some { IfOk result (λ found. IfSome found (λ next. Step kind state.now call.now next reply.now)) }
    ensures none { IfOk result (λ found. IfNone found ((next : State) → Step kind state.now call.now next reply.now → ⊥)) }
{
    match only_step(alloc, kind, state, call)? {
        Some((next, given)) => {
            if given == *reply {
                Ok(Some(next))
            } else {
                Ok(None)
            }
        }
        None => Ok(None),
    }
}

/// The one step of an object of the kind, if there is one.
fn only_step(
    alloc: Global,
    kind: Kind,
    state: &State,
    call: &Call,
) -> Result<Option<(State, Reply)>, OutOfMemory>
    requires { kind ≢ BagKind }
    ensures { IfOk result (IsOnlyStep kind state.now call.now) }
{
    match kind {
        Kind::Register => Ok(register_step(state, call)),
        Kind::CasRegister => Ok(cas_register_step(state, call)),
        Kind::Fifo => fifo_step(alloc, state, call),
        Kind::Set => set_step(state, call),
        Kind::Mutex => Ok(mutex_step(state, call)),
        Kind::Bag => unreachable!(),
    }
}

/// A register's step.
fn register_step(state: &State, call: &Call) -> Option<(State, Reply)>
    ensures { IsOnlyStep Kind.Register state.now call.now result }
{
    match (state, call) {
        (State::Value(value), Call::Read) => Some((State::Value(*value), Reply::Value(*value))),
        (State::Value(_), Call::Write(value)) => Some((State::Value(*value), Reply::Done)),
        _ => None,
    }
}

/// The step of a register with compare-and-set.
fn cas_register_step(state: &State, call: &Call) -> Option<(State, Reply)>
    ensures { IsOnlyStep Kind.CasRegister state.now call.now result }
{
    match (state, call) {
        (State::Value(value), Call::Cas(from, to)) => {
            if value == from {
                Some((State::Value(*to), Reply::Done))
            } else {
                None
            }
        }
        (State::Value(_), Call::Read) => register_step(state, call),
        (State::Value(_), Call::Write(_)) => register_step(state, call),
        _ => None,
    }
}

/// A queue's step.
fn fifo_step(
    alloc: Global,
    state: &State,
    call: &Call,
) -> Result<Option<(State, Reply)>, OutOfMemory>
    ensures { IfOk result (IsOnlyStep Kind.Fifo state.now call.now) }
{
    match (state, call) {
        (State::Queue(queue), Call::Enqueue(item)) => {
            let mut next = queue.copy()?;
            next.push(*item)?;
            Ok(Some((State::Queue(next), Reply::Done)))
        }
        (State::Queue(queue), Call::Dequeue) => match queue.as_slice().first() {
            Some(item) => {
                let next = queue.without_first()?;
                Ok(Some((State::Queue(next), Reply::Value(Val::Item(*item)))))
            }
            None => Ok(Some((State::Queue(IntQueue::new(alloc)), Reply::Value(Val::Nil)))),
        },
        _ => Ok(None),
    }
}

/// A set's step.
fn set_step(state: &State, call: &Call) -> Result<Option<(State, Reply)>, OutOfMemory>
    ensures { IfOk result (IsOnlyStep Kind.Set state.now call.now) }
{
    match (state, call) {
        (State::Members(members), Call::Add(item)) => {
            let mut next = members.copy()?;
            next.insert(*item)?;
            Ok(Some((State::Members(next), Reply::Done)))
        }
        (State::Members(members), Call::Read) => {
            let next = members.copy()?;
            let reply = members.copy()?;
            Ok(Some((State::Members(next), Reply::Members(reply))))
        }
        _ => Ok(None),
    }
}

/// A lock's step.
fn mutex_step(state: &State, call: &Call) -> Option<(State, Reply)>
    ensures { IsOnlyStep Kind.Mutex state.now call.now result }
{
    match (state, call) {
        (State::Held(false), Call::Acquire) => Some((State::Held(true), Reply::Done)),
        (State::Held(true), Call::Release) => Some((State::Held(false), Reply::Done)),
        _ => None,
    }
}
