//! What one event more, a mark, and a way back to it change of what is open.
ghost use Rattle.std.specs.Prelude.{ℕ, ◌≡◌, ◌≢◌, ◌≤◌, ◌<◌, ◌+◌, ◌*◌, ◌++◌, [], Bool, List, OnOk, OnErr, IfSome, IfNone, IsTrue, IsFalse, All, Contains, Some, length, map, take, drop, slice_get, vec_len, vec_capacity, true, false, remove, swap, slice_set};
ghost use Rattle.lin_events.specs.declared.items.Item.{Item as ItemOf};
ghost use Rattle.lin_events.specs.declared.calls.Name.{Name as NameOf};
ghost use Rattle.lin_events.specs.declared.events.Event.{Event as EventOf};
ghost use Rattle.lin_frontier.specs.declared.pending.Open.{Open as OpenOf};
ghost use Rattle.lin_order.specs.ConfigurationLaws.{with_event};
ghost use Rattle.lin_frontier.specs.Frontiers.{IsNextEvent, IsPending};
ghost use Rattle.lin_frontier.specs.Opens.{called_before, fresh, HasRoom, IsEarlier, IsPast};

use crate::opens::{OpenList, OpenMark};
use crate::pending::Open;
use lin_events::{Body, Event, OutOfMemory, ends_are_unique, well_formed_is_alternating};
use std::alloc::Global;

impl OpenList {
    /// No operation is open.
    pub fn new(alloc: Global) -> OpenList
        ensures { result.operations.items ≡ [] }
    {
        OpenList {
            operations: Vec::new(alloc),
            crashed: 0,
            ended: Vec::new(alloc),
            marked: 0,
        }
    }

    /// All of them.
    pub fn as_slice(&self) -> &[Open]
        ensures { result.now ≡ self.now.operations.items }
    {
        self.operations.as_slice()
    }

    /// The one with this number.
    pub fn get(&self, number: usize) -> Option<Open>
        ensures { IfSome result (λ o. Contains self.now.operations.items o) }
    {
        match self.operations.get(number) {
            Some(operation) => Some(*operation),
            None => None,
        }
    }

    /// How many are open.
    pub fn len(&self) -> usize
        ensures { result ≡ length self.now.operations.items }
    {
        self.operations.len()
    }

    /// The one of the process, if that didn't crash.
    pub fn of(&self, process: u64) -> Option<Open>
        ensures { IfSome result (λ o. Contains self.now.operations.items o × (o.process ≡ process)) }
    {
        match self.place_of(process) {
            Some(place) => Some(self.operations[place]),
            None => None,
        }
    }

    /// Where it stands. Those that were called last are looked at first.
    fn place_of(&self, process: u64) -> Option<usize>
        ensures found { IfSome result (λ place. (self.now.crashed ≤ place) × (o : OpenOf) × (slice_get self.now.operations.items place ≡ Some o) × (o.process ≡ process)) }
        ensures none { IfNone result ((k : ℕ) (o : OpenOf) → self.now.crashed ≤ k → slice_get self.now.operations.items k ≡ Some o → o.process ≡ process → ⊥) }
    {
        let mut end = self.operations.len();
        while self.crashed < end {
            end -= 1;
            if self.operations[end].process == process {
                return Some(end);
            }
        }
        None
    }

    /// The one that was invoked there.
    pub fn find(&self, at: usize) -> Option<Open>
        ensures { IfSome result (λ o. Contains self.now.operations.items o) }
    {
        for place in 0..self.operations.len() {
            let operation = &self.operations[self.operations.len() - 1 - place];
            if operation.at == at {
                return Some(*operation);
            }
        }
        None
    }

    /// Makes room for one more event.
    pub fn reserve(&mut self) -> Result<(), OutOfMemory>
        ensures operations { self.new.operations.items ≡ self.old.operations.items }
        ensures crashed { self.new.crashed ≡ self.old.crashed }
        ensures past { (h : List EventOf) (place : ℕ) (mark : OpenMark) → IsPast self.old h place mark → IsPast self.new h place mark }
        ensures room { OnOk result (HasRoom self.new) }
    {
        if 0 < self.marked && self.ended.reserve(1).is_err() {
            return Err(OutOfMemory);
        }
        match self.operations.reserve(self.ended.len() + 1) {
            Ok(()) => Ok(()),
            Err(_) => Err(OutOfMemory),
        }
    }

    /// A mark of the first so many events, of which this is what is open.
    pub fn mark(&mut self, place: usize) -> OpenMark
        ensures operations { self.new.operations.items ≡ self.old.operations.items }
        ensures now { (h : List EventOf) → IsPending (take place h) self.old.operations.items → IsPast self.new h place result }
        ensures past { (h : List EventOf) (earlier : ℕ) (mark : OpenMark) → IsPast self.old h earlier mark → IsPast self.new h earlier mark × IsEarlier mark result }
    {
        self.marked = self.marked.max(place);
        OpenMark {
            crashed: self.crashed,
            ended: self.ended.len(),
        }
    }

    /// Takes one more event in: its operation is open from then on, or no longer, or has crashed. Whether there is such a one.
    pub fn take_in(&mut self, at: usize, event: &Event) -> bool
        requires room { HasRoom self.old }
        ensures open { (functions : ItemOf → NameOf → Bool) (h : List EventOf) → IsNextEvent functions h self.old.operations.items at event.now → IsPending (with_event h event.now) self.new.operations.items }
        ensures past { (h : List EventOf) (place : ℕ) (mark : OpenMark) → place ≤ at → IsPast self.old h place mark → IsPast self.new h place mark }
        ensures same { result ≡ false → self.new ≡ self.old }
    {
        well_formed_is_alternating();
        ends_are_unique();
        match &event.body {
            Body::Invoke(call) => {
                self.operations.push_reserved(Open {
                    process: event.process,
                    at,
                    call: *call,
                    crashed: false,
                });
                true
            }
            Body::Ok(_, _) | Body::Fail(_) => {
                let Some(place) = self.place_of(event.process) else {
                    return false;
                };
                self.end(place);
                true
            }
            Body::Info(_) => {
                let Some(place) = self.place_of(event.process) else {
                    return false;
                };
                self.crash(place);
                true
            }
        }
    }

    /// Takes the operation at the place out.
    fn end(&mut self, place: usize)
        requires after { self.old.crashed ≤ place }
        requires inside { place < vec_len self.old.operations }
        requires room { HasRoom self.old }
        ensures operations { self.new.operations.items ≡ remove self.old.operations.items place }
        ensures past { (h : List EventOf) (earlier : ℕ) (mark : OpenMark) → IsPast self.old h earlier mark → IsPast self.new h earlier mark }
    {
        let operation = self.operations.remove(place);
        if operation.at < self.marked {
            self.ended.push_reserved(operation);
        }
    }

    /// Marks the operation at the place as crashed, and puts it behind the others that are.
    fn crash(&mut self, place: usize)
        requires after { self.old.crashed ≤ place }
        requires inside { place < vec_len self.old.operations }
        ensures operations { (o : OpenOf) → slice_get self.old.operations.items place ≡ Some o → self.new.operations.items ≡ swap (slice_set self.old.operations.items place (record o { crashed = true })) self.old.crashed place }
        ensures past { (h : List EventOf) (earlier : ℕ) (mark : OpenMark) → IsPast self.old h earlier mark → IsPast self.new h earlier mark }
    {
        self.operations[place].crashed = true;
        self.operations.swap(self.crashed, place);
        self.crashed += 1;
    }

    /// Goes back to the mark, which is of the first so many events. It needs no memory.
    pub fn cut(&mut self, place: usize, mark: OpenMark)
        ensures now { (h : List EventOf) → IsPast self.old h place mark → IsPending (take place h) self.new.operations.items }
        ensures past { (h : List EventOf) (earlier : ℕ) (other : OpenMark) → earlier ≤ place → IsEarlier other mark → IsPast self.old h place mark → IsPast self.old h earlier other → IsPast self.new h earlier other }
    {
        let crashed = mark.crashed.min(self.crashed);
        reopen(&mut self.operations, &mut self.ended, mark.ended);
        freshen(&mut self.operations[crashed..]);
        self.crashed = crashed;
        self.operations
            .retain(|operation| operation.crashed || operation.at < place);
        self.marked = place;
    }
}

/// Those that ended behind the first so many are open again.
fn reopen(operations: &mut Vec<Open>, ended: &mut Vec<Open>, count: usize)
    requires room { vec_len operations.old + vec_len ended.old ≤ vec_capacity operations.old }
    ensures operations { operations.new.items ≡ operations.old.items ++ drop count ended.old.items }
    ensures ended { ended.new.items ≡ take count ended.old.items }
    ensures capacity { vec_capacity operations.new ≡ vec_capacity operations.old }
{
    for place in count..ended.len() {
        operations.push_reserved(ended[place]);
    }
    ended.truncate(count);
}

/// None of them has crashed.
fn freshen(operations: &mut [Open])
    ensures { operations.new ≡ map fresh operations.old }
{
    for operation in operations.iter_mut() {
        operation.crashed = false;
    }
}
