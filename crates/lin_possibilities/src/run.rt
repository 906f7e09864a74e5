//! A compressed frontier over the events of one object, from the first to the last.
ghost use Rattle.std.specs.Prelude.{◌≡◌, ◌+◌, true, false, ℕ, Bool, List, IfOk, IfSome, IfNone, OnOk, Ok, length, take};
ghost use Rattle.lin_events.specs.declared.items.Item.{Item as ItemOf};
ghost use Rattle.lin_events.specs.declared.calls.Name.{Name as NameOf};
ghost use Rattle.lin_events.specs.declared.events.Event.{Event as EventOf};
ghost use Rattle.lin_events.specs.Meters.{ticked};
ghost use Rattle.lin_events.specs.Operations.{IsEvent};
ghost use Rattle.lin_events.specs.WellFormed.{IsWellFormed};
ghost use Rattle.lin_objects.specs.Steps.{Step as StepOf, start as start_of};
ghost use Rattle.lin_objects.specs.Observing.{observes as observes_of};
ghost use Rattle.lin_objects.specs.Overwriting.{overwrites as overwrites_of};
ghost use Rattle.lin_order.specs.ConfigurationLaws.{with_event};
ghost use Rattle.lin_order.specs.Configurations.{IsOver};
ghost use Rattle.lin_frontier.specs.Frontiers.{IsNextEvent, IsPending};
ghost use Rattle.lin_order.specs.Linearizable.{IsLinearizableAs};
ghost use Rattle.lin_members.specs.Listed.{IsListingOf};
ghost use Rattle.lin_possibilities.specs.After.{IsAfter};
ghost use Rattle.lin_possibilities.specs.Running.{IsKnown, kind_of};

use crate::telling::Telling;
use lin_compressed_frontier::{Advance, Compressed, Scratch};
use lin_configurations::listed;
use lin_events::{
    Event, Meter, OutOfMemory, beginnings_are_well_formed, well_formed_is_alternating,
};
use lin_frontier::{Arrival, Open, Pending, nothing_is_open_at_first, take_in as take_in_open};
use lin_members::{Member, RoundNodes, push_member, rounds_spell_members, same};
use lin_objects::{Any, Kind, SeqObject, State};
use std::alloc::Global;
use std::mem;

/// What is known after the first events of an object.
#[derive(Drop)]
pub(crate) struct Run {
    pub(crate) object: Any,
    pub(crate) nodes: RoundNodes,
    frontier: Compressed<Any>,
    /// What is open after them.
    pending: Vec<Open>,
}

/// What one more event made of it.
#[derive(Clone, Copy)]
pub(crate) enum Taken {
    /// The event is known too.
    Next,
    /// The events have no legal order with it.
    Empty,
    /// The events with it, or those before it, have more configurations than the budget.
    Over,
}

/// The members of the frontier, on their own memory.
fn members_of(
    object: &Any,
    alloc: Global,
    frontier: &Compressed<Any>,
) -> Result<Vec<Member<State>>, OutOfMemory>
    ensures { IfOk result (λ members. members.items ≡ frontier.now) }
{
    let mut members = Vec::with_capacity(alloc, frontier.len())?;
    for at in 0..frontier.len() {
        let Some(member) = frontier.get(object, at) else {
            unreachable!()
        };
        let copy = same(object, alloc, member)?;
        push_member(&mut members, copy)?;
    }
    Ok(members)
}

impl Run {
    /// Before any event.
    pub(crate) fn new(alloc: Global, kind: Kind) -> Result<Run, OutOfMemory>
        ensures kind { IfOk result (λ run. kind_of run ≡ kind) }
        ensures known { IfOk result (λ run. (h : List EventOf) → IsKnown run h 0) }
    {
        nothing_is_open_at_first();
        let object = Any { kind };
        let nodes = RoundNodes::new(alloc);
        let frontier = Compressed::start(alloc, &object, &nodes)?;
        Ok(Run {
            object,
            nodes,
            frontier,
            pending: Vec::new(alloc),
        })
    }

    /// One more event.
    pub(crate) fn take_in(
        &mut self,
        alloc: Global,
        at: usize,
        event: &Event,
        budget: u32,
        meter: &mut Meter,
        scratch: &mut Scratch<Any>,
    ) -> Result<Taken, OutOfMemory>
        ensures kind { kind_of self.new ≡ kind_of self.old }
        ensures next { result ≡ Ok Taken.Next → (functions : ItemOf → NameOf → Bool) (h : List EventOf) → IsWellFormed functions h → IsEvent h at event.now → IsKnown self.old h at → IsKnown self.new h (at + 1) }
        ensures empty { result ≡ Ok Taken.Empty → (functions : ItemOf → NameOf → Bool) (h : List EventOf) → IsWellFormed functions h → IsEvent h at event.now → IsKnown self.old h at
            → IsLinearizableAs (kind_of self.old) (take (at + 1) h) → ⊥ }
        ensures over { result ≡ Ok Taken.Over → (functions : ItemOf → NameOf → Bool) (h : List EventOf) → IsWellFormed functions h → IsEvent h at event.now → IsKnown self.old h at
            → (n : ℕ) × IsOver (start_of (kind_of self.old)) (StepOf (kind_of self.old)) (take n h) budget }
        ensures steps { meter.new.steps ≡ ticked meter.old.steps 1 }
        ensures scans { meter.new.scans ≡ meter.old.scans }
    {
        beginnings_are_well_formed();
        let arrival = Arrival {
            object: &self.object,
            alloc,
            pending: self.pending.as_slice(),
            at,
            event,
        };
        let step = self
            .frontier
            .advance(&arrival, budget, &mut self.nodes, meter, scratch)?;
        match step {
            Advance::Same => self.open(at, event),
            Advance::Next(next) => {
                self.put(next, scratch);
                self.open(at, event)
            }
            Advance::Empty => Ok(Taken::Empty),
            Advance::Over => Ok(Taken::Over),
            Advance::OverBefore => Ok(Taken::Over),
        }
    }

    /// Makes the frontier the present one. The memory of the one before is used again.
    fn put(&mut self, frontier: Compressed<Any>, scratch: &mut Scratch<Any>)
        ensures { self.new ≡ record self.old { frontier = frontier } }
    {
        let before = mem::replace(&mut self.frontier, frontier);
        scratch.take_back(before);
    }

    /// Takes one more event into what is open.
    fn open(&mut self, at: usize, event: &Event) -> Result<Taken, OutOfMemory>
        ensures others { self.new ≡ record self.old { pending = self.new.pending } }
        ensures next { IfOk result (λ taken. taken ≡ Taken.Next) }
        ensures opened { OnOk result ((functions : ItemOf → NameOf → Bool) (h : List EventOf) → IsNextEvent functions h self.old.pending.items at event.now → IsPending (with_event h event.now) self.new.pending.items) }
    {
        take_in_open(&mut self.pending, at, event)?;
        Ok(Taken::Next)
    }

    /// Whether the object is overwritten.
    pub(crate) fn is_overwritten(&self) -> bool
        ensures { result ≡ overwrites_of (kind_of self.now) }
    {
        self.object.overwrites()
    }

    /// What the members show, where the object is overwritten.
    pub(crate) fn told(
        &mut self,
        alloc: Global,
        meter: &mut Meter,
    ) -> Result<Vec<Member<State>>, OutOfMemory>
        requires { overwrites_of (kind_of self.old) ≡ true }
        ensures after { IfOk result (λ list. (functions : ItemOf → NameOf → Bool) (h : List EventOf) → IsWellFormed functions h → IsKnown self.old h (length h)
            → IsAfter (record { run = self.new; members = list }) (kind_of self.old) h) }
        ensures steps { meter.new.steps ≡ meter.old.steps }
        ensures scans { meter.new.scans ≡ meter.old.scans }
    {
        well_formed_is_alternating();
        rounds_spell_members(&self.object);
        let members = members_of(&self.object, alloc, &self.frontier)?;
        let telling = Telling {
            object: &self.object,
            alloc,
            pending: self.pending.as_slice(),
        };
        let list = telling.told(&members, &mut self.nodes, meter)?;
        Ok(list)
    }

    /// Each configuration that the members lead to, but for covered ones, or `None` where these are more than the budget.
    pub(crate) fn listed(
        &mut self,
        alloc: Global,
        budget: u32,
        meter: &mut Meter,
    ) -> Result<Option<Vec<Member<State>>>, OutOfMemory>
        requires { overwrites_of (kind_of self.old) ≡ false }
        ensures kind { kind_of self.new ≡ kind_of self.old }
        ensures known { OnOk result ((h : List EventOf) (n : ℕ) → IsKnown self.old h n → IsKnown self.new h n) }
        ensures listing { IfOk result (λ found. IfSome found (λ list. (functions : ItemOf → NameOf → Bool) (h : List EventOf) → IsWellFormed functions h → IsKnown self.old h (length h)
            → IsListingOf (start_of (kind_of self.old)) (StepOf (kind_of self.old)) (observes_of (kind_of self.old)) h list.items self.new.nodes)) }
        ensures over { IfOk result (λ found. IfNone found ((functions : ItemOf → NameOf → Bool) (h : List EventOf) → IsWellFormed functions h → IsKnown self.old h (length h)
            → IsOver (start_of (kind_of self.old)) (StepOf (kind_of self.old)) h budget)) }
        ensures steps { meter.new.steps ≡ meter.old.steps }
        ensures scans { meter.new.scans ≡ meter.old.scans }
    {
        let members = members_of(&self.object, alloc, &self.frontier)?;
        let pending = Pending::of(self.pending.as_slice());
        let found = listed(
            &self.object,
            alloc,
            &pending,
            &members,
            budget as usize,
            &mut self.nodes,
            meter,
        )?;
        let Some(list) = found else {
            return Ok(None);
        };
        Ok(Some(list.into_members()))
    }
}
