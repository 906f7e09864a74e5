//! What is known of one object's events, kept right while these are edited.
ghost use Rattle.std.specs.Prelude.{◌≡◌, ◌≢◌, ◌↔◌, ◌≤◌, ◌<◌, ◌+◌, ◌-◌, ◌*◌, ◌/◌, ◌⊎◌, ℕ, Bool, List, All, IfOk, IfSome, IsOk, IsSome, MatchOption, OnOk, Ok, Err, None, Some, length, take};
ghost use Rattle.lin_events.specs.declared.items.Item.{Item as ItemOf};
ghost use Rattle.lin_events.specs.declared.calls.Name.{Name as NameOf};
ghost use Rattle.lin_events.specs.declared.events.Event.{Event as EventOf};
ghost use Rattle.lin_events.specs.WellFormed.{IsWellFormed};
ghost use Rattle.lin_objects.specs.Steps.{Step as StepOf, start as start_of};
ghost use Rattle.lin_order.specs.Parts.{events_at};
ghost use Rattle.lin_order.specs.Refutations.{IsRefutation, sets_of};
ghost use Rattle.lin_order.specs.Configurations.{IsOver};
ghost use Rattle.lin_order.specs.Linearizable.{IsLegalOrderAs};
ghost use Rattle.lin_engines.specs.declared.ends.End.{End as EndOf};
ghost use Rattle.lin_engines.specs.declared.says.Says.TheVariants as says;
ghost use Rattle.lin_engines.specs.Ends.{IsEndOf};
ghost use Rattle.lin_chain.specs.Chains.{IsDecided, IsFor, IsMarkBefore, IsRight, first_of, kept_count, kind_in, mark_in, told_beside, told_by_found, told_in};
ghost use Rattle.lin_chain.specs.Work.{unasked};

use crate::beside::Beside;
use crate::found::Found;
use crate::refuting::refutation_of;
use lin_engines::{End, Lane, Replay};
use lin_events::{Event, Meter, OutOfMemory};
use lin_objects::Kind;
use lin_order::{Placed, Refutation};
use std::alloc::Global;

/// Why there is no refutation.
#[derive(Clone, Copy, Debug, PartialEq, Eq)]
pub enum RefuteFault {
    /// The chain is dead nowhere.
    NotDead,
    /// Some beginning of the events has more configurations than the budget.
    TooLarge,
    /// Memory that was asked for was refused.
    OutOfMemory,
}

/// What is known of the first events of one object, and whether they have a legal order: by its frontiers, by an engine that stands beside
/// these, or by a search. Whatever tells first is right.
#[derive(Drop)]
pub struct Chain {
    pub(crate) frontier: Lane<Replay>,
    pub(crate) beside: Beside,
    pub(crate) found: Found,
    /// How many events there were, or are left of these, when all were searched.
    pub(crate) searched: usize,
    /// Whether a witness couldn't go on since the last edit.
    pub(crate) stopped: bool,
    /// Whether all events may be searched ahead of a first question, for an order that doesn't go on.
    pub(crate) once: bool,
}

impl Chain {
    /// No event was taken in. `once` says that no event is expected behind those of the first question; it decides how fast an answer is found,
    /// and nothing else.
    pub fn new(alloc: Global, kind: Kind, once: bool) -> Chain
        ensures kind { kind_in result ≡ kind }
        ensures mark { mark_in result ≡ unasked }
        ensures right { (h : List EventOf) → IsRight result h }
        ensures retried { (budget : ℕ) → IsFor budget result }
    {
        Chain {
            frontier: Lane::new(Replay::new(alloc, kind)),
            beside: Beside::Nothing,
            found: Found::Nothing,
            searched: 0,
            stopped: false,
            once,
        }
    }

    /// How many events were taken in by its frontiers, or stand behind one at which these stopped.
    pub fn ready(&self) -> usize
        ensures { result ≡ (mark_in self.now).frontier }
    {
        self.frontier.mark()
    }

    /// How the first so many events end, if that is known.
    pub fn told(&self, count: usize) -> Option<End>
        ensures is { result ≡ told_in self.now count }
        ensures right { (h : List EventOf) (budget : ℕ) → count ≡ length h → IsRight self.now h → IsFor budget self.now → IfSome result (IsEndOf (kind_in self.now) budget h) }
        ensures ready { (h : List EventOf) → count ≡ length h → IsRight self.now h → count ≤ (mark_in self.now).frontier → IsSome result }
    {
        match self.decided(count) {
            Some(end) => Some(end),
            None => self.frontier.told(count),
        }
    }

    /// The same, unless only frontiers tell.
    pub(crate) fn decided(&self, count: usize) -> Option<End>
        ensures is { result ≡ first_of (told_by_found self.now.found count) (told_beside self.now.beside count) }
        ensures right { (h : List EventOf) (budget : ℕ) → count ≡ length h → IsRight self.now h → IfSome result (IsEndOf (kind_in self.now) budget h) }
        ensures decided { (h : List EventOf) → IsRight self.now h → IfSome result IsDecided }
    {
        match self.found.told(count) {
            Some(end) => Some(end),
            None => self.beside.told(count),
        }
    }

    /// Of which kind the object is.
    pub fn kind(&self) -> Kind
        ensures { result ≡ kind_in self.now }
    {
        self.frontier.engine().kind()
    }

    /// How many frontiers are held.
    pub fn kept(&self) -> usize
        ensures held { result ≡ kept_count self.now }
        ensures few { (h : List EventOf) → IsRight self.now h → result ≤ (mark_in self.now).frontier / 64 + 2 }
    {
        self.frontier.engine().kept()
    }

    /// Forgets all events: the object is of another kind.
    pub fn rekind(&mut self, kind: Kind)
        ensures kind { kind_in self.new ≡ kind }
        ensures mark { mark_in self.new ≡ unasked }
        ensures right { (h : List EventOf) → IsRight self.new h }
        ensures retried { (budget : ℕ) → IsFor budget self.new }
    {
        let alloc = self.frontier.engine().alloc();
        self.frontier = Lane::new(Replay::new(alloc, kind));
        self.beside = Beside::Nothing;
        self.found = Found::Nothing;
        self.searched = 0;
        self.stopped = false;
    }

    /// Forgets what depends on the events from the place on: they are about to change.
    ///
    /// Each engine goes back to the place, or to at most 63 events before it, and needs no memory. Where an earlier event is dead or over, that
    /// stays. So does what was found of the events before the place.
    pub fn cut(&mut self, place: usize)
        ensures kind { kind_in self.new ≡ kind_in self.old }
        ensures right { (h edited : List EventOf) → IsRight self.old h → take place h ≡ take place edited → IsRight self.new edited }
        ensures mark { (h : List EventOf) → IsRight self.old h → IsMarkBefore place (mark_in self.old) (mark_in self.new) }
        ensures retried { (budget : ℕ) → IsFor budget self.old → IsFor budget self.new }
    {
        self.frontier.cut(place);
        self.beside.cut(place);
        self.found.cut(place);
        self.searched = self.searched.min(place);
        self.stopped = false;
    }

    /// The budget is this one now. Where the frontiers are over for a smaller one, they go on with the next event.
    pub fn raise(&mut self, budget: u32)
        ensures kind { kind_in self.new ≡ kind_in self.old }
        ensures right { (h : List EventOf) → IsRight self.old h → IsRight self.new h }
        ensures retried { IsFor budget self.new }
        ensures same { IsFor budget self.old → self.new ≡ self.old }
        ensures no_more { (h : List EventOf) → IsRight self.old h → (mark_in self.new).frontier ≤ (mark_in self.old).frontier }
        ensures others { self.new ≡ record self.old { frontier = self.new.frontier } }
        ensures back { (at : ℕ) → self.old.frontier.said ≡ says.Over at → (h : List EventOf) → IsRight self.old h → at ≤ (mark_in self.new).frontier }
        ensures kept { ((at : ℕ) → self.old.frontier.said ≡ says.Over at → ⊥) → self.new ≡ self.old }
    {
        self.frontier.retry(budget);
    }

    /// A legal order of the first so many events, in places among the object's events, or none where it isn't told that they have one.
    pub fn order(&self, alloc: Global, count: usize) -> Result<Option<Vec<Placed>>, OutOfMemory>
        requires right { (h : List EventOf) × IsRight self.now h }
        ensures { IfOk result (λ found. MatchOption found (told_in self.now count ≢ Some End.Alive) (λ order. (told_in self.now count ≡ Some End.Alive)
            × ((h : List EventOf) → IsRight self.now h → IsLegalOrderAs (kind_in self.now) (take count h) order.items))) }
    {
        let Some(End::Alive) = self.told(count) else {
            return Ok(None);
        };
        if let Some(order) = self.found.order(alloc, count)? {
            return Ok(Some(order));
        }
        match self.beside.order(alloc, count)? {
            Some(order) => Ok(Some(order)),
            None => Ok(Some(self.frontier.order(alloc)?)),
        }
    }

    /// Sets that refute the object's events up to and with the one at which they are told to be dead: all configurations of each beginning. Each of
    /// these events is a step.
    ///
    /// `NotDead` exactly where that isn't told; `TooLarge` only where some beginning has more configurations than the budget.
    pub fn refute(
        &self,
        alloc: Global,
        events: &[Event],
        picks: &[usize],
        budget: u32,
        meter: &mut Meter,
    ) -> Result<Refutation, RefuteFault>
        requires right { IsRight self.now (events_at events.now picks.now) }
        requires inside { All (λ at. at < length events.now) picks.now }
        requires well_formed { (functions : ItemOf → NameOf → Bool) × IsWellFormed functions (events_at events.now picks.now) }
        ensures refuted { IfOk result (λ refutation. (at : ℕ) × (told_in self.now (length picks.now) ≡ Some (End.Dead at)) × IsRefutation (take (at + 1) (events_at events.now picks.now)) (kind_in self.now) (sets_of refutation)) }
        ensures not_dead { (result ≡ Err RefuteFault.NotDead) ↔ ((at : ℕ) → told_in self.now (length picks.now) ≡ Some (End.Dead at) → ⊥) }
        ensures too_large { result ≡ Err RefuteFault.TooLarge → (n : ℕ) × IsOver (start_of (kind_in self.now)) (StepOf (kind_in self.now)) (take n (events_at events.now picks.now)) budget }
        ensures steps { meter.new.steps ≤ meter.old.steps + length picks.now }
        ensures scans { meter.new.scans ≡ meter.old.scans }
    {
        let Some(End::Dead(at)) = self.told(picks.len()) else {
            return Err(RefuteFault::NotDead);
        };
        match refutation_of(alloc, self.kind(), events, picks, at, budget, meter) {
            Ok(Some(refutation)) => Ok(refutation),
            Ok(None) => Err(RefuteFault::TooLarge),
            Err(_) => Err(RefuteFault::OutOfMemory),
        }
    }
}
