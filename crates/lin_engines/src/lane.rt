//! An engine that goes on over an object's events while these are edited.
ghost use Rattle.std.specs.Prelude.{◌≡◌, ◌≢◌, ◌≤◌, ◌<◌, ◌+◌, ◌-◌, ◌*◌, ◌/◌, ◌↔◌, ℕ, Bool, List, Option, None, Some, All, IfOk, IfSome, IsOk, IsTrue, OnOk, OnErr, length, min, take};
ghost use Rattle.lin_events.specs.declared.items.Item.{Item as ItemOf};
ghost use Rattle.lin_events.specs.declared.calls.Name.{Name as NameOf};
ghost use Rattle.lin_events.specs.declared.events.Event.{Event as EventOf};
ghost use Rattle.lin_events.specs.WellFormed.{IsWellFormed};
ghost use Rattle.lin_order.specs.Linearizable.{IsLegalOrderAs};
ghost use Rattle.lin_order.specs.Parts.{events_at};
ghost use Rattle.lin_engines.specs.declared.ends.End.{End as EndOf};
ghost use Rattle.lin_engines.specs.Ends.{IsEndOf};
ghost use Rattle.lin_engines.specs.Engines.{IsNext};
ghost use Rattle.lin_engines.specs.Lanes.{IsFor, IsLane, IsStoppedAhead, IsUnder, told_of};

use crate::ends::End;
use crate::engine::Engine;
use crate::says::Says;
use lin_compressed_frontier::Scratch;
use lin_events::{Event, Meter, OutOfMemory};
use lin_objects::Any;
use lin_order::Placed;
use std::alloc::Global;

/// An engine, what it said last, and how many of the events are no longer due to it: those that it took in, and where it stopped, those that
/// were there behind these.
#[derive(Drop)]
pub struct Lane<E: Engine> {
    pub(crate) engine: E,
    pub(crate) said: Says,
    pub(crate) mark: usize,
    /// The budget for which it is over, where it is.
    pub(crate) budget: u32,
}

impl<E: Engine> Lane<E> {
    /// An engine that has taken in nothing yet.
    pub fn new(engine: E) -> Lane<E>
        requires fresh { E.reach engine ≡ 0 }
        ensures engine { result.engine ≡ engine }
        ensures mark { result.mark ≡ 0 }
        ensures on { result.said ≡ Says.On }
        ensures right { (h : List EventOf) → E.sees engine h → IsLane E.sees E.kind E.reach E.says result h }
        ensures all { (budget : ℕ) → IsFor budget result }
    {
        Lane {
            engine,
            said: Says::On,
            mark: 0,
            budget: 0,
        }
    }

    /// The engine.
    pub fn engine(&self) -> &E
        ensures { result.now ≡ self.now.engine }
    {
        &self.engine
    }

    /// How many events are no longer due to it.
    pub fn mark(&self) -> usize
        ensures { result ≡ self.now.mark }
    {
        self.mark
    }

    /// Whether it goes on with the next event.
    pub fn is_on(&self) -> bool
        ensures { IsTrue result ↔ (self.now.said ≡ Says.On) }
    {
        matches!(self.said, Says::On)
    }

    /// Whether it has given up.
    pub fn is_gone(&self) -> bool
        ensures { IsTrue result ↔ (self.now.said ≡ Says.Gone) }
    {
        matches!(self.said, Says::Gone)
    }

    /// How the first so many events end, if it tells.
    pub fn told(&self, count: usize) -> Option<End>
        ensures is { result ≡ told_of self.now.said (E.reach self.now.engine) self.now.mark count }
        ensures right { (h : List EventOf) (budget : ℕ) → count ≡ length h → IsLane E.sees E.kind E.reach E.says self.now h → IsFor budget self.now → IfSome result (IsEndOf (E.kind self.now.engine) budget h) }
        ensures none { (h : List EventOf) → count ≡ length h → count ≤ self.now.mark → IsLane E.sees E.kind E.reach E.says self.now h → result ≡ None → self.now.said ≡ Says.Gone }
    {
        self.engine.affirm();
        match self.said {
            Says::On if self.mark == count => Some(End::Alive),
            Says::Dead if self.engine.reached() < count => Some(End::Dead(self.engine.reached())),
            Says::Over(at) if self.mark == count => Some(End::Over(at)),
            Says::On | Says::Dead | Says::Over(_) | Says::Gone => None,
        }
    }

    /// Whether it tells that the first so many events have a legal order.
    pub fn is_alive(&self, count: usize) -> bool
        ensures { IsTrue result ↔ (told_of self.now.said (E.reach self.now.engine) self.now.mark count ≡ Some EndOf.Alive) }
    {
        self.is_on() && self.mark == count
    }

    /// How many events the engine has taken in.
    pub fn reached(&self) -> usize
        ensures { result ≡ E.reach self.now.engine }
    {
        self.engine.reached()
    }

    /// The next event that is due; where it has stopped none is taken in, and none is due any more. The object's events stand at the picks.
    pub fn next(
        &mut self,
        events: &[Event],
        picks: &[usize],
        budget: u32,
        meter: &mut Meter,
        scratch: &mut Scratch<Any>,
    ) -> Result<(), OutOfMemory>
        requires due { self.old.mark < length picks.now }
        requires right { IsLane E.sees E.kind E.reach E.says self.old (events_at events.now picks.now) }
        requires inside { All (λ at. at < length events.now) picks.now }
        requires well_formed { (functions : ItemOf → NameOf → Bool) × IsWellFormed functions (events_at events.now picks.now) }
        ensures kind { E.kind self.new.engine ≡ E.kind self.old.engine }
        ensures right { IsLane E.sees E.kind E.reach E.says self.new (events_at events.now picks.now) }
        ensures retried { IsFor budget self.old → IsFor budget self.new }
        ensures under { (most : ℕ) → budget < most → IsUnder most self.old → IsUnder most self.new }
        ensures further { OnOk result (self.old.mark < self.new.mark) }
        ensures refused { OnErr result (self.new.mark ≡ self.old.mark) }
        ensures spent { OnOk result (meter.new.steps + (length picks.now - self.new.mark) ≤ meter.old.steps + (length picks.now - self.old.mark)) }
        ensures most { meter.new.steps ≤ meter.old.steps + 1 }
        ensures scans { meter.new.scans ≡ meter.old.scans }
    {
        if !self.is_on() {
            self.mark = picks.len();
            return Ok(());
        }
        let event = &events[picks[self.mark]];
        self.take_in(event, budget, meter, scratch)
    }

    /// Takes one more event in.
    fn take_in(
        &mut self,
        event: &Event,
        budget: u32,
        meter: &mut Meter,
        scratch: &mut Scratch<Any>,
    ) -> Result<(), OutOfMemory>
        requires on { self.old.said ≡ Says.On }
        requires fits { self.old.mark < usize.MAX }
        requires right { (h : List EventOf) × IsNext h self.old.mark event.now × IsLane E.sees E.kind E.reach E.says self.old h }
        ensures kind { E.kind self.new.engine ≡ E.kind self.old.engine }
        ensures right { (h : List EventOf) → IsNext h self.old.mark event.now → IsLane E.sees E.kind E.reach E.says self.old h → IsLane E.sees E.kind E.reach E.says self.new h }
        ensures retried { IsFor budget self.new }
        ensures under { (most : ℕ) → budget < most → IsUnder most self.new }
        ensures further { OnOk result (self.new.mark ≡ self.old.mark + 1) }
        ensures refused { OnErr result (self.new.mark ≡ self.old.mark) }
        ensures most { meter.new.steps ≤ meter.old.steps + 1 }
        ensures scans { meter.new.scans ≡ meter.old.scans }
    {
        self.said = self.engine.take_in(event, budget, meter, scratch)?;
        self.budget = budget;
        self.mark += 1;
        Ok(())
    }

    /// All events that are due.
    pub fn go_on(
        &mut self,
        events: &[Event],
        picks: &[usize],
        budget: u32,
        meter: &mut Meter,
        scratch: &mut Scratch<Any>,
    ) -> Result<(), OutOfMemory>
        requires right { IsLane E.sees E.kind E.reach E.says self.old (events_at events.now picks.now) }
        requires inside { All (λ at. at < length events.now) picks.now }
        requires well_formed { (functions : ItemOf → NameOf → Bool) × IsWellFormed functions (events_at events.now picks.now) }
        ensures kind { E.kind self.new.engine ≡ E.kind self.old.engine }
        ensures right { IsLane E.sees E.kind E.reach E.says self.new (events_at events.now picks.now) }
        ensures retried { IsFor budget self.old → IsFor budget self.new }
        ensures under { (most : ℕ) → budget < most → IsUnder most self.old → IsUnder most self.new }
        ensures all { OnOk result (self.new.mark ≡ length picks.now) }
        ensures no_less { self.old.mark ≤ self.new.mark }
        ensures spent { OnOk result (meter.new.steps + (length picks.now - self.new.mark) ≤ meter.old.steps + (length picks.now - self.old.mark)) }
        ensures most { meter.new.steps ≤ meter.old.steps + (length picks.now - self.old.mark) }
        ensures scans { meter.new.scans ≡ meter.old.scans }
    {
        while self.mark < picks.len() {
            self.next(events, picks, budget, meter, scratch)?;
        }
        Ok(())
    }

    /// The events from the place on are about to change: it forgets what depends on them. Where it stopped at an earlier event, that stays. It
    /// needs no memory.
    pub fn cut(&mut self, place: usize)
        ensures kind { E.kind self.new.engine ≡ E.kind self.old.engine }
        ensures right { (h edited : List EventOf) → IsLane E.sees E.kind E.reach E.says self.old h → take place h ≡ take place edited → IsLane E.sees E.kind E.reach E.says self.new edited }
        ensures no_more { (h : List EventOf) → IsLane E.sees E.kind E.reach E.says self.old h → self.new.mark ≤ min self.old.mark place }
        ensures still { (h : List EventOf) → IsLane E.sees E.kind E.reach E.says self.old h → self.old.mark ≤ place → self.new.mark ≡ self.old.mark }
        ensures not_far { (h : List EventOf) → IsLane E.sees E.kind E.reach E.says self.old h → min self.old.mark (place / 64 * 64) ≤ self.new.mark }
        ensures retried { (budget : ℕ) → IsFor budget self.old → IsFor budget self.new }
        ensures under { (most : ℕ) → IsUnder most self.old → IsUnder most self.new }
        ensures gone { self.new.said ≡ Says.Gone → self.old.said ≡ Says.Gone }
    {
        let stays = self.stays(place);
        self.engine.cut(place);
        if stays {
            self.mark = self.mark.min(place);
        } else {
            self.said = Says::On;
            self.mark = self.engine.reached();
        }
    }

    /// Whether it stopped at an event ahead of the place.
    fn stays(&self, place: usize) -> bool
        ensures { IsTrue result ↔ IsStoppedAhead self.now.said (E.reach self.now.engine) place }
    {
        match self.said {
            Says::On => false,
            Says::Dead | Says::Gone => self.engine.reached() < place,
            Says::Over(at) => at < place,
        }
    }

    /// Where it is over for a smaller budget, it goes on with the event behind those that it took in.
    pub fn retry(&mut self, budget: u32)
        ensures kind { E.kind self.new.engine ≡ E.kind self.old.engine }
        ensures right { (h : List EventOf) → IsLane E.sees E.kind E.reach E.says self.old h → IsLane E.sees E.kind E.reach E.says self.new h }
        ensures retried { IsFor budget self.new }
        ensures same { IsFor budget self.old → self.new ≡ self.old }
        ensures no_more { (h : List EventOf) → IsLane E.sees E.kind E.reach E.says self.old h → self.new.mark ≤ self.old.mark }
        ensures back { (at : ℕ) → self.old.said ≡ Says.Over at → (h : List EventOf) → IsLane E.sees E.kind E.reach E.says self.old h → at ≤ self.new.mark }
        ensures under { (most : ℕ) → IsUnder most self.old → IsUnder most self.new }
        ensures others { ((at : ℕ) → self.old.said ≡ Says.Over at → ⊥) → self.new ≡ self.old }
    {
        if let Says::Over(_) = self.said
            && self.budget < budget
        {
            self.said = Says::On;
            self.mark = self.engine.reached();
        }
    }

    /// A legal order of the events that the engine took in.
    pub fn order(&self, alloc: Global) -> Result<Vec<Placed>, OutOfMemory>
        requires right { (h : List EventOf) × IsLane E.sees E.kind E.reach E.says self.now h }
        ensures { IfOk result (λ order. (h : List EventOf) → IsLane E.sees E.kind E.reach E.says self.now h → IsLegalOrderAs (E.kind self.now.engine) (take (E.reach self.now.engine) h) order.items) }
    {
        self.engine.order(alloc)
    }
}
