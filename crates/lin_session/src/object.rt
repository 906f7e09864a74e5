//! What is kept of one object: where its events stand, and what is known of their legal orders.
ghost use Rattle.std.specs.Prelude.{◌≡◌, ◌+◌, ◌-◌, ◌<◌, ◌≤◌, ◌∷◌, ◌++◌, [], ℕ, List, Bool, All, None, Some, IfOk, OnOk, OnErr, Ok, length, slice_get, take};
ghost use Rattle.lin_events.specs.declared.items.Item.{Item as ItemOf};
ghost use Rattle.lin_events.specs.declared.calls.Name.{Name as NameOf};
ghost use Rattle.lin_events.specs.declared.events.Event.{Event as EventOf};
ghost use Rattle.lin_events.specs.WellFormed.{IsWellFormed};
ghost use Rattle.lin_order.specs.Parts.{events_at, part, renamed};
ghost use Rattle.lin_order.specs.Linearizable.{IsLegalOrderAs};
ghost use Rattle.lin_engines.specs.declared.ends.End.{End as EndOf};
ghost use Rattle.lin_engines.specs.Ends.{IsEndOf};
ghost use Rattle.lin_engines.specs.Exacts.{HasExact};
ghost use Rattle.lin_chain.specs.Chains.{IsDecided, IsFor, IsKept, IsMarkBefore, kind_in, mark_in, told_in, IsRight as IsRightChain};
ghost use Rattle.lin_chain.specs.Work.{IsSpent, IsSpentAtMost, unasked};
ghost use Rattle.lin_session.specs.declared.kept.Object.{Object as ObjectOf};
ghost use Rattle.lin_session.specs.inner.Objects.{Finds, IsOrderIn, IsPlaceIn, IsRaisedObject};

use crate::kept::Object;
use lin_chain::{Chain, End};
use lin_events::{Event, Item, Meter, OutOfMemory};
use lin_objects::Kind;
use lin_order::Placed;
use std::alloc::Global;

impl Object {
    /// Whether its events have a legal order.
    pub(crate) fn settle(
        &mut self,
        events: &[Event],
        budget: u32,
        meter: &mut Meter,
    ) -> Result<End, OutOfMemory>
        requires right { IsRightChain self.old.chain (events_at events.now self.old.picks.items) }
        requires retried { IsFor budget self.old.chain }
        requires inside { All (λ at. at < length events.now) self.old.picks.items }
        requires well_formed { (functions : ItemOf → NameOf → Bool) × IsWellFormed functions (events_at events.now self.old.picks.items) }
        ensures picks { self.new.picks ≡ self.old.picks }
        ensures count { self.new.count ≡ length self.old.picks.items }
        ensures kept { IsKept budget (events_at events.now self.old.picks.items) self.old.chain self.new.chain }
        ensures end { IfOk result (IsEndOf (kind_in self.old.chain) budget (events_at events.now self.old.picks.items)) }
        ensures told { IfOk result (λ end. told_in self.new.chain (length self.old.picks.items) ≡ Some end) }
        ensures again { (end : EndOf) → told_in self.old.chain (length self.old.picks.items) ≡ Some end → (result ≡ Ok end) × (self.new.chain ≡ self.old.chain) × (meter.new ≡ meter.old) }
        ensures spent { OnOk result (IsSpent (mark_in self.old.chain) (mark_in self.new.chain) (length self.old.picks.items) meter.old.steps meter.new.steps) }
        ensures most { IsSpentAtMost (mark_in self.old.chain) (mark_in self.new.chain) (length self.old.picks.items) meter.old.steps meter.new.steps }
        ensures decided { HasExact (kind_in self.old.chain) → 1024 ≤ budget → IfOk result IsDecided }
        ensures exact { HasExact (kind_in self.old.chain) → 1024 ≤ budget → meter.new.steps ≤ meter.old.steps + (length self.old.picks.items - (mark_in self.old.chain).beside) }
        ensures scans { meter.new.scans ≡ meter.old.scans }
    {
        self.count = self.picks.len();
        self.chain.settle(events, &self.picks, budget, meter)
    }

    /// In positions of the history what its chain tells in places among its events.
    pub(crate) fn finding(&self, end: End) -> (Option<usize>, Option<usize>)
        requires place { IsPlaceIn (length self.now.picks.items) end }
        requires small { All (λ at. at < usize.MAX) self.now.picks.items }
        ensures { Finds self.now.picks.items end result }
    {
        match end {
            End::Alive => (None, None),
            End::Dead(i) => (Some(self.picks[i] + 1), None),
            End::Over(i) => (None, Some(self.picks[i])),
        }
    }

    /// A legal order of its events, in positions of the history. It is told that they have one.
    pub(crate) fn order(&self, alloc: Global) -> Result<Vec<Placed>, OutOfMemory>
        requires right { (h : List EventOf) × (length h ≡ length self.now.picks.items) × IsRightChain self.now.chain h }
        requires alive { told_in self.now.chain (length self.now.picks.items) ≡ Some End.Alive }
        ensures { IfOk result (λ order. (h : List EventOf) → length h ≡ length self.now.picks.items → IsRightChain self.now.chain h → IsOrderIn (IsLegalOrderAs (kind_in self.now.chain) h) self.now.picks.items order.items) }
    {
        let Some(mut order) = self.chain.order(alloc, self.picks.len())? else {
            unreachable!()
        };
        rename(&mut order, &self.picks);
        Ok(order)
    }

    /// Nothing is known of an object of the kind. `once` is handed to its chain.
    pub(crate) fn new(alloc: Global, kind: Kind, once: bool) -> Object
        ensures picks { result.picks.items ≡ [] }
        ensures count { result.count ≡ 0 }
        ensures kind { kind_in result.chain ≡ kind }
        ensures mark { mark_in result.chain ≡ unasked }
        ensures right { (h : List EventOf) → IsRightChain result.chain h }
        ensures retried { (budget : ℕ) → IsFor budget result.chain }
    {
        Object {
            picks: Vec::new(alloc),
            count: 0,
            chain: Chain::new(alloc, kind, once),
        }
    }

    /// Its next event stands there.
    pub(crate) fn pick(&mut self, at: usize) -> Result<(), OutOfMemory>
        ensures more { OnOk result (self.new.picks.items ≡ self.old.picks.items ++ at ∷ []) }
        ensures same { OnErr result (self.new.picks.items ≡ self.old.picks.items) }
        ensures count { self.new.count ≡ self.old.count }
        ensures chain { self.new.chain ≡ self.old.chain }
    {
        self.picks.push(at)?;
        Ok(())
    }

    /// What its chain took in of the events that stay ahead of these is kept.
    pub(crate) fn cut_ahead_of(&mut self, key: Item, behind: &[Event])
        ensures picks { self.new.picks ≡ self.old.picks }
        ensures count { self.new.count ≡ self.old.count }
        ensures kind { kind_in self.new.chain ≡ kind_in self.old.chain }
        ensures right { (ahead old edited : List EventOf) → self.old.count ≤ length ahead + length (part key behind.now) → IsRightChain self.old.chain (ahead ++ old) → IsRightChain self.new.chain (ahead ++ edited) }
        ensures mark { (h : List EventOf) → IsRightChain self.old.chain h → IsMarkBefore (self.old.count - length (part key behind.now)) (mark_in self.old.chain) (mark_in self.new.chain) }
        ensures retried { (budget : ℕ) → IsFor budget self.old.chain → IsFor budget self.new.chain }
    {
        let later = number_of(key, behind);
        self.chain.cut(self.count.saturating_sub(later));
    }

    /// What its chain took in is kept: the event that comes is the last one.
    pub(crate) fn cut_at_end(&mut self)
        ensures picks { self.new.picks ≡ self.old.picks }
        ensures count { self.new.count ≡ self.old.count }
        ensures kind { kind_in self.new.chain ≡ kind_in self.old.chain }
        ensures right { (h edited : List EventOf) → take self.old.count h ≡ take self.old.count edited → IsRightChain self.old.chain h → IsRightChain self.new.chain edited }
        ensures mark { (h : List EventOf) → IsRightChain self.old.chain h → IsMarkBefore self.old.count (mark_in self.old.chain) (mark_in self.new.chain) }
        ensures retried { (budget : ℕ) → IsFor budget self.old.chain → IsFor budget self.new.chain }
    {
        self.chain.cut(self.count);
    }

    /// The budget is this one now.
    pub(crate) fn raise(&mut self, budget: u32)
        ensures { IsRaisedObject budget self.old self.new }
    {
        self.chain.raise(budget);
    }
}

/// The budget is this one now.
pub(crate) fn raise_all(objects: &mut Vec<Object>, budget: u32)
    ensures all { length objects.new.items ≡ length objects.old.items }
    ensures each { (i : ℕ) (old new : ObjectOf) → slice_get objects.old.items i ≡ Some old → slice_get objects.new.items i ≡ Some new → IsRaisedObject budget old new }
{
    for object in objects.iter_mut() {
        object.raise(budget);
    }
}

/// Names operations by their positions in the history, in place of their places among the object's events.
fn rename(order: &mut Vec<Placed>, picks: &[usize])
    requires { All (λ p. p.at < length picks.now) order.old.items }
    ensures { order.new.items ≡ renamed picks.now order.old.items }
{
    for placed in order.iter_mut() {
        placed.at = picks[placed.at];
    }
}

/// How many of the events are of the key.
fn number_of(key: Item, events: &[Event]) -> usize
    ensures { result ≡ length (part key events.now) }
{
    events.iter().filter(|event| event.key == key).count()
}
