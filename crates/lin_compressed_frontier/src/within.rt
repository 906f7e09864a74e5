//! One more event of a compressed frontier, within a budget of configurations.
ghost use Rattle.std.specs.Prelude.{◌≡◌, ◌⊎◌, ◌+◌, ◌*◌, ◌<◌, ◌≤◌, ℕ, true, false, Bool, nat_lt, List, length, Contains, IsTrue, Option, IfOk, IfSome, IfNone, OnErr};
ghost use Rattle.lin_events.specs.declared.items.Item.{Item as ItemOf};
ghost use Rattle.lin_events.specs.declared.calls.Call.{Call as CallOf};
ghost use Rattle.lin_events.specs.declared.calls.Name.{Name as NameOf};
ghost use Rattle.lin_events.specs.declared.calls.Reply.{Reply as ReplyOf};
ghost use Rattle.lin_events.specs.declared.events.Body.{Body as BodyOf};
ghost use Rattle.lin_events.specs.declared.events.Event.{Event as EventOf};
ghost use Rattle.lin_events.specs.Meters.{ticked};
ghost use Rattle.lin_events.specs.WellFormed.{IsWellFormed};
ghost use Rattle.lin_order.specs.ConfigurationLaws.{with_event};
ghost use Rattle.lin_order.specs.Linearizable.{IsLinearizableBy};
ghost use Rattle.lin_order.specs.declared.placed.Placed.{Placed as PlacedOf};
ghost use Rattle.lin_members.specs.declared.members.Path.{Path as PathOf};
ghost use Rattle.lin_members.specs.Asking.{AreAlone};
ghost use Rattle.lin_members.specs.Compressed.{IsCompressed, IsSpelled, CompressedSpellLegalOrders};
ghost use Rattle.lin_frontier.specs.Frontiers.{IsNextEvent, IsPending};
ghost use Rattle.lin_order.specs.Configurations.{IsOver};
ghost use Rattle.lin_members.specs.Listed.{IsListingOf};
ghost use Rattle.lin_members.specs.Members.{Member as MemberOf};
ghost use Rattle.lin_frontier.specs.Nodes.{IsGrown};
ghost use Rattle.lin_frontier.specs.Walks.{IsTriedAtMost};

use crate::compressed::{Compressed, Found, Search, alone_all, open_after, push_all_taken_out};
use crate::scratch::Scratch;
use lin_configurations::{are_surely_more, listed};
use lin_events::{Body, Event, Meter, OutOfMemory, ends_are_unique, well_formed_is_alternating};
use lin_frontier::{Arrival, Pending};
use lin_members::{
    Member, Pool, RoundNodes, dominated_can_go, members_after_events, members_are_exact,
    members_cover_configurations, overwritten_after_events, overwritten_can_go, pruned_many,
    push_member, rounds_after_events, rounds_allow_overwritten, same,
};
use lin_objects::SeqObject;
use lin_order::legal_orders_end;
use std::alloc::Global;
use std::hash::Hash;

/// Below this budget all configurations are counted after each event.
const COUNTED: usize = 1_024;

/// A search comes to so many members at most, unless the budget is large.
const LONGEST_SEARCH: usize = 4_096;

/// And to so many where there are surely more configurations than the budget.
const SHORT_SEARCH: usize = 256;

/// So many operations are open at least where it is surely so, since each budget below 1,024 is counted.
const FEWEST_OPEN: usize = 8;

/// Whether the budget is so small that all configurations are counted after each event.
pub fn is_counted(budget: usize) -> bool
    ensures { result ≡ nat_lt budget 1024 }
{
    budget < COUNTED
}

/// Where a search comes to more members than these, the configurations before the event are counted instead.
fn longest_search(budget: usize, is_over: bool) -> usize
    ensures { result ≤ budget }
{
    if is_over {
        return budget.min(SHORT_SEARCH);
    }
    budget.min(LONGEST_SEARCH).max(budget / 16)
}

/// What one more event makes of a compressed frontier, within a budget of configurations.
#[derive(Drop)]
pub enum Advance<O: SeqObject> {
    /// The members are the same.
    Same,
    /// The members after it.
    Next(Compressed<O>),
    /// There is none: the events have no legal order.
    Empty,
    /// The events with this one have more configurations than the budget.
    Over,
    /// The events before it have.
    OverBefore,
}

/// Each node of a member spells a legal order.
pub fn members_spell_legal_orders<O: SeqObject>()
    ensures { (object : O) → CompressedSpellLegalOrders (O.starts object) (O.step object) (O.observing object) (O.overwriting object) }
{}

/// Whether no update is early enough for any of the members to be overwritten.
fn are_alone<S: Eq + Hash>(members: &[Member<S>]) -> bool
    ensures { IsTrue result → (m : MemberOf S × PathOf) → Contains members.now m → m.1.until ≡ 0 }
{
    for member in members {
        if member.path().until > 0 {
            return false;
        }
    }
    true
}

/// The first of the members.
fn first_of<S: Eq + Hash + Drop>(members: &[Member<S>]) -> Option<&Member<S>>
    ensures { IfSome result (λ m. Contains members.now m.now) }
{
    members.first()
}

/// Whether the members lead to more configurations than the budget.
fn exceeds<O: SeqObject>(
    arrival: &Arrival<O>,
    pending: &Pending,
    members: &[Member<O::State>],
    budget: usize,
    nodes: &mut RoundNodes,
    meter: &mut Meter,
) -> Result<bool, OutOfMemory>
    ensures over { IfOk result (λ over. over ≡ true → (functions : ItemOf → NameOf → Bool) (h : List EventOf) → IsWellFormed functions h → IsPending h pending.now
        → ((m : MemberOf O.State × PathOf) → Contains members.now m → IsSpelled (O.starts arrival.now.object.now) (O.step arrival.now.object.now) (O.observing arrival.now.object.now) h nodes.old m) → IsOver (O.starts arrival.now.object.now) (O.step arrival.now.object.now) h budget) }
    ensures nodes { nodes.new ≡ nodes.old }
    ensures tried { IsTriedAtMost (budget * length pending.now) meter.old meter.new }
{
    let count = nodes.len();
    let found = listed(
        arrival.object,
        arrival.alloc,
        pending,
        members,
        budget,
        nodes,
        meter,
    );
    nodes.cut(count);
    match found {
        Ok(Some(_)) => Ok(false),
        Ok(None) => Ok(true),
        Err(_) => Err(OutOfMemory),
    }
}

/// The members after an ok, from a list of all configurations before it: those that placed its operation with the reply, without it.
fn after_listing<O: SeqObject>(
    arrival: &Arrival<O>,
    list: &[Member<O::State>],
    nodes: &RoundNodes,
) -> Result<Vec<Member<O::State>>, OutOfMemory>
    requires { (name : NameOf) × (reply : ReplyOf) × (arrival.now.event.now.body ≡ BodyOf.Ok name reply) }
    ensures { IfOk result (λ out. (functions : ItemOf → NameOf → Bool) (h : List EventOf) → IsNextEvent functions h arrival.now.pending.now arrival.now.at arrival.now.event.now
        → IsListingOf (O.starts arrival.now.object.now) (O.step arrival.now.object.now) (O.observing arrival.now.object.now) h list.now nodes.now
        → IsCompressed (O.starts arrival.now.object.now) (O.step arrival.now.object.now) (O.observing arrival.now.object.now) (O.overwriting arrival.now.object.now) (with_event h arrival.now.event.now) out.items nodes.now) }
{
    well_formed_is_alternating();
    ends_are_unique();
    dominated_can_go(arrival.object);
    members_cover_configurations(arrival.object);
    rounds_after_events(arrival.object);
    overwritten_can_go(arrival.object);
    let _ = nodes.len();
    let Body::Ok(_, reply) = &arrival.event.body else {
        unreachable!()
    };
    let operations = open_after(
        Vec::new(arrival.alloc),
        arrival.pending,
        arrival.at,
        arrival.event,
    )?;
    let after = Pending::of(&operations);
    let mut found = Vec::new(arrival.alloc);
    push_all_taken_out(
        arrival.object,
        arrival.alloc,
        &after,
        list,
        (arrival.event.process, reply),
        &mut found,
        &mut Pool::new(arrival.alloc),
    )?;
    let kept = pruned_many(arrival.object, arrival.alloc, &after, alone_all(found))?;
    Ok(kept)
}

impl<O: SeqObject> Compressed<O> {
    /// The same frontier on its own memory.
    pub fn copy(&self, alloc: Global, object: &O) -> Result<Compressed<O>, OutOfMemory>
        ensures { IfOk result (λ copy. copy ≡ self.now) }
    {
        let mut members = Vec::with_capacity(alloc, self.members.len())?;
        for member in &self.members {
            push_member(&mut members, same(object, alloc, member)?)?;
        }
        Ok(Compressed { members })
    }

    /// The frontier after one more event. An invocation leaves the members as they are, and so does an info where there is one.
    ///
    /// Where the budget is below 1,024, configurations are counted after each event; above it only where a search comes to so many
    /// members that there may be too many configurations before the event.
    pub fn advance(
        &self,
        arrival: &Arrival<O>,
        budget: u32,
        nodes: &mut RoundNodes,
        meter: &mut Meter,
        scratch: &mut Scratch<O>,
    ) -> Result<Advance<O>, OutOfMemory>
        // Where the frontier is one of a history, with these operations open, the answer speaks of that history with the event behind
        // it, which has to be well-formed.
        ensures next { IfOk result (λ step. (next : List (MemberOf O.State × PathOf)) → step ≡ Advance.Next next → (functions : ItemOf → NameOf → Bool) (h : List EventOf)
            → IsNextEvent functions h arrival.now.pending.now arrival.now.at arrival.now.event.now → IsCompressed (O.starts arrival.now.object.now) (O.step arrival.now.object.now) (O.observing arrival.now.object.now) (O.overwriting arrival.now.object.now) h self.now nodes.old
            → IsCompressed (O.starts arrival.now.object.now) (O.step arrival.now.object.now) (O.observing arrival.now.object.now) (O.overwriting arrival.now.object.now) (with_event h arrival.now.event.now) next nodes.new) }
        ensures same { IfOk result (λ step. step ≡ Advance.Same → (functions : ItemOf → NameOf → Bool) (h : List EventOf)
            → IsNextEvent functions h arrival.now.pending.now arrival.now.at arrival.now.event.now → IsCompressed (O.starts arrival.now.object.now) (O.step arrival.now.object.now) (O.observing arrival.now.object.now) (O.overwriting arrival.now.object.now) h self.now nodes.old
            → IsCompressed (O.starts arrival.now.object.now) (O.step arrival.now.object.now) (O.observing arrival.now.object.now) (O.overwriting arrival.now.object.now) (with_event h arrival.now.event.now) self.now nodes.new) }
        ensures some { IfOk result (λ step. (next : List (MemberOf O.State × PathOf)) → step ≡ Advance.Next next → 0 < length next) }
        ensures empty { IfOk result (λ step. step ≡ Advance.Empty → (functions : ItemOf → NameOf → Bool) (h : List EventOf)
            → IsNextEvent functions h arrival.now.pending.now arrival.now.at arrival.now.event.now → IsCompressed (O.starts arrival.now.object.now) (O.step arrival.now.object.now) (O.observing arrival.now.object.now) (O.overwriting arrival.now.object.now) h self.now nodes.old
            → IsLinearizableBy (O.starts arrival.now.object.now) (O.step arrival.now.object.now) (with_event h arrival.now.event.now) → ⊥) }
        ensures over { IfOk result (λ step. step ≡ Advance.Over → (functions : ItemOf → NameOf → Bool) (h : List EventOf)
            → IsNextEvent functions h arrival.now.pending.now arrival.now.at arrival.now.event.now → IsCompressed (O.starts arrival.now.object.now) (O.step arrival.now.object.now) (O.observing arrival.now.object.now) (O.overwriting arrival.now.object.now) h self.now nodes.old
            → IsOver (O.starts arrival.now.object.now) (O.step arrival.now.object.now) (with_event h arrival.now.event.now) budget) }
        ensures before { IfOk result (λ step. step ≡ Advance.OverBefore → (functions : ItemOf → NameOf → Bool) (h : List EventOf)
            → IsNextEvent functions h arrival.now.pending.now arrival.now.at arrival.now.event.now → IsCompressed (O.starts arrival.now.object.now) (O.step arrival.now.object.now) (O.observing arrival.now.object.now) (O.overwriting arrival.now.object.now) h self.now nodes.old
            → (0 < arrival.now.at) × IsOver (O.starts arrival.now.object.now) (O.step arrival.now.object.now) h budget) }
        // Nodes are only added; and none is where there is no next frontier.
        ensures grown { IsGrown nodes.old nodes.new }
        ensures kept { IfOk result (λ step. (step ≡ Advance.Same) ⊎ (step ≡ Advance.Empty) ⊎ (step ≡ Advance.Over) ⊎ (step ≡ Advance.OverBefore) → nodes.new ≡ nodes.old) }
        ensures refused { OnErr result (nodes.new ≡ nodes.old) }
        ensures steps { meter.new.steps ≡ ticked meter.old.steps 1 }
        ensures tries { meter.new.tries ≤ meter.old.tries + (budget * (4 * length arrival.now.pending.now + 4) + length self.now * (2 * ((length arrival.now.pending.now + 2) * (length arrival.now.pending.now + 2)))) }
        // Members count only where the object is overwritten.
        ensures searched { O.overwriting arrival.now.object.now ≡ false → meter.new.tries ≤ meter.old.tries + budget * (4 * length arrival.now.pending.now + 4) }
        ensures within { length self.now ≤ budget → meter.new.tries ≤ meter.old.tries + budget * (3 * ((length arrival.now.pending.now + 2) * (length arrival.now.pending.now + 2))) }
        ensures scans { meter.new.scans ≡ meter.old.scans }
    {
        let budget = budget as usize;
        if self.stays(arrival.event) {
            return self.same_or_over(arrival, budget, nodes, meter);
        }
        let count = nodes.len();
        match self.step(arrival, budget, nodes, meter, scratch) {
            Ok(Advance::Next(next)) => Ok(Advance::Next(next)),
            Ok(none) => {
                nodes.cut(count);
                Ok(none)
            }
            Err(_) => {
                nodes.cut(count);
                Err(OutOfMemory)
            }
        }
    }

    /// Whether the frontier goes on without overwritten updates: where the object isn't overwritten, or all configurations are counted and
    /// no member has such updates.
    fn is_alone(&self, object: &O, budget: usize) -> bool
        ensures fits { result ≡ true → AreAlone (O.overwriting object.now) self.now }
        ensures goes { result ≡ false → O.overwriting object.now ≡ true }
    {
        !object.overwrites() || (is_counted(budget) && are_alone(&self.members))
    }

    /// Whether the members stay as they are: after an invocation, and after an info where there is one alone.
    fn stays(&self, event: &Event) -> bool
        ensures { result ≡ true → ((call : CallOf) × (event.now.body ≡ BodyOf.Invoke call)) ⊎ ((name : NameOf) × (event.now.body ≡ BodyOf.Info name) × (length self.now ≤ 1)) }
    {
        match &event.body {
            Body::Invoke(_) => true,
            Body::Info(_) => self.members.len() == 1,
            _ => false,
        }
    }

    /// After such an event the members are the same, unless the configurations are counted and too many.
    fn same_or_over(
        &self,
        arrival: &Arrival<O>,
        budget: usize,
        nodes: &mut RoundNodes,
        meter: &mut Meter,
    ) -> Result<Advance<O>, OutOfMemory>
        requires { ((call : CallOf) × (arrival.now.event.now.body ≡ BodyOf.Invoke call)) ⊎ ((name : NameOf) × (arrival.now.event.now.body ≡ BodyOf.Info name) × (length self.now ≤ 1)) }
        ensures answers { IfOk result (λ step. (step ≡ Advance.Same) ⊎ (step ≡ Advance.Over)) }
        ensures same { IfOk result (λ step. step ≡ Advance.Same → (functions : ItemOf → NameOf → Bool) (h : List EventOf)
            → IsNextEvent functions h arrival.now.pending.now arrival.now.at arrival.now.event.now → IsCompressed (O.starts arrival.now.object.now) (O.step arrival.now.object.now) (O.observing arrival.now.object.now) (O.overwriting arrival.now.object.now) h self.now nodes.old
            → IsCompressed (O.starts arrival.now.object.now) (O.step arrival.now.object.now) (O.observing arrival.now.object.now) (O.overwriting arrival.now.object.now) (with_event h arrival.now.event.now) self.now nodes.new) }
        ensures over { IfOk result (λ step. step ≡ Advance.Over → (functions : ItemOf → NameOf → Bool) (h : List EventOf)
            → IsNextEvent functions h arrival.now.pending.now arrival.now.at arrival.now.event.now → IsCompressed (O.starts arrival.now.object.now) (O.step arrival.now.object.now) (O.observing arrival.now.object.now) (O.overwriting arrival.now.object.now) h self.now nodes.old
            → IsOver (O.starts arrival.now.object.now) (O.step arrival.now.object.now) (with_event h arrival.now.event.now) budget) }
        ensures nodes { nodes.new ≡ nodes.old }
        ensures steps { meter.new.steps ≡ ticked meter.old.steps 1 }
        ensures tries { meter.new.tries ≤ meter.old.tries + budget * (length arrival.now.pending.now + 1) }
        ensures scans { meter.new.scans ≡ meter.old.scans }
    {
        well_formed_is_alternating();
        members_after_events(arrival.object);
        rounds_after_events(arrival.object);
        overwritten_after_events(arrival.object);
        rounds_allow_overwritten::<O>();
        meter.tick_step();
        if self.is_over(arrival, budget, nodes, meter)? {
            return Ok(Advance::Over);
        }
        Ok(Advance::Same)
    }

    /// The same for other events; nodes may be left where there is no next frontier.
    fn step(
        &self,
        arrival: &Arrival<O>,
        budget: usize,
        nodes: &mut RoundNodes,
        meter: &mut Meter,
        scratch: &mut Scratch<O>,
    ) -> Result<Advance<O>, OutOfMemory>
        ensures next { IfOk result (λ step. (next : List (MemberOf O.State × PathOf)) → step ≡ Advance.Next next → (functions : ItemOf → NameOf → Bool) (h : List EventOf)
            → IsNextEvent functions h arrival.now.pending.now arrival.now.at arrival.now.event.now → IsCompressed (O.starts arrival.now.object.now) (O.step arrival.now.object.now) (O.observing arrival.now.object.now) (O.overwriting arrival.now.object.now) h self.now nodes.old
            → IsCompressed (O.starts arrival.now.object.now) (O.step arrival.now.object.now) (O.observing arrival.now.object.now) (O.overwriting arrival.now.object.now) (with_event h arrival.now.event.now) next nodes.new) }
        ensures some { IfOk result (λ step. (next : List (MemberOf O.State × PathOf)) → step ≡ Advance.Next next → 0 < length next) }
        ensures empty { IfOk result (λ step. step ≡ Advance.Empty → (functions : ItemOf → NameOf → Bool) (h : List EventOf)
            → IsNextEvent functions h arrival.now.pending.now arrival.now.at arrival.now.event.now → IsCompressed (O.starts arrival.now.object.now) (O.step arrival.now.object.now) (O.observing arrival.now.object.now) (O.overwriting arrival.now.object.now) h self.now nodes.old
            → IsLinearizableBy (O.starts arrival.now.object.now) (O.step arrival.now.object.now) (with_event h arrival.now.event.now) → ⊥) }
        ensures over { IfOk result (λ step. step ≡ Advance.Over → (functions : ItemOf → NameOf → Bool) (h : List EventOf)
            → IsNextEvent functions h arrival.now.pending.now arrival.now.at arrival.now.event.now → IsCompressed (O.starts arrival.now.object.now) (O.step arrival.now.object.now) (O.observing arrival.now.object.now) (O.overwriting arrival.now.object.now) h self.now nodes.old
            → IsOver (O.starts arrival.now.object.now) (O.step arrival.now.object.now) (with_event h arrival.now.event.now) budget) }
        ensures before { IfOk result (λ step. step ≡ Advance.OverBefore → (functions : ItemOf → NameOf → Bool) (h : List EventOf)
            → IsNextEvent functions h arrival.now.pending.now arrival.now.at arrival.now.event.now → IsCompressed (O.starts arrival.now.object.now) (O.step arrival.now.object.now) (O.observing arrival.now.object.now) (O.overwriting arrival.now.object.now) h self.now nodes.old
            → (0 < arrival.now.at) × IsOver (O.starts arrival.now.object.now) (O.step arrival.now.object.now) h budget) }
        ensures same { IfOk result (λ step. step ≡ Advance.Same → ⊥) }
        ensures grown { IsGrown nodes.old nodes.new }
        ensures steps { meter.new.steps ≡ ticked meter.old.steps 1 }
        ensures tries { meter.new.tries ≤ meter.old.tries + (budget * (4 * length arrival.now.pending.now + 4) + length self.now * (2 * ((length arrival.now.pending.now + 2) * (length arrival.now.pending.now + 2)))) }
        ensures searched { O.overwriting arrival.now.object.now ≡ false → meter.new.tries ≤ meter.old.tries + budget * (4 * length arrival.now.pending.now + 4) }
        ensures scans { meter.new.scans ≡ meter.old.scans }
    {
        well_formed_is_alternating();
        let alone = self.is_alone(arrival.object, budget);
        let Ok(is_over) = self.is_surely_over(arrival, budget) else {
            meter.tick_step();
            return Err(OutOfMemory);
        };
        let limit = longest_search(budget, is_over);
        match self.advance_up_to(arrival, Search { alone, limit }, nodes, meter, scratch)? {
            Found::Empty => Ok(Advance::Empty),
            Found::Next(next) => {
                // Members are compared with one another, so fewer of them cost as much as a search.
                let many = !alone && next.len() > limit / 16;
                self.next_within(arrival, next, many, budget, nodes, meter)
            }
            Found::TooMany => self.from_listing(arrival, budget, nodes, meter),
        }
    }

    /// The frontier that comes next, unless there are more configurations than the budget: before the event, where the frontier has
    /// many members, or after it.
    fn next_within(
        &self,
        arrival: &Arrival<O>,
        next: Compressed<O>,
        many: bool,
        budget: usize,
        nodes: &mut RoundNodes,
        meter: &mut Meter,
    ) -> Result<Advance<O>, OutOfMemory>
        ensures next { IfOk result (λ step. (out : List (MemberOf O.State × PathOf)) → step ≡ Advance.Next out → out ≡ next) }
        ensures over { IfOk result (λ step. step ≡ Advance.Over → (functions : ItemOf → NameOf → Bool) (h : List EventOf)
            → IsNextEvent functions h arrival.now.pending.now arrival.now.at arrival.now.event.now → IsCompressed (O.starts arrival.now.object.now) (O.step arrival.now.object.now) (O.observing arrival.now.object.now) (O.overwriting arrival.now.object.now) (with_event h arrival.now.event.now) next nodes.old
            → IsOver (O.starts arrival.now.object.now) (O.step arrival.now.object.now) (with_event h arrival.now.event.now) budget) }
        ensures before { IfOk result (λ step. step ≡ Advance.OverBefore → (functions : ItemOf → NameOf → Bool) (h : List EventOf) → IsWellFormed functions h → IsPending h arrival.now.pending.now
            → IsCompressed (O.starts arrival.now.object.now) (O.step arrival.now.object.now) (O.observing arrival.now.object.now) (O.overwriting arrival.now.object.now) h self.now nodes.old
            → (0 < arrival.now.at) × IsOver (O.starts arrival.now.object.now) (O.step arrival.now.object.now) h budget) }
        ensures never { IfOk result (λ step. (step ≡ Advance.Empty) ⊎ (step ≡ Advance.Same) → ⊥) }
        ensures nodes { nodes.new ≡ nodes.old }
        ensures tried { IsTriedAtMost (budget * (2 * length arrival.now.pending.now + 1)) meter.old meter.new }
    {
        if many && arrival.at > 0 && self.exceeds_before(arrival, budget, nodes, meter)? {
            return Ok(Advance::OverBefore);
        }
        if next.is_over(arrival, budget, nodes, meter)? {
            return Ok(Advance::Over);
        }
        Ok(Advance::Next(next))
    }

    /// Whether there are more configurations than the budget, as far as it is told without making any. Not so where all are counted.
    #[inline(always)]
    fn is_surely_over(&self, arrival: &Arrival<O>, budget: usize) -> Result<bool, OutOfMemory>
        ensures { IfOk result (λ over. over ≡ true → (functions : ItemOf → NameOf → Bool) (h : List EventOf) (nodes : List (ℕ × (PlacedOf × Option ℕ))) → IsWellFormed functions h → IsPending h arrival.now.pending.now
            → IsCompressed (O.starts arrival.now.object.now) (O.step arrival.now.object.now) (O.observing arrival.now.object.now) (O.overwriting arrival.now.object.now) h self.now nodes
            → IsOver (O.starts arrival.now.object.now) (O.step arrival.now.object.now) h budget) }
    {
        if is_counted(budget) || arrival.pending.len() < FEWEST_OPEN {
            return Ok(false);
        }
        let Some(member) = first_of(&self.members) else {
            return Ok(false);
        };
        let is_over = are_surely_more(
            arrival.object,
            arrival.alloc,
            arrival.pending,
            member,
            budget,
        )?;
        Ok(is_over)
    }

    /// Whether the budget is so small that all configurations are counted, and there are more of them. The frontier is that after
    /// the event, the operations are those that were open before it.
    #[inline(always)]
    fn is_over(
        &self,
        arrival: &Arrival<O>,
        budget: usize,
        nodes: &mut RoundNodes,
        meter: &mut Meter,
    ) -> Result<bool, OutOfMemory>
        ensures over { IfOk result (λ over. over ≡ true → (functions : ItemOf → NameOf → Bool) (h : List EventOf) → IsNextEvent functions h arrival.now.pending.now arrival.now.at arrival.now.event.now
            → IsCompressed (O.starts arrival.now.object.now) (O.step arrival.now.object.now) (O.observing arrival.now.object.now) (O.overwriting arrival.now.object.now) (with_event h arrival.now.event.now) self.now nodes.old
            → IsOver (O.starts arrival.now.object.now) (O.step arrival.now.object.now) (with_event h arrival.now.event.now) budget) }
        ensures nodes { nodes.new ≡ nodes.old }
        ensures tried { IsTriedAtMost (budget * (length arrival.now.pending.now + 1)) meter.old meter.new }
    {
        if !is_counted(budget) {
            return Ok(false);
        }
        self.exceeds_after(arrival, budget, nodes, meter)
    }

    /// Whether there are more configurations than the budget before the event.
    #[inline(never)]
    fn exceeds_before(
        &self,
        arrival: &Arrival<O>,
        budget: usize,
        nodes: &mut RoundNodes,
        meter: &mut Meter,
    ) -> Result<bool, OutOfMemory>
        ensures over { IfOk result (λ over. over ≡ true → (functions : ItemOf → NameOf → Bool) (h : List EventOf) → IsWellFormed functions h → IsPending h arrival.now.pending.now
            → IsCompressed (O.starts arrival.now.object.now) (O.step arrival.now.object.now) (O.observing arrival.now.object.now) (O.overwriting arrival.now.object.now) h self.now nodes.old
            → IsOver (O.starts arrival.now.object.now) (O.step arrival.now.object.now) h budget) }
        ensures nodes { nodes.new ≡ nodes.old }
        ensures tried { IsTriedAtMost (budget * length arrival.now.pending.now) meter.old meter.new }
    {
        let before = Pending::of(arrival.pending);
        exceeds(arrival, &before, &self.members, budget, nodes, meter)
    }

    /// Whether there are more configurations than the budget.
    #[inline(never)]
    fn exceeds_after(
        &self,
        arrival: &Arrival<O>,
        budget: usize,
        nodes: &mut RoundNodes,
        meter: &mut Meter,
    ) -> Result<bool, OutOfMemory>
        ensures over { IfOk result (λ over. over ≡ true → (functions : ItemOf → NameOf → Bool) (h : List EventOf) → IsNextEvent functions h arrival.now.pending.now arrival.now.at arrival.now.event.now
            → IsCompressed (O.starts arrival.now.object.now) (O.step arrival.now.object.now) (O.observing arrival.now.object.now) (O.overwriting arrival.now.object.now) (with_event h arrival.now.event.now) self.now nodes.old
            → IsOver (O.starts arrival.now.object.now) (O.step arrival.now.object.now) (with_event h arrival.now.event.now) budget) }
        ensures nodes { nodes.new ≡ nodes.old }
        ensures tried { IsTriedAtMost (budget * (length arrival.now.pending.now + 1)) meter.old meter.new }
    {
        let operations = open_after(
            Vec::new(arrival.alloc),
            arrival.pending,
            arrival.at,
            arrival.event,
        )?;
        let after = Pending::of(&operations);
        exceeds(arrival, &after, &self.members, budget, nodes, meter)
    }

    /// The frontier after an ok, from the list of all configurations before it, which may be more than the budget.
    fn from_listing(
        &self,
        arrival: &Arrival<O>,
        budget: usize,
        nodes: &mut RoundNodes,
        meter: &mut Meter,
    ) -> Result<Advance<O>, OutOfMemory>
        requires ok { (name : NameOf) × (reply : ReplyOf) × (arrival.now.event.now.body ≡ BodyOf.Ok name reply) }
        requires alone { AreAlone (O.overwriting arrival.now.object.now) self.now }
        ensures next { IfOk result (λ step. (next : List (MemberOf O.State × PathOf)) → step ≡ Advance.Next next → (functions : ItemOf → NameOf → Bool) (h : List EventOf)
            → IsNextEvent functions h arrival.now.pending.now arrival.now.at arrival.now.event.now → IsCompressed (O.starts arrival.now.object.now) (O.step arrival.now.object.now) (O.observing arrival.now.object.now) (O.overwriting arrival.now.object.now) h self.now nodes.old
            → IsCompressed (O.starts arrival.now.object.now) (O.step arrival.now.object.now) (O.observing arrival.now.object.now) (O.overwriting arrival.now.object.now) (with_event h arrival.now.event.now) next nodes.new) }
        ensures some { IfOk result (λ step. (next : List (MemberOf O.State × PathOf)) → step ≡ Advance.Next next → 0 < length next) }
        ensures empty { IfOk result (λ step. step ≡ Advance.Empty → (functions : ItemOf → NameOf → Bool) (h : List EventOf)
            → IsNextEvent functions h arrival.now.pending.now arrival.now.at arrival.now.event.now → IsCompressed (O.starts arrival.now.object.now) (O.step arrival.now.object.now) (O.observing arrival.now.object.now) (O.overwriting arrival.now.object.now) h self.now nodes.old
            → IsLinearizableBy (O.starts arrival.now.object.now) (O.step arrival.now.object.now) (with_event h arrival.now.event.now) → ⊥) }
        ensures before { IfOk result (λ step. step ≡ Advance.OverBefore → (functions : ItemOf → NameOf → Bool) (h : List EventOf)
            → IsNextEvent functions h arrival.now.pending.now arrival.now.at arrival.now.event.now → IsCompressed (O.starts arrival.now.object.now) (O.step arrival.now.object.now) (O.observing arrival.now.object.now) (O.overwriting arrival.now.object.now) h self.now nodes.old
            → (0 < arrival.now.at) × IsOver (O.starts arrival.now.object.now) (O.step arrival.now.object.now) h budget) }
        ensures never { IfOk result (λ step. (step ≡ Advance.Over) ⊎ (step ≡ Advance.Same) → ⊥) }
        ensures grown { IsGrown nodes.old nodes.new }
        ensures tried { IsTriedAtMost (budget * length arrival.now.pending.now) meter.old meter.new }
    {
        well_formed_is_alternating();
        legal_orders_end(arrival.object);
        members_are_exact(arrival.object);
        overwritten_can_go(arrival.object);
        if self.is_surely_over(arrival, budget)? {
            return Ok(Advance::OverBefore);
        }
        let before = Pending::of(arrival.pending);
        let Some(list) = listed(
            arrival.object,
            arrival.alloc,
            &before,
            &self.members,
            budget,
            nodes,
            meter,
        )?
        else {
            return Ok(Advance::OverBefore);
        };
        let members = after_listing(arrival, list.as_slice(), nodes)?;
        if members.is_empty() {
            return Ok(Advance::Empty);
        }
        Ok(Advance::Next(Compressed { members }))
    }
}
