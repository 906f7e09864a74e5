//! What an object could be after some events, and what an operation that is open then could have been answered.
ghost use Rattle.std.specs.Prelude.{◌≡◌, ◌⊎◌, ◌≤◌, ◌+◌, ◌-◌, ℕ, Bool, List, Contains, IfOk, IfSome, IfNone, OnOk, Ok, None, length, take};
ghost use Rattle.lin_events.specs.declared.items.Item.{Item as ItemOf};
ghost use Rattle.lin_events.specs.declared.calls.Name.{Name as NameOf};
ghost use Rattle.lin_events.specs.declared.calls.Reply.{Reply as ReplyOf};
ghost use Rattle.lin_events.specs.declared.events.Event.{Event as EventOf};
ghost use Rattle.lin_events.specs.Meters.{ticked};
ghost use Rattle.lin_events.specs.WellFormed.{IsWellFormed};
ghost use Rattle.lin_objects.specs.Steps.{Step as StepOf, start as start_of};
ghost use Rattle.lin_objects.specs.declared.kinds.Kind.{Kind as KindOf};
ghost use Rattle.lin_order.specs.declared.placed.Placed.{Placed as PlacedOf};
ghost use Rattle.lin_order.specs.Configurations.{IsOver};
ghost use Rattle.lin_order.specs.ConfigurationLaws.{LegalOrdersEnd};
ghost use Rattle.lin_order.specs.Linearizable.{IsLegalOrderAs, IsLinearizableAs};
ghost use Rattle.lin_members.specs.Covers.{HasCrashed};
ghost use Rattle.lin_possibilities.specs.After.{IsAfter, IsWay, kind_in};
ghost use Rattle.lin_possibilities.specs.Running.{IsKnown, kind_of};
ghost use Rattle.lin_possibilities.specs.Possible.{AreShown, Answers, LeavesIn};
ghost use Rattle.lin_possibilities.specs.inner.Gathering.{IsPut, IsTakenFrom};

use crate::run::{Run, Taken};
use indexmap::IndexMap;
use lin_compressed_frontier::Scratch;
use lin_events::{Event, Meter, OutOfMemory, Reply, well_formed_is_alternating};
use lin_members::{Member, rounds_spell_members};
use lin_objects::{Kind, State, replies_decide};
use lin_order::{Placed, legal_orders_end, prefixes_are_linearizable_by};
use std::alloc::Global;
use std::hash::Hash;

/// What is possible after some events of an object.
#[derive(Drop)]
pub struct Possible {
    /// What one can go on from; its nodes tell the ways.
    run: Run,
    /// Configurations that show all that is possible, each with a node that spells a legal order that ends in it.
    members: Vec<Member<State>>,
}

/// Each legal order ends in a configuration, of whichever kind the object is.
fn each_order_ends()
    ensures { (kind : KindOf) → LegalOrdersEnd (start_of kind) (StepOf kind) }
{
    well_formed_is_alternating();
}

/// Takes the state in with its way, unless it is there.
fn put_state(
    found: &mut IndexMap<State, usize>,
    state: State,
    way: usize,
) -> Result<(), OutOfMemory>
    ensures { OnOk result (IsPut state way found.old.entries found.new.entries) }
{
    if found.contains_key(&state) {
        return Ok(());
    }
    match found.insert(state, way) {
        Ok(_) => {}
        Err(_) => return Err(OutOfMemory),
    }
    Ok(())
}

/// Takes the reply in with its way, unless it is there.
fn put_reply(
    found: &mut IndexMap<Reply, usize>,
    reply: Reply,
    way: usize,
) -> Result<(), OutOfMemory>
    ensures { OnOk result (IsPut reply way found.old.entries found.new.entries) }
{
    if found.contains_key(&reply) {
        return Ok(());
    }
    match found.insert(reply, way) {
        Ok(_) => {}
        Err(_) => return Err(OutOfMemory),
    }
    Ok(())
}

/// Takes in with the way what the pair answers, if it is of the process.
fn put_answer(
    alloc: Global,
    found: &mut IndexMap<Reply, usize>,
    pair: &(u64, Reply),
    process: u64,
    way: usize,
) -> Result<(), OutOfMemory>
    ensures { OnOk result (IsTakenFrom (λ (p : ℕ × ReplyOf). λ reply. p ≡ (process, reply)) pair.now way found.old.entries found.new.entries) }
{
    if pair.0 != process {
        return Ok(());
    }
    let reply = pair.1.copy(alloc)?;
    put_reply(found, reply, way)?;
    Ok(())
}

/// Takes in with the way what the pairs answer the process.
fn put_replies(
    alloc: Global,
    found: &mut IndexMap<Reply, usize>,
    pairs: &[(u64, Reply)],
    process: u64,
    way: usize,
) -> Result<(), OutOfMemory>
    ensures { OnOk result (IsTakenFrom (λ (ps : List (ℕ × ReplyOf)). λ reply. Contains ps (process, reply)) pairs.now way found.old.entries found.new.entries) }
{
    for pair in pairs {
        put_answer(alloc, found, pair, process, way)?;
    }
    Ok(())
}

/// The entries of the map.
fn entries_of<T: Eq + Hash + Drop>(
    alloc: Global,
    found: IndexMap<T, usize>,
) -> Result<Vec<(T, usize)>, OutOfMemory>
    ensures { IfOk result (λ entries. entries.items ≡ found.entries) }
{
    let mut entries = Vec::with_capacity(alloc, found.len())?;
    for entry in found {
        entries.push(entry)?;
    }
    Ok(entries)
}

impl Possible {
    /// What is possible after the object's events, of which the run has taken in the first ones. A step is counted for each of the others.
    fn of(
        alloc: Global,
        mut run: Run,
        from: usize,
        events: &[Event],
        budget: u32,
        meter: &mut Meter,
    ) -> Result<Option<Possible>, OutOfMemory>
        requires known { IsKnown run events.now from }
        requires within { from ≤ length events.now }
        requires legal { IsLinearizableAs (kind_of run) events.now }
        requires well_formed { (functions : ItemOf → NameOf → Bool) × IsWellFormed functions events.now }
        ensures after { IfOk result (λ found. IfSome found (λ possible. IsAfter possible (kind_of run) events.now)) }
        ensures over { result ≡ Ok None → (n : ℕ) × IsOver (start_of (kind_of run)) (StepOf (kind_of run)) (take n events.now) budget }
        ensures counted { IfOk result (λ found. IfSome found (λ possible. meter.new.steps ≡ ticked meter.old.steps (length events.now - from))) }
        ensures least { meter.old.steps ≤ meter.new.steps }
        ensures steps { meter.new.steps ≤ meter.old.steps + (length events.now - from) }
        ensures scans { meter.new.scans ≡ meter.old.scans }
    {
        prefixes_are_linearizable_by(&run.object);
        rounds_spell_members(&run.object);
        let _counted = meter.steps();
        let mut scratch = Scratch::new(alloc);
        for at in from..events.len() {
            match run.take_in(alloc, at, &events[at], budget, meter, &mut scratch)? {
                Taken::Next => {}
                Taken::Empty => unreachable!(),
                Taken::Over => return Ok(None),
            }
        }
        if run.is_overwritten() {
            let told = run.told(alloc, meter)?;
            return Ok(Some(Possible { run, members: told }));
        }
        let Some(members) = run.listed(alloc, budget, meter)? else {
            return Ok(None);
        };
        Ok(Some(Possible { run, members }))
    }

    /// What is possible after the object's events; `None` where some beginning of them has more configurations than the budget. A step is
    /// counted for each event that is taken in, and a try for each call that is tried.
    pub fn after(
        alloc: Global,
        kind: Kind,
        events: &[Event],
        budget: u32,
        meter: &mut Meter,
    ) -> Result<Option<Possible>, OutOfMemory>
        requires legal { IsLinearizableAs kind events.now }
        requires well_formed { (functions : ItemOf → NameOf → Bool) × IsWellFormed functions events.now }
        ensures after { IfOk result (λ found. IfSome found (λ possible. IsAfter possible kind events.now)) }
        ensures over { result ≡ Ok None → (n : ℕ) × IsOver (start_of kind) (StepOf kind) (take n events.now) budget }
        ensures counted { IfOk result (λ found. IfSome found (λ possible. meter.new.steps ≡ ticked meter.old.steps (length events.now))) }
        ensures least { meter.old.steps ≤ meter.new.steps }
        ensures steps { meter.new.steps ≤ meter.old.steps + length events.now }
        ensures scans { meter.new.scans ≡ meter.old.scans }
    {
        let run = Run::new(alloc, kind)?;
        Possible::of(alloc, run, 0, events, budget, meter)
    }

    /// What is possible after all of the events, where this is what is possible after the first ones: only those behind are taken in, and
    /// counted. `None` where some beginning of all has more configurations than the budget.
    pub fn go_on(
        self,
        alloc: Global,
        from: usize,
        events: &[Event],
        budget: u32,
        meter: &mut Meter,
    ) -> Result<Option<Possible>, OutOfMemory>
        requires before { IsAfter self (kind_in self) (take from events.now) }
        requires within { from ≤ length events.now }
        requires legal { IsLinearizableAs (kind_in self) events.now }
        requires well_formed { (functions : ItemOf → NameOf → Bool) × IsWellFormed functions events.now }
        ensures after { IfOk result (λ found. IfSome found (λ possible. IsAfter possible (kind_in self) events.now)) }
        ensures over { result ≡ Ok None → (n : ℕ) × IsOver (start_of (kind_in self)) (StepOf (kind_in self)) (take n events.now) budget }
        ensures counted { IfOk result (λ found. IfSome found (λ possible. meter.new.steps ≡ ticked meter.old.steps (length events.now - from))) }
        ensures least { meter.old.steps ≤ meter.new.steps }
        ensures steps { meter.new.steps ≤ meter.old.steps + (length events.now - from) }
        ensures scans { meter.new.scans ≡ meter.old.scans }
    {
        Possible::of(alloc, self.run, from, events, budget, meter)
    }

    /// What the object could be: each state once, with a way.
    pub fn states(&self, alloc: Global) -> Result<Vec<(State, usize)>, OutOfMemory>
        ensures { IfOk result (λ found. (functions : ItemOf → NameOf → Bool) (kind : KindOf) (h : List EventOf) → IsWellFormed functions h → IsAfter self.now kind h
            → AreShown (LeavesIn kind h) (IsWay self.now) found.items) }
    {
        each_order_ends();
        replies_decide();
        let mut found = IndexMap::new(alloc);
        for member in &self.members {
            let state = member.state().copy(alloc)?;
            put_state(&mut found, state, member.path().node as usize)?;
        }
        let entries = entries_of(alloc, found)?;
        Ok(entries)
    }

    /// What the open operation of the process, which has not crashed, could have been answered: each reply once, with a way.
    pub fn replies(&self, alloc: Global, process: u64) -> Result<Vec<(Reply, usize)>, OutOfMemory>
        ensures { IfOk result (λ found. (functions : ItemOf → NameOf → Bool) (kind : KindOf) (h : List EventOf) → IsWellFormed functions h → IsAfter self.now kind h → (HasCrashed h process → ⊥)
            → AreShown (Answers kind h process) (IsWay self.now) found.items) }
    {
        each_order_ends();
        let mut found = IndexMap::new(alloc);
        for member in &self.members {
            let way = member.path().node as usize;
            put_replies(alloc, &mut found, member.placed(), process, way)?;
        }
        let entries = entries_of(alloc, found)?;
        Ok(entries)
    }

    /// The order that a way tells: it shows what was told with the way.
    pub fn order(&self, alloc: Global, way: usize) -> Result<Vec<Placed>, OutOfMemory>
        ensures { IfOk result (λ found. (order : List PlacedOf) → IsWay self.now way order → found.items ≡ order) }
    {
        self.run.nodes.order(alloc, way)
    }

    /// Some way: it tells a legal order, if there is one.
    pub fn first(&self) -> Option<usize>
        ensures legal { IfSome result (λ way. (kind : KindOf) (h : List EventOf) → IsAfter self.now kind h → (order : List PlacedOf) × IsWay self.now way order × IsLegalOrderAs kind h order) }
        ensures none { IfNone result ((functions : ItemOf → NameOf → Bool) (kind : KindOf) (h : List EventOf) → IsWellFormed functions h → IsAfter self.now kind h → IsLinearizableAs kind h → ⊥) }
    {
        each_order_ends();
        match self.members.first() {
            Some(member) => Some(member.path().node as usize),
            None => None,
        }
    }
}
