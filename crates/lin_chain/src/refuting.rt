//! Refutations of histories that have no legal order: all configurations of each beginning.
ghost use Rattle.std.specs.Prelude.{◌≡◌, ◌≤◌, ◌+◌, ◌<◌, ℕ, Bool, List, All, IfOk, OnOk, Ok, None, Some, length, take};
ghost use Rattle.std.specs.Map.{keys_of};
ghost use Rattle.lin_events.specs.declared.items.Item.{Item as ItemOf};
ghost use Rattle.lin_events.specs.declared.calls.Name.{Name as NameOf};
ghost use Rattle.lin_events.specs.declared.events.Event.{Event as EventOf};
ghost use Rattle.lin_events.specs.Operations.{IsEvent};
ghost use Rattle.lin_events.specs.WellFormed.{IsWellFormed};
ghost use Rattle.lin_objects.specs.Steps.{Step as StepOf, start as start_of};
ghost use Rattle.lin_order.specs.Parts.{events_at};
ghost use Rattle.lin_order.specs.Refutations.{IsRefutation, sets_of};
ghost use Rattle.lin_order.specs.Configurations.{IsOver};
ghost use Rattle.lin_order.specs.Linearizable.{IsDeadAt, IsLinearizableAs};
ghost use Rattle.lin_chain.specs.inner.Refuting.{AreBuilt};

use crate::exact::{ExactRun, Taken};
use lin_events::{Event, Meter, OutOfMemory, Reply, beginnings_are_well_formed};
use lin_frontier::{Config, Frontier};
use lin_objects::{Any, Kind, SeqObject, State};
use lin_order::{RefConfig, Refutation, exact_sets_refute, prefixes_are_linearizable_by};
use std::alloc::Global;

/// All configurations of each beginning of some events, so far.
#[derive(Drop)]
pub(crate) struct Builder {
    exact: ExactRun,
    sets: Vec<Vec<RefConfig>>,
}

fn copy_of(alloc: Global, pairs: &[(u64, Reply)]) -> Result<Vec<(u64, Reply)>, OutOfMemory>
    ensures { IfOk result (λ copy. copy.items ≡ pairs.now) }
{
    let mut copy = Vec::new(alloc);
    for pair in pairs {
        copy.push((pair.0, pair.1.copy(alloc)?))?;
    }
    Ok(copy)
}

fn config_of(alloc: Global, object: &Any, config: &Config<State>) -> Result<RefConfig, OutOfMemory>
    ensures { IfOk result (λ member. member ≡ config.now) }
{
    Ok(RefConfig {
        state: object.copy_state(alloc, config.state())?,
        placed: copy_of(alloc, config.placed())?,
    })
}

/// The configurations of a frontier, without their nodes.
fn set_of(
    alloc: Global,
    object: &Any,
    frontier: &Frontier<Any>,
) -> Result<Vec<RefConfig>, OutOfMemory>
    ensures { IfOk result (λ set. set.items ≡ keys_of frontier.now) }
{
    let mut set = Vec::new(alloc);
    for i in 0..frontier.len() {
        let Some((config, _)) = frontier.get(i) else {
            unreachable!()
        };
        set.push(config_of(alloc, object, config)?)?;
    }
    Ok(set)
}

impl Builder {
    /// Of no event.
    fn new(alloc: Global, kind: Kind) -> Result<Builder, OutOfMemory>
        ensures kind { IfOk result (λ builder. builder.exact.object.kind ≡ kind) }
        ensures built { IfOk result (λ builder. (h : List EventOf) → AreBuilt builder h 0) }
    {
        let exact = ExactRun::new(alloc, kind)?;
        let mut sets = Vec::new(alloc);
        sets.push(set_of(alloc, &exact.object, &exact.frontier)?)?;
        Ok(Builder { exact, sets })
    }

    /// One more event. Where there is no next set, what was built is of no use any more.
    fn take_in(
        &mut self,
        alloc: Global,
        at: usize,
        event: &Event,
        budget: u32,
        meter: &mut Meter,
    ) -> Result<Taken, OutOfMemory>
        ensures kind { self.new.exact.object.kind ≡ self.old.exact.object.kind }
        ensures next { result ≡ Ok Taken.Next → (functions : ItemOf → NameOf → Bool) (h : List EventOf) → IsWellFormed functions h → IsEvent h at event.now → AreBuilt self.old h at → AreBuilt self.new h (at + 1) }
        ensures empty { result ≡ Ok Taken.Empty → (functions : ItemOf → NameOf → Bool) (h : List EventOf) → IsWellFormed functions h → IsEvent h at event.now → AreBuilt self.old h at
            → IsLinearizableAs self.old.exact.object.kind (take (at + 1) h) → ⊥ }
        ensures over { result ≡ Ok Taken.Over → (functions : ItemOf → NameOf → Bool) (h : List EventOf) → IsWellFormed functions h → IsEvent h at event.now → AreBuilt self.old h at
            → IsOver (start_of self.old.exact.object.kind) (StepOf self.old.exact.object.kind) (take (at + 1) h) budget }
        ensures steps { meter.new.steps ≤ meter.old.steps + 1 }
        ensures scans { meter.new.scans ≡ meter.old.scans }
    {
        let taken = self.exact.take_in(alloc, at, event, budget, meter)?;
        if let Taken::Next = taken {
            let set = set_of(alloc, &self.exact.object, &self.exact.frontier)?;
            self.sets.push(set)?;
        }
        Ok(taken)
    }
}

/// A refutation of the object's events up to and with the one at which they are dead; none where an earlier beginning has more
/// configurations than the budget.
pub(crate) fn refutation_of(
    alloc: Global,
    kind: Kind,
    events: &[Event],
    picks: &[usize],
    dead: usize,
    budget: u32,
    meter: &mut Meter,
) -> Result<Option<Refutation>, OutOfMemory>
    requires dead { IsDeadAt kind (events_at events.now picks.now) dead }
    requires place { dead < length picks.now }
    requires inside { All (λ at. at < length events.now) picks.now }
    requires well_formed { (functions : ItemOf → NameOf → Bool) × IsWellFormed functions (events_at events.now picks.now) }
    ensures refuted { (refutation : Refutation) → result ≡ Ok (Some refutation) → IsRefutation (take (dead + 1) (events_at events.now picks.now)) kind (sets_of refutation) }
    ensures steps { meter.new.steps ≤ meter.old.steps + length picks.now }
    ensures scans { meter.new.scans ≡ meter.old.scans }
    ensures over { result ≡ Ok None → (n : ℕ) × IsOver (start_of kind) (StepOf kind) (take n (events_at events.now picks.now)) budget }
{
    exact_sets_refute();
    beginnings_are_well_formed();
    prefixes_are_linearizable_by(&Any { kind });
    let mut builder = Builder::new(alloc, kind)?;
    for at in 0..dead {
        match builder.take_in(alloc, at, &events[picks[at]], budget, meter)? {
            Taken::Next => {}
            Taken::Over => return Ok(None),
            Taken::Empty => unreachable!(),
        }
    }
    builder.sets.push(Vec::new(alloc))?;
    Ok(Some(Refutation { sets: builder.sets }))
}
