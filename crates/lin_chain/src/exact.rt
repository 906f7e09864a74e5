//! All configurations after the first events of an object.
ghost use Rattle.std.specs.Prelude.{◌≡◌, ◌≤◌, ◌+◌, ℕ, Bool, List, All, IfOk, IfNone, IfSome, Ok, None, Some, length, take};
ghost use Rattle.lin_events.specs.declared.items.Item.{Item as ItemOf};
ghost use Rattle.lin_events.specs.declared.calls.Name.{Name as NameOf};
ghost use Rattle.lin_events.specs.declared.events.Event.{Event as EventOf};
ghost use Rattle.lin_events.specs.Operations.{IsEvent};
ghost use Rattle.lin_events.specs.WellFormed.{IsWellFormed};
ghost use Rattle.lin_objects.specs.Steps.{Step as StepOf, start as start_of};
ghost use Rattle.lin_order.specs.Configurations.{IsOver};
ghost use Rattle.lin_order.specs.Linearizable.{IsLinearizableAs};
ghost use Rattle.lin_chain.specs.Exact.{IsExact};

use lin_events::{Event, Meter, OutOfMemory, beginnings_are_well_formed};
use lin_frontier::{
    Frontier, Nodes, Open, Step, nothing_is_open_at_first, take_in as take_in_open,
};
use lin_objects::{Any, Kind};
use std::alloc::Global;

/// What one more event made of all configurations.
#[derive(Clone, Copy)]
pub(crate) enum Taken {
    /// Those after it.
    Next,
    /// There are none: the events have no legal order.
    Empty,
    /// There are more than the budget.
    Over,
}

/// All configurations after some events, and what is needed to go on.
#[derive(Drop)]
pub(crate) struct ExactRun {
    pub(crate) object: Any,
    pub(crate) nodes: Nodes,
    pub(crate) frontier: Frontier<Any>,
    pending: Vec<Open>,
}

impl ExactRun {
    /// Before any event.
    pub(crate) fn new(alloc: Global, kind: Kind) -> Result<ExactRun, OutOfMemory>
        ensures kind { IfOk result (λ exact. exact.object.kind ≡ kind) }
        ensures exact { IfOk result (λ exact. (h : List EventOf) → IsExact exact h 0) }
    {
        nothing_is_open_at_first();
        let object = Any { kind };
        let mut nodes = Nodes::new(alloc);
        let frontier = Frontier::start(alloc, &object, &mut nodes)?;
        Ok(ExactRun {
            object,
            nodes,
            frontier,
            pending: Vec::new(alloc),
        })
    }

    /// One more event.
    pub(crate) fn take_in(
        &mut self,
        alloc: Global,
        at: usize,
        event: &Event,
        budget: u32,
        meter: &mut Meter,
    ) -> Result<Taken, OutOfMemory>
        ensures kind { self.new.object.kind ≡ self.old.object.kind }
        ensures next { result ≡ Ok Taken.Next → (functions : ItemOf → NameOf → Bool) (h : List EventOf) → IsWellFormed functions h → IsEvent h at event.now → IsExact self.old h at → IsExact self.new h (at + 1) }
        ensures empty { result ≡ Ok Taken.Empty → (functions : ItemOf → NameOf → Bool) (h : List EventOf) → IsWellFormed functions h → IsEvent h at event.now → IsExact self.old h at
            → IsLinearizableAs self.old.object.kind (take (at + 1) h) → ⊥ }
        ensures over { result ≡ Ok Taken.Over → (functions : ItemOf → NameOf → Bool) (h : List EventOf) → IsWellFormed functions h → IsEvent h at event.now → IsExact self.old h at
            → IsOver (start_of self.old.object.kind) (StepOf self.old.object.kind) (take (at + 1) h) budget }
        ensures steps { meter.new.steps ≤ meter.old.steps + 1 }
        ensures scans { meter.new.scans ≡ meter.old.scans }
    {
        beginnings_are_well_formed();
        let step = self.frontier.advance_all(
            alloc,
            &self.object,
            self.pending.as_slice(),
            at,
            event,
            budget,
            &mut self.nodes,
            meter,
        )?;
        match step {
            Step::Next(next) => {
                take_in_open(&mut self.pending, at, event)?;
                self.frontier = next;
                Ok(Taken::Next)
            }
            Step::Empty => Ok(Taken::Empty),
            Step::Over => Ok(Taken::Over),
        }
    }
}
