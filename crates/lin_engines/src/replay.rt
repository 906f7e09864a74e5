//! The frontiers that are kept of an object's events: the present one, and one at each 64th place. They are an engine.
ghost use Rattle.std.specs.Prelude.{◌≡◌, ◌≢◌, ◌≤◌, ◌<◌, ◌+◌, ◌*◌, [], ℕ, Bool, List, None, Some, All, IfOk, IfSome, IfNone, OnOk, OnErr, length, take, min};
ghost use Rattle.lin_events.specs.declared.items.Item.{Item as ItemOf};
ghost use Rattle.lin_events.specs.declared.calls.Name.{Name as NameOf};
ghost use Rattle.lin_events.specs.declared.events.Event.{Event as EventOf};
ghost use Rattle.lin_events.specs.Meters.{ticked};
ghost use Rattle.lin_events.specs.Operations.{IsEvent};
ghost use Rattle.lin_events.specs.WellFormed.{IsWellFormed};
ghost use Rattle.lin_objects.specs.Steps.{Step as StepOf, start as start_of};
ghost use Rattle.lin_order.specs.declared.placed.Placed.{Placed as PlacedOf};
ghost use Rattle.lin_order.specs.ConfigurationLaws.{with_event};
ghost use Rattle.lin_frontier.specs.Frontiers.{IsNextEvent, IsPending};
ghost use Rattle.lin_order.specs.Configurations.{IsOver};
ghost use Rattle.lin_members.specs.Rounds.{joined, SpellsRounds};
ghost use Rattle.lin_engines.specs.Replays.{IsCurrent, IsPrepared, IsReplay, KeepsPast, Members, held_count};
ghost use Rattle.lin_frontier.specs.Opens.{HasRoom};
ghost use Rattle.lin_order.specs.Linearizable.{IsLegalOrderAs, IsLinearizableAs};

use crate::engine::Engine;
use crate::says::Says;
use lin_compressed_frontier::{Advance, Compressed, Scratch, members_spell_legal_orders};
use lin_events::{Event, Meter, OutOfMemory, beginnings_are_well_formed};
use lin_frontier::{Arrival, NodeId, OpenList, OpenMark, nothing_is_open_at_first};
use lin_members::RoundNodes;
use lin_objects::{Any, Kind, State};
use lin_order::{Placed, empty_is_legal};
use std::alloc::Global;

/// How many events are between two checkpoints.
const SPACING: usize = 64;

/// What is kept of the events before a place, to go on from there.
#[derive(Drop)]
pub(crate) struct Checkpoint {
    frontier: Compressed<Any>,
    /// How many nodes there were.
    nodes: usize,
    /// What was open.
    opened: OpenMark,
}

/// What is known after the first events of an object, with checkpoints to go back to.
#[derive(Drop)]
pub struct Replay {
    alloc: Global,
    object: Any,
    /// How many events are known.
    reached: usize,
    checkpoints: Vec<Checkpoint>,
    /// The frontier after them. None where the last checkpoint has it.
    present: Option<Compressed<Any>>,
    /// What is open after them.
    pending: OpenList,
    nodes: RoundNodes,
}

/// What one more event made of the present frontier.
#[derive(Clone, Copy)]
pub(crate) enum Taken {
    /// The next one: the event is known.
    Next,
    /// There is none: the events have no legal order. All is as before.
    Empty,
    /// There are more configurations than the budget. All is as before.
    Over,
    /// There were more before the event. All is as before.
    OverBefore,
}

impl Replay {
    /// No event is known.
    pub fn new(alloc: Global, kind: Kind) -> Replay
        ensures kind { result.object.kind ≡ kind }
        ensures reached { result.reached ≡ 0 }
        ensures right { (h : List EventOf) → IsReplay result h }
    {
        nothing_is_open_at_first();
        Replay {
            alloc,
            object: Any { kind },
            reached: 0,
            checkpoints: Vec::new(alloc),
            present: None,
            pending: OpenList::new(alloc),
            nodes: RoundNodes::new(alloc),
        }
    }

    /// Memory for steps to use again.
    pub fn scratch(&self) -> Scratch<Any> {
        Scratch::new(self.alloc)
    }

    /// What the object is.
    pub fn kind(&self) -> Kind
        ensures { result ≡ self.now.object.kind }
    {
        self.object.kind
    }

    /// How many frontiers are held.
    pub fn kept(&self) -> usize
        ensures held { result ≡ held_count self.now }
        ensures few { (h : List EventOf) → IsReplay self.now h → 64 * result ≤ self.now.reached + 128 }
    {
        self.checkpoints.len() + usize::from(self.present.is_some())
    }

    /// How many operations are open after the events that are known.
    pub fn open(&self) -> usize {
        self.pending.len()
    }

    /// How many members the frontier after them has.
    pub fn members(&self) -> usize {
        match (&self.present, self.checkpoints.last()) {
            (Some(frontier), _) => frontier.len(),
            (None, Some(last)) => last.frontier.len(),
            (None, None) => 1,
        }
    }

    /// How many items one of these members holds, where the object is a queue, ordered or not.
    pub fn inside(&self) -> usize {
        let frontier = match (&self.present, self.checkpoints.last()) {
            (Some(frontier), _) => frontier,
            (None, Some(last)) => &last.frontier,
            (None, None) => return 0,
        };
        match frontier.get(&self.object, 0).map(|member| member.state()) {
            Some(State::Bag(items)) => items.as_slice().len(),
            Some(State::Queue(items)) => items.as_slice().len(),
            _ => 0,
        }
    }

    /// Where its memory comes from.
    pub fn alloc(&self) -> Global {
        self.alloc
    }

    /// Goes back to the checkpoint with this number.
    fn go_back(&mut self, number: usize)
        requires { 64 * number ≤ usize.MAX }
        ensures object { self.new.object ≡ self.old.object }
        ensures reached { self.new.reached ≡ 64 * number }
        ensures right { (h edited : List EventOf) → IsReplay self.old h → number < length self.old.checkpoints.items → take (64 * number) h ≡ take (64 * number) edited → IsReplay self.new edited }
    {
        self.reached = number * SPACING;
        self.checkpoints.truncate(number + 1);
        self.present = None;
        if let Some(last) = self.checkpoints.last() {
            self.nodes.cut(last.nodes);
            self.pending.cut(number * SPACING, last.opened);
        }
    }

    /// Makes ready for one more event.
    fn prepare(&mut self) -> Result<(), OutOfMemory>
        requires { (h : List EventOf) × IsReplay self.old h }
        ensures object { self.new.object ≡ self.old.object }
        ensures reached { self.new.reached ≡ self.old.reached }
        ensures right { (h : List EventOf) → IsReplay self.old h → IsReplay self.new h }
        ensures prepared { OnOk result ((h : List EventOf) → IsReplay self.old h → IsPrepared self.new h) }
        ensures some { OnOk result (0 < length self.new.checkpoints.items) }
        ensures room { OnOk result (HasRoom self.new.pending) }
    {
        self.mark()?;
        self.pending.reserve()
    }

    /// Makes a checkpoint, where one is due.
    fn mark(&mut self) -> Result<(), OutOfMemory>
        ensures object { self.new.object ≡ self.old.object }
        ensures reached { self.new.reached ≡ self.old.reached }
        ensures right { (h : List EventOf) → IsReplay self.old h → IsReplay self.new h }
        ensures before { OnOk result ((h : List EventOf) → IsReplay self.old h → self.new.reached < 64 * length self.new.checkpoints.items) }
        ensures some { OnOk result (0 < length self.new.checkpoints.items) }
    {
        if self.checkpoints.is_empty() {
            self.begin()
        } else if self.checkpoints.len() <= self.reached / SPACING {
            self.keep()
        } else {
            Ok(())
        }
    }

    /// Makes the first checkpoint, before any event.
    fn begin(&mut self) -> Result<(), OutOfMemory>
        requires { self.old.checkpoints.items ≡ [] }
        ensures object { self.new.object ≡ self.old.object }
        ensures reached { self.new.reached ≡ self.old.reached }
        ensures right { (h : List EventOf) → IsReplay self.old h → IsReplay self.new h }
        ensures before { OnOk result ((h : List EventOf) → IsReplay self.old h → self.new.reached < 64 * length self.new.checkpoints.items) }
        ensures some { OnOk result (0 < length self.new.checkpoints.items) }
    {
        if self.checkpoints.reserve(1).is_err() {
            return Err(OutOfMemory);
        }
        let frontier = Compressed::start(self.alloc, &self.object, &self.nodes)?;
        self.checkpoints.push_reserved(Checkpoint {
            frontier,
            nodes: self.nodes.len(),
            opened: self.pending.mark(0),
        });
        Ok(())
    }

    /// Makes a checkpoint of the present frontier.
    fn keep(&mut self) -> Result<(), OutOfMemory>
        requires { 64 * length self.old.checkpoints.items ≤ self.old.reached }
        ensures object { self.new.object ≡ self.old.object }
        ensures reached { self.new.reached ≡ self.old.reached }
        ensures right { (h : List EventOf) → IsReplay self.old h → IsReplay self.new h }
        ensures some { length self.old.checkpoints.items ≤ length self.new.checkpoints.items }
        ensures before { OnOk result ((h : List EventOf) → IsReplay self.old h → 0 < length self.old.checkpoints.items → self.new.reached < 64 * length self.new.checkpoints.items) }
    {
        if self.checkpoints.reserve(1).is_err() {
            return Err(OutOfMemory);
        }
        if let Some(frontier) = self.present.take() {
            self.checkpoints.push_reserved(Checkpoint {
                frontier,
                nodes: self.nodes.len(),
                opened: self.pending.mark(self.reached),
            });
        }
        Ok(())
    }

    /// Takes one more event in, after `prepare`.
    fn advance(
        &mut self,
        event: &Event,
        budget: u32,
        meter: &mut Meter,
        scratch: &mut Scratch<Any>,
    ) -> Result<Taken, OutOfMemory>
        requires some { 0 < length self.old.checkpoints.items }
        requires room { HasRoom self.old.pending }
        requires fits { self.old.reached < usize.MAX }
        ensures object { self.new.object ≡ self.old.object }
        ensures next { result ≡ Ok Taken.Next → self.new.reached ≡ self.old.reached + 1 }
        ensures stays { result ≢ Ok Taken.Next → self.new ≡ self.old }
        ensures right { (functions : ItemOf → NameOf → Bool) (h : List EventOf) → IsWellFormed functions h → IsEvent h self.old.reached event.now → IsPrepared self.old h → IsReplay self.new h }
        ensures empty { result ≡ Ok Taken.Empty → (functions : ItemOf → NameOf → Bool) (h : List EventOf) → IsWellFormed functions h → IsEvent h self.old.reached event.now → IsPrepared self.old h
            → IsLinearizableAs self.old.object.kind (take (self.old.reached + 1) h) → ⊥ }
        ensures over { result ≡ Ok Taken.Over → (functions : ItemOf → NameOf → Bool) (h : List EventOf) → IsWellFormed functions h → IsEvent h self.old.reached event.now → IsPrepared self.old h
            → IsOver (start_of self.old.object.kind) (StepOf self.old.object.kind) (take (self.old.reached + 1) h) budget }
        ensures before { result ≡ Ok Taken.OverBefore → (functions : ItemOf → NameOf → Bool) (h : List EventOf) → IsWellFormed functions h → IsEvent h self.old.reached event.now → IsPrepared self.old h
            → (0 < self.old.reached) × IsOver (start_of self.old.object.kind) (StepOf self.old.object.kind) (take self.old.reached h) budget }
        ensures steps { meter.new.steps ≡ ticked meter.old.steps 1 }
        ensures scans { meter.new.scans ≡ meter.old.scans }
    {
        beginnings_are_well_formed();
        let Some(frontier) = current(&self.present, &self.checkpoints) else {
            unreachable!()
        };
        let arrival = Arrival {
            object: &self.object,
            alloc: self.alloc,
            pending: self.pending.as_slice(),
            at: self.reached,
            event,
        };
        let step = frontier.advance(&arrival, budget, &mut self.nodes, meter, scratch)?;
        match step {
            Advance::Same => {
                self.stay(event)?;
                Ok(Taken::Next)
            }
            Advance::Next(next) => {
                self.pending.take_in(self.reached, event);
                self.put(next, scratch);
                self.reached += 1;
                Ok(Taken::Next)
            }
            Advance::Empty => Ok(Taken::Empty),
            Advance::Over => Ok(Taken::Over),
            Advance::OverBefore => Ok(Taken::OverBefore),
        }
    }

    /// Makes the frontier the present one. The memory of the one before is used again.
    fn put(&mut self, frontier: Compressed<Any>, scratch: &mut Scratch<Any>)
        ensures { self.new ≡ record self.old { present = Some frontier } }
    {
        if let Some(before) = self.present.replace(frontier) {
            scratch.take_back(before);
        }
    }

    /// Takes one more event in that leaves the frontier as it is.
    fn stay(&mut self, event: &Event) -> Result<(), OutOfMemory>
        requires some { 0 < length self.old.checkpoints.items }
        requires room { HasRoom self.old.pending }
        requires fits { self.old.reached < usize.MAX }
        ensures others { OnOk result (self.new ≡ record self.old { reached = self.old.reached + 1; present = self.new.present; pending = self.new.pending }) }
        ensures held { OnOk result ((frontier : Members) → IsCurrent self.old.present self.old.checkpoints.items frontier → self.new.present ≡ Some frontier) }
        ensures open { OnOk result ((functions : ItemOf → NameOf → Bool) (h : List EventOf) → IsNextEvent functions h self.old.pending.operations.items self.old.reached event.now
            → IsPending (with_event h event.now) self.new.pending.operations.items) }
        ensures past { OnOk result ((h : List EventOf) → KeepsPast self.old.reached h self.old.pending self.new.pending) }
        ensures refused { OnErr result (self.new ≡ self.old) }
    {
        self.hold()?;
        self.pending.take_in(self.reached, event);
        self.reached += 1;
        Ok(())
    }

    /// Makes the current frontier the present one, on its own memory.
    fn hold(&mut self) -> Result<(), OutOfMemory>
        requires { 0 < length self.old.checkpoints.items }
        ensures others { self.new ≡ record self.old { present = self.new.present } }
        ensures held { OnOk result ((frontier : Members) → IsCurrent self.old.present self.old.checkpoints.items frontier → self.new.present ≡ Some frontier) }
        ensures refused { OnErr result (self.new ≡ self.old) }
    {
        if self.present.is_some() {
            return Ok(());
        }
        let Some(frontier) = current(&self.present, &self.checkpoints) else {
            unreachable!()
        };
        let copy = frontier.copy(self.alloc, &self.object)?;
        self.present = Some(copy);
        Ok(())
    }

    /// A legal order of the events that are known.
    fn legal_order(&self, alloc: Global) -> Result<Vec<Placed>, OutOfMemory>
        requires { (h : List EventOf) × IsReplay self.now h }
        ensures { IfOk result (λ order. (h : List EventOf) → IsReplay self.now h → IsLegalOrderAs self.now.object.kind (take self.now.reached h) order.items) }
    {
        self.nodes.order(alloc, self.node())
    }

    /// The node of a legal order of them.
    fn node(&self) -> NodeId
        ensures { (h : List EventOf) → IsReplay self.now h → (rounds : List (List PlacedOf)) × SpellsRounds self.now.nodes result rounds × IsLegalOrderAs self.now.object.kind (take self.now.reached h) (joined rounds) }
    {
        empty_is_legal();
        members_spell_legal_orders::<Any>();
        let Some(frontier) = current(&self.present, &self.checkpoints) else {
            return 0;
        };
        match frontier.get(&self.object, 0) {
            Some(member) => member.path().node as usize,
            None => 0,
        }
    }
}

impl Engine for Replay {
    ghost use Rattle.lin_engines.specs.Replays.{IsReplay, kind_of_replay, reach_of_replay, replay_within};
    ghost use Rattle.lin_engines.specs.Lanes.{IsOfFrontier};

    ghost sees = { IsReplay };

    ghost kind = { kind_of_replay };

    ghost reach = { reach_of_replay };

    ghost says = { IsOfFrontier };

    fn reached(&self) -> usize {
        self.reached
    }

    fn take_in(
        &mut self,
        event: &Event,
        budget: u32,
        meter: &mut Meter,
        scratch: &mut Scratch<Any>,
    ) -> Result<Says, OutOfMemory> {
        let at = self.reached;
        self.prepare()?;
        match self.advance(event, budget, meter, scratch)? {
            Taken::Next => Ok(Says::On),
            Taken::Empty => Ok(Says::Dead),
            Taken::Over => Ok(Says::Over(at)),
            Taken::OverBefore => Ok(Says::Over(at.saturating_sub(1))),
        }
    }

    fn cut(&mut self, place: usize) {
        if place < self.reached {
            self.go_back(place / SPACING);
        }
    }

    fn order(&self, alloc: Global) -> Result<Vec<Placed>, OutOfMemory> {
        self.legal_order(alloc)
    }

    fn affirm(&self) {
        empty_is_legal();
        members_spell_legal_orders::<Any>();
    }

    ghost within = { replay_within };

    ghost begins = { tt };
}

/// The present frontier, or where there is none the last checkpoint's.
fn current<'a>(
    present: &'a Option<Compressed<Any>>,
    checkpoints: &'a [Checkpoint],
) -> Option<&'a Compressed<Any>>
    ensures some { IfSome result (λ frontier. IsCurrent present.now checkpoints.now frontier.now) }
    ensures none { IfNone result (checkpoints.now ≡ []) }
{
    match present {
        Some(frontier) => Some(frontier),
        None => match checkpoints.last() {
            Some(last) => Some(&last.frontier),
            None => None,
        },
    }
}
