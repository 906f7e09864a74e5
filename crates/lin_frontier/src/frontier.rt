//! Frontiers: the configurations of a history that has one object.
ghost use Rattle.std.specs.Prelude.{◌≡◌, ◌<◌, ◌≤◌, ◌∷◌, ◌⊎◌, ◌+◌, [], ℕ, Bool, List, OnErr, Some, length, slice_get, IfOk, IfSome, IfNone};
ghost use Rattle.lin_events.specs.declared.items.Item.{Item as ItemOf};
ghost use Rattle.lin_events.specs.declared.calls.Reply.{Reply as ReplyOf};
ghost use Rattle.lin_events.specs.declared.calls.Name.{Name as NameOf};
ghost use Rattle.lin_events.specs.declared.events.Event.{Event as EventOf};
ghost use Rattle.lin_events.specs.Meters.{ticked};
ghost use Rattle.lin_order.specs.ConfigurationLaws.{with_event};
ghost use Rattle.lin_order.specs.Linearizable.{IsLinearizableBy};
ghost use Rattle.lin_frontier.specs.Frontiers.{IsFrontier, IsNextEvent, tries_within};
ghost use Rattle.lin_order.specs.Configurations.{IsOver};
ghost use Rattle.lin_frontier.specs.Nodes.{IsGrown};
ghost use Rattle.lin_frontier.specs.Walks.{IsTriedAtMost};
ghost use Rattle.indexmap.specs.IndexMap.{index_map_len};

use crate::configs::Config;
use crate::keeping::keep_all;
use crate::nodes::{NodeId, Nodes};
use crate::pending::Open;
use crate::placing::Placing;
use crate::search::closure;
use indexmap::IndexMap;
use lin_events::{Body, Event, Meter, OutOfMemory, well_formed_is_alternating};
use lin_objects::SeqObject;
use lin_order::{
    configurations_after_events, configurations_at_start, legal_orders_end, placing_is_legal,
};
use std::alloc::Global;
use std::marker::Model;

/// The configurations after some events of an object, each with the node that spells how it was come by.
#[derive(Drop)]
pub struct Frontier<O: SeqObject> {
    configs: IndexMap<Config<O::State>, usize>,
}

impl<O: SeqObject> Model for Frontier<O> {
    ghost use Rattle.std.specs.Prelude.{ℕ, List};
    ghost use Rattle.lin_events.specs.declared.calls.Reply.{Reply as ReplyOf};

    ghost Value = { List ((O.State × List (ℕ × ReplyOf)) × ℕ) };

    ghost view = { λ f. f.configs.entries };
}

/// An event that comes next: what stands at the position among the events of the object, with the operations that are open before it.
#[derive(Drop)]
pub struct Arrival<'a, O: SeqObject> {
    pub object: &'a O,
    pub alloc: Global,
    pub pending: &'a [Open],
    pub at: usize,
    pub event: &'a Event,
}

/// What one more event makes of a frontier.
#[derive(Drop)]
pub enum Step<O: SeqObject> {
    /// The configurations after it.
    Next(Frontier<O>),
    /// There is none: the events have no legal order.
    Empty,
    /// There are more than the budget.
    Over,
}

/// The configurations after one more event, each with its node, or `None` where there are more than the budget.
///
/// After an invocation they are what the event leaves and all that placing reaches from it; after a completion
/// nothing has to be placed.
fn next_configs<O: SeqObject>(
    arrival: &Arrival<O>,
    configs: &IndexMap<Config<O::State>, NodeId>,
    budget: usize,
    nodes: &mut Nodes,
    meter: &mut Meter,
) -> Result<Option<IndexMap<Config<O::State>, NodeId>>, OutOfMemory>
    ensures next { IfOk result (λ found. IfSome found (λ map. (functions : ItemOf → NameOf → Bool) (h : List EventOf)
        → IsNextEvent functions h arrival.now.pending.now arrival.now.at arrival.now.event.now → IsFrontier (O.starts arrival.now.object.now) (O.step arrival.now.object.now) h configs.now.entries nodes.old
        → IsFrontier (O.starts arrival.now.object.now) (O.step arrival.now.object.now) (with_event h arrival.now.event.now) map.entries nodes.new)) }
    ensures small { IfOk result (λ found. IfSome found (λ map. index_map_len map ≤ budget)) }
    ensures over { IfOk result (λ found. IfNone found ((functions : ItemOf → NameOf → Bool) (h : List EventOf)
        → IsNextEvent functions h arrival.now.pending.now arrival.now.at arrival.now.event.now → IsFrontier (O.starts arrival.now.object.now) (O.step arrival.now.object.now) h configs.now.entries nodes.old
        → IsOver (O.starts arrival.now.object.now) (O.step arrival.now.object.now) (with_event h arrival.now.event.now) budget)) }
    ensures grown { IsGrown nodes.old nodes.new }
    ensures tried { IsTriedAtMost (tries_within budget (length arrival.now.pending.now) arrival.now.event.now.body) meter.old meter.new }
{
    well_formed_is_alternating();
    configurations_after_events(arrival.object);
    placing_is_legal(arrival.object);
    let kept = keep_all(arrival.object, arrival.alloc, configs, arrival.event)?;
    if let Body::Invoke(call) = &arrival.event.body {
        let new = Open {
            process: arrival.event.process,
            at: arrival.at,
            call: *call,
            crashed: false,
        };
        let placing = Placing {
            object: arrival.object,
            pending: arrival.pending,
            new: &new,
        };
        return closure(&placing, arrival.alloc, kept, budget, nodes, meter);
    }
    if kept.len() > budget {
        return Ok(None);
    }
    Ok(Some(kept))
}

impl<O: SeqObject> Frontier<O> {
    /// How many configurations there are.
    pub fn len(&self) -> usize
        ensures { result ≡ length self.now }
    {
        self.configs.len()
    }

    /// The configuration at the place, with its node.
    pub fn get(&self, i: usize) -> Option<(&Config<O::State>, NodeId)>
        ensures found { IfSome result (λ p. slice_get self.now i ≡ Some (p.0.now, p.1)) }
        ensures past { IfNone result (length self.now ≤ i) }
    {
        match self.configs.get_index(i) {
            Some((config, node)) => Some((config, *node)),
            None => None,
        }
    }

    /// The frontier before any event: the start, with nothing placed, come by with the empty order.
    pub fn start(alloc: Global, object: &O, nodes: &mut Nodes) -> Result<Frontier<O>, OutOfMemory>
        ensures one { IfOk result (λ frontier. length frontier ≡ 1) }
        ensures exact { IfOk result (λ frontier. IsFrontier (O.starts object.now) (O.step object.now) [] frontier nodes.new) }
        ensures nodes { nodes.new ≡ nodes.old }
    {
        configurations_at_start(object);
        let mut configs = IndexMap::with_capacity(alloc, 1)?;
        match configs.insert(Config::new(object.start(alloc)), 0) {
            Ok(_) => Ok(Frontier { configs }),
            Err(_) => Err(OutOfMemory),
        }
    }

    /// The frontier after one more event, from one that holds exactly the configurations of the events so far.
    pub fn advance_all(
        &self,
        alloc: Global,
        object: &O,
        pending: &[Open],
        at: usize,
        event: &Event,
        budget: u32,
        nodes: &mut Nodes,
        meter: &mut Meter,
    ) -> Result<Step<O>, OutOfMemory>
        // Where the frontier holds exactly the configurations of a history, with these operations open, the answer speaks of that
        // history with the event behind it, which has to be well-formed.
        ensures next { IfOk result (λ step. (next : List ((O.State × List (ℕ × ReplyOf)) × ℕ)) → step ≡ Step.Next next → (functions : ItemOf → NameOf → Bool) (h : List EventOf)
            → IsNextEvent functions h pending.now at event.now → IsFrontier (O.starts object.now) (O.step object.now) h self.now nodes.old
            → IsFrontier (O.starts object.now) (O.step object.now) (with_event h event.now) next nodes.new) }
        ensures some { IfOk result (λ step. (next : List ((O.State × List (ℕ × ReplyOf)) × ℕ)) → step ≡ Step.Next next → (0 < length next) × (length next ≤ budget)) }
        ensures empty { IfOk result (λ step. step ≡ Step.Empty → (functions : ItemOf → NameOf → Bool) (h : List EventOf)
            → IsNextEvent functions h pending.now at event.now → IsFrontier (O.starts object.now) (O.step object.now) h self.now nodes.old
            → IsLinearizableBy (O.starts object.now) (O.step object.now) (with_event h event.now) → ⊥) }
        ensures over { IfOk result (λ step. step ≡ Step.Over → (functions : ItemOf → NameOf → Bool) (h : List EventOf)
            → IsNextEvent functions h pending.now at event.now → IsFrontier (O.starts object.now) (O.step object.now) h self.now nodes.old
            → IsOver (O.starts object.now) (O.step object.now) (with_event h event.now) budget) }
        // Nodes are only added; and none is where there is no next frontier.
        ensures grown { IsGrown nodes.old nodes.new }
        ensures kept { IfOk result (λ step. (step ≡ Step.Empty) ⊎ (step ≡ Step.Over) → nodes.new ≡ nodes.old) }
        ensures refused { OnErr result (nodes.new ≡ nodes.old) }
        ensures steps { meter.new.steps ≡ ticked meter.old.steps 1 }
        ensures tries { meter.new.tries ≤ meter.old.tries + tries_within budget (length pending.now) event.now.body }
        ensures scans { meter.new.scans ≡ meter.old.scans }
    {
        legal_orders_end(object);
        meter.tick_step();
        let count = nodes.len();
        let arrival = Arrival {
            object,
            alloc,
            pending,
            at,
            event,
        };
        match next_configs(&arrival, &self.configs, budget as usize, nodes, meter) {
            Ok(Some(configs)) => {
                if configs.is_empty() {
                    nodes.cut(count);
                    return Ok(Step::Empty);
                }
                Ok(Step::Next(Frontier { configs }))
            }
            Ok(None) => {
                nodes.cut(count);
                Ok(Step::Over)
            }
            Err(_) => {
                nodes.cut(count);
                Err(OutOfMemory)
            }
        }
    }
}
