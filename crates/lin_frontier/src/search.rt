//! All that steps reach from some starts, in a map that is its own work list.
ghost use Rattle.std.specs.Prelude.{◌≡◌, ◌≤◌, ◌*◌, ◌++◌, ◌∷◌, ℕ, true, All, Contains, IfOk, IfSome, IfNone, OnOk};
ghost use Rattle.indexmap.specs.IndexMap.{index_map_len};
ghost use Rattle.lin_order.specs.declared.placed.Placed.{Placed as PlacedOf};
ghost use Rattle.lin_frontier.specs.Nodes.{IsGrown};
ghost use Rattle.lin_frontier.specs.Walks.{IsAbsorbed, IsBeyond, IsClosure, IsTriedAtMost};

use crate::nodes::{NodeId, Nodes};
use indexmap::IndexMap;
use lin_events::{Meter, OutOfMemory};
use lin_order::Placed;
use std::alloc::Global;
use std::hash::Hash;

/// Steps that each place one operation, finitely many from each state.
pub trait Steps {
    type State: Eq + Hash + Drop;

    /// From the one state, a step that places the operation leads to the other.
    ghost step: { Self → Self.State → PlacedOf → Self.State → Type 0 };

    /// How many calls may be tried in one state.
    ghost most: { Self → ℕ };

    /// The states that a step leads to, with the operations placed.
    fn outcomes(
        &self,
        alloc: Global,
        state: &Self::State,
        meter: &mut Meter,
    ) -> Result<Vec<(Self::State, Placed)>, OutOfMemory>
        ensures sound { IfOk result (λ out. All (λ x. step self.now state.now x.1 x.0) out.items) }
        ensures complete { IfOk result (λ out. (next : Self.State) (p : PlacedOf) → step self.now state.now p next → Contains out.items (next, p)) }
        ensures tried { IsTriedAtMost (most self.now) meter.old meter.new };

    /// States that compare alike are the same state.
    ghost same: { (x y : Self.State) → Self.State.eq x y ≡ true → x ≡ y };
}

/// Takes each of `out` into the map that isn't there, with a node under the parent.
fn absorb<O: Steps>(
    found: &mut IndexMap<O::State, NodeId>,
    nodes: &mut Nodes,
    out: Vec<(O::State, Placed)>,
    parent: NodeId,
) -> Result<(), OutOfMemory>
    ensures grown { IsGrown nodes.old nodes.new }
    ensures taken { OnOk result (IsAbsorbed out.items parent found.old.entries found.new.entries nodes.new) }
{
    let mut rest = out;
    while let Some((state, placed)) = rest.pop() {
        if !found.contains_key(&state) {
            let id = nodes.push(parent, placed)?;
            match found.insert(state, id) {
                Ok(_) => {}
                Err(_) => return Err(OutOfMemory),
            }
        }
    }
    Ok(())
}

/// All that is reached from the starts, each once with its node, or `None` where that is more than the budget.
///
/// The map grows while it is worked off from its first entry to its last.
pub fn closure<O: Steps>(
    object: &O,
    alloc: Global,
    starts: IndexMap<O::State, NodeId>,
    budget: usize,
    nodes: &mut Nodes,
    meter: &mut Meter,
) -> Result<Option<IndexMap<O::State, NodeId>>, OutOfMemory>
    ensures grown { IsGrown nodes.old nodes.new }
    ensures closure { IfOk result (λ found. IfSome found (λ map. IsClosure (O.step object.now) starts.entries nodes.old nodes.new map.entries)) }
    ensures small { IfOk result (λ found. IfSome found (λ map. index_map_len map ≤ budget)) }
    ensures over { IfOk result (λ found. IfNone found (IsBeyond (O.step object.now) starts.entries budget)) }
    ensures tried { IsTriedAtMost (budget * O.most object.now) meter.old meter.new }
{
    let mut found = starts;
    if found.len() > budget {
        return Ok(None);
    }
    let mut at = 0;
    while let Some((state, node)) = found.get_index(at) {
        let parent = *node;
        let out = object.outcomes(alloc, state, meter)?;
        absorb::<O>(&mut found, nodes, out, parent)?;
        if found.len() > budget {
            return Ok(None);
        }
        at += 1;
    }
    Ok(Some(found))
}
