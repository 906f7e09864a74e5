//! The engine that stands beside an object's frontiers.
ghost use Rattle.std.specs.Prelude.{◌≡◌, ◌≤◌, ◌*◌, ◌/◌, ◌⊎◌, ℕ, List, None, Some, IfOk, IfSome, IsSome, length, min, take};
ghost use Rattle.lin_events.specs.declared.events.Event.{Event as EventOf};
ghost use Rattle.lin_objects.specs.declared.kinds.Kind.{Kind as KindOf};
ghost use Rattle.lin_order.specs.Linearizable.{IsLegalOrderAs};
ghost use Rattle.lin_engines.specs.declared.ends.End.{End as EndOf};
ghost use Rattle.lin_engines.specs.Ends.{IsEndOf};
ghost use Rattle.lin_chain.specs.Chains.{IsBeside, IsDecided, mark_beside, told_beside};

use lin_engines::{End, Exact, Lane, Witness};
use lin_events::OutOfMemory;
use lin_order::Placed;
use std::alloc::Global;

/// The engine that stands beside an object's frontiers.
#[derive(Drop)]
pub(crate) enum Beside {
    Nothing,
    /// One that decides the object.
    Exact(Lane<Exact>),
    /// An order that goes on.
    Going(Lane<Witness>),
}

impl Beside {
    /// How the first so many events end, if it tells.
    pub(crate) fn told(&self, count: usize) -> Option<End>
        ensures is { result ≡ told_beside self.now count }
        ensures right { (kind : KindOf) (h : List EventOf) (budget : ℕ) → count ≡ length h → IsBeside kind h self.now → IfSome result (IsEndOf kind budget h) }
        ensures decided { (kind : KindOf) (h : List EventOf) → IsBeside kind h self.now → IfSome result IsDecided }
    {
        match self {
            Beside::Nothing => None,
            Beside::Exact(lane) => lane.told(count),
            Beside::Going(lane) => lane.told(count),
        }
    }

    /// The events from the place on are about to change.
    pub(crate) fn cut(&mut self, place: usize)
        ensures right { (kind : KindOf) (h edited : List EventOf) → IsBeside kind h self.old → take place h ≡ take place edited → IsBeside kind edited self.new }
        ensures back { (kind : KindOf) (h : List EventOf) → IsBeside kind h self.old → mark_beside self.new ≤ min (mark_beside self.old) place }
        ensures still { (kind : KindOf) (h : List EventOf) → IsBeside kind h self.old → mark_beside self.old ≤ place → mark_beside self.new ≡ mark_beside self.old }
        ensures near { (kind : KindOf) (h : List EventOf) → IsBeside kind h self.old → min (mark_beside self.old) (place / 64 * 64) ≤ mark_beside self.new }
    {
        match self {
            Beside::Nothing => {}
            Beside::Exact(lane) => lane.cut(place),
            Beside::Going(lane) => lane.cut(place),
        }
    }

    /// A legal order of the first so many events, if it tells that they have one.
    pub(crate) fn order(
        &self,
        alloc: Global,
        count: usize,
    ) -> Result<Option<Vec<Placed>>, OutOfMemory>
        requires right { (kind : KindOf) × (h : List EventOf) × IsBeside kind h self.now }
        ensures legal { IfOk result (λ found. IfSome found (λ order. (kind : KindOf) (h : List EventOf) → IsBeside kind h self.now → IsLegalOrderAs kind (take count h) order.items)) }
        ensures told { told_beside self.now count ≡ Some End.Alive → IfOk result IsSome }
    {
        match self {
            Beside::Exact(lane) if lane.is_alive(count) => Ok(Some(lane.order(alloc)?)),
            Beside::Going(lane) if lane.is_alive(count) => Ok(Some(lane.order(alloc)?)),
            _ => Ok(None),
        }
    }
}
