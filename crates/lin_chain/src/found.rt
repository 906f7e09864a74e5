//! What searches found of an object's events, and checkers passed.
ghost use Rattle.std.specs.Prelude.{◌≡◌, ◌≤◌, ℕ, List, None, Some, IfOk, IfSome, IsSome, IsTrue, length, take};
ghost use Rattle.lin_events.specs.declared.events.Event.{Event as EventOf};
ghost use Rattle.lin_objects.specs.declared.kinds.Kind.{Kind as KindOf};
ghost use Rattle.lin_order.specs.Linearizable.{IsLegalOrderAs};
ghost use Rattle.lin_engines.specs.Ends.{IsEndOf};
ghost use Rattle.lin_chain.specs.Chains.{IsDecided, IsFound, told_by_found};

use lin_engines::{End, copied};
use lin_events::OutOfMemory;
use lin_order::Placed;
use std::alloc::Global;

/// What searches found of the first events of an object, in places among its events.
#[derive(Drop)]
pub(crate) enum Found {
    Nothing,
    /// A legal order of so many first ones. It doesn't go on.
    Order(Vec<Placed>, usize),
    /// Those up to and with this one have none, those before it have one.
    Failure(usize),
}

impl Found {
    /// How the first so many events end, if that was found.
    pub(crate) fn told(&self, count: usize) -> Option<End>
        ensures is { result ≡ told_by_found self.now count }
        ensures right { (kind : KindOf) (h : List EventOf) (budget : ℕ) → count ≡ length h → IsFound kind h self.now → IfSome result (IsEndOf kind budget h) }
        ensures decided { IfSome result IsDecided }
    {
        match self {
            Found::Order(_, of) if *of == count => Some(End::Alive),
            Found::Failure(at) if *at < count => Some(End::Dead(*at)),
            _ => None,
        }
    }

    /// The events from the place on are about to change.
    pub(crate) fn cut(&mut self, place: usize)
        ensures right { (kind : KindOf) (h edited : List EventOf) → IsFound kind h self.old → take place h ≡ take place edited → IsFound kind edited self.new }
    {
        if !self.stays(place) {
            *self = Found::Nothing;
        }
    }

    /// Whether it was found of events ahead of the place.
    fn stays(&self, place: usize) -> bool
        ensures { IsTrue result → (kind : KindOf) (h edited : List EventOf) → IsFound kind h self.now → take place h ≡ take place edited → IsFound kind edited self.now }
    {
        match self {
            Found::Nothing => true,
            Found::Order(_, of) => *of <= place,
            Found::Failure(at) => *at < place,
        }
    }

    /// The order, if one of the first so many events was found.
    pub(crate) fn order(
        &self,
        alloc: Global,
        count: usize,
    ) -> Result<Option<Vec<Placed>>, OutOfMemory>
        ensures legal { IfOk result (λ found. IfSome found (λ order. (kind : KindOf) (h : List EventOf) → IsFound kind h self.now → IsLegalOrderAs kind (take count h) order.items)) }
        ensures told { told_by_found self.now count ≡ Some End.Alive → IfOk result IsSome }
    {
        match self {
            Found::Order(order, of) if *of == count => Ok(Some(copied(alloc, order)?)),
            _ => Ok(None),
        }
    }
}
