//! Back links with rounds: orders that share their beginnings, and into whose earlier rounds operations can still be put.
ghost use Rattle.std.specs.Prelude.{◌≡◌, ◌+◌, ◌-◌, ◌<◌, ◌∷◌, ◌++◌, [], ℕ, List, Option, Some, length, take, slice_get, reverse, IfOk, IfSome, IfNone, OnOk, OnErr};
ghost use Rattle.lin_order.specs.declared.placed.Placed.{Placed as PlacedOf};
ghost use Rattle.lin_frontier.specs.Nodes.{Spells};
ghost use Rattle.lin_members.specs.Rounds.{joined as joined_of, SpellsRounds};

use crate::chains::Chains;
use lin_events::OutOfMemory;
use lin_frontier::NodeId;
use lin_order::Placed;
use std::alloc::Global;
use std::marker::Model;

/// Orders in rounds: each node is its parent's rounds and one operation more, which is put last in a round, or begins a
/// round behind all others, or, where it names a round that there isn't, one ahead of the last. Node 0 is one empty round.
#[derive(Drop)]
pub struct RoundNodes {
    items: Vec<Link>,
}

/// A node: its parent, its operation, and where that is put. It is small, since each event may make several.
#[derive(Drop)]
struct Link {
    parent: u32,
    /// The number of the round and one more; 0 where the operation begins a round.
    spot: u32,
    placed: Placed,
}

impl Model for Link {
    ghost use Rattle.std.specs.Prelude.{ℕ, Option};
    ghost use Rattle.lin_order.specs.declared.placed.Placed.{Placed as PlacedOf};
    ghost use Rattle.lin_members.specs.inner.Searching.{round_at};

    ghost Value = { ℕ × (PlacedOf × Option ℕ) };

    ghost view = { λ l. (l.parent, (l.placed, round_at l.spot)) };
}

impl Link {
    /// None where a number is too large for a node.
    fn new(parent: NodeId, placed: Placed, round: Option<usize>) -> Option<Self>
        ensures { IfSome result (λ link. link ≡ (parent, (placed, round))) }
    {
        let spot = match round {
            Some(round) => round.checked_add(1)?,
            None => 0,
        };
        let Ok(parent) = u32::try_from(parent) else {
            return None;
        };
        let Ok(spot) = u32::try_from(spot) else {
            return None;
        };
        Some(Link {
            parent,
            spot,
            placed,
        })
    }

    fn parent(&self) -> NodeId
        ensures { result ≡ self.now.0 }
    {
        self.parent as usize
    }

    fn placed(&self) -> &Placed
        ensures { result.now ≡ self.now.1.0 }
    {
        &self.placed
    }

    fn round(&self) -> Option<usize>
        ensures { result ≡ self.now.1.1 }
    {
        (self.spot as usize).checked_sub(1)
    }
}

impl Model for RoundNodes {
    ghost use Rattle.std.specs.Prelude.{ℕ, List, Option};
    ghost use Rattle.lin_order.specs.declared.placed.Placed.{Placed as PlacedOf};

    ghost Value = { List (ℕ × (PlacedOf × Option ℕ)) };

    ghost view = { λ n. n.items.items };
}

impl RoundNodes {
    /// No node but the empty round.
    pub fn new(alloc: Global) -> Self
        ensures { result ≡ [] }
    {
        RoundNodes {
            items: Vec::new(alloc),
        }
    }

    /// How many nodes there are beside that.
    pub fn len(&self) -> usize
        ensures { result ≡ length self.now }
    {
        self.items.len()
    }

    /// Keeps the first `count` nodes; takes no memory.
    pub fn cut(&mut self, count: usize)
        ensures { self.new ≡ take count self.old }
    {
        self.items.truncate(count);
    }

    /// One node more: the parent's rounds, with the operation put in the round, or behind all where none is given, or ahead of
    /// the last one where there is no such round.
    #[inline(always)]
    pub fn push(
        &mut self,
        parent: NodeId,
        placed: Placed,
        round: Option<usize>,
    ) -> Result<NodeId, OutOfMemory>
        ensures ok { OnOk result (self.new ≡ self.old ++ (parent, (placed, round)) ∷ []) }
        ensures id { IfOk result (λ id. id ≡ length self.old + 1) }
        ensures err { OnErr result (self.new ≡ self.old) }
    {
        let Some(link) = Link::new(parent, placed, round) else {
            return Err(OutOfMemory);
        };
        match self.items.push(link) {
            Ok(()) => Ok(self.items.len()),
            Err(_) => Err(OutOfMemory),
        }
    }

    /// The node with the number; none for the root and for a number that is no node's.
    fn link(&self, id: NodeId) -> Option<&Link>
        ensures some { IfSome result (λ link. (0 < id) × (slice_get self.now (id - 1) ≡ Some link.now)) }
        ensures none { IfNone result (0 < id → length self.now < id) }
    {
        self.items.get(id.checked_sub(1)?)
    }

    /// What was put into the rounds of the node, last to first; for a number that is no node's, some list.
    fn entries(
        &self,
        alloc: Global,
        id: NodeId,
    ) -> Result<Vec<(Placed, Option<usize>)>, OutOfMemory>
        ensures { IfOk result (λ found. (entries : List (PlacedOf × Option ℕ)) → Spells self.now id entries → found.items ≡ reverse entries) }
    {
        let mut entries = Vec::new(alloc);
        let mut at = id;
        // There are no more of them than nodes.
        for _ in 0..self.len() {
            let Some(link) = self.link(at) else {
                break;
            };
            let last = link.placed();
            let placed = Placed {
                at: last.at,
                reply: last.reply.copy(alloc)?,
            };
            entries.push((placed, link.round()))?;
            at = link.parent();
        }
        Ok(entries)
    }

    /// The order that the node spells, round by round; for a number that is no node's, some list.
    ///
    /// Takes time and memory linear in the order, and its vectors grow a few times, however many rounds there are.
    pub fn order(&self, alloc: Global, id: NodeId) -> Result<Vec<Placed>, OutOfMemory>
        ensures { IfOk result (λ found. (rounds : List (List PlacedOf)) → SpellsRounds self.now id rounds → found.items ≡ joined_of rounds) }
    {
        let entries = self.entries(alloc, id)?;
        let rounds = Chains::of(alloc, entries)?;
        let order = rounds.join(alloc)?;
        Ok(order)
    }
}
