//! Back links: how each configuration was come by.
ghost use Rattle.std.specs.Prelude.{◌≡◌, ◌+◌, ◌-◌, ◌<◌, ◌∷◌, ◌++◌, [], List, Some, length, take, slice_get, IfOk, IfSome, IfNone, OnOk, OnErr};
ghost use Rattle.lin_order.specs.declared.placed.Placed.{Placed as PlacedOf};
ghost use Rattle.lin_frontier.specs.Nodes.{Spells};

use lin_events::{OutOfMemory, Reply};
use lin_order::Placed;
use std::alloc::Global;
use std::marker::Model;

/// The number of a node. Node 0 is the empty order.
pub type NodeId = usize;

/// Orders that share their beginnings: each node is its parent's order and one operation more.
#[derive(Drop)]
pub struct Nodes {
    items: Vec<(usize, Placed)>,
}

impl Model for Nodes {
    ghost use Rattle.std.specs.Prelude.{ℕ, List};
    ghost use Rattle.lin_order.specs.declared.placed.Placed.{Placed as PlacedOf};

    ghost Value = { List (ℕ × PlacedOf) };

    ghost view = { λ n. n.items.items };
}

impl Nodes {
    /// No node but the empty order.
    pub fn new(alloc: Global) -> Self
        ensures { result ≡ [] }
    {
        Nodes {
            items: Vec::new(alloc),
        }
    }

    /// How many nodes there are beside the empty order.
    pub fn len(&self) -> usize
        ensures { result ≡ length self.now }
    {
        self.items.len()
    }

    /// Keeps the first `count` nodes; takes no memory.
    pub fn cut(&mut self, count: usize)
        ensures { self.new ≡ take count self.old }
    {
        self.items.truncate(count);
    }

    /// One node more: the parent's order and this operation.
    pub fn push(&mut self, parent: NodeId, placed: Placed) -> Result<NodeId, OutOfMemory>
        ensures ok { OnOk result (self.new ≡ self.old ++ (parent, placed) ∷ []) }
        ensures id { IfOk result (λ id. id ≡ length self.old + 1) }
        ensures err { OnErr result (self.new ≡ self.old) }
    {
        match self.items.push((parent, placed)) {
            Ok(()) => Ok(self.items.len()),
            Err(_) => Err(OutOfMemory),
        }
    }

    /// The parent of the node, and the operation that it adds; none for the root and for a number that is no node's.
    fn link(&self, id: NodeId) -> Option<(NodeId, &Placed)>
        ensures some { IfSome result (λ link. (0 < id) × (slice_get self.now (id - 1) ≡ Some (link.0, link.1.now))) }
        ensures none { IfNone result (0 < id → length self.now < id) }
    {
        let (parent, placed) = self.items.get(id.checked_sub(1)?)?;
        Some((*parent, placed))
    }

    /// The order that the node spells; for a number that is no node's, some list.
    ///
    /// Takes time and memory linear in the order.
    pub fn order(&self, alloc: Global, id: NodeId) -> Result<Vec<Placed>, OutOfMemory>
        ensures { IfOk result (λ found. (order : List PlacedOf) → Spells self.now id order → found.items ≡ order) }
    {
        let mut order = Vec::new(alloc);
        let mut at = id;
        // An order has no more operations than there are nodes.
        for _ in 0..self.len() {
            let Some((parent, last)) = self.link(at) else {
                break;
            };
            let reply = last.reply.copy(alloc)?;
            order.push(Placed { at: last.at, reply })?;
            at = parent;
        }
        order.reverse();
        Ok(order)
    }
}
