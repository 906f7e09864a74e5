//! The states of objects.
ghost use Rattle.std.specs.Prelude.{◌≡◌, ◌∷◌, ◌++◌, ◌<◌, [], List, length, drop, IfOk, OnOk, OnErr};
ghost use Rattle.std.specs.Cmp.Lexicographic.{pointwise, lists_equiv, lists_per};
ghost use Rattle.std.specs.Cmp.{partial_equiv_from_equiv};
ghost use Rattle.std.specs.Hash.{same_Alike};
ghost use Rattle.lin_events.specs.declared.items.Item.{Item as ItemOf};
ghost use Rattle.lin_events.specs.Items.{hashed, item_eq};
ghost use Rattle.lin_events.specs.Sameness.{item_eq_equiv, items_Decides};

use crate::bags::IntBag;
use lin_events::{IntSet, Item, Items, OutOfMemory, Val};
use std::alloc::Global;
use std::hash::{Hash, Hasher};
use std::marker::Model;

/// Items that wait in a queue, the oldest first. Copies share them.
#[derive(Drop)]
pub struct IntQueue {
    items: Items,
}

impl Model for IntQueue {
    ghost Value = { List ItemOf };

    ghost view = { λ a. a.items };
}

impl PartialEq for IntQueue {
    ghost eq = { λ v w. pointwise item_eq v w };

    ghost laws = { lists_per (partial_equiv_from_equiv item_eq_equiv) };

    fn eq(&self, other: &Self) -> bool {
        self.items == other.items
    }
}

impl Eq for IntQueue {
    ghost laws = { lists_equiv item_eq_equiv };
}

impl Hash for IntQueue {
    ghost hash_input = { hashed };

    ghost respects_eq = { (same_Alike hashed items_Decides).fed };

    fn hash<H: Hasher>(&self, state: &mut H) {
        self.items.hash(state);
    }
}

impl IntQueue {
    /// The empty queue.
    pub fn new(alloc: Global) -> Self
        ensures { result ≡ [] }
    {
        IntQueue {
            items: Items::new(alloc),
        }
    }

    /// The queue of these items, the oldest first.
    pub fn from_vec(alloc: Global, items: Vec<Item>) -> Result<Self, OutOfMemory>
        ensures { IfOk result (λ queue. queue ≡ items.items) }
    {
        let items = Items::from_vec(alloc, items)?;
        Ok(IntQueue { items })
    }

    /// The items, the oldest first.
    pub fn as_slice(&self) -> &[Item]
        ensures { result.now ≡ self.now }
    {
        self.items.as_slice()
    }

    /// An equal queue.
    pub fn copy(&self) -> Result<IntQueue, OutOfMemory>
        ensures { IfOk result (λ copy. copy ≡ self.now) }
    {
        let items = self.items.copy()?;
        Ok(IntQueue { items })
    }

    /// Puts an item behind those that wait; refused, the queue is unchanged. Only where copies share the items are these copied.
    pub(crate) fn push(&mut self, item: Item) -> Result<(), OutOfMemory>
        ensures ok { OnOk result (self.new ≡ self.old ++ item ∷ []) }
        ensures err { OnErr result (self.new ≡ self.old) }
    {
        let count = self.items.as_slice().len();
        self.items.insert(count, item)
    }

    /// A queue of all but the oldest item, which shares the items.
    pub(crate) fn without_first(&self) -> Result<IntQueue, OutOfMemory>
        requires { 0 < length self.now }
        ensures { IfOk result (λ next. next ≡ drop 1 self.now) }
    {
        let items = self.items.without_first()?;
        Ok(IntQueue { items })
    }
}

/// Where an object stands.
#[derive(PartialEq, Eq, Hash, Drop)]
pub enum State {
    /// What a register holds.
    Value(Val),
    /// What waits in a queue.
    Queue(IntQueue),
    /// What a set holds.
    Members(IntSet),
    /// Whether a lock is held.
    Held(bool),
    /// What waits in an unordered queue.
    Bag(IntBag),
}

impl State {
    /// An equal state. Queues and sets, ordered or not, share their items, so it takes no memory.
    pub fn copy(&self, _alloc: Global) -> Result<State, OutOfMemory>
        ensures { IfOk result (λ copy. copy ≡ self.now) }
    {
        match self {
            State::Value(value) => Ok(State::Value(*value)),
            State::Queue(queue) => Ok(State::Queue(queue.copy()?)),
            State::Members(members) => Ok(State::Members(members.copy()?)),
            State::Held(held) => Ok(State::Held(*held)),
            State::Bag(bag) => Ok(State::Bag(bag.copy()?)),
        }
    }
}
