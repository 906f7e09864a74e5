//! Bags of items.
ghost use Rattle.std.specs.Prelude.{◌≡◌, ◌<◌, ◌≤◌, [], ◌∷◌, List, true, false, Contains, IfNone, IfOk, IfSome, OnErr, OnOk, length, remove};
ghost use Rattle.std.specs.List.{insert};
ghost use Rattle.std.specs.Cmp.Lexicographic.{pointwise, lists_equiv, lists_per};
ghost use Rattle.std.specs.Cmp.{partial_equiv_from_equiv};
ghost use Rattle.std.specs.Hash.{same_Alike};
ghost use Rattle.lin_events.specs.declared.items.Item.{Item as ItemOf};
ghost use Rattle.lin_events.specs.Items.{hashed, item_eq};
ghost use Rattle.lin_events.specs.Sameness.{item_eq_equiv, items_Decides};
ghost use Rattle.lin_objects.specs.Bags.{NeverFalls, bag_of, with_one, without_one};
ghost use Rattle.lin_objects.specs.inner.Taking.{IsAgainAt, IsFirstAt};

use lin_events::{Item, Items, OutOfMemory};
use std::alloc::Global;
use std::hash::{Hash, Hasher};
use std::marker::Model;

/// A bag of items, in which an item may be several times, kept as a list that never falls. Copies share it.
#[derive(Drop)]
pub struct IntBag {
    items: Items,
}

impl Model for IntBag {
    ghost Value = { List ItemOf };

    ghost view = { λ a. a.items };

    ghost invariant = { λ a. NeverFalls a.items };
}

impl PartialEq for IntBag {
    ghost eq = { λ v w. pointwise item_eq v w };

    ghost laws = { lists_per (partial_equiv_from_equiv item_eq_equiv) };

    fn eq(&self, other: &Self) -> bool {
        self.items == other.items
    }
}

impl Eq for IntBag {
    ghost laws = { lists_equiv item_eq_equiv };
}

impl Hash for IntBag {
    ghost hash_input = { hashed };

    ghost respects_eq = { (same_Alike hashed items_Decides).fed };

    fn hash<H: Hasher>(&self, state: &mut H) {
        self.items.hash(state);
    }
}

impl IntBag {
    /// The empty bag.
    pub fn new(alloc: Global) -> Self
        ensures { result ≡ [] }
    {
        IntBag {
            items: Items::new(alloc),
        }
    }

    /// The bag of the items, in any order and with repeats. In time that grows with the square of their number.
    pub fn from_vec(alloc: Global, items: Vec<Item>) -> Result<Self, OutOfMemory>
        ensures { IfOk result (λ bag. bag ≡ bag_of items.items) }
    {
        let mut bag = IntBag::new(alloc);
        for item in &items {
            bag.insert(*item)?;
        }
        Ok(bag)
    }

    /// The items, none above a later one.
    pub fn as_slice(&self) -> &[Item]
        ensures items { result.now ≡ self.now }
        ensures ordered { NeverFalls self.now }
    {
        self.items.as_slice()
    }

    /// An equal bag.
    pub fn copy(&self) -> Result<IntBag, OutOfMemory>
        ensures { IfOk result (λ copy. copy ≡ self.now) }
    {
        let items = self.items.copy()?;
        Ok(IntBag { items })
    }

    /// Puts an item in; refused, the bag is unchanged. Only where copies share the items are these copied.
    pub(crate) fn insert(&mut self, item: Item) -> Result<(), OutOfMemory>
        ensures ok { OnOk result (self.new ≡ with_one item self.old) }
        ensures all { OnOk result (self.new ≡ bag_of (item ∷ self.old)) }
        ensures err { OnErr result (self.new ≡ self.old) }
    {
        let at = place_for(self.items.as_slice(), item);
        self.items.insert(at, item)
    }

    /// A bag of all but the item at the place.
    pub(crate) fn without(&self, alloc: Global, at: usize) -> Result<IntBag, OutOfMemory>
        requires { at < length self.now }
        ensures { IfOk result (λ rest. rest ≡ remove self.now at) }
    {
        let mut rest = Vec::from_slice(alloc, self.as_slice())?;
        let _ = rest.remove(at);
        let items = Items::from_vec(alloc, rest)?;
        Ok(IntBag { items })
    }
}

/// Where the item is to be put: ahead of the first one that isn't below it.
fn place_for(items: &[Item], item: Item) -> usize
    ensures within { result ≤ length items.now }
    ensures put { with_one item items.now ≡ insert items.now result item }
{
    for at in 0..items.len() {
        if items[at] >= item {
            return at;
        }
    }
    items.len()
}

/// Where the item stands first, if it is there.
pub(crate) fn place_of(items: &[Item], item: Item) -> Option<usize>
    ensures some { IfSome result (λ at. (at < length items.now) × (remove items.now at ≡ without_one item items.now) × Contains items.now item) }
    ensures none { IfNone result (Contains items.now item → ⊥) }
{
    for at in 0..items.len() {
        if items[at] == item {
            return Some(at);
        }
    }
    None
}

/// Whether the item at the place doesn't stand ahead of it.
pub(crate) fn is_first(items: &[Item], at: usize) -> bool
    requires place { at < length items.now }
    requires ordered { NeverFalls items.now }
    ensures first { result ≡ true → IsFirstAt items.now at }
    ensures again { result ≡ false → IsAgainAt items.now at }
{
    at == 0 || items[at - 1] != items[at]
}
