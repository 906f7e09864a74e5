//! Which items are known to be in a set, and since when.
ghost use Rattle.std.specs.Prelude.{◌≡◌, ◌<◌, ◌≤◌, ℕ, [], ◌∷◌, None, Some, Contains, IsTrue, OnOk, OnErr, false, length, take};
ghost use Rattle.lin_events.specs.declared.items.Item.{Item as ItemOf};
ghost use Rattle.lin_sets.specs.Endings.{AreBefore, AreBy, AreKept, AreLearned, AreListed, AreSame, known_in};

use crate::levels::has;
use crate::places::ItemPlaces;
use lin_events::{IntSet, Item, OutOfMemory};
use std::alloc::Global;

/// Where an operation returned, the first of those behind which a set has the item.
#[derive(Clone, Copy)]
pub(crate) struct Ending {
    item: Item,
    end: usize,
}

/// Where each item was known first to be in a set, for look-ups and in their order.
#[derive(Drop)]
pub(crate) struct Endings {
    known: ItemPlaces,
    listed: Vec<Ending>,
}

impl Endings {
    /// No item is known.
    pub(crate) fn new(alloc: Global) -> Endings
        ensures none { (item : ItemOf) → known_in result item ≡ None }
        ensures listed { AreListed result }
    {
        Endings {
            known: ItemPlaces::new(alloc),
            listed: Vec::new(alloc),
        }
    }

    /// Where the item was known first.
    pub(crate) fn get(&self, item: Item) -> Option<usize>
        ensures { result ≡ known_in self.now item }
    {
        self.known.get(item)
    }

    /// The item is known since the place, if it wasn't before. Refused, what is known stays.
    pub(crate) fn learn(&mut self, item: Item, end: usize) -> Result<(), OutOfMemory>
        ensures learned { OnOk result (AreLearned self.old self.new (item ∷ []) end) }
        ensures listed { AreListed self.old → AreBy end self.old → AreListed self.new }
        ensures by { AreBy end self.old → AreBy end self.new }
        ensures same { OnErr result (AreSame self.old self.new) }
    {
        if self.known.get(item).is_some() {
            return Ok(());
        }
        self.listed.reserve(1)?;
        self.known.list(item)?;
        self.known.reset(item, Some(end));
        self.listed.push_reserved(Ending { item, end });
        Ok(())
    }

    /// The items are. Refused, what is known stays, if all was known before the place.
    pub(crate) fn learn_all(&mut self, items: &[Item], end: usize) -> Result<(), OutOfMemory>
        ensures learned { OnOk result (AreLearned self.old self.new items.now end) }
        ensures listed { AreListed self.old → AreBy end self.old → AreListed self.new }
        ensures same { OnErr result (AreListed self.old → AreBefore end self.old → AreSame self.old self.new) }
    {
        let learned = self.learn_some(items, end);
        if learned.is_err() {
            self.forget(end);
        }
        learned
    }

    /// The items are, or, where memory is refused, those ahead of one of them.
    fn learn_some(&mut self, items: &[Item], end: usize) -> Result<(), OutOfMemory>
        ensures learned { OnOk result (AreLearned self.old self.new items.now end) }
        ensures some { (count : ℕ) × AreLearned self.old self.new (take count items.now) end }
        ensures listed { AreListed self.old → AreBy end self.old → AreListed self.new }
    {
        for item in items {
            self.learn(*item, end)?;
        }
        Ok(())
    }

    /// Whether the set has all items that were known before the place, and not before the first one.
    pub(crate) fn are_in(&self, set: &IntSet, from: usize, place: usize) -> bool
        ensures all { IsTrue result → AreListed self.now → (item : ItemOf) (end : ℕ) → known_in self.now item ≡ Some end → from ≤ end → end < place → Contains set.now item }
        ensures missing { result ≡ false → AreListed self.now → (item : ItemOf) × (end : ℕ) × (known_in self.now item ≡ Some end) × (end < place) × (Contains set.now item → ⊥) }
    {
        let mut at = self.listed.len();
        while 0 < at {
            at -= 1;
            let ending = self.listed[at];
            if ending.end < from {
                return true;
            }
            if ending.end < place && !has(set, ending.item) {
                return false;
            }
        }
        true
    }

    /// No item is known since the place, or later, any more.
    pub(crate) fn forget(&mut self, place: usize)
        ensures listed { AreListed self.old → AreListed self.new }
        ensures kept { AreListed self.old → AreKept self.old self.new place }
        ensures before { AreListed self.old → AreBefore place self.new }
    {
        while self.forget_last(place) {}
    }

    /// Forgets the item that was known last, if that was at the place or later; answers whether it was.
    fn forget_last(&mut self, place: usize) -> bool
        ensures fewer { IsTrue result → length self.new.listed.items < length self.old.listed.items }
        ensures listed { IsTrue result → AreListed self.old → AreListed self.new }
        ensures kept { IsTrue result → AreListed self.old → AreKept self.old self.new place }
        ensures before { result ≡ false → AreListed self.old → AreBefore place self.old }
        ensures stays { result ≡ false → self.new ≡ self.old }
    {
        let count = self.listed.len();
        if count == 0 {
            return false;
        }
        let last = self.listed[count - 1];
        if last.end < place {
            return false;
        }
        self.listed.truncate(count - 1);
        self.known.reset(last.item, None);
        true
    }
}
