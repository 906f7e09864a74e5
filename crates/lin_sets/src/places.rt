//! Places of events that items have.
ghost use Rattle.std.specs.Prelude.{◌≡◌, ◌↔◌, ◌<◌, ◌≤◌, ℕ, None, Some, IsTrue, OnOk, OnErr, false};
ghost use Rattle.lin_events.specs.declared.items.Item.{Item as ItemOf};
ghost use Rattle.lin_sets.specs.Places.{IsLeft, IsListed, IsListing, IsLowered, IsNoted, IsPut, place_in};

use lin_events::{Item, OutOfMemory};
use std::alloc::Global;
use std::collections::HashMap;
use std::marker::Model;

/// The place that each item has, if it has one.
#[derive(Drop)]
pub(crate) struct ItemPlaces {
    listed: HashMap<Item, Option<usize>>,
}

impl Model for ItemPlaces {
    ghost use Rattle.std.specs.Prelude.{ℕ, List, Option};
    ghost use Rattle.lin_events.specs.declared.items.Item.{Item as ItemOf};

    ghost Value = { List (ItemOf × Option ℕ) };

    ghost view = { λ p. p.listed.entries };
}

impl ItemPlaces {
    /// No item has one.
    pub(crate) fn new(alloc: Global) -> ItemPlaces
        ensures { (item : ItemOf) → place_in result item ≡ None }
    {
        ItemPlaces {
            listed: HashMap::new(alloc),
        }
    }

    pub(crate) fn get(&self, item: Item) -> Option<usize>
        ensures { result ≡ place_in self.now item }
    {
        match self.listed.get(&item) {
            Some(place) => *place,
            None => None,
        }
    }

    /// The item has this place, or none, from now on.
    pub(crate) fn put(&mut self, item: Item, place: Option<usize>) -> Result<(), OutOfMemory>
        ensures ok { OnOk result (IsPut self.old self.new item place) }
        ensures err { OnErr result (self.new ≡ self.old) }
    {
        match self.listed.insert(item, place) {
            Ok(_) => Ok(()),
            Err(_) => Err(OutOfMemory),
        }
    }

    /// Lists the item, without a place if it isn't listed yet.
    pub(crate) fn list(&mut self, item: Item) -> Result<(), OutOfMemory>
        ensures same { (other : ItemOf) → place_in self.new other ≡ place_in self.old other }
        ensures listed { OnOk result (IsListing self.old self.new item) }
        ensures kept { (other : ItemOf) → IsListed self.old other → IsListed self.new other }
    {
        if self.listed.get(&item).is_some() {
            return Ok(());
        }
        self.put(item, None)
    }

    /// The same of an item that is listed, which takes no memory.
    pub(crate) fn reset(&mut self, item: Item, place: Option<usize>)
        ensures { IsListed self.old item → IsPut self.old self.new item place }
    {
        if let Some(listed) = self.listed.get_mut(&item) {
            *listed = place;
        }
    }

    /// The item, which is listed, has this place from now on, if it had none.
    pub(crate) fn note(&mut self, item: Item, place: usize)
        ensures { IsListed self.old item → IsNoted self.old self.new item place }
    {
        if self.get(item).is_none() {
            self.reset(item, Some(place));
        }
    }

    /// The item has no place any more, if it is this one.
    pub(crate) fn leave(&mut self, item: Item, place: usize)
        ensures { IsLeft self.old self.new item place }
    {
        let found = self.get(item);
        if is_place(found, place) {
            self.reset(item, None);
        }
    }

    /// The item, which is listed, has this place from now on, if it has none or a later one.
    pub(crate) fn lower(&mut self, item: Item, place: usize)
        ensures { IsLowered self.old self.new item place }
    {
        let found = self.get(item);
        if !is_before(found, place) {
            self.reset(item, Some(place));
        }
    }
}

/// Whether it is the place.
fn is_place(found: Option<usize>, place: usize) -> bool
    ensures { IsTrue result ↔ (found ≡ Some place) }
{
    match found {
        Some(found) => found == place,
        None => false,
    }
}

/// Whether it is a place ahead of the other.
fn is_before(found: Option<usize>, place: usize) -> bool
    ensures before { IsTrue result → (first : ℕ) × (found ≡ Some first) × (first < place) }
    ensures not_before { result ≡ false → (first : ℕ) → found ≡ Some first → place ≤ first }
{
    match found {
        Some(found) => found < place,
        None => false,
    }
}
