//! What reads found, one set inside the next.
ghost use Rattle.std.specs.Prelude.{◌≡◌, ◌<◌, ◌≤◌, ◌+◌, ◌⊎◌, List, AllPairs, Contains, IfNone, IfOk, IfSome, OnErr, IsTrue, false, length, ◌↔◌};
ghost use Rattle.lin_events.specs.declared.items.Item.{Item as ItemOf};
ghost use Rattle.lin_events.specs.Items.{item_cmp};
ghost use Rattle.lin_lists.specs.Sets.{IsRising};
ghost use Rattle.lin_sets.specs.Levels.{AreSameLevels, AreWithout, IsBelow, IsInside, IsOutside, IsPassed, IsPlace, IsRank, IsRanked, Stand};
ghost use Rattle.lin_sets.specs.declared.levels.Rank.TheVariants as Ranked;

use crate::changes::Change;
use lin_events::{IntSet, Item, OutOfMemory, sets};
use std::cmp::Ordering;

/// How one set stands to another.
pub(crate) enum Order {
    /// Each of them has what the other lacks.
    Apart,
    Same,
    /// It is inside the other.
    Below,
    /// The other is inside it.
    Above,
}

/// Where a set belongs among those that are one inside the next.
pub(crate) enum Rank {
    /// It stands apart from one of them.
    Apart,
    /// It is one of them.
    There,
    /// At this place.
    At(usize),
}

/// Whether the item is a member.
pub(crate) fn has(set: &IntSet, item: Item) -> bool
    ensures { IsTrue result ↔ Contains set.now item }
{
    match set.as_slice().binary_search(&item) {
        Ok(_) => true,
        Err(_) => false,
    }
}

/// How far two rising lists were compared.
#[derive(Drop)]
struct Pass {
    /// How many of the one were passed, and how many of the other.
    at: usize,
    to: usize,
    /// Whether the one has more, and whether it lacks something.
    more: bool,
    lacks: bool,
}

impl Pass {
    /// Whether an item of each is left.
    fn is_on(&self, items: &[Item], other: &[Item]) -> bool
        ensures on { IsTrue result → (self.now.at < length items.now) × (self.now.to < length other.now) }
        ensures off { result ≡ false → (length items.now ≤ self.now.at) ⊎ (length other.now ≤ self.now.to) }
    {
        self.at < items.len() && self.to < other.len()
    }

    /// One item further, or two that are the same.
    fn step(&mut self, items: &[Item], other: &[Item])
        requires here { self.old.at < length items.now }
        requires there { self.old.to < length other.now }
        ensures passed { IsRising item_cmp items.now → IsRising item_cmp other.now → IsPassed items.now other.now self.old → IsPassed items.now other.now self.new }
        ensures further { self.old.at + self.old.to < self.new.at + self.new.to }
        ensures within { (self.new.at ≤ length items.now) × (self.new.to ≤ length other.now) }
    {
        match items[self.at].cmp(&other[self.to]) {
            Ordering::Less => {
                self.more = true;
                self.at += 1;
            }
            Ordering::Equal => {
                self.at += 1;
                self.to += 1;
            }
            Ordering::Greater => {
                self.lacks = true;
                self.to += 1;
            }
        }
    }
}

/// Whether something was seen, or an item is left.
fn is_any(seen: bool, items: &[Item], at: usize) -> bool
    ensures any { IsTrue result → IsTrue seen ⊎ (at < length items.now) }
    ensures none { result ≡ false → (seen ≡ false) × (length items.now ≤ at) }
{
    seen || at < items.len()
}

/// Whether the one set has more than the other, and whether it lacks something, by one pass through both.
fn differences(set: &IntSet, other: &IntSet) -> (bool, bool)
    ensures more { IsTrue result.0 → IsOutside set.now other.now }
    ensures no_more { result.0 ≡ false → IsInside set.now other.now }
    ensures lacks { IsTrue result.1 → IsOutside other.now set.now }
    ensures lacks_none { result.1 ≡ false → IsInside other.now set.now }
{
    let items = set.as_slice();
    let others = other.as_slice();
    let mut pass = Pass {
        at: 0,
        to: 0,
        more: false,
        lacks: false,
    };
    while pass.is_on(items, others) {
        pass.step(items, others);
    }
    (
        is_any(pass.more, items, pass.at),
        is_any(pass.lacks, others, pass.to),
    )
}

/// How the sets stand to each other.
fn compare(set: &IntSet, other: &IntSet) -> Order
    ensures { Stand set.now other.now result }
{
    sets();
    let _set = set.as_slice();
    let _other = other.as_slice();
    let (more, lacks) = differences(set, other);
    if more {
        if lacks { Order::Apart } else { Order::Above }
    } else if lacks {
        Order::Below
    } else {
        Order::Same
    }
}

/// Where the set belongs.
pub(crate) fn rank_of(levels: &[IntSet], set: &IntSet) -> Rank
    ensures { IsRank levels.now set.now result }
{
    let mut place = levels.len();
    while 0 < place {
        match compare(set, &levels[place - 1]) {
            Order::Apart => return Rank::Apart,
            Order::Same => return Rank::There,
            Order::Above => return Rank::At(place),
            Order::Below => {}
        }
        place -= 1;
    }
    Rank::At(0)
}

/// Puts the set among these, unless it stands apart from one of them. Tells what changed.
pub(crate) fn put_level(
    levels: &mut Vec<IntSet>,
    set: &IntSet,
) -> Result<Option<Change>, OutOfMemory>
    ensures ranked { IfOk result (λ change. IfSome change (IsRanked levels.old.items levels.new.items set.now)) }
    ensures apart { IfOk result (λ change. IfNone change (IsRank levels.old.items set.now Ranked.Apart)) }
    ensures stays { IfOk result (λ change. IfNone change (levels.new ≡ levels.old)) }
    ensures refused { OnErr result (levels.new.items ≡ levels.old.items) }
{
    match rank_of(levels.as_slice(), set) {
        Rank::Apart => Ok(None),
        Rank::There => Ok(Some(Change::FoundAgain)),
        Rank::At(place) => {
            let change = Change::Found(set.copy()?);
            levels.insert(place, set.copy()?)?;
            Ok(Some(change))
        }
    }
}

/// Where the set is one of these.
fn place_of(levels: &[IntSet], set: &IntSet) -> Option<usize>
    ensures { IsPlace levels.now set.now result }
{
    let mut place = levels.len();
    while 0 < place {
        place -= 1;
        if levels[place] == *set {
            return Some(place);
        }
    }
    None
}

/// Takes the set out of these.
pub(crate) fn remove_level(levels: &mut Vec<IntSet>, set: &IntSet)
    ensures { AllPairs IsBelow levels.old.items → AreWithout levels.old.items levels.new.items set.now }
{
    if let Some(place) = place_of(levels.as_slice(), set) {
        levels.remove(place);
    }
}

/// Takes out again what was put among these.
pub(crate) fn take_level_back(levels: &mut Vec<IntSet>, change: &Change)
    ensures { (before : List (List ItemOf)) (s : List ItemOf) → AllPairs IsBelow before → IsRanked before levels.old.items s change.now → AreSameLevels before levels.new.items }
{
    if let Change::Found(set) = change {
        remove_level(levels, set);
    }
}
