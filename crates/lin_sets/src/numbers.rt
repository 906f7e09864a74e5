//! Numbers that items have.
ghost use Rattle.std.specs.Prelude.{◌≡◌, Contains, IfOk, OnOk, Some, if◌then◌else◌};
ghost use Rattle.lin_events.specs.declared.items.Item.{Item as ItemOf};
ghost use Rattle.lin_events.specs.Items.{item_eq};
ghost use Rattle.lin_sets.specs.Points.{AreFirst, AreLevels, IsLatest, number_of};

use lin_events::{IntSet, Item, OutOfMemory};
use std::alloc::Global;
use std::collections::HashMap;

/// The item has this number from now on.
fn put(numbers: &mut HashMap<Item, usize>, item: Item, number: usize) -> Result<(), OutOfMemory>
    ensures { OnOk result ((other : ItemOf) → number_of numbers.new.entries other ≡ (if item_eq item other then Some number else number_of numbers.old.entries other)) }
{
    numbers.insert(item, number)?;
    Ok(())
}

/// The items have.
fn put_all(
    numbers: &mut HashMap<Item, usize>,
    items: &[Item],
    number: usize,
) -> Result<(), OutOfMemory>
    ensures those { OnOk result ((n : ItemOf) → Contains items.now n → number_of numbers.new.entries n ≡ Some number) }
    ensures others { OnOk result ((n : ItemOf) → (Contains items.now n → ⊥) → number_of numbers.new.entries n ≡ number_of numbers.old.entries n) }
{
    for item in items {
        put(numbers, *item, number)?;
    }
    Ok(())
}

/// The place of the first add of each item.
pub(crate) fn first_adds(
    alloc: Global,
    adds: &[Option<Item>],
) -> Result<HashMap<Item, usize>, OutOfMemory>
    ensures { IfOk result (λ first. AreFirst adds.now first.entries) }
{
    let mut first = HashMap::new(alloc);
    let mut at = adds.len();
    while 0 < at {
        if let Some(item) = adds[at - 1] {
            put(&mut first, item, at - 1)?;
        }
        at -= 1;
    }
    Ok(first)
}

/// How many reads come ahead of the first one that found each item.
pub(crate) fn levels_of(
    alloc: Global,
    reads: &[(usize, IntSet)],
) -> Result<HashMap<Item, usize>, OutOfMemory>
    ensures { IfOk result (λ levels. AreLevels reads.now levels.entries) }
{
    let mut levels = HashMap::new(alloc);
    let mut at = reads.len();
    while 0 < at {
        at -= 1;
        put_all(&mut levels, reads[at].1.as_slice(), at)?;
    }
    Ok(levels)
}

/// The latest of the place and the first adds of the items.
pub(crate) fn latest(first: &HashMap<Item, usize>, from: usize, items: &[Item]) -> usize
    ensures { IsLatest first.now.entries from items.now result }
{
    let mut latest = from;
    for item in items {
        if let Some(at) = first.get(item) {
            latest = latest.max(*at);
        }
    }
    latest
}
