//! What a read found beyond an earlier one.
ghost use Rattle.std.specs.Prelude.{◌≡◌, ◌<◌, IfOk, IfSome, IsTrue, length, slice_index_or};
ghost use Rattle.lin_events.specs.declared.items.Item.{Item as ItemOf};
ghost use Rattle.lin_sets.specs.News.{AreBeyond, IsNews};

use lin_events::{IntSet, Item, OutOfMemory};
use std::alloc::Global;

/// How many of the latest reads are looked at for an earlier one.
const LATEST: usize = 64;

/// What a read found beyond an earlier one. So what both found isn't looked up again.
#[derive(Drop)]
pub(crate) struct News {
    /// Where the earlier one was invoked, which found all that was known before.
    pub(crate) since: usize,
    pub(crate) items: Vec<Item>,
}

/// Whether the item is there.
fn is_at(items: &[Item], at: usize, item: Item) -> bool
    ensures { IsTrue result → (at < length items.now) × ((d : ItemOf) → slice_index_or items.now at d ≡ item) }
{
    at < items.len() && items[at] == item
}

/// The items that the other ones lack, if these are among them, in the same order.
fn beyond(alloc: Global, items: &[Item], other: &[Item]) -> Result<Option<Vec<Item>>, OutOfMemory>
    ensures { IfOk result (λ more. IfSome more (λ more. AreBeyond items.now other.now more.items)) }
{
    let mut more = Vec::new(alloc);
    let mut met: usize = 0;
    for item in items {
        if is_at(other, met, *item) {
            met += 1;
            continue;
        }
        more.push(*item)?;
    }
    if met < other.len() {
        return Ok(None);
    }
    Ok(Some(more))
}

/// The last one of the latest reads that didn't find more items than so many.
fn earlier(reads: &[(usize, IntSet)], count: usize) -> Option<usize>
    ensures { IfSome result (λ at. at < length reads.now) }
{
    let end = reads.len();
    let mut at = end;
    while 0 < at && end - at < LATEST {
        at -= 1;
        if reads[at].1.as_slice().len() <= count {
            return Some(at);
        }
    }
    None
}

/// What a read that found the items found beyond one of these, or beyond nothing.
pub(crate) fn news_of(
    alloc: Global,
    reads: &[(usize, IntSet)],
    items: &[Item],
) -> Result<News, OutOfMemory>
    ensures { IfOk result (λ news. IsNews reads.now items.now news) }
{
    if let Some(at) = earlier(reads, items.len()) {
        let read = &reads[at];
        if let Some(more) = beyond(alloc, items, read.1.as_slice())? {
            return Ok(News {
                since: read.0,
                items: more,
            });
        }
    }
    let items = Vec::from_slice(alloc, items)?;
    Ok(News { since: 0, items })
}
