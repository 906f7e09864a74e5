//! How two sets differ.
ghost use Rattle.std.specs.Prelude.{◌≡◌, ◌++◌, ◌+◌, codes, length, IfOk, OnOk};
ghost use Rattle.std.specs.List.{list_any};
ghost use Rattle.lin_events.specs.Items.{item_cmp, item_eq};
ghost use Rattle.lin_lists.specs.Sets.{IsRising};
ghost use Rattle.lin_possibilities.specs.Ranks.{lacked};
ghost use Rattle.lin_possibilities.specs.Words.{difference_text, items_words};

use crate::words::{Extent, put_items_words};
use lin_events::{IntSet, Item};
use lin_names::Names;
use std::alloc::{AllocError, Global};

/// What the one set has besides the other, and what it lacks of it.
#[derive(Drop)]
pub(crate) struct Difference {
    pub(crate) more: Vec<Item>,
    pub(crate) lacking: Vec<Item>,
}

/// Whether the item is among the rising ones.
fn has(items: &[Item], item: Item) -> bool
    requires { IsRising item_cmp items.now }
    ensures { result ≡ list_any (item_eq item) items.now }
{
    match items.binary_search(&item) {
        Ok(_) => true,
        Err(_) => false,
    }
}

/// The items of the one set that the other lacks.
fn lacked_by(alloc: Global, set: &IntSet, other: &IntSet) -> Result<Vec<Item>, AllocError>
    ensures { IfOk result (λ items. items.items ≡ lacked other.now set.now) }
{
    let others = other.as_slice();
    set.as_slice()
        .iter()
        .copied()
        .filter(|item| !has(others, *item))
        .collect(alloc)
}

impl Difference {
    /// How the set differs from the other.
    pub(crate) fn of(alloc: Global, set: &IntSet, other: &IntSet) -> Result<Difference, AllocError>
        ensures { IfOk result (λ difference. (difference.more.items ≡ lacked other.now set.now) × (difference.lacking.items ≡ lacked set.now other.now)) }
    {
        let more = lacked_by(alloc, set, other)?;
        let lacking = lacked_by(alloc, other, set)?;
        Ok(Difference { more, lacking })
    }

    /// How many items only one of the sets has.
    pub(crate) fn count(&self) -> usize
        ensures { result ≡ length self.now.more.items + length self.now.lacking.items }
    {
        self.more.len() + self.lacking.len()
    }

    /// Puts the words last.
    pub(crate) fn put(
        &self,
        words: &mut Vec<u8>,
        extent: Extent,
        names: &Names,
    ) -> Result<(), AllocError>
        ensures { OnOk result (words.new.items ≡ words.old.items ++ difference_text extent names.now self.now.more.items self.now.lacking.items) }
    {
        put_difference(
            words,
            extent,
            names,
            self.more.as_slice(),
            self.lacking.as_slice(),
        )
    }
}

/// Puts last what a set has besides.
fn put_with(
    words: &mut Vec<u8>,
    extent: Extent,
    names: &Names,
    more: &[Item],
) -> Result<(), AllocError>
    ensures { OnOk result (words.new.items ≡ words.old.items ++ (codes "with " ++ items_words extent names.now more.now)) }
{
    words.extend_from_slice(b"with ")?;
    put_items_words(words, extent, names, more)
}

/// Puts last what a set lacks.
fn put_without(
    words: &mut Vec<u8>,
    extent: Extent,
    names: &Names,
    lacking: &[Item],
) -> Result<(), AllocError>
    ensures { OnOk result (words.new.items ≡ words.old.items ++ (codes "without " ++ items_words extent names.now lacking.now)) }
{
    words.extend_from_slice(b"without ")?;
    put_items_words(words, extent, names, lacking)
}

/// Puts last what a set has besides, and what it lacks.
fn put_difference(
    words: &mut Vec<u8>,
    extent: Extent,
    names: &Names,
    more: &[Item],
    lacking: &[Item],
) -> Result<(), AllocError>
    ensures { OnOk result (words.new.items ≡ words.old.items ++ difference_text extent names.now more.now lacking.now) }
{
    match (more, lacking) {
        ([], []) => Ok(()),
        ([], _) => put_without(words, extent, names, lacking),
        (_, []) => put_with(words, extent, names, more),
        _ => {
            put_with(words, extent, names, more)?;
            words.push(b' ')?;
            put_without(words, extent, names, lacking)
        }
    }
}
