//! The order in which items are printed.
ghost use Rattle.std.specs.Prelude.{◌≡◌, map, true, false, IfOk, IsPermutation};
ghost use Rattle.lin_names.specs.Spelled.{printed, seen, spelled, spelled_cmp, SpelledIsTotal, SpelledTellsApart};

use crate::names::Names;
use crate::said::{Said, shown};
use lin_events::{Item, OutOfMemory};
use std::cmp::Ordering;

/// How two items stand to each other in print: `false`, `true`, integers rising, then words by the bytes of their spellings.
pub fn said_order(a: Said, b: Said) -> Ordering
    ensures { result ≡ spelled_cmp (seen a.entry) (seen b.entry) }
{
    match (a, b) {
        (Said::Bool(a), Said::Bool(b)) => a.cmp(&b),
        (Said::Bool(_), Said::Int(_) | Said::Word(_)) => Ordering::Less,
        (Said::Int(_), Said::Bool(_)) => Ordering::Greater,
        (Said::Int(a), Said::Int(b)) => a.cmp(&b),
        (Said::Int(_), Said::Word(_)) => Ordering::Less,
        (Said::Word(a), Said::Word(b)) => a.cmp(b),
        (Said::Word(_), Said::Int(_) | Said::Bool(_)) => Ordering::Greater,
    }
}

/// How two items stand to each other in print.
pub fn printed_order(names: &Names, a: Item, b: Item) -> Ordering
    ensures { result ≡ spelled_cmp (spelled names.now a) (spelled names.now b) }
{
    said_order(shown(names, a), shown(names, b))
}

/// Puts items in the order in which they are printed. Takes no memory.
pub fn sort_printed(names: &Names, items: &mut Vec<Item>)
    ensures same { IsPermutation items.old.items items.new.items }
    ensures sorted { map (spelled names.now) items.new.items ≡ printed names.now items.old.items }
{
    spelled_is_total();
    items.sort_unstable_by(|a, b| printed_order(names, *a, *b));
}

/// The items in the order in which they are printed.
pub fn in_print(names: &Names, items: &[Item]) -> Result<Vec<Item>, OutOfMemory>
    ensures { IfOk result (λ sorted. map (spelled names.now) sorted.items ≡ printed names.now items.now) }
{
    let mut sorted = Vec::from_slice(names.alloc(), items)?;
    sort_printed(names, &mut sorted);
    Ok(sorted)
}

/// Whether the items stand in the order in which they are printed.
pub fn is_in_print(names: &Names, items: &[Item]) -> bool
    ensures yes { result ≡ true → map (spelled names.now) items.now ≡ printed names.now items.now }
    ensures no { result ≡ false → map (spelled names.now) items.now ≡ printed names.now items.now → ⊥ }
{
    spelled_is_total();
    for at in 1..items.len() {
        if printed_order(names, items[at - 1], items[at]).is_gt() {
            return false;
        }
    }
    true
}

/// The order of print is total, and tells all apart that are seen to differ.
pub fn spelled_is_total()
    ensures order { SpelledIsTotal }
    ensures same { SpelledTellsApart }
{}
