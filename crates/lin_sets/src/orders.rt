//! The order in which the operations of a set took effect.
ghost use Rattle.std.specs.Prelude.{List, IfOk};
ghost use Rattle.lin_events.specs.declared.events.Event.{Event as EventOf};
ghost use Rattle.lin_objects.specs.declared.kinds.Kind.TheVariants.{Set};
ghost use Rattle.lin_order.specs.Linearizable.{IsLegalOrderAs};
ghost use Rattle.lin_sets.specs.Acts.{AreActs};
ghost use Rattle.lin_sets.specs.Conflicts.{IsInConflict};

use crate::effects::{effects_of, in_order, operations_of};
use crate::points::Points;
use crate::sizes::by_size;
use lin_events::{IntSet, Item, OutOfMemory};
use lin_order::Placed;
use std::alloc::Global;

/// A legal order of the history whose adds and reads these are, where no operations of it conflict.
///
/// At each place of the history at which an add was invoked that has not failed, its item stands; the reads that are ok stand in any
/// order, each with its place and what it found. For n places, and reads that found m items in all, this takes O(n log n + m) time.
pub fn order_of_acts(
    alloc: Global,
    adds: &[Option<Item>],
    reads: &[(usize, IntSet)],
) -> Result<Vec<Placed>, OutOfMemory>
    ensures { IfOk result (λ order. (h : List EventOf) → AreActs adds.now reads.now h → (IsInConflict h → ⊥) → IsLegalOrderAs Set h order.items) }
{
    let sorted = by_size(alloc, reads)?;
    let reads = sorted.as_slice();
    let points = Points::of(alloc, adds, reads)?;
    let effects = effects_of(alloc, &points, adds, reads)?;
    operations_of(alloc, in_order(effects))
}
