//! The points at which adds and reads take effect.
ghost use Rattle.std.specs.Prelude.{◌≡◌, ◌<◌, ℕ, List, IfOk, length};
ghost use Rattle.lin_events.specs.declared.items.Item.{Item as ItemOf};
ghost use Rattle.lin_sets.specs.Points.{ArePoints, AreReached, IsPoint, level_of};

use crate::numbers::{first_adds, latest, levels_of};
use lin_events::{IntSet, Item, OutOfMemory};
use std::alloc::Global;
use std::collections::HashMap;

/// What the points are made of, for reads that stand in the order of what they found.
#[derive(Drop)]
pub(crate) struct Points {
    /// The place of the first add of each item.
    first: HashMap<Item, usize>,
    /// How many reads come ahead of the first one that found each item.
    levels: HashMap<Item, usize>,
    /// For each number of reads the place by which so many were invoked, and the first adds of what they found.
    reached: Vec<usize>,
}

/// For each number of reads the place by which so many are ready.
fn reached_by(
    alloc: Global,
    first: &HashMap<Item, usize>,
    reads: &[(usize, IntSet)],
) -> Result<Vec<usize>, OutOfMemory>
    ensures { IfOk result (λ reached. AreReached first.now.entries reads.now reached.items) }
{
    let mut reached = Vec::new(alloc);
    let mut last: usize = 0;
    reached.push(last)?;
    for read in reads {
        last = latest(first, last.max(read.0), read.1.as_slice());
        reached.push(last)?;
    }
    Ok(reached)
}

impl Points {
    /// Those of the adds and the reads.
    pub(crate) fn of(
        alloc: Global,
        adds: &[Option<Item>],
        reads: &[(usize, IntSet)],
    ) -> Result<Points, OutOfMemory>
        ensures { IfOk result (λ points. ArePoints adds.now reads.now points) }
    {
        let first = first_adds(alloc, adds)?;
        let levels = levels_of(alloc, reads)?;
        let reached = reached_by(alloc, &first, reads)?;
        Ok(Points {
            first,
            levels,
            reached,
        })
    }

    /// How many reads come ahead of the first one that found the item.
    pub(crate) fn level(&self, reads: &[(usize, IntSet)], item: Item) -> usize
        ensures { result ≡ level_of reads.now self.now item }
    {
        match self.levels.get(&item) {
            Some(level) => *level,
            None => reads.len(),
        }
    }

    /// The first place from this one on by which so many reads are ready.
    pub(crate) fn point(&self, from: usize, count: usize) -> usize
        requires { count < length self.now.reached.items }
        ensures { (reads : List (ℕ × List ItemOf)) → AreReached self.now.first.entries reads self.now.reached.items → IsPoint self.now.first.entries reads from count result }
    {
        from.max(self.reached[count])
    }
}
