//! The enqueues and dequeues of an item, as far as their ranks are known. It promises nothing.
use crate::counts::RankPlaces;
use lin_events::OutOfMemory;
use std::alloc::Global;

/// What stands for no place.
const NONE: usize = usize::MAX;

/// How many of an item's dequeues are looked at, from the one that returns back.
const FAR: usize = 64;

/// An operation at its place, and a bound of its rank.
#[derive(Clone, Copy)]
struct Bound {
    rank: usize,
    at: usize,
}

/// The operations of an item.
#[derive(Drop)]
pub struct RankLine {
    /// Enqueues that haven't failed, in the order of their invocations: which rank they have at least.
    puts: Vec<Bound>,
    /// Those that returned, in the order of their returns: which rank they don't come up to.
    ended: Vec<Bound>,
    /// Dequeues that took it out, in the order of their invocations: which rank they have at least.
    takes: Vec<Bound>,
}

/// The index of the first one that has at least the rank.
fn first_from(bounds: &[Bound], rank: usize) -> usize {
    bounds.partition_point(|bound| bound.rank < rank)
}

impl RankLine {
    pub fn new(alloc: Global) -> RankLine {
        RankLine {
            puts: Vec::new(alloc),
            ended: Vec::new(alloc),
            takes: Vec::new(alloc),
        }
    }

    /// An enqueue is invoked at the place, so many others returned before.
    pub fn put(&mut self, at: usize, rank: usize) -> Result<(), OutOfMemory> {
        self.puts.push(Bound { rank, at })?;
        Ok(())
    }

    /// One returned there, so many were invoked before.
    pub fn note_return(&mut self, at: usize, rank: usize) -> Result<(), OutOfMemory> {
        self.ended.push(Bound { rank, at })?;
        Ok(())
    }

    /// The one that was invoked there failed.
    pub fn note_failure(&mut self, at: usize) {
        let index = self.puts.partition_point(|bound| bound.at < at);
        if index < self.puts.len() {
            self.puts.remove(index);
        }
    }

    /// A dequeue that was invoked there took the item out; so many others that took something out had returned by then.
    pub fn note_taking(&mut self, at: usize, rank: usize) -> Result<(), OutOfMemory> {
        let count = self.takes.len();
        self.takes.push(Bound { rank, at })?;
        let mut index = count;
        for other in (0..count).rev() {
            let earlier = match self.takes.get(other) {
                Some(bound) => *bound,
                None => break,
            };
            if earlier.at <= at {
                break;
            }
            if let Some(bound) = self.takes.get_mut(index) {
                *bound = earlier;
            }
            index = other;
        }
        if let Some(bound) = self.takes.get_mut(index) {
            *bound = Bound { rank, at };
        }
        Ok(())
    }

    /// Where to begin with those dequeues of which more have their ranks below this one than enqueues can have such ranks, and what bounds them.
    pub fn find_overtaken(&self, high: usize) -> Option<(usize, RankPlaces)> {
        let count = self.takes.len();
        let below = first_from(&self.puts, high);
        for index in (count.saturating_sub(FAR)..count).rev() {
            let first = self.takes.get(index)?;
            let ended = first_from(&self.ended, first.rank.saturating_add(1));
            if count.saturating_sub(index) > below.saturating_sub(ended) {
                let lower = self
                    .ended
                    .get(ended.wrapping_sub(1))
                    .map_or(0, |bound| bound.at);
                let upper = self.puts.get(below).map_or(NONE, |bound| bound.at);
                return Some((first.at, RankPlaces { lower, upper }));
            }
        }
        None
    }
}
