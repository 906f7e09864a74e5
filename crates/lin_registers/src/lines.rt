//! Operations in a line, into which others are put.
use crate::drafts::{DraftSpot, DraftStep};
use lin_events::OutOfMemory;
use std::alloc::Global;

/// Operations in a line, each with the next one and the one before. The end is the place behind the last one and before the first.
#[derive(Drop)]
pub struct LinkedLine {
    next: Vec<u32>,
    before: Vec<u32>,
    /// For each update the last read that was put behind it, or the update itself.
    tails: Vec<u32>,
    end: u32,
}

/// The places up to and with the end, each with the end.
fn ends(alloc: Global, end: u32) -> Result<Vec<u32>, OutOfMemory> {
    let mut places = Vec::with_capacity(alloc, (end as usize).saturating_add(1))?;
    for _ in 0..=end {
        places.push(end)?;
    }
    Ok(places)
}

impl LinkedLine {
    /// No operation yet. They are named by places below the end, of which no more are named than a step can name.
    pub fn new(alloc: Global, end: usize) -> Result<LinkedLine, OutOfMemory> {
        let end = u32::try_from(end).unwrap_or(u32::MAX);
        Ok(LinkedLine {
            next: ends(alloc, end)?,
            before: ends(alloc, end)?,
            tails: ends(alloc, end)?,
            end,
        })
    }

    /// Puts the operation behind the other one. None where one isn't named.
    fn put_behind(&mut self, other: u32, operation: u32) -> Option<()> {
        let later = *self.next.get(other as usize)?;
        *self.next.get_mut(operation as usize)? = later;
        *self.before.get_mut(operation as usize)? = other;
        *self.next.get_mut(other as usize)? = operation;
        *self.before.get_mut(later as usize)? = operation;
        Some(())
    }

    /// Puts the operation, behind which none stands yet, behind the other one.
    fn put_update(&mut self, other: u32, operation: u32) -> Option<()> {
        self.put_behind(other, operation)?;
        *self.tails.get_mut(operation as usize)? = operation;
        Some(())
    }

    /// Puts the operation of the step in its spot. None where something isn't named.
    pub fn put(&mut self, step: &DraftStep) -> Option<()> {
        match step.spot {
            DraftSpot::Last => {
                let last = *self.before.get(self.end as usize)?;
                self.put_update(last, step.operation)
            }
            DraftSpot::Before(write) => {
                let earlier = *self.before.get(write as usize)?;
                self.put_update(earlier, step.operation)
            }
            DraftSpot::Behind(update) => {
                let tail = *self.tails.get(update as usize)?;
                self.put_behind(tail, step.operation)?;
                *self.tails.get_mut(update as usize)? = step.operation;
                Some(())
            }
        }
    }

    /// The operation behind the other one, or the first one behind the end. None behind the last one.
    pub fn operation_after(&self, operation: usize) -> Option<usize> {
        let next = *self.next.get(operation)?;
        if next == self.end {
            return None;
        }
        Some(next as usize)
    }

    /// The operations in the line, the first one first.
    pub fn operations(&self, alloc: Global) -> Result<Vec<usize>, OutOfMemory> {
        let mut operations = Vec::new(alloc);
        let mut at = self.end as usize;
        for _ in 0..self.end {
            let Some(next) = self.operation_after(at) else {
                break;
            };
            operations.push(next)?;
            at = next;
        }
        Ok(operations)
    }
}
