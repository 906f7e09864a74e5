//! Beginnings of orders of the operations of a register.
use crate::acts::Act;
use crate::pool::{Offer, OpenReturn};
use lin_events::{OutOfMemory, Val};
use std::alloc::Global;

/// A place before an update in the order, where others can still be put.
#[derive(Clone, Copy, Debug, PartialEq, Eq)]
pub struct Gap {
    /// The update.
    pub next: usize,
    /// Only operations that were invoked before this place: while they were open, the update was placed.
    pub until: usize,
    /// What the register holds there.
    pub held: Val,
    /// Whether the update leaves its own value whatever it finds. Else what is put there has to leave again what the register holds.
    pub is_free: bool,
}

/// Where a step puts an operation in an order.
#[derive(Clone, Copy, Debug, PartialEq, Eq)]
pub enum DraftSpot {
    /// Behind all others.
    Last,
    /// Before this update.
    Before(u32),
    /// Behind this update, and the reads that were put there.
    Behind(u32),
}

/// One operation more in an order.
#[derive(Clone, Copy, Debug, PartialEq, Eq)]
pub struct DraftStep {
    /// The step before it, and one more; 0 where there is none.
    pub parent: u32,
    pub operation: u32,
    pub spot: DraftSpot,
}

/// How many of the updates stand in an order that did the same and never returned: the first ones.
#[derive(Clone, Copy, Debug, PartialEq, Eq)]
pub struct Used {
    /// The name of their class.
    pub class: usize,
    pub count: usize,
    /// Where they are needed no longer.
    pub last: usize,
}

/// An order of the operations that returned so far, and of some that are open.
#[derive(Drop)]
pub struct Draft {
    /// What the register holds after it.
    pub held: Val,
    /// The update that left it there.
    pub last: usize,
    /// The open reads in it, the open writes, and the open compare-and-sets, of those that return.
    pub reads: Vec<usize>,
    pub writes: Vec<usize>,
    pub sets: Vec<usize>,
    /// The updates in it that never return, and how many there are.
    pub used: Vec<Used>,
    pub crashed: usize,
    /// The widest one where any update can be put comes before the others of its kind.
    pub gaps: Vec<Gap>,
    /// Its last step, and one more; 0 where it has none.
    pub step: u32,
}

/// Puts the others in place of the elements, in the same memory where there is enough.
fn renew<T: Copy>(elements: &mut Vec<T>, others: &[T]) -> Result<(), OutOfMemory> {
    elements.clear();
    elements.extend_from_slice(others)?;
    Ok(())
}

impl DraftSpot {
    /// Behind the update, and the reads that were put there.
    pub fn behind_update(update: usize) -> DraftSpot {
        DraftSpot::Behind(name_of(update))
    }

    /// Before the update.
    pub fn before_update(update: usize) -> DraftSpot {
        DraftSpot::Before(name_of(update))
    }
}

/// The operation's name in a step. No operation has the last one.
fn name_of(operation: usize) -> u32 {
    u32::try_from(operation).unwrap_or(u32::MAX)
}

impl Draft {
    /// The empty order. The place stands for the update that left the value in the register.
    pub fn new(alloc: Global, start: usize, held: Val) -> Draft {
        Draft {
            held,
            last: start,
            reads: Vec::new(alloc),
            writes: Vec::new(alloc),
            sets: Vec::new(alloc),
            used: Vec::new(alloc),
            crashed: 0,
            gaps: Vec::new(alloc),
            step: 0,
        }
    }

    /// Makes it equal to the other one.
    pub fn assign(&mut self, other: &Draft) -> Result<(), OutOfMemory> {
        self.held = other.held;
        self.last = other.last;
        self.crashed = other.crashed;
        self.step = other.step;
        renew(&mut self.reads, &other.reads)?;
        renew(&mut self.writes, &other.writes)?;
        renew(&mut self.sets, &other.sets)?;
        renew(&mut self.used, &other.used)?;
        renew(&mut self.gaps, &other.gaps)
    }

    /// Whether the open operation, which returns, stands in it.
    pub fn has(&self, open: &OpenReturn) -> bool {
        match open.act {
            Act::Read(_) => self.reads.contains(&open.operation),
            Act::Write(_) => self.writes.contains(&open.operation),
            Act::Cas(_, _) => self.sets.contains(&open.operation),
        }
    }

    /// Notes that an operation stands in it that is open and returns.
    pub fn note(&mut self, operation: usize, act: Act) -> Result<(), OutOfMemory> {
        match act {
            Act::Read(_) => self.reads.push(operation)?,
            Act::Write(_) => self.writes.push(operation)?,
            Act::Cas(_, _) => self.sets.push(operation)?,
        }
        Ok(())
    }

    /// Notes that the update on offer stands in it.
    pub fn take(&mut self, offer: &Offer) -> Result<(), OutOfMemory> {
        let Some(class) = offer.class else {
            return self.note(offer.operation, offer.act);
        };
        self.crashed = self.crashed.saturating_add(1);
        for used in self.used.iter_mut() {
            if used.class == class {
                used.count = used.count.saturating_add(1);
                return Ok(());
            }
        }
        self.used.push(Used {
            class,
            count: 1,
            last: offer.last,
        })?;
        Ok(())
    }

    /// How many updates of the class stand in it.
    pub fn count_of(&self, class: usize) -> usize {
        for used in &self.used {
            if used.class == class {
                return used.count;
            }
        }
        0
    }

    /// The operation is open no longer.
    pub fn close(&mut self, open: &OpenReturn) {
        let operation = open.operation;
        match open.act {
            Act::Read(_) => self.reads.retain(|other| *other != operation),
            Act::Write(_) => self.writes.retain(|other| *other != operation),
            Act::Cas(_, _) => self.sets.retain(|other| *other != operation),
        }
    }

    /// The less, the better: how many updates it placed that never return, and how many ahead of their completions.
    pub fn cost(&self) -> usize {
        let early = self.writes.len().saturating_add(self.sets.len());
        self.crashed.saturating_mul(1 << 16).saturating_add(early)
    }

    /// Whether it will do in place of the other one: it has the same compare-and-sets, the same reads or more, and its gaps are as wide. Of
    /// writes it does not matter whether they are placed, since they can be hidden.
    pub fn serves_for(&self, other: &Draft) -> bool {
        self.held == other.held
            && self.sets.len() == other.sets.len()
            && has_all(&self.sets, &other.sets)
            && has_all(&self.reads, &other.reads)
            && has_gaps(&self.gaps, &other.gaps)
    }
}

/// Whether all of the others are among the operations.
fn has_all(operations: &[usize], others: &[usize]) -> bool {
    for other in others {
        if !operations.contains(other) {
            return false;
        }
    }
    true
}

/// Whether what can be put in the other gap can be put in this one.
fn is_as_wide(gap: &Gap, other: &Gap) -> bool {
    gap.held == other.held && gap.until >= other.until && (gap.is_free || !other.is_free)
}

/// How many of the gaps are as wide as the other one.
pub fn count_as_wide(gaps: &[Gap], other: &Gap) -> usize {
    let mut count: usize = 0;
    for gap in gaps {
        if is_as_wide(gap, other) {
            count = count.saturating_add(1);
        }
    }
    count
}

/// Whether there are gaps as wide as the others.
fn has_gaps(gaps: &[Gap], others: &[Gap]) -> bool {
    for other in others {
        if count_as_wide(gaps, other) == 0 {
            return false;
        }
    }
    true
}

/// The widest of the gaps where any update can be put: the first such one.
pub fn widest_gap(gaps: &[Gap]) -> Option<usize> {
    for (at, gap) in gaps.iter().enumerate() {
        if gap.is_free {
            return Some(at);
        }
    }
    None
}
