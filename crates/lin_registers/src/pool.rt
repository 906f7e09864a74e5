//! The operations of a register that are open.
use crate::acts::Act;
use crate::drafts::{Draft, Gap};
use lin_events::{OutOfMemory, Val};
use std::alloc::Global;

/// An operation that is open and returns.
#[derive(Clone, Copy, Debug, PartialEq, Eq)]
pub struct OpenReturn {
    pub operation: usize,
    pub act: Act,
    /// Where it returns.
    pub last: usize,
}

/// Updates that did the same and never return.
#[derive(Drop)]
pub struct Class {
    name: usize,
    act: Act,
    /// The earliest first.
    operations: Vec<usize>,
    /// Where they are needed no longer.
    last: usize,
}

/// An update that can be placed.
#[derive(Clone, Copy, Debug, PartialEq, Eq)]
pub struct Offer {
    pub operation: usize,
    pub act: Act,
    /// Where it returns, or is needed no longer.
    pub last: usize,
    /// Its class, if it never returns.
    pub class: Option<usize>,
}

/// Operations that are open.
#[derive(Drop)]
pub struct ReturnPool {
    /// Those that return, the earliest first.
    pub open: Vec<OpenReturn>,
    classes: Vec<Class>,
    /// How many classes there were.
    names: usize,
}

/// Whether the operation is one of those on offer.
pub fn has_operation(offers: &[Offer], operation: usize) -> bool {
    for offer in offers {
        if offer.operation == operation {
            return true;
        }
    }
    false
}

/// Puts the update on offer with the others. Of those that do the same the one that returns first is kept.
fn offer_one(offers: &mut Vec<Offer>, offer: Offer) -> Result<(), OutOfMemory> {
    for other in offers.iter_mut() {
        if other.act == offer.act {
            if is_sooner(&offer, other) {
                *other = offer;
            }
            return Ok(());
        }
    }
    offers.push(offer)?;
    Ok(())
}

/// Whether the one update has to be placed sooner than the other.
fn is_sooner(offer: &Offer, other: &Offer) -> bool {
    match offer.class {
        None => other.class.is_some() || offer.last < other.last,
        Some(_) => false,
    }
}

impl OpenReturn {
    /// It on offer, if it is an update.
    pub fn offer(&self) -> Option<Offer> {
        if self.act.is_read() {
            return None;
        }
        Some(Offer {
            operation: self.operation,
            act: self.act,
            last: self.last,
            class: None,
        })
    }
}

impl Class {
    /// The first of them that does not stand in the order.
    fn next_operation(&self, draft: &Draft) -> Option<usize> {
        self.operations.get(draft.count_of(self.name)).copied()
    }
}

impl ReturnPool {
    pub fn new(alloc: Global) -> ReturnPool {
        ReturnPool {
            open: Vec::new(alloc),
            classes: Vec::new(alloc),
            names: 0,
        }
    }

    /// An update was invoked that never returns. Classes that aren't needed any longer go.
    pub fn crash(
        &mut self,
        alloc: Global,
        update: OpenReturn,
        now: usize,
    ) -> Result<(), OutOfMemory> {
        self.classes.retain(|class| class.last > now);
        for class in self.classes.iter_mut() {
            if class.act == update.act {
                class.operations.push(update.operation)?;
                return Ok(());
            }
        }
        let mut operations = Vec::new(alloc);
        operations.push(update.operation)?;
        self.names = self.names.saturating_add(1);
        self.classes.push(Class {
            name: self.names,
            act: update.act,
            operations,
            last: update.last,
        })?;
        Ok(())
    }

    /// The open operation of this name.
    pub fn open_return_of(&self, operation: usize) -> Option<OpenReturn> {
        for open in &self.open {
            if open.operation == operation {
                return Some(*open);
            }
        }
        None
    }

    /// The operation is open no longer.
    pub fn close(&mut self, operation: usize) {
        self.open.retain(|other| other.operation != operation);
    }

    /// The first operation that is open and returns, or a place behind all.
    pub fn first_open(&self) -> usize {
        match self.open.first() {
            Some(open) => open.operation,
            None => usize::MAX,
        }
    }

    /// Updates other than the goal that don't stand in the order, and were invoked before the place.
    pub fn offers(
        &self,
        alloc: Global,
        draft: &Draft,
        goal: usize,
        until: usize,
    ) -> Result<Vec<Offer>, OutOfMemory> {
        let mut offers = Vec::new(alloc);
        for open in &self.open {
            if open.operation < until
                && open.operation != goal
                && let Some(offer) = open.offer()
                && !draft.has(open)
            {
                offer_one(&mut offers, offer)?;
            }
        }
        self.offer_crashed(draft, until, &mut offers)?;
        Ok(offers)
    }

    /// Puts those with the offers that never return.
    fn offer_crashed(
        &self,
        draft: &Draft,
        until: usize,
        offers: &mut Vec<Offer>,
    ) -> Result<(), OutOfMemory> {
        for class in &self.classes {
            if let Some(operation) = class.next_operation(draft)
                && operation < until
            {
                let offer = Offer {
                    operation,
                    act: class.act,
                    last: class.last,
                    class: Some(class.name),
                };
                offer_one(offers, offer)?;
            }
        }
        Ok(())
    }

    /// Whether an operation other than this one can still be placed that leaves the value.
    pub fn is_left(&self, draft: &Draft, but: usize, value: Val) -> bool {
        for open in &self.open {
            if open.operation != but && open.act.value_left() == Some(value) && !draft.has(open) {
                return true;
            }
        }
        for class in &self.classes {
            if class.act.value_left() == Some(value) && class.next_operation(draft).is_some() {
                return true;
            }
        }
        false
    }

    /// Whether an open operation that was invoked before the place needs the value.
    fn is_wanted(&self, draft: &Draft, value: Val, until: usize) -> bool {
        for open in &self.open {
            if open.operation < until
                && open.act.value_needed() == Some(value)
                && !draft.has(open)
            {
                return true;
            }
        }
        false
    }

    /// Whether an open operation, or a compare-and-set that never returns and that one needs, may have to be put in the gap.
    pub fn is_useful(&self, draft: &Draft, gap: &Gap) -> bool {
        for open in &self.open {
            if open.operation < gap.until && suits(open.act, gap) && !draft.has(open) {
                return true;
            }
        }
        for class in &self.classes {
            if let Act::Cas(from, to) = class.act
                && from == gap.held
                && class
                    .next_operation(draft)
                    .is_some_and(|operation| operation < gap.until)
                && self.is_wanted(draft, to, gap.until)
            {
                return true;
            }
        }
        false
    }
}

/// Whether an update may have to be put in this gap rather than in the widest one.
fn suits(act: Act, gap: &Gap) -> bool {
    match act {
        Act::Read(_) => false,
        Act::Write(value) => !gap.is_free && value == gap.held,
        Act::Cas(from, _) => from == gap.held,
    }
}
