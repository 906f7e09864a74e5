//! What the operations of a bag did, as far as its whole history tells. Copies of an item are alike.
use crate::operations::{CallSpan, NEVER, PossibleOperation, gather_operations};
use lin_events::{Body, Call, Event, Item, OutOfMemory, Reply, Val};
use std::alloc::Global;
use std::collections::HashMap;

/// A dequeue that took an item out.
#[derive(Clone, Copy)]
pub struct Exit {
    pub dequeue: CallSpan,
    pub is_placed: bool,
    /// How many copies more can be in by its return than have to be out.
    spare: usize,
}

/// The operations of an item, on the way through the history.
#[derive(Drop)]
pub struct Copies {
    pub item: Item,
    /// How many copies are in the bag.
    pub inside: usize,
    /// Whether it is listed with those that have some there.
    pub is_listed: bool,
    /// The dequeues that took it out, in the order of their returns.
    exits: Vec<Exit>,
    /// How many of these returned.
    gone: usize,
    /// Those of them that are open, and aren't placed.
    leaving: Vec<usize>,
    /// The enqueues that are open, aren't placed, and return.
    arriving: Vec<CallSpan>,
    /// Invocations of enqueues that aren't placed, and never return.
    lost: Vec<usize>,
    /// How many enqueues were invoked.
    begun: usize,
}

impl Copies {
    fn new(alloc: Global, item: Item) -> Copies {
        Copies {
            item,
            inside: 0,
            is_listed: false,
            exits: Vec::new(alloc),
            gone: 0,
            leaving: Vec::new(alloc),
            arriving: Vec::new(alloc),
            lost: Vec::new(alloc),
            begun: 0,
        }
    }

    /// The dequeue returns next, of those that took a copy out.
    fn add_exit(&mut self, dequeue: CallSpan) -> Result<usize, OutOfMemory> {
        let rank = self.exits.len();
        self.exits.push(Exit {
            dequeue,
            is_placed: false,
            spare: 0,
        })?;
        Ok(rank)
    }

    /// The dequeue with the rank returns behind so many enqueues' invocations; whether that many copies can be out by then.
    fn count_spare(&mut self, rank: usize) -> bool {
        let Some(spare) = self.begun.checked_sub(rank.saturating_add(1)) else {
            return false;
        };
        if let Some(exit) = self.exits.get_mut(rank) {
            exit.spare = spare;
        }
        true
    }

    /// Whether one copy more can be out until the dequeue with the rank returns; if so, it is reckoned with.
    pub fn spares(&mut self, rank: usize) -> bool {
        let until = rank.min(self.exits.len());
        let exits = &mut self.exits[self.gone.min(until)..until];
        if exits.iter().any(|exit| exit.spare == 0) {
            return false;
        }
        for exit in exits {
            exit.spare = exit.spare.saturating_sub(1);
        }
        true
    }

    /// The same until the end.
    pub fn spares_one(&mut self) -> bool {
        let count = self.exits.len();
        self.spares(count)
    }

    /// How many of those in the bag open dequeues aren't known to take out.
    pub fn count_not_taken(&self) -> usize {
        self.inside.saturating_sub(self.leaving.len())
    }

    /// An enqueue is invoked.
    pub fn arrive(&mut self, enqueue: CallSpan) -> Result<(), OutOfMemory> {
        if enqueue.end == NEVER {
            self.lost.push(enqueue.begin)?;
        } else {
            self.arriving.push(enqueue)?;
        }
        Ok(())
    }

    /// The enqueue returns; whether it isn't placed.
    pub fn finish_arrival(&mut self, enqueue: CallSpan) -> bool {
        let open = self.arriving.len();
        self.arriving.retain(|other| other.begin != enqueue.begin);
        self.arriving.len() < open
    }

    /// An open enqueue that isn't placed: the one that returns first.
    pub fn next_arrival(&mut self) -> Option<usize> {
        let Some(first) = self
            .arriving
            .iter()
            .copied()
            .min_by_key(|enqueue| enqueue.end)
        else {
            return self.lost.pop();
        };
        self.arriving.retain(|other| other.begin != first.begin);
        Some(first.begin)
    }

    /// The dequeue with the rank is invoked.
    pub fn leave(&mut self, rank: usize) -> Result<(), OutOfMemory> {
        self.leaving.push(rank)?;
        Ok(())
    }

    /// The dequeue with the rank returns; where it was invoked, if it isn't placed.
    pub fn finish_leaving(&mut self, rank: usize) -> Option<usize> {
        self.gone = rank.saturating_add(1);
        self.leaving.retain(|other| *other != rank);
        let exit = self.exits.get(rank)?;
        if exit.is_placed {
            None
        } else {
            Some(exit.dequeue.begin)
        }
    }

    /// An open dequeue that isn't placed, the one that returns first, if the later ones find theirs without this copy.
    pub fn next_exit(&mut self) -> Option<usize> {
        let rank = self.leaving.iter().copied().min()?;
        if !self.spares(rank) {
            return None;
        }
        self.leaving.retain(|other| *other != rank);
        let exit = self.exits.get_mut(rank)?;
        exit.is_placed = true;
        Some(exit.dequeue.begin)
    }
}

/// What an event tells of a bag. Copies are named by the place of theirs, and dequeues that took them out by rank.
#[derive(Clone, Copy)]
pub enum Moment {
    EnqueueBegins(usize, CallSpan),
    EnqueueEnds(usize, CallSpan),
    DequeueBegins(usize, usize),
    DequeueEnds(usize, usize),
    /// A dequeue that will find nothing is invoked.
    VainBegins,
    /// The one that was invoked there returns.
    VainEnds(usize),
    /// A dequeue that never returns is invoked.
    OpenBegins,
}

/// What is known of the operations of a bag.
#[derive(Drop)]
pub struct Bag {
    pub copies: Vec<Copies>,
    pub moments: Vec<Option<Moment>>,
    /// Where the copies of an item are.
    places: HashMap<Item, usize>,
}

impl Bag {
    /// Of so many events, of which nothing is known.
    fn new(alloc: Global, count: usize) -> Result<Bag, OutOfMemory> {
        let mut moments = Vec::with_capacity(alloc, count)?;
        for _ in 0..count {
            moments.push(None)?;
        }
        Ok(Bag {
            copies: Vec::new(alloc),
            moments,
            places: HashMap::new(alloc),
        })
    }

    /// That of the events, if no item is taken out more often than it can be put in before.
    pub fn of(alloc: Global, events: &[Event]) -> Result<Option<Bag>, OutOfMemory> {
        let mut operations = gather_operations(alloc, events)?;
        operations.sort_unstable_by_key(|operation| operation.span.end);
        let mut bag = Bag::new(alloc, events.len())?;
        for operation in &operations {
            bag.add(alloc, operation, events)?;
        }
        Ok(if bag.count_spares() { Some(bag) } else { None })
    }

    /// Where the copies of the item are.
    fn place_of(&mut self, alloc: Global, item: Item) -> Result<usize, OutOfMemory> {
        if let Some(place) = self.places.get(&item) {
            return Ok(*place);
        }
        let place = self.copies.len();
        self.copies.push(Copies::new(alloc, item))?;
        self.places.insert(item, place)?;
        Ok(place)
    }

    fn note(&mut self, at: usize, moment: Moment) {
        if let Some(place) = self.moments.get_mut(at) {
            *place = Some(moment);
        }
    }

    /// Takes in the operation, which returns behind those before it.
    fn add(
        &mut self,
        alloc: Global,
        operation: &PossibleOperation,
        events: &[Event],
    ) -> Result<(), OutOfMemory> {
        let span = operation.span;
        if let Call::Enqueue(item) = operation.call {
            let copies = self.place_of(alloc, item)?;
            self.note(span.begin, Moment::EnqueueBegins(copies, span));
            self.note(span.end, Moment::EnqueueEnds(copies, span));
            return Ok(());
        }
        match events.get(span.end).map(|event| &event.body) {
            Some(Body::Ok(_, Reply::Value(Val::Item(item)))) => {
                self.add_exit(alloc, *item, span)
            }
            Some(_) => {
                self.note(span.begin, Moment::VainBegins);
                self.note(span.end, Moment::VainEnds(span.begin));
                Ok(())
            }
            None => {
                self.note(span.begin, Moment::OpenBegins);
                Ok(())
            }
        }
    }

    /// The dequeue took the item out.
    fn add_exit(
        &mut self,
        alloc: Global,
        item: Item,
        dequeue: CallSpan,
    ) -> Result<(), OutOfMemory> {
        let place = self.place_of(alloc, item)?;
        if let Some(copies) = self.copies.get_mut(place) {
            let rank = copies.add_exit(dequeue)?;
            self.note(dequeue.begin, Moment::DequeueBegins(place, rank));
            self.note(dequeue.end, Moment::DequeueEnds(place, rank));
        }
        Ok(())
    }

    /// Counts how many copies are to spare at each return; whether there are enough.
    fn count_spares(&mut self) -> bool {
        for moment in &self.moments {
            match moment {
                Some(Moment::EnqueueBegins(place, _)) => {
                    if let Some(copies) = self.copies.get_mut(*place) {
                        copies.begun = copies.begun.saturating_add(1);
                    }
                }
                Some(Moment::DequeueEnds(place, rank)) => {
                    if let Some(copies) = self.copies.get_mut(*place)
                        && !copies.count_spare(*rank)
                    {
                        return false;
                    }
                }
                _ => {}
            }
        }
        true
    }
}
