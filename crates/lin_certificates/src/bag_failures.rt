//! A search for a certificate of a bag. Whatever it finds is checked; that it finds something isn't promised.
use crate::certificate::Certificate;
use lin_events::{Body, Call, Event, Item, Items, OutOfMemory, Reply, Val};
use std::alloc::Global;
use std::collections::{BTreeMap, HashMap};

/// What is known of an item.
#[derive(Drop)]
struct Known {
    /// How many operations may put it in.
    puts: usize,
    /// How many took it out.
    takes: usize,
    /// Where operations returned that put it in.
    ends: Vec<usize>,
}

/// A dequeue that found nothing.
#[derive(Drop)]
struct Vain {
    dequeue: usize,
    end: usize,
    /// How many dequeues that were open as it returned may still return, or never do.
    open: usize,
    /// Items that were put in before it was invoked, as often as they aren't known to have been taken out by one that was invoked before it
    /// returned.
    left: Vec<Item>,
}

impl Vain {
    /// A dequeue that was open as it returned is known to have taken out this item, or none.
    fn settle(&mut self, taken: Option<Item>) {
        self.open = self.open.saturating_sub(1);
        let Some(item) = taken else {
            return;
        };
        let place = self.left.iter().position(|other| *other == item);
        if let Some(at) = place
            && at < self.left.len()
        {
            self.left.swap_remove(at);
        }
    }

    /// Items that are left more often than open dequeues can have taken them out.
    fn certificate(&self, alloc: Global) -> Result<Option<Certificate>, OutOfMemory> {
        if self.left.len() <= self.open {
            return Ok(None);
        }
        let mut items = Vec::new(alloc);
        for item in &self.left {
            if items.len() > self.open {
                break;
            }
            items.push(*item)?;
        }
        Ok(Some(Certificate::Surplus {
            dequeue: self.dequeue,
            items: Items::from_vec(alloc, items)?,
        }))
    }
}

/// What a search has at hand.
#[derive(Drop)]
struct Search {
    items: HashMap<Item, Known>,
    /// Items that were put in and aren't known to have been taken out, by where that returned.
    inside: BTreeMap<usize, Item>,
    /// Dequeues that found nothing, in the order of their returns.
    vain: Vec<Vain>,
    /// How many dequeues may still return, or never do.
    open: usize,
    /// The latest operation of each process.
    latest: HashMap<u64, (usize, Call)>,
}

impl Search {
    fn new(alloc: Global) -> Search {
        Search {
            items: HashMap::new(alloc),
            inside: BTreeMap::new(alloc),
            vain: Vec::new(alloc),
            open: 0,
            latest: HashMap::new(alloc),
        }
    }

    /// An operation was invoked at the place.
    fn note_invocation(
        &mut self,
        alloc: Global,
        at: usize,
        process: u64,
        call: Call,
    ) -> Result<(), OutOfMemory> {
        self.latest.insert(process, (at, call))?;
        let Call::Enqueue(item) = call else {
            self.open = self.open.saturating_add(1);
            return Ok(());
        };
        if let Some(known) = self.items.get_mut(&item) {
            known.puts = known.puts.saturating_add(1);
            return Ok(());
        }
        self.items.insert(
            item,
            Known {
                puts: 1,
                takes: 0,
                ends: Vec::new(alloc),
            },
        )?;
        Ok(())
    }

    /// The item was put in, by an operation that returned at the place.
    fn put_in(&mut self, item: Item, at: usize) -> Result<(), OutOfMemory> {
        let Some(known) = self.items.get_mut(&item) else {
            return Ok(());
        };
        known.ends.push(at)?;
        if known.ends.len() > known.takes {
            self.inside.insert(at, item)?;
        }
        Ok(())
    }

    /// What should put the item in failed.
    fn not_put(&mut self, item: Item) -> Option<Certificate> {
        let known = self.items.get_mut(&item)?;
        known.puts = known.puts.saturating_sub(1);
        if known.puts < known.takes {
            Some(Certificate::Taken { item })
        } else {
            None
        }
    }

    /// The item was taken out.
    fn take_out(&mut self, item: Item) -> Option<Certificate> {
        let Some(known) = self.items.get_mut(&item) else {
            return Some(Certificate::Taken { item });
        };
        let first = known.ends.get(known.takes).copied();
        known.takes = known.takes.saturating_add(1);
        if known.puts < known.takes {
            return Some(Certificate::Taken { item });
        }
        if let Some(end) = first {
            self.inside.remove(&end);
        }
        None
    }

    /// The dequeue is no longer open, and took out this item, or none.
    fn settle(
        &mut self,
        alloc: Global,
        dequeue: usize,
        taken: Option<Item>,
    ) -> Result<Option<Certificate>, OutOfMemory> {
        self.open = self.open.saturating_sub(1);
        let from = self
            .vain
            .partition_point(|vain| vain.end < dequeue)
            .min(self.vain.len());
        for vain in &mut self.vain[from..] {
            vain.settle(taken);
            if let Some(certificate) = vain.certificate(alloc)? {
                return Ok(Some(certificate));
            }
        }
        Ok(None)
    }

    /// The dequeue returned at the place and found nothing.
    fn find_nothing(
        &mut self,
        alloc: Global,
        dequeue: usize,
        at: usize,
    ) -> Result<Option<Certificate>, OutOfMemory> {
        let mut vain = Vain {
            dequeue,
            end: at,
            open: self.open,
            left: Vec::new(alloc),
        };
        for (end, item) in &self.inside {
            if *end >= dequeue {
                break;
            }
            vain.left.push(*item)?;
        }
        let certificate = vain.certificate(alloc)?;
        self.vain.push(vain)?;
        Ok(certificate)
    }

    /// The dequeue returned at the place with what it found.
    fn note_dequeue(
        &mut self,
        alloc: Global,
        dequeue: usize,
        found: Val,
        at: usize,
    ) -> Result<Option<Certificate>, OutOfMemory> {
        let Val::Item(item) = found else {
            return match self.settle(alloc, dequeue, None)? {
                Some(certificate) => Ok(Some(certificate)),
                None => self.find_nothing(alloc, dequeue, at),
            };
        };
        match self.take_out(item) {
            Some(certificate) => Ok(Some(certificate)),
            None => self.settle(alloc, dequeue, Some(item)),
        }
    }

    /// The event stands at the place.
    fn take_in(
        &mut self,
        alloc: Global,
        at: usize,
        event: &Event,
    ) -> Result<Option<Certificate>, OutOfMemory> {
        if let Body::Invoke(call) = &event.body {
            self.note_invocation(alloc, at, event.process, *call)?;
            return Ok(None);
        }
        let Some((operation, call)) = self.latest.get(&event.process).copied() else {
            return Ok(None);
        };
        match (&event.body, call) {
            (Body::Ok(_, Reply::Value(found)), _) => self.note_dequeue(
                alloc, operation, *found, at,
            ),
            (Body::Ok(_, _), Call::Enqueue(item)) => {
                self.put_in(item, at)?;
                Ok(None)
            }
            (Body::Fail(_), Call::Enqueue(item)) => Ok(self.not_put(item)),
            (Body::Fail(_), _) => self.settle(alloc, operation, None),
            _ => Ok(None),
        }
    }
}

/// A certificate of the shortest beginning in which one is found, and the place of its last event.
pub fn bag_failure(
    alloc: Global,
    events: &[Event],
) -> Result<Option<(usize, Certificate)>, OutOfMemory> {
    let mut search = Search::new(alloc);
    for (at, event) in events.iter().enumerate() {
        if let Some(certificate) = search.take_in(alloc, at, event)? {
            return Ok(Some((at, certificate)));
        }
    }
    Ok(None)
}
