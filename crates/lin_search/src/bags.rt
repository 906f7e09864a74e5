//! A search for a legal order of a bag's operations: each element is put in as late as its operations allow, and taken out as late, or where
//! a dequeue that finds nothing needs it gone. Whatever it finds is checked; that it finds one isn't promised.
use crate::copies::{Bag, Copies, Moment};
use lin_events::{Event, OutOfMemory, Reply, Val};
use lin_order::Placed;
use std::alloc::Global;

/// An order that is being made.
#[derive(Drop)]
struct Making {
    copies: Vec<Copies>,
    /// Copies of which some are in the bag, and maybe others, each once.
    held: Vec<usize>,
    /// Dequeues that never return, and aren't placed.
    open: Vec<usize>,
    /// Open dequeues that find nothing, and aren't placed.
    vain: Vec<usize>,
    order: Vec<Placed>,
}

impl Making {
    fn new(alloc: Global, copies: Vec<Copies>) -> Making {
        Making {
            copies,
            held: Vec::new(alloc),
            open: Vec::new(alloc),
            vain: Vec::new(alloc),
            order: Vec::new(alloc),
        }
    }

    /// The enqueue that was invoked there puts one in.
    fn put_in(&mut self, place: usize, enqueue: usize) -> Result<(), OutOfMemory> {
        if let Some(copies) = self.copies.get_mut(place) {
            if !copies.is_listed {
                self.held.push(place)?;
                copies.is_listed = true;
            }
            copies.inside = copies.inside.saturating_add(1);
            self.order.push(Placed {
                at: enqueue,
                reply: Reply::Done,
            })?;
        }
        Ok(())
    }

    /// The dequeue that was invoked there takes one out.
    fn take_out(&mut self, place: usize, dequeue: usize) -> Result<(), OutOfMemory> {
        if let Some(copies) = self.copies.get_mut(place) {
            copies.inside = copies.inside.saturating_sub(1);
            self.order.push(Placed {
                at: dequeue,
                reply: Reply::Value(Val::Item(copies.item)),
            })?;
        }
        Ok(())
    }

    /// The dequeue returns, and took one out; whether it can have.
    fn complete(&mut self, place: usize, rank: usize) -> Result<bool, OutOfMemory> {
        let Some(copies) = self.copies.get_mut(place) else {
            return Ok(false);
        };
        let Some(dequeue) = copies.finish_leaving(rank) else {
            return Ok(true);
        };
        if copies.inside == 0 {
            let Some(enqueue) = copies.next_arrival() else {
                return Ok(false);
            };
            self.put_in(place, enqueue)?;
        }
        self.take_out(place, dequeue)?;
        Ok(true)
    }

    /// An open dequeue that can take one of the copies out.
    fn taker(&mut self, place: usize) -> Option<usize> {
        let copies = self.copies.get_mut(place)?;
        if let Some(dequeue) = copies.next_exit() {
            return Some(dequeue);
        }
        if self.open.is_empty() || !copies.spares_one() {
            return None;
        }
        self.open.pop()
    }

    /// Takes all of the copies out, if it can.
    fn clear(&mut self, place: usize) -> Result<bool, OutOfMemory> {
        let inside = self.copies.get(place).map_or(0, |copies| copies.inside);
        for _ in 0..inside {
            let Some(dequeue) = self.taker(place) else {
                return Ok(false);
            };
            self.take_out(place, dequeue)?;
        }
        Ok(true)
    }

    /// Takes the copies at this place of the list from it, if none of them is in the bag; else how many no open dequeue is known to take out.
    fn unlist(&mut self, at: usize) -> Option<usize> {
        let copies = self.copies.get_mut(*self.held.get(at)?)?;
        if copies.inside > 0 {
            return Some(copies.count_not_taken());
        }
        copies.is_listed = false;
        if at < self.held.len() {
            self.held.swap_remove(at);
        }
        None
    }

    /// Whether open dequeues are enough to take all out that is in the bag.
    fn can_empty(&mut self) -> bool {
        let mut at: usize = 0;
        let mut lacking: usize = 0;
        for _ in 0..self.held.len() {
            if let Some(more) = self.unlist(at) {
                lacking = lacking.saturating_add(more);
                at = at.saturating_add(1);
            }
            if lacking > self.open.len() {
                return false;
            }
        }
        true
    }

    /// Takes all out that is in the bag, if it can.
    fn empty(&mut self) -> Result<bool, OutOfMemory> {
        if !self.can_empty() {
            return Ok(false);
        }
        for place in 0..self.held.len() {
            let Some(copies) = self.held.get(place).copied() else {
                break;
            };
            if !self.clear(copies)? {
                return Ok(false);
            }
        }
        Ok(true)
    }

    /// Places the dequeues that find nothing where the bag is empty, if it can be.
    fn find_nothing(&mut self) -> Result<(), OutOfMemory> {
        if self.vain.is_empty() || !self.empty()? {
            return Ok(());
        }
        for dequeue in &self.vain {
            self.order.push(Placed {
                at: *dequeue,
                reply: Reply::Value(Val::Nil),
            })?;
        }
        self.vain.clear();
        Ok(())
    }

    /// An enqueue is invoked, or returns.
    fn arrive(&mut self, place: usize, moment: Moment) -> Result<(), OutOfMemory> {
        let Some(copies) = self.copies.get_mut(place) else {
            return Ok(());
        };
        match moment {
            Moment::EnqueueBegins(_, enqueue) => copies.arrive(enqueue),
            Moment::EnqueueEnds(_, enqueue) => {
                if copies.finish_arrival(enqueue) {
                    self.put_in(place, enqueue.begin)?;
                }
                Ok(())
            }
            _ => Ok(()),
        }
    }

    /// What the event at the place tells; whether an order can be made of it.
    fn reach(&mut self, at: usize, moment: Moment) -> Result<bool, OutOfMemory> {
        match moment {
            Moment::EnqueueBegins(place, _) | Moment::EnqueueEnds(place, _) => {
                self.arrive(place, moment)?;
            }
            Moment::DequeueBegins(place, rank) => {
                if let Some(copies) = self.copies.get_mut(place) {
                    copies.leave(rank)?;
                }
            }
            Moment::DequeueEnds(place, rank) => return self.complete(place, rank),
            Moment::VainBegins => self.vain.push(at)?,
            Moment::VainEnds(dequeue) => return Ok(!self.vain.contains(&dequeue)),
            Moment::OpenBegins => self.open.push(at)?,
        }
        Ok(true)
    }
}

/// A legal order of the events of a bag, if one is found.
pub fn bag_order(alloc: Global, events: &[Event]) -> Result<Option<Vec<Placed>>, OutOfMemory> {
    let Some(bag) = Bag::of(alloc, events)? else {
        return Ok(None);
    };
    let mut making = Making::new(alloc, bag.copies);
    for (at, moment) in bag.moments.iter().enumerate() {
        if let Some(moment) = moment {
            if !making.reach(at, *moment)? {
                return Ok(None);
            }
            making.find_nothing()?;
        }
    }
    Ok(Some(making.order))
}
