//! A search for an item of a fifo queue that was taken out more often, between two ranks, than it can have been put in.
//!
//! In a legal order the k-th dequeue that takes something out takes what the k-th enqueue put in, whichever of several equal items that
//! is: each of the two has the rank k. Of a dequeue that returned an item the dequeues before it bound its rank from below, and those
//! that can stand ahead of it from above; and so it is with enqueues (specs/Ranks.antt). So where more dequeues of an item have their
//! ranks between two numbers than enqueues of it can have ranks there, there is no legal order (`overtaken_ranks_are_illegal`),
//! whatever crashed, failed or is open. It is meant for items that repeat, where debts (`debt_laws`) leave too many ways.
//!
//! `rank_failure` goes through the events once. Of each item it keeps three rising lists (`lines`): the enqueues by the least rank they
//! can have, those that returned by the rank they don't come up to, and the dequeues by their least rank. A dequeue that returns is
//! counted with those of its item that were invoked behind the same place, 64 at most, against the enqueues that two binary searches
//! leave. What comes up is then counted anew, over the events alone (`is_overtaken`).
//!
//! Promised: up to and with the event that is answered an item is overtaken, in any events, so that a queue has no legal order. Not
//! promised: that one is found, nor that it is the first.
//!
//! Time is little more than linear in the events, memory linear. The law is proved here, and follows no paper. More: docs/SEARCHES.md,
//! 'A queue, by ranks'.
ghost use Rattle.std.specs.Prelude.{◌<◌, IfOk, IfSome, length};
ghost use Rattle.lin_queues.specs.Ranks.{IsOvertakenAt};

use crate::checking::{RankWindow, is_overtaken};
use crate::lines::RankLine;
use lin_events::{Body, Call, Event, Item, OutOfMemory, Reply, Val};
use std::alloc::Global;
use std::collections::HashMap;

/// An operation that hasn't returned.
#[derive(Clone, Copy)]
enum PendingCall {
    /// An enqueue of the item, and where it was invoked.
    Put(Item, usize),
    /// A dequeue, where it was invoked, and how many had taken something out by then.
    Take(usize, usize),
}

/// What is known of the first events.
#[derive(Drop)]
struct Search {
    lines: HashMap<Item, RankLine>,
    pending: HashMap<u64, PendingCall>,
    /// How many enqueues returned.
    put: usize,
    /// How many were invoked, and haven't failed.
    puts: usize,
    /// How many dequeues took something out.
    taken: usize,
    /// How many were invoked, and haven't failed or found nothing.
    takes: usize,
}

impl Search {
    fn new(alloc: Global) -> Search {
        Search {
            lines: HashMap::new(alloc),
            pending: HashMap::new(alloc),
            put: 0,
            puts: 0,
            taken: 0,
            takes: 0,
        }
    }

    /// The operations of the item, from now on.
    fn add_line(&mut self, alloc: Global, item: Item) -> Result<(), OutOfMemory> {
        if !self.lines.contains_key(&item) {
            self.lines.insert(item, RankLine::new(alloc))?;
        }
        Ok(())
    }

    /// An enqueue of the item is invoked.
    fn put_in(&mut self, alloc: Global, at: usize, item: Item) -> Result<(), OutOfMemory> {
        self.puts = self.puts.saturating_add(1);
        self.add_line(alloc, item)?;
        match self.lines.get_mut(&item) {
            Some(line) => line.put(at, self.put),
            None => Ok(()),
        }
    }

    /// An operation is invoked.
    fn invoke(
        &mut self,
        alloc: Global,
        at: usize,
        process: u64,
        call: &Call,
    ) -> Result<(), OutOfMemory> {
        let pending = match call {
            Call::Enqueue(item) => {
                self.put_in(alloc, at, *item)?;
                PendingCall::Put(*item, at)
            }
            _ => {
                self.takes = self.takes.saturating_add(1);
                PendingCall::Take(at, self.taken)
            }
        };
        self.pending.insert(process, pending)?;
        Ok(())
    }

    /// The enqueue of the item returned there.
    fn put_ok(&mut self, at: usize, item: Item) -> Result<(), OutOfMemory> {
        self.put = self.put.saturating_add(1);
        match self.lines.get_mut(&item) {
            Some(line) => line.note_return(at, self.puts),
            None => Ok(()),
        }
    }

    /// The dequeue, which was invoked there, took the item out; whether it is overtaken.
    fn take_out(
        &mut self,
        alloc: Global,
        at: usize,
        rank: usize,
        item: Item,
    ) -> Result<Option<RankWindow>, OutOfMemory> {
        self.taken = self.taken.saturating_add(1);
        self.add_line(alloc, item)?;
        let Some(line) = self.lines.get_mut(&item) else {
            return Ok(None);
        };
        line.note_taking(at, rank)?;
        Ok(
            line.find_overtaken(self.takes)
                .map(|(from, places)| RankWindow { item, from, places }),
        )
    }

    /// The operation returned with the reply; whether an item is overtaken.
    fn note_return(
        &mut self,
        alloc: Global,
        at: usize,
        pending: PendingCall,
        reply: &Reply,
    ) -> Result<Option<RankWindow>, OutOfMemory> {
        match (pending, reply) {
            (PendingCall::Put(item, _), _) => {
                self.put_ok(at, item)?;
                Ok(None)
            }
            (PendingCall::Take(dequeue, rank), Reply::Value(Val::Item(item))) => {
                self.take_out(alloc, dequeue, rank, *item)
            }
            (PendingCall::Take(_, _), _) => {
                self.takes = self.takes.saturating_sub(1);
                Ok(None)
            }
        }
    }

    /// The operation failed.
    fn fail(&mut self, pending: PendingCall) {
        match pending {
            PendingCall::Put(item, at) => {
                self.puts = self.puts.saturating_sub(1);
                if let Some(line) = self.lines.get_mut(&item) {
                    line.note_failure(at);
                }
            }
            PendingCall::Take(_, _) => {
                self.takes = self.takes.saturating_sub(1);
            }
        }
    }

    /// The next event.
    fn take_in(
        &mut self,
        alloc: Global,
        at: usize,
        event: &Event,
    ) -> Result<Option<RankWindow>, OutOfMemory> {
        if let Body::Invoke(call) = &event.body {
            self.invoke(alloc, at, event.process, call)?;
            return Ok(None);
        }
        let Some(pending) = self.pending.get(&event.process).copied() else {
            return Ok(None);
        };
        match &event.body {
            Body::Ok(_, reply) => self.note_return(alloc, at, pending, reply),
            Body::Fail(_) => {
                self.fail(pending);
                Ok(None)
            }
            _ => Ok(None),
        }
    }
}

/// The first event with which an item is overtaken, as far as is seen, and how.
fn find_overtaking(
    alloc: Global,
    events: &[Event],
) -> Result<Option<(usize, RankWindow)>, OutOfMemory> {
    let mut search = Search::new(alloc);
    for (at, event) in events.iter().enumerate() {
        if let Some(window) = search.take_in(alloc, at, event)? {
            return Ok(Some((at, window)));
        }
    }
    Ok(None)
}

/// An event of a queue up to and with which an item was taken out more often, between two ranks, than it can have been put in, if one is found.
///
/// What is found is right of any events. That something is found isn't promised, nor that it is the first such event. At each dequeue
/// that returns those before it of the same item are looked at, 64 at most, each with a search among the item's enqueues: so time grows
/// little more than linearly in the events, and memory linearly. `OutOfMemory` is answered only where memory was refused.
pub fn rank_failure(alloc: Global, events: &[Event]) -> Result<Option<usize>, OutOfMemory>
    ensures inside { IfOk result (λ found. IfSome found (λ at. at < length events.now)) }
    ensures overtaken { IfOk result (λ found. IfSome found (λ at. IsOvertakenAt events.now at)) }
{
    let Some((at, window)) = find_overtaking(alloc, events)? else {
        return Ok(None);
    };
    if at >= events.len() {
        return Ok(None);
    }
    if is_overtaken(alloc, &events[..at + 1], &window)? {
        Ok(Some(at))
    } else {
        Ok(None)
    }
}
