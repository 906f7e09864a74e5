//! Operations one after the other as a search placed them, which share their beginnings, and the line that one of these ways makes.
use crate::returns::NEVER;
use lin_events::{Body, Event, OutOfMemory, Reply};
use lin_order::Placed;
use std::alloc::Global;

/// The place behind the last operation of a line and before its first one. An update that is put ahead of it stands last.
pub const END: u32 = 0;

/// An operation that was placed. Its name is where it stands among these.
#[derive(Clone, Copy)]
struct Placing {
    /// Where it was invoked.
    operation: u32,
    /// What was placed before it. In a line: what stands before it.
    before: u32,
    /// The update that it was put beside: a read behind it, an update ahead of it. In a line: what stands behind it.
    next: u32,
    /// The last one of the reads that were put behind an update, or the update itself. `END` of a read.
    tail: u32,
}

/// Operations that were placed. A line is made of them in their own memory.
#[derive(Drop)]
pub struct Placings {
    /// The first one stands for the end.
    all: Vec<Placing>,
}

impl Placings {
    /// None yet, with room for so many.
    pub fn new(alloc: Global, room: usize) -> Result<Placings, OutOfMemory> {
        let mut all = Vec::with_capacity(alloc, room.saturating_add(1))?;
        all.push(Placing {
            operation: 0,
            before: END,
            next: END,
            tail: END,
        })?;
        Ok(Placings { all })
    }

    /// How many operations were placed.
    pub fn count(&self) -> usize {
        self.all.len().saturating_sub(1)
    }

    /// Puts an update ahead of the other one, after what was placed before. Its name.
    #[inline(always)]
    pub fn put_ahead(
        &mut self,
        before: u32,
        operation: u32,
        update: u32,
    ) -> Result<u32, OutOfMemory> {
        let name = (self.all.len() & 0xffff_ffff) as u32;
        self.all.push(Placing {
            operation,
            before,
            next: update,
            tail: name,
        })?;
        Ok(name)
    }

    /// Puts a read behind the update, and the reads that were put there. Its name.
    #[inline(always)]
    pub fn put_behind(
        &mut self,
        before: u32,
        operation: u32,
        update: u32,
    ) -> Result<u32, OutOfMemory> {
        let name = (self.all.len() & 0xffff_ffff) as u32;
        self.all.push(Placing {
            operation,
            before,
            next: update,
            tail: END,
        })?;
        Ok(name)
    }

    /// Makes a line of the way to the last operation. How many operations stand in it, or none where one isn't named.
    pub fn line_up(&mut self, last: u32) -> Option<usize> {
        let first = self.turn(last);
        self.link_all(first)
    }

    /// So many operations of the line, with what they answered.
    pub fn order_of_line(
        &self,
        alloc: Global,
        count: usize,
        events: &[Event],
        returns: &[u32],
    ) -> Result<Option<Vec<Placed>>, OutOfMemory> {
        let mut order = Vec::with_capacity(alloc, count)?;
        let mut at = self.operation_after(END);
        for _ in 0..count {
            let Some(placing) = self.all.get(at as usize) else {
                return Ok(None);
            };
            order.push(Placed {
                at: placing.operation as usize,
                reply: placing.reply(events, returns),
            })?;
            at = placing.next;
        }
        Ok(Some(order))
    }

    /// What stands behind it in the line.
    fn operation_after(&self, name: u32) -> u32 {
        self.all
            .get(name as usize)
            .map_or(END, |placing| placing.next)
    }

    /// Turns the way round that leads to the last operation: each one has what was placed after it in the place of what was placed before it.
    /// The first one.
    fn turn(&mut self, last: u32) -> u32 {
        let mut at = last;
        let mut later = END;
        for _ in 0..self.all.len() {
            if at == END {
                break;
            }
            let Some(placing) = self.all.get_mut(at as usize) else {
                break;
            };
            let earlier = placing.before;
            placing.before = later;
            later = at;
            at = earlier;
        }
        later
    }

    /// Puts all operations of a way that was turned in the line. How many these are.
    fn link_all(&mut self, first: u32) -> Option<usize> {
        let mut at = first;
        let mut count: usize = 0;
        for _ in 0..self.all.len() {
            if at == END {
                break;
            }
            at = self.link(at)?;
            count = count.saturating_add(1);
        }
        Some(count)
    }

    /// Puts the operation in the line, in its place. The one that was placed after it.
    #[inline(always)]
    fn link(&mut self, name: u32) -> Option<u32> {
        let placing = self.all.get(name as usize)?;
        let later = placing.before;
        let update = placing.next;
        let is_read = placing.tail == END;
        let beside = self.all.get_mut(update as usize)?;
        let front = if is_read {
            let tail = beside.tail;
            beside.tail = name;
            tail
        } else {
            beside.before
        };
        self.stand_behind(front, name)?;
        Some(later)
    }

    /// Puts the operation behind the other one.
    #[inline(always)]
    fn stand_behind(&mut self, front: u32, name: u32) -> Option<()> {
        let other = self.all.get_mut(front as usize)?;
        let back = other.next;
        other.next = name;
        let own = self.all.get_mut(name as usize)?;
        own.before = front;
        own.next = back;
        self.all.get_mut(back as usize)?.before = name;
        Some(())
    }
}

impl Placing {
    /// What the operation answered: of reads those that returned are placed alone, and an update says no more than that it is done.
    #[inline(always)]
    fn reply(&self, events: &[Event], returns: &[u32]) -> Reply {
        if self.tail != END {
            return Reply::Done;
        }
        let end = returns
            .get(self.operation as usize)
            .copied()
            .unwrap_or(NEVER);
        match events.get(end as usize).map(|event| &event.body) {
            Some(Body::Ok(_, Reply::Value(value))) => Reply::Value(*value),
            _ => Reply::Done,
        }
    }
}
