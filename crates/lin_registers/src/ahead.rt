//! A search for a legal order of a register's operations that keeps a few configurations in place. The whole history is known, so what a read
//! finds is known where it is invoked. Whatever it finds is checked; that it finds an order isn't promised.
//!
//! A configuration is an order of the operations that returned so far, and of some that are open: what the register holds behind it, which
//! open operations are placed, and where updates can still be put ahead of others. A read is placed as soon as an order leaves what it
//! finds; an update where it returns, or where another operation needs what it leaves (just-in-time linearization, Lowe 2017). It stands
//! last, or right before a write, which overwrites it. Of configurations for which another one serves none is kept.
ghost use Rattle.std.specs.Prelude.{◌≡◌, ◌<◌, ◌≤◌};

use crate::deeds::{Configuration, Deed, NO_GAP, OpenDeed, WhichGap, WriteGap, code_of};
use crate::placings::{END, Placings};
use crate::returns::{FAILED, NEVER, OPEN, bit, lowest_slot, returns_of};
use crate::tries::tick_tries;
use lin_events::{Body, Call, Event, Meter, OutOfMemory, Reply, Val};
use lin_order::Placed;
use std::alloc::Global;

/// So many configurations are kept at most.
const WIDTH: usize = 8;

/// So many updates are placed at most to make way for one operation.
const DEEP: usize = 4;

/// So many ways to an operation are looked at.
const WAYS: usize = 256;

/// Of open updates that do the same and never return so many are kept.
const LIKE: u32 = 3;

/// The search, at some event.
#[derive(Drop)]
struct Ahead<'a> {
    events: &'a [Event],
    /// Where operations returned, and at their returns the slots that they have.
    returns: Vec<u32>,
    kept: [Configuration; WIDTH],
    count: usize,
    next: [Configuration; WIDTH],
    found: usize,
    open: [OpenDeed; OPEN],
    used: u64,
    reads: u64,
    writes: u64,
    sets: u64,
    /// Those that never return.
    crashed: u64,
    placings: Placings,
}

impl<'a> Ahead<'a> {
    fn new(
        alloc: Global,
        events: &'a [Event],
        returns: Vec<u32>,
    ) -> Result<Ahead<'a>, OutOfMemory> {
        let first = Configuration {
            held: code_of(Val::Nil),
            placed: 0,
            wide: NO_GAP,
            narrow: NO_GAP,
            last: END,
            step: END,
            crashed: 0,
        };
        let none = OpenDeed {
            found: 0,
            left: 0,
            at: 0,
            end: 0,
        };
        Ok(Ahead {
            events,
            returns,
            kept: [first; WIDTH],
            count: 1,
            next: [first; WIDTH],
            found: 0,
            open: [none; OPEN],
            used: 0,
            reads: 0,
            writes: 0,
            sets: 0,
            crashed: 0,
            placings: Placings::new(alloc, events.len())?,
        })
    }

    /// Whether there is a configuration left after all events.
    fn run(&mut self) -> Result<bool, OutOfMemory> {
        for (at, event) in self.events.iter().enumerate() {
            let goes_on = match &event.body {
                Body::Invoke(call) => self.invoke(at, *call)?,
                Body::Ok(_, _) => self.complete(at)?,
                Body::Fail(_) | Body::Info(_) => true,
            };
            if !goes_on {
                return Ok(false);
            }
        }
        Ok(true)
    }

    /// What the call does that returns there, if it may be placed. A read that never returns needn't be.
    #[inline(always)]
    fn deed(&self, call: Call, end: u32) -> Option<Deed> {
        match call {
            Call::Write(value) => Some(Deed::Write(code_of(value))),
            Call::Cas(from, to) => Some(Deed::Cas(code_of(from), code_of(to))),
            Call::Read if end != NEVER => match &self.events.get(end as usize)?.body {
                Body::Ok(_, Reply::Value(value)) => Some(Deed::Read(code_of(*value))),
                _ => None,
            },
            _ => None,
        }
    }

    /// An operation is invoked. Whether the search goes on.
    #[inline(always)]
    fn invoke(&mut self, at: usize, call: Call) -> Result<bool, OutOfMemory> {
        let end = self.returns.get(at).copied().unwrap_or(FAILED);
        if end == FAILED {
            return Ok(true);
        }
        let Some(deed) = self.deed(call, end) else {
            return Ok(end == NEVER);
        };
        if end == NEVER && self.is_spared(deed) {
            return Ok(true);
        }
        if self.used == u64::MAX {
            return Ok(false);
        }
        let slot = lowest_slot(!self.used);
        if end == NEVER {
            self.crashed |= bit(slot);
        } else if let Some(mate) = self.returns.get_mut(end as usize) {
            *mate = (slot & 63) as u32;
        }
        self.begin(slot, deed, (at & 0xffff_ffff) as u32, end)?;
        Ok(true)
    }

    /// The operation is open from here on.
    #[inline(always)]
    fn begin(&mut self, slot: usize, deed: Deed, at: u32, end: u32) -> Result<(), OutOfMemory>
        requires { slot < 64 }
    {
        let own = bit(slot);
        self.used |= own;
        let end = if end == NEVER { u32::MAX } else { end };
        match deed {
            Deed::Read(found) => {
                self.open[slot] = OpenDeed {
                    found,
                    left: 0,
                    at,
                    end,
                };
                self.reads |= own;
                self.read_at_once(own, found, at)
            }
            Deed::Write(left) => {
                self.open[slot] = OpenDeed {
                    found: 0,
                    left,
                    at,
                    end,
                };
                self.writes |= own;
                Ok(())
            }
            Deed::Cas(found, left) => {
                self.open[slot] = OpenDeed {
                    found,
                    left,
                    at,
                    end,
                };
                self.sets |= own;
                Ok(())
            }
        }
    }

    /// Places the read where the register holds what it finds.
    #[inline(always)]
    fn read_at_once(&mut self, own: u64, found: u64, at: u32) -> Result<(), OutOfMemory> {
        for i in 0..self.count.min(WIDTH) {
            if self.kept[i].held == found {
                self.kept[i].step = self
                    .placings
                    .put_behind(self.kept[i].step, at, self.kept[i].last)?;
                self.kept[i].placed |= own;
            }
        }
        Ok(())
    }

    /// Whether the update, which never returns, is needed no more: enough others do the same. Those that are placed in all configurations go.
    #[inline(never)]
    fn is_spared(&mut self, deed: Deed) -> bool {
        let mut all = self.crashed;
        for i in 0..self.count.min(WIDTH) {
            all &= self.kept[i].placed;
        }
        self.close(all);
        for i in 0..self.count.min(WIDTH) {
            self.kept[i].placed &= !all;
        }
        let mut like: u32 = 0;
        for slot in 0..OPEN {
            if self.crashed & bit(slot) != 0 && self.does(slot, deed) {
                like = like.saturating_add(1);
            }
        }
        like >= LIKE
    }

    /// Whether the open update does the same.
    fn does(&self, slot: usize, deed: Deed) -> bool
        requires { slot < 64 }
    {
        let open = self.open[slot];
        match deed {
            Deed::Read(_) => false,
            Deed::Write(left) => self.writes & bit(slot) != 0 && open.left == left,
            Deed::Cas(found, left) => {
                self.sets & bit(slot) != 0 && open.left == left && open.found == found
            }
        }
    }

    /// The operations are open no longer.
    #[inline(always)]
    fn close(&mut self, slots: u64) {
        self.used &= !slots;
        self.reads &= !slots;
        self.writes &= !slots;
        self.sets &= !slots;
        self.crashed &= !slots;
    }

    /// An operation returns. Whether a configuration is left.
    #[inline(always)]
    fn complete(&mut self, at: usize) -> Result<bool, OutOfMemory> {
        let slot = (self.returns.get(at).copied().unwrap_or(0) & 63) as usize;
        let own = bit(slot);
        if self.count == 1 && self.kept[0].placed & own != 0 {
            self.close(own);
            self.kept[0].placed &= !own;
            return Ok(true);
        }
        self.place_in_all(slot, (at & 0xffff_ffff) as u32)?;
        self.close(own);
        for i in 0..self.found.min(WIDTH) {
            self.kept[i] = self.next[i];
            self.kept[i].placed &= !own;
        }
        self.count = self.found;
        Ok(self.found > 0)
    }

    /// What comes of the configurations in which the operation is placed.
    #[inline(always)]
    fn place_in_all(&mut self, slot: usize, now: u32) -> Result<(), OutOfMemory>
        requires { slot < 64 }
    {
        let own = bit(slot);
        self.found = 0;
        for i in 0..self.count.min(WIDTH) {
            let configuration = self.kept[i];
            if configuration.placed & own != 0 {
                self.keep(configuration);
            } else if self.writes & own != 0 {
                self.write(configuration, slot, now)?;
            } else {
                self.reach(configuration, slot, WhichGap::Last, now)?;
                self.reach(configuration, slot, WhichGap::Wide, now)?;
                self.reach(configuration, slot, WhichGap::Narrow, now)?;
            }
        }
        Ok(())
    }

    /// Places the write: in the widest gap, and last.
    #[inline(always)]
    fn write(
        &mut self,
        configuration: Configuration,
        slot: usize,
        now: u32,
    ) -> Result<(), OutOfMemory>
        requires { slot < 64 }
    {
        if self.open[slot].at < configuration.wide.until {
            let hidden = self.insert(configuration, WhichGap::Wide, slot)?;
            self.keep(hidden);
        }
        let last = self.append(configuration, slot, now)?;
        self.keep(last);
        Ok(())
    }

    /// Places the operation, which finds something, in the spot, behind open updates that make way for it.
    #[inline(never)]
    fn reach(
        &mut self,
        configuration: Configuration,
        slot: usize,
        spot: WhichGap,
        now: u32,
    ) -> Result<(), OutOfMemory>
        requires { slot < 64 }
    {
        let gap = configuration.gap(spot);
        let goal = self.open[slot];
        if goal.at >= gap.until {
            return Ok(());
        }
        let mut way = [slot; DEEP];
        if self.reads & bit(slot) == 0 && goal.found == gap.held {
            return self.place(configuration, slot, spot, &way, 0, now);
        }
        let mut taken = configuration.placed | bit(slot);
        let mut left = [0; DEEP];
        left[0] = self.updates_leaving(goal.found, gap.until, taken);
        let mut depth: usize = 0;
        for _ in 0..WAYS {
            let rest = left[depth & 3];
            if rest == 0 {
                if depth == 0 {
                    break;
                }
                depth -= 1;
                taken &= !bit(way[depth & 3]);
                continue;
            }
            let other = lowest_slot(rest);
            left[depth & 3] = rest & rest.wrapping_sub(1);
            way[depth & 3] = other;
            let is_write = self.writes & bit(other) != 0;
            let needed = self.open[other].found;
            if is_write || needed == gap.held {
                if !is_write || spot != WhichGap::Narrow {
                    self.place(configuration, slot, spot, &way, (depth & 3) + 1, now)?;
                }
            } else if depth < 3 {
                taken |= bit(other);
                depth += 1;
                left[depth & 3] = self.updates_leaving(needed, gap.until, taken);
            }
        }
        Ok(())
    }

    /// The open updates that leave the value, and were invoked before the place. Of those that do the same the one that returns first.
    #[inline(always)]
    fn updates_leaving(&self, value: u64, until: u32, taken: u64) -> u64 {
        let mut leaving = 0;
        let mut rest = (self.writes | self.sets) & !taken;
        for _ in 0..OPEN {
            if rest == 0 {
                break;
            }
            let slot = lowest_slot(rest);
            rest &= rest.wrapping_sub(1);
            if self.open[slot].left == value && self.open[slot].at < until {
                leaving = self.first_of(leaving, slot);
            }
        }
        leaving
    }

    /// With one update more: of two that do the same the one that returns first.
    #[inline(always)]
    fn first_of(&self, slots: u64, slot: usize) -> u64
        requires { slot < 64 }
    {
        let open = self.open[slot];
        let is_set = self.sets & bit(slot) != 0;
        let mut rest = slots;
        for _ in 0..OPEN {
            if rest == 0 {
                break;
            }
            let other = lowest_slot(rest);
            rest &= rest.wrapping_sub(1);
            if self.open[other].found == open.found && (self.sets & bit(other) != 0) == is_set {
                return if self.open[other].end <= open.end {
                    slots
                } else {
                    slots & !bit(other) | bit(slot)
                };
            }
        }
        slots | bit(slot)
    }

    /// Keeps the configuration with the operation in the spot, behind the first so many updates of the way, of which the last one comes first.
    #[inline(never)]
    fn place(
        &mut self,
        configuration: Configuration,
        slot: usize,
        spot: WhichGap,
        way: &[usize; DEEP],
        count: usize,
        now: u32,
    ) -> Result<(), OutOfMemory>
        requires { slot < 64 }
    {
        let mut next = configuration;
        for i in (0..count.min(DEEP)).rev() {
            next = self.put(next, spot, way[i] & 63, now)?;
        }
        if self.reads & bit(slot) == 0 {
            next = self.put(next, spot, slot, now)?;
        }
        if next.placed & bit(slot) != 0 {
            self.keep(next);
        }
        Ok(())
    }

    /// The configuration with the update in the spot.
    #[inline(always)]
    fn put(
        &mut self,
        configuration: Configuration,
        spot: WhichGap,
        slot: usize,
        now: u32,
    ) -> Result<Configuration, OutOfMemory>
        requires { slot < 64 }
    {
        match spot {
            WhichGap::Last => self.append(configuration, slot, now),
            WhichGap::Wide | WhichGap::Narrow => self.insert(configuration, spot, slot),
        }
    }

    /// The configuration with the update behind all others.
    #[inline(always)]
    fn append(
        &mut self,
        configuration: Configuration,
        slot: usize,
        now: u32,
    ) -> Result<Configuration, OutOfMemory>
        requires { slot < 64 }
    {
        let update = self.open[slot];
        let mut next = configuration;
        next.step = self.placings.put_ahead(next.step, update.at, END)?;
        next.last = next.step;
        if self.writes & bit(slot) != 0 {
            if self.sets != 0 && self.needs(&next, next.wide) {
                next.narrow = next.wide;
            } else if next.narrow.until != 0 && !self.needs(&next, next.narrow) {
                next.narrow = NO_GAP;
            }
            next.wide = WriteGap {
                held: next.held,
                until: now,
                next: next.last,
            };
        }
        next.held = update.left;
        self.note(&mut next, slot);
        self.see(next, update.left, u32::MAX)
    }

    /// The configuration with the update in the gap. Ahead of a write there is a gap too.
    #[inline(always)]
    fn insert(
        &mut self,
        configuration: Configuration,
        spot: WhichGap,
        slot: usize,
    ) -> Result<Configuration, OutOfMemory>
        requires { slot < 64 }
    {
        let update = self.open[slot];
        let old = configuration.gap(spot);
        let mut next = configuration;
        next.step = self.placings.put_ahead(next.step, update.at, old.next)?;
        self.note(&mut next, slot);
        let gap = WriteGap {
            held: update.left,
            ..old
        };
        if spot == WhichGap::Narrow {
            next.narrow = gap;
        } else {
            next.wide = gap;
            self.split_gap(&mut next, slot, old);
        }
        self.see(next, update.left, old.until)
    }

    /// Keeps the gap ahead of the write that was put in it, where a compare-and-set needs that.
    #[inline(always)]
    fn split_gap(&self, configuration: &mut Configuration, slot: usize, old: WriteGap)
        requires { slot < 64 }
    {
        if self.sets != 0
            && self.writes & bit(slot) != 0
            && self.needs(configuration, old)
            && !self.needs(configuration, configuration.narrow)
        {
            configuration.narrow = WriteGap {
                next: configuration.step,
                ..old
            };
        }
    }

    /// The update is placed.
    #[inline(always)]
    fn note(&self, configuration: &mut Configuration, slot: usize) {
        configuration.placed |= bit(slot);
        if self.crashed & bit(slot) != 0 {
            configuration.crashed = configuration.crashed.saturating_add(1);
        }
    }

    /// Whether an open compare-and-set that isn't placed finds in the gap what it needs.
    #[inline(always)]
    fn needs(&self, configuration: &Configuration, gap: WriteGap) -> bool {
        let mut rest = self.sets & !configuration.placed;
        for _ in 0..OPEN {
            if rest == 0 {
                break;
            }
            let slot = lowest_slot(rest);
            rest &= rest.wrapping_sub(1);
            if self.open[slot].found == gap.held && self.open[slot].at < gap.until {
                return true;
            }
        }
        false
    }

    /// The configuration with the open reads of the value behind the update that left it, which was placed just now, of those that were
    /// invoked before the place.
    #[inline(always)]
    fn see(
        &mut self,
        configuration: Configuration,
        value: u64,
        until: u32,
    ) -> Result<Configuration, OutOfMemory> {
        let mut next = configuration;
        let update = next.step;
        let mut rest = self.reads & !next.placed;
        for _ in 0..OPEN {
            if rest == 0 {
                break;
            }
            let slot = lowest_slot(rest);
            rest &= rest.wrapping_sub(1);
            let read = self.open[slot];
            if read.found == value && read.at < until {
                next.placed |= bit(slot);
                next.step = self.placings.put_behind(next.step, read.at, update)?;
            }
        }
        Ok(next)
    }

    /// Keeps the configuration, unless another one serves for it. Where there are too many the one that placed most goes.
    #[inline(always)]
    fn keep(&mut self, configuration: Configuration) {
        for i in 0..self.found.min(WIDTH) {
            let other = self.next[i];
            if self.serves(&other, &configuration) {
                return;
            }
            if self.serves(&configuration, &other) {
                self.next[i] = configuration;
                return;
            }
        }
        if self.found < WIDTH {
            self.next[self.found] = configuration;
            self.found += 1;
        } else {
            self.keep_cheap(configuration);
        }
    }

    /// Keeps the configuration in place of one that placed more.
    #[inline(never)]
    fn keep_cheap(&mut self, configuration: Configuration) {
        let mut dearest = 0;
        let mut most = self.cost(&configuration);
        for i in 0..WIDTH {
            let other = self.next[i];
            let cost = self.cost(&other);
            if cost > most {
                most = cost;
                dearest = i + 1;
            }
        }
        if dearest > 0 {
            self.next[(dearest - 1) & 7] = configuration;
        }
    }

    /// How much it placed: above all updates that never return.
    fn cost(&self, configuration: &Configuration) -> u32 {
        let placed = (configuration.placed & (self.writes | self.sets)).count_ones();
        configuration
            .crashed
            .saturating_mul(1024)
            .saturating_add(placed)
    }

    /// Whether what comes of the other one comes of this one too: writes that it lacks can be put in its widest gap.
    #[inline(always)]
    fn serves(&self, configuration: &Configuration, other: &Configuration) -> bool {
        if configuration.held != other.held
            || configuration.wide.until < other.wide.until
            || configuration.crashed > other.crashed
        {
            return false;
        }
        let more = configuration.placed & !other.placed;
        let less = other.placed & !configuration.placed;
        if (more | less) & self.sets != 0 || less & self.reads != 0 || more & self.writes != 0 {
            return false;
        }
        self.has_room(configuration, less & self.writes)
            && (self.sets == 0
                || self.covers(configuration, other, other.wide)
                    && self.covers(configuration, other, other.narrow))
    }

    /// Whether the writes can be put in its widest gap.
    #[inline(always)]
    fn has_room(&self, configuration: &Configuration, writes: u64) -> bool {
        let mut rest = writes;
        for _ in 0..OPEN {
            if rest == 0 {
                break;
            }
            let slot = lowest_slot(rest);
            rest &= rest.wrapping_sub(1);
            if self.open[slot].at >= configuration.wide.until {
                return false;
            }
        }
        true
    }

    /// Whether it has such a gap too, if the other one needs it.
    #[inline(always)]
    fn covers(&self, configuration: &Configuration, other: &Configuration, gap: WriteGap) -> bool {
        let wide = configuration.wide;
        let narrow = configuration.narrow;
        wide.held == gap.held && wide.until >= gap.until
            || narrow.held == gap.held && narrow.until >= gap.until
            || !self.needs(other, gap)
    }

    /// The order of the first configuration.
    fn order(&mut self, alloc: Global) -> Result<Option<Vec<Placed>>, OutOfMemory> {
        let Some(count) = self.placings.line_up(self.kept[0].step) else {
            return Ok(None);
        };
        self.placings
            .order_of_line(alloc, count, self.events, &self.returns)
    }
}

/// An order of the events of a register, if the search that keeps few configurations finds one. A try is counted for each operation that is
/// placed in one.
pub fn order_ahead(
    alloc: Global,
    events: &[Event],
    meter: &mut Meter,
) -> Result<Option<Vec<Placed>>, OutOfMemory>
    ensures tries { meter.old.tries ≤ meter.new.tries }
    ensures others { meter.new ≡ record meter.old { tries = meter.new.tries } }
{
    let Some(returns) = returns_of(alloc, events)? else {
        return Ok(None);
    };
    let mut ahead = Ahead::new(alloc, events, returns)?;
    let found = ahead.run();
    tick_tries(meter, ahead.placings.count());
    if !found? {
        return Ok(None);
    }
    ahead.order(alloc)
}
