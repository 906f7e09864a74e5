//! A search for a legal order of a register's operations that keeps a few beginnings. It puts off what doesn't show: an update is placed when
//! it returns, or when an operation returns that needs what it leaves. Then it stands last, or in a gap before an update that was placed
//! while it was open. Whatever it finds is checked; that it finds an order isn't promised.
ghost use Rattle.std.specs.Prelude.{◌≡◌, ◌≤◌};

use crate::acts::{Act, Acts, Waiting};
use crate::drafts::{Draft, DraftSpot, DraftStep, Gap, count_as_wide, widest_gap};
use crate::lines::LinkedLine;
use crate::paths::paths;
use crate::pool::{Offer, OpenReturn, ReturnPool, has_operation};
use crate::tries::tick_tries;
use crate::zones::register_failure;
use lin_events::{Event, Meter, OutOfMemory, Val};
use lin_order::Placed;
use std::alloc::Global;

/// So many beginnings are kept at most by the first search, and by the second where that finds nothing: they are enough for most histories.
const FEW: (usize, usize) = (2, 4);

/// The same of the searches that follow, one after the other.
const WIDTHS: (usize, usize, usize) = (16, 128, 1024);

/// So many updates are placed at most to make way for one operation, and after it.
const DEEP: usize = 5;

/// So many gaps where the register holds the same are kept, apart from the widest one.
const LIKE: usize = 2;

/// A search gives up that came to more steps than so many for each event and the free ones.
const STEPS: usize = 32;

/// Steps that any search may take.
const FREE: usize = 1 << 19;

/// The same of how often it looked whether one beginning serves for another.
const LOOKS: usize = 1024;

const FREE_LOOKS: usize = 1 << 22;

/// What a search has at hand.
#[derive(Drop)]
struct Attempt<'a> {
    alloc: Global,
    acts: &'a Acts,
    /// How many beginnings are kept.
    width: usize,
    pool: ReturnPool,
    steps: Vec<DraftStep>,
    /// Orders that were given up: others are made in their memory.
    spare: Vec<Draft>,
    /// How often it looked whether one order serves for another.
    looks: usize,
    /// The event that is looked at.
    now: usize,
}

/// Where updates can be put in an order.
#[derive(Clone, Copy)]
struct Slot {
    /// Before the update of this gap, or behind all others.
    gap: Option<usize>,
    held: Val,
    until: usize,
    /// What the updates have to leave, if it matters.
    back: Option<Val>,
    /// Whether a write may come first there. Where it may come first in several gaps, it can do all in the widest that it can in another.
    takes_writes: bool,
}

/// The place in the gap.
fn place_in(draft: &Draft, at: usize, gap: &Gap) -> Slot {
    Slot {
        gap: Some(at),
        held: gap.held,
        until: gap.until,
        back: if gap.is_free { None } else { Some(gap.held) },
        takes_writes: !gap.is_free || widest_gap(&draft.gaps) == Some(at),
    }
}

impl<'a> Attempt<'a> {
    /// Where the events begin.
    fn new(alloc: Global, acts: &'a Acts, width: usize) -> Attempt<'a> {
        Attempt {
            alloc,
            acts,
            width,
            pool: ReturnPool::new(alloc),
            steps: Vec::new(alloc),
            spare: Vec::new(alloc),
            looks: 0,
            now: 0,
        }
    }

    /// The operations in a legal order that goes on from the first one, if one is found.
    fn run(&mut self, first: &Draft) -> Result<Option<Vec<usize>>, OutOfMemory> {
        let mut drafts = Vec::new(self.alloc);
        drafts.push(self.copy_draft(first)?)?;
        for at in 0..self.acts.len() {
            drafts = self.drafts_after(drafts, at)?;
            if drafts.is_empty() || self.is_over() {
                return Ok(None);
            }
        }
        match drafts.first() {
            Some(draft) => self.operations_of(draft.step),
            None => Ok(None),
        }
    }

    /// An equal order.
    fn copy_draft(&mut self, draft: &Draft) -> Result<Draft, OutOfMemory> {
        let mut copy = match self.spare.pop() {
            Some(spare) => spare,
            None => Draft::new(self.alloc, draft.last, draft.held),
        };
        copy.assign(draft)?;
        Ok(copy)
    }

    /// Whether the search has to give up.
    fn is_over(&self) -> bool {
        let events = self.acts.len();
        self.steps.len() > events.saturating_mul(STEPS).saturating_add(FREE)
            || self.looks > events.saturating_mul(LOOKS).saturating_add(FREE_LOOKS)
    }

    /// The orders after the event.
    fn drafts_after(&mut self, drafts: Vec<Draft>, at: usize) -> Result<Vec<Draft>, OutOfMemory> {
        let mut drafts = drafts;
        self.now = at;
        if let Some(act) = self.acts.act(at) {
            self.begin_operation(&mut drafts, at, act)?;
        }
        match self.acts.begin(at) {
            Some(begin) => self.complete_operation(drafts, begin),
            None => Ok(drafts),
        }
    }

    /// The operation is open from here on.
    fn begin_operation(
        &mut self,
        drafts: &mut Vec<Draft>,
        operation: usize,
        act: Act,
    ) -> Result<(), OutOfMemory> {
        let open = OpenReturn {
            operation,
            act,
            last: self.acts.last_need(operation),
        };
        if self.acts.has_returned(operation) {
            self.pool.open.push(open)?;
            return self.read_at_once(drafts, &open);
        }
        let now = self.now;
        for draft in drafts.iter_mut() {
            draft.used.retain(|used| used.last > now);
        }
        self.pool.crash(self.alloc, open, now)
    }

    /// Places the open operation where it finds what the register holds.
    fn read_at_once(
        &mut self,
        drafts: &mut Vec<Draft>,
        open: &OpenReturn,
    ) -> Result<(), OutOfMemory> {
        for draft in drafts.iter_mut() {
            if open.act == Act::Read(draft.held) && !draft.has(open) {
                self.step(draft, open.operation, DraftSpot::behind_update(draft.last))?;
                draft.note(open.operation, open.act)?;
            }
        }
        Ok(())
    }

    /// Puts the operation in the order, unless there are more steps than can be named.
    fn step(
        &mut self,
        draft: &mut Draft,
        operation: usize,
        spot: DraftSpot,
    ) -> Result<(), OutOfMemory> {
        let (Ok(name), Ok(step)) = (
            u32::try_from(operation),
            u32::try_from(self.steps.len().saturating_add(1)),
        ) else {
            return Ok(());
        };
        self.steps.push(DraftStep {
            parent: draft.step,
            operation: name,
            spot,
        })?;
        draft.step = step;
        Ok(())
    }

    /// Open reads that found the value, and were invoked before the place, are put behind the update that left it.
    fn tell(
        &mut self,
        draft: &mut Draft,
        value: Val,
        update: usize,
        until: usize,
    ) -> Result<(), OutOfMemory> {
        for at in 0..self.pool.open.len() {
            if let Some(open) = self.pool.open.get(at)
                && open.operation < until
                && open.act == Act::Read(value)
                && !draft.has(open)
            {
                let open = *open;
                self.step(draft, open.operation, DraftSpot::behind_update(update))?;
                draft.note(open.operation, open.act)?;
            }
        }
        Ok(())
    }

    /// Puts the update behind all others.
    fn append(&mut self, draft: &mut Draft, offer: &Offer, value: Val) -> Result<(), OutOfMemory> {
        draft.gaps.push(Gap {
            next: offer.operation,
            until: self.now,
            held: draft.held,
            is_free: offer.act.is_write(),
        })?;
        draft.held = value;
        draft.last = offer.operation;
        self.step(draft, offer.operation, DraftSpot::Last)?;
        self.tell(draft, value, offer.operation, usize::MAX)
    }

    /// Puts the update in the gap.
    fn insert(
        &mut self,
        draft: &mut Draft,
        at: usize,
        offer: &Offer,
        value: Val,
    ) -> Result<(), OutOfMemory> {
        let Some(gap) = draft.gaps.get(at).copied() else {
            return Ok(());
        };
        draft.gaps.push(Gap {
            next: offer.operation,
            until: gap.until,
            held: gap.held,
            is_free: offer.act.is_write(),
        })?;
        if let Some(old) = draft.gaps.get_mut(at) {
            old.held = value;
        }
        self.step(draft, offer.operation, DraftSpot::before_update(gap.next))?;
        self.tell(draft, value, offer.operation, gap.until)
    }

    /// Puts the updates at the place, one behind the other.
    fn put_all(
        &mut self,
        draft: &mut Draft,
        place: &Slot,
        offers: &[Offer],
    ) -> Result<(), OutOfMemory> {
        for offer in offers {
            let Some(value) = offer.act.value_left() else {
                continue;
            };
            draft.take(offer)?;
            match place.gap {
                None => self.append(draft, offer, value)?,
                Some(at) => self.insert(draft, at, offer, value)?,
            }
        }
        Ok(())
    }

    /// Puts the order with these updates at the place with what is found.
    fn make(
        &mut self,
        draft: &Draft,
        place: &Slot,
        first: &[Offer],
        then: &[Offer],
        found: &mut Vec<Draft>,
    ) -> Result<(), OutOfMemory> {
        let mut next = self.copy_draft(draft)?;
        self.put_all(&mut next, place, first)?;
        self.put_all(&mut next, place, then)?;
        found.push(next)?;
        Ok(())
    }

    /// Puts the orders with these updates at the place with what is found, with further ones behind them where they have to leave a value.
    fn make_back(
        &mut self,
        draft: &Draft,
        place: &Slot,
        offers: &[Offer],
        found: &mut Vec<Draft>,
    ) -> Result<(), OutOfMemory> {
        let Some(left) = offers.last().and_then(|offer| offer.act.value_left()) else {
            return Ok(());
        };
        let back = place.back.unwrap_or(left);
        if back == left {
            return self.make(draft, place, offers, &[], found);
        }
        let mut others = self
            .pool
            .offers(self.alloc, draft, usize::MAX, place.until)?;
        others.retain(|other| !has_operation(offers, other.operation));
        let most = DEEP.saturating_sub(offers.len());
        for path in &paths(self.alloc, &others, left, back, most)? {
            self.make(draft, place, offers, path, found)?;
        }
        Ok(())
    }

    /// Puts the orders with what is found in which these updates stand at the place, unless another place does as well.
    fn follow(
        &mut self,
        draft: &Draft,
        place: &Slot,
        offers: &[Offer],
        found: &mut Vec<Draft>,
    ) -> Result<(), OutOfMemory> {
        let begins_with_write = offers.first().is_some_and(|offer| offer.act.is_write());
        if begins_with_write && !place.takes_writes {
            return Ok(());
        }
        self.make_back(draft, place, offers, found)
    }

    /// Puts the orders with what is found in which the goal stands at the place, behind any updates that make way for it.
    fn reach_at(
        &mut self,
        draft: &Draft,
        goal: &OpenReturn,
        place: &Slot,
        found: &mut Vec<Draft>,
    ) -> Result<(), OutOfMemory> {
        let update = goal.offer();
        let needed = goal.act.value_needed().unwrap_or(place.held);
        if needed == place.held {
            return self.follow(draft, place, update.as_slice(), found);
        }
        let offers = self
            .pool
            .offers(self.alloc, draft, goal.operation, place.until)?;
        let mut ways = paths(self.alloc, &offers, place.held, needed, DEEP)?;
        while let Some(way) = ways.pop() {
            let mut way = way;
            way.extend_from_slice(update.as_slice())?;
            self.follow(draft, place, &way, found)?;
        }
        Ok(())
    }

    /// Puts all that comes of the order, and in which the goal stands, with what is found: behind all others, and in each gap that it can be
    /// put in.
    fn reach(
        &mut self,
        draft: &Draft,
        goal: &OpenReturn,
        found: &mut Vec<Draft>,
    ) -> Result<(), OutOfMemory> {
        let end = Slot {
            gap: None,
            held: draft.held,
            until: usize::MAX,
            back: None,
            takes_writes: true,
        };
        self.reach_at(draft, goal, &end, found)?;
        if goal.act == Act::Write(draft.held) {
            return Ok(());
        }
        for (at, gap) in draft.gaps.iter().enumerate() {
            if gap.until > goal.operation {
                let place = place_in(draft, at, gap);
                self.reach_at(draft, goal, &place, found)?;
            }
        }
        Ok(())
    }

    /// The orders after the operation returned.
    fn complete_operation(
        &mut self,
        drafts: Vec<Draft>,
        operation: usize,
    ) -> Result<Vec<Draft>, OutOfMemory> {
        let Some(goal) = self.pool.open_return_of(operation) else {
            return Ok(drafts);
        };
        let mut found = Vec::new(self.alloc);
        let mut rest = drafts;
        while let Some(draft) = rest.pop() {
            if draft.has(&goal) {
                found.push(draft)?;
            } else {
                self.reach(&draft, &goal, &mut found)?;
                self.spare.push(draft)?;
            }
        }
        self.pool.close(operation);
        for draft in found.iter_mut() {
            draft.close(&goal);
        }
        self.best_drafts(found)
    }

    /// Gaps go in which nothing has to be put, but the widest one of those where any update can be put.
    fn thin_gaps(&self, draft: &mut Draft) {
        let least = self.pool.first_open();
        draft.gaps.retain(|gap| gap.until > least);
        draft
            .gaps
            .sort_unstable_by_key(|gap| usize::MAX - gap.until);
        let mut kept: usize = 0;
        for at in 0..draft.gaps.len() {
            if let Some(gap) = draft.gaps.get(at).copied()
                && self.is_needed(draft, kept, &gap)
                && let Some(place) = draft.gaps.get_mut(kept)
            {
                *place = gap;
                kept = kept.saturating_add(1);
            }
        }
        draft.gaps.truncate(kept);
    }

    /// Whether the gap is needed beside the first ones, of which so many are kept.
    fn is_needed(&self, draft: &Draft, count: usize, gap: &Gap) -> bool {
        let kept = &draft.gaps[..count.min(draft.gaps.len())];
        if gap.is_free && widest_gap(kept).is_none() {
            return true;
        }
        count_as_wide(kept, gap) < LIKE && self.pool.is_useful(draft, gap)
    }

    /// Whether an open operation can be placed no more, since what it needs isn't left any more.
    fn is_dead(&self, draft: &Draft) -> bool {
        for open in &self.pool.open {
            if let Some(value) = open.act.value_needed()
                && self.acts.source(open.operation) <= self.now
                && !draft.has(open)
                && !is_held(draft, open, value)
                && !self.pool.is_left(draft, open.operation, value)
            {
                return true;
            }
        }
        false
    }

    /// The orders that cost least of those with which there may be one of the history, without those for which others serve.
    fn best_drafts(&mut self, drafts: Vec<Draft>) -> Result<Vec<Draft>, OutOfMemory> {
        let mut sorted = drafts;
        sorted.sort_unstable_by_key(|draft| usize::MAX - draft.cost());
        let mut kept: Vec<Draft> = Vec::new(self.alloc);
        while let Some(draft) = sorted.pop() {
            let mut draft = draft;
            if kept.len() < self.width && self.is_worth(&mut draft, &kept) {
                kept.push(draft)?;
            } else {
                self.spare.push(draft)?;
            }
        }
        Ok(kept)
    }

    /// Whether there may be an order of the history with this one, and none of those that are kept serves for it.
    fn is_worth(&mut self, draft: &mut Draft, kept: &[Draft]) -> bool {
        self.thin_gaps(draft);
        self.looks = self.looks.saturating_add(kept.len());
        !self.is_dead(draft) && !is_served(kept, draft)
    }

    /// The operations in the order that ends with the step.
    fn operations_of(&self, step: u32) -> Result<Option<Vec<usize>>, OutOfMemory> {
        let mut chain = Vec::new(self.alloc);
        let mut at = step;
        for _ in 0..self.steps.len() {
            let Some(step) = (at as usize).checked_sub(1).and_then(|i| self.steps.get(i)) else {
                break;
            };
            chain.push(*step)?;
            at = step.parent;
        }
        let mut line = LinkedLine::new(self.alloc, self.acts.len())?;
        while let Some(step) = chain.pop() {
            if line.put(&step).is_none() {
                return Ok(None);
            }
        }
        Ok(Some(line.operations(self.alloc)?))
    }
}

/// Whether the register holds the value where the open update can be put.
fn is_held(draft: &Draft, open: &OpenReturn, value: Val) -> bool {
    if open.act.is_read() {
        return false;
    }
    if draft.held == value {
        return true;
    }
    for gap in &draft.gaps {
        if gap.held == value && gap.until > open.operation {
            return true;
        }
    }
    false
}

/// Whether one of the orders serves for this one.
fn is_served(drafts: &[Draft], draft: &Draft) -> bool {
    for other in drafts {
        if other.serves_for(draft) {
            return true;
        }
    }
    false
}

/// The operations with their replies.
fn attach_replies(
    alloc: Global,
    acts: &Acts,
    operations: &[usize],
) -> Result<Vec<Placed>, OutOfMemory> {
    let mut order = Vec::new(alloc);
    for at in operations {
        if let Some(act) = acts.act(*at) {
            order.push(Placed {
                at: *at,
                reply: act.reply(),
            })?;
        }
    }
    Ok(order)
}

/// An order of the operations that goes on from the first one, if a search finds one that keeps so many beginnings.
fn attempt_order(
    alloc: Global,
    acts: &Acts,
    first: &Draft,
    width: usize,
    meter: &mut Meter,
) -> Result<Option<Vec<Placed>>, OutOfMemory>
    ensures tries { meter.old.tries ≤ meter.new.tries }
    ensures others { meter.new ≡ record meter.old { tries = meter.new.tries } }
{
    let mut attempt = Attempt::new(alloc, acts, width);
    let found = attempt.run(first);
    tick_tries(meter, attempt.steps.len());
    match found? {
        Some(operations) => Ok(Some(attach_replies(alloc, acts, &operations)?)),
        None => Ok(None),
    }
}

/// What was placed where the events begin.
fn first_draft(
    alloc: Global,
    acts: &Acts,
    held: Val,
    open: &[Waiting],
) -> Result<Draft, OutOfMemory> {
    let mut draft = Draft::new(alloc, acts.len(), held);
    for (at, waiting) in open.iter().enumerate() {
        if waiting.reply.is_some()
            && let Some(act) = acts.act(at)
        {
            draft.note(at, act)?;
        }
    }
    Ok(draft)
}

/// What goes on with an order of a register, if a search finds it. The order so far leaves the value, and has those of the open operations
/// that have replies. What is given back stands behind it: open operations are named by their places among these, and those of the events
/// by the places of their invocations, counted from behind the last one. A try is counted for each operation that the search places.
pub fn register_order_from(
    alloc: Global,
    held: Val,
    open: &[Waiting],
    events: &[Event],
    meter: &mut Meter,
) -> Result<Option<Vec<Placed>>, OutOfMemory>
    ensures tries { meter.old.tries ≤ meter.new.tries }
    ensures others { meter.new ≡ record meter.old { tries = meter.new.tries } }
{
    let mut acts = Acts::from_events(alloc, open, events)?;
    if !acts.takes(open) {
        return Ok(None);
    }
    acts.look_ahead(alloc)?;
    let first = first_draft(alloc, &acts, held, open)?;
    if let Some(order) = attempt_narrowly(alloc, &acts, &first, meter)? {
        return Ok(Some(order));
    }
    attempt_widely(alloc, &acts, &first, meter)
}

/// An order of the operations that goes on from the first one, if a search finds one that keeps few beginnings.
fn attempt_narrowly(
    alloc: Global,
    acts: &Acts,
    first: &Draft,
    meter: &mut Meter,
) -> Result<Option<Vec<Placed>>, OutOfMemory>
    ensures tries { meter.old.tries ≤ meter.new.tries }
    ensures others { meter.new ≡ record meter.old { tries = meter.new.tries } }
{
    if let Some(order) = attempt_order(alloc, acts, first, FEW.0, meter)? {
        return Ok(Some(order));
    }
    attempt_order(alloc, acts, first, FEW.1, meter)
}

/// The same with more beginnings.
fn attempt_widely(
    alloc: Global,
    acts: &Acts,
    first: &Draft,
    meter: &mut Meter,
) -> Result<Option<Vec<Placed>>, OutOfMemory>
    ensures tries { meter.old.tries ≤ meter.new.tries }
    ensures others { meter.new ≡ record meter.old { tries = meter.new.tries } }
{
    if let Some(order) = attempt_order(alloc, acts, first, WIDTHS.0, meter)? {
        return Ok(Some(order));
    }
    if let Some(order) = attempt_order(alloc, acts, first, WIDTHS.1, meter)? {
        return Ok(Some(order));
    }
    attempt_order(alloc, acts, first, WIDTHS.2, meter)
}

/// An order of the events of a register, if a search finds one. Where operations are found that conflict, only one that keeps few beginnings
/// is made. A try is counted for each operation that the search places in a beginning.
pub fn register_order(
    alloc: Global,
    events: &[Event],
    meter: &mut Meter,
) -> Result<Option<Vec<Placed>>, OutOfMemory>
    ensures tries { meter.old.tries ≤ meter.new.tries }
    ensures others { meter.new ≡ record meter.old { tries = meter.new.tries } }
{
    let mut acts = Acts::from_events(alloc, &[], events)?;
    acts.look_ahead(alloc)?;
    let first = Draft::new(alloc, acts.len(), Val::Nil);
    if let Some(order) = attempt_narrowly(alloc, &acts, &first, meter)? {
        return Ok(Some(order));
    }
    if register_failure(alloc, events)?.is_some() {
        return Ok(None);
    }
    attempt_widely(alloc, &acts, &first, meter)
}
