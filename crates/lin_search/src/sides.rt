//! The search for the order in which a queue's items were put in, and taken out, of which both sides are made at once.
use crate::links::Links;
use crate::numbers::{Numbers, list_of, mix};
use crate::operations::{CallSpan, NEVER, PossibleOperation, gather_operations};
use crate::sequence::{Pair, Passing, sequence_of};
use lin_events::{Body, Call, Event, OutOfMemory, Reply, Val};
use lin_order::Placed;
use std::alloc::Global;
use std::collections::HashSet;

/// Stands for the item of a dequeue that found nothing.
const NOTHING: usize = 0;

/// Operations that aren't ranked, by where they begin and by where they end.
#[derive(Drop)]
struct Side {
    by_begin: Links,
    by_end: Links,
}

/// An operation's number, and where it ends.
#[derive(Clone, Copy)]
struct Ending {
    end: usize,
    number: usize,
}

impl Side {
    /// That of the operations, which stand in the order in which they begin.
    fn of(alloc: Global, passings: &[Passing], members: &[usize]) -> Result<Side, OutOfMemory> {
        let mut endings = Vec::with_capacity(alloc, members.len())?;
        for number in members {
            endings.push(Ending {
                end: end_of(passings, *number),
                number: *number,
            })?;
        }
        endings.sort_unstable_by_key(|ending| (ending.end, ending.number));
        let mut ordered = Vec::with_capacity(alloc, members.len())?;
        for ending in &endings {
            ordered.push(ending.number)?;
        }
        Ok(Side {
            by_begin: Links::of(alloc, passings.len(), members)?,
            by_end: Links::of(alloc, passings.len(), &ordered)?,
        })
    }

    fn take_out(&mut self, number: usize) {
        self.by_begin.take_out(number);
        self.by_end.take_out(number);
    }

    fn put_back(&mut self, number: usize) {
        self.by_end.put_back(number);
        self.by_begin.put_back(number);
    }

    /// Where the first one ends.
    fn limit(&self, passings: &[Passing]) -> usize {
        end_of(passings, self.by_end.first())
    }

    /// The same of all but one.
    fn limit_without(&self, passings: &[Passing], number: usize) -> usize {
        let first = self.by_end.first();
        if first == number {
            return end_of(passings, self.by_end.next_of(first));
        }
        end_of(passings, first)
    }

    /// Leaves in `window` those that begin before the limit.
    fn widen(
        &self,
        passings: &[Passing],
        limit: usize,
        window: &mut Vec<usize>,
    ) -> Result<(), OutOfMemory> {
        window.clear();
        let mut number = self.by_begin.first();
        for _ in 0..passings.len() {
            if begin_of(passings, number) >= limit {
                break;
            }
            window.push(number)?;
            number = self.by_begin.next_of(number);
        }
        Ok(())
    }
}

fn begin_of(passings: &[Passing], number: usize) -> usize {
    passings
        .get(number)
        .map_or(NEVER, |passing| passing.span.begin)
}

fn end_of(passings: &[Passing], number: usize) -> usize {
    passings
        .get(number)
        .map_or(NEVER, |passing| passing.span.end)
}

fn item_of(passings: &[Passing], number: usize) -> usize {
    passings.get(number).map_or(NOTHING, |passing| passing.item)
}

/// Leaves at each item that of the operations in the window which ends first.
fn mark(firsts: &mut [Option<Ending>], passings: &[Passing], window: &[usize]) {
    for number in window {
        let end = end_of(passings, *number);
        if let Some(first) = firsts.get_mut(item_of(passings, *number))
            && first.is_none_or(|first| end < first.end)
        {
            *first = Some(Ending {
                end,
                number: *number,
            });
        }
    }
}

/// Leaves nothing there.
fn unmark(firsts: &mut [Option<Ending>], passings: &[Passing], window: &[usize]) {
    for number in window {
        if let Some(first) = firsts.get_mut(item_of(passings, *number)) {
            *first = None;
        }
    }
}

/// A pair that can be next. The greatest is tried first.
#[derive(Clone, Copy)]
struct Choice {
    pair: Pair,
    /// Whether its dequeue returned, and how early it ends, or else its enqueue.
    rank: (bool, usize),
}

/// A step of the search.
#[derive(Clone, Copy)]
struct SearchStep {
    /// How many choices are of earlier steps.
    base: usize,
    /// The one that was made.
    made: Option<Pair>,
    /// What `latest` was before.
    latest: usize,
}

#[derive(Drop)]
struct Search {
    passings: Vec<Passing>,
    /// Enqueues, and dequeues that found nothing.
    ins: Side,
    /// Dequeues that returned.
    outs: Side,
    /// Dequeues that never returned, and how many of them are ranked.
    open: Vec<usize>,
    opened: usize,
    first_in: Vec<Option<Ending>>,
    first_out: Vec<Option<Ending>>,
    ins_window: Vec<usize>,
    outs_window: Vec<usize>,
    fresh: Vec<Choice>,
    choices: Vec<Choice>,
    steps: Vec<SearchStep>,
    /// Sets of ranked operations that were come to, and the present one, as numbers.
    seen: HashSet<u64>,
    mark: u64,
    /// Where the latest of the ranked dequeues begins.
    latest: usize,
    /// How many dequeues that returned aren't ranked.
    left: usize,
    tried: usize,
}

/// The item that the operation put in or took out; none of a dequeue that never returned.
fn item_passed(
    events: &[Event],
    operation: &PossibleOperation,
    numbers: &mut Numbers,
) -> Result<Option<usize>, OutOfMemory> {
    if let Call::Enqueue(item) = operation.call {
        return Ok(Some(numbers.of_value(Val::Item(item))?));
    }
    let Some(event) = events.get(operation.span.end) else {
        return Ok(None);
    };
    match &event.body {
        Body::Ok(_, Reply::Value(value)) => Ok(Some(numbers.of_value(*value)?)),
        _ => Ok(Some(NOTHING)),
    }
}

/// The operations by what they do.
#[derive(Drop)]
struct Sorted {
    passings: Vec<Passing>,
    ins: Vec<usize>,
    outs: Vec<usize>,
    open: Vec<usize>,
}

impl Sorted {
    fn new(alloc: Global) -> Sorted {
        Sorted {
            passings: Vec::new(alloc),
            ins: Vec::new(alloc),
            outs: Vec::new(alloc),
            open: Vec::new(alloc),
        }
    }

    fn add(&mut self, call: Call, span: CallSpan, item: Option<usize>) -> Result<(), OutOfMemory> {
        let number = self.passings.len();
        self.passings.push(Passing {
            span,
            item: item.unwrap_or(NOTHING),
        })?;
        if item.is_none() {
            self.open.push(number)?;
            return Ok(());
        }
        if call != Call::Dequeue || item == Some(NOTHING) {
            self.ins.push(number)?;
        }
        if call == Call::Dequeue {
            self.outs.push(number)?;
        }
        Ok(())
    }

    fn of(alloc: Global, events: &[Event], numbers: &mut Numbers) -> Result<Sorted, OutOfMemory> {
        let mut sorted = Sorted::new(alloc);
        let operations = gather_operations(alloc, events)?;
        for operation in &operations {
            let item = item_passed(events, operation, numbers)?;
            sorted.add(operation.call, operation.span, item)?;
        }
        Ok(sorted)
    }
}

impl Search {
    fn of(alloc: Global, sorted: Sorted, items: usize) -> Result<Search, OutOfMemory> {
        let Sorted {
            passings,
            ins,
            outs,
            open,
        } = sorted;
        let left = outs.len();
        let first_in = list_of(alloc, items, None)?;
        let first_out = list_of(alloc, items, None)?;
        let ins = Side::of(alloc, &passings, &ins)?;
        let outs = Side::of(alloc, &passings, &outs)?;
        Ok(Search {
            passings,
            ins,
            outs,
            open,
            opened: 0,
            first_in,
            first_out,
            ins_window: Vec::new(alloc),
            outs_window: Vec::new(alloc),
            fresh: Vec::new(alloc),
            choices: Vec::new(alloc),
            steps: Vec::new(alloc),
            seen: HashSet::new(alloc),
            mark: 0,
            latest: 0,
            left,
            tried: 0,
        })
    }

    /// Whether the queue can be empty at the dequeue, which found nothing, behind all that is ranked and ahead of all else.
    fn can_be_empty(&self, dequeue: usize) -> bool {
        let ins = self.ins.limit_without(&self.passings, dequeue);
        let outs = self.outs.limit_without(&self.passings, dequeue);
        let limit = ins.min(outs);
        self.latest < limit && begin_of(&self.passings, dequeue) < limit
    }

    /// The pair of the dequeue, if it has one, which ends first of those with its item.
    fn pair_of(&self, dequeue: usize) -> Option<Pair> {
        let item = item_of(&self.passings, dequeue);
        if self.first_out.get(item).copied()??.number != dequeue {
            return None;
        }
        if item == NOTHING {
            return self.can_be_empty(dequeue).then_some(Pair {
                into: dequeue,
                out: dequeue,
            });
        }
        let first = self.first_in.get(item).copied()??;
        Some(Pair {
            into: first.number,
            out: dequeue,
        })
    }

    /// The pairs of the dequeues in the window.
    fn find_pairs(&mut self) -> Result<(), OutOfMemory> {
        for at in 0..self.outs_window.len() {
            if let Some(dequeue) = self.outs_window.get(at).copied()
                && let Some(pair) = self.pair_of(dequeue)
            {
                let end = end_of(&self.passings, dequeue);
                self.fresh.push(Choice {
                    pair,
                    rank: (true, NEVER.saturating_sub(end)),
                })?;
            }
        }
        Ok(())
    }

    /// That of the enqueue, if it ends first of those with its item, and of a dequeue that never returned.
    fn lost_pair_of(&self, enqueue: usize, dequeue: usize) -> Option<Pair> {
        let item = item_of(&self.passings, enqueue);
        let is_first = self.first_in.get(item).copied()??.number == enqueue;
        (is_first && item != NOTHING).then_some(Pair {
            into: enqueue,
            out: dequeue,
        })
    }

    /// Pairs with the next dequeue that never returned, if it can be next.
    fn find_lost_pairs(&mut self, limit: usize) -> Result<(), OutOfMemory> {
        let Some(dequeue) = self.open.get(self.opened).copied() else {
            return Ok(());
        };
        if begin_of(&self.passings, dequeue) >= limit {
            return Ok(());
        }
        for at in 0..self.ins_window.len() {
            if let Some(enqueue) = self.ins_window.get(at).copied()
                && let Some(pair) = self.lost_pair_of(enqueue, dequeue)
            {
                let end = end_of(&self.passings, enqueue);
                self.fresh.push(Choice {
                    pair,
                    rank: (false, NEVER.saturating_sub(end)),
                })?;
            }
        }
        Ok(())
    }

    /// A step more, with all pairs that can be next.
    fn widen(&mut self) -> Result<(), OutOfMemory> {
        let outs_limit = self.outs.limit(&self.passings);
        let limit = self.ins.limit(&self.passings).min(outs_limit);
        self.outs
            .widen(&self.passings, outs_limit, &mut self.outs_window)?;
        self.ins.widen(&self.passings, limit, &mut self.ins_window)?;
        self.tried = self
            .tried
            .saturating_add(self.ins_window.len())
            .saturating_add(self.outs_window.len());
        self.choose_from(outs_limit)
    }

    /// Puts the pairs of those in the windows with the choices, the best last.
    fn choose_from(&mut self, limit: usize) -> Result<(), OutOfMemory> {
        mark(&mut self.first_in, &self.passings, &self.ins_window);
        mark(&mut self.first_out, &self.passings, &self.outs_window);
        self.fresh.clear();
        self.find_pairs()?;
        self.find_lost_pairs(limit)?;
        unmark(&mut self.first_in, &self.passings, &self.ins_window);
        unmark(&mut self.first_out, &self.passings, &self.outs_window);
        self.add_step()
    }

    fn add_step(&mut self) -> Result<(), OutOfMemory> {
        self.steps.push(SearchStep {
            base: self.choices.len(),
            made: None,
            latest: self.latest,
        })?;
        self.fresh.sort_unstable_by_key(|choice| choice.rank);
        for choice in &self.fresh {
            self.choices.push(*choice)?;
        }
        Ok(())
    }

    /// The pair is ranked, or isn't any more.
    fn turn(&mut self, pair: Pair) {
        let into = (pair.into as u64).wrapping_mul(2);
        let out = (pair.out as u64).wrapping_mul(2).wrapping_add(1);
        self.mark ^= mix(into) ^ mix(out);
    }

    /// The dequeue of the pair leaves those that aren't ranked.
    fn take_out(&mut self, dequeue: usize) {
        if end_of(&self.passings, dequeue) == NEVER {
            self.opened = self.opened.saturating_add(1);
        } else {
            self.outs.take_out(dequeue);
            self.left = self.left.saturating_sub(1);
        }
        self.latest = self.latest.max(begin_of(&self.passings, dequeue));
    }

    /// The pair of the step, if one was made, is taken back.
    fn undo(&mut self, step: SearchStep) {
        let Some(pair) = step.made else {
            return;
        };
        if end_of(&self.passings, pair.out) == NEVER {
            self.opened = self.opened.saturating_sub(1);
        } else {
            self.outs.put_back(pair.out);
            self.left = self.left.saturating_add(1);
        }
        self.ins.put_back(pair.into);
        self.turn(pair);
        self.latest = step.latest;
    }

    /// The pair is made, and a step more, unless what is ranked then was come to before.
    fn make(&mut self, pair: Pair) -> Result<(), OutOfMemory> {
        self.tried = self.tried.saturating_add(1);
        if let Some(step) = self.steps.last_mut() {
            step.made = Some(pair);
        }
        self.ins.take_out(pair.into);
        self.take_out(pair.out);
        self.turn(pair);
        if self.seen.insert(self.mark)? {
            self.widen()?;
        }
        Ok(())
    }

    /// The next choice of the last step, or back; whether a step is left.
    fn go_on(&mut self) -> Result<bool, OutOfMemory> {
        let Some(step) = self.steps.last().copied() else {
            return Ok(false);
        };
        self.undo(step);
        if self.choices.len() <= step.base {
            let _ = self.steps.pop();
            return Ok(true);
        }
        if let Some(choice) = self.choices.pop() {
            self.make(choice.pair)?;
        }
        Ok(true)
    }

    /// Whether all dequeues that returned are ranked, within so many tries.
    fn run(&mut self, bound: usize) -> Result<bool, OutOfMemory> {
        self.widen()?;
        for _ in 0..bound {
            if self.left == 0 {
                return Ok(true);
            }
            if self.tried >= bound || !self.go_on()? {
                return Ok(false);
            }
        }
        Ok(false)
    }

    /// The pairs as they are ranked, and behind them the enqueues that returned and are left, those that return first ahead.
    fn pairs(&self, alloc: Global) -> Result<Vec<Pair>, OutOfMemory> {
        let mut pairs = Vec::new(alloc);
        for step in &self.steps {
            if let Some(pair) = step.made {
                pairs.push(pair)?;
            }
        }
        let mut number = self.ins.by_end.first();
        for _ in 0..self.passings.len() {
            if end_of(&self.passings, number) == NEVER {
                break;
            }
            pairs.push(Pair {
                into: number,
                out: NEVER,
            })?;
            number = self.ins.by_end.next_of(number);
        }
        Ok(pairs)
    }
}

/// An order of the events of a queue, if one is found within so many tries; and how many calls were tried.
pub fn queued_order(
    alloc: Global,
    events: &[Event],
    bound: usize,
) -> Result<(Option<Vec<Placed>>, usize), OutOfMemory> {
    let mut numbers = Numbers::new(alloc);
    let sorted = Sorted::of(alloc, events, &mut numbers)?;
    let mut search = Search::of(alloc, sorted, numbers.count().saturating_add(1))?;
    if !search.run(bound)? {
        return Ok((None, search.tried));
    }
    let pairs = search.pairs(alloc)?;
    let order = sequence_of(alloc, &search.passings, &numbers, &pairs, events.len())?;
    Ok((Some(order), search.tried))
}
