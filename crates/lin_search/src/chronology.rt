//! The search that follows time: the next operation of an order is one that was called before any other returned.
use crate::contents::{Act, Contents, Held};
use crate::links::Links;
use crate::numbers::{Numbers, list_of, mix};
use crate::operations::{CallSpan, NEVER, PossibleOperation, gather_operations};
use lin_events::{Body, Event, OutOfMemory, Reply};
use lin_objects::Kind;
use lin_order::Placed;
use std::alloc::Global;
use std::collections::{HashMap, HashSet};

/// An operation, and what it did.
#[derive(Clone, Copy)]
struct Deed {
    span: CallSpan,
    act: Act,
    /// Of one that never returned the one called before it that didn't either and had the same call, or `NEVER`. It goes first.
    alike: usize,
}

/// What stands at an event.
#[derive(Clone, Copy)]
enum Moment {
    Call(usize),
    Return(usize),
    Nothing,
}

/// What is tried next: the deed called at the event, or, where one returns there, of those that never return the one with the number, and
/// of the items that it may take the one with that number.
#[derive(Clone, Copy)]
struct Cursor {
    at: usize,
    lost: usize,
    item: usize,
}

/// What a cursor points at.
enum Aim {
    Try(usize, Act),
    Skip,
    Back,
}

/// A deed that was placed, where the cursor was, and what was held before.
#[derive(Clone, Copy)]
struct Frame {
    deed: usize,
    act: Act,
    cursor: Cursor,
    before: Held,
}

#[derive(Drop)]
struct Search {
    deeds: Vec<Deed>,
    numbers: Numbers,
    moments: Vec<Moment>,
    /// The events of the deeds that return and aren't placed.
    line: Links,
    /// Deeds that never return.
    lost: Vec<usize>,
    is_placed: Vec<bool>,
    contents: Contents,
    /// Configurations that were come to.
    seen: HashSet<u64>,
    /// Which deeds are placed, as a number.
    mark: u64,
    stack: Vec<Frame>,
    /// How many that return aren't placed.
    left: usize,
    tried: usize,
}

/// What the operation was answered, if it was.
fn reply_of<'a>(events: &'a [Event], operation: &PossibleOperation) -> Option<&'a Reply> {
    let event = events.get(operation.span.end)?;
    match &event.body {
        Body::Ok(_, reply) => Some(reply),
        _ => None,
    }
}

/// The deeds of the events.
fn deeds_of(
    alloc: Global,
    events: &[Event],
    numbers: &mut Numbers,
) -> Result<Vec<Deed>, OutOfMemory> {
    let operations = gather_operations(alloc, events)?;
    let mut latest = HashMap::new(alloc);
    let mut deeds = Vec::new(alloc);
    for operation in &operations {
        let Some(act) = Act::of(operation.call, reply_of(events, operation), numbers)? else {
            continue;
        };
        let mut alike = NEVER;
        if operation.span.end == NEVER
            && let Some(before) = latest.insert(operation.call, deeds.len())?
        {
            alike = before;
        }
        deeds.push(Deed {
            span: operation.span,
            act,
            alike,
        })?;
    }
    Ok(deeds)
}

/// What stands at each of so many events.
fn moments_of(alloc: Global, deeds: &[Deed], count: usize) -> Result<Vec<Moment>, OutOfMemory> {
    let mut moments = list_of(alloc, count, Moment::Nothing)?;
    for (number, deed) in deeds.iter().enumerate() {
        if deed.span.end == NEVER {
            continue;
        }
        if let Some(moment) = moments.get_mut(deed.span.begin) {
            *moment = Moment::Call(number);
        }
        if let Some(moment) = moments.get_mut(deed.span.end) {
            *moment = Moment::Return(number);
        }
    }
    Ok(moments)
}

/// The events at which something stands.
fn line_of(alloc: Global, moments: &[Moment]) -> Result<Links, OutOfMemory> {
    let mut places = Vec::new(alloc);
    for (at, moment) in moments.iter().enumerate() {
        if !matches!(moment, Moment::Nothing) {
            places.push(at)?;
        }
    }
    Links::of(alloc, moments.len(), &places)
}

/// The deeds that never return.
fn lost_of(alloc: Global, deeds: &[Deed]) -> Result<Vec<usize>, OutOfMemory> {
    let mut lost = Vec::new(alloc);
    for (number, deed) in deeds.iter().enumerate() {
        if deed.span.end == NEVER {
            lost.push(number)?;
        }
    }
    Ok(lost)
}

impl Search {
    fn of(alloc: Global, kind: Kind, events: &[Event]) -> Result<Search, OutOfMemory> {
        let mut numbers = Numbers::new(alloc);
        let deeds = deeds_of(alloc, events, &mut numbers)?;
        let moments = moments_of(alloc, &deeds, events.len())?;
        let line = line_of(alloc, &moments)?;
        let lost = lost_of(alloc, &deeds)?;
        let is_placed = list_of(alloc, deeds.len(), false)?;
        let contents = Contents::new(alloc, kind == Kind::Set, numbers.count())?;
        let left = deeds.len().saturating_sub(lost.len());
        Ok(Search {
            deeds,
            numbers,
            moments,
            line,
            lost,
            is_placed,
            contents,
            seen: HashSet::new(alloc),
            mark: 0,
            stack: Vec::new(alloc),
            left,
            tried: 0,
        })
    }

    /// What can be placed first.
    fn start(&self) -> Cursor {
        Cursor {
            at: self.line.first(),
            lost: 0,
            item: 0,
        }
    }

    fn is_placed(&self, deed: usize) -> bool {
        self.is_placed.get(deed) == Some(&true)
    }

    /// Of those that never return the one that the cursor points at.
    fn lost_aim(&self, cursor: Cursor) -> Aim {
        let Some(number) = self.lost.get(cursor.lost).copied() else {
            return Aim::Back;
        };
        let Some(deed) = self.deeds.get(number) else {
            return Aim::Back;
        };
        if deed.span.begin > cursor.at {
            return Aim::Back;
        }
        if self.is_placed(number) || deed.alike != NEVER && !self.is_placed(deed.alike) {
            return Aim::Skip;
        }
        match deed.act {
            Act::TakeAny => Aim::Try(number, Act::Take(cursor.item)),
            act => Aim::Try(number, act),
        }
    }

    fn aim(&self, cursor: Cursor) -> Aim {
        match self.moments.get(cursor.at) {
            Some(Moment::Call(number)) => match self.deeds.get(*number) {
                Some(deed) => Aim::Try(*number, deed.act),
                None => Aim::Back,
            },
            Some(Moment::Return(_)) => self.lost_aim(cursor),
            _ => Aim::Back,
        }
    }

    /// Whether the cursor points at one that may take any item, and not at the last of these.
    fn has_items(&self, cursor: Cursor) -> bool {
        let Some(number) = self.lost.get(cursor.lost) else {
            return false;
        };
        let takes_any = self
            .deeds
            .get(*number)
            .is_some_and(|deed| matches!(deed.act, Act::TakeAny));
        takes_any
            && !self.is_placed(*number)
            && cursor.item.saturating_add(1) < self.numbers.count()
    }

    /// The next one.
    fn next(&self, cursor: Cursor) -> Cursor {
        if let Some(Moment::Call(_)) = self.moments.get(cursor.at) {
            return Cursor {
                at: self.line.next_of(cursor.at),
                ..cursor
            };
        }
        if self.has_items(cursor) {
            return Cursor {
                item: cursor.item.saturating_add(1),
                ..cursor
            };
        }
        Cursor {
            lost: cursor.lost.saturating_add(1),
            item: 0,
            ..cursor
        }
    }

    /// The deed is placed, or isn't any more.
    fn turn(&mut self, deed: usize, is_placed: bool) {
        self.mark ^= mix(deed as u64);
        if let Some(place) = self.is_placed.get_mut(deed) {
            *place = is_placed;
        }
    }

    /// Its events leave the line.
    fn lift(&mut self, deed: usize) {
        if let Some(deed) = self.deeds.get(deed)
            && deed.span.end != NEVER
        {
            self.line.take_out(deed.span.begin);
            self.line.take_out(deed.span.end);
            self.left = self.left.saturating_sub(1);
        }
    }

    /// They come back.
    fn lower(&mut self, deed: usize) {
        if let Some(deed) = self.deeds.get(deed)
            && deed.span.end != NEVER
        {
            self.line.put_back(deed.span.end);
            self.line.put_back(deed.span.begin);
            self.left = self.left.saturating_add(1);
        }
    }

    /// Places the deed, if it fits and leads to what wasn't come to before; whether it does.
    fn place(&mut self, deed: usize, act: Act, cursor: Cursor) -> Result<bool, OutOfMemory> {
        self.tried = self.tried.saturating_add(1);
        let before = self.contents.held;
        if !self.contents.take_in(act) {
            return Ok(false);
        }
        self.turn(deed, true);
        let configuration = mix(self.mark ^ self.contents.held.code());
        if !self.seen.insert(configuration)? {
            self.turn(deed, false);
            self.contents.take_back(act, before);
            return Ok(false);
        }
        self.lift(deed);
        self.stack.push(Frame {
            deed,
            act,
            cursor,
            before,
        })?;
        Ok(true)
    }

    /// Takes the last deed back; what is next, if there was one.
    fn back(&mut self) -> Option<Cursor> {
        let frame = self.stack.pop()?;
        self.lower(frame.deed);
        self.turn(frame.deed, false);
        self.contents.take_back(frame.act, frame.before);
        Some(self.next(frame.cursor))
    }

    /// What is next, if there is anything.
    fn go_on(&mut self, cursor: Cursor) -> Result<Option<Cursor>, OutOfMemory> {
        match self.aim(cursor) {
            Aim::Back => Ok(self.back()),
            Aim::Skip => Ok(Some(self.next(cursor))),
            Aim::Try(deed, act) => {
                if self.place(deed, act, cursor)? {
                    return Ok(Some(self.start()));
                }
                Ok(Some(self.next(cursor)))
            }
        }
    }

    /// Whether all that returned are placed, within so many tries.
    fn run(&mut self, bound: usize) -> Result<bool, OutOfMemory> {
        let mut cursor = self.start();
        for _ in 0..bound {
            if self.left == 0 {
                return Ok(true);
            }
            let Some(next) = self.go_on(cursor)? else {
                return Ok(false);
            };
            cursor = next;
        }
        Ok(false)
    }

    /// What a deed was answered that did this.
    fn reply(
        &self,
        alloc: Global,
        end: usize,
        act: Act,
        events: &[Event],
    ) -> Result<Reply, OutOfMemory> {
        if let Some(event) = events.get(end)
            && let Body::Ok(_, reply) = &event.body
        {
            return reply.copy(alloc);
        }
        match act {
            Act::Take(item) => Ok(Reply::Value(self.numbers.value(item))),
            _ => Ok(Reply::Done),
        }
    }

    /// The deeds as they are placed.
    fn order(&self, alloc: Global, events: &[Event]) -> Result<Vec<Placed>, OutOfMemory> {
        let mut order = Vec::with_capacity(alloc, self.stack.len())?;
        for frame in &self.stack {
            if let Some(deed) = self.deeds.get(frame.deed) {
                order.push(Placed {
                    at: deed.span.begin,
                    reply: self.reply(alloc, deed.span.end, frame.act, events)?,
                })?;
            }
        }
        Ok(order)
    }
}

/// An order of the events of an object of the kind, if one is found within so many tries; and how many calls were tried.
pub fn timed_order(
    alloc: Global,
    kind: Kind,
    events: &[Event],
    bound: usize,
) -> Result<(Option<Vec<Placed>>, usize), OutOfMemory> {
    let mut search = Search::of(alloc, kind, events)?;
    if !search.run(bound)? {
        return Ok((None, search.tried));
    }
    let order = search.order(alloc, events)?;
    Ok((Some(order), search.tried))
}
