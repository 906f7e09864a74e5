//! The engine that decides a set: in which intervals its items can be in and are known to be.
//!
//! `Intervals` takes the events in, one after the other. Of each item it keeps the first add that hasn't failed, from which on it can
//! be in, and the first ok that shows it, of an add or a read, from which on it is known to be (`places`, `endings`); of the reads what
//! they found, one set inside the next (`levels`). From these it tells whether an event leaves operations that conflict. A read is
//! looked up only for what it has beyond one of the last 64 that found no more (`news`): what that one found was looked up before. By
//! the law of `conflict_laws` a set has a legal order exactly where no operations conflict, so there is nothing to search, and nothing
//! is ever in doubt, whatever crashed, failed or was added twice.
//!
//! Promised of well-formed events: what `take_in` goes on with has a legal order, which `order` tells; where it doesn't go on, the
//! events up to and with this one have none, and it stays as it was. `cut` goes back to any earlier event: each event notes what it
//! changed, and this is taken back, without memory.
//!
//! An event takes near-constant time; the end of a read time linear in what it found and in what was known since an earlier read was
//! invoked, times a logarithm; a failed add perhaps time linear in the events. More: docs/SEARCHES.md, 'A set, by intervals'.
ghost use Rattle.std.specs.Prelude.{◌≡◌, ◌↔◌, ◌<◌, ◌≤◌, ◌⊎◌, ◌+◌, ◌-◌, ◌++◌, ◌∷◌, [], ℕ, List, None, Some, Contains, IsTrue, IfOk, OnOk, OnErr, false, length, min, set, take, vec_len, vec_capacity, AllPairs};
ghost use Rattle.lin_events.specs.declared.items.Item.{Item as ItemOf};
ghost use Rattle.lin_events.specs.Items.{item_cmp};
ghost use Rattle.lin_events.specs.declared.events.Event.{Event as EventOf};
ghost use Rattle.lin_events.specs.declared.events.Body.TheVariants as Said;
ghost use Rattle.lin_events.specs.declared.calls.Call.TheVariants as Called;
ghost use Rattle.lin_events.specs.declared.calls.Name.{Name as NameOf};
ghost use Rattle.lin_events.specs.declared.calls.Reply.TheVariants as Replied;
ghost use Rattle.lin_lists.specs.Sets.{IsRising};
ghost use Rattle.lin_objects.specs.declared.kinds.Kind.TheVariants.{Set};
ghost use Rattle.lin_order.specs.Linearizable.{IsLegalOrderAs, IsLinearizableAs};
ghost use Rattle.lin_sets.specs.Conflicts.{IsInConflict};
ghost use Rattle.lin_sets.specs.Places.{IsLeft, IsListed, IsListing, IsNoted, place_in};
ghost use Rattle.lin_sets.specs.Endings.{AreBefore, AreKept, AreListed, known_in};
ghost use Rattle.lin_sets.specs.Levels.{IsBelow};
ghost use Rattle.lin_sets.specs.News.{IsNews};
ghost use Rattle.lin_sets.specs.Steps.{EndsNext, FailsNext, IsFitting, IsFittingSince, IsLatest, IsNextAdd, IsUnfit, MayFollow, MayLose, MayNotLose, ReturnsNext};
ghost use Rattle.lin_sets.specs.Intervals.{AreAll, AreAllBut, AreIntervalsOf, IsAsBefore, IsMoved, IsNextOf, IsStill, IsStuck, reached_in};

use crate::changes::Change;
use crate::conflict_laws::conflicts_refute;
use crate::endings::Endings;
use crate::levels::{has, put_level, remove_level, take_level_back};
use crate::news::{News, news_of};
use crate::openings::{Opened, Openings};
use crate::orders::order_of_acts;
use crate::places::ItemPlaces;
use lin_events::{Body, Call, Event, IntSet, Item, OutOfMemory, Reply};
use lin_order::Placed;
use std::alloc::Global;

/// What is known of the first events of a set, as long as no operations conflict, and what each of these changed.
#[derive(Drop)]
pub struct Intervals {
    openings: Openings,
    /// The item that is added by the operation at each place, if it is an add that has not failed.
    adds: Vec<Option<Item>>,
    /// The place of the first such add of each item.
    first: ItemPlaces,
    endings: Endings,
    /// What reads found, the least first.
    levels: Vec<IntSet>,
    /// Where each read was invoked and what it found, in the order in which they returned.
    reads: Vec<(usize, IntSet)>,
    changes: Vec<Change>,
}

/// Whether it is the item.
fn is_item(slot: Option<Item>, item: Item) -> bool
    ensures { IsTrue result ↔ (slot ≡ Some item) }
{
    match slot {
        Some(other) => other == item,
        None => false,
    }
}

/// The first add of the item behind the place.
fn next_add(adds: &[Option<Item>], item: Item, after: usize) -> Option<usize>
    ensures { IsNextAdd adds.now item after result }
{
    for at in after..adds.len() {
        if after < at && is_item(adds[at], item) {
            return Some(at);
        }
    }
    None
}

/// The item that the call adds, if it does.
fn added_by(call: Call) -> Option<Item>
    ensures add { (item : ItemOf) → call ≡ Called.Add item → result ≡ Some item }
    ensures other { ((item : ItemOf) → call ≡ Called.Add item → ⊥) → result ≡ None }
{
    match call {
        Call::Add(item) => Some(item),
        _ => None,
    }
}

/// Lists the item that the call adds, if it does.
fn list_added(first: &mut ItemPlaces, call: Call) -> Result<(), OutOfMemory>
    ensures same { (other : ItemOf) → place_in first.new other ≡ place_in first.old other }
    ensures kept { (other : ItemOf) → IsListed first.old other → IsListed first.new other }
    ensures listed { OnOk result ((item : ItemOf) → call ≡ Called.Add item → IsListing first.old first.new item) }
    ensures other { ((item : ItemOf) → call ≡ Called.Add item → ⊥) → first.new ≡ first.old }
{
    match call {
        Call::Add(item) => first.list(item),
        _ => Ok(()),
    }
}

/// The item that the call adds, if it does, has this place from now on, if it had none.
fn note_added(first: &mut ItemPlaces, call: Call, at: usize)
    ensures add { (item : ItemOf) → call ≡ Called.Add item → IsListed first.old item → IsNoted first.old first.new item at }
    ensures other { ((item : ItemOf) → call ≡ Called.Add item → ⊥) → first.new ≡ first.old }
{
    match call {
        Call::Add(item) => first.note(item, at),
        _ => {}
    }
}

/// No add stands at the place any more.
fn clear(adds: &mut Vec<Option<Item>>, at: usize)
    ensures { at < length adds.old.items → adds.new.items ≡ set adds.old.items at None }
{
    if at < adds.len() {
        adds[at] = None;
    }
}

/// An add of the item stands at the place again.
fn restore(adds: &mut Vec<Option<Item>>, at: usize, item: Item)
    ensures set { at < length adds.old.items → adds.new.items ≡ set adds.old.items at (Some item) }
    ensures same { length adds.new.items ≡ length adds.old.items }
{
    if at < adds.len() {
        adds[at] = Some(item);
    }
}

/// What was invoked at the place wasn't: if it is the first add of its item, that has none.
fn uncall(first: &mut ItemPlaces, call: Call, at: usize)
    ensures add { (item : ItemOf) → call ≡ Called.Add item → IsLeft first.old first.new item at }
    ensures other { ((item : ItemOf) → call ≡ Called.Add item → ⊥) → first.new ≡ first.old }
{
    match call {
        Call::Add(item) => first.leave(item, at),
        _ => {}
    }
}

/// The later one of two places.
fn later(first: usize, second: usize) -> usize
    ensures { (first ≤ result) × (second ≤ result) × ((result ≡ first) ⊎ (result ≡ second)) }
{
    if first < second { second } else { first }
}

/// The latest of the place and the first adds of the items, if each has one.
fn latest(first: &ItemPlaces, at: usize, items: &[Item]) -> Option<usize>
    ensures { IsLatest first.now at items.now result }
{
    let mut latest = at;
    for item in items {
        latest = later(latest, first.get(*item)?);
    }
    Some(latest)
}

impl Intervals {
    /// Of no events.
    pub fn new(alloc: Global) -> Intervals
        ensures reached { reached_in result ≡ 0 }
        ensures none { (h : List EventOf) → AreIntervalsOf result h }
    {
        Intervals {
            openings: Openings::new(alloc),
            adds: Vec::new(alloc),
            first: ItemPlaces::new(alloc),
            endings: Endings::new(alloc),
            levels: Vec::new(alloc),
            reads: Vec::new(alloc),
            changes: Vec::new(alloc),
        }
    }

    /// How many events were taken in.
    pub fn reached(&self) -> usize
        ensures { result ≡ reached_in self.now }
    {
        self.adds.len()
    }

    /// A legal order of the events that were taken in.
    ///
    /// For n events, and reads that found m items in all, this takes O(n log n + m) time.
    pub fn order(&self, alloc: Global) -> Result<Vec<Placed>, OutOfMemory>
        ensures { IfOk result (λ order. (h : List EventOf) → AreIntervalsOf self.now h → IsLegalOrderAs Set (take (reached_in self.now) h) order.items) }
    {
        order_of_acts(alloc, self.adds.as_slice(), self.reads.as_slice())
    }

    /// Takes one more event in, unless the events have no legal order with it.
    ///
    /// Answers whether they have one: if not, and where memory is refused, they are still the intervals of the events before it. Takes
    /// near-constant time, but for a read of which it is the end, which takes time linear in what it found, and in what was known since
    /// an earlier read was invoked, times a logarithm; and for an add that failed, which may take time linear in the events, times a
    /// logarithm, and in how many different sets reads found.
    pub fn take_in(&mut self, event: &Event) -> Result<bool, OutOfMemory>
        ensures goes_on { IfOk result (λ goes. IsTrue goes → (h : List EventOf) → IsNextOf self.old h event.now → AreIntervalsOf self.new h × (reached_in self.new ≡ reached_in self.old + 1)) }
        ensures refuted { IfOk result (λ goes. goes ≡ false → (h : List EventOf) → IsNextOf self.old h event.now → IsLinearizableAs Set (take (reached_in self.old + 1) h) → ⊥) }
        ensures stays { IfOk result (λ goes. goes ≡ false → IsStill self.old self.new) }
        ensures refused { OnErr result (IsStill self.old self.new) }
    {
        conflicts_refute();
        self.add_event(event)
    }

    /// Takes one more event in, unless it leaves operations that conflict.
    fn add_event(&mut self, event: &Event) -> Result<bool, OutOfMemory>
        ensures goes_on { IfOk result (λ goes. IsTrue goes → (h : List EventOf) → MayFollow h event.now → AreAll self.old h → AreAll self.new (h ++ event.now ∷ [])) }
        ensures conflict { IfOk result (λ goes. goes ≡ false → (h : List EventOf) → MayFollow h event.now → AreAll self.old h → IsInConflict (h ++ event.now ∷ [])) }
        ensures stays { IfOk result (λ goes. goes ≡ false → IsAsBefore self.old self.new) }
        ensures refused { OnErr result (IsAsBefore self.old self.new) }
    {
        match &event.body {
            Body::Invoke(call) => {
                self.invoke(event.process, *call)?;
                Ok(true)
            }
            Body::Ok(_, reply) => self.end_ok(event.process, reply),
            Body::Fail(_) => self.end_failed(event.process),
            Body::Info(_) => {
                self.adds.reserve(1)?;
                self.changes.reserve(1)?;
                self.adds.push_reserved(None);
                self.changes.push_reserved(Change::Ended);
                Ok(true)
            }
        }
    }

    /// The process invoked an operation.
    fn invoke(&mut self, process: u64, call: Call) -> Result<(), OutOfMemory>
        ensures goes_on { OnOk result ((h : List EventOf) (event : EventOf) → MayFollow h event → event.process ≡ process → event.body ≡ Said.Invoke call
            → AreAll self.old h → AreAll self.new (h ++ event ∷ [])) }
        ensures refused { OnErr result (IsAsBefore self.old self.new) }
    {
        let at = self.adds.len();
        let before = self.openings.get(process);
        self.adds.reserve(1)?;
        self.changes.reserve(1)?;
        list_added(&mut self.first, call)?;
        self.openings.put(process, Opened { at, call })?;
        note_added(&mut self.first, call, at);
        self.adds.push_reserved(added_by(call));
        self.changes.push_reserved(Change::Invoked {
            process,
            call,
            before,
        });
        Ok(())
    }

    /// The operation of the process is ok.
    fn end_ok(&mut self, process: u64, reply: &Reply) -> Result<bool, OutOfMemory>
        ensures goes_on { IfOk result (λ goes. IsTrue goes → (h : List EventOf) (event : EventOf) (name : NameOf) → MayFollow h event → event.process ≡ process
            → event.body ≡ Said.Ok name reply.now → AreAll self.old h → AreAll self.new (h ++ event ∷ [])) }
        ensures conflict { IfOk result (λ goes. goes ≡ false → (h : List EventOf) (event : EventOf) (name : NameOf) → MayFollow h event → event.process ≡ process
            → event.body ≡ Said.Ok name reply.now → AreAll self.old h → IsInConflict (h ++ event ∷ [])) }
        ensures stays { IfOk result (λ goes. goes ≡ false → IsAsBefore self.old self.new) }
        ensures refused { OnErr result (IsAsBefore self.old self.new) }
    {
        let Some(opened) = self.openings.get(process) else {
            return Ok(true);
        };
        match opened.call {
            Call::Add(item) => self.end_add(item, reply),
            Call::Read => self.end_read(opened.at, reply),
            _ => Ok(false),
        }
    }

    /// An add is ok.
    fn end_add(&mut self, item: Item, reply: &Reply) -> Result<bool, OutOfMemory>
        ensures goes_on { IfOk result (λ goes. IsTrue goes → (h : List EventOf) (event : EventOf) (at : ℕ) → MayFollow h event → ReturnsNext h event at (Called.Add item) reply.now
            → AreAll self.old h → AreAll self.new (h ++ event ∷ [])) }
        ensures conflict { IfOk result (λ goes. goes ≡ false → (h : List EventOf) (event : EventOf) (at : ℕ) → ReturnsNext h event at (Called.Add item) reply.now
            → AreAll self.old h → IsInConflict (h ++ event ∷ [])) }
        ensures stays { IfOk result (λ goes. goes ≡ false → IsAsBefore self.old self.new) }
        ensures refused { OnErr result (IsAsBefore self.old self.new) }
    {
        let Reply::Done = reply else {
            return Ok(false);
        };
        self.adds.reserve(1)?;
        self.changes.reserve(1)?;
        self.endings.learn(item, self.adds.len())?;
        self.adds.push_reserved(None);
        self.changes.push_reserved(Change::Ended);
        Ok(true)
    }

    /// A read is ok, which was invoked at the place.
    fn end_read(&mut self, at: usize, reply: &Reply) -> Result<bool, OutOfMemory>
        ensures goes_on { IfOk result (λ goes. IsTrue goes → (h : List EventOf) (event : EventOf) → MayFollow h event → ReturnsNext h event at Called.Read reply.now
            → AreAll self.old h → AreAll self.new (h ++ event ∷ [])) }
        ensures conflict { IfOk result (λ goes. goes ≡ false → (h : List EventOf) (event : EventOf) → ReturnsNext h event at Called.Read reply.now
            → AreAll self.old h → IsInConflict (h ++ event ∷ [])) }
        ensures stays { IfOk result (λ goes. goes ≡ false → IsAsBefore self.old self.new) }
        ensures refused { OnErr result (IsAsBefore self.old self.new) }
    {
        let Reply::Members(set) = reply else {
            return Ok(false);
        };
        let alloc = *self.reads.allocator();
        let news = news_of(alloc, self.reads.as_slice(), set.as_slice())?;
        if !self.is_fitting(at, set, &news) {
            return Ok(false);
        }
        self.adds.reserve(1)?;
        self.changes.reserve(1)?;
        self.reads.reserve(1)?;
        self.keep_read(at, set, &news)
    }

    /// Keeps a read that is ok, which was invoked at the place, unless it stands apart from another one. There is room for it.
    fn keep_read(&mut self, at: usize, set: &IntSet, news: &News) -> Result<bool, OutOfMemory>
        requires adds { vec_len self.old.adds < vec_capacity self.old.adds }
        requires changes { vec_len self.old.changes < vec_capacity self.old.changes }
        requires reads { vec_len self.old.reads < vec_capacity self.old.reads }
        ensures goes_on { IfOk result (λ goes. IsTrue goes → (h : List EventOf) (event : EventOf) → MayFollow h event → ReturnsNext h event at Called.Read (Replied.Members set.now)
            → IsRising item_cmp set.now → IsNews self.old.reads.items set.now news.now → IsFitting self.old.first self.old.endings at set.now
            → AreAll self.old h → AreAll self.new (h ++ event ∷ [])) }
        ensures conflict { IfOk result (λ goes. goes ≡ false → (h : List EventOf) (event : EventOf) → ReturnsNext h event at Called.Read (Replied.Members set.now)
            → AreAll self.old h → IsInConflict (h ++ event ∷ [])) }
        ensures stays { IfOk result (λ goes. goes ≡ false → IsAsBefore self.old self.new) }
        ensures refused { OnErr result (IsAsBefore self.old self.new) }
    {
        let found = set.copy()?;
        let Some(change) = put_level(&mut self.levels, set)? else {
            return Ok(false);
        };
        let learned = self
            .endings
            .learn_all(news.items.as_slice(), self.adds.len());
        if let Err(error) = learned {
            take_level_back(&mut self.levels, &change);
            return Err(error);
        }
        self.adds.push_reserved(None);
        self.changes.push_reserved(change);
        self.reads.push_reserved((at, found));
        Ok(true)
    }

    /// Whether what the set lacks was known late enough for a read that was invoked there, as far as the news tell.
    fn is_fitting(&self, at: usize, set: &IntSet, news: &News) -> bool
        ensures fitting { IsTrue result → AreListed self.now.endings → IsFittingSince self.now.first self.now.endings at set.now news.now.since news.now.items.items }
        ensures unfit { result ≡ false → AreListed self.now.endings → ((item : ItemOf) → Contains news.now.items.items item → Contains set.now item)
            → IsUnfit self.now.first self.now.endings at set.now }
    {
        match latest(&self.first, at, news.items.as_slice()) {
            Some(latest) => self.endings.are_in(set, news.since, latest),
            None => false,
        }
    }

    /// The operation of the process failed.
    fn end_failed(&mut self, process: u64) -> Result<bool, OutOfMemory>
        ensures goes_on { IfOk result (λ goes. IsTrue goes → (h : List EventOf) (event : EventOf) (name : NameOf) → MayFollow h event → event.process ≡ process
            → event.body ≡ Said.Fail name → AreAll self.old h → AreAll self.new (h ++ event ∷ [])) }
        ensures conflict { IfOk result (λ goes. goes ≡ false → (h : List EventOf) (event : EventOf) (name : NameOf) → MayFollow h event → event.process ≡ process
            → event.body ≡ Said.Fail name → AreAll self.old h → IsInConflict (h ++ event ∷ [])) }
        ensures stays { IfOk result (λ goes. goes ≡ false → IsAsBefore self.old self.new) }
        ensures refused { OnErr result (IsAsBefore self.old self.new) }
    {
        let Some(opened) = self.openings.get(process) else {
            return Ok(true);
        };
        match opened.call {
            Call::Add(item) => self.retract(opened.at, item),
            _ => {
                self.adds.reserve(1)?;
                self.changes.reserve(1)?;
                self.adds.push_reserved(None);
                self.changes.push_reserved(Change::Ended);
                Ok(true)
            }
        }
    }

    /// An add failed, which was invoked at the place.
    fn retract(&mut self, at: usize, item: Item) -> Result<bool, OutOfMemory>
        ensures goes_on { IfOk result (λ goes. IsTrue goes → (h : List EventOf) (event : EventOf) → MayFollow h event → FailsNext h event at (Called.Add item)
            → AreAll self.old h → AreAll self.new (h ++ event ∷ [])) }
        ensures conflict { IfOk result (λ goes. goes ≡ false → (h : List EventOf) (event : EventOf) → FailsNext h event at (Called.Add item)
            → AreAll self.old h → IsInConflict (h ++ event ∷ [])) }
        ensures stays { IfOk result (λ goes. goes ≡ false → IsAsBefore self.old self.new) }
        ensures refused { OnErr result (IsAsBefore self.old self.new) }
    {
        self.adds.reserve(1)?;
        self.changes.reserve(1)?;
        if !self.put_next(at, item) {
            return Ok(false);
        }
        self.adds.push_reserved(None);
        clear(&mut self.adds, at);
        self.changes.push_reserved(Change::Failed { at, item });
        Ok(true)
    }

    /// Puts the next add in the place of the first one of the item, if that is there, unless the item was known before.
    fn put_next(&mut self, at: usize, item: Item) -> bool
        ensures moved { IsTrue result → IsListed self.old.first item → IsMoved self.old self.new item at }
        ensures refused { result ≡ false → IsStuck self.old item at }
        ensures stays { result ≡ false → self.new ≡ self.old }
        ensures others { self.new ≡ record self.old { first = self.new.first } }
    {
        if !self.is_first(at, item) {
            return true;
        }
        let next = next_add(self.adds.as_slice(), item, at);
        if !self.may_lose(item, next) {
            return false;
        }
        self.first.reset(item, next);
        true
    }

    /// Whether the first add of the item is there.
    fn is_first(&self, at: usize, item: Item) -> bool
        ensures { IsTrue result ↔ (place_in self.now.first item ≡ Some at) }
    {
        match self.first.get(item) {
            Some(first) => first == at,
            None => false,
        }
    }

    /// Whether the first add of the item may be this one instead, if there is one.
    fn may_lose(&self, item: Item, next: Option<usize>) -> bool
        ensures may { IsTrue result → AreListed self.now.endings → AllPairs IsBelow self.now.levels.items → MayLose self.now.endings self.now.levels.items item next }
        ensures may_not { result ≡ false → AreListed self.now.endings → MayNotLose self.now.endings self.now.levels.items item next }
    {
        let Some(end) = self.endings.get(item) else {
            return true;
        };
        match next {
            Some(next) => next <= end && self.may_begin(item, next),
            None => false,
        }
    }

    /// Whether the first add of the item may be there, for the reads that found it: the least of these lacks most.
    fn may_begin(&self, item: Item, place: usize) -> bool
        ensures may { IsTrue result → AreListed self.now.endings → AllPairs IsBelow self.now.levels.items
            → (s : List ItemOf) (other : ItemOf) (known : ℕ) → Contains self.now.levels.items s → Contains s item → known_in self.now.endings other ≡ Some known
            → (Contains s other → ⊥) → place ≤ known }
        ensures may_not { result ≡ false → AreListed self.now.endings
            → (s : List ItemOf) × (other : ItemOf) × (known : ℕ) × Contains self.now.levels.items s × Contains s item × (known_in self.now.endings other ≡ Some known)
            × (Contains s other → ⊥) × (known < place) }
    {
        for level in &self.levels {
            if has(level, item) {
                return self.endings.are_in(level, 0, place);
            }
        }
        true
    }

    /// Goes back to the first so many events.
    ///
    /// Takes time linear in the events that are taken back, and for each read among them in how many different sets reads found; and no memory.
    pub fn cut(&mut self, place: usize)
        ensures told { (h : List EventOf) → AreIntervalsOf self.old h → AreIntervalsOf self.new h }
        ensures reached { reached_in self.new ≡ min place (reached_in self.old) }
    {
        while place < self.adds.len() {
            self.take_back();
        }
    }

    /// Takes the last event back.
    fn take_back(&mut self)
        requires { 0 < reached_in self.old }
        ensures told { (h : List EventOf) (event : EventOf) → AreAll self.old (h ++ event ∷ []) → AreAll self.new h }
        ensures fewer { reached_in self.new + 1 ≡ reached_in self.old }
    {
        self.adds.pop();
        if let Some(change) = self.changes.pop() {
            self.undo(change);
        }
    }

    /// Undoes what the event behind the last one changed, which is listed no more.
    fn undo(&mut self, change: Change)
        ensures told { (h : List EventOf) → AreAllBut self.old h change → AreAll self.new h }
        ensures same { reached_in self.new ≡ reached_in self.old }
    {
        let end = self.adds.len();
        match change {
            Change::Invoked {
                process,
                call,
                before,
            } => {
                self.openings.restore(process, before);
                uncall(&mut self.first, call, end);
            }
            Change::Found(set) => {
                remove_level(&mut self.levels, &set);
                self.forget_read(end);
            }
            Change::FoundAgain => self.forget_read(end),
            Change::Failed { at, item } => {
                restore(&mut self.adds, at, item);
                self.first.lower(item, at);
            }
            Change::Ended => self.endings.forget(end),
        }
    }

    /// Forgets the last read, and what is known since the place.
    fn forget_read(&mut self, place: usize)
        ensures listed { AreListed self.old.endings → AreListed self.new.endings }
        ensures kept { AreListed self.old.endings → AreKept self.old.endings self.new.endings place }
        ensures before { AreListed self.old.endings → AreBefore place self.new.endings }
        ensures reads { self.new.reads.items ≡ take (length self.old.reads.items - 1) self.old.reads.items }
        ensures others { self.new ≡ record self.old { endings = self.new.endings; reads = self.new.reads } }
    {
        self.endings.forget(place);
        self.reads.pop();
    }
}
