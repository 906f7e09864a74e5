//! A legal order that goes on with its object's events, with checkpoints to go back to after an edit.
//!
//! A `Witness` is one configuration where a frontier has all: an order, the state in which it ends, and the open operations that it
//! placed. An invocation and an info leave the order as it is. An ok needs its operation placed with its reply: if it isn't, it is
//! placed behind all others, behind those that were suggested ahead of it, or behind one other open operation. A fail needs its
//! operation not placed. Each placing is a step of the object, so the order stays a legal one by the laws of configurations
//! (`placing_is_legal`), whoever suggested it. This is one path through the tree of Wing and Gong 1993 (Testing and verifying
//! concurrent objects), without going back; each operation is placed when it returns, as in the just-in-time linearization of Lowe 2017
//! (Testing for linearizability).
//!
//! Promised: the order is a legal one of as many first events as `of` says. Not promised: that it goes on. Where `take_in` doesn't,
//! another order may be legal: a witness never says that there is none. Then `mend` asks a search how it goes on from a checkpoint
//! shortly before, at no more steps than there are events.
//!
//! A step an event, and with k operations open at most 3 * k + 1 tries. There is a checkpoint at each 64th event; `cut` goes back to
//! one without memory, and leaves what stood behind as a suggestion. Checkpoints that hold more than a number of items linear in the
//! events end it. More: docs/SEARCHES.md, 'An order that goes on'.
ghost use Rattle.std.specs.Prelude.{◌≡◌, ◌≢◌, ◌≤◌, ◌<◌, ◌+◌, ◌-◌, ◌*◌, ◌/◌, ◌⊎◌, [], ℕ, Bool, List, All, Contains, IfSome, Ok, OnOk, OnErr, true, false, length, take, min};
ghost use Rattle.lin_events.specs.declared.items.Item.{Item as ItemOf};
ghost use Rattle.lin_events.specs.declared.calls.Name.{Name as NameOf};
ghost use Rattle.lin_events.specs.declared.calls.Reply.{Reply as ReplyOf};
ghost use Rattle.lin_events.specs.declared.events.Event.{Event as EventOf};
ghost use Rattle.lin_events.specs.declared.events.Body.TheVariants as body;
ghost use Rattle.lin_events.specs.Meters.{ticked};
ghost use Rattle.lin_events.specs.Operations.{IsEvent};
ghost use Rattle.lin_events.specs.WellFormed.{IsWellFormed};
ghost use Rattle.lin_objects.specs.declared.kinds.Kind.{Kind as KindOf};
ghost use Rattle.lin_objects.specs.Steps.{Step as StepOf};
ghost use Rattle.lin_order.specs.Linearizable.{IsLegalOrderAs};
ghost use Rattle.lin_order.specs.Parts.{events_at};
ghost use Rattle.lin_frontier.specs.declared.pending.Open.{Open as OpenOf};
ghost use Rattle.lin_frontier.specs.Placing.{IsAbsent, PlacesOne};
ghost use Rattle.lin_frontier.specs.Walks.{IsTriedAtMost};
ghost use Rattle.lin_engines.specs.Witnesses.{IsLonger, IsPassed, IsWitness, listed, order_in, quarters};

use crate::outcomes::{outcome, outcome_behind};
use crate::searching::{suggest_next, tick};
use lin_events::{Body, Event, Meter, OutOfMemory, Reply, beginnings_are_well_formed};
use lin_frontier::{
    Config, Open, OpenList, OpenMark, Spare, copy_config, copy_without, is_absent, is_placed,
    nothing_is_open_at_first,
};
use lin_objects::{Any, Kind, SeqObject, State};
use lin_order::{Placed, configurations_after_events, configurations_at_start, placing_is_legal};
use std::alloc::Global;

/// How many events are between two checkpoints.
const SPACING: usize = 64;

/// An order that can't go on is looked for again from the last checkpoint, and from so many events before that.
const BACK: (usize, usize, usize) = (64, 256, 1_024);

/// From where an order that couldn't go on is mended.
#[derive(Clone, Copy)]
pub enum Back {
    /// The last checkpoint.
    Near,
    /// Others before it.
    Far,
}

/// Checkpoints may hold so many items each, on the whole.
const WEIGHT: usize = 1_024;

/// And so many more together.
const FIRST_WEIGHT: usize = 1_048_576;

/// What is kept of the events before a place, to go on from there.
#[derive(Drop)]
pub(crate) struct Checkpoint {
    /// So many first operations of the order are a legal one of these events.
    length: usize,
    /// The configuration in which it ends.
    config: Config<State>,
    /// What was open.
    opened: OpenMark,
    /// How much this and the checkpoints before it hold.
    weight: usize,
}

/// A legal order of the first events of an object, in places among these, which goes on with each event that follows. There is a checkpoint
/// at each 64th event, to go back to.
///
/// It goes on as the operations suggest that stood behind it before it was cut, or that it was made of, or that a search found, and else with
/// the operation that returns, and perhaps one other before it. Where no such order is legal, it ends, and where its checkpoints would take
/// more memory than is linear in the events.
#[derive(Drop)]
pub struct Witness {
    alloc: Global,
    object: Any,
    /// The operations of the order. What stands behind the first `length` ones is only suggested.
    order: Vec<Placed>,
    length: usize,
    /// How many events it is an order of.
    of: usize,
    /// The configuration in which it ends: the object's state, and the open operations that it places.
    config: Config<State>,
    /// What is open after these events.
    opened: OpenList,
    checkpoints: Vec<Checkpoint>,
    /// Operations that are suggested next, the first one last.
    hint: Vec<Placed>,
}

impl Witness {
    /// Of no event yet. The operations of the order are suggested.
    pub fn new(alloc: Global, kind: Kind, order: Vec<Placed>) -> Witness
        ensures kind { result.object.kind ≡ kind }
        ensures of { result.of ≡ 0 }
        ensures right { (h : List EventOf) → IsWitness result h }
    {
        let object = Any { kind };
        configurations_at_start(&object);
        nothing_is_open_at_first();
        Witness {
            alloc,
            object,
            order,
            length: 0,
            of: 0,
            config: Config::new(object.start(alloc)),
            opened: OpenList::new(alloc),
            checkpoints: Vec::new(alloc),
            hint: Vec::new(alloc),
        }
    }

    /// Of how many events it is an order.
    pub fn of(&self) -> usize
        ensures { result ≡ self.now.of }
    {
        self.of
    }

    /// The order.
    pub fn order(&self) -> &[Placed]
        ensures { (h : List EventOf) → IsWitness self.now h → IsLegalOrderAs self.now.object.kind (take self.now.of h) result.now }
    {
        let length = self.length.min(self.order.len());
        &self.order[..length]
    }

    /// Forgets the events from the place on: they are about to change. It goes back to the checkpoint at or before the place, and needs no
    /// memory. The rest of the order stays behind as a suggestion.
    pub fn cut(&mut self, place: usize)
        ensures object { self.new.object ≡ self.old.object }
        ensures same { self.old.of ≤ place → self.new ≡ self.old }
        ensures back { place < self.old.of → self.new.of ≤ place }
        ensures near { place < self.old.of → place / 64 * 64 ≤ self.new.of }
        ensures fewer { self.new.of ≤ self.old.of }
        ensures right { (h edited : List EventOf) → IsWitness self.old h → take place h ≡ take place edited → IsWitness self.new edited }
    {
        if self.of <= place {
            return;
        }
        self.checkpoints.truncate(place / SPACING + 1);
        self.of = place / SPACING * SPACING;
        if let Some(last) = self.checkpoints.pop() {
            self.length = last.length;
            self.config = last.config;
            self.opened.cut(self.of, last.opened);
        }
    }

    /// Of how many events it is an order once those from the place on are cut.
    fn left_at(&self, place: usize) -> usize
        ensures same { self.now.of ≤ place → result ≡ self.now.of }
        ensures back { place < self.now.of → result ≡ place / 64 * 64 }
        ensures fewer { result ≤ self.now.of }
    {
        if place < self.of {
            return place / SPACING * SPACING;
        }
        self.of
    }

    /// What stood behind the order is suggested next. Where that is nothing, and more than one of the object's events follows, which stand at
    /// the picks, a search may be asked how the order of a register or a queue goes on: it knows these ahead. It takes a step for each.
    pub fn suggest(
        &mut self,
        events: &[Event],
        picks: &[usize],
        ask: bool,
        meter: &mut Meter,
    ) -> Result<(), OutOfMemory>
        ensures object { self.new.object ≡ self.old.object }
        ensures of { self.new.of ≡ self.old.of }
        ensures right { (h : List EventOf) → IsWitness self.old h → IsWitness self.new h }
        ensures idle { ask ≡ false → meter.new ≡ meter.old }
        ensures least { meter.old.steps ≤ meter.new.steps }
        ensures steps { meter.new.steps ≤ meter.old.steps + (length picks.now - self.old.of) }
        ensures scans { meter.new.scans ≡ meter.old.scans }
    {
        self.suggest_rest()?;
        self.suggest_anew(events, picks, ask, meter)
    }

    /// Where it couldn't go on over the object's events, which stand at the picks, a search is asked how it goes on from the last
    /// checkpoint, or from others shortly before, until it is at their end. Each event that it takes in is a step, and so is each that the search looks at;
    /// on the whole they are no more than a share of the events. It may end before the place where it was, not far.
    pub fn mend(
        &mut self,
        back: Back,
        events: &[Event],
        picks: &[usize],
        meter: &mut Meter,
    ) -> Result<(), OutOfMemory>
        requires right { IsWitness self.old (events_at events.now picks.now) }
        requires inside { All (λ at. at < length events.now) picks.now }
        requires well_formed { (functions : ItemOf → NameOf → Bool) × IsWellFormed functions (events_at events.now picks.now) }
        ensures object { self.new.object ≡ self.old.object }
        ensures right { IsWitness self.new (events_at events.now picks.now) }
        ensures far { self.old.of ≤ self.new.of + 1087 }
        ensures least { meter.old.steps ≤ meter.new.steps }
        ensures steps { 4 * meter.new.steps ≤ 4 * meter.old.steps + quarters back * length picks.now }
        ensures scans { meter.new.scans ≡ meter.old.scans }
    {
        let start = self.of;
        let most = start / 4;
        let (short, long, far) = BACK;
        match back {
            Back::Near => self.retry(start.saturating_sub(1), most, events, picks, meter),
            Back::Far => {
                self.retry(start.saturating_sub(short), most, events, picks, meter)?;
                self.retry(start.saturating_sub(long), most, events, picks, meter)?;
                self.retry(start.saturating_sub(far), most, events, picks, meter)
            }
        }
    }

    /// Where it isn't at the end, it goes back to the checkpoint at or before the place, and goes on as a search says, if that takes no
    /// more than so many steps. Else it stays.
    fn retry(
        &mut self,
        place: usize,
        most: usize,
        events: &[Event],
        picks: &[usize],
        meter: &mut Meter,
    ) -> Result<(), OutOfMemory>
        requires right { IsWitness self.old (events_at events.now picks.now) }
        requires inside { All (λ at. at < length events.now) picks.now }
        requires well_formed { (functions : ItemOf → NameOf → Bool) × IsWellFormed functions (events_at events.now picks.now) }
        ensures object { self.new.object ≡ self.old.object }
        ensures right { IsWitness self.new (events_at events.now picks.now) }
        ensures near { min self.old.of (place - 63) ≤ self.new.of }
        ensures least { meter.old.steps ≤ meter.new.steps }
        ensures steps { meter.new.steps ≤ meter.old.steps + most }
        ensures scans { meter.new.scans ≡ meter.old.scans }
    {
        if picks.len() <= self.of || most / 2 < picks.len() - self.left_at(place) {
            return Ok(());
        }
        self.cut(place);
        self.suggest_rest()?;
        self.suggest_found(events, picks, meter)?;
        self.go_through(events, picks, meter)
    }

    /// Goes on as what is suggested says, as far as it comes.
    fn go_through(
        &mut self,
        events: &[Event],
        picks: &[usize],
        meter: &mut Meter,
    ) -> Result<(), OutOfMemory>
        requires right { IsWitness self.old (events_at events.now picks.now) }
        requires inside { All (λ at. at < length events.now) picks.now }
        requires well_formed { (functions : ItemOf → NameOf → Bool) × IsWellFormed functions (events_at events.now picks.now) }
        ensures object { self.new.object ≡ self.old.object }
        ensures right { IsWitness self.new (events_at events.now picks.now) }
        ensures more { self.old.of ≤ self.new.of }
        ensures counted { ticked meter.old.steps (self.new.of - self.old.of) ≤ meter.new.steps }
        ensures least { meter.old.steps ≤ meter.new.steps }
        ensures steps { meter.new.steps ≤ meter.old.steps + (length picks.now - self.old.of) }
        ensures scans { meter.new.scans ≡ meter.old.scans }
    {
        while self.of < picks.len() {
            let event = &events[picks[self.of]];
            if !self.take_in(event, meter)? {
                return Ok(());
            }
        }
        Ok(())
    }

    /// What a search finds is suggested, if it may be asked, nothing else is, and more than one event follows.
    fn suggest_anew(
        &mut self,
        events: &[Event],
        picks: &[usize],
        ask: bool,
        meter: &mut Meter,
    ) -> Result<(), OutOfMemory>
        ensures longer { IsLonger self.old self.new }
        ensures idle { ask ≡ false → meter.new ≡ meter.old }
        ensures least { meter.old.steps ≤ meter.new.steps }
        ensures steps { meter.new.steps ≤ meter.old.steps + (length picks.now - self.old.of) }
        ensures scans { meter.new.scans ≡ meter.old.scans }
    {
        if !ask || !self.hint.is_empty() || picks.len().saturating_sub(self.of) < 2 {
            return Ok(());
        }
        self.suggest_found(events, picks, meter)
    }

    /// What a search finds is suggested, if it finds something.
    fn suggest_found(
        &mut self,
        events: &[Event],
        picks: &[usize],
        meter: &mut Meter,
    ) -> Result<(), OutOfMemory>
        requires inside { self.old.of < length picks.now }
        ensures longer { IsLonger self.old self.new }
        ensures least { meter.old.steps ≤ meter.new.steps }
        ensures steps { meter.new.steps + self.old.of ≤ meter.old.steps + length picks.now }
        ensures scans { meter.new.scans ≡ meter.old.scans }
    {
        if let Some(hint) = suggest_next(
            self.alloc,
            &self.config,
            &self.opened,
            events,
            picks,
            self.of,
            meter,
        )? {
            self.hint = hint;
        }
        Ok(())
    }

    /// What stands behind the order is suggested next.
    fn suggest_rest(&mut self) -> Result<(), OutOfMemory>
        ensures { IsLonger self.old self.new }
    {
        while self.length < self.order.len() {
            if let Some(placed) = self.order.pop() {
                self.hint.push(placed)?;
            }
        }
        Ok(())
    }

    /// Takes one more event in, which is a step. Whether it goes on with it. Each call that is tried in a state is a try: those suggested
    /// ahead of the operation that returns, this itself, and two for each that may stand before it.
    pub fn take_in(&mut self, event: &Event, meter: &mut Meter) -> Result<bool, OutOfMemory>
        requires fits { self.old.of < usize.MAX }
        ensures object { self.new.object ≡ self.old.object }
        ensures next { result ≡ Ok true → self.new.of ≡ self.old.of + 1 }
        ensures stays { result ≢ Ok true → self.new.of ≡ self.old.of }
        ensures right { (functions : ItemOf → NameOf → Bool) (h : List EventOf) → IsWellFormed functions h → IsEvent h self.old.of event.now → IsWitness self.old h → IsWitness self.new h }
        ensures counted { meter.new.steps ≡ ticked meter.old.steps 1 }
        ensures least { meter.old.steps ≤ meter.new.steps }
        ensures scans { meter.new.scans ≡ meter.old.scans }
        ensures tries { meter.new.tries ≤ meter.old.tries + (3 * length (listed self.old.opened) + 1) }
    {
        tick(meter);
        if !self.mark()? {
            return Ok(false);
        }
        match &event.body {
            Body::Invoke(_) | Body::Info(_) => self.pass(event),
            Body::Fail(_) => {
                if !is_absent(self.config.placed(), event.process) {
                    return Ok(false);
                }
                self.pass(event)
            }
            Body::Ok(_, reply) => {
                if !self.provide(event.process, reply, meter)? {
                    return Ok(false);
                }
                self.complete(event)
            }
        }
    }

    /// Makes a checkpoint, where one is due, unless that holds too much. Whether there is one where it is due.
    fn mark(&mut self) -> Result<bool, OutOfMemory>
        ensures longer { IsLonger self.old self.new }
        ensures before { result ≡ Ok true → (h : List EventOf) → IsWitness self.old h → self.new.of < 64 * length self.new.checkpoints.items }
    {
        let count = self.checkpoints.len();
        if count > self.of / SPACING {
            return Ok(true);
        }
        let weight = self.weight();
        if weight > count.saturating_mul(WEIGHT).saturating_add(FIRST_WEIGHT) {
            return Ok(false);
        }
        self.keep(weight)?;
        Ok(true)
    }

    /// How much the checkpoints would hold with one more.
    fn weight(&self) -> usize {
        let before = self.checkpoints.last().map_or(0, |last| last.weight);
        let placed = self.config.placed().len();
        before
            .saturating_add(items_in(self.config.state()))
            .saturating_add(placed)
    }

    /// Makes a checkpoint.
    fn keep(&mut self, weight: usize) -> Result<(), OutOfMemory>
        requires due { 64 * length self.old.checkpoints.items ≤ self.old.of }
        ensures longer { IsLonger self.old self.new }
        ensures one { OnOk result (length self.new.checkpoints.items ≡ length self.old.checkpoints.items + 1) }
    {
        let config = copy_config(&self.object, self.alloc, &self.config)?;
        self.checkpoints.push(Checkpoint {
            length: self.length,
            config,
            opened: self.opened.mark(self.of),
            weight,
        })?;
        Ok(())
    }

    /// Takes an event in that leaves the order as it is.
    fn pass(&mut self, event: &Event) -> Result<bool, OutOfMemory>
        requires fits { self.old.of < usize.MAX }
        ensures object { self.new.object ≡ self.old.object }
        ensures next { result ≡ Ok true → self.new.of ≡ self.old.of + 1 }
        ensures stays { result ≢ Ok true → self.new.of ≡ self.old.of }
        ensures right { (functions : ItemOf → NameOf → Bool) (h : List EventOf) → IsWellFormed functions h → IsEvent h self.old.of event.now → IsPassed event.now self.old.config
            → self.old.of < 64 * length self.old.checkpoints.items → IsWitness self.old h → IsWitness self.new h }
    {
        beginnings_are_well_formed();
        configurations_after_events(&self.object);
        self.opened.reserve()?;
        if !self.opened.take_in(self.of, event) {
            return Ok(false);
        }
        self.of += 1;
        Ok(true)
    }

    /// Takes an ok in whose operation is placed with its reply.
    fn complete(&mut self, event: &Event) -> Result<bool, OutOfMemory>
        requires fits { self.old.of < usize.MAX }
        ensures object { self.new.object ≡ self.old.object }
        ensures next { result ≡ Ok true → self.new.of ≡ self.old.of + 1 }
        ensures stays { result ≢ Ok true → self.new.of ≡ self.old.of }
        ensures right { (functions : ItemOf → NameOf → Bool) (h : List EventOf) (name : NameOf) (reply : ReplyOf) → IsWellFormed functions h → IsEvent h self.old.of event.now
            → event.now.body ≡ body.Ok name reply → Contains self.old.config.1 (event.now.process, reply)
            → self.old.of < 64 * length self.old.checkpoints.items → IsWitness self.old h → IsWitness self.new h }
    {
        beginnings_are_well_formed();
        configurations_after_events(&self.object);
        let mut spare = Spare::new(self.alloc);
        let config = copy_without(
            &self.object,
            self.alloc,
            &self.config,
            event.process,
            &mut spare,
        )?;
        self.opened.reserve()?;
        if !self.opened.take_in(self.of, event) {
            return Ok(false);
        }
        self.config = config;
        self.of += 1;
        Ok(true)
    }

    /// Places the operation of the process with the reply, where it isn't yet: behind those that are suggested ahead of it, or behind one
    /// other that makes the object give the reply. Whether it is placed so.
    fn provide(
        &mut self,
        process: u64,
        reply: &Reply,
        meter: &mut Meter,
    ) -> Result<bool, OutOfMemory>
        ensures longer { IsLonger self.old self.new }
        ensures placed { result ≡ Ok true → Contains self.new.config.1 (process, reply.now) }
        ensures tried { IsTriedAtMost (3 * length (listed self.old.opened) + 1) meter.old meter.new }
    {
        if is_placed(self.config.placed(), process, reply) {
            return Ok(true);
        }
        let Some(operation) = self.opened.of(process) else {
            return Ok(false);
        };
        let suggested = self.follow(operation.at, meter)?;
        if self.place_somehow(&operation, reply, meter)? {
            return Ok(true);
        }
        self.suggest_again(suggested)?;
        Ok(false)
    }

    /// What is given is suggested next, if it is something.
    fn suggest_again(&mut self, suggested: Option<Placed>) -> Result<(), OutOfMemory>
        ensures { IsLonger self.old self.new }
    {
        if let Some(placed) = suggested {
            self.hint.push(placed)?;
        }
        Ok(())
    }

    /// Places the open operation last, or behind another one. Whether it is placed so.
    fn place_somehow(
        &mut self,
        operation: &Open,
        reply: &Reply,
        meter: &mut Meter,
    ) -> Result<bool, OutOfMemory>
        requires listed { Contains (listed self.old.opened) operation.now }
        ensures longer { IsLonger self.old self.new }
        ensures placed { result ≡ Ok true → Contains self.new.config.1 (operation.now.process, reply.now) }
        ensures tried { IsTriedAtMost (2 * length (listed self.old.opened) + 1) meter.old meter.new }
    {
        if self.place(operation, reply, meter)? {
            return Ok(true);
        }
        self.place_behind_another(operation, reply, meter)
    }

    /// Places what is suggested ahead of the operation. What is suggested for itself is told, and suggested no more.
    fn follow(&mut self, at: usize, meter: &mut Meter) -> Result<Option<Placed>, OutOfMemory>
        ensures longer { IsLonger self.old self.new }
        ensures tried { IsTriedAtMost (length (listed self.old.opened)) meter.old meter.new }
    {
        let Some(ahead) = self.suggested_ahead(at) else {
            return Ok(None);
        };
        for _ in 0..ahead {
            self.place_suggested(meter)?;
        }
        Ok(self.hint.pop())
    }

    /// How many operations are suggested ahead of this one, if it is suggested behind no more than are open.
    fn suggested_ahead(&self, at: usize) -> Option<usize>
        ensures { IfSome result (λ ahead. ahead < length (listed self.now.opened)) }
    {
        let most = self.opened.len();
        let count = self.hint.len();
        for ahead in 0..count.min(most) {
            if self.hint[count - 1 - ahead].at == at {
                return Some(ahead);
            }
        }
        None
    }

    /// Places the operation that is suggested next, if it is open and the object gives the reply.
    fn place_suggested(&mut self, meter: &mut Meter) -> Result<(), OutOfMemory>
        ensures longer { IsLonger self.old self.new }
        ensures tried { IsTriedAtMost 1 meter.old meter.new }
    {
        let Some(suggested) = self.hint.pop() else {
            return Ok(());
        };
        let Some(operation) = self.opened.find(suggested.at) else {
            return Ok(());
        };
        self.place(&operation, &suggested.reply, meter)?;
        Ok(())
    }

    /// Places the open operation last, if it has no place yet and the object gives the reply. Whether it does.
    fn place(
        &mut self,
        operation: &Open,
        reply: &Reply,
        meter: &mut Meter,
    ) -> Result<bool, OutOfMemory>
        requires listed { Contains (listed self.old.opened) operation.now }
        ensures longer { IsLonger self.old self.new }
        ensures placed { result ≡ Ok true → Contains self.new.config.1 (operation.now.process, reply.now) }
        ensures tried { IsTriedAtMost 1 meter.old meter.new }
    {
        match outcome(
            self.alloc,
            &self.object,
            &self.config,
            operation,
            reply,
            meter,
        )? {
            Some((next, placed)) => {
                self.put(next, placed)?;
                Ok(true)
            }
            None => Ok(false),
        }
    }

    /// Places another open operation, and this one behind it, if the object then gives the reply. Each other one is tried once.
    fn place_behind_another(
        &mut self,
        operation: &Open,
        reply: &Reply,
        meter: &mut Meter,
    ) -> Result<bool, OutOfMemory>
        requires listed { Contains (listed self.old.opened) operation.now }
        ensures longer { IsLonger self.old self.new }
        ensures placed { result ≡ Ok true → Contains self.new.config.1 (operation.now.process, reply.now) }
        ensures tried { IsTriedAtMost (2 * length (listed self.old.opened)) meter.old meter.new }
    {
        for number in 0..self.opened.len() {
            if self.place_behind(number, operation, reply, meter)? {
                return Ok(true);
            }
        }
        Ok(false)
    }

    /// Places the open operation with the number, and this one behind it, if the object then gives the reply. Whether it does.
    fn place_behind(
        &mut self,
        number: usize,
        operation: &Open,
        reply: &Reply,
        meter: &mut Meter,
    ) -> Result<bool, OutOfMemory>
        requires listed { Contains (listed self.old.opened) operation.now }
        ensures longer { IsLonger self.old self.new }
        ensures placed { result ≡ Ok true → Contains self.new.config.1 (operation.now.process, reply.now) }
        ensures tried { IsTriedAtMost 2 meter.old meter.new }
    {
        let Some(other) = self.opened.get(number) else {
            return Ok(false);
        };
        match outcome_behind(
            self.alloc,
            &self.object,
            &self.config,
            &other,
            operation,
            reply,
            meter,
        )? {
            Some((first, second)) => {
                self.put(first.0, first.1)?;
                self.put(second.0, second.1)?;
                Ok(true)
            }
            None => Ok(false),
        }
    }

    /// Puts the operation last, which leads to the configuration.
    fn put(&mut self, next: Config<State>, placed: Placed) -> Result<(), OutOfMemory>
        requires placed { (o : OpenOf) × Contains (listed self.old.opened) o × PlacesOne (StepOf self.old.object.kind) o self.old.config placed next }
        ensures longer { IsLonger self.old self.new }
        ensures next { OnOk result (self.new.config ≡ next) }
    {
        placing_is_legal(&self.object);
        self.order.truncate(self.length);
        self.order.push(placed)?;
        self.length = self.order.len();
        self.config = next;
        Ok(())
    }
}

/// How many items the state holds.
fn items_in(state: &State) -> usize {
    match state {
        State::Value(_) | State::Held(_) => 1,
        State::Queue(queue) => queue.as_slice().len(),
        State::Members(members) => members.as_slice().len(),
        State::Bag(bag) => bag.as_slice().len(),
    }
}
