//! Which of an object's engines take its events in, and when all events are searched.
ghost use Rattle.std.specs.Prelude.{◌≡◌, ◌≤◌, ◌<◌, ◌+◌, ◌-◌, ◌*◌, ◌⊎◌, ◌↔◌, ℕ, Bool, List, All, IfOk, IfSome, IsOk, IsTrue, OnOk, Ok, Some, length, take, true, false, nat_lt};
ghost use Rattle.lin_events.specs.declared.items.Item.{Item as ItemOf};
ghost use Rattle.lin_events.specs.declared.calls.Name.{Name as NameOf};
ghost use Rattle.lin_events.specs.declared.events.Event.{Event as EventOf};
ghost use Rattle.lin_events.specs.WellFormed.{IsWellFormed};
ghost use Rattle.lin_order.specs.Linearizable.{IsLegalOrderAs, IsLinearizableAs};
ghost use Rattle.lin_order.specs.Parts.{events_at};
ghost use Rattle.lin_engines.specs.declared.ends.End.{End as EndOf};
ghost use Rattle.lin_engines.specs.Ends.{IsEndOf};
ghost use Rattle.lin_engines.specs.Exacts.{HasExact};
ghost use Rattle.lin_engines.specs.Witnesses.{quarters};
ghost use Rattle.lin_chain.specs.Chains.{IsDecided, IsExactBeside, IsFor, IsKept, IsRight, kind_in, mark_beside, mark_in, told_in};
ghost use Rattle.lin_chain.specs.Work.{IsSpent, IsSpentAtMost};

use crate::beside::Beside;
use crate::chain::Chain;
use crate::found::Found;
use crate::patience::{Patience, is_worth};
use lin_compressed_frontier::{Scratch, is_counted};
use lin_engines::{Back, End, Exact, Lane, Witness, copied, mend, suggest};
use lin_events::{Event, Meter, OutOfMemory};
use lin_objects::{Any, Kind};
use lin_order::Placed;
use lin_search::{Guide, finds_conflict, finds_failure, finds_order};

/// So many turns at most are taken behind the engine that stands beside the frontiers.
const TURNS: usize = 3;

/// So many events of a register are first searched ahead. Of fewer ones frontiers are soon through.
const MANY: usize = 128;

/// What is done next.
enum Turn {
    /// All events of a register are searched for a legal order with few configurations, whose reads are known ahead.
    Ahead,
    /// Frontiers take events in, as long as these are worth it.
    Frontier(Patience),
    /// All events are searched, for a legal order and else for a failure.
    Search,
    Rest,
}

impl Chain {
    /// Answers whether the object's events, which stand at the picks, have a legal order.
    ///
    /// Asks that the chain is right for them as they stand, and not over for a smaller budget, and that they are well-formed. What is told is
    /// told again. Else the engines take in what is due to them, and all events may be searched: what that takes is bounded by what is left
    /// for each (`left`).
    ///
    /// A set or a lock is decided by an engine of its own, one step for each event that is due to it, unless all configurations are counted.
    /// Under a budget for which they are counted only frontiers tell. Where memory is refused, the events before the refusal are taken in.
    pub fn settle(
        &mut self,
        events: &[Event],
        picks: &[usize],
        budget: u32,
        meter: &mut Meter,
    ) -> Result<End, OutOfMemory>
        requires right { IsRight self.old (events_at events.now picks.now) }
        requires retried { IsFor budget self.old }
        requires inside { All (λ at. at < length events.now) picks.now }
        requires well_formed { (functions : ItemOf → NameOf → Bool) × IsWellFormed functions (events_at events.now picks.now) }
        ensures kept { IsKept budget (events_at events.now picks.now) self.old self.new }
        ensures end { IfOk result (IsEndOf (kind_in self.old) budget (events_at events.now picks.now)) }
        ensures told { IfOk result (λ end. told_in self.new (length picks.now) ≡ Some end) }
        ensures again { (end : EndOf) → told_in self.old (length picks.now) ≡ Some end → (result ≡ Ok end) × (self.new ≡ self.old) × (meter.new ≡ meter.old) }
        ensures spent { OnOk result (IsSpent (mark_in self.old) (mark_in self.new) (length picks.now) meter.old.steps meter.new.steps) }
        ensures most { IsSpentAtMost (mark_in self.old) (mark_in self.new) (length picks.now) meter.old.steps meter.new.steps }
        ensures decided { HasExact (kind_in self.old) → 1024 ≤ budget → IfOk result IsDecided }
        ensures exact { HasExact (kind_in self.old) → 1024 ≤ budget → meter.new.steps ≤ meter.old.steps + (length picks.now - mark_beside self.old.beside) }
        ensures scans { meter.new.scans ≡ meter.old.scans }
    {
        if let Some(end) = self.told(picks.len()) {
            return Ok(end);
        }
        let mut scratch = Scratch::new(self.frontier.engine().alloc());
        self.extend(events, picks, budget, meter, &mut scratch)?;
        self.take_turns(events, picks, budget, meter, &mut scratch)?;
        self.finish(events, picks, budget, meter, &mut scratch)
    }

    /// Frontiers take in what is due, if nothing else tells.
    fn finish(
        &mut self,
        events: &[Event],
        picks: &[usize],
        budget: u32,
        meter: &mut Meter,
        scratch: &mut Scratch<Any>,
    ) -> Result<End, OutOfMemory>
        requires right { IsRight self.old (events_at events.now picks.now) }
        requires retried { IsFor budget self.old }
        requires spared { HasExact (kind_in self.old) → 1024 ≤ budget → (end : EndOf) × (told_in self.old (length picks.now) ≡ Some end) × IsDecided end }
        requires inside { All (λ at. at < length events.now) picks.now }
        requires well_formed { (functions : ItemOf → NameOf → Bool) × IsWellFormed functions (events_at events.now picks.now) }
        ensures kept { IsKept budget (events_at events.now picks.now) self.old self.new }
        ensures end { IfOk result (IsEndOf (kind_in self.old) budget (events_at events.now picks.now)) }
        ensures told { IfOk result (λ end. told_in self.new (length picks.now) ≡ Some end) }
        ensures again { (end : EndOf) → told_in self.old (length picks.now) ≡ Some end → (result ≡ Ok end) × (self.new ≡ self.old) × (meter.new ≡ meter.old) }
        ensures spent { OnOk result (IsSpent (mark_in self.old) (mark_in self.new) (length picks.now) meter.old.steps meter.new.steps) }
        ensures most { IsSpentAtMost (mark_in self.old) (mark_in self.new) (length picks.now) meter.old.steps meter.new.steps }
        ensures scans { meter.new.scans ≡ meter.old.scans }
    {
        if let Some(end) = self.told(picks.len()) {
            return Ok(end);
        }
        self.frontier.go_on(events, picks, budget, meter, scratch)?;
        match self.told(picks.len()) {
            Some(end) => Ok(end),
            None => unreachable!(),
        }
    }

    /// The engine beside the frontiers takes in what is due to it, unless all configurations are counted.
    fn extend(
        &mut self,
        events: &[Event],
        picks: &[usize],
        budget: u32,
        meter: &mut Meter,
        scratch: &mut Scratch<Any>,
    ) -> Result<(), OutOfMemory>
        requires right { IsRight self.old (events_at events.now picks.now) }
        requires retried { IsFor budget self.old }
        requires inside { All (λ at. at < length events.now) picks.now }
        requires well_formed { (functions : ItemOf → NameOf → Bool) × IsWellFormed functions (events_at events.now picks.now) }
        ensures kept { IsKept budget (events_at events.now picks.now) self.old self.new }
        ensures spent { OnOk result (IsSpent (mark_in self.old) (mark_in self.new) (length picks.now) meter.old.steps meter.new.steps) }
        ensures most { IsSpentAtMost (mark_in self.old) (mark_in self.new) (length picks.now) meter.old.steps meter.new.steps }
        ensures decided { HasExact (kind_in self.old) → 1024 ≤ budget → OnOk result ((end : EndOf) × (told_in self.new (length picks.now) ≡ Some end) × IsDecided end) }
        ensures exact { HasExact (kind_in self.old) → 1024 ≤ budget → meter.new.steps ≤ meter.old.steps + (length picks.now - mark_beside self.old.beside) }
        ensures scans { meter.new.scans ≡ meter.old.scans }
    {
        if is_counted(budget as usize) {
            return Ok(());
        }
        self.begin();
        match &mut self.beside {
            Beside::Nothing => Ok(()),
            Beside::Exact(lane) => lane.go_on(events, picks, budget, meter, scratch),
            Beside::Going(_) => self.follow(events, picks, budget, meter, scratch),
        }
    }

    /// An object that an engine decides has that from now on.
    fn begin(&mut self)
        ensures others { self.new ≡ record self.old { beside = self.new.beside } }
        ensures right { (h : List EventOf) → IsRight self.old h → IsRight self.new h }
        ensures mark { (h : List EventOf) → IsRight self.old h → mark_beside self.new.beside ≡ mark_beside self.old.beside }
        ensures exact { (h : List EventOf) → IsRight self.old h → HasExact (kind_in self.old) → IsExactBeside self.new.beside }
    {
        let Beside::Nothing = self.beside else {
            return;
        };
        let alloc = self.frontier.engine().alloc();
        if let Some(engine) = Exact::of(alloc, self.kind()) {
            self.beside = Beside::Exact(Lane::new(engine));
        }
    }

    /// A witness goes on over the events that are due to it. Where it comes to one that it can't take in, it is mended, or a failure sought there,
    /// and all events may be searched anew.
    fn follow(
        &mut self,
        events: &[Event],
        picks: &[usize],
        budget: u32,
        meter: &mut Meter,
        scratch: &mut Scratch<Any>,
    ) -> Result<(), OutOfMemory>
        requires right { IsRight self.old (events_at events.now picks.now) }
        requires retried { IsFor budget self.old }
        requires inside { All (λ at. at < length events.now) picks.now }
        requires well_formed { (functions : ItemOf → NameOf → Bool) × IsWellFormed functions (events_at events.now picks.now) }
        ensures kept { IsKept budget (events_at events.now picks.now) self.old self.new }
        ensures spent { OnOk result (IsSpent (mark_in self.old) (mark_in self.new) (length picks.now) meter.old.steps meter.new.steps) }
        ensures most { IsSpentAtMost (mark_in self.old) (mark_in self.new) (length picks.now) meter.old.steps meter.new.steps }
        ensures scans { meter.new.scans ≡ meter.old.scans }
    {
        let ask = !self.frontier.is_on();
        let Beside::Going(lane) = &mut self.beside else {
            return Ok(());
        };
        if picks.len() <= lane.mark() || lane.is_gone() {
            return Ok(());
        }
        suggest(lane, events, picks, ask, meter)?;
        lane.go_on(events, picks, budget, meter, scratch)?;
        if self.stopped || !lane.is_gone() {
            return Ok(());
        }
        self.stopped = true;
        self.searched = 0;
        self.repair(events, picks, meter)
    }

    /// A witness that couldn't take the next event in is mended, if a search says how it goes on from its last checkpoint. Else the failure is sought:
    /// where the witness is mended up to it, that is kept. Where none is found, it is mended from checkpoints before that one.
    fn repair(
        &mut self,
        events: &[Event],
        picks: &[usize],
        meter: &mut Meter,
    ) -> Result<(), OutOfMemory>
        requires right { IsRight self.old (events_at events.now picks.now) }
        requires inside { All (λ at. at < length events.now) picks.now }
        requires well_formed { (functions : ItemOf → NameOf → Bool) × IsWellFormed functions (events_at events.now picks.now) }
        ensures right { IsRight self.new (events_at events.now picks.now) }
        ensures others { self.new ≡ record self.old { beside = self.new.beside; found = self.new.found } }
        ensures mark { mark_beside self.old.beside ≤ mark_beside self.new.beside }
        ensures steps { meter.new.steps ≤ meter.old.steps + 4 * length picks.now }
        ensures scans { meter.new.scans ≡ meter.old.scans }
    {
        if self.is_mended(Back::Near, picks.len(), events, picks, meter)? {
            return Ok(());
        }
        let alloc = self.frontier.engine().alloc();
        let conflict = finds_conflict(alloc, self.kind(), events, picks, meter)?;
        if let Some(at) = conflict {
            return self.show(at, events, picks, meter);
        }
        self.is_mended(Back::Far, picks.len(), events, picks, meter)?;
        Ok(())
    }

    /// The events up to and with this one have no legal order: where a witness is mended up to it, it is the failure, and that is kept.
    fn show(
        &mut self,
        at: usize,
        events: &[Event],
        picks: &[usize],
        meter: &mut Meter,
    ) -> Result<(), OutOfMemory>
        requires failing { IsLinearizableAs (kind_in self.old) (take (at + 1) (events_at events.now picks.now)) → ⊥ }
        requires right { IsRight self.old (events_at events.now picks.now) }
        requires inside { All (λ at. at < length events.now) picks.now }
        requires well_formed { (functions : ItemOf → NameOf → Bool) × IsWellFormed functions (events_at events.now picks.now) }
        ensures right { IsRight self.new (events_at events.now picks.now) }
        ensures others { self.new ≡ record self.old { beside = self.new.beside; found = self.new.found } }
        ensures mark { mark_beside self.old.beside ≤ mark_beside self.new.beside }
        ensures steps { meter.new.steps ≤ meter.old.steps + length picks.now }
        ensures scans { meter.new.scans ≡ meter.old.scans }
    {
        if picks.len() <= at {
            return Ok(());
        }
        if self.reaches(at, events, picks, meter)? {
            self.found = Found::Failure(at);
        }
        Ok(())
    }

    /// Whether a witness is mended up to the place, from near or from further back.
    fn reaches(
        &mut self,
        place: usize,
        events: &[Event],
        picks: &[usize],
        meter: &mut Meter,
    ) -> Result<bool, OutOfMemory>
        requires place { place ≤ length picks.now }
        requires right { IsRight self.old (events_at events.now picks.now) }
        requires inside { All (λ at. at < length events.now) picks.now }
        requires well_formed { (functions : ItemOf → NameOf → Bool) × IsWellFormed functions (events_at events.now picks.now) }
        ensures right { IsRight self.new (events_at events.now picks.now) }
        ensures others { self.new ≡ record self.old { beside = self.new.beside } }
        ensures mark { mark_beside self.old.beside ≤ mark_beside self.new.beside }
        ensures linearizable { result ≡ Ok true → IsLinearizableAs (kind_in self.old) (take place (events_at events.now picks.now)) }
        ensures steps { meter.new.steps ≤ meter.old.steps + place }
        ensures scans { meter.new.scans ≡ meter.old.scans }
    {
        if self.is_mended(Back::Near, place, events, picks, meter)? {
            return Ok(true);
        }
        self.is_mended(Back::Far, place, events, picks, meter)
    }

    /// Whether a witness that gave up is one of the events before the place, or a search says how it goes on up to there from shortly before the event that
    /// it couldn't take in.
    fn is_mended(
        &mut self,
        back: Back,
        place: usize,
        events: &[Event],
        picks: &[usize],
        meter: &mut Meter,
    ) -> Result<bool, OutOfMemory>
        requires place { place ≤ length picks.now }
        requires right { IsRight self.old (events_at events.now picks.now) }
        requires inside { All (λ at. at < length events.now) picks.now }
        requires well_formed { (functions : ItemOf → NameOf → Bool) × IsWellFormed functions (events_at events.now picks.now) }
        ensures right { IsRight self.new (events_at events.now picks.now) }
        ensures others { self.new ≡ record self.old { beside = self.new.beside } }
        ensures mark { mark_beside self.old.beside ≤ mark_beside self.new.beside }
        ensures linearizable { result ≡ Ok true → IsLinearizableAs (kind_in self.old) (take place (events_at events.now picks.now)) }
        ensures steps { 4 * meter.new.steps ≤ 4 * meter.old.steps + quarters back * place }
        ensures scans { meter.new.scans ≡ meter.old.scans }
    {
        let Beside::Going(lane) = &mut self.beside else {
            return Ok(false);
        };
        if !lane.is_gone() || lane.mark() != picks.len() {
            return Ok(false);
        }
        if lane.reached() < place {
            mend(lane, back, place, events, picks, meter)?;
        }
        Ok(lane.reached() == place)
    }
}

impl Chain {
    /// Frontiers and searches take turns, as the schedule says, until it says no more.
    fn take_turns(
        &mut self,
        events: &[Event],
        picks: &[usize],
        budget: u32,
        meter: &mut Meter,
        scratch: &mut Scratch<Any>,
    ) -> Result<(), OutOfMemory>
        requires right { IsRight self.old (events_at events.now picks.now) }
        requires retried { IsFor budget self.old }
        requires spared { HasExact (kind_in self.old) → 1024 ≤ budget → (end : EndOf) × (told_in self.old (length picks.now) ≡ Some end) × IsDecided end }
        requires inside { All (λ at. at < length events.now) picks.now }
        requires well_formed { (functions : ItemOf → NameOf → Bool) × IsWellFormed functions (events_at events.now picks.now) }
        ensures kept { IsKept budget (events_at events.now picks.now) self.old self.new }
        ensures again { (end : EndOf) → told_in self.old (length picks.now) ≡ Some end → IsDecided end → IsOk result × (self.new ≡ self.old) × (meter.new ≡ meter.old) }
        ensures spent { OnOk result (IsSpent (mark_in self.old) (mark_in self.new) (length picks.now) meter.old.steps meter.new.steps) }
        ensures most { IsSpentAtMost (mark_in self.old) (mark_in self.new) (length picks.now) meter.old.steps meter.new.steps }
        ensures scans { meter.new.scans ≡ meter.old.scans }
    {
        for number in 0..TURNS {
            if self.is_decided(picks.len()) {
                return Ok(());
            }
            let turn = self.turn(number, picks.len(), budget, meter);
            self.take_turn(turn, events, picks, budget, meter, scratch)?;
        }
        Ok(())
    }

    /// Does what the schedule says.
    fn take_turn(
        &mut self,
        turn: Turn,
        events: &[Event],
        picks: &[usize],
        budget: u32,
        meter: &mut Meter,
        scratch: &mut Scratch<Any>,
    ) -> Result<(), OutOfMemory>
        requires right { IsRight self.old (events_at events.now picks.now) }
        requires retried { IsFor budget self.old }
        requires spared { HasExact (kind_in self.old) → budget < 1024 }
        requires inside { All (λ at. at < length events.now) picks.now }
        requires well_formed { (functions : ItemOf → NameOf → Bool) × IsWellFormed functions (events_at events.now picks.now) }
        ensures kept { IsKept budget (events_at events.now picks.now) self.old self.new }
        ensures spent { OnOk result (IsSpent (mark_in self.old) (mark_in self.new) (length picks.now) meter.old.steps meter.new.steps) }
        ensures most { IsSpentAtMost (mark_in self.old) (mark_in self.new) (length picks.now) meter.old.steps meter.new.steps }
        ensures scans { meter.new.scans ≡ meter.old.scans }
    {
        match turn {
            Turn::Ahead => self.look_ahead(events, picks, budget, meter),
            Turn::Frontier(patience) => {
                self.take_some(events, picks, budget, patience, meter, scratch)
            }
            Turn::Search => self.search(events, picks, budget, meter, scratch),
            Turn::Rest => Ok(()),
        }
    }

    /// What is done next. It promises nothing: whatever it says, what comes of it is right.
    ///
    /// A register of which nothing is known is searched ahead, where no further event is expected: frontiers would have to take in all that was
    /// searched when one comes. Few tries of frontiers come before other searches, since most objects are soon decided by
    /// these; behind them, where an order stopped that had spared them the events since long.
    fn turn(&self, number: usize, count: usize, budget: u32, meter: &Meter) -> Turn {
        if is_counted(budget as usize) {
            return Turn::Rest;
        }
        match (number, self.stopped) {
            (0, false) if self.is_new() => Turn::Ahead,
            (1, false) | (2, true) => Turn::Frontier(Patience::little(meter, self.kind(), count)),
            (1, true) | (2, false) => Turn::Search,
            _ => Turn::Rest,
        }
    }

    /// Whether it is a register of which nothing is known, and which is asked about once.
    fn is_new(&self) -> bool {
        self.once
            && matches!(self.kind(), Kind::Register | Kind::CasRegister)
            && self.frontier.mark() == 0
            && matches!(self.beside, Beside::Nothing)
    }

    /// Whether it is told of so many events whether they have a legal order.
    fn is_decided(&self, count: usize) -> bool
        ensures { IsTrue result ↔ ((end : EndOf) × (told_in self.now count ≡ Some end) × IsDecided end) }
    {
        matches!(self.told(count), Some(End::Alive | End::Dead(_)))
    }

    /// Frontiers take in some of the events that are due, as long as these are worth it.
    fn take_some(
        &mut self,
        events: &[Event],
        picks: &[usize],
        budget: u32,
        patience: Patience,
        meter: &mut Meter,
        scratch: &mut Scratch<Any>,
    ) -> Result<(), OutOfMemory>
        requires right { IsRight self.old (events_at events.now picks.now) }
        requires retried { IsFor budget self.old }
        requires spared { HasExact (kind_in self.old) → budget < 1024 }
        requires inside { All (λ at. at < length events.now) picks.now }
        requires well_formed { (functions : ItemOf → NameOf → Bool) × IsWellFormed functions (events_at events.now picks.now) }
        ensures kept { IsKept budget (events_at events.now picks.now) self.old self.new }
        ensures spent { OnOk result (IsSpent (mark_in self.old) (mark_in self.new) (length picks.now) meter.old.steps meter.new.steps) }
        ensures most { IsSpentAtMost (mark_in self.old) (mark_in self.new) (length picks.now) meter.old.steps meter.new.steps }
        ensures scans { meter.new.scans ≡ meter.old.scans }
    {
        while self.frontier.is_on()
            && self.frontier.mark() < picks.len()
            && is_worth(meter, patience, self.frontier.engine(), budget)
        {
            self.frontier.next(events, picks, budget, meter, scratch)?;
        }
        Ok(())
    }

    /// Searches all of many events, of which none were searched, for a legal order with few configurations. That is a ninth of what may be spent for
    /// searches, so as many of the events count as searched.
    fn look_ahead(
        &mut self,
        events: &[Event],
        picks: &[usize],
        budget: u32,
        meter: &mut Meter,
    ) -> Result<(), OutOfMemory>
        requires right { IsRight self.old (events_at events.now picks.now) }
        requires retried { IsFor budget self.old }
        requires inside { All (λ at. at < length events.now) picks.now }
        requires well_formed { (functions : ItemOf → NameOf → Bool) × IsWellFormed functions (events_at events.now picks.now) }
        ensures kept { IsKept budget (events_at events.now picks.now) self.old self.new }
        ensures spent { OnOk result (IsSpent (mark_in self.old) (mark_in self.new) (length picks.now) meter.old.steps meter.new.steps) }
        ensures most { IsSpentAtMost (mark_in self.old) (mark_in self.new) (length picks.now) meter.old.steps meter.new.steps }
        ensures scans { meter.new.scans ≡ meter.old.scans }
    {
        if is_counted(budget as usize) || self.searched > 0 || picks.len() < MANY {
            return Ok(());
        }
        self.find_ahead(events, picks, meter)?;
        self.searched = picks.len() / 8;
        Ok(())
    }

    /// Keeps a legal order of all events, if the search with few configurations finds one. It doesn't go on.
    fn find_ahead(
        &mut self,
        events: &[Event],
        picks: &[usize],
        meter: &mut Meter,
    ) -> Result<(), OutOfMemory>
        requires right { IsRight self.old (events_at events.now picks.now) }
        requires inside { All (λ at. at < length events.now) picks.now }
        ensures right { IsRight self.new (events_at events.now picks.now) }
        ensures others { self.new ≡ record self.old { beside = self.new.beside; found = self.new.found } }
        ensures mark { mark_beside self.old.beside ≤ mark_beside self.new.beside }
        ensures steps { meter.new.steps ≤ meter.old.steps + 2 * length picks.now }
        ensures scans { meter.new.scans ≡ meter.old.scans }
    {
        let alloc = self.frontier.engine().alloc();
        let Some(order) = finds_order(alloc, self.kind(), Guide::Ahead, events, picks, meter)?
        else {
            return Ok(());
        };
        self.found = Found::Order(order, picks.len());
        Ok(())
    }

    /// Searches all events for a legal order, and where none is found for a failure, unless too few came since they were searched.
    fn search(
        &mut self,
        events: &[Event],
        picks: &[usize],
        budget: u32,
        meter: &mut Meter,
        scratch: &mut Scratch<Any>,
    ) -> Result<(), OutOfMemory>
        requires right { IsRight self.old (events_at events.now picks.now) }
        requires retried { IsFor budget self.old }
        requires inside { All (λ at. at < length events.now) picks.now }
        requires well_formed { (functions : ItemOf → NameOf → Bool) × IsWellFormed functions (events_at events.now picks.now) }
        ensures kept { IsKept budget (events_at events.now picks.now) self.old self.new }
        ensures spent { OnOk result (IsSpent (mark_in self.old) (mark_in self.new) (length picks.now) meter.old.steps meter.new.steps) }
        ensures most { IsSpentAtMost (mark_in self.old) (mark_in self.new) (length picks.now) meter.old.steps meter.new.steps }
        ensures scans { meter.new.scans ≡ meter.old.scans }
    {
        if picks.len() / 2 < self.searched {
            return Ok(());
        }
        self.look(events, picks, budget, meter, scratch)?;
        self.searched = picks.len();
        Ok(())
    }

    /// Searches all events as the kind has it for a legal order, then for a failure, and then depth first for a legal order. Where an order stopped there
    /// mostly is none, and the failure comes first.
    fn look(
        &mut self,
        events: &[Event],
        picks: &[usize],
        budget: u32,
        meter: &mut Meter,
        scratch: &mut Scratch<Any>,
    ) -> Result<(), OutOfMemory>
        requires right { IsRight self.old (events_at events.now picks.now) }
        requires inside { All (λ at. at < length events.now) picks.now }
        requires well_formed { (functions : ItemOf → NameOf → Bool) × IsWellFormed functions (events_at events.now picks.now) }
        ensures right { IsRight self.new (events_at events.now picks.now) }
        ensures others { self.new ≡ record self.old { beside = self.new.beside; found = self.new.found } }
        ensures mark { mark_beside self.old.beside ≤ mark_beside self.new.beside }
        ensures steps { meter.new.steps ≤ meter.old.steps + 9 * length picks.now }
        ensures scans { meter.new.scans ≡ meter.old.scans }
    {
        if self.stopped {
            return self.look_behind_a_stop(events, picks, budget, meter, scratch);
        }
        if self.look_for_order(Guide::OfKind, events, picks, budget, meter, scratch)? {
            return Ok(());
        }
        if self.look_for_failure(events, picks, meter)? {
            return Ok(());
        }
        self.look_for_order(Guide::DepthFirst, events, picks, budget, meter, scratch)?;
        Ok(())
    }

    /// The same, the failure first.
    fn look_behind_a_stop(
        &mut self,
        events: &[Event],
        picks: &[usize],
        budget: u32,
        meter: &mut Meter,
        scratch: &mut Scratch<Any>,
    ) -> Result<(), OutOfMemory>
        requires right { IsRight self.old (events_at events.now picks.now) }
        requires inside { All (λ at. at < length events.now) picks.now }
        requires well_formed { (functions : ItemOf → NameOf → Bool) × IsWellFormed functions (events_at events.now picks.now) }
        ensures right { IsRight self.new (events_at events.now picks.now) }
        ensures others { self.new ≡ record self.old { beside = self.new.beside; found = self.new.found } }
        ensures mark { mark_beside self.old.beside ≤ mark_beside self.new.beside }
        ensures steps { meter.new.steps ≤ meter.old.steps + 9 * length picks.now }
        ensures scans { meter.new.scans ≡ meter.old.scans }
    {
        if self.look_for_failure(events, picks, meter)? {
            return Ok(());
        }
        if self.look_for_order(Guide::OfKind, events, picks, budget, meter, scratch)? {
            return Ok(());
        }
        self.look_for_order(Guide::DepthFirst, events, picks, budget, meter, scratch)?;
        Ok(())
    }

    /// Searches all events for a legal order, and keeps what it finds. Whether it finds one.
    fn look_for_order(
        &mut self,
        guide: Guide,
        events: &[Event],
        picks: &[usize],
        budget: u32,
        meter: &mut Meter,
        scratch: &mut Scratch<Any>,
    ) -> Result<bool, OutOfMemory>
        requires right { IsRight self.old (events_at events.now picks.now) }
        requires inside { All (λ at. at < length events.now) picks.now }
        requires well_formed { (functions : ItemOf → NameOf → Bool) × IsWellFormed functions (events_at events.now picks.now) }
        ensures right { IsRight self.new (events_at events.now picks.now) }
        ensures others { self.new ≡ record self.old { beside = self.new.beside; found = self.new.found } }
        ensures mark { mark_beside self.old.beside ≤ mark_beside self.new.beside }
        ensures steps { meter.new.steps ≤ meter.old.steps + 3 * length picks.now }
        ensures none { result ≡ Ok false → meter.new.steps ≤ meter.old.steps + 2 * length picks.now }
        ensures scans { meter.new.scans ≡ meter.old.scans }
    {
        let alloc = self.frontier.engine().alloc();
        let Some(order) = finds_order(alloc, self.kind(), guide, events, picks, meter)? else {
            return Ok(false);
        };
        self.keep_order(order, events, picks, budget, meter, scratch)?;
        Ok(true)
    }

    /// Searches all events for a failure, and keeps what it finds. Whether it finds one.
    fn look_for_failure(
        &mut self,
        events: &[Event],
        picks: &[usize],
        meter: &mut Meter,
    ) -> Result<bool, OutOfMemory>
        requires right { IsRight self.old (events_at events.now picks.now) }
        requires inside { All (λ at. at < length events.now) picks.now }
        requires well_formed { (functions : ItemOf → NameOf → Bool) × IsWellFormed functions (events_at events.now picks.now) }
        ensures right { IsRight self.new (events_at events.now picks.now) }
        ensures others { self.new ≡ record self.old { found = self.new.found } }
        ensures steps { meter.new.steps ≤ meter.old.steps + 4 * length picks.now }
        ensures scans { meter.new.scans ≡ meter.old.scans }
    {
        let alloc = self.frontier.engine().alloc();
        match finds_failure(alloc, self.kind(), events, picks, meter)? {
            Some(at) => {
                self.found = Found::Failure(at);
                Ok(true)
            }
            None => Ok(false),
        }
    }

    /// A legal order of all events goes through them once more, and makes checkpoints, to go on from. Where it holds too much, it stays as it is.
    fn keep_order(
        &mut self,
        order: Vec<Placed>,
        events: &[Event],
        picks: &[usize],
        budget: u32,
        meter: &mut Meter,
        scratch: &mut Scratch<Any>,
    ) -> Result<(), OutOfMemory>
        requires right { IsRight self.old (events_at events.now picks.now) }
        requires inside { All (λ at. at < length events.now) picks.now }
        requires well_formed { (functions : ItemOf → NameOf → Bool) × IsWellFormed functions (events_at events.now picks.now) }
        requires legal { IsLegalOrderAs (kind_in self.old) (events_at events.now picks.now) order.items }
        requires searched { HasExact (kind_in self.old) → ⊥ }
        ensures right { IsRight self.new (events_at events.now picks.now) }
        ensures others { self.new ≡ record self.old { beside = self.new.beside; found = self.new.found } }
        ensures mark { mark_beside self.old.beside ≤ mark_beside self.new.beside }
        ensures steps { meter.new.steps ≤ meter.old.steps + length picks.now }
        ensures scans { meter.new.scans ≡ meter.old.scans }
    {
        let alloc = self.frontier.engine().alloc();
        let mut lane = Lane::new(Witness::new(alloc, self.kind(), copied(alloc, &order)?));
        suggest(&mut lane, events, picks, false, meter)?;
        lane.go_on(events, picks, budget, meter, scratch)?;
        if lane.is_gone() {
            self.found = Found::Order(order, picks.len());
        } else {
            self.beside = Beside::Going(lane);
        }
        Ok(())
    }
}
