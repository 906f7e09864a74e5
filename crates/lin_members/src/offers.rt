//! What is on offer: the replies that observers may still be given, each with a round whose state gave it.
ghost use Rattle.std.specs.Prelude.{◌≡◌, ◌&&◌, ◌↔◌, nat_eq, not, IsTrue, IsFalse, true, [], ◌∷◌, ◌++◌, ℕ, IfOk, IfSome, IfNone, OnOk, Contains, Some, length};
ghost use Rattle.lin_events.specs.declared.calls.Reply.{Reply as ReplyOf};
ghost use Rattle.lin_members.specs.Batches.{all_of};
ghost use Rattle.lin_members.specs.Searching.{is_watching as is_watching_in, watched as watched_of, GivesOne, GivesAny, IsOffering};
ghost use Rattle.lin_members.specs.inner.Searching.{AreSteps, Knows, Told};
ghost use Rattle.lin_frontier.specs.Placing.{IsAbsent};
ghost use Rattle.lin_frontier.specs.Walks.{IsTriedAtMost};

use crate::batches::{
    Batch, are_all_watched, bits_of, offer_bit, one_of, put_aside, round_among, round_in,
    share_watched,
};
use crate::watching::is_watching;
use lin_events::{Call, Meter, OutOfMemory, Reply};
use lin_frontier::{Config, Open, Pending, Spare, is_absent, is_pair};
use lin_objects::SeqObject;
use std::alloc::Global;
use std::marker::Model;
use std::rc::Rc;

/// So many offers are put aside as a batch. A list with fewer is copied at once for the next one.
const MANY: usize = 32;

/// Where no batch has more offers than that, each reply is looked for in all of them before it is offered.
const FEW: usize = 256;

/// Offers that are being made, in the order in which they were: each is a round, and a process with the reply that the round's
/// state gave to its pending call. The older ones are in batches, which are shared with the lists that this one goes on from.
#[derive(Drop)]
pub struct OfferList {
    older: Vec<Rc<Batch>>,
    items: Vec<(usize, (u64, Reply))>,
    bits: u64,
}

impl Model for OfferList {
    ghost use Rattle.std.specs.Prelude.{ℕ, List, ◌++◌};
    ghost use Rattle.lin_events.specs.declared.calls.Reply.{Reply as ReplyOf};

    ghost Value = { List (ℕ × (ℕ × ReplyOf)) };

    ghost use Rattle.lin_members.specs.Batches.{all_of};

    ghost view = { λ o. all_of o.older.items ++ o.items.items };
}

/// Offers that are made. Members that have the same ones share them.
#[derive(Drop)]
pub struct Offers {
    /// None where nothing is on offer.
    list: Option<Rc<OfferList>>,
    /// A bit of each. It tells of most offers that they aren't there; nothing is promised of it.
    bits: u64,
}

impl Model for Offers {
    ghost use Rattle.std.specs.Prelude.{ℕ, List};
    ghost use Rattle.lin_events.specs.declared.calls.Reply.{Reply as ReplyOf};
    ghost use Rattle.lin_frontier.specs.Sharing.{shared};

    ghost Value = { List (ℕ × (ℕ × ReplyOf)) };

    ghost view = { λ o. shared o.list };
}

/// The configuration of a round, as it is shown to the processes that watch: those of these operations that observe.
#[derive(Drop)]
pub struct Shown<'a, O: SeqObject> {
    pub object: &'a O,
    pub alloc: Global,
    pub config: &'a Config<O::State>,
    pub pending: &'a Pending<'a>,
    pub round: usize,
}

/// Whether all offers may still be taken: whether they are to processes that watch.
fn are_watched<O: SeqObject>(
    object: &O,
    pending: &Pending,
    offers: &[(usize, (u64, Reply))],
) -> bool
    ensures { IsTrue result → watched_of (O.observing object.now) pending.now offers.now ≡ offers.now }
{
    for offer in offers {
        if !is_watching(object, pending, offer.1.0) {
            return false;
        }
    }
    true
}

/// Whether it is at the place that the reply is on offer to the process.
fn is_at(offers: &[(usize, (u64, Reply))], at: usize, pair: &(u64, Reply)) -> bool
    ensures { IsTrue result → (round : ℕ) × Contains offers.now (round, pair.now) }
{
    match offers.get(at) {
        Some(offer) => is_pair(&offer.1, pair.0, &pair.1),
        None => false,
    }
}

/// Whether the batches have few offers: the first one has the most.
fn are_few(batches: &[Rc<Batch>]) -> bool {
    match batches.first() {
        Some(batch) => batch.as_ref().as_slice().len() <= FEW,
        None => false,
    }
}

/// Whether that is the call which is known.
fn is_known(known: Option<Call>, call: &Call) -> bool
    ensures { IsTrue result → known ≡ Some call.now }
{
    match known {
        Some(other) => other == *call,
        None => false,
    }
}

/// Puts the steps by the call in `steps`, unless they are there: those of the call that is known. Most observers have the
/// same call, so one try tells what a state gives to all of them.
fn know<O: SeqObject>(
    object: &O,
    alloc: Global,
    state: &O::State,
    call: &Call,
    known: &mut Option<Call>,
    steps: &mut Vec<(O::State, Reply)>,
    meter: &mut Meter,
) -> Result<(), OutOfMemory>
    requires { Knows (O.step object.now) state.now known.old steps.old.items }
    ensures steps { OnOk result (AreSteps (O.step object.now) state.now call.now steps.new.items) }
    ensures knows { OnOk result (Knows (O.step object.now) state.now known.new steps.new.items) }
    ensures tried { IsTriedAtMost 1 meter.old meter.new }
{
    if is_known(*known, call) {
        return Ok(());
    }
    meter.tick_try();
    object.outcomes(alloc, state, call, steps)?;
    *known = Some(*call);
    Ok(())
}

/// Whether the operation observes, and its process watches and has no place in the configuration.
fn may_be_told<O: SeqObject>(
    object: &O,
    config: &Config<O::State>,
    pending: &Pending,
    operation: &Open,
) -> bool
    ensures { IsTrue result ↔ ((O.observing object.now operation.now.call ≡ true) × (is_watching_in (O.observing object.now) pending.now operation.now.process ≡ true) × IsAbsent operation.now.process config.now.1) }
{
    if !object.observes(&operation.call) {
        return false;
    }
    if !is_watching(object, pending, operation.process) {
        return false;
    }
    is_absent(config.placed(), operation.process)
}

impl Offers {
    /// Nothing on offer.
    pub fn none() -> Self
        ensures { result ≡ [] }
    {
        Offers {
            list: None,
            bits: 0,
        }
    }

    /// The offers of the list, made.
    #[inline(always)]
    pub fn of(list: Rc<OfferList>, spare: &mut Spare<OfferList>) -> Offers
        ensures { result ≡ list.value }
    {
        if list.as_ref().is_empty() {
            spare.put(list);
            return Offers::none();
        }
        let bits = list.as_ref().bits;
        Offers {
            list: Some(list),
            bits,
        }
    }

    /// Gives the list up, to be used again.
    #[inline(always)]
    pub fn give_up(self, spare: &mut Spare<OfferList>) {
        if let Some(list) = self.list {
            spare.put(list);
        }
    }

    /// The batches that were put aside, and the newest offers.
    #[inline(always)]
    pub(crate) fn parts(&self) -> (&[Rc<Batch>], &[(usize, (u64, Reply))])
        ensures { self.now ≡ all_of result.0.now ++ result.1.now }
    {
        match &self.list {
            Some(list) => list.as_ref().parts(),
            None => (&[], &[]),
        }
    }

    /// Copies of all of them.
    pub fn listed(&self, alloc: Global) -> Result<Vec<(usize, (u64, Reply))>, OutOfMemory>
        ensures { IfOk result (λ all. all.items ≡ self.now) }
    {
        let (older, newest) = self.parts();
        let all = one_of(alloc, older, newest)?;
        Ok(all.into_items())
    }

    /// Whether the reply may be on offer to the process, as far as the bits tell.
    pub fn may_offer(&self, process: u64, reply: &Reply) -> bool {
        self.bits | offer_bit(process, reply) == self.bits
    }

    /// Whether each of the others may be among these, as far as the bits tell.
    pub fn may_hold(&self, others: &Offers) -> bool {
        self.bits | others.bits == self.bits
    }

    /// The same offers.
    #[inline(always)]
    pub fn copy(&self) -> Result<Offers, OutOfMemory>
        ensures { IfOk result (λ copy. copy ≡ self.now) }
    {
        match &self.list {
            Some(list) => Ok(Offers {
                list: Some(list.clone()?),
                bits: self.bits,
            }),
            None => Ok(Offers::none()),
        }
    }

    /// Whether all of them may still be taken.
    #[inline(always)]
    fn are_watched<O: SeqObject>(&self, object: &O, pending: &Pending) -> bool
        ensures { IsTrue result → watched_of (O.observing object.now) pending.now self.now ≡ self.now }
    {
        let (older, newest) = self.parts();
        are_all_watched(object, pending, older) && are_watched(object, pending, newest)
    }

    /// The offers that may still be taken: those to processes that watch.
    #[inline(always)]
    pub fn watched<O: SeqObject>(
        &self,
        object: &O,
        alloc: Global,
        pending: &Pending,
        spare: &mut Spare<OfferList>,
    ) -> Result<Offers, OutOfMemory>
        ensures { IfOk result (λ kept. kept ≡ watched_of (O.observing object.now) pending.now self.now) }
    {
        if self.are_watched(object, pending) {
            return self.copy();
        }
        let mut kept = OfferList::emptied(alloc, spare)?;
        // It has one owner, so it can be written.
        let Some(list) = Rc::get_mut(&mut kept) else {
            return Err(OutOfMemory);
        };
        list.take_watched(object, alloc, pending, self)?;
        Ok(Offers::of(kept, spare))
    }

    /// What is in the batch with the number, or else the newest offers.
    fn part(&self, number: usize) -> &[(usize, (u64, Reply))]
        ensures { (x : ℕ × (ℕ × ReplyOf)) → Contains result.now x → Contains self.now x }
    {
        let (older, newest) = self.parts();
        match older.get(number) {
            Some(batch) => batch.as_ref().as_slice(),
            None => newest,
        }
    }

    /// Whether it is at the place, in the batch with the number or else among the newest, that the reply is on offer to the process.
    pub(crate) fn stands_at(&self, number: usize, at: usize, pair: &(u64, Reply)) -> bool
        ensures { IsTrue result → (round : ℕ) × Contains self.now (round, pair.now) }
    {
        is_at(self.part(number), at, pair)
    }

    /// The first round in which the process was offered the reply.
    pub fn round_of(&self, process: u64, reply: &Reply) -> Option<usize>
        ensures some { IfSome result (λ round. Contains self.now (round, (process, reply.now))) }
        ensures none { IfNone result ((round : ℕ) → Contains self.now (round, (process, reply.now)) → ⊥) }
    {
        let (older, newest) = self.parts();
        match round_among(older, process, reply) {
            Some(round) => Some(round),
            None => round_in(newest, process, reply),
        }
    }
}

impl OfferList {
    /// Nothing on offer yet.
    #[inline(always)]
    pub fn new(alloc: Global) -> Self
        ensures { result ≡ [] }
    {
        OfferList {
            older: Vec::new(alloc),
            items: Vec::new(alloc),
            bits: 0,
        }
    }

    /// Nothing on offer any more.
    #[inline(always)]
    fn clear(&mut self)
        ensures { self.new ≡ [] }
    {
        if !self.older.is_empty() {
            self.older.clear();
        }
        self.items.clear();
        self.bits = 0;
    }

    /// A list with nothing on offer yet, which has one owner: one that nobody has any more, or a new one.
    #[inline(always)]
    pub fn emptied(
        alloc: Global,
        spare: &mut Spare<OfferList>,
    ) -> Result<Rc<OfferList>, OutOfMemory>
        ensures { IfOk result (λ list. list.value ≡ []) }
    {
        if let Some(mut list) = spare.take()
            && let Some(own) = Rc::get_mut(&mut list)
        {
            own.clear();
            return Ok(list);
        }
        let list = Rc::new(alloc, OfferList::new(alloc))?;
        Ok(list)
    }

    /// The batches that were put aside, and the newest offers.
    #[inline(always)]
    fn parts(&self) -> (&[Rc<Batch>], &[(usize, (u64, Reply))])
        ensures { self.now ≡ all_of result.0.now ++ result.1.now }
    {
        (self.older.as_slice(), self.items.as_slice())
    }

    /// Whether nothing is on offer.
    fn is_empty(&self) -> bool
        ensures { IsTrue result → self.now ≡ [] }
    {
        self.older.is_empty() && self.items.is_empty()
    }

    /// Whether the reply may be on offer to the process, as far as the bits tell.
    fn may_offer(&self, process: u64, reply: &Reply) -> bool {
        self.bits | offer_bit(process, reply) == self.bits
    }

    /// Takes in those of the offers that may still be taken.
    #[inline(always)]
    pub fn take_watched<O: SeqObject>(
        &mut self,
        object: &O,
        alloc: Global,
        pending: &Pending,
        offers: &Offers,
    ) -> Result<(), OutOfMemory>
        requires { self.old ≡ [] }
        ensures { OnOk result (self.new ≡ watched_of (O.observing object.now) pending.now offers.now) }
    {
        let (older, newest) = offers.parts();
        self.share_watched(object, alloc, pending, older)?;
        self.push_watched(object, alloc, pending, newest)?;
        self.put_many_aside(alloc)?;
        Ok(())
    }

    /// Takes in what may still be taken of the batches.
    #[inline(always)]
    fn share_watched<O: SeqObject>(
        &mut self,
        object: &O,
        alloc: Global,
        pending: &Pending,
        batches: &[Rc<Batch>],
    ) -> Result<(), OutOfMemory>
        requires { self.old ≡ [] }
        ensures { OnOk result (self.new ≡ watched_of (O.observing object.now) pending.now (all_of batches.now)) }
    {
        if batches.is_empty() {
            return Ok(());
        }
        share_watched(object, alloc, pending, batches, &mut self.older)?;
        self.bits |= bits_of(self.older.as_slice());
        Ok(())
    }

    /// Puts the offers last that may still be taken.
    #[inline(always)]
    fn push_watched<O: SeqObject>(
        &mut self,
        object: &O,
        alloc: Global,
        pending: &Pending,
        offers: &[(usize, (u64, Reply))],
    ) -> Result<(), OutOfMemory>
        ensures { OnOk result (self.new ≡ self.old ++ watched_of (O.observing object.now) pending.now offers.now) }
    {
        for offer in offers {
            if is_watching(object, pending, offer.1.0) {
                self.push(offer.0, offer.1.0, offer.1.1.copy(alloc)?)?;
            }
        }
        Ok(())
    }

    /// Puts the newest offers aside as a batch, if they are many.
    #[inline(always)]
    fn put_many_aside(&mut self, alloc: Global) -> Result<(), OutOfMemory>
        ensures { OnOk result (self.new ≡ self.old) }
    {
        if self.items.len() < MANY {
            return Ok(());
        }
        self.put_aside(alloc)
    }

    /// Puts the newest offers aside as a batch.
    #[inline(never)]
    fn put_aside(&mut self, alloc: Global) -> Result<(), OutOfMemory>
        ensures { OnOk result (self.new ≡ self.old) }
    {
        put_aside(alloc, &mut self.older, self.items.as_slice())?;
        self.items.clear();
        Ok(())
    }

    #[inline(always)]
    fn push(&mut self, round: usize, process: u64, reply: Reply) -> Result<(), OutOfMemory>
        ensures { OnOk result (self.new ≡ self.old ++ (round, (process, reply)) ∷ []) }
    {
        self.bits |= offer_bit(process, &reply);
        match self.items.push((round, (process, reply))) {
            Ok(()) => Ok(()),
            Err(_) => Err(OutOfMemory),
        }
    }

    /// Whether the reply was surely offered to the process. Where many offers are put aside it is looked for among the newest alone,
    /// so it may be on offer twice, which costs memory.
    fn was_offered(&self, process: u64, reply: &Reply) -> bool
        ensures { IsTrue result → (round : ℕ) × Contains self.now (round, (process, reply.now)) }
    {
        let (older, newest) = self.parts();
        if let Some(_) = round_in(newest, process, reply) {
            return true;
        }
        if !are_few(older) {
            return false;
        }
        match round_among(older, process, reply) {
            Some(_) => true,
            None => false,
        }
    }

    /// Offers the reply in the round, unless it was offered before.
    fn offer(&mut self, round: usize, process: u64, reply: Reply) -> Result<(), OutOfMemory>
        ensures { OnOk result (IsOffering (λ x. x ≡ (process, reply)) round self.old self.new) }
    {
        if self.may_offer(process, &reply) && self.was_offered(process, &reply) {
            return Ok(());
        }
        self.push(round, process, reply)
    }

    /// Offers the replies of the steps in the round to the process.
    fn offer_steps<S>(
        &mut self,
        alloc: Global,
        process: u64,
        round: usize,
        steps: &[(S, Reply)],
    ) -> Result<(), OutOfMemory>
        ensures { OnOk result (IsOffering (Told process steps.now) round self.old self.new) }
    {
        for step in steps {
            self.offer(round, process, step.1.copy(alloc)?)?;
        }
        Ok(())
    }

    /// Offers in the round what the configuration's state gives to the operation, if it observes, and its process watches and has no place
    /// in the configuration.
    fn offer_one<O: SeqObject>(
        &mut self,
        shown: &Shown<O>,
        operation: &Open,
        known: &mut Option<Call>,
        steps: &mut Vec<(O::State, Reply)>,
        meter: &mut Meter,
    ) -> Result<(), OutOfMemory>
        requires { Knows (O.step shown.now.object.now) shown.now.config.now.0 known.old steps.old.items }
        ensures offered { OnOk result (IsOffering (GivesOne (O.step shown.now.object.now) (O.observing shown.now.object.now) shown.now.pending.now shown.now.config.now operation.now) shown.now.round self.old self.new) }
        ensures knows { OnOk result (Knows (O.step shown.now.object.now) shown.now.config.now.0 known.new steps.new.items) }
        ensures tried { IsTriedAtMost 1 meter.old meter.new }
    {
        if !may_be_told(shown.object, shown.config, shown.pending, operation) {
            return Ok(());
        }
        know(
            shown.object,
            shown.alloc,
            shown.config.state(),
            &operation.call,
            known,
            steps,
            meter,
        )?;
        self.offer_steps(shown.alloc, operation.process, shown.round, steps)
    }

    /// Offers in the round what the configuration's state gives to the operations. `steps` is only written over.
    pub fn offer_all<O: SeqObject>(
        &mut self,
        shown: &Shown<O>,
        steps: &mut Vec<(O::State, Reply)>,
        meter: &mut Meter,
    ) -> Result<(), OutOfMemory>
        ensures offered { OnOk result (IsOffering (GivesAny (O.step shown.now.object.now) (O.observing shown.now.object.now) shown.now.pending.now shown.now.config.now) shown.now.round self.old self.new) }
        ensures tried { IsTriedAtMost (length shown.now.pending.now) meter.old meter.new }
    {
        let mut known = None;
        for operation in shown.pending.as_slice() {
            if operation.crashed {
                continue;
            }
            self.offer_one(shown, operation, &mut known, steps, meter)?;
        }
        Ok(())
    }
}
