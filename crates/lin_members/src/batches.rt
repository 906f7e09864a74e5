//! Batches of offers, which lists share.
ghost use Rattle.std.specs.Prelude.{◌≡◌, ◌∷◌, ◌++◌, [], ℕ, All, Contains, IsTrue, drop, true, IfOk, IfSome, IfNone, OnOk};
ghost use Rattle.lin_members.specs.Searching.{is_watching as is_watching_in, watched as watched_of};
ghost use Rattle.lin_members.specs.Batches.{all_of};

use crate::watching::is_watching;
use lin_events::{OutOfMemory, Reply, Val};
use lin_frontier::{Pending, is_pair};
use lin_objects::SeqObject;
use std::alloc::Global;
use std::marker::Model;
use std::rc::Rc;

/// Offers that aren't the newest any more, in the order in which they were made, with the processes to which they are made.
#[derive(Drop)]
pub struct Batch {
    items: Vec<(usize, (u64, Reply))>,
    processes: Vec<u64>,
    bits: u64,
}

impl Model for Batch {
    ghost use Rattle.std.specs.Prelude.{ℕ, List, All, Contains};
    ghost use Rattle.lin_events.specs.declared.calls.Reply.{Reply as ReplyOf};

    ghost Value = { List (ℕ × (ℕ × ReplyOf)) };

    ghost view = { λ s. s.items.items };

    ghost invariant = { λ s. All (λ x. Contains s.processes.items x.1.0) s.items.items };
}

/// A bit for a reply on offer to the process.
pub(crate) fn offer_bit(process: u64, reply: &Reply) -> u64 {
    let value = match reply {
        Reply::Value(Val::Item(item)) => item.code() % 64,
        Reply::Value(Val::Nil) | Reply::Done | Reply::Members(_) => 63,
    };
    1 << ((process % 64 + 7 * value) % 64)
}

/// Puts the process among the others, unless it is there.
fn note(processes: &mut Vec<u64>, process: u64) -> Result<(), OutOfMemory>
    ensures kept { (x : ℕ) → Contains processes.old.items x → Contains processes.new.items x }
    ensures there { OnOk result (Contains processes.new.items process) }
{
    if processes.contains(&process) {
        return Ok(());
    }
    match processes.push(process) {
        Ok(()) => Ok(()),
        Err(_) => Err(OutOfMemory),
    }
}

/// Whether each of the processes watches.
fn are_watching<O: SeqObject>(object: &O, pending: &Pending, processes: &[u64]) -> bool
    ensures { IsTrue result → All (λ x. is_watching_in (O.observing object.now) pending.now x ≡ true) processes.now }
{
    for process in processes {
        if !is_watching(object, pending, *process) {
            return false;
        }
    }
    true
}

/// The first round in which the process was offered the reply.
pub(crate) fn round_in(
    offers: &[(usize, (u64, Reply))],
    process: u64,
    reply: &Reply,
) -> Option<usize>
    ensures some { IfSome result (λ round. Contains offers.now (round, (process, reply.now))) }
    ensures none { IfNone result ((round : ℕ) → Contains offers.now (round, (process, reply.now)) → ⊥) }
{
    for offer in offers {
        if is_pair(&offer.1, process, reply) {
            return Some(offer.0);
        }
    }
    None
}

impl Batch {
    /// Nothing on offer.
    pub(crate) fn new(alloc: Global) -> Self
        ensures { result ≡ [] }
    {
        Batch {
            items: Vec::new(alloc),
            processes: Vec::new(alloc),
            bits: 0,
        }
    }

    pub(crate) fn as_slice(&self) -> &[(usize, (u64, Reply))]
        ensures { result.now ≡ self.now }
    {
        self.items.as_slice()
    }

    pub(crate) fn into_items(self) -> Vec<(usize, (u64, Reply))>
        ensures { result.items ≡ self }
    {
        self.items
    }

    /// Bits that tell of most offers that they aren't there; nothing is promised of them.
    pub(crate) fn bits(&self) -> u64 {
        self.bits
    }

    /// Puts the offer last.
    fn push(&mut self, round: usize, process: u64, reply: Reply) -> Result<(), OutOfMemory>
        ensures { OnOk result (self.new ≡ self.old ++ (round, (process, reply)) ∷ []) }
    {
        note(&mut self.processes, process)?;
        self.bits |= offer_bit(process, &reply);
        match self.items.push((round, (process, reply))) {
            Ok(()) => Ok(()),
            Err(_) => Err(OutOfMemory),
        }
    }

    /// Puts copies of the offers last.
    fn append(&mut self, alloc: Global, offers: &[(usize, (u64, Reply))]) -> Result<(), OutOfMemory>
        ensures { OnOk result (self.new ≡ self.old ++ offers.now) }
    {
        for offer in offers {
            self.push(offer.0, offer.1.0, offer.1.1.copy(alloc)?)?;
        }
        Ok(())
    }

    /// Puts copies of those offers last that may still be taken: those to processes that watch.
    fn append_watched<O: SeqObject>(
        &mut self,
        object: &O,
        alloc: Global,
        pending: &Pending,
        offers: &[(usize, (u64, Reply))],
    ) -> Result<(), OutOfMemory>
        ensures { OnOk result (self.new ≡ self.old ++ watched_of (O.observing object.now) pending.now offers.now) }
    {
        for offer in offers {
            if is_watching(object, pending, offer.1.0) {
                self.push(offer.0, offer.1.0, offer.1.1.copy(alloc)?)?;
            }
        }
        Ok(())
    }

    /// Whether all offers may still be taken, told by the processes to which they are made.
    fn is_watched<O: SeqObject>(&self, object: &O, pending: &Pending) -> bool
        ensures { IsTrue result → watched_of (O.observing object.now) pending.now self.now ≡ self.now }
    {
        are_watching(object, pending, self.processes.as_slice())
    }
}

/// Whether all offers of the batches may still be taken.
pub(crate) fn are_all_watched<O: SeqObject>(
    object: &O,
    pending: &Pending,
    batches: &[Rc<Batch>],
) -> bool
    ensures { IsTrue result → watched_of (O.observing object.now) pending.now (all_of batches.now) ≡ all_of batches.now }
{
    for batch in batches {
        if !batch.as_ref().is_watched(object, pending) {
            return false;
        }
    }
    true
}

/// What may still be taken of the batch: the same batch where that is all of it.
fn watched_part<O: SeqObject>(
    object: &O,
    alloc: Global,
    pending: &Pending,
    batch: &Rc<Batch>,
) -> Result<Rc<Batch>, OutOfMemory>
    ensures { IfOk result (λ kept. kept.value ≡ watched_of (O.observing object.now) pending.now batch.now.value) }
{
    let own = batch.as_ref();
    if own.is_watched(object, pending) {
        let same = batch.clone()?;
        return Ok(same);
    }
    let mut kept = Batch::new(alloc);
    kept.append_watched(object, alloc, pending, own.as_slice())?;
    let kept = Rc::new(alloc, kept)?;
    Ok(kept)
}

/// Puts the batch last, unless it is empty.
fn push_batch(batches: &mut Vec<Rc<Batch>>, batch: Rc<Batch>) -> Result<(), OutOfMemory>
    ensures { OnOk result (all_of batches.new.items ≡ all_of batches.old.items ++ batch.value) }
{
    if batch.as_ref().as_slice().is_empty() {
        return Ok(());
    }
    batches.push(batch)?;
    Ok(())
}

/// Puts last what may still be taken of the others, and shares those of which that is all.
pub(crate) fn share_watched<O: SeqObject>(
    object: &O,
    alloc: Global,
    pending: &Pending,
    others: &[Rc<Batch>],
    batches: &mut Vec<Rc<Batch>>,
) -> Result<(), OutOfMemory>
    ensures { OnOk result (all_of batches.new.items ≡ all_of batches.old.items ++ watched_of (O.observing object.now) pending.now (all_of others.now)) }
{
    for other in others {
        let kept = watched_part(object, alloc, pending, other)?;
        push_batch(batches, kept)?;
    }
    Ok(())
}

/// Bits of all offers of the batches.
pub(crate) fn bits_of(batches: &[Rc<Batch>]) -> u64 {
    let mut bits = 0;
    for batch in batches {
        bits |= batch.as_ref().bits();
    }
    bits
}

/// The first round of the batches in which the process was offered the reply.
pub(crate) fn round_among(batches: &[Rc<Batch>], process: u64, reply: &Reply) -> Option<usize>
    ensures some { IfSome result (λ round. Contains (all_of batches.now) (round, (process, reply.now))) }
    ensures none { IfNone result ((round : ℕ) → Contains (all_of batches.now) (round, (process, reply.now)) → ⊥) }
{
    for batch in batches {
        if let Some(round) = round_in(batch.as_ref().as_slice(), process, reply) {
            return Some(round);
        }
    }
    None
}

/// A batch of copies of all these, and of the offers behind them.
pub(crate) fn one_of(
    alloc: Global,
    batches: &[Rc<Batch>],
    offers: &[(usize, (u64, Reply))],
) -> Result<Batch, OutOfMemory>
    ensures { IfOk result (λ one. one ≡ all_of batches.now ++ offers.now) }
{
    let mut one = Batch::new(alloc);
    for batch in batches {
        one.append(alloc, batch.as_ref().as_slice())?;
    }
    one.append(alloc, offers)?;
    Ok(one)
}

/// From which batch on they are put together with so many offers more: the last ones that have no more than what is behind them. So
/// batches are few, and an offer is copied few times.
fn first_small(batches: &[Rc<Batch>], count: usize) -> usize {
    let mut many = count;
    let mut at = batches.len();
    while at > 0 {
        let size = batches[at - 1].as_ref().as_slice().len();
        if size > many {
            break;
        }
        many = many.saturating_add(size);
        at -= 1;
    }
    at
}

/// What stands from the place on.
fn suffix_from(batches: &[Rc<Batch>], from: usize) -> &[Rc<Batch>]
    ensures { result.now ≡ drop from batches.now }
{
    batches.get(from..).unwrap_or(&[])
}

/// Puts copies of the offers behind all batches.
pub(crate) fn put_aside(
    alloc: Global,
    batches: &mut Vec<Rc<Batch>>,
    offers: &[(usize, (u64, Reply))],
) -> Result<(), OutOfMemory>
    ensures { OnOk result (all_of batches.new.items ≡ all_of batches.old.items ++ offers.now) }
{
    let from = first_small(batches.as_slice(), offers.len());
    let one = one_of(alloc, suffix_from(batches.as_slice(), from), offers)?;
    let batch = Rc::new(alloc, one)?;
    batches.truncate(from);
    push_batch(batches, batch)?;
    Ok(())
}
