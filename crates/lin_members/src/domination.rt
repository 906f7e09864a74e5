//! When one member leads to all that another leads to.
ghost use Rattle.std.specs.Prelude.{◌≡◌, ◌⊎◌, ℕ, true, All, Contains, IsPermutation, IsTrue, map, take, drop, vec_len, ◌↔◌, ◌<◌, ◌+◌, ◌++◌};
ghost use Rattle.lin_events.specs.declared.calls.Reply.{Reply as ReplyOf};
ghost use Rattle.lin_members.specs.Batches.{all_of};
ghost use Rattle.lin_members.specs.Members.{Member as MemberOf, IsOnOffer};
ghost use Rattle.lin_members.specs.declared.members.Path.{Path as PathOf};
ghost use Rattle.lin_frontier.specs.Placing.{IsAbsent};
ghost use Rattle.lin_members.specs.Searching.{is_watching as is_watching_in, CoversIn, DominatesIn, IsAboveIn, IsPruned};
ghost use Rattle.lin_frontier.specs.Masks.{is_crashed as is_crashed_in};

use crate::batches::Batch;
use crate::members::Member;
use crate::offers::Offers;
use crate::watching::is_watching;
use lin_events::Reply;
use lin_frontier::{Config, Pending, is_absent, is_placed};
use lin_objects::SeqObject;
use std::hash::Hash;
use std::rc::Rc;

/// Whether each of the pairs is among the others.
fn is_part(pairs: &[(u64, Reply)], others: &[(u64, Reply)]) -> bool
    ensures { IsTrue result ↔ All (λ x. Contains others.now x) pairs.now }
{
    for pair in pairs {
        if !is_placed(others, pair.0, &pair.1) {
            return false;
        }
    }
    true
}

/// Whether the pairs are the same.
fn are_same(pairs: &[(u64, Reply)], others: &[(u64, Reply)]) -> bool
    ensures { IsTrue result → pairs.now ≡ others.now }
{
    pairs == others
}

/// Whether the pair is among the others or of a crashed operation.
fn is_placed_or_crashed(pending: &Pending, others: &[(u64, Reply)], pair: &(u64, Reply)) -> bool
    ensures { IsTrue result ↔ (Contains others.now pair.now ⊎ (is_crashed_in pending.now pair.now.0 ≡ true)) }
{
    is_placed(others, pair.0, &pair.1) || pending.is_crashed(pair.0)
}

/// Whether each of the pairs is among the others or of a crashed operation.
fn is_part_but_crashed(pending: &Pending, pairs: &[(u64, Reply)], others: &[(u64, Reply)]) -> bool
    ensures { IsTrue result ↔ All (λ x. Contains others.now x ⊎ (is_crashed_in pending.now x.0 ≡ true)) pairs.now }
{
    for pair in pairs {
        if !is_placed_or_crashed(pending, others, pair) {
            return false;
        }
    }
    true
}

/// Whether the member has the offer, or nobody waits for it.
fn has_offer<O: SeqObject>(
    object: &O,
    pending: &Pending,
    member: &Member<O::State>,
    offer: &(usize, (u64, Reply)),
) -> bool
    ensures { IsTrue result ↔ (is_watching_in (O.observing object.now) pending.now offer.now.1.0 ≡ true → IsAbsent offer.now.1.0 member.now.0.placed → IsOnOffer member.now.0 offer.now.1) }
{
    let process = offer.1.0;
    if let Some(_) = member.offers().round_of(process, &offer.1.1) {
        return true;
    }
    if !is_watching(object, pending, process) {
        return true;
    }
    !is_absent(member.placed(), process)
}

/// Whether the member has the offer, or nobody waits for it. It is looked for first at the place in the batch with the number.
fn has_offer_at<O: SeqObject>(
    object: &O,
    pending: &Pending,
    member: &Member<O::State>,
    number: usize,
    at: usize,
    offer: &(usize, (u64, Reply)),
) -> bool
    ensures { IsTrue result ↔ (is_watching_in (O.observing object.now) pending.now offer.now.1.0 ≡ true → IsAbsent offer.now.1.0 member.now.0.placed → IsOnOffer member.now.0 offer.now.1) }
{
    member.offers().stands_at(number, at, &offer.1) || has_offer(object, pending, member, offer)
}

/// Whether the member has each of these offers of a batch, apart from those that nobody waits for. Mostly it has them in the same
/// places of the batch with that number.
fn has_all<O: SeqObject>(
    object: &O,
    pending: &Pending,
    member: &Member<O::State>,
    number: usize,
    offers: &[(usize, (u64, Reply))],
) -> bool
    ensures { IsTrue result ↔ All (λ x. is_watching_in (O.observing object.now) pending.now x.1.0 ≡ true → IsAbsent x.1.0 member.now.0.placed → IsOnOffer member.now.0 x.1) offers.now }
{
    let mut at: usize = 0;
    for offer in offers {
        if !has_offer_at(object, pending, member, number, at, offer) {
            return false;
        }
        at = at.wrapping_add(1);
    }
    true
}

/// The same for each of the offers of the batches.
fn has_batches<O: SeqObject>(
    object: &O,
    pending: &Pending,
    member: &Member<O::State>,
    batches: &[Rc<Batch>],
) -> bool
    ensures { IsTrue result ↔ All (λ x. is_watching_in (O.observing object.now) pending.now x.1.0 ≡ true → IsAbsent x.1.0 member.now.0.placed → IsOnOffer member.now.0 x.1) (all_of batches.now) }
{
    let mut number: usize = 0;
    for batch in batches {
        if !has_all(object, pending, member, number, batch.as_ref().as_slice()) {
            return false;
        }
        number = number.wrapping_add(1);
    }
    true
}

/// Whether the member has each of the offers, apart from those that nobody waits for.
fn has_offers<O: SeqObject>(
    object: &O,
    pending: &Pending,
    member: &Member<O::State>,
    offers: &Offers,
) -> bool
    ensures { IsTrue result ↔ All (λ x. is_watching_in (O.observing object.now) pending.now x.1.0 ≡ true → IsAbsent x.1.0 member.now.0.placed → IsOnOffer member.now.0 x.1) offers.now }
{
    let (older, newest) = offers.parts();
    has_all(object, pending, member, older.len(), newest)
        && has_batches(object, pending, member, older)
}

/// Whether the states are the same.
fn is_same_state<O: SeqObject>(state: &O::State, other: &O::State) -> bool
    ensures { IsTrue result ↔ (state.now ≡ other.now) }
{
    *state == *other
}

/// Whether the configuration has the same state as the other one, and no more placed but for crashed operations.
pub fn covers<O: SeqObject>(
    pending: &Pending,
    config: &Config<O::State>,
    other: &Config<O::State>,
) -> bool
    ensures { IsTrue result ↔ CoversIn pending.now config.now other.now }
{
    if !pending.may_cover(config.pairs(), other.pairs()) {
        return false;
    }
    if !is_same_state::<O>(config.state(), other.state()) {
        return false;
    }
    if !is_part(config.placed(), other.placed()) {
        return false;
    }
    is_part_but_crashed(pending, other.placed(), config.placed())
}

/// Whether the configuration covers the other one, told at once where the same operations are placed in both.
fn covers_alike<O: SeqObject>(
    pending: &Pending,
    config: &Config<O::State>,
    other: &Config<O::State>,
) -> bool
    ensures { IsTrue result ↔ CoversIn pending.now config.now other.now }
{
    if !is_same_state::<O>(config.state(), other.state()) {
        return false;
    }
    if are_same(config.placed(), other.placed()) {
        return true;
    }
    covers::<O>(pending, config, other)
}

/// Whether the member surely lacks one of these offers: one that its bits tell of.
fn lacks_one_of<O: SeqObject>(
    object: &O,
    pending: &Pending,
    member: &Member<O::State>,
    offers: &[(usize, (u64, Reply))],
) -> bool
    ensures { IsTrue result → All (λ x. is_watching_in (O.observing object.now) pending.now x.1.0 ≡ true → IsAbsent x.1.0 member.now.0.placed → IsOnOffer member.now.0 x.1) offers.now → ⊥ }
{
    for offer in offers {
        if !member.offers().may_offer(offer.1.0, &offer.1.1)
            && !has_offer(object, pending, member, offer)
        {
            return true;
        }
    }
    false
}

/// Whether it surely lacks one of those in the batches.
fn lacks_one_among<O: SeqObject>(
    object: &O,
    pending: &Pending,
    member: &Member<O::State>,
    batches: &[Rc<Batch>],
) -> bool
    ensures { IsTrue result → All (λ x. is_watching_in (O.observing object.now) pending.now x.1.0 ≡ true → IsAbsent x.1.0 member.now.0.placed → IsOnOffer member.now.0 x.1) (all_of batches.now) → ⊥ }
{
    for batch in batches {
        if lacks_one_of(object, pending, member, batch.as_ref().as_slice()) {
            return true;
        }
    }
    false
}

/// Whether the member surely lacks one of the offers.
fn lacks_one<O: SeqObject>(
    object: &O,
    pending: &Pending,
    member: &Member<O::State>,
    offers: &Offers,
) -> bool
    ensures { IsTrue result → All (λ x. is_watching_in (O.observing object.now) pending.now x.1.0 ≡ true → IsAbsent x.1.0 member.now.0.placed → IsOnOffer member.now.0 x.1) offers.now → ⊥ }
{
    let (older, newest) = offers.parts();
    lacks_one_of(object, pending, member, newest) || lacks_one_among(object, pending, member, older)
}

/// Whether the member covers the configuration, and has all of the offers that matter. What it lacks is mostly an offer.
#[inline(never)]
fn covers_with_offers<O: SeqObject>(
    object: &O,
    pending: &Pending,
    member: &Member<O::State>,
    config: &Config<O::State>,
    offers: &Offers,
) -> bool
    ensures { IsTrue result ↔ DominatesIn (O.observing object.now) pending.now member.now.0 config.now.0 config.now.1 offers.now }
{
    if !member.offers().may_hold(offers) && lacks_one(object, pending, member, offers) {
        return false;
    }
    if !covers_alike::<O>(pending, member.config(), config) {
        return false;
    }
    has_offers(object, pending, member, offers)
}

/// Whether the member has the same state as the configuration, no more placed but for crashed operations, and all of the
/// offers that matter. Most members that don't are told by their bits, before anything is called.
#[inline(always)]
pub fn dominates<O: SeqObject>(
    object: &O,
    pending: &Pending,
    member: &Member<O::State>,
    config: &Config<O::State>,
    offers: &Offers,
) -> bool
    ensures { IsTrue result ↔ DominatesIn (O.observing object.now) pending.now member.now.0 config.now.0 config.now.1 offers.now }
{
    pending.may_cover(member.config().pairs(), config.pairs())
        && covers_with_offers(object, pending, member, config, offers)
}

/// Whether the member dominates the other, and allows overwritten updates that were called as late.
#[inline(always)]
fn is_above<O: SeqObject>(
    object: &O,
    pending: &Pending,
    member: &Member<O::State>,
    other: &Member<O::State>,
) -> bool
    ensures { IsTrue result ↔ IsAboveIn (O.observing object.now) pending.now member.now other.now }
{
    other.path().until <= member.path().until
        && dominates(object, pending, member, other.config(), other.offers())
}

/// Whether one of the members is above the other.
fn is_one_above<O: SeqObject>(
    object: &O,
    pending: &Pending,
    members: &[Member<O::State>],
    other: &Member<O::State>,
) -> bool
    ensures { IsTrue result ↔ ((m : MemberOf O.State × PathOf) × Contains members.now m × IsAboveIn (O.observing object.now) pending.now m other.now) }
{
    for member in members {
        if is_above(object, pending, member, other) {
            return true;
        }
    }
    false
}

/// Whether one of the others is above the member.
fn is_below<O: SeqObject>(
    object: &O,
    pending: &Pending,
    rest: &[Member<O::State>],
    kept: &[Member<O::State>],
    member: &Member<O::State>,
) -> bool
    ensures { IsTrue result ↔ ((m : MemberOf O.State × PathOf) × (Contains rest.now m ⊎ Contains kept.now m) × IsAboveIn (O.observing object.now) pending.now m member.now) }
{
    if is_one_above(object, pending, rest, member) {
        return true;
    }
    is_one_above(object, pending, kept, member)
}

/// Takes the member at the place out.
fn take_out<S: Eq + Hash + Drop>(members: &mut Vec<Member<S>>, at: usize)
    requires { at < vec_len members.old }
    ensures { members.new.items ≡ take at members.old.items ++ drop (at + 1) members.old.items }
{
    members.remove(at);
}

/// Up to so many members are compared in the order in which they stand.
const FEW: usize = 8;

/// Puts those that placed fewest operations first, since these dominate the most.
fn put_fewest_first<S: Eq + Hash + Drop>(members: &mut Vec<Member<S>>)
    ensures { IsPermutation members.old.items members.new.items }
{
    if members.len() > FEW {
        members.sort_unstable_by_key(|member| member.placed().len());
    }
}

/// The members of which no other one is above any, with each compared first to those that stand first.
fn pruned_in_order<O: SeqObject>(
    object: &O,
    pending: &Pending,
    members: Vec<Member<O::State>>,
) -> Vec<Member<O::State>>
    ensures { IsPruned (O.observing object.now) pending.now members.items result.items }
{
    let mut kept = members;
    let mut at = kept.len();
    while at > 0 {
        at -= 1;
        let members = kept.as_slice();
        if is_below(
            object,
            pending,
            &members[..at],
            &members[at + 1..],
            &members[at],
        ) {
            take_out(&mut kept, at);
        }
    }
    kept
}

/// The members of which no other one is above any.
pub fn prune<O: SeqObject>(
    object: &O,
    pending: &Pending,
    members: Vec<Member<O::State>>,
) -> Vec<Member<O::State>>
    ensures { IsPruned (O.observing object.now) pending.now members.items result.items }
{
    let mut sorted = members;
    put_fewest_first(&mut sorted);
    pruned_in_order(object, pending, sorted)
}
