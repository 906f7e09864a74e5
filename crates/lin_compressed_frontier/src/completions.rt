//! What members lead to when an operation completes: the ways of placing open updates until it can have its reply.
ghost use Rattle.std.specs.Prelude.{◌≡◌, ◌⊎◌, ◌↔◌, if◌then◌else◌, IsTrue, ◌∷◌, ◌++◌, ◌+◌, ◌*◌, ◌≤◌, [], ℕ, true, false, length, map, Contains, IfOk, IfSome, IfNone, OnOk};
ghost use Rattle.lin_events.specs.declared.calls.Reply.{Reply as ReplyOf};
ghost use Rattle.lin_members.specs.Members.{Member as MemberOf};
ghost use Rattle.lin_members.specs.declared.members.Path.{Path as PathOf};
ghost use Rattle.lin_frontier.specs.Nodes.{IsGrown};
ghost use Rattle.lin_frontier.specs.Placing.{IsTried};
ghost use Rattle.lin_members.specs.Searching.{AreBehind, AreUpdates, PlacesIfUpdate, AreHindering, CanTake, GoesAhead, IsAnswered, IsVisiting, IsFinding, IsFoundFrom, IsDone, IsOffering, IsPassed, IsSettled, GivesAny, DominatesIn, watched};
ghost use Rattle.lin_configurations.specs.Putting.{IsPutNext, IsTakenIn, IsTakenInIf};
ghost use Rattle.lin_frontier.specs.Walks.{IsTriedAtMost};

use crate::exchanges::waits_for_like;
use crate::scratch::{Scratch, empty, give_up_all};
use crate::seen::{Seen, is_found};
use lin_events::{Meter, OutOfMemory, Reply};
use lin_frontier::{Config, Open, Pending, place_if_absent};
use lin_members::{
    Member, OfferList, Offers, Path, Pool, RoundNodes, Shown, advanced, copied, may_be_watched,
    placed_at, push_member,
};
use lin_objects::SeqObject;
use lin_order::Placed;
use std::alloc::Global;
use std::hash::Hash;
use std::rc::Rc;

/// An operation that completes with the reply, and the operations that are open beside it.
#[derive(Drop)]
pub struct Completion<'a, O: SeqObject> {
    pub object: &'a O,
    pub alloc: Global,
    pub operation: &'a Open,
    pub reply: &'a Reply,
    pub pending: &'a Pending<'a>,
}

/// What placing an update makes of a member: the configuration, and the operation with its reply. The path is that of the member, the
/// offers are those behind it.
#[derive(Drop)]
struct Reached<'a, S: Eq + Hash> {
    path: Path,
    config: Config<S>,
    placed: Placed,
    offers: &'a Offers,
}

/// The path of a member, and what is on offer behind it where more can come of it.
#[derive(Drop)]
struct Onward {
    path: Path,
    offers: Option<Offers>,
}

/// Puts the value last, if it is wanted.
#[inline(always)]
pub fn push_if<S: Drop>(values: &mut Vec<S>, value: S, is_wanted: bool) -> Result<(), OutOfMemory>
    ensures { OnOk result (values.new.items ≡ (if is_wanted then values.old.items ++ value ∷ [] else values.old.items)) }
{
    if is_wanted {
        match values.push(value) {
            Ok(()) => {}
            Err(_) => return Err(OutOfMemory),
        }
    }
    Ok(())
}

/// Puts last the member of these, whose path goes on from this one by a round, which the operation begins.
#[inline(always)]
fn push_next<S: Eq + Hash + Drop>(
    alloc: Global,
    config: Config<S>,
    offers: &Offers,
    path: Path,
    placed: Placed,
    members: &mut Vec<Member<S>>,
    nodes: &mut RoundNodes,
) -> Result<(), OutOfMemory>
    ensures grown { IsGrown nodes.old nodes.new }
    ensures put { OnOk result (IsPutNext config placed offers.now path nodes.new members.old.items members.new.items) }
{
    let member = advanced(alloc, config, offers, path, placed, nodes)?;
    push_member(members, member)
}

/// The starts that a search has to note: none where nothing hinders the operation, since then it goes ahead at each.
fn starts_to_note<'s, S: Eq + Hash>(
    hindering: Option<usize>,
    starts: &'s [&'s Member<S>],
) -> &'s [&'s Member<S>] {
    match hindering {
        Some(0) => &[],
        _ => starts,
    }
}

impl<'a, O: SeqObject> Completion<'a, O> {
    /// What is on offer behind the state of the member.
    #[inline(always)]
    pub(crate) fn offers_behind(
        &self,
        member: &Member<O::State>,
        steps: &mut Vec<(O::State, Reply)>,
        meter: &mut Meter,
        pool: &mut Pool,
    ) -> Result<Offers, OutOfMemory>
        ensures offered { IfOk result (AreBehind (O.step self.now.object.now) (O.observing self.now.object.now) self.now.pending.now member.now) }
        ensures tried { IsTriedAtMost (length self.now.pending.now) meter.old meter.new }
    {
        if may_be_watched(self.object, self.pending) {
            return self.offers_to_watchers(member, steps, meter, pool);
        }
        Ok(Offers::none())
    }

    /// The same where a process may watch.
    #[inline(never)]
    fn offers_to_watchers(
        &self,
        member: &Member<O::State>,
        steps: &mut Vec<(O::State, Reply)>,
        meter: &mut Meter,
        pool: &mut Pool,
    ) -> Result<Offers, OutOfMemory>
        ensures offered { IfOk result (AreBehind (O.step self.now.object.now) (O.observing self.now.object.now) self.now.pending.now member.now) }
        ensures tried { IsTriedAtMost (length self.now.pending.now) meter.old meter.new }
    {
        self.offers_with(member, member.config(), self.pending, steps, meter, pool)
    }

    /// What is on offer once these operations, of those that are open, may have seen the configuration from the member's last round.
    #[inline(always)]
    pub(crate) fn offers_with(
        &self,
        member: &Member<O::State>,
        config: &Config<O::State>,
        operations: &Pending,
        steps: &mut Vec<(O::State, Reply)>,
        meter: &mut Meter,
        pool: &mut Pool,
    ) -> Result<Offers, OutOfMemory>
        ensures offered { IfOk result (IsOffering (GivesAny (O.step self.now.object.now) (O.observing self.now.object.now) operations.now config.now) member.now.1.round
            (watched (O.observing self.now.object.now) self.now.pending.now member.now.0.offers)) }
        ensures tried { IsTriedAtMost (length operations.now) meter.old meter.new }
    {
        let mut shared = OfferList::emptied(self.alloc, &mut pool.offers)?;
        // It has one owner, so it can be written.
        let Some(list) = Rc::get_mut(&mut shared) else {
            return Err(OutOfMemory);
        };
        list.take_watched(self.object, self.alloc, self.pending, member.offers())?;
        let shown = Shown {
            object: self.object,
            alloc: self.alloc,
            config,
            pending: operations,
            round: member.path().round as usize,
        };
        list.offer_all(&shown, steps, meter)?;
        Ok(Offers::of(shared, &mut pool.offers))
    }

    /// Places the operation in each way that the object has, unless it is treated as an observer.
    fn place_update(
        &self,
        config: &Config<O::State>,
        operation: &Open,
        out: &mut Vec<(Config<O::State>, Placed)>,
        steps: &mut Vec<(O::State, Reply)>,
        meter: &mut Meter,
        pool: &mut Pool,
    ) -> Result<(), OutOfMemory>
        ensures placed { OnOk result (IsTried (PlacesIfUpdate (O.step self.now.object.now) (O.observing self.now.object.now) operation.now config.now) out.old.items out.new.items) }
        ensures few { OnOk result (O.overwriting self.now.object.now ≡ true → length out.new.items ≤ length out.old.items + 1) }
        ensures tried { IsTriedAtMost 1 meter.old meter.new }
    {
        if self.object.observes(&operation.call) {
            return Ok(());
        }
        place_if_absent(
            self.object,
            self.alloc,
            config,
            operation,
            out,
            steps,
            meter,
            &mut pool.pairs,
        )?;
        Ok(())
    }

    /// Puts in `out`, which is written over, what placing one of these open updates makes of the configuration. Crashed ones that have
    /// the same call are placed in the order of their invocations, since nothing that follows tells them apart.
    pub(crate) fn updates(
        &self,
        pending: &Pending,
        config: &Config<O::State>,
        out: &mut Vec<(Config<O::State>, Placed)>,
        steps: &mut Vec<(O::State, Reply)>,
        meter: &mut Meter,
        pool: &mut Pool,
    ) -> Result<(), OutOfMemory>
        ensures placed { OnOk result (AreUpdates (O.step self.now.object.now) (O.observing self.now.object.now) pending.now config.now out.new.items) }
        ensures few { OnOk result (O.overwriting self.now.object.now ≡ true → length out.new.items ≤ length pending.now) }
        ensures tried { IsTriedAtMost (length pending.now) meter.old meter.new }
    {
        empty(out);
        let operations = pending.as_slice();
        let mut at = 0;
        while let Some(operation) = operations.get(at) {
            if !waits_for_like(&operations[..at], config.placed(), operation) {
                self.place_update(config, operation, out, steps, meter, pool)?;
            }
            at += 1;
        }
        Ok(())
    }

    /// Whether a start or a visited member dominates.
    #[inline(always)]
    fn is_seen(
        &self,
        config: &Config<O::State>,
        offers: &Offers,
        starts: &[&Member<O::State>],
        seen: &Seen,
        visited: &[Member<O::State>],
    ) -> bool
        ensures { IsTrue result → (m : MemberOf O.State × PathOf) × Contains (map (λ m. m.now) starts.now ++ visited.now) m × DominatesIn (O.observing self.now.object.now) self.now.pending.now m.0 config.now.0 config.now.1 offers.now }
    {
        seen.has_start(self.object, self.pending, starts, config, offers)
            || seen.has_visited(self.object, self.pending, visited, config, offers)
    }

    /// Takes in the member of this configuration, unless a start or a visited member dominates it.
    #[inline(always)]
    fn visit_one(
        &self,
        reached: Reached<O::State>,
        starts: &[&Member<O::State>],
        seen: &mut Seen,
        visited: &mut Vec<Member<O::State>>,
        nodes: &mut RoundNodes,
        pool: &mut Pool,
    ) -> Result<(), OutOfMemory>
        ensures grown { IsGrown nodes.old nodes.new }
        ensures taken { OnOk result (IsTakenIn (O.observing self.now.object.now) self.now.pending.now reached.entry.config reached.entry.placed reached.entry.offers.now reached.entry.path nodes.new
            (map (λ m. m.now) starts.now ++ visited.old.items) (map (λ m. m.now) starts.now ++ visited.new.items)) }
    {
        let Reached {
            path,
            config,
            placed,
            offers,
        } = reached;
        if self.is_seen(&config, offers, starts, seen, visited) {
            config.give_up(&mut pool.pairs);
            return Ok(());
        }
        push_next(self.alloc, config, offers, path, placed, visited, nodes)?;
        seen.catch_up(self.alloc, self.pending, visited)
    }

    /// Whether the operation can give the reply in this state.
    #[inline(always)]
    pub(crate) fn gives(
        &self,
        state: &O::State,
        steps: &mut Vec<(O::State, Reply)>,
        meter: &mut Meter,
    ) -> Result<bool, OutOfMemory>
        ensures given { IfOk result (λ given. IsTrue given ↔ ((next : O.State) × O.step self.now.object.now state.now self.now.operation.now.call next self.now.reply.now)) }
        ensures tried { IsTriedAtMost 1 meter.old meter.new }
    {
        meter.tick_try();
        self.object
            .outcomes(self.alloc, state, &self.operation.call, steps)?;
        while let Some((_, reply)) = steps.pop() {
            if reply == *self.reply {
                return Ok(true);
            }
        }
        Ok(false)
    }

    /// A round in which the operation can take the reply, if there is one.
    #[inline(always)]
    pub(crate) fn round_given(
        &self,
        member: &Member<O::State>,
        steps: &mut Vec<(O::State, Reply)>,
        meter: &mut Meter,
    ) -> Result<Option<usize>, OutOfMemory>
        ensures some { IfOk result (λ found. IfSome found (CanTake (O.step self.now.object.now) self.now.operation.now self.now.reply.now member.now)) }
        ensures none { IfOk result (λ found. IfNone found ((round : ℕ) → CanTake (O.step self.now.object.now) self.now.operation.now self.now.reply.now member.now round → ⊥)) }
        ensures tried { IsTriedAtMost 1 meter.old meter.new }
    {
        if let Some(round) = member.offers().round_of(self.operation.process, self.reply) {
            return Ok(Some(round));
        }
        if self.gives(member.state(), steps, meter)? {
            return Ok(Some(member.path().round as usize));
        }
        Ok(None)
    }

    /// Puts in `out` what the operation, an observer, makes of the member where it takes the reply in the round.
    #[inline(always)]
    pub(crate) fn push_answered(
        &self,
        member: &Member<O::State>,
        round: usize,
        out: &mut Vec<Member<O::State>>,
        nodes: &mut RoundNodes,
        pool: &mut Pool,
    ) -> Result<(), OutOfMemory>
        requires observer { O.observing self.now.object.now self.now.operation.now.call ≡ true }
        requires takes { CanTake (O.step self.now.object.now) self.now.operation.now self.now.reply.now member.now round }
        ensures grown { IsGrown nodes.old nodes.new }
        ensures made { OnOk result ((n : MemberOf O.State × PathOf) × (out.new.items ≡ out.old.items ++ n ∷ []) × IsAnswered (O.step self.now.object.now) (O.observing self.now.object.now) self.now.operation.now self.now.reply.now self.now.pending.now nodes.new member.now n × (n.1.until ≡ member.now.1.until)) }
    {
        let path = self.path_in(member.path(), round, nodes)?;
        let same = copied(self.object, self.alloc, self.pending, member, pool)?;
        push_member(out, Member { path, ..same })
    }

    /// Puts in `out` what the operation, an observer, makes of the member with its reply; or, where it can't take it,
    /// answers what is on offer behind the member.
    fn observe(
        &self,
        member: &Member<O::State>,
        out: &mut Vec<Member<O::State>>,
        nodes: &mut RoundNodes,
        steps: &mut Vec<(O::State, Reply)>,
        meter: &mut Meter,
        pool: &mut Pool,
    ) -> Result<Option<Offers>, OutOfMemory>
        requires { O.observing self.now.object.now self.now.operation.now.call ≡ true }
        ensures grown { IsGrown nodes.old nodes.new }
        ensures found { OnOk result (IsFinding (O.step self.now.object.now) (O.observing self.now.object.now) self.now.operation.now self.now.reply.now self.now.pending.now nodes.new member.now out.old.items out.new.items) }
        ensures done { IfOk result (λ offers. IfNone offers (IsDone (O.observing self.now.object.now) self.now.operation.now self.now.pending.now out.new.items member.now.0)) }
        ensures passed { IfOk result (λ offers. IfSome offers (λ _. IsPassed (O.step self.now.object.now) (O.observing self.now.object.now) self.now.operation.now self.now.reply.now self.now.pending.now out.new.items member.now)) }
        ensures offered { IfOk result (λ offers. IfSome offers (AreBehind (O.step self.now.object.now) (O.observing self.now.object.now) self.now.pending.now member.now)) }
        ensures tried { IsTriedAtMost (length self.now.pending.now + 1) meter.old meter.new }
    {
        if let Some(round) = self.round_given(member, steps, meter)? {
            self.push_answered(member, round, out, nodes, pool)?;
            return Ok(None);
        }
        let offers = self.offers_behind(member, steps, meter, pool)?;
        Ok(Some(offers))
    }

    /// Puts in `out` the member with the operation, an update, placed behind all, which leads to the configuration.
    #[inline(always)]
    fn push_update(
        &self,
        member: &Member<O::State>,
        config: Config<O::State>,
        offers: &Offers,
        out: &mut Vec<Member<O::State>>,
        nodes: &mut RoundNodes,
    ) -> Result<(), OutOfMemory>
        ensures grown { IsGrown nodes.old nodes.new }
        ensures put { OnOk result (IsPutNext config (record { at = self.now.operation.now.at; reply = self.now.reply.now }) offers.now member.now.1 nodes.new out.old.items out.new.items) }
    {
        let placed = placed_at(self.alloc, self.operation.at, self.reply)?;
        push_next(
            self.alloc,
            config,
            offers,
            member.path(),
            placed,
            out,
            nodes,
        )
    }

    /// The same from the state that the update leads to, unless one that was found dominates that member.
    #[inline(always)]
    fn put_state(
        &self,
        member: &Member<O::State>,
        state: O::State,
        offers: &Offers,
        out: &mut Vec<Member<O::State>>,
        nodes: &mut RoundNodes,
    ) -> Result<(), OutOfMemory>
        ensures grown { IsGrown nodes.old nodes.new }
        ensures taken { OnOk result (IsTakenIn (O.observing self.now.object.now) self.now.pending.now (state, member.now.0.placed) (record { at = self.now.operation.now.at; reply = self.now.reply.now }) offers.now member.now.1 nodes.new out.old.items out.new.items) }
    {
        let config = member.config().with_state(state)?;
        if is_found(self.object, self.pending, out, &config, offers) {
            return Ok(());
        }
        self.push_update(member, config, offers, out, nodes)
    }

    /// The same if the step to the state has the operation's reply.
    #[inline(always)]
    fn put_update(
        &self,
        member: &Member<O::State>,
        state: O::State,
        reply: Reply,
        offers: &Offers,
        out: &mut Vec<Member<O::State>>,
        nodes: &mut RoundNodes,
    ) -> Result<(), OutOfMemory>
        ensures grown { IsGrown nodes.old nodes.new }
        ensures taken { OnOk result (IsTakenInIf (reply ≡ self.now.reply.now) (O.observing self.now.object.now) self.now.pending.now (state, member.now.0.placed) (record { at = self.now.operation.now.at; reply = self.now.reply.now }) offers.now member.now.1 nodes.new out.old.items out.new.items) }
    {
        if reply != *self.reply {
            return Ok(());
        }
        self.put_state(member, state, offers, out, nodes)
    }

    /// Puts in `out` what the operation, an update, makes of the member with its reply, and answers what is on offer
    /// behind the member.
    fn update(
        &self,
        member: &Member<O::State>,
        out: &mut Vec<Member<O::State>>,
        nodes: &mut RoundNodes,
        steps: &mut Vec<(O::State, Reply)>,
        meter: &mut Meter,
        pool: &mut Pool,
    ) -> Result<Offers, OutOfMemory>
        requires { O.observing self.now.object.now self.now.operation.now.call ≡ false }
        ensures grown { IsGrown nodes.old nodes.new }
        ensures found { OnOk result (IsFinding (O.step self.now.object.now) (O.observing self.now.object.now) self.now.operation.now self.now.reply.now self.now.pending.now nodes.new member.now out.old.items out.new.items) }
        ensures passed { OnOk result (IsPassed (O.step self.now.object.now) (O.observing self.now.object.now) self.now.operation.now self.now.reply.now self.now.pending.now out.new.items member.now) }
        ensures offered { IfOk result (AreBehind (O.step self.now.object.now) (O.observing self.now.object.now) self.now.pending.now member.now) }
        ensures tried { IsTriedAtMost (length self.now.pending.now + 1) meter.old meter.new }
    {
        let offers = self.offers_behind(member, steps, meter, pool)?;
        meter.tick_try();
        self.object
            .outcomes(self.alloc, member.state(), &self.operation.call, steps)?;
        while let Some((state, reply)) = steps.pop() {
            self.put_update(member, state, reply, &offers, out, nodes)?;
        }
        Ok(offers)
    }

    /// Puts in `out` what the operation makes of the member with its reply. Where more can come of the member, answers
    /// what is on offer behind it.
    fn complete(
        &self,
        member: &Member<O::State>,
        out: &mut Vec<Member<O::State>>,
        nodes: &mut RoundNodes,
        steps: &mut Vec<(O::State, Reply)>,
        meter: &mut Meter,
        pool: &mut Pool,
    ) -> Result<Option<Offers>, OutOfMemory>
        ensures grown { IsGrown nodes.old nodes.new }
        ensures found { OnOk result (IsFinding (O.step self.now.object.now) (O.observing self.now.object.now) self.now.operation.now self.now.reply.now self.now.pending.now nodes.new member.now out.old.items out.new.items) }
        ensures done { IfOk result (λ offers. IfNone offers (IsDone (O.observing self.now.object.now) self.now.operation.now self.now.pending.now out.new.items member.now.0)) }
        ensures passed { IfOk result (λ offers. IfSome offers (λ _. IsPassed (O.step self.now.object.now) (O.observing self.now.object.now) self.now.operation.now self.now.reply.now self.now.pending.now out.new.items member.now)) }
        ensures offered { IfOk result (λ offers. IfSome offers (AreBehind (O.step self.now.object.now) (O.observing self.now.object.now) self.now.pending.now member.now)) }
        ensures tried { IsTriedAtMost (length self.now.pending.now + 1) meter.old meter.new }
    {
        if self.object.observes(&self.operation.call) {
            return self.observe(member, out, nodes, steps, meter, pool);
        }
        let offers = self.update(member, out, nodes, steps, meter, pool)?;
        Ok(Some(offers))
    }

    /// Puts in `out` what the operation makes of the member with its reply. Where more can come of the member, puts in `scratch.next`,
    /// which is written over, what placing an update makes of it, and answers what is on offer behind it.
    fn work_off(
        &self,
        member: &Member<O::State>,
        out: &mut Vec<Member<O::State>>,
        nodes: &mut RoundNodes,
        meter: &mut Meter,
        scratch: &mut Scratch<O>,
    ) -> Result<Option<Offers>, OutOfMemory>
        ensures grown { IsGrown nodes.old nodes.new }
        ensures found { OnOk result (IsFinding (O.step self.now.object.now) (O.observing self.now.object.now) self.now.operation.now self.now.reply.now self.now.pending.now nodes.new member.now out.old.items out.new.items) }
        ensures done { IfOk result (λ found. IfNone found (IsDone (O.observing self.now.object.now) self.now.operation.now self.now.pending.now out.new.items member.now.0)) }
        ensures passed { IfOk result (λ found. IfSome found (λ _. IsPassed (O.step self.now.object.now) (O.observing self.now.object.now) self.now.operation.now self.now.reply.now self.now.pending.now out.new.items member.now)) }
        ensures offered { IfOk result (λ found. IfSome found (AreBehind (O.step self.now.object.now) (O.observing self.now.object.now) self.now.pending.now member.now)) }
        ensures placed { IfOk result (λ found. IfSome found (λ _. AreUpdates (O.step self.now.object.now) (O.observing self.now.object.now) self.now.pending.now (member.now.0.state, member.now.0.placed) scratch.new.next.items)) }
        ensures tried { IsTriedAtMost (2 * length self.now.pending.now + 1) meter.old meter.new }
    {
        match self.complete(
            member,
            out,
            nodes,
            &mut scratch.steps,
            meter,
            &mut scratch.pool,
        )? {
            Some(offers) => {
                self.updates(
                    self.pending,
                    member.config(),
                    &mut scratch.next,
                    &mut scratch.steps,
                    meter,
                    &mut scratch.pool,
                )?;
                Ok(Some(offers))
            }
            None => Ok(None),
        }
    }

    /// Where more can come of the member, takes in what neither a start nor a visited member dominates of what `scratch.next` holds.
    fn visit_found(
        &self,
        onward: Onward,
        starts: &[&Member<O::State>],
        seen: &mut Seen,
        visited: &mut Vec<Member<O::State>>,
        nodes: &mut RoundNodes,
        scratch: &mut Scratch<O>,
    ) -> Result<(), OutOfMemory>
        ensures grown { IsGrown nodes.old nodes.new }
        ensures none { OnOk result (IfNone onward.offers ((visited.new.items ≡ visited.old.items) × (nodes.new ≡ nodes.old))) }
        ensures some { OnOk result (IfSome onward.offers (λ offers. IsVisiting (O.observing self.now.object.now) self.now.pending.now scratch.old.next.items offers onward.path nodes.new
            (map (λ m. m.now) starts.now ++ visited.old.items) (map (λ m. m.now) starts.now ++ visited.new.items))) }
    {
        let Onward { path, offers } = onward;
        let Some(offers) = offers else {
            return Ok(());
        };
        while let Some((config, placed)) = scratch.next.pop() {
            let reached = Reached {
                path,
                config,
                placed,
                offers: &offers,
            };
            self.visit_one(reached, starts, seen, visited, nodes, &mut scratch.pool)?;
        }
        offers.give_up(&mut scratch.pool.offers);
        Ok(())
    }

    /// How many of the operations that are open beside it hinder this one, an update; `None` where one of them observes, or it does.
    fn count_hindering(&self) -> Option<usize>
        ensures { IfSome result (AreHindering (O.observing self.now.object.now) (O.hindered self.now.object.now) self.now.operation.now self.now.reply.now self.now.pending.now) }
    {
        if self.object.observes(&self.operation.call) {
            return None;
        }
        let mut many = 0;
        for other in self.pending.as_slice() {
            if self.object.observes(&other.call) {
                return None;
            }
            if self
                .object
                .is_hindered(&self.operation.call, self.reply, &other.call)
            {
                many += 1;
            }
        }
        Some(many)
    }

    /// Whether the operation, which so many others hinder, goes ahead of all of them from the state on.
    #[inline(always)]
    fn goes_ahead(&self, hindering: Option<usize>, state: &O::State) -> bool
        requires { IfSome hindering (AreHindering (O.observing self.now.object.now) (O.hindered self.now.object.now) self.now.operation.now self.now.reply.now self.now.pending.now) }
        ensures { IsTrue result → GoesAhead (O.step self.now.object.now) (O.observing self.now.object.now) self.now.operation.now self.now.reply.now self.now.pending.now state.now }
    {
        match hindering {
            Some(many) => {
                self.object
                    .goes_first(state, &self.operation.call, self.reply, many)
            }
            None => false,
        }
    }

    /// The same as `work_off`, but for members where the operation goes ahead of all others: nothing more comes of them, since what
    /// could be placed ahead of it can be placed behind it.
    fn take_up(
        &self,
        hindering: Option<usize>,
        member: &Member<O::State>,
        out: &mut Vec<Member<O::State>>,
        nodes: &mut RoundNodes,
        meter: &mut Meter,
        scratch: &mut Scratch<O>,
    ) -> Result<Option<Offers>, OutOfMemory>
        requires { IfSome hindering (AreHindering (O.observing self.now.object.now) (O.hindered self.now.object.now) self.now.operation.now self.now.reply.now self.now.pending.now) }
        ensures grown { IsGrown nodes.old nodes.new }
        ensures found { OnOk result (IsFinding (O.step self.now.object.now) (O.observing self.now.object.now) self.now.operation.now self.now.reply.now self.now.pending.now nodes.new member.now out.old.items out.new.items) }
        ensures settled { IfOk result (λ found. IfNone found (IsSettled (O.step self.now.object.now) (O.observing self.now.object.now) self.now.operation.now self.now.reply.now self.now.pending.now out.new.items member.now)) }
        ensures passed { IfOk result (λ found. IfSome found (λ _. IsPassed (O.step self.now.object.now) (O.observing self.now.object.now) self.now.operation.now self.now.reply.now self.now.pending.now out.new.items member.now)) }
        ensures offered { IfOk result (λ found. IfSome found (AreBehind (O.step self.now.object.now) (O.observing self.now.object.now) self.now.pending.now member.now)) }
        ensures placed { IfOk result (λ found. IfSome found (λ _. AreUpdates (O.step self.now.object.now) (O.observing self.now.object.now) self.now.pending.now (member.now.0.state, member.now.0.placed) scratch.new.next.items)) }
        ensures tried { IsTriedAtMost (2 * length self.now.pending.now + 1) meter.old meter.new }
    {
        if self.goes_ahead(hindering, member.state()) {
            let offers = self.update(
                member,
                out,
                nodes,
                &mut scratch.steps,
                meter,
                &mut scratch.pool,
            )?;
            offers.give_up(&mut scratch.pool.offers);
            return Ok(None);
        }
        self.work_off(member, out, nodes, meter, scratch)
    }

    /// What the operation makes of the members with its reply.
    pub fn found_from(
        &self,
        starts: &[&Member<O::State>],
        room: usize,
        limit: usize,
        nodes: &mut RoundNodes,
        meter: &mut Meter,
        scratch: &mut Scratch<O>,
    ) -> Result<Option<Vec<Member<O::State>>>, OutOfMemory>
        ensures grown { IsGrown nodes.old nodes.new }
        ensures found { IfOk result (λ found. IfSome found (λ out. IsFoundFrom (O.step self.now.object.now) (O.observing self.now.object.now) self.now.operation.now self.now.reply.now self.now.pending.now nodes.new (map (λ m. m.now) starts.now) out.items)) }
        ensures tried { IsTriedAtMost (limit * (2 * length self.now.pending.now + 1)) meter.old meter.new }
    {
        if starts.len() > limit {
            return Ok(None);
        }
        let found = scratch.found(room)?;
        self.search(starts, found, limit, nodes, meter, scratch)
    }

    /// What the operation makes of the members with its reply, on all ways from them by placing updates, put in the empty list;
    /// `None` where more members than the limit come up.
    fn search(
        &self,
        starts: &[&Member<O::State>],
        found: Vec<Member<O::State>>,
        limit: usize,
        nodes: &mut RoundNodes,
        meter: &mut Meter,
        scratch: &mut Scratch<O>,
    ) -> Result<Option<Vec<Member<O::State>>>, OutOfMemory>
        requires within { length starts.now ≤ limit }
        requires empty { found.items ≡ [] }
        ensures grown { IsGrown nodes.old nodes.new }
        ensures found { IfOk result (λ found. IfSome found (λ out. IsFoundFrom (O.step self.now.object.now) (O.observing self.now.object.now) self.now.operation.now self.now.reply.now self.now.pending.now nodes.new (map (λ m. m.now) starts.now) out.items)) }
        ensures tried { IsTriedAtMost (limit * (2 * length self.now.pending.now + 1)) meter.old meter.new }
    {
        let hindering = self.count_hindering();
        let mut seen = Seen::new(self.alloc, self.pending, starts_to_note(hindering, starts))?;
        let mut out = found;
        let mut visited = scratch.visited_list();
        for start in starts {
            let path = start.path();
            let found = self.take_up(hindering, start, &mut out, nodes, meter, scratch)?;
            let onward = Onward {
                path,
                offers: found,
            };
            self.visit_found(onward, starts, &mut seen, &mut visited, nodes, scratch)?;
        }
        let mut tried = starts.len();
        let mut at = 0;
        while let Some(member) = visited.get(at) {
            if tried >= limit {
                return Ok(None);
            }
            let path = member.path();
            let found = self.take_up(hindering, member, &mut out, nodes, meter, scratch)?;
            let onward = Onward {
                path,
                offers: found,
            };
            self.visit_found(onward, starts, &mut seen, &mut visited, nodes, scratch)?;
            tried += 1;
            at += 1;
        }
        give_up_all(&mut visited, &mut scratch.pool);
        scratch.keep_visited(visited);
        Ok(Some(out))
    }
}
