//! What a completion makes of members where the object is overwritten: no update is placed before its own completion, or a reply that
//! only it can have given, asks for it.
ghost use Rattle.std.specs.Prelude.{◌≡◌, ◌⊎◌, ◌∷◌, ◌++◌, ◌+◌, ◌*◌, ◌<◌, [], ℕ, List, true, false, Some, length, Contains, IsTrue, ◌↔◌, IfOk, IfSome, IfNone, OnOk};
ghost use Rattle.lin_events.specs.declared.calls.Reply.{Reply as ReplyOf};
ghost use Rattle.lin_order.specs.declared.placed.Placed.{Placed as PlacedOf};
ghost use Rattle.lin_frontier.specs.declared.pending.Open.{Open as OpenOf};
ghost use Rattle.lin_members.specs.Asking.{early_of, AreAsked, AreFoundWith, AreReturned, IsAheadOf, IsAnsweredStill, IsAskedAhead, IsAskedBehind, IsAskedLikeAhead, IsAskedLikeBehind, IsFindingWith, IsReturnedAhead, IsReturnedBehind};
ghost use Rattle.lin_members.specs.Members.{Member as MemberOf};
ghost use Rattle.lin_members.specs.declared.members.Path.{Path as PathOf};
ghost use Rattle.lin_frontier.specs.Nodes.{IsGrown};
ghost use Rattle.lin_members.specs.Searching.{BeginsRound, IsNodeOf, PlacesIfUpdate, PlacesUpdate};
ghost use Rattle.lin_frontier.specs.Walks.{IsTriedAtMost};

use crate::completions::Completion;
use crate::scratch::Scratch;
use lin_events::{Meter, OutOfMemory, Reply};
use lin_frontier::{Config, Open, Pending};
use lin_members::{
    Member, Path, RoundNodes, in_round, placed_at, push_member, put_ahead, put_behind,
};
use lin_objects::SeqObject;
use lin_order::Placed;
use std::alloc::Global;
use std::hash::Hash;

/// An open update that is placed for a member, with its reply, and the configuration that it makes of the member.
#[derive(Drop)]
struct Update<'a, S: Eq + Hash> {
    member: &'a Member<S>,
    config: Config<S>,
    placed: Placed,
}

/// A member, and the configuration that the update that returns makes of it.
#[derive(Drop)]
struct Returned<'a, S: Eq + Hash> {
    member: &'a Member<S>,
    config: Config<S>,
}

/// Whether the operation was called before the event at the position.
fn is_early(operation: &Open, until: u32) -> bool
    ensures { IsTrue result ↔ (operation.now.at < until) }
{
    operation.at < until as usize
}

/// The operations that were called before the event at the position.
pub(crate) fn operations_before(
    pending: &[Open],
    until: u32,
    list: Vec<Open>,
) -> Result<Vec<Open>, OutOfMemory>
    requires { list.items ≡ [] }
    ensures { IfOk result (λ out. out.items ≡ early_of until pending.now) }
{
    let mut out = list;
    for operation in pending {
        if is_early(operation, until) {
            out.push(*operation)?;
        }
    }
    Ok(out)
}

/// The state of the last step that has the reply.
fn state_with<S: Drop>(steps: &mut Vec<(S, Reply)>, reply: &Reply) -> Option<S>
    ensures some { IfSome result (λ state. Contains steps.old.items (state, reply.now)) }
    ensures none { IfNone result ((state : S) → Contains steps.old.items (state, reply.now) → ⊥) }
{
    while let Some((state, answer)) = steps.pop() {
        if answer == *reply {
            return Some(state);
        }
    }
    None
}

impl<'a, O: SeqObject> Completion<'a, O> {
    /// The path with the operation behind all.
    #[inline(always)]
    fn path_behind(&self, path: Path, now: u32, nodes: &mut RoundNodes) -> Result<Path, OutOfMemory>
        ensures grown { IsGrown nodes.old nodes.new }
        ensures begins { IfOk result (λ next. BeginsRound nodes.new path next (record { at = self.now.operation.now.at; reply = self.now.reply.now })) }
        ensures until { IfOk result (λ next. next.until ≡ now) }
    {
        let placed = placed_at(self.alloc, self.operation.at, self.reply)?;
        put_behind(path, placed, now, nodes)
    }

    /// The path with the operation as a round of its own ahead of the last one.
    #[inline(always)]
    fn path_ahead(&self, path: Path, nodes: &mut RoundNodes) -> Result<Path, OutOfMemory>
        ensures grown { IsGrown nodes.old nodes.new }
        ensures ahead { IfOk result (λ next. IsAheadOf nodes.new path next (record { at = self.now.operation.now.at; reply = self.now.reply.now })) }
    {
        let placed = placed_at(self.alloc, self.operation.at, self.reply)?;
        put_ahead(path, placed, nodes)
    }

    /// The path with the operation put in the round.
    #[inline(always)]
    pub(crate) fn path_in(
        &self,
        path: Path,
        round: usize,
        nodes: &mut RoundNodes,
    ) -> Result<Path, OutOfMemory>
        ensures grown { IsGrown nodes.old nodes.new }
        ensures round { IfOk result (λ next. next.round ≡ path.round) }
        ensures until { IfOk result (λ next. next.until ≡ path.until) }
        ensures node { IfOk result (λ next. IsNodeOf nodes.new next.node path.node ((record { at = self.now.operation.now.at; reply = self.now.reply.now }), Some round)) }
    {
        let placed = placed_at(self.alloc, self.operation.at, self.reply)?;
        in_round(path, placed, round, nodes)
    }

    /// What is placed in the configuration, with the member's state.
    #[inline(always)]
    fn with_state_of(
        &self,
        member: &Member<O::State>,
        config: &Config<O::State>,
    ) -> Result<Config<O::State>, OutOfMemory>
        ensures { IfOk result (λ made. made ≡ (member.now.0.state, config.now.1)) }
    {
        let state = self.object.copy_state(self.alloc, member.state())?;
        config.with_state(state)
    }

    /// Puts in `out` the member with the update placed behind all, which leads to the configuration.
    fn return_behind(
        &self,
        returned: Returned<O::State>,
        now: u32,
        out: &mut Vec<Member<O::State>>,
        nodes: &mut RoundNodes,
        meter: &mut Meter,
        scratch: &mut Scratch<O>,
    ) -> Result<(), OutOfMemory>
        requires { returned.config.1 ≡ returned.member.now.0.placed }
        ensures grown { IsGrown nodes.old nodes.new }
        ensures made { OnOk result ((n : MemberOf O.State × PathOf) × (out.new.items ≡ out.old.items ++ n ∷ []) × (n.0.state ≡ returned.entry.config.0)
            × (O.observing self.now.object.now self.now.operation.now.call ≡ false → O.step self.now.object.now returned.entry.member.now.0.state self.now.operation.now.call returned.entry.config.0 self.now.reply.now
            → IsReturnedBehind (O.step self.now.object.now) (O.observing self.now.object.now) self.now.operation.now self.now.reply.now self.now.pending.now nodes.new now returned.entry.member.now n)) }
        ensures tried { IsTriedAtMost (length self.now.pending.now) meter.old meter.new }
    {
        let Returned { member, config } = returned;
        let path = self.path_behind(member.path(), now, nodes)?;
        let offers = self.offers_behind(member, &mut scratch.steps, meter, &mut scratch.pool)?;
        push_member(
            out,
            Member {
                config,
                offers,
                path,
            },
        )
    }

    /// Puts in `out` the member with the update placed ahead of the last one. The configuration is the one that the update leads to.
    fn return_ahead(
        &self,
        returned: &Returned<O::State>,
        out: &mut Vec<Member<O::State>>,
        nodes: &mut RoundNodes,
        meter: &mut Meter,
        scratch: &mut Scratch<O>,
    ) -> Result<(), OutOfMemory>
        requires placed { returned.now.config.1 ≡ returned.now.member.now.0.placed }
        requires early { self.now.operation.now.at < returned.now.member.now.1.until }
        ensures grown { IsGrown nodes.old nodes.new }
        ensures made { OnOk result ((n : MemberOf O.State × PathOf) × (out.new.items ≡ out.old.items ++ n ∷ [])
            × (O.observing self.now.object.now self.now.operation.now.call ≡ false → O.step self.now.object.now returned.now.member.now.0.state self.now.operation.now.call returned.now.config.0 self.now.reply.now
            → (now : ℕ) → IsReturnedAhead (O.step self.now.object.now) (O.observing self.now.object.now) self.now.operation.now self.now.reply.now self.now.pending.now nodes.new now returned.now.member.now returned.now.config.0 n)) }
        ensures tried { IsTriedAtMost (length self.now.pending.now) meter.old meter.new }
    {
        let operations = operations_before(
            self.pending.as_slice(),
            returned.member.path().until,
            scratch.early_list(),
        )?;
        let before = Pending::of(&operations);
        self.return_beside(returned, &before, out, nodes, meter, scratch)?;
        scratch.keep_early(operations);
        Ok(())
    }

    /// The same, given the early operations.
    fn return_beside(
        &self,
        returned: &Returned<O::State>,
        before: &Pending,
        out: &mut Vec<Member<O::State>>,
        nodes: &mut RoundNodes,
        meter: &mut Meter,
        scratch: &mut Scratch<O>,
    ) -> Result<(), OutOfMemory>
        requires before { before.now ≡ early_of returned.now.member.now.1.until self.now.pending.now }
        requires placed { returned.now.config.1 ≡ returned.now.member.now.0.placed }
        requires early { self.now.operation.now.at < returned.now.member.now.1.until }
        ensures grown { IsGrown nodes.old nodes.new }
        ensures made { OnOk result ((n : MemberOf O.State × PathOf) × (out.new.items ≡ out.old.items ++ n ∷ [])
            × (O.observing self.now.object.now self.now.operation.now.call ≡ false → O.step self.now.object.now returned.now.member.now.0.state self.now.operation.now.call returned.now.config.0 self.now.reply.now
            → (now : ℕ) → IsReturnedAhead (O.step self.now.object.now) (O.observing self.now.object.now) self.now.operation.now self.now.reply.now self.now.pending.now nodes.new now returned.now.member.now returned.now.config.0 n)) }
        ensures tried { IsTriedAtMost (length self.now.pending.now) meter.old meter.new }
    {
        let Returned { member, config } = returned;
        let path = self.path_ahead(member.path(), nodes)?;
        let offers = self.offers_with(
            member,
            config,
            before,
            &mut scratch.steps,
            meter,
            &mut scratch.pool,
        )?;
        let config = self.with_state_of(member, member.config())?;
        push_member(
            out,
            Member {
                config,
                offers,
                path,
            },
        )
    }

    /// Puts in `out` what the update makes of the member with its reply.
    fn return_update(
        &self,
        member: &Member<O::State>,
        now: u32,
        out: &mut Vec<Member<O::State>>,
        nodes: &mut RoundNodes,
        meter: &mut Meter,
        scratch: &mut Scratch<O>,
    ) -> Result<(), OutOfMemory>
        requires update { O.observing self.now.object.now self.now.operation.now.call ≡ false }
        requires overwriting { O.overwriting self.now.object.now ≡ true }
        ensures grown { IsGrown nodes.old nodes.new }
        ensures found { OnOk result (IsFindingWith (O.step self.now.object.now) (O.observing self.now.object.now) self.now.operation.now self.now.reply.now self.now.pending.now nodes.new now member.now out.old.items out.new.items) }
        ensures returned { OnOk result ((next : O.State) → O.step self.now.object.now member.now.0.state self.now.operation.now.call next self.now.reply.now → AreReturned (O.step self.now.object.now) (O.observing self.now.object.now) self.now.operation.now self.now.reply.now self.now.pending.now nodes.new now member.now out.new.items next) }
        ensures tried { IsTriedAtMost (2 * length self.now.pending.now + 1) meter.old meter.new }
    {
        meter.tick_try();
        self.object.outcomes(
            self.alloc,
            member.state(),
            &self.operation.call,
            &mut scratch.steps,
        )?;
        let Some(state) = state_with(&mut scratch.steps, self.reply) else {
            return Ok(());
        };
        let config = member.config().with_state(state)?;
        let returned = Returned { member, config };
        if is_early(self.operation, member.path().until) {
            self.return_ahead(&returned, out, nodes, meter, scratch)?;
        }
        self.return_behind(returned, now, out, nodes, meter, scratch)
    }

    /// Puts in `out` the member with the update, which gives the observer its reply, and the observer placed behind all. The
    /// configuration is the one that the update leads to.
    fn ask_behind(
        &self,
        update: Update<O::State>,
        now: u32,
        out: &mut Vec<Member<O::State>>,
        nodes: &mut RoundNodes,
        meter: &mut Meter,
        scratch: &mut Scratch<O>,
    ) -> Result<(), OutOfMemory>
        requires observer { O.observing self.now.object.now self.now.operation.now.call ≡ true }
        requires places { PlacesUpdate (O.step self.now.object.now) (O.observing self.now.object.now) self.now.pending.now (update.member.now.0.state, update.member.now.0.placed) update.placed update.config }
        requires gives { (last : O.State) × O.step self.now.object.now update.config.0 self.now.operation.now.call last self.now.reply.now }
        ensures grown { IsGrown nodes.old nodes.new }
        ensures made { OnOk result ((n : MemberOf O.State × PathOf) × (out.new.items ≡ out.old.items ++ n ∷ []) × IsAskedBehind (O.step self.now.object.now) (O.observing self.now.object.now) self.now.operation.now self.now.reply.now self.now.pending.now nodes.new now update.entry.member.now update.entry.placed n × (n.0.state ≡ update.entry.config.0) × (n.0.placed ≡ update.entry.config.1)) }
        ensures tried { IsTriedAtMost (length self.now.pending.now) meter.old meter.new }
    {
        let Update {
            member,
            config,
            placed,
        } = update;
        let path = put_behind(member.path(), placed, now, nodes)?;
        let path = self.path_in(path, path.round as usize, nodes)?;
        let offers = self.offers_behind(member, &mut scratch.steps, meter, &mut scratch.pool)?;
        push_member(
            out,
            Member {
                config,
                offers,
                path,
            },
        )
    }

    /// Puts in `out` the member with the early update, which gives the observer its reply, and the observer placed ahead of the last
    /// update. The configuration is the one that the update leads to.
    fn ask_ahead(
        &self,
        update: Update<O::State>,
        before: &Pending,
        out: &mut Vec<Member<O::State>>,
        nodes: &mut RoundNodes,
        meter: &mut Meter,
        scratch: &mut Scratch<O>,
    ) -> Result<(), OutOfMemory>
        requires before { before.now ≡ early_of update.member.now.1.until self.now.pending.now }
        requires observer { O.observing self.now.object.now self.now.operation.now.call ≡ true }
        requires early { self.now.operation.now.at < update.member.now.1.until }
        requires places { PlacesUpdate (O.step self.now.object.now) (O.observing self.now.object.now) before.now (update.member.now.0.state, update.member.now.0.placed) update.placed update.config }
        requires gives { (last : O.State) × O.step self.now.object.now update.config.0 self.now.operation.now.call last self.now.reply.now }
        ensures grown { IsGrown nodes.old nodes.new }
        ensures made { OnOk result ((n : MemberOf O.State × PathOf) × (out.new.items ≡ out.old.items ++ n ∷ []) × ((now : ℕ) → IsAskedAhead (O.step self.now.object.now) (O.observing self.now.object.now) self.now.operation.now self.now.reply.now self.now.pending.now nodes.new now update.entry.member.now update.entry.placed update.entry.config.0 n) × (n.0.placed ≡ update.entry.config.1)) }
        ensures tried { IsTriedAtMost (length self.now.pending.now) meter.old meter.new }
    {
        let Update {
            member,
            config,
            placed,
        } = update;
        let from = member.path();
        let path = put_ahead(from, placed, nodes)?;
        let path = self.path_in(path, from.round as usize, nodes)?;
        let offers = self.offers_with(
            member,
            &config,
            before,
            &mut scratch.steps,
            meter,
            &mut scratch.pool,
        )?;
        let config = self.with_state_of(member, &config)?;
        push_member(
            out,
            Member {
                config,
                offers,
                path,
            },
        )
    }

    /// The same for an update behind all, if it gives the observer its reply.
    fn ask_one_behind(
        &self,
        update: Update<O::State>,
        now: u32,
        out: &mut Vec<Member<O::State>>,
        nodes: &mut RoundNodes,
        meter: &mut Meter,
        scratch: &mut Scratch<O>,
    ) -> Result<(), OutOfMemory>
        requires observer { O.observing self.now.object.now self.now.operation.now.call ≡ true }
        requires places { PlacesUpdate (O.step self.now.object.now) (O.observing self.now.object.now) self.now.pending.now (update.member.now.0.state, update.member.now.0.placed) update.placed update.config }
        ensures grown { IsGrown nodes.old nodes.new }
        ensures asked { OnOk result (((n : MemberOf O.State × PathOf) × (out.new.items ≡ out.old.items ++ n ∷ []) × IsAskedBehind (O.step self.now.object.now) (O.observing self.now.object.now) self.now.operation.now self.now.reply.now self.now.pending.now nodes.new now update.entry.member.now update.entry.placed n × (n.0.state ≡ update.entry.config.0) × (n.0.placed ≡ update.entry.config.1))
            ⊎ ((((last : O.State) × O.step self.now.object.now update.entry.config.0 self.now.operation.now.call last self.now.reply.now) → ⊥) × (out.new.items ≡ out.old.items) × (nodes.new ≡ nodes.old))) }
        ensures tried { IsTriedAtMost (length self.now.pending.now + 1) meter.old meter.new }
    {
        let gives = self.gives(update.config.state(), &mut scratch.steps, meter)?;
        if !gives {
            return Ok(());
        }
        self.ask_behind(update, now, out, nodes, meter, scratch)
    }

    /// The same for each update behind all that gives the observer its reply.
    #[inline(never)]
    fn ask_all_behind(
        &self,
        member: &Member<O::State>,
        now: u32,
        out: &mut Vec<Member<O::State>>,
        nodes: &mut RoundNodes,
        meter: &mut Meter,
        scratch: &mut Scratch<O>,
    ) -> Result<(), OutOfMemory>
        requires observer { O.observing self.now.object.now self.now.operation.now.call ≡ true }
        requires overwriting { O.overwriting self.now.object.now ≡ true }
        ensures grown { IsGrown nodes.old nodes.new }
        ensures found { OnOk result (IsFindingWith (O.step self.now.object.now) (O.observing self.now.object.now) self.now.operation.now self.now.reply.now self.now.pending.now nodes.new now member.now out.old.items out.new.items) }
        ensures asked { OnOk result ((o : OpenOf) (p : PlacedOf) (d : O.State × List (ℕ × ReplyOf)) → Contains self.now.pending.now o → PlacesIfUpdate (O.step self.now.object.now) (O.observing self.now.object.now) o (member.now.0.state, member.now.0.placed) p d
            → ((last : O.State) × O.step self.now.object.now d.0 self.now.operation.now.call last self.now.reply.now) → IsAskedLikeBehind (O.step self.now.object.now) (O.observing self.now.object.now) self.now.operation.now self.now.reply.now self.now.pending.now nodes.new now member.now out.new.items o p.reply d.0) }
        ensures tried { IsTriedAtMost (length self.now.pending.now * (length self.now.pending.now + 2)) meter.old meter.new }
    {
        let mut next = scratch.next();
        self.updates(
            self.pending,
            member.config(),
            &mut next,
            &mut scratch.steps,
            meter,
            &mut scratch.pool,
        )?;
        while let Some((config, placed)) = next.pop() {
            let update = Update {
                member,
                config,
                placed,
            };
            self.ask_one_behind(update, now, out, nodes, meter, scratch)?;
        }
        scratch.keep_next(next);
        Ok(())
    }

    /// The same for an early update ahead of the last one, if it gives the observer its reply.
    fn ask_one_ahead(
        &self,
        update: Update<O::State>,
        before: &Pending,
        out: &mut Vec<Member<O::State>>,
        nodes: &mut RoundNodes,
        meter: &mut Meter,
        scratch: &mut Scratch<O>,
    ) -> Result<(), OutOfMemory>
        requires before { before.now ≡ early_of update.member.now.1.until self.now.pending.now }
        requires observer { O.observing self.now.object.now self.now.operation.now.call ≡ true }
        requires early { self.now.operation.now.at < update.member.now.1.until }
        requires places { PlacesUpdate (O.step self.now.object.now) (O.observing self.now.object.now) before.now (update.member.now.0.state, update.member.now.0.placed) update.placed update.config }
        ensures grown { IsGrown nodes.old nodes.new }
        ensures asked { OnOk result (((n : MemberOf O.State × PathOf) × (out.new.items ≡ out.old.items ++ n ∷ []) × ((now : ℕ) → IsAskedAhead (O.step self.now.object.now) (O.observing self.now.object.now) self.now.operation.now self.now.reply.now self.now.pending.now nodes.new now update.entry.member.now update.entry.placed update.entry.config.0 n) × (n.0.placed ≡ update.entry.config.1))
            ⊎ ((((last : O.State) × O.step self.now.object.now update.entry.config.0 self.now.operation.now.call last self.now.reply.now) → ⊥) × (out.new.items ≡ out.old.items) × (nodes.new ≡ nodes.old))) }
        ensures tried { IsTriedAtMost (length self.now.pending.now + 1) meter.old meter.new }
    {
        let gives = self.gives(update.config.state(), &mut scratch.steps, meter)?;
        if !gives {
            return Ok(());
        }
        self.ask_ahead(update, before, out, nodes, meter, scratch)
    }

    /// And for each early one ahead.
    #[inline(never)]
    fn ask_all_ahead(
        &self,
        member: &Member<O::State>,
        out: &mut Vec<Member<O::State>>,
        nodes: &mut RoundNodes,
        meter: &mut Meter,
        scratch: &mut Scratch<O>,
    ) -> Result<(), OutOfMemory>
        requires observer { O.observing self.now.object.now self.now.operation.now.call ≡ true }
        requires overwriting { O.overwriting self.now.object.now ≡ true }
        requires early { self.now.operation.now.at < member.now.1.until }
        ensures grown { IsGrown nodes.old nodes.new }
        ensures found { (now : ℕ) → OnOk result (IsFindingWith (O.step self.now.object.now) (O.observing self.now.object.now) self.now.operation.now self.now.reply.now self.now.pending.now nodes.new now member.now out.old.items out.new.items) }
        ensures asked { (now : ℕ) → OnOk result ((o : OpenOf) (p : PlacedOf) (d : O.State × List (ℕ × ReplyOf)) → Contains (early_of member.now.1.until self.now.pending.now) o → PlacesIfUpdate (O.step self.now.object.now) (O.observing self.now.object.now) o (member.now.0.state, member.now.0.placed) p d
            → ((last : O.State) × O.step self.now.object.now d.0 self.now.operation.now.call last self.now.reply.now) → IsAskedLikeAhead (O.step self.now.object.now) (O.observing self.now.object.now) self.now.operation.now self.now.reply.now self.now.pending.now nodes.new now member.now out.new.items o p.reply d.0) }
        ensures tried { IsTriedAtMost (length self.now.pending.now * (length self.now.pending.now + 2)) meter.old meter.new }
    {
        let operations = operations_before(
            self.pending.as_slice(),
            member.path().until,
            scratch.early_list(),
        )?;
        let before = Pending::of(&operations);
        self.ask_all_beside(member, &before, out, nodes, meter, scratch)?;
        scratch.keep_early(operations);
        Ok(())
    }

    /// The same, given the early operations.
    fn ask_all_beside(
        &self,
        member: &Member<O::State>,
        before: &Pending,
        out: &mut Vec<Member<O::State>>,
        nodes: &mut RoundNodes,
        meter: &mut Meter,
        scratch: &mut Scratch<O>,
    ) -> Result<(), OutOfMemory>
        requires before { before.now ≡ early_of member.now.1.until self.now.pending.now }
        requires observer { O.observing self.now.object.now self.now.operation.now.call ≡ true }
        requires overwriting { O.overwriting self.now.object.now ≡ true }
        requires early { self.now.operation.now.at < member.now.1.until }
        ensures grown { IsGrown nodes.old nodes.new }
        ensures found { (now : ℕ) → OnOk result (IsFindingWith (O.step self.now.object.now) (O.observing self.now.object.now) self.now.operation.now self.now.reply.now self.now.pending.now nodes.new now member.now out.old.items out.new.items) }
        ensures asked { (now : ℕ) → OnOk result ((o : OpenOf) (p : PlacedOf) (d : O.State × List (ℕ × ReplyOf)) → Contains (early_of member.now.1.until self.now.pending.now) o → PlacesIfUpdate (O.step self.now.object.now) (O.observing self.now.object.now) o (member.now.0.state, member.now.0.placed) p d
            → ((last : O.State) × O.step self.now.object.now d.0 self.now.operation.now.call last self.now.reply.now) → IsAskedLikeAhead (O.step self.now.object.now) (O.observing self.now.object.now) self.now.operation.now self.now.reply.now self.now.pending.now nodes.new now member.now out.new.items o p.reply d.0) }
        ensures tried { IsTriedAtMost (length self.now.pending.now * (length self.now.pending.now + 2)) meter.old meter.new }
    {
        let mut next = scratch.next();
        self.updates(
            before,
            member.config(),
            &mut next,
            &mut scratch.steps,
            meter,
            &mut scratch.pool,
        )?;
        while let Some((config, placed)) = next.pop() {
            let update = Update {
                member,
                config,
                placed,
            };
            self.ask_one_ahead(update, before, out, nodes, meter, scratch)?;
        }
        scratch.keep_next(next);
        Ok(())
    }

    /// Puts in `out` what the observer makes of the member with its reply.
    #[inline(always)]
    fn return_observer(
        &self,
        member: &Member<O::State>,
        now: u32,
        out: &mut Vec<Member<O::State>>,
        nodes: &mut RoundNodes,
        meter: &mut Meter,
        scratch: &mut Scratch<O>,
    ) -> Result<(), OutOfMemory>
        requires observer { O.observing self.now.object.now self.now.operation.now.call ≡ true }
        requires overwriting { O.overwriting self.now.object.now ≡ true }
        ensures grown { IsGrown nodes.old nodes.new }
        ensures found { OnOk result (IsFindingWith (O.step self.now.object.now) (O.observing self.now.object.now) self.now.operation.now self.now.reply.now self.now.pending.now nodes.new now member.now out.old.items out.new.items) }
        ensures asked { OnOk result (((n : MemberOf O.State × PathOf) × Contains out.new.items n × IsAnsweredStill (O.step self.now.object.now) (O.observing self.now.object.now) self.now.operation.now self.now.reply.now self.now.pending.now nodes.new now member.now n) ⊎ AreAsked (O.step self.now.object.now) (O.observing self.now.object.now) self.now.operation.now self.now.reply.now self.now.pending.now nodes.new now member.now out.new.items) }
        ensures tried { IsTriedAtMost (2 * (length self.now.pending.now * (length self.now.pending.now + 2)) + 1) meter.old meter.new }
    {
        if let Some(round) = self.round_given(member, &mut scratch.steps, meter)? {
            return self.push_answered(member, round, out, nodes, &mut scratch.pool);
        }
        if is_early(self.operation, member.path().until) {
            self.ask_all_ahead(member, out, nodes, meter, scratch)?;
        }
        self.ask_all_behind(member, now, out, nodes, meter, scratch)
    }

    /// Puts in `out` what the completion makes of the member, in which the operation has no place.
    pub fn return_from(
        &self,
        member: &Member<O::State>,
        now: u32,
        out: &mut Vec<Member<O::State>>,
        nodes: &mut RoundNodes,
        meter: &mut Meter,
        scratch: &mut Scratch<O>,
    ) -> Result<(), OutOfMemory>
        requires { O.overwriting self.now.object.now ≡ true }
        ensures grown { IsGrown nodes.old nodes.new }
        ensures found { OnOk result (IsFindingWith (O.step self.now.object.now) (O.observing self.now.object.now) self.now.operation.now self.now.reply.now self.now.pending.now nodes.new now member.now out.old.items out.new.items) }
        ensures all { OnOk result (AreFoundWith (O.step self.now.object.now) (O.observing self.now.object.now) self.now.operation.now self.now.reply.now self.now.pending.now nodes.new now member.now out.new.items) }
        ensures tried { IsTriedAtMost (2 * ((length self.now.pending.now + 1) * (length self.now.pending.now + 1))) meter.old meter.new }
    {
        if self.object.observes(&self.operation.call) {
            return self.return_observer(member, now, out, nodes, meter, scratch);
        }
        self.return_update(member, now, out, nodes, meter, scratch)
    }
}
