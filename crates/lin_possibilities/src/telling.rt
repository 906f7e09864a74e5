//! What the members of a frontier show where the object is overwritten: what they are come to by few operations, and not all that they lead to.
ghost use Rattle.std.specs.Prelude.{◌≡◌, ◌&&◌, not, ℕ, All, Bool, Contains, List, IfOk, OnOk};
ghost use Rattle.lin_events.specs.declared.items.Item.{Item as ItemOf};
ghost use Rattle.lin_events.specs.declared.calls.Name.{Name as NameOf};
ghost use Rattle.lin_events.specs.declared.calls.Reply.{Reply as ReplyOf};
ghost use Rattle.lin_events.specs.declared.events.Event.{Event as EventOf};
ghost use Rattle.lin_events.specs.WellFormed.{IsWellFormed};
ghost use Rattle.lin_order.specs.declared.placed.Placed.{Placed as PlacedOf};
ghost use Rattle.lin_frontier.specs.declared.pending.Open.{Open as OpenOf};
ghost use Rattle.lin_frontier.specs.Frontiers.{IsPending};
ghost use Rattle.lin_frontier.specs.Nodes.{IsGrown};
ghost use Rattle.lin_frontier.specs.Placing.{PlacesOne};
ghost use Rattle.lin_members.specs.declared.members.Path.{Path as PathOf};
ghost use Rattle.lin_members.specs.Compressed.{IsSpelled};
ghost use Rattle.lin_members.specs.Listed.{config_of};
ghost use Rattle.lin_members.specs.Members.{Member as MemberOf};
ghost use Rattle.lin_possibilities.specs.inner.Telling.{AreAdded, ArePlaced, AreWatching, IsTaken, IsTold};

use lin_events::{Meter, OutOfMemory, Reply, well_formed_is_alternating};
use lin_frontier::{Config, Open, Spare, is_absent, open_of, place_if_absent};
use lin_members::{
    Member, RoundNodes, bare, bare_next, placed_at, push_member, rounds_spell_members,
    rounds_take_operations,
};
use lin_objects::SeqObject;
use lin_order::Placed;
use std::alloc::Global;

/// Going on from members by open operations.
#[derive(Drop)]
pub(crate) struct Telling<'a, O: SeqObject> {
    pub(crate) object: &'a O,
    pub(crate) alloc: Global,
    pub(crate) pending: &'a [Open],
}

impl<'a, O: SeqObject> Telling<'a, O> {
    /// Whether the operation observes, and hasn't crashed.
    fn watches(&self, operation: &Open) -> bool
        ensures { result ≡ (O.observing self.now.object.now operation.now.call && not operation.now.crashed) }
    {
        self.object.observes(&operation.call) && !operation.crashed
    }

    /// The operations that observe, and haven't crashed.
    fn observers(&self) -> Result<Vec<Open>, OutOfMemory>
        ensures { IfOk result (λ found. AreWatching (O.observing self.now.object.now) self.now.pending.now found.items) }
    {
        let mut found = Vec::new(self.alloc);
        for operation in self.pending {
            if !self.watches(operation) {
                continue;
            }
            found.push(*operation)?;
        }
        Ok(found)
    }

    /// What placing any of the operations makes of the configuration.
    fn placings(
        &self,
        operations: &[Open],
        config: &Config<O::State>,
        meter: &mut Meter,
    ) -> Result<Vec<(Config<O::State>, Placed)>, OutOfMemory>
        ensures sound { IfOk result (λ out. (d : O.State × List (ℕ × ReplyOf)) (p : PlacedOf) → Contains out.items (d, p)
            → (o : OpenOf) × Contains operations.now o × PlacesOne (O.step self.now.object.now) o config.now p d) }
        ensures complete { IfOk result (λ out. (o : OpenOf) (p : PlacedOf) (d : O.State × List (ℕ × ReplyOf)) → Contains operations.now o
            → PlacesOne (O.step self.now.object.now) o config.now p d → Contains out.items (d, p)) }
        ensures steps { meter.new.steps ≡ meter.old.steps }
        ensures scans { meter.new.scans ≡ meter.old.scans }
    {
        let mut out = Vec::new(self.alloc);
        let mut steps = Vec::new(self.alloc);
        let mut spare = Spare::new(self.alloc);
        for operation in operations {
            place_if_absent(
                self.object,
                self.alloc,
                config,
                operation,
                &mut out,
                &mut steps,
                meter,
                &mut spare,
            )?;
        }
        Ok(out)
    }

    /// Puts last what placing any of the operations makes of the member.
    fn place_all(
        &self,
        operations: &[Open],
        member: &Member<O::State>,
        out: &mut Vec<Member<O::State>>,
        nodes: &mut RoundNodes,
        meter: &mut Meter,
    ) -> Result<(), OutOfMemory>
        requires { (o : OpenOf) → Contains operations.now o → Contains self.now.pending.now o }
        ensures grown { IsGrown nodes.old nodes.new }
        ensures added { OnOk result (AreAdded (O.starts self.now.object.now) (O.step self.now.object.now) (O.observing self.now.object.now) self.now.pending.now member.now nodes.old nodes.new out.old.items out.new.items) }
        ensures placed { OnOk result (ArePlaced (O.step self.now.object.now) operations.now (config_of member.now) out.new.items) }
        ensures steps { meter.new.steps ≡ meter.old.steps }
        ensures scans { meter.new.scans ≡ meter.old.scans }
    {
        rounds_take_operations(self.object);
        rounds_spell_members(self.object);
        let mut rest = self.placings(operations, member.config(), meter)?;
        while let Some((config, placed)) = rest.pop() {
            let next = bare_next(self.alloc, config, member.path(), placed, None, nodes)?;
            push_member(out, next)?;
        }
        Ok(())
    }

    /// Puts last what taking the offer makes of the member, unless its operation is placed.
    fn take_one(
        &self,
        member: &Member<O::State>,
        offer: &(usize, (u64, Reply)),
        out: &mut Vec<Member<O::State>>,
        nodes: &mut RoundNodes,
    ) -> Result<(), OutOfMemory>
        requires { Contains member.now.0.offers offer.now }
        ensures grown { IsGrown nodes.old nodes.new }
        ensures added { OnOk result (AreAdded (O.starts self.now.object.now) (O.step self.now.object.now) (O.observing self.now.object.now) self.now.pending.now member.now nodes.old nodes.new out.old.items out.new.items) }
        ensures taken { OnOk result (IsTaken self.now.pending.now member.now out.new.items offer.now) }
    {
        rounds_take_operations(self.object);
        well_formed_is_alternating();
        let process = offer.1.0;
        if !is_absent(member.placed(), process) {
            return Ok(());
        }
        let Some(operation) = open_of(self.pending, process) else {
            return Ok(());
        };
        let placed = placed_at(self.alloc, operation.at, &offer.1.1)?;
        let state = self.object.copy_state(self.alloc, member.state())?;
        let reply = offer.1.1.copy(self.alloc)?;
        let config = member
            .config()
            .with_placed_anew(self.alloc, state, process, reply)?;
        let next = bare_next(
            self.alloc,
            config,
            member.path(),
            placed,
            Some(offer.0),
            nodes,
        )?;
        push_member(out, next)?;
        Ok(())
    }

    /// Puts last what taking each of its offers makes of the member.
    fn take_all(
        &self,
        member: &Member<O::State>,
        out: &mut Vec<Member<O::State>>,
        nodes: &mut RoundNodes,
    ) -> Result<(), OutOfMemory>
        ensures grown { IsGrown nodes.old nodes.new }
        ensures added { OnOk result (AreAdded (O.starts self.now.object.now) (O.step self.now.object.now) (O.observing self.now.object.now) self.now.pending.now member.now nodes.old nodes.new out.old.items out.new.items) }
        ensures taken { OnOk result (All (IsTaken self.now.pending.now member.now out.new.items) member.now.0.offers) }
    {
        let offers = member.offers().listed(self.alloc)?;
        for offer in offers.as_slice() {
            self.take_one(member, offer, out, nodes)?;
        }
        Ok(())
    }

    /// Puts last what placing any open operation, and behind it any of the observers, makes of the member.
    fn place_two(
        &self,
        observers: &[Open],
        member: &Member<O::State>,
        out: &mut Vec<Member<O::State>>,
        nodes: &mut RoundNodes,
        meter: &mut Meter,
    ) -> Result<(), OutOfMemory>
        requires { (o : OpenOf) → Contains observers.now o → Contains self.now.pending.now o }
        ensures grown { IsGrown nodes.old nodes.new }
        ensures added { OnOk result (AreAdded (O.starts self.now.object.now) (O.step self.now.object.now) (O.observing self.now.object.now) self.now.pending.now member.now nodes.old nodes.new out.old.items out.new.items) }
        ensures placed { OnOk result ((o : OpenOf) (p : PlacedOf) (d : O.State × List (ℕ × ReplyOf)) → Contains self.now.pending.now o
            → PlacesOne (O.step self.now.object.now) o (config_of member.now) p d → ArePlaced (O.step self.now.object.now) observers.now d out.new.items) }
        ensures steps { meter.new.steps ≡ meter.old.steps }
        ensures scans { meter.new.scans ≡ meter.old.scans }
    {
        let mut next = Vec::new(self.alloc);
        self.place_all(self.pending, member, &mut next, nodes, meter)?;
        while let Some(one) = next.pop() {
            self.place_all(observers, &one, out, nodes, meter)?;
        }
        Ok(())
    }

    /// Puts last all that the member shows, what is come to by fewer operations first.
    fn tell(
        &self,
        observers: &[Open],
        member: &Member<O::State>,
        out: &mut Vec<Member<O::State>>,
        nodes: &mut RoundNodes,
        meter: &mut Meter,
    ) -> Result<(), OutOfMemory>
        requires { AreWatching (O.observing self.now.object.now) self.now.pending.now observers.now }
        ensures grown { IsGrown nodes.old nodes.new }
        ensures added { OnOk result (AreAdded (O.starts self.now.object.now) (O.step self.now.object.now) (O.observing self.now.object.now) self.now.pending.now member.now nodes.old nodes.new out.old.items out.new.items) }
        ensures told { OnOk result (IsTold (O.step self.now.object.now) self.now.pending.now observers.now member.now out.new.items) }
        ensures steps { meter.new.steps ≡ meter.old.steps }
        ensures scans { meter.new.scans ≡ meter.old.scans }
    {
        rounds_spell_members(self.object);
        let own = bare(self.object, self.alloc, member)?;
        push_member(out, own)?;
        self.take_all(member, out, nodes)?;
        self.place_all(self.pending, member, out, nodes, meter)?;
        self.place_two(observers, member, out, nodes, meter)?;
        Ok(())
    }

    /// All that the members show.
    pub(crate) fn told(
        &self,
        members: &[Member<O::State>],
        nodes: &mut RoundNodes,
        meter: &mut Meter,
    ) -> Result<Vec<Member<O::State>>, OutOfMemory>
        ensures grown { OnOk result (IsGrown nodes.old nodes.new) }
        ensures told { IfOk result (λ out. (observers : List OpenOf) × AreWatching (O.observing self.now.object.now) self.now.pending.now observers
            × ((m : MemberOf O.State × PathOf) → Contains members.now m → IsTold (O.step self.now.object.now) self.now.pending.now observers m out.items)) }
        ensures spelled { IfOk result (λ out. (functions : ItemOf → NameOf → Bool) (h : List EventOf) → IsWellFormed functions h → IsPending h self.now.pending.now
            → ((m : MemberOf O.State × PathOf) → Contains members.now m → IsSpelled (O.starts self.now.object.now) (O.step self.now.object.now) (O.observing self.now.object.now) h nodes.old m)
            → (n : MemberOf O.State × PathOf) → Contains out.items n → IsSpelled (O.starts self.now.object.now) (O.step self.now.object.now) (O.observing self.now.object.now) h nodes.new n) }
        ensures steps { meter.new.steps ≡ meter.old.steps }
        ensures scans { meter.new.scans ≡ meter.old.scans }
    {
        let observers = self.observers()?;
        let mut out = Vec::new(self.alloc);
        for member in members {
            self.tell(&observers, member, &mut out, nodes, meter)?;
        }
        Ok(out)
    }
}
