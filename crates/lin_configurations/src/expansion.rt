//! All configurations that members lead to, each as a member of its own with nothing on offer.
ghost use Rattle.std.specs.Prelude.{◌≡◌, ◌≤◌, ◌*◌, ◌+◌, ◌∷◌, ◌++◌, [], ℕ, true, All, Bool, Contains, List, length, IfOk, IfSome, IfNone, OnOk};
ghost use Rattle.lin_events.specs.declared.items.Item.{Item as ItemOf};
ghost use Rattle.lin_events.specs.declared.calls.Name.{Name as NameOf};
ghost use Rattle.lin_events.specs.declared.calls.Reply.{Reply as ReplyOf};
ghost use Rattle.lin_events.specs.declared.events.Event.{Event as EventOf};
ghost use Rattle.lin_events.specs.WellFormed.{IsWellFormed};
ghost use Rattle.lin_order.specs.declared.placed.Placed.{Placed as PlacedOf};
ghost use Rattle.lin_members.specs.declared.members.Path.{Path as PathOf};
ghost use Rattle.lin_frontier.specs.declared.pending.Open.{Open as OpenOf};
ghost use Rattle.lin_members.specs.Compressed.{IsSpelled};
ghost use Rattle.lin_frontier.specs.Frontiers.{IsPending};
ghost use Rattle.lin_order.specs.Configurations.{IsOver};
ghost use Rattle.lin_members.specs.Listed.{member_at, with_offers, AreDifferent, AreWorkedOff, IsExtended, IsPlacedAt, IsTakenAt, IsTakenIn, placing_tries};
ghost use Rattle.lin_members.specs.Members.{Member as MemberOf};
ghost use Rattle.lin_frontier.specs.Nodes.{IsGrown};
ghost use Rattle.lin_frontier.specs.Placing.{PlacesOne};
ghost use Rattle.lin_frontier.specs.Walks.{IsTriedAtMost};

use crate::gathered::Gathered;
use lin_events::{Meter, OutOfMemory, Reply, well_formed_is_alternating};
use lin_frontier::{Config, Pending, Spare, copy_config, is_absent, open_of, place_if_absent};
use lin_members::{
    Offers, Path, RoundNodes, bare_next, placed_at, rounds_spell_members, rounds_take_operations,
};
use lin_objects::SeqObject;
use lin_order::Placed;
use std::alloc::Global;

/// Going on from members with nothing on offer, by taking these offers and, where wanted, by placing open operations.
#[derive(Drop)]
pub struct Expansion<'a, O: SeqObject> {
    pub object: &'a O,
    pub alloc: Global,
    pub pending: &'a Pending<'a>,
    pub offers: &'a Offers,
    /// Whether open operations are placed.
    pub places: bool,
}

impl<'a, O: SeqObject> Expansion<'a, O> {
    /// Takes the configuration in, unless one that was found stands in for it.
    fn visit(
        &self,
        path: Path,
        config: Config<O::State>,
        placed: Placed,
        spot: Option<usize>,
        found: &mut Gathered<O>,
        nodes: &mut RoundNodes,
    ) -> Result<(), OutOfMemory>
        ensures grown { IsGrown nodes.old nodes.new }
        ensures taken { OnOk result (IsTakenIn (O.observing self.now.object.now) self.now.pending.now config placed spot path nodes.new found.old found.new) }
    {
        if found.holds(self.pending, &config) {
            return Ok(());
        }
        let member = bare_next(self.alloc, config, path, placed, spot, nodes)?;
        found.push(self.object, self.alloc, self.pending, member)?;
        Ok(())
    }

    /// Takes in what taking the offer makes of the configuration, which was found.
    fn take_one(
        &self,
        config: &Config<O::State>,
        path: Path,
        offer: &(usize, (u64, Reply)),
        found: &mut Gathered<O>,
        nodes: &mut RoundNodes,
    ) -> Result<(), OutOfMemory>
        requires there { Contains found.now (member_at config.now [], path) }
        requires offered { Contains self.now.offers.now offer.now }
        ensures grown { IsGrown nodes.old nodes.new }
        ensures extended { OnOk result (IsExtended (O.starts self.now.object.now) (O.step self.now.object.now) (O.observing self.now.object.now) self.now.pending.now self.now.offers.now nodes.old nodes.new found.old found.new) }
        ensures taken { OnOk result (IsTakenAt (O.observing self.now.object.now) self.now.pending.now found.new config.now offer.now) }
    {
        rounds_take_operations(self.object);
        well_formed_is_alternating();
        let process = offer.1.0;
        if !is_absent(config.placed(), process) {
            return Ok(());
        }
        let Some(operation) = open_of(self.pending.as_slice(), process) else {
            return Ok(());
        };
        let placed = placed_at(self.alloc, operation.at, &offer.1.1)?;
        let state = self.object.copy_state(self.alloc, config.state())?;
        let reply = offer.1.1.copy(self.alloc)?;
        let next = config.with_placed_anew(self.alloc, state, process, reply)?;
        self.visit(path, next, placed, Some(offer.0), found, nodes)?;
        Ok(())
    }

    /// Takes in what taking each of the offers makes of the configuration, which was found.
    fn take_all(
        &self,
        config: &Config<O::State>,
        path: Path,
        found: &mut Gathered<O>,
        nodes: &mut RoundNodes,
    ) -> Result<(), OutOfMemory>
        requires there { Contains found.now (member_at config.now [], path) }
        ensures grown { IsGrown nodes.old nodes.new }
        ensures extended { OnOk result (IsExtended (O.starts self.now.object.now) (O.step self.now.object.now) (O.observing self.now.object.now) self.now.pending.now self.now.offers.now nodes.old nodes.new found.old found.new) }
        ensures taken { OnOk result (All (IsTakenAt (O.observing self.now.object.now) self.now.pending.now found.new config.now) self.now.offers.now) }
    {
        let offers = self.offers.listed(self.alloc)?;
        for offer in offers.as_slice() {
            self.take_one(config, path, offer, found, nodes)?;
        }
        Ok(())
    }

    /// What placing any open operation makes of the configuration.
    fn placings(
        &self,
        config: &Config<O::State>,
        meter: &mut Meter,
    ) -> Result<Vec<(Config<O::State>, Placed)>, OutOfMemory>
        ensures sound { IfOk result (λ out. (d : O.State × List (ℕ × ReplyOf)) (p : PlacedOf) → Contains out.items (d, p)
            → (o : OpenOf) × Contains self.now.pending.now o × PlacesOne (O.step self.now.object.now) o config.now p d) }
        ensures complete { IfOk result (λ out. (o : OpenOf) (p : PlacedOf) (d : O.State × List (ℕ × ReplyOf)) → Contains self.now.pending.now o
            → PlacesOne (O.step self.now.object.now) o config.now p d → Contains out.items (d, p)) }
        ensures tried { IsTriedAtMost (length self.now.pending.now) meter.old meter.new }
    {
        let mut out = Vec::new(self.alloc);
        let mut steps = Vec::new(self.alloc);
        let mut spare = Spare::new(self.alloc);
        for operation in self.pending.as_slice() {
            place_if_absent(
                self.object,
                self.alloc,
                config,
                operation,
                &mut out,
                &mut steps,
                meter,
                &mut spare,
            )?;
        }
        Ok(out)
    }

    /// Takes in what placing any open operation makes of the configuration, which was found.
    fn place_all(
        &self,
        config: &Config<O::State>,
        path: Path,
        found: &mut Gathered<O>,
        nodes: &mut RoundNodes,
        meter: &mut Meter,
    ) -> Result<(), OutOfMemory>
        requires there { Contains found.now (member_at config.now [], path) }
        ensures grown { IsGrown nodes.old nodes.new }
        ensures extended { OnOk result (IsExtended (O.starts self.now.object.now) (O.step self.now.object.now) (O.observing self.now.object.now) self.now.pending.now self.now.offers.now nodes.old nodes.new found.old found.new) }
        ensures placed { OnOk result (IsPlacedAt (O.step self.now.object.now) (O.observing self.now.object.now) self.now.pending.now found.new config.now) }
        ensures tried { IsTriedAtMost (length self.now.pending.now) meter.old meter.new }
    {
        rounds_take_operations(self.object);
        let mut out = self.placings(config, meter)?;
        while let Some((next, placed)) = out.pop() {
            self.visit(path, next, placed, None, found, nodes)?;
        }
        Ok(())
    }

    /// Takes in all that is come to from the configuration, which was found.
    fn work_off(
        &self,
        config: &Config<O::State>,
        path: Path,
        found: &mut Gathered<O>,
        nodes: &mut RoundNodes,
        meter: &mut Meter,
    ) -> Result<(), OutOfMemory>
        requires there { Contains found.now (member_at config.now [], path) }
        ensures grown { IsGrown nodes.old nodes.new }
        ensures extended { OnOk result (IsExtended (O.starts self.now.object.now) (O.step self.now.object.now) (O.observing self.now.object.now) self.now.pending.now self.now.offers.now nodes.old nodes.new found.old found.new) }
        ensures taken { OnOk result (All (IsTakenAt (O.observing self.now.object.now) self.now.pending.now found.new config.now) self.now.offers.now) }
        ensures placed { OnOk result (self.now.places ≡ true → IsPlacedAt (O.step self.now.object.now) (O.observing self.now.object.now) self.now.pending.now found.new config.now) }
        ensures tried { IsTriedAtMost (placing_tries self.now.places self.now.pending.now) meter.old meter.new }
    {
        self.take_all(config, path, found, nodes)?;
        if self.places {
            self.place_all(config, path, found, nodes, meter)?;
        }
        Ok(())
    }

    /// All that is come to from the starts, or `None` where that is more than the budget.
    ///
    /// The list grows while it is worked off from its first member to its last.
    pub fn reach(
        &self,
        starts: Gathered<O>,
        budget: usize,
        nodes: &mut RoundNodes,
        meter: &mut Meter,
    ) -> Result<Option<Gathered<O>>, OutOfMemory>
        requires { All (λ m. m.0.offers ≡ []) starts }
        ensures grown { IsGrown nodes.old nodes.new }
        ensures extended { IfOk result (λ found. IfSome found (λ out. IsExtended (O.starts self.now.object.now) (O.step self.now.object.now) (O.observing self.now.object.now) self.now.pending.now self.now.offers.now nodes.old nodes.new starts out)) }
        ensures worked_off { IfOk result (λ found. IfSome found (λ out. AreWorkedOff (O.step self.now.object.now) (O.observing self.now.object.now) self.now.pending.now self.now.offers.now self.now.places out)) }
        ensures small { IfOk result (λ found. IfSome found (λ out. length out ≤ budget)) }
        ensures over { IfOk result (λ found. IfNone found ((functions : ItemOf → NameOf → Bool) (h : List EventOf) → IsWellFormed functions h → IsPending h self.now.pending.now
            → All (λ m. IsSpelled (O.starts self.now.object.now) (O.step self.now.object.now) (O.observing self.now.object.now) h nodes.old (with_offers self.now.offers.now m)) starts
            → AreDifferent starts → IsOver (O.starts self.now.object.now) (O.step self.now.object.now) h budget)) }
        ensures tried { IsTriedAtMost (budget * placing_tries self.now.places self.now.pending.now) meter.old meter.new }
    {
        rounds_spell_members(self.object);
        let mut found = starts;
        if found.len() > budget {
            return Ok(None);
        }
        let mut at = 0;
        while let Some(member) = found.get(at) {
            let path = member.path();
            let config = copy_config(self.object, self.alloc, member.config())?;
            self.work_off(&config, path, &mut found, nodes, meter)?;
            if found.len() > budget {
                return Ok(None);
            }
            at += 1;
        }
        Ok(Some(found))
    }
}
