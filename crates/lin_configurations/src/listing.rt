//! All configurations that members lead to, each as a member of its own with nothing on offer.
ghost use Rattle.std.specs.Prelude.{◌≡◌, ◌≤◌, ◌*◌, ◌∷◌, [], length, false, All, Bool, Contains, List, IfOk, IfSome, IfNone, OnOk};
ghost use Rattle.lin_events.specs.declared.items.Item.{Item as ItemOf};
ghost use Rattle.lin_events.specs.declared.calls.Name.{Name as NameOf};
ghost use Rattle.lin_events.specs.declared.events.Event.{Event as EventOf};
ghost use Rattle.lin_events.specs.WellFormed.{IsWellFormed};
ghost use Rattle.lin_members.specs.declared.members.Path.{Path as PathOf};
ghost use Rattle.lin_members.specs.Compressed.{IsCovering, IsSpelled};
ghost use Rattle.lin_frontier.specs.Frontiers.{IsPending};
ghost use Rattle.lin_order.specs.Configurations.{IsOver};
ghost use Rattle.lin_members.specs.Listed.{with_offers, AreDifferent, AreWorkedOff, IsExtended, IsListingOf, IsMerged, ListingCoversLaw};
ghost use Rattle.lin_members.specs.Members.{Member as MemberOf};
ghost use Rattle.lin_frontier.specs.Nodes.{IsGrown};
ghost use Rattle.lin_frontier.specs.Walks.{IsTriedAtMost};

use crate::expansion::Expansion;
use crate::gathered::Gathered;
use lin_events::{Meter, OutOfMemory, ends_are_unique, well_formed_is_alternating};
use lin_frontier::Pending;
use lin_members::{
    Member, Offers, RoundNodes, bare, members_cover_configurations, rounds_spell_members,
};
use lin_objects::SeqObject;
use std::alloc::Global;

/// The member alone, with nothing on offer.
fn gather_alone<O: SeqObject>(
    object: &O,
    alloc: Global,
    pending: &Pending,
    member: &Member<O::State>,
) -> Result<Gathered<O>, OutOfMemory>
    ensures { IfOk result (λ one. one ≡ with_offers [] member.now ∷ []) }
{
    let mut one = Gathered::new(alloc);
    one.push(object, alloc, pending, bare(object, alloc, member)?)?;
    Ok(one)
}

/// The member with each choice among what is on offer to it, or `None` where these are more than the budget.
fn spread<O: SeqObject>(
    object: &O,
    alloc: Global,
    pending: &Pending,
    member: &Member<O::State>,
    budget: usize,
    nodes: &mut RoundNodes,
    meter: &mut Meter,
) -> Result<Option<Gathered<O>>, OutOfMemory>
    ensures grown { IsGrown nodes.old nodes.new }
    ensures extended { IfOk result (λ found. IfSome found (λ out. IsExtended (O.starts object.now) (O.step object.now) (O.observing object.now) pending.now member.now.0.offers nodes.old nodes.new (with_offers [] member.now ∷ []) out)) }
    ensures worked_off { IfOk result (λ found. IfSome found (λ out. AreWorkedOff (O.step object.now) (O.observing object.now) pending.now member.now.0.offers false out)) }
    ensures over { IfOk result (λ found. IfNone found ((functions : ItemOf → NameOf → Bool) (h : List EventOf) → IsWellFormed functions h → IsPending h pending.now
        → IsSpelled (O.starts object.now) (O.step object.now) (O.observing object.now) h nodes.old member.now → IsOver (O.starts object.now) (O.step object.now) h budget)) }
    ensures tried { IsTriedAtMost 0 meter.old meter.new }
{
    let starts = gather_alone(object, alloc, pending, member)?;
    let choices = Expansion {
        object,
        alloc,
        pending,
        offers: member.offers(),
        places: false,
    };
    let found = choices.reach(starts, budget, nodes, meter)?;
    Ok(found)
}

/// Puts those of the others last of which no member holds the configuration.
fn merge<O: SeqObject>(
    object: &O,
    alloc: Global,
    pending: &Pending,
    others: Gathered<O>,
    members: &mut Gathered<O>,
) -> Result<(), OutOfMemory>
    requires { All (λ m. m.0.offers ≡ []) others }
    ensures { OnOk result (IsMerged (O.observing object.now) pending.now others members.old members.new) }
{
    let mut rest = others.into_members();
    while let Some(member) = rest.pop() {
        if members.holds(pending, member.config()) {
            continue;
        }
        members.push(object, alloc, pending, member)?;
    }
    Ok(())
}

/// Each configuration that the members lead to, but for covered ones, or `None` where these are more than the budget.
pub fn listed<O: SeqObject>(
    object: &O,
    alloc: Global,
    pending: &Pending,
    members: &[Member<O::State>],
    budget: usize,
    nodes: &mut RoundNodes,
    meter: &mut Meter,
) -> Result<Option<Gathered<O>>, OutOfMemory>
    ensures grown { IsGrown nodes.old nodes.new }
    ensures listing { IfOk result (λ found. IfSome found (λ out. (functions : ItemOf → NameOf → Bool) (h : List EventOf) → IsWellFormed functions h → IsPending h pending.now
        → IsCovering (O.starts object.now) (O.step object.now) (O.observing object.now) false h members.now nodes.old
        → IsListingOf (O.starts object.now) (O.step object.now) (O.observing object.now) h out nodes.new)) }
    ensures bare { IfOk result (λ found. IfSome found (λ out. All (λ m. m.0.offers ≡ []) out)) }
    ensures different { IfOk result (λ found. IfSome found (λ out. AreDifferent out)) }
    ensures small { IfOk result (λ found. IfSome found (λ out. length out ≤ budget)) }
    ensures over { IfOk result (λ found. IfNone found ((functions : ItemOf → NameOf → Bool) (h : List EventOf) → IsWellFormed functions h → IsPending h pending.now
        → ((m : MemberOf O.State × PathOf) → Contains members.now m → IsSpelled (O.starts object.now) (O.step object.now) (O.observing object.now) h nodes.old m)
        → IsOver (O.starts object.now) (O.step object.now) h budget)) }
    ensures tried { IsTriedAtMost (budget * length pending.now) meter.old meter.new }
{
    well_formed_is_alternating();
    ends_are_unique();
    members_cover_configurations(object);
    rounds_spell_members(object);
    let mut all = Gathered::new(alloc);
    for member in members {
        let Some(found) = spread(object, alloc, pending, member, budget, nodes, meter)? else {
            return Ok(None);
        };
        merge(object, alloc, pending, found, &mut all)?;
        if all.len() > budget {
            return Ok(None);
        }
    }
    let none = Offers::none();
    let placing = Expansion {
        object,
        alloc,
        pending,
        offers: &none,
        places: true,
    };
    let found = placing.reach(all, budget, nodes, meter)?;
    Ok(found)
}

/// Members that were listed lead to all configurations: each to its own.
pub fn listings_cover<O: SeqObject>(object: &O)
    ensures { ListingCoversLaw (O.starts object.now) (O.step object.now) }
{
    members_cover_configurations(object);
}
