//! What is kept of members that are alike but for crashed operations that have the same call.
ghost use Rattle.std.specs.Prelude.{◌≡◌, Some, Contains, IfOk, slice_get};
ghost use Rattle.lin_members.specs.declared.members.Path.{Path as PathOf};
ghost use Rattle.lin_members.specs.Members.{Member as MemberOf};
ghost use Rattle.lin_members.specs.Searching.{IsPruned};
ghost use Rattle.lin_members.specs.Settling.{IsSettled, IsShadow, IsThinned};

use crate::exchanges::{are_some_alike, settle};
use lin_events::OutOfMemory;
use lin_frontier::{Config, Pending};
use lin_members::{Member, Path, pruned_many, push_member, same};
use lin_objects::SeqObject;
use std::alloc::Global;

/// The member with each crashed operation in the place of the first like it that isn't placed, and with this node.
fn settle_member<O: SeqObject>(
    object: &O,
    alloc: Global,
    pending: &Pending,
    member: &Member<O::State>,
    node: u32,
) -> Result<Member<O::State>, OutOfMemory>
    ensures settled { IfOk result (λ k. IsSettled pending.now member.now.0 k.0) }
    ensures node { IfOk result (λ k. k.1.node ≡ node) }
{
    let state = object.copy_state(alloc, member.state())?;
    let placed = settle(alloc, pending.as_slice(), member.config().pairs())?;
    let offers = member.offers().copy()?;
    Ok(Member {
        config: Config::of(state, placed),
        offers,
        path: Path {
            node,
            round: 0,
            until: member.path().until,
        },
    })
}

/// Each member so, with its place as its node.
#[inline(never)]
fn shadows<O: SeqObject>(
    object: &O,
    alloc: Global,
    pending: &Pending,
    members: &[Member<O::State>],
) -> Result<Vec<Member<O::State>>, OutOfMemory>
    ensures sound { IfOk result (λ out. (x : MemberOf O.State × PathOf) → Contains out.items x → IsShadow pending.now members.now x) }
    ensures complete { IfOk result (λ out. (m : MemberOf O.State × PathOf) → Contains members.now m → (x : MemberOf O.State × PathOf) × Contains out.items x × (slice_get members.now x.1.node ≡ Some m)) }
{
    let mut out = Vec::new(alloc);
    let mut at = 0;
    while let Some(member) = members.get(at) {
        let Ok(node) = u32::try_from(at) else {
            return Err(OutOfMemory);
        };
        let shadow = settle_member(object, alloc, pending, member, node)?;
        push_member(&mut out, shadow)?;
        at += 1;
    }
    Ok(out)
}

/// The members at the places that the nodes of the others name.
#[inline(never)]
fn pick_members<O: SeqObject>(
    object: &O,
    alloc: Global,
    members: &[Member<O::State>],
    others: &[Member<O::State>],
) -> Result<Vec<Member<O::State>>, OutOfMemory>
    ensures sound { IfOk result (λ out. (m : MemberOf O.State × PathOf) → Contains out.items m → Contains members.now m) }
    ensures complete { IfOk result (λ out. (x m : MemberOf O.State × PathOf) → Contains others.now x → slice_get members.now x.1.node ≡ Some m → Contains out.items m) }
{
    let mut out = Vec::new(alloc);
    for other in others {
        if let Some(member) = members.get(other.path().node as usize) {
            let copy = same(object, alloc, member)?;
            push_member(&mut out, copy)?;
        }
    }
    Ok(out)
}

/// The members of which no other one is above any. One alone isn't compared.
#[inline(always)]
pub(crate) fn pruned_several<O: SeqObject>(
    object: &O,
    alloc: Global,
    pending: &Pending,
    members: Vec<Member<O::State>>,
) -> Result<Vec<Member<O::State>>, OutOfMemory>
    ensures { IfOk result (λ out. IsPruned (O.observing object.now) pending.now members.items out.items) }
{
    if members.len() <= 1 {
        return Ok(members);
    }
    pruned_many(object, alloc, pending, members)
}

/// The members of which no other one dominates any. Of those that are alike but for crashed operations that have the same
/// call, one stands for all.
pub fn thin_members<O: SeqObject>(
    object: &O,
    alloc: Global,
    pending: &Pending,
    members: Vec<Member<O::State>>,
) -> Result<Vec<Member<O::State>>, OutOfMemory>
    ensures { IfOk result (λ out. IsThinned (O.observing object.now) pending.now members.items out.items) }
{
    let first = pruned_several(object, alloc, pending, members)?;
    if !are_some_alike(pending.as_slice()) {
        return Ok(first);
    }
    let others = shadows(object, alloc, pending, &first)?;
    let kept = pruned_several(object, alloc, pending, others)?;
    let fewer = pick_members(object, alloc, &first, &kept)?;
    pruned_several(object, alloc, pending, fewer)
}
