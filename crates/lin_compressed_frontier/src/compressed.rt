//! Compressed frontiers: few members that stand for all configurations of a history that has one object.
ghost use Rattle.std.specs.Prelude.{◌≡◌, ◌⊎◌, ◌∷◌, ◌++◌, ◌+◌, ◌*◌, ◌<◌, ◌≤◌, [], ℕ, true, false, Bool, List, Some, length, map, remove, slice_get, Contains, IfOk, IfSome, IfNone, OnOk, OnErr, IsPermutation};
ghost use Rattle.lin_events.specs.declared.items.Item.{Item as ItemOf};
ghost use Rattle.lin_events.specs.declared.calls.Name.{Name as NameOf};
ghost use Rattle.lin_events.specs.declared.calls.Reply.{Reply as ReplyOf};
ghost use Rattle.lin_events.specs.declared.events.Body.{Body as BodyOf};
ghost use Rattle.lin_events.specs.declared.events.Event.{Event as EventOf};
ghost use Rattle.lin_events.specs.Meters.{ticked};
ghost use Rattle.lin_order.specs.ConfigurationLaws.{with_event};
ghost use Rattle.lin_order.specs.Linearizable.{IsLinearizableBy};
ghost use Rattle.lin_members.specs.declared.members.Path.{Path as PathOf};
ghost use Rattle.lin_members.specs.Asking.{alone_of, AreAlone, AreFoundWith, IsCompletedWith, IsNextWith, IsReturnWith};
ghost use Rattle.lin_members.specs.Compressed.{IsCompressed, IsCovering};
ghost use Rattle.lin_frontier.specs.declared.pending.Open.{Open as OpenOf};
ghost use Rattle.lin_frontier.specs.Frontiers.{IsNextEvent, IsPending};
ghost use Rattle.lin_members.specs.Members.{Member as MemberOf};
ghost use Rattle.lin_frontier.specs.Nodes.{IsGrown};
ghost use Rattle.lin_frontier.specs.Placing.{IsAbsent};
ghost use Rattle.lin_members.specs.Searching.{copy_of, rest_of, CompletesOpen, IsMade, IsMadeOne, IsNextOf, IsPruned, IsReturnOf};
ghost use Rattle.lin_members.specs.Settling.{IsThinned};
ghost use Rattle.lin_frontier.specs.Walks.{IsTriedAtMost};

use crate::completions::{Completion, push_if};
use crate::scratch::Scratch;
use crate::thinning::{pruned_several, thin_members};
use lin_events::{
    Body, Event, Meter, OutOfMemory, Reply, ends_are_unique, well_formed_is_alternating,
};
use lin_frontier::{
    Arrival, Open, Pending, append_operations, is_absent, is_placed, open_of, take_in,
};
use lin_members::{
    Member, Pool, RoundNodes, copied, dominated_can_go, members_after_events, members_after_ok,
    members_are_exact, overwritten_after_events, overwritten_after_observer,
    overwritten_after_update, overwritten_can_go, push_member, rounds_after_events,
    rounds_allow_overwritten, rounds_go_ahead, rounds_spell_members, rounds_take_operations,
    start_is_complete, taken_out,
};
use lin_objects::SeqObject;
use lin_order::legal_orders_end;
use std::alloc::Global;
use std::hash::Hash;
use std::marker::Model;

/// Members that lead to all configurations after some events of an object, up to crashed operations.
#[derive(Drop)]
pub struct Compressed<O: SeqObject> {
    pub(crate) members: Vec<Member<O::State>>,
}

impl<O: SeqObject> Model for Compressed<O> {
    ghost use Rattle.std.specs.Prelude.{List};
    ghost use Rattle.lin_members.specs.declared.members.Path.{Path as PathOf};
    ghost use Rattle.lin_members.specs.Members.{Member as MemberOf};

    ghost Value = { List (MemberOf O.State × PathOf) };

    ghost view = { λ c. c.members.items };
}

/// How a frontier goes on, and how far.
#[derive(Clone, Copy, Drop)]
pub(crate) struct Search {
    /// It goes on without overwritten updates: an ok is searched for.
    pub alone: bool,
    /// A search may come to so many members.
    pub limit: usize,
}

/// What one more event makes of a compressed frontier, where a search may come to so many members.
#[derive(Drop)]
pub(crate) enum Found<O: SeqObject> {
    /// The members after it.
    Next(Compressed<O>),
    /// There is none: the events have no legal order.
    Empty,
    /// A search came to more members than its limit.
    TooMany,
}

/// Copies of all the members.
#[inline(never)]
fn all_copied<O: SeqObject>(
    object: &O,
    alloc: Global,
    pending: &Pending,
    members: &[Member<O::State>],
    pool: &mut Pool,
) -> Result<Vec<Member<O::State>>, OutOfMemory>
    ensures { IfOk result (λ out. IsMade (λ m. Unit {0}) (copy_of (O.observing object.now) pending.now) members.now out.items) }
{
    let mut out = Vec::with_capacity(alloc, members.len())?;
    for member in members {
        push_member(&mut out, copied(object, alloc, pending, member, pool)?)?;
    }
    Ok(out)
}

/// Puts a copy of the member last, if the operation of the process has no place in it.
fn push_absent<O: SeqObject>(
    object: &O,
    alloc: Global,
    pending: &Pending,
    member: &Member<O::State>,
    process: u64,
    out: &mut Vec<Member<O::State>>,
    pool: &mut Pool,
) -> Result<(), OutOfMemory>
    ensures { OnOk result (IsMadeOne (IsAbsent process member.now.0.placed) (copy_of (O.observing object.now) pending.now member.now) out.old.items out.new.items) }
{
    if !is_absent(member.placed(), process) {
        return Ok(());
    }
    let copy = copied(object, alloc, pending, member, pool)?;
    push_member(out, copy)?;
    Ok(())
}

/// Copies of the members in which the operation of the process has no place.
#[inline(never)]
fn all_absent<O: SeqObject>(
    object: &O,
    alloc: Global,
    pending: &Pending,
    members: &[Member<O::State>],
    process: u64,
    pool: &mut Pool,
) -> Result<Vec<Member<O::State>>, OutOfMemory>
    ensures { IfOk result (λ out. IsMade (λ m. IsAbsent process m.0.placed) (copy_of (O.observing object.now) pending.now) members.now out.items) }
{
    let mut out = Vec::new(alloc);
    for member in members {
        push_absent(object, alloc, pending, member, process, &mut out, pool)?;
    }
    Ok(out)
}

/// Up to so many members are searched in the order in which they stand.
const FEW: usize = 8;

/// Puts those that placed fewest operations first, so that a search comes early to what dominates.
fn put_fewest_first<S: Eq + Hash + Drop>(members: &mut Vec<&Member<S>>)
    ensures { IsPermutation members.old.items members.new.items }
{
    if members.len() > FEW {
        members.sort_unstable_by_key(|member| member.placed().len());
    }
}

/// The members in which the operation of the process has no place.
fn absent_ones<'m, S: Eq + Hash + Drop>(
    alloc: Global,
    members: &'m [Member<S>],
    process: u64,
) -> Result<Vec<&'m Member<S>>, OutOfMemory>
    ensures { IfOk result (λ out. IsMade (λ m. IsAbsent process m.0.placed) (λ m. m) members.now (map (λ m. m.now) out.items)) }
{
    let mut out = Vec::with_capacity(alloc, members.len())?;
    for member in members {
        push_if(&mut out, member, is_absent(member.placed(), process))?;
    }
    put_fewest_first(&mut out);
    Ok(out)
}

/// Puts the member without the operation of the process last.
#[inline(never)]
fn push_rest<O: SeqObject>(
    object: &O,
    alloc: Global,
    pending: &Pending,
    member: &Member<O::State>,
    process: u64,
    out: &mut Vec<Member<O::State>>,
    pool: &mut Pool,
) -> Result<(), OutOfMemory>
    ensures { OnOk result (out.new.items ≡ out.old.items ++ rest_of (O.observing object.now) pending.now process member.now ∷ []) }
{
    let rest = taken_out(object, alloc, pending, member, process, pool)?;
    push_member(out, rest)?;
    Ok(())
}

/// Puts the member without the operation last, if it is placed in it with the reply. Mostly it has no place.
#[inline(always)]
fn push_taken_out<O: SeqObject>(
    object: &O,
    alloc: Global,
    pending: &Pending,
    member: &Member<O::State>,
    ended: (u64, &Reply),
    out: &mut Vec<Member<O::State>>,
    pool: &mut Pool,
) -> Result<(), OutOfMemory>
    ensures { OnOk result (IsMadeOne (Contains member.now.0.placed (ended.entry.0, ended.entry.1.now)) (rest_of (O.observing object.now) pending.now ended.entry.0 member.now) out.old.items out.new.items) }
{
    if !is_placed(member.placed(), ended.0, ended.1) {
        return Ok(());
    }
    push_rest(object, alloc, pending, member, ended.0, out, pool)?;
    Ok(())
}

/// The members that placed the operation with the reply, without it, put last.
#[inline(always)]
pub(crate) fn push_all_taken_out<O: SeqObject>(
    object: &O,
    alloc: Global,
    pending: &Pending,
    members: &[Member<O::State>],
    ended: (u64, &Reply),
    out: &mut Vec<Member<O::State>>,
    pool: &mut Pool,
) -> Result<(), OutOfMemory>
    ensures { OnOk result ((made : List (MemberOf O.State × PathOf)) × IsMade (λ m. Contains m.0.placed (ended.entry.0, ended.entry.1.now)) (rest_of (O.observing object.now) pending.now ended.entry.0) members.now made
        × (out.new.items ≡ out.old.items ++ made)) }
{
    for member in members {
        push_taken_out(object, alloc, pending, member, ended, out, pool)?;
    }
    Ok(())
}

/// The members after the operation completed with the reply, or `None` where more than the limit come up.
fn after_ok<O: SeqObject>(
    completion: &Completion<O>,
    members: &[Member<O::State>],
    limit: usize,
    nodes: &mut RoundNodes,
    meter: &mut Meter,
    scratch: &mut Scratch<O>,
) -> Result<Option<Vec<Member<O::State>>>, OutOfMemory>
    ensures grown { IsGrown nodes.old nodes.new }
    ensures next { IfOk result (λ found. IfSome found (λ out. IsReturnOf (O.step completion.now.object.now) (O.observing completion.now.object.now) completion.now.operation.now completion.now.reply.now completion.now.pending.now nodes.new members.now out.items)) }
    ensures tried { IsTriedAtMost (limit * (2 * length completion.now.pending.now + 1)) meter.old meter.new }
{
    let process = completion.operation.process;
    let starts = absent_ones(completion.alloc, members, process)?;
    // What is found, and then the members that placed the operation.
    let room = members.len().saturating_add(3);
    let Some(mut found) = completion.found_from(&starts, room, limit, nodes, meter, scratch)? else {
        return Ok(None);
    };
    push_all_taken_out(
        completion.object,
        completion.alloc,
        completion.pending,
        members,
        (process, completion.reply),
        &mut found,
        &mut scratch.pool,
    )?;
    Ok(Some(found))
}

/// Puts in `found` what the completion makes of the members in which its operation has no place.
fn return_all<O: SeqObject>(
    completion: &Completion<O>,
    members: &[Member<O::State>],
    now: u32,
    found: &mut Vec<Member<O::State>>,
    nodes: &mut RoundNodes,
    meter: &mut Meter,
    scratch: &mut Scratch<O>,
) -> Result<(), OutOfMemory>
    requires overwriting { O.overwriting completion.now.object.now ≡ true }
    requires empty { found.old.items ≡ [] }
    ensures grown { IsGrown nodes.old nodes.new }
    ensures sound { OnOk result ((n : MemberOf O.State × PathOf) → Contains found.new.items n → (m : MemberOf O.State × PathOf) × Contains members.now m × IsAbsent completion.now.operation.now.process m.0.placed
        × IsCompletedWith (O.step completion.now.object.now) (O.observing completion.now.object.now) completion.now.operation.now completion.now.reply.now completion.now.pending.now nodes.new now m n) }
    ensures all { OnOk result ((m : MemberOf O.State × PathOf) → Contains members.now m → IsAbsent completion.now.operation.now.process m.0.placed
        → AreFoundWith (O.step completion.now.object.now) (O.observing completion.now.object.now) completion.now.operation.now completion.now.reply.now completion.now.pending.now nodes.new now m found.new.items) }
    ensures tried { IsTriedAtMost (length members.now * (2 * ((length completion.now.pending.now + 1) * (length completion.now.pending.now + 1)))) meter.old meter.new }
{
    for member in members {
        if is_absent(member.placed(), completion.operation.process) {
            completion.return_from(member, now, found, nodes, meter, scratch)?;
        }
    }
    Ok(())
}

/// The members after the operation of an object that is overwritten completed with the reply, at the position `now`.
fn after_overwriting_ok<O: SeqObject>(
    completion: &Completion<O>,
    members: &[Member<O::State>],
    now: usize,
    nodes: &mut RoundNodes,
    meter: &mut Meter,
    scratch: &mut Scratch<O>,
) -> Result<Vec<Member<O::State>>, OutOfMemory>
    requires { O.overwriting completion.now.object.now ≡ true }
    ensures grown { IsGrown nodes.old nodes.new }
    ensures returned { IfOk result (λ out. IsReturnWith (O.step completion.now.object.now) (O.observing completion.now.object.now) completion.now.operation.now completion.now.reply.now completion.now.pending.now nodes.new now members.now out.items) }
    ensures tried { IsTriedAtMost (length members.now * (2 * ((length completion.now.pending.now + 1) * (length completion.now.pending.now + 1)))) meter.old meter.new }
{
    let Ok(at) = u32::try_from(now) else {
        return Err(OutOfMemory);
    };
    let mut found = scratch.found(members.len().saturating_add(3))?;
    return_all(completion, members, at, &mut found, nodes, meter, scratch)?;
    push_all_taken_out(
        completion.object,
        completion.alloc,
        completion.pending,
        members,
        (completion.operation.process, completion.reply),
        &mut found,
        &mut scratch.pool,
    )?;
    Ok(found)
}

/// The members, for which no update is early enough to be overwritten.
pub(crate) fn alone_all<S: Eq + Hash + Drop>(members: Vec<Member<S>>) -> Vec<Member<S>>
    ensures { result.items ≡ map alone_of members.items }
{
    let mut out = members;
    for member in out.iter_mut() {
        member.stand_alone();
    }
    out
}

/// The members of those that were found that are kept: one stands for all that are alike where none has overwritten updates.
fn keep_members<O: SeqObject>(
    object: &O,
    alloc: Global,
    pending: &Pending,
    found: Vec<Member<O::State>>,
    alone: bool,
) -> Result<Vec<Member<O::State>>, OutOfMemory>
    ensures alone { IfOk result (λ out. alone ≡ true → IsThinned (O.observing object.now) pending.now (map alone_of found.items) out.items) }
    ensures others { IfOk result (λ out. alone ≡ false → IsPruned (O.observing object.now) pending.now found.items out.items) }
{
    if alone {
        return thin_members(object, alloc, pending, alone_all(found));
    }
    pruned_several(object, alloc, pending, found)
}

/// The members after the event, or `None` where a search comes to more than the limit. The operations that are pending
/// are those that are open after it.
#[inline(always)]
fn next_members<O: SeqObject>(
    arrival: &Arrival<O>,
    members: &[Member<O::State>],
    pending: &Pending,
    search: Search,
    nodes: &mut RoundNodes,
    meter: &mut Meter,
    scratch: &mut Scratch<O>,
) -> Result<Option<Vec<Member<O::State>>>, OutOfMemory>
    requires { search.alone ≡ false → O.overwriting arrival.now.object.now ≡ true }
    ensures grown { IsGrown nodes.old nodes.new }
    ensures alone { IfOk result (λ found. IfSome found (λ out. search.alone ≡ true → CompletesOpen arrival.now.event.now arrival.now.pending.now
        → IsNextOf (O.step arrival.now.object.now) (O.observing arrival.now.object.now) arrival.now.event.now.process arrival.now.event.now.body arrival.now.pending.now pending.now nodes.new members.now out.items)) }
    ensures next { IfOk result (λ found. IfSome found (λ out. search.alone ≡ false → CompletesOpen arrival.now.event.now arrival.now.pending.now
        → IsNextWith (O.step arrival.now.object.now) (O.observing arrival.now.object.now) arrival.now.event.now.process arrival.now.event.now.body arrival.now.pending.now pending.now nodes.new arrival.now.at members.now out.items)) }
    ensures oks { IfOk result (λ found. IfNone found ((search.alone ≡ true) × (name : NameOf) × (reply : ReplyOf) × (arrival.now.event.now.body ≡ BodyOf.Ok name reply))) }
    ensures tried { IsTriedAtMost (search.limit * (2 * length pending.now + 1) + length members.now * (2 * ((length pending.now + 1) * (length pending.now + 1)))) meter.old meter.new }
    ensures searched { search.alone ≡ true → IsTriedAtMost (search.limit * (2 * length pending.now + 1)) meter.old meter.new }
{
    let Search { alone, limit } = search;
    match &arrival.event.body {
        Body::Invoke(_) => Ok(Some(all_copied(
            arrival.object,
            arrival.alloc,
            pending,
            members,
            &mut scratch.pool,
        )?)),
        Body::Info(_) => Ok(Some(all_copied(
            arrival.object,
            arrival.alloc,
            pending,
            members,
            &mut scratch.pool,
        )?)),
        Body::Fail(_) => Ok(Some(all_absent(
            arrival.object,
            arrival.alloc,
            pending,
            members,
            arrival.event.process,
            &mut scratch.pool,
        )?)),
        Body::Ok(_, reply) => {
            let Some(operation) = open_of(arrival.pending, arrival.event.process) else {
                return Ok(Some(Vec::new(arrival.alloc)));
            };
            let completion = Completion {
                object: arrival.object,
                alloc: arrival.alloc,
                operation,
                reply,
                pending,
            };
            if alone {
                return after_ok(&completion, members, limit, nodes, meter, scratch);
            }
            let found = after_overwriting_ok(
                &completion,
                members,
                arrival.at,
                nodes,
                meter,
                scratch,
            )?;
            Ok(Some(found))
        }
    }
}

/// The place of the operation of the process, if it has one that is open.
fn place_of(pending: &[Open], process: u64) -> Option<usize>
    ensures { IfSome result (λ place. (o : OpenOf) × (slice_get pending.now place ≡ Some o) × (o.process ≡ process)) }
{
    let mut place = 0;
    while let Some(operation) = pending.get(place) {
        if operation.process == process {
            return Some(place);
        }
        place += 1;
    }
    None
}

/// The place of the operation that the event ends, so that it is open no longer.
fn ended_by(pending: &[Open], event: &Event) -> Option<usize>
    ensures { IfSome result (λ place. ((o : OpenOf) × (slice_get pending.now place ≡ Some o) × (o.process ≡ event.now.process))
        × (((name : NameOf) × (reply : ReplyOf) × (event.now.body ≡ BodyOf.Ok name reply)) ⊎ ((name : NameOf) × (event.now.body ≡ BodyOf.Fail name)))) }
{
    match &event.body {
        Body::Ok(_, _) | Body::Fail(_) => place_of(pending, event.process),
        Body::Invoke(_) | Body::Info(_) => None,
    }
}

/// The operations but for the one at the place, in the empty list.
fn all_but(list: Vec<Open>, operations: &[Open], place: usize) -> Result<Vec<Open>, OutOfMemory>
    requires empty { list.items ≡ [] }
    requires inside { place < length operations.now }
    ensures { IfOk result (λ out. out.items ≡ remove operations.now place) }
{
    let mut out = list;
    append_operations(&mut out, &operations[..place])?;
    append_operations(&mut out, &operations[place + 1..])?;
    Ok(out)
}

/// The operations that are open after the event, in the list. One that ended isn't copied first.
#[inline(always)]
pub(crate) fn open_after(
    list: Vec<Open>,
    before: &[Open],
    at: usize,
    event: &Event,
) -> Result<Vec<Open>, OutOfMemory>
    requires { list.items ≡ [] }
    ensures pending { IfOk result (λ after. (functions : ItemOf → NameOf → Bool) (h : List EventOf) → IsNextEvent functions h before.now at event.now → IsPending (with_event h event.now) after.items) }
    ensures len { IfOk result (λ after. length after.items ≤ length before.now + 1) }
{
    well_formed_is_alternating();
    ends_are_unique();
    if let Some(place) = ended_by(before, event) {
        return all_but(list, before, place);
    }
    let mut after = list;
    append_operations(&mut after, before)?;
    take_in(&mut after, at, event)?;
    Ok(after)
}

/// The operations but for the one at the place, where that is the first or the last one.
fn part_without(operations: &[Open], place: usize) -> Option<&[Open]>
    requires { place < length operations.now }
    ensures { IfSome result (λ part. part.now ≡ remove operations.now place) }
{
    if place == 0 {
        return Some(&operations[1..]);
    }
    if place + 1 == operations.len() {
        return Some(&operations[..place]);
    }
    None
}

/// The operations that are open after the event, where they are a part of those before it, so that none is copied.
#[inline(always)]
fn part_after<'a>(before: &'a [Open], event: &Event) -> Option<&'a [Open]>
    ensures pending { IfSome result (λ after. (functions : ItemOf → NameOf → Bool) (h : List EventOf) (at : ℕ) → IsNextEvent functions h before.now at event.now → IsPending (with_event h event.now) after.now) }
    ensures len { IfSome result (λ after. length after.now ≤ length before.now + 1) }
{
    well_formed_is_alternating();
    ends_are_unique();
    match ended_by(before, event) {
        Some(place) => part_without(before, place),
        None => None,
    }
}

/// The operations that are open after the event, in the list, unless they are a part of those before it.
#[inline(always)]
fn list_after(
    part: Option<&[Open]>,
    list: Vec<Open>,
    before: &[Open],
    at: usize,
    event: &Event,
) -> Result<Vec<Open>, OutOfMemory>
    requires { list.items ≡ [] }
    ensures pending { IfOk result (λ after. IfNone part.entry ((functions : ItemOf → NameOf → Bool) (h : List EventOf) → IsNextEvent functions h before.now at event.now → IsPending (with_event h event.now) after.items)) }
    ensures len { IfOk result (λ after. IfNone part.entry (length after.items ≤ length before.now + 1)) }
{
    match part {
        Some(_) => Ok(list),
        None => open_after(list, before, at, event),
    }
}

/// The part, or else the list.
#[inline(always)]
fn part_or_list<'a>(part: Option<&'a [Open]>, list: &'a [Open]) -> &'a [Open]
    ensures some { IfSome part.entry (λ p. result.now ≡ p.now) }
    ensures none { IfNone part.entry (result.now ≡ list.now) }
{
    match part {
        Some(part) => part,
        None => list,
    }
}

/// The members after the event, none of which another one is above; `None` where a search comes to more than the limit.
fn advance_members<O: SeqObject>(
    arrival: &Arrival<O>,
    members: &[Member<O::State>],
    search: Search,
    nodes: &mut RoundNodes,
    meter: &mut Meter,
    scratch: &mut Scratch<O>,
) -> Result<Option<Vec<Member<O::State>>>, OutOfMemory>
    requires fits { search.alone ≡ true → AreAlone (O.overwriting arrival.now.object.now) members.now }
    requires goes { search.alone ≡ false → O.overwriting arrival.now.object.now ≡ true }
    ensures grown { IsGrown nodes.old nodes.new }
    ensures next { IfOk result (λ found. IfSome found (λ out. (functions : ItemOf → NameOf → Bool) (h : List EventOf) → IsNextEvent functions h arrival.now.pending.now arrival.now.at arrival.now.event.now
        → IsCovering (O.starts arrival.now.object.now) (O.step arrival.now.object.now) (O.observing arrival.now.object.now) (O.overwriting arrival.now.object.now) h members.now nodes.old
        → IsCompressed (O.starts arrival.now.object.now) (O.step arrival.now.object.now) (O.observing arrival.now.object.now) (O.overwriting arrival.now.object.now) (with_event h arrival.now.event.now) out.items nodes.new)) }
    ensures oks { IfOk result (λ found. IfNone found ((search.alone ≡ true) × (name : NameOf) × (reply : ReplyOf) × (arrival.now.event.now.body ≡ BodyOf.Ok name reply))) }
    ensures tried { IsTriedAtMost (search.limit * (2 * length arrival.now.pending.now + 3) + length members.now * (2 * ((length arrival.now.pending.now + 2) * (length arrival.now.pending.now + 2)))) meter.old meter.new }
    ensures searched { search.alone ≡ true → IsTriedAtMost (search.limit * (2 * length arrival.now.pending.now + 3)) meter.old meter.new }
{
    well_formed_is_alternating();
    ends_are_unique();
    dominated_can_go(arrival.object);
    members_after_events(arrival.object);
    members_after_ok(arrival.object);
    rounds_spell_members(arrival.object);
    rounds_take_operations(arrival.object);
    rounds_after_events(arrival.object);
    overwritten_can_go(arrival.object);
    overwritten_after_events(arrival.object);
    overwritten_after_update(arrival.object);
    overwritten_after_observer(arrival.object);
    rounds_go_ahead(arrival.object);
    rounds_allow_overwritten::<O>();
    let part = part_after(arrival.pending, arrival.event);
    let list = list_after(
        part,
        scratch.open(),
        arrival.pending,
        arrival.at,
        arrival.event,
    )?;
    let after = part_or_list(part, &list);
    let pending = Pending::of(after);
    let Some(found) = next_members(arrival, members, &pending, search, nodes, meter, scratch)?
    else {
        return Ok(None);
    };
    let kept = keep_members(arrival.object, arrival.alloc, &pending, found, search.alone)?;
    scratch.keep_open(list);
    Ok(Some(kept))
}

impl<O: SeqObject> Compressed<O> {
    /// How many members there are.
    pub fn len(&self) -> usize
        ensures { result ≡ length self.now }
    {
        self.members.len()
    }

    /// Its members.
    pub(crate) fn into_members(self) -> Vec<Member<O::State>> {
        self.members
    }

    /// The frontier before any event: the start, with nothing placed.
    pub fn start(
        alloc: Global,
        object: &O,
        nodes: &RoundNodes,
    ) -> Result<Compressed<O>, OutOfMemory>
        ensures one { IfOk result (λ frontier. length frontier ≡ 1) }
        ensures exact { IfOk result (λ frontier. IsCompressed (O.starts object.now) (O.step object.now) (O.observing object.now) (O.overwriting object.now) [] frontier nodes.now) }
    {
        start_is_complete(object);
        overwritten_can_go(object);
        rounds_spell_members(object);
        let _ = nodes.len();
        let mut members = Vec::with_capacity(alloc, 1)?;
        push_member(&mut members, Member::start(object.start(alloc)))?;
        Ok(Compressed { members })
    }

    /// The frontier after one more event, searched up to a limit.
    pub(crate) fn advance_up_to(
        &self,
        arrival: &Arrival<O>,
        search: Search,
        nodes: &mut RoundNodes,
        meter: &mut Meter,
        scratch: &mut Scratch<O>,
    ) -> Result<Found<O>, OutOfMemory>
        requires fits { search.alone ≡ true → AreAlone (O.overwriting arrival.now.object.now) self.now }
        requires goes { search.alone ≡ false → O.overwriting arrival.now.object.now ≡ true }
        // Where the frontier is one of a history, with these operations open, the answer speaks of that history with the event behind
        // it, which has to be well-formed.
        ensures next { IfOk result (λ step. (next : List (MemberOf O.State × PathOf)) → step ≡ Found.Next next → (functions : ItemOf → NameOf → Bool) (h : List EventOf)
            → IsNextEvent functions h arrival.now.pending.now arrival.now.at arrival.now.event.now → IsCompressed (O.starts arrival.now.object.now) (O.step arrival.now.object.now) (O.observing arrival.now.object.now) (O.overwriting arrival.now.object.now) h self.now nodes.old
            → IsCompressed (O.starts arrival.now.object.now) (O.step arrival.now.object.now) (O.observing arrival.now.object.now) (O.overwriting arrival.now.object.now) (with_event h arrival.now.event.now) next nodes.new) }
        ensures some { IfOk result (λ step. (next : List (MemberOf O.State × PathOf)) → step ≡ Found.Next next → 0 < length next) }
        ensures empty { IfOk result (λ step. step ≡ Found.Empty → (functions : ItemOf → NameOf → Bool) (h : List EventOf)
            → IsNextEvent functions h arrival.now.pending.now arrival.now.at arrival.now.event.now → IsCompressed (O.starts arrival.now.object.now) (O.step arrival.now.object.now) (O.observing arrival.now.object.now) (O.overwriting arrival.now.object.now) h self.now nodes.old
            → IsLinearizableBy (O.starts arrival.now.object.now) (O.step arrival.now.object.now) (with_event h arrival.now.event.now) → ⊥) }
        // Only an ok is searched for.
        ensures oks { IfOk result (λ step. step ≡ Found.TooMany → (search.alone ≡ true) × (name : NameOf) × (reply : ReplyOf) × (arrival.now.event.now.body ≡ BodyOf.Ok name reply)) }
        // Nodes are only added; and none is where there is no next frontier.
        ensures grown { IsGrown nodes.old nodes.new }
        ensures kept { IfOk result (λ step. (step ≡ Found.Empty) ⊎ (step ≡ Found.TooMany) → nodes.new ≡ nodes.old) }
        ensures refused { OnErr result (nodes.new ≡ nodes.old) }
        ensures steps { meter.new.steps ≡ ticked meter.old.steps 1 }
        ensures tries { meter.new.tries ≤ meter.old.tries + (search.limit * (2 * length arrival.now.pending.now + 3) + length self.now * (2 * ((length arrival.now.pending.now + 2) * (length arrival.now.pending.now + 2)))) }
        ensures searched { search.alone ≡ true → meter.new.tries ≤ meter.old.tries + search.limit * (2 * length arrival.now.pending.now + 3) }
        ensures scans { meter.new.scans ≡ meter.old.scans }
    {
        legal_orders_end(arrival.object);
        members_are_exact(arrival.object);
        meter.tick_step();
        let count = nodes.len();
        match advance_members(arrival, &self.members, search, nodes, meter, scratch) {
            Ok(Some(members)) => {
                if members.is_empty() {
                    nodes.cut(count);
                    return Ok(Found::Empty);
                }
                Ok(Found::Next(Compressed { members }))
            }
            Ok(None) => {
                nodes.cut(count);
                Ok(Found::TooMany)
            }
            Err(_) => {
                nodes.cut(count);
                Err(OutOfMemory)
            }
        }
    }
}
