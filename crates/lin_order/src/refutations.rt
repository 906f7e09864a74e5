//! Refutations: values that show that a history of one object has no legal order.
ghost use Rattle.std.specs.Prelude.{◌↔◌, ◌≡◌, ◌<◌, ◌+◌, All, Contains, IfOk, IsTrue, [], length, map, take};
ghost use Rattle.lin_events.specs.declared.calls.Reply.{Reply as ReplyOf};
ghost use Rattle.lin_events.specs.declared.events.Event.{Event as EventOf};
ghost use Rattle.lin_events.specs.Operations.{IsEvent};
ghost use Rattle.lin_objects.specs.Steps.{start};
ghost use Rattle.lin_order.specs.inner.Checking.{AreOpen, AreSame, Follows, HoldsLeftOf, HoldsPlacing, HoldsSteps, HoldsWith, IsCarried, IsFramed, IsOpenAt, IsReturning};
ghost use Rattle.lin_order.specs.Configurations.{IsRising};
ghost use Rattle.lin_order.specs.RefutationLaws.{ExactSetsRefute, RefutationsExcludeOrders};
ghost use Rattle.lin_order.specs.Refutations.{AreRising, HoldsLeft, IsClosed, IsRefutation, lists_of, sets_of};
ghost use Rattle.lin_order.specs.Tables.{IsNextTable};

use crate::operations::{end_of, ends_of};
use crate::ref_configs::{RefConfig, is_absent, is_placed, is_rising, with_pair, without_pair};
use lin_events::{
    Body, Call, Event, OutOfMemory, Reply, beginnings_are_well_formed, well_formed_is_alternating,
};
use lin_objects::{Any, Kind, SeqObject, State};
use std::alloc::Global;
use std::collections::HashSet;

/// Sets of configurations, one for each prefix of a history, the shortest first.
#[derive(Drop)]
pub struct Refutation {
    pub sets: Vec<Vec<RefConfig>>,
}

/// The members of the set, to be looked up.
fn members_of(alloc: Global, set: &[RefConfig]) -> Result<HashSet<RefConfig>, OutOfMemory>
    ensures { IfOk result (λ members. AreSame members.keys set.now) }
{
    let mut members = HashSet::new(alloc);
    for config in set {
        let copy = config.copy(alloc)?;
        members.insert(copy)?;
    }
    Ok(members)
}

/// Whether the configuration is a member.
fn holds(members: &HashSet<RefConfig>, config: &RefConfig) -> bool
    ensures { IsTrue result ↔ Contains members.now.keys config.now }
{
    members.contains(config)
}

/// Whether the state, with the pairs and one more, is a member.
fn holds_with(
    alloc: Global,
    members: &HashSet<RefConfig>,
    placed: &[(u64, Reply)],
    process: u64,
    outcome: (State, Reply),
) -> Result<bool, OutOfMemory>
    requires rising { IsRising placed.now }
    requires absent { (other : ReplyOf) → Contains placed.now (process, other) → ⊥ }
    ensures { IfOk result (λ is. IsTrue is ↔ HoldsWith members.now.keys placed.now process outcome) }
{
    let (next, reply) = outcome;
    let more = with_pair(alloc, placed, process, reply)?;
    let config = RefConfig::new(next, more);
    Ok(holds(members, &config))
}

/// Whether all that comes of the state and the pairs by a step of an operation of the process is among the members.
fn holds_steps(
    alloc: Global,
    kind: Kind,
    members: &HashSet<RefConfig>,
    state: &State,
    placed: &[(u64, Reply)],
    process: u64,
    call: &Call,
) -> Result<bool, OutOfMemory>
    requires { IsRising placed.now }
    ensures { IfOk result (λ is. IsTrue is ↔ HoldsSteps kind members.now.keys (state.now, placed.now) process call.now) }
{
    if !is_absent(placed, process) {
        return Ok(true);
    }
    let object = Any { kind };
    let mut outcomes = Vec::new(alloc);
    object.outcomes(alloc, state, call, &mut outcomes)?;
    while let Some(outcome) = outcomes.pop() {
        let held = holds_with(alloc, members, placed, process, outcome)?;
        if !held {
            return Ok(false);
        }
    }
    Ok(true)
}

/// Whether all that comes of the configuration by placing the operation at the position is among the members.
fn holds_placing(
    alloc: Global,
    kind: Kind,
    members: &HashSet<RefConfig>,
    config: &RefConfig,
    events: &[Event],
    at: usize,
) -> Result<bool, OutOfMemory>
    requires rising { IsRising config.now.1 }
    requires within { at < length events.now }
    ensures { IfOk result (λ is. IsTrue is ↔ HoldsPlacing kind events.now members.now.keys config.now at) }
{
    let event = &events[at];
    let (state, placed) = (config.state(), config.placed());
    match &event.body {
        Body::Invoke(call) => {
            holds_steps(alloc, kind, members, state, placed, event.process, call)
        }
        _ => Ok(true),
    }
}

/// Whether all that comes of the configuration by placing one of the operations is among the members.
fn holds_placings(
    alloc: Global,
    kind: Kind,
    members: &HashSet<RefConfig>,
    config: &RefConfig,
    events: &[Event],
    pending: &[usize],
) -> Result<bool, OutOfMemory>
    requires rising { IsRising config.now.1 }
    requires within { All (λ at. at < length events.now) pending.now }
    ensures { IfOk result (λ is. IsTrue is ↔ All (HoldsPlacing kind events.now members.now.keys config.now) pending.now) }
{
    for at in pending {
        let held = holds_placing(alloc, kind, members, config, events, *at)?;
        if !held {
            return Ok(false);
        }
    }
    Ok(true)
}

/// Whether the set, whose members these are, is closed for the first `n` events, in which these operations are open.
fn is_closed(
    alloc: Global,
    kind: Kind,
    members: &HashSet<RefConfig>,
    set: &[RefConfig],
    events: &[Event],
    n: usize,
    pending: &[usize],
) -> Result<bool, OutOfMemory>
    requires same { AreSame members.now.keys set.now }
    requires rising { AreRising set.now }
    requires opened { AreOpen (take n events.now) pending.now }
    ensures { IfOk result (λ is. IsTrue is ↔ IsClosed kind (take n events.now) set.now) }
{
    for config in set {
        let held = holds_placings(alloc, kind, members, config, events, pending)?;
        if !held {
            return Ok(false);
        }
    }
    Ok(true)
}

/// Whether what the event leaves of the configuration, if anything, is a member.
fn holds_left(
    alloc: Global,
    members: &HashSet<RefConfig>,
    event: &Event,
    config: &RefConfig,
) -> Result<bool, OutOfMemory>
    requires { IsRising config.now.1 }
    ensures { IfOk result (λ is. IsTrue is ↔ HoldsLeftOf event.now members.now.keys config.now) }
{
    let placed = config.placed();
    match &event.body {
        Body::Invoke(_) | Body::Info(_) => Ok(holds(members, config)),
        Body::Ok(_, reply) => {
            if !is_placed(placed, event.process, reply) {
                return Ok(true);
            }
            let state = config.state().copy(alloc)?;
            let fewer = without_pair(alloc, placed, event.process)?;
            let left = RefConfig::new(state, fewer);
            Ok(holds(members, &left))
        }
        Body::Fail(_) => {
            if !is_absent(placed, event.process) {
                return Ok(true);
            }
            Ok(holds(members, config))
        }
    }
}

/// Whether all that the event leaves of the set is among the members.
fn holds_all_left(
    alloc: Global,
    members: &HashSet<RefConfig>,
    event: &Event,
    set: &[RefConfig],
) -> Result<bool, OutOfMemory>
    requires { AreRising set.now }
    ensures { IfOk result (λ is. IsTrue is ↔ HoldsLeft event.now set.now members.now.keys) }
{
    for config in set {
        let held = holds_left(alloc, members, event, config)?;
        if !held {
            return Ok(false);
        }
    }
    Ok(true)
}

/// Whether the operation at the position is open in the first `n` events.
fn is_open_at(events: &[Event], ends: &[Option<usize>], at: usize, n: usize) -> bool
    requires table { IsNextTable events.now ends.now }
    requires within { at < length events.now }
    requires before { at < n }
    ensures { IsTrue result ↔ IsOpenAt (take n events.now) at }
{
    let Body::Invoke(_) = &events[at].body else {
        return false;
    };
    let Some((end, ending)) = end_of(events, ends, at) else {
        return true;
    };
    if n <= end {
        return true;
    }
    !is_return(&ending.body)
}

/// Whether this ends an operation so that it is no longer open: an ok or a fail.
fn is_return(body: &Body) -> bool
    ensures { IsTrue result ↔ IsReturning body.now }
{
    matches!(body, Body::Ok(_, _) | Body::Fail(_))
}

/// The open operations of the first `n + 1` events, given those of the first `n`.
fn open_after(
    alloc: Global,
    events: &[Event],
    ends: &[Option<usize>],
    pending: &[usize],
    n: usize,
) -> Result<Vec<usize>, OutOfMemory>
    requires table { IsNextTable events.now ends.now }
    requires within { n < length events.now }
    requires opened { AreOpen (take n events.now) pending.now }
    ensures { IfOk result (λ now. AreOpen (take (n + 1) events.now) now.items) }
{
    let mut now = Vec::new(alloc);
    for at in pending {
        if is_open_at(events, ends, *at, n + 1) {
            now.push(*at)?;
        }
    }
    if is_open_at(events, ends, n, n + 1) {
        now.push(n)?;
    }
    Ok(now)
}

/// Whether the one set may follow the other at the event with this position, after which these operations are open.
fn follows(
    alloc: Global,
    kind: Kind,
    events: &[Event],
    at: usize,
    pending: &[usize],
    before: &[RefConfig],
    after: &[RefConfig],
) -> Result<bool, OutOfMemory>
    requires within { at < length events.now }
    requires rising { AreRising before.now }
    requires rises { AreRising after.now }
    requires opened { AreOpen (take (at + 1) events.now) pending.now }
    ensures { IfOk result (λ is. IsTrue is ↔ ((event : EventOf) → IsEvent events.now at event → Follows kind (take (at + 1) events.now) event before.now after.now)) }
{
    let members = members_of(alloc, after)?;
    let event = &events[at];
    let held = holds_all_left(alloc, &members, event, before)?;
    if !held {
        return Ok(false);
    }
    is_closed(alloc, kind, &members, after, events, at + 1, pending)
}

/// Whether each set follows the one before it.
fn is_carried(
    alloc: Global,
    events: &[Event],
    kind: Kind,
    sets: &[Vec<RefConfig>],
) -> Result<bool, OutOfMemory>
    requires count { length sets.now ≡ length events.now + 1 }
    requires rising { All (λ set. AreRising set.items) sets.now }
    ensures { IfOk result (λ is. IsTrue is ↔ IsCarried events.now kind (lists_of sets.now)) }
{
    let ends = ends_of(alloc, events)?;
    let mut pending = Vec::new(alloc);
    for at in 0..events.len() {
        pending = open_after(alloc, events, &ends, pending.as_slice(), at)?;
        let before = sets[at].as_slice();
        let after = sets[at + 1].as_slice();
        let follows = follows(alloc, kind, events, at, pending.as_slice(), before, after)?;
        if !follows {
            return Ok(false);
        }
    }
    Ok(true)
}

/// Whether the processes rise in each member.
fn are_rising(set: &[RefConfig]) -> bool
    ensures { IsTrue result ↔ AreRising set.now }
{
    for config in set {
        if !is_rising(config.placed()) {
            return false;
        }
    }
    true
}

/// Whether the processes rise in each member of each set.
fn all_rise(sets: &[Vec<RefConfig>]) -> bool
    ensures { IsTrue result ↔ All (λ set. AreRising set.items) sets.now }
{
    for set in sets {
        if !are_rising(set.as_slice()) {
            return false;
        }
    }
    true
}

/// Whether the configuration stands in the set.
fn has(set: &[RefConfig], wanted: &RefConfig) -> bool
    ensures { IsTrue result ↔ Contains set.now wanted.now }
{
    for config in set {
        if *config == *wanted {
            return true;
        }
    }
    false
}

/// Whether the start, with nothing placed, stands in the set.
fn begins(alloc: Global, kind: Kind, set: &[RefConfig]) -> bool
    ensures { IsTrue result ↔ Contains set.now (start kind, []) }
{
    let object = Any { kind };
    let start = RefConfig::new(object.start(alloc), Vec::new(alloc));
    has(set, &start)
}

/// Whether there is a set for each prefix, each rises, the first has the start, and the last is empty.
fn is_framed(alloc: Global, events: &[Event], kind: Kind, sets: &[Vec<RefConfig>]) -> bool
    ensures { IsTrue result ↔ IsFramed events.now kind (lists_of sets.now) }
{
    if sets.len() != events.len() + 1 {
        return false;
    }
    if !begins(alloc, kind, sets[0].as_slice()) {
        return false;
    }
    if !sets[events.len()].is_empty() {
        return false;
    }
    all_rise(sets)
}

/// Whether the sets show that the history of one object of the kind has no legal order (Herlihy and Wing 1990, sections 2
/// and 3).
///
/// They do when there is one more set than events, the processes rise in each member, the first set has the start with
/// nothing placed, each set is closed under placing one more operation that is open in its prefix, each set holds what the
/// event before it leaves of the set before it, and the last set is empty. This is so for every list of events, well-formed
/// or not. Members that stand twice, or that no order ends in, do no harm.
///
/// Takes time and memory linear in the events and the sets, and for each member and each operation that is open a step of
/// the object and a look-up. `OutOfMemory` is answered only where memory was refused.
pub fn check_refutation(
    alloc: Global,
    events: &[Event],
    kind: Kind,
    refutation: &Refutation,
) -> Result<bool, OutOfMemory>
    ensures { IfOk result (λ shows. IsTrue shows ↔ IsRefutation events.now kind (sets_of refutation.now)) }
{
    let sets = refutation.sets.as_slice();
    if !is_framed(alloc, events, kind, sets) {
        return Ok(false);
    }
    is_carried(alloc, events, kind, sets)
}

/// A well-formed history that has a refutation has no legal order.
pub fn refutations_exclude_orders()
    ensures { RefutationsExcludeOrders }
{
    well_formed_is_alternating();
}

/// The configurations of the prefixes of a well-formed history that has no legal order, all of them, are a refutation.
pub fn exact_sets_refute()
    ensures { ExactSetsRefute }
{
    well_formed_is_alternating();
    beginnings_are_well_formed();
}
