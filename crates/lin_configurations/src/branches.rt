//! How many configurations there are at least, told without making any: each of some open operations can be placed or not.
ghost use Rattle.std.specs.Prelude.{◌≡◌, ◌≢◌, ◌<◌, ℕ, true, false, AllPairs, All, Contains, IsTrue, ◌↔◌, Bool, List, Option, IfOk, IfSome};
ghost use Rattle.lin_events.specs.declared.items.Item.{Item as ItemOf};
ghost use Rattle.lin_events.specs.declared.calls.Name.{Name as NameOf};
ghost use Rattle.lin_events.specs.declared.events.Event.{Event as EventOf};
ghost use Rattle.lin_events.specs.WellFormed.{IsWellFormed};
ghost use Rattle.lin_order.specs.declared.placed.Placed.{Placed as PlacedOf};
ghost use Rattle.lin_configurations.specs.inner.Branches.{power, ArePicked, IsFree, IsUntold};
ghost use Rattle.lin_members.specs.Compressed.{IsSpelled};
ghost use Rattle.lin_frontier.specs.Frontiers.{IsPending};
ghost use Rattle.lin_order.specs.Configurations.{IsOver};

use lin_events::{Call, OutOfMemory, Reply, well_formed_is_alternating};
use lin_frontier::{Open, is_absent};
use lin_members::{Member, rounds_spell_members};
use lin_objects::SeqObject;
use lin_order::placing_is_legal;
use std::alloc::Global;

/// Whether the operation's call is total, and it has no place yet.
fn is_free<O: SeqObject>(object: &O, placed: &[(u64, Reply)], operation: &Open) -> bool
    ensures { IsTrue result → IsFree (O.total object.now) placed.now operation.now }
{
    object.is_total(&operation.call) && is_absent(placed, operation.process)
}

/// The open operations that can be placed wherever the object comes to.
fn free<O: SeqObject>(
    object: &O,
    alloc: Global,
    pending: &[Open],
    placed: &[(u64, Reply)],
) -> Result<Vec<Open>, OutOfMemory>
    ensures { IfOk result (λ out. ArePicked (IsFree (O.total object.now) placed.now) pending.now out.items) }
{
    let mut out = Vec::new(alloc);
    for operation in pending {
        if is_free(object, placed, operation) {
            out.push(*operation)?;
        }
    }
    Ok(out)
}

/// Whether replies to the call show one of the operations' calls.
fn is_reader<O: SeqObject>(object: &O, operations: &[Open], call: &Call) -> bool {
    for other in operations {
        if object.is_shown_by(&other.call, call) {
            return true;
        }
    }
    false
}

/// One of the operations that replies to it show of the others whether they were taken.
fn reader<'a, O: SeqObject>(object: &O, operations: &'a [Open]) -> Option<&'a Open>
    ensures { IfSome result (λ o. Contains operations.now o.now) }
{
    for operation in operations {
        if is_reader(object, operations, &operation.call) {
            return Some(operation);
        }
    }
    None
}

/// Whether the operation has the call.
fn is_of(operation: &Open, call: &Call) -> bool
    ensures { IsTrue result ↔ (operation.now.call ≡ call.now) }
{
    operation.call == *call
}

/// Those of the operations that have the call.
fn with_call(alloc: Global, operations: &[Open], call: &Call) -> Result<Vec<Open>, OutOfMemory>
    ensures { IfOk result (λ out. ArePicked (λ o. o.call ≡ call.now) operations.now out.items) }
{
    let mut out = Vec::new(alloc);
    for operation in operations {
        if is_of(operation, call) {
            out.push(*operation)?;
        }
    }
    Ok(out)
}

/// Whether none of the operations has the call.
fn is_new(operations: &[Open], call: &Call) -> bool
    ensures { IsTrue result → All (λ o. o.call ≢ call.now) operations.now }
{
    for operation in operations {
        if is_of(operation, call) {
            return false;
        }
    }
    true
}

/// Whether the state hasn't taken the operation's call, and replies to the other call show whether one has.
fn is_untold<O: SeqObject>(object: &O, state: &O::State, reads: &Call, operation: &Open) -> bool
    ensures { IsTrue result → IsUntold (O.shown object.now) (O.having object.now) state.now reads.now operation.now }
{
    object.is_shown_by(&operation.call, reads)
        && !object.has_taken(state, &operation.call)
        && *reads != operation.call
}

/// Those of the operations that do, one for each call.
fn one_of_each_call<O: SeqObject>(
    object: &O,
    alloc: Global,
    operations: &[Open],
    state: &O::State,
    reads: &Call,
) -> Result<Vec<Open>, OutOfMemory>
    ensures picked { IfOk result (λ out. ArePicked (IsUntold (O.shown object.now) (O.having object.now) state.now reads.now) operations.now out.items) }
    ensures differ { IfOk result (λ out. AllPairs (λ o p. o.call ≢ p.call) out.items) }
{
    let mut out = Vec::new(alloc);
    for operation in operations {
        if is_untold(object, state, reads, operation) && is_new(&out, &operation.call) {
            out.push(*operation)?;
        }
    }
    Ok(out)
}

/// Whether the number to the power of the other one is more than the limit, as far as 64 bits tell.
fn is_power_above(base: usize, exponent: usize, limit: usize) -> bool
    ensures { result ≡ true → limit < power base exponent }
{
    let mut most: usize = 1;
    for _ in 0..exponent {
        most = most.saturating_mul(base);
    }
    most > limit
}

/// Whether there are more configurations than the budget, as far as the operations tell that can be placed or not wherever the
/// object comes to: each by itself; or, where some of them read what others do, each of these ahead of one of the reads, behind
/// all of them, or not at all.
pub fn are_surely_more<O: SeqObject>(
    object: &O,
    alloc: Global,
    pending: &[Open],
    member: &Member<O::State>,
    budget: usize,
) -> Result<bool, OutOfMemory>
    ensures { IfOk result (λ more. more ≡ true → (functions : ItemOf → NameOf → Bool) (h : List EventOf) (nodes : List (ℕ × (PlacedOf × Option ℕ))) → IsWellFormed functions h → IsPending h pending.now
        → IsSpelled (O.starts object.now) (O.step object.now) (O.observing object.now) h nodes member.now → IsOver (O.starts object.now) (O.step object.now) h budget) }
{
    well_formed_is_alternating();
    placing_is_legal(object);
    rounds_spell_members(object);
    let operations = free(object, alloc, pending, member.placed())?;
    let free = operations.as_slice();
    if is_power_above(2, free.len(), budget) {
        return Ok(true);
    }
    let Some(reader) = reader(object, free) else {
        return Ok(false);
    };
    let reads = with_call(alloc, free, &reader.call)?;
    let updates = one_of_each_call(object, alloc, free, member.state(), &reader.call)?;
    let places = reads.as_slice().len().saturating_add(2);
    Ok(is_power_above(places, updates.as_slice().len(), budget))
}
