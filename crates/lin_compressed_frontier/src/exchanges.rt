//! Crashed operations that have the same call. Nothing that follows tells them apart, so one may stand in for another.
ghost use Rattle.std.specs.Prelude.{◌≡◌, ◌∷◌, ◌++◌, [], ℕ, List, Contains, IsTrue, IfOk, IfSome, OnOk, map};
ghost use Rattle.lin_events.specs.declared.calls.Reply.{Reply as ReplyOf};
ghost use Rattle.lin_frontier.specs.declared.pending.Open.{Open as OpenOf};
ghost use Rattle.lin_frontier.specs.Placing.{IsAbsent};
ghost use Rattle.lin_members.specs.Settling.{renamed_pair, IsRenamed};

use lin_events::{OutOfMemory, Reply};
use lin_frontier::{Open, PairList, Pairs, Spare, is_absent};
use std::alloc::Global;
use std::rc::Rc;

/// Whether the one operation crashed, as the other one did, has the same call, and isn't placed yet.
fn is_like(other: &Open, placed: &[(u64, Reply)], operation: &Open) -> bool
    ensures { IsTrue result → IsTrue other.now.crashed × (other.now.call ≡ operation.now.call) × IsAbsent other.now.process placed.now }
{
    other.crashed && other.call == operation.call && is_absent(placed, other.process)
}

/// Whether the operation crashed, and one of the earlier ones is like it and isn't placed yet.
pub fn waits_for_like(earlier: &[Open], placed: &[(u64, Reply)], operation: &Open) -> bool
    ensures { IsTrue result → IsTrue operation.now.crashed × (o : OpenOf) × Contains earlier.now o × IsTrue o.crashed × (o.call ≡ operation.now.call) × IsAbsent o.process placed.now }
{
    if !operation.crashed {
        return false;
    }
    for other in earlier {
        if is_like(other, placed, operation) {
            return true;
        }
    }
    false
}

/// Whether the operation, which crashed, has a like one among the others.
fn has_like(others: &[Open], operation: &Open) -> bool {
    if !operation.crashed {
        return false;
    }
    for other in others {
        if other.crashed && other.call == operation.call {
            return true;
        }
    }
    false
}

/// Whether any two of the operations are alike.
pub fn are_some_alike(pending: &[Open]) -> bool {
    let mut rest = pending;
    while let Some((last, others)) = rest.split_last() {
        if has_like(others, last) {
            return true;
        }
        rest = others;
    }
    false
}

/// The first operation like this one that isn't placed, if this one is, and was invoked later.
fn stand_in<'a>(pending: &'a [Open], placed: &[(u64, Reply)], operation: &Open) -> Option<&'a Open>
    ensures { IfSome result (λ o. Contains pending.now o.now × IsTrue operation.now.crashed × IsTrue o.now.crashed × (o.now.call ≡ operation.now.call) × IsAbsent o.now.process placed.now) }
{
    if !operation.crashed || is_absent(placed, operation.process) {
        return None;
    }
    for other in pending {
        if other.at == operation.at {
            return None;
        }
        if is_like(other, placed, operation) {
            return Some(other);
        }
    }
    None
}

/// Puts a copy of the pair last, with the other process in place of this one.
fn append_renamed(
    alloc: Global,
    pairs: &mut PairList,
    pair: &(u64, Reply),
    process: u64,
    other: u64,
) -> Result<(), OutOfMemory>
    ensures { OnOk result (pairs.new ≡ pairs.old ++ renamed_pair process other pair.now ∷ []) }
{
    let reply = pair.1.copy(alloc)?;
    let of = if pair.0 == process { other } else { pair.0 };
    pairs.push(of, reply)
}

/// Puts copies of the pairs in the empty list, with the other process in place of this one.
fn put_renamed(
    alloc: Global,
    list: &mut PairList,
    pairs: &[(u64, Reply)],
    process: u64,
    other: u64,
) -> Result<(), OutOfMemory>
    requires { list.old ≡ [] }
    ensures { OnOk result (list.new ≡ map (renamed_pair process other) pairs.now) }
{
    list.reserve(pairs.len())?;
    for pair in pairs {
        append_renamed(alloc, list, pair, process, other)?;
    }
    Ok(())
}

/// The pairs with the other process in place of this one.
fn rename_process(
    alloc: Global,
    pairs: &[(u64, Reply)],
    process: u64,
    other: u64,
) -> Result<Pairs, OutOfMemory>
    ensures { IfOk result (λ out. out ≡ map (renamed_pair process other) pairs.now) }
{
    let mut spare = Spare::new(alloc);
    let mut shared = PairList::emptied(alloc, &mut spare)?;
    // It has one owner, so it can be written.
    let Some(list) = Rc::get_mut(&mut shared) else {
        return Err(OutOfMemory);
    };
    put_renamed(alloc, list, pairs, process, other)?;
    Ok(Pairs::of(shared, &mut spare))
}

/// The pairs with the operation, if it crashed, in the place of the first like it that isn't placed.
fn settle_one(
    alloc: Global,
    pending: &[Open],
    placed: Pairs,
    operation: &Open,
) -> Result<Pairs, OutOfMemory>
    requires { Contains pending.now operation.now }
    ensures { IfOk result (λ out. (first : List (ℕ × ReplyOf)) → IsRenamed pending.now first placed → IsRenamed pending.now first out) }
{
    match stand_in(pending, placed.as_slice(), operation) {
        Some(other) => rename_process(alloc, placed.as_slice(), operation.process, other.process),
        None => Ok(placed),
    }
}

/// The pairs with each crashed operation in the place of the first like it that isn't placed.
pub fn settle(alloc: Global, pending: &[Open], placed: &Pairs) -> Result<Pairs, OutOfMemory>
    ensures { IfOk result (λ out. IsRenamed pending.now placed.now out) }
{
    let mut now = placed.copy()?;
    for operation in pending {
        now = settle_one(alloc, pending, now, operation)?;
    }
    Ok(now)
}
