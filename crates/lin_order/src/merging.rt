//! Merging the orders for the objects of a history into one order of the whole (locality, Herlihy and Wing 1990,
//! section 3).
ghost use Rattle.std.specs.Prelude.{◌≡◌, ◌++◌, ◌≤◌, length, map, reverse, [], IfOk, OnOk, MatchResult, vec_capacity};
ghost use Rattle.lin_order.specs.Merging.{IsMerged, lists_of};
ghost use Rattle.lin_order.specs.inner.Merging.{AreRanks, IsTaken, ranks_from};

use crate::placed::Placed;
use lin_events::OutOfMemory;
use std::alloc::Global;

/// Puts behind the ranks those of the operations of a part, with the part's number.
///
/// The rank of an operation is the greatest position up to it in its part. By taking the least head again and again
/// operations are taken by rising rank, so they need only be sorted.
fn push_ranks(
    part: &[Placed],
    number: usize,
    ranks: &mut Vec<(usize, usize)>,
) -> Result<(), OutOfMemory>
    ensures { OnOk result (ranks.new.items ≡ ranks.old.items ++ map (λ rank. (rank, number)) (ranks_from 0 part.now)) }
{
    let mut rank: usize = 0;
    for placed in part {
        rank = rank.max(placed.at);
        ranks.push((rank, number))?;
    }
    Ok(())
}

/// The ranks of all operations, each with the number of its part, from the least on.
fn ranks_of(alloc: Global, parts: &[Vec<Placed>]) -> Result<Vec<(usize, usize)>, OutOfMemory>
    ensures { IfOk result (λ ranks. AreRanks (lists_of parts.now) ranks.items) }
{
    let mut ranks = Vec::new(alloc);
    for (number, part) in parts.iter().enumerate() {
        push_ranks(part, number, &mut ranks)?;
    }
    ranks.sort_unstable();
    Ok(ranks)
}

/// Turns each part around, so that its operations can be popped in their sequence.
fn turn_each(parts: &mut Vec<Vec<Placed>>)
    ensures { lists_of parts.new.items ≡ map reverse (lists_of parts.old.items) }
{
    for part in parts.iter_mut() {
        part.reverse();
    }
}

/// Takes the operations of the parts in turn: for each rank the next one of its part.
fn take_in_turn(
    mut parts: Vec<Vec<Placed>>,
    ranks: &[(usize, usize)],
    mut order: Vec<Placed>,
) -> Vec<Placed>
    requires ranks { AreRanks (lists_of parts.items) ranks.now }
    requires empty { order.items ≡ [] }
    requires room { length ranks.now ≤ vec_capacity order }
    ensures { IsTaken (lists_of parts.items) ranks.now result.items }
{
    turn_each(&mut parts);
    for (_, number) in ranks {
        if let Some(placed) = parts[*number].pop() {
            order.push(placed).unwrap();
        }
    }
    order
}

/// Merges orders for the objects of a history: from the heads of the parts, the operation that was invoked first is
/// taken next, again and again.
///
/// So legal orders of a history, one for each object, become a legal order of the whole. Whatever the parts are, the
/// result has each part's operations in their sequence.
///
/// With n operations in all this takes O(n log n) time, for any number of parts. Where memory is refused, the parts are
/// handed back as they were.
pub fn merge(
    alloc: Global,
    parts: Vec<Vec<Placed>>,
) -> Result<Vec<Placed>, (Vec<Vec<Placed>>, OutOfMemory)>
    ensures { MatchResult result (λ order. IsMerged (lists_of parts.items) order.items) (λ refused. refused.0 ≡ parts) }
{
    let ranks = match ranks_of(alloc, &parts) {
        Ok(ranks) => ranks,
        Err(refused) => return Err((parts, refused)),
    };
    match Vec::with_capacity(alloc, ranks.len()) {
        Ok(order) => Ok(take_in_turn(parts, &ranks, order)),
        Err(_) => Err((parts, OutOfMemory)),
    }
}
