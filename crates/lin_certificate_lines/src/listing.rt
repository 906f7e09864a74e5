//! Lists of all operations of a group.
ghost use Rattle.std.specs.Prelude.{◌≡◌, ◌⊎◌, ℕ, Contains, IfOk, reverse};
ghost use Rattle.lin_order.specs.Tables.{IsNextTable};
ghost use Rattle.lin_certificate_lines.specs.Groups.{IsInGroup, IsListing};

use crate::groups::{Group, is_in_group};
use crate::told::{ObjectEvents, end_of};
use std::alloc::{AllocError, Global};

/// All operations of the group, rising.
pub(crate) fn all_of(
    told: &ObjectEvents,
    group: &Group,
    alloc: Global,
) -> Result<Vec<usize>, AllocError>
    requires { IsNextTable told.now.events.now told.now.ends.now }
    ensures { IfOk result (λ list. IsListing (IsInGroup told.now.events.now group.now) list.items) }
{
    let mut list = Vec::new(alloc);
    for at in 0..told.events.len() {
        if is_in_group(told.events, told.ends, at, group) {
            list.push(at)?;
        }
    }
    Ok(list)
}

/// All operations of the group, the last called first.
pub(crate) fn last_first(
    told: &ObjectEvents,
    group: &Group,
    alloc: Global,
) -> Result<Vec<usize>, AllocError>
    requires { IsNextTable told.now.events.now told.now.ends.now }
    ensures { IfOk result (λ list. IsListing (IsInGroup told.now.events.now group.now) (reverse list.items)) }
{
    let mut list = all_of(told, group, alloc)?;
    list.reverse();
    Ok(list)
}

/// Whether the one operation ended before the other.
fn ended_before(told: &ObjectEvents, one: usize, other: usize) -> bool {
    match (end_of(told, one), end_of(told, other)) {
        (Some(end), Some(later)) => end < later,
        _ => false,
    }
}

/// The operation of these that ended last.
fn last_ended(told: &ObjectEvents, first: usize, others: &[usize]) -> usize
    ensures { (result ≡ first) ⊎ Contains others.now result }
{
    let mut last = first;
    for at in others {
        if ended_before(told, last, *at) {
            last = *at;
        }
    }
    last
}

/// The operation of the group, which has some, that ended last.
pub(crate) fn latest_of(
    told: &ObjectEvents,
    group: &Group,
    alloc: Global,
) -> Result<usize, AllocError>
    requires table { IsNextTable told.now.events.now told.now.ends.now }
    requires some { (at : ℕ) × IsInGroup told.now.events.now group.now at }
    ensures { IfOk result (λ at. IsInGroup told.now.events.now group.now at) }
{
    let list = all_of(told, group, alloc)?;
    let Some((first, others)) = list.as_slice().split_first() else {
        unreachable!()
    };
    Ok(last_ended(told, *first, others))
}
