//! Reads by how much they found.
ghost use Rattle.std.specs.Prelude.{◌≡◌, AllPairs, IfOk, IsPermutation};
ghost use Rattle.lin_sets.specs.Points.{IsNoLarger};

use lin_events::{IntSet, OutOfMemory};
use std::alloc::Global;

/// Equal reads.
fn copy_reads(alloc: Global, reads: &[(usize, IntSet)]) -> Result<Vec<(usize, IntSet)>, OutOfMemory>
    ensures { IfOk result (λ copy. copy.items ≡ reads.now) }
{
    let mut copy = Vec::new(alloc);
    for read in reads {
        let members = read.1.copy()?;
        copy.push((read.0, members))?;
    }
    Ok(copy)
}

/// The same, those that found fewer items first, and of those that found as many the one that was invoked first.
fn in_order(mut reads: Vec<(usize, IntSet)>) -> Vec<(usize, IntSet)>
    ensures same { IsPermutation reads.items result.items }
    ensures rising { AllPairs IsNoLarger result.items }
{
    reads.sort_unstable_by_key(|read| (read.1.as_slice().len(), read.0));
    reads
}

/// The reads by how much they found.
pub(crate) fn by_size(
    alloc: Global,
    reads: &[(usize, IntSet)],
) -> Result<Vec<(usize, IntSet)>, OutOfMemory>
    ensures same { IfOk result (λ sorted. IsPermutation reads.now sorted.items) }
    ensures rising { IfOk result (λ sorted. AllPairs IsNoLarger sorted.items) }
{
    Ok(in_order(copy_reads(alloc, reads)?))
}
