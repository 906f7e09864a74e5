//! Members taken apart by what tells them apart, so that few are compared each with each.
ghost use Rattle.std.specs.Prelude.{◌≡◌, ◌<◌, ◌≤◌, ◌++◌, IfOk};
ghost use Rattle.lin_members.specs.Parts.{key_of, shows, IsParted};
ghost use Rattle.lin_members.specs.Searching.{IsPruned};

use crate::domination::prune;
use crate::members::{Member, push_member};
use lin_events::OutOfMemory;
use lin_frontier::{Config, Pending};
use lin_objects::SeqObject;
use std::alloc::Global;
use std::hash::{FoldHasher, Hash, Hasher};

/// Up to so many members are compared each with each.
const FEW: usize = 64;

/// So many bits leave few members in a part where they differ, and cost little where they don't.
const BITS: u32 = 12;

/// A number that is the same for configurations of which one covers the other: a hash of the state, and of what is placed but
/// for crashed operations.
pub fn key<S: Eq + Hash>(pending: &Pending, config: &Config<S>) -> u64
    ensures { result ≡ key_of S.hash_input pending.now config.now }
{
    let mut hasher = FoldHasher::default();
    config.state().hash(&mut hasher);
    pending.bits_beside(config.pairs()).hash(&mut hasher);
    hasher.finish()
}

/// Whether the member's key has the bit.
fn shows_bit<S: Eq + Hash>(pending: &Pending, member: &Member<S>, bit: u32) -> bool
    requires { bit < 64 }
    ensures { result ≡ shows S.hash_input pending.now bit member.now }
{
    key(pending, member.config()) >> bit & 1 == 1
}

/// The members whose keys have the bit, and the others.
fn part_by_bit<S: Eq + Hash + Drop>(
    alloc: Global,
    pending: &Pending,
    members: Vec<Member<S>>,
    bit: u32,
) -> Result<(Vec<Member<S>>, Vec<Member<S>>), OutOfMemory>
    requires { bit < 64 }
    ensures { IfOk result (λ parts. IsParted (shows S.hash_input pending.now bit) members.items parts.0.items parts.1.items) }
{
    let mut ones = Vec::new(alloc);
    let mut zeros = Vec::new(alloc);
    let mut rest = members;
    while let Some(member) = rest.pop() {
        if shows_bit(pending, &member, bit) {
            push_member(&mut ones, member)?;
        } else {
            push_member(&mut zeros, member)?;
        }
    }
    Ok((ones, zeros))
}

/// Puts the others last.
fn join<S: Eq + Hash + Drop>(
    members: Vec<Member<S>>,
    others: Vec<Member<S>>,
) -> Result<Vec<Member<S>>, OutOfMemory>
    ensures { IfOk result (λ out. out.items ≡ members.items ++ others.items) }
{
    let mut out = members;
    let mut rest = others;
    match out.append(&mut rest) {
        Ok(()) => Ok(out),
        Err(_) => Err(OutOfMemory),
    }
}

/// The members of which no other one is above any. Only those are compared whose keys agree in bits from this number down.
fn pruned_apart<O: SeqObject>(
    object: &O,
    alloc: Global,
    pending: &Pending,
    members: Vec<Member<O::State>>,
    bits: u32,
) -> Result<Vec<Member<O::State>>, OutOfMemory>
    requires { bits ≤ 64 }
    ensures { IfOk result (λ out. IsPruned (O.observing object.now) pending.now members.items out.items) }
{
    if bits == 0 || members.len() <= FEW {
        return Ok(prune(object, pending, members));
    }
    let bit = bits - 1;
    let (ones, zeros) = part_by_bit(alloc, pending, members, bit)?;
    let kept = pruned_apart(object, alloc, pending, ones, bit)?;
    let others = pruned_apart(object, alloc, pending, zeros, bit)?;
    let out = join(kept, others)?;
    Ok(out)
}

/// The members of which no other one is above any.
pub fn pruned_many<O: SeqObject>(
    object: &O,
    alloc: Global,
    pending: &Pending,
    members: Vec<Member<O::State>>,
) -> Result<Vec<Member<O::State>>, OutOfMemory>
    ensures { IfOk result (λ out. IsPruned (O.observing object.now) pending.now members.items out.items) }
{
    pruned_apart(object, alloc, pending, members, BITS)
}
