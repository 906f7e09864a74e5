//! Adds and reads with what says where they belong in an order.
ghost use Rattle.std.specs.Prelude.{◌≡◌, ◌<◌, ℕ, List, Some, AllPairs, IfOk, IsPermutation, length, map, slice_get};
ghost use Rattle.lin_events.specs.declared.items.Item.{Item as ItemOf};
ghost use Rattle.lin_sets.specs.Acts.{IsAdd};
ghost use Rattle.lin_sets.specs.Points.{AreEffects, ArePoints, IsAddEffect, IsAhead, IsReadEffect};

use crate::points::Points;
use lin_events::{IntSet, Item, OutOfMemory, Reply};
use lin_order::Placed;
use std::alloc::Global;

/// An operation of an order, and where it belongs there: by its point, and of those at one point by its rank.
#[derive(Drop)]
pub(crate) struct Effect {
    point: usize,
    rank: usize,
    placed: Placed,
}

/// The add of the item.
fn add_effect(
    points: &Points,
    adds: &[Option<Item>],
    reads: &[(usize, IntSet)],
    at: usize,
    item: Item,
) -> Effect
    requires points { ArePoints adds.now reads.now points.now }
    requires add { IsAdd adds.now at item }
    ensures at { result.placed.at ≡ at }
    ensures is { IsAddEffect adds.now reads.now points.now item result }
{
    let level = points.level(reads, item);
    Effect {
        point: points.point(at, level),
        rank: level + level,
        placed: Placed {
            at,
            reply: Reply::Done,
        },
    }
}

/// The read.
fn read_effect(
    points: &Points,
    adds: &[Option<Item>],
    reads: &[(usize, IntSet)],
    i: usize,
) -> Result<Effect, OutOfMemory>
    requires points { ArePoints adds.now reads.now points.now }
    requires within { i < length reads.now }
    ensures { IfOk result (λ effect. (r : ℕ × List ItemOf) → slice_get reads.now i ≡ Some r → IsReadEffect reads.now points.now i r effect) }
{
    let read = &reads[i];
    let members = read.1.copy()?;
    Ok(Effect {
        point: points.point(read.0, i + 1),
        rank: i + i + 1,
        placed: Placed {
            at: read.0,
            reply: Reply::Members(members),
        },
    })
}

/// Those of the adds.
fn effects_of_adds(
    alloc: Global,
    points: &Points,
    adds: &[Option<Item>],
    reads: &[(usize, IntSet)],
) -> Result<Vec<Effect>, OutOfMemory>
    requires { ArePoints adds.now reads.now points.now }
    ensures { IfOk result (λ effects. AreEffects adds.now reads.now points.now (length adds.now) 0 effects.items) }
{
    let mut effects = Vec::new(alloc);
    for at in 0..adds.len() {
        if let Some(item) = adds[at] {
            effects.push(add_effect(points, adds, reads, at, item))?;
        }
    }
    Ok(effects)
}

/// Those of the adds and the reads.
pub(crate) fn effects_of(
    alloc: Global,
    points: &Points,
    adds: &[Option<Item>],
    reads: &[(usize, IntSet)],
) -> Result<Vec<Effect>, OutOfMemory>
    requires { ArePoints adds.now reads.now points.now }
    ensures { IfOk result (λ effects. AreEffects adds.now reads.now points.now (length adds.now) (length reads.now) effects.items) }
{
    let mut effects = effects_of_adds(alloc, points, adds, reads)?;
    for i in 0..reads.len() {
        effects.push(read_effect(points, adds, reads, i)?)?;
    }
    Ok(effects)
}

/// The same in their order.
pub(crate) fn in_order(mut effects: Vec<Effect>) -> Vec<Effect>
    ensures same { IsPermutation effects.items result.items }
    ensures rising { AllPairs IsAhead result.items }
{
    effects.sort_unstable_by_key(|effect| (effect.point, effect.rank));
    effects
}

/// The operations alone.
pub(crate) fn operations_of(alloc: Global, effects: Vec<Effect>) -> Result<Vec<Placed>, OutOfMemory>
    ensures { IfOk result (λ order. order.items ≡ map (λ e. e.placed) effects.items) }
{
    let mut order = Vec::new(alloc);
    for effect in effects {
        order.push(effect.placed)?;
    }
    Ok(order)
}
