//! What an event leaves of the configurations before it, ahead of any placing.
ghost use Rattle.std.specs.Prelude.{◌≡◌, ◌+◌, ℕ, List, Some, IfOk, OnOk, MatchOption, slice_get, take};
ghost use Rattle.lin_events.specs.declared.calls.Reply.{Reply as ReplyOf};
ghost use Rattle.lin_frontier.specs.Placing.{IsKept, IsKeeping, without};

use crate::configs::{Config, is_absent, is_placed};
use crate::nodes::NodeId;
use crate::pairs::PairList;
use crate::spare::Spare;
use indexmap::IndexMap;
use lin_events::{Body, Event, OutOfMemory};
use lin_objects::SeqObject;
use std::alloc::Global;

/// An equal configuration on its own memory.
pub fn copy_config<O: SeqObject>(
    object: &O,
    alloc: Global,
    config: &Config<O::State>,
) -> Result<Config<O::State>, OutOfMemory>
    ensures { IfOk result (λ copy. copy ≡ config.now) }
{
    let state = object.copy_state(alloc, config.state())?;
    config.with_state(state)
}

/// The configuration without the operation of the process, on its own memory.
#[inline(always)]
pub fn copy_without<O: SeqObject>(
    object: &O,
    alloc: Global,
    config: &Config<O::State>,
    process: u64,
    spare: &mut Spare<PairList>,
) -> Result<Config<O::State>, OutOfMemory>
    ensures { IfOk result (λ copy. copy ≡ (config.now.0, without process config.now.1)) }
{
    let state = object.copy_state(alloc, config.state())?;
    config.without(alloc, state, process, spare)
}

/// The same on new memory.
fn copy_without_anew<O: SeqObject>(
    object: &O,
    alloc: Global,
    config: &Config<O::State>,
    process: u64,
) -> Result<Config<O::State>, OutOfMemory>
    ensures { IfOk result (λ copy. copy ≡ (config.now.0, without process config.now.1)) }
{
    let mut spare = Spare::new(alloc);
    copy_without(object, alloc, config, process, &mut spare)
}

/// What the event leaves of the configuration, or `None` where it doesn't stay.
fn keep<O: SeqObject>(
    object: &O,
    alloc: Global,
    config: &Config<O::State>,
    event: &Event,
) -> Result<Option<Config<O::State>>, OutOfMemory>
    ensures { IfOk result (λ kept. MatchOption kept
        ((next : O.State × List (ℕ × ReplyOf)) → IsKept event.now.process event.now.body config.now next → ⊥)
        (IsKept event.now.process event.now.body config.now)) }
{
    match &event.body {
        Body::Ok(_, reply) => {
            if !is_placed(config.placed(), event.process, reply) {
                return Ok(None);
            }
            let left = copy_without_anew(object, alloc, config, event.process)?;
            Ok(Some(left))
        }
        Body::Fail(_) => {
            if !is_absent(config.placed(), event.process) {
                return Ok(None);
            }
            Ok(Some(copy_config(object, alloc, config)?))
        }
        Body::Invoke(_) | Body::Info(_) => Ok(Some(copy_config(object, alloc, config)?)),
    }
}

/// Takes what the event leaves of the configuration into the map, with its node.
fn keep_one<O: SeqObject>(
    object: &O,
    alloc: Global,
    config: &Config<O::State>,
    node: NodeId,
    event: &Event,
    kept: &mut IndexMap<Config<O::State>, NodeId>,
) -> Result<(), OutOfMemory>
    ensures { OnOk result ((es : List ((O.State × List (ℕ × ReplyOf)) × ℕ)) (i : ℕ) → slice_get es i ≡ Some (config.now, node)
        → IsKeeping event.now.process event.now.body (take i es) kept.old.entries → IsKeeping event.now.process event.now.body (take (i + 1) es) kept.new.entries) }
{
    let Some(next) = keep(object, alloc, config, event)? else {
        return Ok(());
    };
    match kept.insert(next, node) {
        Ok(_) => {}
        Err(_) => return Err(OutOfMemory),
    }
    Ok(())
}

/// What the event leaves of the configurations, each with the node that it had: the same order ends in it.
pub fn keep_all<O: SeqObject>(
    object: &O,
    alloc: Global,
    configs: &IndexMap<Config<O::State>, NodeId>,
    event: &Event,
) -> Result<IndexMap<Config<O::State>, NodeId>, OutOfMemory>
    ensures { IfOk result (λ kept. IsKeeping event.now.process event.now.body configs.now.entries kept.entries) }
{
    let mut kept = IndexMap::with_capacity(alloc, configs.len())?;
    let mut at = 0;
    while let Some((config, node)) = configs.get_index(at) {
        keep_one(object, alloc, config, *node, event, &mut kept)?;
        at += 1;
    }
    Ok(kept)
}
