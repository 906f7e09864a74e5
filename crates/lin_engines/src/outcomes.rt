//! What placing open operations makes of a configuration.
ghost use Rattle.std.specs.Prelude.{◌≡◌, All, IfOk, IfSome};
ghost use Rattle.lin_objects.specs.Steps.{Step as StepOf};
ghost use Rattle.lin_frontier.specs.Placing.{PlacesOne};
ghost use Rattle.lin_frontier.specs.Walks.{IsTriedAtMost};

use lin_events::{Meter, OutOfMemory, Reply};
use lin_frontier::{Config, Open, Spare, is_absent, place_if_absent};
use lin_objects::{Any, SeqObject, State};
use lin_order::Placed;
use std::alloc::Global;

/// A configuration, and the operation that was placed last on the way to it.
pub(crate) type Outcome = (Config<State>, Placed);

/// The configurations that placing the operation leads to, where it has no place yet.
fn outcomes(
    alloc: Global,
    object: &Any,
    config: &Config<State>,
    operation: &Open,
    meter: &mut Meter,
) -> Result<Vec<Outcome>, OutOfMemory>
    ensures placed { IfOk result (λ out. All (λ x. PlacesOne (StepOf object.now.kind) operation.now config.now x.1 x.0) out.items) }
    ensures tried { IsTriedAtMost 1 meter.old meter.new }
{
    let mut out = Vec::new(alloc);
    let mut steps = Vec::new(alloc);
    let mut spare = Spare::new(alloc);
    place_if_absent(
        object, alloc, config, operation, &mut out, &mut steps, meter, &mut spare,
    )?;
    Ok(out)
}

/// The configuration that placing the operation with the reply leads to, if it has no place yet and the object gives the reply.
pub(crate) fn outcome(
    alloc: Global,
    object: &Any,
    config: &Config<State>,
    operation: &Open,
    reply: &Reply,
    meter: &mut Meter,
) -> Result<Option<Outcome>, OutOfMemory>
    ensures placed { IfOk result (λ found. IfSome found (λ x. PlacesOne (StepOf object.now.kind) operation.now config.now x.1 x.0 × (x.1.reply ≡ reply.now))) }
    ensures tried { IsTriedAtMost 1 meter.old meter.new }
{
    if !is_absent(config.placed(), operation.process) {
        return Ok(None);
    }
    meter.tick_try();
    let state = object.copy_state(alloc, config.state())?;
    let Some(next) = object.next(alloc, state, &operation.call, reply)? else {
        return Ok(None);
    };
    let placed = Placed {
        at: operation.at,
        reply: reply.copy(alloc)?,
    };
    let config = config.with_placed_anew(alloc, next, operation.process, reply.copy(alloc)?)?;
    Ok(Some((config, placed)))
}

/// The same behind another operation, which is placed first. Where the object takes that one in several ways, none of them is better than
/// another: it takes an item out of a bag, and so allows no reply that wasn't allowed before.
pub(crate) fn outcome_behind(
    alloc: Global,
    object: &Any,
    config: &Config<State>,
    other: &Open,
    operation: &Open,
    reply: &Reply,
    meter: &mut Meter,
) -> Result<Option<(Outcome, Outcome)>, OutOfMemory>
    ensures placed { IfOk result (λ found. IfSome found (λ x. PlacesOne (StepOf object.now.kind) other.now config.now x.0.1 x.0.0
        × PlacesOne (StepOf object.now.kind) operation.now x.0.0 x.1.1 x.1.0 × (x.1.1.reply ≡ reply.now))) }
    ensures tried { IsTriedAtMost 2 meter.old meter.new }
{
    let mut out = outcomes(alloc, object, config, other, meter)?;
    let Some(first) = out.pop() else {
        return Ok(None);
    };
    match outcome(alloc, object, &first.0, operation, reply, meter)? {
        Some(second) => Ok(Some((first, second))),
        None => Ok(None),
    }
}
