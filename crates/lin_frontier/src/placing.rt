//! Placing open operations in configurations.
ghost use Rattle.std.specs.Prelude.{◌≡◌, ◌≤◌, ◌∷◌, ◌++◌, ◌+◌, [], true, false, length, OnOk};
ghost use Rattle.lin_frontier.specs.Placing.{insert_pair, IsAbsent, IsTried, PlacesNext, PlacesOne};
ghost use Rattle.lin_frontier.specs.Sameness.{config_same};
ghost use Rattle.lin_frontier.specs.Walks.{IsTriedAtMost};

use crate::configs::{Config, is_absent};
use crate::pairs::PairList;
use crate::pending::Open;
use crate::search::Steps;
use crate::spare::Spare;
use lin_events::{Meter, OutOfMemory, Reply};
use lin_objects::SeqObject;
use lin_order::Placed;
use std::alloc::Global;
use std::hash::Hash;

/// Puts last what placing the operation with the reply makes of the configuration, where it leads to the state.
#[inline(always)]
fn put_step<S: Eq + Hash + Drop>(
    alloc: Global,
    config: &Config<S>,
    operation: &Open,
    state: S,
    reply: Reply,
    out: &mut Vec<(Config<S>, Placed)>,
    spare: &mut Spare<PairList>,
) -> Result<(), OutOfMemory>
    ensures { OnOk result (out.new.items ≡ out.old.items ++ ((state, insert_pair operation.now.process reply config.now.1), record { at = operation.now.at; reply = reply }) ∷ []) }
{
    let placed = Placed {
        at: operation.at,
        reply: reply.copy(alloc)?,
    };
    let next = config.with_placed(alloc, state, operation.process, reply, spare)?;
    match out.push((next, placed)) {
        Ok(()) => Ok(()),
        Err(_) => Err(OutOfMemory),
    }
}

/// Places the operation, which has no place in the configuration yet, in each way that the object has. `steps` is only
/// written over.
#[inline(never)]
fn place<O: SeqObject>(
    object: &O,
    alloc: Global,
    config: &Config<O::State>,
    operation: &Open,
    out: &mut Vec<(Config<O::State>, Placed)>,
    steps: &mut Vec<(O::State, Reply)>,
    meter: &mut Meter,
    spare: &mut Spare<PairList>,
) -> Result<(), OutOfMemory>
    requires { IsAbsent operation.now.process config.now.1 }
    ensures placed { OnOk result (IsTried (PlacesOne (O.step object.now) operation.now config.now) out.old.items out.new.items) }
    ensures few { OnOk result (O.overwriting object.now ≡ true → O.observing object.now operation.now.call ≡ false → length out.new.items ≤ length out.old.items + 1) }
    ensures tried { IsTriedAtMost 1 meter.old meter.new }
{
    meter.tick_try();
    object.outcomes(alloc, config.state(), &operation.call, steps)?;
    while let Some((state, reply)) = steps.pop() {
        put_step(alloc, config, operation, state, reply, out, spare)?;
    }
    Ok(())
}

/// Places the operation in each way that the object has, if it has no place in the configuration yet.
#[inline(always)]
pub fn place_if_absent<O: SeqObject>(
    object: &O,
    alloc: Global,
    config: &Config<O::State>,
    operation: &Open,
    out: &mut Vec<(Config<O::State>, Placed)>,
    steps: &mut Vec<(O::State, Reply)>,
    meter: &mut Meter,
    spare: &mut Spare<PairList>,
) -> Result<(), OutOfMemory>
    ensures placed { OnOk result (IsTried (PlacesOne (O.step object.now) operation.now config.now) out.old.items out.new.items) }
    ensures few { OnOk result (O.overwriting object.now ≡ true → O.observing object.now operation.now.call ≡ false → length out.new.items ≤ length out.old.items + 1) }
    ensures tried { IsTriedAtMost 1 meter.old meter.new }
{
    if is_absent(config.placed(), operation.process) {
        return place(object, alloc, config, operation, out, steps, meter, spare);
    }
    Ok(())
}

/// Placing the operation that was invoked last, and behind it those that were open before.
///
/// Nothing else has to be tried after the invocation: what is reached without placing the new operation was reached
/// before it.
#[derive(Drop)]
pub struct Placing<'a, O: SeqObject> {
    pub object: &'a O,
    pub pending: &'a [Open],
    pub new: &'a Open,
}

impl<'a, O: SeqObject> Steps for Placing<'a, O> {
    type State = Config<O::State>;

    ghost step = { λ p c l d. PlacesNext (O.step p.object.now) p.pending.now p.new.now c l d };

    ghost most = { λ p. length p.pending.now + 1 };

    fn outcomes(
        &self,
        alloc: Global,
        state: &Config<O::State>,
        meter: &mut Meter,
    ) -> Result<Vec<(Config<O::State>, Placed)>, OutOfMemory> {
        let mut out = Vec::new(alloc);
        let mut steps = Vec::new(alloc);
        let mut spare = Spare::new(alloc);
        if is_absent(state.placed(), self.new.process) {
            place(
                self.object,
                alloc,
                state,
                self.new,
                &mut out,
                &mut steps,
                meter,
                &mut spare,
            )?;
            return Ok(out);
        }
        for operation in self.pending {
            place_if_absent(
                self.object,
                alloc,
                state,
                operation,
                &mut out,
                &mut steps,
                meter,
                &mut spare,
            )?;
        }
        Ok(out)
    }

    ghost same = { config_same O.same };
}
