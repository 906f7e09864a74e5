//! How often something was done, and how often what has to come before it can have been.
ghost use Rattle.std.specs.Prelude.{◌≡◌, ◌++◌, IfOk, OnOk};
ghost use Rattle.lin_order.specs.Tables.{IsNextTable};
ghost use Rattle.lin_certificate_lines.specs.Series.{sides_text};
ghost use Rattle.lin_certificate_lines.specs.Sides.{AreSides, named_sides};

use crate::groups::{CallGroup, Group, ReplyGroup};
use crate::listing::all_of;
use crate::series::{FIRSTS, firsts_of, put_facts};
use crate::told::{ObjectEvents, Verb};
use std::alloc::{AllocError, Global};

/// All operations that were done, those of the other side that aren't failed, and those of that side that failed.
#[derive(Drop)]
pub(crate) struct Sides {
    pub done: Vec<usize>,
    pub may: Vec<usize>,
    pub failed: Vec<usize>,
}

/// The operations that were done, and those of the other side.
pub(crate) fn sides_of(
    told: &ObjectEvents,
    answers: ReplyGroup,
    calls: CallGroup,
    alloc: Global,
) -> Result<Sides, AllocError>
    requires { IsNextTable told.now.events.now told.now.ends.now }
    ensures { IfOk result (λ sides. AreSides told.now.events.now answers calls sides) }
{
    let done = all_of(told, &Group::Returned(answers), alloc)?;
    let may = all_of(told, &Group::Counts(calls), alloc)?;
    let failed = all_of(told, &Group::Fails(calls), alloc)?;
    Ok(Sides { done, may, failed })
}

/// Puts three lines last, of what was done, of what counts on the other side, and of what failed there; each only where there is any.
pub(crate) fn put_sides(
    text: &mut Vec<u8>,
    told: &ObjectEvents,
    sides: &Sides,
) -> Result<(), AllocError>
    ensures { OnOk result (text.new.items ≡ text.old.items ++ sides_text told.now sides.now.done.items sides.now.may.items sides.now.failed.items) }
{
    put_facts(text, told, Verb::Returned, sides.done.as_slice())?;
    put_facts(text, told, Verb::Called, sides.may.as_slice())?;
    put_facts(text, told, Verb::Failed, sides.failed.as_slice())?;
    Ok(())
}

/// Puts the first operations of each list last.
pub(crate) fn name_sides(named: &mut Vec<usize>, sides: &Sides) -> Result<(), AllocError>
    ensures { OnOk result (named.new.items ≡ named.old.items ++ named_sides sides.now.done.items sides.now.may.items sides.now.failed.items) }
{
    named.extend_from_slice(firsts_of(sides.done.as_slice(), FIRSTS))?;
    named.extend_from_slice(firsts_of(sides.may.as_slice(), FIRSTS))?;
    named.extend_from_slice(firsts_of(sides.failed.as_slice(), FIRSTS))
}
