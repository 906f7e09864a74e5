//! What ran since the object was quiet.
ghost use Rattle.std.specs.Prelude.{◌≡◌, ◌++◌, ℕ, List, IfOk, OnOk, codes, decimal, length};
ghost use Rattle.lin_order.specs.Tables.{IsNextTable};
ghost use Rattle.lin_tables.specs.WindowOperations.{IsInvoked};
ghost use Rattle.lin_tables.specs.WindowTables.{told_of};
ghost use Rattle.lin_explain.specs.inner.Known.{IsQuietBefore};
ghost use Rattle.lin_explain.specs.Since.{IsSinceText, since_head};

use crate::failures::Failure;
use crate::known::Quiet;
use lin_events::OutOfMemory;
use lin_tables::{ListedOperations, Window, put_operations};
use lin_texts::put_number;
use std::alloc::{AllocError, Global};

/// Puts last since which position of the whole history the stretch runs.
fn put_from(text: &mut Vec<u8>, at: usize) -> Result<(), AllocError>
    ensures { OnOk result (text.new.items ≡ text.old.items ++ (codes "since event " ++ decimal at ++ codes ", before which nothing ran")) }
{
    text.extend_from_slice(b"since event ")?;
    put_number(text, at as u64)?;
    text.extend_from_slice(b", before which nothing ran")?;
    Ok(())
}

/// Puts the line last on where the stretch begins, with the words on what the object was before it.
fn put_since_head(text: &mut Vec<u8>, at: usize, was: &[u8]) -> Result<(), AllocError>
    ensures { OnOk result (text.new.items ≡ text.old.items ++ since_head at was.now) }
{
    put_from(text, at)?;
    text.extend_from_slice(was)?;
    text.extend_from_slice(b" (! fails, ~ ran beside it, * is named above):\n")?;
    Ok(())
}

/// Puts the stretch that holds the failure last. Gives its position in the whole history.
pub(crate) fn put_since(
    alloc: Global,
    text: &mut Vec<u8>,
    failure: &Failure,
    quiet: &Quiet,
    named: &[usize],
) -> Result<usize, OutOfMemory>
    requires table { IsNextTable failure.now.stretch.events.now failure.now.stretch.ends.now }
    requires begins { IsInvoked failure.now.stretch.events.now failure.now.call }
    requires picks { length failure.now.stretch.picks.now ≡ length failure.now.stretch.events.now }
    requires quiet { IsQuietBefore failure.now.stretch.names.now failure.now.kind failure.now.budget failure.now.stretch.events.now failure.now.call quiet.now }
    ensures { IfOk result (λ at. (since : List ℕ)
        × IsSinceText failure.now.kind failure.now.budget (told_of failure.now.stretch) failure.now.call named.now since at × (text.new.items ≡ text.old.items ++ since)) }
{
    let stretch = &failure.stretch;
    let Some(at) = stretch.picks.get(quiet.from) else {
        unreachable!()
    };
    put_since_head(text, *at, quiet.was.as_slice())?;
    let window = Window {
        call: failure.call,
        from: quiet.from,
        named,
    };
    put_operations(alloc, text, stretch, &ListedOperations::Around(window))?;
    Ok(*at)
}
