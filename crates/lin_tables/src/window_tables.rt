//! Tables of operations.
ghost use Rattle.std.specs.Prelude.{◌≡◌, ◌++◌, ℕ, List, OnOk};
ghost use Rattle.lin_order.specs.Tables.{IsNextTable};
ghost use Rattle.lin_tables.specs.WindowTables.{IsTable, listing_of, more_text, told_of};

use crate::choosing::choose;
use crate::marks::ListedOperations;
use crate::rows::{Stretch, rows_of};
use crate::tables::put_table;
use lin_texts::put_number;
use std::alloc::{AllocError, Global};

/// Puts the line last that says how many are left out, if any are.
fn put_more(text: &mut Vec<u8>, more: usize) -> Result<(), AllocError>
    ensures { OnOk result (text.new.items ≡ text.old.items ++ more_text more) }
{
    if more == 0 {
        return Ok(());
    }
    text.extend_from_slice(b"  and ")?;
    put_number(text, more as u64)?;
    text.extend_from_slice(b" more\n")
}

/// Puts a table of operations last: a line for each of at most eight, in the order of their invocations, and how many more there are.
pub fn put_operations(
    alloc: Global,
    text: &mut Vec<u8>,
    stretch: &Stretch,
    listed: &ListedOperations,
) -> Result<(), AllocError>
    requires { IsNextTable stretch.now.events.now stretch.now.ends.now }
    ensures { OnOk result ((added : List ℕ) × IsTable (told_of stretch.now) (listing_of listed.now) added × (text.new.items ≡ text.old.items ++ added)) }
{
    let choice = choose(alloc, stretch.events, stretch.ends, listed)?;
    let rows = rows_of(alloc, stretch, choice.shown.as_slice())?;
    put_table(text, rows.as_slice())?;
    put_more(text, choice.more)
}
