//! How many operations fit into a picture.
ghost use Rattle.std.specs.Prelude.{◌↔◌, ◌<◌, ◌≤◌, ◌+◌, ◌⊎◌, ◌≡◌, IfOk, IsTrue, length, true};
ghost use Rattle.lin_order.specs.Tables.{IsNextTable};

use crate::choosing::{Chosen, leave_last};
use crate::layouts::{Layout, MARGIN, Object, layout_of};
use lin_events::OutOfMemory;
use std::alloc::Global;

/// A picture is at most so wide, where so many operations are enough for that.
const WIDEST: usize = 1_200;

const LEAST: usize = 6;

/// Whether a picture with the layout is wider than is wanted.
fn is_wide(layout: &Layout) -> bool
    ensures { IsTrue result ↔ (1200 < layout.now.right + 20) }
{
    layout.right.saturating_add(MARGIN) > WIDEST
}

/// The layout of the operations; where the picture is to be narrow, the last chosen of those that don't fit are left out.
pub(crate) fn fit<'a>(
    alloc: Global,
    object: &Object<'a>,
    chosen: Vec<Chosen>,
    is_narrowed: bool,
) -> Result<Layout<'a>, OutOfMemory>
    requires { IsNextTable object.now.own.now.events.items object.now.ends.now }
    ensures narrow { is_narrowed ≡ true → IfOk result (λ layout. (layout.right + 20 ≤ 1200) ⊎ (length layout.bars.items ≤ 6)) }
{
    let mut chosen = chosen;
    let mut layout = layout_of(alloc, object, chosen.as_slice())?;
    while is_narrowed && is_wide(&layout) && chosen.len() > LEAST {
        leave_last(&mut chosen);
        layout = layout_of(alloc, object, chosen.as_slice())?;
    }
    Ok(layout)
}
