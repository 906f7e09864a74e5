//! What the intervals of a set tell.
ghost use Rattle.lin_sets.specs.Intervals.{IntervalsTell};

use crate::conflict_laws::others_are_linearizable;

/// What intervals tell of the events that were taken in.
pub fn intervals_tell()
    ensures { IntervalsTell }
{
    others_are_linearizable();
}
