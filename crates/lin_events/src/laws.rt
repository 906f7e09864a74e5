//! Laws of well-formed histories, for whoever reasons about their operations. The functions do nothing.
ghost use Rattle.lin_events.specs.WellFormedLaws.{BadWithinBeginnings, BeginningsAreWellFormed, EndsAreUnique, EventsDecideStatuses, NoCauseIsGood, OtherStatusesStay, SameFunctionsSameShape, ShapesAreUnique, WellFormedIsAlternating};

/// A history is well-formed exactly when its operations alternate: a process calls again only after an ok or a fail, and
/// each completion ends an operation of its process, its key and its function.
pub fn well_formed_is_alternating()
    ensures { WellFormedIsAlternating }
{}

/// An operation has at most one end.
pub fn ends_are_unique()
    ensures { EndsAreUnique }
{}

/// Each beginning of a well-formed history is well-formed.
pub fn beginnings_are_well_formed()
    ensures { BeginningsAreWellFormed }
{}

/// What one more event makes of the statuses of processes.
pub fn statuses_after_events()
    ensures decided { EventsDecideStatuses }
    ensures others { OtherStatusesStay }
{}

/// Which positions are bad, and on what this depends.
pub fn bad_positions()
    ensures good { NoCauseIsGood }
    ensures beginnings { BadWithinBeginnings }
    ensures functions { SameFunctionsSameShape }
{}

/// A history has at most one shape: one least bad position, with one first cause, or none.
pub fn shapes_are_unique()
    ensures { ShapesAreUnique }
{}
