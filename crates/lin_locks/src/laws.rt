//! What a lock tells.
ghost use Rattle.lin_locks.specs.Locks.{LocksTell};

/// What a lock tells of the events that were taken in.
pub fn locks_tell()
    ensures { LocksTell }
{}
