//! The operations that are open after some events of an object, and marks of earlier times, to which one may go back.
//!
//! An operation is kept once, however many marks it was open at: what a mark holds is how many operations had crashed, and how many had ended that
//! were open at an earlier mark. What crashed stays open for good, so the first ones at an earlier time are still the first ones. What was open then
//! and hasn't ended is still here; what has ended since is kept beside; and what was called since is told by the position of its call.
ghost use Rattle.std.specs.Prelude.{◌≡◌, ◌≤◌, ◌+◌, All, IsTrue, false, take, drop, vec_len, vec_capacity};

use crate::pending::Open;

/// The operations that are open after some events: first those that crashed, in the order of their infos, then the others.
#[derive(Drop)]
pub struct OpenList {
    pub(crate) operations: Vec<Open>,
    pub(crate) crashed: usize,
    /// Those that were open at a mark, and have ended.
    pub(crate) ended: Vec<Open>,
    /// Of how many events the last mark is.
    pub(crate) marked: usize,
    ghost within: { crashed ≤ vec_len operations },
    ghost in_front: { All (λ o. IsTrue o.crashed) (take crashed operations.items) },
    ghost behind: { All (λ o. o.crashed ≡ false) (drop crashed operations.items) },
    ghost room: { vec_len operations + vec_len ended ≤ vec_capacity operations },
}

/// What has to be kept of a time, to go back to what was open then.
#[derive(Clone, Copy, Debug, PartialEq, Eq)]
pub struct OpenMark {
    /// How many operations had crashed.
    pub(crate) crashed: usize,
    /// How many had ended that were open at an earlier mark.
    pub(crate) ended: usize,
}
