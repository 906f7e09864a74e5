//! When a history of a set has a legal order: exactly where no operations of it conflict.
//!
//! A set only grows, so five things can go wrong with it (`IsInConflict`, specs/Conflicts.antt): a reply that no set gives; an item
//! that was found though all that add it failed or were invoked later; one that was known to be in and that a later read lacks; one
//! that was known to be in before another one was added, where a read found that one and lacks this one; and two reads of which each
//! lacks what the other has. Where none of these is, each operation has a point between its invocation and its end: a read where all
//! that it found can be in and all smaller reads were invoked, an add where that holds of each read that lacks its item (`points`). In
//! the order of these points the operations are a legal order.
//!
//! Promised, for any events, whatever crashed, failed or was added twice: `conflicts_refute` and `others_are_linearizable`, the two
//! halves of the law; and `order_of_acts` is a legal order of a history of which these are the adds and the reads, if nothing conflicts
//! in it. That nothing does isn't looked at here: `Intervals` does that.
//!
//! That operations stand by points in intervals is how Gibbons and Korach 1997 (Testing shared memories) order a register's; the law of
//! sets is proved here, and follows no paper. For n places, and reads that found m items in all, an order takes O(n log n + m) time.
//! More: docs/SEARCHES.md, 'A set, by intervals'.
ghost use Rattle.lin_sets.specs.Laws.{ConflictsRefute, OthersAreLinearizable};

/// A history whose operations conflict has no legal order.
pub fn conflicts_refute()
    ensures { ConflictsRefute }
{}

/// A history of which no operations conflict has one.
pub fn others_are_linearizable()
    ensures { OthersAreLinearizable }
{}
