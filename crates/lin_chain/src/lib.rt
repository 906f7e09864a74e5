//! How the events of one object end, told by its engines and by searches, and kept right while the events are edited.
//!
//! A `Chain` has the object's frontiers (a `Lane` of `Replay`); beside them nothing, an engine that decides the object exactly, or an
//! order that goes on (`Beside`); and what a search of all events found last (`Found`). Whatever of these tells of all events is right,
//! so `told` takes the first that does, and what was told is told again without a step. `cut` takes back what an edit makes uncertain:
//! the events from its place on, and at most 63 before it.
//!
//! `settle` answers: from a budget of 1,024 on the engine beside the frontiers goes on first (`extend`). A set or a lock is decided by
//! it. Else many events of a register are searched with few configurations, and what is found is kept as it is (`look_ahead`). Then
//! frontiers take events in as long as that is worth it (`Patience`); then all events are searched (`lin_search`), unless more
//! than half as many were there when they were searched last; and what is left the frontiers take in (`finish`). An order that stops is
//! mended, or the failure sought there (`repair`), and the search comes before the frontiers. Which comes when is said by `turn`, which
//! promises nothing: it decides how fast an answer comes and how many objects stay undecided, not whether the answer is right. This
//! schedule follows no paper.
//!
//! Promised of well-formed events (`Chain::settle`): the end that is answered is right (`IsEndOf`), a set or a lock is never over from
//! a budget of 1,024 on, and after any cut all stays right. The work has a bound, the line `left` in specs/Work.antt: at most one step
//! for each event due to the frontiers, two for each due to the engine beside them, eighteen for each due to searches, and once since
//! an edit, where an order stops, twenty-two for each event. Tries have none there. `refute` makes all configurations of each beginning
//! anew (`lin_frontier`). More: docs/SEARCHES.md, 'Who is asked first' and 'When'.
#![tactic(auto)]

mod beside;
mod chain;
mod exact;
mod found;
mod patience;
mod refuting;
mod schedule;

pub use chain::{Chain, RefuteFault};
pub use lin_engines::End;
