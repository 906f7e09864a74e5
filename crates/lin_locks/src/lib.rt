//! The engine that decides a lock: by what its operations owe.
//!
//! `Lock` takes the events in, one after the other, and there is one way to go. An operation stands where it returns. Where the lock
//! doesn't allow that, as an acquire of a lock that is held, one of the other call stood right ahead of it, an operation that was
//! invoked by then and hasn't ended: that one is owed (`Debt`). An operation that returns pays the earliest debt of its call that came
//! up behind its invocation, and stands there; if there is none, it stands last. So a lock has a legal order exactly where the debts of
//! each call can be paid in turn: the n-th open operation of the call was invoked before the n-th debt came up. In the order that is
//! told they pay so (`settled`).
//!
//! Promised of well-formed events: what `take_in` goes on with has a legal order, which `order` tells; where it doesn't go on, the
//! events up to and with this one have none, and it stays as it was. Both halves are proved by the configurations of the events
//! (`locks_tell`, specs/inner), and follow no paper; operations that crash may pay, those that fail don't. `cut` goes back to any
//! earlier event: each event notes what it changed, and this is taken back, without memory.
//!
//! An event takes near-constant time, but the end of an operation, which takes time linear in what is open and owed then; an order
//! takes time linear in the events. More: docs/SEARCHES.md, 'A lock, by what it owes'.
#![tactic(auto)]

mod changes;
mod latest;
mod laws;
mod locks;
mod sides;
mod standings;

pub use laws::locks_tell;
pub use locks::Lock;
