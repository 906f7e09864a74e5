//! What clients call, and what they are answered.
ghost use Rattle.std.specs.Prelude.{◌≡◌, IfOk};
ghost use Rattle.lin_events.specs.Names.{name_of};

use crate::items::Item;
use crate::lists::{IntSet, OutOfMemory};
use std::alloc::Global;

/// A value of a register, or what a dequeue returns: nil or an item.
#[derive(Clone, Copy, Debug, PartialEq, Eq, Hash)]
pub enum Val {
    Nil,
    Item(Item),
}

/// The function that an operation names.
#[derive(Clone, Copy, Debug, PartialEq, Eq)]
pub enum Name {
    Read,
    Write,
    Cas,
    Enqueue,
    Dequeue,
    Add,
    Acquire,
    Release,
}

/// An invocation: the function with its arguments.
#[derive(Clone, Copy, Debug, PartialEq, Eq, Hash)]
pub enum Call {
    Read,
    Write(Val),
    Cas(Val, Val),
    Enqueue(Item),
    Dequeue,
    Add(Item),
    Acquire,
    Release,
}

/// What a completed operation answered.
#[derive(PartialEq, Eq, Hash, Default, Drop)]
pub enum Reply {
    #[default]
    Done,
    Value(Val),
    Members(IntSet),
}

impl Call {
    /// The function that is called.
    pub fn name(self) -> Name
        ensures { result ≡ name_of self }
    {
        match self {
            Call::Read => Name::Read,
            Call::Write(_) => Name::Write,
            Call::Cas(_, _) => Name::Cas,
            Call::Enqueue(_) => Name::Enqueue,
            Call::Dequeue => Name::Dequeue,
            Call::Add(_) => Name::Add,
            Call::Acquire => Name::Acquire,
            Call::Release => Name::Release,
        }
    }
}

impl Reply {
    /// An equal reply. Sets share their members, so it takes no memory.
    pub fn copy(&self, _alloc: Global) -> Result<Reply, OutOfMemory>
        ensures { IfOk result (λ copy. copy ≡ self.now) }
    {
        match self {
            Reply::Done => Ok(Reply::Done),
            Reply::Value(value) => Ok(Reply::Value(*value)),
            Reply::Members(members) => Ok(Reply::Members(members.copy()?)),
        }
    }
}
