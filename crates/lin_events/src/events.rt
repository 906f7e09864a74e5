//! Events: the invocations and completions of which a history is a list.
ghost use Rattle.std.specs.Prelude.{◌≡◌, IfOk};

use crate::calls::{Call, Name, Reply};
use crate::items::Item;
use crate::lists::OutOfMemory;
use std::alloc::Global;

/// What an event says: an invocation, or one of the three completions.
///
/// `Ok` says that the operation took effect, `Fail` that it did not, `Info` that this is unknown.
#[derive(PartialEq, Eq, Drop)]
pub enum Body {
    Invoke(Call),
    Ok(Name, Reply),
    Fail(Name),
    Info(Name),
}

/// One event of a history (Herlihy and Wing 1990, section 2): an invocation or a completion of a process at an object.
#[derive(PartialEq, Eq, Drop)]
pub struct Event {
    pub process: u64,
    pub key: Item,
    pub body: Body,
}

impl Body {
    /// An equal body on its own memory.
    pub fn copy(&self, alloc: Global) -> Result<Body, OutOfMemory>
        ensures { IfOk result (λ copy. copy ≡ self.now) }
    {
        match self {
            Body::Invoke(call) => Ok(Body::Invoke(*call)),
            Body::Ok(name, reply) => Ok(Body::Ok(*name, reply.copy(alloc)?)),
            Body::Fail(name) => Ok(Body::Fail(*name)),
            Body::Info(name) => Ok(Body::Info(*name)),
        }
    }
}

impl Event {
    /// An equal event on its own memory.
    pub fn copy(&self, alloc: Global) -> Result<Event, OutOfMemory>
        ensures { IfOk result (λ copy. copy ≡ self.now) }
    {
        let body = self.body.copy(alloc)?;
        Ok(Event {
            process: self.process,
            key: self.key,
            body,
        })
    }
}
