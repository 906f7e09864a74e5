//! What a register, a lock, a set or a bag holds, changed by calls and changed back, each in constant time.
use crate::numbers::{Numbers, list_of, mix};
use lin_events::{Call, Item, OutOfMemory, Reply, Val};
use std::alloc::Global;

/// What an operation did, by the numbers of items and values.
#[derive(Clone, Copy)]
pub enum Act {
    /// It left the value, maybe only where it found the other.
    Move(Option<usize>, usize),
    Put(usize),
    Take(usize),
    /// It took an item, and didn't tell which.
    TakeAny,
    /// It found all that is inside, which has the digest.
    Find(u64),
}

/// What a lock holds.
const FREE: usize = 0;

const HELD: usize = 1;

/// The digest of the items.
fn digest_of(items: &[Item], numbers: &mut Numbers) -> Result<u64, OutOfMemory> {
    let mut digest: u64 = 0;
    for item in items {
        digest = digest.wrapping_add(weight(numbers.of(*item)?));
    }
    Ok(digest)
}

/// What the item with the number weighs in a digest.
fn weight(number: usize) -> u64 {
    mix(number as u64)
}

/// What a read did that got the reply.
fn read_of(reply: &Reply, numbers: &mut Numbers) -> Result<Option<Act>, OutOfMemory> {
    match reply {
        Reply::Value(value) => {
            let value = numbers.of_value(*value)?;
            Ok(Some(Act::Move(Some(value), value)))
        }
        Reply::Members(members) => Ok(Some(Act::Find(digest_of(members.as_slice(), numbers)?))),
        Reply::Done => Ok(None),
    }
}

/// What a dequeue did that got the reply.
fn dequeue_of(reply: &Reply, numbers: &mut Numbers) -> Result<Option<Act>, OutOfMemory> {
    match reply {
        Reply::Value(Val::Item(item)) => Ok(Some(Act::Take(numbers.of(*item)?))),
        _ => Ok(Some(Act::Find(0))),
    }
}

impl Act {
    /// That of the call, which got the reply, or none yet. A read that never returned is none.
    pub fn of(
        call: Call,
        reply: Option<&Reply>,
        numbers: &mut Numbers,
    ) -> Result<Option<Act>, OutOfMemory> {
        match call {
            Call::Read => match reply {
                Some(reply) => read_of(reply, numbers),
                None => Ok(None),
            },
            Call::Write(value) => Ok(Some(Act::Move(None, numbers.of_value(value)?))),
            Call::Cas(from, to) => Ok(Some(Act::Move(
                Some(numbers.of_value(from)?),
                numbers.of_value(to)?,
            ))),
            Call::Enqueue(item) | Call::Add(item) => Ok(Some(Act::Put(numbers.of(item)?))),
            Call::Dequeue => match reply {
                Some(reply) => dequeue_of(reply, numbers),
                None => Ok(Some(Act::TakeAny)),
            },
            Call::Acquire => Ok(Some(Act::Move(Some(FREE), HELD))),
            Call::Release => Ok(Some(Act::Move(Some(HELD), FREE))),
        }
    }
}

/// What is held by a register or a lock, and the digest of the items inside of a set or a bag.
#[derive(Clone, Copy)]
pub struct Held {
    value: usize,
    digest: u64,
}

impl Held {
    /// A number by which it is known, and no deed is.
    pub fn code(self) -> u64 {
        mix(mix(self.digest).wrapping_add(self.value as u64))
    }
}

#[derive(Drop)]
pub struct Contents {
    pub held: Held,
    /// How often each item is inside.
    counts: Vec<usize>,
    /// Whether an item that is put in again changes nothing.
    is_set: bool,
}

impl Contents {
    /// Nothing, of so many items that there are.
    pub fn new(alloc: Global, is_set: bool, items: usize) -> Result<Contents, OutOfMemory> {
        Ok(Contents {
            held: Held {
                value: 0,
                digest: 0,
            },
            counts: list_of(alloc, items, 0)?,
            is_set,
        })
    }

    fn put(&mut self, item: usize) -> bool {
        let Some(count) = self.counts.get_mut(item) else {
            return false;
        };
        if !self.is_set || *count == 0 {
            self.held.digest = self.held.digest.wrapping_add(weight(item));
        }
        *count = count.saturating_add(1);
        true
    }

    fn take(&mut self, item: usize) -> bool {
        let Some(count) = self.counts.get_mut(item) else {
            return false;
        };
        if *count == 0 {
            return false;
        }
        *count = count.saturating_sub(1);
        self.held.digest = self.held.digest.wrapping_sub(weight(item));
        true
    }

    /// Whether the act can be; then it is done.
    pub fn take_in(&mut self, act: Act) -> bool {
        match act {
            Act::Move(from, to) => {
                if from.is_some_and(|from| from != self.held.value) {
                    return false;
                }
                self.held.value = to;
                true
            }
            Act::Put(item) => self.put(item),
            Act::Take(item) => self.take(item),
            Act::Find(digest) => self.held.digest == digest,
            Act::TakeAny => false,
        }
    }

    /// The act is undone, before which this was held.
    pub fn take_back(&mut self, act: Act, before: Held) {
        match act {
            Act::Put(item) => {
                if let Some(count) = self.counts.get_mut(item) {
                    *count = count.saturating_sub(1);
                }
            }
            Act::Take(item) => {
                if let Some(count) = self.counts.get_mut(item) {
                    *count = count.saturating_add(1);
                }
            }
            Act::Move(_, _) | Act::Find(_) | Act::TakeAny => {}
        }
        self.held = before;
    }
}
