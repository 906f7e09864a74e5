//! What the operations of a register did, as far as its whole history tells. The reply of a read is known ahead of its completion.
use lin_events::{Body, Call, Event, Item, OutOfMemory, Reply, Val};
use std::alloc::Global;
use std::collections::HashMap;

/// What an operation did.
#[derive(Clone, Copy, Debug, PartialEq, Eq)]
pub enum Act {
    /// It found the value.
    Read(Val),
    Write(Val),
    /// It found the first value and left the second.
    Cas(Val, Val),
}

impl Act {
    /// Of an update what the register holds after it, if it can be taken where the register holds this.
    pub fn value_after(self, held: Val) -> Option<Val> {
        match self {
            Act::Write(value) => Some(value),
            Act::Cas(from, to) if from == held => Some(to),
            Act::Cas(_, _) | Act::Read(_) => None,
        }
    }

    /// What an update leaves in the register.
    pub fn value_left(self) -> Option<Val> {
        match self {
            Act::Write(value) | Act::Cas(_, value) => Some(value),
            Act::Read(_) => None,
        }
    }

    /// What the register has to hold before it.
    pub fn value_needed(self) -> Option<Val> {
        match self {
            Act::Read(value) | Act::Cas(value, _) => Some(value),
            Act::Write(_) => None,
        }
    }

    /// Whether it leaves the register as it is.
    pub fn is_read(self) -> bool {
        matches!(self, Act::Read(_))
    }

    /// Whether it leaves its own value whatever it finds.
    pub fn is_write(self) -> bool {
        matches!(self, Act::Write(_))
    }

    /// What the register holds behind it.
    pub fn value_behind(self) -> Val {
        match self {
            Act::Read(value) | Act::Write(value) | Act::Cas(_, value) => value,
        }
    }

    /// What it answered.
    pub fn reply(self) -> Reply {
        match self {
            Act::Read(value) => Reply::Value(value),
            Act::Write(_) | Act::Cas(_, _) => Reply::Done,
        }
    }
}

/// What is known of the place of an event.
#[derive(Clone, Copy)]
struct Moment {
    /// What the operation did that was invoked there, if an order may place it.
    act: Option<Act>,
    /// Where the operation was invoked that returned there.
    begin: Option<usize>,
    /// Where the operation was invoked that failed there.
    failure: Option<usize>,
    /// Whether the operation returned that was invoked there.
    returned: bool,
    /// Where that returned; where it never did, the last return of one that may need what it left.
    last: usize,
    /// The last invocation before that returned of an update that leaves what that found.
    source: usize,
}

/// A place of which nothing is known.
const NOTHING: Moment = Moment {
    act: None,
    begin: None,
    failure: None,
    returned: false,
    last: 0,
    source: 0,
};

/// The operations that an order places or may place, named by the places of their invocations. Failed ones are none of them, and reads
/// that never returned needn't be.
#[derive(Drop)]
pub struct Acts {
    moments: Vec<Moment>,
}

/// An operation that is open where an order begins.
#[derive(Drop)]
pub struct Waiting {
    pub process: u64,
    pub call: Call,
    /// The reply with which it was placed, if it was.
    pub reply: Option<Reply>,
}

/// A place for each value, 0 where none was put.
#[derive(Drop)]
struct ValuePlaces {
    nil: usize,
    items: HashMap<Item, usize>,
}

impl ValuePlaces {
    fn new(alloc: Global) -> ValuePlaces {
        ValuePlaces {
            nil: 0,
            items: HashMap::new(alloc),
        }
    }

    fn get(&self, value: Val) -> usize {
        match value {
            Val::Nil => self.nil,
            Val::Item(item) => self.items.get(&item).copied().unwrap_or(0),
        }
    }

    fn put(&mut self, value: Val, at: usize) -> Result<(), OutOfMemory> {
        match value {
            Val::Nil => self.nil = at,
            Val::Item(item) => {
                self.items.insert(item, at)?;
            }
        }
        Ok(())
    }
}

/// What the call is known to do before it returns.
pub fn act_of(call: &Call) -> Option<Act> {
    match call {
        Call::Write(value) => Some(Act::Write(*value)),
        Call::Cas(from, to) => Some(Act::Cas(*from, *to)),
        _ => None,
    }
}

impl Acts {
    /// Those that are open where the events begin, and those of the events, whose places are counted behind them.
    pub fn from_events(
        alloc: Global,
        open: &[Waiting],
        events: &[Event],
    ) -> Result<Acts, OutOfMemory> {
        let count = open.len().saturating_add(events.len());
        let mut acts = Acts {
            moments: Vec::with_capacity(alloc, count)?,
        };
        let mut latest: HashMap<u64, usize> = HashMap::new(alloc);
        for waiting in open {
            acts.invoke(&mut latest, waiting.process, &waiting.call)?;
        }
        for event in events {
            acts.follow(&mut latest, event)?;
        }
        Ok(acts)
    }

    /// The process invoked the call.
    fn invoke(
        &mut self,
        latest: &mut HashMap<u64, usize>,
        process: u64,
        call: &Call,
    ) -> Result<(), OutOfMemory> {
        latest.insert(process, self.moments.len())?;
        self.moments.push(Moment {
            act: act_of(call),
            ..NOTHING
        })?;
        Ok(())
    }

    /// The event comes next.
    fn follow(
        &mut self,
        latest: &mut HashMap<u64, usize>,
        event: &Event,
    ) -> Result<(), OutOfMemory> {
        if let Body::Invoke(call) = &event.body {
            return self.invoke(latest, event.process, call);
        }
        let at = self.moments.len();
        self.moments.push(NOTHING)?;
        let begin = latest.get(&event.process);
        match &event.body {
            Body::Ok(_, reply) => self.end(at, begin, reply),
            Body::Fail(_) => self.fail(at, begin),
            _ => {}
        }
        Ok(())
    }

    /// Whether the operations can stand ahead of the events that are open where these begin and have replies. Those that never return are
    /// taken away then, since they are placed no more.
    pub fn takes(&mut self, open: &[Waiting]) -> bool {
        for (at, waiting) in open.iter().enumerate() {
            if let Some(reply) = &waiting.reply {
                if !self.agrees(at, reply) {
                    return false;
                }
                if !self.has_returned(at) {
                    self.set(at, None);
                }
            }
        }
        true
    }

    /// Whether the operation that was invoked there did not fail, nor return with another reply.
    fn agrees(&self, at: usize, reply: &Reply) -> bool {
        for moment in &self.moments {
            if moment.failure == Some(at) {
                return false;
            }
        }
        match self.act(at) {
            Some(Act::Read(value)) => match reply {
                Reply::Value(found) => *found == value,
                _ => false,
            },
            _ => true,
        }
    }

    fn set(&mut self, at: usize, act: Option<Act>) {
        if let Some(moment) = self.moments.get_mut(at) {
            moment.act = act;
        }
    }

    /// The operation that was invoked there returned with the reply.
    fn end(&mut self, at: usize, begin: Option<&usize>, reply: &Reply) {
        let Some(begin) = begin else {
            return;
        };
        if let Some(moment) = self.moments.get_mut(at) {
            moment.begin = Some(*begin);
        }
        if let Some(moment) = self.moments.get_mut(*begin) {
            moment.returned = true;
        }
        if let Reply::Value(value) = reply {
            self.set(*begin, Some(Act::Read(*value)));
        }
    }

    /// The operation that was invoked there had no effect.
    fn fail(&mut self, at: usize, begin: Option<&usize>) {
        let Some(begin) = begin else {
            return;
        };
        if let Some(moment) = self.moments.get_mut(at) {
            moment.failure = Some(*begin);
        }
        self.set(*begin, None);
    }

    /// What the operation that was invoked there did, if an order may place it.
    pub fn act(&self, at: usize) -> Option<Act> {
        self.moments.get(at)?.act
    }

    /// Where the operation was invoked that returned there.
    pub fn begin(&self, at: usize) -> Option<usize> {
        self.moments.get(at)?.begin
    }

    /// Where the operation was invoked that failed there.
    pub fn failure(&self, at: usize) -> Option<usize> {
        self.moments.get(at)?.failure
    }

    /// Whether the operation that was invoked there returned.
    pub fn has_returned(&self, at: usize) -> bool {
        self.moments.get(at).is_some_and(|moment| moment.returned)
    }

    /// How many events there are.
    pub fn len(&self) -> usize {
        self.moments.len()
    }

    /// Notes where operations are needed no longer, and where what they need was left. Those that never returned and aren't needed go.
    pub fn look_ahead(&mut self, alloc: Global) -> Result<(), OutOfMemory> {
        let mut left = ValuePlaces::new(alloc);
        let mut needed = ValuePlaces::new(alloc);
        for at in 0..self.moments.len() {
            self.note_return(at, &left, &mut needed)?;
            if let Some(value) = self.act(at).and_then(Act::value_left) {
                left.put(value, at)?;
            }
        }
        self.pass_on(&mut needed)?;
        for at in 0..self.moments.len() {
            self.note_need(at, &needed);
        }
        Ok(())
    }

    /// Notes what is known of an operation that returned there.
    fn note_return(
        &mut self,
        at: usize,
        left: &ValuePlaces,
        needed: &mut ValuePlaces,
    ) -> Result<(), OutOfMemory> {
        let Some(begin) = self.begin(at) else {
            return Ok(());
        };
        if let Some(moment) = self.moments.get_mut(begin) {
            moment.last = at;
        }
        let Some(value) = self.act(begin).and_then(Act::value_needed) else {
            return Ok(());
        };
        if let Some(moment) = self.moments.get_mut(begin) {
            moment.source = left.get(value);
        }
        needed.put(value, at)
    }

    /// What is needed of a compare-and-set that never returned, is needed of what it found.
    fn pass_on(&self, needed: &mut ValuePlaces) -> Result<(), OutOfMemory> {
        for at in (0..self.moments.len()).rev() {
            if !self.has_returned(at)
                && let Some(Act::Cas(from, to)) = self.act(at)
            {
                let last = needed.get(from).max(needed.get(to));
                needed.put(from, last)?;
            }
        }
        Ok(())
    }

    /// Notes until where an operation may be needed that was invoked there and never returned.
    fn note_need(&mut self, at: usize, needed: &ValuePlaces) {
        if self.has_returned(at) {
            return;
        }
        let Some(value) = self.act(at).and_then(Act::value_left) else {
            return;
        };
        let until = needed.get(value);
        if until <= at {
            self.set(at, None);
        }
        if let Some(moment) = self.moments.get_mut(at) {
            moment.last = until;
        }
    }

    /// Where the operation that was invoked there is needed no longer.
    pub fn last_need(&self, at: usize) -> usize {
        self.moments.get(at).map_or(0, |moment| moment.last)
    }

    /// The last update that may have left what the operation found that was invoked there.
    pub fn source(&self, at: usize) -> usize {
        self.moments.get(at).map_or(0, |moment| moment.source)
    }
}
