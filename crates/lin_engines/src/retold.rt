//! How a search says an order of a queue, ordered or not, may go on. It takes events of a queue that begins empty, so what waits is put in
//! first. Nothing is promised of what it says.
ghost use Rattle.std.specs.Prelude.{◌≡◌, ◌≤◌, length};
ghost use Rattle.lin_events.specs.Meters.{ticked};

use lin_events::{Body, Call, Event, Item, Meter, Name, OutOfMemory, Reply};
use lin_frontier::{Config, Open, OpenList, is_absent};
use lin_objects::State;
use lin_order::Placed;
use lin_search::{bag_order, queue_order};
use std::alloc::Global;

/// Events of a queue that begins empty, for a search to go through: they come to where the queue stands, and go on as it does.
#[derive(Drop)]
struct Retold {
    events: Vec<Event>,
    /// Where each of them stands among the queue's events; none, where it doesn't.
    places: Vec<Option<usize>>,
}

impl Retold {
    fn new(alloc: Global) -> Retold {
        Retold {
            events: Vec::new(alloc),
            places: Vec::new(alloc),
        }
    }

    /// Puts an event of the process last.
    fn add(&mut self, process: u64, body: Body, place: Option<usize>) -> Result<(), OutOfMemory> {
        self.events.push(Event {
            process,
            key: Item::Int(0),
            body,
        })?;
        self.places.push(place)?;
        Ok(())
    }

    /// The items were put in, one after the other. A try is counted for each.
    fn put_in(&mut self, items: &[Item], meter: &mut Meter) -> Result<(), OutOfMemory>
        ensures counted { meter.new ≡ record meter.old { tries = ticked meter.old.tries (length items.now) } }
        ensures risen { meter.old.tries ≤ meter.new.tries }
    {
        tick_tries(meter, items.len());
        for item in items {
            self.add(0, Body::Invoke(Call::Enqueue(*item)), None)?;
            self.add(0, Body::Ok(Name::Enqueue, Reply::Done), None)?;
        }
        Ok(())
    }

    /// Those of the operations are open that the configuration doesn't place. A try is counted for each of the operations.
    fn open(
        &mut self,
        config: &Config<State>,
        operations: &[Open],
        meter: &mut Meter,
    ) -> Result<(), OutOfMemory>
        ensures counted { meter.new ≡ record meter.old { tries = ticked meter.old.tries (length operations.now) } }
        ensures risen { meter.old.tries ≤ meter.new.tries }
    {
        tick_tries(meter, operations.len());
        for operation in operations {
            if is_absent(config.placed(), operation.process) {
                let call = Body::Invoke(operation.call);
                self.add(operation.process, call, Some(operation.at))?;
            }
        }
        Ok(())
    }

    /// The rest of the events follows, which begins at the place, without the completions of operations that are placed. Whether these
    /// returned as they were placed. A try is counted for each of the events.
    fn follow(
        &mut self,
        alloc: Global,
        config: &Config<State>,
        rest: &[Event],
        of: usize,
        meter: &mut Meter,
    ) -> Result<bool, OutOfMemory>
        ensures counted { meter.new ≡ record meter.old { tries = ticked meter.old.tries (length rest.now) } }
        ensures risen { meter.old.tries ≤ meter.new.tries }
    {
        tick_tries(meter, rest.len());
        let mut ended: Vec<u64> = Vec::new(alloc);
        for (at, event) in rest.iter().enumerate() {
            let Some(reply) = held_by(config.placed(), &ended, event.process) else {
                let body = event.body.copy(alloc)?;
                self.add(event.process, body, Some(of.saturating_add(at)))?;
                continue;
            };
            if !agrees(&event.body, reply) {
                return Ok(false);
            }
            ended.push(event.process)?;
        }
        Ok(true)
    }

    /// Operations of these events by their places among the object's, the first one last.
    fn reverse_to_places(
        &self,
        alloc: Global,
        order: Vec<Placed>,
    ) -> Result<Vec<Placed>, OutOfMemory> {
        let mut order = order;
        let mut hint = Vec::new(alloc);
        while let Some(placed) = order.pop() {
            if let Some(Some(at)) = self.places.get(placed.at) {
                hint.push(Placed {
                    at: *at,
                    reply: placed.reply,
                })?;
            }
        }
        Ok(hint)
    }
}

/// The reply with which the process's operation is placed, if it is, and hasn't ended.
fn held_by<'a>(placed: &'a [(u64, Reply)], ended: &[u64], process: u64) -> Option<&'a Reply> {
    if ended.contains(&process) {
        return None;
    }
    for pair in placed {
        if pair.0 == process {
            return Some(&pair.1);
        }
    }
    None
}

/// Whether an operation that is placed with the reply may end so.
fn agrees(body: &Body, reply: &Reply) -> bool {
    match body {
        Body::Ok(_, given) => *given == *reply,
        Body::Info(_) => true,
        Body::Invoke(_) | Body::Fail(_) => false,
    }
}

/// So many first ones of the items.
fn first_of(items: &[Item], count: usize) -> &[Item] {
    &items[..count.min(items.len())]
}

/// So many things more were retold, or gone through.
fn tick_tries(meter: &mut Meter, count: usize)
    ensures counted { meter.new ≡ record meter.old { tries = ticked meter.old.tries count } }
    ensures risen { meter.old.tries ≤ meter.new.tries }
{
    let before = meter.tries();
    for _ in 0..count {
        meter.tick_try();
    }
    prove!(before <= meter.tries());
}

/// What waits in the state, if it is one of a queue, ordered or not: of an ordered one no more than this many items.
fn waiting_in(state: &State, most: usize) -> Option<&[Item]> {
    match state {
        State::Queue(queue) => Some(first_of(queue.as_slice(), most)),
        State::Bag(bag) => Some(bag.as_slice()),
        State::Value(_) | State::Members(_) | State::Held(_) => None,
    }
}

/// An order of events that come to the state, and go on from it, if a search finds one.
fn order_of(
    alloc: Global,
    state: &State,
    events: &[Event],
) -> Result<Option<Vec<Placed>>, OutOfMemory> {
    match state {
        State::Queue(_) => queue_order(alloc, events),
        State::Bag(_) => bag_order(alloc, events),
        State::Value(_) | State::Members(_) | State::Held(_) => Ok(None),
    }
}

/// What may be placed next, the first one last, over the rest of the events, which begins at the place: if the configuration is one of a
/// queue, ordered or not, and a search finds it. Of what waits in an ordered queue no more is told than can be taken out. A try is counted
/// for each item that waits, for each open operation, and for each of the events.
pub(crate) fn retold_hint(
    alloc: Global,
    config: &Config<State>,
    opened: &OpenList,
    rest: &[Event],
    of: usize,
    meter: &mut Meter,
) -> Result<Option<Vec<Placed>>, OutOfMemory>
    ensures tries { meter.old.tries ≤ meter.new.tries }
    ensures others { meter.new ≡ record meter.old { tries = meter.new.tries } }
{
    let most = rest.len().saturating_add(opened.len());
    let Some(items) = waiting_in(config.state(), most) else {
        return Ok(None);
    };
    let mut retold = Retold::new(alloc);
    retold.put_in(items, meter)?;
    retold.open(config, opened.as_slice(), meter)?;
    if !retold.follow(alloc, config, rest, of, meter)? {
        return Ok(None);
    }
    match order_of(alloc, config.state(), &retold.events)? {
        Some(order) => Ok(Some(retold.reverse_to_places(alloc, order)?)),
        None => Ok(None),
    }
}
