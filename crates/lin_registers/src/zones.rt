//! A search for a certificate of a register, one event after another. Whatever it finds is checked; that it finds something isn't promised.
use crate::acts::{Act, Acts, act_of};
use lin_certificates::Certificate;
use lin_events::{Body, Event, Item, OutOfMemory, Val};
use std::alloc::Global;
use std::collections::HashMap;

/// A search gives up that came to more steps than so many for each event and the free ones.
const STEPS: usize = 16;

/// Steps that any search may take.
const FREE: usize = 1 << 18;

/// What is known of a value.
#[derive(Clone, Copy)]
struct Zone {
    /// How many updates leave it that haven't failed, and the sum of their places: where there is one, its place.
    count: usize,
    sum: usize,
    /// How many of these are open, and where the last one returned.
    open: usize,
    end: usize,
    /// Of the operations behind which the register holds it the one that returned first, if one did, and where.
    early: Option<(usize, usize)>,
    /// Of those that returned the one that was invoked last.
    late: usize,
    /// Of the operations that returned and needed it the one that was invoked last.
    need: Option<usize>,
}

/// A value of which nothing is known.
const NOTHING: Zone = Zone {
    count: 0,
    sum: 0,
    open: 0,
    end: 0,
    early: None,
    late: 0,
    need: None,
};

/// What is known of all values.
#[derive(Drop)]
struct Zones {
    nil: Zone,
    items: HashMap<Item, Zone>,
}

/// Of operations that returned the one that was invoked last, and the last one behind which the register held something else, each with what it
/// held.
#[derive(Clone, Copy)]
struct Seen {
    last: Option<(usize, Val)>,
    other: Option<(usize, Val)>,
}

/// What a search has at hand.
#[derive(Drop)]
struct Search {
    zones: Zones,
    /// Values behind which operations returned, and where the last of these did, the latest last.
    recent: Vec<(Item, usize)>,
    seen: Seen,
    /// The same at each event.
    before: Vec<Seen>,
    steps: usize,
}

impl Zones {
    fn new(alloc: Global) -> Zones {
        Zones {
            nil: NOTHING,
            items: HashMap::new(alloc),
        }
    }

    fn get(&self, value: Val) -> Zone {
        match value {
            Val::Nil => self.nil,
            Val::Item(item) => self.items.get(&item).copied().unwrap_or(NOTHING),
        }
    }

    fn put(&mut self, value: Val, zone: Zone) -> Result<(), OutOfMemory> {
        match value {
            Val::Nil => self.nil = zone,
            Val::Item(item) => {
                self.items.insert(item, zone)?;
            }
        }
        Ok(())
    }
}

impl Zone {
    /// An update was invoked that leaves the value.
    fn note_invocation(self, update: usize) -> Zone {
        Zone {
            count: self.count.saturating_add(1),
            sum: self.sum.saturating_add(update),
            open: self.open.saturating_add(1),
            ..self
        }
    }

    /// It failed.
    fn note_failure(self, update: usize) -> Zone {
        Zone {
            count: self.count.saturating_sub(1),
            sum: self.sum.saturating_sub(update),
            open: self.open.saturating_sub(1),
            ..self
        }
    }

    /// It returned.
    fn note_return(self, at: usize) -> Zone {
        Zone {
            open: self.open.saturating_sub(1),
            end: at,
            ..self
        }
    }

    /// An operation returned behind which the register held the value.
    fn note_value_behind(self, operation: usize, at: usize) -> Zone {
        Zone {
            early: Some(self.early.unwrap_or((operation, at))),
            late: self.late.max(operation),
            ..self
        }
    }

    /// An operation returned that needed the value.
    fn note_value_needed(self, operation: usize) -> Zone {
        Zone {
            need: Some(self.need.unwrap_or(operation).max(operation)),
            ..self
        }
    }

    /// Of the operations of a value that one update leaves the one that returned first, and the one that was invoked last.
    fn block(self) -> Option<(usize, usize)> {
        if self.count != 1 {
            return None;
        }
        let (early, _) = self.early?;
        Some((early, self.late.max(self.sum)))
    }

    /// Whether each of the zones begins before the other ends.
    fn crosses(self, other: Zone) -> bool {
        match (self.early, other.early) {
            (Some((_, end)), Some((_, other_end))) => {
                end < other.late.max(other.sum) && other_end < self.late.max(self.sum)
            }
            _ => false,
        }
    }
}

impl Seen {
    /// An operation returned behind which the register held the value.
    fn note_value_behind(self, operation: usize, held: Val) -> Seen {
        match self.last {
            Some((last, value)) if value == held => Seen {
                last: Some((last.max(operation), held)),
                ..self
            },
            Some((last, _)) if last < operation => Seen {
                last: Some((operation, held)),
                other: self.last,
            },
            Some(_) => Seen {
                other: Some(later_operation(self.other, operation, held)),
                ..self
            },
            None => Seen {
                last: Some((operation, held)),
                ..self
            },
        }
    }

    /// The last operation behind which the register held something other than the value.
    fn last_with_another_value(self, value: Val) -> Option<(usize, Val)> {
        match self.last {
            Some((_, held)) if held == value => self.other,
            last => last,
        }
    }
}

/// The later one of the operations, with what the register held behind it.
fn later_operation(seen: Option<(usize, Val)>, operation: usize, held: Val) -> (usize, Val) {
    match seen {
        Some((last, value)) if operation < last => (last, value),
        _ => (operation, held),
    }
}

impl Search {
    fn new(alloc: Global) -> Search {
        Search {
            zones: Zones::new(alloc),
            recent: Vec::new(alloc),
            seen: Seen {
                last: None,
                other: None,
            },
            before: Vec::new(alloc),
            steps: 0,
        }
    }

    /// An update was invoked that leaves the value.
    fn note_invocation(&mut self, update: usize, value: Val) -> Result<(), OutOfMemory> {
        let zone = self.zones.get(value).note_invocation(update);
        self.zones.put(value, zone)
    }

    /// It failed.
    fn note_failure(
        &mut self,
        update: usize,
        value: Val,
    ) -> Result<Option<Certificate>, OutOfMemory> {
        let zone = self.zones.get(value).note_failure(update);
        self.zones.put(value, zone)?;
        Ok(self.certificate(self.stale_certificate(value), value))
    }

    /// A certificate of operations that touch the value, unless there is this one.
    fn certificate(&mut self, stale: Option<Certificate>, value: Val) -> Option<Certificate> {
        let found = stale.or(unwritten_certificate(self.zones.get(value), value));
        found.or(self.crossed_certificate(value))
    }

    /// An operation returned.
    fn note_return(
        &mut self,
        operation: usize,
        act: Act,
        at: usize,
    ) -> Result<Option<Certificate>, OutOfMemory> {
        self.note(operation, act, at)?;
        let stale = match act.value_needed() {
            Some(value) => self.stale_certificate(value),
            None => None,
        };
        Ok(self.certificate(stale, act.value_behind()))
    }

    /// Notes that an operation returned.
    fn note(&mut self, operation: usize, act: Act, at: usize) -> Result<(), OutOfMemory> {
        if let Some(value) = act.value_left() {
            let zone = self.zones.get(value).note_return(at);
            self.zones.put(value, zone)?;
        }
        if let Some(value) = act.value_needed() {
            let zone = self.zones.get(value).note_value_needed(operation);
            self.zones.put(value, zone)?;
        }
        let held = act.value_behind();
        let zone = self.zones.get(held).note_value_behind(operation, at);
        self.zones.put(held, zone)?;
        self.seen = self.seen.note_value_behind(operation, held);
        self.note_recent(held, at)
    }

    /// Notes that an operation returned behind which the register held the value.
    fn note_recent(&mut self, value: Val, at: usize) -> Result<(), OutOfMemory> {
        let Val::Item(item) = value else {
            return Ok(());
        };
        if let Some(last) = self.recent.last_mut()
            && last.0 == item
        {
            last.1 = at;
            return Ok(());
        }
        self.recent.push((item, at))?;
        Ok(())
    }

    /// What the last operation that needed the value can't have found any more.
    fn stale_certificate(&self, value: Val) -> Option<Certificate> {
        let zone = self.zones.get(value);
        let operation = zone.need?;
        if zone.open > 0 {
            return None;
        }
        let (over, held) = self.before.get(operation)?.last_with_another_value(value)?;
        if zone.count > 0 && zone.end >= over {
            return None;
        }
        Some(Certificate::Stale {
            operation,
            value,
            over,
            held,
        })
    }

    /// A value whose operations conflict with those of this one.
    fn crossed_certificate(&mut self, value: Val) -> Option<Certificate> {
        let Val::Item(item) = value else {
            return None;
        };
        let zone = self.zones.get(value);
        let (first, last) = zone.block()?;
        let (_, end) = zone.early?;
        for (other, at) in self.recent.iter().rev() {
            self.steps = self.steps.saturating_add(1);
            if *at < end {
                return None;
            }
            if let Some(found) = self.zones.items.get(other)
                && *other != item
                && zone.crosses(*found)
                && let Some((early, late)) = found.block()
            {
                return Some(Certificate::Crossed {
                    value: Val::Item(*other),
                    item,
                    early: first,
                    late,
                    back: Some((early, last)),
                });
            }
        }
        None
    }
}

/// An operation that found the value, if no update leaves it.
fn unwritten_certificate(zone: Zone, value: Val) -> Option<Certificate> {
    let (operation, _) = zone.early?;
    match value {
        Val::Item(item) if zone.count == 0 => Some(Certificate::Unwritten { operation, item }),
        _ => None,
    }
}

/// What the operation that was invoked there leaves.
fn value_left_at(events: &[Event], at: usize) -> Option<Val> {
    match &events.get(at)?.body {
        Body::Invoke(call) => act_of(call)?.value_left(),
        _ => None,
    }
}

/// A certificate of the events up to and with this one, if none was found before.
fn certificate_at(
    search: &mut Search,
    events: &[Event],
    acts: &Acts,
    at: usize,
) -> Result<Option<Certificate>, OutOfMemory> {
    search.before.push(search.seen)?;
    if let Some(value) = value_left_at(events, at) {
        search.note_invocation(at, value)?;
    }
    if let Some(update) = acts.failure(at)
        && let Some(value) = value_left_at(events, update)
    {
        return search.note_failure(update, value);
    }
    if let Some(operation) = acts.begin(at)
        && let Some(act) = acts.act(operation)
    {
        return search.note_return(operation, act, at);
    }
    Ok(None)
}

/// A certificate of the shortest beginning in which one is found, and the place of its last event.
pub fn register_failure(
    alloc: Global,
    events: &[Event],
) -> Result<Option<(usize, Certificate)>, OutOfMemory> {
    let acts = Acts::from_events(alloc, &[], events)?;
    let most = acts.len().saturating_mul(STEPS).saturating_add(FREE);
    let mut search = Search::new(alloc);
    for at in 0..acts.len() {
        if let Some(certificate) = certificate_at(&mut search, events, &acts, at)? {
            return Ok(Some((at, certificate)));
        }
        if search.steps > most {
            return Ok(None);
        }
    }
    Ok(None)
}
