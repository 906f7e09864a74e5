//! Values of a register that may be crossed.
use crate::endings::Operation;
use lin_certificates::Certificate;
use lin_events::{Item, OutOfMemory, Val};
use std::alloc::Global;
use std::collections::HashMap;

/// Whether an operation that isn't failed needs the value, or leaves it.
fn may_touch(operation: &Operation, value: Val) -> bool {
    operation.value_needed() == Some(value)
        || (operation.counts() && operation.value_left() == Some(value))
}

/// How many operations that aren't failed leave the value.
fn times_left(operations: &[Operation], value: Val) -> usize {
    let mut times: usize = 0;
    for operation in operations {
        if operation.counts() && operation.value_left() == Some(value) {
            times = times.saturating_add(1);
        }
    }
    times
}

/// Of the operations that are ok and touch the value the first to return: where that was known, and its place.
fn first_touching(operations: &[Operation], value: Val) -> Option<(usize, usize)> {
    let mut first: Option<(usize, usize)> = None;
    for operation in operations {
        if let Some((end, _)) = operation.ok_end()
            && may_touch(operation, value)
            && first.is_none_or(|(least, _)| end < least)
        {
            first = Some((end, operation.at));
        }
    }
    first
}

/// A value that may be crossed with others: it is left by one operation, or it is nil, with which a register begins, and nothing leaves it.
#[derive(Clone, Copy)]
struct Held {
    value: Val,
    /// Of the operations that are ok and touch it the first to return, unless it is nil: where that was known, and its place.
    first: Option<(usize, usize)>,
}

/// The value, if it may be crossed with others.
fn held_of(operations: &[Operation], value: Val) -> Option<Held> {
    let times = times_left(operations, value);
    match value {
        Val::Nil if times == 0 => Some(Held { value, first: None }),
        Val::Item(_) if times == 1 => Some(Held {
            value,
            first: Some(first_touching(operations, value)?),
        }),
        _ => None,
    }
}

/// What is known of the operations that touch an item of a register.
#[derive(Clone, Copy)]
struct Touching {
    /// How many operations that aren't failed leave it.
    left: usize,
    /// Of those that returned before the operation that is looked at the last to return: where that was known, and its place.
    before: Option<(usize, usize)>,
    /// The first that was invoked when the other value had been touched.
    next: Option<usize>,
}

impl Touching {
    fn new() -> Touching {
        Touching {
            left: 0,
            before: None,
            next: None,
        }
    }

    /// The operation touches the item: `target` is the place of the one that is looked at, and the other value was touched first at `from`.
    fn touch(&mut self, operation: &Operation, target: usize, from: usize) {
        if from < operation.at && self.next.is_none() {
            self.next = Some(operation.at);
        }
        if let Some((end, _)) = operation.ok_end()
            && end < target
            && self.before.is_none_or(|(most, _)| most < end)
        {
            self.before = Some((end, operation.at));
        }
    }
}

/// What is known of each item that operations touch.
fn touches_of(
    alloc: Global,
    operations: &[Operation],
    target: usize,
    from: usize,
) -> Result<HashMap<Item, Touching>, OutOfMemory> {
    let mut known: HashMap<Item, Touching> = HashMap::new(alloc);
    for operation in operations {
        if let Some(Val::Item(item)) = operation.value_needed() {
            let mut about = known.get(&item).copied().unwrap_or(Touching::new());
            about.touch(operation, target, from);
            known.insert(item, about)?;
        }
        if let Some(Val::Item(item)) = operation.value_left()
            && operation.counts()
        {
            let mut about = known.get(&item).copied().unwrap_or(Touching::new());
            about.left = about.left.saturating_add(1);
            about.touch(operation, target, from);
            known.insert(item, about)?;
        }
    }
    Ok(known)
}

/// A value and an item that may be crossed, with the operations that touch them.
#[derive(Clone, Copy)]
struct Crossing {
    held: Held,
    item: Item,
    /// Where the operation that touches the item early was known to have returned, and its place.
    early: (usize, usize),
    /// The first operation that touches the item and was invoked when the value had been touched, unless this is nil.
    next: Option<usize>,
}

impl Crossing {
    /// The certificate, of an operation that touches the value late.
    fn certificate(&self, late: usize) -> Certificate {
        let back = match (self.held.first, self.next) {
            (Some((_, first)), Some(next)) => Some((first, next)),
            _ => None,
        };
        Certificate::Crossed {
            value: self.held.value,
            item: self.item,
            early: self.early.1,
            late,
            back,
        }
    }
}

/// Whether the one value is less.
fn is_less(one: Val, other: Val) -> bool {
    match (one, other) {
        (Val::Nil, Val::Item(_)) => true,
        (Val::Item(one), Val::Item(other)) => one < other,
        _ => false,
    }
}

/// Whether the one operation comes first, or there is none.
fn comes_first(one: Option<usize>, other: Option<usize>) -> bool {
    match (one, other) {
        (None, Some(_)) => true,
        (Some(one), Some(other)) => one < other,
        _ => false,
    }
}

/// Whether the one is wanted rather than the other: the early operation that returned last, then the one that touches the value and returned
/// first, then the one behind it that was invoked first, then the least values.
fn is_wanted(one: &Crossing, other: &Crossing) -> bool {
    if one.early.0 != other.early.0 {
        return other.early.0 < one.early.0;
    }
    let first = one.held.first.map(|(end, _)| end);
    let other_first = other.held.first.map(|(end, _)| end);
    if first != other_first {
        return comes_first(first, other_first);
    }
    if one.next != other.next {
        return comes_first(one.next, other.next);
    }
    if one.held.value != other.held.value {
        return is_less(one.held.value, other.held.value);
    }
    one.item < other.item
}

/// The item and the value, if they may be crossed.
fn crossing_of(known: &HashMap<Item, Touching>, held: Held, item: Item) -> Option<Crossing> {
    let about = known.get(&item)?;
    let early = about.before?;
    if about.left != 1 || held.value == Val::Item(item) {
        return None;
    }
    let next = match held.first {
        None => None,
        Some(_) => Some(about.next?),
    };
    Some(Crossing {
        held,
        item,
        early,
        next,
    })
}

/// Of the items that may be crossed with the value, which the operation at the place touches, the one that is wanted.
fn crossed_with(
    alloc: Global,
    operations: &[Operation],
    target: usize,
    value: Val,
) -> Result<Option<Crossing>, OutOfMemory> {
    let Some(held) = held_of(operations, value) else {
        return Ok(None);
    };
    let from = held.first.map(|(end, _)| end).unwrap_or(0);
    let known = touches_of(alloc, operations, target, from)?;
    let mut best: Option<Crossing> = None;
    for operation in operations {
        if let Some(Val::Item(item)) = operation.value_left()
            && let Some(crossing) = crossing_of(&known, held, item)
            && best.is_none_or(|other| is_wanted(&crossing, &other))
        {
            best = Some(crossing);
        }
    }
    Ok(best)
}

/// The one of the two that is wanted.
fn wanted_of(one: Option<Crossing>, other: Option<Crossing>) -> Option<Crossing> {
    match (one, other) {
        (Some(one), Some(other)) if is_wanted(&other, &one) => Some(other),
        (None, other) => other,
        (one, _) => one,
    }
}

/// Values that may be crossed, of which the operation touches the one late.
pub fn crossed_candidate(
    alloc: Global,
    operations: &[Operation],
    target: &Operation,
) -> Result<Option<Certificate>, OutOfMemory> {
    let mut best = None;
    if let Some(value) = target.value_needed() {
        best = crossed_with(alloc, operations, target.at, value)?;
    }
    if let Some(value) = target.value_left()
        && target.counts()
    {
        best = wanted_of(best, crossed_with(alloc, operations, target.at, value)?);
    }
    Ok(best.map(|crossing| crossing.certificate(target.at)))
}
