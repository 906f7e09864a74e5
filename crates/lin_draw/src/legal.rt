//! Legal orders of the events before a failure.
use crate::own::Own;
use lin_answers::Present;
use lin_events::{Event, Item, OutOfMemory};
use lin_objects::Kind;
use lin_order::Placed;
use std::alloc::Global;

/// Who finds the legal orders that pictures show.
pub trait Orders {
    /// A legal order of these events of one object, by their places, if one is found within the budget.
    fn order_of(
        &self,
        alloc: Global,
        kind: Kind,
        budget: u32,
        events: Vec<Event>,
    ) -> Result<Option<Vec<Placed>>, OutOfMemory>;
}

/// The operations of an order of these events, by their positions in the history.
fn with_positions(
    alloc: Global,
    order: Vec<Placed>,
    picks: &[usize],
) -> Result<Vec<Placed>, OutOfMemory> {
    let mut placed = Vec::new(alloc);
    for one in order {
        if let Some(position) = picks.get(one.at) {
            placed.push(Placed {
                at: *position,
                reply: one.reply,
            })?;
        }
    }
    Ok(placed)
}

/// A legal order of the object's events, if they have one that is found within the budget.
fn order_of<O: Orders>(
    alloc: Global,
    orders: &O,
    present: &Present<'_>,
    key: Item,
    own: Own,
) -> Result<Option<Vec<Placed>>, OutOfMemory> {
    let Own { events, picks } = own;
    match orders.order_of(alloc, present.kind_of(key), present.budget(), events)? {
        Some(order) => Ok(Some(with_positions(alloc, order, picks.as_slice())?)),
        None => Ok(None),
    }
}

/// A legal order of all events but the last one, in which the failing operation ends: if there is one, an order without that
/// operation. None where none is found within the budget.
pub(crate) fn order_before<O: Orders>(
    alloc: Global,
    orders: &O,
    present: &Present<'_>,
    key: Item,
    own: &Own,
    failing: usize,
) -> Result<Vec<Placed>, OutOfMemory> {
    let without = own.without(alloc, Some(failing))?;
    if let Some(order) = order_of(alloc, orders, present, key, without)? {
        return Ok(order);
    }
    let before = own.without(alloc, None)?;
    match order_of(alloc, orders, present, key, before)? {
        Some(order) => Ok(order),
        None => Ok(Vec::new(alloc)),
    }
}
