//! The operations that lead to what was possible.
ghost use Rattle.std.specs.Prelude.{◌≡◌, ◌++◌, codes, length, OnOk};
ghost use Rattle.std.specs.List.{join_by};
ghost use Rattle.lin_possibilities.specs.Words.{ahead_of as ahead_in, after_text, leading_to, placed_text};

use lin_events::{Body, Event};
use lin_names::Names;
use lin_order::Placed;
use lin_tables::put_operation;
use std::alloc::AllocError;

/// So many operations are named.
const NAMED: usize = 3;

/// How many operations of an order are ahead of the one that was invoked there.
fn count_ahead(order: &[Placed], call: usize) -> usize
    ensures { result ≡ length (ahead_in call order.now) }
{
    order.iter().take_while(|placed| placed.at != call).count()
}

/// The operations of an order ahead of the one that was invoked there.
fn ahead_of(order: &[Placed], call: usize) -> &[Placed]
    ensures { result.now ≡ ahead_in call order.now }
{
    &order[..count_ahead(order, call)]
}

/// The operations of an order ahead of the one that was invoked there, if one is meant, or all of them.
pub(crate) fn leading(order: &[Placed], call: Option<usize>) -> &[Placed]
    ensures { result.now ≡ leading_to call order.now }
{
    match call {
        Some(call) => ahead_of(order, call),
        None => order,
    }
}

/// Puts the words of an operation last, with the reply that an order gives it.
fn put_placed(
    text: &mut Vec<u8>,
    names: &Names,
    events: &[Event],
    placed: &Placed,
) -> Result<(), AllocError>
    ensures { OnOk result (text.new.items ≡ text.old.items ++ placed_text names.now events.now placed.now) }
{
    let Some(event) = events.get(placed.at) else {
        return Ok(());
    };
    let Body::Invoke(call) = &event.body else {
        return Ok(());
    };
    put_operation(text, names, event.process, *call, Some(&placed.reply))
}

/// Puts the words of the operations last, with commas between them.
fn put_all(
    text: &mut Vec<u8>,
    names: &Names,
    events: &[Event],
    order: &[Placed],
) -> Result<(), AllocError>
    ensures { OnOk result (text.new.items ≡ text.old.items ++ join_by (placed_text names.now events.now) (codes ", ") order.now) }
{
    let Some((first, others)) = order.split_first() else {
        return Ok(());
    };
    put_placed(text, names, events, first)?;
    for placed in others {
        text.extend_from_slice(b", ")?;
        put_placed(text, names, events, placed)?;
    }
    Ok(())
}

/// Puts the words of the last three operations last.
pub(crate) fn put_after(
    text: &mut Vec<u8>,
    names: &Names,
    events: &[Event],
    order: &[Placed],
) -> Result<(), AllocError>
    ensures { OnOk result (text.new.items ≡ text.old.items ++ after_text names.now events.now order.now) }
{
    if order.is_empty() {
        return text.extend_from_slice(b"nothing");
    }
    if order.len() <= NAMED {
        return put_all(text, names, events, order);
    }
    text.extend_from_slice(b"..., ")?;
    put_all(text, names, events, &order[order.len() - NAMED..])
}
