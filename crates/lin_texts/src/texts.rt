//! The texts of orders.
ghost use Rattle.std.specs.Prelude.{◌≡◌, ◌++◌, decimal, OnErr, OnOk};
ghost use Rattle.lin_texts.specs.Fronts.{HasFront};
ghost use Rattle.lin_texts.specs.OrderLaws.{WrittenOrdersAreRead};
ghost use Rattle.lin_texts.specs.Texts.{list_text, members_text, order_text, placed_text, reply_text};

use crate::items::put_item;
use itoa::Buffer;
use lin_events::{Item, OutOfMemory, Reply, Val};
use lin_names::{Names, in_print, is_in_print};
use lin_order::Placed;
use std::alloc::AllocError;

/// Puts items last as they stand, with commas between them.
pub fn put_list(line: &mut Vec<u8>, names: &Names, items: &[Item]) -> Result<(), AllocError>
    ensures put { OnOk result (line.new.items ≡ line.old.items ++ list_text names.now items.now) }
    ensures refused { OnErr result (HasFront line.old.items line.new.items) }
{
    let Some((first, others)) = items.split_first() else {
        return Ok(());
    };
    put_item(line, names, *first)?;
    for item in others {
        line.push(b',')?;
        put_item(line, names, *item)?;
    }
    Ok(())
}

/// Puts members last in the order of print, with commas between them. Takes no memory but the line's where they stand so already.
pub fn put_members(line: &mut Vec<u8>, names: &Names, members: &[Item]) -> Result<(), AllocError>
    ensures put { OnOk result (line.new.items ≡ line.old.items ++ members_text names.now members.now) }
    ensures refused { OnErr result (HasFront line.old.items line.new.items) }
{
    if is_in_print(names, members) {
        return put_list(line, names, members);
    }
    let Ok(sorted) = in_print(names, members) else {
        return Err(AllocError);
    };
    put_list(line, names, sorted.as_slice())
}

fn put_reply(line: &mut Vec<u8>, names: &Names, reply: &Reply) -> Result<(), AllocError>
    ensures put { OnOk result (line.new.items ≡ line.old.items ++ reply_text names.now reply.now) }
    ensures refused { OnErr result (HasFront line.old.items line.new.items) }
{
    match reply {
        Reply::Done => line.extend_from_slice(b"done"),
        Reply::Value(Val::Nil) => line.extend_from_slice(b"nil"),
        Reply::Value(Val::Item(item)) => put_item(line, names, *item),
        Reply::Members(members) => {
            line.push(b'{')?;
            put_members(line, names, members.as_slice())?;
            line.push(b'}')?;
            Ok(())
        }
    }
}

/// Puts a position last.
fn put_position(line: &mut Vec<u8>, position: usize) -> Result<(), AllocError>
    ensures put { OnOk result (line.new.items ≡ line.old.items ++ decimal position) }
    ensures refused { OnErr result (line.new.items ≡ line.old.items) }
{
    let mut digits = Buffer::new();
    line.extend_from_slice(digits.format(position).as_bytes())
}

fn put_pair(line: &mut Vec<u8>, names: &Names, pair: &Placed) -> Result<(), AllocError>
    ensures put { OnOk result (line.new.items ≡ line.old.items ++ placed_text names.now pair.now) }
    ensures refused { OnErr result (HasFront line.old.items line.new.items) }
{
    put_position(line, pair.at)?;
    line.push(b'=')?;
    put_reply(line, names, &pair.reply)
}

/// Puts the text of an order last.
fn put_order(line: &mut Vec<u8>, names: &Names, order: &[Placed]) -> Result<(), AllocError>
    ensures put { OnOk result (line.new.items ≡ line.old.items ++ order_text names.now order.now) }
    ensures refused { OnErr result (HasFront line.old.items line.new.items) }
{
    let Some((first, others)) = order.split_first() else {
        return line.extend_from_slice(b"empty");
    };
    put_pair(line, names, first)?;
    for pair in others {
        line.push(b' ')?;
        put_pair(line, names, pair)?;
    }
    Ok(())
}

/// Puts the text of an order last: `empty`, or its pairs `AT=REPLY` with a space between two. Refused, `out` is as it was.
pub fn write_order(names: &Names, order: &[Placed], out: &mut Vec<u8>) -> Result<(), OutOfMemory>
    ensures written { OnOk result (out.new.items ≡ out.old.items ++ order_text names.now order.now) }
    ensures kept { OnErr result (out.new.items ≡ out.old.items) }
{
    let before = out.len();
    match put_order(out, names, order) {
        Ok(()) => Ok(()),
        Err(_) => {
            out.truncate(before);
            Err(OutOfMemory)
        }
    }
}

/// Reading the text of an order gives that order back. The function does nothing.
pub fn written_orders_are_read()
    ensures { WrittenOrdersAreRead }
{}
