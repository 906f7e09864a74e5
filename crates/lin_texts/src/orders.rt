//! The orders that texts write.
ghost use Rattle.std.specs.Prelude.{◌≡◌, ◌-◌, ◌<◌, ◌==◌, [], false, true, length, map, position, slice_range, IfOk, IfSome, MatchOption, MatchResult};
ghost use Rattle.lin_lists.specs.Sets.{members_of};
ghost use Rattle.lin_events.specs.Items.{item_cmp};
ghost use Rattle.lin_names.specs.Names.{Begins};
ghost use Rattle.lin_names.specs.Spelled.{numbered, seen};
ghost use Rattle.lin_texts.specs.Orders.{is_below, is_braced, members_written, order_written, pair_of, pair_written, pairs_of, reply_of, reply_written, IsOrderBy, IsRefusedAs};
ghost use Rattle.lin_texts.specs.Parts.{filled_from};
ghost use Rattle.lin_texts.specs.Saying.{AreOrdered, IsAsSaid};
ghost use Rattle.lin_texts.specs.declared.parts.Division.TheVariants as division;

use crate::faults::OrderFault;
use crate::integers::number;
use crate::items::item_in;
use crate::parts::{Division, next_filled, part_end};
use lin_events::{IntSet, OutOfMemory, Reply, Val};
use lin_names::{Names, Said, names_grow, said_order};
use lin_order::Placed;
use std::alloc::Global;

/// Whether an item is above the last one in print, if there is one.
fn is_above(last: Option<Said>, item: Said) -> bool
    ensures { MatchOption last.entry (result ≡ true) (λ below. is_below (seen below) (seen item.entry) ≡ result) }
{
    match last {
        Some(last) => said_order(last, item).is_lt(),
        None => true,
    }
}

/// The members that a text writes with commas between them, where they rise strictly in print.
fn read_members(
    alloc: Global,
    text: &[u8],
    names: &mut Names,
) -> Result<Option<IntSet>, OutOfMemory>
    ensures begun { Begins names.old names.new }
    ensures read { IfOk result (IsAsSaid (λ number xs. members_of item_cmp (map (numbered number) xs)) names.new (members_written text.now)) }
{
    names_grow();
    let mut members = Vec::new(alloc);
    if text.is_empty() {
        return Ok(Some(IntSet::new(alloc)));
    }
    let mut last = None;
    let mut from = 0;
    'parts: loop {
        let end = part_end(text, from, Division::Members);
        let Some(said) = item_in(&text[from..end]) else {
            return Ok(None);
        };
        if !is_above(last, said) {
            return Ok(None);
        }
        members.push(said.item(names)?)?;
        if end == text.len() {
            return Ok(Some(IntSet::from_members(alloc, members)?));
        }
        last = Some(said);
        from = end + 1;
    }
}

/// What stands between a brace at the front and one at the end.
fn between_braces(text: &[u8]) -> Option<&[u8]>
    ensures { MatchOption result (is_braced text.now ≡ false)
        (λ inside. (is_braced text.now ≡ true) × (inside.now ≡ slice_range text.now 1 (length text.now - 1))) }
{
    match text {
        [b'{', inside @ .., b'}'] => Some(inside),
        _ => None,
    }
}

/// The reply that a text writes.
fn read_reply(alloc: Global, text: &[u8], names: &mut Names) -> Result<Option<Reply>, OutOfMemory>
    ensures begun { Begins names.old names.new }
    ensures read { IfOk result (IsAsSaid reply_of names.new (reply_written text.now)) }
{
    if text == b"done".as_slice() {
        return Ok(Some(Reply::Done));
    }
    if text == b"nil".as_slice() {
        return Ok(Some(Reply::Value(Val::Nil)));
    }
    match between_braces(text) {
        Some(inside) => match read_members(alloc, inside, names)? {
            Some(members) => Ok(Some(Reply::Members(members))),
            None => Ok(None),
        },
        None => match item_in(text) {
            Some(said) => Ok(Some(Reply::Value(Val::Item(said.item(names)?)))),
            None => Ok(None),
        },
    }
}

/// The place of the first `=` of a word.
fn place_of_sign(word: &[u8]) -> Option<usize>
    ensures place { result ≡ position (λ c. c == 61) word.now }
    ensures within { IfSome result (λ place. place < length word.now) }
{
    word.iter().position(|byte| *byte == b'=')
}

/// The pair that a word writes.
fn read_pair(alloc: Global, word: &[u8], names: &mut Names) -> Result<Option<Placed>, OutOfMemory>
    ensures begun { Begins names.old names.new }
    ensures read { IfOk result (IsAsSaid pair_of names.new (pair_written word.now)) }
{
    names_grow();
    let Some(sign) = place_of_sign(word) else {
        return Ok(None);
    };
    let Some(at) = number(&word[..sign], u64::MAX) else {
        return Ok(None);
    };
    match read_reply(alloc, &word[sign + 1..], names)? {
        Some(reply) => Ok(Some(Placed {
            at: at as usize,
            reply,
        })),
        None => Ok(None),
    }
}

/// The pairs that the words of a text write.
fn read_pairs(alloc: Global, text: &[u8], names: &mut Names) -> Result<Vec<Placed>, OrderFault>
    ensures begun { Begins names.old names.new }
    ensures read { let pairs = pairs_of (filled_from division.Pairs 0 text.now) in
        MatchResult result (λ order. AreOrdered names.new pairs order.items) (IsRefusedAs pairs) }
{
    names_grow();
    let mut order = Vec::new(alloc);
    let mut from = 0;
    'words: while let Some(word) = next_filled(text, from, Division::Pairs) {
        let Some(pair) = read_pair(alloc, word.text, names)? else {
            return Err(OrderFault::BadPair { at: word.at });
        };
        order.push(pair)?;
        from = word.at + word.text.len();
    }
    Ok(order)
}

/// The order that a text writes: the word `empty`, or one pair `AT=REPLY` or more, with spaces between them.
///
/// `AT` is the position of an invocation. A reply is `done`, `nil`, an item, or items `{a,b,c}` that rise strictly in the order of print. A
/// string in a reply runs to its closing quote, whatever stands in it.
///
/// Errors: `BadPair` with the place of the first word that is no pair, or 0 where there is no word; want of memory.
pub fn read_order(alloc: Global, text: &[u8], names: &mut Names) -> Result<Vec<Placed>, OrderFault>
    ensures begun { Begins names.old names.new }
    ensures read { MatchResult result (λ order. IsOrderBy names.new text.now order.items) (IsRefusedAs (order_written text.now)) }
{
    names_grow();
    let Some(word) = next_filled(text, 0, Division::Pairs) else {
        return Err(OrderFault::BadPair { at: 0 });
    };
    let is_last = next_filled(text, word.at + word.text.len(), Division::Pairs).is_none();
    if is_last && word.text == b"empty".as_slice() {
        return Ok(Vec::new(alloc));
    }
    read_pairs(alloc, text, names)
}
