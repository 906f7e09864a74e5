//! Several operations in words: the first of them, and how many more there are.
ghost use Rattle.std.specs.Prelude.{◌≡◌, ◌++◌, codes, length, OnOk, take};
ghost use Rattle.std.specs.List.{flat_map, join_by};
ghost use Rattle.lin_certificate_lines.specs.Series.{behind_failed, fact_text, facts_text, failures_text, more_text, times_text};
ghost use Rattle.lin_certificate_lines.specs.Telling.{did_text};
ghost use Rattle.lin_certificate_lines.specs.declared.told.Verb.TheVariants.{Failed};

use crate::told::{ObjectEvents, Verb, put_did};
use lin_texts::put_number;
use std::alloc::AllocError;

/// So many operations are told one by one.
pub(crate) const FIRSTS: usize = 3;

/// The first of these, as many as are told.
pub(crate) fn firsts_of(list: &[usize], most: usize) -> &[usize]
    ensures { result.now ≡ take most list.now }
{
    if list.len() <= most {
        return list;
    }
    &list[..most]
}

/// Puts last how many more there are, if there are any.
fn put_more(line: &mut Vec<u8>, more: usize) -> Result<(), AllocError>
    ensures { OnOk result (line.new.items ≡ line.old.items ++ more_text more) }
{
    if more == 0 {
        return Ok(());
    }
    line.extend_from_slice(b", and ")?;
    put_number(line, more as u64)?;
    line.extend_from_slice(b" more")
}

/// Puts last how many times something was done.
fn put_times(line: &mut Vec<u8>, count: usize) -> Result<(), AllocError>
    ensures { OnOk result (line.new.items ≡ line.old.items ++ times_text count) }
{
    put_number(line, count as u64)?;
    if count == 1 {
        line.extend_from_slice(b" time")
    } else {
        line.extend_from_slice(b" times")
    }
}

/// Puts last how many of these there are, as times.
pub(crate) fn put_how_often(line: &mut Vec<u8>, list: &[usize]) -> Result<(), AllocError>
    ensures { OnOk result (line.new.items ≡ line.old.items ++ times_text (length list.now)) }
{
    put_times(line, list.len())
}

/// Puts a line last that tells of an operation.
pub(crate) fn put_fact(
    text: &mut Vec<u8>,
    told: &ObjectEvents,
    verb: Verb,
    at: usize,
) -> Result<(), AllocError>
    ensures { OnOk result (text.new.items ≡ text.old.items ++ fact_text told.now verb at) }
{
    text.extend_from_slice(b"  ")?;
    put_did(text, told, verb, at)?;
    text.push(b'\n')?;
    Ok(())
}

/// Puts last what is told of each of these operations, with commas between them.
fn put_all_did(
    line: &mut Vec<u8>,
    told: &ObjectEvents,
    verb: Verb,
    list: &[usize],
) -> Result<(), AllocError>
    ensures { OnOk result (line.new.items ≡ line.old.items ++ join_by (did_text told.now verb) (codes ", ") list.now) }
{
    let Some((first, others)) = list.split_first() else {
        return Ok(());
    };
    put_did(line, told, verb, *first)?;
    for at in others {
        line.extend_from_slice(b", ")?;
        put_did(line, told, verb, *at)?;
    }
    Ok(())
}

/// Puts a line last that tells of these operations, if there are any.
pub(crate) fn put_facts(
    text: &mut Vec<u8>,
    told: &ObjectEvents,
    verb: Verb,
    list: &[usize],
) -> Result<(), AllocError>
    ensures { OnOk result (text.new.items ≡ text.old.items ++ facts_text told.now verb list.now) }
{
    if list.len() == 0 {
        return Ok(());
    }
    text.extend_from_slice(b"  ")?;
    put_all_did(text, told, verb, firsts_of(list, FIRSTS))?;
    put_more(text, list.len().saturating_sub(FIRSTS))?;
    text.push(b'\n')?;
    Ok(())
}

/// Puts a line last for each of these operations, which failed.
fn put_each_failed(
    text: &mut Vec<u8>,
    told: &ObjectEvents,
    list: &[usize],
) -> Result<(), AllocError>
    ensures { OnOk result (text.new.items ≡ text.old.items ++ flat_map (fact_text told.now Failed) list.now) }
{
    for at in list {
        put_fact(text, told, Verb::Failed, *at)?;
    }
    Ok(())
}

/// Puts the line last of what a fail claims, or the other text where no operation failed.
pub(crate) fn put_behind_failed(
    text: &mut Vec<u8>,
    none: &[u8],
    failed: &[usize],
) -> Result<(), AllocError>
    ensures { OnOk result (text.new.items ≡ text.old.items ++ behind_failed none.now failed.now) }
{
    if failed.len() == 0 {
        return text.extend_from_slice(none);
    }
    text.extend_from_slice(
        b"  a call that may have taken effect, as one that timed out, is recorded as :info, not :fail\n",
    )
}

/// Puts a line last for each of the first of these operations, which failed, and what a fail claims; or the line that there is none.
pub(crate) fn put_failures(
    text: &mut Vec<u8>,
    told: &ObjectEvents,
    none: &[u8],
    failed: &[usize],
) -> Result<(), AllocError>
    ensures { OnOk result (text.new.items ≡ text.old.items ++ failures_text told.now none.now failed.now) }
{
    put_each_failed(text, told, firsts_of(failed, FIRSTS))?;
    put_behind_failed(text, none, failed)
}
