//! The first of what was possible, with the operations that lead to it.
ghost use Rattle.std.specs.Prelude.{◌≡◌, IfOk, map, take};
ghost use Rattle.std.specs.List.{AllZip};
ghost use Rattle.lin_possibilities.specs.declared.words.Extent.TheVariants.{Whole};
ghost use Rattle.lin_possibilities.specs.inner.OutcomesTelling.{AreListed, Leads, words_by};

use crate::after::{leading, put_after};
use crate::possible::Possible;
use crate::told::Told;
use crate::words::Extent;
use lin_events::{Event, OutOfMemory, Reply};
use lin_names::Names;
use lin_tables::ListLine;
use std::alloc::{AllocError, Global};

/// What was possible: how many there are, and the first of them.
#[derive(Drop)]
pub struct Listed {
    /// Their lines, in which long words are told short.
    pub entries: Vec<ListLine>,
    /// The whole words of the same.
    pub whole: Vec<Vec<u8>>,
    pub count: usize,
}

/// What is needed to tell which operations lead to something.
#[derive(Clone, Copy)]
pub(crate) struct Leading<'a> {
    pub(crate) names: &'a Names,
    pub(crate) events: &'a [Event],
    pub(crate) possible: &'a Possible,
    /// The reply that was recorded, beside which a reply is told.
    pub(crate) recorded: Option<&'a Reply>,
    /// Where the operation was invoked up to which an order is told; without one, all of it is.
    pub(crate) call: Option<usize>,
}

/// The words of a state or a reply.
fn words_of(
    alloc: Global,
    extent: Extent,
    leading_by: &Leading,
    told: &Told,
) -> Result<Vec<u8>, AllocError>
    ensures { IfOk result (λ words. words.items ≡ words_by extent leading_by.now told.now) }
{
    told.what
        .words(alloc, extent, leading_by.names, leading_by.recorded)
}

/// The line of a state or a reply.
fn entry_of(alloc: Global, leading_by: &Leading, told: &Told) -> Result<ListLine, OutOfMemory>
    ensures { IfOk result (λ entry. Leads leading_by.now told.now entry) }
{
    let order = leading_by.possible.order(alloc, told.way)?;
    let mut after = Vec::new(alloc);
    put_after(
        &mut after,
        leading_by.names,
        leading_by.events,
        leading(order.as_slice(), leading_by.call),
    )?;
    let words = words_of(alloc, Extent::Short, leading_by, told)?;
    Ok(ListLine { words, after })
}

/// Their lines.
fn entries_of(
    alloc: Global,
    leading_by: &Leading,
    told: &[Told],
) -> Result<Vec<ListLine>, OutOfMemory>
    ensures { IfOk result (λ entries. AllZip (Leads leading_by.now) told.now entries.items) }
{
    let mut entries = Vec::new(alloc);
    for one in told {
        entries.push(entry_of(alloc, leading_by, one)?)?;
    }
    Ok(entries)
}

/// Their whole words.
fn whole_of(alloc: Global, leading_by: &Leading, told: &[Told]) -> Result<Vec<Vec<u8>>, AllocError>
    ensures { IfOk result (λ whole. map (λ words. words.items) whole.items ≡ map (words_by Whole leading_by.now) told.now) }
{
    let mut whole = Vec::new(alloc);
    for one in told {
        whole.push(words_of(alloc, Extent::Whole, leading_by, one)?)?;
    }
    Ok(whole)
}

/// The first of them, at most so many.
fn first_of(told: &[Told], most: usize) -> &[Told]
    ensures { result.now ≡ take most told.now }
{
    if told.len() <= most {
        return told;
    }
    &told[..most]
}

/// The first of what was possible, at most so many, and how many there are.
pub(crate) fn listed_of(
    alloc: Global,
    leading_by: &Leading,
    told: &[Told],
    most: usize,
) -> Result<Listed, OutOfMemory>
    ensures { IfOk result (AreListed leading_by.now most told.now) }
{
    let first = first_of(told, most);
    let entries = entries_of(alloc, leading_by, first)?;
    let whole = whole_of(alloc, leading_by, first)?;
    Ok(Listed {
        entries,
        whole,
        count: told.len(),
    })
}
