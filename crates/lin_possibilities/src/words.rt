//! Values as lines tell them, or as they are.
ghost use Rattle.std.specs.Prelude.{◌≡◌, ◌++◌, OnOk};
ghost use Rattle.lin_possibilities.specs.Words.{items_words, state_words, value_words};

use crate::whole::{put_whole_items, put_whole_state, put_whole_value};
use lin_events::{Item, Val};
use lin_names::Names;
use lin_objects::State;
use lin_tables::{put_items, put_state, put_value};
use std::alloc::AllocError;

/// How much of a value is told.
#[derive(Clone, Copy)]
pub(crate) enum Extent {
    /// As much as lines tell: of a long word both ends, and of many items the first.
    Short,
    /// All of it.
    Whole,
}

/// Puts the items of a set or a bag last, in the order in which items are printed.
pub(crate) fn put_items_words(
    words: &mut Vec<u8>,
    extent: Extent,
    names: &Names,
    items: &[Item],
) -> Result<(), AllocError>
    ensures { OnOk result (words.new.items ≡ words.old.items ++ items_words extent names.now items.now) }
{
    match extent {
        Extent::Short => put_items(words, names, items),
        Extent::Whole => put_whole_items(words, names, items),
    }
}

/// Puts a value last.
pub(crate) fn put_value_words(
    words: &mut Vec<u8>,
    extent: Extent,
    names: &Names,
    value: Val,
) -> Result<(), AllocError>
    ensures { OnOk result (words.new.items ≡ words.old.items ++ value_words extent names.now value) }
{
    match extent {
        Extent::Short => put_value(words, names, value),
        Extent::Whole => put_whole_value(words, names, value),
    }
}

/// Puts a state last.
pub(crate) fn put_state_words(
    words: &mut Vec<u8>,
    extent: Extent,
    names: &Names,
    state: &State,
) -> Result<(), AllocError>
    ensures { OnOk result (words.new.items ≡ words.old.items ++ state_words extent names.now state.now) }
{
    match extent {
        Extent::Short => put_state(words, names, state),
        Extent::Whole => put_whole_state(words, names, state),
    }
}
