//! Keys that are asked about, and what is told of one that no event has.
ghost use Rattle.std.specs.Prelude.{◌≡◌, ◌↔◌, ◌<◌, ◌⊎◌, ◌++◌, [], Contains, IfOk, IsTrue, MatchOption, OnOk, codes};
ghost use Rattle.std.specs.List.{list_any};
ghost use Rattle.lin_events.specs.Items.{item_eq};
ghost use Rattle.lin_answers.specs.Keys.{AreKeys};
ghost use Rattle.lin_report.specs.Explanations.{IsToldBehind};
ghost use Rattle.lin_report.specs.AskedKeys.{HasEvents, IsAbsence, absence_text, first_keys, keys_text, listed_keys};

use crate::checks::Answered;
use lin_answers::Present;
use lin_events::{Event, Item, OutOfMemory};
use lin_formats::{Status, put_item, put_number};
use lin_names::Names;
use lin_objects::{Kind, Kinds};
use lin_session::Session;
use std::alloc::{AllocError, Global};

/// How many keys are named where there are more.
const NAMED: usize = 8;

/// How a run ends that may be asked about a key.
#[derive(Drop)]
pub enum RunEnding {
    /// What was found is printed.
    Answered(Status),
    /// No event has the key. Nothing is printed, and these words tell so, with the keys that there are.
    NoKey(Vec<u8>),
}

/// What is found of a file where a key may be asked about.
#[derive(Drop)]
pub enum Found {
    /// This is to be printed.
    Answer(Answered),
    /// No event has the key, as these words tell.
    NoKey(Vec<u8>),
}

/// Whether an event has the key.
fn has_events(events: &[Event], key: Item) -> bool
    ensures { result ≡ list_any (λ event. item_eq event.key key) events.now }
{
    events.iter().any(|event| event.key == key)
}

/// The keys of the events, each once, in the order of print.
fn keys_of(alloc: Global, names: &Names, events: &[Event]) -> Result<Vec<Item>, OutOfMemory>
    ensures { IfOk result (λ keys. AreKeys names.now events.now keys.items) }
{
    // (what the objects are says nothing of their keys)
    let kinds = Kinds::new(alloc, Kind::Register);
    Present::of(events, &kinds, 1).objects(alloc, names)
}

/// Puts keys last, with commas between them.
fn put_listed(text: &mut Vec<u8>, names: &Names, keys: &[Item]) -> Result<(), AllocError>
    ensures { OnOk result (text.new.items ≡ text.old.items ++ listed_keys names.now keys.now) }
{
    let Some((first, others)) = keys.split_first() else {
        return Ok(());
    };
    put_item(text, names, *first)?;
    for other in others {
        text.extend_from_slice(b", ")?;
        put_item(text, names, *other)?;
    }
    Ok(())
}

/// Puts the first eight keys last, and how many more there are.
fn put_first(text: &mut Vec<u8>, names: &Names, keys: &[Item]) -> Result<(), AllocError>
    ensures { OnOk result (text.new.items ≡ text.old.items ++ first_keys names.now keys.now) }
{
    if keys.len() <= NAMED {
        return put_listed(text, names, keys);
    }
    put_listed(text, names, &keys[..NAMED])?;
    text.extend_from_slice(b" and ")?;
    put_number(text, (keys.len() - NAMED) as u64)?;
    text.extend_from_slice(b" more")
}

/// Puts last which keys there are.
fn put_keys(text: &mut Vec<u8>, names: &Names, keys: &[Item]) -> Result<(), AllocError>
    ensures { OnOk result (text.new.items ≡ text.old.items ++ keys_text names.now keys.now) }
{
    match keys {
        [] => text.extend_from_slice(b", and there are no others"),
        [key] => {
            text.extend_from_slice(b"; the key is ")?;
            put_item(text, names, *key)
        }
        _ => {
            text.extend_from_slice(b"; the keys are ")?;
            put_first(text, names, keys)
        }
    }
}

/// Tells that no event has the key, where these are the keys that there are.
fn absence_words(
    alloc: Global,
    names: &Names,
    key: Item,
    keys: &[Item],
) -> Result<Vec<u8>, AllocError>
    ensures { IfOk result (λ words. words.items ≡ absence_text names.now key keys.now) }
{
    let mut words = Vec::from_slice(alloc, b"no event has key ")?;
    put_item(&mut words, names, key)?;
    put_keys(&mut words, names, keys)?;
    Ok(words)
}

/// Whether the key is one of these.
fn is_among(keys: &[Item], key: Item) -> bool
    ensures { IsTrue result ↔ Contains keys.now key }
{
    keys.contains(&key)
}

/// The line that says that the key is none of these, with a line end; nothing where it is one.
fn line_for(alloc: Global, names: &Names, key: Item, keys: &[Item]) -> Result<Vec<u8>, AllocError>
    ensures { IfOk result (λ line. (Contains keys.now key × (line.items ≡ [])) ⊎ ((Contains keys.now key → ⊥) × (line.items ≡ absence_text names.now key keys.now ++ codes "\n"))) }
{
    if is_among(keys, key) {
        return Ok(Vec::new(alloc));
    }
    let mut line = absence_words(alloc, names, key, keys)?;
    line.push(b'\n')?;
    Ok(line)
}

/// The line that is told behind an explanation, where no event of the session's history has the key that is asked about; else nothing.
pub fn line_behind(
    alloc: Global,
    names: &Names,
    session: &Session,
    key: Option<Item>,
) -> Result<Vec<u8>, OutOfMemory>
    ensures { IfOk result (λ line. IsToldBehind names.now session.now.present.history key line.items) }
{
    let Some(key) = key else {
        return Ok(Vec::new(alloc));
    };
    let keys = session.objects(alloc, names)?;
    Ok(line_for(alloc, names, key, &keys)?)
}

/// What is told where no event has the key that is asked about; none where one has it, and where none is asked about.
pub fn absence_of(
    alloc: Global,
    names: &Names,
    key: Option<Item>,
    events: &[Event],
) -> Result<Option<Vec<u8>>, OutOfMemory>
    ensures { IfOk result (λ told. MatchOption told (HasEvents events.now key) (λ words. IsAbsence names.now events.now key words.items)) }
{
    let Some(key) = key else {
        return Ok(None);
    };
    if has_events(events, key) {
        return Ok(None);
    }
    let keys = keys_of(alloc, names, events)?;
    Ok(Some(absence_words(alloc, names, key, keys.as_slice())?))
}
