//! How many operations a history has, and how they ended.
ghost use Rattle.std.specs.Prelude.{◌≡◌};
ghost use Rattle.lin_explain.specs.Counts.{count_in, counts, is_within as within, open_in, says as sort_says};

use lin_answers::Present;
use lin_events::{Body, Event, Item};

/// What an event says.
#[derive(Clone, Copy)]
pub(crate) enum Sort {
    Invoked,
    Ok,
    Failed,
    Crashed,
}

/// Whether a body is of the sort.
fn says(sort: Sort, body: &Body) -> bool
    ensures { result ≡ sort_says sort body.now }
{
    match (sort, body) {
        (Sort::Invoked, Body::Invoke(_)) => true,
        (Sort::Ok, Body::Ok(_, _)) => true,
        (Sort::Failed, Body::Fail(_)) => true,
        (Sort::Crashed, Body::Info(_)) => true,
        _ => false,
    }
}

/// Whether the event is of the key, if one is asked for.
fn is_within(key: Option<Item>, event: &Event) -> bool
    ensures { result ≡ within key event.now }
{
    match key {
        Some(key) => event.key == key,
        None => true,
    }
}

/// Whether the event is of the sort, and of the key, if one is asked for.
fn is_counted(key: Option<Item>, sort: Sort, event: &Event) -> bool
    ensures { result ≡ counts key sort event.now }
{
    is_within(key, event) && says(sort, &event.body)
}

/// How many events of the sort the history has, or the object of the key.
pub(crate) fn count(present: &Present<'_>, key: Option<Item>, sort: Sort) -> usize
    ensures { result ≡ count_in key sort present.now.history }
{
    let mut found = 0;
    for at in 0..present.len() {
        let Some(event) = present.event(at) else {
            unreachable!()
        };
        if is_counted(key, sort, event) {
            found += 1;
        }
    }
    found
}

/// How many operations are neither ok nor failed.
pub(crate) fn count_open(present: &Present<'_>, key: Option<Item>) -> usize
    ensures { result ≡ open_in key present.now.history }
{
    count(present, key, Sort::Invoked)
        .saturating_sub(count(present, key, Sort::Ok))
        .saturating_sub(count(present, key, Sort::Failed))
}
