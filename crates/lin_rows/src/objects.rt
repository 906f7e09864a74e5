//! Rows about sequential objects.
use crate::shown::{put_reply, put_state};
use crate::{Any, Name, Reply, SeqObject, State, words};
use std::alloc::Global;

const NAMES: [Name; 8] = [
    Name::Read,
    Name::Write,
    Name::Cas,
    Name::Enqueue,
    Name::Dequeue,
    Name::Add,
    Name::Acquire,
    Name::Release,
];

/// `object KIND`: the functions that it has, and whether a copy of its start is equal.
pub fn object(alloc: Global, word: &str, out: &mut String) -> Option<()> {
    let object = words::object(word)?;
    for name in NAMES {
        if object.allows(name) {
            write!(out, "{name:?} ").ok()?;
        }
    }
    let start = object.start(alloc);
    let copy = object.copy_state(alloc, &start).ok()?;
    write!(out, "copied: {}", copy == start).ok()
}

/// The state to which a call with its reply leads, if there is one.
fn next_state(alloc: Global, object: Any, state: State, word: &str) -> Option<Option<State>> {
    let (call, reply) = word.split_once(':')?;
    let call = words::call(alloc, call)?;
    let reply = words::reply(alloc, reply)?;
    object.next(alloc, state, &call, &reply).ok()
}

/// `taken KIND CALL:REPLY ..`: how many of the calls the object takes with these replies, one after another.
pub fn taken(alloc: Global, text: &str, out: &mut String) -> Option<()> {
    let (word, rest) = words::first_word(text);
    let object = words::object(word)?;
    let mut state = Some(object.start(alloc));
    let mut count = 0u64;
    for word in rest.split_whitespace() {
        state = next_state(alloc, object, state?, word)?;
        if state.is_none() {
            break;
        }
        count = count.saturating_add(1);
    }
    write!(out, "{count}").ok()
}

/// `outcomes KIND CALL CALL:REPLY ..`: what the first call may come to behind the others, each reply with the state that it leaves.
pub fn outcomes(alloc: Global, text: &str, out: &mut String) -> Option<()> {
    let (word, rest) = words::first_word(text);
    let object = words::object(word)?;
    let (word, rest) = words::first_word(rest);
    let call = words::call(alloc, word)?;
    let mut state = object.start(alloc);
    for word in rest.split_whitespace() {
        state = next_state(alloc, object, state, word)??;
    }
    let mut outcomes = Vec::new(alloc);
    object.outcomes(alloc, &state, &call, &mut outcomes).ok()?;
    put_outcomes(outcomes.as_slice(), out)
}

/// How many there are, and each reply with the state that it leaves.
fn put_outcomes(outcomes: &[(State, Reply)], out: &mut String) -> Option<()> {
    write!(out, "{}:", outcomes.len()).ok()?;
    for (next, reply) in outcomes {
        out.push(' ').ok()?;
        put_reply(out, reply)?;
        out.push_str(" leaves ").ok()?;
        put_state(out, next)?;
    }
    Some(())
}
