//! What the words of a row say.
//!
//! An event is `PROCESS/TYPE/FUNCTION`, as `0/invoke/read`, with the value behind it, as `0/invoke/write/7`. A call is `write/7`, and
//! a reply `done`, `nil`, `7` or `[1,2]`.
use crate::{Any, Body, Call, Event, Kind, Names, NextEvent, Reply, next_event};
use std::alloc::Global;

/// The first word, and what stands behind the space that ends it.
pub fn first_word(text: &str) -> (&str, &str) {
    text.split_once(' ').unwrap_or((text, ""))
}

/// The number that a text begins with, and what stands behind the space that ends it.
pub fn first_number(text: &str) -> Option<(usize, &str)> {
    let (word, rest) = first_word(text);
    Some((word.parse::<usize>().ok()?, rest))
}

/// Whether a text begins with the word `keyed`, and what stands behind that.
pub fn keyed(text: &str) -> (bool, &str) {
    match text.strip_prefix("keyed ") {
        Some(rest) => (true, rest),
        None => (false, text),
    }
}

/// The object of a kind.
pub fn object(word: &str) -> Option<Any> {
    let kind = match word {
        "register" => Kind::Register,
        "cas-register" => Kind::CasRegister,
        "fifo" => Kind::Fifo,
        "set" => Kind::Set,
        "mutex" => Kind::Mutex,
        "unordered-queue" => Kind::Bag,
        _ => return None,
    };
    Some(Any { kind })
}

/// The event of a process and of what stands behind it, by its operation map; a value that isn't there is nil.
fn event_of(alloc: Global, process: &str, rest: &str) -> Option<Event> {
    let (event_type, call) = rest.split_once('/')?;
    let (function, value) = call.split_once('/').unwrap_or((call, "nil"));
    let map = format!(in alloc;
        "{{:process {process} :type :{event_type} :f :{function} :value {value}}}"
    ).ok()?;
    match next_event(
        alloc,
        map.as_str().as_bytes(),
        false,
        &mut Names::new(alloc),
    ) {
        Ok(NextEvent::Complete { said, used: _ }) => said.ok()?,
        _ => None,
    }
}

pub fn events(alloc: Global, words: &str) -> Option<Vec<Event>> {
    let mut events = Vec::new(alloc);
    for word in words.split_whitespace() {
        let (process, rest) = word.split_once('/')?;
        events.push(event_of(alloc, process, rest)?).ok()?;
    }
    Some(events)
}

pub fn call(alloc: Global, word: &str) -> Option<Call> {
    let rest = format!(in alloc; "invoke/{word}").ok()?;
    match event_of(alloc, "0", rest.as_str())?.body {
        Body::Invoke(call) => Some(call),
        _ => None,
    }
}

pub fn reply(alloc: Global, word: &str) -> Option<Reply> {
    if word == "done" {
        return Some(Reply::Done);
    }
    let rest = format!(in alloc; "ok/read/{word}").ok()?;
    match event_of(alloc, "0", rest.as_str())?.body {
        Body::Ok(_, reply) => Some(reply),
        _ => None,
    }
}
