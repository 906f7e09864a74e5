//! Rows about refutations of histories of one register.
use crate::{Kind, RefConfig, Refutation, Reply, State, check_refutation, words};
use std::alloc::Global;

/// The reply of an operation of a process that is placed, `PROCESS:REPLY`.
fn placed(alloc: Global, word: &str) -> Option<(u64, Reply)> {
    let (process, reply) = word.split_once(':')?;
    Some((process.parse::<u64>().ok()?, words::reply(alloc, reply)?))
}

/// A member, what the register holds and behind it what is placed.
fn member(alloc: Global, text: &str) -> Option<RefConfig> {
    let (value, rest) = words::first_word(text);
    let Reply::Value(value) = words::reply(alloc, value)? else {
        return None;
    };
    let mut pairs = Vec::new(alloc);
    for word in rest.split_whitespace() {
        pairs.push(placed(alloc, word)?).ok()?;
    }
    Some(RefConfig {
        state: State::Value(value),
        placed: pairs,
    })
}

/// The members of a set, with `;` between two.
fn members(alloc: Global, text: &str) -> Option<Vec<RefConfig>> {
    let mut members = Vec::new(alloc);
    for word in text.split(';') {
        if !word.trim().is_empty() {
            members.push(member(alloc, word.trim())?).ok()?;
        }
    }
    Some(members)
}

/// `refutes EVENTS|SET|SET..`: whether the sets are a refutation of the history.
pub fn refutes(alloc: Global, text: &str, out: &mut String) -> Option<()> {
    let (events, rest) = text.split_once('|')?;
    let events = words::events(alloc, events)?;
    let mut sets = Vec::new(alloc);
    for set in rest.split('|') {
        sets.push(members(alloc, set)?).ok()?;
    }
    let refutation = Refutation { sets };
    let shows = check_refutation(alloc, events.as_slice(), Kind::Register, &refutation).ok()?;
    write!(out, "{shows}").ok()
}
