//! How answers are shown.
use crate::{Body, Event, Item, Name, Reply, State, Val};

fn put_item(out: &mut String, item: Item) -> Option<()> {
    match item {
        Item::Int(number) => write!(out, "{number}").ok(),
        Item::Bool(truth) => write!(out, "{truth}").ok(),
        Item::Word(number) => write!(out, "word {number}").ok(),
    }
}

fn put_value(out: &mut String, value: Val) -> Option<()> {
    match value {
        Val::Nil => out.push_str("nil").ok(),
        Val::Item(item) => put_item(out, item),
    }
}

/// The items in brackets.
fn put_items(out: &mut String, items: &[Item]) -> Option<()> {
    out.push('[').ok()?;
    for (at, item) in items.iter().enumerate() {
        if at > 0 {
            out.push_str(", ").ok()?;
        }
        put_item(out, *item)?;
    }
    out.push(']').ok()
}

pub fn put_reply(out: &mut String, reply: &Reply) -> Option<()> {
    match reply {
        Reply::Done => out.push_str("done").ok(),
        Reply::Value(value) => put_value(out, *value),
        Reply::Members(members) => put_items(out, members.as_slice()),
    }
}

/// What the state's object holds, or for a lock whether it is held.
pub fn put_state(out: &mut String, state: &State) -> Option<()> {
    match state {
        State::Value(value) => put_value(out, *value),
        State::Queue(queue) => put_items(out, queue.as_slice()),
        State::Members(members) => put_items(out, members.as_slice()),
        State::Held(held) => write!(out, "{held}").ok(),
        State::Bag(bag) => put_items(out, bag.as_slice()),
    }
}

fn put_completion(out: &mut String, completion: &str, name: Name) -> Option<()> {
    write!(out, " {completion} {name:?}").ok()
}

fn put_body(out: &mut String, body: &Body) -> Option<()> {
    match body {
        Body::Invoke(call) => write!(out, " invoke {call:?}").ok(),
        Body::Fail(name) => put_completion(out, "fail", *name),
        Body::Info(name) => put_completion(out, "info", *name),
        Body::Ok(name, reply) => {
            put_completion(out, "ok", *name)?;
            out.push(' ').ok()?;
            put_reply(out, reply)
        }
    }
}

/// The process, and what the event says.
pub fn put_event(out: &mut String, event: &Event) -> Option<()> {
    write!(out, "{}", event.process).ok()?;
    put_body(out, &event.body)
}

pub fn put_events(out: &mut String, events: &[Event]) -> Option<()> {
    for (at, event) in events.iter().enumerate() {
        if at > 0 {
            out.push_str(", ").ok()?;
        }
        put_event(out, event)?;
    }
    Some(())
}
