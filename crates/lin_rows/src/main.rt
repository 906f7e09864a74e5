//! Rows of calls of the crates below: each line of standard input is one call, and its answer is one line of standard output.
//!
//! A line is a command and what it is of; lines that are empty or begin with `;` are repeated. `text` says how odd bytes are
//! spelled, and `words` how calls, replies and events are.
#![tactic(auto)]

mod objects;
mod refutations;
mod shown;
mod streams;
mod text;
mod words;

// What is called of the crates below is named here alone.
use lin_events::{Body, Call, Event, Item, Name, Reply, Val};
use lin_history::{Follow, FollowFault, NextEvent, next_event};
use lin_names::Names;
use lin_objects::{Any, Kind, SeqObject, State};
use lin_order::{RefConfig, Refutation, check_refutation};
use std::alloc::Global;
use std::io;
use std::io::{BufRead, BufReader};
use streams::Source;

/// A row's command that is about no earlier row.
fn answer_alone(alloc: Global, command: &str, rest: &str, out: &mut String) -> Option<()> {
    match command {
        "object" => objects::object(alloc, rest, out),
        "outcomes" => objects::outcomes(alloc, rest, out),
        "refutes" => refutations::refutes(alloc, rest, out),
        "taken" => objects::taken(alloc, rest, out),
        "tells" => streams::tells(alloc, rest, out),
        _ => None,
    }
}

/// A row's command that is about the stream that earlier rows left, or about no earlier row.
fn answer_row(
    alloc: Global,
    source: &mut Source,
    command: &str,
    rest: &str,
    out: &mut String,
) -> Option<()> {
    match command {
        "stream" => streams::stream(alloc, source, rest, out),
        "feed" => streams::feed(source, rest, out),
        "finish" => streams::finish(source, out),
        "take" => streams::take(source, out),
        "take-all" => streams::take_all(source, out),
        _ => answer_alone(alloc, command, rest, out),
    }
}

/// The answer to a line; nothing where it isn't understood, or memory ran out.
fn answer(alloc: Global, source: &mut Source, line: &str) -> Option<String> {
    let mut out = String::new(alloc);
    if line.is_empty() || line.starts_with(';') {
        out.push_str(line).ok()?;
        return Some(out);
    }
    let row = text::spelled(alloc, line)?;
    let (command, rest) = words::first_word(row.as_str());
    answer_row(alloc, source, command, rest, &mut out)?;
    Some(out)
}

fn main(rt: HostRuntime) -> io::Result<()> {
    let alloc = rt.alloc();
    let mut source = Source::new(alloc, false);
    for line in BufReader::new(alloc, rt.reader())?.lines(alloc) {
        let line = line?;
        match answer(alloc, &mut source, line.as_str()) {
            Some(out) => rt.println(out.as_str().trim_end())?,
            None => rt.println("not understood")?,
        }
    }
    Ok(())
}
