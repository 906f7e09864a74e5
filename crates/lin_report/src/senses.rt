//! What the words of a command line say.
ghost use Rattle.std.specs.Prelude.{◌≡◌, ◌≤◌, None, Some, Ok, length, drop, MatchOption};
ghost use Rattle.lin_texts.specs.Parts.{words_from};
ghost use Rattle.lin_names.specs.Names.{AgreesWith, Begins, Numbering};
ghost use Rattle.lin_names.specs.Spelled.{numbered, seen};
ghost use Rattle.lin_report.specs.Commands as said;
ghost use Rattle.lin_report.specs.MapCommands.{IsOrNoMemory, IsScope, IsSense, IsWithin};

use crate::commands::{Command, CommandFault};
use lin_answers::{Edit, Scope};
use lin_events::{Event, Item};
use lin_formats::{Word, item_in, kind_named, next_word, number};
use lin_names::{Names, Said};
use lin_objects::Kind;

/// The first word of a command.
#[derive(Clone, Copy)]
pub enum Verb {
    Append,
    Replace,
    Remove,
    Truncate,
    Kind,
    Budget,
    Ask,
    Order,
    Report,
    Pull,
    Refute,
    Explain,
    Work,
}

/// Where the event of a map is put.
#[derive(Clone, Copy)]
pub enum Target {
    Last,
    /// In the place of the event at this position.
    At(usize),
}

/// What the words of a line say.
#[derive(Drop)]
pub enum Sense {
    /// There is no word.
    Nothing,
    /// A command that has no map.
    Plain(Command),
    /// A map stands from this place of the line on, whose event is put there.
    Map(Target, usize),
}

impl Target {
    /// The edit that an event makes.
    pub fn edit(self, event: Event) -> Edit
        ensures { result ≡ said.edit_at self event }
    {
        match self {
            Target::Last => Edit::Append(event),
            Target::At(position) => Edit::Replace(position, event),
        }
    }
}

fn verb_of(word: &[u8]) -> Option<Verb>
    ensures { result ≡ said.verb_of word.now }
{
    if word == b"append".as_slice() {
        return Some(Verb::Append);
    }
    if word == b"replace".as_slice() {
        return Some(Verb::Replace);
    }
    if word == b"remove".as_slice() {
        return Some(Verb::Remove);
    }
    if word == b"truncate".as_slice() {
        return Some(Verb::Truncate);
    }
    if word == b"kind".as_slice() {
        return Some(Verb::Kind);
    }
    if word == b"budget".as_slice() {
        return Some(Verb::Budget);
    }
    if word == b"ask".as_slice() {
        return Some(Verb::Ask);
    }
    if word == b"order".as_slice() {
        return Some(Verb::Order);
    }
    if word == b"report".as_slice() {
        return Some(Verb::Report);
    }
    if word == b"pull".as_slice() {
        return Some(Verb::Pull);
    }
    if word == b"refute".as_slice() {
        return Some(Verb::Refute);
    }
    if word == b"explain".as_slice() {
        return Some(Verb::Explain);
    }
    if word == b"work".as_slice() {
        return Some(Verb::Work);
    }
    None
}

/// The only word behind a place.
fn only_word(line: &[u8], from: usize) -> Option<Word<'_>>
    requires { from ≤ length line.now }
    ensures { let only = said.only (words_from from (drop from line.now)) in
        MatchOption result (only ≡ None) (λ word. only ≡ Some (record { at = word.at; text = word.text.now })) }
{
    let word = next_word(line, from)?;
    match next_word(line, word.at + word.text.len()) {
        Some(_) => None,
        None => Some(word),
    }
}

/// The only two words behind a place.
fn both_words(line: &[u8], from: usize) -> Option<(Word<'_>, Word<'_>)>
    requires { from ≤ length line.now }
    ensures { let both = said.both (words_from from (drop from line.now)) in
        MatchOption result (both ≡ None) (λ words. both ≡ Some
        (record { at = words.0.at; text = words.0.text.now }, record { at = words.1.at; text = words.1.text.now })) }
{
    let word = next_word(line, from)?;
    let next = only_word(line, word.at + word.text.len())?;
    Some((word, next))
}

fn no_more(line: &[u8], from: usize) -> Result<(), CommandFault>
    requires { from ≤ length line.now }
    ensures { result ≡ said.no_more (words_from from (drop from line.now)) }
{
    match next_word(line, from) {
        Some(_) => Err(CommandFault::BadWords),
        None => Ok(()),
    }
}

/// The number of at most `most` that the only word behind a place writes.
fn number_in(line: &[u8], from: usize, most: u64) -> Result<u64, CommandFault>
    requires { from ≤ length line.now }
    ensures { result ≡ said.number_in most (words_from from (drop from line.now)) }
{
    let Some(word) = only_word(line, from) else {
        return Err(CommandFault::BadWords);
    };
    number(word.text, most).ok_or(CommandFault::BadNumber)
}

/// The item that is said.
fn item_of(said: Said, names: &mut Names) -> Result<Item, CommandFault>
    ensures begun { Begins names.old names.new }
    ensures item { (number : Numbering) → AgreesWith names.new number → IsOrNoMemory (Ok (numbered number (seen said.entry))) result }
{
    match said.item(names) {
        Ok(item) => Ok(item),
        Err(_) => Err(CommandFault::OutOfMemory),
    }
}

/// The key that the only word behind a place writes.
fn key_in(line: &[u8], from: usize, names: &mut Names) -> Result<Item, CommandFault>
    requires { from ≤ length line.now }
    ensures begun { Begins names.old names.new }
    ensures key { (number : Numbering) → AgreesWith names.new number → IsOrNoMemory (said.key_in number (words_from from (drop from line.now))) result }
{
    let Some(word) = only_word(line, from) else {
        return Err(CommandFault::BadWords);
    };
    let Some(key) = item_in(word.text) else {
        return Err(CommandFault::BadNumber);
    };
    item_of(key, names)
}

/// The object of the key that the only word behind a place writes, or the whole where there is none.
fn scope_in(line: &[u8], from: usize, names: &mut Names) -> Result<Scope, CommandFault>
    requires { from ≤ length line.now }
    ensures begun { Begins names.old names.new }
    ensures scope { (number : Numbering) → AgreesWith names.new number → IsScope (said.scope_in number (words_from from (drop from line.now))) result }
{
    if next_word(line, from).is_none() {
        return Ok(Scope::Whole);
    }
    Ok(Scope::Object(key_in(line, from, names)?))
}

/// A key and the word for its kind behind a place.
fn key_and_kind(line: &[u8], from: usize, names: &mut Names) -> Result<(Item, Kind), CommandFault>
    requires { from ≤ length line.now }
    ensures begun { Begins names.old names.new }
    ensures both { (number : Numbering) → AgreesWith names.new number → IsOrNoMemory (said.key_and_kind number (words_from from (drop from line.now))) result }
{
    let Some((key, word)) = both_words(line, from) else {
        return Err(CommandFault::BadWords);
    };
    let Some(key) = item_in(key.text) else {
        return Err(CommandFault::BadNumber);
    };
    let Some(kind) = kind_named(word.text) else {
        return Err(CommandFault::BadKind);
    };
    Ok((item_of(key, names)?, kind))
}

/// What `replace` says: the position, and the place behind it, from where on a map stands.
fn replacement(line: &[u8], from: usize) -> Result<Sense, CommandFault>
    requires { from ≤ length line.now }
    ensures said { result ≡ said.replacement (words_from from (drop from line.now)) }
    ensures within { IsWithin line.now result }
{
    let Some(word) = next_word(line, from) else {
        return Err(CommandFault::BadWords);
    };
    match number(word.text, u64::MAX) {
        Some(position) => Ok(Sense::Map(Target::At(position as usize), word.at + word.text.len())),
        None => Err(CommandFault::BadNumber),
    }
}

/// What the words behind the first one say, which ends at a place.
fn command_behind(
    line: &[u8],
    verb: Verb,
    end: usize,
    names: &mut Names,
) -> Result<Sense, CommandFault>
    requires { end ≤ length line.now }
    ensures begun { Begins names.old names.new }
    ensures said { (number : Numbering) → AgreesWith names.new number → IsSense (said.sense_behind number verb end (words_from end (drop end line.now))) result }
    ensures within { IsWithin line.now result }
{
    let command = match verb {
        Verb::Append => return Ok(Sense::Map(Target::Last, end)),
        Verb::Replace => return replacement(line, end),
        Verb::Remove => Command::Edit(Edit::Remove(number_in(line, end, u64::MAX)? as usize)),
        Verb::Truncate => Command::Edit(Edit::Truncate(number_in(line, end, u64::MAX)? as usize)),
        Verb::Kind => {
            let (key, kind) = key_and_kind(line, end, names)?;
            Command::Edit(Edit::SetKind(key, kind))
        }
        Verb::Budget => {
            let budget = number_in(line, end, u64::from(u32::MAX))?;
            Command::Edit(Edit::SetBudget(budget as u32))
        }
        Verb::Ask => Command::Ask(scope_in(line, end, names)?),
        Verb::Order => Command::Order(scope_in(line, end, names)?),
        Verb::Report => {
            no_more(line, end)?;
            Command::Report
        }
        Verb::Pull => {
            no_more(line, end)?;
            Command::Pull
        }
        Verb::Refute => Command::Refute(key_in(line, end, names)?),
        Verb::Explain => Command::Explain(scope_in(line, end, names)?),
        Verb::Work => {
            no_more(line, end)?;
            Command::Work
        }
    };
    Ok(Sense::Plain(command))
}

/// What the words of a line say.
pub fn sense_of(line: &[u8], names: &mut Names) -> Result<Sense, CommandFault>
    ensures begun { Begins names.old names.new }
    ensures said { (number : Numbering) → AgreesWith names.new number → IsSense (said.sense_of number (words_from 0 line.now)) result }
    ensures within { IsWithin line.now result }
{
    let Some(word) = next_word(line, 0) else {
        return Ok(Sense::Nothing);
    };
    match verb_of(word.text) {
        Some(verb) => command_behind(line, verb, word.at + word.text.len(), names),
        None => Err(CommandFault::UnknownCommand),
    }
}
