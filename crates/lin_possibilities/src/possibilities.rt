//! What was possible: a state, or a reply.
ghost use Rattle.std.specs.Prelude.{◌≡◌, ◌++◌, ℕ, IfOk, List, OnOk, option_map, true};
ghost use Rattle.lin_tables.specs.Values.{state_text};
ghost use Rattle.lin_possibilities.specs.Ranks.{members_in};
ghost use Rattle.lin_possibilities.specs.Words.{members_words, reply_words};
ghost use Rattle.lin_possibilities.specs.declared.words.Extent.TheVariants.{Short as ShortOf};
ghost use Rattle.lin_possibilities.specs.inner.OutcomesTelling.{words_in};

use crate::differences::Difference;
use crate::ranks::recorded_members;
use crate::words::{Extent, put_items_words, put_state_words, put_value_words};
use lin_events::{IntSet, Reply};
use lin_names::Names;
use lin_objects::State;
use std::alloc::{AllocError, Global};

/// A state or a reply that was possible.
#[derive(Drop)]
pub(crate) enum Possibility {
    State(State),
    Reply(Reply),
}

/// Puts members last, by how they differ from those that were recorded, if members were.
fn put_members_words(
    alloc: Global,
    words: &mut Vec<u8>,
    extent: Extent,
    names: &Names,
    recorded: Option<&IntSet>,
    members: &IntSet,
) -> Result<(), AllocError>
    ensures { OnOk result (words.new.items ≡ words.old.items ++ members_words extent names.now (option_map (λ m. m.now) recorded.entry) members.now) }
{
    match recorded {
        Some(recorded) => {
            let difference = Difference::of(alloc, members, recorded)?;
            difference.put(words, extent, names)
        }
        None => {
            words.push(b'{')?;
            put_items_words(words, extent, names, members.as_slice())?;
            words.push(b'}')?;
            Ok(())
        }
    }
}

/// Puts a reply last, members against those that were recorded, if members were.
fn put_reply_words(
    alloc: Global,
    words: &mut Vec<u8>,
    extent: Extent,
    names: &Names,
    recorded: Option<&IntSet>,
    reply: &Reply,
) -> Result<(), AllocError>
    ensures { OnOk result (words.new.items ≡ words.old.items ++ reply_words extent names.now (option_map (λ m. m.now) recorded.entry) reply.now) }
{
    match reply {
        Reply::Done => Ok(()),
        Reply::Value(value) => put_value_words(words, extent, names, *value),
        Reply::Members(members) => {
            put_members_words(alloc, words, extent, names, recorded, members)
        }
    }
}

impl Possibility {
    /// Its words, those of a reply beside the one that was recorded, if one was.
    pub(crate) fn words(
        &self,
        alloc: Global,
        extent: Extent,
        names: &Names,
        recorded: Option<&Reply>,
    ) -> Result<Vec<u8>, AllocError>
        ensures { IfOk result (λ words. words.items ≡ words_in extent names.now (members_in (option_map (λ r. r.now) recorded.entry)) self.now) }
    {
        let mut words = Vec::new(alloc);
        match self {
            Possibility::State(state) => put_state_words(&mut words, extent, names, state)?,
            Possibility::Reply(reply) => {
                let members = recorded_members(recorded);
                put_reply_words(alloc, &mut words, extent, names, members, reply)?;
            }
        }
        Ok(words)
    }
}

/// Whether a reply gives the very value that a state has, and is told by itself: then both have the same words.
fn gives(recorded: Option<&IntSet>, reply: &Reply, state: &State) -> bool
    ensures { result ≡ true → (names : List (List ℕ)) → reply_words ShortOf names (option_map (λ m. m.now) recorded.entry) reply.now ≡ state_text names state.now }
{
    match (recorded, reply, state) {
        (_, Reply::Value(value), State::Value(other)) => *value == *other,
        (None, Reply::Members(members), State::Members(others)) => members == others,
        _ => false,
    }
}

/// Whether the one is a reply that gives the very value that the other one, a state, has. For this no words are made.
pub(crate) fn have_same_value(
    recorded: Option<&Reply>,
    one: &Possibility,
    other: &Possibility,
) -> bool
    ensures { result ≡ true → (names : List (List ℕ)) → words_in ShortOf names (members_in (option_map (λ r. r.now) recorded.entry)) one.now ≡ words_in ShortOf names (members_in (option_map (λ r. r.now) recorded.entry)) other.now }
{
    match (one, other) {
        (Possibility::Reply(reply), Possibility::State(state)) => {
            gives(recorded_members(recorded), reply, state)
        }
        _ => false,
    }
}
