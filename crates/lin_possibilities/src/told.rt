//! States and replies in the order in which they are listed.
ghost use Rattle.std.specs.Prelude.{◌≡◌, ◌↔◌, Bool, IfOk, IsPermutation, IsTrue, List, map, option_map};
ghost use Rattle.std.specs.List.{AllZip};
ghost use Rattle.lin_events.specs.declared.items.Item.{Item as ItemOf};
ghost use Rattle.lin_events.specs.declared.calls.Name.{Name as NameOf};
ghost use Rattle.lin_events.specs.declared.events.Event.{Event as EventOf};
ghost use Rattle.lin_events.specs.WellFormed.{IsWellFormed};
ghost use Rattle.lin_objects.specs.declared.kinds.Kind.{Kind as KindOf};
ghost use Rattle.lin_possibilities.specs.After.{IsAfter, IsWay};
ghost use Rattle.lin_possibilities.specs.Possible.{Answers, LeavesIn};
ghost use Rattle.lin_possibilities.specs.Outcomes.{HasNotCrashed};
ghost use Rattle.lin_possibilities.specs.Ranks.{IsRisingBy, members_in, reply_rank as reply_rank_of, state_rank as state_rank_of};
ghost use Rattle.lin_possibilities.specs.declared.possibilities.Possibility.TheVariants.{Reply as ReplyOf, State as StateOf};
ghost use Rattle.lin_possibilities.specs.declared.words.Extent.TheVariants.{Short};
ghost use Rattle.lin_possibilities.specs.inner.OutcomesTelling.{AreTold, IsTold, rank_in, words_in};

use crate::possibilities::{Possibility, have_same_value};
use crate::possible::Possible;
use crate::ranks::{Rank, recorded_members, reply_rank, state_rank};
use crate::words::Extent;
use lin_events::{IntSet, OutOfMemory, Reply};
use lin_names::{Names, spelled_is_total};
use lin_objects::State;
use std::alloc::{AllocError, Global};

/// A state or a reply as it is told. Its words are made only where they are listed.
#[derive(Drop)]
pub(crate) struct Told {
    pub(crate) rank: Rank,
    pub(crate) what: Possibility,
    /// The way by which a legal order is told that shows it.
    pub(crate) way: usize,
}

/// A state as it is told.
fn told_state(alloc: Global, names: &Names, found: &(State, usize)) -> Result<Told, OutOfMemory>
    ensures { IfOk result (λ told. IsTold names.now (state_rank_of names.now) StateOf found.now told) }
{
    let rank = state_rank(alloc, names, &found.0)?;
    let state = found.0.copy(alloc)?;
    Ok(Told {
        rank,
        what: Possibility::State(state),
        way: found.1,
    })
}

/// A reply as it is told.
fn told_reply(
    alloc: Global,
    names: &Names,
    recorded: Option<&IntSet>,
    found: &(Reply, usize),
) -> Result<Told, OutOfMemory>
    ensures { IfOk result (λ told. IsTold names.now (reply_rank_of names.now (option_map (λ m. m.now) recorded.entry)) ReplyOf found.now told) }
{
    let rank = reply_rank(alloc, names, recorded, &found.0)?;
    let reply = found.0.copy(alloc)?;
    Ok(Told {
        rank,
        what: Possibility::Reply(reply),
        way: found.1,
    })
}

/// The states as they are told.
fn all_states(
    alloc: Global,
    names: &Names,
    found: &[(State, usize)],
) -> Result<Vec<Told>, OutOfMemory>
    ensures { IfOk result (λ told. AllZip (IsTold names.now (state_rank_of names.now) StateOf) found.now told.items) }
{
    let mut told = Vec::new(alloc);
    for entry in found {
        told.push(told_state(alloc, names, entry)?)?;
    }
    Ok(told)
}

/// The replies as they are told.
fn all_replies(
    alloc: Global,
    names: &Names,
    recorded: Option<&IntSet>,
    found: &[(Reply, usize)],
) -> Result<Vec<Told>, OutOfMemory>
    ensures { IfOk result (λ told. AllZip (IsTold names.now (reply_rank_of names.now (option_map (λ m. m.now) recorded.entry)) ReplyOf) found.now told.items) }
{
    let mut told = Vec::new(alloc);
    for entry in found {
        told.push(told_reply(alloc, names, recorded, entry)?)?;
    }
    Ok(told)
}

/// The same, rising.
fn in_order(names: &Names, mut told: Vec<Told>) -> Vec<Told>
    ensures permutation { IsPermutation told.items result.items }
    ensures rising { IsRisingBy (λ t. rank_in names.now t.rank) result.items }
{
    spelled_is_total();
    told.sort_unstable_by(|one, other| one.rank.compare(names, &other.rank));
    told
}

/// What the object could be, rising.
pub(crate) fn states_told(
    alloc: Global,
    names: &Names,
    possible: &Possible,
) -> Result<Vec<Told>, OutOfMemory>
    ensures { IfOk result (λ told. (functions : ItemOf → NameOf → Bool) (kind : KindOf) (h : List EventOf) → IsWellFormed functions h → IsAfter possible.now kind h
        → AreTold names.now (LeavesIn kind h) (IsWay possible.now) (state_rank_of names.now) StateOf told.items) }
{
    let found = possible.states(alloc)?;
    Ok(in_order(names, all_states(alloc, names, found.as_slice())?))
}

/// What the open operation of the process, of which none crashed, could have returned, rising.
pub(crate) fn replies_told(
    alloc: Global,
    names: &Names,
    possible: &Possible,
    process: u64,
    recorded: Option<&Reply>,
) -> Result<Vec<Told>, OutOfMemory>
    ensures { IfOk result (λ told. (functions : ItemOf → NameOf → Bool) (kind : KindOf) (h : List EventOf) → IsWellFormed functions h → IsAfter possible.now kind h → HasNotCrashed h process
        → AreTold names.now (Answers kind h process) (IsWay possible.now) (reply_rank_of names.now (members_in (option_map (λ r. r.now) recorded.entry))) ReplyOf told.items) }
{
    let found = possible.replies(alloc, process)?;
    let members = recorded_members(recorded);
    Ok(in_order(names, all_replies(alloc, names, members, found.as_slice())?))
}

/// Whether both are told by the same words.
fn is_same(
    alloc: Global,
    names: &Names,
    recorded: Option<&Reply>,
    one: &Told,
    other: &Told,
) -> Result<bool, AllocError>
    ensures { IfOk result (λ same. IsTrue same ↔ (words_in Short names.now (members_in (option_map (λ r. r.now) recorded.entry)) one.now.what ≡ words_in Short names.now (members_in (option_map (λ r. r.now) recorded.entry)) other.now.what)) }
{
    if have_same_value(recorded, &one.what, &other.what) {
        return Ok(true);
    }
    let words = one.what.words(alloc, Extent::Short, names, recorded)?;
    let others = other.what.words(alloc, Extent::Short, names, recorded)?;
    Ok(words.as_slice() == others.as_slice())
}

/// Whether all are told by the same words, one by one. Of the same values no words are made, and behind a difference none.
pub(crate) fn are_same_words(
    alloc: Global,
    names: &Names,
    recorded: Option<&Reply>,
    told: &[Told],
    others: &[Told],
) -> Result<bool, AllocError>
    ensures { IfOk result (λ same. IsTrue same ↔ (map (λ t. words_in Short names.now (members_in (option_map (λ r. r.now) recorded.entry)) t.what) told.now ≡ map (λ t. words_in Short names.now (members_in (option_map (λ r. r.now) recorded.entry)) t.what) others.now)) }
{
    if told.len() != others.len() {
        return Ok(false);
    }
    for at in 0..told.len() {
        let same = is_same(alloc, names, recorded, &told[at], &others[at])?;
        if !same {
            return Ok(false);
        }
    }
    Ok(true)
}
