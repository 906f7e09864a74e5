//! By what states and replies are sorted.
ghost use Rattle.std.specs.Prelude.{◌≡◌, IfOk, map, option_map};
ghost use Rattle.std.specs.Cmp.Lexicographic.{slice_cmp};
ghost use Rattle.lin_names.specs.Spelled.{spelled, spelled_cmp};
ghost use Rattle.lin_possibilities.specs.Ranks.{differing as differing_of, members_in, members_rank as members_rank_of, rank_cmp, reply_rank as reply_rank_of, state_items as state_items_of, state_rank as state_rank_of, value_items as value_items_of};
ghost use Rattle.lin_possibilities.specs.inner.OutcomesTelling.{rank_in};

use crate::differences::Difference;
use lin_events::{IntSet, Item, OutOfMemory, Reply, Val};
use lin_names::{Names, in_print, printed_order};
use lin_objects::State;
use std::alloc::{AllocError, Global};
use std::cmp::Ordering;

/// By what a state or a reply is sorted.
#[derive(Drop)]
pub(crate) struct Rank {
    /// How many items it has alone or lacks, where it is told against another one.
    differing: usize,
    /// In the order in which they are told. The first difference decides, and a beginning comes first.
    items: Vec<Item>,
}

impl Rank {
    /// Which one comes first.
    pub(crate) fn compare(&self, names: &Names, other: &Rank) -> Ordering
        ensures { result ≡ rank_cmp (rank_in names.now self.now) (rank_in names.now other.now) }
    {
        match self.differing.cmp(&other.differing) {
            Ordering::Less => Ordering::Less,
            Ordering::Equal => compare_items(names, self.items.as_slice(), other.items.as_slice()),
            Ordering::Greater => Ordering::Greater,
        }
    }
}

/// Which items come first as they are printed.
fn compare_items(names: &Names, items: &[Item], others: &[Item]) -> Ordering
    ensures { result ≡ slice_cmp spelled_cmp (map (spelled names.now) items.now) (map (spelled names.now) others.now) }
{
    for at in 0..items.len() {
        let Some(other) = others.get(at) else {
            return Ordering::Greater;
        };
        let order = printed_order(names, items[at], *other);
        if order.is_ne() {
            return order;
        }
    }
    if items.len() < others.len() {
        return Ordering::Less;
    }
    Ordering::Equal
}

/// Nil comes first, then the items.
fn value_items(alloc: Global, value: Val) -> Result<Vec<Item>, AllocError>
    ensures { IfOk result (λ items. items.items ≡ value_items_of value) }
{
    match value {
        Val::Nil => Ok(Vec::new(alloc)),
        Val::Item(item) => Vec::from_slice(alloc, &[item]),
    }
}

/// Queues, sets and bags rise by their items, and a free lock comes before one that is held.
fn state_items(alloc: Global, names: &Names, state: &State) -> Result<Vec<Item>, OutOfMemory>
    ensures { IfOk result (λ items. map (spelled names.now) items.items ≡ state_items_of names.now state.now) }
{
    match state {
        State::Value(value) => Ok(value_items(alloc, *value)?),
        State::Queue(queue) => Ok(Vec::from_slice(alloc, queue.as_slice())?),
        State::Members(members) => in_print(names, members.as_slice()),
        State::Bag(bag) => in_print(names, bag.as_slice()),
        State::Held(false) => Ok(Vec::new(alloc)),
        State::Held(true) => Ok(Vec::from_slice(alloc, &[Item::Int(1)])?),
    }
}

/// By what the state is sorted.
pub(crate) fn state_rank(alloc: Global, names: &Names, state: &State) -> Result<Rank, OutOfMemory>
    ensures { IfOk result (λ rank. rank_in names.now rank ≡ state_rank_of names.now state.now) }
{
    Ok(Rank {
        differing: 0,
        items: state_items(alloc, names, state)?,
    })
}

/// The members that were recorded, if members were.
pub(crate) fn recorded_members<'a>(recorded: Option<&'a Reply>) -> Option<&'a IntSet>
    ensures { option_map (λ m. m.now) result ≡ members_in (option_map (λ r. r.now) recorded.entry) }
{
    match recorded {
        Some(Reply::Members(members)) => Some(members),
        _ => None,
    }
}

/// How many items only one of the sets has; none where there is no other one.
fn differing(
    alloc: Global,
    recorded: Option<&IntSet>,
    members: &IntSet,
) -> Result<usize, AllocError>
    ensures { IfOk result (λ count. count ≡ differing_of (option_map (λ m. m.now) recorded.entry) members.now) }
{
    match recorded {
        Some(recorded) => {
            let difference = Difference::of(alloc, members, recorded)?;
            Ok(difference.count())
        }
        None => Ok(0),
    }
}

/// By what members are sorted. Where members were recorded too, they rise by how many differ first.
fn members_rank(
    alloc: Global,
    names: &Names,
    recorded: Option<&IntSet>,
    members: &IntSet,
) -> Result<Rank, OutOfMemory>
    ensures { IfOk result (λ rank. rank_in names.now rank ≡ members_rank_of names.now (option_map (λ m. m.now) recorded.entry) members.now) }
{
    let differing = differing(alloc, recorded, members)?;
    let items = in_print(names, members.as_slice())?;
    Ok(Rank { differing, items })
}

/// By what the reply is sorted: nil comes first, then the items; members rise as sets do.
pub(crate) fn reply_rank(
    alloc: Global,
    names: &Names,
    recorded: Option<&IntSet>,
    reply: &Reply,
) -> Result<Rank, OutOfMemory>
    ensures { IfOk result (λ rank. rank_in names.now rank ≡ reply_rank_of names.now (option_map (λ m. m.now) recorded.entry) reply.now) }
{
    let items = match reply {
        Reply::Done => Vec::new(alloc),
        Reply::Value(value) => value_items(alloc, *value)?,
        Reply::Members(members) => return members_rank(alloc, names, recorded, members),
    };
    Ok(Rank {
        differing: 0,
        items,
    })
}
