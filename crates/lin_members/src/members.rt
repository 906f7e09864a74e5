//! Members of a compressed frontier.
ghost use Rattle.std.specs.Prelude.{◌≡◌, [], ◌∷◌, ◌++◌, ◌+◌, Some, None, length, IfOk, OnOk};
ghost use Rattle.lin_members.specs.Members.{Member as MemberOf};
ghost use Rattle.lin_members.specs.Listed.{member_at, with_offers, Continues};
ghost use Rattle.lin_members.specs.MemberLaws.{first_member};
ghost use Rattle.lin_frontier.specs.Nodes.{IsGrown};
ghost use Rattle.lin_frontier.specs.Placing.{without as without_process};
ghost use Rattle.lin_members.specs.Asking.{alone_of, IsAheadOf};
ghost use Rattle.lin_members.specs.Searching.{BeginsRound, IsNodeOf, watched};

use crate::offers::Offers;
use crate::pool::Pool;
use crate::rounds::RoundNodes;
use lin_events::{OutOfMemory, Reply};
use lin_frontier::{Config, Pending, copy_config, copy_without};
use lin_objects::SeqObject;
use lin_order::Placed;
use std::alloc::Global;
use std::hash::Hash;
use std::marker::Model;

/// A state with the open updates placed on the way to it, and the replies that observers were offered on that way.
///
/// It stands for each configuration in which some of these observers are placed with a reply on offer to them.
#[derive(Drop)]
pub struct Member<S: Eq + Hash> {
    pub config: Config<S>,
    pub offers: Offers,
    pub path: Path,
}

/// How a member was come by: a node that spells it in rounds, and the last one of these. It is small, since members are
/// moved often.
#[derive(Clone, Copy, Debug, PartialEq, Eq)]
pub struct Path {
    pub node: u32,
    pub round: u32,
    /// Open updates that were called before the event at this position may have taken effect just before the last update, which
    /// overwrote them. It is 0 where the object isn't overwritten.
    pub until: u32,
}

impl<S: Eq + Hash> Model for Member<S> {
    ghost use Rattle.lin_members.specs.Members.{Member as MemberOf};
    ghost use Rattle.lin_members.specs.declared.members.Path.{Path as PathOf};

    ghost Value = { MemberOf S × PathOf };

    ghost view = { λ m. (record { state = m.config.0; placed = m.config.1; offers = m.offers }, m.path) };
}

impl<S: Eq + Hash> Member<S> {
    /// The one member before any event.
    pub fn start(state: S) -> Self
        ensures { result ≡ (first_member state, record { node = 0; round = 0; until = 0 }) }
    {
        Member {
            config: Config::new(state),
            offers: Offers::none(),
            path: Path {
                node: 0,
                round: 0,
                until: 0,
            },
        }
    }

    /// The state, and the open operations placed on the way to it.
    pub fn config(&self) -> &Config<S>
        ensures { result.now ≡ (self.now.0.state, self.now.0.placed) }
    {
        &self.config
    }

    /// The state.
    pub fn state(&self) -> &S
        ensures { result.now ≡ self.now.0.state }
    {
        self.config.state()
    }

    /// The open operations that were placed, by rising process, with their replies.
    pub fn placed(&self) -> &[(u64, Reply)]
        ensures { result.now ≡ self.now.0.placed }
    {
        self.config.placed()
    }

    /// What was on offer before the state.
    pub fn offers(&self) -> &Offers
        ensures { result.now ≡ self.now.0.offers }
    {
        &self.offers
    }

    /// How it was come by.
    pub fn path(&self) -> Path
        ensures { result ≡ self.now.1 }
    {
        self.path
    }

    /// Has no update that is early enough to be overwritten.
    #[inline(always)]
    pub fn stand_alone(&mut self)
        ensures { self.new ≡ alone_of self.old }
    {
        self.path.until = 0;
    }

    /// Gives its lists up, to be used again.
    #[inline(always)]
    pub fn give_up(self, pool: &mut Pool)
    where
        S: Drop,
    {
        self.config.give_up(&mut pool.pairs);
        self.offers.give_up(&mut pool.offers);
    }
}

/// The same member on its own memory, with the offers that may still be taken.
#[inline(always)]
pub fn copied<O: SeqObject>(
    object: &O,
    alloc: Global,
    pending: &Pending,
    member: &Member<O::State>,
    pool: &mut Pool,
) -> Result<Member<O::State>, OutOfMemory>
    ensures { IfOk result (λ copy. copy ≡ (
      record {
        state = member.now.0.state;
        placed = member.now.0.placed;
        offers = watched (O.observing object.now) pending.now member.now.0.offers;
      },
      member.now.1,
    )) }
{
    let offers = member
        .offers
        .watched(object, alloc, pending, &mut pool.offers)?;
    Ok(Member {
        config: copy_config(object, alloc, &member.config)?,
        offers,
        path: member.path,
    })
}

/// The member that placed the operation of the process, without it.
#[inline(always)]
pub fn taken_out<O: SeqObject>(
    object: &O,
    alloc: Global,
    pending: &Pending,
    member: &Member<O::State>,
    process: u64,
    pool: &mut Pool,
) -> Result<Member<O::State>, OutOfMemory>
    ensures { IfOk result (λ rest. rest ≡ (
      record {
        state = member.now.0.state;
        placed = without_process process member.now.0.placed;
        offers = watched (O.observing object.now) pending.now member.now.0.offers;
      },
      member.now.1,
    )) }
{
    let offers = member
        .offers
        .watched(object, alloc, pending, &mut pool.offers)?;
    Ok(Member {
        config: copy_without(object, alloc, &member.config, process, &mut pool.pairs)?,
        offers,
        path: member.path,
    })
}

/// A node more under the parent.
#[inline(always)]
fn push_node(
    parent: u32,
    placed: Placed,
    spot: Option<usize>,
    nodes: &mut RoundNodes,
) -> Result<u32, OutOfMemory>
    ensures grown { IsGrown nodes.old nodes.new }
    ensures node { IfOk result (λ id. IsNodeOf nodes.new id parent (placed, spot)) }
{
    let id = nodes.push(parent as usize, placed, spot)?;
    match u32::try_from(id) {
        Ok(id) => Ok(id),
        Err(_) => Err(OutOfMemory),
    }
}

/// The path with the operation put in the round.
#[inline(always)]
pub fn in_round(
    path: Path,
    placed: Placed,
    round: usize,
    nodes: &mut RoundNodes,
) -> Result<Path, OutOfMemory>
    ensures grown { IsGrown nodes.old nodes.new }
    ensures round { IfOk result (λ next. next.round ≡ path.round) }
    ensures until { IfOk result (λ next. next.until ≡ path.until) }
    ensures node { IfOk result (λ next. IsNodeOf nodes.new next.node path.node (placed, Some round)) }
{
    let node = push_node(path.node, placed, Some(round), nodes)?;
    Ok(Path { node, ..path })
}

/// The path with a round more.
#[inline(always)]
fn longer(path: Path) -> Result<Path, OutOfMemory>
    ensures { IfOk result (λ next. next ≡ record { node = path.node; round = path.round + 1; until = path.until }) }
{
    // No more rounds than fit into memory.
    let Some(round) = path.round.checked_add(1) else {
        return Err(OutOfMemory);
    };
    Ok(Path { round, ..path })
}

/// The path with a new round, which the operation begins.
#[inline(always)]
fn in_next_round(path: Path, placed: Placed, nodes: &mut RoundNodes) -> Result<Path, OutOfMemory>
    ensures grown { IsGrown nodes.old nodes.new }
    ensures round { IfOk result (λ next. next.round ≡ path.round + 1) }
    ensures node { IfOk result (λ next. IsNodeOf nodes.new next.node path.node (placed, None)) }
{
    let next = longer(path)?;
    let node = push_node(path.node, placed, None, nodes)?;
    Ok(Path { node, ..next })
}

/// The same by an update, which overwrites what was called before the event at the position `now`.
#[inline(always)]
pub fn put_behind(
    path: Path,
    placed: Placed,
    now: u32,
    nodes: &mut RoundNodes,
) -> Result<Path, OutOfMemory>
    ensures grown { IsGrown nodes.old nodes.new }
    ensures begins { IfOk result (λ next. BeginsRound nodes.new path next placed) }
    ensures until { IfOk result (λ next. next.until ≡ now) }
{
    let next = in_next_round(path, placed, nodes)?;
    Ok(Path { until: now, ..next })
}

/// The path with the operation as a round of its own ahead of the last one.
#[inline(always)]
pub fn put_ahead(path: Path, placed: Placed, nodes: &mut RoundNodes) -> Result<Path, OutOfMemory>
    ensures grown { IsGrown nodes.old nodes.new }
    ensures ahead { IfOk result (λ next. IsAheadOf nodes.new path next placed) }
{
    let next = longer(path)?;
    // There is no such round, so it is put ahead.
    let node = push_node(path.node, placed, Some(next.round as usize), nodes)?;
    Ok(Path { node, ..next })
}

/// The member of these, whose path goes on from this one by a round, which the operation begins.
#[inline(always)]
pub fn advanced<S: Eq + Hash + Drop>(
    alloc: Global,
    config: Config<S>,
    offers: &Offers,
    path: Path,
    placed: Placed,
    nodes: &mut RoundNodes,
) -> Result<Member<S>, OutOfMemory>
    ensures grown { IsGrown nodes.old nodes.new }
    ensures same { IfOk result (λ next. next.0 ≡ record { state = config.0; placed = config.1; offers = offers.now }) }
    ensures round { IfOk result (λ next. next.1.round ≡ path.round + 1) }
    ensures node { IfOk result (λ next. IsNodeOf nodes.new next.1.node path.node (placed, None)) }
{
    let path = in_next_round(path, placed, nodes)?;
    let offers = offers.copy()?;
    Ok(Member {
        config,
        offers,
        path,
    })
}

/// The same member on its own memory.
pub fn same<O: SeqObject>(
    object: &O,
    alloc: Global,
    member: &Member<O::State>,
) -> Result<Member<O::State>, OutOfMemory>
    ensures { IfOk result (λ copy. copy ≡ member.now) }
{
    let offers = member.offers.copy()?;
    Ok(Member {
        config: copy_config(object, alloc, &member.config)?,
        offers,
        path: member.path,
    })
}

/// The same member with nothing on offer.
pub fn bare<O: SeqObject>(
    object: &O,
    alloc: Global,
    member: &Member<O::State>,
) -> Result<Member<O::State>, OutOfMemory>
    ensures { IfOk result (λ copy. copy ≡ with_offers [] member.now) }
{
    Ok(Member {
        config: copy_config(object, alloc, &member.config)?,
        offers: Offers::none(),
        path: member.path,
    })
}

/// The path with the operation, put in the round, or behind all where none is given.
fn extend_path(
    path: Path,
    placed: Placed,
    spot: Option<usize>,
    nodes: &mut RoundNodes,
) -> Result<Path, OutOfMemory>
    ensures grown { IsGrown nodes.old nodes.new }
    ensures continued { IfOk result (λ next. Continues nodes.new path next placed spot) }
{
    match spot {
        Some(round) => in_round(path, placed, round, nodes),
        None => in_next_round(path, placed, nodes),
    }
}

/// The configuration as a member with nothing on offer, whose path goes on from this one by the operation.
pub fn bare_next<S: Eq + Hash + Drop>(
    alloc: Global,
    config: Config<S>,
    path: Path,
    placed: Placed,
    spot: Option<usize>,
    nodes: &mut RoundNodes,
) -> Result<Member<S>, OutOfMemory>
    ensures grown { IsGrown nodes.old nodes.new }
    ensures same { IfOk result (λ next. next.0 ≡ member_at config []) }
    ensures continued { IfOk result (λ next. Continues nodes.new path next.1 placed spot) }
{
    let path = extend_path(path, placed, spot, nodes)?;
    Ok(Member {
        config,
        offers: Offers::none(),
        path,
    })
}

/// The reply, placed at the position.
#[inline(always)]
pub fn placed_at(alloc: Global, at: usize, reply: &Reply) -> Result<Placed, OutOfMemory>
    ensures { IfOk result (λ placed. placed ≡ record { at = at; reply = reply.now }) }
{
    Ok(Placed {
        at,
        reply: reply.copy(alloc)?,
    })
}

/// Puts the member last.
#[inline(always)]
pub fn push_member<S: Eq + Hash + Drop>(
    members: &mut Vec<Member<S>>,
    member: Member<S>,
) -> Result<(), OutOfMemory>
    ensures { OnOk result (members.new.items ≡ members.old.items ++ member ∷ []) }
{
    match members.push(member) {
        Ok(()) => Ok(()),
        Err(_) => Err(OutOfMemory),
    }
}
