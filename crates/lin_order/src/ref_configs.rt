//! Configurations as values: a state, and open operations that are placed.
ghost use Rattle.std.specs.Prelude.{◌≡◌, ◌≤◌, ◌++◌, ◌∷◌, ◌↔◌, ℕ, Contains, IfOk, IsTrue, drop, length, take};
ghost use Rattle.std.specs.Cmp.{decided, partial_equiv_from_equiv};
ghost use Rattle.std.specs.Hash as fed;
ghost use Rattle.std.specs.List.{fold};
ghost use Rattle.std.specs.Hash.{same_Alike};
ghost use Rattle.lin_events.specs.declared.calls.Reply.{Reply as ReplyOf};
ghost use Rattle.lin_order.specs.Configurations.{IsAdded, IsRising};
ghost use Rattle.lin_order.specs.Sameness.{config_Decides, config_eq};

use lin_events::{OutOfMemory, Reply};
use lin_objects::State;
use std::alloc::Global;
use std::hash::{Hash, Hasher};
use std::marker::Model;

/// A state of the object, and open operations that are placed: each by its process, with the reply that it got. In a
/// refutation the processes have to rise strictly.
#[derive(Drop)]
pub struct RefConfig {
    pub state: State,
    pub placed: Vec<(u64, Reply)>,
}

impl Model for RefConfig {
    ghost use Rattle.std.specs.Prelude.{ℕ, List};
    ghost use Rattle.lin_events.specs.declared.calls.Reply.{Reply as ReplyOf};
    ghost use Rattle.lin_objects.specs.declared.states.State.{State as StateOf};

    ghost Value = { StateOf × List (ℕ × ReplyOf) };

    ghost view = { λ c. (c.state, c.placed.items) };
}

impl PartialEq for RefConfig {
    ghost eq = { config_eq };

    ghost laws = { partial_equiv_from_equiv (decided config_eq config_Decides) };

    fn eq(&self, other: &Self) -> bool {
        self.state == other.state && self.placed.as_slice() == other.placed.as_slice()
    }
}

impl Eq for RefConfig {
    ghost laws = { decided config_eq config_Decides };
}

impl Hash for RefConfig {
    ghost hash_input = { λ c. ⟦<State as Hash>⟧.hash_input c.0 ++ fed.slice ⟦<(u64, Reply) as Hash>⟧.hash_input c.1 };

    ghost respects_eq = { (same_Alike (λ c. ⟦<State as Hash>⟧.hash_input c.0 ++ fed.slice ⟦<(u64, Reply) as Hash>⟧.hash_input c.1) config_Decides).fed };

    fn hash<H: Hasher>(&self, state: &mut H) {
        hash_parts(&self.state, self.placed.as_slice(), state);
    }
}

/// Feeds the state, and then the pairs.
fn hash_parts<S: Hash, H: Hasher>(first: &S, placed: &[(u64, Reply)], state: &mut H)
    ensures { state.new ≡ fold H.write state.old (S.hash_input first.now ++ fed.slice ⟦<(u64, Reply) as Hash>⟧.hash_input placed.now) }
{
    first.hash(state);
    placed.hash(state);
}

impl RefConfig {
    /// The configuration with this state and these operations placed.
    pub fn new(state: State, placed: Vec<(u64, Reply)>) -> Self
        ensures { result ≡ (state, placed.items) }
    {
        RefConfig { state, placed }
    }

    /// The object's state.
    pub fn state(&self) -> &State
        ensures { result.now ≡ self.now.0 }
    {
        &self.state
    }

    /// The operations that are placed, by process, with their replies.
    pub fn placed(&self) -> &[(u64, Reply)]
        ensures { result.now ≡ self.now.1 }
    {
        self.placed.as_slice()
    }

    /// An equal configuration on its own memory.
    pub fn copy(&self, alloc: Global) -> Result<RefConfig, OutOfMemory>
        ensures { IfOk result (λ copy. copy ≡ self.now) }
    {
        let state = self.state.copy(alloc)?;
        let placed = copy_pairs(alloc, self.placed.as_slice())?;
        Ok(RefConfig { state, placed })
    }
}

/// Equal pairs on memory of their own.
fn copy_pairs(alloc: Global, pairs: &[(u64, Reply)]) -> Result<Vec<(u64, Reply)>, OutOfMemory>
    ensures { IfOk result (λ copy. copy.items ≡ pairs.now) }
{
    let mut copy = Vec::new(alloc);
    for pair in pairs {
        let reply = pair.1.copy(alloc)?;
        copy.push((pair.0, reply))?;
    }
    Ok(copy)
}

/// Whether the processes rise strictly.
pub fn is_rising(placed: &[(u64, Reply)]) -> bool
    ensures { IsTrue result ↔ IsRising placed.now }
{
    let mut i = 1;
    while i < placed.len() {
        if placed[i - 1].0 >= placed[i].0 {
            return false;
        }
        i += 1;
    }
    true
}

/// Whether no operation of the process is placed.
pub fn is_absent(placed: &[(u64, Reply)], process: u64) -> bool
    ensures { IsTrue result ↔ ((reply : ReplyOf) → Contains placed.now (process, reply) → ⊥) }
{
    for pair in placed {
        if pair.0 == process {
            return false;
        }
    }
    true
}

/// Whether the pair is of the process, with this reply.
fn is_pair(pair: &(u64, Reply), process: u64, reply: &Reply) -> bool
    ensures { IsTrue result ↔ (pair.now ≡ (process, reply.now)) }
{
    pair.0 == process && pair.1 == *reply
}

/// Whether the operation of the process is placed with this reply.
pub fn is_placed(placed: &[(u64, Reply)], process: u64, reply: &Reply) -> bool
    ensures { IsTrue result ↔ Contains placed.now (process, reply.now) }
{
    for pair in placed {
        if is_pair(pair, process, reply) {
            return true;
        }
    }
    false
}

/// Where a pair of the process belongs.
fn place_of(placed: &[(u64, Reply)], process: u64) -> usize
    requires rising { IsRising placed.now }
    requires absent { (reply : ReplyOf) → Contains placed.now (process, reply) → ⊥ }
    ensures within { result ≤ length placed.now }
    ensures added { (reply : ReplyOf) → IsAdded process reply placed.now (take result placed.now ++ (process, reply) ∷ drop result placed.now) }
{
    let mut i = 0;
    while i < placed.len() {
        if placed[i].0 >= process {
            return i;
        }
        i += 1;
    }
    i
}

/// The pairs with one more in its place.
pub fn with_pair(
    alloc: Global,
    placed: &[(u64, Reply)],
    process: u64,
    reply: Reply,
) -> Result<Vec<(u64, Reply)>, OutOfMemory>
    requires rising { IsRising placed.now }
    requires absent { (other : ReplyOf) → Contains placed.now (process, other) → ⊥ }
    ensures { IfOk result (λ more. IsAdded process reply placed.now more.items) }
{
    let at = place_of(placed, process);
    let mut more = copy_pairs(alloc, &placed[..at])?;
    more.push((process, reply))?;
    let mut rest = copy_pairs(alloc, &placed[at..])?;
    more.append(&mut rest)?;
    Ok(more)
}

/// The pairs without that of the process.
pub fn without_pair(
    alloc: Global,
    placed: &[(u64, Reply)],
    process: u64,
) -> Result<Vec<(u64, Reply)>, OutOfMemory>
    requires rising { IsRising placed.now }
    ensures { IfOk result (λ fewer. (reply : ReplyOf) → Contains placed.now (process, reply) → IsAdded process reply fewer.items placed.now) }
{
    let mut fewer = Vec::new(alloc);
    for pair in placed {
        if pair.0 == process {
            continue;
        }
        let reply = pair.1.copy(alloc)?;
        fewer.push((pair.0, reply))?;
    }
    Ok(fewer)
}
