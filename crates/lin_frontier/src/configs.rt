//! Configurations: where an object may stand, and which open operations it may have taken.
ghost use Rattle.std.specs.Prelude.{◌≡◌, ◌↔◌, ◌∷◌, ◌++◌, ◌&&◌, ◌≤◌, [], length, take, drop, Contains, IfOk, OnOk, IsTrue};
ghost use Rattle.std.specs.Cmp.{on_equiv, and_equiv, partial_equiv_from_equiv, decided};
ghost use Rattle.std.specs.Cmp.Lexicographic.{pointwise};
ghost use Rattle.std.specs.Hash as fed;
ghost use Rattle.std.specs.Hash.{same_Alike, and-Alike, on_Alike};
ghost use Rattle.lin_events.specs.declared.calls.Reply.{Reply as ReplyOf};
ghost use Rattle.lin_frontier.specs.Placing.{IsAbsent, insert_pair, without};
ghost use Rattle.lin_frontier.specs.Sameness.{pair_eq, placed_Decides};

use crate::pairs::{PairList, Pairs};
use crate::spare::Spare;
use lin_events::{OutOfMemory, Reply};
use std::alloc::Global;
use std::hash::{Hash, Hasher};
use std::marker::Model;
use std::rc::Rc;

/// A state of the object, and the open operations that were placed on the way to it: each by its process, with the reply
/// that it took, by rising process.
#[derive(Drop)]
pub struct Config<S: Eq + Hash> {
    state: S,
    placed: Pairs,
}

impl<S: Eq + Hash> Model for Config<S> {
    ghost use Rattle.std.specs.Prelude.{ℕ, List};
    ghost use Rattle.lin_events.specs.declared.calls.Reply.{Reply as ReplyOf};

    ghost Value = { S × List (ℕ × ReplyOf) };

    ghost view = { λ c. (c.state, c.placed) };
}

impl<S: Eq + Hash> Config<S> {
    /// The configuration in which nothing is placed.
    pub fn new(state: S) -> Self
        ensures { result ≡ (state, []) }
    {
        Config {
            state,
            placed: Pairs::none(),
        }
    }

    /// The configuration of these.
    pub fn of(state: S, placed: Pairs) -> Self
        ensures { result ≡ (state, placed) }
    {
        Config { state, placed }
    }

    /// The object's state.
    pub fn state(&self) -> &S
        ensures { result.now ≡ self.now.0 }
    {
        &self.state
    }

    /// The open operations that were placed, by rising process, with their replies.
    pub fn placed(&self) -> &[(u64, Reply)]
        ensures { result.now ≡ self.now.1 }
    {
        self.placed.as_slice()
    }

    /// The same with what tells quickly whether they may be part of others.
    pub fn pairs(&self) -> &Pairs
        ensures { result.now ≡ self.now.1 }
    {
        &self.placed
    }
}

/// Puts a copy of the pair last.
#[inline(always)]
fn append_pair(alloc: Global, copy: &mut PairList, pair: &(u64, Reply)) -> Result<(), OutOfMemory>
    ensures { OnOk result (copy.new ≡ copy.old ++ pair.now ∷ []) }
{
    copy.push(pair.0, pair.1.copy(alloc)?)
}

/// Puts copies of the pairs last.
#[inline(always)]
fn append_pairs(
    alloc: Global,
    copy: &mut PairList,
    pairs: &[(u64, Reply)],
) -> Result<(), OutOfMemory>
    ensures { OnOk result (copy.new ≡ copy.old ++ pairs.now) }
{
    for pair in pairs {
        append_pair(alloc, copy, pair)?;
    }
    Ok(())
}

/// Where a pair of the process belongs.
fn place_of(placed: &[(u64, Reply)], process: u64) -> usize
    ensures within { result ≤ length placed.now }
    ensures place { (reply : ReplyOf) → insert_pair process reply placed.now ≡ take result placed.now ++ (process, reply) ∷ drop result placed.now }
{
    let mut i = 0;
    while i < placed.len() {
        if placed[i].0 >= process {
            return i;
        }
        i += 1;
    }
    i
}

/// Whether no operation of the process is placed.
pub fn is_absent(placed: &[(u64, Reply)], process: u64) -> bool
    ensures { IsTrue result ↔ IsAbsent process placed.now }
{
    for pair in placed {
        if pair.0 == process {
            return false;
        }
    }
    true
}

/// Whether the pair is of the process, with this reply.
pub fn is_pair(pair: &(u64, Reply), process: u64, reply: &Reply) -> bool
    ensures { IsTrue result ↔ (pair.now ≡ (process, reply.now)) }
{
    pair.0 == process && pair.1 == *reply
}

/// Whether the operation of the process is placed with this reply.
pub fn is_placed(placed: &[(u64, Reply)], process: u64, reply: &Reply) -> bool
    ensures { IsTrue result ↔ Contains placed.now (process, reply.now) }
{
    for pair in placed {
        if is_pair(pair, process, reply) {
            return true;
        }
    }
    false
}

impl<S: Eq + Hash> Config<S> {
    /// The configuration with this state and the same operations placed.
    #[inline(always)]
    pub fn with_state(&self, state: S) -> Result<Config<S>, OutOfMemory>
    where
        S: Drop,
        ensures { IfOk result (λ c. c ≡ (state, self.now.1)) }
    {
        let placed = self.placed.copy()?;
        Ok(Config { state, placed })
    }

    /// The configuration with this state after one more operation is placed.
    #[inline(always)]
    pub fn with_placed(
        &self,
        alloc: Global,
        state: S,
        process: u64,
        reply: Reply,
        spare: &mut Spare<PairList>,
    ) -> Result<Config<S>, OutOfMemory>
    where
        S: Drop,
        ensures { IfOk result (λ c. c ≡ (state, insert_pair process reply self.now.1)) }
    {
        let pairs = self.placed.as_slice();
        let at = place_of(pairs, process);
        let mut shared = PairList::emptied(alloc, spare)?;
        // It has one owner, so it can be written.
        let Some(list) = Rc::get_mut(&mut shared) else {
            return Err(OutOfMemory);
        };
        list.reserve(pairs.len().saturating_add(1))?;
        append_pairs(alloc, list, &pairs[..at])?;
        list.push(process, reply)?;
        append_pairs(alloc, list, &pairs[at..])?;
        let placed = Pairs::of(shared, spare);
        Ok(Config { state, placed })
    }

    /// The same on new memory.
    pub fn with_placed_anew(
        &self,
        alloc: Global,
        state: S,
        process: u64,
        reply: Reply,
    ) -> Result<Config<S>, OutOfMemory>
    where
        S: Drop,
        ensures { IfOk result (λ c. c ≡ (state, insert_pair process reply self.now.1)) }
    {
        let mut spare = Spare::new(alloc);
        self.with_placed(alloc, state, process, reply, &mut spare)
    }

    /// The configuration with this state, and without the operation of the process.
    #[inline(always)]
    pub fn without(
        &self,
        alloc: Global,
        state: S,
        process: u64,
        spare: &mut Spare<PairList>,
    ) -> Result<Config<S>, OutOfMemory>
    where
        S: Drop,
        ensures { IfOk result (λ c. c ≡ (state, without process self.now.1)) }
    {
        let pairs = self.placed.as_slice();
        let mut shared = PairList::emptied(alloc, spare)?;
        // It has one owner, so it can be written.
        let Some(list) = Rc::get_mut(&mut shared) else {
            return Err(OutOfMemory);
        };
        list.reserve(pairs.len())?;
        for pair in pairs {
            if pair.0 == process {
                continue;
            }
            append_pair(alloc, list, pair)?;
        }
        let placed = Pairs::of(shared, spare);
        Ok(Config { state, placed })
    }

    /// Gives the list of what is placed up, to be used again.
    #[inline(always)]
    pub fn give_up(self, spare: &mut Spare<PairList>)
    where
        S: Drop,
    {
        self.placed.give_up(spare);
    }
}

impl<S: Eq + Hash> PartialEq for Config<S> {
    ghost eq = { λ a b. S.eq a.0 b.0 && pointwise pair_eq a.1 b.1 };

    ghost laws = { partial_equiv_from_equiv (and_equiv (on_equiv (λ a. a.0) S.Eq.laws) (on_equiv (λ a. a.1) (decided (pointwise pair_eq) placed_Decides))) };

    fn eq(&self, other: &Self) -> bool {
        self.state == other.state && self.placed() == other.placed()
    }
}

impl<S: Eq + Hash> Eq for Config<S> {
    ghost laws = { and_equiv (on_equiv (λ a. a.0) S.Eq.laws) (on_equiv (λ a. a.1) (decided (pointwise pair_eq) placed_Decides)) };
}

impl<S: Eq + Hash> Hash for Config<S> {
    ghost hash_input = { λ a. S.hash_input a.0 ++ fed.slice ⟦<(u64, Reply) as Hash>⟧.hash_input a.1 };

    ghost respects_eq = { (and-Alike (on_Alike (λ a. a.0) (record { fed = S.respects_eq })) (on_Alike (λ a. a.1) (same_Alike (fed.slice ⟦<(u64, Reply) as Hash>⟧.hash_input) placed_Decides))).fed };

    fn hash<H: Hasher>(&self, state: &mut H) {
        self.state.hash(state);
        self.placed().hash(state);
    }
}
