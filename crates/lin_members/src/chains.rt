//! Rounds in flat memory, so that they take few growths however many they are.
ghost use Rattle.std.specs.Prelude.{◌≡◌, ◌+◌, ◌-◌, ◌<◌, ◌∷◌, ◌++◌, [], ℕ, List, Option, Some, length, slice_get, reverse, IfOk, IfSome, IfNone, OnOk};
ghost use Rattle.lin_order.specs.declared.placed.Placed.{Placed as PlacedOf};
ghost use Rattle.lin_frontier.specs.Nodes.{Spells};
ghost use Rattle.lin_members.specs.Rounds.{joined as joined_of, ahead as ahead_of, place as place_in};
ghost use Rattle.lin_members.specs.Searching.{in_rounds as in_rounds_of};
ghost use Rattle.lin_members.specs.inner.Chains.{AreChained};

use lin_events::OutOfMemory;
use lin_order::Placed;
use std::alloc::Global;

/// Rounds: each operation is linked to the one before it in its round, and each round is known by its last operation.
/// Operations are numbered from 1 as they are put, and 0 stands for none.
#[derive(Drop)]
pub(crate) struct Chains {
    links: Vec<(usize, Placed)>,
    ends: Vec<usize>,
}

impl Chains {
    /// One empty round, with memory for so many operations.
    fn new(alloc: Global, count: usize) -> Result<Self, OutOfMemory>
        ensures { IfOk result (λ rounds. AreChained rounds ([] ∷ [])) }
    {
        // Each operation may begin a round.
        let mut ends = Vec::with_capacity(alloc, count.saturating_add(1))?;
        ends.push(0)?;
        Ok(Chains {
            links: Vec::with_capacity(alloc, count)?,
            ends,
        })
    }

    /// A round of its own for the operation.
    fn begin(&mut self, placed: Placed) -> Result<(), OutOfMemory>
        ensures { OnOk result ((self.new.links.items ≡ self.old.links.items ++ (0, placed) ∷ []) × (self.new.ends.items ≡ self.old.ends.items ++ (length self.old.links.items + 1) ∷ [])) }
    {
        self.links.push((0, placed))?;
        self.ends.push(self.links.len())?;
        Ok(())
    }

    /// A round of its own for the operation, ahead of the last one.
    fn insert(&mut self, placed: Placed) -> Result<(), OutOfMemory>
        ensures { OnOk result ((rounds : List (List PlacedOf)) → AreChained self.old rounds → AreChained self.new (ahead_of placed rounds)) }
    {
        let Some(last) = self.ends.pop() else {
            return Ok(());
        };
        self.begin(placed)?;
        self.ends.push(last)?;
        Ok(())
    }

    /// Puts the operation last in the round, or, where there is no such round, ahead of the last one.
    fn place(&mut self, round: usize, placed: Placed) -> Result<(), OutOfMemory>
        ensures { OnOk result ((rounds : List (List PlacedOf)) → AreChained self.old rounds → AreChained self.new (place_in round placed rounds)) }
    {
        if round < self.ends.len() {
            self.links.push((self.ends[round], placed))?;
            self.ends[round] = self.links.len();
            return Ok(());
        }
        self.insert(placed)
    }

    /// Puts the operation in the round, or in one of its own behind all where none is given.
    fn put(&mut self, placed: Placed, round: Option<usize>) -> Result<(), OutOfMemory>
        ensures { OnOk result ((rounds : List (List PlacedOf)) → AreChained self.old rounds → AreChained self.new (in_rounds_of rounds ((placed, round) ∷ []))) }
    {
        match round {
            Some(round) => self.place(round, placed),
            None => self.begin(placed),
        }
    }

    /// The rounds that come of putting the operations, which stand last to first.
    pub(crate) fn of(
        alloc: Global,
        entries: Vec<(Placed, Option<usize>)>,
    ) -> Result<Self, OutOfMemory>
        ensures { IfOk result (λ rounds. AreChained rounds (in_rounds_of ([] ∷ []) (reverse entries.items))) }
    {
        let mut rest = entries;
        let mut rounds = Chains::new(alloc, rest.len())?;
        while let Some((placed, round)) = rest.pop() {
            rounds.put(placed, round)?;
        }
        Ok(rounds)
    }

    /// The operation with the number, and the one before it; none for 0 and for a number that is no operation's.
    fn link(&self, number: usize) -> Option<(usize, &Placed)>
        ensures some { IfSome result (λ link. (0 < number) × (slice_get self.now.links.items (number - 1) ≡ Some (link.0, link.1.now))) }
        ensures none { IfNone result (0 < number → length self.now.links.items < number) }
    {
        let (before, placed) = self.links.get(number.checked_sub(1)?)?;
        Some((*before, placed))
    }

    /// Puts copies of the round that ends with this operation behind the order, last to first.
    fn append(&self, alloc: Global, from: usize, order: &mut Vec<Placed>) -> Result<(), OutOfMemory>
        ensures { OnOk result ((round : List PlacedOf) → Spells self.now.links.items from round → order.new.items ≡ order.old.items ++ reverse round) }
    {
        let mut at = from;
        // A round has no more operations than there are.
        for _ in 0..self.links.len() {
            let Some((before, last)) = self.link(at) else {
                break;
            };
            let reply = last.reply.copy(alloc)?;
            order.push(Placed { at: last.at, reply })?;
            at = before;
        }
        Ok(())
    }

    /// The rounds one after the other.
    pub(crate) fn join(&self, alloc: Global) -> Result<Vec<Placed>, OutOfMemory>
        ensures { IfOk result (λ order. (rounds : List (List PlacedOf)) → AreChained self.now rounds → order.items ≡ joined_of rounds) }
    {
        let mut order = Vec::with_capacity(alloc, self.links.len())?;
        let mut round = self.ends.len();
        while round > 0 {
            round -= 1;
            self.append(alloc, self.ends[round], &mut order)?;
        }
        order.reverse();
        Ok(order)
    }
}
