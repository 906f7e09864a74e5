//! Processes with the replies that their operations took.
ghost use Rattle.std.specs.Prelude.{◌≡◌, ◌%◌, ◌^◌, ◌∷◌, ◌++◌, [], IfOk, OnOk};
ghost use Rattle.lin_frontier.specs.Masks.{mask_of};

use crate::spare::Spare;
use lin_events::{OutOfMemory, Reply};
use smallvec::SmallVec;
use std::alloc::Global;
use std::marker::Model;
use std::rc::Rc;

/// Pairs of a process and a reply that are being put together.
#[derive(Drop)]
pub struct PairList {
    items: SmallVec<(u64, Reply), 2>,
    /// The bits of the processes.
    mask: u64,
}

impl Model for PairList {
    ghost use Rattle.std.specs.Prelude.{◌≡◌, ℕ, List};
    ghost use Rattle.lin_events.specs.declared.calls.Reply.{Reply as ReplyOf};
    ghost use Rattle.lin_frontier.specs.Masks.{mask_of};

    ghost Value = { List (ℕ × ReplyOf) };

    ghost view = { λ p. p.items.items };

    ghost invariant = { λ p. p.mask ≡ mask_of p.items.items };
}

/// Pairs of a process and a reply, with a mask that tells of most pairs at once that they aren't part of others. Copies
/// share them.
#[derive(Drop)]
pub struct Pairs {
    /// None where there is no pair.
    list: Option<Rc<PairList>>,
    /// The bits of the processes.
    mask: u64,
}

impl Model for Pairs {
    ghost use Rattle.std.specs.Prelude.{◌≡◌, ℕ, List};
    ghost use Rattle.lin_events.specs.declared.calls.Reply.{Reply as ReplyOf};
    ghost use Rattle.lin_frontier.specs.Masks.{mask_of};
    ghost use Rattle.lin_frontier.specs.Sharing.{shared};

    ghost Value = { List (ℕ × ReplyOf) };

    ghost view = { λ p. shared p.list };

    ghost invariant = { λ p. p.mask ≡ mask_of (shared p.list) };
}

/// The bit of the process, which every 64th process has too.
pub fn bit_of(process: u64) -> u64
    ensures { result ≡ 2 ^ (process % 64) }
{
    1 << (process % 64)
}

impl PairList {
    /// No pair yet.
    #[inline(always)]
    pub fn new(alloc: Global) -> Self
        ensures { result ≡ [] }
    {
        PairList {
            items: SmallVec::new(alloc),
            mask: 0,
        }
    }

    /// Takes memory for so many pairs more at once, where they don't fit in.
    #[inline(always)]
    pub fn reserve(&mut self, count: usize) -> Result<(), OutOfMemory>
        ensures { OnOk result (self.new ≡ self.old) }
    {
        if count > 2 {
            self.items.reserve(count)?;
        }
        Ok(())
    }

    /// No pair any more.
    #[inline(always)]
    fn clear(&mut self)
        ensures { self.new ≡ [] }
    {
        self.items.clear();
        self.mask = 0;
    }

    /// A list with no pair yet, which has one owner: one that nobody has any more, or a new one.
    #[inline(always)]
    pub fn emptied(alloc: Global, spare: &mut Spare<PairList>) -> Result<Rc<PairList>, OutOfMemory>
        ensures { IfOk result (λ list. list.value ≡ []) }
    {
        if let Some(mut list) = spare.take()
            && let Some(own) = Rc::get_mut(&mut list)
        {
            own.clear();
            return Ok(list);
        }
        let list = Rc::new(alloc, PairList::new(alloc))?;
        Ok(list)
    }

    fn as_slice(&self) -> &[(u64, Reply)]
        ensures { result.now ≡ self.now }
    {
        self.items.as_slice()
    }

    /// The bits of the processes.
    fn mask(&self) -> u64
        ensures { result ≡ mask_of self.now }
    {
        self.mask
    }

    /// One more pair, put last.
    #[inline(always)]
    pub fn push(&mut self, process: u64, reply: Reply) -> Result<(), OutOfMemory>
        ensures { OnOk result (self.new ≡ self.old ++ (process, reply) ∷ []) }
    {
        match self.items.push((process, reply)) {
            Ok(()) => {
                self.mask |= bit_of(process);
                Ok(())
            }
            Err(_) => Err(OutOfMemory),
        }
    }
}

impl Pairs {
    /// No pair.
    pub fn none() -> Self
        ensures { result ≡ [] }
    {
        Pairs {
            list: None,
            mask: 0,
        }
    }

    /// The pairs of the list.
    #[inline(always)]
    pub fn of(list: Rc<PairList>, spare: &mut Spare<PairList>) -> Pairs
        ensures { result ≡ list.value }
    {
        if list.as_ref().as_slice().is_empty() {
            spare.put(list);
            return Pairs::none();
        }
        let mask = list.as_ref().mask();
        Pairs {
            list: Some(list),
            mask,
        }
    }

    /// Gives the list up, to be used again.
    #[inline(always)]
    pub fn give_up(self, spare: &mut Spare<PairList>) {
        if let Some(list) = self.list {
            spare.put(list);
        }
    }

    /// The same pairs.
    #[inline(always)]
    pub fn copy(&self) -> Result<Pairs, OutOfMemory>
        ensures { IfOk result (λ copy. copy ≡ self.now) }
    {
        match &self.list {
            Some(list) => Ok(Pairs {
                list: Some(list.clone()?),
                mask: self.mask,
            }),
            None => Ok(Pairs::none()),
        }
    }

    pub fn as_slice(&self) -> &[(u64, Reply)]
        ensures { result.now ≡ self.now }
    {
        match &self.list {
            Some(list) => list.as_ref().as_slice(),
            None => &[],
        }
    }

    /// The bits of the processes.
    pub fn mask(&self) -> u64
        ensures { result ≡ mask_of self.now }
    {
        self.mask
    }
}
