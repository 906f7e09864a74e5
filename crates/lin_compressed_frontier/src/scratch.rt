//! Memory that is used again from event to event.
ghost use Rattle.std.specs.Prelude.{◌≡◌, [], IfOk};

use crate::compressed::Compressed;
use lin_events::{OutOfMemory, Reply};
use lin_frontier::{Config, Open};
use lin_members::{Member, Pool};
use lin_objects::SeqObject;
use lin_order::Placed;
use std::alloc::Global;
use std::hash::Hash;
use std::mem;

/// Lists whose memory is used again by each search. What they hold between searches means nothing: each list is emptied before it
/// is used.
#[derive(Drop)]
pub struct Scratch<O: SeqObject> {
    alloc: Global,
    found: Vec<Member<O::State>>,
    open: Vec<Open>,
    early: Vec<Open>,
    visited: Vec<Member<O::State>>,
    pub(crate) next: Vec<(Config<O::State>, Placed)>,
    pub(crate) steps: Vec<(O::State, Reply)>,
    pub(crate) pool: Pool,
}

/// Empties the list. Mostly it is empty, which is seen without a call.
#[inline(always)]
pub(crate) fn empty<T: Drop>(list: &mut Vec<T>)
    ensures { list.new.items ≡ [] }
{
    if !list.is_empty() {
        list.clear();
    }
}

/// The list, emptied, with one that has no memory in its place.
#[inline(always)]
fn take_list<T: Drop>(alloc: Global, list: &mut Vec<T>) -> Vec<T>
    ensures { result.items ≡ [] }
{
    let mut emptied = mem::replace(list, Vec::new(alloc));
    empty(&mut emptied);
    emptied
}

/// Gives the lists of all the members up, to be used again.
#[inline(always)]
pub(crate) fn give_up_all<S: Eq + Hash + Drop>(members: &mut Vec<Member<S>>, pool: &mut Pool)
    ensures { members.new.items ≡ [] }
{
    while let Some(member) = members.pop() {
        member.give_up(pool);
    }
}

impl<O: SeqObject> Scratch<O> {
    /// No memory yet.
    pub fn new(alloc: Global) -> Self
        ensures members { (result.found.items ≡ []) × (result.visited.items ≡ []) }
        ensures open { (result.open.items ≡ []) × (result.early.items ≡ []) }
        ensures next { (result.next.items ≡ []) × (result.steps.items ≡ []) }
    {
        Scratch {
            alloc,
            found: Vec::new(alloc),
            open: Vec::new(alloc),
            early: Vec::new(alloc),
            visited: Vec::new(alloc),
            next: Vec::new(alloc),
            steps: Vec::new(alloc),
            pool: Pool::new(alloc),
        }
    }

    /// Takes the memory of a frontier that is done with.
    pub fn take_back(&mut self, frontier: Compressed<O>)
        ensures found { self.new.found.items ≡ [] }
        ensures others { self.new ≡ record self.old { found = self.new.found; pool = self.new.pool } }
    {
        let mut members = frontier.into_members();
        give_up_all(&mut members, &mut self.pool);
        self.found = members;
    }

    /// An empty list for members that are found, with room for so many.
    #[inline(always)]
    pub(crate) fn found(&mut self, room: usize) -> Result<Vec<Member<O::State>>, OutOfMemory>
        ensures { IfOk result (λ list. list.items ≡ []) }
    {
        let mut list = take_list(self.alloc, &mut self.found);
        list.reserve(room)?;
        Ok(list)
    }

    /// An empty list for operations that are open.
    #[inline(always)]
    pub(crate) fn open(&mut self) -> Vec<Open>
        ensures { result.items ≡ [] }
    {
        take_list(self.alloc, &mut self.open)
    }

    /// Takes the list of open operations back.
    #[inline(always)]
    pub(crate) fn keep_open(&mut self, open: Vec<Open>) {
        self.open = open;
    }

    /// An empty list for operations that were called early.
    #[inline(always)]
    pub(crate) fn early_list(&mut self) -> Vec<Open>
        ensures { result.items ≡ [] }
    {
        take_list(self.alloc, &mut self.early)
    }

    /// Takes the list of early operations back.
    #[inline(always)]
    pub(crate) fn keep_early(&mut self, early: Vec<Open>) {
        self.early = early;
    }

    /// An empty list for members that a search comes to.
    #[inline(always)]
    pub(crate) fn visited_list(&mut self) -> Vec<Member<O::State>>
        ensures { result.items ≡ [] }
    {
        take_list(self.alloc, &mut self.visited)
    }

    /// Takes the list of visited members back.
    #[inline(always)]
    pub(crate) fn keep_visited(&mut self, visited: Vec<Member<O::State>>) {
        self.visited = visited;
    }

    /// An empty list for configurations.
    #[inline(always)]
    pub(crate) fn next(&mut self) -> Vec<(Config<O::State>, Placed)>
        ensures { result.items ≡ [] }
    {
        take_list(self.alloc, &mut self.next)
    }

    /// Takes the list of configurations back.
    #[inline(always)]
    pub(crate) fn keep_next(&mut self, next: Vec<(Config<O::State>, Placed)>) {
        self.next = next;
    }
}
