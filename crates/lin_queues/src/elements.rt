//! The elements of a queue, of which the enqueue returned.
ghost use Rattle.std.specs.Prelude.{◌≡◌, ◌<◌, ◌++◌, ◌∷◌, [], ℕ, OnOk, OnErr, Some, slice_get};
ghost use Rattle.lin_queues.specs.Chains.{AreChained};
ghost use Rattle.lin_queues.specs.declared.elements.Element.{Element as ElementOf};

use lin_events::{Item, OutOfMemory};
use std::alloc::Global;
use std::collections::HashMap;

/// An item that an enqueue put into the queue.
#[derive(Clone, Copy)]
pub(crate) struct Element {
    /// Where the enqueue was invoked. This names the element.
    pub(crate) place: usize,
    /// Where it returned.
    pub(crate) returned: usize,
    pub(crate) item: Item,
    /// The elements of the same item that returned before it stand ahead of this index.
    pub(crate) earlier: usize,
}

/// The elements in the order in which their enqueues returned.
#[derive(Drop)]
pub(crate) struct Elements {
    pub(crate) all: Vec<Element>,
    /// The index of the latest element of each item.
    latest: HashMap<Item, usize>,
}

impl Elements {
    /// None.
    pub(crate) fn new(alloc: Global) -> Elements
        ensures none { result.all.items ≡ [] }
        ensures chained { AreChained result.all.items result.latest.entries }
    {
        Elements {
            all: Vec::new(alloc),
            latest: HashMap::new(alloc),
        }
    }

    /// All elements of the item stand ahead of this index.
    pub(crate) fn end_of(&self, item: Item) -> usize
        ensures { AreChained self.now.all.items self.now.latest.entries → (i : ℕ) (x : ElementOf) → slice_get self.now.all.items i ≡ Some x → x.item ≡ item → i < result }
    {
        match self.latest.get(&item) {
            Some(last) => last.saturating_add(1),
            None => 0,
        }
    }

    /// One element more.
    pub(crate) fn push(
        &mut self,
        place: usize,
        returned: usize,
        item: Item,
    ) -> Result<(), OutOfMemory>
        ensures all { OnOk result ((earlier : ℕ) × (self.new.all.items ≡ self.old.all.items ++ (record { place = place; returned = returned; item = item; earlier = earlier }) ∷ [])) }
        ensures chained { OnOk result (AreChained self.old.all.items self.old.latest.entries → AreChained self.new.all.items self.new.latest.entries) }
    {
        let earlier = self.end_of(item);
        self.latest.insert(item, self.all.len())?;
        self.all.push(Element {
            place,
            returned,
            item,
            earlier,
        })?;
        Ok(())
    }
}
