//! Shared lists that nobody has any more, to be written anew.
use std::alloc::Global;
use std::marker::Model;
use std::rc::Rc;

/// So many lists are kept at most.
const MOST: usize = 64;

/// Lists whose owners are gone. What they hold means nothing.
#[derive(Drop)]
pub struct Spare<T> {
    lists: Vec<Rc<T>>,
}

impl<T> Model for Spare<T> {
    ghost Value = { Unit {0} };

    ghost view = { λ _. tt };
}

impl<T: Drop> Spare<T> {
    /// No list.
    pub fn new(alloc: Global) -> Self {
        Spare {
            lists: Vec::new(alloc),
        }
    }

    /// One of the lists.
    #[inline(always)]
    pub fn take(&mut self) -> Option<Rc<T>> {
        self.lists.pop()
    }

    /// Keeps the list, unless it has another owner.
    #[inline(always)]
    pub fn put(&mut self, list: Rc<T>) {
        if self.lists.len() < MOST && Rc::strong_count(&list) == 1 {
            // Where memory is refused, the list goes.
            let _ = self.lists.push(list);
        }
    }
}
