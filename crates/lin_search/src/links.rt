//! Doubly linked lists of numbers.
use crate::numbers::list_of;
use lin_events::OutOfMemory;
use std::alloc::Global;

/// A list in which each number below a count stands at most once. What was taken out is put back where it was, the last one first.
#[derive(Drop)]
pub struct Links {
    next: Vec<usize>,
    before: Vec<usize>,
    /// The count: it stands ahead of the first one, and behind the last.
    pub end: usize,
}

impl Links {
    /// That of the numbers, in this order.
    pub fn of(alloc: Global, count: usize, order: &[usize]) -> Result<Links, OutOfMemory> {
        let mut links = Links {
            next: list_of(alloc, count.saturating_add(1), count)?,
            before: list_of(alloc, count.saturating_add(1), count)?,
            end: count,
        };
        let mut last = count;
        for number in order {
            links.join(last, *number);
            last = *number;
        }
        links.join(last, count);
        Ok(links)
    }

    fn join(&mut self, one: usize, other: usize) {
        if let Some(next) = self.next.get_mut(one) {
            *next = other;
        }
        if let Some(before) = self.before.get_mut(other) {
            *before = one;
        }
    }

    /// The one behind it.
    pub fn next_of(&self, number: usize) -> usize {
        self.next.get(number).copied().unwrap_or(self.end)
    }

    fn previous_of(&self, number: usize) -> usize {
        self.before.get(number).copied().unwrap_or(self.end)
    }

    pub fn first(&self) -> usize {
        self.next_of(self.end)
    }

    pub fn take_out(&mut self, number: usize) {
        self.join(self.previous_of(number), self.next_of(number));
    }

    pub fn put_back(&mut self, number: usize) {
        let next = self.next_of(number);
        self.join(self.previous_of(number), number);
        self.join(number, next);
    }
}
