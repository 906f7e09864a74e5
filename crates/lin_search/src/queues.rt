//! A search for a legal order of a queue's operations, of items that are put in once each: the order of the elements is looked for
//! first, and then each operation stands where it returns at the latest. Whatever it finds is checked; that it finds one isn't promised.
use crate::elements::{Element, Queue};
use crate::ranks::{Vacancy, rank_elements, vacancies};
use lin_events::{Event, OutOfMemory, Reply, Val};
use lin_order::Placed;
use std::alloc::Global;

/// What completes at a place, of the element with the rank.
#[derive(Clone, Copy)]
enum Moment {
    Enqueued(usize),
    Dequeued(usize),
}

/// An order that is being made.
#[derive(Drop)]
struct Making<'a> {
    /// In the order in which the queue holds them.
    elements: &'a [Element],
    order: Vec<Placed>,
    /// How many elements were put in.
    put: usize,
    /// How many of these were taken out.
    taken: usize,
}

impl<'a> Making<'a> {
    /// The first elements, so many of them, are in.
    fn put_in(&mut self, count: usize) -> Result<(), OutOfMemory> {
        for rank in self.put..count {
            if let Some(element) = self.elements.get(rank) {
                self.order.push(Placed {
                    at: element.enqueue.begin,
                    reply: Reply::Done,
                })?;
            }
        }
        self.put = count.max(self.put);
        Ok(())
    }

    /// The first elements, so many of them, are out.
    fn take_out(&mut self, count: usize) -> Result<(), OutOfMemory> {
        self.put_in(count)?;
        for rank in self.taken..count {
            if let Some(element) = self.elements.get(rank) {
                self.order.push(Placed {
                    at: element.out_from(),
                    reply: Reply::Value(Val::Item(element.item)),
                })?;
            }
        }
        self.taken = count.max(self.taken);
        Ok(())
    }

    /// The operation of the moment stands in the order.
    fn reach(&mut self, moment: Moment) -> Result<(), OutOfMemory> {
        match moment {
            Moment::Enqueued(rank) => self.put_in(rank.saturating_add(1)),
            Moment::Dequeued(rank) => self.take_out(rank.saturating_add(1)),
        }
    }

    /// The queue is empty, and the dequeue finds nothing.
    fn find_empty(&mut self, dequeue: usize) -> Result<(), OutOfMemory> {
        self.order.push(Placed {
            at: dequeue,
            reply: Reply::Value(Val::Nil),
        })?;
        Ok(())
    }
}

/// Notes the moment at the place.
fn note(moments: &mut [Option<Moment>], at: usize, moment: Moment) {
    if let Some(place) = moments.get_mut(at) {
        *place = Some(moment);
    }
}

/// What completes at each of so many places.
fn moments(
    alloc: Global,
    elements: &[Element],
    count: usize,
) -> Result<Vec<Option<Moment>>, OutOfMemory> {
    let mut moments = Vec::with_capacity(alloc, count)?;
    for _ in 0..count {
        moments.push(None)?;
    }
    for (rank, element) in elements.iter().enumerate() {
        note(&mut moments, element.enqueue.end, Moment::Enqueued(rank));
        note(&mut moments, element.out_by(), Moment::Dequeued(rank));
    }
    Ok(moments)
}

/// The order that puts each operation where it returns at the latest, and the dequeues that found nothing where the queue can be empty.
fn made(
    alloc: Global,
    elements: &[Element],
    vacancies: &[Vacancy],
    count: usize,
) -> Result<Vec<Placed>, OutOfMemory> {
    let moments = moments(alloc, elements, count)?;
    let mut making = Making {
        elements,
        order: Vec::new(alloc),
        put: 0,
        taken: 0,
    };
    let mut empty = 0;
    let mut gone = 0;
    for (at, moment) in moments.iter().enumerate() {
        if let Some(moment) = moment {
            making.reach(*moment)?;
        }
        for vacancy in &vacancies[empty.min(vacancies.len())..] {
            if vacancy.place != at {
                break;
            }
            for element in &elements[gone.min(elements.len())..] {
                if element.group > empty {
                    break;
                }
                gone = gone.saturating_add(1);
            }
            making.take_out(gone)?;
            making.find_empty(vacancy.dequeue)?;
            empty = empty.saturating_add(1);
        }
    }
    Ok(making.order)
}

/// A legal order of the events of a queue, if one is found.
pub fn queue_order(alloc: Global, events: &[Event]) -> Result<Option<Vec<Placed>>, OutOfMemory> {
    let Some(mut queue) = Queue::of(alloc, events)? else {
        return Ok(None);
    };
    let Some(vacancies) = vacancies(alloc, &mut queue)? else {
        return Ok(None);
    };
    let Some(elements) = rank_elements(alloc, &mut queue)? else {
        return Ok(None);
    };
    Ok(Some(made(alloc, &elements, &vacancies, events.len())?))
}
