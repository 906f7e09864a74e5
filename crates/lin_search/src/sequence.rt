//! The order of a queue's operations, made of the order in which items were put in and taken out.
use crate::numbers::{Numbers, list_of};
use crate::operations::CallSpan;
use lin_events::{OutOfMemory, Reply, Val};
use lin_order::Placed;
use std::alloc::Global;

/// An operation of a queue, and the number of its item as a value.
#[derive(Clone, Copy)]
pub struct Passing {
    pub span: CallSpan,
    pub item: usize,
}

/// The enqueue of an item and its dequeue, if one took it, or a dequeue that found nothing twice.
#[derive(Clone, Copy)]
pub struct Pair {
    pub into: usize,
    pub out: usize,
}

/// What returns at an event, of the pair with the number.
#[derive(Clone, Copy)]
enum Moment {
    In(usize),
    Out(usize),
    Nothing,
}

/// An order that is being made: each operation stands where it returns, or where one behind it does.
#[derive(Drop)]
struct Making<'a> {
    passings: &'a [Passing],
    pairs: &'a [Pair],
    order: Vec<Placed>,
    /// How many pairs were put in.
    put: usize,
    /// How many of these were taken out.
    taken: usize,
}

impl<'a> Making<'a> {
    /// The operation is placed.
    fn place(&mut self, number: usize, reply: Reply) -> Result<(), OutOfMemory> {
        if let Some(passing) = self.passings.get(number) {
            self.order.push(Placed {
                at: passing.span.begin,
                reply,
            })?;
        }
        Ok(())
    }

    /// The first pairs, so many of them, which are in, are out.
    fn take_out(&mut self, numbers: &Numbers, count: usize) -> Result<(), OutOfMemory> {
        for rank in self.taken..count {
            if let Some(pair) = self.pairs.get(rank)
                && let Some(passing) = self.passings.get(pair.into)
            {
                let value = if passing.item == 0 {
                    Val::Nil
                } else {
                    numbers.value(passing.item.saturating_sub(1))
                };
                self.place(pair.out, Reply::Value(value))?;
            }
        }
        self.taken = count.max(self.taken);
        Ok(())
    }

    /// The first pairs, so many of them, are in; the dequeues of them that found nothing are out.
    fn put_in(&mut self, numbers: &Numbers, count: usize) -> Result<(), OutOfMemory> {
        for rank in self.put..count {
            if let Some(pair) = self.pairs.get(rank).copied() {
                if pair.into == pair.out {
                    self.take_out(numbers, rank.saturating_add(1))?;
                } else {
                    self.place(pair.into, Reply::Done)?;
                }
            }
        }
        self.put = count.max(self.put);
        Ok(())
    }

    /// What returns there stands in the order.
    fn reach(&mut self, numbers: &Numbers, moment: Moment) -> Result<(), OutOfMemory> {
        match moment {
            Moment::In(rank) => self.put_in(numbers, rank.saturating_add(1)),
            Moment::Out(rank) => {
                self.put_in(numbers, rank.saturating_add(1))?;
                self.take_out(numbers, rank.saturating_add(1))
            }
            Moment::Nothing => Ok(()),
        }
    }
}

/// Notes what returns with the operation.
fn note(moments: &mut [Moment], passings: &[Passing], number: usize, moment: Moment) {
    if let Some(passing) = passings.get(number)
        && let Some(place) = moments.get_mut(passing.span.end)
    {
        *place = moment;
    }
}

/// What returns at each of so many events.
fn moments_of(
    alloc: Global,
    passings: &[Passing],
    pairs: &[Pair],
    count: usize,
) -> Result<Vec<Moment>, OutOfMemory> {
    let mut moments = list_of(alloc, count, Moment::Nothing)?;
    for (rank, pair) in pairs.iter().enumerate() {
        note(&mut moments, passings, pair.into, Moment::In(rank));
        note(&mut moments, passings, pair.out, Moment::Out(rank));
    }
    Ok(moments)
}

/// The order of the operations that have these pairs.
pub fn sequence_of(
    alloc: Global,
    passings: &[Passing],
    numbers: &Numbers,
    pairs: &[Pair],
    count: usize,
) -> Result<Vec<Placed>, OutOfMemory> {
    let moments = moments_of(alloc, passings, pairs, count)?;
    let mut making = Making {
        passings,
        pairs,
        order: Vec::new(alloc),
        put: 0,
        taken: 0,
    };
    for moment in &moments {
        making.reach(numbers, *moment)?;
    }
    Ok(making.order)
}
