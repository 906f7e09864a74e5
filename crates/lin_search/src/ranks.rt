//! A search for the order in which the elements of a queue are put in and taken out. It promises nothing.
use crate::elements::{Element, Queue};
use crate::operations::{CallSpan, NEVER};
use lin_events::OutOfMemory;
use std::alloc::Global;

/// A place at which something of an element is told.
#[derive(Clone, Copy)]
struct Stop {
    /// The element's group, and the place.
    at: (usize, usize),
    element: usize,
}

/// Places of elements, the first of them first.
#[derive(Drop)]
struct Sweep {
    stops: Vec<Stop>,
    next: usize,
}

impl Sweep {
    fn new(alloc: Global) -> Sweep {
        Sweep {
            stops: Vec::new(alloc),
            next: 0,
        }
    }

    fn add(&mut self, group: usize, place: usize, element: usize) -> Result<(), OutOfMemory> {
        self.stops.push(Stop {
            at: (group, place),
            element,
        })?;
        Ok(())
    }

    fn sort(&mut self) {
        self.stops.sort_unstable_by_key(|stop| stop.at);
    }

    /// The next one.
    fn first(&self) -> Option<Stop> {
        self.stops.get(self.next).copied()
    }

    /// The element of the next one, if it stands before the place; the sweep goes on behind it.
    fn pass_next(&mut self, at: (usize, usize)) -> Option<usize> {
        let stop = self.first()?;
        if stop.at >= at {
            return None;
        }
        self.next = self.next.saturating_add(1);
        Some(stop.element)
    }

    /// Goes on to the next one of an element that isn't ranked.
    fn skip(&mut self, is_ranked: &[bool]) {
        for stop in &self.stops[self.next.min(self.stops.len())..] {
            if is_ranked.get(stop.element) != Some(&true) {
                return;
            }
            self.next = self.next.saturating_add(1);
        }
    }
}

/// A dequeue that found nothing, and a place: behind the event there the queue can be empty.
#[derive(Clone, Copy)]
pub struct Vacancy {
    pub dequeue: usize,
    pub place: usize,
}

/// The element has to be gone for the dequeue that found nothing, which has the number. From where on it can be, if a dequeue can have
/// taken it.
fn remove(queue: &mut Queue, element: usize, number: usize) -> Option<usize> {
    let old = queue.elements.get(element).copied()?;
    let dequeue = match old.dequeue {
        Some(dequeue) => dequeue,
        None => CallSpan {
            begin: queue.open.pop()?,
            end: NEVER,
        },
    };
    *queue.elements.get_mut(element)? = Element {
        dequeue: Some(dequeue),
        group: old.group.min(number),
        ..old
    };
    Some(dequeue.begin.max(old.enqueue.begin))
}

/// For each dequeue that found nothing the first place at which the queue can be empty: by then all is gone that was put in, or taken out,
/// before. Elements get their groups by this.
pub fn vacancies(alloc: Global, queue: &mut Queue) -> Result<Option<Vec<Vacancy>>, OutOfMemory> {
    let mut enqueues = Sweep::new(alloc);
    let mut dequeues = Sweep::new(alloc);
    for (at, element) in queue.elements.iter().enumerate() {
        enqueues.add(0, element.enqueue.end, at)?;
        dequeues.add(0, element.out_by(), at)?;
    }
    enqueues.sort();
    dequeues.sort();
    let mut vacancies = Vec::new(alloc);
    let mut place = 0;
    for number in 0..queue.vain.len() {
        let Some(vain) = queue.vain.get(number).copied() else {
            return Ok(None);
        };
        place = vain.begin.max(place);
        for _ in 0..queue.elements.len().saturating_mul(2) {
            let Some(element) = enqueues
                .pass_next((0, place))
                .or_else(|| dequeues.pass_next((0, place)))
            else {
                break;
            };
            let Some(from) = remove(queue, element, number) else {
                return Ok(None);
            };
            place = from.max(place);
        }
        if place > vain.end {
            return Ok(None);
        }
        vacancies.push(Vacancy {
            dequeue: vain.begin,
            place,
        })?;
    }
    Ok(Some(vacancies))
}

/// Elements that aren't ranked yet.
#[derive(Drop)]
struct Ranking {
    /// Where they are called in, those of them that are not in the window.
    calls: Sweep,
    /// The places before which they have to be put in.
    ins: Sweep,
    /// The places before which they have to be taken out.
    outs: Sweep,
    /// Those that can be put in next.
    window: Vec<usize>,
    is_ranked: Vec<bool>,
    /// How many of them are taken out.
    taken: usize,
}

impl Ranking {
    fn of(alloc: Global, elements: &[Element]) -> Result<Ranking, OutOfMemory> {
        let mut ranking = Ranking {
            calls: Sweep::new(alloc),
            ins: Sweep::new(alloc),
            outs: Sweep::new(alloc),
            window: Vec::new(alloc),
            is_ranked: Vec::new(alloc),
            taken: 0,
        };
        for (at, element) in elements.iter().enumerate() {
            ranking.calls.add(element.group, element.enqueue.begin, at)?;
            ranking.ins.add(element.group, element.in_by(), at)?;
            ranking.outs.add(element.group, element.out_by(), at)?;
            ranking.is_ranked.push(false)?;
            if element.dequeue.is_some() {
                ranking.taken = ranking.taken.saturating_add(1);
            }
        }
        ranking.calls.sort();
        ranking.ins.sort();
        ranking.outs.sort();
        Ok(ranking)
    }

    /// Takes those in the window that can be put in before any other one has to be in.
    fn widen(&mut self, elements: &[Element]) -> Result<(), OutOfMemory> {
        self.ins.skip(&self.is_ranked);
        self.outs.skip(&self.is_ranked);
        let Some(first) = self.ins.first() else {
            return Ok(());
        };
        let until = (first.at.0, first.at.1.saturating_add(1));
        for _ in 0..elements.len() {
            let Some(element) = self.calls.pass_next(until) else {
                break;
            };
            self.window.push(element)?;
        }
        Ok(())
    }

    /// The place in the window of that element which can be the next one to be taken out, and has to be gone first.
    fn next(&self, elements: &[Element]) -> Option<usize> {
        let limit = self.outs.first()?.at;
        let mut best: Option<(usize, usize)> = None;
        for (at, name) in self.window.iter().enumerate() {
            let element = elements.get(*name)?;
            let can_be = match element.dequeue {
                Some(dequeue) => (element.group, dequeue.begin) < limit,
                None => self.taken == 0,
            };
            if can_be && best.is_none_or(|(_, by)| element.out_by() < by) {
                best = Some((at, element.out_by()));
            }
        }
        best.map(|(at, _)| at)
    }

    /// The next element, if there is one.
    fn pick(&mut self, elements: &[Element]) -> Option<usize> {
        let at = self.next(elements)?;
        let element = self.window.get(at).copied()?;
        self.window.remove(at);
        *self.is_ranked.get_mut(element)? = true;
        if elements.get(element)?.dequeue.is_some() {
            self.taken = self.taken.saturating_sub(1);
        }
        Some(element)
    }

    /// Of the element that has to be in first, where nothing takes it out, a dequeue that never returned does.
    fn take_out(&mut self, queue: &mut Queue) -> Option<()> {
        let first = self.ins.first()?.element;
        let element = queue.elements.get_mut(first)?;
        if element.dequeue.is_some() {
            return None;
        }
        element.dequeue = Some(CallSpan {
            begin: queue.open.pop()?,
            end: NEVER,
        });
        self.taken = self.taken.saturating_add(1);
        Some(())
    }
}

/// The elements in the order in which the queue holds them, if one is found.
pub fn rank_elements(
    alloc: Global,
    queue: &mut Queue,
) -> Result<Option<Vec<Element>>, OutOfMemory> {
    let mut ranking = Ranking::of(alloc, &queue.elements)?;
    let mut ranked = Vec::new(alloc);
    for _ in 0..queue.elements.len().saturating_mul(2) {
        ranking.widen(&queue.elements)?;
        if let Some(at) = ranking.pick(&queue.elements) {
            if let Some(element) = queue.elements.get(at) {
                ranked.push(*element)?;
            }
        } else if ranked.len() == queue.elements.len() || ranking.take_out(queue).is_none() {
            break;
        }
    }
    Ok((ranked.len() == queue.elements.len()).then_some(ranked))
}
