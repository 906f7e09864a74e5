//! Whether a search has seen a member that dominates, told without looking at each. It may overlook one, which costs time alone.
ghost use Rattle.std.specs.Prelude.{◌≡◌, Contains, IsTrue, drop, map};
ghost use Rattle.lin_members.specs.Members.{Member as MemberOf};
ghost use Rattle.lin_members.specs.declared.members.Path.{Path as PathOf};
ghost use Rattle.lin_members.specs.Searching.{DominatesIn};

use lin_events::OutOfMemory;
use lin_frontier::{Config, Pending};
use lin_members::{Member, MemberPlaces, Offers, dominates, key};
use lin_objects::SeqObject;
use std::alloc::Global;
use std::hash::Hash;

/// Up to so many members are looked at one after the other.
const FEW: usize = 32;

/// Where the members stand that a search began with, and those that it came to.
#[derive(Drop)]
pub struct Seen {
    starts: MemberPlaces,
    visited: MemberPlaces,
}

/// What stands from the place on.
fn suffix_from<T>(items: &[T], from: usize) -> &[T]
    ensures { result.now ≡ drop from items.now }
{
    items.get(from..).unwrap_or(&[])
}

/// Whether the member dominates, as far as bits of what is on offer tell at once.
fn surely_dominates<O: SeqObject>(
    object: &O,
    pending: &Pending,
    member: &Member<O::State>,
    config: &Config<O::State>,
    offers: &Offers,
) -> bool
    ensures { IsTrue result → DominatesIn (O.observing object.now) pending.now member.now.0 config.now.0 config.now.1 offers.now }
{
    member.offers().may_hold(offers) && dominates(object, pending, member, config, offers)
}

/// Whether one of the starts dominates.
fn is_start_dominated<O: SeqObject>(
    object: &O,
    pending: &Pending,
    starts: &[&Member<O::State>],
    config: &Config<O::State>,
    offers: &Offers,
) -> bool
    ensures { IsTrue result → (m : MemberOf O.State × PathOf) × Contains (map (λ m. m.now) starts.now) m × DominatesIn (O.observing object.now) pending.now m.0 config.now.0 config.now.1 offers.now }
{
    for start in starts {
        if surely_dominates(object, pending, start, config, offers) {
            return true;
        }
    }
    false
}

/// Whether one of the members dominates.
fn is_visited_dominated<O: SeqObject>(
    object: &O,
    pending: &Pending,
    members: &[Member<O::State>],
    config: &Config<O::State>,
    offers: &Offers,
) -> bool
    ensures { IsTrue result → (m : MemberOf O.State × PathOf) × Contains members.now m × DominatesIn (O.observing object.now) pending.now m.0 config.now.0 config.now.1 offers.now }
{
    for member in members {
        if surely_dominates(object, pending, member, config, offers) {
            return true;
        }
    }
    false
}

/// Whether there is a start at the place, which dominates.
fn start_dominates<O: SeqObject>(
    object: &O,
    pending: &Pending,
    starts: &[&Member<O::State>],
    at: usize,
    config: &Config<O::State>,
    offers: &Offers,
) -> bool
    ensures { IsTrue result → (m : MemberOf O.State × PathOf) × Contains (map (λ m. m.now) starts.now) m × DominatesIn (O.observing object.now) pending.now m.0 config.now.0 config.now.1 offers.now }
{
    match starts.get(at) {
        Some(member) => surely_dominates(object, pending, member, config, offers),
        None => false,
    }
}

/// Whether one of the starts at the places dominates.
fn one_start_dominates<O: SeqObject>(
    object: &O,
    pending: &Pending,
    starts: &[&Member<O::State>],
    places: &[usize],
    config: &Config<O::State>,
    offers: &Offers,
) -> bool
    ensures { IsTrue result → (m : MemberOf O.State × PathOf) × Contains (map (λ m. m.now) starts.now) m × DominatesIn (O.observing object.now) pending.now m.0 config.now.0 config.now.1 offers.now }
{
    for at in places {
        if start_dominates(object, pending, starts, *at, config, offers) {
            return true;
        }
    }
    false
}

/// Whether there is a member at the place, which dominates.
fn member_dominates<O: SeqObject>(
    object: &O,
    pending: &Pending,
    members: &[Member<O::State>],
    at: usize,
    config: &Config<O::State>,
    offers: &Offers,
) -> bool
    ensures { IsTrue result → (m : MemberOf O.State × PathOf) × Contains members.now m × DominatesIn (O.observing object.now) pending.now m.0 config.now.0 config.now.1 offers.now }
{
    match members.get(at) {
        Some(member) => surely_dominates(object, pending, member, config, offers),
        None => false,
    }
}

/// Whether one of the members at the places dominates.
fn one_dominates<O: SeqObject>(
    object: &O,
    pending: &Pending,
    members: &[Member<O::State>],
    places: &[usize],
    config: &Config<O::State>,
    offers: &Offers,
) -> bool
    ensures { IsTrue result → (m : MemberOf O.State × PathOf) × Contains members.now m × DominatesIn (O.observing object.now) pending.now m.0 config.now.0 config.now.1 offers.now }
{
    for at in places {
        if member_dominates(object, pending, members, *at, config, offers) {
            return true;
        }
    }
    false
}

/// Whether one of those found dominates, as far as they are few.
pub fn is_found<O: SeqObject>(
    object: &O,
    pending: &Pending,
    found: &[Member<O::State>],
    config: &Config<O::State>,
    offers: &Offers,
) -> bool
    ensures { IsTrue result → (m : MemberOf O.State × PathOf) × Contains found.now m × DominatesIn (O.observing object.now) pending.now m.0 config.now.0 config.now.1 offers.now }
{
    found.len() <= FEW && is_visited_dominated(object, pending, found, config, offers)
}

impl Seen {
    /// Nothing is seen yet but the starts, which are noted where they are many.
    pub fn new<S: Eq + Hash>(
        alloc: Global,
        pending: &Pending,
        starts: &[&Member<S>],
    ) -> Result<Self, OutOfMemory> {
        let mut places = MemberPlaces::new();
        if starts.len() > FEW {
            for member in starts {
                places.note(alloc, key(pending, member.config()))?;
            }
        }
        Ok(Seen {
            starts: places,
            visited: MemberPlaces::new(),
        })
    }

    /// Notes the members that were visited since, where they are many.
    pub fn catch_up<S: Eq + Hash>(
        &mut self,
        alloc: Global,
        pending: &Pending,
        visited: &[Member<S>],
    ) -> Result<(), OutOfMemory> {
        let rest = suffix_from(visited, self.visited.len());
        if rest.len() > FEW {
            for member in rest {
                self.visited.note(alloc, key(pending, member.config()))?;
            }
        }
        Ok(())
    }

    /// Whether one of the starts dominates, as far as they are noted or few.
    pub fn has_start<O: SeqObject>(
        &self,
        object: &O,
        pending: &Pending,
        starts: &[&Member<O::State>],
        config: &Config<O::State>,
        offers: &Offers,
    ) -> bool
        ensures { IsTrue result → (m : MemberOf O.State × PathOf) × Contains (map (λ m. m.now) starts.now) m × DominatesIn (O.observing object.now) pending.now m.0 config.now.0 config.now.1 offers.now }
    {
        if self.starts.len() == 0 {
            return is_start_dominated(object, pending, starts, config, offers);
        }
        match self.starts.of(key(pending, config)) {
            Some(places) => one_start_dominates(object, pending, starts, places, config, offers),
            None => false,
        }
    }

    /// Whether one of those visited dominates, as far as they are noted or few.
    pub fn has_visited<O: SeqObject>(
        &self,
        object: &O,
        pending: &Pending,
        visited: &[Member<O::State>],
        config: &Config<O::State>,
        offers: &Offers,
    ) -> bool
        ensures { IsTrue result → (m : MemberOf O.State × PathOf) × Contains visited.now m × DominatesIn (O.observing object.now) pending.now m.0 config.now.0 config.now.1 offers.now }
    {
        let rest = suffix_from(visited, self.visited.len());
        if is_visited_dominated(object, pending, rest, config, offers) {
            return true;
        }
        if self.visited.len() == 0 {
            return false;
        }
        match self.visited.of(key(pending, config)) {
            Some(places) => one_dominates(object, pending, visited, places, config, offers),
            None => false,
        }
    }
}
