//! Members in the order in which they were found, each configuration once, with what tells at once which are known.
ghost use Rattle.std.specs.Prelude.{◌≡◌, ◌<◌, ◌≤◌, ◌∷◌, ◌++◌, [], Bool, Some, Contains, IsTrue, IsFalse, IfSome, IfNone, OnOk, length, map, slice_get};
ghost use Rattle.lin_events.specs.declared.calls.Call.{Call as CallOf};
ghost use Rattle.lin_members.specs.declared.members.Path.{Path as PathOf};
ghost use Rattle.lin_members.specs.Listed.{config_of, IsHeld};
ghost use Rattle.lin_members.specs.Members.{Member as MemberOf};

use indexmap::IndexMap;
use lin_events::OutOfMemory;
use lin_frontier::{Config, Pending, copy_config};
use lin_members::{Member, MemberPlaces, covers};
use lin_objects::SeqObject;
use std::alloc::Global;
use std::hash::{FoldHasher, Hash, Hasher};
use std::marker::Model;

/// A number that is the same for configurations of which one covers the other, and seldom for others: a hash of the state, and of what
/// is placed with its replies, but for crashed operations.
fn place_key<S: Eq + Hash>(pending: &Pending, config: &Config<S>) -> u64 {
    let mut hasher = FoldHasher::default();
    config.state().hash(&mut hasher);
    for pair in config.placed() {
        if !pending.is_crashed(pair.0) {
            pair.hash(&mut hasher);
        }
    }
    hasher.finish()
}

/// Members of different configurations, in the order in which they were found.
#[derive(Drop)]
pub struct Gathered<O: SeqObject> {
    members: Vec<Member<O::State>>,
    /// Their configurations.
    configs: IndexMap<Config<O::State>, ()>,
    /// Where they stand, by their keys.
    places: MemberPlaces,
}

impl<O: SeqObject> Model for Gathered<O> {
    ghost use Rattle.std.specs.Prelude.{◌≡◌, List, map};
    ghost use Rattle.std.specs.Map.{keys_of};
    ghost use Rattle.lin_members.specs.declared.members.Path.{Path as PathOf};
    ghost use Rattle.lin_members.specs.Listed.{config_of};
    ghost use Rattle.lin_members.specs.Members.{Member as MemberOf};

    ghost Value = { List (MemberOf O.State × PathOf) };

    ghost view = { λ g. g.members.items };

    ghost invariant = { λ g. keys_of g.configs.entries ≡ map config_of g.members.items };
}

impl<O: SeqObject> Gathered<O> {
    /// No member.
    pub fn new(alloc: Global) -> Self
        ensures { result ≡ [] }
    {
        Gathered {
            members: Vec::new(alloc),
            configs: IndexMap::new(alloc),
            places: MemberPlaces::new(),
        }
    }

    /// How many members there are.
    pub fn len(&self) -> usize
        ensures { result ≡ length self.now }
    {
        self.members.len()
    }

    /// The member at the place.
    pub fn get(&self, at: usize) -> Option<&Member<O::State>>
        ensures found { IfSome result (λ m. slice_get self.now at ≡ Some m.now) }
        ensures inside { IfSome result (λ m. at < length self.now) }
        ensures past { IfNone result (length self.now ≤ at) }
    {
        self.members.get(at)
    }

    pub fn as_slice(&self) -> &[Member<O::State>]
        ensures { result.now ≡ self.now }
    {
        self.members.as_slice()
    }

    /// The members alone.
    pub fn into_members(self) -> Vec<Member<O::State>>
        ensures { result.items ≡ self }
    {
        self.members
    }

    /// Whether a member has the configuration.
    fn is_known(&self, config: &Config<O::State>) -> bool
        ensures known { IsTrue result → Contains (map config_of self.now) config.now }
        ensures new { IsFalse result → Contains (map config_of self.now) config.now → ⊥ }
    {
        self.configs.contains_key(config)
    }

    /// Whether the member at the place covers the configuration.
    fn covers_at(&self, pending: &Pending, at: usize, config: &Config<O::State>) -> bool
        ensures { IsTrue result → (observes : CallOf → Bool) → IsHeld observes pending.now self.now config.now }
    {
        match self.members.get(at) {
            Some(member) => covers::<O>(pending, member.config(), config),
            None => false,
        }
    }

    /// Whether one of the members at the places covers the configuration.
    fn one_covers(&self, pending: &Pending, places: &[usize], config: &Config<O::State>) -> bool
        ensures { IsTrue result → (observes : CallOf → Bool) → IsHeld observes pending.now self.now config.now }
    {
        for at in places {
            if self.covers_at(pending, *at, config) {
                return true;
            }
        }
        false
    }

    /// Whether a member with the configuration's key covers it.
    fn is_covered(&self, pending: &Pending, config: &Config<O::State>) -> bool
        ensures { IsTrue result → (observes : CallOf → Bool) → IsHeld observes pending.now self.now config.now }
    {
        match self.places.of(place_key(pending, config)) {
            Some(places) => self.one_covers(pending, places, config),
            None => false,
        }
    }

    /// Whether one of the members holds the configuration: has it, or covers it.
    pub fn holds(&self, pending: &Pending, config: &Config<O::State>) -> bool
        ensures held { IsTrue result → (observes : CallOf → Bool) → IsHeld observes pending.now self.now config.now }
        ensures new { IsFalse result → Contains (map config_of self.now) config.now → ⊥ }
    {
        self.is_known(config) || self.is_covered(pending, config)
    }

    /// The member put last, and its configuration, which is known from then on.
    fn put(&mut self, member: Member<O::State>, config: Config<O::State>) -> Result<(), OutOfMemory>
        requires of { config ≡ config_of member }
        requires new { Contains (map config_of self.old) (config_of member) → ⊥ }
        ensures { OnOk result (self.new ≡ self.old ++ member ∷ []) }
    {
        match self.members.push(member) {
            Ok(()) => {}
            Err(_) => return Err(OutOfMemory),
        }
        match self.configs.insert(config, ()) {
            Ok(_) => {}
            Err(_) => {
                self.members.pop();
                return Err(OutOfMemory);
            }
        }
        Ok(())
    }

    /// One more member, put last.
    pub fn push(
        &mut self,
        object: &O,
        alloc: Global,
        pending: &Pending,
        member: Member<O::State>,
    ) -> Result<(), OutOfMemory>
        requires { Contains (map config_of self.old) (config_of member) → ⊥ }
        ensures { OnOk result (self.new ≡ self.old ++ member ∷ []) }
    {
        let config = copy_config(object, alloc, member.config())?;
        let place = place_key(pending, member.config());
        self.put(member, config)?;
        self.places.note(alloc, place)
    }
}
