//! What is asked about: a history as it stands.
ghost use Rattle.std.specs.Prelude.{◌≡◌, ◌↔◌, ◌≤◌, Contains, Some, IfOk, IfSome, IfNone, length, slice_get, map, IsPermutation};
ghost use Rattle.lin_events.specs.declared.items.Item.{Item as ItemOf};
ghost use Rattle.lin_names.specs.Spelled.{printed, spelled};
ghost use Rattle.lin_objects.specs.Kinds.{kind_of};
ghost use Rattle.lin_answers.specs.Keys.{AreKeys, Occurs};

use indexmap::IndexSet;
use lin_events::{Event, Item, OutOfMemory};
use lin_names::{Names, is_in_print, sort_printed};
use lin_objects::{Kind, Kinds};
use std::alloc::Global;
use std::marker::Model;

/// A history as it stands, the kinds of its objects, and how many configurations may be kept for one object.
#[derive(Drop)]
pub struct Present<'a> {
    history: &'a [Event],
    kinds: &'a Kinds,
    budget: u32,
}

impl<'a> Model for Present<'a> {
    ghost use Rattle.lin_answers.specs.Edits.{Present as PresentOf};

    ghost Value = { PresentOf };

    ghost view = { λ p. record { history = p.history.now; kinds = p.kinds.now; budget = p.budget } };
}

impl<'a> Present<'a> {
    /// These events, of objects of these kinds.
    pub fn of(history: &'a [Event], kinds: &'a Kinds, budget: u32) -> Self
        ensures { result ≡ record { history = history.entry.now; kinds = kinds.entry.now; budget = budget } }
    {
        Present {
            history,
            kinds,
            budget,
        }
    }

    /// How many events the history has.
    pub fn len(&self) -> usize
        ensures { result ≡ length self.now.history }
    {
        self.history.len()
    }

    /// The event at the position, if there is one.
    pub fn event(&self, at: usize) -> Option<&'a Event>
        ensures found { IfSome result (λ event. slice_get self.now.history at ≡ Some event.now) }
        ensures past { IfNone result (length self.now.history ≤ at) }
    {
        self.history.get(at)
    }

    /// The kind of the key's object.
    pub fn kind_of(&self, key: Item) -> Kind
        ensures { result ≡ kind_of self.now.kinds key }
    {
        self.kinds.of(key)
    }

    /// How many configurations may be kept for one object.
    pub fn budget(&self) -> u32
        ensures { result ≡ self.now.budget }
    {
        self.budget
    }

    /// The keys of the history, each once, in the order in which they are printed. Looks at each event, and takes memory for the keys
    /// alone, which it sorts.
    pub fn objects(&self, alloc: Global, names: &Names) -> Result<Vec<Item>, OutOfMemory>
        ensures { IfOk result (λ keys. AreKeys names.now self.now.history keys.items) }
    {
        let mut keys = keys_of(alloc, self.history)?;
        keys.sort_unstable();
        // `keys_of` doesn't promise that each is there once.
        keys.dedup();
        put_in_print(names, &mut keys);
        Ok(keys)
    }
}

/// The keys of the events. Where the key that was listed last comes again, no hash is needed.
fn keys_of(alloc: Global, events: &[Event]) -> Result<Vec<Item>, OutOfMemory>
    ensures { IfOk result (λ keys. (key : ItemOf) → Contains keys.items key ↔ Occurs events.now key) }
{
    let mut keys = IndexSet::new(alloc);
    for event in events {
        match keys.last() {
            Some(last) if *last == event.key => {}
            _ => {
                keys.insert(event.key)?;
            }
        }
    }
    Ok(Vec::from_slice(alloc, keys.as_slice())?)
}

/// Puts keys in the order in which they are printed, where they don't stand so already.
fn put_in_print(names: &Names, keys: &mut Vec<Item>)
    ensures same { IsPermutation keys.old.items keys.new.items }
    ensures printed { map (spelled names.now) keys.new.items ≡ printed names.now keys.new.items }
{
    if !is_in_print(names, keys.as_slice()) {
        sort_printed(names, keys);
    }
}
