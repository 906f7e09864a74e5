//! The kinds of objects, and which kind each key's object has.
ghost use Rattle.std.specs.Prelude.{if◌then◌else◌, ◌≡◌, ◌↔◌, ◌||◌, ◌+◌, ◌≤◌, ℕ, false, length, is_some, Some, Err, IsTrue, OnOk, OnErr};
ghost use Rattle.std.specs.BTreeMap.{insert_entry};
ghost use Rattle.std.specs.Map.{lookup};
ghost use Rattle.lin_events.specs.declared.items.Item.{Item as ItemOf};
ghost use Rattle.lin_events.specs.Items.{item_cmp, item_eq};
ghost use Rattle.lin_objects.specs.Kinds.{kind_of, is_named, named_count, same_for_all, with_kind};

use lin_events::{Item, OutOfMemory};
use std::alloc::Global;
use std::collections::BTreeMap;
use std::marker::Model;

/// What an object is.
#[derive(Clone, Copy, Debug, PartialEq, Eq)]
pub enum Kind {
    /// A value that is read and written.
    Register,
    /// A register with compare-and-set.
    CasRegister,
    /// A queue: first in, first out.
    Fifo,
    /// A set of items that only grows.
    Set,
    /// A lock.
    Mutex,
    /// A queue that promises no order: a dequeue takes out any item that is inside.
    Bag,
}

/// How many keys may be named.
const LIMIT: usize = 65536;

/// Why a key could not be given a kind.
#[derive(Clone, Copy, Debug, PartialEq, Eq)]
pub enum KindsFault {
    /// 65,536 other keys are named already.
    Full,
    /// Memory was refused.
    OutOfMemory,
}

/// Which kind each key's object has: a default, and a kind for each of at most 65,536 named keys.
#[derive(Drop)]
pub struct Kinds {
    default: Kind,
    named: BTreeMap<Item, Kind>,
}

impl Model for Kinds {
    ghost use Rattle.std.specs.Prelude.{List, ◌≤◌, length};
    ghost use Rattle.lin_events.specs.declared.items.Item.{Item as ItemOf};
    ghost use Rattle.lin_objects.specs.declared.kinds.Kind.{Kind as KindOf};

    ghost Value = { KindOf × List (ItemOf × KindOf) };

    ghost view = { λ k. (k.default, k.named.entries) };

    ghost invariant = { λ k. length k.named.entries ≤ 65536 };
}

impl Kinds {
    /// The default kind for every key; none is named.
    pub fn new(alloc: Global, default: Kind) -> Self
        ensures { result ≡ same_for_all default }
    {
        Kinds {
            default,
            named: BTreeMap::new(alloc),
        }
    }

    /// The kind of the key's object, in time logarithmic in the number of named keys.
    pub fn of(&self, key: Item) -> Kind
        ensures { result ≡ kind_of self.now key }
    {
        entry_at(&self.named, key).unwrap_or(self.default)
    }

    /// Gives the key's object a kind, in time logarithmic in the number of named keys.
    ///
    /// A key that is named already takes no further place, so naming it again is never `Full`. On an error nothing
    /// has changed.
    pub fn set(&mut self, key: Item, kind: Kind) -> Result<(), KindsFault>
        ensures ok { OnOk result (self.new ≡ with_kind key kind self.old) }
        ensures kinds { OnOk result ((x : ItemOf) → kind_of self.new x ≡ (if item_eq key x then kind else kind_of self.old x)) }
        ensures names { OnOk result ((x : ItemOf) → is_named self.new x ≡ (item_eq key x || is_named self.old x)) }
        ensures count { OnOk result (named_count self.new ≡ named_count self.old + (if is_named self.old key then 0 else 1)) }
        ensures full { (result ≡ Err KindsFault.Full) ↔ ((named_count self.old ≡ 65536) × (is_named self.old key ≡ false)) }
        ensures err { OnErr result (self.new ≡ self.old) }
        ensures limit { named_count self.new ≤ 65536 }
    {
        if self.has_no_place_for(key) {
            return Err(KindsFault::Full);
        }
        match put_entry(&mut self.named, key, kind) {
            Ok(()) => Ok(()),
            Err(OutOfMemory) => Err(KindsFault::OutOfMemory),
        }
    }

    /// Whether all places are taken, none by the key.
    fn has_no_place_for(&self, key: Item) -> bool
        ensures full { IsTrue result ↔ ((named_count self.now ≡ 65536) × (is_named self.now key ≡ false)) }
        ensures limit { named_count self.now ≤ 65536 }
    {
        self.named.len() == LIMIT && entry_at(&self.named, key).is_none()
    }
}

/// What the map has at the key.
fn entry_at(named: &BTreeMap<Item, Kind>, key: Item) -> Option<Kind>
    ensures { result ≡ lookup (item_eq key) named.now.entries }
{
    named.get(&key).copied()
}

/// Puts a kind at the key.
fn put_entry(named: &mut BTreeMap<Item, Kind>, key: Item, kind: Kind) -> Result<(), OutOfMemory>
    ensures put { OnOk result (named.new.entries ≡ insert_entry item_cmp named.old.entries key kind) }
    ensures entries { OnOk result ((x : ItemOf) → lookup (item_eq x) named.new.entries ≡ (if item_eq key x then Some kind else lookup (item_eq x) named.old.entries)) }
    ensures count { OnOk result (length named.new.entries ≡ length named.old.entries + (if is_some (lookup (item_eq key) named.old.entries) then 0 else 1)) }
    ensures err { OnErr result (named.new.entries ≡ named.old.entries) }
{
    named.insert(key, kind)?;
    Ok(())
}
