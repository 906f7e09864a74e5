//! Want of memory, and lists and sets of items as states and replies hold them.
ghost use Rattle.std.specs.Prelude.{◌≡◌, ◌∷◌, ◌+◌, ◌*◌, ◌^◌, ◌%◌, [], List, IfOk, IfSome, IfNone, OnOk, OnErr, IsTrue, ◌↔◌, ◌<◌, ◌≤◌, ◌-◌, true, length, drop, slice_index_or};
ghost use Rattle.std.specs.List.{insert};
ghost use Rattle.std.specs.Cmp.Lexicographic.{pointwise, lists_equiv, lists_per};
ghost use Rattle.std.specs.Cmp.{partial_equiv_from_equiv};
ghost use Rattle.std.specs.declared.cmp.Ordering.TheVariants.{Less};
ghost use Rattle.std.specs.Hash as fed;
ghost use Rattle.std.specs.Hash.{same_Alike};
ghost use Rattle.lin_lists.specs.Sets.{IsRising, with_member, members_of, StaysRising, HasMember, AreSameSets};
ghost use Rattle.lin_events.specs.declared.items.Item.{Item as ItemOf};
ghost use Rattle.lin_events.specs.Items.{code_of, digest_of as digest, factor, hashed, item_cmp, item_eq, listed};
ghost use Rattle.lin_events.specs.Sameness.{items_Decides, item_eq_equiv};

use crate::items::Item;
use std::alloc::{AllocError, AllocFailed, Global};
use std::hash::{Hash, Hasher};
use std::marker::Model;
use std::rc::Rc;

/// Memory that was asked for was refused.
#[derive(Clone, Copy, Debug, PartialEq, Eq)]
pub struct OutOfMemory;

impl From<AllocError> for OutOfMemory {
    fn from(_error: AllocError) -> OutOfMemory {
        OutOfMemory
    }
}

impl<T: Drop> From<AllocFailed<T>> for OutOfMemory {
    fn from(_error: AllocFailed<T>) -> OutOfMemory {
        OutOfMemory
    }
}

// What an item weighs in a digest beside the one ahead of it, and by what that is taken off again.
const FACTOR: u64 = 0x9E37_79B9_7F4A_7C15;

const INVERSE: u64 = 0xF1DE_83E1_9937_733D;

/// A list of items. Copies share it, as does one without the first items; one that is changed gets a list of its own.
#[derive(Drop)]
pub struct Items {
    /// None only where the list is empty, which takes no memory.
    list: Option<Rc<Vec<Item>>>,
    /// How many items of the list stand ahead of these, and aren't of them.
    dropped: usize,
    /// What is hashed, and compared first, in place of the items.
    digest: u64,
    alloc: Global,
}

impl Model for Items {
    ghost use Rattle.std.specs.Prelude.{◌≡◌, ◌≤◌, List, drop, length};
    ghost use Rattle.lin_events.specs.declared.items.Item.{Item as ItemOf};
    ghost use Rattle.lin_events.specs.Items.{digest_of, listed};

    ghost Value = { List ItemOf };

    ghost view = { λ a. drop a.dropped (listed a.list) };

    ghost invariant = { λ a. (a.dropped ≤ length (listed a.list)) × (a.digest ≡ digest_of (drop a.dropped (listed a.list))) };
}

impl PartialEq for Items {
    ghost eq = { λ v w. pointwise item_eq v w };

    ghost laws = { lists_per (partial_equiv_from_equiv item_eq_equiv) };

    fn eq(&self, other: &Self) -> bool {
        self.digest == other.digest && self.as_slice() == other.as_slice()
    }
}

impl Eq for Items {
    ghost laws = { lists_equiv item_eq_equiv };
}

impl Hash for Items {
    ghost hash_input = { hashed };

    ghost respects_eq = { (same_Alike hashed items_Decides).fed };

    fn hash<H: Hasher>(&self, state: &mut H) {
        self.digest.hash(state);
    }
}

/// The digest of items with one more behind so many.
fn digest_behind(before: u64, count: u32, item: Item) -> u64
    ensures { result ≡ (before + code_of item * factor ^ count) % 18446744073709551616 }
{
    let weight = FACTOR.wrapping_pow(count);
    before.wrapping_add(item.code().wrapping_mul(weight))
}

/// The digest of all but the first of the items that have this digest.
fn digest_after(whole: u64, items: &[Item]) -> u64
    requires { (0 < length items.now) × (whole ≡ digest items.now) }
    ensures { result ≡ digest (drop 1 items.now) }
{
    whole.wrapping_sub(items[0].code()).wrapping_mul(INVERSE)
}

/// The digest of the items.
fn digest_of(items: &[Item]) -> u64
    ensures { result ≡ digest items.now }
{
    let mut digest: u64 = 0;
    let mut weight: u64 = 1;
    for item in items {
        digest = digest.wrapping_add(item.code().wrapping_mul(weight));
        weight = weight.wrapping_mul(FACTOR);
    }
    digest
}

/// The digest of the items, one of which was put in at a place among those that had the digest before.
fn digest_with(before: u64, items: &[Item], at: usize, item: Item) -> u64
    requires { (old : List ItemOf) × (before ≡ digest old) × (at ≤ length old) × (items.now ≡ insert old at item) }
    ensures { result ≡ digest items.now }
{
    match u32::try_from(at) {
        Ok(count) if at + 1 == items.len() => digest_behind(before, count, item),
        _ => digest_of(items),
    }
}

impl Items {
    /// No items.
    pub fn new(alloc: Global) -> Self
        ensures { result ≡ [] }
    {
        Items {
            list: None,
            dropped: 0,
            digest: 0,
            alloc,
        }
    }

    /// The items of the list.
    pub fn from_vec(alloc: Global, items: Vec<Item>) -> Result<Self, OutOfMemory>
        ensures { IfOk result (λ list. list ≡ items.items) }
    {
        let digest = digest_of(items.as_slice());
        let list = Rc::new(alloc, items)?;
        Ok(Items {
            list: Some(list),
            dropped: 0,
            digest,
            alloc,
        })
    }

    pub fn as_slice(&self) -> &[Item]
        ensures { result.now ≡ self.now }
    {
        match &self.list {
            Some(list) => &list.as_slice()[self.dropped..],
            None => &[],
        }
    }

    /// The same items.
    pub fn copy(&self) -> Result<Items, OutOfMemory>
        ensures { IfOk result (λ copy. copy ≡ self.now) }
    {
        let list = share(&self.list)?;
        Ok(Items {
            list,
            dropped: self.dropped,
            digest: self.digest,
            alloc: self.alloc,
        })
    }

    /// Puts an item in at a place; refused, the items stay. In time linear in them, but for the last place of a list that no copy shares.
    pub fn insert(&mut self, at: usize, item: Item) -> Result<(), OutOfMemory>
        requires { at ≤ length self.old }
        ensures ok { OnOk result (self.new ≡ insert self.old at item) }
        ensures err { OnErr result (self.new ≡ self.old) }
    {
        if let Some(list) = &mut self.list
            && let Some(own) = Rc::get_mut(list)
            && self.dropped <= own.len() / 2
        {
            self.digest = put(own, self.dropped, self.digest, at, item)?;
            return Ok(());
        }
        let mut own = Vec::with_capacity(self.alloc, self.as_slice().len() + 1)?;
        own.extend_from_slice(self.as_slice())?;
        let digest = put(&mut own, 0, self.digest, at, item)?;
        self.list = Some(Rc::new(self.alloc, own)?);
        self.dropped = 0;
        self.digest = digest;
        Ok(())
    }

    /// All but the first item, which share the list.
    pub fn without_first(&self) -> Result<Items, OutOfMemory>
        requires { 0 < length self.now }
        ensures { IfOk result (λ rest. rest ≡ drop 1 self.now) }
    {
        let digest = digest_after(self.digest, self.as_slice());
        let list = share(&self.list)?;
        Ok(Items {
            list,
            dropped: self.dropped + 1,
            digest,
            alloc: self.alloc,
        })
    }
}

/// Puts an item in at a place among the items behind those that were dropped, which had the digest, and gives the digest that they have now;
/// refused, the list stays.
fn put(
    list: &mut Vec<Item>,
    dropped: usize,
    before: u64,
    at: usize,
    item: Item,
) -> Result<u64, OutOfMemory>
    requires { (dropped + at ≤ length list.old.items) × (before ≡ digest (drop dropped list.old.items)) }
    ensures within { OnOk result (dropped ≤ length list.new.items) }
    ensures ok { OnOk result (drop dropped list.new.items ≡ insert (drop dropped list.old.items) at item) }
    ensures digest { IfOk result (λ now. now ≡ digest (drop dropped list.new.items)) }
    ensures err { OnErr result (list.new.items ≡ list.old.items) }
{
    list.insert(dropped + at, item)?;
    Ok(digest_with(before, &list.as_slice()[dropped..], at, item))
}

/// The same list once more.
fn share(list: &Option<Rc<Vec<Item>>>) -> Result<Option<Rc<Vec<Item>>>, OutOfMemory>
    ensures { IfOk result (λ again. listed again ≡ listed list.now) }
{
    match list {
        Some(list) => Ok(Some(list.clone()?)),
        None => Ok(None),
    }
}

/// A set of items, kept as a strictly rising list.
#[derive(Drop)]
pub struct IntSet {
    items: Items,
}

impl Model for IntSet {
    ghost Value = { List ItemOf };

    ghost view = { λ a. a.items };

    ghost invariant = { λ a. IsRising item_cmp a.items };
}

impl PartialEq for IntSet {
    ghost eq = { λ v w. pointwise item_eq v w };

    ghost laws = { lists_per (partial_equiv_from_equiv item_eq_equiv) };

    fn eq(&self, other: &Self) -> bool {
        self.items == other.items
    }
}

impl Eq for IntSet {
    ghost laws = { lists_equiv item_eq_equiv };
}

impl Hash for IntSet {
    ghost hash_input = { hashed };

    ghost respects_eq = { (same_Alike hashed items_Decides).fed };

    fn hash<H: Hasher>(&self, state: &mut H) {
        self.items.hash(state);
    }
}

impl IntSet {
    /// The empty set.
    pub fn new(alloc: Global) -> Self
        ensures { result ≡ [] }
    {
        IntSet {
            items: Items::new(alloc),
        }
    }

    /// The set of the items, which are strictly rising.
    pub fn from_rising(alloc: Global, items: Vec<Item>) -> Result<Self, OutOfMemory>
        requires { IsRising item_cmp items.items }
        ensures { IfOk result (λ set. set ≡ items.items) }
    {
        let items = Items::from_vec(alloc, items)?;
        Ok(IntSet { items })
    }

    /// The set of the items, in any order and with repeats.
    pub fn from_members(alloc: Global, items: Vec<Item>) -> Result<Self, OutOfMemory>
        ensures { IfOk result (λ set. set ≡ members_of item_cmp items.items) }
    {
        IntSet::from_rising(alloc, in_order(items))
    }

    /// Puts an item in; refused, the set is unchanged.
    pub fn insert(&mut self, member: Item) -> Result<(), OutOfMemory>
        ensures ok { OnOk result (self.new ≡ with_member item_cmp member self.old) }
        ensures err { OnErr result (self.new ≡ self.old) }
    {
        match place_for(self.items.as_slice(), member) {
            Some(at) => self.items.insert(at, member),
            None => Ok(()),
        }
    }

    /// The members, strictly rising.
    pub fn as_slice(&self) -> &[Item]
        ensures items { result.now ≡ self.now }
        ensures rising { IsRising item_cmp self.now }
    {
        self.items.as_slice()
    }

    /// An equal set.
    pub fn copy(&self) -> Result<IntSet, OutOfMemory>
        ensures { IfOk result (λ copy. copy ≡ self.now) }
    {
        let items = self.items.copy()?;
        Ok(IntSet { items })
    }
}

/// The items strictly rising, each once.
fn in_order(mut items: Vec<Item>) -> Vec<Item>
    ensures rising { IsRising item_cmp result.items }
    ensures members { result.items ≡ members_of item_cmp items.items }
{
    if !is_rising(items.as_slice()) {
        items.sort_unstable();
        items.dedup();
    }
    items
}

/// Where an item has to be put into rising ones, unless it is there.
fn place_for(items: &[Item], member: Item) -> Option<usize>
    requires { IsRising item_cmp items.now }
    ensures some { IfSome result (λ at. (at ≤ length items.now) × (with_member item_cmp member items.now ≡ insert items.now at member)) }
    ensures none { IfNone result (with_member item_cmp member items.now ≡ items.now) }
{
    if is_above(items, member) {
        return Some(items.len());
    }
    match items.binary_search(&member) {
        Ok(_) => None,
        Err(at) => Some(at),
    }
}

/// Whether each item is below the next.
fn is_rising(items: &[Item]) -> bool
    ensures { IsTrue result ↔ IsRising item_cmp items.now }
{
    for at in 1..items.len() {
        if items[at - 1].cmp(&items[at]).is_ge() {
            return false;
        }
    }
    true
}

/// Whether an item is above the last one, if there is one.
fn is_above(items: &[Item], member: Item) -> bool
    ensures { result ≡ true → 0 < length items.now → item_cmp (slice_index_or items.now (length items.now - 1) member) member ≡ Less }
{
    match items.last() {
        Some(last) => last.cmp(&member).is_lt(),
        None => true,
    }
}

/// What putting an item into a set does.
pub fn sets()
    ensures rising { StaysRising item_cmp }
    ensures members { HasMember item_cmp }
    ensures same { AreSameSets item_cmp }
{}
