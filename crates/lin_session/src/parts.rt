//! The part of each object in the history: where its events stand, as the history is edited and its events are told apart.
ghost use Rattle.std.specs.Prelude.{◌≡◌, ◌+◌, ◌<◌, ◌≤◌, ◌∷◌, ◌++◌, ◌||◌, [], ℕ, List, Contains, IsOk, IfSome, IfNone, OnOk, OnErr, Some, remove, slice_set, if◌then◌else◌, length, min, nat_lt, slice_get};
ghost use Rattle.lin_events.specs.declared.items.Item.{Item as ItemOf};
ghost use Rattle.lin_events.specs.Items.{item_eq};
ghost use Rattle.lin_events.specs.declared.events.Event.{Event as EventOf};
ghost use Rattle.lin_objects.specs.declared.kinds.Kind.{Kind as KindOf};
ghost use Rattle.lin_objects.specs.Kinds.{kind_of};
ghost use Rattle.lin_order.specs.Orders.{is_of_key};
ghost use Rattle.lin_order.specs.Parts.{ArePositionsOf, part};
ghost use Rattle.lin_chain.specs.Work.{unasked};
ghost use Rattle.lin_session.specs.Objects.{AreRight, split_in};
ghost use Rattle.lin_session.specs.inner.Objects.{AreAppended, AreRekinded, AreTouched, marks_in};
ghost use Rattle.lin_session.specs.Known.{AreSameMarks, count_before};
ghost use Rattle.lin_session.specs.Leaving.{IsRebudgeted, IsTouched};

use crate::kept::{Object, Objects};
use crate::object::raise_all;
use indexmap::IndexSet;
use lin_events::{Event, Item, OutOfMemory};
use lin_objects::{Kind, Kinds};
use lin_order::{parts_grow, parts_of_prefixes};
use std::alloc::Global;

impl Objects {
    /// No event was looked at.
    pub(crate) fn new(alloc: Global, once: bool) -> Objects
        ensures right { (kinds : ItemOf → KindOf) (budget : ℕ) (h : List EventOf) → AreRight result kinds budget h }
        ensures marks { (key : ItemOf) → marks_in result key ≡ unasked }
    {
        Objects {
            split: 0,
            keys: IndexSet::new(alloc),
            objects: Vec::new(alloc),
            once,
        }
    }

    /// Where the key is listed. The key that was listed last needs no hash.
    pub(crate) fn find(&self, key: Item) -> Option<usize>
        ensures found { IfSome result (λ i. slice_get self.now.keys.keys i ≡ Some key) }
        ensures none { IfNone result (Contains self.now.keys.keys key → ⊥) }
    {
        match self.keys.last() {
            Some(last) if *last == key => Some(self.keys.len() - 1),
            _ => self.keys.get_index_of(&key),
        }
    }

    /// Where the events of the key stand, if it has some and all are told apart.
    pub(crate) fn positions(&self, key: Item, events: &[Event]) -> Option<&[usize]>
        requires { (kinds : ItemOf → KindOf) × (budget : ℕ) × AreRight self.now kinds budget events.now }
        ensures stand { IfSome result (λ picks. ArePositionsOf key events.now picks.now) }
        ensures none { IfNone result (split_in self.now ≡ length events.now → part key events.now ≡ []) }
    {
        if self.split < events.len() {
            return None;
        }
        let Some(i) = self.find(key) else {
            return None;
        };
        Some(&self.objects[i].picks)
    }

    /// Forgets where the events from the position on stand.
    fn forget_split(&mut self, events: &[Event], at: usize)
        requires { split_in self.old ≤ length events.now }
        ensures split { split_in self.new ≡ min at (split_in self.old) }
        ensures right { (kinds : ItemOf → KindOf) (budget : ℕ) → AreRight self.old kinds budget events.now → AreRight self.new kinds budget events.now }
        ensures marks { AreSameMarks (marks_in self.old) (marks_in self.new) }
    {
        while self.split > at {
            self.unsplit_last(&events[self.split - 1]);
        }
    }

    fn unsplit_last(&mut self, event: &Event)
        requires { 0 < split_in self.old }
        ensures split { split_in self.new + 1 ≡ split_in self.old }
        ensures right { (kinds : ItemOf → KindOf) (budget : ℕ) (h : List EventOf) → slice_get h (split_in self.new) ≡ Some event.now → AreRight self.old kinds budget h → AreRight self.new kinds budget h }
        ensures marks { AreSameMarks (marks_in self.old) (marks_in self.new) }
    {
        parts_of_prefixes();
        self.split -= 1;
        if let Some(i) = self.find(event.key) {
            let object = &mut self.objects[i];
            let _ = object.picks.pop();
        }
    }

    /// The event at the position leaves the history.
    pub(crate) fn leave(&mut self, events: &[Event], at: usize)
        requires place { at < length events.now }
        requires within { split_in self.old ≤ length events.now }
        ensures split { split_in self.new ≡ min at (split_in self.old) }
        ensures right { (kinds : ItemOf → KindOf) (budget : ℕ) → AreRight self.old kinds budget events.now → AreRight self.new kinds budget (remove events.now at) }
        ensures marks { (kinds : ItemOf → KindOf) (budget : ℕ) → AreRight self.old kinds budget events.now
            → (x : ItemOf) → IsTouched (is_of_key events.now x at) (count_before events.now x at) (marks_in self.old x) (marks_in self.new x) }
    {
        self.forget_split(events, at);
        self.take_out(events[at].key, &events[at + 1..]);
    }

    /// In place of the event at the position comes this one.
    pub(crate) fn replace(&mut self, events: &[Event], at: usize, event: &Event)
        requires place { at < length events.now }
        requires within { split_in self.old ≤ length events.now }
        requires few { length events.now < usize.MAX }
        ensures right { (kinds : ItemOf → KindOf) (budget : ℕ) → AreRight self.old kinds budget events.now → AreRight self.new kinds budget (slice_set events.now at event.now) }
        ensures marks { (kinds : ItemOf → KindOf) (budget : ℕ) → AreRight self.old kinds budget events.now
            → (x : ItemOf) → IsTouched (item_eq event.now.key x || is_of_key events.now x at) (count_before events.now x at) (marks_in self.old x) (marks_in self.new x) }
    {
        self.leave(events, at);
        self.put_in(event.key, &events[at + 1..]);
    }

    /// An event of the key, ahead of these, leaves the history.
    fn take_out(&mut self, key: Item, behind: &[Event])
        ensures split { split_in self.new ≡ split_in self.old }
        ensures right { (kinds : ItemOf → KindOf) (budget : ℕ) (before : List EventOf) (event : EventOf) → event.key ≡ key → split_in self.old ≤ length before
            → AreRight self.old kinds budget (before ++ event ∷ behind.now) → AreRight self.new kinds budget (before ++ behind.now) }
        ensures marks { (kinds : ItemOf → KindOf) (budget : ℕ) (before : List EventOf) (event : EventOf) → event.key ≡ key
            → AreRight self.old kinds budget (before ++ event ∷ behind.now) → AreTouched key (length (part key before)) (marks_in self.old) (marks_in self.new) }
    {
        if let Some(i) = self.find(key) {
            let object = &mut self.objects[i];
            object.count = object.count.saturating_sub(1);
            object.cut_ahead_of(key, behind);
        }
    }

    /// An event of the key, ahead of these, comes into the history.
    fn put_in(&mut self, key: Item, behind: &[Event])
        ensures split { split_in self.new ≡ split_in self.old }
        ensures right { (kinds : ItemOf → KindOf) (budget : ℕ) (before : List EventOf) (event : EventOf) → event.key ≡ key → split_in self.old ≤ length before → length before + length behind.now < usize.MAX
            → AreRight self.old kinds budget (before ++ behind.now) → AreRight self.new kinds budget (before ++ event ∷ behind.now) }
        ensures marks { (kinds : ItemOf → KindOf) (budget : ℕ) (before : List EventOf)
            → AreRight self.old kinds budget (before ++ behind.now) → AreTouched key (length (part key before)) (marks_in self.old) (marks_in self.new) }
    {
        if let Some(i) = self.find(key) {
            let object = &mut self.objects[i];
            object.cut_ahead_of(key, behind);
            object.count = object.count.saturating_add(1);
        }
    }

    /// An event of the key comes last.
    pub(crate) fn put_last(&mut self, key: Item)
        ensures split { split_in self.new ≡ split_in self.old }
        ensures right { (kinds : ItemOf → KindOf) (budget : ℕ) (h : List EventOf) (event : EventOf) → event.key ≡ key → length h < usize.MAX → AreRight self.old kinds budget h → AreRight self.new kinds budget (h ++ event ∷ []) }
        ensures marks { (kinds : ItemOf → KindOf) (budget : ℕ) (h : List EventOf) → AreRight self.old kinds budget h → AreAppended key (marks_in self.old) (marks_in self.new) }
    {
        if let Some(i) = self.find(key) {
            let object = &mut self.objects[i];
            object.cut_at_end();
            object.count = object.count.saturating_add(1);
        }
    }

    /// The object of the key is of this kind.
    pub(crate) fn rekind(&mut self, key: Item, kind: Kind)
        ensures right { (kinds other : ItemOf → KindOf) (budget : ℕ) (h : List EventOf) → ((x : ItemOf) → other x ≡ (if item_eq key x then kind else kinds x)) → AreRight self.old kinds budget h → AreRight self.new other budget h }
        ensures marks { (kinds : ItemOf → KindOf) (budget : ℕ) (h : List EventOf) → AreRight self.old kinds budget h → AreRekinded key (marks_in self.old) (marks_in self.new) }
    {
        if let Some(i) = self.find(key) {
            let object = &mut self.objects[i];
            object.chain.rekind(kind);
        }
    }

    /// The budget was the one, and is the other one now.
    pub(crate) fn rebudget(&mut self, before: u32, after: u32)
        ensures split { split_in self.new ≡ split_in self.old }
        ensures right { (kinds : ItemOf → KindOf) (h : List EventOf) → AreRight self.old kinds before h → AreRight self.new kinds after h }
        ensures marks { (kinds : ItemOf → KindOf) (h : List EventOf) → AreRight self.old kinds before h → (x : ItemOf) → IsRebudgeted (nat_lt before after) (marks_in self.old x) (marks_in self.new x) }
    {
        if before < after {
            raise_all(&mut self.objects, after);
        }
    }

    /// Tells all events apart by their keys.
    pub(crate) fn split(
        &mut self,
        alloc: Global,
        events: &[Event],
        kinds: &Kinds,
    ) -> Result<(), OutOfMemory>
        requires { (budget : ℕ) × AreRight self.old (kind_of kinds.now) budget events.now }
        ensures all { OnOk result (split_in self.new ≡ length events.now) }
        ensures apart { split_in self.old ≡ length events.now → split_in self.new ≡ length events.now }
        ensures right { (budget : ℕ) → AreRight self.old (kind_of kinds.now) budget events.now → AreRight self.new (kind_of kinds.now) budget events.now }
        ensures settled { split_in self.old ≡ length events.now → IsOk result }
        ensures same { split_in self.old ≡ length events.now → self.new ≡ self.old }
        ensures marks { AreSameMarks (marks_in self.old) (marks_in self.new) }
    {
        while self.split < events.len() {
            self.split_next(alloc, events, kinds)?;
        }
        Ok(())
    }

    /// Tells the next event apart; where its key is listed, so are those behind it up to the first one of another key, which need no look-up.
    fn split_next(
        &mut self,
        alloc: Global,
        events: &[Event],
        kinds: &Kinds,
    ) -> Result<(), OutOfMemory>
        requires more { split_in self.old < length events.now }
        ensures more { OnOk result (split_in self.old < split_in self.new) }
        ensures within { split_in self.new ≤ length events.now }
        ensures right { (budget : ℕ) → AreRight self.old (kind_of kinds.now) budget events.now → AreRight self.new (kind_of kinds.now) budget events.now }
        ensures marks { AreSameMarks (marks_in self.old) (marks_in self.new) }
    {
        let key = events[self.split].key;
        match self.find(key) {
            Some(i) => self.pick_all(i, key, events)?,
            None => self.add(alloc, key, kinds.of(key))?,
        }
        Ok(())
    }

    /// The next event is of the key that is listed here, as are those behind it up to the first one of another key.
    fn pick_all(&mut self, i: usize, key: Item, events: &[Event]) -> Result<(), OutOfMemory>
        requires listed { slice_get self.old.keys.keys i ≡ Some key }
        requires next { (event : EventOf) × (slice_get events.now (split_in self.old) ≡ Some event) × (event.key ≡ key) }
        ensures more { OnOk result (split_in self.old < split_in self.new) }
        ensures within { split_in self.new ≤ length events.now }
        ensures right { (kinds : ItemOf → KindOf) (budget : ℕ) → AreRight self.old kinds budget events.now → AreRight self.new kinds budget events.now }
        ensures marks { AreSameMarks (marks_in self.old) (marks_in self.new) }
    {
        self.pick(i)?;
        while self.split < events.len() && events[self.split].key == key {
            self.pick(i)?;
        }
        Ok(())
    }

    /// The next event is of the key that is listed here.
    fn pick(&mut self, i: usize) -> Result<(), OutOfMemory>
        requires room { split_in self.old < usize.MAX }
        requires listed { i < length self.old.keys.keys }
        ensures split { OnOk result (split_in self.new ≡ split_in self.old + 1) }
        ensures refused { OnErr result (split_in self.new ≡ split_in self.old) }
        ensures keys { self.new.keys ≡ self.old.keys }
        ensures next { OnOk result ((kinds : ItemOf → KindOf) (budget : ℕ) (h : List EventOf) (event : EventOf) → slice_get h (split_in self.old) ≡ Some event → slice_get self.old.keys.keys i ≡ Some event.key
            → AreRight self.old kinds budget h → AreRight self.new kinds budget h) }
        ensures same { OnErr result ((kinds : ItemOf → KindOf) (budget : ℕ) (h : List EventOf) → AreRight self.old kinds budget h → AreRight self.new kinds budget h) }
        ensures marks { AreSameMarks (marks_in self.old) (marks_in self.new) }
    {
        parts_grow();
        let split = self.split;
        self.objects[i].pick(split)?;
        self.split += 1;
        Ok(())
    }

    /// Lists a key that is not listed yet, and whose first event is the next one.
    fn add(&mut self, alloc: Global, key: Item, kind: Kind) -> Result<(), OutOfMemory>
        requires room { split_in self.old < usize.MAX }
        requires absent { Contains self.old.keys.keys key → ⊥ }
        ensures split { OnOk result (split_in self.new ≡ split_in self.old + 1) }
        ensures refused { OnErr result (split_in self.new ≡ split_in self.old) }
        ensures next { OnOk result ((kinds : ItemOf → KindOf) (budget : ℕ) (h : List EventOf) (event : EventOf) → slice_get h (split_in self.old) ≡ Some event → event.key ≡ key → kinds key ≡ kind
            → AreRight self.old kinds budget h → AreRight self.new kinds budget h) }
        ensures same { OnErr result ((kinds : ItemOf → KindOf) (budget : ℕ) (h : List EventOf) → AreRight self.old kinds budget h → AreRight self.new kinds budget h) }
        ensures marks { AreSameMarks (marks_in self.old) (marks_in self.new) }
    {
        parts_grow();
        let mut object = Object::new(alloc, kind, self.once);
        object.pick(self.split)?;
        self.objects.reserve(1)?;
        self.keys.insert(key)?;
        self.objects.push_reserved(object);
        self.split += 1;
        Ok(())
    }
}
