//! Legal orders of a history, out of those that its objects have.
ghost use Rattle.std.specs.Prelude.{◌≡◌, ◌<◌, ℕ, IfOk, Some, length, slice_get};
ghost use Rattle.std.specs.List.{AllZip};
ghost use Rattle.lin_events.specs.declared.items.Item.{Item as ItemOf};
ghost use Rattle.lin_events.specs.WellFormed.{IsWellFormed};
ghost use Rattle.lin_objects.specs.Kinds.{functions_of, kind_of};
ghost use Rattle.lin_order.specs.Linearizable.{IsLegalOrder, IsLegalOrderFor};
ghost use Rattle.lin_order.specs.Merging.{lists_of};
ghost use Rattle.lin_engines.specs.declared.ends.End.TheVariants as ends;
ghost use Rattle.lin_answers.specs.declared.answers.Verdict.TheVariants as verdicts;
ghost use Rattle.lin_session.specs.inner.Judgements.{IsOrderFor};
ghost use Rattle.lin_session.specs.inner.Objects.{marks_in};
ghost use Rattle.lin_session.specs.Marks.{IsMarkedAs, IsToldOf};
ghost use Rattle.lin_session.specs.Objects.{AreRight, split_in};

use crate::kept::Objects;
use lin_answers::Scope;
use lin_events::{Event, Item, OutOfMemory};
use lin_objects::Kinds;
use lin_order::{
    Placed, absent_keys_are_legal, merge, merged_orders_are_legal, parts_keep_orders,
    positions_spell_parts,
};
use std::alloc::Global;

impl Objects {
    /// A legal order for the scope, of which it is told that there is one. All events are told apart, and are well-formed.
    pub(crate) fn order(
        &self,
        alloc: Global,
        scope: Scope,
        events: &[Event],
        kinds: &Kinds,
    ) -> Result<Vec<Placed>, OutOfMemory>
        requires alive { IsMarkedAs events.now scope (marks_in self.now) verdicts.Yes }
        requires split { split_in self.now ≡ length events.now }
        requires right { (budget : ℕ) × AreRight self.now (kind_of kinds.now) budget events.now }
        requires well_formed { IsWellFormed (functions_of (kind_of kinds.now)) events.now }
        ensures { IfOk result (λ order. IsOrderFor (kind_of kinds.now) events.now scope order.items) }
    {
        match scope {
            Scope::Object(key) => self.order_of(alloc, key, events, kinds),
            Scope::Whole => self.merged_order(alloc, events, kinds),
        }
    }

    /// A legal order of the history, whose objects each have one.
    fn merged_order(
        &self,
        alloc: Global,
        events: &[Event],
        kinds: &Kinds,
    ) -> Result<Vec<Placed>, OutOfMemory>
        requires alive { IsMarkedAs events.now Scope.Whole (marks_in self.now) verdicts.Yes }
        requires split { split_in self.now ≡ length events.now }
        requires right { (budget : ℕ) × AreRight self.now (kind_of kinds.now) budget events.now }
        requires well_formed { IsWellFormed (functions_of (kind_of kinds.now)) events.now }
        ensures { IfOk result (λ order. IsLegalOrder (kind_of kinds.now) events.now order.items) }
    {
        merged_orders_are_legal();
        let parts = self.orders(alloc, events, kinds)?;
        match merge(alloc, parts) {
            Ok(order) => Ok(order),
            Err((_, refused)) => Err(refused),
        }
    }

    /// Legal orders of all objects, as they are listed.
    fn orders(
        &self,
        alloc: Global,
        events: &[Event],
        kinds: &Kinds,
    ) -> Result<Vec<Vec<Placed>>, OutOfMemory>
        requires alive { IsMarkedAs events.now Scope.Whole (marks_in self.now) verdicts.Yes }
        requires split { split_in self.now ≡ length events.now }
        requires right { (budget : ℕ) × AreRight self.now (kind_of kinds.now) budget events.now }
        requires well_formed { IsWellFormed (functions_of (kind_of kinds.now)) events.now }
        ensures { IfOk result (λ parts. AllZip (λ key order. IsLegalOrderFor (kind_of kinds.now) key events.now order) self.now.keys.keys (lists_of parts.items)) }
    {
        let mut parts = Vec::new(alloc);
        for i in 0..self.objects.len() {
            let order = self.order_listed(alloc, i, events, kinds)?;
            parts.push(order)?;
        }
        Ok(parts)
    }

    /// A legal order for the object of the key, which has one.
    fn order_of(
        &self,
        alloc: Global,
        key: Item,
        events: &[Event],
        kinds: &Kinds,
    ) -> Result<Vec<Placed>, OutOfMemory>
        requires alive { IsToldOf events.now (marks_in self.now) key ends.Alive }
        requires split { split_in self.now ≡ length events.now }
        requires right { (budget : ℕ) × AreRight self.now (kind_of kinds.now) budget events.now }
        requires well_formed { IsWellFormed (functions_of (kind_of kinds.now)) events.now }
        ensures { IfOk result (λ order. IsLegalOrderFor (kind_of kinds.now) key events.now order.items) }
    {
        absent_keys_are_legal();
        match self.find(key) {
            Some(i) => self.order_listed(alloc, i, events, kinds),
            None => Ok(Vec::new(alloc)),
        }
    }

    /// A legal order for the object that is listed here.
    fn order_listed(
        &self,
        alloc: Global,
        i: usize,
        events: &[Event],
        kinds: &Kinds,
    ) -> Result<Vec<Placed>, OutOfMemory>
        requires listed { i < length self.now.keys.keys }
        requires alive { (key : ItemOf) → slice_get self.now.keys.keys i ≡ Some key → IsToldOf events.now (marks_in self.now) key ends.Alive }
        requires split { split_in self.now ≡ length events.now }
        requires right { (budget : ℕ) × AreRight self.now (kind_of kinds.now) budget events.now }
        requires well_formed { IsWellFormed (functions_of (kind_of kinds.now)) events.now }
        ensures { IfOk result (λ order. (key : ItemOf) → slice_get self.now.keys.keys i ≡ Some key → IsLegalOrderFor (kind_of kinds.now) key events.now order.items) }
    {
        positions_spell_parts();
        parts_keep_orders();
        self.objects[i].order(alloc)
    }
}
