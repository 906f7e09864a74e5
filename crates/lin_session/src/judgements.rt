//! What the chains of the objects tell of the history: verdicts and refutations.
ghost use Rattle.std.specs.Prelude.{◌≡◌, ◌≢◌, ◌<◌, ◌≤◌, ◌+◌, ℕ, List, IsOk, IfErr, IfOk, OnOk, None, Ok, Some, length, slice_get, take};
ghost use Rattle.lin_events.specs.declared.items.Item.{Item as ItemOf};
ghost use Rattle.lin_events.specs.WellFormed.{IsWellFormed};
ghost use Rattle.lin_objects.specs.declared.kinds.Kind.{Kind as KindOf};
ghost use Rattle.lin_objects.specs.Kinds.{functions_of, kind_of};
ghost use Rattle.lin_order.specs.Parts.{part};
ghost use Rattle.lin_order.specs.Refutations.{IsRefutation, sets_of};
ghost use Rattle.lin_engines.specs.Exacts.{HasExact};
ghost use Rattle.lin_answers.specs.declared.answers.Verdict.TheVariants as verdicts;
ghost use Rattle.lin_answers.specs.Answers.{IsObjectVerdict, IsVerdict, IsWholeVerdict, IsOverSomewhere};
ghost use Rattle.lin_session.specs.Objects.{AreRight, split_in};
ghost use Rattle.lin_session.specs.inner.Objects.{marks_in};
ghost use Rattle.lin_session.specs.inner.Judgements.{AreFound, IsFinding, IsMarkedBy, IsTold};
ghost use Rattle.lin_session.specs.Marks.{AreCarriedOn, AreExact, IsKnown, IsMarkedAs, IsNothingDue};
ghost use Rattle.lin_session.specs.Leaving.{least};
ghost use Rattle.lin_session.specs.Work.{IsSpentAtMostIn, IsSpentIn, due_in};

use crate::kept::Objects;
use lin_answers::{Scope, Verdict};
use lin_chain::RefuteFault;
use lin_events::{Event, Item, Meter, OutOfMemory, beginnings_are_well_formed};
use lin_objects::Kinds;
use lin_order::{
    Refutation, absent_keys_are_legal, linearizability_is_local, parts_keep_operations,
    parts_keep_orders, parts_of_prefixes, positions_spell_parts, prefixes_are_linearizable,
};
use std::alloc::Global;

impl Objects {
    /// Sets that refute the object of the key, which is told to be dead at the last event of a prefix. All events are told apart, and are
    /// well-formed.
    pub(crate) fn refutation(
        &self,
        alloc: Global,
        key: Item,
        events: &[Event],
        budget: u32,
        meter: &mut Meter,
    ) -> Result<Refutation, RefuteFault>
        requires dead { (n : ℕ) × IsMarkedAs events.now (Scope.Object key) (marks_in self.now) (verdicts.No n) }
        requires split { split_in self.now ≡ length events.now }
        requires right { (kinds : ItemOf → KindOf) × AreRight self.now kinds budget events.now × IsWellFormed (functions_of kinds) events.now }
        ensures refuted { IfOk result (λ refutation. (kinds : ItemOf → KindOf) (n : ℕ) → AreRight self.now kinds budget events.now → 0 < n
            → IsMarkedAs events.now (Scope.Object key) (marks_in self.now) (verdicts.No n) → IsRefutation (part key (take n events.now)) (kinds key) (sets_of refutation)) }
        ensures unrefuted { IfErr result (λ fault. (fault ≢ RefuteFault.NotDead) × (fault ≡ RefuteFault.TooLarge → (kinds : ItemOf → KindOf) → AreRight self.now kinds budget events.now → IsOverSomewhere kinds budget events.now key)) }
        ensures steps { meter.new.steps ≤ meter.old.steps + length (part key events.now) }
        ensures scans { meter.new.scans ≡ meter.old.scans }
    {
        positions_spell_parts();
        parts_of_prefixes();
        parts_keep_operations();
        let Some(i) = self.find(key) else {
            unreachable!()
        };
        let object = &self.objects[i];
        object
            .chain
            .refute(alloc, events, &object.picks, budget, meter)
    }

    /// Whether the history is linearizable for the scope. Its events are well-formed.
    pub(crate) fn judge(
        &mut self,
        alloc: Global,
        scope: Scope,
        events: &[Event],
        kinds: &Kinds,
        budget: u32,
        meter: &mut Meter,
    ) -> Result<Verdict, OutOfMemory>
        requires few { length events.now < usize.MAX }
        requires right { AreRight self.old (kind_of kinds.now) budget events.now }
        requires well_formed { IsWellFormed (functions_of (kind_of kinds.now)) events.now }
        ensures right { AreRight self.new (kind_of kinds.now) budget events.now }
        ensures split { OnOk result (split_in self.new ≡ length events.now) }
        ensures apart { split_in self.old ≡ length events.now → split_in self.new ≡ length events.now }
        ensures verdict { IfOk result (IsVerdict (record { history = events.now; kinds = kinds.now; budget = budget }) scope) }
        ensures told { IfOk result (IsMarkedAs events.now scope (marks_in self.new)) }
        ensures decided { AreExact (kind_of kinds.now) events.now scope → 1024 ≤ budget → (at : ℕ) → result ≢ Ok (Verdict.Undecided at) }
        ensures carried { AreCarriedOn events.now scope (marks_in self.old) (marks_in self.new) }
        ensures known { OnOk result (IsNothingDue events.now scope (marks_in self.new)) }
        ensures spent { OnOk result (IsSpentIn events.now scope (marks_in self.old) (marks_in self.new) meter.old.steps meter.new.steps) }
        ensures most { IsSpentAtMostIn events.now scope (marks_in self.old) (marks_in self.new) meter.old.steps meter.new.steps }
        ensures idle { IsNothingDue events.now scope (marks_in self.old) → meter.new ≡ meter.old }
        ensures ready { split_in self.old ≡ length events.now → IsNothingDue events.now scope (marks_in self.old) → IsOk result }
        ensures exact { AreExact (kind_of kinds.now) events.now scope → 1024 ≤ budget → meter.new.steps ≤ meter.old.steps + due_in events.now scope (marks_in self.old) }
        ensures scans { meter.new.scans ≡ meter.old.scans }
    {
        positions_spell_parts();
        self.split(alloc, events, kinds)?;
        match scope {
            Scope::Object(key) => self.judge_object(key, events, budget, meter),
            Scope::Whole => self.judge_whole(events, budget, meter),
        }
    }

    /// Whether the object of the key is linearizable. All events are told apart, and are well-formed.
    fn judge_object(
        &mut self,
        key: Item,
        events: &[Event],
        budget: u32,
        meter: &mut Meter,
    ) -> Result<Verdict, OutOfMemory>
        requires few { length events.now < usize.MAX }
        requires split { split_in self.old ≡ length events.now }
        requires right { (kinds : ItemOf → KindOf) × AreRight self.old kinds budget events.now × IsWellFormed (functions_of kinds) events.now }
        ensures split { split_in self.new ≡ split_in self.old }
        ensures right { (kinds : ItemOf → KindOf) → AreRight self.old kinds budget events.now → AreRight self.new kinds budget events.now }
        ensures verdict { IfOk result (λ verdict. (kinds : ItemOf → KindOf) → AreRight self.old kinds budget events.now → IsWellFormed (functions_of kinds) events.now → IsObjectVerdict kinds budget events.now key verdict) }
        ensures told { IfOk result (IsMarkedAs events.now (Scope.Object key) (marks_in self.new)) }
        ensures decided { (kinds : ItemOf → KindOf) → AreRight self.old kinds budget events.now → AreExact kinds events.now (Scope.Object key) → 1024 ≤ budget → (at : ℕ) → result ≢ Ok (Verdict.Undecided at) }
        ensures carried { AreCarriedOn events.now (Scope.Object key) (marks_in self.old) (marks_in self.new) }
        ensures known { OnOk result (IsNothingDue events.now (Scope.Object key) (marks_in self.new)) }
        ensures spent { OnOk result (IsSpentIn events.now (Scope.Object key) (marks_in self.old) (marks_in self.new) meter.old.steps meter.new.steps) }
        ensures most { IsSpentAtMostIn events.now (Scope.Object key) (marks_in self.old) (marks_in self.new) meter.old.steps meter.new.steps }
        ensures rests { IsNothingDue events.now (Scope.Object key) (marks_in self.old) → IsOk result × (meter.new ≡ meter.old) }
        ensures exact { (kinds : ItemOf → KindOf) → AreRight self.old kinds budget events.now → AreExact kinds events.now (Scope.Object key) → 1024 ≤ budget → meter.new.steps ≤ meter.old.steps + due_in events.now (Scope.Object key) (marks_in self.old) }
        ensures scans { meter.new.scans ≡ meter.old.scans }
    {
        positions_spell_parts();
        absent_keys_are_legal();
        match self.find(key) {
            Some(i) => {
                let (failing, over) = self.judge_listed(i, events, budget, meter)?;
                Ok(verdict_of_findings(failing, over))
            }
            None => Ok(Verdict::Yes),
        }
    }

    /// Whether the whole is linearizable. All events are told apart, and are well-formed.
    fn judge_whole(
        &mut self,
        events: &[Event],
        budget: u32,
        meter: &mut Meter,
    ) -> Result<Verdict, OutOfMemory>
        requires few { length events.now < usize.MAX }
        requires split { split_in self.old ≡ length events.now }
        requires right { (kinds : ItemOf → KindOf) × AreRight self.old kinds budget events.now × IsWellFormed (functions_of kinds) events.now }
        ensures split { split_in self.new ≡ split_in self.old }
        ensures right { (kinds : ItemOf → KindOf) → AreRight self.old kinds budget events.now → AreRight self.new kinds budget events.now }
        ensures verdict { IfOk result (λ verdict. (kinds : ItemOf → KindOf) → AreRight self.old kinds budget events.now → IsWellFormed (functions_of kinds) events.now → IsWholeVerdict kinds budget events.now verdict) }
        ensures told { IfOk result (IsMarkedAs events.now Scope.Whole (marks_in self.new)) }
        ensures decided { (kinds : ItemOf → KindOf) → AreRight self.old kinds budget events.now → AreExact kinds events.now Scope.Whole → 1024 ≤ budget → (at : ℕ) → result ≢ Ok (Verdict.Undecided at) }
        ensures carried { AreCarriedOn events.now Scope.Whole (marks_in self.old) (marks_in self.new) }
        ensures known { OnOk result (IsNothingDue events.now Scope.Whole (marks_in self.new)) }
        ensures spent { OnOk result (IsSpentIn events.now Scope.Whole (marks_in self.old) (marks_in self.new) meter.old.steps meter.new.steps) }
        ensures most { IsSpentAtMostIn events.now Scope.Whole (marks_in self.old) (marks_in self.new) meter.old.steps meter.new.steps }
        ensures rests { IsNothingDue events.now Scope.Whole (marks_in self.old) → IsOk result × (meter.new ≡ meter.old) }
        ensures exact { (kinds : ItemOf → KindOf) → AreRight self.old kinds budget events.now → AreExact kinds events.now Scope.Whole → 1024 ≤ budget → meter.new.steps ≤ meter.old.steps + due_in events.now Scope.Whole (marks_in self.old) }
        ensures scans { meter.new.scans ≡ meter.old.scans }
    {
        absent_keys_are_legal();
        prefixes_are_linearizable();
        parts_keep_orders();
        beginnings_are_well_formed();
        linearizability_is_local();
        let (failing, over) = self.judge_all(events, budget, meter)?;
        Ok(verdict_of_findings(failing, over))
    }

    /// What is found of all objects: the shortest prefix that fails one, and the first position at which one is over.
    fn judge_all(
        &mut self,
        events: &[Event],
        budget: u32,
        meter: &mut Meter,
    ) -> Result<(Option<usize>, Option<usize>), OutOfMemory>
        requires few { length events.now < usize.MAX }
        requires split { split_in self.old ≡ length events.now }
        requires right { (kinds : ItemOf → KindOf) × AreRight self.old kinds budget events.now × IsWellFormed (functions_of kinds) events.now }
        ensures keys { self.new.keys ≡ self.old.keys }
        ensures split { split_in self.new ≡ split_in self.old }
        ensures right { (kinds : ItemOf → KindOf) → AreRight self.old kinds budget events.now → AreRight self.new kinds budget events.now }
        ensures found { IfOk result (λ r. (kinds : ItemOf → KindOf) → AreRight self.old kinds budget events.now → IsWellFormed (functions_of kinds) events.now → AreFound kinds budget events.now self.old.keys.keys r.0 r.1) }
        ensures alive { IfOk result (λ r. r.0 ≡ None → r.1 ≡ None → IsMarkedAs events.now Scope.Whole (marks_in self.new) verdicts.Yes) }
        ensures dead { IfOk result (λ r. (n : ℕ) → r.0 ≡ Some n → IsMarkedAs events.now Scope.Whole (marks_in self.new) (verdicts.No n)) }
        ensures over { IfOk result (λ r. (at : ℕ) → r.1 ≡ Some at → IsMarkedAs events.now Scope.Whole (marks_in self.new) (verdicts.Undecided at)) }
        ensures decided { IfOk result (λ r. (kinds : ItemOf → KindOf) → AreRight self.old kinds budget events.now → AreExact kinds events.now Scope.Whole → 1024 ≤ budget → r.1 ≡ None) }
        ensures carried { AreCarriedOn events.now Scope.Whole (marks_in self.old) (marks_in self.new) }
        ensures known { OnOk result (IsNothingDue events.now Scope.Whole (marks_in self.new)) }
        ensures spent { OnOk result (IsSpentIn events.now Scope.Whole (marks_in self.old) (marks_in self.new) meter.old.steps meter.new.steps) }
        ensures most { IsSpentAtMostIn events.now Scope.Whole (marks_in self.old) (marks_in self.new) meter.old.steps meter.new.steps }
        ensures rests { IsNothingDue events.now Scope.Whole (marks_in self.old) → IsOk result × (meter.new ≡ meter.old) }
        ensures exact { (kinds : ItemOf → KindOf) → AreRight self.old kinds budget events.now → AreExact kinds events.now Scope.Whole → 1024 ≤ budget → meter.new.steps ≤ meter.old.steps + due_in events.now Scope.Whole (marks_in self.old) }
        ensures scans { meter.new.scans ≡ meter.old.scans }
    {
        positions_spell_parts();
        let mut failing = None;
        let mut over = None;
        for i in 0..self.objects.len() {
            let found = self.judge_listed(i, events, budget, meter)?;
            failing = least_of(failing, found.0);
            over = least_of(over, found.1);
        }
        Ok((failing, over))
    }

    /// What is found of the object that is listed here: the shortest prefix that fails it, or the position at which it is over.
    fn judge_listed(
        &mut self,
        i: usize,
        events: &[Event],
        budget: u32,
        meter: &mut Meter,
    ) -> Result<(Option<usize>, Option<usize>), OutOfMemory>
        requires listed { i < length self.old.keys.keys }
        requires few { length events.now < usize.MAX }
        requires split { split_in self.old ≡ length events.now }
        requires right { (kinds : ItemOf → KindOf) × AreRight self.old kinds budget events.now × IsWellFormed (functions_of kinds) events.now }
        ensures keys { self.new.keys ≡ self.old.keys }
        ensures split { split_in self.new ≡ split_in self.old }
        ensures right { (kinds : ItemOf → KindOf) → AreRight self.old kinds budget events.now → AreRight self.new kinds budget events.now }
        ensures found { IfOk result (λ r. (kinds : ItemOf → KindOf) (key : ItemOf) → slice_get self.old.keys.keys i ≡ Some key → AreRight self.old kinds budget events.now → IsWellFormed (functions_of kinds) events.now → IsFinding kinds budget events.now key r.0 r.1) }
        ensures told { IfOk result (λ r. (key : ItemOf) → slice_get self.old.keys.keys i ≡ Some key → IsMarkedBy events.now (marks_in self.new) key r.0 r.1) }
        ensures decided { IfOk result (λ r. (kinds : ItemOf → KindOf) (key : ItemOf) → slice_get self.old.keys.keys i ≡ Some key → AreRight self.old kinds budget events.now → HasExact (kinds key) → 1024 ≤ budget → r.1 ≡ None) }
        ensures carried { (key : ItemOf) → slice_get self.old.keys.keys i ≡ Some key → AreCarriedOn events.now (Scope.Object key) (marks_in self.old) (marks_in self.new) }
        ensures spent { OnOk result ((key : ItemOf) → slice_get self.old.keys.keys i ≡ Some key → IsSpentIn events.now (Scope.Object key) (marks_in self.old) (marks_in self.new) meter.old.steps meter.new.steps) }
        ensures most { (key : ItemOf) → slice_get self.old.keys.keys i ≡ Some key → IsSpentAtMostIn events.now (Scope.Object key) (marks_in self.old) (marks_in self.new) meter.old.steps meter.new.steps }
        ensures rests { (key : ItemOf) → slice_get self.old.keys.keys i ≡ Some key → IsKnown events.now (marks_in self.old) key → IsOk result × (meter.new ≡ meter.old) }
        ensures exact { (kinds : ItemOf → KindOf) (key : ItemOf) → slice_get self.old.keys.keys i ≡ Some key → AreRight self.old kinds budget events.now → AreExact kinds events.now (Scope.Object key) → 1024 ≤ budget → meter.new.steps ≤ meter.old.steps + due_in events.now (Scope.Object key) (marks_in self.old) }
        ensures scans { meter.new.scans ≡ meter.old.scans }
    {
        positions_spell_parts();
        parts_of_prefixes();
        parts_keep_operations();
        parts_keep_orders();
        beginnings_are_well_formed();
        let object = &mut self.objects[i];
        let end = object.settle(events, budget, meter)?;
        Ok(object.finding(end))
    }
}

/// The verdict that the findings give: the failing prefix, unless an object is over at an earlier position.
pub(crate) fn verdict_of_findings(failing: Option<usize>, over: Option<usize>) -> Verdict
    ensures { IsTold failing over result }
{
    match failing {
        None => match over {
            None => Verdict::Yes,
            Some(at) => Verdict::Undecided { at },
        },
        Some(prefix) => match over {
            Some(at) if at < prefix => Verdict::Undecided { at },
            _ => Verdict::No { prefix },
        },
    }
}

/// The lesser of two numbers, where there are two.
pub(crate) fn least_of(a: Option<usize>, b: Option<usize>) -> Option<usize>
    ensures { result ≡ least a b }
{
    match a {
        None => b,
        Some(m) => match b {
            None => Some(m),
            Some(n) => Some(m.min(n)),
        },
    }
}
