//! A history that is edited, with what was found of it kept up to date.
ghost use Rattle.std.specs.Prelude.{◌≡◌, ◌≢◌, ◌↔◌, ◌<◌, ◌≤◌, ◌⊎◌, ◌+◌, ◌-◌, ◌∷◌, ◌++◌, [], ℕ, true, false, Err, None, Ok, Some, IfOk, IfErr, IfSome, IfNone, IsOk, OnOk, OnErr, length, slice_get, slice_set, remove, take, nat_lt};
ghost use Rattle.lin_events.specs.declared.items.Item.{Item as ItemOf};
ghost use Rattle.lin_events.specs.WellFormed.{IsWellFormed};
ghost use Rattle.lin_objects.specs.declared.kinds.Kind.{Kind as KindOf};
ghost use Rattle.lin_objects.specs.Kinds.{functions_of, is_named, kind_of, named_count, same_for_all, with_kind};
ghost use Rattle.lin_order.specs.Orders.{is_of_key};
ghost use Rattle.lin_order.specs.Parts.{ArePositionsOf, part};
ghost use Rattle.lin_order.specs.Refutations.{sets_of};
ghost use Rattle.lin_engines.specs.Ends.{IsEndOf};
ghost use Rattle.lin_chain.specs.Work.{unasked};
ghost use Rattle.lin_answers.specs.declared.answers.Verdict.TheVariants as verdicts;
ghost use Rattle.lin_answers.specs.Answers.{IsAnswer, IsVerdict, kinds_in, verdict_of};
ghost use Rattle.lin_answers.specs.Edits.{IsBudget, IsRefused, edited};
ghost use Rattle.lin_answers.specs.Keys.{AreKeys};
ghost use Rattle.lin_session.specs.Objects.{AreRight, split_in};
ghost use Rattle.lin_session.specs.inner.Objects.{marks_in};
ghost use Rattle.lin_session.specs.Marks.{AreExact, IsMarkedAs, IsNothingDue, IsToldOf};
ghost use Rattle.lin_session.specs.Refuting.{IsRefuted, IsUnrefuted, Refutes};
ghost use Rattle.lin_session.specs.Sessions.{IsAnswered, IsQuestion};
ghost use Rattle.lin_session.specs.Known.{count_before, mark_of};
ghost use Rattle.lin_session.specs.Leaving.{IsMarkAfter, IsTouched, low_after, rounded};

use crate::judgements::least_of;
use crate::kept::Objects;
use crate::refuted::Refuted;
use lin_answers::{Answer, Edit, EditFault, Present, Scope, Verdict, WholeHistory};
use lin_chain::{End, RefuteFault};
use lin_events::{Event, Item, Meter, OutOfMemory, Shape};
use lin_names::Names;
use lin_objects::{Kind, Kinds, KindsFault};
use lin_order::{Placed, Refutation};
use lin_wellformed::Scan;
use std::alloc::Global;
use std::marker::Model;
use std::mem;

/// How many events a history may have.
const EVENTS: usize = 1_000_000;

/// The greatest budget.
const BUDGET: u32 = 1_000_000;

/// The distance between places that an edit goes back to.
const SPACING: usize = 64;

/// A history with the kinds of its objects and a budget, edited and asked about in turn.
///
/// What was found of the history is kept, and an edit takes back only what it makes uncertain.
#[derive(Drop)]
pub struct Session {
    events: Vec<Event>,
    kinds: Kinds,
    budget: u32,
    scan: Scan,
    objects: Objects,
    meter: Meter,
    /// How many of the first events the scan need not look at again; none, where it has looked at all.
    low: Option<usize>,
}

impl Model for Session {
    ghost use Rattle.lin_session.specs.Objects.{known_keys};
    ghost use Rattle.lin_session.specs.Sessions.{Standing, IsUpToDate};

    ghost Value = { Standing };

    ghost view = { λ s. record { present = record { history = s.events.items; kinds = s.kinds; budget = s.budget }; meter = s.meter; low = s.low; marks = known_keys s.objects } };

    ghost invariant = { λ s. IsUpToDate (record { history = s.events.items; kinds = s.kinds; budget = s.budget }) s.low s.scan s.objects };
}

impl Session {
    /// The empty history, with all objects of one kind.
    ///
    /// The budget is how many configurations may be kept for one object: from 1 to 1,000,000, and else `BadBudget`.
    pub fn new(alloc: Global, default: Kind, budget: u32) -> Result<Session, EditFault>
        ensures opened { IfOk result (λ session. session.present ≡ record { history = []; kinds = same_for_all default; budget = budget }) }
        ensures settled { IfOk result (λ session. session.low ≡ None) }
        ensures marks { IfOk result (λ session. (key : ItemOf) → mark_of session.marks key ≡ unasked) }
        ensures unused { IfOk result (λ session. session.meter ≡ record { scans = 0; steps = 0; tries = 0 }) }
        ensures refused { (result ≡ Err EditFault.BadBudget) ↔ (IsBudget budget → ⊥) }
        ensures fault { IfErr result (λ fault. fault ≡ EditFault.BadBudget) }
    {
        let mut session = Session::begin(alloc, default, budget, Vec::new(alloc), false)?;
        session.low = None;
        Ok(session)
    }

    /// The history of these events, with all objects of one kind.
    ///
    /// The events are taken over as they are: no memory is taken for them, and nothing is looked at yet. The budget is from 1
    /// to 1,000,000, and else `BadBudget`; under such a budget, more than 1,000,000 events are `Full`. The first question is expected to be
    /// the only one: it is the faster for it, and a further event behind it the slower, once.
    pub fn of(
        alloc: Global,
        default: Kind,
        budget: u32,
        events: Vec<Event>,
    ) -> Result<Session, EditFault>
        ensures opened { IfOk result (λ session. session.present ≡ record { history = events.items; kinds = same_for_all default; budget = budget }) }
        ensures unsettled { IfOk result (λ session. session.low ≡ Some 0) }
        ensures marks { IfOk result (λ session. (key : ItemOf) → mark_of session.marks key ≡ unasked) }
        ensures unused { IfOk result (λ session. session.meter ≡ record { scans = 0; steps = 0; tries = 0 }) }
        ensures refused { (result ≡ Err EditFault.BadBudget) ↔ (IsBudget budget → ⊥) }
        ensures full { (result ≡ Err EditFault.Full) ↔ (IsBudget budget × (1000000 < length events.items)) }
        ensures fault { IfErr result (λ fault. (fault ≡ EditFault.BadBudget) ⊎ (fault ≡ EditFault.Full)) }
    {
        Session::begin(alloc, default, budget, events, true)
    }

    /// The history of these events; `once` says whether one question is expected.
    fn begin(
        alloc: Global,
        default: Kind,
        budget: u32,
        events: Vec<Event>,
        once: bool,
    ) -> Result<Session, EditFault>
        ensures opened { IfOk result (λ session. session.present ≡ record { history = events.items; kinds = same_for_all default; budget = budget }) }
        ensures unsettled { IfOk result (λ session. session.low ≡ Some 0) }
        ensures marks { IfOk result (λ session. (key : ItemOf) → mark_of session.marks key ≡ unasked) }
        ensures unused { IfOk result (λ session. session.meter ≡ record { scans = 0; steps = 0; tries = 0 }) }
        ensures refused { (result ≡ Err EditFault.BadBudget) ↔ (IsBudget budget → ⊥) }
        ensures full { (result ≡ Err EditFault.Full) ↔ (IsBudget budget × (1000000 < length events.items)) }
        ensures fault { IfErr result (λ fault. (fault ≡ EditFault.BadBudget) ⊎ (fault ≡ EditFault.Full)) }
    {
        if !is_budget(budget) {
            return Err(EditFault::BadBudget);
        }
        if events.len() > EVENTS {
            return Err(EditFault::Full);
        }
        Ok(Session {
            events,
            kinds: Kinds::new(alloc, default),
            budget,
            scan: Scan::new(alloc),
            objects: Objects::new(alloc, once),
            meter: Meter::new(),
            low: Some(0),
        })
    }

    /// How many events the history has.
    pub fn len(&self) -> usize
        ensures { result ≡ length self.now.present.history }
    {
        self.events.len()
    }

    /// The event at the position, if there is one.
    pub fn event(&self, at: usize) -> Option<&Event>
        ensures found { IfSome result (λ event. slice_get self.now.present.history at ≡ Some event.now) }
        ensures past { IfNone result (length self.now.present.history ≤ at) }
    {
        self.events.get(at)
    }

    /// The history as it stands.
    pub fn present(&self) -> Present<'_>
        ensures { result ≡ self.now.present }
    {
        Present::of(&self.events, &self.kinds, self.budget)
    }

    /// The history on the memory that it has; what was found of it goes.
    pub fn into_history(self) -> WholeHistory
        ensures { result ≡ self.present }
    {
        WholeHistory::of(self.events, self.kinds, self.budget)
    }

    /// The kind of the key's object.
    pub fn kind_of(&self, key: Item) -> Kind
        ensures { result ≡ kind_of self.now.present.kinds key }
    {
        self.kinds.of(key)
    }

    /// How many configurations may be kept for one object.
    pub fn budget(&self) -> u32
        ensures { result ≡ self.now.present.budget }
    {
        self.budget
    }

    /// Where the events of the key's object stand in the history, if it has some and all events are told apart, as they are behind a question
    /// about a well-formed history.
    pub fn positions(&self, key: Item) -> Option<&[usize]>
        ensures stand { IfSome result (λ picks. ArePositionsOf key self.now.present.history picks.now) }
        ensures none { IfNone result (self.now.low ≡ None → IsWellFormed (functions_of (kinds_in self.now.present)) self.now.present.history → part key self.now.present.history ≡ []) }
    {
        self.objects.positions(key, &self.events)
    }

    /// How much was done so far.
    pub fn meter(&self) -> &Meter
        ensures { result.now ≡ self.now.meter }
    {
        &self.meter
    }

    /// Takes out what was counted, so that work on the present history counts on it; `keep_meter` puts it back.
    pub fn take_meter(&mut self) -> Meter
        ensures counted { result ≡ self.old.meter }
        ensures others { self.new ≡ record self.old { meter = record { scans = 0; steps = 0; tries = 0 } } }
    {
        mem::replace(&mut self.meter, Meter::new())
    }

    /// Counts on from the meter.
    pub fn keep_meter(&mut self, meter: Meter)
        ensures { self.new ≡ record self.old { meter = meter } }
    {
        self.meter = meter;
    }

    /// Where it is told that an object is over, its events up to there have more configurations than the budget.
    pub fn overs_are_right(&self)
        ensures { (key : ItemOf) (at : ℕ) → IsToldOf self.now.present.history (mark_of self.now.marks) key (End.Over at) → IsEndOf (kinds_in self.now.present key) self.now.present.budget (part key self.now.present.history) (End.Over at) }
    {
        let _budget = self.budget;
    }

    /// The keys of the history, each once, in the order in which they are printed. Looks at each event, and takes memory for the keys
    /// alone, which it sorts.
    pub fn objects(&self, alloc: Global, names: &Names) -> Result<Vec<Item>, OutOfMemory>
        ensures { IfOk result (λ keys. AreKeys names.now self.now.present.history keys.items) }
    {
        self.present().objects(alloc, names)
    }

    /// Whether the present history is linearizable, for the scope.
    ///
    /// An object of the scope of which it is known how all its events end takes no step, no try and no memory, whatever was answered and
    /// whatever was edited elsewhere. For any other one its engines take in what is due to them: an event is a step for each engine that takes
    /// it in, and searches of all events are made again only where these have doubled, or where a witness can't go on. The time is linear in
    /// the number of objects of the scope.
    ///
    /// Of an object that has an engine of its own, as a set, it is never answered that it is undecided, with a budget from 1,024 on.
    ///
    /// `OutOfMemory` is answered only where memory was refused; what the engines took in till then stays.
    pub fn ask(&mut self, alloc: Global, scope: Scope) -> Result<Verdict, OutOfMemory>
        ensures verdict { IfOk result (IsVerdict self.old.present scope) }
        ensures told { IfOk result (IsMarkedAs self.old.present.history scope (mark_of self.new.marks)) }
        ensures decided { AreExact (kinds_in self.old.present) self.old.present.history scope → 1024 ≤ self.old.present.budget → (at : ℕ) → result ≢ Ok (Verdict.Undecided at) }
        ensures present { self.new.present ≡ self.old.present }
        ensures question { IsQuestion scope 0 self.old self.new }
        ensures answered { OnOk result (IsAnswered scope 0 self.old self.new) }
        ensures unsettled { OnErr result (self.new.low ≡ self.old.low) }
        ensures idle { IsNothingDue self.old.present.history scope (mark_of self.old.marks) → (self.new.meter.steps ≡ self.old.meter.steps) × (self.new.meter.tries ≡ self.old.meter.tries) }
        ensures known { self.old.low ≡ None → (IsWellFormed (functions_of (kinds_in self.old.present)) self.old.present.history → ⊥) → IsOk result }
        ensures ready { self.old.low ≡ None → IsNothingDue self.old.present.history scope (mark_of self.old.marks) → IsOk result }
    {
        match self
            .scan
            .settle(&self.events, &self.kinds, &mut self.meter)?
        {
            Shape::Good => {
                let found = self.objects.judge(
                    alloc,
                    scope,
                    &self.events,
                    &self.kinds,
                    self.budget,
                    &mut self.meter,
                )?;
                self.low = None;
                Ok(found)
            }
            Shape::Bad { at, cause } => {
                self.low = None;
                Ok(Verdict::IllFormed { at, cause })
            }
        }
    }

    /// As `ask`, with a legal order for a yes: the only memory that is taken where nothing has to be found.
    pub fn order(&mut self, alloc: Global, scope: Scope) -> Result<Answer, OutOfMemory>
        ensures answer { IfOk result (IsAnswer self.old.present scope) }
        ensures told { IfOk result (λ answer. IsMarkedAs self.old.present.history scope (mark_of self.new.marks) (verdict_of answer)) }
        ensures decided { AreExact (kinds_in self.old.present) self.old.present.history scope → 1024 ≤ self.old.present.budget → (at : ℕ) → result ≢ Ok (Answer.Undecided at) }
        ensures present { self.new.present ≡ self.old.present }
        ensures question { IsQuestion scope 0 self.old self.new }
        ensures answered { OnOk result (IsAnswered scope 0 self.old self.new) }
        ensures idle { IsNothingDue self.old.present.history scope (mark_of self.old.marks) → (self.new.meter.steps ≡ self.old.meter.steps) × (self.new.meter.tries ≡ self.old.meter.tries) }
        ensures known { self.old.low ≡ None → (IsWellFormed (functions_of (kinds_in self.old.present)) self.old.present.history → ⊥) → IsOk result }
        ensures ready { self.old.low ≡ None → IsNothingDue self.old.present.history scope (mark_of self.old.marks) → (IsVerdict self.old.present scope Verdict.Yes → ⊥) → IsOk result }
    {
        match self.ask(alloc, scope)? {
            Verdict::Yes => {
                let order = self.read_order(alloc, scope)?;
                Ok(Answer::Yes(order))
            }
            Verdict::No { prefix } => Ok(Answer::No { prefix }),
            Verdict::Undecided { at } => Ok(Answer::Undecided { at }),
            Verdict::IllFormed { at, cause } => Ok(Answer::IllFormed { at, cause }),
        }
    }

    /// A legal order for the scope, of which it is told that there is one.
    fn read_order(&self, alloc: Global, scope: Scope) -> Result<Vec<Placed>, OutOfMemory>
        requires yes { IsVerdict self.now.present scope verdicts.Yes }
        requires told { IsMarkedAs self.now.present.history scope (mark_of self.now.marks) verdicts.Yes }
        requires settled { self.now.low ≡ None }
        ensures { IfOk result (λ order. IsAnswer self.now.present scope (Answer.Yes order)) }
    {
        self.objects.order(alloc, scope, &self.events, &self.kinds)
    }

    /// A refutation of the key's object, or its answer where that isn't a no. It takes a step for each event of the object, besides those of
    /// `ask`.
    ///
    /// The sets speak of the object's events in the prefix of the answer. `TooLarge` is answered only for an object that is a
    /// no, and only where some prefix has more configurations of it than the budget; `OutOfMemory` as by `ask`; `NotDead` never.
    pub fn refute(&mut self, alloc: Global, key: Item) -> Result<Refuted, RefuteFault>
        ensures refuted { IfOk result (IsRefuted self.old.present key) }
        ensures unrefuted { IfErr result (IsUnrefuted self.old.present key) }
        ensures decided { AreExact (kinds_in self.old.present) self.old.present.history (Scope.Object key) → 1024 ≤ self.old.present.budget → (at : ℕ) → result ≢ Ok (Refuted.Not (Answer.Undecided at)) }
        ensures present { self.new.present ≡ self.old.present }
        ensures question { IsQuestion (Scope.Object key) (length (part key self.old.present.history)) self.old self.new }
        ensures answered { OnOk result (IsAnswered (Scope.Object key) (length (part key self.old.present.history)) self.old self.new) }
        ensures known { self.old.low ≡ None → (IsWellFormed (functions_of (kinds_in self.old.present)) self.old.present.history → ⊥) → IsOk result }
    {
        match self.order(alloc, Scope::Object(key)) {
            Ok(Answer::No { prefix }) => {
                let refutation = self.read_sets(alloc, key)?;
                Ok(Refuted::No { prefix, refutation })
            }
            Ok(answer) => Ok(Refuted::Not(answer)),
            Err(_) => Err(RefuteFault::OutOfMemory),
        }
    }

    /// Sets that refute the key's object, of which it is told that it is dead.
    fn read_sets(&mut self, alloc: Global, key: Item) -> Result<Refutation, RefuteFault>
        requires no { (n : ℕ) × IsVerdict self.old.present (Scope.Object key) (verdicts.No n) × IsMarkedAs self.old.present.history (Scope.Object key) (mark_of self.old.marks) (verdicts.No n) }
        requires settled { self.old.low ≡ None }
        ensures refuted { IfOk result (λ refutation. (n : ℕ) → IsVerdict self.old.present (Scope.Object key) (verdicts.No n) → IsMarkedAs self.old.present.history (Scope.Object key) (mark_of self.old.marks) (verdicts.No n)
            → Refutes self.old.present key n (sets_of refutation)) }
        ensures unrefuted { IfErr result (IsUnrefuted self.old.present key) }
        ensures same { self.new ≡ record self.old { meter = self.new.meter } }
        ensures steps { self.new.meter.steps ≤ self.old.meter.steps + length (part key self.old.present.history) }
        ensures scans { self.new.meter.scans ≡ self.old.meter.scans }
    {
        self.objects
            .refutation(alloc, key, &self.events, self.budget, &mut self.meter)
    }

    /// Makes the edit, or hands it back with why it is refused, and then nothing has changed.
    ///
    /// `Truncate` keeps at most as many events as there are; `Replace` and `Remove` name a position of the history: else
    /// `BadPosition`. `Full` is an event more than 1,000,000, or a named key more than 65,536. `BadBudget` is a budget that
    /// is not from 1 to 1,000,000. Only `Append` and `SetKind` take memory.
    pub fn apply(&mut self, edit: Edit) -> Result<(), (Edit, EditFault)>
        ensures made { OnOk result (self.new.present ≡ edited edit self.old.present) }
        ensures handed_back { IfErr result (λ refused. (refused.0 ≡ edit) × IsRefused edit self.old.present refused.1) }
        ensures refused { (fault : EditFault) → fault ≢ EditFault.OutOfMemory → IsRefused edit self.old.present fault → result ≡ Err (edit, fault) }
        ensures same { OnErr result (self.new ≡ self.old) }
        ensures idle { self.new.meter ≡ self.old.meter }
        ensures low { OnOk result (self.new.low ≡ low_after edit self.old.present self.old.low) }
        ensures marks { OnOk result ((x : ItemOf) → IsMarkAfter edit self.old.present x (mark_of self.old.marks x) (mark_of self.new.marks x)) }
    {
        match edit {
            Edit::Append(event) => match self.append(event) {
                Ok(()) => Ok(()),
                Err((event, fault)) => Err((Edit::Append(event), fault)),
            },
            Edit::Truncate(count) => match self.truncate(count) {
                Ok(()) => Ok(()),
                Err(fault) => Err((Edit::Truncate(count), fault)),
            },
            Edit::Replace(at, event) => match self.replace(at, event) {
                Ok(()) => Ok(()),
                Err((event, fault)) => Err((Edit::Replace(at, event), fault)),
            },
            Edit::Remove(at) => match self.remove(at) {
                Ok(()) => Ok(()),
                Err(fault) => Err((Edit::Remove(at), fault)),
            },
            Edit::SetKind(key, kind) => match self.set_kind(key, kind) {
                Ok(()) => Ok(()),
                Err(fault) => Err((Edit::SetKind(key, kind), fault)),
            },
            Edit::SetBudget(budget) => match self.set_budget(budget) {
                Ok(()) => Ok(()),
                Err(fault) => Err((Edit::SetBudget(budget), fault)),
            },
        }
    }

    fn append(&mut self, event: Event) -> Result<(), (Event, EditFault)>
        ensures made { OnOk result (self.new.present ≡ record self.old.present { history = self.old.present.history ++ event ∷ [] }) }
        ensures full { (result ≡ Err (event, EditFault.Full)) ↔ (1000000 ≤ length self.old.present.history) }
        ensures handed_back { IfErr result (λ refused. (refused.0 ≡ event) × ((refused.1 ≡ EditFault.Full) ⊎ (refused.1 ≡ EditFault.OutOfMemory))) }
        ensures same { OnErr result (self.new ≡ self.old) }
        ensures idle { self.new.meter ≡ self.old.meter }
        ensures low { OnOk result (self.new.low ≡ low_after (Edit.Append event) self.old.present self.old.low) }
        ensures marks { OnOk result ((x : ItemOf) → IsMarkAfter (Edit.Append event) self.old.present x (mark_of self.old.marks x) (mark_of self.new.marks x)) }
    {
        if self.events.len() >= EVENTS {
            return Err((event, EditFault::Full));
        }
        if self.events.reserve(1).is_err() {
            return Err((event, EditFault::OutOfMemory));
        }
        self.scan.cut(self.events.len());
        self.low = least_of(self.low, Some(self.events.len()));
        self.objects.put_last(event.key);
        self.events.push_reserved(event);
        Ok(())
    }

    fn truncate(&mut self, count: usize) -> Result<(), EditFault>
        ensures made { OnOk result (self.new.present ≡ record self.old.present { history = take count self.old.present.history }) }
        ensures refused { (result ≡ Err EditFault.BadPosition) ↔ (length self.old.present.history < count) }
        ensures fault { IfErr result (λ fault. fault ≡ EditFault.BadPosition) }
        ensures same { OnErr result (self.new ≡ self.old) }
        ensures idle { self.new.meter ≡ self.old.meter }
        ensures low { OnOk result (self.new.low ≡ low_after (Edit.Truncate count) self.old.present self.old.low) }
        ensures marks { OnOk result ((x : ItemOf) → IsMarkAfter (Edit.Truncate count) self.old.present x (mark_of self.old.marks x) (mark_of self.new.marks x)) }
    {
        if count > self.events.len() {
            return Err(EditFault::BadPosition);
        }
        self.scan.cut(count);
        self.low = least_of(self.low, Some(round_down(count)));
        cut_back(&mut self.events, &mut self.objects, count);
        Ok(())
    }

    fn replace(&mut self, at: usize, event: Event) -> Result<(), (Event, EditFault)>
        ensures made { OnOk result (self.new.present ≡ record self.old.present { history = slice_set self.old.present.history at event }) }
        ensures refused { (result ≡ Err (event, EditFault.BadPosition)) ↔ (length self.old.present.history ≤ at) }
        ensures handed_back { IfErr result (λ refused. (refused.0 ≡ event) × (refused.1 ≡ EditFault.BadPosition)) }
        ensures same { OnErr result (self.new ≡ self.old) }
        ensures idle { self.new.meter ≡ self.old.meter }
        ensures low { OnOk result (self.new.low ≡ low_after (Edit.Replace at event) self.old.present self.old.low) }
        ensures marks { OnOk result ((x : ItemOf) → IsMarkAfter (Edit.Replace at event) self.old.present x (mark_of self.old.marks x) (mark_of self.new.marks x)) }
    {
        if at >= self.events.len() {
            return Err((event, EditFault::BadPosition));
        }
        self.low = least_of(self.low, Some(round_down(at)));
        // The history stays as it is, and so does what is known of it.
        if self.events[at] == event {
            return Ok(());
        }
        self.scan.cut(at);
        self.objects.replace(&self.events, at, &event);
        self.events[at] = event;
        Ok(())
    }

    fn remove(&mut self, at: usize) -> Result<(), EditFault>
        ensures made { OnOk result (self.new.present ≡ record self.old.present { history = remove self.old.present.history at }) }
        ensures refused { (result ≡ Err EditFault.BadPosition) ↔ (length self.old.present.history ≤ at) }
        ensures fault { IfErr result (λ fault. fault ≡ EditFault.BadPosition) }
        ensures same { OnErr result (self.new ≡ self.old) }
        ensures idle { self.new.meter ≡ self.old.meter }
        ensures low { OnOk result (self.new.low ≡ low_after (Edit.Remove at) self.old.present self.old.low) }
        ensures marks { OnOk result ((x : ItemOf) → IsMarkAfter (Edit.Remove at) self.old.present x (mark_of self.old.marks x) (mark_of self.new.marks x)) }
    {
        if at >= self.events.len() {
            return Err(EditFault::BadPosition);
        }
        self.scan.cut(at);
        self.low = least_of(self.low, Some(round_down(at)));
        self.objects.leave(&self.events, at);
        let _ = self.events.remove(at);
        Ok(())
    }

    fn set_kind(&mut self, key: Item, kind: Kind) -> Result<(), EditFault>
        ensures made { OnOk result (self.new.present ≡ record self.old.present { kinds = with_kind key kind self.old.present.kinds }) }
        ensures full { (result ≡ Err EditFault.Full) ↔ ((named_count self.old.present.kinds ≡ 65536) × (is_named self.old.present.kinds key ≡ false)) }
        ensures fault { IfErr result (λ fault. (fault ≡ EditFault.Full) ⊎ (fault ≡ EditFault.OutOfMemory)) }
        ensures same { OnErr result (self.new ≡ self.old) }
        ensures idle { self.new.meter ≡ self.old.meter }
        ensures low { OnOk result (self.new.low ≡ low_after (Edit.SetKind key kind) self.old.present self.old.low) }
        ensures marks { OnOk result ((x : ItemOf) → IsMarkAfter (Edit.SetKind key kind) self.old.present x (mark_of self.old.marks x) (mark_of self.new.marks x)) }
    {
        match self.kinds.set(key, kind) {
            Ok(()) => {}
            Err(KindsFault::Full) => return Err(EditFault::Full),
            Err(KindsFault::OutOfMemory) => return Err(EditFault::OutOfMemory),
        }
        // Which functions the object has decides which of its invocations are bad.
        self.scan.cut(0);
        self.low = Some(0);
        self.objects.rekind(key, kind);
        Ok(())
    }

    fn set_budget(&mut self, budget: u32) -> Result<(), EditFault>
        ensures made { OnOk result (self.new.present ≡ record self.old.present { budget = budget }) }
        ensures refused { (result ≡ Err EditFault.BadBudget) ↔ (IsBudget budget → ⊥) }
        ensures fault { IfErr result (λ fault. fault ≡ EditFault.BadBudget) }
        ensures same { OnErr result (self.new ≡ self.old) }
        ensures idle { self.new.meter ≡ self.old.meter }
        ensures low { OnOk result (self.new.low ≡ low_after (Edit.SetBudget budget) self.old.present self.old.low) }
        ensures marks { OnOk result ((x : ItemOf) → IsMarkAfter (Edit.SetBudget budget) self.old.present x (mark_of self.old.marks x) (mark_of self.new.marks x)) }
    {
        if !is_budget(budget) {
            return Err(EditFault::BadBudget);
        }
        self.objects.rebudget(self.budget, budget);
        self.budget = budget;
        Ok(())
    }
}

/// Takes the last events out, one by one, until no more than so many are left.
fn cut_back(events: &mut Vec<Event>, objects: &mut Objects, count: usize)
    requires { split_in objects.old ≤ length events.old.items }
    ensures left { events.new.items ≡ take count events.old.items }
    ensures right { (kinds : ItemOf → KindOf) (budget : ℕ) → AreRight objects.old kinds budget events.old.items → AreRight objects.new kinds budget events.new.items }
    ensures marks { (kinds : ItemOf → KindOf) (budget : ℕ) → AreRight objects.old kinds budget events.old.items → (x : ItemOf) → IsTouched (nat_lt (count_before events.old.items x count) (length (part x events.old.items))) (count_before events.old.items x count) (marks_in objects.old x) (marks_in objects.new x) }
{
    while events.len() > count {
        drop_last(events, objects);
    }
}

/// Takes the last event out.
fn drop_last(events: &mut Vec<Event>, objects: &mut Objects)
    requires some { 0 < length events.old.items }
    requires within { split_in objects.old ≤ length events.old.items }
    ensures left { events.new.items ≡ take (length events.old.items - 1) events.old.items }
    ensures within { split_in objects.new ≤ length events.new.items }
    ensures right { (kinds : ItemOf → KindOf) (budget : ℕ) → AreRight objects.old kinds budget events.old.items → AreRight objects.new kinds budget events.new.items }
    ensures marks { (kinds : ItemOf → KindOf) (budget : ℕ) → AreRight objects.old kinds budget events.old.items
        → (x : ItemOf) → IsTouched (is_of_key events.old.items x (length events.old.items - 1)) (count_before events.old.items x (length events.old.items - 1)) (marks_in objects.old x) (marks_in objects.new x) }
{
    let last = events.len() - 1;
    objects.leave(events, last);
    events.truncate(last);
}

/// Whether the budget can be set.
fn is_budget(budget: u32) -> bool
    ensures { (result ≡ true) ↔ IsBudget budget }
{
    1 <= budget && budget <= BUDGET
}

/// The greatest multiple of the spacing that is at most the place.
fn round_down(place: usize) -> usize
    ensures { result ≡ rounded place }
{
    place / SPACING * SPACING
}
