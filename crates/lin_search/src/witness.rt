//! A legal order, or a certificate, as a witness: found by a search that promises nothing, and checked.
//!
//! What goes through events counts a step for each of them: the search for an order, the check of it, the search for a failure, and the
//! check of the certificate that it found. The check of an order counts a try for each operation of it.
ghost use Rattle.lin_events.specs.declared.items.Item.{Item as ItemOf};
ghost use Rattle.lin_events.specs.declared.calls.Name.{Name as NameOf};
ghost use Rattle.lin_events.specs.WellFormed.{IsWellFormed};
ghost use Rattle.std.specs.Prelude.{◌≡◌, ◌≢◌, ◌<◌, ◌≤◌, ◌⊎◌, ◌+◌, ◌*◌, ◌∷◌, ◌++◌, [], Bool, None, Ok, All, IfOk, IfSome, IsTrue, OnOk, length, take};
ghost use Rattle.lin_events.specs.Meters.{ticked};
ghost use Rattle.lin_objects.specs.declared.kinds.Kind.TheVariants.{Fifo, Mutex, Set};
ghost use Rattle.lin_objects.specs.Kinds.{kind_of, same_for_all};
ghost use Rattle.lin_order.specs.Linearizable.{IsDeadAt, IsLegalOrder, IsLegalOrderAs, IsLinearizableAs};
ghost use Rattle.lin_order.specs.Parts.{events_at};

use crate::bags::bag_order;
use crate::depth_first::{depth_first_order, tick_tries};
use crate::queues::queue_order;
use lin_certificates::{Certificate, bag_failure, certificates_exclude_orders, certifies};
use lin_events::{Event, Item, Meter, OutOfMemory, beginnings_are_well_formed};
use lin_objects::{Kind, Kinds};
use lin_order::{Placed, check_order};
use lin_queues::{QueueFinding, failing_event, overtaken_ranks_are_illegal, rank_failure};
use lin_registers::{order_ahead, register_failure, register_order};
use std::alloc::Global;

/// Which search for an order is asked.
#[derive(Clone, Copy)]
pub enum Guide {
    /// The one of registers that keeps few configurations. It is quick, and finds an order of most recordings.
    Ahead,
    /// The one that the kind has.
    OfKind,
    /// The depth-first one.
    DepthFirst,
    /// The first of these that finds one.
    Any,
}

/// So many events more were gone through.
fn tick_steps(meter: &mut Meter, count: usize)
    ensures counted { meter.new ≡ record meter.old { steps = ticked meter.old.steps count } }
    ensures least { meter.old.steps ≤ meter.new.steps }
    ensures most { meter.new.steps ≤ meter.old.steps + count }
{
    let before = meter.steps();
    for _ in 0..count {
        meter.tick_step();
    }
    prove!(before <= meter.steps());
}

/// Puts the event at the place last, if there is one.
fn append_at(
    alloc: Global,
    own: &mut Vec<Event>,
    events: &[Event],
    at: usize,
) -> Result<(), OutOfMemory>
    ensures { OnOk result (own.new.items ≡ own.old.items ++ events_at events.now (at ∷ [])) }
{
    if let Some(event) = events.get(at) {
        own.push(event.copy(alloc)?)?;
    }
    Ok(())
}

/// The events at the places, on their own memory, for a search to go through. A step is counted for each.
fn pick_events(
    alloc: Global,
    events: &[Event],
    picks: &[usize],
    meter: &mut Meter,
) -> Result<Vec<Event>, OutOfMemory>
    ensures own { IfOk result (λ own. own.items ≡ events_at events.now picks.now) }
    ensures counted { IfOk result (λ _. meter.new.steps ≡ ticked meter.old.steps (length picks.now)) }
    ensures steps { meter.new.steps ≤ meter.old.steps + length picks.now }
    ensures others { meter.new ≡ record meter.old { steps = meter.new.steps } }
{
    let mut own = Vec::with_capacity(alloc, picks.len())?;
    for pick in picks {
        meter.tick_step();
        append_at(alloc, &mut own, events, *pick)?;
    }
    Ok(own)
}

/// An order of the events of an object of the kind, if the search that the kind has finds one. The steps of the search aren't counted here.
fn own_order(
    alloc: Global,
    kind: Kind,
    events: &[Event],
    meter: &mut Meter,
) -> Result<Option<Vec<Placed>>, OutOfMemory>
    ensures tries { meter.old.tries ≤ meter.new.tries }
    ensures others { meter.new ≡ record meter.old { tries = meter.new.tries } }
{
    match kind {
        Kind::Register | Kind::CasRegister => register_order(alloc, events, meter),
        Kind::Fifo => queue_order(alloc, events),
        Kind::Bag => bag_order(alloc, events),
        Kind::Set | Kind::Mutex => Ok(None),
    }
}

/// An order of the events of a register, if the search that keeps few configurations finds one. Of other kinds it is none.
fn quick_order(
    alloc: Global,
    kind: Kind,
    events: &[Event],
    meter: &mut Meter,
) -> Result<Option<Vec<Placed>>, OutOfMemory>
    ensures tries { meter.old.tries ≤ meter.new.tries }
    ensures others { meter.new ≡ record meter.old { tries = meter.new.tries } }
{
    match kind {
        Kind::Register | Kind::CasRegister => order_ahead(alloc, events, meter),
        Kind::Fifo | Kind::Bag | Kind::Set | Kind::Mutex => Ok(None),
    }
}

/// An order of the events of an object of the kind, if the depth-first search finds one, with a try counted for each call that was tried.
fn deep_order(
    alloc: Global,
    kind: Kind,
    events: &[Event],
    meter: &mut Meter,
) -> Result<Option<Vec<Placed>>, OutOfMemory>
    ensures tries { meter.old.tries ≤ meter.new.tries }
    ensures placed { IfOk result (λ found. IfSome found (λ order. ticked meter.old.tries (length order.items) ≤ meter.new.tries)) }
    ensures others { meter.new ≡ record meter.old { tries = meter.new.tries } }
{
    depth_first_order(alloc, kind, events, meter)
}

/// The same of the guide.
fn ask_guide(
    alloc: Global,
    kind: Kind,
    guide: Guide,
    events: &[Event],
    meter: &mut Meter,
) -> Result<Option<Vec<Placed>>, OutOfMemory>
    ensures tries { meter.old.tries ≤ meter.new.tries }
    ensures others { meter.new ≡ record meter.old { tries = meter.new.tries } }
{
    match guide {
        Guide::Ahead => quick_order(alloc, kind, events, meter),
        Guide::OfKind => own_order(alloc, kind, events, meter),
        Guide::DepthFirst => deep_order(alloc, kind, events, meter),
        Guide::Any => any_order(alloc, kind, events, meter),
    }
}

/// The same of all guides, one after the other.
fn any_order(
    alloc: Global,
    kind: Kind,
    events: &[Event],
    meter: &mut Meter,
) -> Result<Option<Vec<Placed>>, OutOfMemory>
    ensures tries { meter.old.tries ≤ meter.new.tries }
    ensures others { meter.new ≡ record meter.old { tries = meter.new.tries } }
{
    if let Some(order) = quick_order(alloc, kind, events, meter)? {
        return Ok(Some(order));
    }
    if let Some(order) = own_order(alloc, kind, events, meter)? {
        return Ok(Some(order));
    }
    deep_order(alloc, kind, events, meter)
}

/// Whether all events are of the key.
fn are_of(events: &[Event], key: Item) -> bool
    ensures { IsTrue result → All (λ event. event.key ≡ key) events.now }
{
    for event in events {
        if event.key != key {
            return false;
        }
    }
    true
}

/// Whether the order is a legal one of the events.
fn is_legal_order(
    alloc: Global,
    kind: Kind,
    events: &[Event],
    order: &[Placed],
    meter: &mut Meter,
) -> Result<bool, OutOfMemory>
    ensures legal { IfOk result (λ legal. IsTrue legal → IsLegalOrder (kind_of (same_for_all kind)) events.now order.now) }
    ensures counted { meter.new ≡ record meter.old { steps = ticked meter.old.steps (length events.now); tries = ticked meter.old.tries (length order.now) } }
    ensures least { meter.old.steps ≤ meter.new.steps }
    ensures most { meter.new.steps ≤ meter.old.steps + length events.now }
{
    tick_steps(meter, events.len());
    tick_tries(meter, order.len());
    check_order(alloc, events, &Kinds::new(alloc, kind), order)
}

/// A legal order of the events of an object of the kind, which all are of one key, if a search finds one. Of the steps those of the check
/// are counted, if there is one.
fn show_order(
    alloc: Global,
    kind: Kind,
    guide: Guide,
    events: &[Event],
    meter: &mut Meter,
) -> Result<Option<Vec<Placed>>, OutOfMemory>
    ensures legal { IfOk result (λ found. IfSome found (λ order. IsLegalOrderAs kind events.now order.items)) }
    ensures counted { IfOk result (λ found. IfSome found (λ order. meter.new.steps ≡ ticked meter.old.steps (length events.now))) }
    ensures tried { IfOk result (λ found. IfSome found (λ order. ticked meter.old.tries (length order.items) ≤ meter.new.tries)) }
    ensures least { meter.old.steps ≤ meter.new.steps }
    ensures most { meter.new.steps ≤ meter.old.steps + length events.now }
    ensures scans { meter.new.scans ≡ meter.old.scans }
{
    let key = events.first().map_or(Item::Int(0), |event| event.key);
    if !are_of(events, key) {
        return Ok(None);
    }
    let Some(order) = ask_guide(alloc, kind, guide, events, meter)? else {
        return Ok(None);
    };
    let is_legal = is_legal_order(alloc, kind, events, &order, meter)?;
    if !is_legal {
        return Ok(None);
    }
    Ok(Some(order))
}

/// The same of the events at the places, with all steps counted.
fn show_order_of(
    alloc: Global,
    kind: Kind,
    guide: Guide,
    events: &[Event],
    picks: &[usize],
    meter: &mut Meter,
) -> Result<Option<Vec<Placed>>, OutOfMemory>
    ensures legal { IfOk result (λ found. IfSome found (λ order. IsLegalOrderAs kind (events_at events.now picks.now) order.items)) }
    ensures counted { IfOk result (λ found. IfSome found (λ order. meter.new.steps ≡ ticked meter.old.steps (length picks.now + length (events_at events.now picks.now)))) }
    ensures tried { IfOk result (λ found. IfSome found (λ order. ticked meter.old.tries (length order.items) ≤ meter.new.tries)) }
    ensures searched { IfOk result (λ found. ticked meter.old.steps (length picks.now) ≤ meter.new.steps) }
    ensures steps { meter.new.steps ≤ meter.old.steps + 2 * length picks.now }
    ensures scans { meter.new.scans ≡ meter.old.scans }
{
    if are_all(events, picks) {
        return show_order_of_all(alloc, kind, guide, events, picks, meter);
    }
    let own = pick_events(alloc, events, picks, meter)?;
    show_order(alloc, kind, guide, own.as_slice(), meter)
}

/// Whether the places are those of all events, one after the other.
fn are_all(events: &[Event], picks: &[usize]) -> bool
    ensures { IsTrue result → events_at events.now picks.now ≡ events.now }
{
    if events.len() != picks.len() {
        return false;
    }
    for (at, pick) in picks.iter().enumerate() {
        if *pick != at {
            return false;
        }
    }
    true
}

/// The same where the places are those of all events: these needn't be copied.
fn show_order_of_all(
    alloc: Global,
    kind: Kind,
    guide: Guide,
    events: &[Event],
    picks: &[usize],
    meter: &mut Meter,
) -> Result<Option<Vec<Placed>>, OutOfMemory>
    requires all { events_at events.now picks.now ≡ events.now }
    ensures legal { IfOk result (λ found. IfSome found (λ order. IsLegalOrderAs kind (events_at events.now picks.now) order.items)) }
    ensures counted { IfOk result (λ found. IfSome found (λ order. meter.new.steps ≡ ticked meter.old.steps (length picks.now + length (events_at events.now picks.now)))) }
    ensures tried { IfOk result (λ found. IfSome found (λ order. ticked meter.old.tries (length order.items) ≤ meter.new.tries)) }
    ensures searched { IfOk result (λ found. ticked meter.old.steps (length picks.now) ≤ meter.new.steps) }
    ensures steps { meter.new.steps ≤ meter.old.steps + 2 * length picks.now }
    ensures scans { meter.new.scans ≡ meter.old.scans }
{
    tick_steps(meter, picks.len());
    show_order(alloc, kind, guide, events, meter)
}

/// A legal order of the events at the places, which all are of one key, if one is found. Of events of several keys none is.
///
/// Orders of registers, queues and bags are looked for. Takes time and memory linear in the events, apart from how many operations are open
/// at a time, and from the time to sort them.
/// `OutOfMemory` is answered only where memory was refused. The order names operations by their places among these events.
///
/// The search counts a step for each place, and the check of the order that it found one more for each event there. A call is tried for
/// each operation that is placed in a beginning of an order of a register, where the depth-first search tries it, and for each operation of an
/// order that is checked.
pub fn finds_order(
    alloc: Global,
    kind: Kind,
    guide: Guide,
    events: &[Event],
    picks: &[usize],
    meter: &mut Meter,
) -> Result<Option<Vec<Placed>>, OutOfMemory>
    ensures legal { IfOk result (λ found. IfSome found (λ order. IsLegalOrderAs kind (events_at events.now picks.now) order.items)) }
    ensures counted { IfOk result (λ found. IfSome found (λ order. meter.new.steps ≡ ticked meter.old.steps (length picks.now + length (events_at events.now picks.now)))) }
    ensures tried { IfOk result (λ found. IfSome found (λ order. ticked meter.old.tries (length order.items) ≤ meter.new.tries)) }
    ensures searched { kind ≢ Set → kind ≢ Mutex → IfOk result (λ found. ticked meter.old.steps (length picks.now) ≤ meter.new.steps) }
    ensures unsearched { kind ≡ Set ⊎ kind ≡ Mutex → (result ≡ Ok None) × (meter.new ≡ meter.old) }
    ensures steps { meter.new.steps ≤ meter.old.steps + 2 * length picks.now }
    ensures scans { meter.new.scans ≡ meter.old.scans }
{
    match kind {
        Kind::Register | Kind::CasRegister | Kind::Fifo | Kind::Bag => {
            show_order_of(alloc, kind, guide, events, picks, meter)
        }
        Kind::Set | Kind::Mutex => Ok(None),
    }
}

/// A certificate of an object of the kind, if a search finds one, and the event up to which it holds.
fn sought_as(
    alloc: Global,
    kind: Kind,
    events: &[Event],
) -> Result<Option<(usize, Certificate)>, OutOfMemory> {
    match kind {
        Kind::Register | Kind::CasRegister => register_failure(alloc, events),
        Kind::Bag => bag_failure(alloc, events),
        Kind::Fifo | Kind::Set | Kind::Mutex => Ok(None),
    }
}

/// The event up to which an object of the kind has no legal order, if a certificate is found. The check of it is counted, and not the search.
fn conflicting(
    alloc: Global,
    kind: Kind,
    events: &[Event],
    meter: &mut Meter,
) -> Result<Option<usize>, OutOfMemory>
    ensures inside { IfOk result (λ found. IfSome found (λ at. at < length events.now)) }
    ensures refuted { IfOk result (λ found. IfSome found (λ at. IsLinearizableAs kind (take (at + 1) events.now) → ⊥)) }
    ensures counted { IfOk result (λ found. IfSome found (λ at. meter.new.steps ≡ ticked meter.old.steps (at + 1))) }
    ensures least { meter.old.steps ≤ meter.new.steps }
    ensures most { meter.new.steps ≤ meter.old.steps + length events.now }
    ensures scans { meter.new.scans ≡ meter.old.scans }
{
    certificates_exclude_orders();
    let Some((at, certificate)) = sought_as(alloc, kind, events)? else {
        return Ok(None);
    };
    if at >= events.len() {
        return Ok(None);
    }
    tick_steps(meter, at + 1);
    if certifies(alloc, &events[..at + 1], kind, &certificate)? {
        Ok(Some(at))
    } else {
        Ok(None)
    }
}

/// One of the first so many events up to which a queue's debts can't be paid, if they come to that.
fn find_debt(alloc: Global, events: &[Event], until: usize) -> Result<Option<usize>, OutOfMemory>
    requires { until ≤ length events.now }
    ensures inside { IfOk result (λ found. IfSome found (λ at. at < until)) }
    ensures refuted { (functions : ItemOf → NameOf → Bool) → IsWellFormed functions events.now → IfOk result (λ found. IfSome found (λ at. IsLinearizableAs Fifo (take (at + 1) events.now) → ⊥)) }
{
    beginnings_are_well_formed();
    let mut unread = Meter::new();
    match failing_event(alloc, &events[..until], &mut unread)? {
        QueueFinding::Fails(at) => Ok(Some(at)),
        QueueFinding::Stands | QueueFinding::GaveUp => Ok(None),
    }
}

/// The event up to which a queue's item was overtaken by ranks, or its debts can't be paid: the earlier one.
fn queue_failure(alloc: Global, events: &[Event]) -> Result<Option<usize>, OutOfMemory>
    ensures inside { IfOk result (λ found. IfSome found (λ at. at < length events.now)) }
    ensures refuted { (functions : ItemOf → NameOf → Bool) → IsWellFormed functions events.now → IfOk result (λ found. IfSome found (λ at. IsLinearizableAs Fifo (take (at + 1) events.now) → ⊥)) }
{
    overtaken_ranks_are_illegal();
    let Some(last) = rank_failure(alloc, events)? else {
        return find_debt(alloc, events, events.len());
    };
    match find_debt(alloc, events, last)? {
        Some(at) => Ok(Some(at)),
        None => Ok(Some(last)),
    }
}

/// The same. A step is counted for each event up to and with that one, or for all events, if there is none.
fn find_queue_failure(
    alloc: Global,
    events: &[Event],
    meter: &mut Meter,
) -> Result<Option<usize>, OutOfMemory>
    ensures inside { IfOk result (λ found. IfSome found (λ at. at < length events.now)) }
    ensures refuted { (functions : ItemOf → NameOf → Bool) → IsWellFormed functions events.now → IfOk result (λ found. IfSome found (λ at. IsLinearizableAs Fifo (take (at + 1) events.now) → ⊥)) }
    ensures counted { IfOk result (λ found. IfSome found (λ at. meter.new.steps ≡ ticked meter.old.steps (at + 1))) }
    ensures least { meter.old.steps ≤ meter.new.steps }
    ensures most { meter.new.steps ≤ meter.old.steps + length events.now }
    ensures scans { meter.new.scans ≡ meter.old.scans }
{
    let Some(at) = queue_failure(alloc, events)? else {
        let count = events.len();
        tick_steps(meter, count);
        return Ok(None);
    };
    tick_steps(meter, at + 1);
    Ok(Some(at))
}

/// The event up to which an object of the kind has no legal order, if one is found.
fn find_refuted(
    alloc: Global,
    kind: Kind,
    events: &[Event],
    meter: &mut Meter,
) -> Result<Option<usize>, OutOfMemory>
    ensures inside { IfOk result (λ found. IfSome found (λ at. at < length events.now)) }
    ensures refuted { (functions : ItemOf → NameOf → Bool) → IsWellFormed functions events.now → IfOk result (λ found. IfSome found (λ at. IsLinearizableAs kind (take (at + 1) events.now) → ⊥)) }
    ensures counted { IfOk result (λ found. IfSome found (λ at. meter.new.steps ≡ ticked meter.old.steps (at + 1))) }
    ensures least { meter.old.steps ≤ meter.new.steps }
    ensures most { meter.new.steps ≤ meter.old.steps + length events.now }
    ensures scans { meter.new.scans ≡ meter.old.scans }
{
    match kind {
        Kind::Fifo => find_queue_failure(alloc, events, meter),
        _ => conflicting(alloc, kind, events, meter),
    }
}

/// The event up to and with which the events at the places have no legal order, for an object of the kind, if one is found: those before it
/// may have one or not. It is right of well-formed events.
///
/// The search counts a step for each place, and what shows that there is no legal order one for each event up to and with the one that is found.
pub fn finds_conflict(
    alloc: Global,
    kind: Kind,
    events: &[Event],
    picks: &[usize],
    meter: &mut Meter,
) -> Result<Option<usize>, OutOfMemory>
    ensures refuted { (functions : ItemOf → NameOf → Bool) → IsWellFormed functions (events_at events.now picks.now) → IfOk result (λ found. IfSome found (λ at. IsLinearizableAs kind (take (at + 1) (events_at events.now picks.now)) → ⊥)) }
    ensures counted { IfOk result (λ found. IfSome found (λ at. meter.new.steps ≡ ticked meter.old.steps (length picks.now + (at + 1)))) }
    ensures steps { meter.new.steps ≤ meter.old.steps + 2 * length picks.now }
    ensures scans { meter.new.scans ≡ meter.old.scans }
{
    let own = pick_events(alloc, events, picks, meter)?;
    find_refuted(alloc, kind, own.as_slice(), meter)
}

/// The event at which an object of the kind fails, if one is found up to which it has no legal order, and a legal order of the events before it.
fn find_failing(
    alloc: Global,
    kind: Kind,
    events: &[Event],
    meter: &mut Meter,
) -> Result<Option<usize>, OutOfMemory>
    ensures dead { (functions : ItemOf → NameOf → Bool) → IsWellFormed functions events.now → IfOk result (λ found. IfSome found (λ at. IsDeadAt kind events.now at)) }
    ensures counted { IfOk result (λ found. IfSome found (λ at. meter.new.steps ≡ ticked meter.old.steps (3 * at + 1))) }
    ensures least { meter.old.steps ≤ meter.new.steps }
    ensures most { meter.new.steps ≤ meter.old.steps + 3 * length events.now }
    ensures scans { meter.new.scans ≡ meter.old.scans }
{
    let Some(at) = find_refuted(alloc, kind, events, meter)? else {
        return Ok(None);
    };
    tick_steps(meter, at);
    let Some(_) = show_order(alloc, kind, Guide::Any, &events[..at], meter)? else {
        return Ok(None);
    };
    Ok(Some(at))
}

/// The same of the events at the places, with all steps counted.
fn find_failing_of(
    alloc: Global,
    kind: Kind,
    events: &[Event],
    picks: &[usize],
    meter: &mut Meter,
) -> Result<Option<usize>, OutOfMemory>
    ensures dead { (functions : ItemOf → NameOf → Bool) → IsWellFormed functions (events_at events.now picks.now) → IfOk result (λ found. IfSome found (λ at. IsDeadAt kind (events_at events.now picks.now) at)) }
    ensures counted { IfOk result (λ found. IfSome found (λ at. meter.new.steps ≡ ticked meter.old.steps (length picks.now + (3 * at + 1)))) }
    ensures searched { IfOk result (λ found. ticked meter.old.steps (length picks.now) ≤ meter.new.steps) }
    ensures steps { meter.new.steps ≤ meter.old.steps + 4 * length picks.now }
    ensures scans { meter.new.scans ≡ meter.old.scans }
{
    let own = pick_events(alloc, events, picks, meter)?;
    find_failing(alloc, kind, own.as_slice(), meter)
}

/// Which of the events at the places is the one at which the shortest beginning without a legal order ends, if one is found. It is right of well-formed
/// events.
///
/// Looked at are registers, queues and bags. Takes time and memory linear in the events, apart from how many operations are open at a time.
/// `OutOfMemory` is answered only where memory was refused.
///
/// The search counts a step for each place. Where it finds an event, what shows that there is no legal order up to it counts one for each event up to and with it, and
/// the order of those before it two for each: one for its search, and one for its check.
pub fn finds_failure(
    alloc: Global,
    kind: Kind,
    events: &[Event],
    picks: &[usize],
    meter: &mut Meter,
) -> Result<Option<usize>, OutOfMemory>
    ensures dead { (functions : ItemOf → NameOf → Bool) → IsWellFormed functions (events_at events.now picks.now) → IfOk result (λ found. IfSome found (λ at. IsDeadAt kind (events_at events.now picks.now) at)) }
    ensures counted { IfOk result (λ found. IfSome found (λ at. meter.new.steps ≡ ticked meter.old.steps (length picks.now + (3 * at + 1)))) }
    ensures searched { kind ≢ Set → kind ≢ Mutex → IfOk result (λ found. ticked meter.old.steps (length picks.now) ≤ meter.new.steps) }
    ensures unsearched { kind ≡ Set ⊎ kind ≡ Mutex → (result ≡ Ok None) × (meter.new ≡ meter.old) }
    ensures steps { meter.new.steps ≤ meter.old.steps + 4 * length picks.now }
    ensures scans { meter.new.scans ≡ meter.old.scans }
{
    match kind {
        Kind::Register | Kind::CasRegister | Kind::Fifo | Kind::Bag => {
            find_failing_of(alloc, kind, events, picks, meter)
        }
        Kind::Set | Kind::Mutex => Ok(None),
    }
}
