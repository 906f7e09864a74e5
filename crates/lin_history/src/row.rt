//! A list or vector that is read map by map.
ghost use Rattle.std.specs.Prelude.{◌≡◌, ◌<◌, ◌≤◌, ◌++◌, [], ◌∷◌, Bool, ℕ, List, Ok, IfOk, IfSome, OnOk, OnErr, length};
ghost use Rattle.lin_edn.specs.Rows.{row_end, row_levels};
ghost use Rattle.lin_edn.specs.Value.{Value, values_of};
ghost use Rattle.lin_edn.specs.View.{view};
ghost use Rattle.lin_names.specs.Names.{Begins};
ghost use Rattle.lin_history.specs.Reading.{Reading, IsReading};
ghost use Rattle.lin_history.specs.Stream.{told_by};
ghost use Rattle.lin_history.specs.inner.Reads.{IsTold, IsToldOn, IsPutBehind};
ghost use Rattle.lin_history.specs.Rests.{told_of, IsBegun, IsOpen, IsOpenRow, IsWaiting};
ghost use Rattle.lin_history.specs.inner.Rests.{IsFar, IsFarRow, IsWhole, IsWholeRow};
ghost use Rattle.lin_history.specs.Table.{bare, event as told_in};
ghost use Rattle.lin_history.specs.PassedMaps.{keyword_of};
ghost use Rattle.lin_history.specs.inner.Passing.{passed_more};
ghost use Rattle.lin_events.specs.declared.items.Item.TheVariants.{Int};
ghost use Rattle.lin_history.specs.inner.Small.{small_body, small_event, small_taken};
ghost use Rattle.lin_history.specs.inner.Usual.{IsTaken, events_of};

use crate::outlines::Means;
use crate::passed::PassedOver;
use crate::small::{Deed, Small, val_of};
use crate::table::{EventFault, event_of};
use crate::usual::{Taken, next_small, next_usual};
use lin_edn::{Edn, Inside, Series};
use lin_events::{Body, Call, Event, Item, OutOfMemory, Reply};
use lin_names::Names;
use std::alloc::Global;
use std::collections::VecDeque;

/// A list or vector, as far as it is read.
#[derive(Drop)]
pub(crate) struct Row {
    pub series: Series,
    // The events of its maps up to the first fault: none is ready before the closing bracket.
    pub waiting: VecDeque<Event>,
    // The first fault. The maps behind it tell nothing, but a fault of EDN among them comes first.
    pub ends: Option<EventFault>,
    // Those of its maps that are passed over.
    pub passed: PassedOver,
}

/// How far a list or vector is read.
#[derive(Drop)]
pub(crate) enum Far {
    /// It is whole, and ends before this place.
    Closed(usize),
    /// Nothing behind its maps can be told so far; whether one more was read.
    Open(bool),
}

/// The list or vector that a text begins with behind white, with a tag in front of it or none, before its first map.
pub(crate) fn begin_row(alloc: Global, text: &[u8]) -> Option<Row>
    ensures begun { IsBegun result text.now }
    ensures waits { (m : Reading) → IsWaiting m result text.now }
{
    let series = Series::begin(text)?;
    Some(Row {
        series,
        waiting: VecDeque::new(alloc),
        ends: None,
        passed: PassedOver::none(),
    })
}

/// The list or vector that a text begins with, if it is whole there, and where it ends.
#[inline(never)]
pub(crate) fn whole_row(
    means: &mut Means,
    keyed: bool,
    text: &[u8],
    names: &mut Names,
) -> Result<Option<(Row, usize)>, OutOfMemory>
    ensures begun { Begins names.old names.new }
    ensures row { IfOk result (λ found. IfSome found (λ r. IsWholeRow r.0 text.now r.1)) }
    ensures told { IfOk result (λ found. IfSome found (λ r. (m : Reading) → IsReading keyed names.new m → IsWhole m r.0 text.now r.1)) }
{
    let Some(mut row) = begin_row(means.alloc, text) else {
        return Ok(None);
    };
    match read_maps(means, keyed, text, &mut row, names)? {
        Far::Closed(used) => Ok(Some((row, used))),
        Far::Open(_) => Ok(None),
    }
}

/// Reads on as far as maps are whole.
pub(crate) fn read_maps(
    means: &mut Means,
    keyed: bool,
    text: &[u8],
    row: &mut Row,
    names: &mut Names,
) -> Result<Far, OutOfMemory>
    requires { IsOpenRow row.old text.now }
    ensures begun { Begins names.old names.new }
    ensures row { IfOk result (IsFarRow row.new text.now) }
    ensures told { IfOk result (λ far. (m : Reading) → IsReading keyed names.new m → IsOpen m row.old text.now → IsFar m row.new text.now far) }
{
    let mut more = false;
    'maps: loop {
        match next_taken(
            means,
            keyed,
            text,
            row.series.place(),
            row.series.levels(),
            names,
        ) {
            Some(taken) => pass_usual(row, taken)?,
            None => match row.series.next(means.alloc, text) {
                Inside::Element(element) => take_map(means.alloc, keyed, &element, row, names)?,
                Inside::Closed(used) => return Ok(Far::Closed(used)),
                Inside::Unknown => return Ok(Far::Open(more)),
                Inside::OutOfMemory => return Err(OutOfMemory),
            },
        }
        more = true;
    }
}

/// The usual map behind the white from a place on, with so many levels at most.
#[inline(always)]
pub(crate) fn next_taken(
    means: &mut Means,
    keyed: bool,
    text: &[u8],
    from: usize,
    levels: usize,
    names: &mut Names,
) -> Option<Taken>
    requires { (3 ≤ levels) × (levels ≤ 64) }
    ensures begun { Begins names.old names.new }
    ensures taken { IfSome result (IsTaken keyed names.new text.now from levels) }
{
    match next_small(means, keyed, text, from, levels) {
        Some(small) => Some(taken_of(small)),
        None => next_usual(means, keyed, text, from, levels, names),
    }
}

/// A small one as any other.
#[inline(always)]
fn taken_of(small: Small) -> Taken
    ensures { result ≡ small_taken small }
{
    Taken {
        event: Some(Event {
            process: small.process,
            key: Item::Int(small.key),
            body: body_of(small.deed),
        }),
        used: small.used,
    }
}

/// What a deed is in an event.
#[inline(always)]
fn body_of(deed: Deed) -> Body
    ensures { result ≡ small_body deed }
{
    match deed {
        Deed::Read => Body::Invoke(Call::Read),
        Deed::Write(value) => Body::Invoke(Call::Write(val_of(value))),
        Deed::Enqueue(number) => Body::Invoke(Call::Enqueue(Item::Int(number))),
        Deed::Dequeue => Body::Invoke(Call::Dequeue),
        Deed::Add(number) => Body::Invoke(Call::Add(Item::Int(number))),
        Deed::Acquire => Body::Invoke(Call::Acquire),
        Deed::Release => Body::Invoke(Call::Release),
        Deed::Saw(name, value) => Body::Ok(name, Reply::Value(val_of(value))),
        Deed::Did(name) => Body::Ok(name, Reply::Done),
        Deed::Failed(name) => Body::Fail(name),
        Deed::Unknown(name) => Body::Info(name),
    }
}

/// Takes a usual map that comes next.
#[inline(always)]
fn pass_usual(row: &mut Row, taken: Taken) -> Result<(), OutOfMemory>
    ensures end { OnOk result (row_end row.new.series ≡ taken.used) }
    ensures open { OnOk result ((keyed : Bool) (names : List (List ℕ)) (s : List ℕ) → IsTaken keyed names s (row_end row.old.series) (row_levels row.old.series) taken →
        IsOpenRow row.old s → IsOpenRow row.new s) }
    ensures told { OnOk result ((m : Reading) (keyed : Bool) (names : List (List ℕ)) (s : List ℕ) → IsReading keyed names m →
        IsTaken keyed names s (row_end row.old.series) (row_levels row.old.series) taken → IsOpen m row.old s → IsOpen m row.new s) }
{
    let used = taken.used;
    wait_for(&mut row.waiting, row.ends, taken.event)?;
    row.series.pass(used);
    Ok(())
}

/// Puts the event of a usual map, if it says one, behind those before it, unless a fault stands there.
#[inline(always)]
fn wait_for(
    waiting: &mut VecDeque<Event>,
    ends: Option<EventFault>,
    event: Option<Event>,
) -> Result<(), OutOfMemory>
    ensures { OnOk result ((m : Reading) (v : Value) → told_in m v ≡ Ok event → IsToldOn m v waiting.old.items ends waiting.new.items ends) }
{
    if ends.is_some() {
        return Ok(());
    }
    put_event(waiting, event)
}

/// Takes a map that is read.
fn take_map(
    alloc: Global,
    keyed: bool,
    element: &Edn,
    row: &mut Row,
    names: &mut Names,
) -> Result<(), OutOfMemory>
    ensures begun { Begins names.old names.new }
    ensures series { row.new.series ≡ row.old.series }
    ensures over { OnOk result (row.new.passed ≡ passed_more row.old.passed (keyword_of (bare (view element.now)))) }
    ensures told { OnOk result ((m : Reading) → IsReading keyed names.new m → (vs : List Value) → told_by m (values_of vs) ≡ told_of row.old
        → told_by m (values_of (vs ++ view element.now ∷ [])) ≡ told_of row.new) }
{
    wait(
        alloc,
        keyed,
        element,
        &mut row.waiting,
        &mut row.ends,
        names,
    )?;
    row.passed.take(element);
    Ok(())
}

/// Puts the event of a map behind those before it, unless a fault stands there; a fault ends them.
fn wait(
    alloc: Global,
    keyed: bool,
    element: &Edn,
    waiting: &mut VecDeque<Event>,
    ends: &mut Option<EventFault>,
    names: &mut Names,
) -> Result<(), OutOfMemory>
    ensures begun { Begins names.old names.new }
    ensures ok { OnOk result ((m : Reading) → IsReading keyed names.new m → IsToldOn m (view element.now) waiting.old.items ends.old waiting.new.items ends.new) }
{
    if ends.is_some() {
        return Ok(());
    }
    match tell_one(alloc, keyed, element, waiting, names) {
        Ok(()) => Ok(()),
        Err(fault) => match fault {
            EventFault::OutOfMemory => Err(OutOfMemory),
            cause => {
                *ends = Some(cause);
                Ok(())
            }
        },
    }
}

/// Puts events behind those that are ready; refused, they are as they were.
pub(crate) fn put_all(
    ready: &mut VecDeque<Event>,
    mut waiting: VecDeque<Event>,
) -> Result<(), OutOfMemory>
    ensures ok { OnOk result (ready.new.items ≡ ready.old.items ++ waiting.items) }
    ensures err { OnErr result (ready.new.items ≡ ready.old.items) }
{
    if ready.is_empty() {
        *ready = waiting;
        return Ok(());
    }
    ready.append(&mut waiting)?;
    Ok(())
}

/// Puts an event behind those that are ready; refused, they are as they were.
#[inline(always)]
fn put_back(ready: &mut VecDeque<Event>, event: Event) -> Result<(), OutOfMemory>
    ensures ok { OnOk result (ready.new.items ≡ ready.old.items ++ event ∷ []) }
    ensures err { OnErr result (ready.new.items ≡ ready.old.items) }
{
    ready.push_back(event)?;
    Ok(())
}

/// Puts the event that a usual map says, if any, behind those that are ready; refused, they are as they were.
#[inline(always)]
pub(crate) fn put_event(
    ready: &mut VecDeque<Event>,
    event: Option<Event>,
) -> Result<(), OutOfMemory>
    ensures ok { OnOk result (ready.new.items ≡ ready.old.items ++ events_of event) }
    ensures err { OnErr result (ready.new.items ≡ ready.old.items) }
{
    match event {
        Some(event) => put_back(ready, event),
        None => Ok(()),
    }
}

/// Puts the event of a process and a key behind those that are ready; refused, they are as they were.
#[inline(always)]
fn put_numbers(
    ready: &mut VecDeque<Event>,
    process: u64,
    key: i64,
    body: Body,
) -> Result<(), OutOfMemory>
    ensures ok { OnOk result (ready.new.items ≡ ready.old.items ++ record { process = process; key = Int key; body = body } ∷ []) }
    ensures err { OnErr result (ready.new.items ≡ ready.old.items) }
{
    put_back(
        ready,
        Event {
            process,
            key: Item::Int(key),
            body,
        },
    )
}

/// Puts an event of numbers alone behind those that are ready; refused, they are as they were. It is made in each arm and put there at
/// once, so that no part of it is carried from one place to another.
#[inline(always)]
pub(crate) fn put_small(ready: &mut VecDeque<Event>, small: Small) -> Result<(), OutOfMemory>
    ensures ok { OnOk result (ready.new.items ≡ ready.old.items ++ small_event small ∷ []) }
    ensures err { OnErr result (ready.new.items ≡ ready.old.items) }
{
    let process = small.process;
    let key = small.key;
    match small.deed {
        Deed::Read => put_numbers(ready, process, key, Body::Invoke(Call::Read)),
        Deed::Write(value) => put_numbers(
            ready,
            process,
            key,
            Body::Invoke(Call::Write(val_of(value))),
        ),
        Deed::Enqueue(number) => put_numbers(
            ready,
            process,
            key,
            Body::Invoke(Call::Enqueue(Item::Int(number))),
        ),
        Deed::Dequeue => put_numbers(ready, process, key, Body::Invoke(Call::Dequeue)),
        Deed::Add(number) => put_numbers(
            ready,
            process,
            key,
            Body::Invoke(Call::Add(Item::Int(number))),
        ),
        Deed::Acquire => put_numbers(ready, process, key, Body::Invoke(Call::Acquire)),
        Deed::Release => put_numbers(ready, process, key, Body::Invoke(Call::Release)),
        Deed::Saw(name, value) => put_numbers(
            ready,
            process,
            key,
            Body::Ok(name, Reply::Value(val_of(value))),
        ),
        Deed::Did(name) => put_numbers(ready, process, key, Body::Ok(name, Reply::Done)),
        Deed::Failed(name) => put_numbers(ready, process, key, Body::Fail(name)),
        Deed::Unknown(name) => put_numbers(ready, process, key, Body::Info(name)),
    }
}

/// Puts the event of a map behind those that are ready.
pub(crate) fn tell_one(
    alloc: Global,
    keyed: bool,
    element: &Edn,
    ready: &mut VecDeque<Event>,
    names: &mut Names,
) -> Result<(), EventFault>
    ensures begun { Begins names.old names.new }
    ensures put { IsPutBehind ready.old.items ready.new.items }
    ensures told { (m : Reading) → IsReading keyed names.new m → IsTold (told_by m (values_of (view element.now ∷ []))) ready.old.items ready.new.items result }
{
    match event_of(alloc, element, keyed, names) {
        Ok(None) => Ok(()),
        Ok(Some(event)) => {
            if put_back(ready, event).is_err() {
                return Err(EventFault::OutOfMemory);
            }
            Ok(())
        }
        Err(fault) => Err(fault),
    }
}
