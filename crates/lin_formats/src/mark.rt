//! The places of the events in a text.
ghost use Rattle.std.specs.Prelude.{◌≡◌, ◌≢◌, ◌+◌, ◌≤◌, suc, [], ℕ, Bool, List, Some, None, Ok, map, length, IfOk, IfSome, MatchOption};
ghost use Rattle.lin_edn.specs.Grammar.{Spells};
ghost use Rattle.lin_edn.specs.Value.{Value, tagged, values_of};
ghost use Rattle.lin_edn.specs.View.{view};
ghost use Rattle.lin_names.specs.Names.{Begins};
ghost use Rattle.lin_history.specs.Reading.{Reading, IsReading};
ghost use Rattle.lin_history.specs.Sees.{most};
ghost use Rattle.lin_history.specs.Stream.{told, told_by};
ghost use Rattle.lin_history.specs.Table.{event, IsAnswer};
ghost use Rattle.lin_formats.specs.inner.Marks.{Fits, IsMarkedOne, IsPutBehind, StandsAt, IsStanding, IsAmong, AreMarked, ArePassed, IsFront, IsPassed, IsRead};
ghost use Rattle.lin_formats.specs.Places.{IsBehind, row_of};

use crate::place::{Cursor, Stop, go_to};
use lin_edn::{
    Edn, EdnCause, Next, Span, blanks_are_skipped, blanks_in_front, next_element,
    places as places_lie_within, readings_are_unique, tag_until, white_until,
};
use lin_events::OutOfMemory;
use lin_history::{Event, EventFault, Means, NextEvent, event_of, next_event_by};
use lin_names::Names;
use lin_texts::Place;
use std::alloc::Global;

/// What was read of a text: so far, and so it stops.
#[derive(Drop)]
pub(crate) struct Read {
    pub next: Cursor,
    pub stop: Stop,
}

/// What stands in front of a text.
#[derive(Drop)]
enum Front {
    /// An element without fault, up to here.
    Element(Cursor),
    /// No whole element, or a fault.
    End(Read),
}

/// What the maps of an element say.
#[derive(Drop)]
enum Maps {
    /// They are without fault; a place in the element.
    Sound(Cursor),
    /// The place of the first that is no event.
    Bad(Place),
}

/// A part of a text: from here up to a place.
#[derive(Clone, Copy)]
struct Part {
    from: Cursor,
    until: usize,
}

/// A map in front of a text, with tags or none: where it begins and ends, and what it says.
#[derive(Drop)]
struct Map {
    at: usize,
    used: usize,
    said: Result<Option<Event>, EventFault>,
}

/// Marks the place of a map that says this, if it is an event. False where it is faulty.
fn mark_said(
    said: Result<Option<Event>, EventFault>,
    place: Place,
    places: &mut Vec<Place>,
) -> Result<bool, OutOfMemory>
    ensures put { IsPutBehind places.old.items places.new.items }
    ensures marked { (m : Reading) (v : Value) → IsAnswer (event m v) said → IsMarkedOne m v place places.old.items places.new.items result }
{
    match said {
        Ok(None) => Ok(true),
        Ok(Some(_)) => {
            places.push(place)?;
            Ok(true)
        }
        Err(EventFault::OutOfMemory) => Err(OutOfMemory),
        Err(_) => Ok(false),
    }
}

/// Marks the place of a map, if it says an event. False where it is faulty.
fn mark_one(
    alloc: Global,
    keyed: bool,
    element: &Edn,
    place: Place,
    places: &mut Vec<Place>,
    names: &mut Names,
) -> Result<bool, OutOfMemory>
    ensures begun { Begins names.old names.new }
    ensures put { IsPutBehind places.old.items places.new.items }
    ensures marked { (m : Reading) → IsReading keyed names.new m → IsMarkedOne m (view element.now) place places.old.items places.new.items result }
{
    mark_said(event_of(alloc, element, keyed, names), place, places)
}

/// Where the element behind blanks at a place begins and ends.
fn element_at(alloc: Global, text: &[u8], from: usize) -> Result<(usize, usize), OutOfMemory>
    requires inside { from ≤ length text.now }
    requires stands { (v : Value) × (at : ℕ) × (used : ℕ) × StandsAt text.now from v at used }
    ensures { IfOk result (λ r. (v : Value) (at : ℕ) (used : ℕ) → StandsAt text.now from v at used → (r.0 ≡ at) × (r.1 ≡ used)) }
{
    places_lie_within();
    readings_are_unique();
    blanks_are_skipped();
    match next_element(alloc, &text[from..]) {
        Ok(Next::Complete { value: _, at, used }) => Ok((from + at, from + used)),
        Ok(Next::Partial { at: _ }) => unreachable!(),
        Ok(Next::Blank { used: _ }) => unreachable!(),
        Err(fault) => match fault.cause {
            EdnCause::OutOfMemory => Err(OutOfMemory),
            _ => unreachable!(),
        },
    }
}

/// The elements of a list or vector, whatever tags stand in front of it.
fn row_in<'e, 'a>(element: &'e Edn<'a>) -> Option<&'e [Edn<'a>]>
    ensures { MatchOption result (row_of (view element.entry.now) ≡ None) (λ items. row_of (view element.entry.now) ≡ Some (values_of (map view items.now))) }
{
    match element {
        Edn::List(items) => Some(items.as_slice()),
        Edn::Vector(items) => Some(items.as_slice()),
        Edn::Tagged(_, inner) => row_in(inner.as_ref()),
        _ => None,
    }
}

/// The tag in front of an element, if it has one, and the element behind it.
fn behind_tag<'e, 'a>(element: &'e Edn<'a>) -> Option<(&'e Span<'a>, &'e Edn<'a>)>
    ensures { MatchOption result ((i : ℕ) (name : List ℕ) (v : Value) → view element.entry.now ≡ tagged i name v → ⊥)
        (λ r. view element.entry.now ≡ tagged r.0.now.at r.0.now.text.now (view r.1.now)) }
{
    match element {
        Edn::Tagged(tag, inner) => Some((tag, inner.as_ref())),
        _ => None,
    }
}

/// Where the elements of a list or vector begin that begins at a place, with its tags.
fn row_begun(alloc: Global, text: &[u8], element: &Edn, at: usize) -> Result<usize, OutOfMemory>
    requires stands { (until : ℕ) × IsStanding text.now at (view element.now) until }
    requires row { (vs : List Value) × (row_of (view element.now) ≡ Some (values_of vs)) }
    ensures { IfOk result (λ from. (until : ℕ) (vs : List Value) → IsStanding text.now at (view element.now) until →
        row_of (view element.now) ≡ Some (values_of vs) → (at ≤ from) × IsAmong text.now from [] vs until) }
{
    match behind_tag(element) {
        Some((tag, inner)) => {
            let (begun, _) = element_at(alloc, text, tag.at + tag.text.len())?;
            row_begun(alloc, text, inner, begun)
        }
        None => Ok(at + 1),
    }
}

/// Marks the places of the elements of a list or vector, which stand from a place on and end before another.
fn mark_all(
    alloc: Global,
    keyed: bool,
    text: &[u8],
    items: &[Edn],
    part: Part,
    places: &mut Vec<Place>,
    names: &mut Names,
) -> Result<Maps, OutOfMemory>
    requires fits { Fits text.now part.from }
    requires among { IsAmong text.now part.from.at [] (map view items.now) part.until }
    ensures begun { Begins names.old names.new }
    ensures put { IsPutBehind places.old.items places.new.items }
    ensures passed { IfOk result (ArePassed text.now part.from.place part.until) }
    ensures marked { IfOk result (λ maps. (m : Reading) → IsReading keyed names.new m →
        AreMarked m text.now (told_by m (values_of (map view items.now))) part.from places.old.items places.new.items maps) }
{
    let mut next = part.from;
    for item in items {
        let (begun, used) = element_at(alloc, text, next.at)?;
        let here = go_to(text, next, begun);
        if !mark_one(alloc, keyed, item, here.place, places, names)? {
            return Ok(Maps::Bad(here.place));
        }
        next = go_to(text, here, used);
    }
    Ok(Maps::Sound(go_to(text, next, part.until)))
}

/// Marks the places of the maps of an element that begins at a place and ends before another.
fn mark(
    alloc: Global,
    keyed: bool,
    text: &[u8],
    element: &Edn,
    part: Part,
    places: &mut Vec<Place>,
    names: &mut Names,
) -> Result<Maps, OutOfMemory>
    requires fits { Fits text.now part.from }
    requires spelled { Spells text.now (view element.now) part.from.at part.until }
    ensures begun { Begins names.old names.new }
    ensures put { IsPutBehind places.old.items places.new.items }
    ensures passed { IfOk result (ArePassed text.now part.from.place part.until) }
    ensures marked { IfOk result (λ maps. (m : Reading) → IsReading keyed names.new m →
        AreMarked m text.now (told m (view element.now)) part.from places.old.items places.new.items maps) }
{
    places_lie_within();
    match row_in(element) {
        Some(items) => {
            let from = row_begun(alloc, text, element, part.from.at)?;
            let inside = Part {
                from: go_to(text, part.from, from),
                until: part.until,
            };
            mark_all(alloc, keyed, text, items, inside, places, names)
        }
        None => {
            if mark_one(alloc, keyed, element, part.from.place, places, names)? {
                Ok(Maps::Sound(go_to(text, part.from, part.until)))
            } else {
                Ok(Maps::Bad(part.from.place))
            }
        }
    }
}

/// Where a map begins that stands in front of a text behind white alone, with a tag directly in front of it or none.
fn map_begins(text: &[u8]) -> Option<usize>
    ensures { IfSome result (λ at. (v : Value) (begun : ℕ) (used : ℕ) → Spells text.now v begun used → (begun ≡ at) × (row_of v ≡ None)) }
{
    let end = text.len();
    let at = white_until(text, 0, end);
    let begun = tag_until(text, at, end);
    if begun == end {
        return None;
    }
    if text[begun] == b'{' { Some(at) } else { None }
}

/// The map in front of a text, if one is whole there behind white alone. A usual one is read without building its elements.
fn next_map(means: &mut Means, keyed: bool, text: &[u8], names: &mut Names) -> Option<Map>
    ensures begun { Begins names.old names.new }
    ensures map { IfSome result (λ map. (v : Value) × Spells text.now v map.at map.used × (row_of v ≡ None) ×
        ((m : Reading) → IsReading keyed names.new m → IsAnswer (event m v) map.said)) }
{
    let at = map_begins(text)?;
    match next_event_by(means, text, keyed, names) {
        Ok(NextEvent::Complete { said, used }) => Some(Map { at, used, said }),
        _ => None,
    }
}

/// Reads the map in front of a text, which has a place in a longer one.
fn read_map(
    text: &[u8],
    place: Place,
    map: Map,
    places: &mut Vec<Place>,
) -> Result<Front, OutOfMemory>
    requires fits { Fits text.now (record { at = 0; place = place }) }
    requires spelled { (v : Value) × Spells text.now v map.at map.used }
    ensures put { IsPutBehind places.old.items places.new.items }
    ensures passed { IfOk result (IsPassed text.now) }
    ensures front { IfOk result (λ front. (m : Reading) (v : Value) → Spells text.now v map.at map.used → row_of v ≡ None → IsAnswer (event m v) map.said →
        IsFront m text.now place places.old.items places.new.items front) }
{
    places_lie_within();
    let front = Cursor { at: 0, place };
    let begun = go_to(text, front, map.at);
    if mark_said(map.said, begun.place, places)? {
        Ok(Front::Element(go_to(text, begun, map.used)))
    } else {
        Ok(ends(front, Stop::Bad(begun.place)))
    }
}

/// Reads what stands in front of a text, which has a place in a longer one.
fn read_front(
    alloc: Global,
    means: &mut Means,
    keyed: bool,
    text: &[u8],
    place: Place,
    places: &mut Vec<Place>,
    names: &mut Names,
) -> Result<Front, OutOfMemory>
    requires fits { Fits text.now (record { at = 0; place = place }) }
    ensures begun { Begins names.old names.new }
    ensures put { IsPutBehind places.old.items places.new.items }
    ensures passed { IfOk result (IsPassed text.now) }
    ensures front { IfOk result (λ front. (m : Reading) → IsReading keyed names.new m → IsFront m text.now place places.old.items places.new.items front) }
{
    match next_map(means, keyed, text, names) {
        Some(map) => read_map(text, place, map, places),
        None => read_element(alloc, keyed, text, place, places, names),
    }
}

/// Reads what stands in front of a text with its elements, whatever they are.
fn read_element(
    alloc: Global,
    keyed: bool,
    text: &[u8],
    place: Place,
    places: &mut Vec<Place>,
    names: &mut Names,
) -> Result<Front, OutOfMemory>
    requires fits { Fits text.now (record { at = 0; place = place }) }
    ensures begun { Begins names.old names.new }
    ensures put { IsPutBehind places.old.items places.new.items }
    ensures passed { IfOk result (IsPassed text.now) }
    ensures front { IfOk result (λ front. (m : Reading) → IsReading keyed names.new m → IsFront m text.now place places.old.items places.new.items front) }
{
    places_lie_within();
    blanks_in_front();
    let front = Cursor { at: 0, place };
    match next_element(alloc, text) {
        Ok(Next::Complete { value, at, used }) => {
            let part = Part {
                from: go_to(text, front, at),
                until: used,
            };
            match mark(alloc, keyed, text, &value, part, places, names)? {
                Maps::Sound(next) => Ok(Front::Element(next)),
                Maps::Bad(bad) => Ok(ends(front, Stop::Bad(bad))),
            }
        }
        Ok(Next::Partial { at }) => {
            let next = go_to(text, front, at);
            Ok(ends(next, Stop::Unfinished(next.place)))
        }
        Ok(Next::Blank { used }) => Ok(ends(go_to(text, front, used), Stop::Nowhere)),
        Err(fault) => match fault.cause {
            EdnCause::OutOfMemory => Err(OutOfMemory),
            _ => Ok(ends(front, Stop::Bad(go_to(text, front, fault.at).place))),
        },
    }
}

fn ends(next: Cursor, stop: Stop) -> Front
    ensures { result ≡ Front.End (record { next = next; stop = stop }) }
{
    Front::End(Read { next, stop })
}

/// Reads a text, which has a place in a longer one, as far as it goes.
pub(crate) fn read_on(
    alloc: Global,
    means: &mut Means,
    keyed: bool,
    text: &[u8],
    place: Place,
    places: &mut Vec<Place>,
    names: &mut Names,
) -> Result<Read, OutOfMemory>
    requires fits { Fits text.now (record { at = 0; place = place }) }
    ensures begun { Begins names.old names.new }
    ensures put { IsPutBehind places.old.items places.new.items }
    ensures fits { IfOk result (λ r. Fits text.now r.next) }
    ensures behind { IfOk result (λ r. IsBehind r.next.place r.stop) }
    ensures read { IfOk result (λ r. (m : Reading) → IsReading keyed names.new m → IsRead m text.now place places.old.items places.new.items r) }
{
    let mut at = 0;
    let mut place = place;
    'elements: loop {
        match read_front(alloc, means, keyed, &text[at..], place, places, names)? {
            Front::Element(next) => {
                at += next.at;
                place = next.place;
            }
            Front::End(read) => {
                return Ok(Read {
                    next: Cursor {
                        at: at + read.next.at,
                        place: read.next.place,
                    },
                    stop: read.stop,
                });
            }
        }
    }
}
