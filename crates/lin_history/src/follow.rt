//! The events of a stream that comes in pieces.
ghost use Rattle.std.specs.Prelude.{◌≡◌, ◌+◌, ◌≤◌, ◌++◌, [], ◌∷◌, true, false, Bool, ℕ, List, Ok, Err, map, length, drop, MatchOption, IfOk, OnOk, OnErr};
ghost use Rattle.lin_edn.specs.Rows.{row_begun};
ghost use Rattle.lin_edn.specs.Value.{values_of};
ghost use Rattle.lin_edn.specs.View.{view};
ghost use Rattle.lin_edn.specs.Skimming.{IsOpenText};
ghost use Rattle.lin_names.specs.Names.{Begins};
ghost use Rattle.lin_history.specs.Reading.{Reading, IsReading};
ghost use Rattle.lin_history.specs.Stream.{maps_in as maps_of, told, told_by, StreamsAreUnique};
ghost use Rattle.lin_history.specs.Sees.{Sees, Takes, TakesAll, Feeds, StaysFaulty, FaultsStay, most};
ghost use Rattle.lin_history.specs.inner.Reads.{IsTold, IsPutBehind, IsReadTo, IsFront, IsWithin, IsStanding, IsCut};
ghost use Rattle.lin_history.specs.PassedMaps.{keywords_in, keywords_of};
ghost use Rattle.lin_history.specs.inner.Passing.{Gathered, gathered, passed_more};
ghost use Rattle.lin_history.specs.Rests.{IsOpen, IsOpenRow, IsWaiting, IsSeen, Knows};
ghost use Rattle.lin_history.specs.inner.Rests.{IsWhole, IsWholeRow, IsUnaware, GoesOn, IsHeld, IsReadHeld};
ghost use Rattle.lin_history.specs.declared.follow.FollowFault.{FollowFault as TheFault};

use crate::outlines::Means;
use crate::passed::PassedOver;
use crate::row::{
    Far, Row, begin_row, put_all, put_event, put_small, read_maps, tell_one, whole_row,
};
use crate::table::{EventFault, bare};
use crate::usual::{LEVELS, next_small, next_usual};
use lin_edn::{
    Edn, EdnCause, Next, Skim, blanks_are_skipped, blanks_in_front, more_bytes, next_element,
    places, readings_are_unique,
};
use lin_events::{Event, OutOfMemory};
use lin_names::Names;
use std::alloc::Global;
use std::collections::VecDeque;
use std::marker::Model;
use std::mem;

/// The greatest number of bytes of a stream.
const MOST: u64 = 1_099_511_627_776;

/// Why a stream isn't read further. A place counts in the bytes of the whole stream.
#[derive(Clone, Copy, Debug, PartialEq, Eq)]
pub enum FollowFault {
    /// The bytes are no EDN: the place that tells it, and what is wrong there.
    Edn { at: u64, cause: EdnCause },
    /// An element says no event: where it begins, and why.
    Event { at: u64, cause: EventFault },
    /// The stream ends in an element or discard that begins here.
    Truncated { at: u64 },
    /// Memory was refused; nothing changed.
    OutOfMemory,
    /// The pieces together would pass 1,099,511,627,776 bytes; nothing changed.
    TooMuch,
}

/// A reader of the events of a stream that is fed in pieces, cut anywhere.
///
/// A stream is a series of elements: operation maps, and vectors or lists of operation maps; tags in front of any of these are
/// read over. The events are those of the maps, in order, without the operations of the nemesis.
#[derive(Drop)]
pub struct Follow {
    keyed: bool,
    ready: Ready,
    outcome: Result<(), FollowFault>,
    // How many bytes of the stream stand before those that are held.
    passed: u64,
    // What stands behind the last whole element, from the first byte on that isn't blank.
    held: Vec<u8>,
    rest: Rest,
}

/// What is made of the stream so far.
#[derive(Drop)]
struct Ready {
    events: VecDeque<Event>,
    passed: PassedOver,
}

/// What is known of the bytes that are held without reading them again.
#[derive(Drop)]
struct Rest {
    means: Means,
    skim: Skim,
    // Whether the skim has seen just the bytes that are held.
    is_seen: bool,
    // The list or vector that the held bytes begin with, as far as it is read.
    row: Option<Row>,
}

impl Model for Follow {
    ghost use Rattle.std.specs.Prelude.{◌+◌, ◌≤◌, length};
    ghost use Rattle.lin_history.specs.Sees.{Followed, most};
    ghost use Rattle.lin_history.specs.Rests.{Knows};

    ghost Value = { Followed };

    ghost view = { λ f. record { keyed = f.keyed; ready = f.ready.events.items; passed_over = f.ready.passed; outcome = f.outcome; passed = f.passed; held = f.held.items; row = f.rest.row } };

    ghost invariant = { λ f. (f.passed + length f.held.items ≤ most) × Knows f.rest f.held.items };
}

impl Follow {
    /// A follower of an empty stream. With `keyed`, values are pairs of a key and a value.
    pub fn new(alloc: Global, keyed: bool) -> Follow
        ensures keyed { result.keyed ≡ keyed }
        ensures ready { result.ready ≡ [] }
        ensures sees { (m : Reading) → m.keyed ≡ keyed → Sees m result [] [] }
    {
        Follow {
            keyed,
            ready: Ready {
                events: VecDeque::new(alloc),
                passed: PassedOver::none(),
            },
            outcome: Ok(()),
            passed: 0,
            held: Vec::new(alloc),
            rest: Rest {
                means: Means::new(alloc),
                skim: Skim::new(),
                is_seen: true,
                row: None,
            },
        }
    }

    /// How many events are ready.
    pub fn ready(&self) -> usize
        ensures { result ≡ length self.now.ready }
    {
        self.ready.events.len()
    }

    /// The oldest event that is ready.
    pub fn take(&mut self) -> Option<Event>
        ensures { Takes self.old self.new result }
    {
        self.ready.events.pop_front()
    }

    /// All events that are ready, the oldest first.
    pub fn take_all(&mut self) -> Vec<Event>
        ensures { TakesAll self.old self.new result.items }
    {
        mem::replace(&mut self.ready.events, VecDeque::new(self.rest.means.alloc)).into_vec()
    }

    /// The maps that were passed over since a keyword other than `:nemesis` is their process, if no fault of form stands.
    pub fn passed_over(&self) -> PassedOver
        ensures { result ≡ self.now.passed_over }
    {
        self.ready.passed.copy()
    }

    /// Whether the stream may end here: `Truncated` in an unfinished element or discard, else the fault that stands, if any.
    pub fn finish(&self) -> Result<(), FollowFault>
        ensures { result ≡ self.now.outcome }
    {
        self.outcome
    }

    /// Takes in a piece of the stream, and tells how many events became ready.
    ///
    /// At the first fault of form the events before it are ready, and it is answered from then on. After `OutOfMemory` nothing changed
    /// but the names, which may have grown. After `TooMuch` nothing changed.
    pub fn feed(&mut self, piece: &[u8], names: &mut Names) -> Result<usize, FollowFault>
        ensures begun { Begins names.old names.new }
        ensures feeds { Feeds names.new self.old piece.now self.new result }
        ensures stays { StaysFaulty self.old self.new result }
    {
        more_bytes();
        places();
        if let Some(fault) = standing(&self.outcome) {
            return Err(fault);
        }
        if piece.len() as u64 > MOST - self.passed - self.held.len() as u64 {
            return Err(FollowFault::TooMuch);
        }
        let before = self.ready.events.len();
        match take_in(
            self.keyed,
            self.passed,
            piece,
            &mut self.held,
            &mut self.rest,
            &mut self.ready,
            names,
        ) {
            Err(_) => Err(FollowFault::OutOfMemory),
            Ok(read) => {
                self.passed += read.used as u64;
                self.outcome = read.outcome;
                match standing(&self.outcome) {
                    Some(fault) => Err(fault),
                    None => Ok(self.ready.events.len() - before),
                }
            }
        }
    }
}

/// A fault of form, behind which nothing is read.
fn standing(outcome: &Result<(), FollowFault>) -> Option<FollowFault>
    ensures { IsStanding outcome.now result }
{
    match outcome {
        Err(FollowFault::Edn { at, cause }) => Some(FollowFault::Edn {
            at: *at,
            cause: *cause,
        }),
        Err(FollowFault::Event { at, cause }) => Some(FollowFault::Event {
            at: *at,
            cause: *cause,
        }),
        _ => None,
    }
}

/// Puts a piece behind what is held and reads it, if something may be whole; what is read is dropped. Refused, all is as it was, but that
/// a list or vector may have to be read anew.
fn take_in(
    keyed: bool,
    passed: u64,
    piece: &[u8],
    held: &mut Vec<u8>,
    rest: &mut Rest,
    ready: &mut Ready,
    names: &mut Names,
) -> Result<Read, OutOfMemory>
    requires small { passed + length held.old.items + length piece.now ≤ most }
    requires known { Knows rest.old held.old.items }
    ensures begun { Begins names.old names.new }
    ensures cut { IsCut piece.now held.old.items (gathered ready.old) held.new.items (gathered ready.new) result }
    ensures known { Knows rest.new held.new.items }
    ensures read { IfOk result (λ r. (m : Reading) → IsReading keyed names.new m → IsWaiting m rest.old.row held.old.items →
        IsReadTo m (held.old.items ++ piece.now) passed (gathered ready.old) (gathered ready.new) r × IsWaiting m rest.new.row held.new.items) }
    ensures refused { OnErr result ((m : Reading) → IsWaiting m rest.old.row held.old.items → IsWaiting m rest.new.row held.new.items) }
{
    let kept = held.len();
    let before = ready.events.len();
    let passed_before = ready.passed.copy();
    held.extend_from_slice(piece)?;
    match read_held(keyed, passed, piece, held.as_slice(), rest, ready, names) {
        Ok(read) => {
            drop_front(held, read.used);
            Ok(read)
        }
        Err(refused) => {
            held.truncate(kept);
            ready.events.truncate(before);
            ready.passed = passed_before;
            Err(refused)
        }
    }
}

/// Reads the bytes that are held, the last of them a new piece, if something may be whole.
fn read_held(
    keyed: bool,
    passed: u64,
    piece: &[u8],
    held: &[u8],
    rest: &mut Rest,
    ready: &mut Ready,
    names: &mut Names,
) -> Result<Read, OutOfMemory>
    requires small { passed + length held.now ≤ most }
    requires known { (text : List ℕ) × (held.now ≡ text ++ piece.now) × Knows rest.old text }
    ensures begun { Begins names.old names.new }
    ensures put { IsPutBehind ready.old.events.items ready.new.events.items }
    ensures held { IsHeld held.now rest.new result }
    ensures read { IfOk result (λ r. (m : Reading) → IsReading keyed names.new m → (text : List ℕ) → held.now ≡ text ++ piece.now → IsWaiting m rest.old.row text →
        IsReadHeld m held.now passed (gathered ready.old) (gathered ready.new) rest.new.row r) }
{
    more_bytes();
    match rest.row.take() {
        Some(row) => read_in(keyed, passed, held, row, rest, ready, names),
        None => {
            if !go_on(rest, piece) {
                return read_anew(keyed, passed, held, rest, ready, names);
            }
            let read = resting(rest, held, passed);
            if piece.len() == held.len() {
                rest.row = begin_row(rest.means.alloc, held);
            }
            Ok(read)
        }
    }
}

/// Reads on in the list or vector that the held bytes begin with.
fn read_in(
    keyed: bool,
    passed: u64,
    held: &[u8],
    mut row: Row,
    rest: &mut Rest,
    ready: &mut Ready,
    names: &mut Names,
) -> Result<Read, OutOfMemory>
    requires small { passed + length held.now ≤ most }
    requires open { IsOpenRow row held.now }
    requires row { rest.old.row ≡ None }
    ensures begun { Begins names.old names.new }
    ensures put { IsPutBehind ready.old.events.items ready.new.events.items }
    ensures held { IsHeld held.now rest.new result }
    ensures read { IfOk result (λ r. (m : Reading) → IsReading keyed names.new m → IsOpen m row held.now →
        IsReadHeld m held.now passed (gathered ready.old) (gathered ready.new) rest.new.row r) }
{
    rest.is_seen = false;
    match read_maps(&mut rest.means, keyed, held, &mut row, names)? {
        Far::Closed(used) => {
            let whole = Whole { row, used };
            let read = close(&mut rest.means, keyed, passed, held, whole, ready, names)?;
            look_at(rest, &held[read.used..]);
            Ok(read)
        }
        Far::Open(more) => {
            rest.is_seen = rest.skim.go_on_in(&row.series, held);
            if !rest.is_seen {
                return read_anew(keyed, passed, held, rest, ready, names);
            }
            let read = resting(rest, held, passed);
            // Where a piece ends no map the skim goes on alone, so that no byte is read again and again.
            if more {
                rest.row = Some(row);
            }
            Ok(read)
        }
    }
}

/// Reads the bytes that are held from the first on, and looks at what is left.
fn read_anew(
    keyed: bool,
    passed: u64,
    held: &[u8],
    rest: &mut Rest,
    ready: &mut Ready,
    names: &mut Names,
) -> Result<Read, OutOfMemory>
    requires small { passed + length held.now ≤ most }
    requires unaware { IsUnaware rest.old }
    ensures begun { Begins names.old names.new }
    ensures put { IsPutBehind ready.old.events.items ready.new.events.items }
    ensures held { IsHeld held.now rest.new result }
    ensures read { IfOk result (λ r. (m : Reading) → IsReading keyed names.new m → IsReadHeld m held.now passed (gathered ready.old) (gathered ready.new) rest.new.row r) }
{
    let read = read_on(&mut rest.means, keyed, held, passed, ready, names)?;
    look_at(rest, &held[read.used..]);
    Ok(read)
}

/// Tells a list or vector that is whole, and reads what stands behind it.
fn close(
    means: &mut Means,
    keyed: bool,
    passed: u64,
    held: &[u8],
    whole: Whole,
    ready: &mut Ready,
    names: &mut Names,
) -> Result<Read, OutOfMemory>
    requires small { passed + length held.now ≤ most }
    requires whole { IsWholeRow whole.row held.now whole.used }
    ensures begun { Begins names.old names.new }
    ensures put { IsPutBehind ready.old.events.items ready.new.events.items }
    ensures within { IfOk result (λ r. r.used ≤ length held.now) }
    ensures read { IfOk result (λ r. (m : Reading) → IsReading keyed names.new m → IsWhole m whole.row held.now whole.used →
        IsReadTo m held.now passed (gathered ready.old) (gathered ready.new) r) }
{
    places();
    match tell_row(whole.row, whole.used, passed, ready)? {
        Front::Element(used) => {
            let read = read_on(
                means,
                keyed,
                &held[used..],
                passed + used as u64,
                ready,
                names,
            )?;
            Ok(Read {
                used: used + read.used,
                outcome: read.outcome,
            })
        }
        Front::End(read) => Ok(read),
    }
}

/// Whether the bytes that are held are still unfinished once a piece is put behind them.
fn go_on(rest: &mut Rest, piece: &[u8]) -> bool
    ensures row { rest.new.row ≡ rest.old.row }
    ensures seen { (text : List ℕ) → IsSeen rest.old text → GoesOn rest.new (text ++ piece.now) result }
{
    if !rest.is_seen {
        return false;
    }
    rest.is_seen = rest.skim.go_on(piece);
    rest.is_seen
}

/// Looks at bytes that are held anew.
fn look_at(rest: &mut Rest, held: &[u8])
    ensures known { Knows rest.new held.now }
    ensures waits { (m : Reading) → IsWaiting m rest.new.row held.now }
{
    rest.skim.clear();
    rest.is_seen = rest.skim.go_on(held);
    rest.row = begin_row(rest.means.alloc, held);
}

/// Whether unfinished bytes are blank: none, or a comment.
fn is_blank(rest: &Rest, held: &[u8]) -> bool
    requires { GoesOn rest.now held.now true }
    ensures { IsOpenText result held.now }
{
    if held.is_empty() {
        return true;
    }
    rest.skim.is_comment()
}

/// What is read of unfinished bytes, which stand from a place of the stream on.
fn resting(rest: &Rest, held: &[u8], place: u64) -> Read
    requires { GoesOn rest.now held.now true }
    ensures used { result.used ≡ 0 }
    ensures read { (m : Reading) (ready : Gathered) → IsReadTo m held.now place ready ready result }
{
    if is_blank(rest, held) {
        return Read {
            used: 0,
            outcome: Ok(()),
        };
    }
    Read {
        used: 0,
        outcome: Err(FollowFault::Truncated { at: place }),
    }
}

/// Drops so many bytes at the front, in place.
fn drop_front(held: &mut Vec<u8>, used: usize)
    requires { used ≤ length held.old.items }
    ensures { held.new.items ≡ drop used held.old.items }
{
    if used == 0 {
        return;
    }
    let left = held.len() - used;
    held.copy_within(used.., 0);
    held.truncate(left);
}

/// What was read of a text: so many bytes are done with, and so it ends.
#[derive(Drop)]
struct Read {
    used: usize,
    outcome: Result<(), FollowFault>,
}

/// A list or vector that is whole, and where it ends.
#[derive(Drop)]
struct Whole {
    row: Row,
    used: usize,
}

/// What stands in front of a text.
#[derive(Drop)]
enum Front {
    /// An element without fault, which ends behind so many bytes.
    Element(usize),
    /// No whole element, or a fault.
    End(Read),
}

/// Puts the events of maps behind those that are ready, up to the first fault.
fn tell_all(
    alloc: Global,
    keyed: bool,
    items: &[Edn],
    ready: &mut VecDeque<Event>,
    names: &mut Names,
) -> Result<(), EventFault>
    ensures begun { Begins names.old names.new }
    ensures put { IsPutBehind ready.old.items ready.new.items }
    ensures told { (m : Reading) → IsReading keyed names.new m → IsTold (told_by m (values_of (map view items.now))) ready.old.items ready.new.items result }
{
    for item in items {
        if let Err(fault) = tell_one(alloc, keyed, item, ready, names) {
            return Err(fault);
        }
    }
    Ok(())
}

/// The maps that a list or vector stands for.
fn maps_in<'e, 'a>(element: &'e Edn<'a>) -> Option<&'e [Edn<'a>]>
    ensures { MatchOption result (maps_of (view element.entry.now) ≡ values_of (view element.entry.now ∷ []))
        (λ items. maps_of (view element.entry.now) ≡ values_of (map view items.now)) }
{
    match element {
        Edn::Vector(items) => Some(items.as_slice()),
        Edn::List(items) => Some(items.as_slice()),
        _ => None,
    }
}

/// Puts the events of a top-level element behind those that are ready.
fn tell(
    alloc: Global,
    keyed: bool,
    element: &Edn,
    ready: &mut VecDeque<Event>,
    names: &mut Names,
) -> Result<(), EventFault>
    ensures begun { Begins names.old names.new }
    ensures put { IsPutBehind ready.old.items ready.new.items }
    ensures told { (m : Reading) → IsReading keyed names.new m → IsTold (told m (view element.now)) ready.old.items ready.new.items result }
{
    let element = bare(element);
    match maps_in(element) {
        Some(items) => tell_all(alloc, keyed, items, ready, names),
        None => tell_one(alloc, keyed, element, ready, names),
    }
}

/// Counts those maps of a top-level element that are passed over.
fn pass_over(passed: &mut PassedOver, element: &Edn)
    ensures { passed.new ≡ passed_more passed.old (keywords_in (view element.now)) }
{
    let element = bare(element);
    match maps_in(element) {
        Some(items) => pass_over_all(passed, items),
        None => passed.take(element),
    }
}

/// Counts those of some maps that are passed over.
fn pass_over_all(passed: &mut PassedOver, items: &[Edn])
    ensures { passed.new ≡ passed_more passed.old (keywords_of (values_of (map view items.now))) }
{
    for item in items {
        passed.take(item);
    }
}

/// Reads what stands in front of a text, which stands from a place of the stream on.
#[inline(always)]
fn read_front(
    means: &mut Means,
    keyed: bool,
    text: &[u8],
    place: u64,
    ready: &mut Ready,
    names: &mut Names,
) -> Result<Front, OutOfMemory>
    requires { place + length text.now ≤ most }
    ensures begun { Begins names.old names.new }
    ensures put { IsPutBehind ready.old.events.items ready.new.events.items }
    ensures within { IfOk result (IsWithin text.now) }
    ensures front { IfOk result (λ front. (m : Reading) → IsReading keyed names.new m → IsFront m text.now place (gathered ready.old) (gathered ready.new) front) }
{
    match next_small(means, keyed, text, 0, LEVELS) {
        Some(small) => {
            put_small(&mut ready.events, small)?;
            Ok(Front::Element(small.used))
        }
        None => read_usual(means, keyed, text, place, ready, names),
    }
}

/// Reads what stands in front of a text, where that is no map like those before it.
#[inline(never)]
fn read_usual(
    means: &mut Means,
    keyed: bool,
    text: &[u8],
    place: u64,
    ready: &mut Ready,
    names: &mut Names,
) -> Result<Front, OutOfMemory>
    requires { place + length text.now ≤ most }
    ensures begun { Begins names.old names.new }
    ensures put { IsPutBehind ready.old.events.items ready.new.events.items }
    ensures within { IfOk result (IsWithin text.now) }
    ensures front { IfOk result (λ front. (m : Reading) → IsReading keyed names.new m → IsFront m text.now place (gathered ready.old) (gathered ready.new) front) }
{
    places();
    match next_usual(means, keyed, text, 0, LEVELS, names) {
        Some(taken) => {
            put_event(&mut ready.events, taken.event)?;
            Ok(Front::Element(taken.used))
        }
        None => read_unusual(means, keyed, text, place, ready, names),
    }
}

/// Reads what stands in front of a text, where that is no usual map. It stands apart, so that a usual map sets nothing up for it.
#[inline(never)]
fn read_unusual(
    means: &mut Means,
    keyed: bool,
    text: &[u8],
    place: u64,
    ready: &mut Ready,
    names: &mut Names,
) -> Result<Front, OutOfMemory>
    requires { place + length text.now ≤ most }
    ensures begun { Begins names.old names.new }
    ensures put { IsPutBehind ready.old.events.items ready.new.events.items }
    ensures within { IfOk result (IsWithin text.now) }
    ensures front { IfOk result (λ front. (m : Reading) → IsReading keyed names.new m → IsFront m text.now place (gathered ready.old) (gathered ready.new) front) }
{
    places();
    match whole_row(means, keyed, text, names)? {
        Some((row, used)) => tell_row(row, used, place, ready),
        None => read_element(means.alloc, keyed, text, place, ready, names),
    }
}

/// Puts what waits of a list or vector that is whole, in front of a text from a place of the stream on, behind what is ready.
fn tell_row(row: Row, used: usize, place: u64, ready: &mut Ready) -> Result<Front, OutOfMemory>
    requires { place + row_begun row.series ≤ most }
    ensures put { IsPutBehind ready.old.events.items ready.new.events.items }
    ensures within { IfOk result (λ front. (text : List ℕ) → IsWholeRow row text used → IsWithin text front) }
    ensures front { IfOk result (λ front. (m : Reading) (text : List ℕ) → IsWhole m row text used → IsFront m text place (gathered ready.old) (gathered ready.new) front) }
{
    places();
    put_all(&mut ready.events, row.waiting)?;
    match row.ends {
        None => {
            ready.passed.add(&row.passed);
            Ok(Front::Element(used))
        }
        Some(cause) => Ok(ends(
            used,
            Err(FollowFault::Event {
                at: place + row.series.begun() as u64,
                cause,
            }),
        )),
    }
}

/// Reads what stands in front of a text with its elements, whatever they are.
#[inline(never)]
fn read_element(
    alloc: Global,
    keyed: bool,
    text: &[u8],
    place: u64,
    ready: &mut Ready,
    names: &mut Names,
) -> Result<Front, OutOfMemory>
    requires { place + length text.now ≤ most }
    ensures begun { Begins names.old names.new }
    ensures put { IsPutBehind ready.old.events.items ready.new.events.items }
    ensures within { IfOk result (IsWithin text.now) }
    ensures front { IfOk result (λ front. (m : Reading) → IsReading keyed names.new m → IsFront m text.now place (gathered ready.old) (gathered ready.new) front) }
{
    places();
    blanks_in_front();
    match next_element(alloc, text) {
        Ok(Next::Complete { value, at, used }) => match tell(
            alloc,
            keyed,
            &value,
            &mut ready.events,
            names,
        ) {
            Ok(()) => {
                pass_over(&mut ready.passed, &value);
                Ok(Front::Element(used))
            }
            Err(fault) => match fault {
                EventFault::OutOfMemory => Err(OutOfMemory),
                cause => Ok(ends(
                    used,
                    Err(FollowFault::Event {
                        at: place + at as u64,
                        cause,
                    }),
                )),
            },
        },
        Ok(Next::Partial { at }) => Ok(ends(
            at,
            Err(FollowFault::Truncated {
                at: place + at as u64,
            }),
        )),
        Ok(Next::Blank { used }) => Ok(ends(used, Ok(()))),
        Err(fault) => match fault.cause {
            EdnCause::OutOfMemory => Err(OutOfMemory),
            cause => Ok(ends(
                0,
                Err(FollowFault::Edn {
                    at: place + fault.at as u64,
                    cause,
                }),
            )),
        },
    }
}

fn ends(used: usize, outcome: Result<(), FollowFault>) -> Front
    ensures { result ≡ Front.End (record { used = used; outcome = outcome }) }
{
    Front::End(Read { used, outcome })
}

/// Reads a text, which stands from a place of the stream on, as far as it goes.
fn read_on(
    means: &mut Means,
    keyed: bool,
    text: &[u8],
    place: u64,
    ready: &mut Ready,
    names: &mut Names,
) -> Result<Read, OutOfMemory>
    requires { place + length text.now ≤ most }
    ensures begun { Begins names.old names.new }
    ensures put { IsPutBehind ready.old.events.items ready.new.events.items }
    ensures within { IfOk result (λ r. r.used ≤ length text.now) }
    ensures read { IfOk result (λ r. (m : Reading) → IsReading keyed names.new m → IsReadTo m text.now place (gathered ready.old) (gathered ready.new) r) }
{
    let mut at = 0;
    'elements: loop {
        match read_front(means, keyed, &text[at..], place + at as u64, ready, names)? {
            Front::Element(used) => at += used,
            Front::End(read) => {
                return Ok(Read {
                    used: at + read.used,
                    outcome: read.outcome,
                });
            }
        }
    }
}

/// A text has one stream: its events, and how it ends.
pub fn streams_are_unique()
    ensures { StreamsAreUnique }
{
    readings_are_unique();
    blanks_are_skipped();
}

/// More bytes change nothing of a fault, nor of the events before it.
pub fn faults_stay()
    ensures { FaultsStay }
{
    more_bytes();
    places();
}
