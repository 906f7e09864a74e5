//! The places of the events of a stream that comes in pieces.
ghost use Rattle.std.specs.Prelude.{◌≡◌, ◌+◌, ◌≤◌, ◌-◌, ◌++◌, [], false, None, Some, MatchOption, Bool, ℕ, List, length, drop, IfOk, IfSome, IsSome, IsNone};
ghost use Rattle.lin_names.specs.Names.{Begins};
ghost use Rattle.lin_history.specs.Reading.{Reading, IsReading};
ghost use Rattle.lin_formats.specs.inner.Marks.{Fits, IsRead, IsResting};
ghost use Rattle.lin_formats.specs.Places.{IsBehind, IsHeld, Marks, Feeds, bad_of, unfinished_of, is_bad as says_bad};
ghost use Rattle.lin_formats.specs.Rests.{IsSeen, IsCut};

use crate::mark::{Read, read_on};
use crate::place::{Cursor, Stop};
use lin_edn::{Skim, more_bytes, places as places_lie_within};
use lin_events::OutOfMemory;
use lin_history::{Means, faults_stay};
use lin_names::Names;
use lin_texts::Place;
use std::alloc::Global;
use std::marker::Model;

/// The greatest number of bytes of a stream.
const MOST: u64 = 1_099_511_627_776;

/// A reader of the places of a stream's events, to be fed the same pieces as a `Follow`.
///
/// The place of an event is that of the first byte of its map, or of the map's first tag if it has one.
#[derive(Drop)]
pub struct Places {
    keyed: bool,
    places: Vec<Place>,
    stop: Stop,
    // The place of the first byte that is held.
    next: Place,
    // What stands behind the last whole element, from the first byte on that isn't blank.
    held: Vec<u8>,
    rest: Rest,
}

/// What is known of the bytes that are held without reading them again.
#[derive(Drop)]
struct Rest {
    // Where memory comes from.
    alloc: Global,
    means: Means,
    skim: Skim,
    // Whether the skim has seen just the bytes that are held.
    is_seen: bool,
}

impl Model for Places {
    ghost use Rattle.std.specs.Prelude.{◌+◌, ◌≤◌, suc, length};
    ghost use Rattle.lin_history.specs.Sees.{most};
    ghost use Rattle.lin_formats.specs.Places.{IsBehind, Marked};
    ghost use Rattle.lin_formats.specs.Rests.{IsSeen};

    ghost Value = { Marked };

    ghost view = { λ p. record { keyed = p.keyed; places = p.places.items; stop = p.stop; next = p.next; held = p.held.items } };

    ghost invariant = { λ p. (p.next.offset + length p.held.items ≤ most) × (p.next.line ≤ suc p.next.offset) × IsSeen p.rest p.held.items × IsBehind p.next p.stop };
}

impl Places {
    /// The places of an empty stream. With `keyed`, values are pairs of a key and a value.
    pub fn new(alloc: Global, keyed: bool) -> Places
        ensures keyed { result.keyed ≡ keyed }
        ensures marks { (m : Reading) → m.keyed ≡ keyed → Marks m result [] }
        ensures calm { says_bad result.stop ≡ false }
        ensures held { IsHeld result [] }
    {
        Places {
            keyed,
            places: Vec::new(alloc),
            stop: Stop::Nowhere,
            next: Place { offset: 0, line: 1 },
            held: Vec::new(alloc),
            rest: Rest {
                alloc,
                means: Means::new(alloc),
                skim: Skim::new(),
                is_seen: true,
            },
        }
    }

    /// The places of the events so far, in order.
    pub fn as_slice(&self) -> &[Place]
        ensures { result.now ≡ self.now.places }
    {
        self.places.as_slice()
    }

    /// The place of the map that is no event, or that a fault of EDN names, if the stream stops there.
    pub fn bad(&self) -> Option<Place>
        ensures { result ≡ bad_of self.now.stop }
    {
        match self.stop {
            Stop::Bad(place) => Some(place),
            _ => None,
        }
    }

    /// The bytes that are held from the place of the map on that is no event, or from that of a fault of EDN, if the stream stops there.
    pub fn from_bad(&self) -> Option<&[u8]>
        ensures { MatchOption result (bad_of self.now.stop ≡ None) (λ bytes. (place : Place) × (bad_of self.now.stop ≡ Some place)
            × (self.now.next.offset ≤ place.offset) × (bytes.now ≡ drop (place.offset - self.now.next.offset) self.now.held)) }
    {
        let Stop::Bad(place) = self.stop else {
            return None;
        };
        let passed = place.offset - self.next.offset;
        let held = self.held.as_slice();
        if passed > held.len() as u64 {
            return Some(&held[held.len()..]);
        }
        Some(&held[passed as usize..])
    }

    /// The place of the element or discard that is unfinished so far, if one is.
    pub fn unfinished(&self) -> Option<Place>
        ensures { result ≡ unfinished_of self.now.stop }
    {
        match self.stop {
            Stop::Unfinished(place) => Some(place),
            _ => None,
        }
    }

    /// Takes in a piece of the stream. Behind a fault, or a map that is no event, nothing is read.
    ///
    /// After `OutOfMemory` nothing changed but the names, which may have grown. It is answered too where the pieces together would pass 1,099,511,627,776 bytes.
    pub fn feed(&mut self, piece: &[u8], names: &mut Names) -> Result<(), OutOfMemory>
        ensures begun { Begins names.old names.new }
        ensures feeds { Feeds names.new self.old piece.now self.new result }
    {
        more_bytes();
        places_lie_within();
        faults_stay();
        if is_bad(&self.stop) {
            return Ok(());
        }
        if piece.len() as u64 > MOST - self.next.offset - self.held.len() as u64 {
            return Err(OutOfMemory);
        }
        match take_in(
            self.keyed,
            self.next,
            piece,
            &mut self.held,
            &mut self.rest,
            &mut self.places,
            names,
        ) {
            Ok(read) => {
                self.next = read.next.place;
                self.stop = read.stop;
                Ok(())
            }
            Err(refused) => Err(refused),
        }
    }
}

/// Whether nothing is read behind a place where a text stops.
fn is_bad(stop: &Stop) -> bool
    ensures { result ≡ says_bad stop.now }
{
    match stop {
        Stop::Bad(_) => true,
        _ => false,
    }
}

/// Puts a piece behind what is held and reads it, if something may be whole; what is read is dropped. Refused, all is as it was.
fn take_in(
    keyed: bool,
    next: Place,
    piece: &[u8],
    held: &mut Vec<u8>,
    rest: &mut Rest,
    places: &mut Vec<Place>,
    names: &mut Names,
) -> Result<Read, OutOfMemory>
    requires fits { Fits (held.old.items ++ piece.now) (record { at = 0; place = next }) }
    requires seen { IsSeen rest.old held.old.items }
    ensures begun { Begins names.old names.new }
    ensures cut { IsCut piece.now held.old.items places.old.items held.new.items places.new.items result }
    ensures behind { IfOk result (λ r. IsBehind r.next.place r.stop) }
    ensures read { IfOk result (λ r. (m : Reading) → IsReading keyed names.new m → IsRead m (held.old.items ++ piece.now) next places.old.items places.new.items r) }
    ensures seen { IsSeen rest.new held.new.items }
{
    let kept = held.len();
    let before = places.len();
    held.extend_from_slice(piece)?;
    if let Some(stop) = stop_within(rest, piece, held.as_slice(), next) {
        let next = Cursor { at: 0, place: next };
        return Ok(Read { next, stop });
    }
    match read_on(
        rest.alloc,
        &mut rest.means,
        keyed,
        held.as_slice(),
        next,
        places,
        names,
    ) {
        Ok(read) => {
            drop_front(rest.alloc, held, read.next.at);
            look_at(rest, held.as_slice());
            Ok(read)
        }
        Err(refused) => {
            held.truncate(kept);
            places.truncate(before);
            Err(refused)
        }
    }
}

/// Where a text stops that begins at a place, if it is still unfinished once a piece is put behind it.
fn stop_within(rest: &mut Rest, piece: &[u8], held: &[u8], place: Place) -> Option<Stop>
    requires { (text : List ℕ) × (held.now ≡ text ++ piece.now) × IsSeen rest.old text }
    ensures rests { IfSome result (IsResting held.now place) }
    ensures seen { IsSome result → IsSeen rest.new held.now }
    ensures unseen { IsNone result → rest.new.is_seen ≡ false }
{
    if !rest.is_seen {
        return None;
    }
    rest.is_seen = rest.skim.go_on(piece);
    if !rest.is_seen {
        return None;
    }
    if held.is_empty() || rest.skim.is_comment() {
        return Some(Stop::Nowhere);
    }
    Some(Stop::Unfinished(place))
}

/// Looks at bytes that are held anew.
fn look_at(rest: &mut Rest, held: &[u8])
    ensures { IsSeen rest.new held.now }
{
    rest.skim.clear();
    rest.is_seen = rest.skim.go_on(held);
}

/// Drops so many bytes at the front. The few behind them get a place of their own, which is quicker, or stay in place where memory is refused.
fn drop_front(alloc: Global, held: &mut Vec<u8>, used: usize)
    requires { used ≤ length held.old.items }
    ensures { held.new.items ≡ drop used held.old.items }
{
    if used == 0 {
        return;
    }
    match Vec::from_slice(alloc, &held[used..]) {
        Ok(rest) => *held = rest,
        Err(_) => {
            let left = held.len() - used;
            held.copy_within(used.., 0);
            held.truncate(left);
        }
    }
}
