//! Usual maps, found by what earlier ones were like.
//!
//! A recorder writes its maps alike, so their keys and what stands round them are seldom looked at again: they are compared as a whole.
ghost use Rattle.std.specs.Prelude.{◌≡◌, ℕ, ◌<◌, ◌≤◌, IfSome, length, slice_index};
ghost use Rattle.lin_history.specs.inner.Usual.{IsMapAt, IsUpTo};

use crate::usual::{Field, NOWHERE, ValueExtents, field_named, keep, usual_value};
use lin_edn::{LANES, Segment, white_until};
use std::alloc::Global;
use std::marker::Model;

/// So many outlines are kept.
const MOST: usize = 4;

/// A map has so many keys at most.
const KEYS: usize = 16;

/// So many levels has the value of a key that is looked at.
const LEVELS: usize = 2;

/// Of the first so many maps that have none of the outlines the own one is kept, and then of one in so many more.
const EARLY: u32 = 16;

const SELDOM: u32 = 256;

/// A key, with what stands round it, and the field that it is of.
#[derive(Drop)]
struct KnownKey {
    segment: Segment,
    field: Field,
}

impl Model for KnownKey {
    ghost use Rattle.lin_edn.specs.Segments.{Between};
    ghost use Rattle.lin_history.specs.inner.Usual.{IsKeyOf};

    ghost Value = { Between };

    ghost view = { λ k. k.segment };

    ghost invariant = { λ k. IsKeyOf k.field k.segment.run };
}

/// The keys of a map, in order.
#[derive(Drop)]
struct Outline {
    keys: Vec<KnownKey>,
}

/// What maps are read by: where memory comes from, and what maps so far were like.
#[derive(Drop)]
pub struct Means {
    pub(crate) alloc: Global,
    kept: Vec<Outline>,
    // Whether outlines are kept.
    is_keeping: bool,
    // How many maps had none of the outlines.
    missed: u32,
}

impl KnownKey {
    /// Takes the usual entry at a place if it has this key, and tells where it ends; that place where it hasn't.
    #[inline(always)]
    fn take(
        &self,
        text: &[u8],
        from: usize,
        end: usize,
        levels: usize,
        places: &mut ValueExtents,
    ) -> usize
        requires begun { from ≤ end }
        requires inside { end ≤ length text.now }
        ensures within { (from ≤ result) × (result ≤ end) }
        ensures taken { from < result → (start : ℕ) → IsUpTo text.now start levels from places.old → IsUpTo text.now start levels result places.new }
    {
        if end - from < LANES {
            return from;
        }
        if !self.segment.stands(text, from) {
            return from;
        }
        let at = from + self.segment.size();
        let (place, used) = usual_value(text, at, end, levels);
        if used == at {
            return from;
        }
        if !keep(places, self.field, place) {
            return from;
        }
        used
    }
}

impl Outline {
    /// The usual map whose opening byte stands at a place, with so many levels inside at most, and where it ends, if it has this outline.
    #[inline(always)]
    fn map_at(
        &self,
        text: &[u8],
        from: usize,
        end: usize,
        levels: usize,
    ) -> Option<(ValueExtents, usize)>
        requires begun { from < end }
        requires inside { end ≤ length text.now }
        requires opens { slice_index text.now from ≡ 123 }
        ensures within { IfSome result (λ r. (from < r.1) × (r.1 ≤ end)) }
        ensures map { IfSome result (λ r. IsMapAt text.now from levels r.0 r.1) }
    {
        let mut places = NOWHERE;
        let mut at = from + 1;
        for key in self.keys.as_slice() {
            let used = key.take(text, at, end, levels, &mut places);
            if used == at {
                return None;
            }
            at = used;
        }
        let last = white_until(text, at, end);
        if last == end {
            return None;
        }
        if text[last] != b'}' {
            return None;
        }
        Some((places, last + 1))
    }
}

/// Whether the map that is open ends behind white.
fn closes(text: &[u8], at: usize, end: usize) -> bool
    requires begun { at ≤ end }
    requires inside { end ≤ length text.now }
{
    let last = white_until(text, at, end);
    if last == end {
        return false;
    }
    text[last] == b'}'
}

/// The key at a place, and where its value ends.
fn key_at(text: &[u8], from: usize, end: usize) -> Option<(KnownKey, usize)>
    requires begun { from ≤ end }
    requires inside { end ≤ length text.now }
    ensures { IfSome result (λ r. (from ≤ r.1) × (r.1 ≤ end)) }
{
    if end - from < LANES {
        return None;
    }
    let segment = Segment::found(text, from)?;
    let at = from + segment.size();
    let (_, used) = usual_value(text, at, end, LEVELS);
    if used == at {
        return None;
    }
    let field = field_named(segment.run());
    Some((KnownKey { segment, field }, used))
}

/// The outline of the map whose opening byte stands at a place.
fn outline_at(alloc: Global, text: &[u8], from: usize, end: usize) -> Option<Outline>
    requires begun { from < end }
    requires inside { end ≤ length text.now }
{
    let mut keys = Vec::new(alloc);
    let mut at = from + 1;
    for _ in 0..KEYS {
        let (key, used) = key_at(text, at, end)?;
        keys.push(key).ok()?;
        if closes(text, used, end) {
            return Some(Outline { keys });
        }
        at = used;
    }
    None
}

impl Means {
    /// Those of a text whose maps come one after another.
    pub fn new(alloc: Global) -> Means {
        Means {
            alloc,
            kept: Vec::new(alloc),
            is_keeping: true,
            missed: 0,
        }
    }

    /// Those of one map alone, of which no outline is kept.
    pub(crate) fn alone(alloc: Global) -> Means {
        Means {
            alloc,
            kept: Vec::new(alloc),
            is_keeping: false,
            missed: 0,
        }
    }

    /// The usual map whose opening byte stands at a place, with so many levels inside at most, and where it ends, if it has one of the
    /// outlines.
    #[inline(always)]
    pub(crate) fn find(
        &self,
        text: &[u8],
        from: usize,
        end: usize,
        levels: usize,
    ) -> Option<(ValueExtents, usize)>
        requires begun { from < end }
        requires inside { end ≤ length text.now }
        requires opens { slice_index text.now from ≡ 123 }
        ensures within { IfSome result (λ r. (from < r.1) × (r.1 ≤ end)) }
        ensures map { IfSome result (λ r. IsMapAt text.now from levels r.0 r.1) }
    {
        for outline in self.kept.as_slice() {
            let found = outline.map_at(text, from, end, levels);
            if found.is_some() {
                return found;
            }
        }
        None
    }

    /// Keeps the outline of the map whose opening byte stands at a place, in place of the oldest one where there are many. Where memory is
    /// refused it is left out.
    #[inline(never)]
    pub(crate) fn keep(&mut self, text: &[u8], from: usize, end: usize)
        requires begun { from < end }
        requires inside { end ≤ length text.now }
    {
        if !self.is_keeping {
            return;
        }
        self.missed = self.missed.wrapping_add(1);
        if self.missed > EARLY && self.missed % SELDOM != 0 {
            return;
        }
        let Some(outline) = outline_at(self.alloc, text, from, end) else {
            return;
        };
        if self.kept.len() >= MOST {
            self.kept.remove(0);
        }
        let _ = self.kept.push(outline);
    }
}
