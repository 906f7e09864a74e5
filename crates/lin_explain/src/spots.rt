//! Events that an explanation speaks of, in parts, and what they are told by.
ghost use Rattle.std.specs.Prelude.{◌≡◌, IfOk, option_map};
ghost use Rattle.lin_explain.specs.Parts.{IsSpot, place_of};

use crate::events::put_whole_event;
use crate::parts::Spot;
use lin_events::{Event, OutOfMemory};
use lin_names::Names;
use lin_texts::Place;
use std::alloc::Global;

/// What events are told by besides themselves.
#[derive(Clone, Copy)]
pub(crate) struct Origin<'a> {
    /// The spellings of words.
    pub(crate) names: &'a Names,
    /// Where the events of the whole history stand in the recording, if there is one.
    pub(crate) places: Option<&'a [Place]>,
}

/// Where the event at the position stands in the recording, if there is one.
fn place_at(places: Option<&[Place]>, at: usize) -> Option<Place>
    ensures { result ≡ place_of (option_map (λ p. p.now) places.entry) at }
{
    match places {
        Some(places) => match places.get(at) {
            Some(place) => Some(*place),
            None => None,
        },
        None => None,
    }
}

/// The event at the position.
pub(crate) fn spot_of(
    alloc: Global,
    origin: &Origin,
    at: usize,
    event: &Event,
) -> Result<Spot, OutOfMemory>
    ensures { IfOk result (IsSpot origin.now.names.now (option_map (λ p. p.now) origin.now.places) at event.now) }
{
    let mut words = Vec::new(alloc);
    put_whole_event(&mut words, origin.names, event)?;
    Ok(Spot {
        at,
        words,
        place: place_at(origin.places, at),
    })
}
