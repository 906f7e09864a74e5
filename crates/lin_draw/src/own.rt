//! The events of one object.
ghost use Rattle.std.specs.Prelude.{◌≡◌, ◌∷◌, ◌++◌, [], OnOk};

use lin_answers::Present;
use lin_events::{Event, Item, OutOfMemory};
use std::alloc::Global;

/// The events of an object among the first so many of a history, and their positions in it.
#[derive(Drop)]
pub(crate) struct Own {
    pub(crate) events: Vec<Event>,
    pub(crate) picks: Vec<usize>,
}

/// Takes in one more event of the object, and where it stands.
fn take_in(alloc: Global, own: &mut Own, event: &Event, at: usize) -> Result<(), OutOfMemory>
    ensures { OnOk result ((own.new.events.items ≡ own.old.events.items ++ event.now ∷ []) × (own.new.picks.items ≡ own.old.picks.items ++ at ∷ [])) }
{
    own.events.push(event.copy(alloc)?)?;
    own.picks.push(at)?;
    Ok(())
}

/// The events of the key's object among the first so many of the history.
pub(crate) fn own_of(
    alloc: Global,
    present: &Present<'_>,
    key: Item,
    count: usize,
) -> Result<Own, OutOfMemory> {
    let mut own = Own {
        events: Vec::new(alloc),
        picks: Vec::new(alloc),
    };
    for at in 0..count {
        if let Some(event) = present.event(at)
            && event.key == key
        {
            take_in(alloc, &mut own, event, at)?;
        }
    }
    Ok(own)
}

impl Own {
    /// The position in the history of the object's event at the place.
    pub(crate) fn position(&self, at: usize) -> usize {
        match self.picks.get(at) {
            Some(position) => *position,
            None => 0,
        }
    }

    /// How many of them stand up to and with the position in the history.
    pub(crate) fn count_to(&self, position: usize) -> usize {
        for (at, pick) in self.picks.iter().enumerate() {
            if *pick > position {
                return at;
            }
        }
        self.picks.len()
    }

    /// All of these events but the last one and the one at the place.
    pub(crate) fn without(
        &self,
        alloc: Global,
        left_out: Option<usize>,
    ) -> Result<Own, OutOfMemory> {
        let mut rest = Own {
            events: Vec::new(alloc),
            picks: Vec::new(alloc),
        };
        for at in 0..self.events.len().saturating_sub(1) {
            if left_out != Some(at)
                && let Some(event) = self.events.get(at)
            {
                take_in(alloc, &mut rest, event, self.position(at))?;
            }
        }
        Ok(rest)
    }
}
