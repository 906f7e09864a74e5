//! The event of the element in front of a text.
ghost use Rattle.lin_names.specs.Names.{Begins};
ghost use Rattle.lin_history.specs.Next.{SaysEvent};

use crate::outlines::Means;
use crate::row::next_taken;
use crate::table::{EventFault, event_of};
use crate::usual::LEVELS;
use lin_edn::{EdnFault, Next, next_element};
use lin_events::Event;
use lin_names::Names;
use std::alloc::Global;

/// What stands at the front of a text.
#[derive(Drop)]
pub enum NextEvent {
    /// After blanks an element, which ends before `used`, and what `event_of` says of it.
    Complete {
        said: Result<Option<Event>, EventFault>,
        used: usize,
    },
    /// The bytes from `at` on are the unfinished beginning of an element or discard.
    Partial {
        at: usize,
    },
    /// Blanks of `used` bytes, and then nothing or an unfinished comment.
    Blank {
        used: usize,
    },
}

/// The event of the element at the front of a text, or what stands there in its place: what `event_of` says of what `next_element` reads.
///
/// `EdnCause::OutOfMemory` may stand in place of any answer. A usual map is read without building its elements.
pub fn next_event(
    alloc: Global,
    text: &[u8],
    keyed: bool,
    names: &mut Names,
) -> Result<NextEvent, EdnFault>
    ensures begun { Begins names.old names.new }
    ensures says { SaysEvent keyed names.new text.now result }
{
    next_event_by(&mut Means::alone(alloc), text, keyed, names)
}

/// The same, by what maps so far were like: a map that is like one of those is found by what stands between its values.
pub fn next_event_by(
    means: &mut Means,
    text: &[u8],
    keyed: bool,
    names: &mut Names,
) -> Result<NextEvent, EdnFault>
    ensures begun { Begins names.old names.new }
    ensures says { SaysEvent keyed names.new text.now result }
{
    if let Some(taken) = next_taken(means, keyed, text, 0, LEVELS, names) {
        return Ok(NextEvent::Complete {
            said: Ok(taken.event),
            used: taken.used,
        });
    }
    match next_element(means.alloc, text)? {
        Next::Complete { value, at: _, used } => Ok(NextEvent::Complete {
            said: event_of(means.alloc, &value, keyed, names),
            used,
        }),
        Next::Partial { at } => Ok(NextEvent::Partial { at }),
        Next::Blank { used } => Ok(NextEvent::Blank { used }),
    }
}
