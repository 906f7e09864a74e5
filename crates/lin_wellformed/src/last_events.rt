//! Where each process has its last event, as events come and are taken back.
ghost use Rattle.std.specs.Prelude.{◌≡◌, ◌<◌, ◌∷◌, ◌++◌, [], ℕ, IfOk, OnOk, OnErr, length};
ghost use Rattle.lin_wellformed.specs.Tables.{IsLastPlace};

use crate::codes::{code_of, grow, place_of};
use lin_events::OutOfMemory;
use std::alloc::Global;
use std::marker::Model;

/// What one event changed: its process, by number, has its last event here, and had it before at the place of this code.
///
/// There is one for each event of a history, so both take four bytes.
#[derive(Clone, Copy)]
pub(crate) struct Change {
    number: u32,
    before: u32,
}

/// Where the processes of some events, by their numbers, have their last events, and what each event changed.
#[derive(Drop)]
pub(crate) struct LastEvents {
    /// For each process the code of the place.
    last: Vec<u32>,
    changes: Vec<Change>,
}

impl Model for LastEvents {
    ghost use Rattle.std.specs.Prelude.{ℕ, List};
    ghost use Rattle.lin_wellformed.specs.Tables.{AreLast, numbers_in};

    ghost Value = { List ℕ };

    ghost view = { λ t. numbers_in t.changes.items };

    ghost invariant = { λ t. AreLast t.last.items t.changes.items };
}

impl LastEvents {
    /// No event.
    pub(crate) fn new(alloc: Global) -> LastEvents
        ensures { result ≡ [] }
    {
        LastEvents {
            last: Vec::new(alloc),
            changes: Vec::new(alloc),
        }
    }

    /// How many events there are.
    pub(crate) fn len(&self) -> usize
        ensures { result ≡ length self.now }
    {
        self.changes.len()
    }

    /// One more event, of the process with this number. Tells where that had its last event before.
    pub(crate) fn push(&mut self, number: usize) -> Result<Option<usize>, OutOfMemory>
        ensures last { IfOk result (IsLastPlace self.old number) }
        ensures pushed { OnOk result (self.new ≡ self.old ++ number ∷ []) }
        ensures err { OnErr result (self.new ≡ self.old) }
    {
        let Ok(short) = u32::try_from(number) else {
            return Err(OutOfMemory);
        };
        let code = code_of(self.changes.len())?;
        grow(&mut self.last, number)?;
        self.changes.reserve(1)?;
        let before = self.last[number];
        self.last[number] = code;
        self.changes.push_reserved(Change {
            number: short,
            before,
        });
        Ok(place_of(before))
    }

    /// Takes the last event back: its process has its last event again where it had it before.
    pub(crate) fn pop(&mut self)
        requires { 0 < length self.old }
        ensures { (number : ℕ) × (self.old ≡ self.new ++ number ∷ []) }
    {
        if let Some(change) = self.changes.pop() {
            self.last[change.number as usize] = change.before;
        }
    }
}
