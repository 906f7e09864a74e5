//! A history of its own, without what was found of it.
ghost use Rattle.std.specs.Prelude.{◌≡◌};

use crate::present::Present;
use lin_events::Event;
use lin_objects::Kinds;
use std::marker::Model;

/// A history with the kinds of its objects and a budget, on memory of its own.
#[derive(Drop)]
pub struct WholeHistory {
    events: Vec<Event>,
    kinds: Kinds,
    budget: u32,
}

impl Model for WholeHistory {
    ghost use Rattle.lin_answers.specs.Edits.{Present as PresentOf};

    ghost Value = { PresentOf };

    ghost view = { λ h. record { history = h.events.items; kinds = h.kinds; budget = h.budget } };
}

impl WholeHistory {
    /// These events, on the memory that they have, of objects of these kinds.
    pub fn of(events: Vec<Event>, kinds: Kinds, budget: u32) -> WholeHistory
        ensures { result ≡ record { history = events.items; kinds = kinds; budget = budget } }
    {
        WholeHistory {
            events,
            kinds,
            budget,
        }
    }

    /// The history as it stands.
    pub fn present(&self) -> Present<'_>
        ensures { result ≡ self.now }
    {
        Present::of(&self.events, &self.kinds, self.budget)
    }

    /// The events, on the memory that they have.
    pub fn into_events(self) -> Vec<Event>
        ensures { result.items ≡ self.history }
    {
        self.events
    }
}
