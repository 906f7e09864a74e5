//! What a compressed frontier shows of its members.
ghost use Rattle.std.specs.Prelude.{◌≡◌, ◌≤◌, ℕ, Bool, List, Option, Some, IfSome, IfNone, length, slice_get};
ghost use Rattle.lin_events.specs.declared.items.Item.{Item as ItemOf};
ghost use Rattle.lin_events.specs.declared.calls.Name.{Name as NameOf};
ghost use Rattle.lin_events.specs.declared.events.Event.{Event as EventOf};
ghost use Rattle.lin_events.specs.WellFormed.{IsWellFormed};
ghost use Rattle.lin_order.specs.declared.placed.Placed.{Placed as PlacedOf};
ghost use Rattle.lin_members.specs.Compressed.{IsCompressed, LeadsWithin};

use crate::compressed::Compressed;
use lin_members::{Member, members_are_exact, overwritten_are_sound};
use lin_objects::SeqObject;

impl<O: SeqObject> Compressed<O> {
    /// The member at the place: its state, the open operations that it placed, what it has on offer, and how it was come by.
    pub fn get(&self, object: &O, i: usize) -> Option<&Member<O::State>>
        ensures found { IfSome result (λ m. slice_get self.now i ≡ Some m.now) }
        ensures past { IfNone result (length self.now ≤ i) }
        // Where the frontier is one of a history, which has to be well-formed, the member leads to configurations of that history alone.
        ensures sound { IfSome result (λ m. (functions : ItemOf → NameOf → Bool) (h : List EventOf) (nodes : List (ℕ × (PlacedOf × Option ℕ))) → IsWellFormed functions h
            → IsCompressed (O.starts object.now) (O.step object.now) (O.observing object.now) (O.overwriting object.now) h self.now nodes
            → LeadsWithin (O.starts object.now) (O.step object.now) (O.observing object.now) (O.overwriting object.now) h m.now) }
    {
        members_are_exact(object);
        overwritten_are_sound(object);
        self.members.get(i)
    }
}
