//! Laws of kinds and of the steps of objects, for the proofs of crates above. The functions do nothing.
ghost use Rattle.lin_objects.specs.Kinds.{ChangesOneKind, NamesOneKey};
ghost use Rattle.lin_objects.specs.Laws.{StepsAreAllowed, RepliesDecide};

/// An object takes only calls of functions that its kind has.
pub fn steps_are_allowed()
    ensures { StepsAreAllowed }
{}

/// The state before and the reply decide the state after.
pub fn replies_decide()
    ensures { RepliesDecide }
{}

/// What naming a key does.
pub fn naming()
    ensures kinds { ChangesOneKind }
    ensures names { NamesOneKey }
{}
