//! Laws of the part of a history that is of one object, for the proofs of crates above: it may be judged alone. The
//! functions do nothing.
ghost use Rattle.lin_order.specs.PartLaws.{LinearizableByPart, NoPositionsAtStart, OrdersCanBeRenamed, PartsAreWellFormed, PartsGrow, PartsKeepOperations, PartsOfPrefixes, PartsUpToPositions, PositionsSpellParts, PrefixesCutPositions, RenamedOrdersAreLegal};

use lin_events::well_formed_is_alternating;

/// The events at the positions of a key are the part of the history that is of the key.
pub fn positions_spell_parts()
    ensures { PositionsSpellParts }
{}

/// What one more event makes of a part and of its positions.
pub fn parts_grow()
    ensures empty { NoPositionsAtStart }
    ensures more { PartsGrow }
{}

/// The part of a prefix is a prefix of the part.
pub fn parts_of_prefixes()
    ensures prefixes { PartsOfPrefixes }
    ensures cut { PrefixesCutPositions }
    ensures up_to { PartsUpToPositions }
{}

/// The part of a well-formed history is well-formed, and its operations stand, end and precede each other as in the
/// whole.
pub fn parts_keep_operations()
    ensures well_formed { PartsAreWellFormed }
    ensures operations { PartsKeepOperations }
{
    well_formed_is_alternating();
}

/// The orders of a part are the orders of the whole for its object, with positions renamed, and are legal together. So
/// a history is linearizable for an object exactly when the object's part of it is linearizable.
pub fn parts_keep_orders()
    ensures renamed { RenamedOrdersAreLegal }
    ensures all { OrdersCanBeRenamed }
    ensures linearizable { LinearizableByPart }
{
    well_formed_is_alternating();
}
