//! Laws of legal orders, for the proofs of crates above. The functions do nothing.
ghost use Rattle.lin_order.specs.Laws.{EmptyIsLegal, PartsAreLegal, PrefixesAreLinearizable, PrefixesAreLinearizableFor, RepliesAreRecorded};

/// The empty order is a legal order of the empty history, for the whole and for each object.
pub fn empty_is_legal()
    ensures { EmptyIsLegal }
{}

/// An ok operation stands in an order with its recorded reply and with no other.
pub fn replies_are_recorded()
    ensures { RepliesAreRecorded }
{}

/// The part of a legal order that is of a key is a legal order for its object (locality, Herlihy and Wing 1990, section 3).
pub fn parts_are_legal()
    ensures { PartsAreLegal }
{}

/// Each prefix of a linearizable history is linearizable, for the whole and for each object.
pub fn prefixes_are_linearizable()
    ensures whole { PrefixesAreLinearizable }
    ensures object { PrefixesAreLinearizableFor }
{}
