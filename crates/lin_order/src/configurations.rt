//! Laws of the configurations of a history that has one object, for the proofs of crates above. The functions do nothing.
ghost use Rattle.lin_order.specs.ConfigurationExamples.{HasEachCompletion, HasTheseConfigurations, TwoWritesAreWellFormed};
ghost use Rattle.lin_order.specs.ConfigurationLaws.{AtStart, FailLaw, InfoLaw, InvocationLaw, LegalOrdersEnd, OkLaw, PlacingIsLegal, PrefixesAreLinearizableBy};

use lin_events::well_formed_is_alternating;
use lin_objects::{SeqObject, replies_decide};

/// The empty history has one configuration.
pub fn configurations_at_start<O: SeqObject>(object: &O)
    ensures { AtStart (O.starts object.now) (O.step object.now) }
{}

/// Placing an open operation last makes a legal order of a legal order.
pub fn placing_is_legal<O: SeqObject>(object: &O)
    ensures { PlacingIsLegal (O.starts object.now) (O.step object.now) }
{}

/// What one more event makes of the configurations.
pub fn configurations_after_events<O: SeqObject>(object: &O)
    ensures invocation { InvocationLaw (O.starts object.now) (O.step object.now) }
    ensures ok { OkLaw (O.starts object.now) (O.step object.now) }
    ensures fail { FailLaw (O.starts object.now) (O.step object.now) }
    ensures info { InfoLaw (O.starts object.now) (O.step object.now) }
{
    well_formed_is_alternating();
}

/// Each legal order of a well-formed history ends in a configuration.
pub fn legal_orders_end<O: SeqObject>(object: &O)
    ensures { LegalOrdersEnd (O.starts object.now) (O.step object.now) }
{
    well_formed_is_alternating();
}

/// Each prefix of a history that is linearizable for one object is so too.
pub fn prefixes_are_linearizable_by<O: SeqObject>(object: &O)
    ensures { PrefixesAreLinearizableBy (O.starts object.now) (O.step object.now) }
{}

/// Two histories of a register as examples: one with each kind of completion is well-formed, and two writes at once have just these
/// five configurations.
pub fn configurations_of_two_writes()
    ensures each { HasEachCompletion }
    ensures writes { TwoWritesAreWellFormed }
    ensures five { HasTheseConfigurations }
{
    well_formed_is_alternating();
    replies_decide();
}
