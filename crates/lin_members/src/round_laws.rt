//! Laws of the rounds by which members are come to. The functions do nothing.
ghost use Rattle.lin_members.specs.RoundLaws.{ExactLaw, FewerLaw, SoundLaw, TrailEndsLaw, TrailFailLaw, TrailInfoLaw, TrailInvocationLaw, TrailObserverLaw, TrailOkLaw, TrailPlacesLaw, TrailReturnLaw, TrailStartLaw, TrailTakesLaw};

use lin_events::well_formed_is_alternating;
use lin_objects::SeqObject;
use lin_order::{configurations_after_events, configurations_at_start, placing_is_legal};

/// The rounds of a member spell a legal order that ends in it, and they do so with fewer offers; before any event there is one round.
pub fn rounds_spell_members<O: SeqObject>(object: &O)
    ensures start { TrailStartLaw (O.starts object.now) (O.step object.now) }
    ensures ends { TrailEndsLaw (O.starts object.now) (O.step object.now) }
    ensures fewer { FewerLaw (O.starts object.now) (O.step object.now) }
{
    configurations_at_start(object);
}

/// Placing an open operation begins a round, and an observer is put at the end of the round that offers its reply.
pub fn rounds_take_operations<O: SeqObject>(object: &O)
    ensures places { TrailPlacesLaw (O.starts object.now) (O.step object.now) }
    ensures takes { TrailTakesLaw (O.starts object.now) (O.step object.now) }
{
    placing_is_legal(object);
    well_formed_is_alternating();
}

/// What one more event leaves of rounds.
pub fn rounds_after_events<O: SeqObject>(object: &O)
    ensures invocation { TrailInvocationLaw (O.starts object.now) (O.step object.now) }
    ensures info { TrailInfoLaw (O.starts object.now) (O.step object.now) }
    ensures fail { TrailFailLaw (O.starts object.now) (O.step object.now) }
    ensures ok { TrailOkLaw (O.starts object.now) (O.step object.now) }
    ensures observer { TrailObserverLaw (O.starts object.now) (O.step object.now) }
    ensures placed { TrailReturnLaw (O.starts object.now) (O.step object.now) }
{
    configurations_after_events(object);
    placing_is_legal(object);
    well_formed_is_alternating();
}

/// All that a member with rounds leads to is true, so a complete list of such members is empty just where no configuration exists.
pub fn members_are_exact<O: SeqObject>(object: &O)
    ensures sound { SoundLaw (O.starts object.now) (O.step object.now) }
    ensures exact { ExactLaw (O.starts object.now) (O.step object.now) }
{
    placing_is_legal(object);
    well_formed_is_alternating();
}
