//! Laws of members that stand also for what overwritten updates did. The functions do nothing.
ghost use Rattle.lin_members.specs.OverwrittenLaws.{AboveLaw, AheadLaw, AllowsBeginsLaw, AllowsOnLaw, AllowsPutLaw, CompleteAloneLaw, FailWithLaw, InfoWithLaw, InvocationWithLaw, NoneOverwrittenLaw, ObserverWithLaw, SoundWithLaw, UpdateWithLaw};

use lin_events::{ends_are_unique, well_formed_is_alternating};
use lin_objects::SeqObject;
use lin_order::{configurations_after_events, placing_is_legal};

/// Members that others are above can be dropped; and where no update is early enough to be overwritten, members lead to all
/// configurations just where they do so alone.
pub fn overwritten_can_go<O: SeqObject>(object: &O)
    ensures above { AboveLaw (O.starts object.now) (O.step object.now) }
    ensures none { NoneOverwrittenLaw (O.starts object.now) (O.step object.now) }
    ensures alone { CompleteAloneLaw (O.starts object.now) (O.step object.now) }
{}

/// What invocations, infos and fails leave of members that lead to all configurations.
pub fn overwritten_after_events<O: SeqObject>(object: &O)
    ensures invocation { InvocationWithLaw (O.starts object.now) (O.step object.now) }
    ensures info { InfoWithLaw (O.starts object.now) (O.step object.now) }
    ensures fail { FailWithLaw (O.starts object.now) (O.step object.now) }
{
    configurations_after_events(object);
    ends_are_unique();
    well_formed_is_alternating();
}

/// What an ok of an update makes of them.
pub fn overwritten_after_update<O: SeqObject>(object: &O)
    ensures { UpdateWithLaw (O.starts object.now) (O.step object.now) }
{
    configurations_after_events(object);
    ends_are_unique();
    well_formed_is_alternating();
}

/// What an ok of an observer makes of them.
pub fn overwritten_after_observer<O: SeqObject>(object: &O)
    ensures { ObserverWithLaw (O.starts object.now) (O.step object.now) }
{
    configurations_after_events(object);
    ends_are_unique();
    well_formed_is_alternating();
}

/// An early update can be put ahead of the last round.
pub fn rounds_go_ahead<O: SeqObject>(object: &O)
    ensures { AheadLaw (O.starts object.now) (O.step object.now) }
{
    well_formed_is_alternating();
}

/// All that a member with rounds leads to with early updates is true.
pub fn overwritten_are_sound<O: SeqObject>(object: &O)
    ensures { SoundWithLaw (O.starts object.now) (O.step object.now) }
{
    placing_is_legal(object);
    well_formed_is_alternating();
}

/// What rounds allow after an event.
pub fn rounds_allow_overwritten<O: SeqObject>()
    ensures on { AllowsOnLaw O.State }
    ensures put { AllowsPutLaw O.State }
    ensures begins { AllowsBeginsLaw O.State }
{}
