//! Laws of the members of a compressed frontier. The functions do nothing.
ghost use Rattle.lin_members.specs.MemberLaws.{CrashedLaw, DominationLaw, DroppingLaw, DropOneLaw, FailKeepsLaw, InfoKeepsLaw, InvocationKeepsLaw, LeadsOnLaw, LedToLaw, ListedLaw, ListingLaw, ListingOkLaw, ObserverSearchLaw, OffersGoLaw, PlaceLaw, SkippedLaw, SpreadingLaw, StartCompleteLaw, SuccessorLaw, ThinningLaw, TransitiveLaw, UpdateSearchLaw};

use lin_events::{ends_are_unique, well_formed_is_alternating};
use lin_objects::SeqObject;
use lin_order::{configurations_after_events, configurations_at_start};

/// A process has crashed where its open operation has.
pub fn processes_crash_with_operations()
    ensures { CrashedLaw }
{
    ends_are_unique();
    well_formed_is_alternating();
}

/// What a dominated member leads to is covered by what the other leads to, so dominated members can be dropped; and so can those that
/// another one leads to.
pub fn dominated_can_go<O: SeqObject>(object: &O)
    ensures covered { DominationLaw (O.step object.now) }
    ensures dropped { DroppingLaw (O.starts object.now) (O.step object.now) }
    ensures one { DropOneLaw (O.starts object.now) (O.step object.now) }
    ensures led_to { LedToLaw (O.starts object.now) (O.step object.now) }
    ensures transitive { TransitiveLaw O.State }
    ensures thinned { ThinningLaw (O.starts object.now) (O.step object.now) }
{
    well_formed_is_alternating();
}

/// Placing an open operation stays within what a member leads to, and what it leads to it leads to after an invocation.
pub fn members_lead_on<O: SeqObject>(object: &O)
    ensures places { PlaceLaw (O.step object.now) }
    ensures invocation { LeadsOnLaw (O.step object.now) }
{
    well_formed_is_alternating();
}

/// What invocations, infos and fails leave of a complete list of members.
pub fn members_after_events<O: SeqObject>(object: &O)
    ensures invocation { InvocationKeepsLaw (O.starts object.now) (O.step object.now) }
    ensures info { InfoKeepsLaw (O.starts object.now) (O.step object.now) }
    ensures fail { FailKeepsLaw (O.starts object.now) (O.step object.now) }
{
    configurations_after_events(object);
    ends_are_unique();
    well_formed_is_alternating();
}

/// Before any event the start alone is complete.
pub fn start_is_complete<O: SeqObject>(object: &O)
    ensures { StartCompleteLaw (O.starts object.now) (O.step object.now) }
{
    configurations_at_start(object);
}

/// After a completion what is on offer to its process no longer counts.
pub fn ended_offers_go<O: SeqObject>(object: &O)
    ensures { OffersGoLaw O.State }
{
    well_formed_is_alternating();
}

/// What an ok makes of a complete list of members, as a search does it, or at once where the operation goes ahead of all others.
pub fn members_after_ok<O: SeqObject>(object: &O)
    ensures observer { ObserverSearchLaw (O.starts object.now) (O.step object.now) }
    ensures update { UpdateSearchLaw (O.starts object.now) (O.step object.now) }
{
    configurations_after_events(object);
    ends_are_unique();
    well_formed_is_alternating();
}

/// What a search makes of a member by an update, and what it may leave out.
pub fn successors_dominate<O: SeqObject>(object: &O)
    ensures successor { SuccessorLaw (O.step object.now) }
    ensures skipped { SkippedLaw (O.step object.now) }
{}

/// Where others hold a member with the offers to one process taken, they lead to all that it leads to.
pub fn offers_can_be_taken<O: SeqObject>(object: &O)
    ensures { SpreadingLaw (O.starts object.now) (O.step object.now) }
{}

/// Members that have nothing on offer and are closed under placing cover each configuration themselves; such a list is complete, and
/// stays so at an ok without a search.
pub fn members_cover_configurations<O: SeqObject>(object: &O)
    ensures listing { ListingLaw (O.starts object.now) (O.step object.now) }
    ensures listed { ListedLaw (O.starts object.now) (O.step object.now) }
    ensures ok { ListingOkLaw (O.starts object.now) (O.step object.now) }
{
    configurations_after_events(object);
    ends_are_unique();
    well_formed_is_alternating();
}
