//! A register's write and read at once: members and rounds in small. The function does nothing.
ghost use Rattle.lin_members.specs.MemberExamples.{CoversCrashed, IsPutBefore, IsStillComplete, IsTooLate, OffersCount, ReadsEarly, SpellsTheseRounds};

use crate::member_laws::{members_after_events, members_after_ok, start_is_complete};
use crate::round_laws::{rounds_after_events, rounds_spell_members, rounds_take_operations};
use lin_events::well_formed_is_alternating;
use lin_objects::{Any, Kind};

/// What members of a register lead to, and the rounds by which they are come to.
pub fn members_of_a_register()
    ensures early { ReadsEarly }
    ensures complete { IsStillComplete }
    ensures offers { OffersCount }
    ensures crashed { CoversCrashed }
    ensures nodes { SpellsTheseRounds }
    ensures put { IsPutBefore }
    ensures late { IsTooLate }
{
    let register = Any {
        kind: Kind::Register,
    };
    start_is_complete(&register);
    members_after_events(&register);
    members_after_ok(&register);
    rounds_spell_members(&register);
    rounds_take_operations(&register);
    rounds_after_events(&register);
    well_formed_is_alternating();
}
