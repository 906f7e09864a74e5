//! Members of a compressed frontier, each of which stands for configurations, and their laws: what they lead to, and which
//! dominate others.
#![tactic(auto)]

mod batches;
mod chains;
mod domination;
mod member_examples;
mod member_laws;
mod members;
mod offers;
mod overwritten_laws;
mod parts;
mod places;
mod pool;
mod round_laws;
mod rounds;
mod watching;

pub use domination::{covers, dominates};
pub use member_examples::members_of_a_register;
pub use member_laws::{
    dominated_can_go, members_after_events, members_after_ok, members_cover_configurations,
    start_is_complete,
};
pub use members::{
    Member, Path, advanced, bare, bare_next, copied, in_round, placed_at, push_member, put_ahead,
    put_behind, same, taken_out,
};
pub use offers::{OfferList, Offers, Shown};
pub use overwritten_laws::{
    overwritten_after_events, overwritten_after_observer, overwritten_after_update,
    overwritten_are_sound, overwritten_can_go, rounds_allow_overwritten, rounds_go_ahead,
};
pub use parts::{key, pruned_many};
pub use places::MemberPlaces;
pub use pool::Pool;
pub use round_laws::{
    members_are_exact, rounds_after_events, rounds_spell_members, rounds_take_operations,
};
pub use rounds::RoundNodes;
pub use watching::may_be_watched;
