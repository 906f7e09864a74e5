//! Orders of the operations of a history, what a legal order is and whether a list is one (Herlihy and Wing 1990, section 2); and refutations,
//! sets of configurations that show that there is none.
#![tactic(auto)]

mod conditions;
mod configurations;
mod laws;
mod legality;
mod locality;
mod merging;
mod operations;
mod orders;
mod part_laws;
mod placed;
mod ref_configs;
mod refutations;

pub use configurations::{
    configurations_after_events, configurations_at_start, configurations_of_two_writes,
    legal_orders_end, placing_is_legal, prefixes_are_linearizable_by,
};
pub use laws::{empty_is_legal, parts_are_legal, prefixes_are_linearizable, replies_are_recorded};
pub use locality::{absent_keys_are_legal, linearizability_is_local, merged_orders_are_legal};
pub use merging::merge;
pub use operations::{call_at, end_of, ends_of, is_failed, ok_end};
pub use orders::check_order;
pub use part_laws::{
    parts_grow, parts_keep_operations, parts_keep_orders, parts_of_prefixes, positions_spell_parts,
};
pub use placed::Placed;
pub use ref_configs::RefConfig;
pub use refutations::{
    Refutation, check_refutation, exact_sets_refute, refutations_exclude_orders,
};
