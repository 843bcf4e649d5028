//! What the definitions of [`causal_base`] imply. Each function here is empty: its contract is a
//! law.
#![tactic(auto)]

pub use clock::{
    clock_exists, clock_grows_along_walks, clock_is_one, clock_of_one, clock_of_pair, clock_stays,
    clock_tells_reach, partners_share_clock,
};
pub use cluster::{cluster_stays, clusters_grow, clusters_nest, clusters_part_traces, top_has_all};
pub use delivery::clock_stays_among_deliveries;
pub use entry::{bound_by_level, clock_is_greatest_of_entries, entry_is_found, walk_enters_above};
pub use next::next_is_one;
pub use number::{
    delivered_are_counted, delivered_are_numbered, delivered_has_own_id, delivered_is_on_a_trace,
};
pub use order::{before_is_strict, relation_is_one};
pub use pair::{
    pair_is_of_partners, partners_reach_each_other, partners_share_future, partners_share_past,
    sync_never_goes_alone, sync_stands_in_a_pair,
};
pub use past::{past_stays, walk_stays_in_past};
pub use prefix::{delivered_stays, legal_prefix};
pub use settled::{enabled_stays, in_turn_is_one, in_turn_is_settled, same_delivered, same_length};
pub use stamp::{
    level_is_in_range, members_are_few, own_history_has_clock, own_trace_is_member, stamp_is_one,
    stamp_stays,
};

mod clock;
mod cluster;
mod delivery;
mod entry;
mod next;
mod number;
mod order;
mod pair;
mod past;
mod prefix;
mod settled;
mod stamp;
