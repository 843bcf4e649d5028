//! The members of the clusters that events lie in: for each trace and level a list that is shared
//! by all stamps that are made while the cluster stays the same.
//!
//! [`ClusterMembers`] keeps for each level and each trace the list of its cluster at some earlier
//! moment, where one was asked for. Clusters only grow, so such a list is still that of the cluster
//! exactly where it has as many traces as the cluster has now, and nothing that is kept need ever
//! be marked as old. So what an event costs is a look at two numbers where the list is kept and the
//! cluster hasn't grown since, and else a pass over the traces.
//!
//! An event's members are those right after its own merge. [`ClusterMembers::members_after`] gives
//! them before the merge is done, and may be refused for want of memory; it keeps nothing, since
//! another merge may come instead. [`ClusterMembers::keep`] takes the list once it is that of the
//! cluster, and no memory.
//!
//! A caller's invariant is that its levels stand after its communications, and that `AreKept` of
//! `specs/Kept.antt` holds after these. By `kept_grows` of `proofs/CallerLemmas.antt` it goes on
//! holding as a merge is applied, and `members_are` says that the lists are the members which the
//! definitions have of an event.
#![tactic(auto)]

pub use cluster_members::ClusterMembers;

mod cluster_members;
mod level_members;
