//! Traces that communicate are put into clusters, at 1 to 4 levels, each with the most traces that
//! a cluster of it may have.
//!
//! [`Levels`] holds which traces share a cluster at each level, and how often two clusters
//! communicated where that counts. It stands after some communications where `StandsAfter` of
//! `specs/Levels.antt` says so. That has two parts, which change apart from each other:
//!
//! - `HasPartition`: the traces share as in this partition. Only [`Levels::merge`] changes it, by
//!   `joined_at` of the partition before, at its level.
//! - `IsCounted`: what is kept of the communications suffices to say which clusters may merge.
//!   [`Levels::note`] carries it on to one communication more, and `merge` keeps it.
//!
//! A caller asks [`Levels::same`], and else [`Levels::may_merge`], at each level from the top down
//! before it notes the communication of `p` and `q`: the answer counts that one too. Then it notes
//! it, and merges at each level, from the top down to the lowest one down to which all agreed, where
//! the two don't share a cluster. By `joined_none`, `joined_shared` and `joined_more` of
//! `proofs/CallerLemmas.antt` the traces then share as in `joined_from` of the partition before. By
//! `may_agrees` what was asked is what the definitions ask of that partition. So the levels from the
//! lowest one up are those where `merges_down_to` holds, and `partition_merged` says that the
//! partition is that of the definitions after `(p, q) ∷ so_far`. With `IsCounted`, which `note` gave
//! and each `merge` kept, the levels stand after it.
#![tactic(auto)]

pub use levels::Levels;
pub use limits::{MOST_LEVELS, MOST_SIZE};
pub use sizes::Sizes;
pub use sizes_error::SizesError;

mod clusters;
mod levels;
mod limits;
mod sizes;
mod sizes_error;
mod tallies;
