//! The state of the server: collectors feed a [`Desk`], and clients ask it, or a [`View`] of it.
//!
//! The desk's journal is its delivery's, so an event that was accepted lies in memory once. Beside
//! it are the clusters and the stamps of what is delivered (`Stamped`), and what the next delivery
//! needs: the newest clocks, and the lists of members (`Deliverer`).
//!
//! A block takes all its memory before it changes anything: its clock, its members, its stamps and
//! their places. So it stands in the journal whole or not at all, and a desk that ran out of memory
//! goes on where it stopped, once there is some.
#![tactic(auto)]

pub use desk::Desk;
pub use report::{FeedReport, FeedStop};
pub use setup::Setup;
pub use view::View;

mod cluster;
mod counting;
mod deliverer;
mod desk;
mod feeding;
mod report;
mod setup;
mod stamped;
mod view;
