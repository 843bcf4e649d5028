use causal_base::Types;
use cluster_levels::Sizes;

/// How a desk is made, which no call changes: the types of the events and the number of traces, the
/// sizes of the levels, the number of collectors, from 1 to
/// [`MOST_COLLECTORS`](causal_base::MOST_COLLECTORS), and the number of the communication between
/// two clusters from which on they may merge.
#[derive(Debug, Drop)]
pub struct Setup {
    /// The types.
    pub types: Types,
    /// The most traces that a cluster of each level may have.
    pub sizes: Sizes,
    /// How many collectors there are.
    pub collectors: u32,
    /// The number of the communication that merges; 0 is as 1.
    pub after: u32,
}
