ghost use Rattle.std.specs.Prelude.{◌≡◌, ℕ, ◌<◌, ◌≤◌, false, ◌∷◌, List, length, slice_index, if◌then◌else◌, ◌==◌, IfOk};
ghost use Rattle.cluster_levels.specs.Clusters.{AreClusters, AreJoined, AreOn, AreTallied, label_of, shares, size_of};
ghost use Rattle.cluster_levels.specs.Tallies.{tally};

use crate::tallies::Tallies;
use causal_base::MOST_TRACES;
use std::alloc::{AllocError, Global};
use std::marker::Model;

/// The clusters of one level. Contracts see them as the label of each trace's cluster and the
/// tallies of their communications.
#[derive(Debug, Drop)]
pub struct Clusters {
    labels: Vec<u32>,
    // For each label, how many traces have it.
    sizes: Vec<u32>,
    tallies: Tallies,
}

impl Model for Clusters {
    ghost use Rattle.cluster_levels.specs.Clusters.{AreClusters, LevelClusters};

    ghost Value = { LevelClusters };

    ghost view = { λ c. record { labels = c.labels.items; tallies = c.tallies } };

    ghost invariant = { λ c. AreClusters c.labels.items c.sizes.items c.tallies.width };
}

impl Clusters {
    /// Each of the traces alone, with no communications. Where they are not `tallied`, nothing is
    /// kept of them.
    pub fn new(alloc: Global, traces: u32, tallied: bool) -> Result<Clusters, AllocError>
        requires { traces ≤ MOST_TRACES }
        ensures traces { IfOk result (λ clusters. length clusters.labels ≡ traces) }
        ensures alone { IfOk result (λ clusters. (trace : ℕ) → trace < traces
            → label_of clusters trace ≡ trace) }
        ensures width { IfOk result (λ clusters. clusters.tallies.width
            ≡ (if tallied then traces else 0)) }
        ensures none { IfOk result (λ clusters. (i j : ℕ) → i < clusters.tallies.width
            → j < clusters.tallies.width → tally clusters.tallies i j ≡ 0) }
    {
        let width = if tallied { traces } else { 0 };
        Ok(Clusters {
            labels: own_labels(alloc, traces)?,
            sizes: vec![in alloc; 1; traces as usize]?,
            tallies: Tallies::new(alloc, width)?,
        })
    }

    /// Whether the two traces share a cluster.
    pub fn shares(&self, p: u32, q: u32) -> bool
        requires p { p < length self.now.labels }
        requires q { q < length self.now.labels }
        ensures { result ≡ shares self.now p q }
    {
        self.labels[p as usize] == self.labels[q as usize]
    }

    /// How many traces are in the cluster of a trace.
    pub fn size(&self, trace: u32) -> u32
        requires { trace < length self.now.labels }
        ensures size { result ≡ size_of self.now trace }
        ensures few { result ≤ MOST_TRACES }
    {
        self.sizes[self.labels[trace as usize] as usize]
    }

    /// How often the clusters of two traces communicated.
    pub fn tally(&self, p: u32, q: u32) -> u32
        requires p { p < length self.now.labels }
        requires q { q < length self.now.labels }
        requires kept { 0 < self.now.tallies.width }
        ensures { result ≡ tally self.now.tallies (label_of self.now p) (label_of self.now q) }
    {
        self.tallies
            .get(self.labels[p as usize], self.labels[q as usize])
    }

    /// A communication of two traces has come.
    pub fn note(&mut self, p: u32, q: u32)
        requires p { p < length self.old.labels }
        requires q { q < length self.old.labels }
        requires kept { 0 < self.old.tallies.width }
        ensures labels { self.new.labels ≡ self.old.labels }
        ensures width { self.new.tallies.width ≡ self.old.tallies.width }
        ensures tallied { (so_far : List (ℕ × ℕ)) → AreTallied self.old so_far
            → AreTallied self.new ((p, q) ∷ so_far) }
    {
        let first = self.labels[p as usize];
        let second = self.labels[q as usize];
        if first != second {
            self.tallies.raise(first, second, 1);
            self.tallies.raise(second, first, 1);
        }
    }

    /// The clusters of the two traces become one.
    pub fn merge(&mut self, p: u32, q: u32)
        requires p { p < length self.old.labels }
        requires q { q < length self.old.labels }
        requires apart { shares self.old p q ≡ false }
        ensures joined { AreJoined self.old self.new p q }
        ensures tallied { (so_far : List (ℕ × ℕ)) → AreOn (length self.old.labels) so_far
            → 0 < self.old.tallies.width
            → AreTallied self.old so_far → AreTallied self.new so_far }
    {
        let kept = self.labels[p as usize];
        let gone = self.labels[q as usize];
        relabel(&mut self.labels, gone, kept);
        self.sizes[kept as usize] += self.sizes[gone as usize];
        self.sizes[gone as usize] = 0;
        if self.tallies.width() > 0 {
            self.tallies.add_line(kept, gone);
        }
    }
}

/// The traces, each with its own number as its label.
fn own_labels(alloc: Global, traces: u32) -> Result<Vec<u32>, AllocError>
    ensures traces { IfOk result (λ labels. length labels.items ≡ traces) }
    ensures own { IfOk result (λ labels. (trace : ℕ) → trace < traces
        → slice_index labels.items trace ≡ trace) }
{
    let mut labels = Vec::with_capacity(alloc, traces as usize)?;
    for trace in 0..traces {
        labels.push(trace)?;
    }
    Ok(labels)
}

/// Gives the traces with one label another.
fn relabel(labels: &mut [u32], gone: u32, kept: u32)
    ensures { (trace : ℕ) → trace < length labels.old
        → slice_index labels.new trace ≡ (if slice_index labels.old trace == gone then kept
        else slice_index labels.old trace) }
{
    for label in labels.iter_mut() {
        if *label == gone {
            *label = kept;
        }
    }
}
