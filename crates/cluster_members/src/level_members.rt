ghost use Rattle.std.specs.Prelude.{◌≡◌, ◌≢◌, ◌<◌, ℕ, List, All, length, replicate, slice_get, IfOk, IfSome, IfNone, Some, None};
ghost use Rattle.std.specs.Bool.{OnTrue, OnFalse};
ghost use Rattle.cluster_members.specs.Kept.{AreTaken};

use projected_stamp::Members;
use std::alloc::{AllocError, Global};
use std::marker::Model;

/// What is kept at one level: for each trace perhaps a list. Contracts see these.
#[derive(Debug, Drop)]
pub struct LevelMembers {
    lists: Vec<Option<Members>>,
}

impl Model for LevelMembers {
    ghost use Rattle.std.specs.Prelude.{ℕ, List, Option};

    ghost Value = { List (Option (List ℕ)) };

    ghost view = { λ l. l.lists.items };
}

impl LevelMembers {
    /// No list for so many traces.
    pub fn new(alloc: Global, traces: u32) -> Result<LevelMembers, AllocError>
        ensures { IfOk result (λ kept. kept ≡ replicate traces None) }
    {
        let mut lists = Vec::with_capacity(alloc, traces as usize)?;
        for _ in 0..traces {
            lists.push(None)?;
        }
        Ok(LevelMembers { lists })
    }

    /// The list of a trace, if there is one.
    pub fn get(&self, trace: u32) -> Option<&Members>
        requires { trace < length self.now }
        ensures some { IfSome result (λ list. slice_get self.now trace ≡ Some (Some list.now)) }
        ensures none { IfNone result (slice_get self.now trace ≡ Some None) }
    {
        match &self.lists[trace as usize] {
            Some(list) => Some(list),
            None => None,
        }
    }

    /// Whether a trace has a list, and it has as many traces as this one.
    pub fn has_as_many(&self, trace: u32, list: &Members) -> bool
        requires { trace < length self.now }
        ensures as_many { OnTrue result ((kept : List ℕ)
            × (slice_get self.now trace ≡ Some (Some kept)) × (length kept ≡ length list.now)) }
        ensures none { OnFalse result ((kept : List ℕ) → slice_get self.now trace ≡ Some (Some kept)
            → length kept ≢ length list.now) }
    {
        match self.get(trace) {
            Some(kept) => kept.traces().len() == list.traces().len(),
            None => false,
        }
    }

    /// Keeps a list for each trace that is in it. Where it is held too often to count, some of
    /// these traces have none.
    pub fn keep(&mut self, list: &Members)
        requires { All (λ trace. trace < length self.old) list.now }
        ensures { AreTaken self.old self.new list.now }
    {
        for trace in list.traces() {
            self.lists[*trace as usize] = shared(list);
        }
    }
}

/// The same list, held in common, or none where it is held too often to count.
fn shared(list: &Members) -> Option<Members>
    ensures { IfSome result (λ share. share ≡ list.now) }
{
    list.share().ok()
}
