ghost use Rattle.std.specs.Prelude.{◌≡◌, ◌<◌, ◌≤◌, List, length};
ghost use Rattle.causal_base.specs.declared.event_id.EventId.{EventId};
ghost use Rattle.causal_base.specs.Clusters.{levels_of, size_at};
ghost use Rattle.causal_base.specs.Stamps.{ClusterTimestamp};
ghost use Rattle.projected_stamp.specs.StampLists.{IsStampAt};
ghost use Rattle.precedence.specs.StampedJournal.{StampedJournal, AreStampsOf};

use crate::laws::laws;

/// A stamp of a level that has a size keeps no more numbers than that size, and one of the level
/// above them keeps one for each trace.
pub fn stamps_are_small()
    ensures few { (w : StampedJournal) (lists : List (List ClusterTimestamp)) → AreStampsOf w lists
        → (id : EventId) (stamp : ClusterTimestamp) → IsStampAt lists id stamp
        → stamp.level ≤ levels_of w.clustering
        → length stamp.clock ≤ size_at w.clustering stamp.level }
    ensures all { (w : StampedJournal) (lists : List (List ClusterTimestamp)) → AreStampsOf w lists
        → (id : EventId) (stamp : ClusterTimestamp) → IsStampAt lists id stamp
        → levels_of w.clustering < stamp.level
        → length stamp.clock ≡ w.types.traces }
{
    laws();
}
