ghost use Rattle.std.specs.Prelude.{◌≡◌, ◌+◌, ◌<◌, ◌≤◌, length, IfSome, IfNone};
ghost use Rattle.std.specs.Bool.{OnTrue, OnFalse};
ghost use Rattle.causal_base.specs.Clocks.{HasClock, HasClocks};
ghost use Rattle.causal_base.specs.Clusters.{bound_of};
ghost use Rattle.causal_base.specs.Journal.{delivered_by};
ghost use Rattle.causal_base.specs.Past.{HasEvent};
ghost use Rattle.precedence.specs.StampedJournal.{StampedJournal, AreStampsOf};

use crate::laws::laws;
use crate::numbers::number_at;
use crate::walk::{Walk, Wanted};
use causal_base::{EventId, MOST_TRACES, Steps};
use projected_stamp::Stamps;
use std::sync::ledger::Ledger;

/// Writes the whole clock of the event with this id, a number for each trace, and answers whether
/// it has a stamp. Where it hasn't, nothing is written. What a clause says of a journal holds for
/// each whose stamps these are.
pub fn clock<L: Ledger>(
    stamps: &Stamps,
    id: EventId,
    into: &mut [u32],
    steps: &mut Steps<L>,
) -> bool
    requires { length into.old ≡ length stamps.now.lists }
    ensures delivered { OnTrue result ((w : StampedJournal) → AreStampsOf w stamps.now.lists
        → HasClocks w.types (delivered_by w.journal) id into.new) }
    ensures absent { OnFalse result ((w : StampedJournal) → AreStampsOf w stamps.now.lists
        → ¬ HasEvent (delivered_by w.journal) id) }
    ensures unwritten { OnFalse result (into.new ≡ into.old) }
    ensures steps { (w : StampedJournal) → AreStampsOf w stamps.now.lists
        → steps.new ≤ steps.old + bound_of w.clustering.sizes }
{
    laws();
    let Some(stamp) = stamps.read(id, steps) else {
        return false;
    };
    into.fill(0);
    let walk = Walk {
        stamps,
        wanted: Wanted::All,
    };
    walk.take_in(&stamp, id.trace, into, steps);
    true
}

/// How many events of a trace reach the event with this id, or none where it has no stamp. What a
/// clause says of a journal holds for each whose stamps these are.
pub fn component<L: Ledger>(
    stamps: &Stamps,
    id: EventId,
    trace: u32,
    steps: &mut Steps<L>,
) -> Option<u32>
    requires { trace < length stamps.now.lists }
    ensures some { IfSome result (λ n. (w : StampedJournal) → AreStampsOf w stamps.now.lists
        → HasClock w.types (delivered_by w.journal) id trace n) }
    ensures none { IfNone result ((w : StampedJournal) → AreStampsOf w stamps.now.lists
        → ¬ HasEvent (delivered_by w.journal) id) }
    ensures steps { (w : StampedJournal) → AreStampsOf w stamps.now.lists
        → steps.new ≤ steps.old + bound_of w.clustering.sizes }
{
    laws();
    let Some(stamp) = stamps.read(id, steps) else {
        return None;
    };
    if let Some(number) = stamp.part(trace) {
        return Some(number);
    }
    let mut numbers = [0; MOST_TRACES as usize];
    let walk = Walk {
        stamps,
        wanted: Wanted::One(trace),
    };
    walk.take_in(&stamp, id.trace, &mut numbers, steps);
    Some(number_at(&numbers, trace))
}
