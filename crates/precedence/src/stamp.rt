//! What the stamp of an event says, for those who count no steps.

ghost use Rattle.std.specs.Prelude.{◌≡◌, ◌<◌, true, false, length, IfSome, IfNone};
ghost use Rattle.causal_base.specs.Clocks.{HasClock};
ghost use Rattle.causal_base.specs.Journal.{delivered_by, deliveries_by};
ghost use Rattle.causal_base.specs.Past.{HasEvent};
ghost use Rattle.causal_base.specs.Stamps.{ClusterTimestamp, is_member, level_of};
ghost use Rattle.precedence.specs.StampedJournal.{StampedJournal, AreStampsOf};
ghost use Rattle.projected_stamp.specs.StampLists.{IsStampAt};

use crate::laws::laws;
use causal_base::{EventId, Steps};
use projected_stamp::{Stamp, Stamps};
use std::marker::Brand;
use std::sync::ledger::{Blank, Ledger};

/// The level of the event with this id, or none where it has no stamp. What a clause says of a
/// journal holds for each whose stamps these are.
pub fn level(stamps: &Stamps, id: EventId) -> Option<u8>
    ensures some { IfSome result (λ level. (w : StampedJournal) → AreStampsOf w stamps.now.lists
        → HasEvent (delivered_by w.journal) id
        × (level ≡ level_of w.clustering (deliveries_by w.journal) id)) }
    ensures none { IfNone result ((w : StampedJournal) → AreStampsOf w stamps.now.lists
        → ¬ HasEvent (delivered_by w.journal) id) }
{
    match read::<Brand>(stamps, id, Blank::new(1)) {
        Some(stamp) => Some(stamp.level()),
        None => None,
    }
}

/// The number that the stamp of the event with this id has for a trace, or none where the event has
/// no stamp or the trace is no member of it. What a clause says of a journal holds for each whose
/// stamps these are.
pub fn part(stamps: &Stamps, id: EventId, trace: u32) -> Option<u32>
    requires { trace < length stamps.now.lists }
    ensures some { IfSome result (λ n. (w : StampedJournal) → AreStampsOf w stamps.now.lists
        → HasClock w.types (delivered_by w.journal) id trace n
        × (is_member w.clustering (deliveries_by w.journal) id trace ≡ true)) }
    ensures none { IfNone result ((w : StampedJournal) → AreStampsOf w stamps.now.lists
        → HasEvent (delivered_by w.journal) id
        → is_member w.clustering (deliveries_by w.journal) id trace ≡ false) }
{
    laws();
    match read::<Brand>(stamps, id, Blank::new(1)) {
        Some(stamp) => stamp.part(trace),
        None => None,
    }
}

/// The stamp of the event with this id, if there is one. The step that it takes is counted for
/// nobody.
fn read<L: Ledger>(stamps: &Stamps, id: EventId, blank: Blank) -> Option<Stamp<'_>>
    requires name { blank.name ≡ L.name }
    requires parts { blank.parts ≡ L.parts }
    requires some { 0 < blank.parts }
    ensures some { IfSome result (λ stamp. IsStampAt stamps.now.lists id stamp) }
    ensures none { IfNone result ((stamp : ClusterTimestamp)
        → IsStampAt stamps.now.lists id stamp → ⊥) }
{
    let mut steps = Steps::<L>::new(blank);
    stamps.read(id, &mut steps)
}
