ghost use Rattle.std.specs.Prelude.{◌≡◌, ◌<◌, ◌↔◌, ℕ, true, false, List, length, reverse, Contains, IsTrue, IfSome, IfNone};
ghost use Rattle.causal_base.specs.declared.entry.Entry.{Entry};
ghost use Rattle.causal_base.specs.Clocks.{HasClock};
ghost use Rattle.causal_base.specs.Clusters.{Clustering};
ghost use Rattle.causal_base.specs.Journal.{came_by, delivered_by, deliveries_by};
ghost use Rattle.causal_base.specs.Past.{HasEvent, HasEnded};
ghost use Rattle.causal_base.specs.Stamps.{level_of, is_member};

use crate::causal::Causal;
use crate::event_id::EventId;

/// What a client asks: delivered events with their stamps, and how far the journal has come. What a
/// clause says of a journal holds for each that the value stands for. No call takes memory.
pub trait Book: Causal {
    /// How the traces are clustered: how many there are, the sizes, and the communication from
    /// which on two clusters may merge.
    ghost clustering: { Self → Clustering };

    /// How many collectors there are.
    ghost collectors: { Self → ℕ };

    /// How many entries the journal has.
    fn seen(&self) -> u64
        ensures { (journal : List Entry) → Self.stands_for self.now journal
            → result ≡ length journal };

    /// How many events came.
    fn accepted(&self) -> u32
        ensures { (journal : List Entry) → Self.stands_for self.now journal
            → result ≡ length (came_by journal) };

    /// Whether each collector has ended.
    fn all_ended(&self) -> bool
        ensures { (journal : List Entry) → Self.stands_for self.now journal → IsTrue result
            ↔ ((collector : ℕ) → collector < collectors self.now
            → HasEnded (reverse journal) collector) };

    /// The level of the event with this id, or none where it isn't delivered.
    fn stamp_level(&self, id: EventId) -> Option<u8>
        ensures some { IfSome result (λ level. (journal : List Entry)
            → Self.stands_for self.now journal → HasEvent (delivered_by journal) id
            × (level ≡ level_of (clustering self.now) (deliveries_by journal) id)) }
        ensures none { IfNone result ((journal : List Entry) → Self.stands_for self.now journal
            → ¬ HasEvent (delivered_by journal) id) };

    /// The number that the stamp of the event with this id has for a trace, or none where the event
    /// isn't delivered, or the trace is no member of it.
    fn stamp_part(&self, id: EventId, trace: u32) -> Option<u32>
        requires { trace < (Self.types self.now).traces }
        ensures some { IfSome result (λ n. (journal : List Entry) → Self.stands_for self.now journal
            → HasClock (Self.types self.now) (delivered_by journal) id trace n
            × (is_member (clustering self.now) (deliveries_by journal) id trace ≡ true)) }
        ensures none { IfNone result ((journal : List Entry) → Self.stands_for self.now journal
            → HasEvent (delivered_by journal) id
            → is_member (clustering self.now) (deliveries_by journal) id trace ≡ false) };

    /// There are as many traces as the types say.
    ghost as_many_traces: { (it : Self) → (clustering it).traces ≡ (Self.Causal.types it).traces };
}
