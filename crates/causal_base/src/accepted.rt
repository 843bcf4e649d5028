ghost use Rattle.std.specs.Prelude.{◌≡◌, ◌<◌, List, Contains, IfSome, IfNone};
ghost use Rattle.causal_base.specs.declared.event.Event.{Event};
ghost use Rattle.causal_base.specs.declared.limits.TheConstants.{MOST_TRACES};
ghost use Rattle.causal_base.specs.History.{EventBlock, all_events, count_on};
ghost use Rattle.causal_base.specs.Past.{HasEvent};

use crate::event::Event;
use crate::event_id::EventId;

/// The events that came, each found by its id, and how many of each trace are delivered. It is what
/// [`enabled_on`](crate::enabled_on) looks at.
pub trait Accepted {
    /// The events that came.
    ghost came: { Self → List Event };

    /// The deliveries of some of them, newest first.
    ghost history: { Self → List EventBlock };

    /// How many events of a trace are delivered.
    fn delivered_on(&self, trace: u32) -> u32
        requires { trace < MOST_TRACES }
        ensures { result ≡ count_on trace (all_events (history self.now)) };

    /// The event with this id, if it came.
    fn event(&self, id: EventId) -> Option<&Event>
        ensures some { IfSome result (λ e. Contains (came self.now) e.now × (e.now.id ≡ id)) }
        ensures none { IfNone result (HasEvent (came self.now) id → ⊥) };
}
