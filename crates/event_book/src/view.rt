ghost use Rattle.std.specs.Prelude.{◌≡◌};

use crate::setup::Setup;
use causal_base::{Book, Causal, Event, EventId, MOST_TRACES, Steps};
use journal::Delivered;
use projected_stamp::Stamps;
use std::marker::Model;
use std::sync::Arc;
use std::sync::ledger::Ledger;

/// A desk as it was at one moment, for questions that are asked while the desk goes on. It shares
/// the delivered events and their stamps with the desk, and doesn't change. Contracts see these,
/// how the desk was made, and how far its journal had come; `IsViewOf` of `specs/Views.antt` says of
/// which journals it is a view.
#[derive(Debug, Drop)]
pub struct View {
    setup: Arc<Setup>,
    delivered: Delivered,
    stamps: Stamps,
    seen: u64,
    accepted: u32,
    all_ended: bool,
}

impl Model for View {
    ghost use Rattle.std.specs.Prelude.{List};
    ghost use Rattle.causal_base.specs.declared.entry.Entry.{Entry};
    ghost use Rattle.event_book.specs.Views.{IsViewOf, ViewState};

    ghost Value = { ViewState };

    ghost view = { λ v. record {
      setup = v.setup.value;
      delivered = v.delivered;
      stamps = v.stamps.lists;
      seen = v.seen;
      accepted = v.accepted;
      all_ended = v.all_ended;
    } };

    ghost invariant = { λ v. (journal : List Entry) × IsViewOf (record {
      setup = v.setup.value;
      delivered = v.delivered;
      stamps = v.stamps.lists;
      seen = v.seen;
      accepted = v.accepted;
      all_ended = v.all_ended;
    }) journal };
}

impl View {
    ghost use Rattle.std.specs.Prelude.{List};
    ghost use Rattle.causal_base.specs.declared.entry.Entry.{Entry};
    ghost use Rattle.event_book.specs.Views.{IsViewOf};

    /// A view of a journal with these delivered events and stamps.
    pub(crate) fn new(
        setup: Arc<Setup>,
        delivered: Delivered,
        stamps: Stamps,
        seen: u64,
        accepted: u32,
        all_ended: bool,
    ) -> View
        requires { (journal : List Entry) × IsViewOf (record {
          setup = setup.value;
          delivered = delivered;
          stamps = stamps.lists;
          seen = seen;
          accepted = accepted;
          all_ended = all_ended;
        }) journal }
        ensures { result ≡ record {
          setup = setup.value;
          delivered = delivered;
          stamps = stamps.lists;
          seen = seen;
          accepted = accepted;
          all_ended = all_ended;
        } }
    {
        View {
            setup,
            delivered,
            stamps,
            seen,
            accepted,
            all_ended,
        }
    }

    /// How its desk was made: the types, the sizes, how many collectors, and W.
    pub fn setup(&self) -> &Setup
        ensures value { result.now ≡ self.now.setup }
        ensures views { (journal : List Entry) × IsViewOf self.now journal }
    {
        // Reading a part shows what holds of all of them.
        let _seen = self.seen;
        &self.setup
    }
}

impl Causal for View {
    ghost use Rattle.causal_base.specs.Clusters.{bound_of};
    ghost use Rattle.event_book.specs.Views.{IsViewOf};

    ghost types = { λ v. v.setup.types };

    ghost stands_for = { λ v journal. IsViewOf v journal };

    ghost legal = { λ v journal stands. stands.is_journal.legal };

    ghost bound = { λ v. bound_of v.setup.sizes };

    fn traces(&self) -> u32 {
        // Reading a part shows what holds of all of them.
        let _seen = self.seen;
        self.setup.types.traces()
    }

    fn bound(&self) -> u64 {
        // Reading a part shows what holds of all of them.
        let _seen = self.seen;
        self.setup.sizes.bound()
    }

    fn count(&self, trace: u32) -> u32 {
        // Reading the number of traces shows that there are no more than may be.
        let _traces = self.setup.types.traces();
        self.delivered.count(trace)
    }

    fn event(&self, id: EventId) -> Option<&Event> {
        // Reading a part shows what holds of all of them.
        let _seen = self.seen;
        if id.trace >= MOST_TRACES {
            return None;
        }
        if id.number == 0 {
            return None;
        }
        self.delivered.event(id)
    }

    fn component<L: Ledger>(&self, id: EventId, trace: u32, steps: &mut Steps<L>) -> Option<u32> {
        // Reading a part shows what holds of all of them.
        let _seen = self.seen;
        precedence::component(&self.stamps, id, trace, steps)
    }

    fn clock<L: Ledger>(&self, id: EventId, into: &mut [u32], steps: &mut Steps<L>) -> bool {
        // Reading a part shows what holds of all of them.
        let _seen = self.seen;
        precedence::clock(&self.stamps, id, into, steps)
    }
}

impl Book for View {
    ghost use Rattle.std.specs.Prelude.{refl};
    ghost use Rattle.event_book.specs.Setups.{clustering_of};

    ghost clustering = { λ v. clustering_of v.setup };

    ghost as_many_traces = { λ v. refl };

    ghost collectors = { λ v. v.setup.collectors };

    fn seen(&self) -> u64 {
        self.seen
    }

    fn accepted(&self) -> u32 {
        self.accepted
    }

    fn all_ended(&self) -> bool {
        self.all_ended
    }

    fn stamp_level(&self, id: EventId) -> Option<u8> {
        // Reading a part shows what holds of all of them.
        let _seen = self.seen;
        precedence::level(&self.stamps, id)
    }

    fn stamp_part(&self, id: EventId, trace: u32) -> Option<u32> {
        // Reading a part shows what holds of all of them.
        let _seen = self.seen;
        precedence::part(&self.stamps, id, trace)
    }
}
