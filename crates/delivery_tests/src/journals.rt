//! Tests of what no clause says: that an event comes and is shared where memory is left.

ghost use Rattle.std.specs.Prelude.{◌≡◌, IfOk};

use causal_base::{Event, EventId, Text};
use journal::Journal;
use std::alloc::Global;
use std::test::Fail;

/// An event without a mate.
fn event(alloc: Global, id: EventId) -> Result<Event, Fail>
    ensures { IfOk result (λ event. event.id ≡ id) }
{
    Ok(Event {
        id,
        type_no: 0,
        mate: None,
        time: 0,
        text: Text::new(alloc, &[])?,
    })
}

#[test]
fn an_event_comes(rt: HostRuntime) -> Result<(), Fail> {
    let alloc = rt.alloc();
    let mut journal = Journal::new(alloc)?;
    let id = EventId {
        trace: 1,
        number: 1,
    };
    journal.push_came(3, event(alloc, id)?)?;
    assert_eq!(rt; journal.accepted(), 1);
    let shared = journal.share_delivered(alloc)?;
    assert_eq!(rt; shared.count(1), 0);
    assert!(rt; shared.event(id).is_none());
    Ok(())
}
