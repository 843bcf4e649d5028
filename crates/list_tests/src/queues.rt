//! Tests of what no clause says: that values are held where memory is left.

use causal_base::EventId;
use std::test::Fail;
use trace_queue::Queues;

/// The trace of the ids below.
const TRACE: u32 = 1;

#[test]
fn values_are_held(rt: HostRuntime) -> Result<(), Fail> {
    let mut queues = Queues::new(rt.alloc(), 2)?;
    let late = EventId {
        trace: TRACE,
        number: 7,
    };
    let early = EventId {
        trace: TRACE,
        number: 5,
    };
    if queues.next(late).is_none() {
        queues.hold(late, 70)?;
    }
    if queues.next(early).is_none() {
        queues.hold(early, 50)?;
    }
    assert_eq!(rt; queues.held(), 2);
    assert_eq!(rt; queues.next(late).copied(), Some(70));
    assert_eq!(rt; queues.take(late), Some(70));
    assert_eq!(rt; queues.take(late), None);
    assert_eq!(rt; queues.held(), 1);
    Ok(())
}
