//! Tests of worked rows, and of long lists.

use causal_base::{Event, EventId};
use std::alloc::Global;
use std::collections::BTreeSet;
use std::process::Abort;
use std::test::Fail;
use workload::Workload;

/// The trace, the number and the type of an event, and the trace and the number of its mate.
type Row = (u32, u32, u8, Option<(u32, u32)>);

#[test]
fn lists_are_as_drawn(rt: HostRuntime) -> Result<(), Fail> {
    let alloc = rt.alloc();
    let rows: [Row; 4] = [
        (29, 1, 1, None),
        (4, 1, 3, Some((39, 1))),
        (39, 1, 3, Some((4, 1))),
        (3, 1, 1, None),
    ];
    has_rows(&rt, &Workload::make(alloc, 4, 1, 60)?, &rows);
    has_rows(&rt, &Workload::make(alloc, 0, 1, 60)?, &rows[..0]);
    has_rows(&rt, &Workload::make(alloc, 1, 1, 60)?, &rows[..1]);

    // With one event left, a pair becomes a unary event.
    let unary = (4, 1, 0, None);
    has_rows(&rt, &Workload::make(alloc, 2, 1, 60)?, &[rows[0], unary]);
    Ok(())
}

#[test]
fn long_lists_hold_together(rt: HostRuntime) -> Result<(), Fail> {
    let alloc = rt.alloc();
    holds_together(&rt, alloc, &Workload::make(alloc, 5_000, 1, 1)?)?;
    holds_together(&rt, alloc, &Workload::make(alloc, 5_000, 1, 2)?)?;
    holds_together(&rt, alloc, &Workload::make(alloc, 5_000, 1, 60)?)?;
    Ok(())
}

/// The events are these, and the time of each is its place.
fn has_rows(rt: &impl Abort, events: &[Event], rows: &[Row]) {
    assert_eq!(rt; events.len(), rows.len());
    for (place, (e, row)) in events.iter().zip(rows).enumerate() {
        let mate = e.mate.map(|id| (id.trace, id.number));
        assert_eq!(rt; (e.id.trace, e.id.number, e.type_no, mate), *row);
        assert_eq!(rt; e.time, place as u64);
    }
}

/// There are 5,000 events, each with the next number of its trace. A receive names a send before
/// it, and a pair stands in two places next to each other, of which each names the other.
fn holds_together(rt: &impl Abort, alloc: Global, events: &[Event]) -> Result<(), Fail> {
    assert_eq!(rt; events.len(), 5_000);
    let mut numbers = vec![in alloc; 0; 60]?;
    let mut sends = BTreeSet::new(alloc);
    let mut first: Option<(EventId, Option<EventId>)> = None;
    for e in events {
        let number = numbers.get_mut(e.id.trace as usize).ok_or("no such trace")?;
        assert_eq!(rt; e.id.number.checked_sub(1), Some(*number));
        *number = e.id.number;
        match (first, e.type_no) {
            (Some((id, mate)), _) => {
                assert_eq!(rt; (e.type_no, e.mate, Some(e.id)), (3, Some(id), mate));
                first = None;
            }
            (None, 3) => first = Some((e.id, e.mate)),
            (None, 2) => {
                let send = e.mate.ok_or("a receive names nothing")?;
                assert!(rt; sends.contains(&send));
            }
            (None, 1) => {
                sends.insert(e.id)?;
            }
            (None, _) => assert_eq!(rt; e.mate, None),
        }
    }
    assert_eq!(rt; first, None);
    Ok(())
}
