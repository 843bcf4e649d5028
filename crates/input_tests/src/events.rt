//! Tests of what no clause says: that copies are made where memory is left.

use causal_base::{Event, EventId, Kind, Text, Types};
use std::test::Fail;

#[test]
fn copies_are_equal(rt: HostRuntime) -> Result<(), Fail> {
    let alloc = rt.alloc();
    let event = Event {
        id: EventId {
            trace: 1,
            number: 1,
        },
        type_no: 2,
        mate: Some(EventId {
            trace: 0,
            number: 1,
        }),
        time: 6,
        text: Text::new(alloc, b"got it")?,
    };
    assert!(rt; event.copy(alloc)? == event);

    let types = Types::builtin(alloc, 7)?.copy(alloc)?;
    assert_eq!(rt; types.traces(), 7);
    let rows: [(&[u8], Kind, Option<u8>); 4] = [
        (b"u", Kind::Unary, None),
        (b"s", Kind::Send, Some(2)),
        (b"r", Kind::Receive, Some(1)),
        (b"y", Kind::Sync, Some(3)),
    ];
    for (name, kind, mate) in rows {
        let type_no = types.type_of(name).ok_or("a type is missing")?;
        assert_eq!(rt; types.kind(type_no), kind);
        assert_eq!(rt; types.mate(type_no), mate);
        assert_eq!(rt; types.name(type_no), name);
    }
    assert_eq!(rt; types.type_of(b"w"), None);
    Ok(())
}
