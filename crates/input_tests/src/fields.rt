//! Tests of the fields of a line: numbers, names and ids that were worked out by hand.

use causal_base::{EventId, IdFault, id_of, is_name, number_of};

#[test]
fn reads_fields(rt: HostRuntime) {
    let numbers: [(&[u8], Option<u64>); 9] = [
        (b"0", Some(0)),
        (b"7", Some(7)),
        (b"10", Some(10)),
        (b"999999999999999999", Some(999_999_999_999_999_999)),
        (b"1000000000000000000", None),
        (b"01", None),
        (b"", None),
        (b"1x", None),
        (b"-1", None),
    ];
    for (bytes, want) in numbers {
        assert_eq!(rt; number_of(bytes), want, "{bytes:?}");
    }

    let names: [(&[u8], bool); 7] = [
        (b"a", true),
        (b"abcdefghijklmnopqrstuvwxyz_01234", true),
        (b"abcdefghijklmnopqrstuvwxyz_012345", false),
        (b"_a", false),
        (b"a_1", true),
        (b"1a", false),
        (b"", false),
    ];
    for (bytes, want) in names {
        assert_eq!(rt; is_name(bytes), want, "{bytes:?}");
    }

    let ids: [(&[u8], Result<EventId, IdFault>); 10] = [
        (
            b"0.1",
            Ok(EventId {
                trace: 0,
                number: 1,
            }),
        ),
        (
            b"0.1000000",
            Ok(EventId {
                trace: 0,
                number: 1_000_000,
            }),
        ),
        (b"0.1000001", Err(IdFault::BadNumber)),
        (b"0.0", Err(IdFault::BadNumber)),
        (b"7.1", Err(IdFault::NoTrace)),
        (b"0.01", Err(IdFault::BadId)),
        (b"0.1.2", Err(IdFault::BadId)),
        (b".1", Err(IdFault::BadId)),
        (b"0.", Err(IdFault::BadId)),
        (b"x", Err(IdFault::BadId)),
    ];
    for (bytes, want) in ids {
        assert_eq!(rt; id_of(bytes, 7), want, "{bytes:?}");
    }
}
