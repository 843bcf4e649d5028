//! Tests of what no clause says: that traces wait where memory is left, each once.

use causal_base::EventId;
use partner_match::Matcher;
use std::test::Fail;

#[test]
fn traces_wait(rt: HostRuntime) -> Result<(), Fail> {
    let mut matcher = Matcher::new(rt.alloc());
    let on = EventId {
        trace: 1,
        number: 1,
    };
    for trace in [9, 3, 3, 7, 5, 3, 8, 9] {
        matcher.wait(on, trace)?;
    }
    let below = EventId {
        trace: 0,
        number: 1,
    };
    matcher.wait(below, 4)?;
    assert_eq!(rt; matcher.woken(on), [3, 5, 7, 8, 9].as_slice());
    assert_eq!(rt; matcher.woken(below), [4].as_slice());
    matcher.forget(on);
    assert!(rt; matcher.woken(on).is_empty());
    Ok(())
}
