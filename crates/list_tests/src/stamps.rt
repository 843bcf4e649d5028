//! Tests of what no clause says: that calls succeed where memory is left; and stamps that were made
//! by hand.

ghost use Rattle.std.specs.Prelude.{◌≡◌, ◌<◌, length};
ghost use Rattle.list_tests.specs.declared.stamps.TheConstants.{TRACE};

use causal_base::{EventId, MOST_NUMBER, Steps};
use projected_stamp::{Members, NewStamp, Stamp, Stamps};
use std::alloc::Global;
use std::marker::Brand;
use std::sync::ledger::{Blank, Ledger};
use std::test::Fail;

/// What stands in a clock at a trace that is no member.
const NO_MEMBER: u32 = 9;

/// The trace of the events below.
const TRACE: u32 = 2;

#[test]
fn the_last_above_is_found(rt: HostRuntime) -> Result<(), Fail> {
    let alloc = rt.alloc();
    let mut stamps = Stamps::new(alloc, 3)?;
    add_next(alloc, &mut stamps, 1)?;
    add_next(alloc, &mut stamps, 2)?;
    add_next(alloc, &mut stamps, 1)?;
    let shared = stamps.share(alloc)?;
    add_next(alloc, &mut stamps, 2)?;
    assert_eq!(rt;
        entries::<Brand>(&shared, Blank::new(1)),
        [None, Some(2), Some(2), None]
    );
    assert_eq!(rt;
        entries::<Brand>(&stamps, Blank::new(1)),
        [None, Some(2), Some(4), None]
    );
    assert_eq!(rt; (shared.total_parts(), stamps.total_parts()), (3, 4));
    Ok(())
}

/// Adds the stamp of the next event, of this level. Its trace is its only member, and its clock has
/// 9 at every place that is no member.
fn add_next(alloc: Global, stamps: &mut Stamps, level: u8) -> Result<(), Fail>
    requires { TRACE < length stamps.old.lists }
    ensures { length stamps.new.lists ≡ length stamps.old.lists }
{
    let before = stamps.len(TRACE);
    if before >= MOST_NUMBER {
        return Err("there are too many".into());
    }
    let number = before + 1;
    let own = Members::new(alloc, &[TRACE])?;
    let clock = [NO_MEMBER, NO_MEMBER, number];
    let stamp = NewStamp::new(level, &own, &clock)?;
    let id = EventId {
        trace: TRACE,
        number,
    };
    stamps.reserve(TRACE)?;
    stamps.add(id, stamp);
    if keeps_own_number::<Brand>(stamps, id, Blank::new(1)) {
        Ok(())
    } else {
        Err("a stamp keeps other numbers".into())
    }
}

/// Whether the stamp of an event has its own number for its trace, and none for others.
fn keeps_own_number<L: Ledger>(stamps: &Stamps, id: EventId, blank: Blank) -> bool
    requires name { blank.name ≡ L.name }
    requires parts { blank.parts ≡ L.parts }
    requires some { 0 < blank.parts }
{
    let mut steps = Steps::<L>::new(blank);
    match stamps.read(id, &mut steps) {
        Some(stamp) => stamp.part(0).is_none() && stamp.part(id.trace) == Some(id.number),
        None => false,
    }
}

/// The last event above level 1 up to the numbers 1, 3 and 4, and above level 2.
fn entries<L: Ledger>(stamps: &Stamps, blank: Blank) -> [Option<u32>; 4]
    requires name { blank.name ≡ L.name }
    requires parts { blank.parts ≡ L.parts }
    requires some { 0 < blank.parts }
{
    let mut steps = Steps::<L>::new(blank);
    [
        number_of(stamps.entry(TRACE, 1, 1, &mut steps)),
        number_of(stamps.entry(TRACE, 3, 1, &mut steps)),
        number_of(stamps.entry(TRACE, 4, 1, &mut steps)),
        number_of(stamps.entry(TRACE, 4, 2, &mut steps)),
    ]
}

fn number_of(found: Option<(u32, Stamp<'_>)>) -> Option<u32> {
    let (number, _) = found?;
    Some(number)
}
