//! Plain lists of events that were worked out by hand.

ghost use Rattle.std.specs.Prelude.{◌≡◌, ◌↔◌, length, IsSome, IfSome};
ghost use Rattle.std.specs.Bool.{OnTrue};
ghost use Rattle.causal_base.specs.Event.{IsInRange, NamesAnother};

use causal_base::{Event, EventId, Kind, MOST_NUMBER, Plain, Text, Types};
use std::alloc::{AllocError, Global};
use std::test::Fail;

/// How many traces there are.
pub(crate) const TRACES: u32 = 3;

/// A trace and a number.
pub(crate) type Id = (u32, u32);

/// An event: its id, the number of its type, which is built in, and what it names.
pub(crate) type Row = (Id, u8, Option<Id>);

pub(crate) fn id_of((trace, number): Id) -> EventId {
    EventId { trace, number }
}

/// A plain list, and its types, which are built in.
#[derive(Drop)]
pub(crate) struct Listed {
    pub(crate) types: Types,
    pub(crate) plain: Plain,
    ghost same: { plain.types ≡ types },
}

/// A plain list of these events.
pub(crate) fn with_rows(alloc: Global, rows: &[Row]) -> Result<Listed, Fail> {
    let types = Types::builtin(alloc, TRACES)?;
    let mut plain = Plain::new(alloc, types.copy(alloc)?);
    if offer_all(alloc, &mut plain, &types, rows)? {
        Ok(Listed { types, plain })
    } else {
        Err("an event wasn't taken".into())
    }
}

/// Offers the events of these rows, and answers whether each is fit and was taken.
fn offer_all(
    alloc: Global,
    plain: &mut Plain,
    types: &Types,
    rows: &[Row],
) -> Result<bool, AllocError>
    requires types { plain.old.types ≡ types.now }
    requires rows { length types.now.rows ≡ 4 }
    ensures { plain.new.types ≡ plain.old.types }
{
    for (id, type_no, mate) in rows {
        if !offer(alloc, plain, types, id_of(*id), *type_no, mate.map(id_of))? {
            return Ok(false);
        }
    }
    Ok(true)
}

/// Offers an event, and answers whether it is fit and was taken.
fn offer(
    alloc: Global,
    plain: &mut Plain,
    types: &Types,
    id: EventId,
    type_no: u8,
    mate: Option<EventId>,
) -> Result<bool, AllocError>
    requires types { plain.old.types ≡ types.now }
    requires rows { length types.now.rows ≡ 4 }
    ensures { plain.new.types ≡ plain.old.types }
{
    if type_no >= 4 || !is_fit(types, id, types.kind(type_no), mate) {
        return Ok(false);
    }
    let event = Event {
        id,
        type_no,
        mate,
        time: 0,
        text: Text::new(alloc, b"")?,
    };
    Ok(plain.offer(event).is_ok())
}

/// Whether an event of this kind would be fit.
fn is_fit(types: &Types, id: EventId, kind: Kind, mate: Option<EventId>) -> bool
    ensures id { OnTrue result (IsInRange types.now id) }
    ensures mate { OnTrue result (IfSome mate (IsInRange types.now)) }
    ensures names { OnTrue result (IsSome mate ↔ NamesAnother kind) }
{
    is_in_range(types, id)
        && match mate {
            Some(mate) => kind.names_another() && is_in_range(types, mate),
            None => !kind.names_another(),
        }
}

fn is_in_range(types: &Types, id: EventId) -> bool
    ensures { OnTrue result (IsInRange types.now id) }
{
    id.trace < types.traces() && id.number >= 1 && id.number <= MOST_NUMBER
}
