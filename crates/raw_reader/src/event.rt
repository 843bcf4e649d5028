ghost use Rattle.std.specs.Prelude.{◌≡◌, IfOk, IfSome, IfNone};
ghost use Rattle.causal_base.specs.declared.event.Event.{Event};
ghost use Rattle.causal_base.specs.Event.{IsFit};
ghost use Rattle.causal_base.specs.Spelling.{spelling};
ghost use Rattle.raw_reader.specs.EventParts.{IsOneLine, event_from};

use crate::event_parts::{EventParts, parts_of};
use causal_base::{Event, Text, Types};
use std::alloc::{AllocError, Global};

/// The fit event that the line spells, without a line feed at its end. None where it is no spelling
/// of a fit event. The only error is that memory ran out.
///
/// No fit event is spelled with a line feed, so a text of many lines may be cut at each.
pub fn event_of(alloc: Global, line: &[u8], types: &Types) -> Result<Option<Event>, AllocError>
    ensures fit { IfOk result (λ found. IfSome found (λ e.
        IsFit types.now e × (line.now ≡ spelling types.now e))) }
    ensures none { IfOk result (λ found. IfNone found ((e : Event) →
        IsFit types.now e → line.now ≡ spelling types.now e → ⊥)) }
    ensures one_line { (e : Event) → IsFit types.now e → IsOneLine (spelling types.now e) }
{
    let Ok(parts) = parts_of(line, types) else {
        return Ok(None);
    };
    if line.contains(&b'\n') {
        return Ok(None);
    }
    Ok(Some(event_from_parts(alloc, &parts)?))
}

/// The event that has these parts.
pub fn event_from_parts(alloc: Global, parts: &EventParts<'_>) -> Result<Event, AllocError>
    ensures { IfOk result (λ e. e ≡ event_from parts.now) }
{
    Ok(Event {
        id: parts.id,
        type_no: parts.type_no,
        mate: parts.mate,
        time: parts.time,
        text: Text::new(alloc, parts.text)?,
    })
}
