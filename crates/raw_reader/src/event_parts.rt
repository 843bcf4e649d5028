ghost use Rattle.std.specs.Prelude.{◌≡◌, ◌≢◌, ◌↔◌, [], codes, IsTrue, IsSome, IfSome, IfNone, IfOk, IfErr};
ghost use Rattle.causal_base.specs.Event.{IsFit, NamesAnother};
ghost use Rattle.causal_base.specs.Fields.{IsIdInRange};
ghost use Rattle.causal_base.specs.Spelling.{spelling};
ghost use Rattle.causal_base.specs.TypeTables.{IsTypeTable};
ghost use Rattle.causal_base.specs.Refusals.{IsFirst};
ghost use Rattle.raw_reader.specs.Causes.{id_cause, id_faults, mate_faults, IsCause};
ghost use Rattle.raw_reader.specs.EventParts.{IsOneLine, event_from};

use crate::cause::LineCause;
use crate::split::{Split, split_line};
use causal_base::{EventId, IdFault, Kind, MOST_TEXT, Types, id_of, number_of};

/// What a line says of an event, with the text where the line has it.
#[derive(Drop)]
pub struct EventParts<'a> {
    pub id: EventId,
    pub type_no: u8,
    pub mate: Option<EventId>,
    pub time: u64,
    pub text: &'a [u8],
}

/// What the line says, or the first thing that is wrong with it where it isn't the spelling of a
/// fit event.
pub fn parts_of<'a>(line: &'a [u8], types: &Types) -> Result<EventParts<'a>, LineCause>
    ensures fit { IfOk result (λ parts.
        IsOneLine line.now → IsFit types.now (event_from parts)) }
    ensures spelled { IfOk result (λ parts. line.now ≡ spelling types.now (event_from parts)) }
    ensures err { IfErr result (IsCause types.now line.now) }
    ensures table { IsTypeTable types.now }
{
    let traces = types.traces();
    let Some(split) = split_line(line) else {
        return Err(LineCause::Shape);
    };
    if !has_four(&split) {
        return Err(LineCause::Shape);
    }
    let id = id_field(split.id, traces)?;
    let Some(type_no) = types.type_of(split.name) else {
        return Err(LineCause::NoType);
    };
    let mate = mate_field(split.mate, types.kind(type_no), traces)?;
    let Some(time) = number_of(split.time) else {
        return Err(LineCause::BadTime);
    };
    if split.text.len() > MOST_TEXT {
        return Err(LineCause::LongText);
    }
    Ok(EventParts {
        id,
        type_no,
        mate,
        time,
        text: split.text,
    })
}

/// Whether none of the four fields is empty.
fn has_four(split: &Split<'_>) -> bool
    ensures { IsTrue result ↔ ((split.now.id.now ≢ []) × (split.now.name.now ≢ [])
        × (split.now.mate.now ≢ []) × (split.now.time.now ≢ [])) }
{
    !split.id.is_empty()
        && !split.name.is_empty()
        && !split.mate.is_empty()
        && !split.time.is_empty()
}

/// The id that a field is, or its first fault.
fn id_field(field: &[u8], traces: u32) -> Result<EventId, LineCause>
    ensures ok { IfOk result (IsIdInRange field.now traces) }
    ensures err { IfErr result (IsFirst (id_faults traces field.now)) }
{
    match id_of(field, traces) {
        Ok(id) => Ok(id),
        Err(fault) => Err(cause_of_id(fault)),
    }
}

/// The cause where an id has this fault.
fn cause_of_id(fault: IdFault) -> LineCause
    ensures { result ≡ id_cause fault }
{
    match fault {
        IdFault::BadId => LineCause::BadId,
        IdFault::NoTrace => LineCause::NoTrace,
        IdFault::BadNumber => LineCause::BadNumber,
    }
}

/// What an event of this kind names, or the first fault of the field: it is `-` where the kind
/// names no other, and else an id in range.
fn mate_field(field: &[u8], kind: Kind, traces: u32) -> Result<Option<EventId>, LineCause>
    ensures found { IfOk result (λ mate. IsSome mate ↔ NamesAnother kind) }
    ensures in_range { IfOk result (λ mate. IfSome mate (IsIdInRange field.now traces)) }
    ensures dash { IfOk result (λ mate. IfNone mate (field.now ≡ codes "-")) }
    ensures err { IfErr result (IsFirst (mate_faults traces kind field.now)) }
{
    let is_dash = field == b"-".as_slice();
    match (kind.names_another(), is_dash) {
        (true, true) => Err(LineCause::MateMissing),
        (true, false) => Ok(Some(id_field(field, traces)?)),
        (false, true) => Ok(None),
        (false, false) => Err(LineCause::MateGiven),
    }
}
