ghost use Rattle.std.specs.Prelude.{◌≡◌, ◌≢◌, ℕ, ◌↔◌, All, IsTrue, IfSome, IfNone, IfOk, IfErr};
ghost use Rattle.std.specs.List.{list_all};
ghost use Rattle.causal_base.specs.Fields.{HasIdFault, SplitsOnce, IsIdInRange, IsNoId};
ghost use Rattle.causal_base.specs.Spelling.{IsId, IsName, IsNumber, is_letter, is_name_byte};

use crate::event_id::EventId;
use crate::limits::MOST_NUMBER;

/// Why bytes don't name an event of a given number of traces.
#[derive(Clone, Copy, Debug, PartialEq, Eq)]
pub enum IdFault {
    /// They aren't two numbers with a full stop between them.
    BadId,
    /// They name a trace that there isn't.
    NoTrace,
    /// The event's number isn't from 1 to 1,000,000.
    BadNumber,
}

/// What stands before the first separator, and what stands after it. None where the bytes have no
/// separator.
pub fn split_once(bytes: &[u8], separator: u8) -> Option<(&[u8], &[u8])>
    ensures found { IfSome result (λ parts. SplitsOnce separator bytes.now parts.0.now
        parts.1.now) }
    ensures none { IfNone result (All (λ byte. byte ≢ separator) bytes.now) }
{
    for (index, byte) in bytes.iter().enumerate() {
        if *byte == separator {
            return Some((&bytes[..index], &bytes[index + 1..]));
        }
    }
    None
}

/// The number that the bytes spell in decimal: `0`, or a digit from 1 to 9 and at most 17 digits
/// after it. None where they are anything else.
pub fn number_of(bytes: &[u8]) -> Option<u64>
    ensures found { IfSome result (λ n. IsNumber bytes.now n) }
    ensures none { IfNone result ((n : ℕ) → IsNumber bytes.now n → ⊥) }
{
    if bytes.is_empty() || bytes.len() > 18 {
        return None;
    }
    if bytes[0] == b'0' && bytes.len() > 1 {
        return None;
    }
    let mut number = 0u64;
    for byte in bytes {
        if !byte.is_ascii_digit() {
            return None;
        }
        number = number * 10 + u64::from(*byte - b'0');
    }
    Some(number)
}

/// Whether the bytes are a name: an ASCII letter, and at most 31 ASCII letters, digits and `_`
/// after it.
pub fn is_name(bytes: &[u8]) -> bool
    ensures { IsTrue result ↔ IsName bytes.now }
{
    let Some((first, others)) = bytes.split_first() else {
        return false;
    };
    is_letter(*first) && others.len() <= 31 && are_name_bytes(others)
}

/// Whether a name may begin with this byte.
fn is_letter(byte: u8) -> bool
    ensures { result ≡ is_letter byte }
{
    byte.is_ascii_alphabetic()
}

/// Whether a name may have these bytes after its first.
fn are_name_bytes(bytes: &[u8]) -> bool
    ensures { result ≡ list_all is_name_byte bytes.now }
{
    bytes.iter().all(|byte| is_name_byte(*byte))
}

/// Whether a name may have this byte after its first.
fn is_name_byte(byte: u8) -> bool
    ensures { result ≡ is_name_byte byte }
{
    byte.is_ascii_alphanumeric() || byte == b'_'
}

/// The event that the bytes name, as `2.17` for the event 17 of the trace 2, out of so many traces.
///
/// The faults come in the order of [`IdFault`]: `BadId` where the bytes are no id, `NoTrace` where
/// its trace is none of the traces, and `BadNumber` where the trace is one, but the number isn't
/// from 1 to 1,000,000.
pub fn id_of(bytes: &[u8], traces: u32) -> Result<EventId, IdFault>
    ensures ok { IfOk result (IsIdInRange bytes.now traces) }
    ensures err { IfErr result (HasIdFault bytes.now traces) }
{
    let Some((trace, number)) = id_numbers(bytes) else {
        return Err(IdFault::BadId);
    };
    if trace >= u64::from(traces) {
        return Err(IdFault::NoTrace);
    }
    if number == 0 || number > u64::from(MOST_NUMBER) {
        return Err(IdFault::BadNumber);
    }
    Ok(EventId {
        trace: trace as u32,
        number: number as u32,
    })
}

/// The trace and the number of an id, in range or not.
fn id_numbers(bytes: &[u8]) -> Option<(u64, u64)>
    ensures found { IfSome result (λ id. IsId bytes.now id.0 id.1) }
    ensures none { IfNone result (IsNoId bytes.now) }
{
    let (trace, number) = split_once(bytes, b'.')?;
    Some((number_of(trace)?, number_of(number)?))
}
