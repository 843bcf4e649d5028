ghost use Rattle.std.specs.Prelude.{◌≡◌, ◌≤◌, ◌++◌, ◌∷◌, length, ℕ, List, IfSome, IfNone};
ghost use Rattle.raw_reader.specs.EventParts.{IsOneLine};
ghost use Rattle.raw_reader.specs.Splits.{IsSplit, IsTimeAndText};

use crate::limits::MOST_LINE;
use causal_base::split_once;
use memchr::memchr;

/// The first line of the bytes, without its line feed. None where it doesn't end within them, or
/// is too long.
pub fn first_line(bytes: &[u8]) -> Option<&[u8]>
    ensures ended { IfSome result (λ line. (rest : List ℕ) × (bytes.now ≡ line.now ++ 10 ∷ rest)) }
    ensures one_line { IfSome result (λ line. IsOneLine line.now) }
    ensures short { IfSome result (λ line. length line.now ≤ MOST_LINE) }
{
    let end = memchr(b'\n', bytes)?;
    if end > MOST_LINE {
        return None;
    }
    Some(&bytes[..end])
}

/// The five fields of a line as they are written. The text is empty where the line has none.
#[derive(Drop)]
pub struct Split<'a> {
    pub id: &'a [u8],
    pub name: &'a [u8],
    pub mate: &'a [u8],
    pub time: &'a [u8],
    pub text: &'a [u8],
}

/// The fields of a line, or none where it isn't four fields with one space between them, and
/// perhaps one more space with a text behind it.
pub fn split_line(line: &[u8]) -> Option<Split<'_>>
    ensures found { IfSome result (λ split.
        IsSplit line.now split.id.now split.name.now split.mate.now split.time.now split.text.now) }
    ensures none { IfNone result ((id name mate time text : List ℕ) →
        IsSplit line.now id name mate time text → ⊥) }
{
    let (id, rest) = split_once(line, b' ')?;
    let (name, rest) = split_once(rest, b' ')?;
    let (mate, rest) = split_once(rest, b' ')?;
    let (time, text) = time_and_text(rest)?;
    Some(Split {
        id,
        name,
        mate,
        time,
        text,
    })
}

/// A time, and the text behind the space after it, which is empty where there is no space. None
/// where a space has nothing behind it.
fn time_and_text(bytes: &[u8]) -> Option<(&[u8], &[u8])>
    ensures found { IfSome result (λ parts. IsTimeAndText bytes.now parts.0.now parts.1.now) }
    ensures none { IfNone result ((time text : List ℕ) → IsTimeAndText bytes.now time text → ⊥) }
{
    let Some((time, text)) = split_once(bytes, b' ') else {
        return Some((bytes, &[]));
    };
    if text.is_empty() {
        None
    } else {
        Some((time, text))
    }
}
