//! Tests of what no clause says: in how many pieces texts leave, and how long each piece is.

use poet_io::{Failed, MemSink, Sink, put};
use std::alloc::{AllocError, Global};
use std::test::Fail;
use text_buffer::{Buffer, Printed, put_whole};

/// How many bytes a sink takes: no texts are longer, taken together.
const MOST: usize = 40_000;

static FIRST: [u8; 9_000] = [b'a'; 9_000];

static SECOND: [u8; 9_000] = [b'b'; 9_000];

/// A text in two halves, each of which is written by itself.
#[derive(Clone, Copy)]
struct Halves {
    first: &'static [u8],
    second: &'static [u8],
}

impl Printed for Halves {
    ghost use Rattle.std.specs.Prelude.{◌++◌, ⊤};

    ghost text = { λ halves. halves.first.now ++ halves.second.now };

    ghost printable = { λ _. ⊤ };

    fn put<K: Sink>(&self, out: &mut K) -> Result<(), Failed> {
        put(out, self.first)?;
        put(out, self.second)
    }
}

/// A text of this length.
fn text_of_length(length: usize) -> Halves {
    let half = (length / 2).min(FIRST.len());
    let rest = length.saturating_sub(half).min(SECOND.len());
    Halves {
        first: &FIRST[..half],
        second: &SECOND[..rest],
    }
}

/// How texts are written.
#[derive(Clone, Copy)]
enum Way {
    /// All through one buffer.
    Together,
    /// Each by itself.
    Alone,
}

fn write_all(way: Way, out: &mut MemSink, lengths: &[usize]) -> Result<(), Failed> {
    match way {
        Way::Together => write_together(out, lengths),
        Way::Alone => write_alone(out, lengths),
    }
}

fn write_together(out: &mut MemSink, lengths: &[usize]) -> Result<(), Failed> {
    let mut buffer = Buffer::new();
    for length in lengths {
        buffer.put(out, &text_of_length(*length))?;
    }
    buffer.hand_on(out)
}

fn write_alone(out: &mut MemSink, lengths: &[usize]) -> Result<(), Failed> {
    for length in lengths {
        put_whole(out, &text_of_length(*length))?;
    }
    Ok(())
}

/// Texts of these lengths, one behind the other.
fn whole(alloc: Global, lengths: &[usize]) -> Result<Vec<u8>, AllocError> {
    let mut all = Vec::new(alloc);
    for length in lengths {
        let text = text_of_length(*length);
        all.extend_from_slice(text.first)?;
        all.extend_from_slice(text.second)?;
    }
    Ok(all)
}

/// What a sink has once texts of these lengths were written to it, and whether all were written.
/// It takes all of a piece at once, and the write of this number fails.
fn written_to(
    alloc: Global,
    way: Way,
    lengths: &[usize],
    failing: u64,
) -> Result<(MemSink, bool), AllocError> {
    let mut out = MemSink::new(alloc, vec![in alloc; failing]?, MOST, MOST)?;
    let all = write_all(way, &mut out, lengths).is_ok();
    Ok((out, all))
}

#[test]
fn texts_leave_in_large_pieces(rt: HostRuntime) -> Result<(), Fail> {
    let alloc = rt.alloc();
    // The lengths of texts, and of the pieces in which they leave.
    let rows: [(Way, &[usize], &[usize]); 13] = [
        (Way::Together, &[], &[]),
        (Way::Together, &[0, 0], &[]),
        (Way::Together, &[3, 4, 5], &[12]),
        (Way::Together, &[8_191], &[8_191]),
        (Way::Together, &[8_191, 1, 5], &[8_192, 5]),
        (Way::Together, &[8_000, 704, 1], &[8_704, 1]),
        (Way::Together, &[8_000, 705], &[8_000, 705]),
        (Way::Together, &[100, 8_650, 1], &[100, 8_650, 1]),
        (Way::Together, &[10, 8_705, 10], &[10, 4_352, 4_353, 10]),
        (Way::Alone, &[0], &[]),
        (Way::Alone, &[3, 4, 5], &[3, 4, 5]),
        (Way::Alone, &[8_704], &[8_704]),
        (Way::Alone, &[8_705], &[4_352, 4_353]),
    ];
    for (way, lengths, pieces) in rows {
        let text = whole(alloc, lengths)?;
        let mut number = 1u64;
        let mut before = 0usize;
        for piece in pieces {
            // Where the write of a piece fails, exactly what stands before it is out.
            let (out, all) = written_to(alloc, way, lengths, number)?;
            assert!(rt; !all && out.bytes().len() == before, "write {number}");
            assert!(rt; text.as_slice().starts_with(out.bytes()), "write {number}");
            number = number.saturating_add(1);
            before = before.saturating_add(*piece);
        }
        // There is no further write.
        let (out, all) = written_to(alloc, way, lengths, number)?;
        assert!(rt; all && out.bytes() == text.as_slice(), "write {number}");
    }
    Ok(())
}
