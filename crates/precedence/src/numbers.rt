//! Numbers, one for each trace, that only grow.

ghost use Rattle.std.specs.Prelude.{◌≡◌, ◌≤◌, length, max, slice_index, slice_set};
ghost use Rattle.precedence.specs.Walking.{RaisesParts};

use projected_stamp::Stamp;

/// The number of a trace, and 0 where it has none.
pub(crate) fn number_at(numbers: &[u32], trace: u32) -> u32
    ensures { result ≡ slice_index numbers.now trace }
{
    match numbers.get(trace as usize) {
        Some(number) => *number,
        None => 0,
    }
}

/// Raises the numbers to those of a stamp.
pub(crate) fn raise_parts(numbers: &mut [u32], stamp: &Stamp<'_>)
    ensures { RaisesParts stamp.now numbers.old numbers.new }
{
    for place in 0..stamp.members().len() {
        raise(numbers, stamp.members()[place], stamp.numbers()[place]);
    }
}

/// Raises the number of a trace, where it has one, to this one.
fn raise(numbers: &mut [u32], trace: u32, number: u32)
    ensures { numbers.new ≡ slice_set numbers.old trace
        (max (slice_index numbers.old trace) number) }
{
    let trace = trace as usize;
    if trace < numbers.len() && numbers[trace] < number {
        numbers[trace] = number;
    }
}
