// The offsets of a list, had by walking its data.
ghost use Rattle.std.specs.Prelude.{◌≡◌, ◌*◌, ◌≤◌, length};
ghost use Rattle.encoding.specs.Packed.{les};
ghost use Rattle.encoding.specs.Slices.{write};
ghost use Rattle.measure.specs.Measure.{starts_in};

use encoding::packed::put_packed;
use measure::value_length;

// Where each of n values starts in the data, in `width` bytes each.
// Kept (6; no plainer): `n` is no place in the row, but how many values there are.
// Kept (3; no plainer): an iterator over whole values was not made: it would give the parts of the data, and not where each starts;
// and `chunks_exact_mut` would ask here that the width is not 0, which nothing promised needs.
pub(crate) fn write_starts(row: &mut [u8], values: &[u8], n: usize, width: usize)
    requires { width * n ≤ length row.old }
    ensures { row.new ≡ write 0 (les width (starts_in n 0 values.now)) row.old }
{
    let mut at = 0;
    let mut rest = values;
    for _ in 0..n {
        put_packed(row, at, values.len() - rest.len(), width);
        rest = &rest[value_length(rest).unwrap_or(0)..];
        at += width;
    }
}
