// Values walked, one behind the other.
ghost use Rattle.std.specs.Prelude.{◌≡◌};
ghost use Rattle.measure.specs.Measure.{data_in, whole_values};

use crate::length::value_length;

// Are the bytes from `start` up to `used` exactly `count` whole values, end to end?
// Kept (6; no plainer): a caller may know no bounds of its places; those past the bytes are answered, too.
pub fn whole_values(value: &[u8], start: usize, used: usize, count: usize) -> bool
    ensures { result ≡ whole_values count (data_in start used value.now) }
{
    let stop = used.min(value.len());
    are_values(&value[start.min(stop)..stop], count)
}

// Kept (6; no plainer): `count` is no place or end in the bytes, but how many values they are to be.
// Kept (3; no plainer): an iterator over whole values was not made: it would not say whether it ended at the last byte or at one that begins no value.
fn are_values(v: &[u8], count: usize) -> bool
    ensures { result ≡ whole_values count v.now }
{
    let mut rest = v;
    for _ in 0..count {
        let Some(n) = value_length(rest) else {
            return false;
        };
        rest = &rest[n..];
    }
    rest.is_empty()
}
