// Every byte string of a length is made, ascending, and read; a value's record goes behind the others.
ghost use Rattle.std.specs.Prelude.{◌≡◌, false, ◌&&◌, [], ◌∷◌, map, ◌+◌, ◌^◌, ◌≤◌, leb, get_or, length as length_of, MatchResult};
ghost use Rattle.encoding.specs.Slices.{write};
ghost use Rattle.metadata.specs.Bytes.{never_used};
ghost use Rattle.batch.specs.Layout.{record_of, records_bytes};
ghost use Rattle.small_values.specs.Small.{WritesSmall, file_of, keep, values_of};
ghost use Rattle.small_values.specs.declared.SmallError.TheVariants as small_error;

use crate::SmallError;
use batch::{add, start};
use measure::value_length;
use reader::read_pair;

// How many bytes the strings have: 1, 2 or 3.
#[derive(Clone, Copy)]
struct Length {
    bytes: usize,
    ghost short: { (1 ≤ bytes) × (bytes ≤ 3) },
}

// The values of 1, 2 or 3 bytes that the reader accepts over the dictionary 01 00 00, as a batch file at the start of `out`.
pub fn write_small_values(length: usize, out: &mut [u8]) -> Result<usize, SmallError>
    ensures { WritesSmall length out.old result out.new }
{
    let strings = Length::of(length)?;
    let size = strings.file_size();
    if out.len() < size {
        return Err(SmallError::NoRoom);
    }
    start(out)?;
    strings.write_records(out);
    Ok(size)
}

impl Length {
    fn of(length: usize) -> Result<Length, SmallError>
        ensures { MatchResult result (λ l. l.bytes ≡ length) (λ e. (e ≡ small_error.BadLength) × ((leb 1 length && leb length 3) ≡ false)) }
    {
        if (1..=3).contains(&length) {
            Ok(Length { bytes: length })
        } else {
            Err(SmallError::BadLength)
        }
    }

    // Known before a byte is written: 4 values, 384 and 83,845.
    fn file_size(self) -> usize
        ensures { result ≡ length_of (file_of self.bytes) }
    {
        match self.bytes {
            1 => 49,
            2 => 4993,
            _ => 1173831,
        }
    }

    // Behind the version byte: string n is the lowest bytes of n, highest first.
    // Kept (3; no plainer): n is no index of anything: its bytes are what is added, and the used bytes go from one call to the next.
    fn write_records(self, out: &mut [u8])
        requires out_value { get_or out.old 0 0 ≡ 1 }
        requires length_in_bounds { length_of (file_of self.bytes) ≤ length_of out.old }
        ensures { out.new ≡ write 1 (records_bytes (map (record_of never_used) (values_of self.bytes))) out.old }
    {
        let mut used = 1;
        for n in 0..self.string_count() {
            let bytes = n.to_be_bytes();
            used = add_value(out, used, &bytes[4 - self.bytes..]);
        }
    }

    // How many byte strings there are.
    fn string_count(self) -> u32
        ensures { result ≡ 256 ^ self.bytes }
    {
        1 << (8 * self.bytes)
    }
}

// The record of a string that is a value; else nothing. The result is the place behind. Most strings are not as long as they say.
// Kept (6; no plainer): a file and its used bytes, as `add` of batch takes them.
fn add_value(out: &mut [u8], used: usize, string: &[u8]) -> usize
    requires le_used { (1 ≤ used) × (get_or out.old 0 0 ≡ 1) × (length_of string.now ≤ 3) }
    requires string_in_bounds { used + length_of (records_bytes (map (record_of never_used) (keep (string.now ∷ [])))) ≤ length_of out.old }
    ensures { (result ≡ used + length_of (records_bytes (map (record_of never_used) (keep (string.now ∷ [])))))
        × (out.new ≡ write used (records_bytes (map (record_of never_used) (keep (string.now ∷ [])))) out.old) }
{
    if value_length(string) != Some(string.len()) {
        return used;
    }
    let Ok(_) = read_pair(b"\x01\x00\x00", string) else {
        return used;
    };
    add(out, used, b"\x01\x00\x00", string).unwrap_or(used)
}
