// The reader's calls for other languages (document 02, A6 and A13): slices lent, numbers told. No call demands anything of its caller but that what
// is lent is valid and does not overlap, which is outside the proof. What a call does not tell stays as it was.
// Kept (1d, 5b; C interface): a refusal is told as its number, 0 without one, and each slice and word is lent on its own.
#![tactic(auto)]

ghost use Rattle.std.specs.Prelude.{◌≡◌};
ghost use Rattle.encoding.specs.Rows.{first};
ghost use Rattle.grammar.specs.Tests.{pair_rows};
ghost use Rattle.reader_ffi.specs.Words.{TellsField, TellsInteger, TellsSmall, field_words, integer_words};

use reader::{find_field, first_integer, read_pair};
use small_values::{SmallError, write_small_values};

// 19 where `metadata` is no whole dictionary, then 20 where `value` is not one value of the grammar over its names, else 0.
#[unsafe(no_mangle)]
pub extern "C" fn variant_read(metadata: &[u8], value: &[u8]) -> u8
    ensures { result ≡ first (pair_rows metadata.now value.now) }
{
    match read_pair(metadata, value) {
        Ok(_) => 0,
        Err(error) => error.number(),
    }
}

// 19 or 20 as above; else 0, and `kind` is 0 where the object has a field of this name, whose value lies from `start` up to `end`, or 1 where
// there is none, or the value is no object.
#[unsafe(no_mangle)]
pub extern "C" fn variant_field(
    metadata: &[u8],
    value: &[u8],
    name: &[u8],
    kind: &mut u8,
    start: &mut usize,
    end: &mut usize,
) -> u8
    ensures { TellsField result metadata.now value.now name.now
        (field_words kind.old start.old end.old)
        (field_words kind.new start.new end.new) }
{
    match find_field(metadata, value, name) {
        Ok(Some(part)) => {
            *kind = 0;
            *start = part.start;
            *end = part.end;
            0
        }
        Ok(None) => {
            *kind = 1;
            0
        }
        Err(error) => error.number(),
    }
}

// 19 or 20 as above; else 0, and `kind` is 0 where a field of the object is int8 to int64: the stored id and the number of the first one in
// order of names; or 1 where none is.
#[unsafe(no_mangle)]
pub extern "C" fn variant_first_integer(
    metadata: &[u8],
    value: &[u8],
    kind: &mut u8,
    id: &mut usize,
    number: &mut i64,
) -> u8
    ensures { TellsInteger result metadata.now value.now
        (integer_words kind.old id.old number.old)
        (integer_words kind.new id.new number.new) }
{
    match first_integer(metadata, value) {
        Ok(Some(field)) => {
            *kind = 0;
            *id = field.id;
            *number = field.number;
            0
        }
        Ok(None) => {
            *kind = 1;
            0
        }
        Err(error) => error.number(),
    }
}

// Every value of 1, 2 or 3 bytes that is read over the dictionary 01 00 00, as a batch file at the start of `out`, its length into `written`;
// 26 for any other length, then 14 where it does not fit.
#[unsafe(no_mangle)]
pub extern "C" fn variant_write_small_values(
    length: usize,
    out: &mut [u8],
    written: &mut usize,
) -> u8
    ensures { TellsSmall result length out.old out.new written.old written.new }
{
    match write_small_values(length, out) {
        Ok(n) => {
            *written = n;
            0
        }
        Err(SmallError::BadLength) => 26,
        Err(SmallError::NoRoom) => 14,
    }
}
