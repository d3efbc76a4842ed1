// Whether bytes are one scalar.
ghost use Rattle.std.specs.Prelude.{◌≡◌, suc, ◌%◌, ◌<◌, ◌∷◌, length};
ghost use Rattle.value.specs.Scalar.{type_of_byte};
ghost use Rattle.measure.specs.Measure.{measured};
ghost use Rattle.grammar.specs.Scalars.{outside};
ghost use Rattle.grammar.specs.Tests.{is_scalar};

use encoding::utf8::is_utf8;
use measure::value_length;
use value::decimal::{MOST_16, is_beyond, time_out_of_range};

// Are the bytes one scalar and no more, as long as stored and within its range?
pub fn is_scalar(v: &[u8]) -> bool
    ensures { result ≡ is_scalar v.now }
{
    let Some((first, payload)) = v.split_first() else {
        return false;
    };
    *first % 4 < 2 && value_length(v) == Some(v.len()) && !is_outside(*first, payload)
}

// By the first byte, which tells how many bytes the payload has: decimals, String, time, short text, and those without a range.
fn is_outside(first: u8, payload: &[u8]) -> bool
    requires { (first % 4 < 2) × (measured (first ∷ payload.now) ≡ suc (length payload.now)) }
    ensures { result ≡ outside (type_of_byte first) payload.now }
{
    match first {
        32 => {
            let number = i32::from_le_bytes(*payload.last_chunk().unwrap());
            is_beyond(999_999_999, payload[0], i128::from(number))
        }
        36 => {
            let number = i64::from_le_bytes(*payload.last_chunk().unwrap());
            is_beyond(999_999_999_999_999_999, payload[0], i128::from(number))
        }
        40 => {
            let number = i128::from_le_bytes(*payload.last_chunk().unwrap());
            is_beyond(MOST_16, payload[0], number)
        }
        64 => !is_utf8(&payload[4..]),
        68 => {
            let micros = i64::from_le_bytes(*payload.last_chunk().unwrap());
            time_out_of_range(micros)
        }
        _ => first % 4 == 1 && !is_utf8(payload),
    }
}
