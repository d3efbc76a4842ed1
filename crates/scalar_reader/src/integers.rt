// The integer that bytes are.
ghost use Rattle.std.specs.Prelude.{◌≡◌};
ghost use Rattle.scalar_reader.specs.Integers.{integer_in};

// The number of bytes that are one int8, int16, int32 or int64; of any other bytes, that they are none.
pub fn integer_of(v: &[u8]) -> Option<i64>
    ensures { result ≡ integer_in v.now }
{
    let (first, payload) = v.split_first()?;
    match first {
        12 => Some(i64::from(i8::from_le_bytes(*payload.as_array()?))),
        16 => Some(i64::from(i16::from_le_bytes(*payload.as_array()?))),
        20 => Some(i64::from(i32::from_le_bytes(*payload.as_array()?))),
        24 => Some(i64::from_le_bytes(*payload.as_array()?)),
        _ => None,
    }
}
