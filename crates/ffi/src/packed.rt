// A decimal of 16 bytes as packed decimal.
ghost use Rattle.encoding.specs.Signed.{whole};
ghost use Rattle.ffi.specs.Packed.{WritesPackedWords};

use packed_decimal::write::{WriteError, write_packed_decimal};

// Kept (5b; C interface): the number comes as two halves from the call, and the callee makes it one.
// The shortest packed form of high * 2^64 + low at the start of `out`, its length in `written`; 7 where the magnitude or the scale is too
// large, then 14 where `out` is too short. A refused call leaves both.
#[unsafe(no_mangle)]
pub extern "C" fn variant_write_packed_decimal(
    high: i64,
    low: u64,
    scale: u8,
    out: &mut [u8],
    written: &mut usize,
) -> u8
    ensures { WritesPackedWords result (whole high low) scale out.old out.new written.old written.new }
{
    match write_packed_decimal(high, low, scale, out) {
        Ok(n) => {
            *written = n;
            0
        }
        Err(WriteError::OutOfRange) => 7,
        Err(WriteError::NoRoom) => 14,
    }
}
