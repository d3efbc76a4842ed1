// The way back: the shortest packed decimal of a number.
ghost use Rattle.std.specs.Prelude.{◌≡◌, ◌/◌, ◌<◌, length};
ghost use Rattle.encoding.specs.Signed.{whole};
ghost use Rattle.packed_decimal.specs.PackedDecimal.{byte_of, digit_pairs, sign_of};
ghost use Rattle.packed_decimal.specs.Calls.{WritesPacked};

use encoding::slices::fits;
use value::decimal::{MOST_16, VariantDecimal16, is_beyond};

// Why nothing is written: 7 or 14.
#[derive(Clone, Copy, PartialEq, Eq, Debug)]
pub enum WriteError {
    OutOfRange,
    NoRoom,
}

// The shortest form of high * 2^64 + low at the front of `out`, and its length. The scale is asked and not written.
// Kept (5b; C interface): the number comes as two halves from the call, and becomes an i128 in the first line.
pub fn write_packed_decimal(
    high: i64,
    low: u64,
    scale: u8,
    out: &mut [u8],
) -> Result<usize, WriteError>
    ensures { WritesPacked (whole high low) scale out.old result out.new }
{
    let integer = VariantDecimal16 { high, low, scale }.integer();
    let n = integer.unsigned_abs();
    if is_beyond(MOST_16, scale, integer) {
        return Err(WriteError::OutOfRange);
    }
    let count = pair_count(n / 10);
    let size = count + 1;
    if !fits(0, size, out.len()) {
        return Err(WriteError::NoRoom);
    }
    out[count] = last_byte((n % 10) as u8, integer);
    write_pairs(&mut out[..count], n / 10);
    Ok(size)
}

// The last digit beside the sign.
fn last_byte(digit: u8, integer: i128) -> u8
    requires { digit < 10 }
    ensures { result ≡ byte_of digit (sign_of integer) }
{
    if integer < 0 {
        digit * 16 + 0xD
    } else {
        digit * 16 + 0xC
    }
}

fn pair_count(n: u128) -> usize
    ensures { result ≡ length (digit_pairs n) }
{
    match n.checked_ilog10() {
        Some(k) => k as usize / 2 + 1,
        None => 0,
    }
}

// The pairs before the last byte, from the last to the first.
// Kept (3; proof): by `out.iter_mut().rev()` the invariant over what that iterator has lent and not yet given back stayed open.
fn write_pairs(out: &mut [u8], n: u128)
    requires { length out.old ≡ length (digit_pairs n) }
    ensures { out.new ≡ digit_pairs n }
{
    let mut rest = n;
    for i in (0..out.len()).rev() {
        let left = tenth(rest);
        out[i] = (left % 10) as u8 * 16 + (rest % 10) as u8;
        rest = tenth(left);
    }
}

// Not put in line: two of these together would become a division by 100, for which the compiler calls a function from outside (`__udivti3`);
// for one by 10 it does not.
#[inline(never)]
fn tenth(n: u128) -> u128
    ensures { result ≡ n / 10 }
{
    n / 10
}
