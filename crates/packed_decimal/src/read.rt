// The scalar that is stored for packed decimal.
ghost use Rattle.std.specs.Prelude.{◌≡◌, ◌||◌, ◌+◌, ◌-◌, ◌*◌, ◌/◌, ◌%◌, ◌^◌, ◌≤◌, min, ltb};
ghost use Rattle.std.specs.List.{fold, list_any};
ghost use Rattle.packed_decimal.specs.PackedDecimal.{digits, digit_above9, is_minus, is_plus, magnitude, not_packed, sign, signed, smallest};
ghost use Rattle.packed_decimal.specs.Calls.{ReadsPacked};
ghost use Rattle.packed_decimal.specs.Capped.{bytes_of, limit, with_pair};

use value::decimal::{MOST_16, VariantDecimal4, VariantDecimal8, VariantDecimal16};
use value::variant::Variant;

// Why no scalar is stored: 18 or 7.
#[derive(Clone, Copy, PartialEq, Eq, Debug)]
pub enum PackedError {
    NotPacked,
    OutOfRange,
}

// One byte or more: the pairs of digits, and the last byte, which has the last digit and the sign.
#[derive(Clone, Copy)]
struct Form<'a> {
    pairs: &'a [u8],
    last: u8,
}

// The smallest decimal that holds the number.
pub fn variant_of(bytes: &[u8], scale: u8) -> Result<Variant, PackedError>
    ensures { ReadsPacked bytes.now scale result }
{
    let (last, pairs) = bytes.split_last().ok_or(PackedError::NotPacked)?;
    let form = Form { pairs, last: *last };
    if form.is_not_packed() {
        return Err(PackedError::NotPacked);
    }
    let n = form.magnitude();
    if too_large(n, scale) {
        return Err(PackedError::OutOfRange);
    }
    Ok(smallest(form.signed(n), scale))
}

impl Form<'_> {
    // Number 18's condition.
    fn is_not_packed(self) -> bool
        ensures { result ≡ not_packed (bytes_of self.entry) }
    {
        20 <= self.pairs.len() || (self.has_digit_above_9() || !self.has_sign())
    }

    fn has_sign(self) -> bool
        ensures { result ≡ (is_plus (sign (bytes_of self.entry)) || is_minus (sign (bytes_of self.entry))) }
    {
        matches!(self.sign(), 0xC | 0xD | 0xF)
    }

    #[tactic(auto, using(crate::proofs::ReadLaws::last_sign))]
    fn sign(self) -> u8
        ensures { result ≡ sign (bytes_of self.entry) }
    {
        low_half(self.last)
    }

    fn has_digit_above_9(self) -> bool
        ensures { result ≡ digit_above9 (digits (bytes_of self.entry)) }
    {
        pairs_above_9(self.pairs) || 9 < high_half(self.last)
    }

    // The number that the digits make, or the limit where they make more.
    fn magnitude(self) -> u128
        ensures { result ≡ min (magnitude (bytes_of self.entry)) limit }
    {
        with_digit(pairs_magnitude(self.pairs), high_half(self.last))
    }

    // The number n with the sign of the bytes.
    fn signed(self, n: u128) -> i128
        requires { n ≤ 10 ^ 38 - 1 }
        ensures { result ≡ signed (is_minus (sign (bytes_of self.entry))) n }
    {
        if self.sign() == 0xD {
            -(n as i128)
        } else {
            n as i128
        }
    }
}

fn high_half(b: u8) -> u8
    ensures { result ≡ b / 16 }
{
    b >> 4
}

// Kept (4; no plainer): the mask, with the definition's words for its callers.
fn low_half(b: u8) -> u8
    ensures { result ≡ b % 16 }
{
    b & 0xf
}

fn pairs_above_9(pairs: &[u8]) -> bool
    ensures { result ≡ list_any (λ b. ltb 9 (b / 16) || ltb 9 (b % 16)) pairs.now }
{
    pairs.iter().any(|b| 9 < high_half(*b) || 9 < low_half(*b))
}

fn pairs_magnitude(pairs: &[u8]) -> u128
    ensures { result ≡ fold with_pair 0 pairs.now }
{
    pairs.iter().fold(
        0,
        |n, b| with_digit(with_digit(n, high_half(*b)), low_half(*b)),
    )
}

fn with_digit(n: u128, digit: u8) -> u128
    ensures { result ≡ min (n * 10 + digit) limit }
{
    n.saturating_mul(10).saturating_add(u128::from(digit))
}

// Number 7's condition.
fn too_large(n: u128, scale: u8) -> bool
    ensures { result ≡ (ltb 38 scale || ltb (10 ^ 38 - 1) n) }
{
    38 < scale || MOST_16 < n
}

fn smallest(integer: i128, scale: u8) -> Variant
    ensures { result ≡ smallest scale integer }
{
    let n = integer.unsigned_abs();
    if 999_999_999_999_999_999 < n {
        return Variant::Decimal16(VariantDecimal16 {
            high: (integer >> 64) as i64,
            low: integer.rem_euclid(0x1_0000_0000_0000_0000) as u64,
            scale,
        });
    }
    if 999_999_999 < n {
        return Variant::Decimal8(VariantDecimal8 {
            integer: integer as i64,
            scale,
        });
    }
    Variant::Decimal4(VariantDecimal4 {
        integer: integer as i32,
        scale,
    })
}
