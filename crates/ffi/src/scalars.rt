// A scalar of fixed size from numbers: the code of its type, a signed number, an unsigned number and a scale; and a kind of bytes from its
// code.
ghost use Rattle.std.specs.Prelude.{◌≡◌, MatchOption, cond, ltb};
ghost use Rattle.value.specs.Scalar.{scalar_bytes, stored_bytes, stored_variant};
ghost use Rattle.semantics.specs.Record.{fixed};
ghost use Rattle.actions.specs.Append.{OwnBytes};
ghost use Rattle.ffi.specs.Scalars.{bytes_by, kind_of, no_scalar, variant_of};

use actions::Scalar;
use semantics::Refusal;
use value::decimal::{VariantDecimal4, VariantDecimal8, VariantDecimal16};
use value::variant::{OfKind, Variant, VariantBytes};

// None where the numbers are no scalar.
#[tactic(auto, unfolding(crate::specs::Scalars::variant_of))]
fn scalar_of(code: u8, z: i64, low: u64, scale: u8) -> Option<Variant>
    ensures { MatchOption result (variant_of code z low scale ≡ no_scalar) (λ x. x ≡ variant_of code z low scale) }
{
    match code {
        0 => Some(Variant::Null),
        1 => Some(Variant::BooleanTrue),
        2 => Some(Variant::BooleanFalse),
        3 => Some(Variant::Int8(i8::try_from(z).ok()?)),
        4 => Some(Variant::Int16(i16::try_from(z).ok()?)),
        5 => Some(Variant::Int32(i32::try_from(z).ok()?)),
        6 => Some(Variant::Int64(z)),
        7 => Some(Variant::Double(low)),
        8 => Some(Variant::Decimal4(VariantDecimal4 {
            integer: i32::try_from(z).ok()?,
            scale,
        })),
        9 => Some(Variant::Decimal8(VariantDecimal8 { integer: z, scale })),
        10 => Some(Variant::Decimal16(VariantDecimal16 {
            high: z,
            low,
            scale,
        })),
        11 => Some(Variant::Date(i32::try_from(z).ok()?)),
        12 => Some(Variant::TimestampMicros(z)),
        13 => Some(Variant::TimestampNtzMicros(z)),
        14 => Some(Variant::Float(u32::try_from(low).ok()?)),
        17 => Some(Variant::Time(z)),
        18 => Some(Variant::TimestampNanos(z)),
        19 => Some(Variant::TimestampNtzNanos(z)),
        _ => None,
    }
}

// A scalar by the code of its type, or its own refusal; numbers that are no scalar are out of range.
pub(crate) fn value_by(code: u8, z: i64, low: u64, scale: u8) -> Result<Variant, Refusal>
    ensures { OwnBytes (λ x. scalar_bytes (stored_variant x)) (fixed (variant_of code z low scale)) result }
{
    scalar_of(code, z, low, scale)
        .ok_or(Refusal::OutOfRange)?
        .own()
}

// None is of a code from 4 on.
// Kept (4; C interface): the codes of the kinds are those of the calls.
#[tactic(auto, unfolding(crate::specs::Scalars::kind_of))]
fn kind_of(kind: u8) -> Option<VariantBytes>
    ensures { result ≡ cond (ltb 3 kind) None (Some (kind_of kind)) }
{
    match kind {
        0 => Some(VariantBytes::Binary),
        1 => Some(VariantBytes::String),
        2 => Some(VariantBytes::ShortString),
        3 => Some(VariantBytes::Text),
        _ => None,
    }
}

// Bytes by the code of their kind, or their own refusal; those of no kind are no scalar.
pub(crate) fn bytes_by(kind: u8, bytes: &[u8]) -> Result<OfKind<'_>, Refusal>
    ensures { OwnBytes (λ x. scalar_bytes (stored_bytes x.kind x.bytes.now)) (bytes_by kind bytes.now) result }
{
    let kind = kind_of(kind).ok_or(Refusal::OutOfRange)?;
    OfKind { kind, bytes }.own()
}
