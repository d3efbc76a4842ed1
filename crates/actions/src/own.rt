// What a caller may append, and what is stored for it or its own refusal.
// Kept (2; no plainer): each impl asks its own test and answers its own refusal, and that is all that it has.
ghost use Rattle.std.specs.Prelude.{◌≡◌};
ghost use Rattle.semantics.specs.Record.{Scalars, bytes as bytes_of, civil, fixed, packed, uuid as uuid_of};
ghost use Rattle.actions.specs.Append.{OwnBytes, size_by};

use calendar::civil::{Civil, variant_of};
use semantics::Refusal;
use value::stored::Stored;
use value::variant::{OfKind, Variant};

pub trait Scalar {
    type As: Stored + Copy;

    ghost scalar: { Self → Scalars };

    fn own(self) -> Result<Self::As, Refusal>
        ensures { OwnBytes Self.As.stored (scalar self) result };
}

// One of fixed size.
impl Scalar for Variant {
    type As = Variant;

    ghost scalar = { fixed };

    #[tactic(auto, using(crate::proofs::AppendLaws::fixed_refused, crate::proofs::AppendLaws::fixed_stored))]
    fn own(self) -> Result<Variant, Refusal> {
        if self.out_of_range() {
            Err(Refusal::OutOfRange)
        } else {
            Ok(self)
        }
    }
}

// A date, or a date and a time of day.
impl Scalar for Civil {
    type As = Variant;

    ghost scalar = { civil };

    fn own(self) -> Result<Variant, Refusal> {
        Ok(variant_of(self)?)
    }
}

// Packed decimal, two digits a byte, and a scale: the smallest of the three decimals that holds the number.
#[derive(Clone, Copy)]
pub struct Packed<'a> {
    pub scale: u8,
    pub bytes: &'a [u8],
}

impl Scalar for Packed<'_> {
    type As = Variant;

    ghost scalar = { λ x. packed x.scale x.bytes.now };

    fn own(self) -> Result<Variant, Refusal> {
        Ok(packed_decimal::read::variant_of(self.bytes, self.scale)?)
    }
}

// Binary, String, short text or plain text.
impl<'a> Scalar for OfKind<'a> {
    type As = OfKind<'a>;

    ghost scalar = { λ x. bytes_of x.kind x.bytes.now };

    fn own(self) -> Result<OfKind<'a>, Refusal> {
        if self.ill_formed() {
            Err(Refusal::IllFormed)
        } else {
            Ok(self)
        }
    }
}

// A UUID.
impl Scalar for [u8; 16] {
    type As = [u8; 16];

    ghost scalar = { uuid_of };

    fn own(self) -> Result<[u8; 16], Refusal> {
        Ok(self)
    }
}

// The bytes that it takes, or its own refusal.
pub fn size_of<S: Stored + Copy>(x: Result<S, Refusal>) -> Result<usize, Refusal>
    ensures { result ≡ size_by S.stored x }
{
    Ok(x?.size())
}
