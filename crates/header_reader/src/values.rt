// A value among others.
ghost use Rattle.std.specs.Prelude.{◌≡◌};
ghost use Rattle.header_reader.specs.Heads.{value_from};

use measure::value_length;
use metadata::part;

// The value that starts at a place, as long as its own first bytes say; no bytes where none does.
// Kept (1d; no plainer): a value has at least one byte, so that no bytes are none, and callers ask the length, which they need in any case.
// Kept (6; no plainer): `at` may lie behind the bytes, where a slice from it would be refused.
pub fn value_from(v: &[u8], at: usize) -> &[u8]
    ensures { result.now ≡ value_from at v.now }
{
    let rest = part(v, at, v.len());
    &rest[..value_length(rest).unwrap_or(0)]
}
