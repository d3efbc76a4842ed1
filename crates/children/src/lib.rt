// A value's live children (document 02, A11): a list's elements and an object's fields, by their numbers as the header has them. No function demands
// anything of its caller.
#![tactic(auto)]

ghost use Rattle.std.specs.Prelude.{◌≡◌, [], ◌<◌, length, option_copied, MatchOption};
ghost use Rattle.children.specs.Children.{Counts, child_bytes, parts_of};

use header_reader::{Header, value_from};
pub use header_reader::{Kind, kind_of};

// How many there are; a scalar has none.
pub fn child_count(v: &[u8]) -> usize
    ensures { (result ≡ length (parts_of [] v.now)) × (result < 4294967296) }
{
    match header_of(v) {
        Some(header) => header.count(),
        None => 0,
    }
}

// The bytes of child k, if there is one.
pub fn child(v: &[u8], k: usize) -> Option<&[u8]>
    ensures { option_copied result ≡ child_bytes v.now k }
{
    let header = header_of(v)?;
    if header.count() <= k {
        return None;
    }
    Some(value_from(v, header.from() + header.offset(k)))
}

// A list's or an object's header.
fn header_of(v: &[u8]) -> Option<Header<'_>>
    ensures { MatchOption result (parts_of [] v.now ≡ []) (λ header. Counts v.now header) }
{
    match kind_of(v) {
        Kind::List => Some(Header::of_list(v)),
        Kind::Object => Some(Header::of_object(v)),
        Kind::Scalar => None,
    }
}
