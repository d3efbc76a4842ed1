// A list's header.
ghost use Rattle.std.specs.Prelude.{◌≡◌};
ghost use Rattle.metadata.specs.Names.{same};
ghost use Rattle.grammar.specs.Tests.{list_head, starts_of};

use crate::header::{Header, is_whole};
use crate::kinds::Kind;
use crate::numbers::Numbers;
use measure::value_length;

// The size of the header of bytes that are one list by their header: as long as they say, unused bits zero, offsets the starts of the
// values in its data. Not put in line: lists hold each other, and the walk's frame stays small.
#[inline(never)]
pub fn list_head(v: &[u8]) -> Option<usize>
    ensures { result ≡ list_head v.now }
{
    if !is_whole(v, Kind::List) {
        return None;
    }
    let header = Header::of_list(v);
    let from = header.from();
    are_starts(header.offsets(), &v[from..]).then_some(from)
}

// Are the offsets where the values start, each of them, that these bytes begin with?
// Kept (3; no plainer): `at` is no index beside the `for`: it is the start that is compared, and grows by the value's length.
fn are_starts(offsets: Numbers, values: &[u8]) -> bool
    ensures { result ≡ same offsets.entry (starts_of values.now) }
{
    let mut at = 0;
    for offset in offsets {
        if offset != at {
            return false;
        }
        let Some(n) = value_length(&values[at..]) else {
            return false;
        };
        at += n;
    }
    value_length(&values[at..]).is_none()
}
