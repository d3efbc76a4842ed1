// The header of a list or an object: one byte, the count, an object's ids, and the offsets, behind which the data begins.
ghost use Rattle.std.specs.Prelude.{◌≡◌, ◌+◌, ◌*◌, ◌≤◌, ◌<◌, drop, get_or};
ghost use Rattle.container.specs.Layout.{count_size};
ghost use Rattle.metadata.specs.Bytes.{numbers};
ghost use Rattle.grammar.specs.Tests.{list_count, list_from, list_offsets, object_count, object_from, object_offsets, stored_ids};
ghost use Rattle.header_reader.specs.Heads.{Head, header_in};
ghost use Rattle.header_reader.specs.Kinds.{whole_of};

use crate::kinds::{Kind, kind_of};
use crate::numbers::Numbers;
use measure::{read_packed, value_length};
use std::marker::Model;

// How many elements or fields these bytes count, and where the ids and offsets stand, of so many bytes each.
#[derive(Drop)]
pub struct Header<'a> {
    bytes: &'a [u8],
    count: usize,
    ids: usize,
    id_width: usize,
    offsets: usize,
    offset_width: usize,
}

// They are what the header says: nothing is judged, any bytes have a header.
impl<'a> Model for Header<'a> {
    ghost Value = { Head };

    ghost view = { λ h. record {
      count = h.count;
      ids = numbers h.id_width h.count (drop h.ids h.bytes.now);
      offsets = numbers h.offset_width h.count (drop h.offsets h.bytes.now);
      from = h.offsets + h.offset_width * (h.count + 1);
    } };

    ghost invariant = { λ h. (h.count < 4294967296) × (h.id_width ≤ 4) × (h.offset_width ≤ 4) × (h.ids ≤ 5) × (h.offsets ≤ 5 + 4 * 4294967296) };
}

impl<'a> Header<'a> {
    // A list has no ids.
    pub fn of_list(v: &'a [u8]) -> Header<'a>
        ensures count { result.count ≡ list_count v.now }
        ensures offsets { result.offsets ≡ list_offsets v.now }
        ensures from { result.from ≡ list_from v.now }
    {
        Header::new(v, first_byte(v) / 16 % 2 == 1, 0)
    }

    pub fn of_object(v: &'a [u8]) -> Header<'a>
        ensures count { result.count ≡ object_count v.now }
        ensures ids { result.ids ≡ stored_ids v.now }
        ensures offsets { result.offsets ≡ object_offsets v.now }
        ensures from { result.from ≡ object_from v.now }
    {
        let first = first_byte(v);
        Header::new(v, first / 64 % 2 == 1, first / 16 % 4 + 1)
    }

    // A count has one byte, or four where it is large.
    // Kept (1c; no plainer): the bit of the header's first byte that says so, which a list and an object have at different places.
    fn new(v: &'a [u8], large: bool, id_width: usize) -> Header<'a>
        requires { id_width ≤ 4 }
        ensures { result ≡ header_in v.now (count_size large) id_width }
    {
        let count_size = if large { 4 } else { 1 };
        let count = read_packed(v, 1, count_size);
        let ids = 1 + count_size;
        Header {
            bytes: v,
            count,
            ids,
            id_width,
            offsets: ids + id_width * count,
            offset_width: first_byte(v) / 4 % 4 + 1,
        }
    }

    // How many elements or fields there are.
    pub fn count(&self) -> usize
        ensures { (result ≡ self.now.count) × (result < 4294967296) }
    {
        self.count
    }

    // The id of field k.
    // Kept (1d; no plainer): callers ask below `count`; behind it the definition that they are proved against says 0.
    pub fn id(&self, k: usize) -> usize
        ensures { (result ≡ get_or self.now.ids k 0) × (result < 4294967296) }
    {
        self.ids().get(k)
    }

    // The offset of element or field k, counted from where the data begins.
    // Kept (1d, 2; no plainer): as `id`, of the header's other row.
    pub fn offset(&self, k: usize) -> usize
        ensures { (result ≡ get_or self.now.offsets k 0) × (result < 4294967296) }
    {
        self.offsets().get(k)
    }

    // Where the data begins.
    pub fn from(&self) -> usize
        ensures { (result ≡ self.now.from) × (result ≤ 5 + 8 * 4294967296) }
    {
        self.offsets + self.offset_width * (self.count + 1)
    }

    pub(crate) fn ids(&self) -> Numbers<'a>
        ensures { result ≡ self.now.ids }
    {
        Numbers::new(self.bytes, self.ids, self.id_width, self.count)
    }

    // Kept (2; no plainer): the header's other row, with its own place and width.
    pub(crate) fn offsets(&self) -> Numbers<'a>
        ensures { result ≡ self.now.offsets }
    {
        Numbers::new(self.bytes, self.offsets, self.offset_width, self.count)
    }
}

// Are the bytes of this kind, which has a header, by their first one, its unused bits zero, and as many as they say?
pub(crate) fn is_whole(v: &[u8], kind: Kind) -> bool
    ensures { result ≡ whole_of kind v.now }
{
    let most = match kind {
        Kind::List => 32,
        Kind::Object => 128,
        Kind::Scalar => return false,
    };
    kind_of(v) == kind && first_byte(v) < most && value_length(v) == Some(v.len())
}

// Kept (1d; no plainer): the first byte, 0 where there is none, as the definitions read it; then no kind of header passes.
pub(crate) fn first_byte(v: &[u8]) -> usize
    ensures { (result ≡ get_or v.now 0 0) × (result < 256) }
{
    v.first().map_or(0, |b| usize::from(*b))
}
