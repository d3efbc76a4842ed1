// The stored numbers of a dictionary's bytes, and the names between them. Nothing is judged: any bytes have names.
// Kept (1d; no plainer): by definition (`name_in`) an id that is not held has the empty name, so that every id has one.
ghost use Rattle.std.specs.Prelude.{◌≡◌, ◌+◌, ◌*◌, ◌≤◌, ◌<◌, drop, length};
ghost use Rattle.measure.specs.Measure.{number_at};
ghost use Rattle.metadata.specs.Names.{ascending};
ghost use Rattle.metadata.specs.Names.{below as below_of};
ghost use Rattle.metadata.specs.Bytes.{dictionary_names, numbers};
ghost use Rattle.lexicon.specs.Dictionary.{good_names, name_in, width_in};

use encoding::utf8::is_utf8;
use measure::read_packed;
use metadata::{below, part};

// A dictionary's bytes, the width of its stored numbers, and the count, which is the first of them.
#[derive(Clone, Copy)]
pub(crate) struct Stored<'a> {
    pub(crate) bytes: &'a [u8],
    pub(crate) width: usize,
    pub(crate) count: usize,
    ghost width_read: { width ≡ width_in bytes.now },
    ghost width_low: { width ≤ 4 },
    ghost count_read: { count ≡ number_at bytes.now 1 width },
    ghost count_low: { count < 4294967296 },
}

impl<'a> Stored<'a> {
    pub(crate) fn of(bytes: &'a [u8]) -> Self
        ensures { result.bytes.now ≡ bytes.now }
    {
        let width = width_of(bytes);
        let count = read_packed(bytes, 1, width);
        Stored {
            bytes,
            width,
            count,
        }
    }

    // Where the text begins: behind the count, and one offset more than there are names.
    pub(crate) fn text(self) -> usize
        ensures { result ≡ 1 + self.entry.width * (self.entry.count + 2) }
    {
        1 + self.width * (self.count + 2)
    }

    // The i-th offset into the text.
    pub(crate) fn offset(self, i: usize) -> usize
        requires { i < 4294967297 }
        ensures value { result ≡ number_at self.entry.bytes.now (1 + self.entry.width * (i + 1)) self.entry.width }
        ensures small { result < 4294967296 }
    {
        read_packed(self.bytes, 1 + self.width * (i + 1), self.width)
    }

    // The name of an id, as the part of the bytes that it occupies; no bytes where there is none.
    // Kept (2; no plainer): `Names` of metadata has `name`, `name_is_below` and `ascend`, too: see held.rt there.
    pub(crate) fn name(self, id: usize) -> &'a [u8]
        ensures { result.now ≡ name_in self.entry.bytes.now id }
    {
        if self.count <= id {
            return &[];
        }
        let text = self.text();
        let start = if id == 0 { 0 } else { self.offset(id) };
        part(self.bytes, text + start, text + self.offset(id + 1))
    }

    // Is the name of id i below that of id j, by bytes?
    pub(crate) fn name_is_below(self, i: usize, j: usize) -> bool
        ensures { result ≡ below_of (name_in self.entry.bytes.now i) (name_in self.entry.bytes.now j) }
    {
        below(self.name(i), self.name(j))
    }

    // Do the ends behind the first offset rise to the end of the text, with UTF-8 between them?
    // Kept (3; no plainer): the offsets are packed, so that there is no slice of them, and the end of a name is the start of the next.
    pub(crate) fn names_good(self) -> bool
        requires { 1 + self.width * (self.count + 2) ≤ length self.bytes.now }
        ensures { result ≡ good_names 0 (numbers self.entry.width self.entry.count (drop (1 + self.entry.width + self.entry.width) self.entry.bytes.now))
            (drop (1 + self.entry.width * (self.entry.count + 2)) self.entry.bytes.now) }
    {
        let text = &self.bytes[self.text()..];
        let mut at = 0;
        for id in 0..self.count {
            let end = self.offset(id + 1);
            if end < at || text.len() < end || !is_utf8(&text[at..end]) {
                return false;
            }
            at = end;
        }
        at == text.len()
    }

    // Is each name below the next?
    pub(crate) fn ascend(self) -> bool
        ensures { result ≡ ascending (dictionary_names self.entry.bytes.now) }
    {
        (1..self.count).all(|id| self.name_is_below(id - 1, id))
    }
}

// The bytes of each stored number.
fn width_of(d: &[u8]) -> usize
    ensures { (result ≡ width_in d.now) × (result ≤ 4) }
{
    d.first().map_or(1, |first| usize::from(first >> 6) + 1)
}
