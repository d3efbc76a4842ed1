// The names that are held, by their ids, and whether the slices hold what the record says.
ghost use Rattle.std.specs.Prelude.{◌≡◌, [], get_or, length};
ghost use Rattle.metadata.specs.Names.{names_of};
ghost use Rattle.metadata.specs.Names.{below as below_of, exceeds as exceeds_of, intact as intact_of};

use crate::Names;
use crate::by_bytes::{below, part};
use encoding::slices::counted;

impl<'a> Names<'a> {
    // Does a used count exceed what is lent?
    pub fn exceeds(self) -> bool
        ensures { result ≡ exceeds_of self.entry.counts (length self.entry.text.now) (length self.entry.ends.now) }
    {
        counted(self.text.len()) < self.counts.text || self.ends.len() < self.counts.names
    }

    // Do the used counts lie within what is lent, and do the name ends rise to the used name bytes?
    pub fn intact(self) -> bool
        ensures { result ≡ intact_of self.entry.counts self.entry.text.now self.entry.ends.now }
    {
        if self.exceeds() {
            return false;
        }
        let ends = &self.ends[..self.counts.names];
        ends.is_sorted() && ends.last().copied().unwrap_or(0) == self.counts.text
    }

    // Is the name of id a below that of id b, by bytes? An id that is not held has the empty name.
    // Kept (2; no plainer): `Stored` of lexicon has `name`, this and `ascend`, too; a trait with a ghost list of names and its laws, for six lines that
    // both have, would be longer than they are, and `name` reads lent numbers here and packed bytes there.
    pub fn name_is_below(self, a: usize, b: usize) -> bool
        ensures { result ≡ below_of (get_or (names_of self.entry.counts self.entry.text.now self.entry.ends.now) a [])
            (get_or (names_of self.entry.counts self.entry.text.now self.entry.ends.now) b []) }
    {
        below(self.name(a), self.name(b))
    }

    // The name of an id, a part of the text.
    pub(crate) fn name(self, id: usize) -> &'a [u8]
        ensures { result.now ≡ get_or (names_of self.entry.counts self.entry.text.now self.entry.ends.now) id [] }
    {
        if self.counts.names <= id || self.ends.len() <= id {
            return &[];
        }
        let start = if id == 0 { 0 } else { self.ends[id - 1] };
        part(self.text, start, self.ends[id])
    }
}
