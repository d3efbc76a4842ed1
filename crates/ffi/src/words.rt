// The state words read and written, piece by piece.
ghost use Rattle.std.specs.Prelude.{◌≡◌, ◌<◌, ◌≤◌, ◌+◌, ℕ};
ghost use Rattle.semantics.specs.Record.{view_of};
ghost use Rattle.ffi.specs.Words.{builder_of, container_from, container_word, counts_of, Puts, PutsContainer, PutsCounts, PutsElements};
ghost use Rattle.ffi.specs.Words.{id_of, offset_of, parent_entry_of, tag_of};

use crate::WORDS;
use actions::Moved;
use container::Entry;
use marks::NUMBERS;
use metadata::MetadataBuilder;
use records::Record;
use semantics::{Container, Counts, Refusal, View, no_container};

// The words, read as a builder's record.
#[derive(Clone, Copy)]
pub(crate) struct Words<'a>(pub &'a [usize; WORDS]);

impl Record for Words<'_> {
    ghost builder = { λ w. builder_of w.0.now };

    #[tactic(auto, unfolding(crate::specs::Words::counts_of))]
    fn counts(&self) -> Counts {
        let words = self.0;
        Counts {
            value: words[0],
            entries: words[1],
            depth: words[2],
            dictionary: MetadataBuilder::from_parts(words[3], words[4]),
            unique: words[5] != 0,
            finished: words[6] != 0,
            floor: words[7],
            undo: words[8],
        }
    }

    #[inline(always)]
    fn container(&self, i: usize) -> Container {
        if i < 64 {
            container_from(self.0, place_of(i))
        } else {
            no_container()
        }
    }

    #[inline(always)]
    fn elements(&self, i: usize) -> usize {
        if i < 64 { self.0[713 + i] } else { 0 }
    }
}

// What a call sees of the builder that the words mean, and of the table of marks.
#[inline(always)]
pub(crate) fn view_of(words: &[usize; WORDS], marks: &[usize; NUMBERS]) -> View
    ensures { result ≡ view_of (builder_of words.now) marks.now }
{
    records::view_of(&Words(words), marks)
}

// The container whose eleven words start at place p.
// Kept (6; C interface): the words are lent as one array, and `Record` reads them by the container's depth.
#[tactic(auto, unfolding(crate::specs::Words::container_from))]
#[inline(always)]
fn container_from(words: &[usize; WORDS], p: usize) -> Container
    requires { p ≤ 702 }
    ensures { result ≡ container_from words.now p }
{
    Container {
        value: words[p],
        names: words[p + 1],
        text: words[p + 2],
        entries: words[p + 3],
        parent: parent_entry(words[p + 4], words[p + 5], words[p + 6]),
        object: words[p + 7] != 0,
        unique: words[p + 8] != 0,
        undo: words[p + 9],
        marks: words[p + 10],
    }
}

#[tactic(auto, unfolding(crate::specs::Words::parent_entry_of))]
#[inline(always)]
fn parent_entry(tag: usize, id: usize, offset: usize) -> Option<Entry>
    ensures { result ≡ parent_entry_of tag id offset }
{
    match tag {
        0 => None,
        _ => Some(Entry { id, offset }),
    }
}

// The tag, the id and the offset of a parent's entry.
fn parent_words(e: Option<Entry>) -> (usize, usize, usize)
    ensures { result ≡ (tag_of e, id_of e, offset_of e) }
{
    match e {
        None => (0, 0, 0),
        Some(former) => (1, former.id, former.offset),
    }
}

// Where the words of the container at depth d start.
fn place_of(d: usize) -> usize
    requires { d < 64 }
    ensures { result ≡ container_word d }
{
    9 + 11 * d
}

pub(crate) fn put_counts(words: &mut [usize; WORDS], c: Counts)
    ensures { PutsCounts words.old words.new c }
{
    words[0] = c.value;
    words[1] = c.entries;
    words[2] = c.depth;
    words[3] = c.dictionary.num_field_names();
    words[4] = c.dictionary.metadata_size();
    words[5] = usize::from(c.unique);
    words[6] = usize::from(c.finished);
    words[7] = c.floor;
    words[8] = c.undo;
}

pub(crate) fn put_container(words: &mut [usize; WORDS], d: usize, k: Container)
    requires { d < 64 }
    ensures { PutsContainer words.old words.new d k }
{
    let p = place_of(d);
    let (tag, id, offset) = parent_words(k.parent);
    words[p] = k.value;
    words[p + 1] = k.names;
    words[p + 2] = k.text;
    words[p + 3] = k.entries;
    words[p + 4] = tag;
    words[p + 5] = id;
    words[p + 6] = offset;
    words[p + 7] = usize::from(k.object);
    words[p + 8] = usize::from(k.unique);
    words[p + 9] = k.undo;
    words[p + 10] = k.marks;
}

// The elements of the innermost of d containers.
// Kept (6; C interface): the words are lent as one array; d is the count of open containers, none among them.
pub(crate) fn put_elements(words: &mut [usize; WORDS], d: usize, n: usize)
    ensures { PutsElements words.old words.new d n }
{
    if let Some(i) = d.checked_sub(1)
        && i < 64
    {
        words[713 + i] = n;
    }
}

// A piece's counts and elements put back where it is carried out, and its number.
pub(crate) fn moved(words: &mut [usize; WORDS], r: Result<Moved, Refusal>) -> u8
    ensures { Puts r result words.old words.new }
{
    match r {
        Ok(m) => {
            put_counts(words, m.counts);
            put_elements(words, m.counts.depth, m.elements);
            0
        }
        Err(e) => e.number(),
    }
}
