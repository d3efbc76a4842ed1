// A poke: the record or the storage altered between two calls. A place that is not there is passed over. The numbers are those of the
// input, which tools/replay.py names.
use crate::input::Header;
use crate::parse::words;
use builder_mut::VariantBuilder;
use container::{Entry, put_entry};
use encoding::slices::write_slice;
use metadata::MetadataBuilder;
use semantics::{Container, Counts};

// What is altered, and what stands there then: of a container, of its elements and of the storage with the place.
#[derive(Clone, Copy)]
pub enum Poke<'a> {
    Count(Count),
    Container(usize, Field),
    Elements(usize, usize),
    End(usize, usize),
    Entry(usize, Entry),
    Undo(usize, Entry),
    Value(usize, &'a [u8]),
    Text(usize, &'a [u8]),
    Mark(usize, usize),
    // The record has none to set.
    SortedMark,
}

// A count or a mark of the record.
#[derive(Clone, Copy)]
pub enum Count {
    Value(usize),
    Names(usize),
    NameBytes(usize),
    Entries(usize),
    Depth(usize),
    Unique(bool),
    Finished(bool),
    Floor(usize),
    Undo(usize),
}

#[derive(Clone, Copy)]
pub enum Field {
    Value(usize),
    Names(usize),
    Text(usize),
    Entries(usize),
    Object(bool),
    Unique(bool),
    Parent(Option<Entry>),
    Undo(usize),
    Marks(usize),
}

// A mark's place stands for its seven numbers, in the order of the pokes. None where the number is no poke's.
pub fn poke_of(h: Header, operand: &[u8]) -> Option<Poke<'_>> {
    let at = h.size;
    let [n, offset] = words::<2>(operand);
    let n = n as usize;
    let entry = Entry {
        id: n,
        offset: offset as usize,
    };
    let poke = match h.argument {
        6 => Poke::SortedMark,
        0..=5 | 7 | 20 | 22 => Poke::Count(count_of(h.argument, n)?),
        8..=15 | 24 | 25 => Poke::Container(at, field_of(h.argument, entry)?),
        16 => Poke::End(at, n),
        17 => Poke::Entry(at, entry),
        18 => Poke::Value(at, operand),
        19 => Poke::Text(at, operand),
        21 => Poke::Elements(at, n),
        23 => Poke::Undo(at, entry),
        26..=32 => {
            let place = at.saturating_mul(7);
            Poke::Mark(place.saturating_add(h.argument as usize - 26), n)
        }
        _ => return None,
    };
    Some(poke)
}

// Kept (7; no plainer): the input's number of a count becomes one of an enum here.
fn count_of(which: u8, n: usize) -> Option<Count> {
    let count = match which {
        0 => Count::Value(n),
        1 => Count::Names(n),
        2 => Count::NameBytes(n),
        3 => Count::Entries(n),
        4 => Count::Depth(n),
        5 => Count::Unique(n == 1),
        7 => Count::Finished(n == 1),
        20 => Count::Floor(n),
        22 => Count::Undo(n),
        _ => return None,
    };
    Some(count)
}

// An own entry that was replaced is given by two numbers, all else by the first.
// Kept (7; no plainer): the input's number of a field becomes one of an enum here.
fn field_of(which: u8, given: Entry) -> Option<Field> {
    let n = given.id;
    let field = match which {
        8 => Field::Value(n),
        9 => Field::Names(n),
        10 => Field::Text(n),
        11 => Field::Entries(n),
        12 => Field::Object(n == 1),
        13 => Field::Unique(n == 1),
        14 => Field::Parent(None),
        15 => Field::Parent(Some(given)),
        24 => Field::Undo(n),
        25 => Field::Marks(n),
        _ => return None,
    };
    Some(field)
}

// Kept (7; no plainer): the pokes are an enum, and each arm alters what its poke names.
pub fn alter(v: &mut VariantBuilder, poke: Poke) {
    match poke {
        Poke::Count(count) => count.put(&mut v.builder.counts),
        Poke::Container(at, field) => {
            if let Some(k) = v.builder.containers.get_mut(at) {
                field.put(k);
            }
        }
        Poke::Elements(at, n) => put(&mut v.builder.elements, at, n),
        Poke::End(at, n) => put(v.ends, at, n),
        Poke::Entry(at, entry) => {
            let _ = put_entry(v.entries, at, entry);
        }
        Poke::Undo(at, entry) => {
            let _ = put_entry(v.undo, at, entry);
        }
        Poke::Value(at, bytes) => {
            let _ = write_slice(v.value, at, bytes);
        }
        Poke::Text(at, bytes) => {
            let _ = write_slice(v.text, at, bytes);
        }
        Poke::Mark(at, n) => put(v.marks, at, n),
        Poke::SortedMark => {}
    }
}

// Kept (6; no plainer): a poke names a place of all that is lent, which need not be there.
fn put(numbers: &mut [usize], at: usize, n: usize) {
    if let Some(x) = numbers.get_mut(at) {
        *x = n;
    }
}

impl Count {
    fn put(self, c: &mut Counts) {
        let m = c.dictionary;
        match self {
            Count::Value(n) => c.value = n,
            Count::Names(n) => c.dictionary = MetadataBuilder::from_parts(n, m.metadata_size()),
            Count::NameBytes(n) => {
                c.dictionary = MetadataBuilder::from_parts(m.num_field_names(), n);
            }
            Count::Entries(n) => c.entries = n,
            Count::Depth(n) => c.depth = n,
            Count::Unique(unique) => c.unique = unique,
            Count::Finished(finished) => c.finished = finished,
            Count::Floor(n) => c.floor = n,
            Count::Undo(n) => c.undo = n,
        }
    }
}

impl Field {
    fn put(self, k: &mut Container) {
        match self {
            Field::Value(n) => k.value = n,
            Field::Names(n) => k.names = n,
            Field::Text(n) => k.text = n,
            Field::Entries(n) => k.entries = n,
            Field::Object(object) => k.object = object,
            Field::Unique(unique) => k.unique = unique,
            Field::Parent(parent) => k.parent = parent,
            Field::Undo(n) => k.undo = n,
            Field::Marks(n) => k.marks = n,
        }
    }
}
