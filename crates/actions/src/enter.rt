// A name given to a call, added where it is new, and the entry of the value that comes, or of a list the element.
// Derived from `ParentState::list` and `ParentState::try_object` of parquet-variant 60.1.0, src/builder/list.rs and
// src/builder/object.rs (see NOTICE). Changed: written in Rattle, entries are lent numbers.
// Kept (5b; project rule): a public call may not ask more of its callers: one struct of `&mut` would ask it for slices that it only reads.
ghost use Rattle.std.specs.Prelude.{◌≡◌, ◌&&◌, ◌<◌, ◌+◌, ◌^◌, ltb, true};
ghost use Rattle.encoding.specs.Rows.{first};
ghost use Rattle.semantics.specs.Record.{in_list, in_object, storage_of};
ghost use Rattle.semantics.specs.Refusal.{number_told};
ghost use Rattle.semantics.specs.Step.{with_counts};
ghost use Rattle.refusals.specs.Decide.{enter_rows, field_fresh, field_place, into_of, name_in, opens_of, size_told};
ghost use Rattle.actions.specs.Actions.{EntersBy, Registers, entries_put, fresh_put, moved_by, one_more, parent_put};
ghost use Rattle.actions.specs.Actions.{put_by, record_put, recorded_put, undo_put};

use crate::Moved;
use container::{Entry, put_entry, replace_offset};
use metadata::MetadataBuilder;
use refusals::{Entering, Field, Seen};
use semantics::{Counts, Refusal, View};

// What becomes of the entry: none is put; a fresh one is, at the next place; or a live name's gets another offset, and the former one
// stays in that undo record, if it takes one.
// Kept (1a; no plainer): `Nothing` is no refusal, but what a register, a list's element and a top value put.
#[derive(Clone, Copy)]
pub enum Put {
    Nothing,
    Fresh(usize),
    Live { place: usize, slot: Option<usize> },
}

// What a register, an append or an open leaves, up to the entry and the value's bytes: the counts; the innermost container's
// elements; the entry, and where it is put; and the uniqueness mark that a child inherits.
// Kept (1c; no plainer): `unique` is that mark itself, yes or no, beside no value.
#[derive(Clone, Copy)]
pub struct Entered {
    pub counts: Counts,
    pub elements: usize,
    pub id: usize,
    pub offset: usize,
    pub put: Put,
    pub unique: bool,
}

impl Entered {
    pub(crate) fn moved(&self) -> Moved
        ensures { result ≡ moved_by self.now }
    {
        Moved {
            counts: self.counts,
            elements: self.elements,
        }
    }
}

// `size` is the scalar's bytes, or its own refusal.
pub fn enter_over(
    v: View,
    value: &[u8],
    text: &mut [u8],
    ends: &mut [usize],
    entries: &[usize],
    undo: &[usize],
    name: Option<&[u8]>,
    call: Entering,
    size: Result<usize, Refusal>,
) -> Result<Entered, Refusal>
    ensures { EntersBy v (storage_of value.now text.old ends.old entries.now undo.now)
        (name_in name.entry) (into_of call) (opens_of call) (size_told size)
        (first
        (enter_rows v (storage_of value.now text.old ends.old entries.now undo.now)
        (name_in name.entry) (into_of call) (opens_of call) (number_told size) (size_told size))) result text.new ends.new }
{
    let s = Seen {
        view: &v,
        value,
        text,
        ends,
        entries,
        undo,
    };
    let f = s.may_enter(name, call, size)?;
    let size = size?;
    let unique = s.unique_now();
    let c = v.counts;
    let put = put_of(v, f, call);
    let next = with_name(c.dictionary, text, ends, f, name);
    Ok(Entered {
        counts: counts_with(c, size, put, call, next),
        elements: one_more(takes_element(v, call), v.elements),
        id: f.id(),
        offset: c.value.saturating_sub(v.inner.value),
        put,
        unique,
    })
}

// Is it an element of a list?
fn takes_element(v: View, call: Entering) -> bool
    ensures { result ≡ (into_of call && in_list v) }
{
    call.enters() && 0 < v.counts.depth && !v.inner.object
}

// A live name's entry, or in an object the next one.
fn put_of(v: View, f: Field, call: Entering) -> Put
    ensures { result ≡ put_by (into_of call && in_object v) (field_place f) (ltb 0 v.inner.marks) v.counts.entries v.counts.undo }
{
    let c = v.counts;
    if let Some(place) = f.place() {
        let slot = if 0 < v.inner.marks {
            Some(c.undo)
        } else {
            None
        };
        return Put::Live { place, slot };
    }
    if call.enters() && 0 < c.depth && v.inner.object {
        Put::Fresh(c.entries)
    } else {
        Put::Nothing
    }
}

// The counts with `size` value bytes more, an entry more where it is fresh, an undo record more where one is taken, a container more where
// one opens, and that dictionary.
fn counts_with(c: Counts, size: usize, put: Put, call: Entering, m: MetadataBuilder) -> Counts
    requires size_bound { c.value + size < 2 ^ 63 }
    requires entries_bound { fresh_put put ≡ true → c.entries < 2 ^ 63 }
    requires undo_bound { recorded_put put ≡ true → c.undo < 2 ^ 63 }
    requires depth_bound { opens_of call ≡ true → c.depth < 2 ^ 63 }
    ensures { result ≡ with_counts c (c.value + size) (one_more (fresh_put put) c.entries)
        (one_more (recorded_put put) c.undo) (one_more (opens_of call) c.depth) m }
{
    Counts {
        value: c.value + size,
        entries: one_more(is_fresh(put), c.entries),
        undo: one_more(is_recorded(put), c.undo),
        depth: one_more(call.opens(), c.depth),
        dictionary: m,
        ..c
    }
}

fn is_fresh(put: Put) -> bool
    ensures { result ≡ fresh_put put }
{
    matches!(put, Put::Fresh(_))
}

fn is_recorded(put: Put) -> bool
    ensures { result ≡ recorded_put put }
{
    matches!(put, Put::Live { slot: Some(_), .. })
}

// Kept (1c; no plainer): four counts that may be one more, each proved to fit by this one bound.
fn one_more(more: bool, n: usize) -> usize
    requires { more ≡ true → n < 2 ^ 63 }
    ensures { result ≡ one_more more n }
{
    if more { n + 1 } else { n }
}

// The second half of the Rust's `upsert_field_name`.
// Kept (5b; no plainer): the slices are written here, and `Names` lends them to be read.
fn with_name(
    m: MetadataBuilder,
    text: &mut [u8],
    ends: &mut [usize],
    f: Field,
    name: Option<&[u8]>,
) -> MetadataBuilder
    ensures { Registers (field_fresh f) m text.old ends.old (name_in name.entry) result text.new ends.new }
{
    let mut next = m;
    if let (Field::Fresh(_), Some(name)) = (f, name) {
        // Its room was decided with the rows: nothing is refused here.
        let _ = next.add_field_name(text, ends, name);
    }
    next
}

// The entry put, and the undo record; of a replaced entry its id and former offset.
pub fn note(e: Entered, entries: &mut [usize], undo: &mut [usize]) -> Option<Entry>
    ensures { (result ≡ parent_put e entries.old) × (entries.new ≡ entries_put e entries.old)
        × (undo.new ≡ undo_put e entries.old undo.old) }
{
    match e.put {
        Put::Nothing => None,
        Put::Fresh(place) => {
            let entry = Entry {
                id: e.id,
                offset: e.offset,
            };
            // An entry is free, by row 13: nothing is refused here.
            let _ = put_entry(entries, place, entry);
            None
        }
        Put::Live { place, slot } => {
            let former = replace_offset(entries, place, e.offset);
            keep(slot, e.id, former, undo);
            Some(Entry {
                id: e.id,
                offset: former,
            })
        }
    }
}

// The undo record of a replaced entry, where one is taken.
fn keep(slot: Option<usize>, id: usize, former: usize, undo: &mut [usize])
    ensures { undo.new ≡ record_put slot id former undo.old }
{
    if let Some(slot) = slot {
        let entry = Entry { id, offset: former };
        // An undo record is free, by row 23: nothing is refused here.
        let _ = put_entry(undo, slot, entry);
    }
}
