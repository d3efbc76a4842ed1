// The calls over the whole record, by value: each picks what it sees of the record, calls its piece, and puts the result back.
// Derived from the methods of `VariantBuilder`, `ListBuilder` and `ObjectBuilder` of parquet-variant 60.1.0: see lib.rt and NOTICE.
// Changed: written in Rattle; `mark` and `return_to` are new.
// Kept (5b; project rule): a public call may not ask more of its callers: one struct of `&mut` would ask it for slices that it only reads.
ghost use Rattle.std.specs.Prelude.{◌≡◌, false, true};
ghost use Rattle.semantics.specs.Record.{append as append_of, close as close_of, finish as finish_of, open_in, register as register_of};
ghost use Rattle.semantics.specs.Record.{return_to, roll_back, set_mark, storage_of, uniqueness};
ghost use Rattle.refusals.specs.Decide.{name_in};
ghost use Rattle.builder.specs.Calls.{Does, Finishes, state};

use crate::Finished;
use crate::made::{moved, with_container, with_elements};
use actions::{
    Scalar, append_over, close_over, finish_over, mark_over, open_over, register, return_over,
    rollback_over, unique_over,
};
use marks::{NUMBERS, mark_at, put_mark};
use records::view_of;
use refusals::Seen;
use semantics::{Builder, Refusal};

// A name given beforehand, or while containers are open: a new one belongs to the innermost and goes when that one is rolled back.
pub fn add_field_name(
    b: Builder,
    marks: &[usize; NUMBERS],
    value: &[u8],
    text: &mut [u8],
    ends: &mut [usize],
    entries: &[usize],
    undo: &[usize],
    name: &[u8],
) -> Result<Builder, Refusal>
    ensures { Does result marks.now
        (storage_of value.now text.new ends.new entries.now undo.now)
        (state b marks.now (storage_of value.now text.old ends.old entries.now undo.now))
        (register_of name.now) }
{
    let v = view_of(&b, marks);
    let r = register(v, value, text, ends, entries, undo, name)?;
    Ok(moved(b, r))
}

// A scalar: of fixed size, a date or a date and a time of day, packed decimal, bytes of a kind, or a UUID.
pub fn append<X: Scalar>(
    b: Builder,
    marks: &[usize; NUMBERS],
    value: &mut [u8],
    text: &mut [u8],
    ends: &mut [usize],
    entries: &mut [usize],
    undo: &mut [usize],
    name: Option<&[u8]>,
    x: X,
) -> Result<Builder, Refusal>
    ensures { Does result marks.now
        (storage_of value.new text.new ends.new entries.new undo.new)
        (state b marks.now (storage_of value.old text.old ends.old entries.old undo.old))
        (append_of (name_in name.entry) (X.scalar x)) }
{
    let v = view_of(&b, marks);
    let own = x.own();
    let r = append_over(v, value, text, ends, entries, undo, name, own)?;
    Ok(moved(b, r))
}

pub fn new_list(
    b: Builder,
    marks: &[usize; NUMBERS],
    value: &[u8],
    text: &mut [u8],
    ends: &mut [usize],
    entries: &mut [usize],
    undo: &mut [usize],
    name: Option<&[u8]>,
) -> Result<Builder, Refusal>
    ensures { Does result marks.now
        (storage_of value.now text.new ends.new entries.new undo.new)
        (state b marks.now (storage_of value.now text.old ends.old entries.old undo.old))
        (open_in (name_in name.entry) false) }
{
    new_container(b, marks, value, text, ends, entries, undo, name, false)
}

// Kept (2; project rule): DECISIONS: names are the Rust's, which has a call for each of the two.
pub fn new_object(
    b: Builder,
    marks: &[usize; NUMBERS],
    value: &[u8],
    text: &mut [u8],
    ends: &mut [usize],
    entries: &mut [usize],
    undo: &mut [usize],
    name: Option<&[u8]>,
) -> Result<Builder, Refusal>
    ensures { Does result marks.now
        (storage_of value.now text.new ends.new entries.new undo.new)
        (state b marks.now (storage_of value.now text.old ends.old entries.old undo.old))
        (open_in (name_in name.entry) true) }
{
    new_container(b, marks, value, text, ends, entries, undo, name, true)
}

// Kept (1c; no plainer): a container's record holds its kind as this flag, and so does the definition of an open.
fn new_container(
    b: Builder,
    marks: &[usize; NUMBERS],
    value: &[u8],
    text: &mut [u8],
    ends: &mut [usize],
    entries: &mut [usize],
    undo: &mut [usize],
    name: Option<&[u8]>,
    object: bool,
) -> Result<Builder, Refusal>
    ensures { Does result marks.now
        (storage_of value.now text.new ends.new entries.new undo.new)
        (state b marks.now (storage_of value.now text.old ends.old entries.old undo.old))
        (open_in (name_in name.entry) object) }
{
    let v = view_of(&b, marks);
    let r = open_over(v, value, text, ends, entries, undo, name, object)?;
    let d = b.counts.depth;
    let outer = with_elements(b.elements, d, r.elements);
    let all = with_elements(outer, d + 1, 0);
    Ok(with_container(b, d, r.container, all, r.counts))
}

pub fn close(
    b: Builder,
    marks: &[usize; NUMBERS],
    value: &mut [u8],
    text: &[u8],
    ends: &[usize],
    entries: &mut [usize],
    undo: &[usize],
) -> Result<Builder, Refusal>
    ensures { Does result marks.now
        (storage_of value.new text.now ends.now entries.new undo.now)
        (state b marks.now (storage_of value.old text.now ends.now entries.old undo.now))
        close_of }
{
    let v = view_of(&b, marks);
    let r = close_over(v, value, text, ends, entries, undo)?;
    Ok(moved(b, r))
}

// Kept (2; no plainer): a close and a roll back are alike in form only; each has its own piece, and they write other slices.
pub fn rollback(
    b: Builder,
    marks: &[usize; NUMBERS],
    value: &[u8],
    text: &[u8],
    ends: &[usize],
    entries: &mut [usize],
    undo: &[usize],
) -> Result<Builder, Refusal>
    ensures { Does result marks.now
        (storage_of value.now text.now ends.now entries.new undo.now)
        (state b marks.now (storage_of value.now text.now ends.now entries.old undo.now))
        roll_back }
{
    let v = view_of(&b, marks);
    let r = rollback_over(v, value, text, ends, entries, undo)?;
    Ok(moved(b, r))
}

// The uniqueness mark of the innermost object, for later calls.
// Kept (1c; project rule): the call is the Rust's by name (DECISIONS), and this is its own parameter.
pub fn with_validate_unique_fields(
    b: Builder,
    marks: &[usize; NUMBERS],
    value: &[u8],
    text: &[u8],
    ends: &[usize],
    entries: &[usize],
    undo: &[usize],
    unique: bool,
) -> Result<Builder, Refusal>
    ensures { Does result marks.now
        (storage_of value.now text.now ends.now entries.now undo.now)
        (state b marks.now (storage_of value.now text.now ends.now entries.now undo.now))
        (uniqueness unique) }
{
    let v = view_of(&b, marks);
    let s = Seen {
        view: &v,
        value,
        text,
        ends,
        entries,
        undo,
    };
    let k = unique_over(&s, unique)?;
    let at = b.counts.depth - 1;
    Ok(with_container(b, at, k, b.elements, b.counts))
}

// One mark more in the innermost container: the next number, at most 16.
pub fn mark(
    b: Builder,
    marks: &mut [usize; NUMBERS],
    value: &[u8],
    text: &[u8],
    ends: &[usize],
    entries: &[usize],
    undo: &[usize],
) -> Result<Builder, Refusal>
    ensures { Does result marks.new
        (storage_of value.now text.now ends.now entries.now undo.now)
        (state b marks.old (storage_of value.now text.now ends.now entries.now undo.now))
        set_mark }
{
    let v = view_of(&b, marks);
    let s = Seen {
        view: &v,
        value,
        text,
        ends,
        entries,
        undo,
    };
    let r = mark_over(&s)?;
    let at = b.counts.depth - 1;
    put_mark(marks, at, r.container.marks, r.mark);
    Ok(with_container(b, at, r.container, b.elements, b.counts))
}

// The return to a mark of the innermost container: that one stays set, later ones are gone.
pub fn return_to(
    b: Builder,
    marks: &[usize; NUMBERS],
    value: &[u8],
    text: &[u8],
    ends: &[usize],
    entries: &mut [usize],
    undo: &[usize],
    mark: usize,
) -> Result<Builder, Refusal>
    ensures { Does result marks.now
        (storage_of value.now text.now ends.now entries.new undo.now)
        (state b marks.now (storage_of value.now text.now ends.now entries.old undo.now))
        (return_to mark) }
{
    let v = view_of(&b, marks);
    let d = b.counts.depth;
    let at = d.saturating_sub(1);
    let p = mark_at(marks, at, mark);
    let r = return_over(v, value, text, ends, entries, undo, mark, p)?;
    let after = with_elements(b.elements, d, r.elements);
    Ok(with_container(b, at, r.container, after, r.counts))
}

// The dictionary at the start of `out`, and the builder finished: `VariantBuilder::finish` of the Rust.
pub fn finish(
    b: Builder,
    marks: &[usize; NUMBERS],
    value: &[u8],
    text: &[u8],
    ends: &[usize],
    entries: &[usize],
    undo: &[usize],
    out: &mut [u8],
) -> Result<Finished, Refusal>
    ensures { Finishes result marks.now
        (storage_of value.now text.now ends.now entries.now undo.now)
        out.new
        (state b marks.now (storage_of value.now text.now ends.now entries.now undo.now))
        (finish_of out.old) }
{
    let v = view_of(&b, marks);
    let s = Seen {
        view: &v,
        value,
        text,
        ends,
        entries,
        undo,
    };
    let r = finish_over(&s, out)?;
    let builder = Builder {
        counts: r.counts,
        ..b
    };
    Ok(Finished {
        written: r.written,
        builder,
    })
}
