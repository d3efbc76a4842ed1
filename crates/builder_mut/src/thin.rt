// The calls that take the record by `&mut`, each over the call by value of the same name.
// Derived from the `&mut self` methods of parquet-variant 60.1.0: see lib.rt and NOTICE. Changed: written in Rattle.
// Kept (5b; project rule): which of the lent slices a call may write is said by their types; one struct of `&mut` asks more, and stands beside.
// Kept (2; project rule): the calls have the Rust's names (docs/DECISIONS.md), one each, though some are alike in form.
ghost use Rattle.std.specs.Prelude.{◌≡◌, false, true};
ghost use Rattle.semantics.specs.Record.{append as append_of, close as close_of, finish as finish_of, open_in, register as register_of};
ghost use Rattle.semantics.specs.Record.{return_to, roll_back, set_mark, storage_of, uniqueness};
ghost use Rattle.refusals.specs.Decide.{name_in};
ghost use Rattle.builder.specs.Calls.{state};
ghost use Rattle.builder_mut.specs.Calls.{DoesThin, FinishesThin};

use builder::Scalar;
use marks::NUMBERS;
use semantics::{Builder, Refusal};

// A name given beforehand, or while containers are open: a new one belongs to the innermost and goes when that one is rolled back.
pub fn add_field_name(
    b: &mut Builder,
    marks: &[usize; NUMBERS],
    value: &[u8],
    text: &mut [u8],
    ends: &mut [usize],
    entries: &[usize],
    undo: &[usize],
    name: &[u8],
) -> Result<(), Refusal>
    ensures { DoesThin result b.new marks.now
        (storage_of value.now text.new ends.new entries.now undo.now)
        (state b.old marks.now (storage_of value.now text.old ends.old entries.now undo.now))
        (register_of name.now) }
{
    *b = builder::add_field_name(*b, marks, value, text, ends, entries, undo, name)?;
    Ok(())
}

// A scalar: of fixed size, a date or a date and a time of day, packed decimal, bytes of a kind, or a UUID.
pub fn append<X: Scalar>(
    b: &mut Builder,
    marks: &[usize; NUMBERS],
    value: &mut [u8],
    text: &mut [u8],
    ends: &mut [usize],
    entries: &mut [usize],
    undo: &mut [usize],
    name: Option<&[u8]>,
    x: X,
) -> Result<(), Refusal>
    ensures { DoesThin result b.new marks.now
        (storage_of value.new text.new ends.new entries.new undo.new)
        (state b.old marks.now (storage_of value.old text.old ends.old entries.old undo.old))
        (append_of (name_in name.entry) (X.scalar x)) }
{
    *b = builder::append(*b, marks, value, text, ends, entries, undo, name, x)?;
    Ok(())
}

pub fn new_list(
    b: &mut Builder,
    marks: &[usize; NUMBERS],
    value: &[u8],
    text: &mut [u8],
    ends: &mut [usize],
    entries: &mut [usize],
    undo: &mut [usize],
    name: Option<&[u8]>,
) -> Result<(), Refusal>
    ensures { DoesThin result b.new marks.now
        (storage_of value.now text.new ends.new entries.new undo.new)
        (state b.old marks.now (storage_of value.now text.old ends.old entries.old undo.old))
        (open_in (name_in name.entry) false) }
{
    *b = builder::new_list(*b, marks, value, text, ends, entries, undo, name)?;
    Ok(())
}

pub fn new_object(
    b: &mut Builder,
    marks: &[usize; NUMBERS],
    value: &[u8],
    text: &mut [u8],
    ends: &mut [usize],
    entries: &mut [usize],
    undo: &mut [usize],
    name: Option<&[u8]>,
) -> Result<(), Refusal>
    ensures { DoesThin result b.new marks.now
        (storage_of value.now text.new ends.new entries.new undo.new)
        (state b.old marks.now (storage_of value.now text.old ends.old entries.old undo.old))
        (open_in (name_in name.entry) true) }
{
    *b = builder::new_object(*b, marks, value, text, ends, entries, undo, name)?;
    Ok(())
}

pub fn close(
    b: &mut Builder,
    marks: &[usize; NUMBERS],
    value: &mut [u8],
    text: &[u8],
    ends: &[usize],
    entries: &mut [usize],
    undo: &[usize],
) -> Result<(), Refusal>
    ensures { DoesThin result b.new marks.now
        (storage_of value.new text.now ends.now entries.new undo.now)
        (state b.old marks.now (storage_of value.old text.now ends.now entries.old undo.now))
        close_of }
{
    *b = builder::close(*b, marks, value, text, ends, entries, undo)?;
    Ok(())
}

pub fn rollback(
    b: &mut Builder,
    marks: &[usize; NUMBERS],
    value: &[u8],
    text: &[u8],
    ends: &[usize],
    entries: &mut [usize],
    undo: &[usize],
) -> Result<(), Refusal>
    ensures { DoesThin result b.new marks.now
        (storage_of value.now text.now ends.now entries.new undo.now)
        (state b.old marks.now (storage_of value.now text.now ends.now entries.old undo.now))
        roll_back }
{
    *b = builder::rollback(*b, marks, value, text, ends, entries, undo)?;
    Ok(())
}

// The uniqueness mark of the innermost object, for later calls.
// Kept (1c; project rule): the call has the Rust's name and its parameter (docs/DECISIONS.md).
pub fn with_validate_unique_fields(
    b: &mut Builder,
    marks: &[usize; NUMBERS],
    value: &[u8],
    text: &[u8],
    ends: &[usize],
    entries: &[usize],
    undo: &[usize],
    unique: bool,
) -> Result<(), Refusal>
    ensures { DoesThin result b.new marks.now
        (storage_of value.now text.now ends.now entries.now undo.now)
        (state b.old marks.now (storage_of value.now text.now ends.now entries.now undo.now))
        (uniqueness unique) }
{
    *b = builder::with_validate_unique_fields(*b, marks, value, text, ends, entries, undo, unique)?;
    Ok(())
}

// One mark more in the innermost container: the next number, at most 16.
pub fn mark(
    b: &mut Builder,
    marks: &mut [usize; NUMBERS],
    value: &[u8],
    text: &[u8],
    ends: &[usize],
    entries: &[usize],
    undo: &[usize],
) -> Result<(), Refusal>
    ensures { DoesThin result b.new marks.new
        (storage_of value.now text.now ends.now entries.now undo.now)
        (state b.old marks.old (storage_of value.now text.now ends.now entries.now undo.now))
        set_mark }
{
    *b = builder::mark(*b, marks, value, text, ends, entries, undo)?;
    Ok(())
}

// The return to a mark of the innermost container: that one stays set, later ones are gone.
pub fn return_to(
    b: &mut Builder,
    marks: &[usize; NUMBERS],
    value: &[u8],
    text: &[u8],
    ends: &[usize],
    entries: &mut [usize],
    undo: &[usize],
    mark: usize,
) -> Result<(), Refusal>
    ensures { DoesThin result b.new marks.now
        (storage_of value.now text.now ends.now entries.new undo.now)
        (state b.old marks.now (storage_of value.now text.now ends.now entries.old undo.now))
        (return_to mark) }
{
    *b = builder::return_to(*b, marks, value, text, ends, entries, undo, mark)?;
    Ok(())
}

// The dictionary at the start of `out`, and the builder finished: `VariantBuilder::finish` of the Rust.
pub fn finish(
    b: &mut Builder,
    marks: &[usize; NUMBERS],
    value: &[u8],
    text: &[u8],
    ends: &[usize],
    entries: &[usize],
    undo: &[usize],
    out: &mut [u8],
) -> Result<usize, Refusal>
    ensures { FinishesThin result b.new marks.now
        (storage_of value.now text.now ends.now entries.now undo.now)
        out.new
        (state b.old marks.now (storage_of value.now text.now ends.now entries.now undo.now))
        (finish_of out.old) }
{
    let f = builder::finish(*b, marks, value, text, ends, entries, undo, out)?;
    *b = f.builder;
    Ok(f.written)
}
