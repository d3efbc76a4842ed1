// A scalar appended, with or without a field name.
// Derived from `try_append_value` and `try_insert` of parquet-variant 60.1.0, src/builder.rs, src/builder/list.rs and
// src/builder/object.rs (see NOTICE). Changed: written in Rattle, over counts and lent slices; all rows are decided first.
// Kept (5b; project rule): a public call may not ask more of its callers: one struct of `&mut` would ask it for slices that it only reads.
ghost use Rattle.semantics.specs.Record.{Scalars, append as append_of, storage_of};
ghost use Rattle.refusals.specs.Decide.{name_in};
ghost use Rattle.actions.specs.Actions.{Leaves};
ghost use Rattle.actions.specs.Append.{OwnBytes};

use crate::Moved;
use crate::enter::{enter_over, note};
use crate::own::size_of;
use refusals::Entering;
use semantics::{Refusal, View};
use value::stored::Stored;

// By what is stored for the scalar, or its own refusal.
pub fn append_over<S: Stored + Copy>(
    v: View,
    value: &mut [u8],
    text: &mut [u8],
    ends: &mut [usize],
    entries: &mut [usize],
    undo: &mut [usize],
    name: Option<&[u8]>,
    x: Result<S, Refusal>,
) -> Result<Moved, Refusal>
    ensures { (s : Scalars) → OwnBytes S.stored s x
        → Leaves v (storage_of value.old text.old ends.old entries.old undo.old)
        (append_of (name_in name.entry) s) result
        (storage_of value.new text.new ends.new entries.new undo.new) }
{
    let size = size_of(x);
    let e = enter_over(
        v,
        value,
        text,
        ends,
        entries,
        undo,
        name,
        Entering::Append,
        size,
    )?;
    note(e, entries, undo);
    let x = x?;
    // Its room was decided with the rows: nothing is refused here.
    let _ = x.write(value, v.counts.value);
    Ok(e.moved())
}
