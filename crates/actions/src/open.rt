// Names registered, and containers opened.
// Derived from `add_field_name`, `try_new_list` and `try_new_object` of parquet-variant 60.1.0, src/builder.rs and
// src/builder/object.rs (see NOTICE). Changed: written in Rattle, a child is a container of the same record.
// Kept (5b; project rule): a public call may not ask more of its callers: one struct of `&mut` would ask it for slices that it only reads.
ghost use Rattle.std.specs.Prelude.{◌≡◌};
ghost use Rattle.semantics.specs.Record.{storage_of};
ghost use Rattle.semantics.specs.Record.{register as register_of};
ghost use Rattle.refusals.specs.Decide.{name_in};
ghost use Rattle.actions.specs.Actions.{Leaves, Opens, child_of};

use crate::enter::{Entered, enter_over, note};
use crate::{Moved, Opened};
use container::Entry;
use refusals::Entering;
use semantics::{Container, Counts, Refusal, View};

pub fn register(
    v: View,
    value: &[u8],
    text: &mut [u8],
    ends: &mut [usize],
    entries: &[usize],
    undo: &[usize],
    name: &[u8],
) -> Result<Moved, Refusal>
    ensures { Leaves v (storage_of value.now text.old ends.old entries.now undo.now)
        (register_of name.now) result (storage_of value.now text.new ends.new entries.now undo.now) }
{
    let e = enter_over(
        v,
        value,
        text,
        ends,
        entries,
        undo,
        Some(name),
        Entering::Register,
        Ok(0),
    )?;
    Ok(e.moved())
}

// Kept (1c; no plainer): `object` is which of the two kinds opens, and goes into the container as it is given.
pub fn open_over(
    v: View,
    value: &[u8],
    text: &mut [u8],
    ends: &mut [usize],
    entries: &mut [usize],
    undo: &mut [usize],
    name: Option<&[u8]>,
    object: bool,
) -> Result<Opened, Refusal>
    ensures { Opens v (storage_of value.now text.old ends.old entries.old undo.old)
        (name_in name.entry) object result
        (storage_of value.now text.new ends.new entries.new undo.new) }
{
    let e = enter_over(
        v,
        value,
        text,
        ends,
        entries,
        undo,
        name,
        Entering::Open,
        Ok(0),
    )?;
    let p = note(e, entries, undo);
    Ok(Opened {
        counts: e.counts,
        elements: e.elements,
        container: child(v.counts, e, p, object),
    })
}

// The container that opens: its starting marks are the counts before its own name, and of entries and undo records those after its own.
// Kept (1c; no plainer): as `open_over`.
pub fn child(before: Counts, e: Entered, parent: Option<Entry>, object: bool) -> Container
    ensures { result ≡ child_of before e parent object }
{
    Container {
        value: before.value,
        names: before.dictionary.num_field_names(),
        text: before.dictionary.metadata_size(),
        entries: e.counts.entries,
        undo: e.counts.undo,
        parent,
        object,
        unique: e.unique,
        marks: 0,
    }
}
