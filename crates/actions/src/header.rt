// The innermost container closed: `ListBuilder::finish` and `ObjectBuilder::finish` of the Rust.
// Derived from parquet-variant 60.1.0, src/builder/list.rs and src/builder/object.rs (see NOTICE). Changed: written in Rattle.
// Kept (5b; project rule): a public call may not ask more of its callers: one struct of `&mut` would ask it for slices that it only reads.
ghost use Rattle.std.specs.Prelude.{◌≡◌, List, ℕ, ◌-◌};
ghost use Rattle.container.specs.Layout.{largest};
ghost use Rattle.container.specs.Entries.{entries_of, ids_of};
ghost use Rattle.semantics.specs.Record.{close as close_of, storage_of};
ghost use Rattle.actions.specs.Actions.{Fronts, Leaves};

use crate::Moved;
use container::{CloseError, Frame, close_object};
use list::{ListFrame, close_list};
use metadata::Names;
use refusals::Seen;
use semantics::{Counts, Refusal, View};

pub fn close_over(
    v: View,
    value: &mut [u8],
    text: &[u8],
    ends: &[usize],
    entries: &mut [usize],
    undo: &[usize],
) -> Result<Moved, Refusal>
    ensures { Leaves v (storage_of value.old text.now ends.now entries.old undo.now)
        close_of result (storage_of value.new text.now ends.now entries.new undo.now) }
{
    let s = Seen {
        view: &v,
        value,
        text,
        ends,
        entries,
        undo,
    };
    let most = s.may_close()?;
    let c = v.counts;
    let used = put_header(v, most, value, text, ends, entries)?;
    Ok(Moved {
        counts: Counts {
            value: used,
            entries: v.inner.entries,
            undo: v.inner.undo,
            depth: c.depth - 1,
            ..c
        },
        elements: v.siblings,
    })
}

// Of an object its fields, sorted, where `most` is the largest id; of a list its data walked.
fn put_header(
    v: View,
    most: usize,
    value: &mut [u8],
    text: &[u8],
    ends: &[usize],
    entries: &mut [usize],
) -> Result<usize, CloseError>
    requires { most ≡ largest (ids_of (entries_of entries.old v.inner.entries (v.counts.entries - v.inner.entries))) }
    ensures { (undo : List ℕ)
        → Fronts v (storage_of value.old text.now ends.now entries.old undo) result
        value.new entries.new }
{
    if v.inner.object {
        let f = Frame {
            start: v.inner.value,
            used: v.counts.value,
            from: v.inner.entries,
            to: v.counts.entries,
            floor: v.counts.floor,
        };
        let names = Names {
            counts: v.counts.dictionary,
            text,
            ends,
        };
        close_object(f, most, names, value, entries)
    } else {
        let c = v.counts;
        let f = ListFrame {
            start: v.inner.value,
            used: c.value,
            count: v.elements,
            floor: c.floor,
        };
        close_list(f, value)
    }
}
