// The innermost container rolled back: the Rust's `Drop`.
// Derived from `ParentState::rollback` of parquet-variant 60.1.0, src/builder.rs, and from those of `ListState` and `ObjectState`, its
// src/builder/list.rs and src/builder/object.rs (see NOTICE). Changed: written in Rattle.
// Kept (5b; project rule): a public call may not ask more of its callers: one struct of `&mut` would ask it for slices that it only reads.
// Kept (4; no plainer): the choice is the library's `saturating_sub`; only the contracts say it by a condition.
ghost use Rattle.std.specs.Prelude.{◌≡◌, cond, ltb, ◌-◌};
ghost use Rattle.semantics.specs.Record.{roll_back, storage_of};
ghost use Rattle.semantics.specs.Step.{count_back, undo_back};
ghost use Rattle.actions.specs.Actions.{Leaves, entries_undone, siblings_back};

use crate::Moved;
use container::{Entry, replace_offset};
use metadata::MetadataBuilder;
use refusals::Seen;
use semantics::{Counts, Refusal, View};

pub fn rollback_over(
    v: View,
    value: &[u8],
    text: &[u8],
    ends: &[usize],
    entries: &mut [usize],
    undo: &[usize],
) -> Result<Moved, Refusal>
    ensures { Leaves v (storage_of value.now text.now ends.now entries.old undo.now)
        roll_back result (storage_of value.now text.now ends.now entries.new undo.now) }
{
    let s = Seen {
        view: &v,
        value,
        text,
        ends,
        entries,
        undo,
    };
    let place = s.may_roll_back()?;
    let c = v.counts;
    let k = v.inner;
    put_back(place, k.parent, entries);
    Ok(Moved {
        counts: Counts {
            value: k.value,
            entries: entries_left(&v),
            undo: records_left(&v),
            depth: c.depth - 1,
            dictionary: MetadataBuilder::from_parts(k.names, k.text),
            ..c
        },
        elements: siblings_left(&v),
    })
}

// The former offset of a replaced entry again, at its place.
fn put_back(place: Option<usize>, parent: Option<Entry>, entries: &mut [usize])
    ensures { entries.new ≡ entries_undone entries.old place parent }
{
    match (place, parent) {
        (None, _) | (_, None) => {}
        (Some(place), Some(former)) => {
            replace_offset(entries, place, former.offset);
        }
    }
}

// Below the top level an object has one entry less for a new child.
// Kept (4; no plainer): one fact of the child and two of its parent decide, as in the definition; no method of the library says that.
fn entries_left(v: &View) -> usize
    ensures { result ≡ cond (ltb 1 v.now.counts.depth)
        (count_back v.now.parent.object v.now.inner.entries v.now.inner.parent) v.now.inner.entries }
{
    let k = v.inner;
    one_less(
        k.parent.is_none() && 1 < v.counts.depth && v.parent.object,
        k.entries,
    )
}

// Of the undo records those used when the child came, without its own.
// Kept (4; no plainer): as `entries_left`.
fn records_left(v: &View) -> usize
    ensures { result ≡ cond (ltb 1 v.now.counts.depth) (undo_back v.now.inner v.now.parent) v.now.inner.undo }
{
    let k = v.inner;
    one_less(
        k.parent.is_some() && 1 < v.counts.depth && 0 < v.parent.marks,
        k.undo,
    )
}

// The elements of a parent that is a list: one less for a new child.
fn siblings_left(v: &View) -> usize
    ensures { result ≡ siblings_back v.now.parent.object v.now.siblings v.now.inner.parent }
{
    one_less(v.inner.parent.is_none() && !v.parent.object, v.siblings)
}

// Kept (1c, 4; no plainer): three counts that may be one less, each by a test of its own; the one line has a name so that they read alike.
fn one_less(less: bool, n: usize) -> usize
    ensures { result ≡ cond less (n - 1) n }
{
    n.saturating_sub(usize::from(less))
}
