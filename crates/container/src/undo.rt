// Undo records in lent numbers: two numbers each, an id and a former offset, the newest last.
ghost use Rattle.std.specs.Prelude.{◌≡◌, ◌/◌, ◌<◌, MatchOption, length};
ghost use Rattle.container.specs.Entries.{entries_of, seek};
ghost use Rattle.container.specs.Undo.{undone_from, undone_in, undone_once};

use crate::Entry;
use std::ops::Range;

// The records of one range undone, the newest first, among the entries of the other: the first entry of a record's id gets its
// offset; a record without one is passed over. Ranges that exceed what is lent undo nothing: no slices here.
pub fn undo_entries(
    entries: &mut [usize],
    fields: Range<usize>,
    undo: &[usize],
    records: Range<usize>,
)
    ensures { entries.new ≡ undone_in entries.old fields.start fields.end undo.now records.start records.end }
{
    if fields.end < fields.start || entries.len() / 2 < fields.end {
        return;
    }
    if records.end <= records.start || undo.len() / 2 < records.end {
        return;
    }
    undo_records(
        &mut entries[2 * fields.start..2 * fields.end],
        &undo[2 * records.start..2 * records.end],
    );
}

// Kept (3; no plainer): a record is two of the lent numbers; the definition and its laws count records, not pairs.
fn undo_records(entries: &mut [usize], undo: &[usize])
    ensures { entries.new ≡ undone_from entries.old 0 (length entries.old / 2) undo.now 0 (length undo.now / 2) }
{
    for h in (0..undo.len() / 2).rev() {
        let u = Entry {
            id: undo[2 * h],
            offset: undo[2 * h + 1],
        };
        undo_one(entries, u);
    }
}

fn undo_one(entries: &mut [usize], u: Entry)
    ensures { entries.new ≡ undone_once entries.old 0 (length entries.old / 2) u }
{
    if let Some(k) = place_of(entries, u.id) {
        entries[2 * k + 1] = u.offset;
    }
}

// Where the first entry of an id stands.
fn place_of(entries: &[usize], id: usize) -> Option<usize>
    ensures { let n = length entries.now / 2 in let k = seek id (entries_of entries.now 0 n) in MatchOption result (k ≡ n) (λ p. (p ≡ k) × (k < n)) }
{
    (0..entries.len() / 2).find(|k| entries[2 * k] == id)
}
