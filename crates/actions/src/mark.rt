// Marks in the innermost container, and the return to one. Where the marks that are set stand is seen by the crates above.
// Kept (5b; project rule): a public call may not ask more of its callers: one struct of `&mut` would ask it for slices that it only reads.
ghost use Rattle.std.specs.Prelude.{◌≡◌, List, ℕ};
ghost use Rattle.semantics.specs.Record.{storage_of};
ghost use Rattle.semantics.specs.Step.{with_marks};
ghost use Rattle.refusals.specs.Decide.{storage_in};
ghost use Rattle.actions.specs.Actions.{Returns, SetsMark, counts_at, entries_at};

use crate::unique::with_unique;
use crate::{Marked, Returned};
use container::undo_entries;
use metadata::MetadataBuilder;
use refusals::Seen;
use semantics::{Container, Counts, Mark, Refusal, View, mark_now};

// One mark more: the mark, and the innermost container with it.
pub fn mark_over(s: &Seen) -> Result<Marked, Refusal>
    ensures { SetsMark s.now.view.now (storage_in s.now) result }
{
    s.may_mark()?;
    let k = s.view.inner;
    Ok(Marked {
        container: with_marks(k, k.marks + 1),
        mark: mark_now(s.view.counts, s.view.elements, k.unique),
    })
}

#[tactic(auto, unfolding(semantics::specs::Step::with_marks))]
fn with_marks(k: Container, marks: usize) -> Container
    ensures { result ≡ with_marks k marks }
{
    Container { marks, ..k }
}

// The return to mark j, which is `p`: all as it was then, but for what is left free.
pub fn return_over(
    v: View,
    value: &[u8],
    text: &[u8],
    ends: &[usize],
    entries: &mut [usize],
    undo: &[usize],
    j: usize,
    p: Mark,
) -> Result<Returned, Refusal>
    ensures { Returns v (storage_of value.now text.now ends.now entries.old undo.now)
        p j result (storage_of value.now text.now ends.now entries.new undo.now) }
{
    let s = Seen {
        view: &v,
        value,
        text,
        ends,
        entries,
        undo,
    };
    s.may_return(j)?;
    undo_to(v, p, entries, undo);
    let u = with_unique(v.inner, p.unique);
    Ok(Returned {
        counts: counts_at(v.counts, p),
        elements: p.count,
        container: with_marks(u, j),
    })
}

// The counts of the mark.
fn counts_at(c: Counts, p: Mark) -> Counts
    ensures { result ≡ counts_at c p }
{
    Counts {
        value: p.value,
        entries: p.entries,
        undo: p.undo,
        dictionary: MetadataBuilder::from_parts(p.names, p.text),
        ..c
    }
}

// An object's records undone; a list has no entries.
fn undo_to(v: View, p: Mark, entries: &mut [usize], undo: &[usize])
    ensures { (value text ends : List ℕ)
        → entries.new ≡ entries_at v (storage_of value text ends entries.old undo.now) p }
{
    if v.inner.object {
        undo_entries(
            entries,
            v.inner.entries..p.entries,
            undo,
            p.undo..v.counts.undo,
        );
    }
}
