// The table of marks, which is lent beside the builder's record: seven numbers for each of 16 marks of each of 64 containers.
#![tactic(auto)]

ghost use Rattle.std.specs.Prelude.{◌≡◌, ◌≤◌, MatchOption};
ghost use Rattle.semantics.specs.Record.{falling, mark_at, mark_at_start, marks_fit, marks_of, not_above, slot_of};
ghost use Rattle.semantics.specs.Step.{put_mark};

use semantics::{Container, Mark};

// How many numbers the table has.
pub const NUMBERS: usize = 7168;

const NO_MARK: Mark = Mark {
    value: 0,
    names: 0,
    text: 0,
    entries: 0,
    undo: 0,
    count: 0,
    unique: false,
};

// Mark j, counted from 1, of the container at depth d, counted from 0.
#[tactic(auto, using(crate::proofs::TableLaws::mark_beyond))]
pub fn mark_at(marks: &[usize; NUMBERS], d: usize, j: usize) -> Mark
    ensures { result ≡ mark_at marks.now (slot_of d j) }
{
    place_of(d, j).map_or(NO_MARK, |p| read(marks, p))
}

// The same, written.
pub fn put_mark(marks: &mut [usize; NUMBERS], d: usize, j: usize, m: Mark)
    ensures { marks.new ≡ put_mark marks.old (slot_of d j) m }
{
    if let Some(p) = place_of(d, j) {
        write(marks, p, m);
    }
}

// Kept (6; no plainer): the definition (`mark_at`) reads seven places of the table from p on, as this does; over a part of it each would take a law.
fn read(marks: &[usize; NUMBERS], p: usize) -> Mark
    requires { p ≤ 7161 }
    ensures { result ≡ mark_at marks.now p }
{
    Mark {
        value: marks[p],
        names: marks[p + 1],
        text: marks[p + 2],
        entries: marks[p + 3],
        undo: marks[p + 4],
        count: marks[p + 5],
        unique: marks[p + 6] != 0,
    }
}

// Kept (6; no plainer): as `read`, of `put_mark`.
fn write(marks: &mut [usize; NUMBERS], p: usize, m: Mark)
    requires { p ≤ 7161 }
    ensures { marks.new ≡ put_mark marks.old p m }
{
    marks[p] = m.value;
    marks[p + 1] = m.names;
    marks[p + 2] = m.text;
    marks[p + 3] = m.entries;
    marks[p + 4] = m.undo;
    marks[p + 5] = m.count;
    marks[p + 6] = usize::from(m.unique);
}

// Are the marks that are set in the container at depth d at most 16, and in order from its start to the present?
pub fn marks_fit(marks: &[usize; NUMBERS], d: usize, k: Container, present: Mark) -> bool
    ensures { result ≡ marks_fit marks.now d k present }
{
    k.marks == 0 || (k.marks <= 16 && in_order(marks, d, k, present))
}

// From the latest mark to the first, and to the container's start: none is above the one after it.
// Kept (3; no plainer): marks are had by their numbers, and each is compared with the one after it, `later`.
fn in_order(marks: &[usize; NUMBERS], d: usize, k: Container, present: Mark) -> bool
    ensures { result ≡ falling k.object (mark_at_start k) (marks_of marks.now d k.marks) present }
{
    let mut later = present;
    for j in (1..=k.marks).rev() {
        let m = mark_at(marks, d, j);
        if !not_above(k.object, m, later) {
            return false;
        }
        later = m;
    }
    not_above(k.object, start_of(k), later)
}

// Of an object the count is free.
// Kept (2; no plainer): `under` of records asks five of these of two lent containers, which would first be copied into marks.
// Kept (1c; no plainer): `object` is the container's kind, the same for all its marks.
fn not_above(object: bool, p: Mark, q: Mark) -> bool
    ensures { result ≡ not_above object p q }
{
    p.value <= q.value
        && p.names <= q.names
        && p.text <= q.text
        && p.entries <= q.entries
        && p.undo <= q.undo
        && (object || p.count <= q.count)
}

// What a mark would be at the container's opening.
fn start_of(k: Container) -> Mark
    ensures { result ≡ mark_at_start k }
{
    Mark {
        value: k.value,
        names: k.names,
        text: k.text,
        entries: k.entries,
        undo: k.undo,
        count: 0,
        unique: k.unique,
    }
}

// Where that mark begins, if it has a place in the table.
fn place_of(d: usize, j: usize) -> Option<usize>
    ensures { MatchOption result (NUMBERS ≤ slot_of d j) (λ p. (p ≡ slot_of d j) × (p ≤ 7161)) }
{
    if 64 <= d || 1024 < j {
        return None;
    }
    let place = 7 * (16 * d + j.saturating_sub(1));
    (place < NUMBERS).then_some(place)
}
