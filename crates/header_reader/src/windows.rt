// Offsets that are starts of values, no two alike, in any order: found window by window of the values' bytes. A walk over the values marks
// in a window's cells where they start, then each offset that lies in it takes its mark: a second one like it finds none.
ghost use Rattle.std.specs.Prelude.{◌≡◌, ℕ, ◌+◌, ◌≤◌, ◌<◌, get_or, length};
ghost use Rattle.grammar.specs.Grammar.{starting};
ghost use Rattle.grammar.specs.Tests.{starts_of};
ghost use Rattle.header_reader.specs.Windows.{Reached, Takes, Walked, Window, marked, starting_by, starting_in};

use crate::header::Header;
use crate::numbers::Numbers;
use measure::value_length;
use std::mem;

// Is each of the header's offsets where one of the values starts that these bytes begin with, and no two alike? The usual small object has
// fewer cells, which are sooner cleared; with windows of 4096 bytes the passes over the offsets are few, and the stack stays small.
pub(crate) fn are_apart(header: &Header, values: &[u8]) -> bool
    ensures { result ≡ starting (starts_of values.now) header.now.offsets }
{
    if !header.offsets().each_below(values.len()) {
        return false;
    }
    let offsets = header.offsets();
    if values.len() <= 256 {
        by_windows::<256>(&offsets, values)
    } else {
        by_windows::<4096>(&offsets, values)
    }
}

// Of the numbers below the values' size, by so many cells.
// Kept (3; no plainer): `step_by` gives the first number of each window; `at` is where the walk over the values stands.
fn by_windows<const CELLS: usize>(offsets: &Numbers, values: &[u8]) -> bool
    requires { (0 < CELLS) × (CELLS ≤ 4096) }
    ensures { result ≡ starting_in values.now offsets.now }
{
    let mut cells = [0u8; CELLS];
    let mut at = 0;
    for lo in (0..values.len()).step_by(CELLS) {
        let n = CELLS.min(values.len() - lo);
        let Some(next) = by_window(&mut cells[..n], offsets, values, lo, at) else {
            return false;
        };
        at = next;
    }
    true
}

// Of the numbers from lo on for which there are cells: where the walk over the values stands behind them, if each is good.
// Kept (6; no plainer): `lo` is the number of the first cell; a struct of the two, by `&mut`, would promise at each call that it still holds
// the same cells (as `SameSlices` of builder_mut).
fn by_window(
    cells: &mut [u8],
    offsets: &Numbers,
    values: &[u8],
    lo: usize,
    at: usize,
) -> Option<usize>
    requires reached { Reached values.now lo at }
    requires inside { lo + length cells.old ≤ length values.now }
    ensures { Window values.now offsets.now lo (lo + length cells.old) result }
{
    cells.fill(0);
    let next = mark_starts(cells, values, lo, at);
    take_marks(cells, offsets, lo).then_some(next)
}

// Marks where values start, from lo on, as far as there are cells; where the walk stands behind them.
// Kept (3, 6; no plainer): no index is counted: each step is a value's length, and the place behind is the answer, which an iterator over whole
// values (none was made) would not tell; cells and `lo` as in `by_window`.
fn mark_starts(cells: &mut [u8], values: &[u8], lo: usize, at: usize) -> usize
    requires cells_in_bounds { (lo + length cells.old ≤ length values.now) × Reached values.now lo at }
    requires by_index { (i : ℕ) → get_or cells.old i 0 ≡ 0 }
    ensures { Walked values.now lo (lo + length cells.old) cells.new result }
{
    let hi = lo + cells.len();
    let mut at = at;
    while at < hi {
        let Some(n) = value_length(&values[at..]) else {
            return values.len();
        };
        cells[at - lo] = 1;
        at += n;
    }
    at
}

// Does each of the offsets that has a cell find a mark there, which it takes? From the last to the first, so that none is like a later one.
// Kept (3, 6; no plainer): `Numbers` steps from its front alone, and here the last comes first; cells and `lo` as in `by_window`.
fn take_marks(cells: &mut [u8], offsets: &Numbers, lo: usize) -> bool
    ensures { result ≡ starting_by (marked lo cells.old) lo (lo + length cells.old) offsets.now }
{
    for k in (0..offsets.len()).rev() {
        if !take_mark(cells, lo, offsets.get(k)) {
            return false;
        }
    }
    true
}

// Does x, if it has a cell, find a mark there, which it takes?
// Kept (6; no plainer): cells and `lo` as in `by_window`.
fn take_mark(cells: &mut [u8], lo: usize, x: usize) -> bool
    ensures { Takes lo x cells.old cells.new result }
{
    match x.checked_sub(lo) {
        Some(i) if i < cells.len() => mem::replace(&mut cells[i], 0) == 1,
        _ => true,
    }
}
