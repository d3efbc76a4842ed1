// What a call sees of a builder's record and of the table of marks, whatever the record stands in: a `Builder`, or the state words of the C
// interface.
#![tactic(auto)]

ghost use Rattle.std.specs.Prelude.{◌≡◌, ◌≤◌, ◌&&◌, ◌-◌, List, cond, leb, true, ℕ};
ghost use Rattle.semantics.specs.declared.Builder.{Builder};
ghost use Rattle.semantics.specs.Record.{chained, container_at, elements_at, mark_now, marks_fit, marks_hold, no_container, rising, view_of};
ghost use Rattle.semantics.specs.Record.{encloses as encloses_of, under as under_of};

use marks::{NUMBERS, marks_fit};
use semantics::{Builder, Container, Counts, Mark, View, mark_now, no_container};

// A builder's record, read piece by piece.
pub trait Record {
    ghost builder: { Self → Builder };

    fn counts(&self) -> Counts
        ensures { result ≡ (builder self.now).counts };

    // The container at depth i, counted from 0.
    fn container(&self, i: usize) -> Container
        ensures { result ≡ container_at (builder self.now).containers i };

    // Its elements.
    // Kept (1d; no plainer): by definition (`elements_at`) there are 0 at a depth that is not there, so that every depth is answered.
    fn elements(&self, i: usize) -> usize
        ensures { result ≡ elements_at (builder self.now).elements i };
}

impl Record for Builder {
    ghost builder = { λ b. b };

    fn counts(&self) -> Counts {
        self.counts
    }

    fn container(&self, i: usize) -> Container {
        self.containers.get(i).copied().unwrap_or(no_container())
    }

    fn elements(&self, i: usize) -> usize {
        self.elements.get(i).copied().unwrap_or(0)
    }
}

#[inline(always)]
pub fn view_of<R: Record>(r: &R, marks: &[usize; NUMBERS]) -> View
    ensures { result ≡ view_of (R.builder r.now) marks.now }
{
    let counts = r.counts();
    let d = counts.depth;
    View {
        counts,
        inner: container_back(r, d, 1),
        elements: elements_back(r, d, 1),
        parent: container_back(r, d, 2),
        siblings: elements_back(r, d, 2),
        chain: holds(r, marks, d),
    }
}

// Of d open containers the innermost, which is 1 back, or its parent, 2 back.
// Kept (4; no plainer): the choice is the library's `map_or`; only the contract says it by a condition.
#[inline(always)]
fn container_back<R: Record>(r: &R, d: usize, back: usize) -> Container
    ensures { result ≡ cond (leb back d) (container_at (R.builder r.now).containers (d - back)) no_container }
{
    d.checked_sub(back)
        .map_or(no_container(), |i| r.container(i))
}

// Its elements.
// Kept (4; no plainer): as `container_back`.
#[inline(always)]
fn elements_back<R: Record>(r: &R, d: usize, back: usize) -> usize
    ensures { result ≡ cond (leb back d) (elements_at (R.builder r.now).elements (d - back)) 0 }
{
    d.checked_sub(back).map_or(0, |i| r.elements(i))
}

// Are at most 64 open, does no starting mark fall from one to the next, does no list with a child open in it count too much, and are the
// marks that are set in each at most 16, and in order?
#[inline(always)]
fn holds<R: Record>(r: &R, marks: &[usize; NUMBERS], d: usize) -> bool
    ensures { result ≡ (chained (R.builder r.now).containers (R.builder r.now).elements d
        && marks_hold (R.builder r.now).containers (R.builder r.now).elements marks.now (R.builder r.now).counts d) }
{
    d <= 64 && rises(r, d) && marks_hold(r, marks, d)
}

// Does each container enclose the next? The tests are joined by `&`, without a branch, since every call makes them.
// Kept (3, 5a; no plainer): `all` would ask after each step whether to go on, for an end that only a damaged record has. That at most 64 are
// open is asked once, by `holds`.
#[inline(always)]
fn rises<R: Record>(r: &R, d: usize) -> bool
    requires { d ≤ 64 }
    ensures { result ≡ rising (R.builder r.now).containers (R.builder r.now).elements (d - 1) }
{
    let mut ok = true;
    for i in (1..d).rev() {
        ok &= encloses(&r.container(i - 1), r.elements(i - 1), &r.container(i));
    }
    ok
}

// The step from a container of n elements to the one open in it; one above the data's bytes is that child.
#[inline(always)]
fn encloses(k: &Container, n: usize, l: &Container) -> bool
    ensures { result ≡ encloses_of k.now n l.now }
{
    let above = n.saturating_sub(l.value.saturating_sub(k.value));
    under(k, l) & (k.object | (above <= 1))
}

// Do the starting marks of the one lie at or below those of the other?
// Kept (2; no plainer): `not_above` of marks asks the same of two marks, into which these lent containers would first be copied, at every call.
#[inline(always)]
fn under(k: &Container, l: &Container) -> bool
    ensures { result ≡ under_of k.now l.now }
{
    let entries = (k.entries <= l.entries) & (k.undo <= l.undo);
    (k.value <= l.value) & ((k.names <= l.names) & ((k.text <= l.text) & entries))
}

// Are the marks in order in each container? Where none is set there is nothing more to see.
// Kept (5a; no plainer): as `rises`.
#[inline(always)]
fn marks_hold<R: Record>(r: &R, marks: &[usize; NUMBERS], d: usize) -> bool
    requires { d ≤ 64 }
    ensures { result ≡ marks_hold (R.builder r.now).containers (R.builder r.now).elements marks.now
        (R.builder r.now).counts d }
{
    unmarked(r, d) || each_holds(r, marks, d)
}

// Is no mark set in any of d open containers? Every call asks this, and mostly no more.
// Kept (3, 5a; no plainer): as `rises`.
#[inline(always)]
fn unmarked<R: Record>(r: &R, d: usize) -> bool
    requires { d ≤ 64 }
    ensures { result ≡ true → (ms : List ℕ) → marks_hold (R.builder r.now).containers (R.builder r.now).elements ms
        (R.builder r.now).counts d ≡ true }
{
    let mut none = true;
    for i in (0..d).rev() {
        none &= r.container(i).marks == 0;
    }
    none
}

// The same as `marks_hold`, container by container.
// Kept (3, 5a; no plainer): as `rises`.
fn each_holds<R: Record>(r: &R, marks: &[usize; NUMBERS], d: usize) -> bool
    requires { d ≤ 64 }
    ensures { result ≡ marks_hold (R.builder r.now).containers (R.builder r.now).elements marks.now
        (R.builder r.now).counts d }
{
    let mut ok = true;
    for i in (0..d).rev() {
        ok &= fits_at(r, marks, i);
    }
    ok
}

// Are the marks of the container at depth i? Most containers have none.
fn fits_at<R: Record>(r: &R, marks: &[usize; NUMBERS], i: usize) -> bool
    ensures { result ≡ marks_fit marks.now i (container_at (R.builder r.now).containers i) (mark_now (R.builder r.now).counts
        (elements_at (R.builder r.now).elements i) (container_at (R.builder r.now).containers i).unique) }
{
    let k = r.container(i);
    k.marks == 0 || marks_fit(marks, i, k, mark_now(r.counts(), r.elements(i), k.unique))
}
