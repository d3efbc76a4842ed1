// The record made, and what a call gives back of it.
// Kept (1c; project rule): the calls are the Rust's by name (DECISIONS), and its parameter for the uniqueness mark is a flag.
// Kept (6; no plainer): an array of fixed length by value, of which one place is set, is no slice that could be split.
ghost use Rattle.std.specs.Prelude.{◌≡◌, ◌<◌, set};
ghost use Rattle.actions.specs.Actions.{elements_put};
ghost use Rattle.builder.specs.Calls.{Makes, fresh_of};

use crate::BadFloor;
use actions::Moved;
use refusals::may_make;
use semantics::{Builder, Container, Counts, fresh_counts, no_container};

// A fresh builder of floor 1, under which every width is the least; children inherit the uniqueness mark.
pub fn new(unique: bool) -> Builder
    ensures { result ≡ fresh_of unique 1 }
{
    fresh(unique, 1)
}

// A fresh builder whose offsets, ids and dictionary numbers take no fewer bytes than the floor, 1 to 4. Any other floor is refused with 24;
// the record then holds it, and so every call on that is 1.
pub fn with_floor(unique: bool, floor: usize) -> Result<Builder, BadFloor>
    ensures { Makes result unique floor }
{
    let builder = fresh(unique, floor);
    may_make(floor).map_err(|refused| BadFloor { refused, builder })?;
    Ok(builder)
}

fn fresh(unique: bool, floor: usize) -> Builder
    ensures { result ≡ fresh_of unique floor }
{
    Builder {
        containers: [no_container(); 64],
        elements: [0; 64],
        counts: fresh_counts(unique, floor),
    }
}

// The record with other counts, and other elements of the container that is innermost then.
pub(crate) fn moved(b: Builder, r: Moved) -> Builder
    ensures { result ≡ record {
      containers = b.containers;
      elements = elements_put b.elements r.counts.depth r.elements;
      counts = r.counts;
    } }
{
    Builder {
        elements: with_elements(b.elements, r.counts.depth, r.elements),
        counts: r.counts,
        ..b
    }
}

// The elements with n of the innermost of d containers.
pub(crate) fn with_elements(ns: [usize; 64], d: usize, n: usize) -> [usize; 64]
    ensures { result ≡ elements_put ns d n }
{
    let mut after = ns;
    if let Some(i) = d.checked_sub(1)
        && i < 64
    {
        after[i] = n;
    }
    after
}

// The record with another container at a place, other elements and other counts.
pub(crate) fn with_container(
    b: Builder,
    at: usize,
    k: Container,
    ns: [usize; 64],
    c: Counts,
) -> Builder
    requires { at < 64 }
    ensures { result ≡ record { containers = set b.containers at k; elements = ns; counts = c } }
{
    let mut containers = b.containers;
    containers[at] = k;
    Builder {
        containers,
        elements: ns,
        counts: c,
    }
}
