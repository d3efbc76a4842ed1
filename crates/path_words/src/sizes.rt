// How many bytes words take, known before the first one is written.
ghost use Rattle.std.specs.Prelude.{◌≡◌, ◌≤◌, ◌<◌, ◌*◌, [], length};
ghost use Rattle.metadata.specs.Bytes.{dictionary_names};
ghost use Rattle.live.specs.Words.{decimal, steps_words};
ghost use Rattle.path_words.specs.Descent.{path_in, step_of};
ghost use Rattle.path_words.specs.Writing.{step_words};

use crate::descent::Spot;
use crate::{Child, Step};
use lexicon::name_at;

// The words of all steps behind `record`, of the path through at most `depth` containers.
pub(crate) fn steps_size(d: &[u8], spot: Spot<'_>, depth: usize) -> usize
    requires { depth ≤ 64 }
    ensures { (result ≡ length (steps_words (path_in depth (dictionary_names d.now) spot.entry.place spot.entry.value.now)))
        × (result ≤ depth * 8589934592) }
{
    if depth == 0 {
        return 0;
    }
    let Some(Child { step, start }) = spot.child() else {
        return 0;
    };
    step_size(d, step) + steps_size(d, spot.inside(start), depth - 1)
}

// Kept (7; no plainer): a match over an enum's variants.
fn step_size(d: &[u8], step: Step) -> usize
    ensures { (result ≡ length (step_words (step_of (dictionary_names d.now) step))) × (result ≤ 8589934592) }
{
    match step {
        Step::Element(number) => 10 + decimal_size(number),
        Step::Field(id) => {
            let n = name_at(d, id).len();
            15 + decimal_size(n) + n
        }
    }
}

// The digits of n.
pub(crate) fn decimal_size(n: usize) -> usize
    ensures { (result ≡ length (decimal n [])) × (result ≤ 20) }
{
    if n == 0 { 1 } else { n.ilog10() as usize + 1 }
}
