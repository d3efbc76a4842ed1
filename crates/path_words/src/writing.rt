// Words written: the size first, so that where they do not fit nothing is. Each function writes at the front of the bytes that it is lent.
ghost use Rattle.std.specs.Prelude.{◌≡◌, ◌+◌, ◌%◌, ◌≤◌, [], length};
ghost use Rattle.encoding.specs.Slices.{write};
ghost use Rattle.metadata.specs.Bytes.{dictionary_names};
ghost use Rattle.grammar.specs.Grammar.{most_containers};
ghost use Rattle.live.specs.Words.{decimal, steps_words, words};
ghost use Rattle.path_words.specs.Descent.{path_in, step_of};
ghost use Rattle.path_words.specs.Writing.{WritesWords, step_words};

use crate::descent::Spot;
use crate::sizes::{decimal_size, steps_size};
use crate::{Child, Step};
use encoding::slices::{NoRoom, fits};
use lexicon::name_at;

// The words of the path to place p of the value v, over the dictionary d, at the front of `out`; how many bytes they are.
// Kept (5b, 6; no plainer): here the three come apart; inside, value and place are a `Spot`.
pub fn write_path(d: &[u8], v: &[u8], p: usize, out: &mut [u8]) -> Result<usize, NoRoom>
    ensures { WritesWords (words (path_in most_containers (dictionary_names d.now) p v.now))
        out.old result out.new }
{
    let spot = Spot { value: v, place: p };
    let size = 6 + steps_size(d, spot, 64);
    if !fits(0, size, out.len()) {
        return Err(NoRoom);
    }
    let n = put(b"record", out);
    write_steps(d, spot, 64, &mut out[n..]);
    Ok(size)
}

// The words of all steps.
fn write_steps(d: &[u8], spot: Spot<'_>, depth: usize, out: &mut [u8])
    requires { length (steps_words (path_in depth (dictionary_names d.now) spot.place spot.value.now)) ≤ length out.old }
    ensures { out.new ≡ write 0 (steps_words (path_in depth (dictionary_names d.now) spot.entry.place spot.entry.value.now)) out.old }
{
    if depth == 0 {
        return;
    }
    if let Some(Child { step, start }) = spot.child() {
        let n = write_step(d, step, out);
        write_steps(d, spot.inside(start), depth - 1, &mut out[n..]);
    }
}

// `, element K` or `, field N bytes NAME`; how many bytes that is.
// Kept (7; no plainer): a match over an enum's variants.
fn write_step(d: &[u8], step: Step, out: &mut [u8]) -> usize
    requires { length (step_words (step_of (dictionary_names d.now) step)) ≤ length out.old }
    ensures { (result ≡ length (step_words (step_of (dictionary_names d.now) step)))
        × (out.new ≡ write 0 (step_words (step_of (dictionary_names d.now) step)) out.old) }
{
    match step {
        Step::Element(number) => {
            let n = put(b", element ", out);
            n + write_decimal(number, &mut out[n..])
        }
        Step::Field(id) => {
            let name = name_at(d, id);
            let field = put(b", field ", out);
            let count = field + write_decimal(name.len(), &mut out[field..]);
            let bytes = count + put(b" bytes ", &mut out[count..]);
            bytes + put(name, &mut out[bytes..])
        }
    }
}

fn put(word: &[u8], out: &mut [u8]) -> usize
    requires { length word.now ≤ length out.old }
    ensures { (result ≡ length word.now) × (out.new ≡ write 0 word.now out.old) }
{
    out[..word.len()].copy_from_slice(word);
    word.len()
}

// The digits of n, the last first; how many there are.
// Kept (3; proof): by `out[..size].iter_mut().rev()`, what the bytes are once the iterator has given back what it lent was left.
// Kept (6; no plainer): n is the number that is written, no place.
fn write_decimal(n: usize, out: &mut [u8]) -> usize
    requires { length (decimal n []) ≤ length out.old }
    ensures { (result ≡ length (decimal n [])) × (out.new ≡ write 0 (decimal n []) out.old) }
{
    let size = decimal_size(n);
    let mut left = n;
    for i in (0..size).rev() {
        out[i] = b'0' + (left % 10) as u8;
        left /= 10;
    }
    size
}
