// A register, an append or an open by flags, and the scalar's own refusal by its number.
ghost use Rattle.std.specs.Prelude.{◌≡◌, ◌&&◌, ◌||◌, ◌<◌, ◌^◌, IfOk, eqb, leb, not, true};
ghost use Rattle.encoding.specs.Rows.{first};
ghost use Rattle.semantics.specs.Record.{storage_of};
ghost use Rattle.refusals.specs.Decide.{enter_rows, into_of, name_in, opens_of};
ghost use Rattle.actions.specs.Actions.{EntersNumber, said};

use crate::enter::{Entered, enter_over};
use refusals::{Entering, Seen};
use semantics::{Counts, Refusal, View};

// As `enter_over`: `into` is false of what enters nothing into a container, `opens` is true of what opens one, and `own` is the scalar's own
// number, 0 where it has none. What opens but enters nothing is carried out as a register, and its depth is one more.
// Kept (1b, 1c, 1d, 5b, 6; project rule): a public call may not ask more of its callers: an `Entering` and a `Refusal` would, and one struct.
pub fn enter_by_number(
    v: View,
    value: &[u8],
    text: &mut [u8],
    ends: &mut [usize],
    entries: &[usize],
    undo: &[usize],
    name: Option<&[u8]>,
    into: bool,
    opens: bool,
    own: u8,
    size: usize,
) -> Result<Entered, u8>
    ensures { EntersNumber v (storage_of value.now text.old ends.old entries.now undo.now)
        (name_in name.entry) into opens size
        (first
        (enter_rows v (storage_of value.now text.old ends.old entries.now undo.now)
        (name_in name.entry) into opens own size)) result text.new ends.new }
{
    let alone = opens_alone(into, opens);
    if is_refused(v, alone, own) {
        // By that or by a row before it; else `enter_over` decides.
        let s = Seen {
            view: &v,
            value,
            text,
            ends,
            entries,
            undo,
        };
        s.enter_number(name, into, opens, own, size)?;
    }
    let call = call_of(into, opens);
    let answer = enter_over(v, value, text, ends, entries, undo, name, call, Ok(size));
    said(answer, alone)
}

// Kept (1c; project rule): as `enter_by_number`.
fn opens_alone(into: bool, opens: bool) -> bool
    ensures { result ≡ (opens && not into) }
{
    opens && !into
}

// By its own number, or by row 11 of what opens but enters nothing.
// Kept (1b, 1c; project rule): as `enter_by_number`.
fn is_refused(v: View, alone: bool, own: u8) -> bool
    ensures { result ≡ (not (eqb own 0) || (alone && leb 64 v.counts.depth)) }
{
    own != 0 || (alone && 64 <= v.counts.depth)
}

// As `call_of` of refusals, which is private there.
// Kept (1c, 2; project rule): as `enter_by_number`.
fn call_of(into: bool, opens: bool) -> Entering
    ensures { (into_of result ≡ into) × (opens_of result ≡ (into && opens)) }
{
    if !into {
        Entering::Register
    } else if opens {
        Entering::Open
    } else {
        Entering::Append
    }
}

// A refusal by its number, and a container more where one opens that is entered nowhere.
// Kept (1b, 1c; project rule): as `enter_by_number`.
fn said(answer: Result<Entered, Refusal>, alone: bool) -> Result<Entered, u8>
    requires { alone ≡ true → IfOk answer (λ e. e.counts.depth < 2 ^ 63) }
    ensures { result ≡ said alone answer }
{
    match answer {
        Ok(e) => {
            let depth = if alone {
                e.counts.depth + 1
            } else {
                e.counts.depth
            };
            Ok(Entered {
                counts: Counts { depth, ..e.counts },
                ..e
            })
        }
        Err(r) => Err(r.number()),
    }
}
