// A register, an append or an open by flags, and the scalar's own refusal by its number.
ghost use Rattle.std.specs.Prelude.{◌≡◌, ◌&&◌, cond, eqb, leb, not};
ghost use Rattle.encoding.specs.Rows.{first};
ghost use Rattle.semantics.specs.Refusal.{number_told};
ghost use Rattle.refusals.specs.Decide.{enter_rows, field_of, field_or_number, into_of, late_told, name_in, opens_of, own_told, size_told, storage_in};

use crate::{Entering, Field, Seen};
use semantics::Refusal;

impl Seen<'_> {
    // As `may_enter`: `into` is false of what enters nothing into a container, `opens` is true of what opens one, and `own` is the scalar's own
    // number, 0 where it has none. What opens but enters nothing is asked as a register, and then its row 11.
    // Kept (1b, 1c, 1d, 6; project rule): a public call may not ask more of its callers: an `Entering` and a `Refusal` would.
    pub fn enter_number(
        &self,
        name: Option<&[u8]>,
        into: bool,
        opens: bool,
        own: u8,
        size: usize,
    ) -> Result<Field, u8>
        ensures { result ≡ field_or_number
            (first (enter_rows self.now.view.now (storage_in self.now) (name_in name.entry) into opens own size))
            (field_of into self.now.view.now (storage_in self.now) (name_in name.entry)) }
    {
        let call = call_of(into, opens);
        let answer = self.may_enter(name, call, size_or(own, size));
        if self.too_deep(into, opens, answer) {
            return Err(Refusal::TooDeep.number());
        }
        own_or(own, answer)
    }

    // Row 11 of what opens but enters nothing.
    // Kept (1c; project rule): as `enter_number`.
    fn too_deep(&self, into: bool, opens: bool, answer: Result<Field, Refusal>) -> bool
        ensures { result ≡ (((opens && not into) && leb 64 self.now.view.now.counts.depth) && late_told answer) }
    {
        opens && !into && 64 <= self.view.counts.depth && is_late(answer)
    }
}

// Kept (1c; project rule): as `enter_number`.
fn call_of(into: bool, opens: bool) -> Entering
    ensures { (into_of result ≡ into) × (opens_of result ≡ (into && opens)) }
{
    match (into, opens) {
        (true, true) => Entering::Open,
        (true, false) => Entering::Append,
        (false, _) => Entering::Register,
    }
}

// Its own refusal stands as one of its rows, 7, whose number no other row has.
// Kept (1b, 1d, 4; project rule): as `enter_number`.
fn size_or(own: u8, size: usize) -> Result<usize, Refusal>
    ensures { (number_told result ≡ cond (eqb own 0) 0 7) × (size_told result ≡ cond (eqb own 0) size 0) }
{
    if own == 0 {
        Ok(size)
    } else {
        Err(Refusal::OutOfRange)
    }
}

// Row 12 or one behind it, or none.
fn is_late(answer: Result<Field, Refusal>) -> bool
    ensures { result ≡ late_told answer }
{
    match answer {
        Ok(_) => true,
        Err(e) => 12 <= e.number(),
    }
}

// In place of that row 7 the scalar's own number.
// Kept (1b, 1d; project rule): as `enter_number`.
fn own_or(own: u8, answer: Result<Field, Refusal>) -> Result<Field, u8>
    ensures { result ≡ own_told own answer }
{
    match answer {
        Ok(field) => Ok(field),
        Err(e) => {
            let n = e.number();
            Err(if n == Refusal::OutOfRange.number() {
                own
            } else {
                n
            })
        }
    }
}
