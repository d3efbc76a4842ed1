// One file for many records: each a dictionary and a value, one behind the other, in a lent buffer.
// No function demands anything of its caller, and none judges what a record holds.
#![tactic(auto)]

ghost use Rattle.std.specs.Prelude.{◌≡◌, false, true, MatchResult};
ghost use Rattle.batch.specs.Writing.{no_batch};
ghost use Rattle.batch.specs.declared.AddError.TheVariants as add_error;

mod reading;
mod writing;

pub use reading::{dictionary_at, parts_at, record_at, value_at};
pub use writing::{add, start};

// The bytes are no batch: there are none, or they are of another version.
#[derive(Clone, Copy, PartialEq, Eq, Debug)]
pub struct NoBatch;

// Why no record was added.
#[derive(Clone, Copy, PartialEq, Eq, Debug)]
pub enum AddError {
    Damaged,
    NoBatch,
    NoRoom,
}

impl From<NoBatch> for AddError {
    ghost from_gives = { λ _ e. e ≡ add_error.NoBatch };

    fn from(_e: NoBatch) -> AddError {
        AddError::NoBatch
    }
}

// What stands at a place of a file. A whole record's dictionary lies from `dictionary` up to `value`, its value from there up to `next`, where
// the next record begins; of a bad record only that place is known; a tail has so many bytes.
// Kept (1a; no plainer): no success beside a refusal, but three things that reading finds.
#[derive(Clone, Copy, PartialEq, Eq, Debug)]
pub enum Step {
    Whole {
        dictionary: usize,
        value: usize,
        next: usize,
    },
    Bad(usize),
    Tail(usize),
}

fn check_version(file: &[u8]) -> Result<(), NoBatch>
    ensures { MatchResult result (λ _. no_batch file.now ≡ false) (λ _. no_batch file.now ≡ true) }
{
    match file {
        [1, ..] => Ok(()),
        _ => Err(NoBatch),
    }
}
