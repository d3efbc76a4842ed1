// Why a call is refused: the rows of document 01's and 02's table that a call of the writer can answer.
ghost use Rattle.std.specs.Prelude.{◌≡◌};
ghost use Rattle.semantics.specs.Refusal.{refusal_number};

use calendar::date::OutOfCalendar;
use container::CloseError;
use metadata::{FinishError, NameError};
use packed_decimal::read::PackedError;

// The row that holds, first of all in the table's order; each is the row's number in the table.
// Kept (1a; no plainer): each variant is a refusal, and none a success.
#[derive(Clone, Copy, PartialEq, Eq, Debug)]
pub enum Refusal {
    // The record or the lent storage was altered.
    Damaged = 1,
    // An earlier finish was accepted.
    Finished = 2,
    // No container is open; for the uniqueness mark, no object is innermost.
    NotOpen = 3,
    // A container is open still.
    StillOpen = 4,
    // Named where no object is innermost, or unnamed in an object.
    Misnamed = 5,
    // A second value at the top level.
    SecondTop = 6,
    // A decimal or a time outside its range.
    OutOfRange = 7,
    // Text that is not UTF-8, or short text of more than 63 bytes.
    IllFormed = 8,
    // A name that is not UTF-8.
    BadName = 9,
    // A name that is live in this object, where names shall be unique.
    Taken = 10,
    // 64 containers are open.
    TooDeep = 11,
    // No room for a new name.
    NamesFull = 12,
    // No entry is free.
    EntriesFull = 13,
    // No room for the scalar or the header behind the used bytes.
    NoRoom = 14,
    // There is no value to be finished.
    NoValue = 15,
    // No room for the dictionary in its output.
    OutputFull = 16,
    // A date that is not in the calendar or outside its span, or a time outside the day.
    OutOfCalendar = 17,
    // Bytes that are no packed decimal.
    NotPacked = 18,
    // No mark is free, or that one is not set.
    NoMark = 22,
    // No undo record is free.
    UndoFull = 23,
    // A floor that is not 1 to 4.
    BadFloor = 24,
}

impl Refusal {
    // Its number in the table.
    // Kept (4; no plainer): the table's numbers are the discriminants, and this cast is all that reads them.
    pub fn number(self) -> u8
        ensures { result ≡ refusal_number self }
    {
        self as u8
    }
}

impl From<NameError> for Refusal {
    ghost use Rattle.semantics.specs.Refusal.{name_refusal};

    ghost from_gives = { λ error e. e ≡ name_refusal error };

    fn from(error: NameError) -> Self {
        match error {
            NameError::Damaged => Refusal::Damaged,
            NameError::NotUtf8 => Refusal::BadName,
            NameError::Full => Refusal::NamesFull,
        }
    }
}

impl From<CloseError> for Refusal {
    ghost use Rattle.semantics.specs.Refusal.{close_refusal};

    ghost from_gives = { λ error e. e ≡ close_refusal error };

    fn from(error: CloseError) -> Self {
        match error {
            CloseError::Damaged => Refusal::Damaged,
            CloseError::NoRoom => Refusal::NoRoom,
        }
    }
}

impl From<FinishError> for Refusal {
    ghost use Rattle.semantics.specs.Refusal.{finish_refusal};

    ghost from_gives = { λ error e. e ≡ finish_refusal error };

    // Kept (2; no plainer): each error has variants of its own.
    fn from(error: FinishError) -> Self {
        match error {
            FinishError::Damaged => Refusal::Damaged,
            FinishError::NoRoom => Refusal::OutputFull,
        }
    }
}

impl From<PackedError> for Refusal {
    ghost use Rattle.semantics.specs.Refusal.{packed_refusal};

    ghost from_gives = { λ error e. e ≡ packed_refusal error };

    // Kept (2; no plainer): each error has variants of its own.
    fn from(error: PackedError) -> Self {
        match error {
            PackedError::NotPacked => Refusal::NotPacked,
            PackedError::OutOfRange => Refusal::OutOfRange,
        }
    }
}

impl From<OutOfCalendar> for Refusal {
    ghost use Rattle.semantics.specs.declared.refusal.Refusal.TheVariants as refusal;

    ghost from_gives = { λ _ e. e ≡ refusal.OutOfCalendar };

    fn from(_e: OutOfCalendar) -> Self {
        Refusal::OutOfCalendar
    }
}
