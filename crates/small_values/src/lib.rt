// All the small values (document 02, A13), as one batch file. No public function demands anything of its caller.
#![tactic(auto)]

ghost use Rattle.std.specs.Prelude.{◌≡◌};

mod writing;

use encoding::slices::NoRoom;
pub use writing::write_small_values;

// Why nothing is written: the length is none of 1, 2 and 3; or the values do not fit.
#[derive(Clone, Copy, PartialEq, Eq, Debug)]
pub enum SmallError {
    BadLength,
    NoRoom,
}

impl From<NoRoom> for SmallError {
    ghost use Rattle.small_values.specs.declared.SmallError.TheVariants as small_error;

    ghost from_gives = { λ _ e. e ≡ small_error.NoRoom };

    fn from(_e: NoRoom) -> Self {
        Self::NoRoom
    }
}
