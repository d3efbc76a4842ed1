// Why a pair is refused.
ghost use Rattle.std.specs.Prelude.{◌≡◌};

use lexicon::BadDictionary;

// The dictionary is judged first.
#[derive(Clone, Copy, PartialEq, Eq, Debug)]
pub enum ReadError {
    BadDictionary,
    BadValue,
}

impl From<BadDictionary> for ReadError {
    ghost use Rattle.reader.specs.declared.errors.ReadError.TheVariants as read_error;

    ghost from_gives = { λ _ e. e ≡ read_error.BadDictionary };

    fn from(_e: BadDictionary) -> Self {
        Self::BadDictionary
    }
}

impl ReadError {
    ghost use Rattle.reader.specs.Answers.{error_number};

    // Its number in the table.
    pub fn number(self) -> u8
        ensures { result ≡ error_number self }
    {
        match self {
            ReadError::BadDictionary => 19,
            ReadError::BadValue => 20,
        }
    }
}
