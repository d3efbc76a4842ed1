// The pair is judged first, then the least place of the text found, then its path written.
ghost use Rattle.std.specs.Prelude.{◌≡◌};
ghost use Rattle.finder.specs.Finds.{FindsText};

use encoding::slices::NoRoom;
use path_words::write_path;
use reader::{ReadError, read_pair};
use text_search::least_place;

// A pair that is not read; that no live text is the wanted one; that the words do not fit.
// Kept (1a; no plainer): each variant is a refusal, success is the `Ok` beside it.
#[derive(Clone, Copy, PartialEq, Eq, Debug)]
pub enum FindError {
    Read(ReadError),
    Missing,
    NoRoom,
}

impl From<ReadError> for FindError {
    ghost use Rattle.finder.specs.declared.find.FindError.{FindError};

    ghost from_gives = { λ error e. e ≡ FindError.Read error };

    fn from(error: ReadError) -> FindError {
        FindError::Read(error)
    }
}

impl From<NoRoom> for FindError {
    ghost use Rattle.finder.specs.declared.find.FindError.{FindError};

    ghost from_gives = { λ _ e. e ≡ FindError.NoRoom };

    fn from(_e: NoRoom) -> FindError {
        FindError::NoRoom
    }
}

// The words of the path to the first live text equal to `wanted`, in order of data, at the front of `out`; how many bytes they are.
// Kept (5b; no plainer): dictionary and value are no `Pair` before they are read here, and the search wants the value alone.
pub fn find_text(d: &[u8], v: &[u8], wanted: &[u8], out: &mut [u8]) -> Result<usize, FindError>
    ensures { FindsText d.now v.now wanted.now out.old result out.new }
{
    read_pair(d, v)?;
    let place = least_place(v, wanted).ok_or(FindError::Missing)?;
    Ok(write_path(d, v, place, out)?)
}
