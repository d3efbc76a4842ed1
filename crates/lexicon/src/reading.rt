// Whether bytes are a dictionary: each byte is looked at a bounded number of times.
ghost use Rattle.std.specs.Prelude.{◌≡◌, ◌&&◌, ◌%◌, ◌/◌, eqb};
ghost use Rattle.lexicon.specs.Dictionary.{is_dictionary, read_dictionary};

use crate::BadDictionary;
use crate::stored::Stored;

// How many names a whole dictionary has.
pub fn read_dictionary(d: &[u8]) -> Result<usize, BadDictionary>
    ensures { result ≡ read_dictionary d.now }
{
    if is_dictionary(d) {
        Ok(Stored::of(d).count)
    } else {
        Err(BadDictionary)
    }
}

fn is_dictionary(d: &[u8]) -> bool
    ensures { result ≡ is_dictionary d.now }
{
    if d.is_empty() || 4294967295 < d.len() || !version_one(d[0]) {
        return false;
    }
    let stored = Stored::of(d);
    if d.len() < stored.text() || stored.offset(0) != 0 || !stored.names_good() {
        return false;
    }
    !marked(d[0]) || stored.ascend()
}

// Is the version 1, and the unused bit 0?
fn version_one(first: u8) -> bool
    ensures { result ≡ (eqb (first % 16) 1 && eqb (first / 32 % 2) 0) }
{
    first & 15 == 1 && (first >> 5) & 1 == 0
}

fn marked(first: u8) -> bool
    ensures { result ≡ eqb (first / 16 % 2) 1 }
{
    (first >> 4) & 1 == 1
}
