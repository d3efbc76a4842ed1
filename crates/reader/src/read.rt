// Whether a dictionary and a value are a pair of the grammar.
ghost use Rattle.std.specs.Prelude.{◌≡◌, IfOk};
ghost use Rattle.encoding.specs.Rows.{first};
ghost use Rattle.grammar.specs.Tests.{pair_rows};
ghost use Rattle.reader.specs.Answers.{number_of};

use crate::validate::value_ok;
use crate::{Pair, ReadError};
use lexicon::read_dictionary;

// A bad dictionary, which is judged first; else a value outside the grammar.
// Kept (1b, 5b; C interface): it answers a `Result`; the C calls lend two slices, and what is read is a `Pair` of them.
pub fn read_pair<'a>(d: &'a [u8], v: &'a [u8]) -> Result<Pair<'a>, ReadError>
    ensures number { number_of result ≡ first (pair_rows d.now v.now) }
    ensures pair { IfOk result (λ pair. (pair.dictionary.now ≡ d.now) × (pair.value.now ≡ v.now)) }
{
    read_dictionary(d)?;
    if v.len() <= 4294967295 && value_ok(d, v, 64) {
        Ok(Pair {
            dictionary: d,
            value: v,
        })
    } else {
        Err(ReadError::BadValue)
    }
}
