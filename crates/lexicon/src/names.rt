// The names that stand in a dictionary's bytes, by their ids. Nothing is judged: any bytes have names.
// Kept (1d; no plainer): by definition (`name_in`) an id that is not held has the empty name, so that every id has one.
ghost use Rattle.std.specs.Prelude.{◌≡◌, length};
ghost use Rattle.metadata.specs.Names.{below as below_of, same as same_of};
ghost use Rattle.metadata.specs.Bytes.{dictionary_names};
ghost use Rattle.lexicon.specs.Dictionary.{name_in};

use crate::stored::Stored;
use metadata::same;

// How many names there are.
pub fn name_count(d: &[u8]) -> usize
    ensures { result ≡ length (dictionary_names d.now) }
{
    Stored::of(d).count
}

// The name of an id, as the part of the bytes that it occupies; no bytes where there is none.
pub fn name_at(d: &[u8], id: usize) -> &[u8]
    ensures { result.now ≡ name_in d.now id }
{
    Stored::of(d).name(id)
}

// Is the name of id i below that of id j, by bytes?
pub fn name_below(d: &[u8], i: usize, j: usize) -> bool
    ensures { result ≡ below_of (name_in d.now i) (name_in d.now j) }
{
    Stored::of(d).name_is_below(i, j)
}

// Has the name of an id these bytes?
pub fn same_name(d: &[u8], id: usize, name: &[u8]) -> bool
    ensures { result ≡ same_of (name_in d.now id) name.now }
{
    same(Stored::of(d).name(id), name)
}
