// Dictionary and value read (document 02, A6): whether bytes are a pair of the grammar, and what stands in them. Nothing is copied, and no
// function demands anything of its caller.
#![tactic(auto)]

ghost use Rattle.std.specs.Prelude.{◌≡◌};
ghost use Rattle.encoding.specs.Rows.{first};
ghost use Rattle.grammar.specs.Tests.{pair_rows};

mod errors;
mod fields;
mod read;
mod validate;

pub use errors::ReadError;
pub use fields::{field, find_field, first_integer};
pub use read::read_pair;

// A dictionary and a value of the grammar over its names, as `read_pair` found them.
#[derive(Clone, Copy)]
pub struct Pair<'a> {
    dictionary: &'a [u8],
    value: &'a [u8],
    ghost read: { first (pair_rows dictionary.now value.now) ≡ 0 },
}

// Where a field's value lies in the value's bytes.
#[derive(Clone, Copy, PartialEq, Eq, Debug)]
pub struct Part {
    pub start: usize,
    pub end: usize,
}

// A field that is an integer: its stored id, and the number.
#[derive(Clone, Copy, PartialEq, Eq, Debug)]
pub struct IntegerField {
    pub id: usize,
    pub number: i64,
}
