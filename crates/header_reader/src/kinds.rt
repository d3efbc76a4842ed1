// What kind of value bytes are.
ghost use Rattle.std.specs.Prelude.{◌≡◌};
ghost use Rattle.header_reader.specs.Kinds.{kind_of};

use crate::header::first_byte;

#[derive(Clone, Copy, PartialEq, Eq, Debug)]
pub enum Kind {
    Scalar,
    Object,
    List,
}

// A value's kind; no bytes count as a scalar.
pub fn kind_of(v: &[u8]) -> Kind
    ensures { result ≡ kind_of v.now }
{
    match first_byte(v) % 4 {
        3 => Kind::List,
        2 => Kind::Object,
        _ => Kind::Scalar,
    }
}
