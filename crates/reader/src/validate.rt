// Are bytes one value of the grammar? Lists and objects hold each other, and the walk follows that.
// Kept (5b; no plainer): the dictionary stays the same on the way down and the bytes are others at each step, so no two of them are a pair.
ghost use Rattle.std.specs.Prelude.{◌≡◌, ◌%◌, length, get_or};
ghost use Rattle.metadata.specs.Bytes.{dictionary_names};
ghost use Rattle.grammar.specs.Tests.{each_value, is_value};

use header_reader::{Kind, kind_of, list_head, object_head};
use measure::value_length;
use scalar_reader::is_scalar;

// Is v one value, with at most `depth` containers one in another? No bytes count as a scalar, and are none.
#[cycle(list_ok_object_ok_value_ok_values_ok)]
pub(crate) fn value_ok(d: &[u8], v: &[u8], depth: usize) -> bool
    ensures { result ≡ is_value (dictionary_names d.now) depth v.now }
{
    match kind_of(v) {
        Kind::List => list_ok(d, v, depth),
        Kind::Object => object_ok(d, v, depth),
        Kind::Scalar => is_scalar(v),
    }
}

// A list: its header, then its elements.
#[cycle(list_ok_object_ok_value_ok_values_ok)]
fn list_ok(d: &[u8], v: &[u8], depth: usize) -> bool
    requires { get_or v.now 0 0 % 4 ≡ 3 }
    ensures { result ≡ is_value (dictionary_names d.now) depth v.now }
{
    if depth == 0 {
        return false;
    }
    let Some(from) = list_head(v) else {
        return false;
    };
    values_ok(d, &v[from..], depth - 1)
}

// An object: its header, then the values that its data is, those that no offset names among them.
#[cycle(list_ok_object_ok_value_ok_values_ok)]
fn object_ok(d: &[u8], v: &[u8], depth: usize) -> bool
    requires { get_or v.now 0 0 % 4 ≡ 2 }
    ensures { result ≡ is_value (dictionary_names d.now) depth v.now }
{
    if depth == 0 {
        return false;
    }
    let Some(from) = object_head(d, v) else {
        return false;
    };
    values_ok(d, &v[from..], depth - 1)
}

// Is a container's data whole values end to end?
// Kept (3; no plainer): no index is counted: each step takes a value off the front. An iterator over whole values was not made: its `next`
// is this loop's test, but where it ends it would not tell whether bytes are left.
#[cycle(list_ok_object_ok_value_ok_values_ok)]
fn values_ok(d: &[u8], v: &[u8], depth: usize) -> bool
    ensures { result ≡ each_value (is_value (dictionary_names d.now) depth) (length v.now) v.now }
{
    let mut rest = v;
    while let Some(n) = value_length(rest) {
        let (part, behind) = rest.split_at(n);
        if !value_ok(d, part, depth) {
            return false;
        }
        rest = behind;
    }
    rest.is_empty()
}
