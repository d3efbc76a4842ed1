// The search: a value by its kind, and a list's elements and an object's fields, which are values again.
ghost use Rattle.std.specs.Prelude.{◌≡◌, ◌%◌, ◌≤◌, get_or};
ghost use Rattle.text_search.specs.Search.{least_in, place_in};

use crate::texts::is_text;
use header_reader::{Header, Kind, kind_of, value_from};

// Where the first text equal to `wanted` starts, of those that are live.
pub fn least_place(v: &[u8], wanted: &[u8]) -> Option<usize>
    ensures { result ≡ place_in wanted.now v.now }
{
    let place = least_value(v, wanted, v.len(), 64);
    (place < v.len()).then_some(place)
}

// The same of places below `best`, through at most `depth` containers; `best` where there is none.
// Kept (1d; no plainer): `best` is a bound that each value found moves down, and an Option would be unpacked at each of them.
#[cycle(least_element_least_field_least_value)]
fn least_value(v: &[u8], wanted: &[u8], best: usize, depth: usize) -> usize
    ensures { (result ≡ least_in depth wanted.now best v.now) × (result ≤ best) }
{
    if is_text(v, wanted) {
        return 0;
    }
    match kind_of(v) {
        Kind::List => least_element(v, wanted, best, depth),
        Kind::Object => least_field(v, wanted, best, depth),
        Kind::Scalar => best,
    }
}

// In a list: what starts behind the least so far is not gone into.
// Kept (3; no plainer): no index is counted: each step is as long as the element, and ends where the bound is that moves down meanwhile, so that
// an iterator over whole values (none was made) would want the place as well.
#[cycle(least_element_least_field_least_value)]
fn least_element(v: &[u8], wanted: &[u8], best: usize, depth: usize) -> usize
    requires { get_or v.now 0 0 % 4 ≡ 3 }
    ensures { (result ≡ least_in depth wanted.now best v.now) × (result ≤ best) }
{
    if depth == 0 {
        return best;
    }
    let mut least = best;
    let mut n = Header::of_list(v).from();
    while n < least {
        let element = value_from(v, n);
        if element.is_empty() {
            break;
        }
        least = n + least_value(element, wanted, least - n, depth - 1);
        n += element.len();
    }
    least
}

// In an object: its fields as the header has them, which need not be the order of data.
// Kept (3; no plainer): each offset is read by its number, and the least so far goes from field to field, as it would through a `fold`.
#[cycle(least_element_least_field_least_value)]
fn least_field(v: &[u8], wanted: &[u8], best: usize, depth: usize) -> usize
    requires { get_or v.now 0 0 % 4 ≡ 2 }
    ensures { (result ≡ least_in depth wanted.now best v.now) × (result ≤ best) }
{
    if depth == 0 {
        return best;
    }
    let header = Header::of_object(v);
    let from = header.from();
    let mut least = best;
    for k in 0..header.count() {
        let n = from + header.offset(k);
        if n < least {
            least = n + least_value(value_from(v, n), wanted, least - n, depth - 1);
        }
    }
    least
}
