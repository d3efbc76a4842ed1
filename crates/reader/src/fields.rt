// Fields of an object, by name and by what they hold.
// Kept (5b; C interface): dictionary and value come apart from the C calls; once read they are a `Pair`.
ghost use Rattle.std.specs.Prelude.{◌≡◌, ◌≢◌, ◌%◌, ◌+◌, ◌≤◌, drop, length, get_or, MatchOption};
ghost use Rattle.metadata.specs.Bytes.{dictionary_names};
ghost use Rattle.measure.specs.Measure.{measured};
ghost use Rattle.reader.specs.Answers.{FindsField, FindsInteger, IsObject, field_of, integer_field_of, part, part_of};

use crate::read::read_pair;
use crate::{IntegerField, Pair, Part, ReadError};
use header_reader::{Header, Kind, kind_of};
use lexicon::same_name;
use measure::value_length;
use scalar_reader::integer_of;

// Where the value of the field of this name lies, if there is one. The whole pair is judged before anything is searched.
pub fn find_field(d: &[u8], v: &[u8], name: &[u8]) -> Result<Option<Part>, ReadError>
    ensures { FindsField d.now v.now name.now result }
{
    let pair = read_pair(d, v)?;
    Ok(pair.field_named(name))
}

// The part of the bytes that lies at a place.
// Kept (1d; no plainer): no bytes where there is none, which are no value.
pub fn field(v: &[u8], place: Option<Part>) -> &[u8]
    ensures { result.now ≡ part_of v.now place }
{
    match place {
        Some(Part { start, end }) if start <= end && end <= v.len() => &v[start..end],
        _ => &[],
    }
}

// The first field, in order of names, that is int8 to int64. The whole pair is judged first.
pub fn first_integer(d: &[u8], v: &[u8]) -> Result<Option<IntegerField>, ReadError>
    ensures { FindsInteger d.now v.now result }
{
    let pair = read_pair(d, v)?;
    Ok(pair.integer_field())
}

impl<'a> Pair<'a> {
    // By the names that the stored ids have, and not by an id.
    // Kept (3; no plainer): `part_at` asks that field k is there, which the loop knows and a closure behind `find` would have to be told.
    fn field_named(self, name: &[u8]) -> Option<Part>
        ensures { let pair = self.entry in result ≡ field_of (dictionary_names pair.dictionary.now) name.now pair.value.now }
    {
        let header = self.object()?;
        for k in 0..header.count() {
            if same_name(self.dictionary, header.id(k), name) {
                return Some(part_at(self.value, &header, k));
            }
        }
        None
    }

    // A caller wanting a number takes it or goes on to the next field.
    // Kept (3; no plainer): as `field_named`, of a closure in `find_map`.
    fn integer_field(self) -> Option<IntegerField>
        ensures { result ≡ integer_field_of self.entry.value.now }
    {
        let header = self.object()?;
        for k in 0..header.count() {
            let id = header.id(k);
            let place = part_at(self.value, &header, k);
            let Some(number) = integer_of(field(self.value, Some(place))) else {
                continue;
            };
            return Some(IntegerField { id, number });
        }
        None
    }

    // The header of an object.
    fn object(self) -> Option<Header<'a>>
        ensures { let v = self.entry.value.now in MatchOption result (get_or v 0 0 % 4 ≢ 2) (λ header. IsObject v header) }
    {
        match kind_of(self.value) {
            Kind::Object => Some(Header::of_object(self.value)),
            _ => None,
        }
    }
}

// Where the value of field k lies: it is as long as its own first bytes say.
fn part_at(v: &[u8], header: &Header<'_>, k: usize) -> Part
    requires { header.now.from + get_or header.now.offsets k 0 ≤ length v.now }
    ensures { let start = header.now.from + get_or header.now.offsets k 0 in result ≡ part start (start + measured (drop start v.now)) }
{
    let start = header.from() + header.offset(k);
    let end = start + value_length(&v[start..]).unwrap_or(0);
    Part { start, end }
}
