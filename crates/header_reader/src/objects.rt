// An object's header.
ghost use Rattle.std.specs.Prelude.{◌≡◌, map};
ghost use Rattle.metadata.specs.Bytes.{dictionary_names};
ghost use Rattle.metadata.specs.Names.{ascending};
ghost use Rattle.container.specs.Sort.{name_at};
ghost use Rattle.grammar.specs.Tests.{object_head};
ghost use Rattle.header_reader.specs.Heads.{ids_good};

use crate::header::{Header, is_whole};
use crate::kinds::Kind;
use crate::numbers::Numbers;
use crate::windows::are_apart;
use lexicon::{name_below, name_count};

// The size of the header of bytes that are one object by their header, over a dictionary: as long as they say, unused bits zero, each
// offset the start of a value, no two alike, ids those of strictly ascending names.
// Not put in line, as `list_head`: the windows' cells then lie in no frame of the walk.
// Kept (5b; no plainer): the dictionary only names the ids; the two go together into no other function here.
#[inline(never)]
pub fn object_head(d: &[u8], v: &[u8]) -> Option<usize>
    ensures { result ≡ object_head (dictionary_names d.now) v.now }
{
    if !is_whole(v, Kind::Object) {
        return None;
    }
    let header = Header::of_object(v);
    let from = header.from();
    if !ids_good(d, &header) {
        return None;
    }
    are_apart(&header, &v[from..]).then_some(from)
}

// Are the ids those of strictly ascending names?
fn ids_good(d: &[u8], header: &Header) -> bool
    ensures { result ≡ ids_good (dictionary_names d.now) header.now.ids }
{
    header.ids().each_below(name_count(d)) && names_ascend(d, header.ids())
}

// Is the name of each of these ids below the next one's?
fn names_ascend(d: &[u8], mut ids: Numbers) -> bool
    ensures { result ≡ ascending (map (name_at (dictionary_names d.now)) ids.entry) }
{
    let Some(mut id) = ids.next() else {
        return true;
    };
    for next in ids {
        if !name_below(d, id, next) {
            return false;
        }
        id = next;
    }
    true
}
