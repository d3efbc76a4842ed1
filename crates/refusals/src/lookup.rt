// A name given to a call: looked up among the names, then among the innermost container's entries, in one pass each.
ghost use Rattle.std.specs.Prelude.{◌≡◌, ◌&&◌, false, true};
ghost use Rattle.metadata.specs.Calls.{lookup, told};
ghost use Rattle.metadata.specs.Names.{field_names};
ghost use Rattle.container.specs.Entries.{Searches};
ghost use Rattle.semantics.specs.Record.{in_object, inner_size};
ghost use Rattle.refusals.specs.Decide.{Sees, broken_of, into_of, known_id, live_by, name_in, name_of, named_by, storage_in};

use crate::{Entering, Field, Seen};
use container::{Search, search_entries};
use metadata::{FieldName, NameError};
use semantics::Refusal;

// A name that comes beside a flag, which says whether it is given.
// Kept (1c, 5b; C interface): the exported calls are lent a name and a number that says whether it counts.
#[tactic(auto, unfolding(crate::specs::Decide::name_of))]
pub fn name_if(named: bool, name: &[u8]) -> Option<&[u8]>
    ensures { name_in result ≡ name_of named name.now }
{
    if named { Some(name) } else { None }
}

impl Seen<'_> {
    // Kept (2; no plainer): alike in form only: another question to the dictionary.
    fn look_up(&self, name: &[u8]) -> Result<FieldName, NameError>
        ensures { told result ≡ lookup self.now.view.now.counts.dictionary self.now.text.now self.now.ends.now name.now }
    {
        self.names().field_name(name)
    }

    // The pass over the innermost container's entries, which seeks one id.
    pub(crate) fn search(&self, id: usize) -> Search
        ensures { Searches self.now.entries.now self.now.view.now.inner.entries self.now.view.now.counts.entries true
            (field_names self.now.view.now.counts.dictionary) (inner_size self.now.view.now) id result }
    {
        let c = self.view.counts;
        let k = self.view.inner;
        let names = c.dictionary.num_field_names();
        let size = c.value.saturating_sub(k.value);
        search_entries(self.entries, k.entries, c.entries, true, names, size, id)
    }

    // Has it found an entry of an object out of place?
    pub(crate) fn misplaced(&self, s: Search) -> bool
        ensures { result ≡ (in_object self.now.view.now && s.misplaced) }
    {
        self.in_object() && s.misplaced
    }

    // What that pass finds counts where a value is entered, and not for a register; that one is misplaced, in an object.
    pub(crate) fn field_of(&self, name: Option<&[u8]>, call: Entering) -> Result<Field, Refusal>
        requires { broken_of self.now.view.now (storage_in self.now) ≡ false }
        ensures { Sees (into_of call) self.now.view.now (storage_in self.now) (name_in name.entry) result }
    {
        let Some(name) = name else {
            return Ok(Field::Unnamed);
        };
        let known = self.look_up(name);
        let s = self.search(id_known(known));
        self.field_by(known, s, call)
    }

    // Of a look-up, and of what is found of its id.
    fn field_by(
        &self,
        known: Result<FieldName, NameError>,
        s: Search,
        call: Entering,
    ) -> Result<Field, Refusal>
        ensures { result ≡ named_by (into_of call) self.now.view.now known s }
    {
        if call.enters() && self.misplaced(s) {
            return Err(Refusal::Damaged);
        }
        match known? {
            FieldName::New(id) => Ok(Field::Fresh(id)),
            FieldName::Found(id) => Ok(Field::Held {
                id,
                place: self.live_place(s, call),
            }),
        }
    }

    // The place that is found of a name that is held, where it is live.
    fn live_place(&self, s: Search, call: Entering) -> Option<usize>
        ensures { result ≡ live_by (into_of call) self.now.view.now s }
    {
        if call.enters() && self.is_open() && s.place < self.view.counts.entries {
            Some(s.place)
        } else {
            None
        }
    }
}

// The id to be sought; of a name that has none it does not matter.
// Kept (1d; no plainer): the pass runs in either case, since it also tells a misplaced entry; `field_by` then answers the error.
fn id_known(known: Result<FieldName, NameError>) -> usize
    ensures { result ≡ known_id known }
{
    match known {
        Ok(FieldName::Found(id) | FieldName::New(id)) => id,
        Err(_) => 0,
    }
}
