// Each call's refusal: the first row of document 01's table whose test holds.
ghost use Rattle.std.specs.Prelude.{◌≡◌, Bool, ◌&&◌, List, ℕ, ◌≤◌, false, true, length};
ghost use Rattle.encoding.specs.Rows.{first};
ghost use Rattle.metadata.specs.Names.{field_names};
ghost use Rattle.container.specs.Entries.{Searches, room_for};
ghost use Rattle.semantics.specs.Record.{parent_size, return_to, roll_back, set_mark, uniqueness};
ghost use Rattle.semantics.specs.Damage.{uncounted};
ghost use Rattle.semantics.specs.Refusal.{number_told};
ghost use Rattle.semantics.specs.Table.{make_rows, no_mark_free, not_set, number_of};
ghost use Rattle.refusals.specs.Decide.{Backs, ClosesBy, Decides, ParentOf, Passes, broken_of, childless_by, enter_by, enter_rows, finish_by};
ghost use Rattle.refusals.specs.Decide.{full_by, into_of, late_of, live_told, misread_by, name_in, opens_of, size_told, storage_in, unkept_by, unlike_by};

use crate::{Entering, Field, Seen};
use container::{Search, search_entries};
use encoding::slices::fits;
use measure::whole_values;
use semantics::{Refusal, good_floor};

// A builder to be made.
#[tactic(auto, unfolding(encoding::specs::Rows::first))]
pub fn may_make(floor: usize) -> Result<(), Refusal>
    ensures { number_told result ≡ first (make_rows floor) }
{
    if good_floor(floor) {
        Ok(())
    } else {
        Err(Refusal::BadFloor)
    }
}

fn is_live(known: Result<Field, Refusal>) -> bool
    ensures { result ≡ live_told known }
{
    match known {
        Ok(f) => f.place().is_some(),
        Err(_) => false,
    }
}

impl Seen<'_> {
    // A register, an append and an open, and what their name means; `size` is the scalar's bytes, or its own refusal.
    pub fn may_enter(
        &self,
        name: Option<&[u8]>,
        call: Entering,
        size: Result<usize, Refusal>,
    ) -> Result<Field, Refusal>
        ensures { Decides
            (first
            (enter_rows self.now.view.now (storage_in self.now) (name_in name.entry) (into_of call) (opens_of call)
            (number_told size) (size_told size)))
            (into_of call) self.now.view.now (storage_in self.now) (name_in name.entry) result }
    {
        if self.broken() {
            return Err(Refusal::Damaged);
        }
        let known = self.field_of(name, call);
        self.rows(known, name.is_some(), call, size)
    }

    // The first row that holds, of what is known of the name.
    // Kept (1c; no plainer): row 5 asks only whether a name is given; what it means is in `known`.
    fn rows(
        &self,
        known: Result<Field, Refusal>,
        named: bool,
        call: Entering,
        size: Result<usize, Refusal>,
    ) -> Result<Field, Refusal>
        ensures { Passes (enter_by self.now.view.now known named (into_of call) (opens_of call) size (length self.now.value.now)
            (length self.now.entries.now) (length self.now.undo.now)) known result }
    {
        let live = is_live(known);
        if let Err(Refusal::Damaged) = known {
            return Err(Refusal::Damaged);
        }
        if self.view.counts.finished {
            return Err(Refusal::Finished);
        }
        if call.enters() && self.misnamed(named) {
            return Err(Refusal::Misnamed);
        }
        if call.enters() && self.second_top() {
            return Err(Refusal::SecondTop);
        }
        let size = size?;
        if let Err(Refusal::BadName) = known {
            return Err(Refusal::BadName);
        }
        if self.unique_now() && live {
            return Err(Refusal::Taken);
        }
        if call.opens() && 64 <= self.view.counts.depth {
            return Err(Refusal::TooDeep);
        }
        let field = known?;
        if self.entries_full(call, live) {
            return Err(Refusal::EntriesFull);
        }
        if self.undo_full(live) {
            return Err(Refusal::UndoFull);
        }
        if !fits(self.view.counts.value, size, self.value.len()) {
            return Err(Refusal::NoRoom);
        }
        Ok(field)
    }

    // Row 13, of a name that is live or not: a list takes no entries.
    // Kept (1c; no plainer): `live` is the answer of `is_live`, asked once for rows 10, 13 and 23.
    fn entries_full(&self, call: Entering, live: bool) -> bool
        ensures { result ≡ full_by (into_of call) self.now.view.now live (length self.now.entries.now) }
    {
        call.enters()
            && self.in_object()
            && !live
            && self.entries.len() / 2 <= self.view.counts.entries
    }

    // Row 23, of a name that is live or not: a replacement in an object with a mark takes an undo record.
    // Kept (1c; no plainer): as row 13.
    fn undo_full(&self, live: bool) -> bool
        ensures { result ≡ unkept_by self.now.view.now live (length self.now.undo.now) }
    {
        live && 0 < self.view.inner.marks && self.undo.len() / 2 <= self.view.counts.undo
    }

    // Rows 1 to 3 of a close, and the largest id of the innermost's entries, which its header's size comes from; row 14 is the
    // header's own. A list's data is walked only where row 2 holds: else closing it walks it, before anything is written.
    pub fn may_close(&self) -> Result<usize, Refusal>
        ensures { ClosesBy self.now.view.now (storage_in self.now) result }
    {
        if self.broken() {
            return Err(Refusal::Damaged);
        }
        let s = self.search(0);
        if self.misread(s) {
            return Err(Refusal::Damaged);
        }
        if self.view.counts.finished {
            return Err(Refusal::Finished);
        }
        if !self.is_open() {
            return Err(Refusal::NotOpen);
        }
        Ok(s.largest)
    }

    // A close's own part of number 1: name ends that fall, a misplaced entry or, where row 2 holds, a list's data.
    fn misread(&self, s: Search) -> bool
        ensures { result ≡ misread_by self.now.view.now (storage_in self.now) s }
    {
        !self.names_intact() || self.misplaced(s) || self.late_uncounted()
    }

    // Where row 2 holds: is the data of the innermost list not as many whole values as it counts?
    #[tactic(auto, unfolding(semantics::specs::Damage::uncounted))]
    fn late_uncounted(&self) -> bool
        ensures { result ≡ (self.now.view.now.counts.finished && uncounted self.now.view.now (storage_in self.now)) }
    {
        let v = self.view;
        v.counts.finished
            && self.in_list()
            && !whole_values(self.value, v.inner.value, v.counts.value, v.elements)
    }

    // Rows 1, 2, 4 and 15 of a finish. The name ends are asked only where 2, 4 or 15 holds: else the dictionary asks them as it is
    // written, for its rows 1 and 16.
    pub fn may_finish(&self) -> Result<(), Refusal>
        ensures { (out : List ℕ) → number_told result ≡ finish_by self.now.view.now (storage_in self.now) out }
    {
        if self.broken() {
            return Err(Refusal::Damaged);
        }
        let Err(late) = self.late_row() else {
            return Ok(());
        };
        if self.names_intact() {
            Err(late)
        } else {
            Err(Refusal::Damaged)
        }
    }

    // Rows 2, 4 and 15.
    fn late_row(&self) -> Result<(), Refusal>
        ensures { number_told result ≡ late_of self.now.view.now }
    {
        if self.view.counts.finished {
            return Err(Refusal::Finished);
        }
        if self.is_open() {
            return Err(Refusal::StillOpen);
        }
        if self.view.counts.value == 0 {
            return Err(Refusal::NoValue);
        }
        Ok(())
    }

    // A roll back, and the place of the parent's entry that gets its former offset again.
    pub fn may_roll_back(&self) -> Result<Option<usize>, Refusal>
        ensures { Backs (number_of self.now.view.now (storage_in self.now) roll_back) self.now.view.now
            (storage_in self.now) result }
    {
        if self.broken() {
            return Err(Refusal::Damaged);
        }
        let place = self.parent_entry()?;
        if self.view.counts.finished {
            return Err(Refusal::Finished);
        }
        if !self.is_open() {
            return Err(Refusal::NotOpen);
        }
        Ok(place)
    }

    // Of a child that is not at the top level: where is the parent's entry of its id, if it replaced one; or the parent is damaged
    // for it. A list has no entries, but elements, the child among them.
    fn parent_entry(&self) -> Result<Option<usize>, Refusal>
        requires { self.now.view.now.inner.entries ≤ room_for (length self.now.entries.now) }
        ensures { ParentOf self.now.view.now (storage_in self.now) result }
    {
        if self.view.counts.depth <= 1 {
            return Ok(None);
        }
        match self.view.inner.parent {
            None => {
                let s = self.search_parent(0);
                if self.childless(s) {
                    return Err(Refusal::Damaged);
                }
                Ok(None)
            }
            Some(former) => {
                let s = self.search_parent(former.id);
                if self.unlike(s, former.offset) {
                    return Err(Refusal::Damaged);
                }
                Ok(Some(s.place))
            }
        }
    }

    // The pass over the parent's entries, which seeks one id.
    fn search_parent(&self, id: usize) -> Search
        ensures { Searches self.now.entries.now self.now.view.now.parent.entries self.now.view.now.inner.entries true
            (field_names self.now.view.now.counts.dictionary) (parent_size self.now.view.now) id result }
    {
        let k = self.view.inner;
        let p = self.view.parent;
        let names = self.view.counts.dictionary.num_field_names();
        let size = k.value.saturating_sub(p.value);
        search_entries(self.entries, p.entries, k.entries, true, names, size, id)
    }

    // Has the parent of a new child no entry or, of a list, no element?
    fn childless(&self, s: Search) -> bool
        ensures { result ≡ childless_by self.now.view.now s }
    {
        let p = self.view.parent;
        if p.object {
            s.misplaced || self.view.inner.entries <= p.entries
        } else {
            self.view.siblings == 0
        }
    }

    // Is the parent of a child that replaced another no object, or has it no entry of its id, too little data or, under a mark, no
    // undo record more?
    fn unlike(&self, s: Search, offset: usize) -> bool
        ensures { result ≡ unlike_by self.now.view.now s offset }
    {
        let k = self.view.inner;
        let p = self.view.parent;
        !p.object
            || s.misplaced
            || k.entries <= s.place
            || k.value.saturating_sub(p.value) < offset
            || (0 < p.marks && k.undo == p.undo)
    }

    // The uniqueness mark to be set.
    #[tactic(auto, using(crate::proofs::NumberLaws::unique_rows))]
    pub fn may_set_unique(&self) -> Result<(), Refusal>
        ensures { (u : Bool) → number_told result ≡ number_of self.now.view.now (storage_in self.now) (uniqueness u) }
    {
        if self.broken() {
            return Err(Refusal::Damaged);
        }
        if self.view.counts.finished {
            return Err(Refusal::Finished);
        }
        if !self.in_object() {
            return Err(Refusal::NotOpen);
        }
        Ok(())
    }

    // A mark to be set: none is free, or no container is open.
    pub fn may_mark(&self) -> Result<(), Refusal>
        ensures { number_told result ≡ number_of self.now.view.now (storage_in self.now) set_mark }
    {
        if self.broken() {
            return Err(Refusal::Damaged);
        }
        if self.view.counts.finished {
            return Err(Refusal::Finished);
        }
        if self.no_mark_free() {
            return Err(Refusal::NoMark);
        }
        Ok(())
    }

    // Row 22, of a mark to be set.
    fn no_mark_free(&self) -> bool
        ensures { result ≡ no_mark_free self.now.view.now }
    {
        !self.is_open() || 16 <= self.view.inner.marks
    }

    // A return to mark j: that one is not set. It reads the innermost entries.
    pub fn may_return(&self, j: usize) -> Result<(), Refusal>
        ensures { number_told result ≡ number_of self.now.view.now (storage_in self.now) (return_to j) }
    {
        if self.broken() {
            return Err(Refusal::Damaged);
        }
        let s = self.search(0);
        if self.misplaced(s) {
            return Err(Refusal::Damaged);
        }
        if self.view.counts.finished {
            return Err(Refusal::Finished);
        }
        if self.not_set(j) {
            return Err(Refusal::NoMark);
        }
        Ok(())
    }

    // Row 22, of a return.
    fn not_set(&self, j: usize) -> bool
        ensures { result ≡ not_set self.now.view.now j }
    {
        !self.is_open() || j == 0 || self.view.inner.marks < j
    }
}
