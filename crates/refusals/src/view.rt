// Tests of what a call sees.
ghost use Rattle.std.specs.Prelude.{◌≡◌};
ghost use Rattle.metadata.specs.Names.{intact};
ghost use Rattle.semantics.specs.Record.{in_list, in_object, is_open, unique_now};
ghost use Rattle.semantics.specs.Damage.{grown as grown_of, over_used};
ghost use Rattle.semantics.specs.Table.{second_top};
ghost use Rattle.refusals.specs.Decide.{broken_of, misnamed_by, storage_in};

use crate::Seen;
use encoding::slices::counted;
use metadata::Names;
use semantics::{View, good_floor};

impl Seen<'_> {
    // The names that are held.
    pub fn names(&self) -> Names<'_>
        ensures counts { result.counts ≡ self.now.view.now.counts.dictionary }
        ensures text { result.text.now ≡ self.now.text.now }
        ensures ends { result.ends.now ≡ self.now.ends.now }
    {
        Names {
            counts: self.view.counts.dictionary,
            text: self.text,
            ends: self.ends,
        }
    }

    // Do their ends not fall, and reach the name bytes used?
    pub(crate) fn names_intact(&self) -> bool
        ensures { result ≡ intact self.now.view.now.counts.dictionary self.now.text.now self.now.ends.now }
    {
        self.names().intact()
    }

    // What every call asks of number 1.
    #[tactic(auto, unfolding(semantics::specs::Damage::unchained, semantics::specs::Damage::bad_floor))]
    pub(crate) fn broken(&self) -> bool
        ensures { result ≡ broken_of self.now.view.now (storage_in self.now) }
    {
        self.over_used()
            || !(self.view.chain && self.grown())
            || !good_floor(self.view.counts.floor)
    }

    // Does a used count exceed its lent slice?
    #[tactic(auto, unfolding(semantics::specs::Damage::over_used))]
    fn over_used(&self) -> bool
        ensures { result ≡ over_used self.now.view.now (storage_in self.now) }
    {
        let c = self.view.counts;
        counted(self.value.len()) < c.value
            || self.names().exceeds()
            || self.entries.len() / 2 < c.entries
            || self.undo.len() / 2 < c.undo
    }

    // Do the innermost's starting marks lie within the used counts, and does a list count no more elements than its data has bytes?
    fn grown(&self) -> bool
        ensures { result ≡ grown_of self.now.view.now }
    {
        let k = self.view.inner;
        let c = self.view.counts;
        let m = c.dictionary;
        k.value <= c.value
            && k.names <= m.num_field_names()
            && k.text <= m.metadata_size()
            && k.entries <= c.entries
            && k.undo <= c.undo
            && (k.object || self.view.elements <= c.value.saturating_sub(k.value))
    }

    pub(crate) fn is_open(&self) -> bool
        ensures { result ≡ is_open self.now.view.now }
    {
        0 < self.view.counts.depth
    }

    pub(crate) fn in_object(&self) -> bool
        ensures { result ≡ in_object self.now.view.now }
    {
        self.is_open() && self.view.inner.object
    }

    pub(crate) fn in_list(&self) -> bool
        ensures { result ≡ in_list self.now.view.now }
    {
        self.is_open() && !self.view.inner.object
    }

    // Row 5.
    // Kept (1c; no plainer): only whether a name is given counts.
    pub(crate) fn misnamed(&self, named: bool) -> bool
        ensures { result ≡ misnamed_by named self.now.view.now }
    {
        named != self.in_object()
    }

    // Row 6.
    pub(crate) fn second_top(&self) -> bool
        ensures { result ≡ second_top self.now.view.now }
    {
        !self.is_open() && 0 < self.view.counts.value
    }

    // The same, of what this call sees.
    pub fn unique_now(&self) -> bool
        ensures { result ≡ unique_now self.now.view.now }
    {
        unique_now(self.view)
    }
}

// The uniqueness mark that holds now.
pub fn unique_now(v: &View) -> bool
    ensures { result ≡ unique_now v.now }
{
    if 0 < v.counts.depth {
        v.inner.unique
    } else {
        v.counts.unique
    }
}
