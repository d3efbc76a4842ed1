// The calls as methods of the builder with its storage, each over the call of thin.rt of the same name.
// Derived from the `&mut self` methods of parquet-variant 60.1.0: see lib.rt and NOTICE. Changed: written in Rattle.
// Kept (2; project rule): the calls have the Rust's names (docs/DECISIONS.md), one each, though some are alike in form.
ghost use Rattle.std.specs.Prelude.{◌≡◌, false, true};
ghost use Rattle.semantics.specs.Record.{append as append_of, close as close_of, finish as finish_of};
ghost use Rattle.semantics.specs.Record.{open_in, register as register_of, return_to, roll_back, set_mark, uniqueness};
ghost use Rattle.refusals.specs.Decide.{name_in};
ghost use Rattle.builder_mut.specs.Calls.{DoesBehind, FinishesBehind, SameSlices};

use crate::{VariantBuilder, thin};
use builder::Scalar;
use semantics::Refusal;

impl VariantBuilder<'_> {
    // A name given beforehand, or while containers are open: a new one belongs to the innermost and goes when that one is rolled back.
    pub fn add_field_name(&mut self, name: &[u8]) -> Result<(), Refusal>
        ensures call { DoesBehind result self.old self.new (register_of name.now) }
        ensures same_slices { SameSlices self.old self.new }
    {
        thin::add_field_name(
            self.builder,
            &mut *self.marks,
            &mut *self.value,
            self.text,
            self.ends,
            &mut *self.entries,
            &mut *self.undo,
            name,
        )
    }

    // A scalar: of fixed size, a date or a date and a time of day, packed decimal, bytes of a kind, or a UUID.
    pub fn append<X: Scalar>(&mut self, name: Option<&[u8]>, x: X) -> Result<(), Refusal>
        ensures call { DoesBehind result self.old self.new (append_of (name_in name.entry) (X.scalar x)) }
        ensures same_slices { SameSlices self.old self.new }
    {
        thin::append(
            self.builder,
            &mut *self.marks,
            self.value,
            self.text,
            self.ends,
            self.entries,
            self.undo,
            name,
            x,
        )
    }

    pub fn new_list(&mut self, name: Option<&[u8]>) -> Result<(), Refusal>
        ensures call { DoesBehind result self.old self.new (open_in (name_in name.entry) false) }
        ensures same_slices { SameSlices self.old self.new }
    {
        thin::new_list(
            self.builder,
            &mut *self.marks,
            &mut *self.value,
            self.text,
            self.ends,
            self.entries,
            self.undo,
            name,
        )
    }

    pub fn new_object(&mut self, name: Option<&[u8]>) -> Result<(), Refusal>
        ensures call { DoesBehind result self.old self.new (open_in (name_in name.entry) true) }
        ensures same_slices { SameSlices self.old self.new }
    {
        thin::new_object(
            self.builder,
            &mut *self.marks,
            &mut *self.value,
            self.text,
            self.ends,
            self.entries,
            self.undo,
            name,
        )
    }

    pub fn close(&mut self) -> Result<(), Refusal>
        ensures call { DoesBehind result self.old self.new close_of }
        ensures same_slices { SameSlices self.old self.new }
    {
        thin::close(
            self.builder,
            &mut *self.marks,
            self.value,
            &mut *self.text,
            &mut *self.ends,
            self.entries,
            &mut *self.undo,
        )
    }

    pub fn rollback(&mut self) -> Result<(), Refusal>
        ensures call { DoesBehind result self.old self.new roll_back }
        ensures same_slices { SameSlices self.old self.new }
    {
        thin::rollback(
            self.builder,
            &mut *self.marks,
            &mut *self.value,
            &mut *self.text,
            &mut *self.ends,
            self.entries,
            &mut *self.undo,
        )
    }

    // The uniqueness mark of the innermost object, for later calls.
    // Kept (1c; project rule): the call has the Rust's name and its parameter (docs/DECISIONS.md).
    pub fn with_validate_unique_fields(&mut self, unique: bool) -> Result<(), Refusal>
        ensures call { DoesBehind result self.old self.new (uniqueness unique) }
        ensures same_slices { SameSlices self.old self.new }
    {
        thin::with_validate_unique_fields(
            self.builder,
            &mut *self.marks,
            &mut *self.value,
            &mut *self.text,
            &mut *self.ends,
            &mut *self.entries,
            &mut *self.undo,
            unique,
        )
    }

    // One mark more in the innermost container: the next number, at most 16.
    pub fn mark(&mut self) -> Result<(), Refusal>
        ensures call { DoesBehind result self.old self.new set_mark }
        ensures same_slices { SameSlices self.old self.new }
    {
        thin::mark(
            self.builder,
            self.marks,
            &mut *self.value,
            &mut *self.text,
            &mut *self.ends,
            &mut *self.entries,
            &mut *self.undo,
        )
    }

    // The return to a mark of the innermost container: that one stays set, later ones are gone.
    pub fn return_to(&mut self, mark: usize) -> Result<(), Refusal>
        ensures call { DoesBehind result self.old self.new (return_to mark) }
        ensures same_slices { SameSlices self.old self.new }
    {
        thin::return_to(
            self.builder,
            &mut *self.marks,
            &mut *self.value,
            &mut *self.text,
            &mut *self.ends,
            self.entries,
            &mut *self.undo,
            mark,
        )
    }

    // The dictionary at the start of `out`, and the builder finished: `VariantBuilder::finish` of the Rust.
    pub fn finish(&mut self, out: &mut [u8]) -> Result<usize, Refusal>
        ensures call { FinishesBehind result self.old self.new out.new (finish_of out.old) }
        ensures same_slices { SameSlices self.old self.new }
    {
        thin::finish(
            self.builder,
            &mut *self.marks,
            &mut *self.value,
            &mut *self.text,
            &mut *self.ends,
            &mut *self.entries,
            &mut *self.undo,
            out,
        )
    }
}
