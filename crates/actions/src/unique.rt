// The uniqueness mark of the innermost object.
// Derived from `ObjectBuilder::with_validate_unique_fields` of parquet-variant 60.1.0, src/builder/object.rs (see NOTICE). Changed:
// written in Rattle, over what a call sees of the record.
ghost use Rattle.std.specs.Prelude.{◌≡◌};
ghost use Rattle.semantics.specs.Step.{with_unique};
ghost use Rattle.refusals.specs.Decide.{storage_in};
ghost use Rattle.actions.specs.Actions.{SetsUnique};

use refusals::Seen;
use semantics::{Container, Refusal};

// Kept (1c; no plainer): the mark is the caller's yes or no, and is kept as it is given.
pub fn unique_over(s: &Seen, unique: bool) -> Result<Container, Refusal>
    ensures { SetsUnique s.now.view.now (storage_in s.now) unique result }
{
    s.may_set_unique()?;
    Ok(with_unique(s.view.inner, unique))
}

// Kept (1c, 2; no plainer): one field put, as `with_marks` puts another; the type of each says what may be put.
#[tactic(auto, unfolding(semantics::specs::Step::with_unique))]
pub(crate) fn with_unique(k: Container, unique: bool) -> Container
    ensures { result ≡ with_unique k unique }
{
    Container { unique, ..k }
}
