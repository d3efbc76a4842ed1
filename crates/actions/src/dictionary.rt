// The dictionary written, and the builder finished.
// Derived from `VariantBuilder::try_finish` of parquet-variant 60.1.0, src/builder.rs (see NOTICE). Changed: written in Rattle, the
// dictionary goes into a lent output and a refused call leaves the builder.
ghost use Rattle.refusals.specs.Decide.{storage_in};
ghost use Rattle.actions.specs.Actions.{Ends};

use crate::Ended;
use refusals::Seen;
use semantics::{Counts, Refusal};

pub fn finish_over(s: &Seen, out: &mut [u8]) -> Result<Ended, Refusal>
    ensures { Ends s.now.view.now (storage_in s.now) out.old result out.new }
{
    s.may_finish()?;
    let c = s.view.counts;
    let written = s.names().finish(c.floor, out)?;
    Ok(Ended {
        counts: Counts {
            finished: true,
            ..c
        },
        written,
    })
}
