// A call of the builder with its storage that a value asks for, for a program to run these.
ghost use Rattle.std.specs.Prelude.{◌≡◌};
ghost use Rattle.refusals.specs.Decide.{name_in};
ghost use Rattle.semantics.specs.Refusal.{number_told};
ghost use Rattle.builder_mut.specs.Calls.{SameSlices, bytes_told, call_of, lent_step, outcome_of, state_behind};

use crate::{Call, VariantBuilder};
use builder::Packed;
use semantics::Refusal;
use value::variant::OfKind;

impl VariantBuilder<'_> {
    // Of a finish the bytes that it wrote into `out`; any other call writes none, and leaves it. A register with no name takes the empty one.
    // Kept (7; no plainer): the calls are an enum, each with what it takes, and each arm is the method of its name.
    #[tactic(auto, using(crate::proofs::LendLaws::written_none))]
    pub fn lend(
        &mut self,
        call: Call,
        name: Option<&[u8]>,
        bytes: &[u8],
        uuid: [u8; 16],
        out: &mut [u8],
    ) -> Result<usize, Refusal>
        ensures call { outcome_of result self.new out.new ≡ lent_step (state_behind self.old)
            (call_of call (name_in name.entry) bytes.now uuid out.old) out.old }
        ensures same_slices { SameSlices self.old self.new }
    {
        match call {
            Call::AddFieldName => lent(self.add_field_name(name.unwrap_or(b""))),
            Call::AppendValue(x) => lent(self.append(name, x)),
            Call::AppendBytes(kind) => lent(self.append(name, OfKind { kind, bytes })),
            Call::AppendUuid => lent(self.append(name, uuid)),
            Call::NewList => lent(self.new_list(name)),
            Call::NewObject => lent(self.new_object(name)),
            Call::Close => lent(self.close()),
            Call::Rollback => lent(self.rollback()),
            Call::WithValidateUniqueFields(on) => lent(self.with_validate_unique_fields(on)),
            Call::Finish => self.finish(out),
            Call::AppendCivil(x) => lent(self.append(name, x)),
            Call::AppendPacked(scale) => lent(self.append(name, Packed { scale, bytes })),
            Call::Mark => lent(self.mark()),
            Call::ReturnTo(mark) => lent(self.return_to(mark)),
        }
    }
}

// A call that writes no bytes.
fn lent(answer: Result<(), Refusal>) -> Result<usize, Refusal>
    ensures number { number_told result ≡ number_told answer }
    ensures none { bytes_told result ≡ 0 }
{
    answer.map(|()| 0)
}
