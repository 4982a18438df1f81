// The tags of a policy's signals, as parts of its file.
ghost use Rattle.std.specs.Prelude.{MatchResult, ◌≡◌};
ghost use Rattle.policy.specs.Check.{refusal_of};
ghost use Rattle.refusals.specs.Refused.{number_of};
ghost use Rattle.waves.specs.Tags.{Tagged};

use policy::layout_of;
use refusals::Refusal;

#[derive(Clone, Copy)]
pub struct Tags<'a> {
    pub inputs: &'a [u8],
    pub outputs: &'a [u8],
}

pub(crate) fn tags_of(file: &[u8]) -> Result<Tags, Refusal>
    ensures { MatchResult result (λ t. Tagged file.now t.inputs.now t.outputs.now) (λ r. refusal_of file.now ≡ number_of r) }
{
    let layout = layout_of(file)?;
    let inputs_end = 1 + layout.inputs;
    let outputs_start = inputs_end + 1;
    let outputs_end = outputs_start + layout.outputs;
    Ok(Tags {
        inputs: &file[1..inputs_end],
        outputs: &file[outputs_start..outputs_end],
    })
}
