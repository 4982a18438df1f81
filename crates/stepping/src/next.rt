// The next state.
ghost use Rattle.std.specs.Prelude.{◌≡◌};
ghost use Rattle.std.proofs.Math.Option.{bind};
ghost use Rattle.policy.specs.Rules.{stopped, advance, taken};
ghost use Rattle.policy.specs.File.{policy_of};
ghost use Rattle.stepping.specs.Code.{step_from};
ghost use Rattle.stepping.specs.State.{place};
ghost use Rattle.stepping.specs.Ready.{Laid};
ghost use Rattle.stepping.specs.Decided.{rule_said, Stands};

use crate::state::State;
use policy::Layout;
use policy::bytes::byte_within;
use policy::limits::VIOLATION;

// Each clock goes to 0 if the mask names it, else up by one and no further than its ceiling. An unused clock stays at its ceiling 0.
pub fn advanced(
    mask: usize,
    ceilings: [u16; State::CLOCKS],
    values: [u16; State::CLOCKS],
) -> [u16; State::CLOCKS]
    ensures { result ≡ advance stopped mask ceilings values }
{
    let mut next = [0u16; State::CLOCKS];
    let mut rest = mask;
    for (i, &value) in values.iter().enumerate() {
        let ceiling = ceilings[i];
        next[i] = if rest % 2 == 1 {
            0
        } else if value < ceiling {
            value + 1
        } else {
            ceiling
        };
        rest /= 2;
    }
    next
}

impl State {
    // The next state by the rule that decides, by where it stands in the file. No such rule means violation, which has no next state.
    pub fn by(self, file: &[u8], layout: Layout, rule: Option<usize>) -> Option<State>
        requires { Laid file.now layout × Stands file.now layout self.location rule }
        ensures { result ≡ step_from (bind (rule_said layout.clocks file.now rule) (taken stopped (policy_of layout.reading file.now) (place layout.clocks self))) }
    {
        let at = rule?;
        let target = byte_within(file, at + 6);
        if target == VIOLATION {
            return None;
        }
        let values = self.clocks;
        let ceilings = layout.ceilings;
        Some(State {
            location: target as u16,
            clocks: advanced(byte_within(file, at + 5), ceilings, values),
        })
    }
}
