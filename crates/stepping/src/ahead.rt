// A pass over the rules of a location: which are still ahead.
ghost use Rattle.std.specs.Prelude.{◌≡◌, ◌+◌, ◌-◌, ◌*◌, ◌^◌, ◌≤◌, ◌<◌};
ghost use Rattle.std.specs.Iterator.{at_most};
ghost use Rattle.policy.specs.File.{rule_size};
ghost use Rattle.stepping.specs.Ready.{Laid, HereOf};
ghost use Rattle.stepping.specs.RuleAhead.{AllAhead};
ghost use Rattle.stepping.specs.RulePlaces.{AllPlaces, Gives};

use crate::here::Here;
use policy::Layout;
use policy::limits::{BOUND_SIZE, RULE_HEAD};

// The rules that are ahead: where the first of them stands in the file, and how many there are.
#[derive(Clone, Copy)]
pub struct RulesAhead {
    pub at: usize,
    pub ahead: usize,
}

// Before the first rule all of the location's own are ahead.
pub fn rules_ahead(file: &[u8], layout: Layout, here: Here) -> RulesAhead
    requires { Laid file.now layout × HereOf file.now layout here }
    ensures { AllAhead file.now layout here result }
{
    let at = layout.rules_start + here.own.start;
    RulesAhead {
        at,
        ahead: here.own.count,
    }
}

impl RulesAhead {
    // Past the first of them the others are ahead.
    pub fn rest(self, layout: Layout) -> Self
        requires { (0 < self.ahead) × (self.at < 65536) × (layout.clocks ≤ 4) }
        ensures { result ≡ record { at = self.at + rule_size layout.clocks; ahead = self.ahead - 1 } }
    {
        RulesAhead {
            at: self.at + (RULE_HEAD + BOUND_SIZE * layout.clocks),
            ahead: self.ahead - 1,
        }
    }
}

// Where the rules of a location stand in the file, one after the other: each is `size` bytes behind the one before it.
#[derive(Drop)]
pub struct RulePlaces {
    pub at: usize,
    pub ahead: usize,
    pub size: usize,
}

// Before the first rule all of the location's own are ahead.
pub fn rule_places(file: &[u8], layout: Layout, here: Here) -> RulePlaces
    requires { Laid file.now layout × HereOf file.now layout here }
    ensures { AllPlaces file.now layout here result }
{
    let rules = rules_ahead(file, layout, here);
    RulePlaces {
        at: rules.at,
        ahead: rules.ahead,
        size: RULE_HEAD + BOUND_SIZE * layout.clocks,
    }
}

impl Iterator for RulePlaces {
    type Item = usize;

    ghost can_next = { λ rules. rules.at + rules.ahead * rules.size < 2 ^ 64 };

    ghost next_gives = { Gives };

    ghost remaining = { λ rules. at_most rules.ahead };

    fn next(&mut self) -> Option<usize> {
        if self.ahead == 0 {
            return None;
        }
        let at = self.at;
        self.at += self.size;
        self.ahead -= 1;
        Some(at)
    }
}
