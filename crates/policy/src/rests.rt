// Which locations may rest.
ghost use Rattle.std.specs.Prelude.{◌≡◌, ◌<◌};
ghost use Rattle.policy.specs.Rules.{rests};
ghost use Rattle.policy.specs.File.{location_count, rules_start, policy_of};

use crate::Layout;
use crate::bytes::byte_at;

// The location bytes stand before the two bytes that count the rules.
pub fn may_rest(file: &[u8], layout: Layout, location: usize) -> bool
    requires { (layout.locations ≡ location_count file.now) × (layout.rules_start ≡ rules_start file.now) × (location < layout.locations) }
    ensures { result ≡ rests (policy_of layout.reading file.now) location }
{
    byte_at(file, layout.rules_start - 2 - layout.locations + location) == 0
}
