// Flags, a byte each: 1 where it is set.
ghost use Rattle.std.specs.Prelude.{◌≡◌, ◌⊎◌, ◌≤◌, ◌<◌, eqb, length};
ghost use Rattle.usage.specs.Sift.{rank};
ghost use Rattle.usage.specs.Clean.{renumbered};
ghost use Rattle.usage.specs.Code.{flags_of};

use policy::limits::VIOLATION;

// The byte of a rule of which it is open still whether it is used.
pub(crate) const OPEN: u8 = 2;

// How many of the first n are set: the new number of n.
pub fn rank(flags: &[u8], n: usize) -> usize
    requires { (n ≤ length flags.now) × (n ≤ 256) }
    ensures { (result ≡ rank (flags_of flags.now) n) × (result ≤ n) }
{
    flags[..n].iter().filter(|flag| **flag == 1).count()
}

// The new number of a target; 255 stays.
pub fn renumber(entered: &[u8], target: usize) -> usize
    requires { ((target < length entered.now) ⊎ (target ≡ 255)) × (length entered.now ≤ 64) }
    ensures { (result ≡ renumbered (flags_of entered.now) target) × (result ≤ target) }
{
    if target == VIOLATION {
        return VIOLATION;
    }
    rank(entered, target)
}
