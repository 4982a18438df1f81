// Two policies joined into one, for a controller in C.
ghost use Rattle.groovepawn.specs.Calls.{JoinCall};

use crate::refusal_word;

// Refusals: 1 to 9 of the first file, then of the second, 12, 13, 14.
pub fn groovepawn_join(a: &[u8], b: &[u8], out: &mut [u8]) -> u64
    ensures { JoinCall a.now b.now out.old result out.new }
{
    match join::join(a, b, out) {
        Ok(length) => length as u64 * 256,
        Err(refusal) => u64::from(refusal_word(refusal)),
    }
}
