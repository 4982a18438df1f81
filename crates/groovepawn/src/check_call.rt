// The check alone, for a controller in C: it tells how many marks a policy needs.
ghost use Rattle.groovepawn.specs.Check.{CheckCall};

use crate::refusal_word;
use policy::layout_of;

// Refusals 1 to 9, or the number of states.
pub fn groovepawn_check(file: &[u8]) -> u64
    ensures { CheckCall file.now result }
{
    match layout_of(file) {
        Ok(layout) => layout.states as u64 * 256,
        Err(refusal) => u64::from(refusal_word(refusal)),
    }
}
