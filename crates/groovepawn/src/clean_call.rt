// Cleaning, for a controller in C.
ghost use Rattle.groovepawn.specs.Clean.{CleanCall};

use crate::refusal_word;

// Refusals: 22, 1 to 9, 14 for either slice.
pub fn groovepawn_clean(reading: u8, file: &[u8], cleaned: &mut [u8], struck: &mut [u8]) -> u64
    ensures { CleanCall reading file.now cleaned.old struck.old result cleaned.new struck.new }
{
    match cleaning::clean(reading, file, cleaned, struck) {
        Ok(l) => l.cleaned as u64 * 256 + l.struck as u64 * 4294967296,
        Err(refusal) => u64::from(refusal_word(refusal)),
    }
}
