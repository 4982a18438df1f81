// The calls for a wave viewer: a stream as the text of a Value Change Dump file, and back.
ghost use Rattle.groovepawn.specs.Waves.{WaveWriteCall, WaveReadCall};

use crate::refusal_word;

// Refusals: 1 to 9, 29, 15, 14.
pub fn groovepawn_wave_write(file: &[u8], events: &[u8], text: &mut [u8]) -> u64
    ensures { WaveWriteCall file.now events.now text.old result text.new }
{
    match waves::write(file, events, text) {
        Ok(length) => length as u64 * 256,
        Err(refusal) => u64::from(refusal_word(refusal)),
    }
}

// Refusals: 1 to 9, 21, 14.
pub fn groovepawn_wave_read(file: &[u8], text: &[u8], events: &mut [u8]) -> u64
    ensures { WaveReadCall file.now text.now events.old result events.new }
{
    match waves::take(file, text, events) {
        Ok(count) => count as u64 * 256,
        Err(refusal) => u64::from(refusal_word(refusal)),
    }
}
