// Milliseconds as ticks, for a controller in C.
ghost use Rattle.groovepawn.specs.Calls.{TicksCall};

use crate::refusal_word;
use ticks::{Milliseconds, Rounding};

// Refusals: 18, 19.
pub fn groovepawn_ticks(milliseconds: u32, tick_length: u32, up: u8) -> u32
    ensures { TicksCall milliseconds tick_length up result }
{
    let rounding = if up == 0 {
        Rounding::Down
    } else {
        Rounding::Up
    };
    match Milliseconds(milliseconds).to_ticks(Milliseconds(tick_length), rounding) {
        Ok(t) => t.count() * 256,
        Err(refusal) => refusal_word(refusal),
    }
}
