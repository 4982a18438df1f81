// The second engine, for a controller in C: it works in slices that the caller lends.
ghost use Rattle.groovepawn.specs.Fast.{FastCall};

use crate::summary_word;

// Refusals: 22, 1 to 10, 23, 11: with 11 the marks are written as with no refusal.
pub fn groovepawn_prepare_fast(
    reading: u8,
    file: &[u8],
    marks: &mut [u8],
    stack: &mut [u16],
    from: &mut [u16],
    ways: &mut [u16],
    bound: &mut [u16],
    place: &mut [u16],
) -> u64
    ensures { FastCall reading file.now marks.old (record { stack = stack.old; from = from.old; ways = ways.old; bound = bound.old; place = place.old }) result marks.new (record { stack = stack.new; from = from.new; ways = ways.new; bound = bound.new; place = place.new }) }
{
    summary_word(fast::prepare_fast(reading, file, marks, stack, from, ways, bound, place))
}
