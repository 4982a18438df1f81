// What a record expects, compared with what came out.
use crate::lists::{same_longs, same_pairs, same_words};
use crate::numbers::Cursor;
use crate::parts;
use crate::parts::PARTS;
use crate::strings::same_string;

// The first part that came out different, or `PARTS` if all came out as expected.
pub fn compared(
    cases: &[u8],
    places: &[usize; PARTS],
    got: u64,
    written: &[u8],
    state: &[u16],
    totals: &[u32],
    struck: &[u8],
    reasons: &[u64],
) -> usize {
    let expected = Cursor::new(places[parts::ANSWER]).long(cases);
    if got != expected.value {
        parts::ANSWER
    } else if !same_string(cases, places[parts::WRITTEN_AFTER], written) {
        parts::WRITTEN_AFTER
    } else if !same_pairs(cases, places[parts::STATE_AFTER], state) {
        parts::STATE_AFTER
    } else if !same_words(cases, places[parts::TOTALS_AFTER], totals) {
        parts::TOTALS_AFTER
    } else if !same_string(cases, places[parts::STRUCK_AFTER], struck) {
        parts::STRUCK_AFTER
    } else if !same_longs(cases, places[parts::REASONS_AFTER], reasons) {
        parts::REASONS_AFTER
    } else {
        PARTS
    }
}
